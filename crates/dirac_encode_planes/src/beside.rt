//! The planes of a picture, side by side.

ghost use Rattle.std.specs.Prelude.{Ok, IfOk};
ghost use Rattle.std.specs.Thread.{IsSync};
ghost use Rattle.dirac_common.specs.declared.formats.Component.{Component as TheComponent};
ghost use Rattle.dirac_common.specs.declared.formats.Component.TheVariants as component;

use dirac_common::{Component, NoMemory};
use std::marker::{Send, Sync};
use std::thread::{Threads, join};

/// What was made of each plane of a picture.
#[derive(Drop)]
pub struct Planes<T> {
    pub y: T,
    pub u: T,
    pub v: T,
}

/// What `work` makes of the planes of chroma: with three workers or more of U beside V, else one after the other.
fn chroma<R: Threads + Sync, T: Send + Drop, F: Fn(Component) -> Result<T, NoMemory> + Sync>(
    rt: &R,
    workers: u32,
    work: &F,
) -> Result<(T, T), NoMemory>
    requires { (o : TheComponent) → F.pre work.now o }
    ensures u { IfOk result (λ ps. F.post work.now component.U (Ok ps.0)) }
    ensures v { IfOk result (λ ps. F.post work.now component.V (Ok ps.1)) }
{
    if workers <= 2 {
        let u = work(Component::U)?;
        let v = work(Component::V)?;
        return Ok((u, v));
    }
    let (v, u) = join(
        rt,
        || -> Result<T, NoMemory>
            requires { (o : TheComponent) → F.pre work.now o }
            ensures { IfOk result (λ t. F.post work.entry.now component.V (Ok t)) }
        { work(Component::V) },
        || -> Result<T, NoMemory>
            requires { (o : TheComponent) → F.pre work.now o }
            ensures { IfOk result (λ t. F.post work.entry.now component.U (Ok t)) }
        { work(Component::U) },
    );
    let u = u?;
    let v = v?;
    Ok((u, v))
}

/// What `work` makes of each plane: of luma beside chroma, and with three workers or more of all three side by side.
/// Where a thread can't be had, one after the other.
pub fn side_by_side<
    R: Threads + Sync,
    T: Send + Drop,
    F: Fn(Component) -> Result<T, NoMemory> + Sync,
>(rt: &R, workers: u32, work: &F) -> Result<Planes<T>, NoMemory>
    requires { (o : TheComponent) → F.pre work.now o }
    ensures y { IfOk result (λ ps. F.post work.now component.Y (Ok ps.y)) }
    ensures u { IfOk result (λ ps. F.post work.now component.U (Ok ps.u)) }
    ensures v { IfOk result (λ ps. F.post work.now component.V (Ok ps.v)) }
{
    let (other, y) = join(
        rt,
        || -> Result<(T, T), NoMemory>
            requires { IsSync R.row × IsSync F.row × ((o : TheComponent) → F.pre work.now o) }
            ensures u { IfOk result (λ ps. F.post work.entry.now component.U (Ok ps.0)) }
            ensures v { IfOk result (λ ps. F.post work.entry.now component.V (Ok ps.1)) }
        { chroma(rt, workers, work) },
        || -> Result<T, NoMemory>
            requires { (o : TheComponent) → F.pre work.now o }
            ensures { IfOk result (λ t. F.post work.entry.now component.Y (Ok t)) }
        { work(Component::Y) },
    );
    let y = y?;
    let (u, v) = other?;
    Ok(Planes { y, u, v })
}
