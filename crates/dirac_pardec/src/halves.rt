//! Half samples of reference pictures, made by workers: a plane each, one picture after another, so that three workers
//! at most are at work.
ghost use Rattle.std.specs.Prelude.{◌≡◌, ℕ, length, IfOk};
ghost use Rattle.std.specs.List.{All};
ghost use Rattle.std.specs.Thread.{IsSync};
ghost use Rattle.dirac_upconvert.specs.SubSamples.{Up};
ghost use Rattle.dirac_refs.specs.Halves.{AreHalves, CanBeDoubled};
ghost use Rattle.dirac_rows.specs.Answers.{AnswerRows};
ghost use Rattle.dirac_pardec.specs.Halves.{plane_of_number, up_of_number};

use crate::crew::Crew;
use dirac_common::{NoMemory, Picture, Plane, RowGate};
use dirac_decode_picture::DecodingRefs;
use dirac_header::PictureHeader;
use dirac_refs::Halves;
use dirac_rows::{map_rows, three_of};
use dirac_upconvert::{UpPlane, upconvert_for};
use std::alloc::Global;
use std::marker::Sync;
use std::thread::Threads;

/// Lends the plane of this number.
fn plane_at(picture: &Picture, plane: u32) -> &Plane
    ensures { result.now ≡ plane_of_number picture.now plane }
{
    match plane {
        0 => &picture.y,
        1 => &picture.u,
        _ => &picture.v,
    }
}

/// The plane of this number with its half samples, for vectors of this precision.
fn up_at(alloc: Global, picture: &Picture, plane: u32, precision: u8) -> Result<UpPlane, NoMemory>
    requires { CanBeDoubled picture.now }
    ensures { IfOk result (λ u. u ≡ up_of_number picture.now plane) }
{
    upconvert_for(alloc, plane_at(picture, plane), precision)
}

/// The planes Y, U, V.
fn put_together(planes: Vec<UpPlane>) -> Halves
    requires { length planes.items ≡ 3 }
    ensures { (f : ℕ → Up) → AnswerRows (λ r u. u ≡ f r) 3 planes.items → result ≡ record {
      y = f 0;
      u = f 1;
      v = f 2;
    } }
{
    let (y, u, v) = three_of(planes);
    Halves { y, u, v }
}

/// All planes of a picture for vectors that lead to whole samples: no half sample is made, so one thread does it.
fn whole_samples_of(alloc: Global, picture: &Picture) -> Result<Halves, NoMemory>
    requires { CanBeDoubled picture.now }
    ensures { IfOk result (AreHalves picture.now) }
{
    Ok(Halves {
        y: up_at(alloc, picture, 0, 0)?,
        u: up_at(alloc, picture, 1, 0)?,
        v: up_at(alloc, picture, 2, 0)?,
    })
}

/// All planes of a picture with their half samples, for vectors of this precision, each made by a worker. At precision
/// 0 no thread is begun and no gate passed.
fn halves_by_rows<R: Threads + Sync, G: RowGate>(
    crew: &Crew<R, G>,
    alloc: Global,
    picture: &Picture,
    precision: u8,
) -> Result<Halves, NoMemory>
    requires { CanBeDoubled picture.now }
    ensures { IfOk result (AreHalves picture.now) }
{
    if precision == 0 {
        return whole_samples_of(alloc, picture);
    }
    let work = |plane: u32| -> Result<UpPlane, NoMemory>
        requires { CanBeDoubled picture.now }
        ensures { IfOk result (λ u. u ≡ up_of_number picture.entry.now plane) }
    { up_at(alloc, picture, plane, precision) };
    let planes = map_rows(crew.rt, alloc, 3, crew.workers, crew.gate, &work)?;
    Ok(put_together(planes))
}

/// Keeps half samples of the pictures of these numbers for vectors of this precision, and of no other.
pub(crate) fn keep_halves_by_rows<R: Threads + Sync, G: RowGate>(
    crew: &Crew<R, G>,
    alloc: Global,
    numbers: &[u32],
    precision: u8,
    refs: &mut DecodingRefs,
)
    requires { All CanBeDoubled refs.old }
    ensures { refs.new ≡ refs.old }
{
    let double = |picture: &Picture| -> Result<Halves, NoMemory>
        requires { IsSync R.row × IsSync G.row × CanBeDoubled picture.now }
        ensures { IfOk result (AreHalves picture.now) }
    { halves_by_rows(crew, alloc, picture, precision) };
    refs.keep_halves_by(&double, numbers, precision);
}

/// Keeps half samples of the pictures that a coded picture refers to by vectors of this precision, and of no other,
/// each made by workers where it isn't kept yet; an intra picture changes nothing.
pub(crate) fn keep_named_halves<R: Threads + Sync, G: RowGate>(
    crew: &Crew<R, G>,
    alloc: Global,
    header: &PictureHeader,
    precision: u8,
    refs: &mut DecodingRefs,
)
    requires { All CanBeDoubled refs.old }
    ensures { refs.new ≡ refs.old }
{
    let double = |picture: &Picture| -> Result<Halves, NoMemory>
        requires { IsSync R.row × IsSync G.row × CanBeDoubled picture.now }
        ensures { IfOk result (AreHalves picture.now) }
    { halves_by_rows(crew, alloc, picture, precision) };
    refs.keep_named_halves_by(&double, header, precision);
}
