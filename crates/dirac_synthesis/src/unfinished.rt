//! The residual of a plane whose last level may still be to be synthesised.
ghost use Rattle.std.specs.Prelude.{◌≡◌, ◌+◌, ◌*◌, ◌^◌, ◌<◌, ◌≤◌, length, unsigned_abs, IfOk};
ghost use Rattle.std.specs.List.{All};
ghost use Rattle.dirac_common.specs.Limits.{IsDepth, IsWavelet};
ghost use Rattle.dirac_synthesis.specs.Fits.{AreRestorableBands};
ghost use Rattle.dirac_synthesis.specs.Levels.{IsLevel, next_low};
ghost use Rattle.dirac_synthesis.specs.Planes.{IsRestorablePlane};
ghost use Rattle.dirac_synthesis.specs.Residual.{cut, residual, rows_between};
ghost use Rattle.dirac_synthesis.specs.Unfinished.{CanMakeRows, IsUnfinishedPart, part_table};
ghost use Rattle.dirac_synthesis.specs.Zeros.{zeros};

use crate::bands::{Level, have_one_index};
use crate::cut::{cut_off, rows_of};
use crate::held::Residual;
use crate::last::{LastLevel, last_rows};
use crate::levels::next_level;
use crate::narrow::are_narrow;
use crate::plane::{CodedPlane, have_zeros_alone, level_of, low_after};
use dirac_coeffs::CodedBand;
use dirac_common::{Kind, LARGEST_TABLE_SIDE, NoMemory};
use dirac_lift::{Held, is_narrow};
use dirac_parameters::Transform;
use std::alloc::Global;
use std::marker::Model;

/// How many columns and rows a plane has.
#[derive(Clone, Copy, Drop)]
pub struct Extent {
    pub width: u32,
    pub height: u32,
}

/// What is made of a residual: that it is 0 everywhere, all of it, or all levels but the last.
#[derive(Drop)]
pub enum Part<'a> {
    Zeros(Extent),
    Whole(Residual),
    Lines(LastLevel<'a>),
}

/// The residual of a plane. Where 32 bits are enough for its last level, this is synthesised as its rows are asked
/// for.
#[derive(Drop)]
pub struct Unfinished<'a> {
    part: Part<'a>,
}

impl<'a> Model for Unfinished<'a> {
    ghost use Rattle.dirac_common.specs.Table.{Table};
    ghost use Rattle.dirac_synthesis.specs.Unfinished.{IsUnfinishedPart, part_table};

    ghost Value = { Table };

    ghost view = { λ u. part_table u.part };

    ghost invariant = { λ u. IsUnfinishedPart u.part };
}

/// All of a residual whose last level is made at once.
fn whole_part<'a>(
    alloc: Global,
    level: Level<'a>,
    low: &Residual,
    width: u32,
    height: u32,
) -> Result<Part<'a>, NoMemory>
    requires level { IsLevel level.by low.now level.bands }
    requires across { (1 ≤ width) × (width ≤ 2 * low.now.width) × (width ≤ LARGEST_TABLE_SIDE) }
    requires down { (1 ≤ height) × (height ≤ 2 * low.now.height) × (height ≤ LARGEST_TABLE_SIDE) }
    ensures value { IfOk result (λ p. part_table p ≡ cut width height
        (next_low level.entry.by low.now level.entry.bands)) }
    ensures rows { IfOk result CanMakeRows }
{
    let next = next_level(alloc, level.by, low, level.bands)?;
    let whole = cut_off(alloc, next, width, height)?;
    Ok(Part::Whole(whole))
}

/// What is made of a residual before its last level: where 32 bits are enough for this, and the codeblocks of each band
/// have its index, its rows wait.
fn part_before<'a>(
    alloc: Global,
    level: Level<'a>,
    low: Residual,
    width: u32,
    height: u32,
) -> Result<Part<'a>, NoMemory>
    requires level { IsLevel level.by low level.bands }
    requires across { (1 ≤ width) × (width ≤ 2 * low.width) × (width ≤ LARGEST_TABLE_SIDE) }
    requires down { (1 ≤ height) × (height ≤ 2 * low.height) × (height ≤ LARGEST_TABLE_SIDE) }
    ensures value { IfOk result (λ p. part_table p ≡ cut width height
        (next_low level.entry.by low level.entry.bands)) }
    ensures rows { IfOk result CanMakeRows }
{
    match low.into_held() {
        Held::Narrow(low) => {
            let bands = level.bands;
            let by = level.by;
            if is_narrow(low.values())
                && are_narrow(bands, by.kind)
                && have_one_index(bands, by.counts)
            {
                return Ok(Part::Lines(LastLevel {
                    low,
                    bands,
                    kind: by.kind,
                    wavelet: by.wavelet,
                    width,
                    height,
                }));
            }
            whole_part(alloc, level, &Residual::of_narrow(low), width, height)
        }
        Held::Wide(low) => whole_part(alloc, level, &Residual::of_wide(low), width, height),
    }
}

/// The levels of a residual but the last, where there is one.
fn first_part<'a>(alloc: Global, plane: &CodedPlane<'_, 'a>) -> Result<Part<'a>, NoMemory>
    requires { IsRestorablePlane plane.now }
    ensures value { IfOk result (λ p. part_table p ≡ residual plane.now.transform.now plane.now.kind plane.now.bands.now
        plane.now.width plane.now.height) }
    ensures bound { IfOk result (λ p. All (λ v. unsigned_abs v ≤ 2 ^ 108) (part_table p).values) }
    ensures rows { IfOk result CanMakeRows }
{
    let (width, height) = (plane.width, plane.height);
    if have_zeros_alone(plane.bands) {
        return Ok(Part::Zeros(Extent { width, height }));
    }
    let last = plane.transform.depth - 1;
    let low = low_after(alloc, plane, last)?;
    let level = level_of(plane.transform, plane.kind, plane.bands, last as usize);
    part_before(alloc, level, low, width, height)
}

/// The residual of a plane of `width` by `height` samples from its subbands, which stand in the order LL, then HL, LH
/// and HH of levels 1 to the transform's depth. Its last level waits until rows are asked for, where it can be
/// synthesised by rows.
pub fn unfinished_residual<'a>(
    alloc: Global,
    transform: &Transform,
    kind: Kind,
    bands: &'a [CodedBand],
    width: u32,
    height: u32,
) -> Result<Unfinished<'a>, NoMemory>
    requires wavelet { IsWavelet transform.now.wavelet }
    requires depth { IsDepth transform.now.depth }
    requires levels { length transform.now.counts ≡ transform.now.depth + 1 }
    requires across { (1 ≤ width) × (width ≤ LARGEST_TABLE_SIDE) }
    requires down { (1 ≤ height) × (height ≤ LARGEST_TABLE_SIDE) }
    requires bands { AreRestorableBands transform.now width height bands.now }
    ensures { IfOk result (λ u. u ≡ residual transform.now kind bands.now width height) }
{
    let plane = CodedPlane {
        transform,
        kind,
        bands,
        width,
        height,
    };
    let part = first_part(alloc, &plane)?;
    Ok(Unfinished { part })
}

/// Rows `from` to `to` of a residual of which something is made.
fn rows_of_part(alloc: Global, part: &Part<'_>, from: u32, to: u32) -> Result<Residual, NoMemory>
    requires part { IsUnfinishedPart part.now }
    requires some { from < to }
    requires inside { to ≤ (part_table part.now).height }
    ensures { IfOk result (λ t. t ≡ rows_between from to (part_table part.now)) }
{
    match part {
        Part::Zeros(extent) => Residual::try_zeros(alloc, extent.width, to - from),
        Part::Whole(whole) => rows_of(alloc, whole, from, to),
        Part::Lines(level) => last_rows(alloc, level, from, to),
    }
}

impl<'a> Unfinished<'a> {
    /// A residual of zeros.
    pub fn of_zeros(width: u32, height: u32) -> Unfinished<'a>
        requires across { (1 ≤ width) × (width ≤ LARGEST_TABLE_SIDE) }
        requires down { (1 ≤ height) × (height ≤ LARGEST_TABLE_SIDE) }
        ensures { result ≡ zeros width height }
    {
        Unfinished {
            part: Part::Zeros(Extent { width, height }),
        }
    }

    /// Lends what is made of it.
    pub(crate) fn part(&self) -> &Part<'a>
        ensures value { part_table result.now ≡ self.now }
        ensures lawful { IsUnfinishedPart result.now }
    {
        &self.part
    }

    /// Rows `from` to `to` of the residual.
    pub fn rows(&self, alloc: Global, from: u32, to: u32) -> Result<Residual, NoMemory>
        requires some { from < to }
        requires inside { to ≤ self.now.height }
        ensures value { IfOk result (λ t. t ≡ rows_between from to self.now) }
        ensures bound { IfOk result (λ t. All (λ v. unsigned_abs v ≤ 2 ^ 108) t.values) }
    {
        rows_of_part(alloc, self.part(), from, to)
    }
}
