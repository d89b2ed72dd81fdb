//! A level whose coefficients are at most 4,095, in 32 bits from the coded numbers on. The codeblocks of each band have
//! its index.
ghost use Rattle.std.specs.Prelude.{◌≡◌, ℕ, pos, true, ◌+◌, ◌*◌, ◌^◌, ◌<◌, ◌≤◌, length, slice_index_or, slice_set};
ghost use Rattle.std.specs.Prelude.{unsigned_abs, IfOk};
ghost use Rattle.std.specs.List.{All};
ghost use Rattle.dirac_common.specs.Limits.{IsIndex};
ghost use Rattle.dirac_common.specs.Table.{row_of, table_at};
ghost use Rattle.dirac_quant.specs.Quantiser.{scaled};
ghost use Rattle.dirac_lift.specs.Level.{synthesised};
ghost use Rattle.dirac_synthesis.specs.Fits.{IsBesides};
ghost use Rattle.dirac_synthesis.specs.Halves.{IsNarrowBand, IsRestorable, beside};
ghost use Rattle.dirac_synthesis.specs.NarrowLevels.{IsNarrowLevel};
ghost use Rattle.dirac_synthesis.specs.Codeblocks.{restored_by_one};
ghost use Rattle.dirac_synthesis.specs.Levels.{IsLevel, joined_by};

use crate::bands::{LevelBands, Synthesis};
use crate::scale::{Scale, scale_of};
use dirac_coeffs::{CodedBand, Coefficients};
use dirac_common::{Kind, LARGEST_NARROW, Narrow, NoMemory};
use dirac_lift::{RowPairs, synth_level_by_lines};
use dirac_quant::{narrow_limit, restore_narrow};
use std::alloc::Global;

/// Whether all coefficients of a band are at most 4,095 in magnitude.
fn is_narrow_band(band: &CodedBand, kind: Kind) -> bool
    requires { IsIndex band.now.index }
    ensures { result ≡ true → IsNarrowBand kind band.now }
{
    band.table.largest() <= narrow_limit(band.index, kind)
}

/// Whether those of three bands are.
pub fn are_narrow(bands: LevelBands, kind: Kind) -> bool
    requires hl { IsIndex bands.hl.now.index }
    requires lh { IsIndex bands.lh.now.index }
    requires hh { IsIndex bands.hh.now.index }
    ensures hl { result ≡ true → IsNarrowBand kind bands.entry.hl.now }
    ensures lh { result ≡ true → IsNarrowBand kind bands.entry.lh.now }
    ensures hh { result ≡ true → IsNarrowBand kind bands.entry.hh.now }
{
    is_narrow_band(bands.hl, kind)
        && is_narrow_band(bands.lh, kind)
        && is_narrow_band(bands.hh, kind)
}

/// Writes what one coded number stands for.
#[inline(always)]
fn put_restored(coded: &[i32], scale: Scale, n: usize, line: &mut [i32], at: usize)
    requires coded { n < length coded.now }
    requires inside { at < length line.old }
    requires offset { scale.offset < 2 ^ 27 }
    requires below { All (λ v. unsigned_abs v < 2 ^ 12) coded.now }
    requires restorable { All (λ v. IsRestorable scale.factor scale.offset v) coded.now }
    ensures { line.new ≡ slice_set line.old at (scaled (slice_index_or coded.now n (pos 0)) scale.factor scale.offset) }
{
    line[at] = restore_narrow(coded[n], scale.factor, scale.offset);
}

/// Writes what coded numbers stand for to the places of a line from one on.
#[inline(always)]
fn restore_from(coded: &[i32], scale: Scale, from: usize, line: &mut [i32])
    requires line { length line.old ≡ 2 * length coded.now }
    requires from { from ≤ length coded.now }
    requires offset { scale.offset < 2 ^ 27 }
    requires below { All (λ v. unsigned_abs v < 2 ^ 12) coded.now }
    requires restorable { All (λ v. IsRestorable scale.factor scale.offset v) coded.now }
    ensures written { (n : ℕ) → n < length coded.now → slice_index_or line.new (from + n) (pos 0)
        ≡ scaled (slice_index_or coded.now n (pos 0)) scale.factor scale.offset }
    ensures before { (x : ℕ) → x < from → slice_index_or line.new x (pos 0) ≡ slice_index_or line.old x (pos 0) }
{
    for n in 0..coded.len() {
        put_restored(coded, scale, n, line, from + n);
    }
}

/// Writes zeros to `count` places of a line from one on.
#[inline(always)]
fn clear_from(count: usize, from: usize, line: &mut [i32])
    requires { from + count ≤ length line.old }
    ensures written { (n : ℕ) → n < count → slice_index_or line.new (from + n) (pos 0) ≡ pos 0 }
    ensures before { (x : ℕ) → x < from → slice_index_or line.new x (pos 0) ≡ slice_index_or line.old x (pos 0) }
{
    for n in 0..count {
        line[from + n] = 0;
    }
}

/// Writes what a row of a band stands for to the places of a line from one on.
#[inline(always)]
fn restore_row_from(band: &Coefficients, scale: Scale, y: u32, from: usize, line: &mut [i32])
    requires row { y < band.now.height }
    requires line { length line.old ≡ 2 * band.now.width }
    requires from { from ≤ band.now.width }
    requires offset { scale.offset < 2 ^ 27 }
    requires below { All (λ v. unsigned_abs v < 2 ^ 12) band.now.values }
    requires restorable { All (λ v. IsRestorable scale.factor scale.offset v) band.now.values }
    ensures written { (n : ℕ) → n < band.now.width → slice_index_or line.new (from + n) (pos 0)
        ≡ scaled (table_at band.now n y) scale.factor scale.offset }
    ensures before { (x : ℕ) → x < from → slice_index_or line.new x (pos 0) ≡ slice_index_or line.old x (pos 0) }
    ensures whole { length band.now.values ≡ band.now.width * band.now.height }
{
    let width = band.width() as usize;
    match band.narrow_row(y) {
        Some(coded) => restore_from(coded, scale, from, line),
        None => clear_from(width, from, line),
    }
}

/// Copies values to the first places of a line.
#[inline(always)]
fn copy_to_front(values: &[i32], line: &mut [i32])
    requires { length line.old ≡ 2 * length values.now }
    ensures { (n : ℕ) → n < length values.now → slice_index_or line.new n (pos 0)
        ≡ slice_index_or values.now n (pos 0) }
{
    for n in 0..values.len() {
        line[n] = values[n];
    }
}

/// Writes an even row of a level's plane: that of LL, before that of HL.
#[inline(always)]
fn even_row(low: &Narrow, hl: &CodedBand, kind: Kind, y: u32, line: &mut [i32])
    requires inside { y < low.now.height }
    requires line { length line.old ≡ 2 * low.now.width }
    requires hl { IsBesides low.now hl.now }
    requires narrow { IsNarrowBand kind hl.now }
    ensures { line.new ≡ row_of (beside low.now (restored_by_one kind hl.now)) y }
{
    let scale = scale_of(hl.index, kind);
    copy_to_front(low.row(y), line);
    restore_row_from(&hl.table, scale, y, low.width() as usize, line);
}

/// Writes an odd row of a level's plane: that of LH, before that of HH.
#[inline(always)]
fn odd_row(lh: &CodedBand, hh: &CodedBand, kind: Kind, y: u32, line: &mut [i32])
    requires inside { y < lh.now.table.height }
    requires line { length line.old ≡ 2 * lh.now.table.width }
    requires hh { IsBesides lh.now.table hh.now }
    requires index { IsIndex lh.now.index }
    requires left { IsNarrowBand kind lh.now }
    requires right { IsNarrowBand kind hh.now }
    ensures { line.new ≡ row_of (beside (restored_by_one kind lh.now) (restored_by_one kind hh.now)) y }
{
    let left_scale = scale_of(lh.index, kind);
    let right_scale = scale_of(hh.index, kind);
    restore_row_from(&lh.table, left_scale, y, 0, line);
    restore_row_from(&hh.table, right_scale, y, lh.table.width() as usize, line);
}

/// The rows of a level: those of its LL band, and beside and below them those of the coded bands, each of which is
/// restored as it is asked for.
#[derive(Clone, Copy)]
pub struct RestoredRows<'a> {
    pub low: &'a Narrow,
    pub bands: LevelBands<'a>,
    pub kind: Kind,
}

impl RowPairs for RestoredRows<'_> {
    ghost lawful = { λ r. IsNarrowLevel r.kind r.low.now r.bands };

    ghost columns = { λ r. 2 * r.low.now.width };

    ghost pairs = { λ r. r.low.now.height };

    ghost evens = { λ r. (beside r.low.now (restored_by_one r.kind r.bands.hl.now)).values };

    ghost odds = { λ r. (beside (restored_by_one r.kind r.bands.lh.now)
        (restored_by_one r.kind r.bands.hh.now)).values };

    #[inline(always)]
    fn put_pair(&self, pair: u32, even: &mut [i32], odd: &mut [i32]) {
        even_row(self.low, self.bands.hl, self.kind, pair, even);
        odd_row(self.bands.lh, self.bands.hh, self.kind, pair, odd);
    }
}

/// The LL band of the next level, where the codeblocks of each band have its index.
pub fn narrow_level(
    alloc: Global,
    by: Synthesis,
    low: &Narrow,
    bands: LevelBands,
) -> Result<Narrow, NoMemory>
    requires level { IsLevel by low.now bands }
    requires hl { IsNarrowBand by.kind bands.hl.now }
    requires lh { IsNarrowBand by.kind bands.lh.now }
    requires hh { IsNarrowBand by.kind bands.hh.now }
    requires at_most_4095 { All (λ v. unsigned_abs v ≤ LARGEST_NARROW) low.now.values }
    ensures { IfOk result (λ t. t ≡ synthesised by.wavelet (joined_by (restored_by_one by.kind) low.now bands.entry)) }
{
    let rows = RestoredRows {
        low,
        bands,
        kind: by.kind,
    };
    synth_level_by_lines(alloc, by.wavelet, &rows, 2 * low.width(), low.height())
}
