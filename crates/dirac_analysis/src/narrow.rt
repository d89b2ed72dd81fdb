//! A level whose values are at most 4,095, analysed in 32 bits.
ghost use Rattle.std.specs.Prelude.{◌≡◌, ℕ, pos, true, ◌+◌, ◌/◌, ◌%◌, ◌<◌, ◌≤◌, length, slice_index_or, unsigned_abs};
ghost use Rattle.std.specs.Prelude.{IfOk};
ghost use Rattle.std.specs.List.{All};
ghost use Rattle.dirac_common.specs.Limits.{IsWavelet};
ghost use Rattle.dirac_analysis.specs.Halves.{half_columns};
ghost use Rattle.dirac_analysis.specs.Splitting.{AreFourBands};

use crate::analysed::AnalysedBand;
use crate::split::SplitLevel;
use dirac_common::{LARGEST_NARROW, LARGEST_TABLE_SIDE, Narrow, NoMemory};
use dirac_lift::{HalfRows, Held, analyse_halves_level};
use std::alloc::Global;

/// Copies values of a row from place `from` on.
fn copy_from(row: &[i32], from: usize, line: &mut [i32])
    requires { from + length line.old ≤ length row.now }
    ensures { (x : ℕ) → x < length line.new → slice_index_or line.new x (pos 0)
        ≡ slice_index_or row.now (from + x) (pos 0) }
{
    for x in 0..line.len() {
        line[x] = row[from + x];
    }
}

/// The half of each row that begins at place `from`.
fn half_rows(alloc: Global, rows: &Narrow, from: usize) -> Result<Narrow, NoMemory>
    requires across { (rows.now.width % 2 ≡ 0) × (rows.now.width ≤ LARGEST_TABLE_SIDE) }
    requires down { rows.now.height ≤ LARGEST_TABLE_SIDE }
    requires from { from ≤ rows.now.width / 2 }
    ensures { IfOk result (λ t. t ≡ half_columns rows.now from) }
{
    let mut band = Narrow::try_new(alloc, rows.width() / 2, rows.height(), 0)?;
    for y in 0..rows.height() {
        copy_from(rows.row(y), from, band.row_mut(y));
    }
    Ok(band)
}

/// The band that those halves are.
fn half_band(alloc: Global, rows: &Narrow, from: usize) -> Result<AnalysedBand, NoMemory>
    requires across { (rows.now.width % 2 ≡ 0) × (rows.now.width ≤ LARGEST_TABLE_SIDE) }
    requires down { rows.now.height ≤ LARGEST_TABLE_SIDE }
    requires from { from ≤ rows.now.width / 2 }
    ensures { IfOk result (λ t. t ≡ half_columns rows.now from) }
{
    let half = half_rows(alloc, rows, from)?;
    Ok(AnalysedBand::of_narrow(half))
}

/// Analyses one level in 32 bits.
pub fn split_narrow(alloc: Global, plane: &Narrow, wavelet: u8) -> Result<SplitLevel, NoMemory>
    requires wavelet { IsWavelet wavelet }
    requires across { (plane.now.width % 2 ≡ 0) × (plane.now.width ≤ LARGEST_TABLE_SIDE) }
    requires down { (plane.now.height % 2 ≡ 0) × (plane.now.height ≤ LARGEST_TABLE_SIDE) }
    requires at_most_4095 { All (λ v. unsigned_abs v ≤ LARGEST_NARROW) plane.now.values }
    ensures { IfOk result (AreFourBands wavelet plane.now) }
{
    let half = plane.width() as usize / 2;
    let HalfRows { evens, odds } = analyse_halves_level(alloc, wavelet, plane)?;
    let ll = half_rows(alloc, &evens, 0)?;
    let hl = half_band(alloc, &evens, half)?;
    let lh = half_band(alloc, &odds, 0)?;
    let hh = half_band(alloc, &odds, half)?;
    Ok(SplitLevel {
        ll: Held::Narrow(ll),
        hl,
        lh,
        hh,
    })
}
