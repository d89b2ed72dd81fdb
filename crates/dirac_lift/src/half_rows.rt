//! The analysis of a level in 32 bits, which leaves the even and the odd rows in tables of their own, and in each row
//! the even columns before the odd ones.
ghost use Rattle.std.specs.Prelude.{◌≡◌, pos, ◌+◌, ◌*◌, ◌/◌, ◌%◌, ◌<◌, ◌≤◌, ◌+ℤ◌, if◌then◌else◌, length, take, drop};
ghost use Rattle.std.specs.Prelude.{slice_index_or, slice_set, unsigned_abs, IfOk};
ghost use Rattle.std.specs.List.{All};
ghost use Rattle.dirac_common.specs.Limits.{IsWavelet};
ghost use Rattle.dirac_lift.specs.HalfRows.{analysed_rows};
ghost use Rattle.dirac_lift.specs.Halves.{AreHalvesOfLine, from_halves};
ghost use Rattle.dirac_lift.specs.Level.{analysed, first_doubled};
ghost use Rattle.dirac_lift.specs.Wavelets.{analyse};

use crate::half_lines::{analyse_half_line, analyse_halves};
use crate::wavelets::halves;
use dirac_common::{LARGEST_NARROW, LARGEST_TABLE_SIDE, Narrow, NoMemory};
use std::alloc::Global;

/// The even rows and the odd ones of a plane, in each the even columns before the odd ones.
#[derive(Drop)]
pub struct HalfRows {
    pub evens: Narrow,
    pub odds: Narrow,
}

/// A value as the analysis begins with it.
#[inline(always)]
fn begun_value(value: i32, doubles: bool) -> i32
    requires { unsigned_abs value ≤ LARGEST_NARROW }
    ensures { result ≡ (if doubles then value +ℤ value else value) }
{
    if doubles { value + value } else { value }
}

/// Takes pair `n` of a line to its halves.
#[inline(always)]
fn begin_pair(line: &[i32], doubles: bool, low: &mut [i32], high: &mut [i32], n: usize)
    requires line { length line.now ≡ 2 * length low.old }
    requires pair { n < length low.old }
    requires alike { length high.old ≡ length low.old }
    requires at_most_4095 { All (λ v. unsigned_abs v ≤ LARGEST_NARROW) line.now }
    ensures low { low.new ≡ slice_set low.old n (if doubles then slice_index_or line.now (2 * n) (pos 0)
        +ℤ slice_index_or line.now (2 * n) (pos 0) else slice_index_or line.now (2 * n) (pos 0)) }
    ensures high { high.new ≡ slice_set high.old n (if doubles then slice_index_or line.now (2 * n + 1) (pos 0)
        +ℤ slice_index_or line.now (2 * n + 1) (pos 0) else slice_index_or line.now (2 * n + 1) (pos 0)) }
{
    low[n] = begun_value(line[2 * n], doubles);
    high[n] = begun_value(line[2 * n + 1], doubles);
}

/// Takes a line to its halves, each value doubled where the wavelet's shift is 1.
fn begin_line(wavelet: u8, line: &[i32], low: &mut [i32], high: &mut [i32])
    requires line { length line.now ≡ 2 * length low.old }
    requires alike { length high.old ≡ length low.old }
    requires at_most_4095 { All (λ v. unsigned_abs v ≤ LARGEST_NARROW) line.now }
    ensures { AreHalvesOfLine 0 low.new high.new (first_doubled wavelet line.now) }
{
    let doubles = halves(wavelet);
    for n in 0..low.len() {
        begin_pair(line, doubles, low, high, n);
    }
}

/// A row of a plane analysed: its even places, then its odd ones.
fn analyse_row(wavelet: u8, line: &[i32], half: usize, row: &mut [i32])
    requires wavelet { IsWavelet wavelet }
    requires line { length line.now ≡ 2 * half }
    requires row { length row.old ≡ 2 * half }
    requires at_most_4095 { All (λ v. unsigned_abs v ≤ LARGEST_NARROW) line.now }
    ensures { AreHalvesOfLine 0 (take half row.new) (drop half row.new)
        (analyse wavelet (first_doubled wavelet line.now)) }
{
    let (low, high) = row.split_at_mut(half);
    begin_line(wavelet, line, low, high);
    analyse_half_line(wavelet, low, high);
}

/// The rows 2n + `first` of a plane, analysed as rows.
fn analyse_rows_from(
    alloc: Global,
    wavelet: u8,
    plane: &Narrow,
    first: u32,
) -> Result<Narrow, NoMemory>
    requires wavelet { IsWavelet wavelet }
    requires across { (plane.now.width % 2 ≡ 0) × (plane.now.width ≤ LARGEST_TABLE_SIDE) }
    requires down { (plane.now.height % 2 ≡ 0) × (plane.now.height ≤ LARGEST_TABLE_SIDE) }
    requires first { first ≤ 1 }
    requires at_most_4095 { All (λ v. unsigned_abs v ≤ LARGEST_NARROW) plane.now.values }
    ensures { IfOk result (λ t. t ≡ analysed_rows wavelet first plane.now) }
{
    let width = plane.width();
    let height = plane.height() / 2;
    let mut rows = Narrow::try_new(alloc, width, height, 0)?;
    for y in 0..height {
        analyse_row(
            wavelet,
            plane.row(2 * y + first),
            width as usize / 2,
            rows.row_mut(y),
        );
    }
    Ok(rows)
}

/// The analysis of one level of a plane whose magnitudes are at most 4,095, as `analyse_level` does it: no number that
/// it works with leaves 32 bits.
pub fn analyse_halves_level(
    alloc: Global,
    wavelet: u8,
    plane: &Narrow,
) -> Result<HalfRows, NoMemory>
    requires wavelet { IsWavelet wavelet }
    requires across { (plane.now.width % 2 ≡ 0) × (plane.now.width ≤ LARGEST_TABLE_SIDE) }
    requires down { (plane.now.height % 2 ≡ 0) × (plane.now.height ≤ LARGEST_TABLE_SIDE) }
    requires at_most_4095 { All (λ v. unsigned_abs v ≤ LARGEST_NARROW) plane.now.values }
    ensures value { IfOk result (λ r. from_halves plane.now.width (plane.now.height / 2) r.evens.values r.odds.values
        ≡ analysed wavelet plane.now) }
    ensures evens { IfOk result (λ r. (r.evens.width ≡ plane.now.width) × (r.evens.height ≡ plane.now.height / 2)) }
    ensures odds { IfOk result (λ r. (r.odds.width ≡ plane.now.width) × (r.odds.height ≡ plane.now.height / 2)) }
{
    let width = plane.width() as usize;
    let height = plane.height() as usize / 2;
    let mut evens = analyse_rows_from(alloc, wavelet, plane, 0)?;
    let mut odds = analyse_rows_from(alloc, wavelet, plane, 1)?;
    analyse_halves(
        wavelet,
        evens.values_mut(),
        odds.values_mut(),
        width,
        height,
    );
    Ok(HalfRows { evens, odds })
}
