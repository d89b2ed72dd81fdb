//! The synthesis of a level in place, in 32 bits.
ghost use Rattle.std.specs.Prelude.{◌≡◌, ◌≢◌, ℕ, ℤ, List, ◌*◌, ◌%◌, ◌<◌, ◌≤◌, length, unsigned_abs};
ghost use Rattle.std.specs.List.{All};
ghost use Rattle.dirac_common.specs.Limits.{IsWavelet};
ghost use Rattle.dirac_bands.specs.DcSum.{by_rows};
ghost use Rattle.dirac_lift.specs.Halves.{AreHalvesOfLine};
ghost use Rattle.dirac_lift.specs.HalfRuns.{IsNarrowLine};
ghost use Rattle.dirac_lift.specs.Level.{column, last_halved, row_in, synthesised};
ghost use Rattle.dirac_lift.specs.Places.{ColumnsBecome, RowsBecome};
ghost use Rattle.dirac_lift.specs.Wavelets.{synth};

use crate::half_lines::{finish_half_line, synth_half_line};
use dirac_common::{LARGEST_NARROW, LARGEST_TABLE_SIDE, Narrow};

/// Half as many places as the longest line of a table has.
const HALF_SIDE: usize = 4096;

/// The values of column `x` at its even places, and those at its odd ones.
#[inline(always)]
fn take_column(
    values: &[i32],
    width: usize,
    height: usize,
    x: usize,
    low: &mut [i32],
    high: &mut [i32],
)
    requires len { length values.now ≡ width * height }
    requires across { x < width }
    requires low { height ≡ 2 * length low.old }
    requires alike { length high.old ≡ length low.old }
    ensures { AreHalvesOfLine 0 low.new high.new (column values.now width height x) }
{
    for n in 0..low.len() {
        let first = 2 * n * width + x;
        low[n] = values[first];
        high[n] = values[first + width];
    }
}

/// Writes column `x` from the values at its even places and those at its odd ones.
#[inline(always)]
fn put_column(low: &[i32], high: &[i32], values: &mut [i32], width: usize, height: usize, x: usize)
    requires len { length values.old ≡ width * height }
    requires across { x < width }
    requires low { height ≡ 2 * length low.now }
    requires alike { length high.now ≡ length low.now }
    ensures put { (whole : List ℤ) → AreHalvesOfLine 0 low.now high.now whole → column values.new width height x
        ≡ whole }
    ensures others { (z : ℕ) → z < width → z ≢ x → column values.new width height z ≡ column values.old width height z }
{
    for n in 0..low.len() {
        let first = 2 * n * width + x;
        values[first] = low[n];
        values[first + width] = high[n];
    }
}

/// The synthesis of column `x`; `low` and `high` are places to work.
fn synth_column(
    wavelet: u8,
    values: &mut [i32],
    width: usize,
    height: usize,
    x: usize,
    low: &mut [i32],
    high: &mut [i32],
)
    requires wavelet { IsWavelet wavelet }
    requires len { length values.old ≡ width * height }
    requires across { x < width }
    requires low { height ≡ 2 * length low.old }
    requires alike { length high.old ≡ length low.old }
    requires narrow { IsNarrowLine wavelet (column values.old width height x) }
    ensures value { column values.new width height x ≡ synth wavelet (column values.old width height x) }
    ensures others { (z : ℕ) → z < width → z ≢ x → column values.new width height z ≡ column values.old width height z }
{
    take_column(values, width, height, x, low, high);
    synth_half_line(wavelet, low, high);
    put_column(low, high, values, width, height, x);
}

fn synth_narrow_columns(wavelet: u8, values: &mut [i32], width: usize, height: usize)
    requires wavelet { IsWavelet wavelet }
    requires len { length values.old ≡ width * height }
    requires even { height % 2 ≡ 0 }
    requires down { height ≤ LARGEST_TABLE_SIDE }
    requires at_most_4095 { All (λ v. unsigned_abs v ≤ LARGEST_NARROW) values.old }
    ensures { ColumnsBecome (synth wavelet) width height values.old values.new }
{
    let half = height / 2;
    let mut low = [0i32; HALF_SIDE];
    let mut high = [0i32; HALF_SIDE];
    for x in 0..width {
        synth_column(
            wavelet,
            values,
            width,
            height,
            x,
            &mut low[..half],
            &mut high[..half],
        );
    }
}

/// A line, finished as a level ends; `low` and `high` are places to work.
fn finish_line(wavelet: u8, line: &mut [i32], low: &mut [i32], high: &mut [i32])
    requires wavelet { IsWavelet wavelet }
    requires low { length line.old ≡ 2 * length low.old }
    requires alike { length high.old ≡ length low.old }
    requires narrow { IsNarrowLine wavelet line.old }
    ensures { line.new ≡ last_halved wavelet (synth wavelet line.old) }
{
    take_column(line, 1, line.len(), 0, low, high);
    finish_half_line(wavelet, low, high, line);
}

fn finish_narrow_rows(wavelet: u8, values: &mut [i32], width: usize, height: usize)
    requires wavelet { IsWavelet wavelet }
    requires len { length values.old ≡ width * height }
    requires even { width % 2 ≡ 0 }
    requires across { (1 ≤ width) × (width ≤ LARGEST_TABLE_SIDE) }
    requires narrow { (y : ℕ) → y < height → IsNarrowLine wavelet (row_in values.old width y) }
    ensures { RowsBecome (λ line. last_halved wavelet (synth wavelet line)) width height values.old values.new }
{
    let half = width / 2;
    let mut low = [0i32; HALF_SIDE];
    let mut high = [0i32; HALF_SIDE];
    for y in 0..height {
        let start = y * width;
        finish_line(
            wavelet,
            &mut values[start..start + width],
            &mut low[..half],
            &mut high[..half],
        );
    }
}

fn synth_narrow_values(wavelet: u8, values: &mut [i32], width: usize, height: usize)
    requires wavelet { IsWavelet wavelet }
    requires len { length values.old ≡ width * height }
    requires across { (1 ≤ width) × (width ≤ LARGEST_TABLE_SIDE) }
    requires down { height ≤ LARGEST_TABLE_SIDE }
    requires even_across { width % 2 ≡ 0 }
    requires even_down { height % 2 ≡ 0 }
    requires at_most_4095 { All (λ v. unsigned_abs v ≤ LARGEST_NARROW) values.old }
    ensures { values.new ≡ (synthesised wavelet (by_rows width height values.old)).values }
{
    synth_narrow_columns(wavelet, values, width, height);
    finish_narrow_rows(wavelet, values, width, height);
}

/// The synthesis of one level in place, as `synth_level` does it, of a plane whose magnitudes are at most 4,095: no
/// number that it works with leaves 32 bits.
pub fn synth_level_narrow(wavelet: u8, plane: &mut Narrow)
    requires wavelet { IsWavelet wavelet }
    requires across { plane.old.width % 2 ≡ 0 }
    requires down { plane.old.height % 2 ≡ 0 }
    requires sides { (plane.old.width ≤ LARGEST_TABLE_SIDE) × (plane.old.height ≤ LARGEST_TABLE_SIDE) }
    requires at_most_4095 { All (λ v. unsigned_abs v ≤ LARGEST_NARROW) plane.old.values }
    ensures { plane.new ≡ synthesised wavelet plane.old }
{
    let width = plane.width() as usize;
    let height = plane.height() as usize;
    synth_narrow_values(wavelet, plane.values_mut(), width, height);
}
