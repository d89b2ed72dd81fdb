ghost use Rattle.std.specs.Prelude.{◌≡◌, ℕ, ◌+◌, ◌*◌, ◌%◌, ◌^◌, ◌≤◌, ◌+ℤ◌, unsigned_abs, length, map};
ghost use Rattle.std.specs.List.{All};
ghost use Rattle.dirac_common.specs.Limits.{IsWavelet};
ghost use Rattle.dirac_bands.specs.DcSum.{by_rows};
ghost use Rattle.dirac_lift.specs.Level.{analysed, first_doubled, doubled, last_halved, halved, synthesised};
ghost use Rattle.dirac_lift.specs.Places.{RowsBecome};
ghost use Rattle.dirac_lift.specs.Wavelets.{analyse, synth};

use crate::columns::{analyse_columns, synth_columns};
use crate::lines::{analyse_line, synth_line};
use crate::step::rounded_sum;
use crate::wavelets::halves;
use dirac_common::Wide;

fn synth_rows(wavelet: u8, values: &mut [i128], width: usize, height: usize)
    requires wavelet { IsWavelet wavelet }
    requires len { length values.old ≡ width * height }
    requires even { width % 2 ≡ 0 }
    requires magnitudes_at_most_2_108 { All (λ v. unsigned_abs v ≤ 2 ^ 108) values.old }
    ensures { RowsBecome (synth wavelet) width height values.old values.new }
{
    for y in 0..height {
        let start = y * width;
        synth_line(wavelet, &mut values[start..start + width]);
    }
}

fn analyse_rows(wavelet: u8, values: &mut [i128], width: usize, height: usize)
    requires wavelet { IsWavelet wavelet }
    requires len { length values.old ≡ width * height }
    requires even { width % 2 ≡ 0 }
    requires magnitudes_at_most_2_108 { All (λ v. unsigned_abs v ≤ 2 ^ 108) values.old }
    ensures { RowsBecome (analyse wavelet) width height values.old values.new }
{
    for y in 0..height {
        let start = y * width;
        analyse_line(wavelet, &mut values[start..start + width]);
    }
}

/// Halves each value, to the nearest.
fn halve(values: &mut [i128])
    requires { All (λ v. unsigned_abs v ≤ 2 ^ 120) values.old }
    ensures { values.new ≡ map halved values.old }
{
    for i in 0..values.len() {
        values[i] = rounded_sum(values[i], 1);
    }
}

#[inline(always)]
fn twice(value: i128) -> i128
    requires { unsigned_abs value ≤ 2 ^ 120 }
    ensures { result ≡ value +ℤ value }
{
    value + value
}

/// Doubles each value.
fn double(values: &mut [i128])
    requires { All (λ v. unsigned_abs v ≤ 2 ^ 120) values.old }
    ensures { values.new ≡ map doubled values.old }
{
    for i in 0..values.len() {
        values[i] = twice(values[i]);
    }
}

fn end_level(wavelet: u8, values: &mut [i128])
    requires { All (λ v. unsigned_abs v ≤ 2 ^ 120) values.old }
    ensures { values.new ≡ last_halved wavelet values.old }
{
    if halves(wavelet) {
        halve(values);
    }
}

fn begin_level(wavelet: u8, values: &mut [i128])
    requires { All (λ v. unsigned_abs v ≤ 2 ^ 120) values.old }
    ensures { values.new ≡ first_doubled wavelet values.old }
{
    if halves(wavelet) {
        double(values);
    }
}

fn synth_values(wavelet: u8, values: &mut [i128], width: usize, height: usize)
    requires wavelet { IsWavelet wavelet }
    requires len { length values.old ≡ width * height }
    requires at_least_1 { 1 ≤ width }
    requires across { width % 2 ≡ 0 }
    requires down { height % 2 ≡ 0 }
    requires magnitudes_at_most_2_103 { All (λ v. unsigned_abs v ≤ 2 ^ 103) values.old }
    ensures value { values.new ≡ (synthesised wavelet (by_rows width height values.old)).values }
    ensures growth { (b : ℕ) → All (λ v. unsigned_abs v ≤ b) values.old
        → All (λ v. unsigned_abs v ≤ 72 * b + 40) values.new }
{
    synth_columns(wavelet, values, width, height);
    synth_rows(wavelet, values, width, height);
    end_level(wavelet, values);
}

fn analyse_values(wavelet: u8, values: &mut [i128], width: usize, height: usize)
    requires wavelet { IsWavelet wavelet }
    requires len { length values.old ≡ width * height }
    requires at_least_1 { 1 ≤ width }
    requires across { width % 2 ≡ 0 }
    requires down { height % 2 ≡ 0 }
    requires magnitudes_at_most_2_103 { All (λ v. unsigned_abs v ≤ 2 ^ 103) values.old }
    ensures value { values.new ≡ (analysed wavelet (by_rows width height values.old)).values }
    ensures growth { (b : ℕ) → All (λ v. unsigned_abs v ≤ b) values.old
        → All (λ v. unsigned_abs v ≤ 128 * b + 32) values.new }
    ensures undone { (synthesised wavelet (by_rows width height values.new)).values ≡ values.old }
{
    begin_level(wavelet, values);
    analyse_rows(wavelet, values, width, height);
    analyse_columns(wavelet, values, width, height);
}

/// The synthesis of one level in place, of a plane of even sizes in which four bands are interleaved: every
/// column, then every row, then, where the wavelet's shift is 1, each value is halved, rounding halves up
/// (inverse discrete wavelet transform, Dirac specification).
pub fn synth_level(wavelet: u8, plane: &mut Wide)
    requires wavelet { IsWavelet wavelet }
    requires across { plane.old.width % 2 ≡ 0 }
    requires down { plane.old.height % 2 ≡ 0 }
    requires magnitudes_at_most_2_103 { All (λ v. unsigned_abs v ≤ 2 ^ 103) plane.old.values }
    ensures value { plane.new ≡ synthesised wavelet plane.old }
    ensures growth { (b : ℕ) → All (λ v. unsigned_abs v ≤ b) plane.old.values
        → All (λ v. unsigned_abs v ≤ 72 * b + 40) plane.new.values }
{
    let width = plane.width() as usize;
    let height = plane.height() as usize;
    synth_values(wavelet, plane.values_mut(), width, height);
}

/// The analysis of one level in place, which leaves four bands interleaved: where the wavelet's shift is 1 each
/// value is doubled, then every row is analysed, then every column.
pub fn analyse_level(wavelet: u8, plane: &mut Wide)
    requires wavelet { IsWavelet wavelet }
    requires across { plane.old.width % 2 ≡ 0 }
    requires down { plane.old.height % 2 ≡ 0 }
    requires magnitudes_at_most_2_103 { All (λ v. unsigned_abs v ≤ 2 ^ 103) plane.old.values }
    ensures value { plane.new ≡ analysed wavelet plane.old }
    ensures growth { (b : ℕ) → All (λ v. unsigned_abs v ≤ b) plane.old.values
        → All (λ v. unsigned_abs v ≤ 128 * b + 32) plane.new.values }
    ensures undone { synthesised wavelet plane.new ≡ plane.old }
{
    let width = plane.width() as usize;
    let height = plane.height() as usize;
    analyse_values(wavelet, plane.values_mut(), width, height);
}
