ghost use Rattle.std.specs.Prelude.{◌≡◌, ◌<◌, ◌≤◌, ◌^◌, ◌+ℤ◌, pos, length, map, slice_index_or, slice_set};
ghost use Rattle.std.specs.Prelude.{unsigned_abs, IfOk};
ghost use Rattle.std.specs.List.{All};
ghost use Rattle.dirac_common.specs.Samples.{clip};
ghost use Rattle.dirac_synthesis.specs.Residual.{clipped, summed_with, with_prediction};

use crate::held::Residual;
use dirac_common::{LARGEST_TABLE_SIDE, NoMemory, Plane};
use dirac_lift::Held;
use std::alloc::Global;

/// A value clipped to the range of samples, -128 to 127.
#[inline(always)]
fn clip_value(value: i128) -> i16
    ensures { result ≡ clip value }
{
    value.min(127).max(-128) as i16
}

fn clip_values(values: &[i128], samples: &mut [i16])
    requires { length samples.old ≡ length values.now }
    ensures { samples.new ≡ map clip values.now }
{
    for i in 0..values.len() {
        samples[i] = clip_value(values[i]);
    }
}

/// The same of a value in 32 bits.
#[inline(always)]
fn clip_narrow_value(narrow: i32) -> i16
    ensures { result ≡ clip narrow }
{
    narrow.min(127).max(-128) as i16
}

pub fn clip_narrow_values(values: &[i32], samples: &mut [i16])
    requires { length samples.old ≡ length values.now }
    ensures { samples.new ≡ map clip values.now }
{
    for i in 0..values.len() {
        samples[i] = clip_narrow_value(values[i]);
    }
}

/// The plane whose samples are these values, each clipped to -128 to 127 (clipping, Dirac specification).
pub fn clipped(alloc: Global, values: &Residual) -> Result<Plane, NoMemory>
    requires across { values.now.width ≤ LARGEST_TABLE_SIDE }
    requires down { values.now.height ≤ LARGEST_TABLE_SIDE }
    ensures { IfOk result (λ plane. plane ≡ clipped values.now) }
{
    match values.held() {
        Held::Narrow(values) => {
            let mut plane = Plane::try_new(alloc, values.width(), values.height(), 0)?;
            clip_narrow_values(values.values(), plane.values_mut());
            Ok(plane)
        }
        Held::Wide(values) => {
            let mut plane = Plane::try_new(alloc, values.width(), values.height(), 0)?;
            clip_values(values.values(), plane.values_mut());
            Ok(plane)
        }
    }
}

/// A residual plus a predicted value, clipped to the range of samples.
#[inline(always)]
fn clip_sum(residual: i128, predicted: i32) -> i16
    requires { unsigned_abs residual ≤ 2 ^ 108 }
    ensures { result ≡ clip (residual +ℤ predicted) }
{
    clip_value(residual + i128::from(predicted))
}

/// Writes the sum at one place.
#[inline(always)]
fn put_sum(residual: &[i128], predicted: &[i32], samples: &mut [i16], i: usize)
    requires inside { i < length residual.now }
    requires predicted { length predicted.now ≡ length residual.now }
    requires samples { length samples.old ≡ length residual.now }
    requires bound { All (λ v. unsigned_abs v ≤ 2 ^ 108) residual.now }
    ensures { samples.new ≡ slice_set samples.old i (clip (slice_index_or residual.now i (pos 0) +ℤ slice_index_or
        predicted.now i (pos 0))) }
{
    samples[i] = clip_sum(residual[i], predicted[i]);
}

fn clip_sums(residual: &[i128], predicted: &[i32], samples: &mut [i16])
    requires predicted { length predicted.now ≡ length residual.now }
    requires samples { length samples.old ≡ length residual.now }
    requires bound { All (λ v. unsigned_abs v ≤ 2 ^ 108) residual.now }
    ensures { samples.new ≡ map clip (summed_with residual.now predicted.now) }
{
    for i in 0..residual.len() {
        put_sum(residual, predicted, samples, i);
    }
}

/// A residual in 32 bits plus a predicted value, clipped to the range of samples: a sum that 32 bits don't hold lies
/// beyond it on the same side as the nearest one that they hold.
#[inline(always)]
fn clip_narrow_sum(residual: i32, predicted: i32) -> i16
    ensures { result ≡ clip (residual +ℤ predicted) }
{
    clip_narrow_value(residual.saturating_add(predicted))
}

/// Writes the sum at one place, in 32 bits.
#[inline(always)]
fn put_narrow_sum(residual: &[i32], predicted: &[i32], samples: &mut [i16], i: usize)
    requires inside { i < length residual.now }
    requires predicted { length predicted.now ≡ length residual.now }
    requires samples { length samples.old ≡ length residual.now }
    ensures { samples.new ≡ slice_set samples.old i (clip (slice_index_or residual.now i (pos 0) +ℤ slice_index_or
        predicted.now i (pos 0))) }
{
    samples[i] = clip_narrow_sum(residual[i], predicted[i]);
}

pub fn clip_narrow_sums(residual: &[i32], predicted: &[i32], samples: &mut [i16])
    requires predicted { length predicted.now ≡ length residual.now }
    requires samples { length samples.old ≡ length residual.now }
    ensures { samples.new ≡ map clip (summed_with residual.now predicted.now) }
{
    for i in 0..residual.len() {
        put_narrow_sum(residual, predicted, samples, i);
    }
}

/// The plane whose samples are the values of a residual plus their predictions, which stand by rows, each sum
/// clipped to -128 to 127 (picture decoding, Dirac specification).
pub fn clipped_sum(alloc: Global, residual: &Residual, predicted: &[i32]) -> Result<Plane, NoMemory>
    requires across { residual.now.width ≤ LARGEST_TABLE_SIDE }
    requires down { residual.now.height ≤ LARGEST_TABLE_SIDE }
    requires predicted { length predicted.now ≡ length residual.now.values }
    requires bound { All (λ v. unsigned_abs v ≤ 2 ^ 108) residual.now.values }
    ensures { IfOk result (λ plane. plane ≡ clipped (with_prediction residual.now predicted.now)) }
{
    match residual.held() {
        Held::Narrow(residual) => {
            let mut plane = Plane::try_new(alloc, residual.width(), residual.height(), 0)?;
            clip_narrow_sums(residual.values(), predicted, plane.values_mut());
            Ok(plane)
        }
        Held::Wide(residual) => {
            let mut plane = Plane::try_new(alloc, residual.width(), residual.height(), 0)?;
            clip_sums(residual.values(), predicted, plane.values_mut());
            Ok(plane)
        }
    }
}
