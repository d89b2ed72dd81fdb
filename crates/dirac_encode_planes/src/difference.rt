//! A plane less what is predicted for it.

ghost use Rattle.std.specs.Prelude.{◌≡◌, ◌<◌, ◌≤◌, ◌-ℤ◌, pos, length, slice_index_or, slice_set, IfOk};
ghost use Rattle.std.specs.List.{All};
ghost use Rattle.std.specs.Simd.Lanes.{zip2};
ghost use Rattle.dirac_upconvert.specs.HalfSamples.{IsSample};
ghost use Rattle.dirac_encode_planes.specs.Predictions.{IsCodablePlane, IsPredictedBy, less_values};

use dirac_common::{NoMemory, Plane};
use std::alloc::Global;

/// A sample less what is predicted.
#[inline(always)]
fn less(sample: i16, predicted: i32) -> i16
    requires sample { IsSample sample }
    requires predicted { IsSample predicted }
    ensures { result ≡ sample -ℤ predicted }
{
    (i32::from(sample) - predicted) as i16
}

/// Writes the difference at one place.
#[inline(always)]
fn put_difference(samples: &[i16], predicted: &[i32], left: &mut [i16], i: usize)
    requires inside { i < length samples.now }
    requires len { length predicted.now ≡ length samples.now }
    requires left { length left.old ≡ length samples.now }
    requires samples { All IsSample samples.now }
    requires predictions { All IsSample predicted.now }
    ensures { left.new
        ≡ slice_set left.old i (slice_index_or samples.now i (pos 0) -ℤ slice_index_or predicted.now i (pos 0)) }
{
    left[i] = less(samples[i], predicted[i]);
}

/// Writes the differences at all places.
fn put_differences(samples: &[i16], predicted: &[i32], left: &mut [i16])
    requires len { length predicted.now ≡ length samples.now }
    requires left { length left.old ≡ length samples.now }
    requires samples { All IsSample samples.now }
    requires predictions { All IsSample predicted.now }
    ensures { left.new ≡ zip2 (λ v other. v -ℤ other) samples.now predicted.now }
{
    for i in 0..samples.len() {
        put_difference(samples, predicted, left, i);
    }
}

/// A plane less its prediction, which stands by rows.
pub(crate) fn difference(alloc: Global, plane: &Plane, predicted: &[i32]) -> Result<Plane, NoMemory>
    requires plane { IsCodablePlane plane.now }
    requires predicted { IsPredictedBy plane.now predicted.now }
    ensures { IfOk result (λ t. t ≡ less_values plane.now predicted.now) }
{
    let mut left = Plane::try_new(alloc, plane.width(), plane.height(), 0)?;
    put_differences(plane.values(), predicted, left.values_mut());
    Ok(left)
}
