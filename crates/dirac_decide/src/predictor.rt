ghost use Rattle.std.specs.Prelude.{◌≡◌, ℕ, ℤ, pos, negsuc, ◌≤ℤ◌, ◌+◌, ◌*◌, ◌^◌, ◌<◌, ◌≤◌, ◌+ℤ◌, unsigned_abs, length};
ghost use Rattle.std.specs.Prelude.{slice_index_or};
ghost use Rattle.std.specs.Int.{int_shr};
ghost use Rattle.std.specs.List.{All};
ghost use Rattle.dirac_vectors.specs.Neighbours.{IsShort};
ghost use Rattle.dirac_vectors.specs.Predictions.{IsShortVector};
ghost use Rattle.dirac_upconvert.specs.HalfSamples.{IsSample};
ghost use Rattle.dirac_decide.specs.Modes.{mean_of_samples};
ghost use Rattle.dirac_decide.specs.Predictors.{IsPredictor, RowHolds, RowIs, both_samples, mean_in, moved_samples};
ghost use Rattle.dirac_decide.specs.Predictors.{predictor_samples};

use dirac_common::Vector;
use dirac_upconvert::UpPlane;

/// A reference and the vector that leads into it.
#[derive(Clone, Copy)]
pub struct Moved<'a> {
    pub up: &'a UpPlane,
    pub vector: Vector,
}

/// What a unit's samples are compared with: the samples to which one vector leads, the means of those to which two
/// lead, or one value.
#[derive(Clone, Copy)]
pub enum Predictor<'a> {
    One(Moved<'a>),
    Both(Moved<'a>, Moved<'a>),
    Flat(i16),
}

/// A place in parts of a sample, as far on as a vector's component says.
fn position(precision: u8, place: u32, component: i32) -> i64
    requires precision { precision ≤ 3 }
    requires place { place ≤ 131072 }
    requires component { IsShort component }
    ensures value { result ≡ pos (2 ^ precision * place) +ℤ component }
    ensures below_2_31 { unsigned_abs result < 2 ^ 31 }
{
    let place = i64::from(place);
    let component = i64::from(component);
    match precision {
        0 => place + component,
        1 => 2 * place + component,
        2 => 4 * place + component,
        _ => 8 * place + component,
    }
}

/// The samples to which a vector leads from row `y`, from column `x` on.
fn moved_row(precision: u8, moved: &Moved<'_>, x: u32, y: u32, out: &mut [i16])
    requires precision { precision ≤ 3 }
    requires vector { IsShortVector moved.now.vector }
    requires x { x ≤ 65536 }
    requires y { y ≤ 131072 }
    requires at_most_64 { length out.old ≤ 64 }
    ensures value { RowHolds (moved_samples precision moved.now) x y (length out.old) out.new }
    ensures samples { All IsSample out.new }
{
    let across = position(precision, x, moved.vector.x);
    let down = position(precision, y, moved.vector.y);
    moved.up.sub_row(precision, across, down, out);
}

/// Half of the sum of two samples and 1, rounded down.
#[inline(always)]
fn half(sum: i16) -> i16
    requires { (negsuc 254 ≤ℤ sum) × (sum ≤ℤ pos 255) }
    ensures value { result ≡ int_shr sum 1 }
    ensures sample { IsSample result }
{
    sum >> 1
}

/// The mean of two samples, halves up.
#[inline(always)]
fn mean(a: i16, b: i16) -> i16
    requires a { IsSample a }
    requires b { IsSample b }
    ensures value { result ≡ mean_of_samples a b }
    ensures sample { IsSample result }
{
    half(a + b + 1)
}

/// The mean of the samples of two rows at place `k`.
#[inline(always)]
fn mean_at(first: &[i16], second: &[i16], k: usize) -> i16
    requires inside { (k < length first.now) × (k < length second.now) }
    requires first { All IsSample first.now }
    requires second { All IsSample second.now }
    ensures value { result ≡ mean_in first.now second.now k }
    ensures sample { IsSample result }
{
    mean(first[k], second[k])
}

/// Writes the means of the samples of two rows over those of the first.
fn mean_rows(first: &mut [i16], second: &[i16])
    requires len { length second.now ≡ length first.old }
    requires first { All IsSample first.old }
    requires second { All IsSample second.now }
    ensures value { RowIs (mean_in first.old second.now) (length first.old) first.new }
{
    for k in 0..first.len() {
        first[k] = mean_at(first, second, k);
    }
}

/// Writes the means of the samples to which two vectors lead.
fn both_row(precision: u8, first: &Moved<'_>, second: &Moved<'_>, x: u32, y: u32, out: &mut [i16])
    requires precision { precision ≤ 3 }
    requires first { IsShortVector first.now.vector }
    requires second { IsShortVector second.now.vector }
    requires x { x ≤ 65536 }
    requires y { y ≤ 131072 }
    requires at_most_64 { length out.old ≤ 64 }
    ensures value { RowHolds (both_samples precision first.now second.now) x y (length out.old) out.new }
{
    let mut samples = [0i16; 64];
    let beside = &mut samples[..out.len()];
    moved_row(precision, first, x, y, out);
    moved_row(precision, second, x, y, beside);
    mean_rows(out, beside);
}

/// Writes one value over a whole row.
fn flat_row(value: i16, out: &mut [i16])
    ensures value { RowIs (λ k. value) (length out.old) out.new }
{
    for k in 0..out.len() {
        out[k] = value;
    }
}

/// Writes a predictor's samples of row `y`, from column `x` on.
pub fn predicted_row(precision: u8, predictor: &Predictor<'_>, x: u32, y: u32, out: &mut [i16])
    requires precision { precision ≤ 3 }
    requires predictor { IsPredictor predictor.now }
    requires x { x ≤ 65536 }
    requires y { y ≤ 131072 }
    requires at_most_64 { length out.old ≤ 64 }
    ensures value { RowHolds (predictor_samples precision predictor.now) x y (length out.old) out.new }
{
    match predictor {
        Predictor::One(moved) => moved_row(precision, moved, x, y, out),
        Predictor::Both(first, second) => both_row(precision, first, second, x, y, out),
        Predictor::Flat(value) => flat_row(*value, out),
    }
}
