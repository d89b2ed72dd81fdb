ghost use Rattle.std.specs.Prelude.{◌≡◌, ℕ, pos, ◌+◌, ◌*◌, ◌/◌, ◌%◌, ◌^◌, ◌<◌, ◌≤◌, ◌+ℤ◌, ◌*ℤ◌, unsigned_abs, length};
ghost use Rattle.std.specs.Prelude.{slice_index_or, IsTrue};
ghost use Rattle.std.specs.Int.{int_div_euclid, int_shr};
ghost use Rattle.std.specs.List.{All};
ghost use Rattle.dirac_vectors.specs.Neighbours.{IsShort};
ghost use Rattle.dirac_vectors.specs.Predictions.{IsShortVector};
ghost use Rattle.dirac_block_table.specs.Tables.{IsBlock};
ghost use Rattle.dirac_upconvert.specs.HalfSamples.{IsSample};
ghost use Rattle.dirac_upconvert.specs.Places;
ghost use Rattle.dirac_upconvert.specs.SubSamples.{rounded};
ghost use Rattle.dirac_obmc.specs.Compensation.{IsCompensation, component_dc, from_one, from_two, predicts};
ghost use Rattle.dirac_obmc.specs.Compensation.{second_sample};
ghost use Rattle.dirac_obmc.specs.Given.{compensation_of, lent};
ghost use Rattle.dirac_obmc.specs.OfSamples.{HasDefaultWeights};
ghost use Rattle.dirac_obmc.specs.Windows.{IsWindow};

use crate::direction::{across_ratio, down_ratio};
use crate::motion::Motion;
use dirac_block_table::Block;
use dirac_common::{Component, LARGEST_SIDE, LARGEST_TABLE_SIDE, Vector};
use dirac_parameters::Prediction;
use dirac_upconvert::UpPlane;

/// A place in parts of a sample.
fn in_parts(precision: u8, place: u32) -> i64
    requires precision { precision ≤ 3 }
    requires place { place ≤ LARGEST_TABLE_SIDE }
    ensures value { result ≡ pos (2 ^ precision * place) }
    ensures at_most_2_16 { unsigned_abs result ≤ 2 ^ 16 }
{
    let place = i64::from(place);
    match precision {
        0 => place,
        1 => 2 * place,
        2 => 4 * place,
        _ => 8 * place,
    }
}

/// A part of a vector divided by a ratio, rounding down.
fn divided(vector: i32, ratio: u32) -> i64
    requires vector { IsShort vector }
    requires ratio { (1 ≤ ratio) × (ratio ≤ 2) }
    ensures value { result ≡ int_div_euclid vector (pos ratio) }
    ensures at_most_2_15 { unsigned_abs result ≤ 2 ^ 15 }
{
    let vector = i64::from(vector);
    if ratio == 1 {
        vector
    } else {
        vector.div_euclid(2)
    }
}

/// The position, in parts of a sample, to which a vector's part leads from a place.
fn position(precision: u8, ratio: u32, place: u32, vector: i32) -> i64
    requires precision { precision ≤ 3 }
    requires ratio { (1 ≤ ratio) × (ratio ≤ 2) }
    requires place { place ≤ LARGEST_TABLE_SIDE }
    requires vector { IsShort vector }
    ensures value { result ≡ Places.position precision ratio place vector }
    ensures at_most_2_17 { unsigned_abs result ≤ 2 ^ 17 }
{
    in_parts(precision, place) + divided(vector, ratio)
}

/// Rows of `width` places of a plane, from column `x` of row `y` on.
#[derive(Clone, Copy)]
pub struct Window {
    pub x: u32,
    pub y: u32,
    pub width: usize,
}

/// The samples of a reference to which a vector leads from a window, row after row, and 0 where there is none.
fn moved_rows(
    motion: &Motion<'_>,
    reference: Option<&UpPlane>,
    vector: Vector,
    window: Window,
    out: &mut [i16],
)
    requires motion { IsCompensation (compensation_of motion.now) }
    requires vector { IsShortVector vector }
    requires window { IsWindow (length out.old) window }
    ensures value { (k : ℕ) → k < length out.old → slice_index_or out.new k (pos 0)
        ≡ second_sample (compensation_of motion.now) (lent reference.entry) vector (window.x + k % window.width)
        (window.y
        + k / window.width) }
    ensures samples { All IsSample out.new }
{
    let precision = motion.prediction.precision;
    let across = position(precision, across_ratio(motion), window.x, vector.x);
    let down = position(precision, down_ratio(motion), window.y, vector.y);
    match reference {
        Some(up) => up.sub_rows(precision, across, down, window.width, out),
        None => out.fill(0),
    }
}

/// A value in sixteen bits.
#[inline(always)]
fn short(value: i32) -> i16
    requires { IsShort value }
    ensures { result ≡ value }
{
    value as i16
}

/// A sum divided by 2 to the power `bits`, to the nearest.
#[inline(always)]
fn rounded(sum: i32, bits: u8) -> i32
    requires sum { unsigned_abs sum ≤ 65280 }
    requires bits { (1 ≤ bits) × (bits ≤ 8) }
    ensures value { result ≡ Rattle.dirac_upconvert.specs.SubSamples.rounded bits sum }
    ensures short { IsShort result }
{
    let half = (1i32 << u32::from(bits)) >> 1;
    (sum + half) >> u32::from(bits)
}

/// A sample times a weight.
#[inline(always)]
fn times(sample: i16, weight: i32) -> i32
    requires sample { IsSample sample }
    requires weight { unsigned_abs weight ≤ 510 }
    ensures value { result ≡ sample *ℤ weight }
    ensures at_most_128 { unsigned_abs result ≤ 128 * unsigned_abs weight }
{
    i32::from(sample) * weight
}

/// A sample times its weight, divided by 2 to the power `bits`.
#[inline(always)]
fn weighted(sample: i16, weight: i32, bits: u8) -> i16
    requires sample { IsSample sample }
    requires weight { unsigned_abs weight ≤ 510 }
    requires bits { (1 ≤ bits) × (bits ≤ 8) }
    ensures { result ≡ Rattle.dirac_upconvert.specs.SubSamples.rounded bits (sample *ℤ weight) }
{
    short(rounded(times(sample, weight), bits))
}

#[inline(always)]
fn sum(a: i32, b: i32) -> i32
    requires a { unsigned_abs a ≤ 32640 }
    requires b { unsigned_abs b ≤ 32640 }
    ensures value { result ≡ a +ℤ b }
    ensures at_most_65280 { unsigned_abs result ≤ 65280 }
{
    a + b
}

/// Two samples, each times its weight, divided by 2 to the power `bits`.
#[inline(always)]
fn weighted_both(first: i16, weight1: i32, second: i16, weight2: i32, bits: u8) -> i16
    requires first { IsSample first }
    requires weight1 { unsigned_abs weight1 ≤ 255 }
    requires second { IsSample second }
    requires weight2 { unsigned_abs weight2 ≤ 255 }
    requires bits { (1 ≤ bits) × (bits ≤ 8) }
    ensures { result ≡ Rattle.dirac_upconvert.specs.SubSamples.rounded bits (first *ℤ weight1 +ℤ second *ℤ weight2) }
{
    short(rounded(sum(times(first, weight1), times(second, weight2)), bits))
}

/// Whether both references count alike, so that one sample weighs as itself and two as their mean.
fn has_default_weights(p: &Prediction) -> bool
    ensures { IsTrue result → HasDefaultWeights p.now }
{
    p.weight_bits == 1 && p.weight1 == 1 && p.weight2 == 1
}

#[inline(always)]
fn sample_sum(a: i16, b: i16) -> i16
    requires a { IsSample a }
    requires b { IsSample b }
    ensures value { result ≡ a +ℤ b }
    ensures at_most_256 { unsigned_abs result ≤ 256 }
{
    a + b
}

/// A sum of two samples divided by 2, halves up.
#[inline(always)]
fn halved(sum: i16) -> i16
    requires { unsigned_abs sum ≤ 256 }
    ensures { result ≡ int_shr (sum +ℤ pos 1) 1 }
{
    (sum + 1) >> 1
}

/// The mean of the samples at place `k` of two lists.
#[inline(always)]
fn mean_at(first: &[i16], second: &[i16], k: usize) -> i16
    requires inside { (k < length first.now) × (k < length second.now) }
    requires first { All IsSample first.now }
    requires second { All IsSample second.now }
    ensures { result ≡ int_shr ((slice_index_or first.now k (pos 0) +ℤ slice_index_or second.now k (pos 0)) +ℤ pos 1)
        1 }
{
    halved(sample_sum(first[k], second[k]))
}

/// The means of the samples of two lists.
fn means(first: &[i16], second: &[i16], out: &mut [i16])
    requires len { (length first.now ≡ length out.old) × (length second.now ≡ length out.old) }
    requires first { All IsSample first.now }
    requires second { All IsSample second.now }
    ensures { (k : ℕ) → k < length out.old → slice_index_or out.new k (pos 0)
        ≡ int_shr ((slice_index_or first.now k (pos 0) +ℤ slice_index_or second.now k (pos 0)) +ℤ pos 1) 1 }
{
    for k in 0..out.len() {
        out[k] = mean_at(first, second, k);
    }
}

fn weight_of_one(p: &Prediction) -> i32
    requires weights { (unsigned_abs p.now.weight1 ≤ 255) × (unsigned_abs p.now.weight2 ≤ 255) }
    ensures value { result ≡ p.now.weight1 +ℤ p.now.weight2 }
    ensures at_most_510 { unsigned_abs result ≤ 510 }
{
    p.weight1 + p.weight2
}

/// The values of a block with one reference.
fn weigh_one(p: &Prediction, samples: &[i16], out: &mut [i16])
    requires bits { (1 ≤ p.now.weight_bits) × (p.now.weight_bits ≤ 8) }
    requires weights { (unsigned_abs p.now.weight1 ≤ 255) × (unsigned_abs p.now.weight2 ≤ 255) }
    requires len { length samples.now ≡ length out.old }
    requires samples { All IsSample samples.now }
    ensures { (k : ℕ) → k < length out.old → slice_index_or out.new k (pos 0)
        ≡ from_one p.now (slice_index_or samples.now k (pos 0)) }
{
    let weight = weight_of_one(p);
    let bits = p.weight_bits;
    for k in 0..out.len() {
        out[k] = weighted(samples[k], weight, bits);
    }
}

/// What the two references of a block weigh, read once a row.
#[derive(Clone, Copy)]
struct Weighing {
    weight1: i32,
    weight2: i32,
    bits: u8,
}

/// The value at place `k` of a block with two references.
#[inline(always)]
fn value_of_two(weighing: Weighing, first: &[i16], second: &[i16], k: usize) -> i16
    requires bits { (1 ≤ weighing.bits) × (weighing.bits ≤ 8) }
    requires weight1 { unsigned_abs weighing.weight1 ≤ 255 }
    requires weight2 { unsigned_abs weighing.weight2 ≤ 255 }
    requires inside { (k < length first.now) × (k < length second.now) }
    requires first { All IsSample first.now }
    requires second { All IsSample second.now }
    ensures { result ≡ Rattle.dirac_upconvert.specs.SubSamples.rounded weighing.bits (slice_index_or first.now k (pos 0)
        *ℤ weighing.weight1 +ℤ slice_index_or second.now k (pos 0) *ℤ weighing.weight2) }
{
    weighted_both(
        first[k],
        weighing.weight1,
        second[k],
        weighing.weight2,
        weighing.bits,
    )
}

/// The values of a block with two references.
fn weigh_two(p: &Prediction, first: &[i16], second: &[i16], out: &mut [i16])
    requires bits { (1 ≤ p.now.weight_bits) × (p.now.weight_bits ≤ 8) }
    requires weights { (unsigned_abs p.now.weight1 ≤ 255) × (unsigned_abs p.now.weight2 ≤ 255) }
    requires len { (length first.now ≡ length out.old) × (length second.now ≡ length out.old) }
    requires first { All IsSample first.now }
    requires second { All IsSample second.now }
    ensures { (k : ℕ) → k < length out.old → slice_index_or out.new k (pos 0)
        ≡ from_two p.now (slice_index_or first.now k (pos 0)) (slice_index_or second.now k (pos 0)) }
{
    if has_default_weights(p) {
        means(first, second, out);
        return;
    }
    let weighing = Weighing {
        weight1: p.weight1,
        weight2: p.weight2,
        bits: p.weight_bits,
    };
    for k in 0..out.len() {
        out[k] = value_of_two(weighing, first, second, k);
    }
}

/// The DC value of a block for this part.
fn dc(component: Component, block: &Block) -> i16
    requires y { IsShort block.now.dc_y }
    requires u { IsShort block.now.dc_u }
    requires v { IsShort block.now.dc_v }
    ensures { result ≡ component_dc component block.now }
{
    match component {
        Component::Y => short(block.dc_y),
        Component::U => short(block.dc_u),
        Component::V => short(block.dc_v),
    }
}

/// What a block with one reference predicts; `samples` is room for samples of the reference.
fn one_values(
    motion: &Motion<'_>,
    reference: Option<&UpPlane>,
    vector: Vector,
    window: Window,
    samples: &mut [i16],
    out: &mut [i16],
)
    requires motion { IsCompensation (compensation_of motion.now) }
    requires vector { IsShortVector vector }
    requires window { IsWindow (length out.old) window }
    requires len { length samples.old ≡ length out.old }
    ensures { (k : ℕ) → k < length out.old → slice_index_or out.new k (pos 0)
        ≡ from_one motion.now.prediction.now
        (second_sample (compensation_of motion.now) (lent reference.entry) vector (window.x
        + k % window.width) (window.y + k / window.width)) }
{
    if has_default_weights(motion.prediction) {
        moved_rows(motion, reference, vector, window, out);
        return;
    }
    moved_rows(motion, reference, vector, window, samples);
    weigh_one(motion.prediction, samples, out);
}

/// What a block predicts in a window, row after row; `first` and `second` are room for the samples of the references.
fn block_values(
    motion: &Motion<'_>,
    block: &Block,
    window: Window,
    first: &mut [i16],
    second: &mut [i16],
    out: &mut [i16],
)
    requires motion { IsCompensation (compensation_of motion.now) }
    requires block { IsBlock motion.now.blocks.now.refs block.now }
    requires window { IsWindow (length out.old) window }
    requires lens { (length first.old ≡ length out.old) × (length second.old ≡ length out.old) }
    ensures { (k : ℕ) → k < length out.old → slice_index_or out.new k (pos 0)
        ≡ predicts (compensation_of motion.now) block.now (window.x + k % window.width) (window.y + k / window.width) }
{
    if block.ref1 {
        if block.ref2 {
            moved_rows(motion, Some(motion.up1), block.v1, window, first);
            moved_rows(motion, motion.up2, block.v2, window, second);
            weigh_two(motion.prediction, first, second, out);
            return;
        }
        one_values(motion, Some(motion.up1), block.v1, window, first, out);
        return;
    }
    if block.ref2 {
        one_values(motion, motion.up2, block.v2, window, second, out);
        return;
    }
    out.fill(dc(motion.component, block));
}

/// What a block predicts in a window of `count` places, as the front of `out`; `first` and `second` are room for the
/// samples of the references.
pub fn block_front(
    motion: &Motion<'_>,
    block: &Block,
    window: Window,
    count: usize,
    first: &mut [i16],
    second: &mut [i16],
    out: &mut [i16],
)
    requires motion { IsCompensation (compensation_of motion.now) }
    requires block { IsBlock motion.now.blocks.now.refs block.now }
    requires window { IsWindow count window }
    requires first { count ≤ length first.old }
    requires second { count ≤ length second.old }
    requires out { count ≤ length out.old }
    ensures { (k : ℕ) → k < count → slice_index_or out.new k (pos 0)
        ≡ predicts (compensation_of motion.now) block.now (window.x + k % window.width) (window.y + k / window.width) }
{
    block_values(
        motion,
        block,
        window,
        &mut first[..count],
        &mut second[..count],
        &mut out[..count],
    );
}
