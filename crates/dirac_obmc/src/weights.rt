ghost use Rattle.std.specs.Prelude.{◌≡◌, ℕ, ℤ, ◌*◌, ◌/◌, ◌%◌, ◌<◌, ◌≤◌, IfOk, replicate};
ghost use Rattle.dirac_obmc.specs.Weights.{IsOverlap, share, sum_below, weight_at};
ghost use Rattle.dirac_obmc.specs.Compensation.{Compensation, IsFlat, IsCompensation, blocks_across, blocks_down};
ghost use Rattle.dirac_obmc.specs.Compensation.{predicted_at, weight_of};
ghost use Rattle.dirac_obmc.specs.Directions.{IsWeights};

use crate::direction::Direction;
use dirac_common::{LARGEST_SIDE, NoMemory};
use std::alloc::Global;

/// The weight of a block at its place `t`, where `count` blocks stand side by side (overlapped blocks, Dirac
/// specification). Lengths and separations are those of the plane.
#[tactic(auto, unfolding(crate::specs::Weights::weight_at))]
pub fn weight(block: u32, count: u32, length: u32, separation: u32, t: u32) -> u32
    requires sizes { IsOverlap length separation }
    requires block { block < count }
    requires place { t < length }
    ensures value { result ≡ weight_at block count length separation t }
    ensures at_most_8 { result ≤ 8 }
{
    let margin = (length - separation) / 2;
    if block == 0 && 2 * t < length {
        return 8;
    }
    if block + 1 == count && 2 * t >= length {
        return 8;
    }
    if t < 2 * margin {
        return ramp(margin, t);
    }
    if t > length - 1 - 2 * margin {
        return ramp(margin, length - 1 - t);
    }
    8
}

/// The weights that rise over an overlap of twice the margin.
fn ramp(margin: u32, t: u32) -> u32
    requires margin { margin ≤ 16 }
    requires place { t < 2 * margin }
    ensures value { result ≡ Rattle.dirac_obmc.specs.Weights.ramp margin t }
    ensures at_most_8 { result ≤ 8 }
{
    if margin == 1 {
        return if t == 0 { 3 } else { 5 };
    }
    1 + (6 * t + margin - 1) / (2 * margin - 1)
}

/// The weight at a place of the list of all weights, block after block.
fn weight_in_list(blocks: Direction, place: u32) -> u8
    requires sizes { IsOverlap blocks.length blocks.separation }
    requires place { place < blocks.count * blocks.length }
    ensures value { result ≡ weight_at (place / blocks.length) blocks.count blocks.length blocks.separation
        (place % blocks.length) }
    ensures at_most_8 { result ≤ 8 }
{
    weight(
        place / blocks.length,
        blocks.count,
        blocks.length,
        blocks.separation,
        place % blocks.length,
    ) as u8
}

/// So many weights 0.
fn no_weights(alloc: Global, count: usize) -> Result<Vec<u8>, NoMemory>
    ensures { IfOk result (λ ws. ws.items ≡ replicate count 0) }
{
    Ok(vec![in alloc; 0; count]?)
}

/// The weights of all blocks of a direction, block after block.
pub fn weight_table(alloc: Global, blocks: Direction) -> Result<Vec<u8>, NoMemory>
    requires sizes { IsOverlap blocks.length blocks.separation }
    requires count { blocks.count ≤ LARGEST_SIDE }
    ensures { IfOk result (λ ws. IsWeights blocks.count blocks.length blocks.separation ws.items) }
{
    let count = blocks.count * blocks.length;
    let mut weights = no_weights(alloc, count as usize)?;
    for place in 0..count {
        weights[place as usize] = weight_in_list(blocks, place);
    }
    Ok(weights)
}

/// The weights of all blocks at a place across, or down, sum to 8, however the blocks overlap.
pub fn weights_sum_to_eight()
    ensures { (count length separation x : ℕ) → IsOverlap length separation → x < count * separation
        → sum_below (λ block. share block count length separation x) count ≡ 8 }
{}

/// The weights of all blocks at a sample that they cover sum to 64.
pub fn weights_sum_to_64()
    ensures { (m : Compensation) → IsCompensation m → (x y : ℕ) → x < m.width → y < m.height
        → sum_below (λ j. sum_below (λ i. weight_of m x y j i) (blocks_across m)) (blocks_down m) ≡ 64 }
{}

/// DC blocks of one value predict that value everywhere.
pub fn dc_blocks_predict_their_value()
    ensures { (m : Compensation) (v : ℤ) → IsCompensation m → IsFlat m v → (x y : ℕ) → x < m.width → y < m.height
        → predicted_at m x y ≡ v }
{}
