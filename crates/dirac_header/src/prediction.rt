ghost use Rattle.std.specs.Prelude.{◌≡◌, ℕ, ◌≤◌, ◌<◌, IfOk, IfErr, IsTrue, Ok, length, unsigned_abs};
ghost use Rattle.dirac_bits.specs.Cursor.{Cursor};
ghost use Rattle.dirac_bits.specs.Syntax.{read};
ghost use Rattle.dirac_bits.specs.Answers.{ReadsSeenBy};
ghost use Rattle.dirac_bits.specs.Laws.{BeginsWith};
ghost use Rattle.dirac_parameters.specs.declared.prediction.Prediction.{Prediction as ThePrediction};
ghost use Rattle.dirac_header.specs.Prediction as grammar;

use dirac_bits::BitReader;
use dirac_common::{BlockGrid, Cause, Chroma, Refusal, ratio_across, ratio_down, references};
use dirac_parameters::{Prediction, block_grid, is_divisible, is_overlap};

/// The weights of the references, and their precision in bits.
#[derive(Clone, Copy)]
pub struct Weights {
    pub bits: u8,
    pub first: i32,
    pub second: i32,
}

/// The prediction parameters of a picture with this parse code: picture prediction parameters, Dirac specification.
/// The bits up to the next byte are passed over first.
///
/// Block lengths and separations that break a rule are refused at the first of them.
pub fn read_prediction(
    r: &mut BitReader<'_>,
    code: u8,
    chroma: Chroma,
) -> Result<Prediction, Refusal>
    ensures value { ReadsSeenBy (λ p. p) result r.new (read (grammar.prediction code chroma) r.old) }
    // What is answered is spelled by the bits left.
    ensures spelled { IfOk result (λ p. BeginsWith (grammar.prediction code chroma) p r.old r.new) }
    // What they spell is answered.
    ensures no_other_reading { (p : ThePrediction) (d : Cursor) → BeginsWith (grammar.prediction code chroma) p r.old d
        → (result ≡ Ok p) × (r.new ≡ d) }
    ensures place_inside { IfErr result (λ e. e.at ≤ length r.old.bytes) }
    ensures kept { r.new.bytes ≡ r.old.bytes }
    ensures grid { IfOk result (λ p. IsTrue (grammar.is_grid chroma p.grid)) }
    ensures precision { IfOk result (λ p. p.precision ≤ 3) }
    ensures bits { IfOk result (λ p. (1 ≤ p.weight_bits) × (p.weight_bits ≤ 8)) }
    ensures weights { IfOk result (λ p. (unsigned_abs p.weight1 ≤ 255) × (unsigned_abs p.weight2 ≤ 255)) }
{
    let _at = r.place();
    read_parameters(r, code, chroma)
}

#[tactic(auto, unfolding(crate::specs::Prediction::prediction), using(dirac_bits::specs::Then::read_then))]
fn read_parameters(r: &mut BitReader<'_>, code: u8, chroma: Chroma) -> Result<Prediction, Refusal>
    ensures value { ReadsSeenBy (λ p. p) result r.new (read (grammar.prediction code chroma) r.old) }
    ensures place_inside { IfErr result (λ e. e.at ≤ length r.old.bytes) }
    ensures kept { r.new.bytes ≡ r.old.bytes }
    ensures grid { IfOk result (λ p. IsTrue (grammar.is_grid chroma p.grid)) }
    ensures precision { IfOk result (λ p. p.precision ≤ 3) }
    ensures bits { IfOk result (λ p. (1 ≤ p.weight_bits) × (p.weight_bits ≤ 8)) }
    ensures weights { IfOk result (λ p. (unsigned_abs p.weight1 ≤ 255) × (unsigned_abs p.weight2 ≤ 255)) }
{
    r.align();
    let grid = read_block_grid(r, chroma)?;
    let precision = read_vector_precision(r)?;
    read_modes(r)?;
    let weights = read_weights(r, references(code) == 2)?;
    Ok(weighted(grid, precision, weights))
}

fn weighted(grid: BlockGrid, precision: u8, weights: Weights) -> Prediction
    ensures { result ≡ grammar.prediction_with grid precision weights }
{
    Prediction {
        grid,
        precision,
        weight_bits: weights.bits,
        weight1: weights.first,
        weight2: weights.second,
    }
}

#[tactic(auto, unfolding(crate::specs::Prediction::vector_precision))]
fn read_vector_precision(r: &mut BitReader<'_>) -> Result<u8, Refusal>
    ensures value { ReadsSeenBy (λ n. n) result r.new (read grammar.vector_precision r.old) }
    ensures place_inside { IfErr result (λ e. e.at ≤ length r.old.bytes) }
    ensures kept { r.new.bytes ≡ r.old.bytes }
    ensures at_most_3 { IfOk result (λ n. n ≤ 3) }
{
    let precision = r.field(Cause::Precision, 0, 3)?;
    Ok(precision as u8)
}

#[tactic(auto, unfolding(crate::specs::Prediction::block_grid), using(dirac_bits::specs::Then::read_then))]
fn read_block_grid(r: &mut BitReader<'_>, chroma: Chroma) -> Result<BlockGrid, Refusal>
    ensures value { ReadsSeenBy (λ g. g) result r.new (read (grammar.block_grid chroma) r.old) }
    ensures place_inside { IfErr result (λ e. e.at ≤ length r.old.bytes) }
    ensures kept { r.new.bytes ≡ r.old.bytes }
    ensures grid { IfOk result (λ g. IsTrue (grammar.is_grid chroma g)) }
{
    let at = r.place();
    let index = r.uint()?;
    if index == 0 {
        return read_own_grid(r, chroma);
    }
    if index < 2 || index > 4 {
        return Err(Refusal {
            at,
            cause: Cause::BlockPreset,
        });
    }
    Ok(block_grid(index))
}

#[tactic(auto, unfolding(crate::specs::Prediction::own_grid), using(dirac_bits::specs::Then::read_then))]
fn read_own_grid(r: &mut BitReader<'_>, chroma: Chroma) -> Result<BlockGrid, Refusal>
    ensures value { ReadsSeenBy (λ g. g) result r.new (read (grammar.own_grid chroma) r.old) }
    ensures place_inside { IfErr result (λ e. e.at ≤ length r.old.bytes) }
    ensures kept { r.new.bytes ≡ r.old.bytes }
    ensures grid { IfOk result (λ g. IsTrue (grammar.is_grid chroma g)) }
{
    let at = r.place();
    let xblen = r.uint()?;
    let yblen = r.uint()?;
    let xbsep = r.uint()?;
    let ybsep = r.uint()?;
    let across = is_overlap(xblen, xbsep) && is_divisible(ratio_across(chroma), xblen, xbsep);
    let down = is_overlap(yblen, ybsep) && is_divisible(ratio_down(chroma), yblen, ybsep);
    if !(across && down) {
        return Err(Refusal {
            at,
            cause: Cause::BlockSize,
        });
    }
    Ok(BlockGrid {
        xblen: xblen as u32,
        yblen: yblen as u32,
        xbsep: xbsep as u32,
        ybsep: ybsep as u32,
    })
}

#[tactic(auto, unfolding(crate::specs::Prediction::modes), using(dirac_bits::specs::Then::read_then))]
fn read_modes(r: &mut BitReader<'_>) -> Result<(), Refusal>
    ensures value { ReadsSeenBy (λ x. x) result r.new (read grammar.modes r.old) }
    ensures place_inside { IfErr result (λ e. e.at ≤ length r.old.bytes) }
    ensures kept { r.new.bytes ≡ r.old.bytes }
{
    let at = r.place();
    if r.bit()? {
        return Err(Refusal {
            at,
            cause: Cause::GlobalMotion,
        });
    }
    r.field(Cause::PredictionMode, 0, 0)?;
    Ok(())
}

#[tactic(auto, unfolding(crate::specs::Prediction::weights), using(dirac_bits::specs::Then::read_then))]
fn read_weights(r: &mut BitReader<'_>, two: bool) -> Result<Weights, Refusal>
    ensures value { ReadsSeenBy (λ w. w) result r.new (read (grammar.weights two) r.old) }
    ensures place_inside { IfErr result (λ e. e.at ≤ length r.old.bytes) }
    ensures kept { r.new.bytes ≡ r.old.bytes }
    ensures bits { IfOk result (λ w. (1 ≤ w.bits) × (w.bits ≤ 8)) }
    ensures weights { IfOk result (λ w. (unsigned_abs w.first ≤ 255) × (unsigned_abs w.second ≤ 255)) }
{
    if r.bit()? {
        return read_own_weights(r, two);
    }
    Ok(Weights {
        bits: 1,
        first: 1,
        second: 1,
    })
}

#[tactic(auto, unfolding(crate::specs::Prediction::own_weights), using(dirac_bits::specs::Then::read_then))]
fn read_own_weights(r: &mut BitReader<'_>, two: bool) -> Result<Weights, Refusal>
    ensures value { ReadsSeenBy (λ w. w) result r.new (read (grammar.own_weights two) r.old) }
    ensures place_inside { IfErr result (λ e. e.at ≤ length r.old.bytes) }
    ensures kept { r.new.bytes ≡ r.old.bytes }
    ensures bits { IfOk result (λ w. (1 ≤ w.bits) × (w.bits ≤ 8)) }
    ensures weights { IfOk result (λ w. (unsigned_abs w.first ≤ 255) × (unsigned_abs w.second ≤ 255)) }
{
    let bits = r.field(Cause::Weights, 1, 8)?;
    let first = read_weight(r)?;
    let second = read_second_weight(r, two)?;
    Ok(Weights {
        bits: bits as u8,
        first,
        second,
    })
}

#[tactic(auto, unfolding(crate::specs::Prediction::second_weight))]
fn read_second_weight(r: &mut BitReader<'_>, two: bool) -> Result<i32, Refusal>
    ensures value { ReadsSeenBy (λ w. w) result r.new (read (grammar.second_weight two) r.old) }
    ensures place_inside { IfErr result (λ e. e.at ≤ length r.old.bytes) }
    ensures kept { r.new.bytes ≡ r.old.bytes }
    ensures at_most_255 { IfOk result (λ w. unsigned_abs w ≤ 255) }
{
    if two { read_weight(r) } else { Ok(1) }
}

#[tactic(auto, unfolding(crate::specs::Prediction::weight))]
fn read_weight(r: &mut BitReader<'_>) -> Result<i32, Refusal>
    ensures value { ReadsSeenBy (λ w. w) result r.new (read grammar.weight r.old) }
    ensures place_inside { IfErr result (λ e. e.at ≤ length r.old.bytes) }
    ensures kept { r.new.bytes ≡ r.old.bytes }
    ensures at_most_255 { IfOk result (λ w. unsigned_abs w ≤ 255) }
{
    let at = r.place();
    let weight = r.sint()?;
    if weight.unsigned_abs() > 255 {
        return Err(Refusal {
            at,
            cause: Cause::Weights,
        });
    }
    Ok(weight as i32)
}
