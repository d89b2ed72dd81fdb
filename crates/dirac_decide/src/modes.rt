ghost use Rattle.std.specs.Prelude.{◌≡◌, ℕ, ◌+◌, ◌^◌, ◌≤◌};
ghost use Rattle.dirac_vectors.specs.Predictions.{IsShortVector};
ghost use Rattle.dirac_block_table.specs.Tables.{IsBlock};
ghost use Rattle.dirac_upconvert.specs.HalfSamples.{IsSample};
ghost use Rattle.dirac_costs.specs.Bits.{bits_to_spell};
ghost use Rattle.dirac_decide.specs.Choosing as choosing;
ghost use Rattle.dirac_decide.specs.Deciding.{IsDeciding, IsView};
ghost use Rattle.dirac_decide.specs.Given.{deciding_of, view_of};
ghost use Rattle.dirac_decide.specs.Modes as modes;
ghost use Rattle.dirac_decide.specs.Predictors.{IsChromaSource, IsPredictionUnit, IsUnitWindow};
ghost use Rattle.dirac_decide.specs.Units as units;

use crate::best::best_of;
use crate::choice::{Choice, unless_cheaper};
use crate::costs::{price, unit_cost_below};
use crate::inputs::{Inputs, RefView};
use crate::prediction_unit::{PredictionUnit, unit_window};
use crate::predictor::{Moved, Predictor};
use dirac_block_table::{Block, grey_block};
use dirac_common::Vector;
use dirac_costs::{Window, mean, signed_bits, vector_bits};

/// A block that is predicted from reference 1.
fn from_first(vector: Vector) -> Block
    requires { IsShortVector vector }
    ensures value { result ≡ modes.from_first vector }
    ensures block { (refs : ℕ) → IsBlock refs result }
{
    Block {
        ref1: true,
        v1: vector,
        ..grey_block()
    }
}

/// A block that is predicted from reference 2.
fn from_second(vector: Vector) -> Block
    requires { IsShortVector vector }
    ensures value { result ≡ modes.from_second vector }
    ensures block { IsBlock 2 result }
{
    Block {
        ref2: true,
        v2: vector,
        ..grey_block()
    }
}

/// A block that is predicted from both references.
fn from_both(first: Vector, second: Vector) -> Block
    requires first { IsShortVector first }
    requires second { IsShortVector second }
    ensures value { result ≡ modes.from_both first second }
    ensures block { IsBlock 2 result }
{
    Block {
        ref1: true,
        ref2: true,
        v1: first,
        v2: second,
        ..grey_block()
    }
}

/// A block of DC values.
fn from_dc(y: i16, u: i16, v: i16) -> Block
    requires y { IsSample y }
    requires u { IsSample u }
    requires v { IsSample v }
    ensures value { result ≡ modes.from_dc y u v }
    ensures block { (refs : ℕ) → IsBlock refs result }
{
    Block {
        dc_y: i32::from(y),
        dc_u: i32::from(u),
        dc_v: i32::from(v),
        ..grey_block()
    }
}

/// A window of luma in the chroma planes.
fn chroma_window(inputs: &Inputs<'_>, window: Window) -> Window
    requires across { (1 ≤ inputs.now.across_ratio) × (inputs.now.across_ratio ≤ 2) }
    requires down { (1 ≤ inputs.now.down_ratio) × (inputs.now.down_ratio ≤ 2) }
    requires window { IsUnitWindow window }
    requires chroma { IsChromaSource window }
    ensures value { result ≡ modes.chroma_window (deciding_of inputs.now) window }
    ensures window { IsUnitWindow result }
{
    Window {
        x: window.x / inputs.across_ratio,
        y: window.y / inputs.down_ratio,
        columns: window.columns / inputs.across_ratio,
        rows: window.rows / inputs.down_ratio,
    }
}

/// The DC values of a unit's window.
fn dc_block(inputs: &Inputs<'_>, window: Window) -> Block
    requires inputs { IsDeciding (deciding_of inputs.now) }
    requires window { IsUnitWindow window }
    requires chroma { IsChromaSource window }
    ensures value { result ≡ modes.dc_block (deciding_of inputs.now) window }
    ensures block { (refs : ℕ) → IsBlock refs result }
    ensures y { IsSample result.dc_y }
    ensures u { IsSample result.dc_u }
    ensures v { IsSample result.dc_v }
{
    let chroma = chroma_window(inputs, window);
    let y = mean(&inputs.source.y, window);
    let u = mean(&inputs.source.u, chroma);
    let v = mean(&inputs.source.v, chroma);
    from_dc(y, u, v)
}

/// How many bits spell the DC values of a block.
fn dc_bits(block: &Block) -> u32
    ensures value { result ≡ modes.bits_of_dc block.now }
    ensures at_most_390 { result ≤ 390 }
{
    signed_bits(block.dc_y) + signed_bits(block.dc_u) + signed_bits(block.dc_v)
}

/// The luma value of a DC block of samples.
fn luma(block: &Block) -> i16
    requires { IsSample block.now.dc_y }
    ensures { result ≡ block.now.dc_y }
{
    block.dc_y as i16
}

/// The choice, unless the DC values cost less.
fn with_dc(inputs: &Inputs<'_>, unit: PredictionUnit, choice: Choice) -> Choice
    requires inputs { IsDeciding (deciding_of inputs.now) }
    requires unit { IsPredictionUnit inputs.now.across inputs.now.down unit }
    requires at_most_2_29 { choice.cost ≤ 2 ^ 29 }
    requires block { IsBlock (modes.count_of_references (deciding_of inputs.now).second) choice.block }
    ensures value { result ≡ choosing.cheaper choice (modes.dc_mode (deciding_of inputs.now) unit) }
    ensures at_most_2_29 { result.cost ≤ 2 ^ 29 }
    ensures block { IsBlock (modes.count_of_references (deciding_of inputs.now).second) result.block }
{
    let window = unit_window(inputs, unit);
    let block = dc_block(inputs, window);
    let priced = price(inputs.bias, dc_bits(&block));
    let value = luma(&block);
    let predictor = Predictor::Flat(value);
    let told = unit_cost_below(inputs, unit, &predictor, priced, choice.cost);
    unless_cheaper(choice, told, block)
}

/// The choice, unless both references with these vectors cost less.
fn with_both(
    inputs: &Inputs<'_>,
    view: &RefView<'_>,
    unit: PredictionUnit,
    v: Vector,
    w: Vector,
    choice: Choice,
) -> Choice
    requires inputs { IsDeciding (deciding_of inputs.now) }
    requires unit { IsPredictionUnit inputs.now.across inputs.now.down unit }
    requires v { v ≡ units.best_vector (deciding_of inputs.now) (deciding_of inputs.now).first unit }
    requires w { w ≡ units.best_vector (deciding_of inputs.now) (view_of view.now) unit }
    requires v_of_16_bits { IsShortVector v }
    requires w_of_16_bits { IsShortVector w }
    requires at_most_2_29 { choice.cost ≤ 2 ^ 29 }
    requires block { IsBlock 2 choice.block }
    ensures value { result
        ≡ choosing.cheaper choice (modes.both_mode (deciding_of inputs.now) (view_of view.now) unit) }
    ensures at_most_2_29 { result.cost ≤ 2 ^ 29 }
    ensures block { IsBlock 2 result.block }
{
    let v_bits = vector_bits(v);
    let w_bits = vector_bits(w);
    let priced = price(inputs.bias, v_bits + w_bits);
    let predictor = Predictor::Both(
        Moved {
            up: inputs.first.up,
            vector: v,
        },
        Moved {
            up: view.up,
            vector: w,
        },
    );
    let told = unit_cost_below(inputs, unit, &predictor, priced, choice.cost);
    let block = from_both(v, w);
    unless_cheaper(choice, told, block)
}

/// The choice, unless reference 2, or both references, cost less; `v` is the best vector of reference 1.
fn with_second(
    inputs: &Inputs<'_>,
    view: &RefView<'_>,
    unit: PredictionUnit,
    v: Vector,
    choice: Choice,
) -> Choice
    requires inputs { IsDeciding (deciding_of inputs.now) }
    requires view { IsView inputs.now.across inputs.now.down (view_of view.now) }
    requires unit { IsPredictionUnit inputs.now.across inputs.now.down unit }
    requires v { v ≡ units.best_vector (deciding_of inputs.now) (deciding_of inputs.now).first unit }
    requires v_of_16_bits { IsShortVector v }
    requires at_most_2_29 { choice.cost ≤ 2 ^ 29 }
    requires block { IsBlock 2 choice.block }
    ensures value { result ≡ choosing.with_second (deciding_of inputs.now) (view_of view.now) unit choice }
    ensures at_most_2_29 { result.cost ≤ 2 ^ 29 }
    ensures block { IsBlock 2 result.block }
{
    let best = best_of(inputs, view, unit);
    let block = from_second(best.vector);
    let choice = unless_cheaper(choice, best.cost, block);
    with_both(inputs, view, unit, v, best.vector, choice)
}

/// The first mode with motion of least cost.
fn with_motion(inputs: &Inputs<'_>, unit: PredictionUnit) -> Choice
    requires inputs { IsDeciding (deciding_of inputs.now) }
    requires unit { IsPredictionUnit inputs.now.across inputs.now.down unit }
    ensures value { result ≡ choosing.motion_mode (deciding_of inputs.now) unit (deciding_of inputs.now).second }
    ensures at_most_2_29 { result.cost ≤ 2 ^ 29 }
    ensures block { IsBlock (modes.count_of_references (deciding_of inputs.now).second) result.block }
{
    let best = best_of(inputs, &inputs.first, unit);
    let choice = Choice {
        cost: best.cost,
        block: from_first(best.vector),
    };
    match inputs.second {
        Some(view) => with_second(inputs, &view, unit, best.vector, choice),
        None => choice,
    }
}

/// The first mode of least cost of a unit.
pub fn choose(inputs: &Inputs<'_>, unit: PredictionUnit) -> Choice
    requires inputs { IsDeciding (deciding_of inputs.now) }
    requires unit { IsPredictionUnit inputs.now.across inputs.now.down unit }
    ensures value { result ≡ modes.choice_of (deciding_of inputs.now) unit }
    ensures at_most_2_29 { result.cost ≤ 2 ^ 29 }
    ensures block { IsBlock (modes.count_of_references (deciding_of inputs.now).second) result.block }
{
    let choice = with_motion(inputs, unit);
    with_dc(inputs, unit, choice)
}
