ghost use Rattle.std.specs.Prelude.{◌≡◌, ℕ, ◌+◌, ◌*◌, ◌^◌, ◌<◌, ◌≤◌, true};
ghost use Rattle.dirac_vectors.specs.Predictions.{IsShortVector};
ghost use Rattle.dirac_costs.specs.Least.{IsToldBelow};
ghost use Rattle.dirac_decide.specs.Choosing.{IsBestTo};
ghost use Rattle.dirac_decide.specs.Deciding.{IsDeciding, IsView};
ghost use Rattle.dirac_decide.specs.Given.{deciding_of, view_of};
ghost use Rattle.dirac_decide.specs.Insides.{IsCosted};
ghost use Rattle.dirac_decide.specs.Predictors.{IsPredictionUnit, IsUnitOf};
ghost use Rattle.dirac_decide.specs.Units as units;

use crate::costs::{price, unit_cost_below};
use crate::inputs::{Inputs, RefView};
use crate::inside::best_inside;
use crate::prediction_unit::PredictionUnit;
use crate::predictor::{Moved, Predictor};
use dirac_common::Vector;
use dirac_costs::vector_bits;

/// A vector and what it costs.
#[derive(Clone, Copy)]
pub struct Best {
    pub vector: Vector,
    pub cost: u64,
}

/// Candidate `k` of a unit: the vector of its block `k`, by rows.
pub fn candidate(view: &RefView<'_>, unit: PredictionUnit, k: u32) -> Vector
    requires unit { IsUnitOf (view_of view.now) unit }
    requires inside { k < unit.size * unit.size }
    ensures value { result ≡ units.candidate (view_of view.now) unit k }
    ensures of_16_bits { IsShortVector result }
{
    view.field
        .at(unit.i + k % unit.size, unit.j + k / unit.size)
}

/// Whether one of candidates 0 to `k` is this vector.
fn is_seen(view: &RefView<'_>, unit: PredictionUnit, k: u32, vector: Vector) -> bool
    requires unit { IsUnitOf (view_of view.now) unit }
    requires inside { k < unit.size * unit.size }
    ensures { result ≡ true → (m : ℕ) × (m ≤ k) × (vector ≡ units.candidate (view_of view.now) unit m) }
{
    for m in 0..k + 1 {
        if is_same(vector, candidate(view, unit, m)) {
            return true;
        }
    }
    false
}

/// Whether two vectors are the same.
pub fn is_same(a: Vector, b: Vector) -> bool
    ensures { result ≡ true → a ≡ b }
{
    a.x == b.x && a.y == b.y
}

/// What a vector costs in a unit, told where it is below `limit`.
pub fn vector_cost_below(
    inputs: &Inputs<'_>,
    view: &RefView<'_>,
    unit: PredictionUnit,
    vector: Vector,
    limit: u64,
) -> u64
    requires inputs { IsDeciding (deciding_of inputs.now) }
    requires unit { IsPredictionUnit inputs.now.across inputs.now.down unit }
    requires vector { IsShortVector vector }
    ensures told { IsToldBelow limit (units.vector_cost (deciding_of inputs.now) (view_of view.now) unit vector)
        result }
    ensures at_most_2_29 { result ≤ 2 ^ 29 }
{
    let bits = price(inputs.bias, vector_bits(vector));
    let predictor = Predictor::One(Moved {
        up: view.up,
        vector,
    });
    unit_cost_below(inputs, unit, &predictor, bits, limit)
}

/// The first candidate of a unit.
fn first_candidate(inputs: &Inputs<'_>, view: &RefView<'_>, unit: PredictionUnit) -> Best
    requires inputs { IsDeciding (deciding_of inputs.now) }
    requires view { IsView inputs.now.across inputs.now.down (view_of view.now) }
    requires unit { IsPredictionUnit inputs.now.across inputs.now.down unit }
    ensures { IsBestTo (deciding_of inputs.now) (view_of view.now) unit 0 result }
{
    let vector = candidate(view, unit, 0);
    let cost = vector_cost_below(inputs, view, unit, vector, u64::MAX);
    Best { vector, cost }
}

/// The best of candidates 0 to `k + 1` of a unit, from the best of those to `k`.
fn next_best(
    inputs: &Inputs<'_>,
    view: &RefView<'_>,
    unit: PredictionUnit,
    k: u32,
    best: Best,
) -> Best
    requires inputs { IsDeciding (deciding_of inputs.now) }
    requires view { IsView inputs.now.across inputs.now.down (view_of view.now) }
    requires unit { IsPredictionUnit inputs.now.across inputs.now.down unit }
    requires inside { k + 1 < unit.size * unit.size }
    requires best { IsBestTo (deciding_of inputs.now) (view_of view.now) unit k best }
    ensures { IsBestTo (deciding_of inputs.now) (view_of view.now) unit (k + 1) result }
{
    let vector = candidate(view, unit, k + 1);
    if is_seen(view, unit, k, vector) {
        return best;
    }
    let cost = vector_cost_below(inputs, view, unit, vector, best.cost);
    if cost < best.cost {
        Best { vector, cost }
    } else {
        best
    }
}

/// The first candidate of least cost of a unit, where streams are to be shown alike of those that keep inside.
pub fn best_of(inputs: &Inputs<'_>, view: &RefView<'_>, unit: PredictionUnit) -> Best
    requires inputs { IsDeciding (deciding_of inputs.now) }
    requires view { IsView inputs.now.across inputs.now.down (view_of view.now) }
    requires unit { IsPredictionUnit inputs.now.across inputs.now.down unit }
    ensures vector { result.vector ≡ units.best_vector (deciding_of inputs.now) (view_of view.now) unit }
    ensures cost { result.cost ≡ units.least_cost (deciding_of inputs.now) (view_of view.now) unit }
    ensures of_16_bits { IsShortVector result.vector }
    ensures at_most_2_29 { result.cost ≤ 2 ^ 29 }
{
    if inputs.alike == 0 {
        best_of_all(inputs, view, unit)
    } else {
        best_inside(inputs, view, unit)
    }
}

/// The first candidate of least cost of a unit.
fn best_of_all(inputs: &Inputs<'_>, view: &RefView<'_>, unit: PredictionUnit) -> Best
    requires inputs { IsDeciding (deciding_of inputs.now) }
    requires view { IsView inputs.now.across inputs.now.down (view_of view.now) }
    requires unit { IsPredictionUnit inputs.now.across inputs.now.down unit }
    ensures vector { result.vector ≡ units.candidate (view_of view.now) unit
        (units.best_place (deciding_of inputs.now) (view_of view.now) unit) }
    ensures costed { IsCosted (deciding_of inputs.now) (view_of view.now) unit result }
{
    let mut best = first_candidate(inputs, view, unit);
    for k in 0..unit.size * unit.size - 1 {
        best = next_best(inputs, view, unit, k, best);
    }
    best
}
