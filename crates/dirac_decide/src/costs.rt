ghost use Rattle.std.specs.Prelude.{◌≡◌, ◌+◌, ◌*◌, ◌^◌, ◌≤◌};
ghost use Rattle.dirac_costs.specs.Least.{IsToldBelow};
ghost use Rattle.dirac_decide.specs.Deciding.{IsDeciding};
ghost use Rattle.dirac_decide.specs.Given.{deciding_of};
ghost use Rattle.dirac_decide.specs.Predictors as predictors;

use crate::inputs::Inputs;
use crate::prediction_unit::{PredictionUnit, unit_window};
use crate::predictor::{Predictor, predicted_row};
use dirac_common::Plane;
use dirac_costs::{Window, row_differences};

/// What a predictor costs in a window of the source: `bits` and the sum of the absolute differences. Where this isn't
/// below `limit`, it may end before it knows the sum, with a number that isn't below it either.
fn cost_below(
    source: &Plane,
    precision: u8,
    window: Window,
    predictor: &Predictor<'_>,
    bits: u64,
    limit: u64,
) -> u64
    requires precision { precision ≤ 3 }
    requires window { predictors.IsUnitWindow window }
    requires predictor { predictors.IsPredictor predictor.now }
    requires bits { bits ≤ 2 ^ 20 }
    ensures told { IsToldBelow limit (predictors.predictor_cost source.now precision predictor.now window bits) result }
    ensures at_most_2_29 { result ≤ 2 ^ 29 }
{
    let mut samples = [0i16; 64];
    let row = &mut samples[..window.columns as usize];
    let mut cost = bits;
    for b in 0..window.rows {
        if cost >= limit {
            return cost;
        }
        let y = window.y + b;
        predicted_row(precision, predictor, window.x, y, row);
        cost += u64::from(row_differences(source, window.x, y, row));
    }
    cost
}

/// What that many bits cost.
pub fn price(bias: u32, bits: u32) -> u64
    requires bias { bias ≤ 255 }
    requires bits { bits ≤ 520 }
    ensures value { result ≡ bias * bits }
    ensures at_most_2_20 { result ≤ 2 ^ 20 }
{
    u64::from(bias * bits)
}

/// What a predictor costs in a unit: `bits` and how far the source is from it. Where this isn't below `limit`, it may
/// end before it knows, with a number that isn't below it either.
pub fn unit_cost_below(
    inputs: &Inputs<'_>,
    unit: PredictionUnit,
    predictor: &Predictor<'_>,
    bits: u64,
    limit: u64,
) -> u64
    requires inputs { IsDeciding (deciding_of inputs.now) }
    requires unit { predictors.IsPredictionUnit inputs.now.across inputs.now.down unit }
    requires predictor { predictors.IsPredictor predictor.now }
    requires bits { bits ≤ 2 ^ 20 }
    ensures told { IsToldBelow limit (predictors.unit_cost (deciding_of inputs.now) unit predictor.now bits) result }
    ensures at_most_2_29 { result ≤ 2 ^ 29 }
{
    let window = unit_window(inputs, unit);
    cost_below(
        &inputs.source.y,
        inputs.precision,
        window,
        predictor,
        bits,
        limit,
    )
}
