ghost use Rattle.std.specs.Prelude.{◌≡◌, ◌+◌, ◌*◌, ◌/◌, ◌%◌, ◌^◌, ◌<◌, ◌≤◌, List, [], ◌∷◌, ◌++◌};
ghost use Rattle.dirac_common.specs.declared.formats.Vector.{Vector as TheVector};
ghost use Rattle.dirac_common.specs.declared.limits.TheConstants.{MOST_SUPERBLOCKS};
ghost use Rattle.dirac_vectors.specs.Predictions.{IsShortVector};
ghost use Rattle.dirac_inside.specs.Ranges.{AreBlocks, HasTheInside, IsRange};
ghost use Rattle.dirac_decide.specs.Deciding.{IsDeciding, IsView};
ghost use Rattle.dirac_decide.specs.Given.{deciding_of, view_of};
ghost use Rattle.dirac_decide.specs.Insides.{HasTheUnitsInside, IsBestAmong, IsBestWhereSome, IsCosted};
ghost use Rattle.dirac_decide.specs.Predictors.{IsPredictionUnit};
ghost use Rattle.dirac_decide.specs.Units as units;

use crate::best::{Best, candidate, is_same, vector_cost_below};
use crate::inputs::{Inputs, RefView};
use crate::prediction_unit::PredictionUnit;
use dirac_common::Vector;
use dirac_inside::{PictureBlocks, VectorRange, inside_range};

/// The blocks of the picture, and the sizes of its planes.
fn blocks_of(inputs: &Inputs<'_>) -> PictureBlocks
    requires { IsDeciding (deciding_of inputs.now) }
    ensures value { result ≡ units.decided_blocks (deciding_of inputs.now) }
    ensures blocks { AreBlocks result }
{
    PictureBlocks {
        grid: inputs.grid,
        width: inputs.source.y.width(),
        height: inputs.source.y.height(),
        across_ratio: inputs.across_ratio,
        down_ratio: inputs.down_ratio,
    }
}

/// The vectors that keep inside from all blocks of a unit.
fn unit_range(inputs: &Inputs<'_>, unit: PredictionUnit) -> VectorRange
    requires inputs { IsDeciding (deciding_of inputs.now) }
    requires sizes { (inputs.now.across ≤ MOST_SUPERBLOCKS) × (inputs.now.down ≤ MOST_SUPERBLOCKS) }
    requires unit { IsPredictionUnit inputs.now.across inputs.now.down unit }
    ensures inside { HasTheUnitsInside (deciding_of inputs.now) unit result }
    ensures range { IsRange result }
{
    let blocks = blocks_of(inputs);
    let mut range = VectorRange::all();
    for k in 0..unit.size * unit.size {
        let of_block = block_range(blocks, inputs.precision, unit, k);
        range = range.common(of_block);
    }
    range
}

/// The vectors that keep inside from block `k` of a unit, by rows.
fn block_range(blocks: PictureBlocks, precision: u8, unit: PredictionUnit, k: u32) -> VectorRange
    requires blocks { AreBlocks blocks }
    requires precision { precision ≤ 3 }
    requires unit { IsPredictionUnit 1024 1024 unit }
    requires inside { k < unit.size * unit.size }
    ensures inside { HasTheInside blocks precision (unit.i + k % unit.size) (unit.j + k / unit.size) result }
    ensures range { IsRange result }
{
    inside_range(
        blocks,
        precision,
        unit.i + k % unit.size,
        unit.j + k / unit.size,
    )
}

/// A vector, and what it costs in a unit.
fn costed(inputs: &Inputs<'_>, view: &RefView<'_>, unit: PredictionUnit, vector: Vector) -> Best
    requires inputs { IsDeciding (deciding_of inputs.now) }
    requires unit { IsPredictionUnit inputs.now.across inputs.now.down unit }
    requires vector { IsShortVector vector }
    ensures vector { result.vector ≡ vector }
    ensures costed { IsCosted (deciding_of inputs.now) (view_of view.now) unit result }
{
    let cost = vector_cost_below(inputs, view, unit, vector, u64::MAX);
    Best { vector, cost }
}

/// The best of some vectors and one more behind them, from the best of the former.
fn better(
    inputs: &Inputs<'_>,
    view: &RefView<'_>,
    unit: PredictionUnit,
    vector: Vector,
    best: Best,
) -> Best
    requires inputs { IsDeciding (deciding_of inputs.now) }
    requires unit { IsPredictionUnit inputs.now.across inputs.now.down unit }
    requires vector { IsShortVector vector }
    ensures { (vs : List TheVector) → IsBestAmong (deciding_of inputs.now) (view_of view.now) unit vs best
        → IsBestAmong (deciding_of inputs.now) (view_of view.now) unit (vs ++ vector ∷ []) result }
{
    if is_same(vector, best.vector) {
        return best;
    }
    let cost = vector_cost_below(inputs, view, unit, vector, best.cost);
    if cost < best.cost {
        Best { vector, cost }
    } else {
        best
    }
}

/// The best of those of the first `k + 1` candidates that keep inside, from the best of those of the first `k`.
fn next_inside(
    inputs: &Inputs<'_>,
    view: &RefView<'_>,
    unit: PredictionUnit,
    range: VectorRange,
    k: u32,
    best: Option<Best>,
) -> Option<Best>
    requires inputs { IsDeciding (deciding_of inputs.now) }
    requires view { IsView inputs.now.across inputs.now.down (view_of view.now) }
    requires unit { IsPredictionUnit inputs.now.across inputs.now.down unit }
    requires range { IsRange range }
    requires of_the_unit { HasTheUnitsInside (deciding_of inputs.now) unit range }
    requires inside { k < unit.size * unit.size }
    requires best { IsBestWhereSome (deciding_of inputs.now) (view_of view.now) unit
        (units.inside_to (deciding_of inputs.now) (view_of view.now) unit k) best }
    ensures { IsBestWhereSome (deciding_of inputs.now) (view_of view.now) unit
        (units.inside_to (deciding_of inputs.now) (view_of view.now) unit (k + 1)) result }
{
    let vector = candidate(view, unit, k);
    if !range.has(vector, 1) {
        return best;
    }
    match best {
        Some(best) => Some(better(inputs, view, unit, vector, best)),
        None => Some(costed(inputs, view, unit, vector)),
    }
}

/// The first of least cost of the candidates that keep inside; where none does, the vector of no motion.
pub fn best_inside(inputs: &Inputs<'_>, view: &RefView<'_>, unit: PredictionUnit) -> Best
    requires inputs { IsDeciding (deciding_of inputs.now) }
    requires view { IsView inputs.now.across inputs.now.down (view_of view.now) }
    requires unit { IsPredictionUnit inputs.now.across inputs.now.down unit }
    ensures vector { result.vector ≡ units.best_inside (deciding_of inputs.now) (view_of view.now) unit }
    ensures costed { IsCosted (deciding_of inputs.now) (view_of view.now) unit result }
{
    let range = unit_range(inputs, unit);
    let mut best = None;
    for k in 0..unit.size * unit.size {
        best = next_inside(inputs, view, unit, range, k, best);
    }
    match best {
        Some(best) => best,
        None => costed(inputs, view, unit, Vector { x: 0, y: 0 }),
    }
}
