ghost use Rattle.std.specs.Prelude.{◌≡◌};
ghost use Rattle.dirac_decide.specs.Deciding.{IsDeciding};
ghost use Rattle.dirac_decide.specs.Given.{deciding_of};
ghost use Rattle.dirac_decide.specs.Predictors.{IsPredictionUnit, IsUnitWindow};
ghost use Rattle.dirac_decide.specs.Units as units;

use crate::inputs::Inputs;
use dirac_costs::Window;

/// A prediction unit: `size` by `size` blocks, from block `i` of row `j` on.
#[derive(Clone, Copy)]
pub struct PredictionUnit {
    pub i: u32,
    pub j: u32,
    pub size: u32,
}

/// The window of a unit in luma.
pub fn unit_window(inputs: &Inputs<'_>, unit: PredictionUnit) -> Window
    requires inputs { IsDeciding (deciding_of inputs.now) }
    requires unit { IsPredictionUnit inputs.now.across inputs.now.down unit }
    ensures value { result ≡ units.unit_window inputs.now.grid unit }
    ensures window { IsUnitWindow result }
{
    Window {
        x: unit.i * inputs.grid.xbsep,
        y: unit.j * inputs.grid.ybsep,
        columns: unit.size * inputs.grid.xbsep,
        rows: unit.size * inputs.grid.ybsep,
    }
}
