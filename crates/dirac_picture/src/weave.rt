ghost use Rattle.std.specs.Prelude.{◌≡◌, ◌++◌, length, IfOk};
ghost use Rattle.dirac_picture.specs.Chains as chains;

use crate::chain::Chain;
use crate::plane_bands::PlaneBands;
use dirac_common::NoMemory;

/// The bands of a plane from those of its orientations: LL, then of each level HL, LH and HH.
pub fn woven(lowest: Chain, hl: Chain, lh: Chain, hh: Chain) -> Result<PlaneBands, NoMemory>
    requires lh { length lh ≡ length hl }
    requires hh { length hh ≡ length hl }
    ensures { IfOk result (λ b. b ≡ lowest ++ chains.woven hl lh hh) }
{
    let mut bands = lowest.into_list();
    let mut across = hl.into_list();
    let mut down = lh.into_list();
    let mut both = hh.into_list();
    let depth = across.len();
    'levels: for _k in 0..depth {
        bands.push(across.remove(0))?;
        bands.push(down.remove(0))?;
        bands.push(both.remove(0))?;
    }
    Ok(PlaneBands::of(bands))
}
