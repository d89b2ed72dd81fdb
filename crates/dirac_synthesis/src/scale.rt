ghost use Rattle.std.specs.Prelude.{◌≡◌, ◌^◌, ◌<◌};
ghost use Rattle.dirac_common.specs.Limits.{IsIndex};
ghost use Rattle.dirac_quant.specs.Quantiser.{factor_of, offset_of};

use dirac_common::Kind;
use dirac_quant::{factor, offset};

/// What a coded number is restored by: a quantiser's factor and its offset.
#[derive(Clone, Copy)]
pub struct Scale {
    pub factor: u32,
    pub offset: u32,
}

/// Those of a quantiser index.
pub fn scale_of(index: u8, kind: Kind) -> Scale
    requires { IsIndex index }
    ensures factor { result.factor ≡ factor_of index }
    ensures offset { result.offset ≡ offset_of index kind }
    ensures factor_below { result.factor < 2 ^ 27 }
    ensures below { result.offset < 2 ^ 27 }
{
    Scale {
        factor: factor(index) as u32,
        offset: offset(index, kind) as u32,
    }
}
