ghost use Rattle.std.specs.Prelude.{IfOk, IfSome, Ok};
ghost use Rattle.std.specs.Option.{ForSome};
ghost use Rattle.dirac_common.specs.Limits.{IsIndex};
ghost use Rattle.dirac_coeffs.specs.Answers.{GivesOrStops};
ghost use Rattle.dirac_coeffs.specs.Grammar.{values_of_parent, zero_band, IsParentOf, IsCodedBand};
ghost use Rattle.dirac_coeffs.specs.Layouts.{IsBandLayout};
ghost use Rattle.dirac_coeffs.specs.Sites.{band_at};

use crate::block::read_below;
use crate::codeblocks::BandFrame;
use crate::coefficients::{Coefficients, numbers_of};
use crate::indices::Indices;
use crate::layout::{BandLayout, CodedBand};
use crate::site::Site;
use dirac_common::Stop;
use std::alloc::Global;

/// The subband of which nothing is coded.
fn read_zeros(alloc: Global, layout: BandLayout) -> Result<CodedBand, Stop>
    requires { IsBandLayout layout }
    ensures value { GivesOrStops result (Ok (zero_band layout)) }
    ensures lawful { IfOk result (IsCodedBand layout) }
{
    match Indices::try_new(alloc, layout.across * layout.down, 0) {
        Ok(indices) => Ok(CodedBand {
            index: 0,
            indices,
            table: Coefficients::zeros(layout.width, layout.height),
        }),
        Err(_no_memory) => Err(Stop::NoMemory),
    }
}

/// Reads the subband whose block was found, as `read_band` reads it there; so subbands that aren't parents of one
/// another may be read in any order, or side by side. `parent` is that of `read_band`.
pub fn read_at(
    alloc: Global,
    site: &Option<Site<'_>>,
    layout: BandLayout,
    parent: Option<&Coefficients>,
) -> Result<CodedBand, Stop>
    requires layout { IsBandLayout layout }
    requires index { IfSome site.now (λ s. IsIndex s.index) }
    requires parent { ForSome parent (IsParentOf layout) }
    ensures value { GivesOrStops result (band_at layout (values_of_parent parent.entry) site.now) }
    ensures lawful { IfOk result (IsCodedBand layout) }
{
    let Some(found) = site else {
        return read_zeros(alloc, layout);
    };
    let index = found.index();
    let frame = BandFrame {
        layout,
        parent: numbers_of(parent),
        index,
    };
    match read_below(alloc, found.block(), found.at(), frame) {
        Ok(read) => Ok(CodedBand {
            index,
            indices: read.indices,
            table: read.table,
        }),
        Err(stop) => Err(stop),
    }
}
