ghost use Rattle.std.specs.Prelude.{◌≡◌, ◌≤◌, length, IfOk, IfErr};
ghost use Rattle.std.specs.Option.{ForSome};
ghost use Rattle.dirac_bits.specs.Syntax.{read};
ghost use Rattle.dirac_bits.specs.Answers.{ReadsOrStops, IsEarly};
ghost use Rattle.dirac_coeffs.specs.Grammar.{band, values_of_parent, IsParentOf, IsCodedBand};
ghost use Rattle.dirac_coeffs.specs.Layouts.{IsBandLayout};

use crate::coefficients::Coefficients;
use crate::layout::{BandLayout, CodedBand};
use crate::site::find_site;
use crate::site_reader::read_at;
use dirac_bits::BitReader;
use dirac_common::Stop;
use std::alloc::Global;

/// Reads a subband (wavelet coefficients, Dirac specification, section 13): passes to the next byte, and takes the
/// length of its block, the quantiser index and the block. What an arithmetic block doesn't hold is refused at its
/// first byte. `parent` is the subband of this orientation one level lower, whose values contexts go by; none for the
/// lowest band and those of the first level.
pub fn read_band(
    alloc: Global,
    r: &mut BitReader<'_>,
    layout: BandLayout,
    parent: Option<&Coefficients>,
) -> Result<CodedBand, Stop>
    requires layout { IsBandLayout layout }
    requires parent { ForSome parent (IsParentOf layout) }
    ensures value { ReadsOrStops result r.new (read (band layout (values_of_parent parent.entry)) r.old) }
    ensures place_inside { IfErr result (IsEarly (length r.old.bytes)) }
    ensures kept { r.new.bytes ≡ r.old.bytes }
    ensures lawful { IfOk result (IsCodedBand layout) }
{
    match find_site(r) {
        Ok(site) => read_at(alloc, &site, layout, parent),
        Err(refusal) => Err(Stop::Refused(refusal)),
    }
}
