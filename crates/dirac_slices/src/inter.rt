ghost use Rattle.std.specs.Prelude.{◌≡◌, IfSome, Some};
ghost use Rattle.dirac_sequence_header.specs.Lawful.{IsSequence};
ghost use Rattle.dirac_picture.specs.Fits.{IsMotion, IsResidual, NamesReferences};
ghost use Rattle.dirac_content.specs.Content as content;
ghost use Rattle.dirac_content.specs.Content.{AreReferences};
ghost use Rattle.dirac_slices.specs.Given.{lent_inter, IsInter};

use dirac_content::named_reference;
use dirac_picture::{CodedMotion, CodedPicture, CodedResidual};
use dirac_refs::{RefBuffer, Reference};
use dirac_sequence_header::Sequence;

/// An inter picture whose references are looked up. Workers share it.
#[derive(Clone, Copy)]
pub struct Inter<'a> {
    /// The parse code of its unit.
    pub code: u8,
    pub sequence: &'a Sequence,
    pub motion: &'a CodedMotion,
    pub residual: &'a Option<CodedResidual>,
    pub first: &'a Reference,
    pub second: Option<&'a Reference>,
}

/// Looks up the references of an inter picture.
pub(crate) fn inter_of<'a>(
    coded: &'a CodedPicture,
    motion: &'a CodedMotion,
    sequence: &'a Sequence,
    refs: &'a RefBuffer,
) -> Inter<'a>
    requires sequence { IsSequence sequence.now }
    requires motion { IsMotion coded.now.code sequence.now motion.now }
    requires fits { IfSome coded.now.residual (IsResidual sequence.now) }
    requires names { NamesReferences coded.now.code coded.now.header }
    requires refs { AreReferences sequence.now refs.now coded.now.header }
    ensures fits { IsInter (lent_inter result) }
    ensures sequence { (lent_inter result).sequence ≡ sequence.now }
    ensures motion { (lent_inter result).motion ≡ motion.now }
    ensures residual { (lent_inter result).residual ≡ coded.now.residual }
    ensures first { content.named refs.now coded.now.header.ref1 ≡ Some (lent_inter result).first }
    ensures second { (lent_inter result).second ≡ content.named refs.now coded.now.header.ref2 }
{
    let second = named_reference(refs, coded.header.ref2);
    match named_reference(refs, coded.header.ref1) {
        None => unreachable!(),
        Some(first) => Inter {
            code: coded.code,
            sequence,
            motion,
            residual: &coded.residual,
            first,
            second,
        },
    }
}
