//! What holds of all subbands and blocks, each as the contract of a function that does nothing.
ghost use Rattle.dirac_coeffs.specs.Laws.{OneBandIsCarried, NoBandBesideLong, NoBandBesideNoIndex, NotLongAndNoIndex};
ghost use Rattle.dirac_coeffs.specs.Laws.{OnesCarryNothing};
ghost use Rattle.dirac_coeffs.specs.Laws.{BandIsRead, PlainIsEqual, LongIsRefused, NoIndexIsRefused};
ghost use Rattle.dirac_coeffs.specs.Laws.{OnesInBandAreRefused};
ghost use Rattle.dirac_coeffs.specs.Laws.{BlocksAreShort};

/// A block carries the decisions of one band at most, and none beside those of a number that is too long, or of an
/// offset that leads to no index; it doesn't carry both of these. One that begins with sixteen ones carries none.
pub fn one_band_is_carried()
    ensures one_band_is_carried { OneBandIsCarried }
    ensures no_band_beside_long_number { NoBandBesideLong }
    ensures no_band_beside_no_index { NoBandBesideNoIndex }
    ensures not_both { NotLongAndNoIndex }
    ensures ones_carry_nothing { OnesCarryNothing }
{}

/// What a block reads to is the band whose decisions it carries. In codeblock mode 0 all its codeblocks have the band's
/// index.
pub fn a_block_reads_to_its_band()
    ensures carried { BandIsRead }
    ensures plain { PlainIsEqual }
    ensures long { LongIsRefused }
    ensures no_index { NoIndexIsRefused }
    ensures ones { OnesInBandAreRefused }
{}

/// The length of a subband's block can be spelt.
pub fn blocks_are_short()
    ensures { BlocksAreShort }
{}
