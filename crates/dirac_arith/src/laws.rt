//! Laws of blocks and decisions, each as the contract of a function that does nothing.
ghost use Rattle.dirac_arith.specs.Laws.{FlushedIsCarried, CarriesOneTruth, CarriesOneOfEqualLength, CarriesOneNumber};
ghost use Rattle.dirac_arith.specs.Laws.{CarriesOneSigned, TruthsAreBits, SignedTruthsAreBits, ReadingComposes};
ghost use Rattle.dirac_arith.specs.Laws.{CarriesSomeTruth, CarriesSomeNumber, CarriesSomeSigned, DecisionIsRead};
ghost use Rattle.dirac_arith.specs.Laws.{NumberIsRead, LongNumberIsRefused, SignedIsRead, LongSignedIsRefused};
ghost use Rattle.dirac_arith.specs.Laws.{OnesReadToNothing};
ghost use Rattle.dirac_arith.specs.CodedLaws.{SpelledIsRead, OneIsSpelled, BrokenIsRefused, OnesAreRefused, ThenIsRead};

/// Of two lists of decisions that first differ in one truth at the same context a block carries at most one.
pub fn block_carries_one_truth()
    ensures any_length { CarriesOneTruth }
    ensures equal_length { CarriesOneOfEqualLength }
{}

/// Behind the same decisions a block carries at most one number.
pub fn block_carries_one_number()
    ensures unsigned { CarriesOneNumber }
    ensures signed { CarriesOneSigned }
{}

/// The truths that spell a number are its bits, as a bit reader reads them.
pub fn truths_are_bits()
    ensures unsigned { TruthsAreBits }
    ensures signed { SignedTruthsAreBits }
{}

/// Reading some decisions and then more is reading both.
pub fn reading_composes()
    ensures { ReadingComposes }
{}

/// The block that is written for decisions of the 38 contexts carries them.
pub fn written_block_carries()
    ensures { FlushedIsCarried }
{}

/// Behind decisions that it carries, a block that doesn't begin with sixteen ones carries more: a decision in each
/// context, and a number or the begin of one that is too long.
pub fn block_carries_more()
    ensures decision { CarriesSomeTruth }
    ensures number { CarriesSomeNumber }
    ensures signed { CarriesSomeSigned }
{}

/// What a block reads to, decision by decision, is what it carries.
pub fn reading_is_carrying()
    ensures decision { DecisionIsRead }
    ensures number { NumberIsRead }
    ensures long { LongNumberIsRefused }
    ensures signed { SignedIsRead }
    ensures long_signed { LongSignedIsRefused }
    ensures ones { OnesReadToNothing }
{}

/// A coded value is read exactly where the block carries decisions that spell it, and refused where it breaks off.
pub fn coded_values_are_read<T>()
    ensures spelled_is_read { SpelledIsRead T }
    ensures one_is_spelled { OneIsSpelled T }
    ensures broken_is_refused { BrokenIsRefused T }
    ensures ones_are_refused { OnesAreRefused T }
    ensures then_is_read { ThenIsRead T }
{}
