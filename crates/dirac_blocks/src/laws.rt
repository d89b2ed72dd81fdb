//! What holds of all block tables, each as the contract of a function that does nothing.
ghost use Rattle.dirac_blocks.specs.Laws.{CarriedIsRead, CarriedSplitsAreRead, ReadIsCarried, ReadSplitsAreCarried};
ghost use Rattle.dirac_blocks.specs.Laws.{RefusedIsBroken, OnesInListAreRefused, OnesRefuseSplits};

/// A list is read from the block that carries it.
pub fn carried_lists_are_read()
    ensures units { CarriedIsRead }
    ensures splits { CarriedSplitsAreRead }
{}

/// A list that is read is carried.
pub fn read_lists_are_carried()
    ensures units { ReadIsCarried }
    ensures splits { ReadSplitsAreCarried }
{}

/// A list is refused exactly where its block breaks off, or begins with sixteen ones though a decision is needed.
pub fn refused_lists_break_off()
    ensures refused { RefusedIsBroken }
    ensures ones { OnesInListAreRefused }
    ensures ones_in_splits { OnesRefuseSplits }
{}
