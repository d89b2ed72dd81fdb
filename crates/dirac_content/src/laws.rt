//! What holds of all streams, as the contract of a function that does nothing.
ghost use Rattle.dirac_content.specs.Leaving.{WhatLeavesIsShown};
ghost use Rattle.dirac_content.specs.Sequences.{EachIsFlushed, LastIsFlushed};

/// A law of the definitions: a stream shows the pictures of each of its sequences in the order of delivery, one
/// sequence after another.
pub fn a_stream_shows_its_sequences()
    ensures each { EachIsFlushed }
    ensures last { LastIsFlushed }
{}

/// A law of the definitions: what a stream shows begins with the pictures that leave while its first units are taken,
/// whatever follows these.
pub fn what_leaves_is_shown()
    ensures { WhatLeavesIsShown }
{}
