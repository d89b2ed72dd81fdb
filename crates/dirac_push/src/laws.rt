//! What holds of each stream that is sent, as the contract of a function that does nothing.
ghost use Rattle.dirac_push.specs.Pushing.{PassesOn, ShowsToItsEnd, ShowsToItsFault};

/// A law of the definitions: calls of `send` and `next` follow one another, and from the first byte to the end or the
/// first fault the pictures given are those of the bytes sent, whatever the pieces.
pub fn pieces_show_what_the_whole_shows()
    ensures passes_on { PassesOn }
    ensures to_the_end { ShowsToItsEnd }
    ensures to_the_fault { ShowsToItsFault }
{}
