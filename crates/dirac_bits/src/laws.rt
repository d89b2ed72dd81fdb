ghost use Rattle.dirac_bits.specs.Laws.{IsReadAsSpelled, IsSpelledAsRead, UnsignedEndsItself, SignedEndsItself};

/// A header's value is read exactly where the bits left begin with a spelling of it, for each header and each
/// type of value.
pub fn headers_are_read_as_spelled<T>()
    ensures read { IsReadAsSpelled T }
    ensures spelled { IsSpelledAsRead T }
{}

/// No spelling of a number is a proper prefix of another's.
pub fn numbers_end_themselves()
    ensures unsigned { UnsignedEndsItself }
    ensures signed { SignedEndsItself }
{}
