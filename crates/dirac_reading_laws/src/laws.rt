ghost use Rattle.dirac_reading_laws.specs.Laws.{BreaksWithOneRefusal, EachShowsAnOutcome, IsRefusedWhereBroken};
ghost use Rattle.dirac_reading_laws.specs.Laws.{IsSpelledOrBreaks, NoneSpelledBreaks, SpellsOneValue};
ghost use Rattle.dirac_reading_laws.specs.Laws.{StreamsShowOneOutcome};
ghost use Rattle.dirac_reading_laws.specs.Places.{CutsFaultInTheirBytes, FaultsLieInTheirBytes};
ghost use Rattle.dirac_reading_laws.specs.Places.{HeadersAreRefusedInside, PicturesAreRefusedInside};

/// A header is refused exactly where the fields before are spelled by the bits and the next one breaks off or breaks
/// its rule: a field that breaks off at the byte of its first bit, a broken rule at the place that the grammar names.
/// For each header and each type of value.
pub fn headers_are_refused_where_a_field_breaks<T>()
    ensures exact { IsRefusedWhereBroken T }
{}

/// At each place within the bytes a header is spelled or breaks, and not both: it is spelled with one value, up to one
/// place, or breaks with one refusal.
pub fn headers_are_spelled_or_break<T>()
    ensures either { IsSpelledOrBreaks T }
    ensures not_both { NoneSpelledBreaks T }
    ensures one_value { SpellsOneValue T }
    ensures one_refusal { BreaksWithOneRefusal T }
{}

/// Each list of bytes shows an outcome, and no other.
pub fn a_stream_shows_one_outcome()
    ensures at_most_one { StreamsShowOneOutcome }
    ensures at_least_one { EachShowsAnOutcome }
{}

/// Each fault lies in the bytes that show it: at their end at the latest, in one of their units or right behind it, or
/// behind the last unit. A payload is refused at one of its bytes, or right behind the last.
pub fn faults_lie_in_their_bytes()
    // The fault that ends what bytes show: of the cutting, or of the content of a unit.
    ensures shown { FaultsLieInTheirBytes }
    // The fault that ends their cut.
    ensures cut { CutsFaultInTheirBytes }
    ensures sequence_headers { HeadersAreRefusedInside }
    ensures pictures { PicturesAreRefusedInside }
{}
