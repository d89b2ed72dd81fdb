//! The laws of parts, as the contracts of functions that do nothing.

ghost use Rattle.dirac_parts_laws.specs.Behind.{SourcesBehindAreCodedAlike};
ghost use Rattle.dirac_parts_laws.specs.Parts.{JoinedPartsShowTheWhole, PartsJoinToTheWhole};
ghost use Rattle.dirac_parts_laws.specs.Payloads.{PayloadsKeepAllButNumbers};
ghost use Rattle.dirac_parts_laws.specs.Plans.{PlansGoOn};

use dirac_encode_laws::streams_show_their_pictures;
use dirac_plan_laws::plans_can_be_coded;
use dirac_units::infos_are_read_as_written;

/// Behind whole groups a plan goes on as the plan of the pictures behind them, their numbers moved on: where the
/// settings have `alike` 0, for with 1 a group retires pictures of the one before.
pub fn plans_go_on()
    ensures { PlansGoOn }
{}

/// Where all numbers of a coded picture are moved on, its payload has another number in its first four bytes, and is
/// else the same.
pub fn payloads_keep_all_but_numbers()
    ensures { PayloadsKeepAllButNumbers }
{}

/// Sources behind whole groups of others are coded as they are alone, but for their numbers, with `alike` 0.
pub fn sources_behind_are_coded_alike()
    ensures { SourcesBehindAreCodedAlike }
{
    plans_can_be_coded();
    streams_show_their_pictures();
}

/// Parts of whole groups, each encoded apart with `alike` 0: their streams, one behind the other and joined, are byte
/// for byte the cut of the whole source's stream from point 0 to its end.
pub fn parts_join_to_the_whole()
    ensures { PartsJoinToTheWhole }
{
    plans_can_be_coded();
    streams_show_their_pictures();
}

/// The streams of parts of whole groups, one behind the other, have no fault; joined they show the reconstructions of
/// the whole source, with `alike` 0.
pub fn joined_parts_show_the_whole()
    ensures { JoinedPartsShowTheWhole }
{
    infos_are_read_as_written();
    plans_can_be_coded();
    streams_show_their_pictures();
}
