//! The laws of editing, as the contracts of functions that do nothing.

ghost use Rattle.dirac_editing_laws.specs.Editing.{CutsJoinedShowTheWholeCut, CutsOfAllShowAll, JoinedStreamsStay};
ghost use Rattle.dirac_editing_laws.specs.Editing.{StreamsFollow};

use dirac_units::infos_are_read_as_written;

/// One stream without a fault behind another is a stream without a fault, and shows the pictures of both in order.
pub fn streams_follow()
    ensures { StreamsFollow }
{}

/// The cut from point 0 to the end isn't open, and shows what the stream shows.
pub fn cuts_of_all_show_all()
    ensures { CutsOfAllShowAll }
{
    infos_are_read_as_written();
}

/// Where pictures of a later part don't leave before those of a former one, the cuts of both, one behind the other and
/// joined, show what the cut of both shows, which isn't open where they aren't.
pub fn cuts_joined_show_the_whole_cut()
    ensures { CutsJoinedShowTheWholeCut }
{
    infos_are_read_as_written();
}

/// What was joined is written again as it is, when it is joined.
pub fn joined_streams_stay()
    ensures { JoinedStreamsStay }
{
    infos_are_read_as_written();
}
