//! What holds of all parts and of all joined sequences, as the contracts of functions that do nothing.

ghost use Rattle.dirac_edit_laws.specs.Alike.{ClosedPicturesAreAlike, PicturesOfPartsAreOfTheWhole};
ghost use Rattle.dirac_edit_laws.specs.Encoded.{EncodedCutsShowTheirGroups, EncodedStreamsHaveAPointAGroup};
ghost use Rattle.dirac_edit_laws.specs.Laws.{ClosedPartsShowTheWhole, CutsShowTheirParts, JoinedStreamsShowTheSame};
ghost use Rattle.dirac_edit_laws.specs.Laws.{PartsBeginAnywhere, UnitsShowTheirSequences};
ghost use Rattle.dirac_edit_laws.specs.Later.{GreaterKeysLeaveLater};
ghost use Rattle.dirac_edit_laws.specs.Numbers.{NumbersHaveTheirKeys};
ghost use Rattle.dirac_edit_laws.specs.Restricted.{PartsKeepTheirLists};
ghost use Rattle.dirac_edit_laws.specs.Rows.{AHeaderIsJoined, AnEndIsJoined, GreyIsCut, GreyIsJoined};
ghost use Rattle.dirac_edit_laws.specs.Rows.{TheFirstPointIsCut, TheLastPointIsCut, TheSecondIsRenumbered};
ghost use Rattle.dirac_edit_laws.specs.Rows.{TwoPointsStand};

use dirac_encode_laws::streams_show_their_pictures;
use dirac_plan_laws::plans_can_be_coded;
use dirac_units::infos_are_read_as_written;

/// The reference list of a part is the list of the whole, restricted to the part.
pub fn parts_keep_their_lists()
    ensures { PartsKeepTheirLists }
{}

/// Pictures of greater keys leave behind all those of lesser ones.
pub fn greater_keys_leave_later()
    ensures { GreaterKeysLeaveLater }
{}

/// A picture whose references are of its part is read and rebuilt as in the whole.
pub fn closed_pictures_are_alike()
    ensures { ClosedPicturesAreAlike }
{}

/// What a part reads and shows, the whole reads and shows.
pub fn pictures_of_parts_are_of_the_whole()
    ensures { PicturesOfPartsAreOfTheWhole }
{}

/// A closed part shows the pictures of the whole, and a part may begin anywhere.
pub fn closed_parts_show_the_whole()
    ensures shown { ClosedPartsShowTheWhole }
    ensures begin { PartsBeginAnywhere }
{}

/// Each new number has the key that it was made from.
pub fn numbers_have_their_keys()
    ensures { NumbersHaveTheirKeys }
{}

/// Examples of cuts and joins.
pub fn examples_of_edits()
    ensures points { TwoPointsStand }
    ensures first { TheFirstPointIsCut }
    ensures last { TheLastPointIsCut }
    ensures merge { TheSecondIsRenumbered }
    ensures end { AnEndIsJoined }
    ensures header { AHeaderIsJoined }
    ensures grey_cut { GreyIsCut }
    ensures grey_joined { GreyIsJoined }
{}

/// A stream without a fault shows its sequences one after another.
pub fn units_show_their_sequences()
    ensures { UnitsShowTheirSequences }
{}

/// A cut shows the part's pictures as the whole stream rebuilds them, and has no fault.
pub fn cuts_show_their_parts()
    ensures { CutsShowTheirParts }
{
    infos_are_read_as_written();
}

/// Joined sequences show the raw pictures of the stream that they come from, in order, and have no fault.
pub fn joined_streams_show_the_same()
    ensures { JoinedStreamsShowTheSame }
{
    infos_are_read_as_written();
}

/// The cut of the encoder's stream from one group to another shows the reconstructions of these groups.
pub fn encoded_cuts_show_their_groups()
    ensures { EncodedCutsShowTheirGroups }
{
    infos_are_read_as_written();
    plans_can_be_coded();
    streams_show_their_pictures();
}

/// The encoder's stream has a point for each group of its pictures.
pub fn encoded_streams_have_a_point_a_group()
    ensures { EncodedStreamsHaveAPointAGroup }
{}
