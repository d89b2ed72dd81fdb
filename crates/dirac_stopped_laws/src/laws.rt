//! What holds of every stream that stops before a unit, as the contract of a function that does nothing.

ghost use Rattle.dirac_stopped_laws.specs.Stopped.{StoppedEncodingsShowTheirPictures, StoppedStreamsAreCut};
ghost use Rattle.dirac_stopped_laws.specs.Stopped.{StoppedStreamsShowTheirPictures};

use dirac_encode_laws::streams_show_their_pictures;
use dirac_plan_laws::plans_can_be_coded;
use dirac_units::infos_are_read_as_written;

/// The stream that stops before a picture whose unit is too long is cut into the units before it, and shows the
/// reconstructions of the pictures coded by then; its one fault is that the end unit is missing, at its length.
pub fn stopped_streams_show_their_pictures()
    ensures cut { StoppedStreamsAreCut }
    ensures shown { StoppedStreamsShowTheirPictures }
    // So it is with what the encoding of raw pictures writes, under any rule for their indices.
    ensures encodings { StoppedEncodingsShowTheirPictures }
{
    infos_are_read_as_written();
    plans_can_be_coded();
    streams_show_their_pictures();
}
