//! Room for the planes of a picture.
ghost use Rattle.std.specs.Prelude.{IfOk};
ghost use Rattle.dirac_sequence_header.specs.Lawful.{IsSequence};
ghost use Rattle.dirac_slices.specs.Parts.{IsRoomForPicture};
ghost use Rattle.dirac_slices.specs.Samples.{FitsPlane};

use dirac_common::{Component, NoMemory, Picture, Plane};
use dirac_rebuild::{height_of, width_of};
use dirac_sequence_header::Sequence;
use std::alloc::Global;

/// Room for a plane.
fn plane_room(alloc: Global, sequence: &Sequence, component: Component) -> Result<Plane, NoMemory>
    requires { IsSequence sequence.now }
    ensures { IfOk result (FitsPlane sequence.now component) }
{
    let width = width_of(sequence, component);
    let height = height_of(sequence, component);
    let plane = Plane::try_new(alloc, width, height, 0)?;
    Ok(plane)
}

/// Room for the planes of a picture.
pub(crate) fn picture_room(alloc: Global, sequence: &Sequence) -> Result<Picture, NoMemory>
    requires { IsSequence sequence.now }
    ensures { IfOk result (IsRoomForPicture sequence.now) }
{
    Ok(Picture {
        number: 0,
        y: plane_room(alloc, sequence, Component::Y)?,
        u: plane_room(alloc, sequence, Component::U)?,
        v: plane_room(alloc, sequence, Component::V)?,
    })
}
