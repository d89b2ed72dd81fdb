//! Reconstructions, delivered as raw pictures.

ghost use Rattle.std.specs.Prelude.{◌≡◌, ◌≤◌, Err, OnOk};
ghost use Rattle.std.specs.Io.KnownBytes.{Appends};
ghost use Rattle.std.specs.Option.{option_to_list};
ghost use Rattle.dirac_io.specs.Faults.{Rose};
ghost use Rattle.dirac_io.specs.Writing.{AppendsFront};
ghost use Rattle.dirac_refs.specs.Delivery.{delivered, flushed};
ghost use Rattle.dirac_content.specs.Raw.{raws};
ghost use Rattle.dirac_encode_progress.specs.Going.{waiting_joined};

use dirac_common::Picture;
use dirac_content::put_picture;
use dirac_io::{Sink, Unwritten};
use dirac_refs::{Delivery, key};

/// Writes a picture that leaves, if one does.
fn put_left<N: Sink>(
    side: &mut N,
    left: Option<Picture>,
    row: &mut Vec<u8>,
) -> Result<(), Unwritten>
    ensures all { OnOk result (Appends (N.taken side.old) (N.taken side.new) (raws (option_to_list left))) }
    ensures front { AppendsFront (N.taken side.old) (N.taken side.new) (raws (option_to_list left)) }
    ensures failed { result ≡ Err Unwritten.Failed → Rose (N.faults side.old) (N.faults side.new) }
    ensures count { N.faults side.old ≤ N.faults side.new }
{
    match left {
        Some(picture) => put_picture(side, &picture, row).done(),
        None => Ok(()),
    }
}

/// A picture joins those that wait for delivery; the one that leaves, if one does, is written.
pub fn deliver<N: Sink>(
    side: &mut N,
    delivery: &mut Delivery,
    number: u32,
    shown: Picture,
    row: &mut Vec<u8>,
) -> Result<(), Unwritten>
    ensures waiting { delivery.new ≡ (delivered (waiting_joined delivery.old number shown)).waiting }
    ensures all { OnOk result (Appends (N.taken side.old) (N.taken side.new)
        (raws (delivered (waiting_joined delivery.old number shown)).gone)) }
    ensures front { AppendsFront (N.taken side.old) (N.taken side.new)
        (raws (delivered (waiting_joined delivery.old number shown)).gone) }
    ensures failed { result ≡ Err Unwritten.Failed → Rose (N.faults side.old) (N.faults side.new) }
    ensures count { N.faults side.old ≤ N.faults side.new }
{
    let left = delivery.push(key(0, number), shown);
    put_left(side, left, row)
}

/// Writes all pictures that wait, in the order in which they leave.
pub fn put_waiting<N: Sink>(
    side: &mut N,
    delivery: &mut Delivery,
    row: &mut Vec<u8>,
) -> Result<(), Unwritten>
    ensures all { OnOk result (Appends (N.taken side.old) (N.taken side.new) (raws (flushed delivery.old))) }
    ensures front { AppendsFront (N.taken side.old) (N.taken side.new) (raws (flushed delivery.old)) }
    ensures failed { result ≡ Err Unwritten.Failed → Rose (N.faults side.old) (N.faults side.new) }
    ensures count { N.faults side.old ≤ N.faults side.new }
{
    'waiting: while let Some(picture) = delivery.pop() {
        put_picture(side, &picture, row).done()?;
    }
    Ok(())
}
