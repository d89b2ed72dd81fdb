//! Units, written to a sink.

ghost use Rattle.std.specs.Prelude.{◌≡◌, ◌≤◌, Err, OnOk};
ghost use Rattle.std.specs.Io.KnownBytes.{Appends};
ghost use Rattle.dirac_io.specs.Faults.{Rose};
ghost use Rattle.dirac_io.specs.Writing.{AppendsFront};
ghost use Rattle.dirac_edit_laws.specs.Texts.{with_pictures};
ghost use Rattle.dirac_edit_laws.specs.Units.{pictures_bytes, sequence_bytes, sequences_bytes};

use crate::sequence::{HeldPicture, HeldSequence};
use dirac_common::SEQUENCE_HEADER;
use dirac_io::{Sink, Unwritten};
use dirac_units::{PARSE_INFO_LENGTH, put_end, put_unit, unit_length};

/// Writes the units of pictures behind a unit of `previous` bytes, and an end unit.
fn put_pictures<K: Sink>(
    out: &mut K,
    previous: u32,
    pictures: &[HeldPicture<'_>],
) -> Result<(), Unwritten>
    ensures all { OnOk result (Appends (K.taken out.old) (K.taken out.new)
        (pictures_bytes previous pictures.now)) }
    ensures front { AppendsFront (K.taken out.old) (K.taken out.new) (pictures_bytes previous pictures.now) }
    ensures failed { result ≡ Err Unwritten.Failed → Rose (K.faults out.old) (K.faults out.new) }
    ensures count { K.faults out.old ≤ K.faults out.new }
{
    let mut previous = previous;
    for picture in pictures {
        let payload = picture.payload();
        put_unit(out, picture.code(), previous, payload).done()?;
        previous = unit_length(payload);
    }
    put_end(out, previous).done()
}

/// Writes the units of a sequence behind a unit of `previous` bytes.
fn put_sequence<K: Sink>(
    out: &mut K,
    previous: u32,
    sequence: &HeldSequence<'_>,
) -> Result<(), Unwritten>
    ensures all { OnOk result (Appends (K.taken out.old) (K.taken out.new)
        (sequence_bytes previous sequence.now)) }
    ensures front { AppendsFront (K.taken out.old) (K.taken out.new) (sequence_bytes previous sequence.now) }
    ensures failed { result ≡ Err Unwritten.Failed → Rose (K.faults out.old) (K.faults out.new) }
    ensures count { K.faults out.old ≤ K.faults out.new }
{
    let header = sequence.header();
    put_unit(out, SEQUENCE_HEADER, previous, header).done()?;
    put_pictures(out, unit_length(header), sequence.pictures())
}

/// Writes the units of those sequences that have pictures.
pub(crate) fn put_sequences<K: Sink>(
    out: &mut K,
    sequences: &[HeldSequence<'_>],
) -> Result<(), Unwritten>
    ensures all { OnOk result (Appends (K.taken out.old) (K.taken out.new)
        (sequences_bytes 0 (with_pictures sequences.now))) }
    ensures front { AppendsFront (K.taken out.old) (K.taken out.new)
        (sequences_bytes 0 (with_pictures sequences.now)) }
    ensures failed { result ≡ Err Unwritten.Failed → Rose (K.faults out.old) (K.faults out.new) }
    ensures count { K.faults out.old ≤ K.faults out.new }
{
    let mut previous = 0;
    for sequence in sequences {
        if sequence.pictures().is_empty() {
            continue;
        }
        put_sequence(out, previous, sequence)?;
        previous = PARSE_INFO_LENGTH as u32;
    }
    Ok(())
}
