//! The units of a stream, written to a sink.

ghost use Rattle.std.specs.Prelude.{◌≡◌, ◌≤◌, if◌then◌else◌, [], Err, OnOk};
ghost use Rattle.std.specs.Io.KnownBytes.{Appends};
ghost use Rattle.dirac_io.specs.Faults.{Rose};
ghost use Rattle.dirac_io.specs.Writing.{AppendsFront};
ghost use Rattle.dirac_sequence.specs.Written.{sequence_payload};
ghost use Rattle.dirac_picture.specs.Grammar as grammar;
ghost use Rattle.dirac_encode_laws.specs.Steps.{last_units};
ghost use Rattle.dirac_encode_laws.specs.Stream.{header_unit};

use dirac_common::SEQUENCE_HEADER;
use dirac_io::{Sink, Unwritten};
use dirac_picture::is_intra;
use dirac_types::Settings;
use dirac_units::{PARSE_INFO_LENGTH, put_end, put_unit};

/// Writes the unit of this sequence header before an intra picture, behind a unit of `previous` bytes.
pub fn put_header<K: Sink>(
    out: &mut K,
    settings: &Settings,
    header: &[u8],
    code: u8,
    previous: u32,
) -> Result<(), Unwritten>
    requires { header.now ≡ sequence_payload settings.now }
    ensures all { OnOk result (Appends (K.taken out.old) (K.taken out.new)
        (if grammar.is_intra code then header_unit settings.now previous else [])) }
    ensures front { AppendsFront (K.taken out.old) (K.taken out.new)
        (if grammar.is_intra code then header_unit settings.now previous else []) }
    ensures failed { result ≡ Err Unwritten.Failed → Rose (K.faults out.old) (K.faults out.new) }
    ensures count { K.faults out.old ≤ K.faults out.new }
{
    if is_intra(code) {
        put_unit(out, SEQUENCE_HEADER, previous, header).done()
    } else {
        Ok(())
    }
}

/// Writes the units at the end: where no picture was coded the unit of this sequence header, and the end unit.
pub fn put_end_units<K: Sink>(
    out: &mut K,
    settings: &Settings,
    header: &[u8],
    count: u32,
    previous: u32,
) -> Result<(), Unwritten>
    requires { header.now ≡ sequence_payload settings.now }
    ensures all { OnOk result (Appends (K.taken out.old) (K.taken out.new)
        (last_units settings.now count previous)) }
    ensures front { AppendsFront (K.taken out.old) (K.taken out.new)
        (last_units settings.now count previous) }
    ensures failed { result ≡ Err Unwritten.Failed → Rose (K.faults out.old) (K.faults out.new) }
    ensures count { K.faults out.old ≤ K.faults out.new }
{
    if count > 0 {
        return put_end(out, previous).done();
    }
    put_unit(out, SEQUENCE_HEADER, 0, header).done()?;
    put_end(out, (PARSE_INFO_LENGTH + header.len()) as u32).done()
}
