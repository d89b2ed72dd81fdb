ghost use Rattle.std.specs.Prelude.{◌≡◌, ◌≤◌, ◌<◌, ◌+◌, ◌^◌, length, Ok};
ghost use Rattle.std.specs.Io.KnownBytes.{Appends};
ghost use Rattle.dirac_io.specs.Faults.{Rose};
ghost use Rattle.dirac_io.specs.Writing.{AppendsFront};
ghost use Rattle.dirac_units.specs.Info.{IsLawful, info_read};
ghost use Rattle.dirac_units.specs.Writing.{end_unit, info_bytes, IsReadAsWritten, unit};

use crate::info::{PARSE_INFO_LENGTH, ParseInfo};
use dirac_common::END_OF_SEQUENCE;
use dirac_io::{Put, Sink, put_all};

/// The bytes of a parse info header (parse info, Dirac specification, section 9.6).
pub fn write_info(info: ParseInfo) -> [u8; PARSE_INFO_LENGTH]
    ensures bytes { result ≡ info_bytes info }
    ensures read { IsLawful info → info_read result ≡ Ok info }
{
    let next = info.next.to_be_bytes();
    let previous = info.previous.to_be_bytes();
    [
        0x42,
        0x42,
        0x43,
        0x44,
        info.code,
        next[0],
        next[1],
        next[2],
        next[3],
        previous[0],
        previous[1],
        previous[2],
        previous[3],
    ]
}

/// What is written of a parse info that isn't refused is read as that parse info.
pub fn infos_are_read_as_written()
    ensures { IsReadAsWritten }
{}

/// The length of a unit with this payload.
pub fn unit_length(payload: &[u8]) -> u32
    requires { 13 + length payload.now < 2 ^ 32 }
    ensures { result ≡ 13 + length payload.now }
{
    (PARSE_INFO_LENGTH + payload.len()) as u32
}

/// Writes a unit with this parse code behind a unit of `previous` bytes.
pub fn put_unit<K: Sink>(out: &mut K, code: u8, previous: u32, payload: &[u8]) -> Put
    requires { 13 + length payload.now < 2 ^ 32 }
    ensures all { result ≡ Put.All → Appends (K.taken out.old) (K.taken out.new) (unit code previous payload.now) }
    ensures front { AppendsFront (K.taken out.old) (K.taken out.new) (unit code previous payload.now) }
    ensures failed { result ≡ Put.Failed → Rose (K.faults out.old) (K.faults out.new) }
    ensures count { K.faults out.old ≤ K.faults out.new }
{
    let info = write_info(ParseInfo {
        code,
        next: unit_length(payload),
        previous,
    });
    match put_all(out, &info) {
        Put::All => put_all(out, payload),
        unwritten => unwritten,
    }
}

/// Writes an end unit behind a unit of `previous` bytes.
pub fn put_end<K: Sink>(out: &mut K, previous: u32) -> Put
    ensures all { result ≡ Put.All → Appends (K.taken out.old) (K.taken out.new) (end_unit previous) }
    ensures front { AppendsFront (K.taken out.old) (K.taken out.new) (end_unit previous) }
    ensures failed { result ≡ Put.Failed → Rose (K.faults out.old) (K.faults out.new) }
    ensures count { K.faults out.old ≤ K.faults out.new }
{
    let info = write_info(ParseInfo {
        code: END_OF_SEQUENCE,
        next: 0,
        previous,
    });
    put_all(out, &info)
}
