ghost use Rattle.std.specs.Prelude.{◌≡◌, ◌+◌, ◌<◌, ◌^◌, IfOk, MatchOption, length};
ghost use Rattle.dirac_edit.specs.Units.{IsBegun, IsCutInto, NoneIsBegun};

use dirac_common::NoMemory;
use dirac_units::{PARSE_INFO_LENGTH, ParseInfo, read_info};
use std::alloc::Global;
use std::marker::Model;

/// A unit of a stream that stands in memory.
#[derive(Drop)]
pub(crate) struct HeldUnit<'a> {
    info: ParseInfo,
    payload: &'a [u8],
}

impl<'a> Model for HeldUnit<'a> {
    ghost use Rattle.std.specs.Prelude.{◌+◌, ◌<◌, ◌^◌, length};
    ghost use Rattle.dirac_units.specs.Cut.{UnitText};

    ghost Value = { UnitText };

    ghost view = { λ u. record { info = u.info; payload = u.payload.now } };

    ghost invariant = { λ u. 13 + length u.payload.now < 2 ^ 32 };
}

impl<'a> HeldUnit<'a> {
    /// A unit of this parse info and this payload.
    fn of(info: ParseInfo, payload: &'a [u8]) -> HeldUnit<'a>
        requires { 13 + length payload.now < 2 ^ 32 }
        ensures { result ≡ record { info = info; payload = payload.now } }
    {
        HeldUnit { info, payload }
    }

    /// The parse code.
    pub(crate) fn code(&self) -> u8
        ensures { result ≡ self.now.info.code }
    {
        self.info.code
    }

    /// The payload.
    pub(crate) fn payload(&self) -> &'a [u8]
        ensures value { result.now ≡ self.now.payload }
        ensures fits { 13 + length result.now < 2 ^ 32 }
    {
        self.payload
    }
}

/// The unit that begins these bytes, and the bytes behind it; `None` where no whole unit does.
fn first_unit<'a>(bytes: &'a [u8]) -> Option<(HeldUnit<'a>, &'a [u8])>
    requires { length bytes.now < 2 ^ 63 }
    ensures { MatchOption result (NoneIsBegun bytes.now) (λ r. IsBegun bytes.now r.0 r.1.now) }
{
    if bytes.len() < PARSE_INFO_LENGTH {
        return None;
    }
    let Ok(info) = read_info(&bytes[..PARSE_INFO_LENGTH]) else {
        return None;
    };
    let span = info.span() as usize;
    if bytes.len() < span {
        return None;
    }
    let unit = HeldUnit::of(info, &bytes[PARSE_INFO_LENGTH..span]);
    Some((unit, &bytes[span..]))
}

/// The units of a stream that stands in memory, up to its end or the first fault of the cutting.
pub(crate) fn units_of<'a>(alloc: Global, bytes: &'a [u8]) -> Result<Vec<HeldUnit<'a>>, NoMemory>
    requires { length bytes.now < 2 ^ 63 }
    ensures { IfOk result (λ units. IsCutInto bytes.now units.items) }
{
    let mut units = Vec::new(alloc);
    let mut bytes = bytes;
    'units: while let Some((unit, rest)) = first_unit(bytes) {
        units.push(unit)?;
        bytes = rest;
    }
    Ok(units)
}
