//! Units that stand one behind another in memory.

ghost use Rattle.std.specs.Prelude.{◌<◌, length, IfSome};

use dirac_units::{PARSE_INFO_LENGTH, read_info};

/// A unit at the front of bytes, and the bytes behind it.
#[derive(Clone, Copy, Drop)]
pub(crate) struct Front<'a> {
    pub(crate) code: u8,
    pub(crate) payload: &'a [u8],
    pub(crate) behind: &'a [u8],
}

/// The unit at the front of these bytes; none where no whole unit stands there.
pub(crate) fn front_of<'a>(bytes: &'a [u8]) -> Option<Front<'a>>
    ensures { IfSome result (λ front. length front.behind.now < length bytes.now) }
{
    if bytes.len() < PARSE_INFO_LENGTH {
        return None;
    }
    let (header, rest) = bytes.split_at(PARSE_INFO_LENGTH);
    let Ok(info) = read_info(header) else {
        return None;
    };
    let length = info.span() - PARSE_INFO_LENGTH as u64;
    if length > rest.len() as u64 {
        return None;
    }
    let (payload, behind) = rest.split_at(length as usize);
    Some(Front {
        code: info.code,
        payload,
        behind,
    })
}

/// These units from the one with this parse code and payload on, the first such one; none where it isn't among them.
pub(crate) fn units_from<'a>(units: &'a [u8], payload: &[u8], code: u8) -> Option<&'a [u8]> {
    let mut rest = units;
    'units: while let Some(front) = front_of(rest) {
        if front.code == code && front.payload == payload {
            return Some(rest);
        }
        rest = front.behind;
    }
    None
}
