//! The number that the payload of a picture begins with (picture header, Dirac specification).

ghost use Rattle.std.specs.Prelude.{◌≡◌, ◌+◌, ◌<◌, ◌^◌, drop, length, slice_index};
ghost use Rattle.dirac_edit_laws.specs.Joined.{number_in_payload};

// How many bytes the number has.
const NUMBER_LENGTH: usize = 4;

/// The number that a payload begins with. Bytes that it doesn't have count as 0.
pub(crate) fn number_in(payload: &[u8]) -> u32
    ensures { result ≡ number_in_payload payload.now }
{
    u32::from_be_bytes([
        byte_at(payload, 0),
        byte_at(payload, 1),
        byte_at(payload, 2),
        byte_at(payload, 3),
    ])
}

/// A byte of a payload, 0 past its end.
fn byte_at(payload: &[u8], place: usize) -> u8
    ensures { result ≡ slice_index payload.now place }
{
    if place < payload.len() {
        payload[place]
    } else {
        0
    }
}

/// What a payload has behind its number.
pub(crate) fn behind_number(payload: &[u8]) -> &[u8]
    requires { 13 + length payload.now < 2 ^ 32 }
    ensures value { result.now ≡ drop 4 payload.now }
    ensures fits { 17 + length result.now < 2 ^ 32 }
{
    let start = payload.len().min(NUMBER_LENGTH);
    &payload[start..]
}
