ghost use Rattle.std.specs.Prelude.{◌≡◌, ℕ, ◌≤◌, ◌<◌, ◌^◌, length, IfErr};
ghost use Rattle.dirac_units.specs.Info.{unit_kind, fields_are_read as has_fields, offset_is_lawful, info_read};
ghost use Rattle.dirac_units.specs.Info.{span_of};

use dirac_common::{
    AUXILIARY_DATA, Cause, END_OF_SEQUENCE, INTER_NON_REFERENCE_1, INTER_NON_REFERENCE_2,
    INTER_REFERENCE_1, INTER_REFERENCE_2, INTRA_NON_REFERENCE, INTRA_REFERENCE, PADDING, Refusal,
    SEQUENCE_HEADER,
};

/// How many bytes a parse info takes.
pub const PARSE_INFO_LENGTH: usize = 13;

// The parse info prefix, `BBCD`.
const PREFIX: [u8; 4] = [0x42, 0x42, 0x43, 0x44];

/// A parse info header (parse info, Dirac specification, section 9.6). The next offset counts bytes from this header's
/// first byte to the next header's; the previous offset counts back to the header before.
#[derive(Clone, Copy, Debug, PartialEq, Eq)]
pub struct ParseInfo {
    pub code: u8,
    pub next: u32,
    pub previous: u32,
}

/// What a parse code says of its unit.
#[derive(Clone, Copy, Debug, PartialEq, Eq)]
pub enum UnitKind {
    Sequence,
    End,
    Auxiliary,
    Padding,
    Picture,
}

/// The kind of a unit by its parse code, or why the code is refused.
pub fn kind_of(code: u8) -> Result<UnitKind, Cause>
    ensures { result ≡ unit_kind code }
{
    match code {
        SEQUENCE_HEADER => Ok(UnitKind::Sequence),
        END_OF_SEQUENCE => Ok(UnitKind::End),
        PADDING => Ok(UnitKind::Padding),
        AUXILIARY_DATA..=0x27 => Ok(UnitKind::Auxiliary),
        INTRA_NON_REFERENCE | INTRA_REFERENCE => Ok(UnitKind::Picture),
        INTER_NON_REFERENCE_1 | INTER_REFERENCE_1 => Ok(UnitKind::Picture),
        INTER_NON_REFERENCE_2 | INTER_REFERENCE_2 => Ok(UnitKind::Picture),
        0x48 | 0x4C => Err(Cause::Vlc),
        0xC8 | 0xCC => Err(Cause::LowDelay),
        _ => Err(Cause::UnknownCode),
    }
}

/// Whether the payload of such a unit is read: that of a sequence header or of a picture.
pub fn fields_are_read(code: u8) -> bool
    ensures { result ≡ has_fields code }
{
    matches!(kind_of(code), Ok(UnitKind::Sequence | UnitKind::Picture))
}

// Whether the next offset is one that a unit of this kind may have.
fn is_lawful_offset(kind: UnitKind, next: u32) -> bool
    ensures { result ≡ offset_is_lawful kind next }
{
    match kind {
        UnitKind::End => next == 0 || next == PARSE_INFO_LENGTH as u32,
        _ => next >= PARSE_INFO_LENGTH as u32,
    }
}

/// Reads a parse info (parse info, Dirac specification, section 9.6). A refusal's place counts from the header's first
/// byte: the prefix is looked at first, then the code, then the next offset. The previous offset is never refused.
pub fn read_info(header: &[u8]) -> Result<ParseInfo, Refusal>
    requires { length header.now ≡ PARSE_INFO_LENGTH }
    ensures read { result ≡ info_read header.now }
    ensures place_inside { IfErr result (λ refusal. refusal.at ≤ 5) }
{
    if !header.starts_with(&PREFIX) {
        return Err(Refusal {
            at: 0,
            cause: Cause::BadPrefix,
        });
    }
    let info = ParseInfo {
        code: header[4],
        next: u32::from_be_bytes([header[5], header[6], header[7], header[8]]),
        previous: u32::from_be_bytes([header[9], header[10], header[11], header[12]]),
    };
    match kind_of(info.code) {
        Err(cause) => Err(Refusal { at: 4, cause }),
        Ok(kind) => {
            if is_lawful_offset(kind, info.next) {
                Ok(info)
            } else {
                Err(Refusal {
                    at: 5,
                    cause: Cause::OffsetMissing,
                })
            }
        }
    }
}

impl ParseInfo {
    /// How many bytes the unit takes, its header included. An end unit, whose next offset may be 0,
    /// is its header alone.
    pub fn span(&self) -> u64
        ensures span { result ≡ span_of self.now }
        ensures fits { result < 2 ^ 32 }
    {
        u64::from(self.next.max(PARSE_INFO_LENGTH as u32))
    }
}
