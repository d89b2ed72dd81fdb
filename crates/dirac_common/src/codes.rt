//! The parse codes of units (parse info, Dirac specification, section 9.6).

ghost use Rattle.std.specs.Prelude.{◌≡◌};
ghost use Rattle.dirac_common.specs.Codes as codes;

/// The parse code of a sequence header.
pub const SEQUENCE_HEADER: u8 = 0x00;

/// The parse code of the end of a sequence.
pub const END_OF_SEQUENCE: u8 = 0x10;

/// The first of the eight parse codes of auxiliary data.
pub const AUXILIARY_DATA: u8 = 0x20;

/// The parse code of padding.
pub const PADDING: u8 = 0x30;

/// The parse code of an intra picture from which none is predicted.
pub const INTRA_NON_REFERENCE: u8 = 0x08;

/// The parse code of an intra picture from which others may be predicted.
pub const INTRA_REFERENCE: u8 = 0x0C;

/// The parse code of a picture with one reference, from which none is predicted.
pub const INTER_NON_REFERENCE_1: u8 = 0x09;

/// The parse code of a picture with two references, from which none is predicted.
pub const INTER_NON_REFERENCE_2: u8 = 0x0A;

/// The parse code of a picture with one reference, from which others may be predicted.
pub const INTER_REFERENCE_1: u8 = 0x0D;

/// The parse code of a picture with two references, from which others may be predicted.
pub const INTER_REFERENCE_2: u8 = 0x0E;

/// Whether a picture with this parse code is intra coded.
pub fn is_intra(code: u8) -> bool
    ensures { result ≡ codes.is_intra code }
{
    code == INTRA_NON_REFERENCE || code == INTRA_REFERENCE
}

/// Whether others may be predicted from a picture with this parse code.
pub fn is_reference(code: u8) -> bool
    ensures { result ≡ codes.is_reference code }
{
    code == INTRA_REFERENCE || code == INTER_REFERENCE_1 || code == INTER_REFERENCE_2
}

/// How many pictures a picture with this parse code is predicted from.
pub fn references(code: u8) -> u8
    ensures { result ≡ codes.references_of code }
{
    match code {
        INTER_REFERENCE_1 | INTER_NON_REFERENCE_1 => 1,
        INTER_REFERENCE_2 | INTER_NON_REFERENCE_2 => 2,
        _ => 0,
    }
}
