ghost use Rattle.std.specs.Prelude.{◌≡◌, ℕ, ◌≤◌, ◌<◌, ◌^◌, IfOk, IfErr, Ok, length, unsigned_abs};
ghost use Rattle.dirac_bits.specs.Cursor.{Cursor};
ghost use Rattle.dirac_bits.specs.Syntax.{read};
ghost use Rattle.dirac_bits.specs.Answers.{ReadsSeenBy};
ghost use Rattle.dirac_bits.specs.Laws.{BeginsWith};
ghost use Rattle.dirac_header.specs.declared.header.PictureHeader.{PictureHeader as TheHeader};
ghost use Rattle.dirac_header.specs.Header as grammar;

use dirac_bits::BitReader;
use dirac_common::{Refusal, is_reference, references};

/// What stands before a picture's data.
#[derive(Clone, Copy, Debug, PartialEq, Eq)]
pub struct PictureHeader {
    /// The picture's number, modulo 2^32.
    pub number: u32,
    /// The number of its first reference, where it has one.
    pub ref1: Option<u32>,
    /// The number of its second reference, where it has two.
    pub ref2: Option<u32>,
    /// The number of the picture that leaves the reference list.
    pub retire: Option<u32>,
}

/// The header of a picture with this parse code: picture header, Dirac specification, section 11. The bits up to the
/// next byte are passed over first.
pub fn read_header(r: &mut BitReader<'_>, code: u8) -> Result<PictureHeader, Refusal>
    ensures value { ReadsSeenBy (λ h. h) result r.new (read (grammar.header code) r.old) }
    // What is answered is spelled by the bits left.
    ensures spelled { IfOk result (λ h. BeginsWith (grammar.header code) h r.old r.new) }
    // What they spell is answered.
    ensures no_other_reading { (h : TheHeader) (d : Cursor) → BeginsWith (grammar.header code) h r.old d
        → (result ≡ Ok h) × (r.new ≡ d) }
    ensures place_inside { IfErr result (λ e. e.at ≤ length r.old.bytes) }
    ensures kept { r.new.bytes ≡ r.old.bytes }
{
    let _at = r.place();
    read_fields(r, code)
}

#[tactic(auto, unfolding(crate::specs::Header::header), using(dirac_bits::specs::Then::read_then))]
fn read_fields(r: &mut BitReader<'_>, code: u8) -> Result<PictureHeader, Refusal>
    ensures value { ReadsSeenBy (λ h. h) result r.new (read (grammar.header code) r.old) }
    ensures place_inside { IfErr result (λ e. e.at ≤ length r.old.bytes) }
    ensures kept { r.new.bytes ≡ r.old.bytes }
{
    r.align();
    let number = r.literal()?;
    let references = references(code);
    let ref1 = read_reference(r, references >= 1, number)?;
    let ref2 = read_reference(r, references >= 2, number)?;
    let retire = read_retirement(r, is_reference(code), number)?;
    Ok(PictureHeader {
        number,
        ref1,
        ref2,
        retire,
    })
}

#[tactic(auto, unfolding(crate::specs::Header::reference))]
fn read_reference(r: &mut BitReader<'_>, there: bool, number: u32) -> Result<Option<u32>, Refusal>
    ensures value { ReadsSeenBy (λ x. x) result r.new (read (grammar.reference there number) r.old) }
    ensures place_inside { IfErr result (λ e. e.at ≤ length r.old.bytes) }
    ensures kept { r.new.bytes ≡ r.old.bytes }
{
    if !there {
        return Ok(None);
    }
    let offset = r.sint()?;
    Ok(Some(moved_by(number, offset)))
}

#[tactic(auto, unfolding(crate::specs::Header::retirement))]
fn read_retirement(r: &mut BitReader<'_>, there: bool, number: u32) -> Result<Option<u32>, Refusal>
    ensures value { ReadsSeenBy (λ x. x) result r.new (read (grammar.retirement there number) r.old) }
    ensures place_inside { IfErr result (λ e. e.at ≤ length r.old.bytes) }
    ensures kept { r.new.bytes ≡ r.old.bytes }
{
    if !there {
        return Ok(None);
    }
    let offset = r.sint()?;
    Ok(retired_by(number, offset))
}

fn retired_by(number: u32, offset: i64) -> Option<u32>
    requires { unsigned_abs offset < 2 ^ 39 }
    ensures { result ≡ grammar.retired_by number offset }
{
    if offset == 0 {
        None
    } else {
        Some(moved_by(number, offset))
    }
}

/// The picture number that lies `offset` from `number`.
fn moved_by(number: u32, offset: i64) -> u32
    requires { unsigned_abs offset < 2 ^ 39 }
    ensures { result ≡ grammar.moved_by number offset }
{
    (i64::from(number) + offset).rem_euclid(1 << 32) as u32
}
