ghost use Rattle.std.specs.Prelude.{◌≡◌, ◌+◌, ◌<◌, ◌≤◌, length};
ghost use Rattle.std.specs.Io.KnownBytes.{IsAtEnd, Keeps, prepend_known};
ghost use Rattle.dirac_io.specs.Faults.{Rose};

use crate::pieces::{Grown, grow};
use dirac_io::Source;
use dirac_units::{PARSE_INFO_LENGTH, UnitKind, kind_of, read_info};

/// How far is read ahead.
#[derive(Clone, Copy, Debug, PartialEq, Eq, Drop)]
pub struct Plan {
    /// So many pictures, with the units before them and between them.
    pub pictures: usize,
    /// At most so many bytes.
    pub most: usize,
}

/// What stands behind the bytes that were read ahead.
#[derive(Clone, Copy, Drop)]
pub(crate) enum Behind {
    /// More may be read ahead.
    More,
    /// The end of the source.
    End,
    /// A read that failed.
    Failure,
    /// What comes is read when it is asked for.
    Direct,
}

/// What was read ahead.
#[derive(Clone, Copy, Drop)]
pub(crate) struct Found {
    pub(crate) behind: Behind,
    /// How many bytes the whole units at the front take.
    pub(crate) whole: usize,
    /// How many bytes of the last unit weren't read.
    pub(crate) rest: u64,
}

/// What the next unit is.
#[derive(Clone, Copy, Drop)]
enum Next {
    Picture,
    Other,
    /// That many bytes at its end weren't read.
    Cut(u64),
    /// It isn't whole, or no unit.
    None(Behind),
}

/// What stands behind bytes that were read no further.
fn stopped_at(grown: Grown) -> Behind
    ensures end { result ≡ Behind.End → grown ≡ Grown.Ended }
    ensures failure { result ≡ Behind.Failure → grown ≡ Grown.Failed }
    ensures failed { grown ≡ Grown.Failed → result ≡ Behind.Failure }
{
    match grown {
        Grown::Ended => Behind::End,
        Grown::Failed => Behind::Failure,
        Grown::Whole | Grown::NoMemory => Behind::Direct,
    }
}

/// Reads the next unit behind these bytes, as far as they are at most that many then.
fn read_unit<S: Source>(source: &mut S, bytes: &mut Vec<u8>, most: usize) -> Next
    requires parse_info_fits { length bytes.old.items + PARSE_INFO_LENGTH ≤ most }
    ensures no_byte_lost { Keeps (prepend_known bytes.old.items (S.held source.old))
        (prepend_known bytes.new.items (S.held source.new)) }
    ensures at_most { length bytes.new.items ≤ most }
    ensures never_shorter { length bytes.old.items ≤ length bytes.new.items }
    ensures picture { result ≡ Next.Picture → length bytes.old.items < length bytes.new.items }
    ensures other { result ≡ Next.Other → length bytes.old.items < length bytes.new.items }
    ensures left_never_rises { length bytes.new.items + S.left source.new
        ≤ length bytes.old.items + S.left source.old }
    ensures none_taken { length bytes.new.items ≡ length bytes.old.items → (result ≡ Next.None Behind.Failure → ⊥)
        → S.left source.new ≡ S.left source.old }
    ensures end { result ≡ Next.None Behind.End → IsAtEnd (S.held source.new) }
    ensures failed { result ≡ Next.None Behind.Failure → Rose (S.faults source.old) (S.faults source.new) }
    ensures faults_never_fall { S.faults source.old ≤ S.faults source.new }
{
    let start = bytes.len();
    let header = grow(source, bytes, PARSE_INFO_LENGTH as u64);
    let Grown::Whole = header else {
        return Next::None(stopped_at(header));
    };
    let Ok(info) = read_info(&bytes[start..]) else {
        return Next::None(Behind::Direct);
    };
    let length = info.span() - PARSE_INFO_LENGTH as u64;
    let part = length.min((most - bytes.len()) as u64);
    let payload = grow(source, bytes, part);
    let Grown::Whole = payload else {
        return Next::None(stopped_at(payload));
    };
    if part < length {
        return Next::Cut(length - part);
    }
    if let Ok(UnitKind::Picture) = kind_of(info.code) {
        Next::Picture
    } else {
        Next::Other
    }
}

/// Reads units behind these bytes, as far as the plan says.
pub(crate) fn read_units<S: Source>(source: &mut S, bytes: &mut Vec<u8>, plan: Plan) -> Found
    requires at_most_the_plan { length bytes.old.items ≤ plan.most }
    ensures no_byte_lost { Keeps (prepend_known bytes.old.items (S.held source.old))
        (prepend_known bytes.new.items (S.held source.new)) }
    ensures whole_units_held { result.whole ≤ length bytes.new.items }
    ensures at_most_the_plan { length bytes.new.items ≤ plan.most }
    ensures left_never_rises { length bytes.new.items + S.left source.new
        ≤ length bytes.old.items + S.left source.old }
    ensures none_taken { length bytes.new.items ≡ length bytes.old.items → (result.behind ≡ Behind.Failure → ⊥)
        → S.left source.new ≡ S.left source.old }
    ensures end { result.behind ≡ Behind.End → IsAtEnd (S.held source.new) }
    ensures failed { result.behind ≡ Behind.Failure → Rose (S.faults source.old) (S.faults source.new) }
    ensures faults_never_fall { S.faults source.old ≤ S.faults source.new }
{
    let mut whole = 0;
    let mut pictures = 0;
    'units: while pictures < plan.pictures && bytes.len() + PARSE_INFO_LENGTH <= plan.most {
        let (behind, rest) = match read_unit(source, bytes, plan.most) {
            Next::Picture => {
                whole = bytes.len();
                pictures += 1;
                continue;
            }
            Next::Other => {
                whole = bytes.len();
                continue;
            }
            Next::Cut(rest) => (Behind::More, rest),
            Next::None(behind) => (behind, 0),
        };
        return Found {
            behind,
            whole,
            rest,
        };
    }
    Found {
        behind: Behind::More,
        whole,
        rest: 0,
    }
}
