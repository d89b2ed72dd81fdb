ghost use Rattle.std.specs.Prelude.{◌≡◌, ◌+◌, ◌<◌, ◌≤◌, length, take};
ghost use Rattle.std.specs.Io.KnownBytes.{Consumes, IsAtEnd, Keeps, prepend_known};
ghost use Rattle.dirac_io.specs.Faults.{Rose};

use dirac_io::{Got, Source};

/// The most bytes that are read at once.
const PIECE_LENGTH: usize = 65536;

/// How far bytes were read.
#[derive(Clone, Copy, Drop)]
pub(crate) enum Grown {
    Whole,
    /// The source ended before.
    Ended,
    /// A read failed before.
    Failed,
    NoMemory,
}

/// How far a piece was filled.
#[derive(Clone, Copy, Drop)]
struct Filled {
    /// So many bytes at its front were read.
    count: usize,
    grown: Grown,
}

/// Reads a piece full, in as many reads as it takes, unless something stops it before.
fn fill_piece<S: Source>(source: &mut S, piece: &mut [u8]) -> Filled
    ensures read { Consumes (S.held source.old) (S.held source.new) (take result.count piece.new) }
    ensures at_most_the_piece { result.count ≤ length piece.new }
    ensures filled_where_whole { result.grown ≡ Grown.Whole → result.count ≡ length piece.new }
    ensures left_never_rises { result.count + S.left source.new ≤ S.left source.old }
    ensures none_taken { result.count ≡ 0 → (result.grown ≡ Grown.Failed → ⊥)
        → S.left source.new ≡ S.left source.old }
    ensures end { result.grown ≡ Grown.Ended → IsAtEnd (S.held source.new) }
    ensures failed { result.grown ≡ Grown.Failed → Rose (S.faults source.old) (S.faults source.new) }
    ensures faults_never_fall { S.faults source.old ≤ S.faults source.new }
{
    let mut count = 0;
    'filling: while count < piece.len() {
        let grown = match source.read(&mut piece[count..]) {
            Got::Bytes(n) => {
                count += n;
                continue;
            }
            Got::End => Grown::Ended,
            Got::Failed => Grown::Failed,
        };
        return Filled { count, grown };
    }
    Filled {
        count,
        grown: Grown::Whole,
    }
}

/// Reads just that many bytes behind these, into room that is made once, unless something stops it before.
fn read_piece<S: Source>(source: &mut S, bytes: &mut Vec<u8>, most: usize) -> Grown
    requires { most ≤ PIECE_LENGTH }
    ensures no_byte_lost { Keeps (prepend_known bytes.old.items (S.held source.old))
        (prepend_known bytes.new.items (S.held source.new)) }
    ensures as_many_as_asked { result ≡ Grown.Whole → length bytes.new.items ≡ length bytes.old.items + most }
    ensures at_most_asked { length bytes.new.items ≤ length bytes.old.items + most }
    ensures never_shorter { length bytes.old.items ≤ length bytes.new.items }
    ensures left_never_rises { length bytes.new.items + S.left source.new
        ≤ length bytes.old.items + S.left source.old }
    ensures none_taken { length bytes.new.items ≡ length bytes.old.items → (result ≡ Grown.Failed → ⊥)
        → S.left source.new ≡ S.left source.old }
    ensures end { result ≡ Grown.Ended → IsAtEnd (S.held source.new) }
    ensures failed { result ≡ Grown.Failed → Rose (S.faults source.old) (S.faults source.new) }
    ensures faults_never_fall { S.faults source.old ≤ S.faults source.new }
{
    let length = bytes.len();
    if bytes.resize(length + most, 0).is_err() {
        return Grown::NoMemory;
    }
    let filled = fill_piece(source, &mut bytes[length..]);
    bytes.truncate(length + filled.count);
    filled.grown
}

/// Reads just that many bytes behind these, in pieces, unless something stops it before.
pub(crate) fn grow<S: Source>(source: &mut S, bytes: &mut Vec<u8>, count: u64) -> Grown
    ensures no_byte_lost { Keeps (prepend_known bytes.old.items (S.held source.old))
        (prepend_known bytes.new.items (S.held source.new)) }
    ensures as_many_as_asked { result ≡ Grown.Whole → length bytes.new.items ≡ length bytes.old.items + count }
    ensures at_most_asked { length bytes.new.items ≤ length bytes.old.items + count }
    ensures never_shorter { length bytes.old.items ≤ length bytes.new.items }
    ensures left_never_rises { length bytes.new.items + S.left source.new
        ≤ length bytes.old.items + S.left source.old }
    ensures none_taken { length bytes.new.items ≡ length bytes.old.items → (result ≡ Grown.Failed → ⊥)
        → S.left source.new ≡ S.left source.old }
    ensures end { result ≡ Grown.Ended → IsAtEnd (S.held source.new) }
    ensures failed { result ≡ Grown.Failed → Rose (S.faults source.old) (S.faults source.new) }
    ensures faults_never_fall { S.faults source.old ≤ S.faults source.new }
{
    let mut rest = count;
    'pieces: while rest > 0 {
        let piece = rest.min(PIECE_LENGTH as u64);
        match read_piece(source, bytes, piece as usize) {
            Grown::Whole => rest -= piece,
            stopped => return stopped,
        }
    }
    Grown::Whole
}
