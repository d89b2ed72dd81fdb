ghost use Rattle.std.specs.Prelude.{◌≡◌, ◌≤◌, ◌<◌, ◌^◌, Err, IfErr, IfOk, IfSome, OnOk, vec_len};
ghost use Rattle.std.specs.Io.KnownBytes.{IsAtEnd};
ghost use Rattle.dirac_io.specs.Faults.{Rose};
ghost use Rattle.dirac_edit.specs.Steps.{StopsReading};

use crate::answers::Edited;
use dirac_io::{Filled, Source, fill};
use std::alloc::Global;

// The most bytes that are read at once.
const READ_LENGTH: usize = 4096;

/// Takes all that a source still gives.
pub(crate) fn take_all<S: Source>(alloc: Global, source: &mut S) -> Result<Vec<u8>, Edited>
    ensures all { IfOk result (λ bytes. IfSome (S.held source.old) (λ held. bytes.items ≡ held)) }
    ensures whole { OnOk result (IsAtEnd (S.held source.new)) }
    ensures below_2_63 { IfOk result (λ bytes. vec_len bytes < 2 ^ 63) }
    ensures stopped { IfErr result StopsReading }
    ensures read { result ≡ Err Edited.ReadFault → Rose (S.faults source.old) (S.faults source.new) }
    ensures count { S.faults source.old ≤ S.faults source.new }
{
    let mut piece = [0; READ_LENGTH];
    let mut bytes = Vec::new(alloc);
    'pieces: loop {
        match fill(source, &mut piece) {
            Filled::Whole => {
                if bytes.extend_from_slice(&piece).is_err() {
                    return Err(Edited::NoMemory);
                }
            }
            Filled::Ended(n) => {
                if bytes.extend_from_slice(&piece[..n]).is_err() {
                    return Err(Edited::NoMemory);
                }
                return Ok(bytes);
            }
            Filled::Failed => return Err(Edited::ReadFault),
        }
    }
}
