//! The end of a stream.

ghost use Rattle.std.specs.Prelude.{◌≡◌, ◌≤◌, Err, IfErr, OnOk};
ghost use Rattle.dirac_io.specs.Faults.{Rose};
ghost use Rattle.dirac_sequence.specs.Written.{sequence_payload};
ghost use Rattle.dirac_encode_laws.specs.Steps.{EndsEarly, IsEnded, IsFault};
ghost use Rattle.dirac_encode_progress.specs.Going.{so_far};

use crate::coder::Coder;
use crate::delivering::put_waiting;
use crate::progress::Progress;
use crate::units::put_end_units;
use dirac_encode_laws::Encoded;
use dirac_io::{Sink, Unwritten};

/// Writes what stands behind the pictures: where there is none a sequence header, then the end unit; and all pictures
/// that wait.
pub fn put_last<F, K: Sink, N: Sink>(
    coder: &Coder<F>,
    out: &mut K,
    side: &mut N,
    coding: &mut Progress,
) -> Result<(), Encoded>
    requires header { coder.now.header.now ≡ sequence_payload coder.now.settings.now }
    ensures ended { OnOk result (IsEnded coder.now.settings.now (so_far coding.old)
        (K.taken out.old) (K.taken out.new) (N.taken side.old) (N.taken side.new)) }
    ensures ends_early { EndsEarly coder.now.settings.now (so_far coding.old)
        (K.taken out.old) (K.taken out.new) (N.taken side.old) (N.taken side.new) }
    ensures stopped { IfErr result IsFault }
    ensures write_fault { result ≡ Err Encoded.WriteFault → Rose (K.faults out.old) (K.faults out.new) }
    ensures side_fault { result ≡ Err Encoded.SideFault → Rose (N.faults side.old) (N.faults side.new) }
    ensures writes { K.faults out.old ≤ K.faults out.new }
    ensures sides { N.faults side.old ≤ N.faults side.new }
{
    match put_end_units(
        out,
        coder.settings,
        coder.header,
        coding.count,
        coding.previous,
    ) {
        Ok(()) => {}
        Err(Unwritten::Failed) => return Err(Encoded::WriteFault),
        Err(Unwritten::NoMemory) => return Err(Encoded::NoMemory),
    }
    match put_waiting(side, &mut coding.delivery, &mut coding.row) {
        Ok(()) => Ok(()),
        Err(Unwritten::Failed) => Err(Encoded::SideFault),
        Err(Unwritten::NoMemory) => Err(Encoded::NoMemory),
    }
}
