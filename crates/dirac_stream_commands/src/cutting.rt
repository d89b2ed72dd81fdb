ghost use Rattle.std.specs.Prelude.{◌≡◌, ◌≤◌};
ghost use Rattle.dirac_io.specs.Faults.{Rose};
ghost use Rattle.dirac_stream_commands.specs.Cutting.{Cuts, IfUnwrittenBy, IsCutAnswer, ended_of_edit};

use dirac_command_line::Ended;
use dirac_edit::{Edited, cut_stream};
use dirac_io::{Sink, Source};
use std::alloc::Global;

/// Writes a part of a stream, from one point up to, and without, another, or to its end.
pub fn cut<S: Source, K: Sink>(
    alloc: Global,
    source: &mut S,
    out: &mut K,
    from: u64,
    to: Option<u64>,
) -> Ended
    ensures answer { IsCutAnswer result }
    ensures cut { Cuts from to (S.held source.old) (S.held source.new) (K.taken out.old) (K.taken out.new) result }
    ensures untouched { IfUnwrittenBy result (out.new ≡ out.old) }
    ensures read { result ≡ Ended.ReadFault → Rose (S.faults source.old) (S.faults source.new) }
    ensures write { result ≡ Ended.WriteFault → Rose (K.faults out.old) (K.faults out.new) }
    ensures reads { S.faults source.old ≤ S.faults source.new }
    ensures writes { K.faults out.old ≤ K.faults out.new }
{
    let edited = cut_stream(alloc, source, out, from, to);
    ended_of(edited)
}

/// How a run ends that edits a stream.
pub(crate) fn ended_of(edited: Edited) -> Ended
    ensures { result ≡ ended_of_edit edited }
{
    match edited {
        Edited::Done => Ended::Done,
        Edited::Fault(fault) => Ended::Fault(fault),
        Edited::NoSuchPoint(n) => Ended::NoSuchPoint(n),
        Edited::OpenCut(n) => Ended::OpenCut(n),
        Edited::ReadFault => Ended::ReadFault,
        Edited::WriteFault => Ended::WriteFault,
        Edited::NoMemory => Ended::NoMemory,
    }
}
