ghost use Rattle.std.specs.Prelude.{◌≡◌, ◌≤◌};
ghost use Rattle.dirac_io.specs.Faults.{Rose};
ghost use Rattle.dirac_stream_commands.specs.Cutting.{IfUnwrittenBy};
ghost use Rattle.dirac_stream_commands.specs.Joining.{IsJoinAnswer, Joins};

use crate::cutting::ended_of;
use dirac_command_line::Ended;
use dirac_edit::join_stream;
use dirac_io::{Sink, Source};
use std::alloc::Global;

/// Writes the sequences of a stream joined, where their headers are equal and their keys leave room.
pub fn join<S: Source, K: Sink>(alloc: Global, source: &mut S, out: &mut K) -> Ended
    ensures answer { IsJoinAnswer result }
    ensures joined { Joins (S.held source.old) (S.held source.new) (K.taken out.old) (K.taken out.new) result }
    ensures untouched { IfUnwrittenBy result (out.new ≡ out.old) }
    ensures read { result ≡ Ended.ReadFault → Rose (S.faults source.old) (S.faults source.new) }
    ensures write { result ≡ Ended.WriteFault → Rose (K.faults out.old) (K.faults out.new) }
    ensures reads { S.faults source.old ≤ S.faults source.new }
    ensures writes { K.faults out.old ≤ K.faults out.new }
{
    let edited = join_stream(alloc, source, out);
    ended_of(edited)
}
