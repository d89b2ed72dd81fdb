//! What is left when the raw pictures have ended, coded, and the end of the stream.

ghost use Rattle.std.specs.Prelude.{◌≡◌, ◌≤◌, true};
ghost use Rattle.dirac_io.specs.Faults.{Rose};
ghost use Rattle.dirac_types.specs.Settings.{IsAccepted};
ghost use Rattle.dirac_sequence.specs.Written.{sequence_payload};
ghost use Rattle.dirac_encode_laws.specs.Encoding.{EncodesToTheEnd};
ghost use Rattle.dirac_encode_laws.specs.Fit.{rule_of};
ghost use Rattle.dirac_encode_progress.specs.Going.{PlanIsListed, so_far};
ghost use Rattle.dirac_encode_progress.specs.PictureCoding.{CodesUnder};
ghost use Rattle.dirac_encode_progress.specs.Rest.{EndsRest};

use crate::coder::Coder;
use crate::ending::put_last;
use crate::planned::put_planned;
use crate::progress::Progress;
use dirac_common::{NoMemory, Picture};
use dirac_encode_laws::{Coded, Encoded};
use dirac_io::Sink;
use dirac_plan::{Planned, Planner};
use dirac_refs::RefBuffer;

/// Codes all pictures that wait and ends the stream. Where nothing stops it, it answers `behind`.
pub(crate) fn put_rest<
    F: Fn(&Planned, &Picture, &RefBuffer, &Planner) -> Result<Coded, NoMemory>,
    K: Sink,
    N: Sink,
>(
    coder: &Coder<F>,
    out: &mut K,
    side: &mut N,
    planner: &mut Planner,
    coding: &mut Progress,
    behind: Encoded,
) -> Encoded
    requires accepted { IsAccepted coder.now.settings.now }
    requires header { coder.now.header.now ≡ sequence_payload coder.now.settings.now }
    requires codes { CodesUnder (rule_of coder.now.budget) coder.now.settings.now (F.pre coder.now.code.now)
        (F.post coder.now.code.now) }
    requires settings { planner.old.settings ≡ coder.now.settings.now }
    requires lists { PlanIsListed coder.now.settings.now true planner.old (so_far coding.old) }
    requires behind { EncodesToTheEnd behind }
    ensures ends { EndsRest (rule_of coder.now.budget) coder.now.settings.now planner.old (so_far coding.old)
        behind result (K.taken out.old) (K.taken out.new) (N.taken side.old) (N.taken side.new) }
    ensures write { result ≡ Encoded.WriteFault → Rose (K.faults out.old) (K.faults out.new) }
    ensures side { result ≡ Encoded.SideFault → Rose (N.faults side.old) (N.faults side.new) }
    ensures writes { K.faults out.old ≤ K.faults out.new }
    ensures sides { N.faults side.old ≤ N.faults side.new }
{
    if let Err(answer) = put_planned(coder, out, side, planner, true, 0, coding) {
        return answer;
    }
    if let Err(fault) = put_last(coder, out, side, coding) {
        return fault;
    }
    behind
}
