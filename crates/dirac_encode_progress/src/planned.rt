//! All pictures that a planner gives, coded.

ghost use Rattle.std.specs.Prelude.{◌≡◌, ◌+◌, ◌≤◌, length, Ok, Err, IfErr, OnOk, true, false};
ghost use Rattle.dirac_io.specs.Faults.{Rose};
ghost use Rattle.dirac_types.specs.Settings.{IsAccepted};
ghost use Rattle.dirac_sequence.specs.Written.{sequence_payload};
ghost use Rattle.dirac_plan.specs.Planning.{gives_none, is_closed, waiting_places};
ghost use Rattle.dirac_encode_laws.specs.Fit.{rule_of};
ghost use Rattle.dirac_encode_laws.specs.Steps.{StopsCoding};
ghost use Rattle.dirac_encode_progress.specs.Going.{LeadsOn, PlanIsListed, Stops, so_far};
ghost use Rattle.dirac_encode_progress.specs.PictureCoding.{CodesUnder};

use crate::coder::Coder;
use crate::progress::Progress;
use crate::source::put_source;
use dirac_common::{NoMemory, Picture};
use dirac_encode_laws::{Coded, Encoded};
use dirac_io::Sink;
use dirac_plan::{Planned, Planner};
use dirac_plan_laws::plans_can_be_coded;
use dirac_refs::RefBuffer;

/// Codes all pictures that can be coded by now; where the pictures have ended, all that are left. Where fewer than
/// `least` wait and the next one will be accepted, none is coded.
pub(crate) fn put_planned<
    F: Fn(&Planned, &Picture, &RefBuffer, &Planner) -> Result<Coded, NoMemory>,
    K: Sink,
    N: Sink,
>(
    coder: &Coder<F>,
    out: &mut K,
    side: &mut N,
    planner: &mut Planner,
    ended: bool,
    least: usize,
    coding: &mut Progress,
) -> Result<(), Encoded>
    requires codes { CodesUnder (rule_of coder.now.budget) coder.now.settings.now (F.pre coder.now.code.now)
        (F.post coder.now.code.now) }
    requires accepted { IsAccepted coder.now.settings.now }
    requires header { coder.now.header.now ≡ sequence_payload coder.now.settings.now }
    requires settings { planner.old.settings ≡ coder.now.settings.now }
    requires ended { planner.old.ended ≡ true → ended ≡ true }
    requires least { ended ≡ true → least ≡ 0 }
    requires lists { PlanIsListed coder.now.settings.now ended planner.old (so_far coding.old) }
    ensures lists { OnOk result (PlanIsListed coder.now.settings.now ended planner.new (so_far coding.new)) }
    ensures led { OnOk result (LeadsOn (rule_of coder.now.budget) coder.now.settings.now ended planner.old planner.new
        (so_far coding.old) (so_far coding.new)
        (K.taken out.old) (K.taken out.new) (N.taken side.old) (N.taken side.new)) }
    // Where none waits for others, no other picture can be coded by now. Once the pictures have ended, all that were
    // accepted are coded; else the next one will be accepted.
    ensures none_due { OnOk result (least ≡ 0 → gives_none planner.new ended ≡ true) }
    ensures all_given { OnOk result (ended ≡ true → planner.new.given ≡ planner.new.accepted) }
    ensures opened { OnOk result (ended ≡ false → is_closed planner.new ≡ false) }
    ensures counts { OnOk result (planner.new.accepted ≡ planner.new.given + length planner.new.waiting) }
    ensures waiting_fit { OnOk result (length planner.new.waiting ≤ waiting_places planner.new.settings) }
    ensures told { OnOk result (planner.new.ended ≡ ended) }
    ensures accepted { planner.new.accepted ≡ planner.old.accepted }
    ensures settings { planner.new.settings ≡ coder.now.settings.now }
    ensures stopped { IfErr result (λ answer. Stops (rule_of coder.now.budget) coder.now.settings.now ended planner.old
        (so_far coding.old) answer (K.taken out.old) (K.taken out.new) (N.taken side.old) (N.taken side.new)) }
    ensures stops { IfErr result StopsCoding }
    ensures write_fault { result ≡ Err Encoded.WriteFault → Rose (K.faults out.old) (K.faults out.new) }
    ensures side_fault { result ≡ Err Encoded.SideFault → Rose (N.faults side.old) (N.faults side.new) }
    ensures writes { K.faults out.old ≤ K.faults out.new }
    ensures sides { N.faults side.old ≤ N.faults side.new }
{
    let waiting = planner.waiting();
    if waiting < least && !planner.is_closed() {
        return Ok(());
    }
    plans_can_be_coded();
    'planned: while let Some((planned, source)) = planner.take(ended) {
        if let Err(answer) = put_source(coder, out, side, &planned, &source, planner, coding) {
            return Err(answer);
        }
    }
    Ok(())
}
