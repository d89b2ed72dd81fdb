//! Raw pictures, read one after another and coded as they are planned.

ghost use Rattle.std.specs.Prelude.{◌≡◌, ◌≤◌, ◌<◌, ◌^◌, ℕ, length, IfSome, OnOk, false};
ghost use Rattle.std.specs.List.{AllByRecursion};
ghost use Rattle.std.specs.Io.KnownBytes.{IsAtEnd};
ghost use Rattle.dirac_io.specs.Faults.{Rose};
ghost use Rattle.dirac_types.specs.Settings.{IsAccepted};
ghost use Rattle.dirac_sequence.specs.Written.{sequence_payload};
ghost use Rattle.dirac_sources.specs.Sources.{picture_from, raw_length as length_of};
ghost use Rattle.dirac_plan.specs.Planning.{empty_planning, is_closed, with_picture};
ghost use Rattle.dirac_encode_laws.specs.Coded.{IsSource};
ghost use Rattle.dirac_encode_laws.specs.Encoding.{AnswersEncodedStream, EncodesToTheEnd, IsRecoveredUnder};
ghost use Rattle.dirac_encode_laws.specs.Encoding.{answer_behind, encoding_under};
ghost use Rattle.dirac_encode_laws.specs.Fit.{rule_of};
ghost use Rattle.dirac_encode_laws.specs.Steps.{no_progress};
ghost use Rattle.dirac_encode_progress.specs.Alone.{WritesDue, WritesFrontOfRead};
ghost use Rattle.dirac_encode_progress.specs.Going.{so_far};
ghost use Rattle.dirac_encode_progress.specs.PictureCoding.{CodesUnder};

use crate::coder::Coder;
use crate::planned::put_planned;
use crate::progress::Progress;
use crate::rest::put_rest;
use dirac_common::{NoMemory, Picture};
use dirac_encode_laws::{Coded, Encoded, streams_show_their_pictures};
use dirac_io::{Filled, Sink, Source, fill};
use dirac_plan::{Planned, Planner};
use dirac_plan_laws::plans_can_be_coded;
use dirac_refs::RefBuffer;
use dirac_sources::picture_of;

/// Bytes are below 256.
fn are_bytes(bytes: &[u8])
    ensures { AllByRecursion (λ b. b < 2 ^ 8) bytes.now }
{}

/// Hands the raw picture in `bytes` to a planner that takes one more.
fn push_raw<F>(coder: &Coder<F>, planner: &mut Planner, bytes: &[u8]) -> Result<(), NoMemory>
    requires accepted { IsAccepted coder.now.settings.now }
    requires bytes { length bytes.now ≡ length_of coder.now.settings.now }
    requires in_range { planner.old.accepted < coder.now.settings.now.pictures }
    requires not_ended { planner.old.ended ≡ false }
    requires opened { is_closed planner.old ≡ false }
    ensures pushed { OnOk result (planner.new ≡ with_picture planner.old
        (picture_from coder.now.settings.now planner.old.accepted bytes.now)) }
    ensures source { OnOk result (IsSource coder.now.settings.now
        (picture_from coder.now.settings.now planner.old.accepted bytes.now)) }
    ensures below_256 { AllByRecursion (λ b. b < 2 ^ 8) bytes.now }
{
    are_bytes(bytes);
    let number = planner.accepted();
    let picture = picture_of(coder.alloc, coder.settings, number, bytes)?;
    let Ok(()) = planner.push(picture) else {
        unreachable!();
    };
    Ok(())
}

/// The answer where that many bytes are left over whole pictures.
fn behind_whole(left_over: usize) -> Encoded
    ensures value { result ≡ answer_behind left_over }
    ensures ends { EncodesToTheEnd result }
{
    if left_over == 0 {
        Encoded::Done
    } else {
        Encoded::PartialPicture(left_over as u64)
    }
}

/// Codes pictures until the source ends; `bytes` is a buffer for a raw picture, whatever it holds.
pub fn put_pictures<
    F: Fn(&Planned, &Picture, &RefBuffer, &Planner) -> Result<Coded, NoMemory>,
    S: Source,
    K: Sink,
    N: Sink,
>(
    coder: &Coder<F>,
    source: &mut S,
    out: &mut K,
    side: &mut N,
    planner: &mut Planner,
    coding: &mut Progress,
    bytes: &mut [u8],
) -> Encoded
    requires codes { CodesUnder (rule_of coder.now.budget) coder.now.settings.now (F.pre coder.now.code.now)
        (F.post coder.now.code.now) }
    requires accepted { IsAccepted coder.now.settings.now }
    requires header { coder.now.header.now ≡ sequence_payload coder.now.settings.now }
    requires bytes { length bytes.old ≡ length_of coder.now.settings.now }
    requires planner { planner.old ≡ empty_planning coder.now.settings.now }
    requires coding { so_far coding.old ≡ no_progress }
    ensures encoded { IfSome (S.held source.old) (λ held. AnswersEncodedStream result
        (encoding_under (rule_of coder.now.budget) coder.now.settings.now held)
        (K.taken out.old) (K.taken out.new) (N.taken side.old) (N.taken side.new)) }
    ensures recovered { IfSome (S.held source.old) (λ held.
        EncodesToTheEnd result → IsRecoveredUnder (rule_of coder.now.budget) coder.now.settings.now held) }
    // Whatever is answered, what was written is a front of the encoding of the bytes read by themselves.
    ensures front_of_read { IfSome (S.held source.old) (λ held. WritesFrontOfRead
        (rule_of coder.now.budget) coder.now.settings.now held (S.held source.new)
        (K.taken out.old) (K.taken out.new) (N.taken side.old) (N.taken side.new)) }
    // Where a read failed, all that was due was written: of the whole pictures read no more are left than may wait, and
    // none that the planner gives while more may come; where no more may come, none.
    ensures due { result ≡ Encoded.ReadFault → IfSome (S.held source.old) (λ held. WritesDue
        (rule_of coder.now.budget) coder.now.settings.now held (S.held source.new)
        (K.taken out.old) (K.taken out.new) (N.taken side.old) (N.taken side.new)) }
    ensures whole { result ≡ Encoded.Done → IsAtEnd (S.held source.new) }
    ensures partial { (n : ℕ) → result ≡ Encoded.PartialPicture n → (1 ≤ n) × IsAtEnd (S.held source.new) }
    ensures read { result ≡ Encoded.ReadFault → Rose (S.faults source.old) (S.faults source.new) }
    ensures write { result ≡ Encoded.WriteFault → Rose (K.faults out.old) (K.faults out.new) }
    ensures side { result ≡ Encoded.SideFault → Rose (N.faults side.old) (N.faults side.new) }
    ensures reads { S.faults source.old ≤ S.faults source.new }
    ensures writes { K.faults out.old ≤ K.faults out.new }
    ensures sides { N.faults side.old ≤ N.faults side.new }
{
    plans_can_be_coded();
    streams_show_their_pictures();
    let settings = coder.settings;
    'pictures: loop {
        let number = planner.accepted();
        match fill(source, bytes) {
            // What waits only for others of its lot is due all the same; where no more may come, all that is left.
            Filled::Failed => {
                let full = number == settings.pictures;
                if let Err(answer) = put_planned(coder, out, side, planner, full, 0, coding) {
                    return answer;
                }
                return Encoded::ReadFault;
            }
            Filled::Ended(n) => {
                return put_rest(coder, out, side, planner, coding, behind_whole(n));
            }
            Filled::Whole => {}
        }
        if number == settings.pictures {
            return put_rest(coder, out, side, planner, coding, Encoded::TooManyPictures);
        }
        let Ok(()) = push_raw(coder, planner, bytes) else {
            return Encoded::NoMemory;
        };
        if let Err(answer) = put_planned(coder, out, side, planner, false, coder.lot, coding) {
            return answer;
        }
    }
}
