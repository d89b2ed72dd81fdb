//! A stream, encoded.

ghost use Rattle.std.specs.Prelude.{◌≡◌, ◌≤◌, ◌<◌, ℕ, List, [], length, IfSome, IfOk, None};
ghost use Rattle.std.specs.Io.KnownBytes.{IsAtEnd};
ghost use Rattle.std.specs.Thread.{IsSync};
ghost use Rattle.dirac_io.specs.Faults.{Rose};
ghost use Rattle.dirac_types.specs.Settings.{IsAccepted};
ghost use Rattle.dirac_encode_laws.specs.Alike.{AreShownAlike};
ghost use Rattle.dirac_encode_laws.specs.Coding.{own_index};
ghost use Rattle.dirac_encode_laws.specs.Encoding.{AnswersEncodedStream, EncodesToTheEnd, IsRecovered};
ghost use Rattle.dirac_encode_laws.specs.Encoding.{IsRecoveredUnder, encoding};
ghost use Rattle.dirac_encode_laws.specs.Encoding.{encoding_under};
ghost use Rattle.dirac_encode_laws.specs.Fit.{rule_of};
ghost use Rattle.dirac_encode_laws.specs.Standing.{jobs_in};
ghost use Rattle.dirac_encode_progress.specs.Alone.{WritesDue, WritesFrontOfRead};
ghost use Rattle.dirac_encode_progress.specs.PictureCoding.{AreReadyBehind, IsCodedUnder, IsReadyToCode};

use crate::fitting::fit_picture;
use crate::lot::{Kept, coded_in_lot, lot_of};
use dirac_common::{NoMemory, Picture, RowGate};
use dirac_encode_laws::{Coded, Encoded, streams_show_their_pictures};
use dirac_encode_picture::code_picture;
use dirac_encode_progress::{Coder, Progress, put_pictures};
use dirac_io::{Sink, Source};
use dirac_plan::{Planned, Planner};
use dirac_refs::RefBuffer;
use dirac_sequence::write_sequence;
use dirac_sources::raw_length;
use dirac_types::Settings;
use std::alloc::Global;
use std::cell::Cell;
use std::thread::Threads;

/// Encodes raw pictures until the source ends: the stream goes to `out`, and the pictures that decoders show for it, in
/// order of display, as raw pictures to `side`. The gate changes no answer and no byte.
pub fn encode_stream<R: Threads + Sync, S: Source, K: Sink, N: Sink, G: RowGate>(
    rt: &R,
    alloc: Global,
    source: &mut S,
    out: &mut K,
    side: &mut N,
    settings: &Settings,
    gate: &G,
) -> Encoded
    requires { IsAccepted settings.now }
    // The answer, and what both sinks took, are those of the encoding; a fault or want of memory leaves a front of
    // each.
    ensures encoded { IfSome (S.held source.old) (λ bytes. AnswersEncodedStream result (encoding settings.now bytes)
        (K.taken out.old) (K.taken out.new) (N.taken side.old) (N.taken side.new)) }
    // A whole stream is decoded to what the side got, and at index 0 to the input.
    ensures recovered { IfSome (S.held source.old) (λ bytes. EncodesToTheEnd result → IsRecovered settings.now bytes) }
    // Where the settings ask for it, other decoders find in each picture what they need to show it alike.
    ensures alike { (bytes : List ℕ) → settings.now.alike ≡ 1
        → AreShownAlike own_index settings.now [] (jobs_in settings.now bytes) }
    // Whatever is answered, what was written is a front of the encoding of the bytes read by themselves.
    ensures front_of_read { IfSome (S.held source.old) (λ bytes. WritesFrontOfRead own_index settings.now bytes
        (S.held source.new) (K.taken out.old) (K.taken out.new) (N.taken side.old) (N.taken side.new)) }
    // Where a read failed, all that was due was written: of the whole pictures read no more are left than may wait.
    ensures due { result ≡ Encoded.ReadFault → IfSome (S.held source.old) (λ bytes. WritesDue
        own_index settings.now bytes (S.held source.new)
        (K.taken out.old) (K.taken out.new) (N.taken side.old) (N.taken side.new)) }
    ensures whole { result ≡ Encoded.Done → IsAtEnd (S.held source.new) }
    ensures partial { (n : ℕ) → result ≡ Encoded.PartialPicture n → (1 ≤ n) × IsAtEnd (S.held source.new) }

    // A fault of the outside comes only where its count rose in this call.
    ensures read { result ≡ Encoded.ReadFault → Rose (S.faults source.old) (S.faults source.new) }
    ensures write { result ≡ Encoded.WriteFault → Rose (K.faults out.old) (K.faults out.new) }
    ensures side { result ≡ Encoded.SideFault → Rose (N.faults side.old) (N.faults side.new) }
    ensures reads { S.faults source.old ≤ S.faults source.new }
    ensures writes { K.faults out.old ≤ K.faults out.new }
    ensures sides { N.faults side.old ≤ N.faults side.new }
{
    streams_show_their_pictures();
    encode_by(
        &StreamCoder {
            rt,
            alloc,
            settings,
            budget: None,
            gate,
        },
        source,
        out,
        side,
    )
}

/// What a stream is coded with.
#[derive(Drop)]
pub struct StreamCoder<'a, R, G> {
    pub rt: &'a R,
    pub alloc: Global,
    pub settings: &'a Settings,
    /// The most bytes of a picture's unit, where each picture gets the least quantiser index, from the settings' on, by
    /// which its unit has no more. Without a budget each has the settings' index.
    pub budget: Option<u32>,
    /// Called before each row of each stage of the search; it changes no answer and no byte.
    pub gate: &'a G,
}

/// Codes a planned picture: with the settings' index, or under a budget with the least by which its unit fits.
fn code_picture_by<R: Threads + Sync, G: RowGate>(
    coder: &StreamCoder<R, G>,
    planned: &Planned,
    source: &Picture,
    refs: &RefBuffer,
) -> Result<Coded, NoMemory>
    requires { IsReadyToCode coder.now.settings.now refs.now planned.now source.now }
    ensures { IfOk result (IsCodedUnder (rule_of coder.now.budget) coder.now.settings.now refs.now planned.now
        source.now) }
{
    let (rt, alloc, settings, gate) = (coder.rt, coder.alloc, coder.settings, coder.gate);
    match coder.budget {
        None => code_picture(rt, alloc, planned, source, refs, settings, gate),
        Some(budget) => {
            let (coded, _index) = fit_picture(
                rt, alloc, planned, source, refs, settings, budget, gate,
            )?;
            Ok(coded)
        }
    }
}

/// How many pictures are coded together; under a budget each is coded by itself.
fn lot_by<R: Threads + Sync, G: RowGate>(coder: &StreamCoder<R, G>) -> usize
    requires { IsAccepted coder.now.settings.now }
    ensures { 1 < result → coder.now.budget ≡ None }
{
    match coder.budget {
        None => lot_of(coder.settings),
        Some(_) => 1,
    }
}

/// Codes a planned picture, alone or together with those that wait behind it.
fn code_picture_or_lot<R: Threads + Sync, G: RowGate>(
    coder: &StreamCoder<R, G>,
    kept: &Kept,
    planned: &Planned,
    source: &Picture,
    refs: &RefBuffer,
    behind: &Planner,
) -> Result<Coded, NoMemory>
    requires ready { IsReadyToCode coder.now.settings.now refs.now planned.now source.now }
    requires behind { AreReadyBehind coder.now.settings.now behind.now }
    ensures { IfOk result (IsCodedUnder (rule_of coder.now.budget) coder.now.settings.now refs.now planned.now
        source.now) }
{
    let (rt, alloc, settings) = (coder.rt, coder.alloc, coder.settings);
    if lot_by(coder) > 1 {
        if let Some(coded) = coded_in_lot(rt, alloc, settings, kept, planned, source, behind) {
            return Ok(coded);
        }
    }
    code_picture_by(coder, planned, source, refs)
}

/// Encodes raw pictures until the source ends: the stream goes to `out`, and the pictures that decoders show for it, in
/// order of display, as raw pictures to `side`.
pub fn encode_by<R: Threads + Sync, S: Source, K: Sink, N: Sink, G: RowGate>(
    coder: &StreamCoder<R, G>,
    source: &mut S,
    out: &mut K,
    side: &mut N,
) -> Encoded
    requires { IsAccepted coder.now.settings.now }
    // The answer, and what both sinks took, are those of the encoding under the rule of the budget.
    ensures encoded { IfSome (S.held source.old) (λ bytes. AnswersEncodedStream result
        (encoding_under (rule_of coder.now.budget) coder.now.settings.now bytes)
        (K.taken out.old) (K.taken out.new) (N.taken side.old) (N.taken side.new)) }
    // A whole stream is decoded to what the side got, and with index 0 for all pictures to the input.
    ensures recovered { IfSome (S.held source.old) (λ bytes.
        EncodesToTheEnd result → IsRecoveredUnder (rule_of coder.now.budget) coder.now.settings.now bytes) }
    // Whatever is answered, what was written is a front of the encoding of the bytes read by themselves.
    ensures front_of_read { IfSome (S.held source.old) (λ bytes. WritesFrontOfRead
        (rule_of coder.now.budget) coder.now.settings.now bytes (S.held source.new)
        (K.taken out.old) (K.taken out.new) (N.taken side.old) (N.taken side.new)) }
    // Where a read failed, all that was due was written: of the whole pictures read no more are left than may wait.
    ensures due { result ≡ Encoded.ReadFault → IfSome (S.held source.old) (λ bytes. WritesDue
        (rule_of coder.now.budget) coder.now.settings.now bytes (S.held source.new)
        (K.taken out.old) (K.taken out.new) (N.taken side.old) (N.taken side.new)) }
    ensures whole { result ≡ Encoded.Done → IsAtEnd (S.held source.new) }
    ensures partial { (n : ℕ) → result ≡ Encoded.PartialPicture n → (1 ≤ n) × IsAtEnd (S.held source.new) }
    ensures read { result ≡ Encoded.ReadFault → Rose (S.faults source.old) (S.faults source.new) }
    ensures write { result ≡ Encoded.WriteFault → Rose (K.faults out.old) (K.faults out.new) }
    ensures side { result ≡ Encoded.SideFault → Rose (N.faults side.old) (N.faults side.new) }
    ensures reads { S.faults source.old ≤ S.faults source.new }
    ensures writes { K.faults out.old ≤ K.faults out.new }
    ensures sides { N.faults side.old ≤ N.faults side.new }
{
    let alloc = coder.alloc;
    let settings = coder.settings;
    let Ok(header) = write_sequence(alloc, settings) else {
        return Encoded::NoMemory;
    };
    let Ok(mut bytes) = blank(alloc, raw_length(settings)) else {
        return Encoded::NoMemory;
    };
    let Ok(mut planner) = Planner::try_new(alloc, settings) else {
        return Encoded::NoMemory;
    };
    let kept = Cell::new(None);
    let code = |planned: &Planned, source: &Picture, refs: &RefBuffer, behind: &Planner| -> Result<
        Coded,
        NoMemory,
    >
        requires { IsSync R.row × IsSync G.row
            × IsReadyToCode coder.now.settings.now refs.now planned.now source.now
            × AreReadyBehind coder.now.settings.now behind.now }
        ensures { IfOk result (IsCodedUnder (rule_of coder.entry.now.budget) coder.entry.now.settings.now
            refs.now planned.now source.now) }
    { code_picture_or_lot(coder, &kept, planned, source, refs, behind) };
    let coder = Coder {
        alloc,
        settings,
        header: header.as_slice(),
        budget: coder.budget,
        lot: lot_by(coder),
        code: &code,
    };
    let mut coding = Progress::new(alloc);
    put_pictures(
        &coder,
        source,
        out,
        side,
        &mut planner,
        &mut coding,
        bytes.as_mut_slice(),
    )
}

/// So many bytes.
fn blank(alloc: Global, count: usize) -> Result<Vec<u8>, NoMemory>
    ensures { IfOk result (λ v. length v.items ≡ count) }
{
    Ok(vec![in alloc; 0; count]?)
}
