ghost use Rattle.std.specs.Prelude.{◌≡◌, ◌≤◌, IfOk, IfErr, OnOk, string_bytes};
ghost use Rattle.dirac_io.specs.Faults.{Rose};
ghost use Rattle.dirac_types.specs.Settings.{IsAccepted};
ghost use Rattle.dirac_encode_laws.specs.declared.answers.Encoded.TheVariants as encoded;
ghost use Rattle.dirac_encode_commands.specs.Delivered.{DeliversShown};
ghost use Rattle.dirac_encode_commands.specs.Making.{AnswersMake, AnswersUnmade, make_line_with, made_line};
ghost use Rattle.dirac_encode_commands.specs.Making.{making};

use dirac_command_line::Ended;
use dirac_common::{NoMemory, RowGate};
use dirac_encode::{Encoded, encode_stream};
use dirac_generator::{Generator, KeptBytes, exact_pictures, picture_length};
use dirac_io::{Put, Sink, put_all};
use dirac_plan_laws::plans_can_be_coded;
use dirac_types::Settings;
use std::alloc::Global;
use std::thread::Threads;

/// Makes and encodes the first generated pictures, `count` of them, in memory, and writes one line of what came of it.
pub fn make<R: Threads + Sync, K: Sink, G: RowGate>(
    rt: &R,
    alloc: Global,
    settings: &Settings,
    count: u32,
    out: &mut K,
    gate: &G,
) -> Ended
    requires accepted { IsAccepted settings.now }
    requires count { count ≤ 1000 }
    ensures made { AnswersMake result settings.now count (K.taken out.old) (K.taken out.new) }
    // What is delivered beside the stream, and counted where it is exact, is just what the stream shows.
    ensures shows { result ≡ Ended.Done → DeliversShown (making settings.now count) }
    ensures write { result ≡ Ended.WriteFault → Rose (K.faults out.old) (K.faults out.new) }
    ensures writes { K.faults out.old ≤ K.faults out.new }
{
    match line_of_made(rt, alloc, settings, count, gate) {
        Ok(line) => match put_all(out, line.as_bytes()) {
            Put::All => Ended::Done,
            Put::Failed => Ended::WriteFault,
            Put::NoMemory => Ended::NoMemory,
        },
        Err(why) => why,
    }
}

// Makes and encodes the first generated pictures, `count` of them: the line of what came of it, or why there is none.
fn line_of_made<R: Threads + Sync, G: RowGate>(
    rt: &R,
    alloc: Global,
    settings: &Settings,
    count: u32,
    gate: &G,
) -> Result<String, Ended>
    requires accepted { IsAccepted settings.now }
    requires count { count ≤ 1000 }
    ensures coded { OnOk result ((making settings.now count).answer ≡ encoded.Done) }
    ensures line { IfOk result (λ line. string_bytes line ≡ made_line settings.now count) }
    ensures shows { OnOk result (DeliversShown (making settings.now count)) }
    ensures unmade { IfErr result (λ why. AnswersUnmade why settings.now count) }
{
    plans_can_be_coded();
    let mut source = Generator::try_new(alloc, settings, count)?;
    let mut stream = KeptBytes::new(alloc);
    let mut shown = KeptBytes::new(alloc);
    match encode_stream(
        rt,
        alloc,
        &mut source,
        &mut stream,
        &mut shown,
        settings,
        gate,
    ) {
        Encoded::Done => {
            let exact = exact_pictures(alloc, settings, count, shown.as_slice())?;
            let raw = count as u64 * picture_length(settings) as u64;
            Ok(line_of(alloc, count, stream.as_slice().len(), raw, exact)?)
        }
        Encoded::UnitTooLong(number) => Err(Ended::UnitTooLong(number)),
        Encoded::TooManyPictures => Err(Ended::TooManyPictures),
        Encoded::NoMemory => Err(Ended::NoMemory),
        // The generator gives whole pictures, and neither it nor memory ever fails.
        Encoded::PartialPicture(_) => unreachable!(),
        Encoded::ReadFault => unreachable!(),
        Encoded::WriteFault => unreachable!(),
        Encoded::SideFault => unreachable!(),
    }
}

/// The line of these numbers.
fn line_of(
    alloc: Global,
    pictures: u32,
    stream: usize,
    raw: u64,
    exact: u32,
) -> Result<String, NoMemory>
    ensures { IfOk result (λ line. string_bytes line ≡ make_line_with pictures stream raw exact) }
{
    Ok(format!(in alloc; "pictures={pictures} stream={stream} raw={raw} exact={exact}\n")?)
}
