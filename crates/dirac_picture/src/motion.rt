ghost use Rattle.std.specs.Prelude.{◌≡◌, ◌≤◌, length, IfOk, IfErr, IsTrue, false};
ghost use Rattle.dirac_bits.specs.Syntax.{read};
ghost use Rattle.dirac_bits.specs.Answers.{ReadsOrStops, IsEarly};
ghost use Rattle.dirac_sequence_header.specs.Lawful.{IsSequence};
ghost use Rattle.dirac_picture.specs.Grammar as grammar;
ghost use Rattle.dirac_picture.specs.Fits.{HasMotion, IsMotion};

use crate::coded::CodedMotion;
use dirac_bits::BitReader;
use dirac_blocks::read_blocks;
use dirac_common::{LARGEST_SIDE, MOST_SUPERBLOCKS, Stop, is_intra, references};
use dirac_header::read_prediction;
use dirac_sequence_header::Sequence;
use std::alloc::Global;

/// How many superblocks cover that many luma samples, each four block separations long.
pub fn superblocks_over(size: u32, separation: u32) -> u32
    requires at_least_1 { 1 ≤ size }
    requires at_most_4096 { size ≤ LARGEST_SIDE }
    requires separation_at_least_1 { 1 ≤ separation }
    requires separation_at_most_64 { separation ≤ 64 }
    ensures value { result ≡ grammar.superblocks_over size separation }
    ensures at_least_1_result { 1 ≤ result }
    ensures at_most_1024 { result ≤ MOST_SUPERBLOCKS }
{
    (size + 4 * separation - 1) / (4 * separation)
}

/// Reads the prediction parameters and the block table of an inter picture.
#[tactic(auto, unfolding(crate::specs::Grammar::prediction_fields), using(dirac_bits::specs::Then::read_then))]
fn read_prediction_fields(
    alloc: Global,
    r: &mut BitReader<'_>,
    code: u8,
    sequence: &Sequence,
) -> Result<CodedMotion, Stop>
    requires code { IsTrue (grammar.is_picture code) }
    requires inter { grammar.is_intra code ≡ false }
    requires sequence { IsSequence sequence.now }
    ensures value { ReadsOrStops result r.new (read (grammar.prediction_fields code sequence.now) r.old) }
    ensures place_inside { IfErr result (IsEarly (length r.old.bytes)) }
    ensures kept { r.new.bytes ≡ r.old.bytes }
    ensures fits { IfOk result (IsMotion code sequence.now) }
{
    let prediction = read_prediction(r, code, sequence.chroma)?;
    let across = superblocks_over(sequence.width, prediction.grid.xbsep);
    let down = superblocks_over(sequence.picture_height(), prediction.grid.ybsep);
    let blocks = read_blocks(alloc, r, across, down, references(code))?;
    Ok(CodedMotion { prediction, blocks })
}

/// Reads what a picture is predicted from, where it is an inter picture.
#[tactic(auto, unfolding(crate::specs::Grammar::motion), using(dirac_bits::specs::Then::read_then))]
pub fn read_motion(
    alloc: Global,
    r: &mut BitReader<'_>,
    code: u8,
    sequence: &Sequence,
) -> Result<Option<CodedMotion>, Stop>
    requires code { IsTrue (grammar.is_picture code) }
    requires sequence { IsSequence sequence.now }
    ensures value { ReadsOrStops result r.new (read (grammar.motion code sequence.now) r.old) }
    ensures place_inside { IfErr result (IsEarly (length r.old.bytes)) }
    ensures kept { r.new.bytes ≡ r.old.bytes }
    ensures fits { IfOk result (HasMotion code sequence.now) }
{
    if is_intra(code) {
        return Ok(None);
    }
    let motion = read_prediction_fields(alloc, r, code, sequence)?;
    Ok(Some(motion))
}
