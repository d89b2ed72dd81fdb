//! The synthesis of a level in 32 bits, line by line: its rows come in pairs, in rings of a few rows the steps go over
//! the columns, and a row that all have gone over is lifted across.
ghost use Rattle.std.specs.Prelude.{◌≡◌, ℕ, ℤ, List, ◌+◌, ◌-◌, ◌*◌, ◌/◌, ◌%◌, ◌<◌, ◌≤◌, length};
ghost use Rattle.std.specs.Prelude.{take, drop, unsigned_abs, IfOk};
ghost use Rattle.std.specs.List.{All};
ghost use Rattle.dirac_common.specs.Limits.{IsWavelet};
ghost use Rattle.dirac_lift.specs.AtWork.{HasGiven, IsAtWork, turns_behind};
ghost use Rattle.dirac_lift.specs.ByLines.{longest_wait};
ghost use Rattle.dirac_lift.specs.Halves.{AreHalvesOfLine, from_halves};
ghost use Rattle.dirac_lift.specs.HalfRuns.{AreNarrow};
ghost use Rattle.dirac_lift.specs.Level.{last_halved, row_in, synthesised};
ghost use Rattle.dirac_lift.specs.Rings.{RowCame, steps_to_come};
ghost use Rattle.dirac_lift.specs.Wavelets.{steps_of, synth};

use crate::half_lines::finish_half_line;
use crate::rings::{HalfSize, RING_ROWS, run_turn};
use dirac_common::{LARGEST_NARROW, LARGEST_TABLE_SIDE, Narrow, NoMemory};
use std::alloc::Global;

/// The rows of a level before its synthesis, in pairs of an even row and an odd one; in each row the even columns
/// stand before the odd ones.
pub trait RowPairs {
    ghost lawful: { Self → Type 0 };

    ghost columns: { Self → ℕ };

    ghost pairs: { Self → ℕ };

    ghost evens: { Self → List ℤ };

    ghost odds: { Self → List ℤ };

    /// Writes a pair of rows.
    fn put_pair(&self, pair: u32, even: &mut [i32], odd: &mut [i32])
        requires lawful { lawful self.now }
        requires inside { pair < pairs self.now }
        requires even { length even.old ≡ columns self.now }
        requires odd { length odd.old ≡ columns self.now }
        ensures even { even.new ≡ row_in (evens self.now) (columns self.now) pair }
        ensures odd { odd.new ≡ row_in (odds self.now) (columns self.now) pair };
}

/// A finished row of a level from its two halves, which stand one after the other and are places to work.
fn finish_row(wavelet: u8, half: usize, row: &mut [i32], line: &mut [i32])
    requires wavelet { IsWavelet wavelet }
    requires row { length row.old ≡ 2 * half }
    requires line { length line.old ≡ 2 * half }
    requires narrow { AreNarrow (steps_of wavelet) 1 half (take half row.old) (drop half row.old) }
    ensures { (whole : List ℤ) → AreHalvesOfLine 0 (take half row.old) (drop half row.old) whole
        → line.new ≡ last_halved wavelet (synth wavelet whole) }
{
    let (low, high) = row.split_at_mut(half);
    finish_half_line(wavelet, low, high, line);
}

/// The same of row `n` of a ring, which stays.
fn finish_from_ring(
    wavelet: u8,
    ring: &[i32],
    width: usize,
    n: usize,
    work: &mut [i32],
    line: &mut [i32],
)
    requires wavelet { IsWavelet wavelet }
    requires even { width % 2 ≡ 0 }
    requires ring { length ring.now ≡ width * 16 }
    requires work { length work.old ≡ width }
    requires line { length line.old ≡ width }
    requires narrow { AreNarrow (steps_of wavelet) 1 (width / 2) (take (width / 2) (row_in ring.now width (n % 16)))
        (drop (width / 2) (row_in ring.now width (n % 16))) }
    ensures { (whole : List ℤ) → AreHalvesOfLine 0 (take (width / 2) (row_in ring.now width (n % 16)))
        (drop (width / 2) (row_in ring.now width (n % 16))) whole → line.new
        ≡ last_halved wavelet (synth wavelet whole) }
{
    let start = n % RING_ROWS * width;
    work.copy_from_slice(&ring[start..start + width]);
    finish_row(wavelet, width / 2, work, line);
}

/// Puts the pair of rows of a turn into rings, if there is one.
fn take_pair<S: RowPairs>(
    source: &S,
    evens: &mut [i32],
    odds: &mut [i32],
    size: HalfSize,
    turn: usize,
)
    requires source { S.lawful source.now }
    requires columns { S.columns source.now ≡ size.width }
    requires pairs { S.pairs source.now ≡ size.half }
    requires down { size.half ≤ LARGEST_TABLE_SIDE }
    requires evens { length evens.old ≡ size.width * 16 }
    requires odds { length odds.old ≡ size.width * 16 }
    requires evens_len { length (S.evens source.now) ≡ size.width * size.half }
    requires odds_len { length (S.odds source.now) ≡ size.width * size.half }
    ensures evens { RowCame size.width size.half turn (S.evens source.now) evens.old evens.new }
    ensures odds { RowCame size.width size.half turn (S.odds source.now) odds.old odds.new }
{
    if turn >= size.half {
        return;
    }
    let start = turn % RING_ROWS * size.width;
    let end = start + size.width;
    source.put_pair(turn as u32, &mut evens[start..end], &mut odds[start..end]);
}

/// How many turns after it came a pair of rows is given: by then all steps have gone over it.
fn turns_to_wait(wavelet: u8) -> usize
    requires { IsWavelet wavelet }
    ensures value { result ≡ turns_behind wavelet }
    ensures enough { longest_wait (steps_to_come wavelet) ≤ result }
    ensures at_most_7 { result ≤ 7 }
{
    if wavelet == 5 { 7 } else { 3 }
}

/// A level at work: how many turns have been run, and the rows that are at work.
#[derive(Drop)]
pub struct LinesAtWork {
    pub wavelet: u8,
    pub size: HalfSize,
    pub turn: usize,
    pub evens: Vec<i32>,
    pub odds: Vec<i32>,
}

/// A ring whose rows have zeros.
fn ring_of_zeros(alloc: Global, width: usize) -> Result<Vec<i32>, NoMemory>
    requires { width ≤ LARGEST_TABLE_SIDE }
    ensures len { IfOk result (λ ring. length ring.items ≡ width * 16) }
    ensures at_most_4095 { IfOk result (λ ring. All (λ v. unsigned_abs v ≤ LARGEST_NARROW) ring.items) }
{
    Ok(vec![in alloc; 0i32; width * RING_ROWS]?)
}

impl LinesAtWork {
    /// A level at work, of `width` columns and as many pairs of rows as `height`, that has given none.
    pub fn begin<S: RowPairs>(
        alloc: Global,
        wavelet: u8,
        source: &S,
        width: u32,
        height: u32,
    ) -> Result<LinesAtWork, NoMemory>
        requires wavelet { IsWavelet wavelet }
        requires source { S.lawful source.now }
        requires columns { S.columns source.now ≡ width }
        requires pairs { S.pairs source.now ≡ height }
        requires across { (1 ≤ width) × (width ≤ LARGEST_TABLE_SIDE) }
        requires even { width % 2 ≡ 0 }
        requires down { (1 ≤ height) × (2 * height ≤ LARGEST_TABLE_SIDE) }
        requires evens { length (S.evens source.now) ≡ width * height }
        requires odds { length (S.odds source.now) ≡ width * height }
        requires evens_at_most_4095 { All (λ v. unsigned_abs v ≤ LARGEST_NARROW) (S.evens source.now) }
        requires odds_at_most_4095 { All (λ v. unsigned_abs v ≤ LARGEST_NARROW) (S.odds source.now) }
        ensures at_work { IfOk result (IsAtWork (S.evens source.now) (S.odds source.now)) }
        ensures given { IfOk result (HasGiven wavelet width height 0) }
    {
        let size = HalfSize {
            width: width as usize,
            half: height as usize,
        };
        let evens = ring_of_zeros(alloc, size.width)?;
        let odds = ring_of_zeros(alloc, size.width)?;
        let mut lines = LinesAtWork {
            wavelet,
            size,
            turn: 0,
            evens,
            odds,
        };
        for _turn in 0..turns_to_wait(wavelet) {
            lines.take_turn(source);
        }
        Ok(lines)
    }

    /// Runs a turn: the next pair of rows comes, if there is one, and a pair is finished.
    fn take_turn<S: RowPairs>(&mut self, source: &S)
        requires source { S.lawful source.now }
        requires columns { S.columns source.now ≡ self.old.size.width }
        requires pairs { S.pairs source.now ≡ self.old.size.half }
        requires turn { self.old.turn ≤ self.old.size.half + 7 }
        requires at_work { IsAtWork (S.evens source.now) (S.odds source.now) self.old }
        ensures at_work { IsAtWork (S.evens source.now) (S.odds source.now) self.new }
        ensures wavelet { self.new.wavelet ≡ self.old.wavelet }
        ensures size { self.new.size ≡ self.old.size }
        ensures turn { self.new.turn ≡ self.old.turn + 1 }
    {
        let evens = self.evens.as_mut_slice();
        let odds = self.odds.as_mut_slice();
        take_pair(source, evens, odds, self.size, self.turn);
        run_turn(self.wavelet, evens, odds, self.size, self.turn);
        self.turn += 1;
    }

    /// Which pair of rows the last turn has finished.
    fn finished(&self) -> usize
        requires wavelet { IsWavelet self.now.wavelet }
        requires turn { turns_behind self.now.wavelet < self.now.turn }
        ensures { result + 1 + turns_behind self.now.wavelet ≡ self.now.turn }
    {
        self.turn - 1 - turns_to_wait(self.wavelet)
    }

    /// Writes row `y`, the next one; `work` is a place to work.
    #[inline(always)]
    pub fn next_row<S: RowPairs>(&mut self, source: &S, y: u32, work: &mut [i32], line: &mut [i32])
        requires source { S.lawful source.now }
        requires columns { S.columns source.now ≡ self.old.size.width }
        requires pairs { S.pairs source.now ≡ self.old.size.half }
        requires at_work { IsAtWork (S.evens source.now) (S.odds source.now) self.old }
        requires next { self.old.turn ≡ (y + 1) / 2 + turns_behind self.old.wavelet }
        requires inside { y < 2 * self.old.size.half }
        requires work { length work.old ≡ self.old.size.width }
        requires line { length line.old ≡ self.old.size.width }
        ensures row { (k w h : ℕ) → HasGiven k w h ((y + 1) / 2) self.old → line.new
            ≡ row_in (synthesised k (from_halves w h (S.evens source.now) (S.odds source.now))).values w y }
        ensures at_work { IsAtWork (S.evens source.now) (S.odds source.now) self.new }
        ensures given { (k w h : ℕ) → HasGiven k w h ((y + 1) / 2) self.old → HasGiven k w h ((y + 2) / 2) self.new }
    {
        if y % 2 == 0 {
            self.take_turn(source);
            let n = self.finished();
            let ring = self.evens.as_slice();
            finish_from_ring(self.wavelet, ring, self.size.width, n, work, line);
        } else {
            let n = self.finished();
            let ring = self.odds.as_slice();
            finish_from_ring(self.wavelet, ring, self.size.width, n, work, line);
        }
    }
}

/// Writes all rows of a level at work.
fn put_rows<S: RowPairs>(source: &S, lines: &mut LinesAtWork, work: &mut [i32], plane: &mut Narrow)
    requires source { S.lawful source.now }
    requires columns { S.columns source.now ≡ plane.old.width }
    requires pairs { S.pairs source.now ≡ plane.old.height / 2 }
    requires pairwise { plane.old.height % 2 ≡ 0 }
    requires work { length work.old ≡ plane.old.width }
    requires at_work { IsAtWork (S.evens source.now) (S.odds source.now) lines.old }
    requires given { HasGiven lines.old.wavelet plane.old.width (plane.old.height / 2) 0 lines.old }
    ensures { plane.new ≡ synthesised lines.old.wavelet
        (from_halves plane.old.width (plane.old.height / 2) (S.evens source.now) (S.odds source.now)) }
{
    for y in 0..plane.height() {
        lines.next_row(source, y, work, plane.row_mut(y));
    }
}

/// The synthesis of one level of `width` columns from its pairs of rows, as many as `height`.
pub fn synth_level_by_lines<S: RowPairs>(
    alloc: Global,
    wavelet: u8,
    source: &S,
    width: u32,
    height: u32,
) -> Result<Narrow, NoMemory>
    requires wavelet { IsWavelet wavelet }
    requires source { S.lawful source.now }
    requires columns { S.columns source.now ≡ width }
    requires pairs { S.pairs source.now ≡ height }
    requires across { (1 ≤ width) × (width ≤ LARGEST_TABLE_SIDE) }
    requires even { width % 2 ≡ 0 }
    requires down { (1 ≤ height) × (2 * height ≤ LARGEST_TABLE_SIDE) }
    requires evens { length (S.evens source.now) ≡ width * height }
    requires odds { length (S.odds source.now) ≡ width * height }
    requires evens_at_most_4095 { All (λ v. unsigned_abs v ≤ LARGEST_NARROW) (S.evens source.now) }
    requires odds_at_most_4095 { All (λ v. unsigned_abs v ≤ LARGEST_NARROW) (S.odds source.now) }
    ensures { IfOk result (λ t. t ≡ synthesised wavelet
        (from_halves width height (S.evens source.now) (S.odds source.now))) }
{
    let mut lines = LinesAtWork::begin(alloc, wavelet, source, width, height)?;
    let mut work = vec![in alloc; 0i32; width as usize]?;
    let mut plane = Narrow::try_new(alloc, width, 2 * height, 0)?;
    put_rows(source, &mut lines, work.as_mut_slice(), &mut plane);
    Ok(plane)
}
