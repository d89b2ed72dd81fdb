ghost use Rattle.std.specs.Prelude.{◌≡◌, ℕ, pos, ◌+◌, ◌-◌, ◌*◌, ◌/◌, ◌%◌, ◌^◌, ◌<◌, ◌≤◌, unsigned_abs, length};
ghost use Rattle.std.specs.Prelude.{min, slice_index, slice_index_or, IsTrue, true};
ghost use Rattle.std.specs.List.{All};
ghost use Rattle.dirac_block_table.specs.Tables.{block_at};
ghost use Rattle.dirac_obmc.specs.Adding.{Adds, PutWeights};
ghost use Rattle.dirac_obmc.specs.Blending.{IsBlending};
ghost use Rattle.dirac_obmc.specs.Compensation.{IsCompensation, blocks_across, blocks_down, predicted_at, signed_total};
ghost use Rattle.dirac_obmc.specs.Compensation.{y_length};
ghost use Rattle.dirac_obmc.specs.Directions.{IsAcross, IsSoundCompensation, IsWeights};
ghost use Rattle.dirac_obmc.specs.Given.{compensation_of};
ghost use Rattle.dirac_obmc.specs.Strips.{AreRunParts, AreValues, HasAllSums, IsLines, IsPartOfRun, IsRoomForRows};
ghost use Rattle.dirac_obmc.specs.Strips.{IsRun, IsSpan, added_at};
ghost use Rattle.dirac_obmc.specs.Strips.{run_added_at, run_share};
ghost use Rattle.dirac_obmc.specs.Weights.{IsOverlap, block_margin};

use crate::direction::Direction;
use crate::motion::Motion;
use crate::room::{BlockRoom, MOST_COLUMNS};
use crate::sums::{Weighed, add_values, divide_sums};
use crate::values::{Window, block_front};
use dirac_block_table::Block;
use dirac_common::{LARGEST_SIDE, Vector};

/// The blocks of a plane from left to right, with the weights of each.
#[derive(Clone, Copy)]
pub struct Columns<'a> {
    pub blocks: Direction,
    pub weights: &'a [u8],
}

/// The blocks of a plane from top to bottom, with the weights of each, and which rows of the plane are predicted:
/// `first` to `end - 1`.
#[derive(Clone, Copy)]
pub struct Lines<'a> {
    pub blocks: Direction,
    pub weights: &'a [u8],
    pub first: u32,
    pub end: u32,
}

/// Places `start` to `end - 1` along a direction, which a block holds; the weight of the first stands at place
/// `weights` of the list.
#[derive(Clone, Copy)]
pub struct Span {
    pub start: u32,
    pub end: u32,
    pub weights: u32,
}

/// So many blocks from block `i` of row `j` on, all alike.
#[derive(Clone, Copy)]
pub struct Run {
    pub i: u32,
    pub count: u32,
    pub j: u32,
}

/// What a run of blocks predicts in the columns from `left` to `right - 1`, in each of which its blocks have a weight
/// together, and in the rows of `down`: `width` values for each row.
#[derive(Clone, Copy)]
pub struct Part<'a> {
    pub run: Run,
    pub left: u32,
    pub right: u32,
    pub weights: &'a [u8],
    pub down: Span,
    pub values: &'a [i16],
    pub width: usize,
}

/// The places from `least` to `most - 1` that a block holds.
fn held(blocks: Direction, block: u32, least: u32, most: u32) -> Span
    requires overlap { IsOverlap blocks.length blocks.separation }
    requires block { block < blocks.count }
    requires count { blocks.count ≤ LARGEST_SIDE }
    requires least { least ≤ LARGEST_SIDE }
    ensures { IsSpan block blocks.count blocks.length blocks.separation least most result }
{
    let margin = (blocks.length - blocks.separation) / 2;
    let begin = block * blocks.separation;
    let start = begin.saturating_sub(margin).max(least);
    let end = (begin + blocks.length - margin).min(most);
    Span {
        start,
        end,
        weights: block * blocks.length + (start + margin - begin),
    }
}

fn clear_weights(out: &mut [u8])
    ensures { (k : ℕ) → slice_index out.new k ≡ 0 }
{
    for k in 0..out.len() {
        out[k] = 0;
    }
}

/// Writes the weight 8 over `count` weights from place `at` on.
#[inline(always)]
fn put_eights(out: &mut [u8], at: usize, count: usize)
    requires { at + count ≤ length out.old }
    ensures { PutWeights at count (λ k. 8) out.old out.new }
{
    for k in 0..count {
        out[at + k] = 8;
    }
}

/// Writes `count` weights of a list, from place `first` on, over those of another one from place `at` on.
#[inline(always)]
fn copy_weights(weights: &[u8], first: usize, out: &mut [u8], at: usize, count: usize)
    requires listed { first + count ≤ length weights.now }
    requires inside { at + count ≤ length out.old }
    ensures { PutWeights at count (λ k. slice_index weights.now (first + k)) out.old out.new }
{
    for k in 0..count {
        out[at + k] = weights[first + k];
    }
}

/// Where the weight of a block at a place stands in the list of all weights.
fn listed_at(blocks: Direction, block: u32, place: u32) -> usize
    requires overlap { IsOverlap blocks.length blocks.separation }
    requires block { block < blocks.count }
    requires count { blocks.count ≤ LARGEST_SIDE }
    requires place { place ≤ LARGEST_SIDE }
    ensures { result ≡ block * blocks.length + (place + block_margin blocks.length blocks.separation
        - block * blocks.separation) }
{
    let margin = (blocks.length - blocks.separation) / 2;
    let behind = (place + margin).saturating_sub(block * blocks.separation);
    (block * blocks.length + behind) as usize
}

/// Where the first block of a run is the only one of it, which is up to column `single - 1`, and where the last one is,
/// which is from column `last` on. The blocks of the run alone hold the columns between.
#[derive(Clone, Copy)]
pub struct RunParts {
    pub single: u32,
    pub last: u32,
}

/// Where the first and the last block of a run are the only ones of it, which holds the columns from `left` to
/// `right - 1`.
fn parts_of(blocks: Direction, run: Run, left: u32, right: u32) -> RunParts
    requires overlap { IsOverlap blocks.length blocks.separation }
    requires some { 1 ≤ run.count }
    requires run { run.i + run.count ≤ blocks.count }
    requires count { blocks.count ≤ LARGEST_SIDE }
    requires left { left ≡ run.i * blocks.separation - block_margin blocks.length blocks.separation }
    requires right { right + block_margin blocks.length blocks.separation ≤ (run.i + run.count - 1) * blocks.separation
        + blocks.length }
    requires ordered { left < right }
    ensures { AreRunParts blocks.length blocks.separation run.i run.count left right result.single result.last }
{
    let margin = (blocks.length - blocks.separation) / 2;
    let single = ((run.i + 1) * blocks.separation)
        .saturating_sub(margin)
        .min(right);
    let reach = ((run.i + run.count - 1) * blocks.separation + margin).min(right);
    let last = reach.max(single);
    RunParts { single, last }
}

/// The weights that the blocks of a run have together at the places from `left` to `right - 1`, and 0 behind them.
/// Where the run's blocks alone hold a place they are 8, as those of all blocks are.
fn run_weights(columns: Columns<'_>, run: Run, left: u32, right: u32, out: &mut [u8])
    requires overlap { IsOverlap columns.blocks.length columns.blocks.separation }
    requires some { 1 ≤ run.count }
    requires run { run.i + run.count ≤ columns.blocks.count }
    requires count { columns.blocks.count ≤ LARGEST_SIDE }
    requires weights { IsWeights columns.blocks.count columns.blocks.length columns.blocks.separation
        columns.weights.now }
    requires left { left ≡ run.i * columns.blocks.separation
        - block_margin columns.blocks.length columns.blocks.separation }
    requires right { right + block_margin columns.blocks.length columns.blocks.separation ≤ (run.i + run.count - 1)
        * columns.blocks.separation + columns.blocks.length }
    requires ordered { left < right }
    requires at_most_4096 { right ≤ LARGEST_SIDE }
    requires covers { right ≤ columns.blocks.count * columns.blocks.separation }
    requires len { right - left ≤ length out.old }
    ensures weight { (k : ℕ) → k < right - left → slice_index out.new k ≡ run_share columns.entry.blocks.count
        columns.entry.blocks.length columns.entry.blocks.separation run.i run.count (left + k) }
    ensures past { (k : ℕ) → right - left ≤ k → slice_index out.new k ≡ 0 }
    ensures small { (k : ℕ) → slice_index out.new k ≤ 8 }
{
    clear_weights(out);
    let parts = parts_of(columns.blocks, run, left, right);
    let first = listed_at(columns.blocks, run.i, left);
    let single = (parts.single - left) as usize;
    copy_weights(columns.weights, first, out, 0, single);
    let between = (parts.last - parts.single) as usize;
    put_eights(out, single, between);
    let last = listed_at(columns.blocks, run.i + run.count - 1, parts.last);
    let behind = (right - parts.last) as usize;
    copy_weights(columns.weights, last, out, single + between, behind);
}

/// How many of `width` values have a sum where `sums` sums are left; `all` says that each has one.
#[inline(always)]
fn count_with_sums(width: usize, sums: usize, all: bool) -> usize
    requires { all ≡ true → width ≤ sums }
    ensures { result ≡ min width sums }
{
    if all { width } else { width.min(sums) }
}

/// Adds to the sums of all rows what a run of blocks predicts, as far as there are sums; `all` says that each of its
/// values has one. What stands behind its columns has the weight 0.
#[inline(always)]
fn add_rows(motion: &Motion<'_>, lines: Lines<'_>, part: Part<'_>, all: bool, sums: &mut [i32])
    requires motion { IsCompensation (compensation_of motion.now) }
    requires sound { IsSoundCompensation (compensation_of motion.now) }
    requires lines { IsLines (compensation_of motion.now) lines }
    requires part { IsPartOfRun (compensation_of motion.now) lines.first lines.end part }
    requires len { length sums.old ≡ motion.now.width * (lines.end - lines.first) }
    requires all { all ≡ true → HasAllSums motion.now.width lines.first part (length sums.old) }
    requires sums { All (λ v. unsigned_abs v ≤ 2 ^ 22) sums.old }
    ensures { Adds (run_added_at (compensation_of motion.now) lines.entry.first part.entry.run.j part.entry.run.i
        part.entry.run.count) (motion.now.width * (lines.entry.end - lines.entry.first)) sums.old sums.new }
{
    for y in part.down.start..part.down.end {
        let row = (y - part.down.start) as usize;
        let place = (y - lines.first) as usize * motion.width as usize + part.left as usize;
        let weighed = Weighed {
            values: part.values,
            at: row * part.width,
            weights: part.weights,
            down: lines.weights[part.down.weights as usize + row],
        };
        let count = count_with_sums(part.width, sums.len() - place, all);
        add_values(sums, place, weighed, count);
    }
}

/// Whether all values of a part have sums, those behind its columns too.
fn has_all_sums(motion: &Motion<'_>, lines: Lines<'_>, part: Part<'_>, sums: usize) -> bool
    requires motion { IsCompensation (compensation_of motion.now) }
    requires lines { IsLines (compensation_of motion.now) lines }
    requires part { IsPartOfRun (compensation_of motion.now) lines.first lines.end part }
    ensures { result ≡ true → HasAllSums motion.now.width lines.entry.first part.entry sums }
{
    let last = (part.down.end - 1 - lines.first) as usize * motion.width as usize;
    last + part.left as usize + part.width <= sums
}

/// The part as it is, its width told as a number of the call, by which the compiler knows it.
#[inline(always)]
fn of_width<'a>(part: Part<'a>, width: usize) -> Part<'a>
    requires { part.width ≡ width }
    ensures { result ≡ part.entry }
{
    Part {
        run: part.run,
        left: part.left,
        right: part.right,
        weights: part.weights,
        down: part.down,
        values: part.values,
        width,
    }
}

/// Adds to the sums of all rows what a run of blocks predicts, as far as there are sums. Rows of sixteen and of eight
/// values, which most are, have code of their own.
fn add_part(motion: &Motion<'_>, lines: Lines<'_>, part: Part<'_>, sums: &mut [i32])
    requires motion { IsCompensation (compensation_of motion.now) }
    requires sound { IsSoundCompensation (compensation_of motion.now) }
    requires lines { IsLines (compensation_of motion.now) lines }
    requires part { IsPartOfRun (compensation_of motion.now) lines.first lines.end part }
    requires len { length sums.old ≡ motion.now.width * (lines.end - lines.first) }
    requires sums { All (λ v. unsigned_abs v ≤ 2 ^ 22) sums.old }
    ensures { Adds (run_added_at (compensation_of motion.now) lines.entry.first part.entry.run.j part.entry.run.i
        part.entry.run.count) (motion.now.width * (lines.entry.end - lines.entry.first)) sums.old sums.new }
{
    if !has_all_sums(motion, lines, part, sums.len()) {
        add_rows(motion, lines, part, false, sums);
    } else if part.width == 16 {
        add_rows(motion, lines, of_width(part, 16), true, sums);
    } else if part.width == 8 {
        add_rows(motion, lines, of_width(part, 8), true, sums);
    } else {
        add_rows(motion, lines, part, true, sums);
    }
}

/// Writes what the blocks of a run predict in `width` columns from column `left` on.
fn predict_run(
    motion: &Motion<'_>,
    run: Run,
    left: u32,
    width: usize,
    down: Span,
    room: &mut BlockRoom,
)
    requires motion { IsCompensation (compensation_of motion.now) }
    requires across { run.i < blocks_across (compensation_of motion.now) }
    requires down { run.j < blocks_down (compensation_of motion.now) }
    requires columns { left < motion.now.width }
    requires rows { (down.start < down.end) × (down.end ≤ motion.now.height) }
    requires few_rows { down.end - down.start ≤ y_length (compensation_of motion.now) }
    requires some { 1 ≤ width }
    requires at_most_64 { width ≤ 64 }
    requires room_fits { IsRoomForRows (y_length (compensation_of motion.now)) room.old }
    ensures room_fits { IsRoomForRows (y_length (compensation_of motion.now)) room.new }
    ensures weights { room.new.weights.items ≡ room.old.weights.items }
    ensures values { AreValues (compensation_of motion.now) run.i run.j left down.start (down.end - down.start) width
        room.new }
{
    let block = motion.blocks.at(run.i, run.j);
    let window = Window {
        x: left,
        y: down.start,
        width,
    };
    let count = (down.end - down.start) as usize * width;
    block_front(
        motion,
        &block,
        window,
        count,
        room.first.as_mut_slice(),
        room.second.as_mut_slice(),
        room.values.as_mut_slice(),
    );
}

/// As many columns as there are, rounded up to eights.
fn in_eights(columns: u32) -> usize
    requires { columns ≤ 64 }
    ensures fits { columns ≤ result }
    ensures at_most_64 { result ≤ 64 }
{
    ((columns + 7) / 8 * 8) as usize
}

/// Adds to the sums of all rows what the blocks of a run add.
fn add_run(
    motion: &Motion<'_>,
    columns: Columns<'_>,
    lines: Lines<'_>,
    run: Run,
    room: &mut BlockRoom,
    sums: &mut [i32],
)
    requires blending { IsBlending (compensation_of motion.now) columns lines }
    requires run { IsRun (compensation_of motion.now) run.i run.count run.j }
    requires room_fits { IsRoomForRows (y_length (compensation_of motion.now)) room.old }
    requires len { length sums.old ≡ motion.now.width * (lines.end - lines.first) }
    requires sums { All (λ v. unsigned_abs v ≤ 2 ^ 22) sums.old }
    ensures room_fits { IsRoomForRows (y_length (compensation_of motion.now)) room.new }
    ensures sums { Adds (run_added_at (compensation_of motion.now) lines.entry.first run.j run.i run.count)
        (motion.now.width
        * (lines.entry.end - lines.entry.first)) sums.old sums.new }
{
    let first = held(columns.blocks, run.i, 0, motion.width);
    let last = held(columns.blocks, run.i + run.count - 1, 0, motion.width);
    let down = held(lines.blocks, run.j, lines.first, lines.end);
    if last.end <= first.start {
        return;
    }
    if down.end <= down.start {
        return;
    }
    run_weights(
        columns,
        run,
        first.start,
        last.end,
        room.weights.as_mut_slice(),
    );
    let width = in_eights(last.end - first.start);
    predict_run(motion, run, first.start, width, down, room);
    let part = Part {
        run,
        left: first.start,
        right: last.end,
        weights: room.weights.as_slice(),
        down,
        values: room.values.as_slice(),
        width,
    };
    add_part(motion, lines, part, sums);
}

/// Whether two blocks use the same references.
fn have_same_references(a: Block, b: Block) -> bool
    ensures first { result ≡ true → a.ref1 ≡ b.ref1 }
    ensures second { result ≡ true → a.ref2 ≡ b.ref2 }
{
    a.ref1 == b.ref1 && a.ref2 == b.ref2
}

fn are_same(a: Vector, b: Vector) -> bool
    ensures { result ≡ true → a ≡ b }
{
    a.x == b.x && a.y == b.y
}

/// Whether two blocks have the same vectors.
fn have_same_vectors(a: Block, b: Block) -> bool
    ensures first { result ≡ true → a.v1 ≡ b.v1 }
    ensures second { result ≡ true → a.v2 ≡ b.v2 }
{
    are_same(a.v1, b.v1) && are_same(a.v2, b.v2)
}

/// Whether two blocks have the same DC values.
fn have_same_values(a: Block, b: Block) -> bool
    ensures y { result ≡ true → a.dc_y ≡ b.dc_y }
    ensures u { result ≡ true → a.dc_u ≡ b.dc_u }
    ensures v { result ≡ true → a.dc_v ≡ b.dc_v }
{
    a.dc_y == b.dc_y && a.dc_u == b.dc_u && a.dc_v == b.dc_v
}

/// Whether two blocks are alike.
fn are_alike(a: Block, b: Block) -> bool
    ensures { result ≡ true → a ≡ b }
{
    if have_same_references(a, b) {
        if have_same_vectors(a, b) {
            return have_same_values(a, b);
        }
    }
    false
}

/// Whether the next block goes on with a run.
fn goes_on(motion: &Motion<'_>, blocks: Direction, run: Run) -> bool
    requires motion { IsCompensation (compensation_of motion.now) }
    requires blocks { IsAcross (compensation_of motion.now) blocks }
    requires run { IsRun (compensation_of motion.now) run.i run.count run.j }
    ensures inside { IsTrue result → run.i + run.count < blocks.count }
    ensures fits { IsTrue result → run.count * blocks.separation + blocks.length ≤ 64 }
    ensures same { IsTrue result → block_at motion.now.blocks.now (run.i + run.count) run.j
        ≡ block_at motion.now.blocks.now run.i run.j }
{
    run.i + run.count < blocks.count
        && run.count * blocks.separation + blocks.length <= MOST_COLUMNS
        && are_alike(
            motion.blocks.at(run.i + run.count, run.j),
            motion.blocks.at(run.i, run.j),
        )
}

/// Adds to the sums of all rows what the blocks of row `j` add. Blocks that stand side by side and are alike are
/// predicted together.
fn add_blocks(
    motion: &Motion<'_>,
    columns: Columns<'_>,
    lines: Lines<'_>,
    j: u32,
    room: &mut BlockRoom,
    sums: &mut [i32],
)
    requires blending { IsBlending (compensation_of motion.now) columns lines }
    requires down { j < blocks_down (compensation_of motion.now) }
    requires room_fits { IsRoomForRows (y_length (compensation_of motion.now)) room.old }
    requires len { length sums.old ≡ motion.now.width * (lines.end - lines.first) }
    requires sums { All (λ v. unsigned_abs v ≤ 2 ^ 21) sums.old }
    ensures room_fits { IsRoomForRows (y_length (compensation_of motion.now)) room.new }
    ensures sums { Adds (λ p. signed_total (λ i. added_at (compensation_of motion.now) lines.entry.first j i p)
        (blocks_across (compensation_of
        motion.now))) (motion.now.width * (lines.entry.end - lines.entry.first)) sums.old sums.new }
{
    let mut begin = 0;
    for i in 0..columns.blocks.count {
        let run = Run {
            i: begin,
            count: i + 1 - begin,
            j,
        };
        if !goes_on(motion, columns.blocks, run) {
            add_run(motion, columns, lines, run, room, sums);
            begin = i + 1;
        }
    }
}

/// The first row of blocks that doesn't end above place `y`.
fn first_row(rows: Direction, y: u32) -> u32
    requires rows { Rattle.dirac_obmc.specs.Weights.IsOverlap rows.length rows.separation }
    requires place { y ≤ LARGEST_SIDE }
    ensures { (j : ℕ) → j < result → j * rows.separation + rows.length ≤ y + block_margin rows.length rows.separation }
{
    let place = y + (rows.length - rows.separation) / 2;
    if place < rows.length {
        0
    } else {
        (place - rows.length) / rows.separation + 1
    }
}

/// The first row of blocks that begins below place `y`.
fn end_row(rows: Direction, y: u32) -> u32
    requires rows { Rattle.dirac_obmc.specs.Weights.IsOverlap rows.length rows.separation }
    requires place { y ≤ LARGEST_SIDE }
    ensures behind { (j : ℕ) → result ≤ j → j < rows.count → y + block_margin rows.length rows.separation
        < j * rows.separation }
    ensures within { result ≤ rows.count }
{
    let place = y + (rows.length - rows.separation) / 2;
    (place / rows.separation + 1).min(rows.count)
}

/// Writes the predictions of rows that are all 0 yet: what all blocks add, divided.
fn predict_strip(
    motion: &Motion<'_>,
    columns: Columns<'_>,
    lines: Lines<'_>,
    room: &mut BlockRoom,
    out: &mut [i32],
)
    requires blending { IsBlending (compensation_of motion.now) columns lines }
    requires room_fits { IsRoomForRows (y_length (compensation_of motion.now)) room.old }
    requires len { length out.old ≡ motion.now.width * (lines.end - lines.first) }
    requires out { (p : ℕ) → slice_index_or out.old p (pos 0) ≡ pos 0 }
    ensures room_fits { IsRoomForRows (y_length (compensation_of motion.now)) room.new }
    ensures value { (p : ℕ) → p < length out.old → slice_index_or out.new p (pos 0)
        ≡ predicted_at (compensation_of motion.now) (p % motion.now.width) (lines.entry.first + p / motion.now.width) }
{
    for j in first_row(lines.blocks, lines.first)..end_row(lines.blocks, lines.end - 1) {
        add_blocks(motion, columns, lines, j, room, out);
    }
    divide_sums(out);
}

/// How many rows are summed and divided before the next ones, so that their sums are still at hand.
const STRIP_ROWS: u32 = 64;

/// Writes the predictions of rows that are all 0 yet, some rows at a time.
pub fn predict_lines(
    motion: &Motion<'_>,
    columns: Columns<'_>,
    lines: Lines<'_>,
    room: &mut BlockRoom,
    out: &mut [i32],
)
    requires blending { IsBlending (compensation_of motion.now) columns lines }
    requires room_fits { IsRoomForRows (y_length (compensation_of motion.now)) room.old }
    requires len { length out.old ≡ motion.now.width * (lines.end - lines.first) }
    requires out { (p : ℕ) → slice_index_or out.old p (pos 0) ≡ pos 0 }
    ensures { (p : ℕ) → p < length out.old → slice_index_or out.new p (pos 0)
        ≡ predicted_at (compensation_of motion.now) (p % motion.now.width) (lines.entry.first + p / motion.now.width) }
{
    let width = motion.width as usize;
    for n in 0..(lines.end - lines.first + (STRIP_ROWS - 1)) / STRIP_ROWS {
        let first = lines.first + STRIP_ROWS * n;
        let end = (first + STRIP_ROWS).min(lines.end);
        let strip = Lines {
            blocks: lines.blocks,
            weights: lines.weights,
            first,
            end,
        };
        let start = (first - lines.first) as usize * width;
        let stop = (end - lines.first) as usize * width;
        predict_strip(motion, columns, strip, room, &mut out[start..stop]);
    }
}
