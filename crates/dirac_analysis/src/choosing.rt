//! Which index each codeblock of a subband is quantised with, and which one it is coded with.
ghost use Rattle.std.specs.Prelude.{◌≡◌, ℕ, pos, ◌+◌, ◌-◌, ◌*◌, ◌/◌, ◌%◌, ◌^◌, ◌<◌, ◌≤◌, if◌then◌else◌, length};
ghost use Rattle.std.specs.Prelude.{map, nat_lt, slice_index_or, unsigned_abs, IfOk};
ghost use Rattle.std.specs.List.{All, range_with_len};
ghost use Rattle.dirac_common.specs.Limits.{IsIndex};
ghost use Rattle.dirac_common.specs.Table.{table_at};
ghost use Rattle.dirac_bands.specs.Geometry.{edge_of};
ghost use Rattle.dirac_analysis.specs.Coded as spec;
ghost use Rattle.dirac_analysis.specs.Fits.{IsQuantisable};

use dirac_bands::edge;
use dirac_coeffs::{Indices, is_parted};
use dirac_common::{MOST_CODEBLOCKS, NoMemory, Wide};
use dirac_quant::factor;
use std::alloc::Global;

/// A codeblock is flat where the magnitudes of all its coefficients are below this.
pub const FLAT_BELOW: u64 = 64;

/// How a codeblock is coded: the index that it is quantised with, and whether it is skipped.
#[derive(Clone, Copy)]
struct Choice {
    index: u8,
    skipped: bool,
}

impl Choice {
    /// The index behind the codeblock, where `before` is the one before it.
    fn behind(self, before: u8) -> u8
        ensures { result ≡ (if self.skipped then before else self.index) }
    {
        if self.skipped { before } else { self.index }
    }
}

/// The indices of the codeblocks of a band: those that they are quantised with, and those that are coded, where a
/// skipped codeblock has that of the one before it.
#[derive(Drop)]
pub struct Choices {
    pub chosen: Indices,
    pub coded: Indices,
}

/// The magnitude of a coefficient.
#[inline(always)]
fn magnitude_of(value: i128) -> u64
    requires { unsigned_abs value < 2 ^ 38 }
    ensures { result ≡ unsigned_abs value }
{
    (value as i64).unsigned_abs()
}

/// The greater of `peak` and the greatest magnitude in these columns of a row.
fn row_peak(row: &[i128], left: usize, right: usize, peak: u64) -> u64
    requires right { right ≤ length row.now }
    requires magnitudes_below_2_38 { All (λ v. unsigned_abs v < 2 ^ 38) row.now }
    requires peak { peak < 2 ^ 38 }
    ensures above { peak ≤ result }
    ensures below { result < 2 ^ 38 }
    ensures bounds { (x : ℕ) → left ≤ x → x < right → unsigned_abs (slice_index_or row.now x (pos 0)) ≤ result }
    ensures least { (limit : ℕ) → peak ≤ limit
        → ((x : ℕ) → left ≤ x → x < right → unsigned_abs (slice_index_or row.now x (pos 0)) ≤ limit) → result ≤ limit }
{
    let mut largest = peak;
    for x in left..right {
        let magnitude = magnitude_of(row[x]);
        if largest < magnitude {
            largest = magnitude;
        }
    }
    largest
}

/// The greatest magnitude of the codeblock in place `c`, 0 where it has no coefficients.
fn codeblock_peak(table: &Wide, counts: (u32, u32), c: u32) -> u64
    requires fits { IsQuantisable table.now }
    requires across { (1 ≤ counts.0) × (counts.0 ≤ MOST_CODEBLOCKS) }
    requires down { (1 ≤ counts.1) × (counts.1 ≤ MOST_CODEBLOCKS) }
    requires among { c < counts.0 * counts.1 }
    ensures below { result < 2 ^ 38 }
    ensures bounds { (x y : ℕ) → edge_of table.now.width counts.0 (c % counts.0) ≤ x
        → x < edge_of table.now.width counts.0 (c % counts.0 + 1)
        → edge_of table.now.height counts.1 (c / counts.0) ≤ y
        → y < edge_of table.now.height counts.1 (c / counts.0 + 1)
        → unsigned_abs (table_at table.now x y) ≤ result }
    ensures least { (limit : ℕ) → ((x y : ℕ) → edge_of table.now.width counts.0 (c % counts.0) ≤ x
        → x < edge_of table.now.width counts.0 (c % counts.0 + 1)
        → edge_of table.now.height counts.1 (c / counts.0) ≤ y
        → y < edge_of table.now.height counts.1 (c / counts.0 + 1)
        → unsigned_abs (table_at table.now x y) ≤ limit) → result ≤ limit }
{
    let (across, down) = counts;
    let (cy, cx) = (c / across, c % across);
    let left = edge(table.width(), across, cx) as usize;
    let right = edge(table.width(), across, cx + 1) as usize;
    let top = edge(table.height(), down, cy);
    let bottom = edge(table.height(), down, cy + 1);
    let mut largest = 0;
    for y in top..bottom {
        largest = row_peak(table.row(y), left, right, largest);
    }
    largest
}

/// The index that a codeblock is quantised with whose greatest magnitude this is.
fn finer_index(largest: u64, finer: u8, index: u8) -> u8
    requires index { IsIndex index }
    ensures value { result ≡ (if nat_lt largest FLAT_BELOW then index - finer else index) }
    ensures fits { IsIndex result }
{
    if largest < FLAT_BELOW {
        index.saturating_sub(finer)
    } else {
        index
    }
}

/// How the codeblock in place `c` is coded.
fn choose(table: &Wide, counts: (u32, u32), finer: u8, index: u8, c: u32) -> Choice
    requires fits { IsQuantisable table.now }
    requires index { IsIndex index }
    requires across { (1 ≤ counts.0) × (counts.0 ≤ MOST_CODEBLOCKS) }
    requires down { (1 ≤ counts.1) × (counts.1 ≤ MOST_CODEBLOCKS) }
    requires among { c < counts.0 * counts.1 }
    ensures index { result.index ≡ spec.chosen_at counts finer index table.now c }
    ensures fits { IsIndex result.index }
    ensures skipped { result.skipped ≡ spec.is_skipped counts (spec.reduced_table counts finer index table.now) c }
{
    let largest = codeblock_peak(table, counts, c);
    let chosen = finer_index(largest, finer, index);
    let is_zero = 4 * largest < factor(chosen);
    Choice {
        index: chosen,
        skipped: is_parted(counts) && is_zero,
    }
}

/// How all codeblocks of a band are coded.
pub fn choose_all(
    alloc: Global,
    table: &Wide,
    counts: (u32, u32),
    finer: u8,
    index: u8,
) -> Result<Choices, NoMemory>
    requires fits { IsQuantisable table.now }
    requires index { IsIndex index }
    requires across { (1 ≤ counts.0) × (counts.0 ≤ MOST_CODEBLOCKS) }
    requires down { (1 ≤ counts.1) × (counts.1 ≤ MOST_CODEBLOCKS) }
    ensures chosen { IfOk result (λ r. r.chosen ≡ map (spec.chosen_at counts finer index table.now)
        (range_with_len 0 (counts.0 * counts.1))) }
    ensures count { IfOk result (λ r. length r.chosen ≡ counts.0 * counts.1) }
    ensures fits { IfOk result (λ r. All IsIndex r.chosen) }
    ensures coded { IfOk result (λ r. r.coded ≡ spec.coded_indices counts finer index table.now) }
{
    let (across, down) = counts;
    let count = across * down;
    let mut chosen = Indices::try_new(alloc, count, 0)?;
    let mut coded = Indices::try_new(alloc, count, 0)?;
    let mut behind = index;
    for c in 0..count {
        let choice = choose(table, counts, finer, index, c);
        behind = choice.behind(behind);
        chosen.set(c, choice.index);
        coded.set(c, behind);
    }
    Ok(Choices { chosen, coded })
}
