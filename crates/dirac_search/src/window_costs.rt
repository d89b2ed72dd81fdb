ghost use Rattle.std.specs.Prelude.{◌≡◌, ◌*◌, ◌^◌, ◌<◌, ◌≤◌, length};
ghost use Rattle.dirac_search.specs.declared.stage.Stage.TheVariants as stage;
ghost use Rattle.dirac_costs.specs.Bits.{bits_of_vector};
ghost use Rattle.dirac_search.specs.Candidates.{IsWithinReach};
ghost use Rattle.dirac_search.specs.Costs.{HasLevel, IsBlockWindow, StopsAt, cost_of, level_of_stage, window_of};
ghost use Rattle.dirac_search.specs.Costs.{window_size, window_start};
ghost use Rattle.dirac_search.specs.Fields.{IsSearch, IsStage};
ghost use Rattle.dirac_search.specs.Given.{searched_of, lent};
ghost use Rattle.dirac_search.specs.InBytes.{AreGiven};
ghost use Rattle.dirac_search.specs.Staged.{IsCompared, cost_at};
ghost use Rattle.dirac_search.specs.Tried.{IsTried, stage_sum};

use crate::stage::{Search, Stage, Staged};
use crate::sub_bytes::sub_below_in_bytes;
use crate::sub_sums::sub_below;
use crate::tried::Tried;
use crate::whole_sums::whole_below;
use dirac_common::Vector;
use dirac_costs::{Window, vector_bits};
use dirac_types::Settings;

/// The level of the pyramids on which a stage compares.
pub fn level_of(stage: Stage) -> u8
    ensures { result ≡ level_of_stage stage }
{
    match stage {
        Stage::Coarse(level) | Stage::Finer(level) => level,
        Stage::Sub(_) => 0,
    }
}

/// Where a block begins at a level, in a direction with this separation.
fn first_place(block: u32, separation: u32, level: u8) -> u32
    requires block { block < 4096 }
    requires separation { separation ≤ 16 }
    requires level { level ≤ 4 }
    ensures value { result ≡ window_start block separation level }
    ensures at_most_65536 { result ≤ 65536 }
{
    block * separation >> level
}

/// How many samples its window has there.
fn size(separation: u32, level: u8) -> u32
    requires separation { separation ≤ 16 }
    requires level { level ≤ 4 }
    ensures value { result ≡ window_size separation level }
    ensures at_most_16 { result ≤ 16 }
{
    let size = separation >> level;
    if size == 0 { 1 } else { size }
}

/// The window of block `i` of row `j` at a stage.
pub fn window(search: &Search<'_>, stage: Stage, i: u32, j: u32) -> Window
    requires level { level_of_stage stage ≤ 4 }
    requires x_separation { search.now.grid.xbsep ≤ 16 }
    requires y_separation { search.now.grid.ybsep ≤ 16 }
    requires column { i < 4096 }
    requires row { j < 4096 }
    ensures value { result ≡ window_of (searched_of search.now) stage i j }
    ensures within { IsBlockWindow result }
{
    let level = level_of(stage);
    Window {
        x: first_place(i, search.grid.xbsep, level),
        y: first_place(j, search.grid.ybsep, level),
        columns: size(search.grid.xbsep, level),
        rows: size(search.grid.ybsep, level),
    }
}

/// What a vector's bits cost and the differences of a window on a level, where all of it is below the limit.
#[inline(always)]
fn whole_cost_below(search: &Search<'_>, level: u8, tried: Tried) -> Option<u32>
    requires levels { (level < length (searched_of search.now).source)
        × (level < length (searched_of search.now).reference) }
    requires tried { IsTried tried }
    ensures { StopsAt tried.limit (stage_sum (searched_of search.now) (stage.Coarse level) tried) result }
{
    whole_below(
        search.source.level(level),
        search.reference.level(level),
        tried,
    )
}

/// What a vector's bits cost and the differences of a window in parts of a sample, where all of it is below the limit.
#[inline(always)]
fn sub_cost_below(staged: &Staged<'_, '_, '_, '_>, precision: u8, tried: Tried) -> Option<u32>
    requires levels { HasLevel (searched_of staged.now.search.now) (stage.Sub precision) }
    requires bytes { AreGiven (searched_of staged.now.search.now) (lent staged.now.bytes) }
    requires precision { precision ≤ 3 }
    requires tried { IsTried tried }
    ensures { StopsAt tried.limit (stage_sum (searched_of staged.now.search.now) (stage.Sub precision) tried) result }
{
    let search = staged.search;
    let source = search.source.level(0);
    match staged.bytes {
        Some(bytes) => sub_below_in_bytes(source, search.up, bytes, precision, tried),
        None => sub_below(source, search.up, precision, tried),
    }
}

/// What a vector's bits cost.
#[inline(always)]
fn bits_cost(bias: u32, v: Vector) -> u32
    requires at_most_255 { bias ≤ 255 }
    ensures value { result ≡ bias * bits_of_vector v }
    ensures at_most_66300 { result ≤ 66300 }
{
    bias * vector_bits(v)
}

/// What a vector costs a window, where that is below a limit. Where its bits alone cost as much, which is so of most
/// vectors that lead far off, no sample is read. The summing ends as soon as the limit is reached.
#[inline(always)]
pub(crate) fn cost_below(
    staged: &Staged<'_, '_, '_, '_>,
    window: Window,
    v: Vector,
    limit: u32,
) -> Option<u32>
    requires compared { IsCompared staged.now window }
    requires v { IsWithinReach (2 ^ 24) v }
    ensures { StopsAt limit (cost_at staged.now window v) result }
{
    let bits = bits_cost(staged.settings.bias, v);
    if bits >= limit {
        return None;
    }
    let tried = Tried {
        window,
        v,
        first: bits,
        limit,
    };
    match staged.stage {
        Stage::Coarse(level) => whole_cost_below(staged.search, level, tried),
        Stage::Finer(level) => whole_cost_below(staged.search, level, tried),
        Stage::Sub(precision) => sub_cost_below(staged, precision, tried),
    }
}

/// More than any vector costs any block.
const MORE_THAN_ANY_COST: u32 = 1 << 25;

/// What a vector costs a window.
pub(crate) fn whole_cost(staged: &Staged<'_, '_, '_, '_>, window: Window, v: Vector) -> u32
    requires compared { IsCompared staged.now window }
    requires v { IsWithinReach (2 ^ 24) v }
    ensures { result ≡ cost_at staged.now window v }
{
    match cost_below(staged, window, v, MORE_THAN_ANY_COST) {
        Some(cost) => cost,
        None => MORE_THAN_ANY_COST,
    }
}

/// What a vector costs block `i` of row `j` at a stage: the sum of absolute differences over the block's window, and
/// the bias for each bit of the vector.
pub fn cost(
    search: &Search<'_>,
    stage: Stage,
    settings: &Settings,
    i: u32,
    j: u32,
    v: Vector,
) -> u64
    requires search { IsSearch (searched_of search.now) settings.now }
    requires stage { IsStage settings.now stage }
    requires column { i < 4 * search.now.across }
    requires row { j < 4 * search.now.down }
    requires v { IsWithinReach (2 ^ 24) v }
    ensures { result ≡ cost_of (searched_of search.now) settings.now.bias stage i j v }
{
    let staged = Staged {
        search,
        stage,
        settings,
        bytes: None,
    };
    u64::from(whole_cost(&staged, window(search, stage, i, j), v))
}
