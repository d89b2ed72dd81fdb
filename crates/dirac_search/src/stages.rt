ghost use Rattle.std.specs.Prelude.{◌≡◌, ◌+◌, ◌*◌, ◌<◌, ◌≤◌, ◌++◌, IfOk};
ghost use Rattle.std.specs.List.{All, flat_map};
ghost use Rattle.dirac_vectors.specs.Predictions.{IsShortVector};
ghost use Rattle.dirac_search.specs.ByRows.{row_values};
ghost use Rattle.dirac_search.specs.Candidates.{IsWithinReach};
ghost use Rattle.dirac_rows.specs.Answers.{AnswerRows};
ghost use Rattle.dirac_search.specs.Fields.{HasFormerField, IsSearch, IsStage, field};
ghost use Rattle.dirac_search.specs.Fields.{stage_field, best_superblock_row};
ghost use Rattle.dirac_search.specs.Given.{searched_of, lent};
ghost use Rattle.dirac_search.specs.InBytes.{AreGiven};
ghost use Rattle.dirac_search.specs.Staged.{IsStaged, best_at, stage_behind as the_stage_behind};

use crate::bytes::Bytes;
use crate::field::Field;
use crate::least::{Room, best_in, new_room};
use crate::stage::{Search, Stage, Staged};
use dirac_common::{NoMemory, RowGate, Vector};
use dirac_rows::map_rows;
use dirac_types::Settings;
use std::alloc::Global;
use std::marker::Sync;
use std::thread::Threads;

/// Appends the best vectors of a row of blocks.
fn push_block_row(
    staged: &Staged<'_, '_, '_, '_>,
    before: Option<&Field>,
    j: u32,
    room: &mut Room,
    vectors: &mut Vec<Vector>,
) -> Result<(), NoMemory>
    requires staged { IsStaged staged.now (lent before) }
    requires row { j < 4 * staged.now.search.now.down }
    ensures { IfOk result (λ _. vectors.new.items ≡ vectors.old.items
        ++ row_values (4 * staged.now.search.now.across) (best_at staged.now (lent before.entry)) j) }
{
    for i in 0..4 * staged.search.across {
        vectors.push(best_in(staged, before, i, j, room)?)?;
    }
    Ok(())
}

/// The best vectors of the four block rows of superblock row `row`, by rows.
fn rows_of(
    alloc: Global,
    staged: &Staged<'_, '_, '_, '_>,
    before: Option<&Field>,
    row: u32,
) -> Result<Vec<Vector>, NoMemory>
    requires staged { IsStaged staged.now (lent before) }
    requires row { row < staged.now.search.now.down }
    ensures { IfOk result
        (λ v. v.items ≡ best_superblock_row (searched_of staged.now.search.now) staged.now.settings.now
        staged.now.stage (lent before.entry) row) }
{
    let mut room = new_room(alloc);
    let mut vectors = Vec::new(alloc);
    for k in 0..4 {
        push_block_row(staged, before, 4 * row + k, &mut room, &mut vectors)?;
    }
    Ok(vectors)
}

/// The best vectors of the four block rows of superblock row `row`, by rows. `before` has the former stage's vectors;
/// the first stage has none.
pub fn search_rows(
    alloc: Global,
    search: &Search<'_>,
    stage: Stage,
    settings: &Settings,
    before: Option<&Field>,
    row: u32,
) -> Result<Vec<Vector>, NoMemory>
    requires search { IsSearch (searched_of search.now) settings.now }
    requires stage { IsStage settings.now stage }
    requires former { HasFormerField (searched_of search.now) stage (lent before) }
    requires row { row < search.now.down }
    ensures { IfOk result (λ v. v.items
        ≡ best_superblock_row (searched_of search.now) settings.now stage (lent before.entry) row) }
{
    let staged = Staged {
        search,
        stage,
        settings,
        bytes: None,
    };
    rows_of(alloc, &staged, before, row)
}

/// The best vectors of each row of superblocks. The settings' workers share the rows, and each passes the gate before
/// it searches a row.
fn stage_rows<R: Threads + Sync, G: RowGate>(
    rt: &R,
    alloc: Global,
    staged: &Staged<'_, '_, '_, '_>,
    before: Option<&Field>,
    gate: &G,
) -> Result<Vec<Vec<Vector>>, NoMemory>
    requires { IsStaged staged.now (lent before) }
    ensures { IfOk result (λ rows. AnswerRows (λ r v. v.items ≡ best_superblock_row (searched_of staged.now.search.now)
        staged.now.settings.now staged.now.stage (lent before.entry) r) staged.now.search.now.down rows.items) }
{
    let work = |row: u32| -> Result<Vec<Vector>, NoMemory>
        requires { IsStaged staged.now (lent before) × (row < staged.now.search.now.down) }
        ensures { IfOk result (λ v. v.items ≡ best_superblock_row (searched_of staged.entry.now.search.now)
            staged.entry.now.settings.now staged.entry.now.stage (lent before.entry) row) }
    { rows_of(alloc, staged, before, row) };
    map_rows(
        rt,
        alloc,
        staged.search.down,
        staged.settings.workers,
        gate,
        &work,
    )
}

/// The vectors of these rows, one row after another.
fn joined(alloc: Global, rows: &[Vec<Vector>]) -> Result<Vec<Vector>, NoMemory>
    ensures { IfOk result (λ v. v.items ≡ flat_map (λ row. row.items) rows.now) }
{
    let mut vectors = Vec::new(alloc);
    for k in 0..rows.len() {
        vectors.extend_from_slice(rows[k].as_slice())?;
    }
    Ok(vectors)
}

/// The best vectors of all blocks at a stage.
fn search_stage<R: Threads + Sync, G: RowGate>(
    rt: &R,
    alloc: Global,
    staged: &Staged<'_, '_, '_, '_>,
    before: Option<&Field>,
    gate: &G,
) -> Result<Field, NoMemory>
    requires { IsStaged staged.now (lent before) }
    ensures { IfOk result
        (λ f. f ≡ stage_field (searched_of staged.now.search.now) staged.now.settings.now staged.now.stage
        (lent before.entry)) }
{
    let rows = stage_rows(rt, alloc, staged, before, gate)?;
    let vectors = joined(alloc, rows.as_slice())?;
    let search = staged.search;
    Ok(Field::new(search.across, search.down, vectors))
}

/// The stage behind so many others, the first of which is the coarse one.
fn stage_behind(settings: &Settings, n: u8) -> Stage
    requires { settings.now.pyramid ≤ 4 }
    ensures { result ≡ the_stage_behind settings.now n }
{
    let levels = settings.pyramid as u8;
    if n <= levels {
        Stage::Finer(levels - n)
    } else {
        Stage::Sub(n - levels)
    }
}

/// The vectors after the last stage.
#[tactic(auto, using(crate::proofs::Bounds::after_more))]
fn search_with<'a, R: Threads + Sync, G: RowGate>(
    rt: &R,
    alloc: Global,
    search: &'a Search<'_>,
    settings: &'a Settings,
    bytes: Option<&'a Bytes>,
    gate: &G,
) -> Result<Field, NoMemory>
    requires search { IsSearch (searched_of search.now) settings.now }
    requires bytes { AreGiven (searched_of search.now) (lent bytes) }
    ensures value { IfOk result (λ f. f ≡ field (searched_of search.now) settings.now) }
    ensures sizes { IfOk result (λ f. (f.across ≡ search.now.across) × (f.down ≡ search.now.down)) }
    ensures within_2175 { IfOk result (λ f. All (IsWithinReach 2175) f.vectors) }
    ensures of_16_bits { IfOk result (λ f. All IsShortVector f.vectors) }
{
    let coarse = Staged {
        search,
        stage: Stage::Coarse(settings.pyramid as u8),
        settings,
        bytes,
    };
    let mut field = search_stage(rt, alloc, &coarse, None, gate)?;
    for n in 0..(settings.pyramid + settings.precision) as u8 {
        let next = Staged {
            stage: stage_behind(settings, n + 1),
            ..coarse
        };
        field = search_stage(rt, alloc, &next, Some(&field), gate)?;
    }
    Ok(field)
}

/// The vectors after the last stage. In each stage the settings' workers share the rows of superblocks, and each passes
/// the gate before it searches a row: the result is the same for any number of workers.
pub fn search_field<'a, R: Threads + Sync, G: RowGate>(
    rt: &R,
    alloc: Global,
    search: &'a Search<'_>,
    settings: &'a Settings,
    gate: &G,
) -> Result<Field, NoMemory>
    requires { IsSearch (searched_of search.now) settings.now }
    ensures value { IfOk result (λ f. f ≡ field (searched_of search.now) settings.now) }
    ensures sizes { IfOk result (λ f. (f.across ≡ search.now.across) × (f.down ≡ search.now.down)) }
    ensures within_2175 { IfOk result (λ f. All (IsWithinReach 2175) f.vectors) }
    ensures of_16_bits { IfOk result (λ f. All IsShortVector f.vectors) }
{
    match Bytes::of(alloc, search, settings.precision)? {
        Some(bytes) => search_with(rt, alloc, search, settings, Some(&bytes), gate),
        None => search_with(rt, alloc, search, settings, None, gate),
    }
}
