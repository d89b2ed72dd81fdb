ghost use Rattle.std.specs.Prelude.{◌≡◌, ◌+◌, ◌<◌, ◌≤◌, IfOk};
ghost use Rattle.std.specs.List.{All};
ghost use Rattle.std.specs.Option.{ForSome};
ghost use Rattle.dirac_types.specs.Settings.{IsAccepted};
ghost use Rattle.dirac_block_table.specs.Tables.{IsBlockTable};
ghost use Rattle.dirac_rows.specs.Answers.{AnswerRows};
ghost use Rattle.dirac_decide.specs.Best.{IsBestRow, IsBestSplit};
ghost use Rattle.dirac_decide.specs.Deciding as deciding;
ghost use Rattle.dirac_decide.specs.Given.{decided_from, deciding_of, view_of, views_of};
ghost use Rattle.dirac_decide.specs.Modes.{HasDcSamples, count_of_references};
ghost use Rattle.dirac_decide.specs.Rooms.{IsSuperblock, IsTableFor};
ghost use Rattle.dirac_decide.specs.Splits.{DecidedTo, IsDecided, SuperblockDecided, decided};

use crate::inputs::{Inputs, RefView};
use crate::superblock::{BestSplit, decide_row};
use dirac_block_table::BlockData;
use dirac_common::{MOST_SUPERBLOCKS, NoMemory, OpenGate, Picture, ratio_across, ratio_down};
use dirac_parameters::block_grid;
use dirac_rows::map_rows;
use dirac_sequence::sequence_of;
use dirac_types::Settings;
use std::alloc::Global;
use std::marker::Sync;
use std::thread::Threads;

/// How many references there are.
fn references(inputs: &Inputs<'_>) -> u8
    ensures { result ≡ count_of_references (deciding_of inputs.now).second }
{
    match inputs.second {
        Some(_) => 2,
        None => 1,
    }
}

/// Lends what was decided for superblock `sx` of row `sy`.
fn best_at<'a>(inputs: &Inputs<'_>, sy: u32, row: &'a [BestSplit], sx: u32) -> &'a BestSplit
    requires row { IsBestRow (deciding_of inputs.now) sy row.now }
    requires inside { sx < inputs.now.across }
    ensures { IsBestSplit (deciding_of inputs.now) sx sy result.now }
{
    &row[sx as usize]
}

/// Writes what was decided for superblock `sx` of row `sy`.
fn put_best(inputs: &Inputs<'_>, sx: u32, sy: u32, best: &BestSplit, table: &mut BlockData)
    requires superblock { IsSuperblock (deciding_of inputs.now) sx sy }
    requires best { IsBestSplit (deciding_of inputs.now) sx sy best.now }
    requires table { IsTableFor (deciding_of inputs.now) table.old }
    ensures { SuperblockDecided (deciding_of inputs.now) sx sy table.old table.new }
{
    table.put(sx, sy, best.split, best.units.as_slice());
}

/// Writes what was decided for row `sy`.
fn put_row(inputs: &Inputs<'_>, sy: u32, row: &[BestSplit], table: &mut BlockData)
    requires across { inputs.now.across ≤ MOST_SUPERBLOCKS }
    requires down { (sy < inputs.now.down) × (inputs.now.down ≤ MOST_SUPERBLOCKS) }
    requires row { IsBestRow (deciding_of inputs.now) sy row.now }
    requires table { DecidedTo (deciding_of inputs.now) 0 sy table.old }
    ensures { DecidedTo (deciding_of inputs.now) 0 (sy + 1) table.new }
{
    for sx in 0..inputs.across {
        put_best(inputs, sx, sy, best_at(inputs, sy, row, sx), table);
    }
}

/// Lends what was decided for row `sy`.
fn row_at<'a>(inputs: &Inputs<'_>, rows: &'a [Vec<BestSplit>], sy: u32) -> &'a Vec<BestSplit>
    requires rows { AnswerRows (λ r v. IsBestRow (deciding_of inputs.now) r v.items) inputs.now.down rows.now }
    requires inside { sy < inputs.now.down }
    ensures { IsBestRow (deciding_of inputs.now) sy result.now.items }
{
    &rows[sy as usize]
}

/// Writes what was decided for all rows.
fn put_rows(inputs: &Inputs<'_>, rows: &[Vec<BestSplit>], table: &mut BlockData)
    requires across { inputs.now.across ≤ MOST_SUPERBLOCKS }
    requires down { inputs.now.down ≤ MOST_SUPERBLOCKS }
    requires rows { AnswerRows (λ r v. IsBestRow (deciding_of inputs.now) r v.items) inputs.now.down rows.now }
    requires table { IsTableFor (deciding_of inputs.now) table.old }
    ensures table { IsDecided (deciding_of inputs.now) table.new }
{
    for sy in 0..inputs.down {
        put_row(inputs, sy, row_at(inputs, rows, sy).as_slice(), table);
    }
}

/// The table of the best splits and blocks, which were decided row by row.
fn table_of(
    alloc: Global,
    inputs: &Inputs<'_>,
    rows: &[Vec<BestSplit>],
) -> Result<BlockData, NoMemory>
    requires inputs { deciding.IsDeciding (deciding_of inputs.now) }
    requires across { (1 ≤ inputs.now.across) × (inputs.now.across ≤ MOST_SUPERBLOCKS) }
    requires down { (1 ≤ inputs.now.down) × (inputs.now.down ≤ MOST_SUPERBLOCKS) }
    requires rows { AnswerRows (λ r v. IsBestRow (deciding_of inputs.now) r v.items) inputs.now.down rows.now }
    ensures table { IfOk result (λ t. t ≡ decided (deciding_of inputs.now)) }
    ensures lawful { IfOk result IsBlockTable }
    ensures samples { IfOk result (λ t. All HasDcSamples t.blocks) }
{
    let mut table = BlockData::try_new(alloc, inputs.across, inputs.down, references(inputs))?;
    put_rows(inputs, rows, &mut table);
    let _lawful = table.across();
    Ok(table)
}

/// What is decided for each row, one after the other.
fn rows_of(alloc: Global, inputs: &Inputs<'_>) -> Result<Vec<Vec<BestSplit>>, NoMemory>
    requires inputs { deciding.IsDeciding (deciding_of inputs.now) }
    requires across { inputs.now.across ≤ MOST_SUPERBLOCKS }
    requires down { inputs.now.down ≤ MOST_SUPERBLOCKS }
    ensures { IfOk result
        (λ v. AnswerRows (λ r v. IsBestRow (deciding_of inputs.now) r v.items) inputs.now.down v.items) }
{
    let mut rows = Vec::new(alloc);
    for sy in 0..inputs.down {
        let row = decide_row(alloc, inputs, sy)?;
        rows.push(row)?;
    }
    Ok(rows)
}

/// What is decided for each row, which that many workers share.
fn rows_by_workers<R: Threads + Sync>(
    rt: &R,
    alloc: Global,
    inputs: &Inputs<'_>,
    workers: u32,
) -> Result<Vec<Vec<BestSplit>>, NoMemory>
    requires inputs { deciding.IsDeciding (deciding_of inputs.now) }
    requires across { inputs.now.across ≤ MOST_SUPERBLOCKS }
    requires down { inputs.now.down ≤ MOST_SUPERBLOCKS }
    requires workers { (1 ≤ workers) × (workers ≤ 64) }
    ensures { IfOk result
        (λ v. AnswerRows (λ r v. IsBestRow (deciding_of inputs.now) r v.items) inputs.now.down v.items) }
{
    let work = |sy: u32| -> Result<Vec<BestSplit>, NoMemory>
        requires { deciding.IsDeciding (deciding_of inputs.now) × (inputs.now.across ≤ MOST_SUPERBLOCKS)
            × (sy < inputs.now.down) × (inputs.now.down ≤ MOST_SUPERBLOCKS) }
        ensures { IfOk result (λ v. IsBestRow (deciding_of inputs.entry.now) sy v.items) }
    { decide_row(alloc, inputs, sy) };
    map_rows(rt, alloc, inputs.down, workers, &OpenGate, &work)
}

/// What the field of a reference always keeps.
fn field_size(view: RefView<'_>)
    ensures { deciding.IsFieldSize (view_of view.entry).field }
{
    let _across = view.field.across();
    let _down = view.field.down();
}

/// What the field of a second reference always keeps.
fn second_field_size(second: Option<RefView<'_>>)
    ensures { ForSome (views_of second.entry) (λ r. deciding.IsFieldSize r.field) }
{
    match second {
        Some(view) => field_size(view),
        None => (),
    }
}

/// What the blocks of a picture are decided from.
fn inputs_of<'a>(
    source: &'a Picture,
    settings: &Settings,
    first: RefView<'a>,
    second: Option<RefView<'a>>,
) -> Inputs<'a>
    requires settings { IsAccepted settings.now }
    requires source { deciding.IsPictureOfSamples source.now }
    requires first { deciding.IsSearched settings.now source.now (view_of first) }
    requires second { ForSome (views_of second) (deciding.IsSearched settings.now source.now) }
    ensures value { decided (deciding_of result) ≡ decided_from settings.now source.now first.entry second.entry }
    ensures deciding { deciding.IsDeciding (deciding_of result) }
    ensures across { (1 ≤ result.across) × (result.across ≤ MOST_SUPERBLOCKS) }
    ensures down { (1 ≤ result.down) × (result.down ≤ MOST_SUPERBLOCKS) }
{
    field_size(first);
    second_field_size(second);
    let _width = source.y.width();
    let _height = source.y.height();
    let chroma = sequence_of(settings).chroma;
    Inputs {
        source,
        first,
        second,
        grid: block_grid(u64::from(settings.blocks)),
        across: first.field.across(),
        down: first.field.down(),
        across_ratio: ratio_across(chroma),
        down_ratio: ratio_down(chroma),
        precision: settings.precision as u8,
        bias: settings.bias,
        alike: settings.alike,
    }
}

/// How the blocks of an inter picture are predicted from one reference or two: for each unit the mode that costs
/// least, the first at a tie, and for each superblock the split whose units cost least together, the lowest at a tie.
///
/// Each field has a vector for each block of the table that covers the source.
pub fn decide(
    alloc: Global,
    source: &Picture,
    settings: &Settings,
    first: RefView<'_>,
    second: Option<RefView<'_>>,
) -> Result<BlockData, NoMemory>
    requires settings { IsAccepted settings.now }
    requires source { deciding.IsPictureOfSamples source.now }
    requires first { deciding.IsSearched settings.now source.now (view_of first) }
    requires second { ForSome (views_of second) (deciding.IsSearched settings.now source.now) }
    ensures table { IfOk result (λ t. t ≡ decided_from settings.now source.now first.entry second.entry) }
    ensures lawful { IfOk result IsBlockTable }
    ensures samples { IfOk result (λ t. All HasDcSamples t.blocks) }
{
    let inputs = inputs_of(source, settings, first, second);
    let rows = rows_of(alloc, &inputs)?;
    let table = table_of(alloc, &inputs, rows.as_slice())?;
    Ok(table)
}

/// As `decide`; the settings' workers share its rows of superblocks.
pub fn decide_by_workers<R: Threads + Sync>(
    rt: &R,
    alloc: Global,
    source: &Picture,
    settings: &Settings,
    first: RefView<'_>,
    second: Option<RefView<'_>>,
) -> Result<BlockData, NoMemory>
    requires settings { IsAccepted settings.now }
    requires source { deciding.IsPictureOfSamples source.now }
    requires first { deciding.IsSearched settings.now source.now (view_of first) }
    requires second { ForSome (views_of second) (deciding.IsSearched settings.now source.now) }
    ensures table { IfOk result (λ t. t ≡ decided_from settings.now source.now first.entry second.entry) }
    ensures lawful { IfOk result IsBlockTable }
    ensures samples { IfOk result (λ t. All HasDcSamples t.blocks) }
{
    let inputs = inputs_of(source, settings, first, second);
    let rows = rows_by_workers(rt, alloc, &inputs, settings.workers)?;
    let table = table_of(alloc, &inputs, rows.as_slice())?;
    Ok(table)
}
