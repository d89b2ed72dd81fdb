ghost use Rattle.std.specs.Prelude.{◌≡◌, ◌+◌, ◌<◌, ◌≤◌, IfOk};
ghost use Rattle.dirac_synthesis.specs.Residual.{cut, part_from, rows_between};

use crate::held::Residual;
use dirac_common::{LARGEST_TABLE_SIDE, Narrow, NoMemory, Wide};
use dirac_lift::Held;
use std::alloc::Global;

/// The first `width` columns of `height` rows of a table from row `first` on.
fn cut_wide(
    alloc: Global,
    table: &Wide,
    first: u32,
    width: u32,
    height: u32,
) -> Result<Wide, NoMemory>
    requires across { (1 ≤ width) × (width ≤ table.now.width) × (width ≤ LARGEST_TABLE_SIDE) }
    requires down { (1 ≤ height) × (first + height ≤ table.now.height) × (height ≤ LARGEST_TABLE_SIDE) }
    ensures { IfOk result (λ t. t ≡ part_from first width height table.now) }
{
    let mut part = Wide::try_new(alloc, width, height, 0)?;
    let _rows = table.height();
    for y in 0..height {
        let from = table.row(first + y);
        part.row_mut(y).copy_from_slice(&from[..width as usize]);
    }
    Ok(part)
}

/// The first `width` columns of `height` rows of a table from row `first` on.
pub fn cut_narrow(
    alloc: Global,
    table: &Narrow,
    first: u32,
    width: u32,
    height: u32,
) -> Result<Narrow, NoMemory>
    requires across { (1 ≤ width) × (width ≤ table.now.width) × (width ≤ LARGEST_TABLE_SIDE) }
    requires down { (1 ≤ height) × (first + height ≤ table.now.height) × (height ≤ LARGEST_TABLE_SIDE) }
    ensures { IfOk result (λ t. t ≡ part_from first width height table.now) }
{
    let mut part = Narrow::try_new(alloc, width, height, 0)?;
    let _rows = table.height();
    for y in 0..height {
        let from = table.row(first + y);
        part.row_mut(y).copy_from_slice(&from[..width as usize]);
    }
    Ok(part)
}

/// How many columns a table has.
fn width_of(table: &Residual) -> u32
    ensures value { result ≡ table.now.width }
    ensures at_least_1 { 1 ≤ result }
{
    match table.held() {
        Held::Narrow(table) => table.width(),
        Held::Wide(table) => table.width(),
    }
}

/// The first `width` columns and `height` rows of a table: its own values where it has no other columns.
pub fn cut_off(
    alloc: Global,
    table: Residual,
    width: u32,
    height: u32,
) -> Result<Residual, NoMemory>
    requires across { (1 ≤ width) × (width ≤ table.width) × (width ≤ LARGEST_TABLE_SIDE) }
    requires down { (1 ≤ height) × (height ≤ table.height) × (height ≤ LARGEST_TABLE_SIDE) }
    ensures { IfOk result (λ t. t ≡ cut width height table) }
{
    if width_of(&table) == width {
        return Ok(table.first_rows(height));
    }
    part_of(alloc, &table, 0, width, height)
}

/// The first `width` columns of `height` rows of a table from row `first` on, in the form that it is held in.
fn part_of(
    alloc: Global,
    table: &Residual,
    first: u32,
    width: u32,
    height: u32,
) -> Result<Residual, NoMemory>
    requires across { (1 ≤ width) × (width ≤ table.now.width) × (width ≤ LARGEST_TABLE_SIDE) }
    requires down { (1 ≤ height) × (first + height ≤ table.now.height) × (height ≤ LARGEST_TABLE_SIDE) }
    ensures { IfOk result (λ t. t ≡ part_from first width height table.now) }
{
    match table.held() {
        Held::Narrow(table) => {
            let part = cut_narrow(alloc, table, first, width, height)?;
            Ok(Residual::of_narrow(part))
        }
        Held::Wide(table) => {
            let part = cut_wide(alloc, table, first, width, height)?;
            Ok(Residual::of_wide(part))
        }
    }
}

/// Rows `from` to `to` of a table.
pub fn rows_of(alloc: Global, table: &Residual, from: u32, to: u32) -> Result<Residual, NoMemory>
    requires across { table.now.width ≤ LARGEST_TABLE_SIDE }
    requires some { from < to }
    requires inside { (to ≤ table.now.height) × (table.now.height ≤ LARGEST_TABLE_SIDE) }
    ensures { IfOk result (λ t. t ≡ rows_between from to table.now) }
{
    part_of(alloc, table, from, width_of(table), to - from)
}
