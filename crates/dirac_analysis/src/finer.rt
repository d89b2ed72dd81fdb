//! Subbands whose flat codeblocks are quantised by a lower index than the others.
ghost use Rattle.std.specs.Prelude.{◌≡◌, ℕ, pos, ◌+◌, ◌*◌, ◌^◌, ◌<◌, ◌≤◌, length, slice_index_or, unsigned_abs, IfOk};
ghost use Rattle.std.specs.List.{All};
ghost use Rattle.dirac_common.specs.Limits.{IsIndex};
ghost use Rattle.dirac_common.specs.Table.{table_at, table_of};
ghost use Rattle.dirac_quant.specs.Quantiser.{reduced};
ghost use Rattle.dirac_bands.specs.Geometry.{edge_of};
ghost use Rattle.dirac_coeffs.specs.Indices.{index_at};
ghost use Rattle.dirac_synthesis.specs.Codeblocks.{codeblock_of};
ghost use Rattle.dirac_analysis.specs.Coded.{coded as coded_band};
ghost use Rattle.dirac_analysis.specs.Fits.{IsQuantisable};

use crate::choosing::{Choices, choose_all};
use crate::coded::reduce_part;
use dirac_bands::edge;
use dirac_coeffs::{CodedBand, Coefficients, Indices};
use dirac_common::{BandTable, LARGEST_TABLE_SIDE, MOST_CODEBLOCKS, NoMemory, Wide};
use dirac_synthesis::first_codeblock;
use std::alloc::Global;

/// Writes the numbers of a row whose codeblocks, `across`, stand from place `first` on among the indices.
fn reduce_row(values: &[i128], indices: &Indices, first: u32, across: u32, line: &mut [i64])
    requires line { length line.old ≡ length values.now }
    requires width { length values.now ≤ LARGEST_TABLE_SIDE }
    requires first { first ≤ MOST_CODEBLOCKS * MOST_CODEBLOCKS }
    requires across { (1 ≤ across) × (across ≤ MOST_CODEBLOCKS) }
    requires row { first + across ≤ length indices.now }
    requires indices { All IsIndex indices.now }
    requires magnitudes_below_2_38 { All (λ v. unsigned_abs v < 2 ^ 38) values.now }
    ensures { (x : ℕ) → x < length values.now → slice_index_or line.new x (pos 0)
        ≡ reduced (slice_index_or values.now x (pos 0)) (index_at indices.now (first
        + codeblock_of (length values.now) across x)) }
{
    let width = values.len() as u32;
    for cx in 0..across {
        let start = edge(width, across, cx);
        let end = edge(width, across, cx + 1);
        let index = indices.at(first + cx);
        reduce_part(values, index, start as usize, end as usize, line);
    }
}

/// The numbers of a band, each codeblock quantised with its own index.
fn reduce_codeblocks(
    alloc: Global,
    table: &Wide,
    counts: (u32, u32),
    indices: &Indices,
) -> Result<BandTable, NoMemory>
    requires fits { IsQuantisable table.now }
    requires across { (1 ≤ counts.0) × (counts.0 ≤ MOST_CODEBLOCKS) }
    requires down { (1 ≤ counts.1) × (counts.1 ≤ MOST_CODEBLOCKS) }
    requires count { length indices.now ≡ counts.0 * counts.1 }
    requires indices { All IsIndex indices.now }
    ensures { IfOk result (λ t. t ≡ table_of table.now.width table.now.height (λ x y. reduced (table_at table.now x y)
        (index_at indices.now (codeblock_of table.now.height counts.1 y * counts.0
        + codeblock_of table.now.width counts.0 x)))) }
{
    let (across, _down) = counts;
    let height = table.height();
    let mut numbers = BandTable::try_new(alloc, table.width(), height, 0)?;
    for y in 0..height {
        let first = first_codeblock(height, counts, y);
        reduce_row(table.row(y), indices, first, across, numbers.row_mut(y));
    }
    Ok(numbers)
}

/// A table of coefficients coded at this quantiser index, its flat codeblocks at one that is lower by `finer`, but at
/// least 0; that many codeblocks go across and down. In a band of zeros all indices are 0.
pub(crate) fn code_finer(
    alloc: Global,
    table: &Wide,
    counts: (u32, u32),
    finer: u8,
    index: u8,
) -> Result<CodedBand, NoMemory>
    requires fits { IsQuantisable table.now }
    requires index { IsIndex index }
    requires across { (1 ≤ counts.0) × (counts.0 ≤ MOST_CODEBLOCKS) }
    requires down { (1 ≤ counts.1) × (counts.1 ≤ MOST_CODEBLOCKS) }
    ensures { IfOk result (λ b. b ≡ coded_band counts finer index table.now) }
{
    let Choices { chosen, coded } = choose_all(alloc, table, counts, finer, index)?;
    let numbers = reduce_codeblocks(alloc, table, counts, &chosen)?;
    let quantised = Coefficients::try_of(alloc, numbers)?;
    if !quantised.are_zeros() {
        return Ok(CodedBand {
            index,
            indices: coded,
            table: quantised,
        });
    }
    let (across, down) = counts;
    let indices = Indices::try_new(alloc, across * down, 0)?;
    Ok(CodedBand {
        index: 0,
        indices,
        table: quantised,
    })
}
