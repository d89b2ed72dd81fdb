ghost use Rattle.std.specs.Prelude.{◌≡◌, ℕ, pos, ◌*◌, ◌/◌, ◌≤◌, ◌<◌, ◌^◌, length, map, slice_index_or, unsigned_abs};
ghost use Rattle.std.specs.Prelude.{IfOk};
ghost use Rattle.std.specs.List.{All};
ghost use Rattle.dirac_common.specs.Limits.{IsIndex};
ghost use Rattle.dirac_quant.specs.Quantiser.{reciprocal_of, reduced, with_sign_of};
ghost use Rattle.dirac_analysis.specs.Coded.{coded_by_one, reduced_band};

use crate::analysed::AnalysedBand;
use dirac_coeffs::{CodedBand, Coefficients, Indices};
use dirac_common::{BandTable, LARGEST_TABLE_SIDE, MOST_CODEBLOCKS, Narrow, NoMemory, Wide};
use dirac_lift::Held;
use dirac_quant::{factor, reciprocal, reduce_at, reduce_narrow};
use std::alloc::Global;

/// The number that codes a coefficient below 2^38, by the factor of an index and its reciprocal.
#[inline(always)]
fn reduce_wide(value: i128, factor: u64, reciprocal: u64) -> i64
    requires value { unsigned_abs value < 2 ^ 38 }
    requires factor { 4 ≤ factor }
    requires below { factor < 2 ^ 27 }
    requires reciprocal { reciprocal ≡ reciprocal_of factor }
    ensures { result ≡ with_sign_of value (4 * unsigned_abs value / factor) }
{
    reduce_at(value as i64, factor, reciprocal)
}

/// Writes the numbers that code a part of the values at this index; those before it stay.
pub(crate) fn reduce_part(values: &[i128], index: u8, start: usize, end: usize, line: &mut [i64])
    requires line { length line.old ≡ length values.now }
    requires end { end ≤ length values.now }
    requires index { IsIndex index }
    requires magnitudes_below_2_38 { All (λ v. unsigned_abs v < 2 ^ 38) values.now }
    ensures written { (x : ℕ) → start ≤ x → x < end → slice_index_or line.new x (pos 0)
        ≡ reduced (slice_index_or values.now x (pos 0)) index }
    ensures before { (x : ℕ) → x < start → slice_index_or line.new x (pos 0) ≡ slice_index_or line.old x (pos 0) }
{
    let factor = factor(index);
    let reciprocal = reciprocal(factor);
    for x in start..end {
        line[x] = reduce_wide(values[x], factor, reciprocal);
    }
}

/// Writes the number that codes each value.
fn reduce_values(values: &[i128], index: u8, coded: &mut [i64])
    requires len { length coded.old ≡ length values.now }
    requires index { IsIndex index }
    requires magnitudes_below_2_38 { All (λ v. unsigned_abs v < 2 ^ 38) values.now }
    ensures { coded.new ≡ map (λ v. reduced v index) values.now }
{
    reduce_part(values, index, 0, values.len(), coded);
}

/// The numbers that code a wide table at this index.
fn reduce_wide_table(alloc: Global, table: &Wide, index: u8) -> Result<Coefficients, NoMemory>
    requires index { IsIndex index }
    requires across { table.now.width ≤ LARGEST_TABLE_SIDE }
    requires down { table.now.height ≤ LARGEST_TABLE_SIDE }
    requires magnitudes_below_2_38 { All (λ v. unsigned_abs v < 2 ^ 38) table.now.values }
    ensures { IfOk result (λ c. c ≡ reduced_band index table.now) }
{
    let mut numbers = BandTable::try_new(alloc, table.width(), table.height(), 0)?;
    reduce_values(table.values(), index, numbers.values_mut());
    Coefficients::try_of(alloc, numbers)
}

/// Writes the number that codes each value of 32 bits, which has no more.
fn reduce_narrow_values(values: &[i32], index: u8, coded: &mut [i32])
    requires len { length coded.old ≡ length values.now }
    requires index { IsIndex index }
    ensures { coded.new ≡ map (λ v. reduced v index) values.now }
{
    let factor = factor(index);
    let reciprocal = reciprocal(factor);
    for x in 0..values.len() {
        coded[x] = reduce_narrow(values[x], factor, reciprocal);
    }
}

/// The numbers that code a table of 32 bits at this index.
fn reduce_narrow_table(alloc: Global, table: &Narrow, index: u8) -> Result<Coefficients, NoMemory>
    requires index { IsIndex index }
    requires across { table.now.width ≤ LARGEST_TABLE_SIDE }
    requires down { table.now.height ≤ LARGEST_TABLE_SIDE }
    ensures { IfOk result (λ c. c ≡ reduced_band index table.now) }
{
    let (width, height) = (table.width(), table.height());
    let values = table.values();
    let mut numbers = vec![in alloc; 0i32; values.len()]?;
    reduce_narrow_values(values, index, numbers.as_mut_slice());
    Ok(Coefficients::of_narrow(width, height, numbers))
}

/// The numbers that code a band at this index, in 32 bits where its values are.
fn reduce_band(alloc: Global, table: &AnalysedBand, index: u8) -> Result<Coefficients, NoMemory>
    requires index { IsIndex index }
    requires across { table.now.width ≤ LARGEST_TABLE_SIDE }
    requires down { table.now.height ≤ LARGEST_TABLE_SIDE }
    requires magnitudes_below_2_38 { All (λ v. unsigned_abs v < 2 ^ 38) table.now.values }
    ensures { IfOk result (λ c. c ≡ reduced_band index table.now) }
{
    match table.held() {
        Held::Narrow(values) => reduce_narrow_table(alloc, values, index),
        Held::Wide(values) => reduce_wide_table(alloc, values, index),
    }
}

/// A table of coefficients coded at this quantiser index, which each of its codeblocks has, that many across and down;
/// a band of zeros has index 0.
pub(crate) fn code_by_one(
    alloc: Global,
    table: &AnalysedBand,
    counts: (u32, u32),
    index: u8,
) -> Result<CodedBand, NoMemory>
    requires counts { (counts.0 ≤ MOST_CODEBLOCKS) × (counts.1 ≤ MOST_CODEBLOCKS) }
    requires index { IsIndex index }
    requires across { table.now.width ≤ LARGEST_TABLE_SIDE }
    requires down { table.now.height ≤ LARGEST_TABLE_SIDE }
    requires magnitudes_below_2_38 { All (λ v. unsigned_abs v < 2 ^ 38) table.now.values }
    ensures { IfOk result (λ b. b ≡ coded_by_one counts index table.now) }
{
    let coded = reduce_band(alloc, table, index)?;
    let index = if coded.are_zeros() { 0 } else { index };
    let (across, down) = counts;
    let indices = Indices::try_new(alloc, across * down, index)?;
    Ok(CodedBand {
        index,
        indices,
        table: coded,
    })
}
