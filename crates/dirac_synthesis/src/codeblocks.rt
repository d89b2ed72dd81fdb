//! Bands whose codeblocks have indices of their own.
ghost use Rattle.std.specs.Prelude.{◌≡◌, ℕ, pos, true, ◌+◌, ◌-◌, ◌*◌, ◌^◌, ◌<◌, ◌≤◌, length, slice_index_or};
ghost use Rattle.std.specs.Prelude.{unsigned_abs, IfOk};
ghost use Rattle.std.specs.List.{All};
ghost use Rattle.dirac_common.specs.Limits.{IsIndex};
ghost use Rattle.dirac_common.specs.declared.formats.Kind.{Kind as TheKind};
ghost use Rattle.dirac_quant.specs.Quantiser.{restored, scaled};
ghost use Rattle.dirac_coeffs.specs.Indices.{index_at};
ghost use Rattle.dirac_synthesis.specs.Codeblocks.{HasIndices, codeblock_of, restored_band, restored_by_one};

use crate::scale::{Scale, scale_of};
use dirac_bands::edge;
use dirac_coeffs::{CodedBand, Indices};
use dirac_common::{Kind, LARGEST_TABLE_SIDE, MOST_CODEBLOCKS, NoMemory, Wide};
use std::alloc::Global;

/// Whether all of that many indices are this one.
fn are_all(indices: &Indices, count: u32, index: u8) -> bool
    requires { length indices.now ≡ count }
    ensures { result ≡ true → All (λ i. i ≡ index) indices.now }
{
    for c in 0..count {
        if indices.at(c) != index {
            return false;
        }
    }
    true
}

/// Whether all codeblocks of a band have its index: then this restores all values.
pub fn has_one_index(band: &CodedBand, counts: (u32, u32)) -> bool
    requires { HasIndices counts band.now }
    ensures { result ≡ true → (kind : TheKind) → restored_band kind counts band.now ≡ restored_by_one kind band.now }
{
    let (across, down) = counts;
    let _width = band.table.width();
    are_all(&band.indices, across * down, band.index)
}

/// The codeblock, of that many, that a column or row of a band of this size lies in.
fn codeblock(size: u32, count: u32, place: u32) -> u32
    requires size { size ≤ LARGEST_TABLE_SIDE }
    requires count { (1 ≤ count) × (count ≤ MOST_CODEBLOCKS) }
    requires inside { place < size }
    ensures value { result ≡ codeblock_of size count place }
    ensures among { result < count }
{
    ((u64::from(count) * (u64::from(place) + 1) - 1) / u64::from(size)) as u32
}

/// The coefficient that a coded number stands for.
#[inline(always)]
fn restore_scaled(value: i64, scale: Scale) -> i128
    requires value { unsigned_abs value < 2 ^ 39 - 1 }
    requires factor { scale.factor < 2 ^ 27 }
    requires offset { scale.offset < 2 ^ 27 }
    ensures { result ≡ scaled value scale.factor scale.offset }
{
    let whole = u128::from(value.unsigned_abs());
    if whole == 0 {
        return 0;
    }
    let factor = u128::from(scale.factor);
    let offset = u128::from(scale.offset);
    let size = ((whole * factor + offset + 2) / 4) as i128;
    if value < 0 { -size } else { size }
}

/// Writes the coefficients of a codeblock's part of a row, which begins and ends at these columns.
fn restore_part(coded: &[i64], scale: Scale, start: usize, end: usize, line: &mut [i128])
    requires line { length line.old ≡ length coded.now }
    requires part { (start ≤ end) × (end ≤ length coded.now) }
    requires factor { scale.factor < 2 ^ 27 }
    requires offset { scale.offset < 2 ^ 27 }
    requires magnitudes_below_2_39 { All (λ v. unsigned_abs v < 2 ^ 39 - 1) coded.now }
    ensures written { (x : ℕ) → start ≤ x → x < end → slice_index_or line.new x (pos 0)
        ≡ scaled (slice_index_or coded.now x (pos 0)) scale.factor scale.offset }
    ensures before { (x : ℕ) → x < start → slice_index_or line.new x (pos 0) ≡ slice_index_or line.old x (pos 0) }
{
    for x in start..end {
        line[x] = restore_scaled(coded[x], scale);
    }
}

/// Writes the coefficients of a row whose codeblocks, `across`, stand from place `first` on among the indices.
fn restore_row(
    coded: &[i64],
    indices: &Indices,
    first: u32,
    across: u32,
    kind: Kind,
    line: &mut [i128],
)
    requires line { length line.old ≡ length coded.now }
    requires width { length coded.now ≤ LARGEST_TABLE_SIDE }
    requires first { first ≤ MOST_CODEBLOCKS * MOST_CODEBLOCKS }
    requires across { (1 ≤ across) × (across ≤ MOST_CODEBLOCKS) }
    requires row { first + across ≤ length indices.now }
    requires indices { All IsIndex indices.now }
    requires magnitudes_below_2_39 { All (λ v. unsigned_abs v < 2 ^ 39 - 1) coded.now }
    ensures { (x : ℕ) → x < length coded.now → slice_index_or line.new x (pos 0)
        ≡ restored (slice_index_or coded.now x (pos 0)) (index_at indices.now (first
        + codeblock_of (length coded.now) across x)) kind }
{
    let width = coded.len() as u32;
    for cx in 0..across {
        let start = edge(width, across, cx);
        let end = edge(width, across, cx + 1);
        let scale = scale_of(indices.at(first + cx), kind);
        restore_part(coded, scale, start as usize, end as usize, line);
    }
}

/// Where the codeblocks of this row of a band begin among all.
pub fn first_codeblock(height: u32, counts: (u32, u32), y: u32) -> u32
    requires height { height ≤ LARGEST_TABLE_SIDE }
    requires across { counts.0 ≤ MOST_CODEBLOCKS }
    requires down { (1 ≤ counts.1) × (counts.1 ≤ MOST_CODEBLOCKS) }
    requires inside { y < height }
    ensures value { result ≡ codeblock_of height counts.1 y * counts.0 }
    ensures at_most_all { result ≤ MOST_CODEBLOCKS * MOST_CODEBLOCKS }
    ensures row { result + counts.0 ≤ counts.0 * counts.1 }
{
    let (across, down) = counts;
    codeblock(height, down, y) * across
}

/// The coefficients that a coded band stands for, each codeblock restored with its own index.
pub fn restore_codeblocks(
    alloc: Global,
    band: &CodedBand,
    counts: (u32, u32),
    kind: Kind,
) -> Result<Wide, NoMemory>
    requires indices { HasIndices counts band.now }
    requires across { band.now.table.width ≤ LARGEST_TABLE_SIDE }
    requires down { band.now.table.height ≤ LARGEST_TABLE_SIDE }
    requires magnitudes_below_2_39 { All (λ v. unsigned_abs v < 2 ^ 39 - 1) band.now.table.values }
    ensures { IfOk result (λ t. t ≡ restored_band kind counts band.now) }
{
    let (across, _down) = counts;
    let table = band.table.try_wide(alloc)?;
    let height = table.height();
    let mut plane = Wide::try_new(alloc, table.width(), height, 0)?;
    for y in 0..height {
        let first = first_codeblock(height, counts, y);
        let coded = table.row(y);
        restore_row(coded, &band.indices, first, across, kind, plane.row_mut(y));
    }
    Ok(plane)
}
