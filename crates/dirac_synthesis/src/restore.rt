ghost use Rattle.std.specs.Prelude.{◌≡◌, ◌≢◌, ℕ, pos, ◌+◌, ◌-◌, ◌*◌, ◌%◌, ◌^◌, ◌<◌, ◌≤◌, length, map, slice_index_or};
ghost use Rattle.std.specs.Prelude.{unsigned_abs, IfOk};
ghost use Rattle.std.specs.List.{All};
ghost use Rattle.dirac_common.specs.Limits.{IsIndex};
ghost use Rattle.dirac_quant.specs.Quantiser.{restored};
ghost use Rattle.dirac_synthesis.specs.Codeblocks.{HasIndices, restored_band, restored_by_one};

use crate::codeblocks::{has_one_index, restore_codeblocks};
use dirac_coeffs::CodedBand;
use dirac_common::{Kind, LARGEST_TABLE_SIDE, NoMemory, Wide};
use dirac_quant::restore;
use std::alloc::Global;

/// Writes the coefficient that each coded number stands for to the places n * `step` + `first` of a line; its other
/// values stay.
pub fn restore_into(
    coded: &[i64],
    index: u8,
    kind: Kind,
    step: usize,
    first: usize,
    line: &mut [i128],
)
    requires line { length line.old ≡ length coded.now * step }
    requires first { first < step }
    requires index { IsIndex index }
    requires magnitudes_below_2_39 { All (λ v. unsigned_abs v < 2 ^ 39 - 1) coded.now }
    ensures written { (n : ℕ) → n < length coded.now → slice_index_or line.new (n * step + first) (pos 0)
        ≡ restored (slice_index_or coded.now n (pos 0)) index kind }
    ensures others { (x : ℕ) → x % step ≢ first → slice_index_or line.new x (pos 0)
        ≡ slice_index_or line.old x (pos 0) }
{
    for n in 0..coded.len() {
        line[n * step + first] = restore(coded[n], index, kind);
    }
}

/// Writes the coefficient that each coded number stands for.
fn restore_values(coded: &[i64], index: u8, kind: Kind, values: &mut [i128])
    requires len { length values.old ≡ length coded.now }
    requires index { IsIndex index }
    requires magnitudes_below_2_39 { All (λ v. unsigned_abs v < 2 ^ 39 - 1) coded.now }
    ensures { values.new ≡ map (λ v. restored v index kind) coded.now }
{
    restore_into(coded, index, kind, 1, 0, values);
}

/// The coefficients that a coded band stands for whose codeblocks have its index.
fn restore_by_one(alloc: Global, band: &CodedBand, kind: Kind) -> Result<Wide, NoMemory>
    requires index { IsIndex band.now.index }
    requires across { band.now.table.width ≤ LARGEST_TABLE_SIDE }
    requires down { band.now.table.height ≤ LARGEST_TABLE_SIDE }
    requires magnitudes_below_2_39 { All (λ v. unsigned_abs v < 2 ^ 39 - 1) band.now.table.values }
    ensures { IfOk result (λ t. t ≡ restored_by_one kind band.now) }
{
    let mut plane = Wide::try_new(alloc, band.table.width(), band.table.height(), 0)?;
    let table = band.table.try_wide(alloc)?;
    restore_values(table.values(), band.index, kind, plane.values_mut());
    Ok(plane)
}

/// The coefficients that a coded band stands for, which has that many codeblocks across and down (inverse quantisation,
/// Dirac specification).
pub fn restore_band(
    alloc: Global,
    band: &CodedBand,
    counts: (u32, u32),
    kind: Kind,
) -> Result<Wide, NoMemory>
    requires index { IsIndex band.now.index }
    requires indices { HasIndices counts band.now }
    requires across { band.now.table.width ≤ LARGEST_TABLE_SIDE }
    requires down { band.now.table.height ≤ LARGEST_TABLE_SIDE }
    requires magnitudes_below_2_39 { All (λ v. unsigned_abs v < 2 ^ 39 - 1) band.now.table.values }
    ensures value { IfOk result (λ t. t ≡ restored_band kind counts band.now) }
    ensures bound { IfOk result (λ t. All (λ v. unsigned_abs v < 2 ^ 64) t.values) }
{
    if has_one_index(band, counts) {
        restore_by_one(alloc, band, kind)
    } else {
        restore_codeblocks(alloc, band, counts, kind)
    }
}
