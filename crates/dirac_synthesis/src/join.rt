ghost use Rattle.std.specs.Prelude.{◌≡◌, ℕ, pos, ◌-◌, ◌*◌, ◌^◌, ◌<◌, length, map, slice_index_or};
ghost use Rattle.std.specs.Prelude.{unsigned_abs, IfOk};
ghost use Rattle.std.specs.List.{All};
ghost use Rattle.dirac_common.specs.Limits.{IsIndex};
ghost use Rattle.dirac_quant.specs.Quantiser.{restored};
ghost use Rattle.dirac_bands.specs.Interleaving.{interleaved};
ghost use Rattle.dirac_synthesis.specs.Codeblocks.{restored_by_one};
ghost use Rattle.dirac_synthesis.specs.Levels.{IsLevel, joined_by};

use crate::bands::{LevelBands, Synthesis};
use crate::restore::restore_into;
use dirac_common::{Kind, NoMemory, Wide};
use std::alloc::Global;

/// Copies values to the places 2n of a line of twice the length.
#[inline(always)]
fn copy_into(values: &[i128], line: &mut [i128])
    requires line { length line.old ≡ 2 * length values.now }
    ensures written { (n : ℕ) → n < length values.now → slice_index_or line.new (2 * n) (pos 0)
        ≡ slice_index_or values.now n (pos 0) }
{
    for n in 0..values.len() {
        line[2 * n] = values[n];
    }
}

/// An even row of a joined plane: values of LL, and in turn with them the coefficients of HL.
#[inline(always)]
fn even_row(low: &[i128], right: &[i64], index: u8, kind: Kind, line: &mut [i128])
    requires right { length right.now ≡ length low.now }
    requires line { length line.old ≡ 2 * length low.now }
    requires index { IsIndex index }
    requires magnitudes_below_2_39 { All (λ v. unsigned_abs v < 2 ^ 39 - 1) right.now }
    ensures { line.new ≡ interleaved low.now (map (λ v. restored v index kind) right.now) }
{
    copy_into(low, line);
    restore_into(right, index, kind, 2, 1, line);
}

/// An odd row of a joined plane: coefficients of LH, and in turn with them those of HH.
#[inline(always)]
fn odd_row(
    left: &[i64],
    left_index: u8,
    right: &[i64],
    right_index: u8,
    kind: Kind,
    line: &mut [i128],
)
    requires right { length right.now ≡ length left.now }
    requires line { length line.old ≡ 2 * length left.now }
    requires left_index { IsIndex left_index }
    requires right_index { IsIndex right_index }
    requires left_small { All (λ v. unsigned_abs v < 2 ^ 39 - 1) left.now }
    requires right_small { All (λ v. unsigned_abs v < 2 ^ 39 - 1) right.now }
    ensures { line.new ≡ interleaved (map (λ v. restored v left_index kind) left.now)
        (map (λ v. restored v right_index kind) right.now) }
{
    restore_into(left, left_index, kind, 2, 0, line);
    restore_into(right, right_index, kind, 2, 1, line);
}

/// The plane that an LL band and what the three coded bands of its level stand for interleave to, where the codeblocks
/// of each have its index: each coefficient is restored at its place, with no table of the band between.
pub fn join_restored(
    alloc: Global,
    by: Synthesis,
    low: &Wide,
    bands: LevelBands,
) -> Result<Wide, NoMemory>
    requires { IsLevel by low.now bands }
    ensures { IfOk result (λ t. t ≡ joined_by (restored_by_one by.kind) low.now bands.entry) }
{
    let LevelBands { hl, lh, hh } = bands;
    let width = low.width();
    let height = low.height();
    let mut plane = Wide::try_new(alloc, 2 * width, 2 * height, 0)?;
    let hl_table = hl.table.try_wide(alloc)?;
    let lh_table = lh.table.try_wide(alloc)?;
    let hh_table = hh.table.try_wide(alloc)?;
    for y in 0..height {
        let right = hl_table.row(y);
        even_row(low.row(y), right, hl.index, by.kind, plane.row_mut(2 * y));
        let left = lh_table.row(y);
        let right = hh_table.row(y);
        odd_row(
            left,
            lh.index,
            right,
            hh.index,
            by.kind,
            plane.row_mut(2 * y + 1),
        );
    }
    Ok(plane)
}
