ghost use Rattle.std.specs.Prelude.{◌≡◌, ℕ, ◌-◌, ◌≤◌, ◌<◌, length, min, slice_index, unsigned_abs, IfOk};
ghost use Rattle.std.specs.Prelude.{slice_index_or, pos};
ghost use Rattle.std.specs.List.{All};
ghost use Rattle.dirac_common.specs.Limits.{IsEncodedDepth};
ghost use Rattle.dirac_analysis.specs.Analysis.{padded as padded_table};
ghost use Rattle.dirac_analysis.specs.Fits.{AreSamples, IsDivisible};

use dirac_bands::padded;
use dirac_common::{LARGEST_SIDE, Narrow, NoMemory, Plane};
use std::alloc::Global;

/// Writes a row of samples, and its last one again up to the end of the line.
fn pad_row(samples: &[i16], line: &mut [i32])
    requires not_empty { 1 ≤ length samples.now }
    ensures { (x : ℕ) → x < length line.new → slice_index_or line.new x (pos 0)
        ≡ slice_index_or samples.now (min x (length samples.now - 1)) (pos 0) }
{
    let last = samples.len() - 1;
    for x in 0..line.len() {
        line[x] = i32::from(samples[x.min(last)]);
    }
}

/// A plane padded up to multiples of 2 to the power of the transform's depth: the last sample of each row again, then
/// the last row again.
pub(crate) fn pad(alloc: Global, plane: &Plane, depth: u8) -> Result<Narrow, NoMemory>
    requires depth { IsEncodedDepth depth }
    requires across { plane.now.width ≤ LARGEST_SIDE }
    requires down { plane.now.height ≤ LARGEST_SIDE }
    ensures { IfOk result (λ t. t ≡ padded_table depth plane.now) }
{
    let width = padded(plane.width(), depth);
    let height = padded(plane.height(), depth);
    let last = plane.height() - 1;
    let mut table = Narrow::try_new(alloc, width, height, 0)?;
    for y in 0..height {
        pad_row(plane.row(y.min(last)), table.row_mut(y));
    }
    Ok(table)
}
