ghost use Rattle.std.specs.Prelude.{◌≡◌, ◌≤◌, IsTrue};
ghost use Rattle.dirac_common.specs.declared.formats.Chroma.{Chroma as TheChroma};
ghost use Rattle.dirac_parameters.specs.Grids as grids;

use dirac_common::BlockGrid;

/// Block lengths and separations of index 2, 3 or 4: block parameters, Dirac specification.
pub fn block_grid(index: u64) -> BlockGrid
    requires { (2 ≤ index) × (index ≤ 4) }
    ensures value { result ≡ grids.grid_of index }
    ensures grid { (chroma : TheChroma) → IsTrue (grids.is_grid chroma result) }
{
    let (length, separation) = match index {
        2 => (12, 8),
        3 => (16, 12),
        _ => (24, 16),
    };
    BlockGrid {
        xblen: length,
        yblen: length,
        xbsep: separation,
        ybsep: separation,
    }
}

/// Whether blocks overlap their neighbours alone, and aren't longer than 64.
pub fn is_overlap(length: u64, separation: u64) -> bool
    ensures value { result ≡ grids.is_overlap length separation }
    ensures at_most_64_each { IsTrue result → (length ≤ 64) × (separation ≤ 64) }
{
    1 <= separation && separation <= length && length <= 64 && length <= 2 * separation
}

/// Whether blocks and their overlaps have whole chroma samples, the overlap as many on both sides.
pub fn is_divisible(ratio: u32, length: u64, separation: u64) -> bool
    requires { (1 ≤ ratio) × (ratio ≤ 2) }
    ensures { result ≡ grids.is_divisible ratio length separation }
{
    let ratio = u64::from(ratio);
    length % ratio == 0
        && separation % ratio == 0
        && length.saturating_sub(separation) % (2 * ratio) == 0
}
