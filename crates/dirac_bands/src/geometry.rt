ghost use Rattle.std.specs.Prelude.{◌≡◌, ◌+◌, ◌%◌, ◌^◌, ◌<◌, ◌≤◌};
ghost use Rattle.dirac_common.specs.Limits.{IsDepth};
ghost use Rattle.dirac_bands.specs.Geometry.{padded_size, size_of_band, edge_of};

use dirac_common::{LARGEST_SIDE, LARGEST_TABLE_SIDE};

/// A plane's size across or down, padded up to a multiple of 2 to the power of the transform's depth
/// (padded dimensions, Dirac specification).
#[tactic(auto, using(crate::proofs::Sizes::padded_bound))]
pub fn padded(size: u32, depth: u8) -> u32
    requires size { size ≤ LARGEST_TABLE_SIDE }
    requires depth { IsDepth depth }
    ensures value { result ≡ padded_size size depth }
    ensures divisible { result % 2 ^ depth ≡ 0 }
    ensures at_least { size ≤ result }
    ensures nearest { result < size + 2 ^ depth }
    ensures at_most_8192 { result ≤ LARGEST_TABLE_SIDE }
{
    let step = 1u32 << depth;
    (size + step - 1) / step * step
}

/// The size of a subband across or down: that of the LL band at level 0, and of the three others at
/// levels 1 to `depth` (subband dimensions, Dirac specification).
#[tactic(auto, using(crate::proofs::Sizes::lowest_band_bound))]
pub fn band_size(padded: u32, depth: u8, level: u8) -> u32
    requires size { padded ≤ LARGEST_TABLE_SIDE }
    requires depth { IsDepth depth }
    requires level { level ≤ depth }
    ensures value { result ≡ size_of_band padded depth level }
    ensures at_most_4096 { result ≤ LARGEST_SIDE }
{
    if level == 0 {
        padded >> depth
    } else {
        padded >> (depth - level + 1)
    }
}

/// Where codeblock `c` of `count` begins in a band of this size: it ends where the next one begins
/// (codeblock dimensions, Dirac specification).
pub fn edge(size: u32, count: u32, c: u32) -> u32
    requires size { size ≤ LARGEST_TABLE_SIDE }
    requires count { 1 ≤ count }
    requires c { c ≤ count }
    ensures value { result ≡ edge_of size count c }
    ensures inside { result ≤ size }
{
    (u64::from(size) * u64::from(c) / u64::from(count)) as u32
}
