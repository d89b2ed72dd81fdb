ghost use Rattle.std.specs.Prelude.{◌≡◌, ◌+◌, ◌≤◌, ◌<◌};
ghost use Rattle.dirac_bands.specs.Geometry.{edge_of};
ghost use Rattle.dirac_coeffs.specs.Layouts as layouts;

use crate::layout::BandLayout;
use dirac_bands::edge;
use dirac_common::LARGEST_TABLE_SIDE;

/// Where a codeblock begins, across or down, and how long it is there.
#[derive(Clone, Copy)]
pub struct Span {
    pub start: usize,
    pub length: usize,
}

/// The place of a codeblock in its band, counted from 0.
#[derive(Clone, Copy)]
pub struct Codeblock {
    pub row: u32,
    pub column: u32,
}

/// The columns or rows of codeblock `c`.
pub fn codeblock_span(size: u32, count: u32, c: u32) -> Span
    requires size { size ≤ LARGEST_TABLE_SIDE }
    requires c { c < count }
    ensures start { result.start ≡ edge_of size count c }
    ensures length { result.length ≡ layouts.codeblock_extent size count c }
    ensures inside { result.start + result.length ≤ size }
{
    let start = edge(size, count, c);
    let end = edge(size, count, c + 1);
    Span {
        start: start as usize,
        length: (end - start) as usize,
    }
}

/// Whether a subband with these codeblocks across and down is divided: it has more than one.
pub fn is_parted(counts: (u32, u32)) -> bool
    ensures { result ≡ layouts.is_parted counts }
{
    let (across, down) = counts;
    !(across == 1 && down == 1)
}

/// Whether each codeblock begins with a zero flag.
pub fn has_flags(layout: BandLayout) -> bool
    ensures { result ≡ layouts.is_flagged layout }
{
    is_parted((layout.across, layout.down))
}
