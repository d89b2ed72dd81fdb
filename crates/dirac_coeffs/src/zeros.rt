ghost use Rattle.std.specs.Prelude.{◌≡◌};
ghost use Rattle.dirac_coeffs.specs.WrittenBand.{IsBlockToWrite, marks_in};

use crate::contexts::is_zero_value;
use crate::layout::WrittenBand;
use crate::numbers::number_at;
use crate::spans::{Codeblock, codeblock_span};

/// Whether a codeblock has zeros alone, or no values.
pub fn has_zeros_alone(band: WrittenBand<'_>, codeblock: Codeblock) -> bool
    requires { IsBlockToWrite band codeblock }
    ensures { result ≡ (marks_in band.entry codeblock.row codeblock.column).skipped }
{
    let layout = band.layout;
    let columns = codeblock_span(layout.width, layout.across, codeblock.column);
    let rows = codeblock_span(layout.height, layout.down, codeblock.row);
    let width = layout.width as usize;
    'rows: for j in 0..rows.length {
        let row = (rows.start + j) * width;
        'values: for i in 0..columns.length {
            if !is_zero_value(number_at(band.values, row + (columns.start + i))) {
                return false;
            }
        }
    }
    true
}
