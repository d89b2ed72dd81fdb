ghost use Rattle.std.specs.Prelude.{◌≡◌, ◌+◌, ◌*◌, ◌^◌, ◌<◌, ◌≤◌, length};
ghost use Rattle.dirac_arith.specs.Coded.{read_coded};
ghost use Rattle.dirac_coeffs.specs.Answers.{Goes};
ghost use Rattle.dirac_coeffs.specs.BandRead.{filled_step, row_step};
ghost use Rattle.dirac_coeffs.specs.Decisions.{frame_of};
ghost use Rattle.dirac_coeffs.specs.Layouts.{codeblock_extent, IsCodeblockOf};
ghost use Rattle.dirac_coeffs.specs.Lent.{IsNarrow, numbers_in, values_in};

use crate::layout::BandLayout;
use crate::numbers::Numbers;
use crate::spans::{Codeblock, Span, codeblock_span};
use crate::store::{Unread, Values};
use crate::values::read_narrow_row;
use crate::wide_values::read_wide_row;
use dirac_arith::Decoder;
use dirac_common::LARGEST_TABLE_SIDE;

/// Reads the values of these columns of row `y`: in 32 bits where the parent is held so or has zeros alone, which
/// contexts see as they do no parent.
fn read_row(
    decoder: &mut Decoder<'_>,
    values: &mut Values,
    layout: BandLayout,
    parent: Numbers<'_>,
    y: usize,
    columns: Span,
) -> Result<(), Unread>
    requires columns { columns.start + columns.length ≤ layout.width }
    requires width { layout.width ≤ LARGEST_TABLE_SIDE }
    requires row { y < LARGEST_TABLE_SIDE }
    requires inside { (y + 1) * layout.width ≤ length (values_in values.old) }
    requires no_overflow { decoder.old.at.doublings < 2 ^ 60 }
    ensures value { Goes (IsNarrow values.new) result (values_in values.new) decoder.new (read_coded (row_step
        (frame_of layout (numbers_in parent.entry)) y columns.start columns.length (values_in values.old))
        decoder.old) }
    ensures len { length (values_in values.new) ≡ length (values_in values.old) }
    ensures narrow { IsNarrow values.new → IsNarrow values.old }
    ensures few_doublings { decoder.new.at.doublings ≤ decoder.old.at.doublings + 702 * columns.length }
{
    match values {
        Values::Narrow(list) => {
            let list = list.as_mut_slice();
            match parent {
                Numbers::Zeros(_count) => read_narrow_row(decoder, list, layout, &[], y, columns),
                Numbers::Narrow(below) => read_narrow_row(decoder, list, layout, below, y, columns),
                Numbers::Wide(_below) => Err(Unread::TooWide),
            }
        }
        Values::Wide(list) => {
            read_wide_row(decoder, list.as_mut_slice(), layout, parent, y, columns)
        }
    }
}

/// Reads the values of a codeblock.
pub fn read_block_values(
    decoder: &mut Decoder<'_>,
    values: &mut Values,
    layout: BandLayout,
    parent: Numbers<'_>,
    codeblock: Codeblock,
) -> Result<(), Unread>
    requires block { IsCodeblockOf layout codeblock }
    requires len { length (values_in values.old) ≡ layout.width * layout.height }
    requires no_overflow { decoder.old.at.doublings < 2 ^ 58 }
    ensures value { Goes (IsNarrow values.new) result (values_in values.new) decoder.new (read_coded (filled_step layout
        (numbers_in parent.entry) codeblock.row codeblock.column (values_in values.old)) decoder.old) }
    ensures len { length (values_in values.new) ≡ length (values_in values.old) }
    ensures narrow { IsNarrow values.new → IsNarrow values.old }
    ensures few_doublings { decoder.new.at.doublings ≤ decoder.old.at.doublings
        + 702 * LARGEST_TABLE_SIDE * codeblock_extent
        layout.width layout.across codeblock.column }
{
    let columns = codeblock_span(layout.width, layout.across, codeblock.column);
    let rows = codeblock_span(layout.height, layout.down, codeblock.row);
    'rows: for j in 0..rows.length {
        match read_row(decoder, values, layout, parent, rows.start + j, columns) {
            Ok(()) => {}
            Err(unread) => return Err(unread),
        }
    }
    Ok(())
}
