ghost use Rattle.std.specs.Prelude.{◌≡◌, ◌+◌, ◌*◌, ◌^◌, ◌<◌, ◌≤◌, length};
ghost use Rattle.dirac_arith.specs.Coded.{read_coded};
ghost use Rattle.dirac_coeffs.specs.Answers.{Goes};
ghost use Rattle.dirac_coeffs.specs.BandRead.{row_step};
ghost use Rattle.dirac_coeffs.specs.Decisions.{frame_of};
ghost use Rattle.dirac_coeffs.specs.Lent.{numbers_in};

use crate::contexts;
use crate::layout::BandLayout;
use crate::numbers::Numbers;
use crate::spans::Span;
use crate::store::Unread;
use dirac_arith::{COEFFICIENT_DIGITS, Decoder};
use dirac_common::LARGEST_TABLE_SIDE;

/// Reads the values of these columns of row `y` in 64 bits, which hold every value that a block can.
pub fn read_wide_row(
    decoder: &mut Decoder<'_>,
    values: &mut [i64],
    layout: BandLayout,
    parent: Numbers<'_>,
    y: usize,
    columns: Span,
) -> Result<(), Unread>
    requires columns { columns.start + columns.length ≤ layout.width }
    requires width { layout.width ≤ LARGEST_TABLE_SIDE }
    requires row { y < LARGEST_TABLE_SIDE }
    requires inside { (y + 1) * layout.width ≤ length values.old }
    requires no_overflow { decoder.old.at.doublings < 2 ^ 60 }
    ensures value { Goes ⊥ result values.new decoder.new
        (read_coded (row_step (frame_of layout (numbers_in parent.entry)) y
        columns.start columns.length values.old) decoder.old) }
    ensures len { length values.new ≡ length values.old }
    ensures few_doublings { decoder.new.at.doublings ≤ decoder.old.at.doublings + 702 * columns.length }
{
    let width = layout.width as usize;
    'values: for i in 0..columns.length {
        let x = columns.start + i;
        let lent = Numbers::Wide(values);
        let left = contexts::left_value(lent, width, x, y);
        let above = contexts::above_value(lent, width, x, y);
        let corner = contexts::corner_value(lent, width, x, y);
        let parent = contexts::parent_value(parent, width, x, y);
        let first = contexts::first_among(left, above, corner, parent);
        let follow = contexts::follow_from(first);
        let sign = contexts::sign_context(layout.band, left, above);
        match decoder.signed(follow, COEFFICIENT_DIGITS, sign) {
            Ok(value) => values[y * width + x] = value,
            Err(cause) => return Err(Unread::Refused(cause)),
        }
    }
    Ok(())
}
