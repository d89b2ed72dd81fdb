ghost use Rattle.std.specs.Prelude.{◌≡◌, ◌+◌, ◌<◌, ◌≤◌, ◌^◌, ◌-◌, Bool, IfOk, OnOk, unsigned_abs};
ghost use Rattle.dirac_arith.specs.Interval.{narrowed_by};
ghost use Rattle.dirac_arith.specs.Spelling.{follow_at, signed_spelling};
ghost use Rattle.dirac_coeffs.specs.Contexts.{bits_context, follow_of, sign_neighbour, sign_of};
ghost use Rattle.dirac_coeffs.specs.Contexts.{value_in_corner, value_left_of, value_spelling};
ghost use Rattle.dirac_coeffs.specs.Decisions.{value_part, row_part};
ghost use Rattle.dirac_coeffs.specs.Lent.{numbers_in};
ghost use Rattle.dirac_coeffs.specs.WrittenBand.{IsBandToWrite, IsBlockToWrite, frame_in, values_of_block};

use crate::contexts;
use crate::layout::WrittenBand;
use crate::numbers::{Numbers, number_at};
use crate::spans::{Codeblock, Span, codeblock_span};
use dirac_arith::{COEFFICIENT_DIGITS, Encoder};
use dirac_common::{Band, NoMemory};

/// What stands to the left of a value that is written next, and above that.
#[derive(Clone, Copy)]
struct Beside {
    left: i64,
    corner: i64,
}

/// Writes a value behind its first follow context, which tells the others.
#[inline(never)]
fn write_number(
    encoder: &mut Encoder,
    band: Band,
    first: u8,
    left: i64,
    above: i64,
    value: i64,
) -> Result<(), NoMemory>
    requires { unsigned_abs value < 2 ^ 39 - 1 }
    ensures { (parent neighbours : Bool) → first ≡ follow_at (follow_of parent neighbours) 0
        → OnOk result (encoder.new ≡ narrowed_by encoder.old (signed_spelling (follow_of parent neighbours)
        bits_context (sign_of (sign_neighbour band left above)) value)) }
{
    let follow = contexts::follow_from(first);
    let sign = contexts::sign_context(band, left, above);
    encoder.signed(follow, COEFFICIENT_DIGITS, sign, value)
}

/// Writes a value among these neighbours; one decision spells 0, which most values are.
#[inline(always)]
fn write_value(
    encoder: &mut Encoder,
    band: Band,
    beside: Beside,
    above: i64,
    parent: i64,
    value: i64,
) -> Result<(), NoMemory>
    requires { unsigned_abs value < 2 ^ 39 - 1 }
    ensures { OnOk result (encoder.new ≡ narrowed_by encoder.old
        (value_spelling band beside.left above beside.corner parent value)) }
{
    let first = contexts::first_among(beside.left, above, beside.corner, parent);
    if value == 0 {
        return encoder.decision(first, true);
    }
    write_number(encoder, band, first, beside.left, above, value)
}

/// Writes the value in column `x` of row `y`, and tells what stands beside the next one.
#[inline(always)]
fn write_at(
    encoder: &mut Encoder,
    band: WrittenBand<'_>,
    x: usize,
    y: usize,
    beside: Beside,
) -> Result<Beside, NoMemory>
    requires writable { IsBandToWrite band }
    requires column { x < band.layout.width }
    requires row { y < band.layout.height }
    requires left { beside.left ≡ value_left_of band.layout.width (numbers_in band.values) x y }
    requires corner { beside.corner ≡ value_in_corner band.layout.width (numbers_in band.values) x y }
    ensures written { OnOk result (encoder.new ≡ narrowed_by encoder.old
        (value_part (frame_in band.entry) (numbers_in band.entry.values) x y)) }
    ensures left { IfOk result (λ next. next.left
        ≡ value_left_of band.entry.layout.width (numbers_in band.entry.values) (x + 1) y) }
    ensures corner { IfOk result (λ next. next.corner
        ≡ value_in_corner band.entry.layout.width (numbers_in band.entry.values) (x + 1) y) }
{
    let width = band.layout.width as usize;
    let above = contexts::above_value(band.values, width, x, y);
    let parent = contexts::parent_value(band.parent, width, x, y);
    let value = number_at(band.values, y * width + x);
    match write_value(encoder, band.layout.band, beside, above, parent, value) {
        Ok(()) => Ok(Beside {
            left: value,
            corner: above,
        }),
        Err(e) => Err(e),
    }
}

/// Writes the values of these columns of row `y`, as one piece of code with each caller, in which it is known how the
/// numbers are lent.
#[inline(always)]
fn write_part(
    encoder: &mut Encoder,
    band: WrittenBand<'_>,
    y: usize,
    columns: Span,
) -> Result<(), NoMemory>
    requires writable { IsBandToWrite band }
    requires columns { columns.start + columns.length ≤ band.layout.width }
    requires row { y < band.layout.height }
    ensures { OnOk result (encoder.new ≡ narrowed_by encoder.old
        (row_part (frame_in band.entry) (numbers_in band.entry.values) y columns.start columns.length)) }
{
    let width = band.layout.width as usize;
    let left = contexts::left_value(band.values, width, columns.start, y);
    let corner = contexts::corner_value(band.values, width, columns.start, y);
    let mut beside = Beside { left, corner };
    'values: for i in 0..columns.length {
        match write_at(encoder, band, columns.start + i, y, beside) {
            Ok(next) => beside = next,
            Err(e) => return Err(e),
        }
    }
    Ok(())
}

/// Writes the values of these columns of row `y`.
fn write_row(
    encoder: &mut Encoder,
    band: WrittenBand<'_>,
    y: usize,
    columns: Span,
) -> Result<(), NoMemory>
    requires writable { IsBandToWrite band }
    requires columns { columns.start + columns.length ≤ band.layout.width }
    requires row { y < band.layout.height }
    ensures { OnOk result (encoder.new ≡ narrowed_by encoder.old
        (row_part (frame_in band.entry) (numbers_in band.entry.values) y columns.start columns.length)) }
{
    match band.values {
        Numbers::Narrow(list) => {
            let values = Numbers::Narrow(list);
            match band.parent {
                Numbers::Narrow(above) => {
                    let parent = Numbers::Narrow(above);
                    write_part(
                        encoder,
                        WrittenBand {
                            values,
                            parent,
                            ..band
                        },
                        y,
                        columns,
                    )
                }
                Numbers::Zeros(_count) => {
                    write_part(encoder, WrittenBand { values, ..band }, y, columns)
                }
                Numbers::Wide(_above) => {
                    write_part(encoder, WrittenBand { values, ..band }, y, columns)
                }
            }
        }
        _ => write_part(encoder, band, y, columns),
    }
}

/// Writes the values of a codeblock.
pub fn write_block_values(
    encoder: &mut Encoder,
    band: WrittenBand<'_>,
    codeblock: Codeblock,
) -> Result<(), NoMemory>
    requires { IsBlockToWrite band codeblock }
    ensures { OnOk result (encoder.new ≡ narrowed_by encoder.old
        (values_of_block band.entry codeblock.row codeblock.column)) }
{
    let layout = band.layout;
    let columns = codeblock_span(layout.width, layout.across, codeblock.column);
    let rows = codeblock_span(layout.height, layout.down, codeblock.row);
    'rows: for j in 0..rows.length {
        write_row(encoder, band, rows.start + j, columns)?;
    }
    Ok(())
}
