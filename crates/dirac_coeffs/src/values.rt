ghost use Rattle.std.specs.Prelude.{◌≡◌, ⊤, ◌+◌, ◌*◌, ◌^◌, ◌<◌, ◌≤◌, Bool, false, length, IfOk};
ghost use Rattle.std.specs.Prelude.{IfErr, OnErr};
ghost use Rattle.std.specs.Prelude.{Ok, Err};
ghost use Rattle.dirac_arith.specs.Coded.{read_coded};
ghost use Rattle.dirac_arith.specs.Deciding.{GivesReading, decision_read, signed_read};
ghost use Rattle.dirac_arith.specs.Decoding.{reading_at};
ghost use Rattle.dirac_arith.specs.Reading.{Reading};
ghost use Rattle.dirac_arith.specs.Registers.{Runs, doublings_of};
ghost use Rattle.dirac_arith.specs.Spelling.{follow_at};
ghost use Rattle.dirac_coeffs.specs.Answers.{Goes, RefusedBy};
ghost use Rattle.dirac_coeffs.specs.BandRead.{value_step, row_step};
ghost use Rattle.dirac_coeffs.specs.Contexts.{follow_among, follow_of, bits_context, value_in_corner};
ghost use Rattle.dirac_coeffs.specs.Contexts.{value_left_of};
ghost use Rattle.dirac_coeffs.specs.Contexts.{sign_of};
ghost use Rattle.dirac_coeffs.specs.Contexts.{sign_neighbour};
ghost use Rattle.dirac_coeffs.specs.Decisions.{frame_of};

use crate::coefficients::lower_half;
use crate::contexts;
use crate::layout::BandLayout;
use crate::numbers::Numbers;
use crate::spans::Span;
use crate::store::Unread;
use dirac_arith::{COEFFICIENT_DIGITS, Decoder, Registers};
use dirac_common::{Band, Cause, LARGEST_TABLE_SIDE};

/// Where a coefficient stands in its band.
#[derive(Clone, Copy)]
struct Spot {
    column: usize,
    row: usize,
}

/// Reads a value behind its first decision, which says that it isn't 0.
#[inline(never)]
fn read_further(
    decoder: &mut Decoder<'_>,
    band: Band,
    first: u8,
    left: i64,
    above: i64,
) -> Result<i64, Cause>
    requires no_overflow { decoder.old.at.doublings < 2 ^ 61 + 9 }
    ensures read { (parent neighbours : Bool) (before : Reading) →
        let follow = follow_of parent neighbours in
        first ≡ follow_at follow 0 → decision_read first before ≡ Ok (false, decoder.old) →
        GivesReading result decoder.new
        (signed_read follow bits_context (sign_of (sign_neighbour band left above)) before) }
    ensures few_doublings { decoder.new.at.doublings ≤ decoder.old.at.doublings + 693 }
{
    let follow = contexts::follow_from(first);
    let sign = contexts::sign_context(band, left, above);
    decoder.signed_behind(follow, COEFFICIENT_DIGITS, sign)
}

/// A value, and where the decoder stands behind it.
#[derive(Clone, Copy)]
struct ValueRead {
    value: i64,
    registers: Registers,
}

/// How far a row is read: the value to the left of the next one, and the value above that.
#[derive(Clone, Copy)]
struct RowPlace {
    left: ValueRead,
    corner: i64,
}

/// Reads a value with this one above, and this one in its place in the parent.
#[inline(always)]
fn read_value(
    decoder: &mut Decoder<'_>,
    place: RowPlace,
    band: Band,
    above: i64,
    parent: i64,
) -> Result<ValueRead, Cause>
    requires runs { Runs decoder.old.block place.left.registers }
    requires no_overflow { doublings_of place.left.registers < 2 ^ 61 }
    ensures read { IfOk result (λ v. signed_read (follow_among place.left.value above place.corner parent) bits_context
        (sign_of (sign_neighbour band place.left.value above)) (reading_at decoder.old place.left.registers)
        ≡ Ok (v.value, reading_at decoder.new v.registers)) }
    ensures runs { IfOk result (λ v. Runs decoder.new.block v.registers) }
    ensures few_doublings { IfOk result (λ v. doublings_of v.registers ≤ doublings_of place.left.registers + 702) }
    ensures refused { IfErr result (λ cause. signed_read (follow_among place.left.value above place.corner parent)
        bits_context (sign_of (sign_neighbour band place.left.value above))
        (reading_at decoder.old place.left.registers) ≡ Err cause) }
    ensures few_then { OnErr result (decoder.new.at.doublings ≤ doublings_of place.left.registers + 702) }
{
    let first = contexts::first_among(place.left.value, above, place.corner, parent);
    let decided = decoder.foreseen_from(place.left.registers, first);
    if decided.truth {
        return Ok(ValueRead {
            value: 0,
            registers: decided.registers,
        });
    }
    decoder.resume(decided.registers);
    match read_further(decoder, band, first, place.left.value, above) {
        Ok(value) => Ok(ValueRead {
            value,
            registers: decoder.registers(),
        }),
        Err(cause) => Err(cause),
    }
}

/// Reads the value in this spot behind those before it in its row.
#[inline(always)]
fn read_at(
    decoder: &mut Decoder<'_>,
    values: &mut [i32],
    layout: BandLayout,
    parent: &[i32],
    at: Spot,
    place: RowPlace,
) -> Result<RowPlace, Unread>
    requires runs { Runs decoder.old.block place.left.registers }
    requires column { at.column < layout.width }
    requires width { layout.width ≤ LARGEST_TABLE_SIDE }
    requires row { at.row < LARGEST_TABLE_SIDE }
    requires inside { (at.row + 1) * layout.width ≤ length values.old }
    requires left { place.left.value ≡ value_left_of layout.width values.old at.column at.row }
    requires corner { place.corner ≡ value_in_corner layout.width values.old at.column at.row }
    requires no_overflow { doublings_of place.left.registers < 2 ^ 61 }
    ensures value { IfOk result (λ p. read_coded (value_step (frame_of layout parent.now) at.column at.row values.old)
        (reading_at decoder.old place.left.registers) ≡ Ok (values.new, reading_at decoder.new p.left.registers)) }
    ensures runs { IfOk result (λ p. Runs decoder.new.block p.left.registers) }
    ensures few_doublings { IfOk result (λ p. doublings_of p.left.registers ≤ doublings_of place.left.registers + 702) }
    ensures left { IfOk result (λ p. p.left.value ≡ value_left_of layout.width values.new (at.column + 1) at.row) }
    ensures corner { IfOk result (λ p. p.corner ≡ value_in_corner layout.width values.new (at.column + 1) at.row) }
    ensures len { length values.new ≡ length values.old }
    ensures refused { IfErr result
        (λ e. RefusedBy ⊤ e (read_coded (value_step (frame_of layout parent.now) at.column at.row
        values.old) (reading_at decoder.old place.left.registers))) }
    ensures few_then { OnErr result (decoder.new.at.doublings ≤ doublings_of place.left.registers + 702) }
{
    let width = layout.width as usize;
    let above = contexts::above_value(Numbers::Narrow(values), width, at.column, at.row);
    let parent = contexts::parent_value(Numbers::Narrow(parent), width, at.column, at.row);
    match read_value(decoder, place, layout.band, above, parent) {
        Ok(read) => {
            let half = lower_half(read.value);
            values[at.row * width + at.column] = half;
            let kept = i64::from(half);
            if kept != read.value {
                decoder.resume(read.registers);
                return Err(Unread::TooWide);
            }
            Ok(RowPlace {
                left: read,
                corner: above,
            })
        }
        Err(cause) => Err(Unread::Refused(cause)),
    }
}

/// Reads the values of these columns of row `y` in 32 bits. The registers are kept by value: what is written to the
/// table then doesn't make them go through memory.
#[inline(never)]
pub fn read_narrow_row(
    decoder: &mut Decoder<'_>,
    values: &mut [i32],
    layout: BandLayout,
    parent: &[i32],
    y: usize,
    columns: Span,
) -> Result<(), Unread>
    requires columns { columns.start + columns.length ≤ layout.width }
    requires width { layout.width ≤ LARGEST_TABLE_SIDE }
    requires row { y < LARGEST_TABLE_SIDE }
    requires inside { (y + 1) * layout.width ≤ length values.old }
    requires no_overflow { decoder.old.at.doublings < 2 ^ 60 }
    ensures value { Goes ⊤ result values.new decoder.new
        (read_coded (row_step (frame_of layout parent.now) y columns.start
        columns.length values.old) decoder.old) }
    ensures len { length values.new ≡ length values.old }
    ensures few_doublings { decoder.new.at.doublings ≤ decoder.old.at.doublings + 702 * columns.length }
{
    if columns.length == 0 {
        return Ok(());
    }
    if decoder.is_refused() {
        return Err(Unread::Refused(Cause::CodeWord));
    }
    let width = layout.width as usize;
    let lent = Numbers::Narrow(values);
    let value = contexts::left_value(lent, width, columns.start, y);
    let corner = contexts::corner_value(lent, width, columns.start, y);
    let registers = decoder.registers();
    let mut place = RowPlace {
        left: ValueRead { value, registers },
        corner,
    };
    'values: for i in 0..columns.length {
        let at = Spot {
            column: columns.start + i,
            row: y,
        };
        match read_at(decoder, values, layout, parent, at, place) {
            Ok(next) => place = next,
            Err(unread) => return Err(unread),
        }
    }
    decoder.resume(place.left.registers);
    Ok(())
}
