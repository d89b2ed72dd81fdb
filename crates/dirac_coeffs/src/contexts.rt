ghost use Rattle.std.specs.Prelude.{◌≡◌, ◌+◌, ◌*◌, ◌<◌, ◌≤◌, ◌&&◌, Bool, length};
ghost use Rattle.dirac_arith.specs.Spelling.{AreContexts, follow_at};
ghost use Rattle.dirac_coeffs.specs.Contexts.{value_left_of, value_above, value_in_corner, parent_of, is_zero};
ghost use Rattle.dirac_coeffs.specs.Contexts.{follow_of, sign_of};
ghost use Rattle.dirac_coeffs.specs.Contexts.{sign_neighbour};
ghost use Rattle.dirac_coeffs.specs.Lent.{numbers_in};

use crate::numbers::{Numbers, number_at, number_or_zero};
use dirac_arith::{
    CONTEXTS, PARENT_VALUES, PARENT_ZEROS, SIGN_OF_NEGATIVE, SIGN_OF_POSITIVE, SIGN_OF_ZERO,
    ZERO_PARENT_VALUES, ZERO_PARENT_ZEROS,
};
use dirac_common::{Band, LARGEST_TABLE_SIDE};

/// The value to the left, 0 in the first column.
#[inline(always)]
pub fn left_value(values: Numbers<'_>, width: usize, x: usize, y: usize) -> i64
    requires column { x ≤ width }
    requires width { width ≤ LARGEST_TABLE_SIDE }
    requires row { y < LARGEST_TABLE_SIDE }
    requires inside { (y + 1) * width ≤ length (numbers_in values) }
    ensures { result ≡ value_left_of width (numbers_in values.entry) x y }
{
    if x == 0 {
        0
    } else {
        number_at(values, y * width + (x - 1))
    }
}

/// The value above, 0 in the first row.
#[inline(always)]
pub fn above_value(values: Numbers<'_>, width: usize, x: usize, y: usize) -> i64
    requires column { x < width }
    requires width { width ≤ LARGEST_TABLE_SIDE }
    requires row { y < LARGEST_TABLE_SIDE }
    requires inside { (y + 1) * width ≤ length (numbers_in values) }
    ensures { result ≡ value_above width (numbers_in values.entry) x y }
{
    if y == 0 {
        0
    } else {
        number_at(values, (y - 1) * width + x)
    }
}

/// The value above and to the left, 0 in the first column and in the first row.
#[inline(always)]
pub fn corner_value(values: Numbers<'_>, width: usize, x: usize, y: usize) -> i64
    requires column { x ≤ width }
    requires width { width ≤ LARGEST_TABLE_SIDE }
    requires row { y < LARGEST_TABLE_SIDE }
    requires inside { (y + 1) * width ≤ length (numbers_in values) }
    ensures { result ≡ value_in_corner width (numbers_in values.entry) x y }
{
    if x == 0 {
        0
    } else if y == 0 {
        0
    } else {
        number_at(values, (y - 1) * width + (x - 1))
    }
}

/// The value of the parent band, 0 where there is none.
#[inline(always)]
pub fn parent_value(parent: Numbers<'_>, width: usize, x: usize, y: usize) -> i64
    requires column { x < width }
    requires width { width ≤ LARGEST_TABLE_SIDE }
    requires row { y < LARGEST_TABLE_SIDE }
    ensures { result ≡ parent_of width (numbers_in parent.entry) x y }
{
    let at = y / 2 * (width / 2) + x / 2;
    number_or_zero(parent, at)
}

/// Whether a value is 0.
#[inline(always)]
pub fn is_zero_value(value: i64) -> bool
    ensures { result ≡ is_zero value }
{
    value == 0
}

/// Whether all neighbours are 0.
#[inline(always)]
pub fn are_zeros(left: i64, above: i64, corner: i64) -> bool
    ensures { result ≡ (is_zero left && (is_zero above && is_zero corner)) }
{
    is_zero_value(left) && (is_zero_value(above) && is_zero_value(corner))
}

/// The first follow context of a coefficient's magnitude among these neighbours, under which it is decided whether the
/// coefficient is 0.
#[inline(always)]
pub fn first_among(left: i64, above: i64, corner: i64, parent: i64) -> u8
    ensures value { result ≡ follow_at (follow_of (is_zero parent) (is_zero left && (is_zero above && is_zero corner)))
        0 }
    ensures context { result < CONTEXTS }
{
    let parent_is_zero = is_zero_value(parent);
    let neighbours_are_zero = are_zeros(left, above, corner);
    2 * u8::from(!parent_is_zero) + u8::from(!neighbours_are_zero)
}

/// The follow contexts of a coefficient's magnitude, by the first of them, which is below 4; the last is repeated.
#[inline(always)]
pub fn follow_from(first: u8) -> &'static [u8; 6]
    ensures value { (parent neighbours : Bool) → first ≡ follow_at (follow_of parent neighbours) 0
        → result.now ≡ follow_of parent neighbours }
    ensures contexts { AreContexts result.now }
{
    match first {
        0 => &ZERO_PARENT_ZEROS,
        1 => &ZERO_PARENT_VALUES,
        2 => &PARENT_ZEROS,
        _ => &PARENT_VALUES,
    }
}

/// The value whose sign the sign's context goes by.
#[inline(always)]
fn neighbour(band: Band, left: i64, above: i64) -> i64
    ensures { result ≡ sign_neighbour band left above }
{
    match band {
        Band::HL => above,
        Band::LH => left,
        Band::LL | Band::HH => 0,
    }
}

/// The context of a sign among these neighbours.
#[inline(always)]
pub fn sign_context(band: Band, left: i64, above: i64) -> u8
    ensures exact { result ≡ sign_of (sign_neighbour band left above) }
    ensures context { result < CONTEXTS }
{
    let value = neighbour(band, left, above);
    if value == 0 {
        SIGN_OF_ZERO
    } else if value < 0 {
        SIGN_OF_NEGATIVE
    } else {
        SIGN_OF_POSITIVE
    }
}
