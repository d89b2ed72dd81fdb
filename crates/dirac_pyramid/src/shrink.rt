ghost use Rattle.std.specs.Prelude.{◌≡◌, ℕ, pos, negsuc, ◌+◌, ◌*◌, ◌/◌, ◌<◌, ◌≤◌, ◌+ℤ◌, ◌≤ℤ◌, length, slice_index_or};
ghost use Rattle.std.specs.Prelude.{IfOk};
ghost use Rattle.std.specs.Int.{int_shr};
ghost use Rattle.dirac_pyramid.specs.Pyramid.{half_row, mean_at, mean_of_four, shrunk};

use dirac_common::{LARGEST_TABLE_SIDE, NoMemory, Plane};
use std::alloc::Global;

/// The sum of two samples.
#[inline(always)]
fn pair_sum(a: i16, b: i16) -> i32
    ensures value { result ≡ a +ℤ b }
    ensures least { negsuc 65535 ≤ℤ result }
    ensures at_most_65534 { result ≤ℤ pos 65534 }
{
    i32::from(a) + i32::from(b)
}

/// The sum of four samples, with what rounds a quarter of it to the nearest.
#[inline(always)]
fn sum_to_round(first: i32, second: i32) -> i32
    requires first { (negsuc 65535 ≤ℤ first) × (first ≤ℤ pos 65534) }
    requires second { (negsuc 65535 ≤ℤ second) × (second ≤ℤ pos 65534) }
    ensures value { result ≡ (first +ℤ second) +ℤ pos 2 }
    ensures least { negsuc 131071 ≤ℤ result }
    ensures at_most_131070 { result ≤ℤ pos 131070 }
{
    first + second + 2
}

#[inline(always)]
fn quarter(sum: i32) -> i32
    requires least { negsuc 131071 ≤ℤ sum }
    requires at_most_131070 { sum ≤ℤ pos 131070 }
    ensures value { result ≡ int_shr sum 2 }
    ensures least { negsuc 32767 ≤ℤ result }
    ensures at_most_32767 { result ≤ℤ pos 32767 }
{
    sum >> 2
}

#[inline(always)]
fn narrowed(value: i32) -> i16
    requires least { negsuc 32767 ≤ℤ value }
    requires at_most_32767 { value ≤ℤ pos 32767 }
    ensures { result ≡ value }
{
    value as i16
}

/// The mean of four samples, rounded to the nearest.
#[inline(always)]
fn mean(a: i16, b: i16, c: i16, d: i16) -> i16
    ensures { result ≡ mean_of_four a b c d }
{
    narrowed(quarter(sum_to_round(pair_sum(a, b), pair_sum(c, d))))
}

/// The mean of the samples in two columns of two rows.
#[inline(always)]
fn mean_of_columns(above: &[i16], below: &[i16], left: usize, right: usize) -> i16
    requires equal_lengths { length below.now ≡ length above.now }
    requires left { left < length above.now }
    requires right { right < length above.now }
    ensures { result ≡ mean_at above.now below.now left right }
{
    mean(above[left], above[right], below[left], below[right])
}

/// The row of the next level that two rows give. A last column without one beside it is taken twice.
fn shrink_rows(above: &[i16], below: &[i16], out: &mut [i16])
    requires not_empty { 1 ≤ length above.now }
    requires equal_lengths { length below.now ≡ length above.now }
    requires half_as_long { length out.old ≡ (length above.now + 1) / 2 }
    ensures { (x : ℕ) → x < length out.old → slice_index_or out.new x (pos 0) ≡ half_row above.now below.now x }
{
    let pairs = above.len() / 2;
    'pairs: for x in 0..pairs {
        out[x] = mean_of_columns(above, below, 2 * x, 2 * x + 1);
    }
    if pairs < out.len() {
        let last = 2 * pairs;
        out[pairs] = mean_of_columns(above, below, last, last);
    }
}

/// The next level of a plane's pyramid: half the size, rounded up.
pub fn shrink(alloc: Global, plane: &Plane) -> Result<Plane, NoMemory>
    requires at_most_8192_across { plane.now.width ≤ LARGEST_TABLE_SIDE }
    requires at_most_8192_down { plane.now.height ≤ LARGEST_TABLE_SIDE }
    ensures { IfOk result (λ t. t ≡ shrunk plane.now) }
{
    let last = plane.height() - 1;
    let height = (plane.height() + 1) / 2;
    let mut level = Plane::try_new(alloc, (plane.width() + 1) / 2, height, 0)?;
    for y in 0..height {
        shrink_rows(
            plane.row(2 * y),
            plane.row((2 * y + 1).min(last)),
            level.row_mut(y),
        );
    }
    Ok(level)
}
