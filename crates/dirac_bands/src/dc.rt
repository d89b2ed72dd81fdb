ghost use Rattle.std.specs.Prelude.{◌≡◌, ℕ, ◌+◌, ◌*◌, ◌^◌, ◌<◌, ◌≤◌, ◌+ℤ◌, ◌-ℤ◌, unsigned_abs, length};
ghost use Rattle.std.specs.List.{All};
ghost use Rattle.dirac_common.specs.Table.{Table};
ghost use Rattle.dirac_common.specs.Samples.{mean_of_three};
ghost use Rattle.dirac_bands.specs.DcSum.{by_rows, prediction_in, IsDcSum, dc_sum};

use dirac_common::Wide;

#[inline(always)]
fn sum(a: i128, b: i128) -> i128
    requires { unsigned_abs a + unsigned_abs b < 2 ^ 127 }
    ensures { result ≡ a +ℤ b }
{
    a + b
}

#[inline(always)]
fn difference(a: i128, b: i128) -> i128
    requires { unsigned_abs a + unsigned_abs b < 2 ^ 127 }
    ensures { result ≡ a -ℤ b }
{
    a - b
}

/// The mean of three values, rounded to the nearest.
#[inline(always)]
fn mean(left: i128, above: i128, corner: i128) -> i128
    requires { unsigned_abs left + unsigned_abs above + unsigned_abs corner < 2 ^ 126 }
    ensures { result ≡ mean_of_three left above corner }
{
    (left + above + corner + 1).div_euclid(3)
}

/// The prediction of the value in column `x` of row `y` from its neighbours left and above.
#[inline(always)]
fn predict(values: &[i128], width: usize, x: usize, y: usize) -> i128
    requires across { x < width }
    requires down { y * width + x < length values.now }
    requires magnitudes_at_most_2_120 { All (λ v. unsigned_abs v ≤ 2 ^ 120) values.now }
    ensures value { result ≡ prediction_in values.now width x y }
    ensures at_most_2_120 { unsigned_abs result ≤ 2 ^ 120 }
{
    let at = y * width + x;
    if y == 0 {
        if x == 0 { 0 } else { values[at - 1] }
    } else if x == 0 {
        values[at - width]
    } else {
        mean(values[at - 1], values[at - width], values[at - width - 1])
    }
}

/// Adds its prediction to each value, by rows.
fn add_predictions(values: &mut [i128], width: usize, height: usize)
    requires len { length values.old ≡ width * height }
    requires at_least_1 { 1 ≤ width }
    requires sizes { width + height ≤ 2 ^ 33 }
    requires magnitudes_at_most_2_64 { All (λ v. unsigned_abs v ≤ 2 ^ 64) values.old }
    ensures value { IsDcSum (by_rows width height values.old) (by_rows width height values.new) }
    ensures growth { (b : ℕ) → All (λ v. unsigned_abs v ≤ b) values.old
        → All (λ v. unsigned_abs v ≤ (width + height) * b) values.new }
{
    for y in 0..height {
        for x in 0..width {
            let at = y * width + x;
            values[at] = sum(values[at], predict(values, width, x, y));
        }
    }
}

/// Takes its prediction from each value, the last one first, so that predictions read values as they were.
fn subtract_predictions(values: &mut [i128], width: usize, height: usize)
    requires len { length values.old ≡ width * height }
    requires at_least_1 { 1 ≤ width }
    requires magnitudes_at_most_2_64 { All (λ v. unsigned_abs v ≤ 2 ^ 64) values.old }
    ensures value { IsDcSum (by_rows width height values.new) (by_rows width height values.old) }
    ensures growth { (b : ℕ) → All (λ v. unsigned_abs v ≤ b) values.old → All (λ v. unsigned_abs v ≤ 2 * b) values.new }
{
    for y in (0..height).rev() {
        for x in (0..width).rev() {
            let at = y * width + x;
            values[at] = difference(values[at], predict(values, width, x, y));
        }
    }
}

/// Adds to each value of an intra picture's LL band the prediction that its finished neighbours give, by rows
/// (intra DC prediction, Dirac specification).
pub fn dc_add(ll: &mut Wide)
    requires { All (λ v. unsigned_abs v < 2 ^ 64) ll.old.values }
    ensures sums { IsDcSum ll.old ll.new }
    ensures no_other_sums { (sums : Table) → IsDcSum ll.old sums → sums ≡ ll.new }
    ensures value { ll.new ≡ dc_sum ll.old }
    ensures growth { (b : ℕ) → All (λ v. unsigned_abs v ≤ b) ll.old.values
        → All (λ v. unsigned_abs v ≤ (ll.old.width + ll.old.height) * b) ll.new.values }
{
    let width = ll.width() as usize;
    let height = ll.height() as usize;
    add_predictions(ll.values_mut(), width, height);
}

/// Takes from each value its prediction: what `dc_add` undoes. Differences of values below 2^62 are below 2^63.
pub fn dc_subtract(ll: &mut Wide)
    requires { All (λ v. unsigned_abs v < 2 ^ 64) ll.old.values }
    ensures sums { IsDcSum ll.new ll.old }
    ensures growth { (b : ℕ) → All (λ v. unsigned_abs v ≤ b) ll.old.values
        → All (λ v. unsigned_abs v ≤ 2 * b) ll.new.values }
{
    let width = ll.width() as usize;
    let height = ll.height() as usize;
    subtract_predictions(ll.values_mut(), width, height);
}
