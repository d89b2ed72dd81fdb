ghost use Rattle.std.specs.Prelude.{◌≡◌, ℕ, pos, ◌+◌, ◌-◌, ◌*◌, ◌^◌, ◌<◌, ◌≤◌, ◌+ℤ◌, ◌*ℤ◌, unsigned_abs, length};
ghost use Rattle.std.specs.Prelude.{slice_index, slice_index_or};
ghost use Rattle.std.specs.Int.{int_shr};
ghost use Rattle.std.specs.List.{All};
ghost use Rattle.dirac_obmc.specs.Adding.{AddsPart, AreWeighed, PutOver, weighed_at};

/// The weight of a value, from those across and down.
#[inline(always)]
fn both(weight: u8, down: u8) -> i16
    requires weight { weight ≤ 8 }
    requires down { down ≤ 8 }
    ensures { result ≡ pos (weight * down) }
{
    i16::from(weight) * i16::from(down)
}

/// A value times its weights across and down.
#[inline(always)]
fn weigh(weight: u8, down: u8, value: i16) -> i32
    requires weight { weight ≤ 8 }
    requires down { down ≤ 8 }
    requires value { unsigned_abs value ≤ 2 ^ 15 }
    ensures value { result ≡ pos (weight * down) *ℤ value }
    ensures at_most_2_21 { unsigned_abs result ≤ 2 ^ 21 }
{
    i32::from(both(weight, down)) * i32::from(value)
}

#[inline(always)]
fn sum(sum: i32, more: i32) -> i32
    requires sum { unsigned_abs sum ≤ 2 ^ 23 }
    requires more { unsigned_abs more ≤ 2 ^ 21 }
    ensures { result ≡ sum +ℤ more }
{
    sum + more
}

/// Values of a row, from place `at` on, with their weights across and their weight down.
#[derive(Clone, Copy)]
pub struct Weighed<'a> {
    pub values: &'a [i16],
    pub at: usize,
    pub weights: &'a [u8],
    pub down: u8,
}

/// A sum and value `k` times its weights.
#[inline(always)]
#[tactic(auto, unfolding(crate::specs::Adding::weighed_at))]
fn grown(sums: &[i32], place: usize, weighed: Weighed<'_>, k: usize) -> i32
    requires inside { place < length sums.now }
    requires sum { unsigned_abs (slice_index_or sums.now place (pos 0)) ≤ 2 ^ 23 }
    requires weighed { AreWeighed weighed (k + 1) }
    ensures { result ≡ slice_index_or sums.now place (pos 0) +ℤ weighed_at weighed.entry k }
{
    sum(
        sums[place],
        weigh(
            weighed.weights[k],
            weighed.down,
            weighed.values[weighed.at + k],
        ),
    )
}

/// The sums from a place on, each with a value times its weights, from value `at` on.
#[inline(always)]
fn all_grown(sums: &[i32], place: usize, weighed: Weighed<'_>, at: usize, out: &mut [i32])
    requires inside { place + length out.old ≤ length sums.now }
    requires sums { (k : ℕ) → k < length out.old → unsigned_abs (slice_index_or sums.now (place + k) (pos 0))
        ≤ 2 ^ 23 }
    requires weighed { AreWeighed weighed (at + length out.old) }
    ensures { (k : ℕ) → k < length out.old → slice_index_or out.new k (pos 0) ≡ slice_index_or sums.now (place + k)
        (pos 0) +ℤ weighed_at weighed.entry (at + k) }
{
    for k in 0..out.len() {
        out[k] = grown(sums, place + k, weighed, at + k);
    }
}

/// Writes sums over those from a place on.
#[inline(always)]
fn put_sums(grown: &[i32], sums: &mut [i32], place: usize)
    requires inside { place + length grown.now ≤ length sums.old }
    ensures { PutOver place grown.now (length grown.now) sums.old sums.new }
{
    for k in 0..grown.len() {
        sums[place + k] = grown[k];
    }
}

/// Adds eight values, from value `at` on, to the sums from a place on. The sums stand in a list of their own first, so
/// that they are computed side by side.
#[inline(always)]
fn add_eight(sums: &mut [i32], place: usize, weighed: Weighed<'_>, at: usize)
    requires inside { place + 8 ≤ length sums.old }
    requires sums { (k : ℕ) → k < 8 → unsigned_abs (slice_index_or sums.old (place + k) (pos 0)) ≤ 2 ^ 23 }
    requires weighed { AreWeighed weighed (at + 8) }
    ensures { AddsPart place (λ k. weighed_at weighed.entry (at + k)) 8 sums.old sums.new }
{
    let mut lanes = [0i32; 8];
    all_grown(sums, place, weighed, at, &mut lanes);
    put_sums(&lanes, sums, place);
}

/// Adds `count` values, from value `at` on, to the sums from a place on, one by one.
#[inline(always)]
fn add_singly(sums: &mut [i32], place: usize, weighed: Weighed<'_>, at: usize, count: usize)
    requires inside { place + count ≤ length sums.old }
    requires sums { (k : ℕ) → k < count → unsigned_abs (slice_index_or sums.old (place + k) (pos 0)) ≤ 2 ^ 23 }
    requires weighed { AreWeighed weighed (at + count) }
    ensures { AddsPart place (λ k. weighed_at weighed.entry (at + k)) count sums.old sums.new }
{
    for k in 0..count {
        sums[place + k] = grown(sums, place + k, weighed, at + k);
    }
}

/// Adds `count` values, each times its weights, to the sums from place `start` on.
pub fn add_values(sums: &mut [i32], start: usize, weighed: Weighed<'_>, count: usize)
    requires sums { All (λ v. unsigned_abs v ≤ 2 ^ 23) sums.old }
    requires inside { start + count ≤ length sums.old }
    requires weighed { AreWeighed weighed count }
    ensures { AddsPart start (weighed_at weighed.entry) count sums.old sums.new }
{
    let eights = count / 8;
    for c in 0..eights {
        add_eight(sums, start + 8 * c, weighed, 8 * c);
    }
    let done = 8 * eights;
    add_singly(sums, start + done, weighed, done, count - done);
}

/// A sum of values times weights of 64 in all, divided by 64 to the nearest.
#[inline(always)]
fn divided(sum: i32) -> i32
    requires { unsigned_abs sum ≤ 2 ^ 21 }
    ensures value { result ≡ int_shr (sum +ℤ pos 32) 6 }
    ensures at_most_2_15 { unsigned_abs result ≤ 2 ^ 15 }
{
    (sum + 32) >> 6
}

/// Divides the sums of a row by the sum of the weights.
pub fn divide_sums(sums: &mut [i32])
    requires { All (λ v. unsigned_abs v ≤ 2 ^ 21) sums.old }
    ensures { (x : ℕ) → x < length sums.old → slice_index_or sums.new x (pos 0)
        ≡ int_shr (slice_index_or sums.old x (pos 0) +ℤ pos 32) 6 }
{
    for x in 0..sums.len() {
        sums[x] = divided(sums[x]);
    }
}
