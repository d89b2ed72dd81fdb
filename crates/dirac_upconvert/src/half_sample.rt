ghost use Rattle.std.specs.Prelude.{◌≡◌, pos, ◌+◌, ◌-◌, ◌<◌, ◌≤◌, ◌+ℤ◌, ◌-ℤ◌, ◌*ℤ◌, unsigned_abs};
ghost use Rattle.std.specs.Int.{int_shr};
ghost use Rattle.dirac_common.specs.Samples.{clip};
ghost use Rattle.dirac_upconvert.specs.Around.{AreSamplesAround, between_those};
ghost use Rattle.dirac_upconvert.specs.HalfSamples.{IsSample, weighted_pairs};

#[inline(always)]
fn pair_sum(a: i16, b: i16) -> i16
    requires a { IsSample a }
    requires b { IsSample b }
    ensures value { result ≡ a +ℤ b }
    ensures bound { unsigned_abs result ≤ 256 }
{
    a + b
}

/// The weighted sum of the two inner pairs.
#[inline(always)]
fn inner_sum(first: i16, second: i16) -> i16
    requires first { unsigned_abs first ≤ 256 }
    requires second { unsigned_abs second ≤ 256 }
    ensures value { result ≡ pos 21 *ℤ first -ℤ pos 7 *ℤ second }
    ensures bound { unsigned_abs result ≤ 7168 }
{
    21 * first - 7 * second
}

/// The weighted sum of the two outer pairs.
#[inline(always)]
fn outer_sum(third: i16, fourth: i16) -> i16
    requires third { unsigned_abs third ≤ 256 }
    requires fourth { unsigned_abs fourth ≤ 256 }
    ensures value { result ≡ pos 3 *ℤ third -ℤ fourth }
    ensures bound { unsigned_abs result ≤ 1024 }
{
    3 * third - fourth
}

#[inline(always)]
fn rounded_up(inner: i16, outer: i16) -> i16
    requires inner { unsigned_abs inner ≤ 7168 }
    requires outer { unsigned_abs outer ≤ 1024 }
    ensures value { result ≡ (inner +ℤ outer) +ℤ pos 16 }
    ensures bound { unsigned_abs result ≤ 8208 }
{
    inner + outer + 16
}

/// The weighted sum of all pairs, with what rounds it.
#[inline(always)]
fn whole_sum(first: i16, second: i16, third: i16, fourth: i16) -> i16
    requires first { unsigned_abs first ≤ 256 }
    requires second { unsigned_abs second ≤ 256 }
    requires third { unsigned_abs third ≤ 256 }
    requires fourth { unsigned_abs fourth ≤ 256 }
    ensures value { result ≡ weighted_pairs first second third fourth +ℤ pos 16 }
    ensures bound { unsigned_abs result ≤ 8208 }
{
    rounded_up(inner_sum(first, second), outer_sum(third, fourth))
}

#[inline(always)]
fn shifted(sum: i16) -> i16
    requires { unsigned_abs sum ≤ 8208 }
    ensures { result ≡ int_shr sum 5 }
{
    sum >> 5
}

#[inline(always)]
fn clip(value: i16) -> i16
    ensures value { result ≡ clip value }
    ensures sample { IsSample result }
{
    value.max(-128).min(127)
}

/// What lies around a half sample: `a0` just before it and `b0` just behind it, the others further out.
#[derive(Clone, Copy)]
pub struct Around<T> {
    pub a3: T,
    pub a2: T,
    pub a1: T,
    pub a0: T,
    pub b0: T,
    pub b1: T,
    pub b2: T,
    pub b3: T,
}

/// The half sample between `a0` and `b0` (half-pixel upconversion filter, Dirac specification).
#[inline(always)]
#[tactic(auto, unfolding(crate::specs::HalfSamples::half_between))]
pub fn half_sample(of: Around<i16>) -> i16
    requires { AreSamplesAround of }
    ensures value { result ≡ between_those of }
    ensures sample { IsSample result }
{
    clip(shifted(whole_sum(
        pair_sum(of.a0, of.b0),
        pair_sum(of.a1, of.b1),
        pair_sum(of.a2, of.b2),
        pair_sum(of.a3, of.b3),
    )))
}
