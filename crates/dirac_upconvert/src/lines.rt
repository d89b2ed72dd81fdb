ghost use Rattle.std.specs.Prelude.{◌≡◌, ℕ, pos, ◌+◌, ◌-◌, ◌*◌, ◌<◌, ◌≤◌, length, slice_index_or};
ghost use Rattle.std.specs.List.{All};
ghost use Rattle.dirac_upconvert.specs.Around.{AreRowsAround, between_rows_at};
ghost use Rattle.dirac_upconvert.specs.HalfSamples.{IsSample, doubled_at, half_behind};
ghost use Rattle.dirac_upconvert.specs.Phases.{place_in_row};
ghost use Rattle.dirac_upconvert.specs.SubSamples.{PutFrom};

use crate::half_sample::{Around, half_sample};

/// The sample at place `k` of a line.
#[inline(always)]
fn sample_at(line: &[i16], k: usize) -> i16
    requires inside { k < length line.now }
    requires samples { All IsSample line.now }
    ensures value { result ≡ slice_index_or line.now k (pos 0) }
    ensures sample { IsSample result }
{
    line[k]
}

/// The half sample in column `x` between the rows `a0` and `b0`.
#[inline(always)]
fn half_in_column(rows: Around<&[i16]>, x: usize) -> i16
    requires inside { x < length rows.a0.now }
    requires rows { AreRowsAround (length rows.a0.now) rows }
    ensures value { result ≡ between_rows_at rows.entry x }
    ensures sample { IsSample result }
{
    half_sample(Around {
        a3: sample_at(rows.a3, x),
        a2: sample_at(rows.a2, x),
        a1: sample_at(rows.a1, x),
        a0: sample_at(rows.a0, x),
        b0: sample_at(rows.b0, x),
        b1: sample_at(rows.b1, x),
        b2: sample_at(rows.b2, x),
        b3: sample_at(rows.b3, x),
    })
}

/// The half samples between the rows `a0` and `b0`.
#[inline(always)]
pub fn half_of_rows(rows: Around<&[i16]>, out: &mut [i16])
    requires rows { AreRowsAround (length out.old) rows }
    ensures value { (x : ℕ) → x < length out.old
        → slice_index_or out.new x (pos 0) ≡ between_rows_at rows.entry x }
{
    for x in 0..out.len() {
        out[x] = half_in_column(rows, x);
    }
}

/// The half sample behind place `i` of a line, where neighbours may lie beyond its ends.
#[inline(always)]
fn half_clamped(line: &[i16], i: usize) -> i16
    requires inside { i < length line.now }
    requires samples { All IsSample line.now }
    ensures value { result ≡ half_behind (λ k. slice_index_or line.now k (pos 0)) (length line.now - 1) i }
    ensures sample { IsSample result }
{
    let last = line.len() - 1;
    half_sample(Around {
        a3: sample_at(line, i.saturating_sub(3)),
        a2: sample_at(line, i.saturating_sub(2)),
        a1: sample_at(line, i.saturating_sub(1)),
        a0: sample_at(line, i),
        b0: sample_at(line, (i + 1).min(last)),
        b1: sample_at(line, (i + 2).min(last)),
        b2: sample_at(line, (i + 3).min(last)),
        b3: sample_at(line, (i + 4).min(last)),
    })
}

/// The half sample behind place `i` of a line, where all neighbours lie inside.
#[inline(always)]
fn half_inside(line: &[i16], i: usize) -> i16
    requires before { 3 ≤ i }
    requires behind { i + 4 < length line.now }
    requires samples { All IsSample line.now }
    ensures value { result ≡ half_behind (λ k. slice_index_or line.now k (pos 0)) (length line.now - 1) i }
    ensures sample { IsSample result }
{
    half_sample(Around {
        a3: sample_at(line, i - 3),
        a2: sample_at(line, i - 2),
        a1: sample_at(line, i - 1),
        a0: sample_at(line, i),
        b0: sample_at(line, i + 1),
        b1: sample_at(line, i + 2),
        b2: sample_at(line, i + 3),
        b3: sample_at(line, i + 4),
    })
}

/// A sample in eight bits.
#[inline(always)]
fn narrowed(sample: i16) -> i8
    requires { IsSample sample }
    ensures { result ≡ sample }
{
    sample as i8
}

/// Writes samples in eight bits into a list from place `first` on.
#[inline(always)]
pub fn put_narrowed(samples: &[i16], out: &mut [i8], first: usize)
    requires samples { All IsSample samples.now }
    requires inside { first + length samples.now ≤ length out.old }
    ensures { PutFrom first (length samples.now) (λ k. slice_index_or samples.now k (pos 0)) out.old out.new }
{
    for k in 0..samples.len() {
        out[first + k] = narrowed(samples[k]);
    }
}

/// Writes the samples of a line, and then the half samples behind all of them but the last.
pub fn double_line(line: &[i16], out: &mut [i8])
    requires not_empty { 1 ≤ length line.now }
    requires len { length out.old ≡ 2 * length line.now }
    requires samples { All IsSample line.now }
    ensures { (p : ℕ) → p + 1 < length out.old → slice_index_or out.new (place_in_row (length out.old) p) (pos 0)
        ≡ doubled_at (λ k. slice_index_or line.now k (pos 0)) (length line.now - 1) p }
{
    let count = line.len();
    put_narrowed(line, out, 0);
    let last = count - 1;
    let low = last.min(3);
    let high = last.saturating_sub(3).max(low);
    'left: for i in 0..low {
        out[count + i] = narrowed(half_clamped(line, i));
    }
    'inside: for i in low..high {
        out[count + i] = narrowed(half_inside(line, i));
    }
    'right: for i in high..last {
        out[count + i] = narrowed(half_clamped(line, i));
    }
}
