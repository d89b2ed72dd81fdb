ghost use Rattle.std.specs.Prelude.{◌≡◌, ℕ, pos, ◌+◌, ◌-◌, ◌*◌, ◌%◌, ◌<◌, ◌≤◌, length, slice_index_or};
ghost use Rattle.dirac_common.specs.Table.{clamped_at, clamped_to, table_at};
ghost use Rattle.dirac_upconvert.specs.HalfSamples.{IsSample};
ghost use Rattle.dirac_upconvert.specs.Phases.{AreLines, place_in_row, table_of_phases};

use dirac_common::LARGEST_SIDE;
use std::marker::Model;

/// A table of samples, row by row: of each row first the samples of its even columns, and then those of its odd ones.
/// So samples that are two columns apart stand side by side. The table's last column and row are even.
#[derive(Debug, Drop)]
pub struct Phases {
    /// The number of even columns.
    columns: u32,
    /// The number of even rows.
    rows: u32,
    samples: Vec<i8>,
}

impl Model for Phases {
    ghost use Rattle.std.specs.Prelude.{◌≡◌, ◌-◌, ◌*◌, ◌≤◌, length};
    ghost use Rattle.dirac_common.specs.declared.limits.TheConstants.{LARGEST_SIDE};
    ghost use Rattle.dirac_common.specs.Table.{Table};
    ghost use Rattle.dirac_upconvert.specs.Phases.{table_of_phases};

    ghost Value = { Table };

    ghost view = { λ p. table_of_phases p.columns p.rows p.samples.items };

    ghost invariant = { λ p. (length p.samples.items ≡ (2 * p.rows - 1) * (2 * p.columns)) × ((1 ≤ p.columns)
        × (p.columns ≤ LARGEST_SIDE)) × ((1 ≤ p.rows) × (p.rows ≤ LARGEST_SIDE)) };
}

/// The place from 0 to `size - 1` that is nearest.
#[inline(always)]
pub fn nearest(place: i64, size: u32) -> u32
    requires { 1 ≤ size }
    ensures value { result ≡ clamped_to place size }
    ensures inside { result < size }
{
    let last = size - 1;
    if place < 0 {
        0
    } else if place >= i64::from(last) {
        last
    } else {
        place as u32
    }
}

/// Where column `x` stands in a row that has so many places.
#[inline(always)]
#[tactic(auto, using(crate::proofs::Phased::place_even, crate::proofs::Phased::place_odd))]
pub fn held_at(places: usize, x: usize) -> usize
    requires { x ≤ places }
    ensures { result ≡ place_in_row places x }
{
    if x % 2 == 0 {
        x / 2
    } else {
        places / 2 + x / 2
    }
}

#[inline(always)]
pub fn widened(sample: i8) -> i16
    ensures value { result ≡ sample }
    ensures sample { IsSample result }
{
    i16::from(sample)
}

impl Phases {
    /// The table of these rows.
    pub fn of_rows(columns: u32, rows: u32, samples: Vec<i8>) -> Phases
        requires across { (1 ≤ columns) × (columns ≤ LARGEST_SIDE) }
        requires down { (1 ≤ rows) × (rows ≤ LARGEST_SIDE) }
        requires len { length samples.items ≡ (2 * rows - 1) * (2 * columns) }
        ensures { result ≡ table_of_phases columns rows samples.items }
    {
        Phases {
            columns,
            rows,
            samples,
        }
    }

    /// The number of columns.
    pub fn width(&self) -> u32
        ensures value { result ≡ self.now.width }
        ensures at_least_1 { 1 ≤ result }
    {
        2 * self.columns - 1
    }

    /// The number of places of each row: one more than it has columns.
    pub fn row_len(&self) -> usize
        ensures { result ≡ self.now.width + 1 }
    {
        2 * self.columns as usize
    }

    /// Lends the lines: of each row those of the even columns, then those of the odd ones, whose last place holds no
    /// sample.
    pub fn lines(&self) -> &[i8]
        ensures { (places : ℕ) → self.now.width + 1 ≡ 2 * places → AreLines self.now places result.now }
    {
        self.samples.as_slice()
    }

    /// Lends the row that is nearest to place `y`.
    pub fn nearest_row(&self, y: i64) -> &[i8]
        ensures value { (x : ℕ) → x < self.now.width → slice_index_or result.now (place_in_row (length result.now) x)
            (pos 0) ≡ table_at self.now x (clamped_to y self.now.height) }
        ensures len { length result.now ≡ self.now.width + 1 }
        ensures even { length result.now % 2 ≡ 0 }
        ensures at_most_8192 { length result.now ≤ 8192 }
    {
        let places = 2 * self.columns as usize;
        let start = nearest(y, 2 * self.rows - 1) as usize * places;
        &self.samples[start..start + places]
    }

    /// The sample at the position clamped to the table.
    pub fn clamped(&self, x: i64, y: i64) -> i16
        ensures value { result ≡ clamped_at self.now x y }
        ensures sample { IsSample result }
    {
        let row = self.nearest_row(y);
        widened(row[held_at(row.len(), nearest(x, self.width()) as usize)])
    }
}
