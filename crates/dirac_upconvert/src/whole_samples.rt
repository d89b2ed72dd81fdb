ghost use Rattle.std.specs.Prelude.{◌≡◌, ℕ, pos, ◌+◌, ◌-◌, ◌*◌, ◌/◌, ◌%◌, ◌^◌, ◌<◌, ◌≤◌, ◌+ℤ◌, ◌≤ℤ◌, IfOk, IsTrue};
ghost use Rattle.std.specs.Prelude.{length, slice_index_or, unsigned_abs};
ghost use Rattle.std.specs.List.{All};
ghost use Rattle.dirac_common.specs.Table.{clamped_at, clamped_to, table_at};
ghost use Rattle.dirac_upconvert.specs.HalfSamples.{IsSample, half, half_at, row_doubled_at};
ghost use Rattle.dirac_upconvert.specs.Positions.{AreSamplesByRows, AreWholeRows, IsPositionNear};
ghost use Rattle.dirac_upconvert.specs.Rests.{AreRests};
ghost use Rattle.dirac_upconvert.specs.SubSamples.{bilinear, rounded};
ghost use Rattle.dirac_upconvert.specs.WholeSamples.{AreSamplesOfRow, AreSamplesOfRows};

use crate::half_sample::{Around, half_sample};
use crate::lines::put_narrowed;
use crate::phases::{nearest, widened};
use crate::rows::{Position, Rests, ahead, beside, between_four, copy_row};
use dirac_common::{LARGEST_SIDE, NoMemory, Plane};
use std::alloc::Global;
use std::marker::Model;

/// The samples of a plane in eight bits, row by row. A half sample is worked out where it is asked for.
#[derive(Debug, Drop)]
pub struct WholeSamples {
    width: u32,
    height: u32,
    samples: Vec<i8>,
}

impl Model for WholeSamples {
    ghost use Rattle.std.specs.Prelude.{◌≡◌, ◌*◌, ◌≤◌, length};
    ghost use Rattle.dirac_common.specs.declared.limits.TheConstants.{LARGEST_SIDE};
    ghost use Rattle.dirac_common.specs.Table.{Table};

    ghost Value = { Table };

    ghost view = { λ s. record { width = s.width; height = s.height; values = s.samples.items } };

    ghost invariant = { λ s. (length s.samples.items ≡ s.width * s.height) × ((1 ≤ s.width) × (s.width ≤ LARGEST_SIDE))
        × ((1 ≤ s.height) × (s.height ≤ LARGEST_SIDE)) };
}

/// The column of a place that isn't left of the first one.
#[inline(always)]
fn column(place: i64) -> usize
    requires { pos 0 ≤ℤ place }
    ensures { place ≡ pos result }
{
    place as usize
}

/// The place so many samples behind another one.
#[inline(always)]
fn further(place: i64, count: usize) -> i64
    requires place { unsigned_abs place < 2 ^ 32 }
    requires count { count ≤ LARGEST_SIDE }
    ensures { result ≡ place +ℤ pos count }
{
    place + count as i64
}

/// Whether so many samples of a row from a place on lie inside.
#[inline(always)]
fn are_inside(place: i64, count: usize, width: u32) -> bool
    requires place { unsigned_abs place < 2 ^ 32 }
    requires count { count ≤ LARGEST_SIDE }
    ensures { IsTrue result → (pos 0 ≤ℤ place) × ((place +ℤ pos count) ≤ℤ pos width) }
{
    0 <= place && further(place, count) <= i64::from(width)
}

impl WholeSamples {
    /// The samples of a plane.
    pub fn of(alloc: Global, plane: &Plane) -> Result<WholeSamples, NoMemory>
        requires across { plane.now.width ≤ LARGEST_SIDE }
        requires down { plane.now.height ≤ LARGEST_SIDE }
        requires samples { All IsSample plane.now.values }
        ensures { IfOk result (λ s. s ≡ plane.now) }
    {
        let values = plane.values();
        let mut samples = vec![in alloc; 0i8; values.len()]?;
        put_narrowed(values, samples.as_mut_slice(), 0);
        Ok(WholeSamples {
            width: plane.width(),
            height: plane.height(),
            samples,
        })
    }

    /// The number of columns.
    #[inline(always)]
    fn width(&self) -> u32
        ensures value { result ≡ self.now.width }
        ensures at_least_1 { 1 ≤ result }
        ensures at_most_4096 { result ≤ LARGEST_SIDE }
    {
        self.width
    }

    /// The number of rows.
    #[inline(always)]
    fn height(&self) -> u32
        ensures value { result ≡ self.now.height }
        ensures at_least_1 { 1 ≤ result }
        ensures at_most_4096 { result ≤ LARGEST_SIDE }
    {
        self.height
    }

    /// Lends row `y`.
    #[inline(always)]
    fn row(&self, y: u32) -> &[i8]
        requires { y < self.now.height }
        ensures value { (x : ℕ) → x < self.now.width → slice_index_or result.now x (pos 0) ≡ table_at self.now x y }
        ensures len { length result.now ≡ self.now.width }
    {
        let places = self.width as usize;
        let start = y as usize * places;
        &self.samples[start..start + places]
    }

    /// The sample in column `x` of row `y`.
    #[inline(always)]
    fn sample(&self, x: u32, y: u32) -> i16
        requires across { x < self.now.width }
        requires down { y < self.now.height }
        ensures value { result ≡ table_at self.now x y }
        ensures sample { IsSample result }
    {
        widened(self.row(y)[x as usize])
    }

    /// The sample at a position clamped to the plane.
    pub fn clamped(&self, x: i64, y: i64) -> i16
        ensures value { result ≡ clamped_at self.now x y }
        ensures sample { IsSample result }
        ensures not_empty { (1 ≤ self.now.width) × (1 ≤ self.now.height) }
    {
        self.sample(nearest(x, self.width()), nearest(y, self.height()))
    }

    /// Column `x` of row `y` of the samples and the half samples between their rows.
    fn between_rows(&self, x: u32, y: u32) -> i16
        requires across { x < self.now.width }
        requires down { y + 1 < 2 * self.now.height }
        ensures value { result ≡ row_doubled_at self.now x y }
        ensures sample { IsSample result }
    {
        let row = y / 2;
        if y % 2 == 0 {
            return self.sample(x, row);
        }
        let last = self.height() - 1;
        half_sample(Around {
            a3: self.sample(x, row.saturating_sub(3)),
            a2: self.sample(x, row.saturating_sub(2)),
            a1: self.sample(x, row.saturating_sub(1)),
            a0: self.sample(x, row),
            b0: self.sample(x, (row + 1).min(last)),
            b1: self.sample(x, (row + 2).min(last)),
            b2: self.sample(x, (row + 3).min(last)),
            b3: self.sample(x, (row + 4).min(last)),
        })
    }

    /// Column `x` of row `y` of the samples and all half samples.
    fn between(&self, x: u32, y: u32) -> i16
        requires across { x + 1 < 2 * self.now.width }
        requires down { y + 1 < 2 * self.now.height }
        ensures value { result ≡ half_at self.now x y }
        ensures sample { IsSample result }
    {
        let column = x / 2;
        if x % 2 == 0 {
            return self.between_rows(column, y);
        }
        let last = self.width() - 1;
        half_sample(Around {
            a3: self.between_rows(column.saturating_sub(3), y),
            a2: self.between_rows(column.saturating_sub(2), y),
            a1: self.between_rows(column.saturating_sub(1), y),
            a0: self.between_rows(column, y),
            b0: self.between_rows((column + 1).min(last), y),
            b1: self.between_rows((column + 2).min(last), y),
            b2: self.between_rows((column + 3).min(last), y),
            b3: self.between_rows((column + 4).min(last), y),
        })
    }

    /// The sample or half sample at a place clamped to all of them.
    fn clamped_between(&self, x: i64, y: i64) -> i16
        ensures value { result ≡ clamped_at (half self.now) x y }
        ensures sample { IsSample result }
    {
        self.between(
            nearest(x, 2 * self.width() - 1),
            nearest(y, 2 * self.height() - 1),
        )
    }

    /// The sample behind a place of the samples and half samples, which may lie outside.
    pub fn part(&self, rests: Rests, across: i64, down: i64) -> i16
        requires rests { AreRests rests }
        requires across { unsigned_abs across ≤ 2 ^ 35 }
        requires down { unsigned_abs down ≤ 2 ^ 35 }
        ensures { result
            ≡ rounded (2 * rests.bits) (bilinear (half self.now) (2 ^ rests.bits) across down rests.right rests.below) }
    {
        let next = beside(across);
        let under = beside(down);
        between_four(
            rests,
            self.clamped_between(across, down),
            self.clamped_between(next, down),
            self.clamped_between(across, under),
            self.clamped_between(next, under),
        )
    }

    /// Writes the samples behind the places from a position on, two columns and two rows apart, row by row.
    pub fn rows_of_parts(&self, from: Position, width: usize, out: &mut [i16])
        requires from { IsPositionNear (2 ^ 33) (2 ^ 34) from }
        requires rows { AreWholeRows width out.old }
        ensures { AreSamplesByRows (half self.now) from width out.new }
    {
        for n in 0..out.len() {
            let across = ahead(from.across, n % width);
            let down = ahead(from.down, n / width);
            out[n] = self.part(from.rests, across, down);
        }
    }

    /// The samples of a row from a place on that may lie outside.
    fn clamped_row(&self, x: i64, y: i64, out: &mut [i16])
        requires x { unsigned_abs x < 2 ^ 32 }
        requires at_most_4096 { length out.old ≤ LARGEST_SIDE }
        ensures { AreSamplesOfRow self.now x y out.new }
    {
        for k in 0..out.len() {
            out[k] = self.clamped(further(x, k), y);
        }
    }

    /// The samples of a row from a place on, where all lie inside.
    #[inline(always)]
    fn inner_row(&self, x: i64, y: i64, out: &mut [i16])
        requires inside { (pos 0 ≤ℤ x) × ((x +ℤ pos (length out.old)) ≤ℤ pos self.now.width) }
        ensures { AreSamplesOfRow self.now x y out.new }
    {
        copy_row(self.row(nearest(y, self.height())), column(x), out);
    }

    /// Writes the samples of row `y` from column `x` on. Positions may lie outside the plane.
    #[inline(always)]
    fn samples_of_row(&self, x: i64, y: i64, out: &mut [i16])
        requires x { unsigned_abs x < 2 ^ 32 }
        requires at_most_4096 { length out.old ≤ LARGEST_SIDE }
        ensures { AreSamplesOfRow self.now x y out.new }
    {
        if are_inside(x, out.len(), self.width()) {
            self.inner_row(x, y, out);
        } else {
            self.clamped_row(x, y, out);
        }
    }

    /// Writes the samples of rows of `width`, row after row, from column `x` of row `y` on.
    #[inline(always)]
    fn samples_row_by_row(&self, x: i64, y: i64, width: usize, out: &mut [i16])
        requires x { unsigned_abs x < 2 ^ 32 }
        requires y { unsigned_abs y < 2 ^ 32 }
        requires rows { AreWholeRows width out.old }
        ensures { AreSamplesOfRows self.now x y width out.new }
    {
        for j in 0..out.len() / width {
            let start = j * width;
            self.samples_of_row(x, further(y, j), &mut out[start..start + width]);
        }
    }

    /// Writes the samples of rows of `width`, row after row, from column `x` of row `y` on. Positions may lie outside
    /// the plane. Rows of sixteen and of eight samples, which most are, have code of their own.
    pub fn samples_of_rows(&self, x: i64, y: i64, width: usize, out: &mut [i16])
        requires x { unsigned_abs x < 2 ^ 32 }
        requires y { unsigned_abs y < 2 ^ 32 }
        requires rows { AreWholeRows width out.old }
        ensures value { AreSamplesOfRows self.now x y width out.new }
        ensures not_empty { (1 ≤ self.now.width) × (1 ≤ self.now.height) }
    {
        // what holds of the struct tells that it isn't empty
        let _ = &self.width;
        if width == 16 {
            self.samples_row_by_row(x, y, 16, out);
        } else if width == 8 {
            self.samples_row_by_row(x, y, 8, out);
        } else {
            self.samples_row_by_row(x, y, width, out);
        }
    }
}
