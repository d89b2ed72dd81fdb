ghost use Rattle.std.specs.Prelude.{◌≡◌, ℕ, ℤ, pos, ◌+◌, ◌-◌, ◌*◌, ◌/◌, ◌%◌, ◌^◌, ◌<◌, ◌≤◌, ◌+ℤ◌, ◌*ℤ◌, length};
ghost use Rattle.std.specs.Prelude.{slice_index_or, unsigned_abs, IfOk};
ghost use Rattle.std.specs.List.{All};
ghost use Rattle.std.specs.Option.{ForSome, option_copied};
ghost use Rattle.dirac_common.specs.Table.{clamped_at, table_at};
ghost use Rattle.dirac_upconvert.specs.HalfSamples.{IsSample, half, half_at, half_behind};
ghost use Rattle.dirac_upconvert.specs.Phases.{AreLines, phase_at, place_in_row};
ghost use Rattle.dirac_upconvert.specs.Positions.{AreSamplesByFour, AreWholeRows, IsPositionNear, sample_from};
ghost use Rattle.dirac_upconvert.specs.Rests.{AreRests};
ghost use Rattle.dirac_upconvert.specs.SubSamples.{IsUp, Up, place_at, rest_at, sub_sample};
ghost use Rattle.dirac_upconvert.specs.WholeSamples.{AreSubSamplesByRows};

use crate::half_sample::Around;
use crate::lines::{double_line, half_of_rows};
use crate::parts::{part, place, rest, twice, whole_sample};
use crate::phases::Phases;
use crate::rows::{Position, Rests, lower, put, row_parts, rows_of_parts};
use crate::whole_samples::WholeSamples;
use dirac_common::{LARGEST_SIDE, NoMemory, Plane};
use std::alloc::Global;
use std::marker::Model;

/// The samples of a reference plane.
#[derive(Debug, Drop)]
enum Samples {
    /// With the half samples between them.
    Doubled(Phases),
    /// The samples alone, for vectors that lead to whole samples; a half sample that is asked for is worked out.
    Alone(WholeSamples),
}

/// A reference plane, seen with its half samples whether it holds them or not, and its size without them.
#[derive(Debug, Drop)]
pub struct UpPlane {
    width: u32,
    height: u32,
    samples: Samples,
}

impl Model for UpPlane {
    ghost use Rattle.dirac_upconvert.specs.SubSamples.{IsUp, Up};
    ghost use Rattle.dirac_upconvert.specs.WholeSamples.{all_in};

    ghost Value = { Up };

    ghost view = { λ u. record { width = u.width; height = u.height; table = all_in u.samples } };

    ghost invariant = { λ u. IsUp u.width u.height (all_in u.samples) };
}

/// Lends row `y` of a plane of samples.
#[inline(always)]
fn row_of_samples(plane: &Plane, y: u32) -> &[i16]
    requires inside { y < plane.now.height }
    requires samples { All IsSample plane.now.values }
    ensures value { (x : ℕ) → x < plane.now.width → slice_index_or result.now x (pos 0) ≡ table_at plane.now x y }
    ensures len { length result.now ≡ plane.now.width }
    ensures samples { All IsSample result.now }
{
    plane.row(y)
}

/// The half samples between row `y` and the next; rows beyond the plane are its last ones.
fn half_row(plane: &Plane, y: u32, line: &mut [i16])
    requires inside { y < plane.now.height }
    requires at_most_4096 { plane.now.height ≤ LARGEST_SIDE }
    requires len { length line.old ≡ plane.now.width }
    requires samples { All IsSample plane.now.values }
    ensures value { (x : ℕ) → x < plane.now.width → slice_index_or line.new x (pos 0)
        ≡ half_behind (λ j. table_at plane.now x j) (plane.now.height - 1) y }
    ensures samples { All IsSample line.new }
{
    let last = plane.height() - 1;
    let rows = Around {
        a3: row_of_samples(plane, y.saturating_sub(3)),
        a2: row_of_samples(plane, y.saturating_sub(2)),
        a1: row_of_samples(plane, y.saturating_sub(1)),
        a0: row_of_samples(plane, y),
        b0: row_of_samples(plane, (y + 1).min(last)),
        b1: row_of_samples(plane, (y + 2).min(last)),
        b2: row_of_samples(plane, (y + 3).min(last)),
        b3: row_of_samples(plane, (y + 4).min(last)),
    };
    half_of_rows(rows, line);
}

/// Row `y` of the upconverted plane; `line` is room for one row of half samples.
fn double_row(plane: &Plane, y: u32, line: &mut [i16], out: &mut [i8])
    requires inside { y + 1 < 2 * plane.now.height }
    requires at_least_1 { 1 ≤ plane.now.width }
    requires at_most_4096 { plane.now.height ≤ LARGEST_SIDE }
    requires line { length line.old ≡ plane.now.width }
    requires out { length out.old ≡ 2 * plane.now.width }
    requires samples { All IsSample plane.now.values }
    ensures { (x : ℕ) → x + 1 < length out.old → slice_index_or out.new (place_in_row (length out.old) x) (pos 0)
        ≡ half_at plane.now x y }
{
    if y % 2 == 0 {
        double_line(row_of_samples(plane, y / 2), out);
    } else {
        half_row(plane, y / 2, line);
        double_line(line, out);
    }
}

/// All rows of the upconverted plane, one behind another.
fn double_rows(alloc: Global, plane: &Plane) -> Result<Vec<i8>, NoMemory>
    requires at_least_1 { 1 ≤ plane.now.width }
    requires at_most_4096 { plane.now.height ≤ LARGEST_SIDE }
    requires samples { All IsSample plane.now.values }
    ensures len { IfOk result (λ s. length s.items ≡ (2 * plane.now.height - 1) * (2 * plane.now.width)) }
    ensures value { IfOk result (λ s. (x y : ℕ) → x + 1 < 2 * plane.now.width → y + 1 < 2 * plane.now.height
        → phase_at plane.now.width s.items x y ≡ half_at plane.now x y) }
{
    let places = 2 * plane.width() as usize;
    let rows = 2 * plane.height() - 1;
    let mut line = vec![in alloc; 0i16; plane.width() as usize]?;
    let mut row = vec![in alloc; 0i8; places]?;
    let mut samples = Vec::with_capacity(alloc, rows as usize * places)?;
    for y in 0..rows {
        double_row(plane, y, line.as_mut_slice(), row.as_mut_slice());
        samples.extend_from_slice(row.as_slice())?;
    }
    Ok(samples)
}

/// The plane with its half samples, first between its rows and then between the columns of that result
/// (half-pixel upconversion, Dirac specification).
pub fn upconvert(alloc: Global, plane: &Plane) -> Result<UpPlane, NoMemory>
    requires across { plane.now.width ≤ LARGEST_SIDE }
    requires down { plane.now.height ≤ LARGEST_SIDE }
    requires samples { All IsSample plane.now.values }
    ensures value { IfOk result (λ u. u ≡ record {
      width = plane.now.width;
      height = plane.now.height;
      table = half plane.now;
    }) }
    ensures whole_positions { IfOk result (λ u. (x y : ℤ) → sub_sample u 0 x y ≡ clamped_at plane.now x y) }
{
    let width = plane.width();
    let height = plane.height();
    let samples = double_rows(alloc, plane)?;
    let table = Phases::of_rows(width, height, samples);
    Ok(UpPlane {
        width,
        height,
        samples: Samples::Doubled(table),
    })
}

/// The plane as `upconvert` gives it, but it holds its samples alone: each half sample is worked out where it is asked
/// for.
fn without_halves(alloc: Global, plane: &Plane) -> Result<UpPlane, NoMemory>
    requires across { plane.now.width ≤ LARGEST_SIDE }
    requires down { plane.now.height ≤ LARGEST_SIDE }
    requires samples { All IsSample plane.now.values }
    ensures { IfOk result (λ u. u ≡ record {
      width = plane.now.width;
      height = plane.now.height;
      table = half plane.now;
    }) }
{
    let samples = WholeSamples::of(alloc, plane)?;
    Ok(UpPlane {
        width: plane.width(),
        height: plane.height(),
        samples: Samples::Alone(samples),
    })
}

/// The plane as `upconvert` gives it, made for vectors that count in 2 to the power `precision` parts of a sample: at
/// precision 0 they lead to whole samples, and no half sample is made. Each that is asked for all the same is worked
/// out then, from up to 64 samples.
pub fn upconvert_for(alloc: Global, plane: &Plane, precision: u8) -> Result<UpPlane, NoMemory>
    requires across { plane.now.width ≤ LARGEST_SIDE }
    requires down { plane.now.height ≤ LARGEST_SIDE }
    requires samples { All IsSample plane.now.values }
    ensures { IfOk result (λ u. u ≡ record {
      width = plane.now.width;
      height = plane.now.height;
      table = half plane.now;
    }) }
{
    if precision == 0 {
        without_halves(alloc, plane)
    } else {
        upconvert(alloc, plane)
    }
}

/// Writes the samples from a position on, two columns and two rows apart: four rows of eight.
fn eight_by_four(table: &Phases, from: Position, out: &mut [i16])
    requires from { IsPositionNear (2 ^ 33) (2 ^ 34) from }
    requires four_rows_of_eight { length out.old ≡ 32 }
    ensures { AreSamplesByFour table.now from out.new }
{
    for j in 0..4 {
        let mut lanes = [0i16; 8];
        row_parts(table, lower(from, j), &mut lanes);
        put(&lanes, out, 8 * j);
    }
}

/// The position of the whole sample at column `x` and row `y`.
#[inline(always)]
fn whole_position(x: i64, y: i64) -> Position
    requires x { unsigned_abs x < 2 ^ 31 }
    requires y { unsigned_abs y < 2 ^ 32 }
    ensures near { IsPositionNear (2 ^ 33) (2 ^ 34) result }
    ensures bits { result.rests.bits ≡ 0 }
    ensures right { result.rests.right ≡ pos 0 }
    ensures below { result.rests.below ≡ pos 0 }
    ensures across { result.across ≡ pos 2 *ℤ x }
    ensures down { result.down ≡ pos 2 *ℤ y }
{
    let rests = Rests {
        bits: 0,
        right: 0,
        below: 0,
    };
    Position {
        rests,
        across: twice(x),
        down: twice(y),
    }
}

/// The position at column `x` and row `y`, both counted in parts, 2 to the power `bits` to a place.
#[inline(always)]
fn part_position(bits: u32, x: i64, y: i64) -> Position
    requires bits { bits ≤ 2 }
    requires x { unsigned_abs x < 2 ^ 31 }
    requires y { unsigned_abs y < 2 ^ 32 }
    ensures near { IsPositionNear (2 ^ 33) (2 ^ 34) result }
    ensures bits { result.rests.bits ≡ bits }
    ensures right { result.rests.right ≡ rest_at x bits }
    ensures below { result.rests.below ≡ rest_at y bits }
    ensures across { result.across ≡ place_at x bits }
    ensures down { result.down ≡ place_at y bits }
{
    let rests = Rests {
        bits,
        right: rest(x, bits),
        below: rest(y, bits),
    };
    Position {
        rests,
        across: place(x, bits),
        down: place(y, bits),
    }
}

/// The position of the table at column `x` and row `y`, both counted in 2 to the power `precision` parts of a sample.
#[inline(always)]
fn position_of(precision: u8, x: i64, y: i64) -> Position
    requires precision { precision ≤ 3 }
    requires x { unsigned_abs x < 2 ^ 31 }
    requires y { unsigned_abs y < 2 ^ 32 }
    ensures near { IsPositionNear (2 ^ 33) (2 ^ 34) result }
    ensures samples { (u : Up) (j k : ℕ) → sample_from u.table result k j
        ≡ sub_sample u precision (x +ℤ pos (2 ^ precision * k)) (y +ℤ pos (2 ^ precision * j)) }
{
    if precision == 0 {
        whole_position(x, y)
    } else {
        part_position(u32::from(precision) - 1, x, y)
    }
}

/// The rests of a position whose columns and rows are counted in parts, 2 to the power `bits` to a place.
#[inline(always)]
fn rests_of(bits: u32, x: i64, y: i64) -> Rests
    requires bits { bits ≤ 2 }
    ensures rests { AreRests result }
    ensures bits { result.bits ≡ bits }
    ensures right { result.right ≡ rest_at x bits }
    ensures below { result.below ≡ rest_at y bits }
{
    Rests {
        bits,
        right: rest(x, bits),
        below: rest(y, bits),
    }
}

/// The sample at a position of a plane whose half samples are made.
fn sample_doubled(table: &Phases, precision: u8, x: i64, y: i64) -> i16
    requires precision { precision ≤ 3 }
    requires x { unsigned_abs x < 2 ^ 32 }
    requires y { unsigned_abs y < 2 ^ 32 }
    ensures { (u : Up) → u.table ≡ table.now → result ≡ sub_sample u precision x y }
{
    if precision == 0 {
        whole_sample(table, x, y)
    } else {
        part(table, u32::from(precision) - 1, x, y)
    }
}

/// The sample at a position of a plane whose half samples aren't made.
fn sample_alone(samples: &WholeSamples, precision: u8, x: i64, y: i64) -> i16
    requires precision { precision ≤ 3 }
    requires x { unsigned_abs x < 2 ^ 32 }
    requires y { unsigned_abs y < 2 ^ 32 }
    ensures { (u : Up) → u.table ≡ half samples.now → result ≡ sub_sample u precision x y }
{
    if precision == 0 {
        samples.clamped(x, y)
    } else {
        let bits = u32::from(precision) - 1;
        samples.part(rests_of(bits, x, y), place(x, bits), place(y, bits))
    }
}

/// Writes rows of `width` samples from a position on, of a plane whose half samples aren't made.
#[inline(always)]
fn rows_alone(samples: &WholeSamples, precision: u8, x: i64, y: i64, width: usize, out: &mut [i16])
    requires precision { precision ≤ 3 }
    requires x { unsigned_abs x < 2 ^ 31 }
    requires y { unsigned_abs y < 2 ^ 32 }
    requires rows { AreWholeRows width out.old }
    ensures { (u : Up) → u.table ≡ half samples.now → AreSubSamplesByRows u precision x y width out.new }
{
    if precision == 0 {
        samples.samples_of_rows(x, y, width, out);
    } else {
        samples.rows_of_parts(position_of(precision, x, y), width, out);
    }
}

impl UpPlane {
    /// The sample at column `x` and row `y`, both counted in 2 to the power `precision` parts of a sample
    /// (sub-pixel prediction, Dirac specification). Positions may lie outside the plane.
    pub fn at(&self, precision: u8, x: i64, y: i64) -> i16
        requires precision { precision ≤ 3 }
        requires x { unsigned_abs x < 2 ^ 32 }
        requires y { unsigned_abs y < 2 ^ 32 }
        ensures value { result ≡ sub_sample self.now precision x y }
        ensures sample { IsSample result }
    {
        match &self.samples {
            Samples::Alone(samples) => sample_alone(samples, precision, x, y),
            Samples::Doubled(table) => sample_doubled(table, precision, x, y),
        }
    }

    /// The number of columns of the plane without its half samples.
    pub fn width(&self) -> u32
        ensures value { result ≡ self.now.width }
        ensures lawful { IsUp self.now.width self.now.height self.now.table }
    {
        self.width
    }

    /// The number of rows of the plane without its half samples.
    pub fn height(&self) -> u32
        ensures value { result ≡ self.now.height }
        ensures lawful { IsUp self.now.width self.now.height self.now.table }
    {
        self.height
    }

    /// Lends the samples and half samples, or none where no half samples are held. They stand in lines of as many
    /// places as the plane has columns: of each row first its even columns, and in the next line its odd ones; the last
    /// place of such a line holds no sample, and its value is not told. So samples that are a whole sample apart stand
    /// side by side.
    pub fn lines(&self) -> Option<&[i8]>
        ensures { ForSome (option_copied result) (AreLines self.now.table self.now.width) }
    {
        match &self.samples {
            Samples::Alone(_) => None,
            Samples::Doubled(table) => Some(table.lines()),
        }
    }

    /// Whether it holds half samples, so that none has to be worked out.
    pub fn has_half_samples(&self) -> bool {
        match &self.samples {
            Samples::Alone(_) => false,
            Samples::Doubled(_) => true,
        }
    }

    /// Writes the samples of row `y` from column `x` on, a whole sample apart; both are counted in 2 to the power
    /// `precision` parts of a sample. Positions may lie outside the plane.
    pub fn sub_row(&self, precision: u8, x: i64, y: i64, out: &mut [i16])
        requires precision { precision ≤ 3 }
        requires x { unsigned_abs x < 2 ^ 31 }
        requires y { unsigned_abs y < 2 ^ 32 }
        requires at_most_4096 { length out.old ≤ LARGEST_SIDE }
        ensures value { (k : ℕ) → k < length out.old → slice_index_or out.new k (pos 0)
            ≡ sub_sample self.now precision (x +ℤ pos (2 ^ precision * k)) y }
        ensures samples { All IsSample out.new }
    {
        match &self.samples {
            Samples::Alone(samples) => {
                rows_alone(samples, precision, x, y, out.len().max(1), out);
            }
            Samples::Doubled(table) => row_parts(table, position_of(precision, x, y), out),
        }
    }

    /// Writes the samples of rows of `width`, row after row, from column `x` of row `y` on, a whole sample apart; both
    /// are counted in 2 to the power `precision` parts of a sample. Positions may lie outside the plane.
    pub fn sub_rows(&self, precision: u8, x: i64, y: i64, width: usize, out: &mut [i16])
        requires precision { precision ≤ 3 }
        requires x { unsigned_abs x < 2 ^ 31 }
        requires y { unsigned_abs y < 2 ^ 31 }
        requires at_least_1 { 1 ≤ width }
        requires whole_rows { length out.old % width ≡ 0 }
        requires at_most_4096 { length out.old ≤ LARGEST_SIDE }
        ensures value { (n : ℕ) → n < length out.old → slice_index_or out.new n (pos 0)
            ≡ sub_sample self.now precision (x +ℤ pos (2 ^ precision * (n % width))) (y +ℤ pos (2 ^ precision
            * (n / width))) }
        ensures samples { All IsSample out.new }
    {
        match &self.samples {
            Samples::Alone(samples) => rows_alone(samples, precision, x, y, width, out),
            Samples::Doubled(table) => {
                rows_of_parts(table, position_of(precision, x, y), width, out);
            }
        }
    }

    /// Writes the samples of four rows of eight, row after row, from column `x` of row `y` on, a whole sample apart;
    /// both are counted in 2 to the power `precision` parts of a sample. Positions may lie outside the plane.
    pub fn sub_eight_by_four(&self, precision: u8, x: i64, y: i64, out: &mut [i16])
        requires precision { precision ≤ 3 }
        requires x { unsigned_abs x < 2 ^ 31 }
        requires y { unsigned_abs y < 2 ^ 31 }
        requires four_rows_of_eight { length out.old ≡ 32 }
        ensures value { (j k : ℕ) → j < 4 → k < 8 → slice_index_or out.new (8 * j + k) (pos 0)
            ≡ sub_sample self.now precision (x +ℤ pos (2 ^ precision * k)) (y +ℤ pos (2 ^ precision * j)) }
    {
        match &self.samples {
            Samples::Alone(samples) => rows_alone(samples, precision, x, y, 8, out),
            Samples::Doubled(table) => eight_by_four(table, position_of(precision, x, y), out),
        }
    }
}
