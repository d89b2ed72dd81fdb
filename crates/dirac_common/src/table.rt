ghost use Rattle.std.specs.Prelude.{◌≡◌, ◌+◌, ◌*◌, ◌<◌, ◌≤◌, length, replicate, take, unsigned_abs, IfOk, IfSome};
ghost use Rattle.std.specs.Prelude.{IsSome, IsTrue, ◌↔◌};
ghost use Rattle.std.specs.List.{All};
ghost use Rattle.std.specs.Borrow.{sem};
ghost use Rattle.dirac_common.specs.Table.{Cells, cell_at, clamped_at, clamped_to, row_of, with_row, with_value};
ghost use Rattle.dirac_common.specs.Table.{with_values};
ghost use Rattle.dirac_common.specs.Lending.{LendsRow, LendsValues};

use crate::element::Element;
use crate::limits::{LARGEST_NARROW, LARGEST_TABLE_SIDE};
use crate::memory::NoMemory;
use std::alloc::Global;
use std::marker::Model;

/// A table of values, by rows from the top.
#[derive(Debug, Drop)]
pub struct Table<T> {
    width: u32,
    height: u32,
    values: Vec<T>,
}

/// The samples of one colour component, each the byte of the raw picture minus 128.
pub type Plane = Table<i16>;

/// The values of a plane while it is transformed.
pub type Wide = Table<i128>;

/// The values of a plane that is transformed in 32 bits.
pub type Narrow = Table<i32>;

/// The quantised coefficients of one subband.
pub type BandTable = Table<i64>;

impl<T> Model for Table<T> {
    ghost use Rattle.std.specs.Prelude.{◌≡◌, ◌*◌, ◌≤◌, length};
    ghost use Rattle.dirac_common.specs.Table.{Cells};

    ghost Value = { Cells T };

    ghost view = { λ t. record { width = t.width; height = t.height; values = t.values.items } };

    ghost invariant = { λ t. (length t.values.items ≡ t.width * t.height) × (1 ≤ t.width) × (1 ≤ t.height) };
}

impl<T: Element> Table<T> {
    /// A table of `width` columns by `height` rows, all of whose values are `value`.
    pub fn try_new(alloc: Global, width: u32, height: u32, value: T) -> Result<Table<T>, NoMemory>
        requires across { (1 ≤ width) × (width ≤ LARGEST_TABLE_SIDE) }
        requires down { (1 ≤ height) × (height ≤ LARGEST_TABLE_SIDE) }
        ensures { IfOk result (λ t. t ≡ record {
          width = width;
          height = height;
          values = replicate (width * height) value;
        }) }
    {
        let count = width as usize * height as usize;
        Ok(Table {
            width,
            height,
            values: T::filled(alloc, value, count)?,
        })
    }

    /// The number of columns.
    pub fn width(&self) -> u32
        ensures value { result ≡ self.now.width }
        ensures whole { length self.now.values ≡ self.now.width * self.now.height }
        ensures at_least_1 { 1 ≤ result }
    {
        self.width
    }

    /// The number of rows.
    pub fn height(&self) -> u32
        ensures value { result ≡ self.now.height }
        ensures whole { length self.now.values ≡ self.now.width * self.now.height }
        ensures at_least_1 { 1 ≤ result }
    {
        self.height
    }

    /// The value in column `x` of row `y`, both counted from 0.
    pub fn at(&self, x: u32, y: u32) -> T
        requires across { x < self.now.width }
        requires down { y < self.now.height }
        ensures { result ≡ cell_at T.zero self.now x y }
    {
        self.values[y as usize * self.width as usize + x as usize]
    }

    /// Writes the value in column `x` of row `y`; all others stay.
    pub fn set(&mut self, x: u32, y: u32, value: T)
        requires across { x < self.old.width }
        requires down { y < self.old.height }
        ensures { self.new ≡ with_value self.old x y value }
    {
        let at = y as usize * self.width as usize + x as usize;
        self.values[at] = value;
    }

    /// Lends row `y`.
    pub fn row(&self, y: u32) -> &[T]
        requires { y < self.now.height }
        ensures value { result.now ≡ row_of self.now y }
        ensures len { length result.now ≡ self.now.width }
    {
        let start = y as usize * self.width as usize;
        &self.values[start..start + self.width as usize]
    }

    /// Lends row `y` for writing; all other rows stay.
    pub fn row_mut(&mut self, y: u32) -> &mut [T]
        requires { y < self.old.height }
        ensures* writes_back { sem 𝓛 (LendsRow T.row self.entry y result) }
        ensures value { result.now ≡ row_of self.old y }
        ensures len { length result.now ≡ self.old.width }
    {
        let start = y as usize * self.width as usize;
        let end = start + self.width as usize;
        self.values.slice_mut(start..end)
    }

    /// Its first `height` rows.
    pub fn first_rows(self, height: u32) -> Table<T>
        requires { (1 ≤ height) × (height ≤ self.height) }
        ensures value { result ≡ record {
          width = self.width;
          height = height;
          values = take (self.width * height) self.values;
        } }
        ensures whole { length self.values ≡ self.width * self.height }
    {
        let mut values = self.values;
        values.truncate(self.width as usize * height as usize);
        Table {
            width: self.width,
            height,
            values,
        }
    }

    /// Lends all values, by rows.
    pub fn values(&self) -> &[T]
        ensures value { result.now ≡ self.now.values }
        ensures len { length result.now ≡ self.now.width * self.now.height }
    {
        self.values.as_slice()
    }

    /// Lends all values, by rows, for writing.
    pub fn values_mut(&mut self) -> &mut [T]
        ensures* writes_back { sem 𝓛 (LendsValues T.row self.entry result) }
        ensures value { result.now ≡ self.old.values }
        ensures len { length result.now ≡ self.old.width * self.old.height }
    {
        self.values.as_mut_slice()
    }
}

impl Table<i16> {
    /// An equal plane.
    pub fn try_copy(&self, alloc: Global) -> Result<Plane, NoMemory>
        ensures { IfOk result (λ t. t ≡ self.now) }
    {
        Ok(Table {
            width: self.width,
            height: self.height,
            values: Vec::from_slice(alloc, self.values.as_slice())?,
        })
    }

    /// The sample at the position clamped to the plane.
    pub fn clamped(&self, x: i64, y: i64) -> i16
        ensures { result ≡ clamped_at self.now x y }
    {
        self.at(clamped_place(x, self.width), clamped_place(y, self.height))
    }
}

impl Table<i32> {
    /// The plane in 32 bits; none where a magnitude is above 4,095.
    pub fn try_of(alloc: Global, plane: &Wide) -> Result<Option<Narrow>, NoMemory>
        ensures value { IfOk result (λ narrow. IfSome narrow (λ t. t ≡ plane.now)) }
        ensures where_narrow { IfOk result (λ narrow. IsSome narrow ↔ All (λ v. unsigned_abs v ≤ LARGEST_NARROW)
            plane.now.values) }
    {
        if !are_narrow(plane.values.as_slice()) {
            return Ok(None);
        }
        let mut values = i32::filled(alloc, 0, plane.values.len())?;
        copy_narrowed(plane.values.as_slice(), values.as_mut_slice());
        Ok(Some(Table {
            width: plane.width,
            height: plane.height,
            values,
        }))
    }

    /// An equal plane of wide values.
    pub fn try_wide(&self, alloc: Global) -> Result<Wide, NoMemory>
        ensures { IfOk result (λ t. t ≡ self.now) }
    {
        let mut values = i128::filled(alloc, 0, self.values.len())?;
        copy_widened(self.values.as_slice(), values.as_mut_slice());
        Ok(Table {
            width: self.width,
            height: self.height,
            values,
        })
    }
}

/// Whether all magnitudes are at most 4,095.
fn are_narrow(values: &[i128]) -> bool
    ensures { IsTrue result ↔ All (λ v. unsigned_abs v ≤ LARGEST_NARROW) values.now }
{
    values
        .iter()
        .all(|v| v.unsigned_abs() <= u128::from(LARGEST_NARROW))
}

fn copy_narrowed(wide: &[i128], values: &mut [i32])
    requires len { length values.old ≡ length wide.now }
    requires magnitudes_at_most_4095 { All (λ v. unsigned_abs v ≤ LARGEST_NARROW) wide.now }
    ensures { values.new ≡ wide.now }
{
    for i in 0..wide.len() {
        values[i] = wide[i] as i32;
    }
}

fn copy_widened(values: &[i32], wide: &mut [i128])
    requires { length wide.old ≡ length values.now }
    ensures { wide.new ≡ values.now }
{
    for i in 0..values.len() {
        wide[i] = i128::from(values[i]);
    }
}

/// The place from 0 to `size - 1` that is nearest to `x`.
fn clamped_place(x: i64, size: u32) -> u32
    requires { 1 ≤ size }
    ensures value { result ≡ clamped_to x size }
    ensures inside { result < size }
{
    let last = size - 1;
    if x < 0 {
        0
    } else if x >= i64::from(last) {
        last
    } else {
        x as u32
    }
}
