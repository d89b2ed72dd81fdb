ghost use Rattle.std.specs.Prelude.{◌≡◌, ℕ, pos, true, false, ◌*◌, ◌^◌, ◌<◌, ◌≤◌, length, slice_index_or};
ghost use Rattle.std.specs.Prelude.{slice_set, replicate, unsigned_abs, List, IfOk, IfSome, None};
ghost use Rattle.std.specs.List.{All};
ghost use Rattle.dirac_common.specs.Table.{row_of, table_at};
ghost use Rattle.dirac_coeffs.specs.Grammar.{values_of_parent};
ghost use Rattle.dirac_coeffs.specs.Held.{IsLargest, zeros_of};
ghost use Rattle.dirac_coeffs.specs.Lent.{numbers_in, values_in};
ghost use Rattle.dirac_coeffs.specs.Written.{is_zero_band};

use crate::numbers::Numbers;
use crate::store::Values;
use dirac_common::{BandTable, LARGEST_TABLE_SIDE, NoMemory};
use std::alloc::Global;
use std::marker::Model;

/// Coefficients by rows, in 32 bits where each of them fits, else wide; no list of them where all are zeros.
#[derive(Drop)]
pub enum Held {
    Zeros,
    Narrow(Vec<i32>),
    Wide(BandTable),
}

/// The quantised coefficients of one subband, by rows from the top, and the largest of their magnitudes.
///
/// They are seen as a table.
#[derive(Drop)]
pub struct Coefficients {
    width: u32,
    height: u32,
    held: Held,
    largest: u64,
}

impl Model for Coefficients {
    ghost use Rattle.dirac_common.specs.Table.{Table};
    ghost use Rattle.dirac_coeffs.specs.Held.{IsHeld, held_table};

    ghost Value = { Table };

    ghost view = { λ c. held_table c.width c.height c.held };

    ghost invariant = { λ c. IsHeld c.width c.height c.held c.largest };
}

impl Coefficients {
    /// A band of zeros.
    pub fn zeros(width: u32, height: u32) -> Coefficients
        requires across { (1 ≤ width) × (width ≤ LARGEST_TABLE_SIDE) }
        requires down { (1 ≤ height) × (height ≤ LARGEST_TABLE_SIDE) }
        ensures { result ≡ zeros_of width height }
    {
        Coefficients {
            width,
            height,
            held: Held::Zeros,
            largest: 0,
        }
    }

    /// The coefficients of this table: in 32 bits where all magnitudes are below 2^31, and without a list where all are
    /// zeros.
    pub fn try_of(alloc: Global, table: BandTable) -> Result<Coefficients, NoMemory>
        requires across { table.width ≤ LARGEST_TABLE_SIDE }
        requires down { table.height ≤ LARGEST_TABLE_SIDE }
        ensures { IfOk result (λ c. c ≡ table) }
    {
        match vec![in alloc; 0i32; table.values().len()] {
            Ok(values) => Ok(Coefficients::narrowed_into(table, values)),
            Err(_e) => Err(NoMemory),
        }
    }

    /// The coefficients of this table, in this list where all magnitudes are below 2^31.
    fn narrowed_into(table: BandTable, values: Vec<i32>) -> Coefficients
        requires across { table.width ≤ LARGEST_TABLE_SIDE }
        requires down { table.height ≤ LARGEST_TABLE_SIDE }
        requires len { length values.items ≡ length table.values }
        ensures { result ≡ table }
    {
        let mut values = values;
        let narrowed = copy_narrowed(table.values(), values.as_mut_slice());
        let width = table.width();
        let height = table.height();
        if narrowed.all {
            return Coefficients::of_rows(width, height, values, narrowed.largest);
        }
        let largest = largest_of(table.values());
        Coefficients {
            width,
            height,
            held: Held::Wide(table),
            largest,
        }
    }

    /// The coefficients that stand in this list, by rows, and have this largest magnitude.
    fn of_rows(width: u32, height: u32, values: Vec<i32>, largest: u32) -> Coefficients
        requires across { (1 ≤ width) × (width ≤ LARGEST_TABLE_SIDE) }
        requires down { (1 ≤ height) × (height ≤ LARGEST_TABLE_SIDE) }
        requires len { length values.items ≡ width * height }
        requires largest { IsLargest largest values.items }
        ensures { result ≡ record { width = width; height = height; values = values.items } }
    {
        if largest == 0 {
            return Coefficients::zeros(width, height);
        }
        Coefficients {
            width,
            height,
            held: Held::Narrow(values),
            largest: u64::from(largest),
        }
    }

    /// The coefficients that were read into these values, by rows.
    pub(crate) fn of_values(
        alloc: Global,
        width: u32,
        height: u32,
        values: Values,
    ) -> Result<Coefficients, NoMemory>
        requires across { (1 ≤ width) × (width ≤ LARGEST_TABLE_SIDE) }
        requires down { (1 ≤ height) × (height ≤ LARGEST_TABLE_SIDE) }
        requires len { length (values_in values) ≡ width * height }
        ensures { IfOk result (λ c. c ≡ record { width = width; height = height; values = values_in values }) }
    {
        match values {
            Values::Narrow(list) => Ok(Coefficients::of_narrow(width, height, list)),
            Values::Wide(list) => {
                match table_of(alloc, width, height, Numbers::Wide(list.as_slice())) {
                    Ok(table) => Coefficients::try_of(alloc, table),
                    Err(e) => Err(e),
                }
            }
        }
    }

    /// The coefficients that stand in this list, by rows.
    pub fn of_narrow(width: u32, height: u32, values: Vec<i32>) -> Coefficients
        requires across { (1 ≤ width) × (width ≤ LARGEST_TABLE_SIDE) }
        requires down { (1 ≤ height) × (height ≤ LARGEST_TABLE_SIDE) }
        requires len { length values.items ≡ width * height }
        ensures { result ≡ record { width = width; height = height; values = values.items } }
    {
        let largest = largest_narrow(values.as_slice());
        Coefficients::of_rows(width, height, values, largest)
    }

    /// Lends all of them, by rows.
    pub(crate) fn numbers(&self) -> Numbers<'_>
        ensures { numbers_in result ≡ self.now.values }
    {
        match &self.held {
            Held::Zeros => Numbers::Zeros(self.width as usize * self.height as usize),
            Held::Narrow(list) => Numbers::Narrow(list.as_slice()),
            Held::Wide(table) => Numbers::Wide(table.values()),
        }
    }

    /// The number of columns.
    pub fn width(&self) -> u32
        ensures value { result ≡ self.now.width }
        ensures whole { length self.now.values ≡ self.now.width * self.now.height }
        ensures at_least_1 { 1 ≤ result }
        ensures at_most_8192 { result ≤ LARGEST_TABLE_SIDE }
    {
        self.width
    }

    /// The number of rows.
    pub fn height(&self) -> u32
        ensures value { result ≡ self.now.height }
        ensures whole { length self.now.values ≡ self.now.width * self.now.height }
        ensures at_least_1 { 1 ≤ result }
        ensures at_most_8192 { result ≤ LARGEST_TABLE_SIDE }
    {
        self.height
    }

    /// The largest magnitude.
    pub fn largest(&self) -> u64
        ensures { IsLargest result self.now.values }
    {
        self.largest
    }

    /// Whether all coefficients are zeros.
    pub fn are_zeros(&self) -> bool
        ensures value { result ≡ is_zero_band self.now.values }
        ensures zeros { result ≡ true → All (λ v. v ≡ pos 0) self.now.values }
    {
        self.largest == 0
    }

    /// The coefficient in column `x` of row `y`, both counted from 0.
    pub fn at(&self, x: u32, y: u32) -> i64
        requires across { x < self.now.width }
        requires down { y < self.now.height }
        ensures { result ≡ table_at self.now x y }
    {
        match &self.held {
            Held::Zeros => 0,
            Held::Narrow(list) => { i64::from(list[y as usize * self.width as usize + x as usize]) }
            Held::Wide(table) => table.at(x, y),
        }
    }

    /// Lends row `y` of coefficients that fit 32 bits; none where all are zeros.
    pub fn narrow_row(&self, y: u32) -> Option<&[i32]>
        requires inside { y < self.now.height }
        requires fits { All (λ v. unsigned_abs v < 2 ^ 31) self.now.values }
        ensures value { IfSome result (λ row. row.now ≡ row_of self.now y) }
        ensures len { IfSome result (λ row. length row.now ≡ self.now.width) }
        ensures zeros { result ≡ None → All (λ v. v ≡ pos 0) self.now.values }
        ensures no_list { All (λ v. v ≡ pos 0) self.now.values → result ≡ None }
    {
        match &self.held {
            Held::Zeros => None,
            Held::Narrow(list) => {
                let start = y as usize * self.width as usize;
                Some(&list[start..start + self.width as usize])
            }
            Held::Wide(_table) => None,
        }
    }

    /// A table of all coefficients, each in 64 bits.
    pub fn try_wide(&self, alloc: Global) -> Result<BandTable, NoMemory>
        ensures { IfOk result (λ t. t ≡ self.now) }
    {
        table_of(alloc, self.width(), self.height(), self.numbers())
    }
}

/// A table of these numbers, by rows, each in 64 bits.
fn table_of(
    alloc: Global,
    width: u32,
    height: u32,
    numbers: Numbers<'_>,
) -> Result<BandTable, NoMemory>
    requires across { (1 ≤ width) × (width ≤ LARGEST_TABLE_SIDE) }
    requires down { (1 ≤ height) × (height ≤ LARGEST_TABLE_SIDE) }
    requires len { length (numbers_in numbers) ≡ width * height }
    ensures { IfOk result (λ t. t ≡ record { width = width; height = height; values = numbers_in numbers.entry }) }
{
    match BandTable::try_new(alloc, width, height, 0) {
        Ok(zeros) => {
            let mut table = zeros;
            write_wide(numbers, table.values_mut());
            Ok(table)
        }
        Err(e) => Err(e),
    }
}

/// Writes numbers in 64 bits, over zeros.
fn write_wide(numbers: Numbers<'_>, wide: &mut [i64])
    requires { wide.old ≡ replicate (length (numbers_in numbers)) (pos 0) }
    ensures { wide.new ≡ numbers_in numbers.entry }
{
    match numbers {
        Numbers::Zeros(_count) => {}
        Numbers::Narrow(list) => copy_widened(list, wide),
        Numbers::Wide(list) => wide.copy_from_slice(list),
    }
}

/// Lends the values of a parent, none where there is no parent.
pub fn numbers_of(parent: Option<&Coefficients>) -> Numbers<'_>
    ensures { numbers_in result ≡ values_of_parent parent.entry }
{
    match parent {
        Some(table) => table.numbers(),
        None => Numbers::Zeros(0),
    }
}

/// What came of numbers that were written in 32 bits: whether all of them fit, and then the largest magnitude.
#[derive(Clone, Copy)]
struct Narrowed {
    all: bool,
    largest: u32,
}

/// The lower 32 bits of a number, which are the number where its magnitude is below 2^31.
#[inline(always)]
pub fn lower_half(value: i64) -> i32
    ensures { unsigned_abs value < 2 ^ 31 → result ≡ value }
{
    ((value.cast_unsigned() % 4_294_967_296) as u32).cast_signed()
}

/// Writes a number in 32 bits, where it fits.
#[inline(always)]
fn put_narrowed(wide: &[i64], n: usize, narrow: &mut [i32]) -> Narrowed
    requires wide { n < length wide.now }
    requires narrow { n < length narrow.old }
    ensures len { length narrow.new ≡ length narrow.old }
    ensures written { result.all ≡ true → narrow.new ≡ slice_set narrow.old n (slice_index_or wide.now n (pos 0)) }
    ensures largest { result.all ≡ true → result.largest ≡ unsigned_abs (slice_index_or wide.now n (pos 0)) }
    ensures others { result.all ≡ false → 2 ^ 31 ≤ unsigned_abs (slice_index_or wide.now n (pos 0)) }
{
    let value = wide[n];
    let half = lower_half(value);
    narrow[n] = half;
    Narrowed {
        all: i64::from(half) == value,
        largest: half.unsigned_abs(),
    }
}

/// Writes each number in 32 bits, where it fits. No number ends the loop, so that several are written at once.
fn copy_narrowed(wide: &[i64], narrow: &mut [i32]) -> Narrowed
    requires { length narrow.old ≡ length wide.now }
    ensures written { result.all ≡ true → narrow.new ≡ wide.now }
    ensures largest { result.all ≡ true → IsLargest result.largest wide.now }
    ensures others { result.all ≡ false → (m : ℕ) → All (λ v. unsigned_abs v ≤ m) wide.now → 2 ^ 31 ≤ m }
{
    let mut all = true;
    let mut largest = 0u32;
    for n in 0..wide.len() {
        let one = put_narrowed(wide, n, narrow);
        all &= one.all;
        largest = largest.max(one.largest);
    }
    Narrowed { all, largest }
}

/// The largest magnitude.
fn largest_of(values: &[i64]) -> u64
    ensures { IsLargest result values.now }
{
    let mut largest = 0u64;
    for n in 0..values.len() {
        largest = largest.max(values[n].unsigned_abs());
    }
    largest
}

/// The largest magnitude of numbers in 32 bits.
fn largest_narrow(values: &[i32]) -> u32
    ensures { IsLargest result values.now }
{
    let mut largest = 0u32;
    for n in 0..values.len() {
        largest = largest.max(values[n].unsigned_abs());
    }
    largest
}

/// Writes each number in 64 bits.
fn copy_widened(narrow: &[i32], wide: &mut [i64])
    requires { length wide.old ≡ length narrow.now }
    ensures { wide.new ≡ narrow.now }
{
    for n in 0..narrow.len() {
        wide[n] = i64::from(narrow[n]);
    }
}
