ghost use Rattle.std.specs.Prelude.{◌≡◌, replicate, pos, IfOk};

use crate::memory::NoMemory;
use std::alloc::Global;

/// A number that a table may hold, of the types that tables have here.
pub trait Element: Copy {
    // What the definitions of tables have for a place outside of a table.
    ghost zero: { Self };

    /// A list of `count` times `value`.
    fn filled(alloc: Global, value: Self, count: usize) -> Result<Vec<Self>, NoMemory>
        ensures { IfOk result (λ v. v.items ≡ replicate count value) };
}

impl Element for i16 {
    ghost zero = { pos 0 };

    fn filled(alloc: Global, value: i16, count: usize) -> Result<Vec<i16>, NoMemory> {
        Ok(vec![in alloc; value; count]?)
    }
}

impl Element for i32 {
    ghost zero = { pos 0 };

    fn filled(alloc: Global, value: i32, count: usize) -> Result<Vec<i32>, NoMemory> {
        Ok(vec![in alloc; value; count]?)
    }
}

impl Element for i64 {
    ghost zero = { pos 0 };

    fn filled(alloc: Global, value: i64, count: usize) -> Result<Vec<i64>, NoMemory> {
        Ok(vec![in alloc; value; count]?)
    }
}

impl Element for i128 {
    ghost zero = { pos 0 };

    fn filled(alloc: Global, value: i128, count: usize) -> Result<Vec<i128>, NoMemory> {
        Ok(vec![in alloc; value; count]?)
    }
}
