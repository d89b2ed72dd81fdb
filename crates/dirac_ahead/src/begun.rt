ghost use Rattle.std.specs.Prelude.{ℕ};

use std::marker::Brand;

/// What is known of a source when a reading ahead of it begins. A call picks it at `Brand`.
pub trait Begun {
    /// The name of the reference to the source.
    ghost name: { ℕ };

    /// How often a read has failed.
    ghost faults: { ℕ };
}

impl Begun for Brand {
    ghost name = { 0 };

    ghost faults = { 0 };
}
