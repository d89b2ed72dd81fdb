ghost use Rattle.std.specs.Prelude.{ℕ, List, Bool};
ghost use Rattle.std.specs.Borrow.{ftrue};

use std::marker::Model;

/// How many rows and seats the claims were made for.
#[derive(Clone, Copy)]
pub struct Terms {
    pub rows: u32,
    pub seats: u32,
}

/// What a seat knows. No value of it is made: proofs alone see it.
pub struct View {
    pub ghost rows: { ℕ },
    pub ghost seats: { ℕ },
    // the numbers that the seat drew, and those of the seats that were joined to it
    pub ghost drawn: { List ℕ },
    pub ghost shares: { ℕ },
    // the shares of the seats that were joined to it
    pub ghost given_up: { ℕ },
    pub ghost had_none: { Bool },
}

impl Model for View {
    ghost also_owns = { λ _. ftrue };
}
