ghost use Rattle.std.specs.Prelude.{◌≡◌, ℕ, ◌+◌, ◌<◌, ◌≤◌, [], ◌∷◌, ◌++◌, true, false, None};
ghost use Rattle.std.specs.Prelude.{All, IfOk, IfSome, IfNone};
ghost use Rattle.dirac_rows.specs.Weights.{times};
ghost use Rattle.dirac_rows.specs.Claims.{DrawsNumber, first_seat, less_a_share, split_off, taking_over};

use crate::rule::{ClaimRule, Drawing, Joining, Looking, Splitting};
use crate::view::{Terms, View};
use atomic_table::{Seat, Table};
use dirac_common::NoMemory;
use std::alloc::Global;
use std::marker::Model;

/// Rows that threads claim one by one, each row once. The numbers are drawn from one shared word, by one atomic step
/// each, so that no thread waits for another.
#[derive(Drop)]
pub struct RowClaims {
    table: Table<(), View, Terms, ClaimRule, Global>,
    rows: u32,
}

impl Model for RowClaims {
    ghost use Rattle.std.specs.Prelude.{◌≡◌, ◌^◌, ◌<◌, ◌≤◌};
    ghost use Rattle.dirac_rows.specs.Claims.{Claims};

    ghost Value = { Claims };

    ghost view = { λ c. record {
      table = c.table.shared.table_id;
      rows = c.rows;
      seats = c.table.shared.key.seats;
    } };

    ghost invariant = { λ c. (c.table.shared.table_id.words ≡ 1) × (c.table.shared.table_id.slots ≡ 0)
        × (c.table.shared.key.rows ≡ c.rows) × (c.rows < 2 ^ 32) × (c.table.shared.key.seats ≤ 64) };
}

/// What one thread claims with. Contracts alone see the numbers that it keeps: they take no memory.
#[derive(Drop)]
pub struct RowSeat {
    seat: Seat<(), View>,
    had_none: bool,
}

impl Model for RowSeat {
    ghost use Rattle.std.specs.Prelude.{◌≡◌, ◌<◌, []};
    ghost use Rattle.dirac_rows.specs.Claims.{Claims, Seated};

    ghost Value = { Seated };

    ghost view = { λ s. record {
      claims = record { table = s.seat.table_id; rows = s.seat.me.0.rows; seats = s.seat.me.0.seats };
      kept = s.seat.me.0.drawn;
      shares = s.seat.me.0.shares;
      given_up = s.seat.me.0.given_up;
      had_none = s.had_none;
    } };

    ghost invariant = { λ s. (s.seat.me.1 ≡ []) × (s.seat.me.0.had_none ≡ s.had_none) × (0 < s.seat.me.0.shares) };
}

/// What is left of claims at their end: how many rows were claimed.
#[derive(Clone, Copy, Debug, PartialEq, Eq)]
pub struct Claimed {
    pub rows: u32,
}

impl RowClaims {
    /// Claims of the rows below `rows`, and the first seat, which has a share for each seat that there can be.
    pub fn try_new(alloc: Global, rows: u32, seats: u32) -> Result<(RowClaims, RowSeat), NoMemory>
        requires { (1 ≤ seats) × (seats ≤ 64) }
        ensures { IfOk result (λ made. (made.0.rows ≡ rows) × (made.0.seats ≡ seats) × (made.1 ≡ first_seat made.0)) }
    {
        let (table, seat) = Table::of_words(alloc, &[0], &Terms { rows, seats })?;
        let claims = RowClaims { table, rows };
        let seat = RowSeat {
            seat,
            had_none: false,
        };
        Ok((claims, seat))
    }

    /// Draws the next number by one atomic step, and answers it where it is a row. A seat that had `None` draws no
    /// more.
    pub fn claim(&self, seat: &mut RowSeat) -> Option<u32>
        requires { seat.old.claims ≡ self.now }
        ensures after_none { seat.old.had_none ≡ true → (result ≡ None) × (seat.new ≡ seat.old) }
        ensures draws { seat.old.had_none ≡ false → DrawsNumber seat.old result seat.new }
        ensures same_claims { seat.new.claims ≡ self.now }
        ensures same_shares { (seat.new.shares ≡ seat.old.shares) × (seat.new.given_up ≡ seat.old.given_up) }
        ensures row { IfSome result (λ n. (n < self.now.rows) × All (λ k. k < n) seat.old.kept
            × (seat.new.kept ≡ seat.old.kept ++ n ∷ [])) }
        ensures none { IfNone result ((seat.new.had_none ≡ true)
            × ((r : ℕ) → r < self.now.rows → times r seat.new.kept ≡ times r seat.old.kept)) }
    {
        if seat.had_none {
            return None;
        }
        let number = self.table.shared.fetch_add::<Drawing>(&mut seat.seat, 0, 1);
        if number < self.rows as u64 {
            Some(number as u32)
        } else {
            seat.had_none = true;
            None
        }
    }

    /// A seat for another thread, with one share of this one.
    pub fn split(&self, seat: &mut RowSeat) -> RowSeat
        requires own { seat.old.claims ≡ self.now }
        requires shares { 2 ≤ seat.old.shares }
        ensures left { seat.new ≡ less_a_share seat.old }
        ensures made { result ≡ split_off self.now }
    {
        let other = self.table.shared.split_seat::<Splitting>(&mut seat.seat);
        RowSeat {
            seat: other,
            had_none: false,
        }
    }

    /// The seat takes over the other's rows, and the other's shares are given up. No row was kept by both.
    pub fn join(&self, seat: &mut RowSeat, other: RowSeat)
        requires own { seat.old.claims ≡ self.now }
        requires other_own { other.claims ≡ self.now }
        ensures taken { seat.new ≡ taking_over seat.old other }
        ensures no_row_twice { (r : ℕ) → times r seat.new.kept ≤ 1 }
    {
        let RowSeat {
            seat: theirs,
            had_none: _,
        } = other;
        self.table
            .shared
            .join_seat::<Joining>(&mut seat.seat, theirs);
        self.keeps_each_once(seat);
    }

    /// No number is kept twice, also where seats were joined: no two of these drew the same row, whether or not the
    /// claims come to their end.
    pub fn keeps_each_once(&self, seat: &mut RowSeat)
        requires { seat.old.claims ≡ self.now }
        ensures unchanged { seat.new ≡ seat.old }
        ensures no_row_twice { (r : ℕ) → times r seat.old.kept ≤ 1 }
    {
        self.table.shared.load::<Looking>(&mut seat.seat, 0);
    }

    /// The end, once the seat had `None` and all other seats were joined to it: it keeps each row once.
    pub fn finish(self, seat: RowSeat) -> Claimed
        requires own { seat.claims ≡ self }
        requires had_none { seat.had_none ≡ true }
        requires all_joined { seat.shares + seat.given_up ≡ self.seats }
        ensures rows { result.rows ≡ self.rows }
        ensures each_row_once { (r : ℕ) → r < self.rows → times r seat.kept ≡ 1 }
    {
        let RowClaims { table, rows } = self;
        let RowSeat { seat, had_none: _ } = seat;
        table.close_with(seat).free();
        Claimed { rows }
    }
}
