use dirac_common::RowGate;
use std::sync::atomic::Ordering::SeqCst;
use std::sync::atomic::{AtomicBool, AtomicU64};
use std::thread;

// rows 0, 1 and 2 as bits of a set
pub const FIRST: u64 = 1;

pub const SECOND: u64 = 2;

pub const THIRD: u64 = 4;

// The bit of a row; rows beyond the third have none.
fn bit_of(row: u32) -> u64 {
    match row {
        0 => FIRST,
        1 => SECOND,
        2 => THIRD,
        _ => 0,
    }
}

// How many turns a gate holds a row for at most: seconds even where each is over at once. Behind each turn other
// threads get the processor, so that on a busy machine a turn is as long as they need.
const TURNS: u32 = 1_000_000;

// How often a turn looks at what has come.
const LOOKS: u32 = 10_000;

// Whether something comes to pass within that many turns.
fn comes<F: Fn() -> bool>(turns: u32, has_come: F) -> bool
    requires { F.IsAlwaysCallable has_come }
{
    for _ in 0..turns {
        for _ in 0..LOOKS {
            if has_come() {
                return true;
            }
        }
        thread::yield_now();
    }
    false
}

/// A gate that holds some rows until all rows were entered, or the turns run out.
#[derive(Drop)]
pub struct HoldsRows {
    held: u64,
    all: u64,
    turns: u32,
    entered: AtomicU64,
    came: AtomicBool,
    ran_out: AtomicBool,
}

impl HoldsRows {
    /// A gate over these rows, which holds those of `held`.
    pub fn new(held: u64, all: u64) -> HoldsRows {
        HoldsRows::for_turns(TURNS, held, all)
    }

    /// The same for that many turns.
    pub fn for_turns(turns: u32, held: u64, all: u64) -> HoldsRows {
        HoldsRows {
            held,
            all,
            turns,
            entered: AtomicU64::new(0),
            came: AtomicBool::new(false),
            ran_out: AtomicBool::new(false),
        }
    }

    /// The row was entered.
    pub fn was_entered(&self, row: u32) -> bool {
        self.entered.load(SeqCst) & bit_of(row) != 0
    }

    /// Each row that was held saw all others come.
    pub fn all_came(&self) -> bool {
        self.came.load(SeqCst) && !self.ran_out.load(SeqCst)
    }
}

impl RowGate for HoldsRows {
    fn enter(&self, row: u32) {
        let own = bit_of(row);
        self.entered.fetch_or(own, SeqCst);
        if self.held & own == 0 {
            return;
        }
        if comes(self.turns, || self.entered.load(SeqCst) == self.all) {
            self.came.store(true, SeqCst);
        } else {
            self.ran_out.store(true, SeqCst);
        }
    }
}

/// A gate that holds one of the rows 0 and 1 in each call until the other one was entered as often, or the turns run
/// out: where calls come one after the other, in that call.
#[derive(Drop)]
pub struct HoldsEachCall {
    held: u32,
    entered: [AtomicU64; 2],
    others: AtomicU64,
    ran_out: AtomicBool,
}

impl HoldsEachCall {
    /// A gate that holds this row.
    pub fn new(held: u32) -> HoldsEachCall {
        HoldsEachCall {
            held,
            entered: [AtomicU64::new(0), AtomicU64::new(0)],
            others: AtomicU64::new(0),
            ran_out: AtomicBool::new(false),
        }
    }

    /// How often a row that isn't 0 or 1 was entered.
    pub fn others(&self) -> u64 {
        self.others.load(SeqCst)
    }

    /// In how many calls both rows were entered, where none was held until the turns ran out.
    pub fn calls(&self) -> Option<u64> {
        if self.ran_out.load(SeqCst) {
            return None;
        }
        Some(
            self.entered[0]
                .load(SeqCst)
                .min(self.entered[1].load(SeqCst)),
        )
    }
}

impl RowGate for HoldsEachCall {
    fn enter(&self, row: u32) {
        let (own, other) = match row {
            0 => (&self.entered[0], &self.entered[1]),
            1 => (&self.entered[1], &self.entered[0]),
            _ => {
                self.others.fetch_add(1, SeqCst);
                return;
            }
        };
        // each call enters each row once, so the number of a row's entries is that of its calls
        let call = own.fetch_add(1, SeqCst);
        if row != self.held {
            return;
        }
        if !comes(TURNS, || call < other.load(SeqCst)) {
            self.ran_out.store(true, SeqCst);
        }
    }
}

/// A gate that holds one entry, of whatever row, until the next one comes, or the turns run out.
#[derive(Drop)]
pub struct HoldsEntry {
    held: u64,
    entries: AtomicU64,
    came: AtomicBool,
}

impl HoldsEntry {
    /// A gate that holds this entry, counted from 0.
    pub fn new(held: u64) -> HoldsEntry {
        HoldsEntry {
            held,
            entries: AtomicU64::new(0),
            came: AtomicBool::new(false),
        }
    }

    /// The entry that was held saw the next one come.
    pub fn next_came(&self) -> bool {
        self.came.load(SeqCst)
    }
}

impl RowGate for HoldsEntry {
    fn enter(&self, _row: u32) {
        let own = self.entries.fetch_add(1, SeqCst);
        if own != self.held {
            return;
        }
        if comes(TURNS, || own.wrapping_add(1) < self.entries.load(SeqCst)) {
            self.came.store(true, SeqCst);
        }
    }
}
