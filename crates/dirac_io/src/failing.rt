ghost use Rattle.std.specs.Prelude.{◌≡◌};
ghost use Rattle.dirac_io.specs.Calls.{fails, called, none_called};

use std::marker::Model;

/// Which calls fail, counted from 0, and how many came and failed so far.
#[derive(Drop)]
pub struct Failing {
    numbers: Vec<u64>,
    calls: u64,
    count: u64,
}

impl Model for Failing {
    ghost use Rattle.dirac_io.specs.Calls.{Calls};

    ghost Value = { Calls };

    ghost view = { λ f. record { failing = f.numbers.items; number = f.calls; count = f.count } };
}

impl Failing {
    pub fn new(numbers: Vec<u64>) -> Failing
        ensures { result ≡ none_called numbers.items }
    {
        Failing {
            numbers,
            calls: 0,
            count: 0,
        }
    }

    /// The next call: whether it is to fail. The number of the call and the count stand still at the
    /// end of their type.
    pub fn call(&mut self) -> bool
        ensures fails { result ≡ fails self.old }
        ensures called { self.new ≡ called self.old }
    {
        let fails = self.numbers.contains(&self.calls);
        self.calls = self.calls.saturating_add(1);
        if fails {
            self.count = self.count.saturating_add(1);
        }
        fails
    }

    pub fn count(&self) -> u64
        ensures { result ≡ self.now.count }
    {
        self.count
    }
}
