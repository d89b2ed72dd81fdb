ghost use Rattle.std.specs.Prelude.{◌≡◌, ◌<◌, [], ◌∷◌, ◌++◌, length, slice_get, Some};

use arrayvec::ArrayVec;
use std::marker::Model;

/// The counts of codeblocks, across and down, level by level from level 0: at most six.
///
/// It is seen as the list of its pairs.
#[derive(Drop)]
pub struct Counts {
    list: ArrayVec<(u32, u32), 6>,
}

impl Model for Counts {
    ghost use Rattle.std.specs.Prelude.{ℕ, List};

    ghost Value = { List (ℕ × ℕ) };

    ghost view = { λ c. c.list.items };
}

impl Counts {
    /// No level.
    pub fn new() -> Counts
        ensures { result ≡ [] }
    {
        Counts {
            list: ArrayVec::new(),
        }
    }

    /// Appends the counts of the next level.
    pub fn push(&mut self, across: u32, down: u32)
        requires { length self.old < 6 }
        ensures { self.new ≡ self.old ++ (across, down) ∷ [] }
    {
        self.list.push((across, down));
    }

    /// The counts of a level, across and down.
    pub fn at(&self, level: u8) -> (u32, u32)
        requires { level < length self.now }
        ensures { slice_get self.now level ≡ Some result }
    {
        let list = self.list.as_slice();
        list[level as usize]
    }

    /// How many levels have counts.
    pub fn len(&self) -> u8
        ensures { result ≡ length self.now }
    {
        self.list.len() as u8
    }
}
