ghost use Rattle.std.specs.Prelude.{◌≡◌, [], ◌∷◌, ◌++◌, ◌+◌, ◌<◌, ◌≤◌, length, slice_index_or};
ghost use Rattle.std.specs.List.{remove};

use arrayvec::ArrayVec;
use std::marker::Model;

/// A list of at most `CAP` items, which takes no memory of its own.
#[derive(Drop)]
pub(crate) struct Bounded<T, const CAP: usize> {
    places: ArrayVec<Option<T>, CAP>,
}

impl<T, const CAP: usize> Model for Bounded<T, CAP> {
    ghost use Rattle.std.specs.Prelude.{List};
    ghost use Rattle.dirac_refs.specs.Bounded.{AllFilled, contents};

    ghost Value = { List T };

    ghost view = { λ b. contents b.places.items };

    ghost invariant = { λ b. AllFilled b.places.items };
}

impl<T: Drop, const CAP: usize> Bounded<T, CAP> {
    /// The empty list.
    pub(crate) fn new() -> Self
        ensures { result ≡ [] }
    {
        Bounded {
            places: ArrayVec::new_in(()),
        }
    }

    /// The number of items.
    pub(crate) fn len(&self) -> usize
        ensures value { result ≡ length self.now }
        ensures within_capacity { result ≤ CAP }
    {
        self.places.len()
    }

    /// Lends the item at this place.
    pub(crate) fn at(&self, place: usize) -> &T
        requires { place < length self.now }
        ensures { result.now ≡ slice_index_or self.now place result.now }
    {
        match &self.places.as_slice()[place] {
            Some(item) => item,
            None => unreachable!(),
        }
    }

    /// Appends an item.
    pub(crate) fn push(&mut self, item: T)
        requires { length self.old < CAP }
        ensures { self.new ≡ self.old ++ item ∷ [] }
    {
        self.places.push(Some(item));
    }

    /// Takes the item at this place out of the list.
    pub(crate) fn remove(&mut self, place: usize) -> T
        requires { place < length self.old }
        ensures value { result ≡ slice_index_or self.old place result }
        ensures rest { self.new ≡ remove self.old place }
    {
        match self.places.remove(place) {
            Some(item) => item,
            None => unreachable!(),
        }
    }
}
