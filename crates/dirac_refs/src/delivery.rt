ghost use Rattle.std.specs.Prelude.{◌≡◌, ◌≤◌, ◌<◌, ◌+◌, ◌-◌, ◌^◌, [], ◌∷◌, ◌++◌, length, int_lt, IsSome, ◌↔◌};
ghost use Rattle.std.specs.Option.{option_to_list};
ghost use Rattle.dirac_refs.specs.Delivery.{delivered, key_at, key_of, least, least_place, others};

use crate::bounded::Bounded;
use crate::waiting::Waiting;
use dirac_common::Picture;
use std::marker::Model;

/// The most decoded pictures that wait for delivery.
pub const MOST_WAITING: usize = 4;

// A place more, for the picture that makes another one leave.
const PLACES: usize = MOST_WAITING + 1;

/// The decoded pictures of a sequence that wait for delivery, in the order of pushing: at most four.
#[derive(Drop)]
pub struct Delivery {
    list: Bounded<Waiting, PLACES>,
}

impl Model for Delivery {
    ghost use Rattle.std.specs.Prelude.{List, length, ◌≤◌};
    ghost use Rattle.dirac_refs.specs.declared.delivery.TheConstants.{MOST_WAITING};
    ghost use Rattle.dirac_refs.specs.declared.waiting.Waiting.{Waiting};

    ghost Value = { List Waiting };

    ghost view = { λ d. d.list };

    ghost invariant = { λ d. length d.list ≤ MOST_WAITING };
}

/// The key of a picture's number in a sequence whose first picture has the number `first`.
pub fn key(first: u32, number: u32) -> i32
    ensures { result ≡ key_of first number }
{
    number.wrapping_sub(first).cast_signed()
}

impl Delivery {
    /// No picture waits.
    pub fn new() -> Delivery
        ensures { result ≡ [] }
    {
        Delivery {
            list: Bounded::new(),
        }
    }

    /// How many pictures wait.
    pub fn count(&self) -> u8
        ensures value { result ≡ length self.now }
        ensures at_most_4_wait { result ≤ MOST_WAITING }
    {
        self.list.len() as u8
    }

    /// A decoded picture joins those that wait. Where four wait already, the one of least key among the five
    /// leaves, the earlier pushed at a tie; else none does.
    pub fn push(&mut self, key: i32, picture: Picture) -> Option<Picture>
        ensures waiting { self.new ≡ (delivered (self.old ++ record { key = key; picture = picture } ∷ [])).waiting }
        ensures gone { option_to_list result ≡ (delivered (self.old ++ record { key = key; picture = picture }
            ∷ [])).gone }
        ensures exactly_when_4_wait { IsSome result ↔ (length self.old ≡ MOST_WAITING) }
        ensures at_most_4_wait { length self.new ≤ MOST_WAITING }
        ensures count { length self.new + length (option_to_list result) ≡ length self.old + 1 }
    {
        self.list.push(Waiting { key, picture });
        if self.list.len() <= MOST_WAITING {
            return None;
        }
        Some(take_least(&mut self.list))
    }

    /// The picture of least key leaves, the earlier pushed at a tie; `None` exactly where none waits.
    pub fn pop(&mut self) -> Option<Picture>
        ensures waiting { self.new ≡ others self.old }
        ensures gone { option_to_list result ≡ least self.old }
        ensures exactly_when_one_waits { IsSome result ↔ (0 < length self.old) }
        ensures at_most_4_wait { length self.new ≤ MOST_WAITING }
        ensures count { length self.new + length (option_to_list result) ≡ length self.old }
    {
        if self.list.len() == 0 {
            return None;
        }
        Some(take_least(&mut self.list))
    }
}

/// Takes the picture that leaves first out of the list.
fn take_least(list: &mut Bounded<Waiting, PLACES>) -> Picture
    requires { 0 < length list.old }
    ensures gone { result ∷ [] ≡ least list.old }
    ensures rest { list.new ≡ others list.old }
    ensures fewer { length list.new + 1 ≡ length list.old }
{
    let place = least_of(list);
    list.remove(place).picture
}

/// The place of the picture that leaves first.
#[tactic(auto, unfolding(crate::specs::Delivery::least_among))]
fn least_of(list: &Bounded<Waiting, PLACES>) -> usize
    requires { 0 < length list.now }
    ensures value { result ≡ least_place list.now }
    ensures inside { result < length list.now }
{
    let mut best = 0;
    for n in 0..list.len() - 1 {
        if is_before(list, n + 1, best) {
            best = n + 1;
        }
    }
    best
}

/// Whether the key at place `n` is less than the one at place `best`.
fn is_before(list: &Bounded<Waiting, PLACES>, n: usize, best: usize) -> bool
    requires { (n < length list.now) × (best < length list.now) }
    ensures { result ≡ int_lt (key_at list.now n) (key_at list.now best) }
{
    key_here(list, n) < key_here(list, best)
}

/// The key at a place.
fn key_here(list: &Bounded<Waiting, PLACES>, n: usize) -> i32
    requires { n < length list.now }
    ensures { result ≡ key_at list.now n }
{
    own_key(list.at(n))
}

/// The picture's key.
fn own_key(w: &Waiting) -> i32
    ensures { result ≡ w.now.key }
{
    w.key
}
