//! The order in which pictures are coded while they still come.

ghost use Rattle.std.specs.Prelude.{◌≡◌, ◌<◌, ◌≤◌, ◌+◌, ◌↔◌, true, false, length, take, drop, ◌++◌, slice_get, []};
ghost use Rattle.std.specs.Prelude.{Some, OnOk, IfOk, IfErr, IsErr, IsNone, IfNone, IfSome};
ghost use Rattle.std.specs.List.{remove};
ghost use Rattle.std.specs.Option.{option_copied};
ghost use Rattle.circular_buffer.specs.Buffer.{buffer};
ghost use Rattle.dirac_types.specs.Settings.{IsAccepted};
ghost use Rattle.dirac_plan.specs.Plan as plans;
ghost use Rattle.dirac_plan.specs.Planning as plannings;

use crate::item::item_of;
use crate::planned::Planned;
use circular_buffer::HeapCircularBuffer;
use dirac_common::{INTER_NON_REFERENCE_1, INTER_NON_REFERENCE_2, NoMemory, Picture};
use dirac_types::Settings;
use std::alloc::Global;
use std::marker::Model;

/// How many frames may wait to be coded: at most three between two anchors, and the anchor behind them.
pub const FRAMES_WAITING: usize = 4;

/// Takes the pictures of a stream as they come and gives them in coding order, each with its plan. A contract sees the
/// settings, how many pictures were accepted and how many planned ones given, whether the pictures have ended, and the
/// pictures that wait, oldest first.
#[derive(Drop)]
pub struct Planner {
    settings: Settings,
    accepted: u32,
    given: u32,
    ended: bool,
    queue: HeapCircularBuffer<Picture>,
}

impl Model for Planner {
    ghost use Rattle.std.specs.Prelude.{◌≡◌};
    ghost use Rattle.dirac_plan.specs.Planning.{Planning, waiting_places};
    ghost use Rattle.dirac_plan.specs.Waiting.{IsPlanning};

    ghost Value = { Planning };

    ghost view = { λ p. record {
      settings = p.settings;
      accepted = p.accepted;
      given = p.given;
      ended = p.ended;
      waiting = p.queue.items;
    } };

    ghost invariant = { λ p. (p.queue.capacity ≡ waiting_places p.settings)
        × IsPlanning p.settings p.accepted p.given p.ended p.queue.items };
}

impl Planner {
    /// A planner with a queue of four places, with fields of eight.
    pub fn try_new(alloc: Global, settings: &Settings) -> Result<Planner, NoMemory>
        requires { IsAccepted settings.now }
        ensures { IfOk result (λ p. p ≡ plannings.empty_planning settings.now) }
    {
        Ok(Planner {
            settings: *settings,
            accepted: 0,
            given: 0,
            ended: false,
            queue: HeapCircularBuffer::with_capacity(alloc, waiting_places(settings))?,
        })
    }

    /// How many pictures were accepted.
    pub fn accepted(&self) -> u32
        ensures value { result ≡ self.now.accepted }
        ensures counts { self.now.accepted ≡ self.now.given + length self.now.waiting }
    {
        self.accepted
    }

    /// How many pictures wait.
    pub fn waiting(&self) -> usize
        ensures value { result ≡ length self.now.waiting }
        ensures waiting_fit { result ≤ plannings.waiting_places self.now.settings }
        ensures counts { self.now.accepted ≡ self.now.given + result }
    {
        self.queue.len()
    }

    /// Lends the picture at a place among those that wait; the oldest stands at place 0, none behind the last.
    pub fn waiting_at(&self, place: usize) -> Option<&Picture>
        ensures { option_copied result ≡ slice_get self.now.waiting place }
    {
        self.queue.get(place)
    }

    /// Whether `push` hands back for now whatever picture it is handed.
    pub fn is_closed(&self) -> bool
        ensures { result ≡ plannings.is_closed self.now }
    {
        self.queue.is_full() || must_be_taken_first(&self.settings, self.accepted, self.given)
    }

    /// Takes the next picture of the input. An `Err` hands it back: no place is free, or pictures between two anchors,
    /// or the second field of an anchor that opens no group, are still to be taken.
    pub fn push(&mut self, picture: Picture) -> Result<(), Picture>
        requires number { picture.number ≡ self.old.accepted }
        requires in_range { self.old.accepted < 2147483647 }
        requires not_ended { self.old.ended ≡ false }
        ensures closed { IsErr result ↔ (plannings.is_closed self.old ≡ true) }
        ensures accepted { OnOk result (self.new ≡ plannings.with_picture self.old picture) }
        ensures handed_back { IfErr result (λ p. (p ≡ picture) × (self.new ≡ self.old)) }
        ensures waiting_fit { length self.new.waiting ≤ plannings.waiting_places self.new.settings }
        ensures counts { self.new.accepted ≡ self.new.given + length self.new.waiting }
    {
        if self.queue.is_full() || must_be_taken_first(&self.settings, self.accepted, self.given) {
            return Err(picture);
        }
        self.queue.push_back(picture);
        self.accepted += 1;
        Ok(())
    }

    /// Gives the next picture in coding order, with its plan; `ended` says that no picture will come any more.
    ///
    /// `None` where no picture waits; and, while pictures may still come, where fewer wait than are needed.
    pub fn take(&mut self, ended: bool) -> Option<(Planned, Picture)>
        requires { self.old.ended ≡ true → ended ≡ true }
        ensures takes { IfSome result (λ r. plannings.Takes ended self.old self.new r.0 r.1) }
        ensures none { IsNone result ↔ (plannings.gives_none self.old ended ≡ true) }
        ensures in_vain { IfNone result (self.new ≡ plannings.with_end self.old ended) }
        // Once the pictures have ended, all are given before `None`.
        ensures all_given { ended ≡ true → IfNone result (self.new.waiting ≡ []) }
        // Behind `None` the next picture will be accepted.
        ensures opened { ended ≡ false → IfNone result (plannings.is_closed self.new ≡ false) }
        ensures fewer { IfSome result (λ _. length self.new.waiting + 1 ≡ length self.old.waiting) }
        ensures settings { self.new.settings ≡ self.old.settings }
        ensures accepted { self.new.accepted ≡ self.old.accepted }
        ensures ended { self.new.ended ≡ ended }
        ensures waiting_fit { length self.new.waiting ≤ plannings.waiting_places self.new.settings }
        ensures counts { self.new.accepted ≡ self.new.given + length self.new.waiting }
    {
        let waiting = self.queue.len();
        if waiting == 0 || are_too_few(&self.settings, self.accepted, self.given, ended, waiting) {
            self.ended = ended;
            return None;
        }
        let planned = item_of(self.accepted, &self.settings, self.given);
        let place = planned.number.saturating_sub(self.given) as usize;
        let picture = take_at(&mut self.queue, place);
        self.given += 1;
        self.ended = ended;
        Some((planned, picture))
    }
}

/// How many pictures a frame is.
fn frame_pictures(settings: &Settings) -> u32
    ensures value { result ≡ plannings.frame_pictures settings.now }
    ensures within { (1 ≤ result) × (result ≤ 2) }
{
    if settings.fields == 0 { 1 } else { 2 }
}

/// How many pictures may wait.
fn waiting_places(settings: &Settings) -> usize
    ensures { result ≡ plannings.waiting_places settings.now }
{
    frame_pictures(settings) as usize * FRAMES_WAITING
}

/// Whether a planned picture stands between two anchors.
fn stands_between(planned: &Planned) -> bool
    ensures { result ≡ plannings.stands_between planned.now }
{
    planned.code == INTER_NON_REFERENCE_1 || planned.code == INTER_NON_REFERENCE_2
}

/// Whether a planned picture has a reference that isn't the picture before it.
fn refers_elsewhere(number: u32, reference: Option<u32>) -> bool
    ensures { result ≡ plannings.refers_elsewhere number reference }
{
    match reference {
        None => false,
        Some(reference) => u64::from(reference) + 1 != u64::from(number),
    }
}

/// Whether a planned picture is the second field of a frame that opens no group.
fn is_second_field_behind_the_opening(settings: &Settings, planned: &Planned) -> bool
    ensures { result ≡ plannings.is_second_field_behind_the_opening settings.now planned.now }
{
    settings.fields != 0
        && planned.number % 2 == 1
        && refers_elsewhere(planned.number, planned.ref1)
}

/// Whether the next planned picture of those accepted is still to be taken before more are accepted.
fn must_be_taken_first(settings: &Settings, accepted: u32, given: u32) -> bool
    requires settings { IsAccepted settings.now }
    requires in_range { accepted ≤ 2147483647 }
    ensures { result ≡ plannings.must_be_taken_first settings.now (slice_get (plans.plan accepted settings.now) given) }
{
    if accepted <= given {
        return false;
    }
    let next = item_of(accepted, settings, given);
    stands_between(&next) || is_second_field_behind_the_opening(settings, &next)
}

/// How many waiting pictures the next planned one needs, unless it is still to be taken.
fn pictures_needed(settings: &Settings, given: u32) -> u32
    requires { IsAccepted settings.now }
    ensures { result ≡ plannings.pictures_needed settings.now given }
{
    let frame = frame_pictures(settings);
    let offset = given % (frame * settings.gop);
    if offset < frame {
        1
    } else {
        (frame * (settings.between + 1)).min(frame * settings.gop - offset)
    }
}

/// Whether pictures may still come, and fewer wait than are needed for the next planned one.
fn are_too_few(settings: &Settings, accepted: u32, given: u32, ended: bool, waiting: usize) -> bool
    requires settings { IsAccepted settings.now }
    requires in_range { accepted ≤ 2147483647 }
    ensures { result ≡ plannings.are_too_few settings.now accepted given ended waiting }
{
    !ended
        && !must_be_taken_first(settings, accepted, given)
        && waiting < pictures_needed(settings, given) as usize
}

/// Moves the first `count` items of a queue behind the others, in their order.
fn rotate(queue: &mut HeapCircularBuffer<Picture>, count: usize)
    requires { count ≤ length queue.old.items }
    ensures { queue.new
        ≡ buffer (drop count queue.old.items ++ take count queue.old.items) queue.old.capacity }
{
    let _len = queue.len();
    'items: for i in 0..count {
        match queue.pop_front() {
            Some(picture) => {
                queue.push_back(picture);
            }
            None => unreachable!(),
        }
    }
}

/// Takes the item at this place out of a queue.
fn take_at(queue: &mut HeapCircularBuffer<Picture>, place: usize) -> Picture
    requires { place < length queue.old.items }
    ensures value { slice_get queue.old.items place ≡ Some result }
    ensures rest { queue.new ≡ buffer (remove queue.old.items place) queue.old.capacity }
{
    let behind = queue.len() - place - 1;
    rotate(queue, place);
    match queue.pop_front() {
        Some(picture) => {
            rotate(queue, behind);
            picture
        }
        None => unreachable!(),
    }
}
