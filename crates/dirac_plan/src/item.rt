//! The planned picture at a place in coding order, worked out from the place alone.

ghost use Rattle.std.specs.Prelude.{◌≡◌, ◌<◌, ◌≤◌, ◌+◌, ◌-◌, ◌*◌, ◌/◌, ◌%◌, slice_get, option_map, nat_le};
ghost use Rattle.std.specs.Prelude.{if◌then◌else◌, Some, None, IfSome};
ghost use Rattle.dirac_types.specs.Settings.{IsAccepted};
ghost use Rattle.dirac_plan.specs.declared.planned.Planned.{Planned};
ghost use Rattle.dirac_plan.specs.Plan as plans;
ghost use Rattle.dirac_plan.specs.Frames as frames;

use crate::planned::Planned;
use dirac_common::{
    INTER_NON_REFERENCE_1, INTER_NON_REFERENCE_2, INTER_REFERENCE_1, INTER_REFERENCE_2,
    INTRA_REFERENCE,
};
use dirac_types::Settings;

/// A frame to which others may refer, which refers to the anchor `before`, and to `second` if there is one.
fn anchor(number: u32, before: u32, second: Option<u32>, retire: Option<u32>) -> Planned
    ensures { result ≡ plans.anchor_of number before second retire }
{
    match second {
        None => Planned {
            number,
            code: INTER_REFERENCE_1,
            ref1: Some(before),
            ref2: None,
            retire,
        },
        Some(second) => Planned {
            number,
            code: INTER_REFERENCE_2,
            ref1: Some(before),
            ref2: Some(second),
            retire,
        },
    }
}

/// A frame between two anchors, to which none refers.
fn between(references: u32, before: u32, after: u32, number: u32) -> Planned
    ensures { result ≡ plans.between_of references before after number }
{
    if references == 2 {
        Planned {
            number,
            code: INTER_NON_REFERENCE_2,
            ref1: Some(before),
            ref2: Some(after),
            retire: None,
        }
    } else {
        Planned {
            number,
            code: INTER_NON_REFERENCE_1,
            ref1: Some(before),
            ref2: None,
            retire: None,
        }
    }
}

/// What the anchor behind anchor `k` of a group refers to besides anchor `k`: the group's first frame, or none.
fn second_of(settings: &Settings, first: u32, k: u32) -> Option<u32>
    ensures { result ≡ plans.second_of_anchor settings.now first k }
{
    if settings.references == 2 && 1 <= k {
        Some(first)
    } else {
        None
    }
}

/// Which anchor of a group, whose last one is anchor `last`, is listed behind it as number `j`, oldest first.
fn left_anchor(last: u32, j: u32) -> u32
    ensures { result ≡ plans.left_anchor last j }
{
    match j {
        0 => 0,
        1 => last.saturating_sub(1).max(1),
        _ => last,
    }
}

/// What anchor `j` of the group from frame `first` on, 0 to 2, retires of the group before it, if there is one: only
/// where the stream is to be shown alike.
fn retired_of_former(settings: &Settings, first: u32, j: u32) -> Option<u32>
    requires settings { IsAccepted settings.now }
    requires in_range { first ≤ 2147483647 }
    ensures { result ≡ plans.retired_of_former settings.now first j }
{
    if settings.alike == 0 {
        return None;
    }
    if first < settings.gop {
        return None;
    }
    let gap = settings.between + 1;
    let last = (settings.gop - 1 + settings.between) / gap;
    let offset = (left_anchor(last, j) * gap).min(settings.gop - 1);
    Some(first - settings.gop + offset)
}

/// What the anchor behind anchor `k` of a group retires: the anchor `gap` frames before anchor `k`, if that isn't the
/// group's first frame, else one of the group before. Anchor `k` has the number `before`.
fn retired_of(settings: &Settings, first: u32, before: u32, k: u32) -> Option<u32>
    requires settings { IsAccepted settings.now }
    requires in_range { first ≤ 2147483647 }
    requires gap { 2 ≤ k → settings.now.between + 1 ≤ before }
    ensures { result ≡ if nat_le 2 k then Some (before - (settings.now.between + 1))
        else plans.retired_of_former settings.now first (k + 1) }
{
    if 2 <= k {
        Some(before - (settings.between + 1))
    } else {
        retired_of_former(settings, first, k + 1)
    }
}

/// The frame that opens a group.
fn opening(settings: &Settings, first: u32) -> Planned
    requires settings { IsAccepted settings.now }
    requires in_range { first ≤ 2147483647 }
    ensures { result ≡ plans.opening_of settings.now first }
{
    Planned {
        retire: retired_of_former(settings, first, 0),
        ..Planned::opening(first)
    }
}

/// The frame that is coded as number `place` of `count` frames.
fn frame_item(count: u32, settings: &Settings, place: u32) -> Planned
    requires settings { IsAccepted settings.now }
    requires in_range { count ≤ 2147483647 }
    requires place { place < count }
    ensures { Some result ≡ slice_get (plans.frames_plan count settings.now) place }
{
    let offset = place % settings.gop;
    if offset == 0 {
        return opening(settings, place);
    }
    let gap = settings.between + 1;
    let first = place - offset;
    let len = settings.gop.min(count - first);
    let k = (offset - 1) / gap;
    let before = first + k * gap;
    let after = first + (k * gap + gap).min(len - 1);
    if (offset - 1) % gap == 0 {
        anchor(
            after,
            before,
            second_of(settings, first, k),
            retired_of(settings, first, before, k),
        )
    } else {
        between(settings.references, before, after, place - 1)
    }
}

/// The place in coding order of the last of `count` frames.
fn last_place(count: u32, settings: &Settings) -> u32
    requires settings { IsAccepted settings.now }
    requires in_range { count ≤ 2147483647 }
    requires at_least_1 { 0 < count }
    ensures { option_map frames.planned_number (slice_get (plans.frames_plan count settings.now) result)
        ≡ Some (count - 1) }
{
    let last = count - 1;
    let offset = last % settings.gop;
    if offset == 0 {
        return last;
    }
    let gap = settings.between + 1;
    last - offset + (offset - 1) / gap * gap + 1
}

/// The place that the field at a place of `count` fields would have if the last frame had both its fields: all behind
/// that frame would stand one place later.
fn whole_place(count: u32, settings: &Settings, place: u32) -> u32
    requires settings { IsAccepted settings.now }
    requires in_range { count ≤ 2147483647 }
    requires place { place < count }
    requires fields { settings.now.fields ≡ 0 → ⊥ }
    ensures field { (frame : Planned)
        → slice_get (plans.frames_plan ((count + 1) / 2) settings.now) (result / 2) ≡ Some frame
        → slice_get (plans.plan count settings.now) place ≡ Some (plans.field_of count (result % 2) frame) }
    ensures within { result / 2 < (count + 1) / 2 }
{
    if count % 2 == 0 {
        return place;
    }
    if place <= 2 * last_place((count + 1) / 2, settings) {
        place
    } else {
        place + 1
    }
}

/// Of `count` fields, field `parity` of a frame; where the last frame has no second field, its first one.
fn field_or_first(count: u32, parity: u32, frame: u32) -> u32
    requires parity { parity ≤ 1 }
    requires frame { frame < 2147483647 }
    ensures { result ≡ plans.field_or_first count parity frame }
{
    let first = 2 * frame;
    if first + parity < count {
        first + parity
    } else {
        first
    }
}

/// What field `parity` of a frame refers to, of `count` fields, where the frame refers to this one.
fn referred(count: u32, parity: u32, frame: Option<u32>) -> Option<u32>
    requires parity { parity ≤ 1 }
    requires frame { IfSome frame (λ t. t < 2147483647) }
    ensures { result ≡ option_map (plans.field_or_first count parity) frame }
{
    match frame {
        None => None,
        Some(frame) => Some(field_or_first(count, parity, frame)),
    }
}

/// What field `parity` of a frame retires, where the frame retires this one.
fn retired(parity: u32, frame: Option<u32>) -> Option<u32>
    requires parity { parity ≤ 1 }
    requires frame { IfSome frame (λ t. t < 2147483647) }
    ensures { result ≡ option_map (λ t. 2 * t + parity) frame }
{
    match frame {
        None => None,
        Some(frame) => Some(2 * frame + parity),
    }
}

/// Field `parity` of a planned frame, of `count` fields.
fn field_of(count: u32, parity: u32, frame: &Planned) -> Planned
    requires parity { parity ≤ 1 }
    requires frame { frames.IsBelow 2147483647 frame.now }
    ensures { result ≡ plans.field_of count parity frame.now }
{
    if frame.code == INTRA_REFERENCE && parity == 1 {
        return anchor(
            2 * frame.number + 1,
            2 * frame.number,
            None,
            retired(parity, frame.retire),
        );
    }
    Planned {
        number: 2 * frame.number + parity,
        code: frame.code,
        ref1: referred(count, parity, frame.ref1),
        ref2: referred(count, parity, frame.ref2),
        retire: retired(parity, frame.retire),
    }
}

/// The picture that is coded as number `place` of `count` pictures.
pub(crate) fn item_of(count: u32, settings: &Settings, place: u32) -> Planned
    requires settings { IsAccepted settings.now }
    requires in_range { count ≤ 2147483647 }
    requires place { place < count }
    ensures { Some result ≡ slice_get (plans.plan count settings.now) place }
{
    if settings.fields == 0 {
        return frame_item(count, settings, place);
    }
    let at = whole_place(count, settings, place);
    let frame = frame_item((count + 1) / 2, settings, at / 2);
    field_of(count, at % 2, &frame)
}
