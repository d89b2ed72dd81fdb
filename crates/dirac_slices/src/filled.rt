//! The planes of a picture, in parts: each worker writes its part of each plane where it belongs.
ghost use Rattle.std.specs.Prelude.{◌≡◌, ◌+◌, ◌-◌, ◌*◌, ◌<◌, ◌≤◌, length, IfOk};
ghost use Rattle.std.specs.Thread.{IsSync};
ghost use Rattle.dirac_common.specs.declared.formats.Component.TheVariants as component;
ghost use Rattle.dirac_content.specs.Content as content;
ghost use Rattle.dirac_slices.specs.Basis.{planes_of, basis_sequence, IsBasis};
ghost use Rattle.dirac_slices.specs.Parts.{first_row_of_parts, end_row_of_parts, room_in};
ghost use Rattle.dirac_slices.specs.Parts.{second_half_of, first_half_of, part_values, AreFilled, AreSomeParts, HaveRoom};
ghost use Rattle.dirac_slices.specs.Parts.{IsRoomForPicture};
ghost use Rattle.dirac_slices.specs.Places as places;
ghost use Rattle.dirac_slices.specs.Samples.{values_between};

use crate::basis::{Making, lent_sequence, samples_of};
use crate::places::{component_at, first_row};
use dirac_common::{NoMemory, Picture, RowGate};
use dirac_rebuild::{height_of, width_of};
use std::marker::Sync;
use std::thread::{Threads, join_mut};

/// How many rows of a plane are made at a time at most: what is made of them stays in the processor's cache until they
/// are written.
pub const STRIP_ROWS: u32 = 128;

/// Some parts of the planes of a picture: those from number `first` to before number `end`, of `all` parts.
#[derive(Clone, Copy)]
pub struct Parts {
    pub first: u32,
    pub end: u32,
    pub all: u32,
}

/// How many samples rows `from` to `to` of the plane of this number have.
fn samples_in(making: &Making<'_, '_>, plane: u32, from: u32, to: u32) -> usize
    requires basis { IsBasis making.now.basis }
    requires order { from ≤ to }
    requires inside { to ≤ content.height_of (basis_sequence making.now.basis) (places.component_at plane) }
    ensures { result ≡ content.width_of (basis_sequence making.now.basis) (places.component_at plane) * (to - from) }
{
    let sequence = lent_sequence(making);
    let width = width_of(sequence, component_at(plane));
    let _height = height_of(sequence, component_at(plane));
    width as usize * (to - from) as usize
}

/// How many samples rows `from` to `middle` of the plane of this number have; rows `middle` to `to` have the others.
fn samples_above(making: &Making<'_, '_>, plane: u32, from: u32, middle: u32, to: u32) -> usize
    requires basis { IsBasis making.now.basis }
    requires order { (from ≤ middle) × (middle ≤ to) }
    requires inside { to ≤ content.height_of (basis_sequence making.now.basis) (places.component_at plane) }
    ensures value { result
        ≡ content.width_of (basis_sequence making.now.basis) (places.component_at plane) * (middle - from) }
    ensures rest { result
        + content.width_of (basis_sequence making.now.basis) (places.component_at plane) * (to - middle)
        ≡ content.width_of (basis_sequence making.now.basis) (places.component_at plane) * (to - from) }
{
    let _rows = to - middle;
    samples_in(making, plane, from, middle)
}

/// Writes rows `from` to `to` of the plane of this number, by halves until few enough are left.
fn fill_rows(
    making: &Making<'_, '_>,
    plane: u32,
    from: u32,
    to: u32,
    room: &mut [i16],
) -> Result<(), NoMemory>
    requires basis { IsBasis making.now.basis }
    requires plane { plane < 3 }
    requires order { from ≤ to }
    requires inside { to ≤ content.height_of (basis_sequence making.now.basis) (places.component_at plane) }
    requires room { length room.old
        ≡ content.width_of (basis_sequence making.now.basis) (places.component_at plane) * (to - from) }
    ensures { IfOk result (λ _. room.new ≡ values_between (basis_sequence making.now.basis)
        (planes_of making.now.basis) (places.component_at plane) from to) }
{
    if from == to {
        return Ok(());
    }
    if to - from <= STRIP_ROWS {
        let strip = samples_of(making, plane, from, to)?;
        room.copy_from_slice(strip.values());
        return Ok(());
    }
    let middle = from + (to - from) / 2;
    let (above, below) = room.split_at_mut(samples_above(making, plane, from, middle, to));
    fill_rows(making, plane, from, middle, above)?;
    fill_rows(making, plane, middle, to, below)
}

/// The first row of these parts of the plane of this number, and the row behind them.
fn rows_of(making: &Making<'_, '_>, plane: u32, parts: Parts) -> (u32, u32)
    requires basis { IsBasis making.now.basis }
    requires parts { AreSomeParts parts }
    ensures from { result.0 ≡ first_row_of_parts (basis_sequence making.now.basis) parts (places.component_at plane) }
    ensures to { result.1 ≡ end_row_of_parts (basis_sequence making.now.basis) parts (places.component_at plane) }
    ensures order { result.0 ≤ result.1 }
    ensures inside { result.1 ≤ content.height_of (basis_sequence making.now.basis) (places.component_at plane) }
{
    let height = height_of(lent_sequence(making), component_at(plane));
    let from = first_row(height, parts.all, parts.first);
    let to = first_row(height, parts.all, parts.end);
    (from, to)
}

/// More than one part in two halves.
fn halves(parts: Parts) -> (Parts, Parts)
    requires parts { AreSomeParts parts }
    requires more { 1 < parts.end - parts.first }
    ensures front { result.0 ≡ first_half_of parts }
    ensures back { result.1 ≡ second_half_of parts }
    ensures are_front { AreSomeParts result.0 }
    ensures are_back { AreSomeParts result.1 }
    ensures fewer_in_front { result.0.end - result.0.first < parts.end - parts.first }
    ensures fewer_behind { result.1.end - result.1.first < parts.end - parts.first }
{
    let middle = parts.first + (parts.end - parts.first) / 2;
    let front = Parts {
        first: parts.first,
        end: middle,
        all: parts.all,
    };
    let back = Parts {
        first: middle,
        end: parts.end,
        all: parts.all,
    };
    (front, back)
}

/// How many samples of the plane of this number stand in the first half of these parts; the others stand in the other.
fn room_before(making: &Making<'_, '_>, plane: u32, parts: Parts, front: Parts) -> usize
    requires basis { IsBasis making.now.basis }
    requires parts { AreSomeParts parts }
    requires are_front { AreSomeParts front }
    requires front { front ≡ first_half_of parts }
    ensures value { result ≡ room_in (basis_sequence making.now.basis) front (places.component_at plane) }
    ensures rest { result + room_in (basis_sequence making.now.basis) (second_half_of parts) (places.component_at plane)
        ≡ room_in (basis_sequence making.now.basis) parts (places.component_at plane) }
{
    let _end = parts.end;
    let (from, to) = rows_of(making, plane, front);
    samples_in(making, plane, from, to)
}

/// Writes these parts of the plane of this number.
fn fill_part(
    making: &Making<'_, '_>,
    plane: u32,
    parts: Parts,
    room: &mut [i16],
) -> Result<(), NoMemory>
    requires basis { IsBasis making.now.basis }
    requires plane { plane < 3 }
    requires parts { AreSomeParts parts }
    requires room { length room.old ≡ room_in (basis_sequence making.now.basis) parts (places.component_at plane) }
    ensures { IfOk result (λ _. room.new ≡ part_values (basis_sequence making.now.basis) (planes_of making.now.basis)
        parts (places.component_at plane)) }
{
    let (from, to) = rows_of(making, plane, parts);
    fill_rows(making, plane, from, to, room)
}

/// Writes these parts of all planes, each part by a worker, in threads of their own where threads can be had. A worker
/// goes through the gate before its part.
fn fill_parts<R: Threads + Sync, G: RowGate>(
    rt: &R,
    gate: &G,
    making: &Making<'_, '_>,
    parts: Parts,
    y: &mut [i16],
    u: &mut [i16],
    v: &mut [i16],
) -> Result<(), NoMemory>
    requires basis { IsBasis making.now.basis }
    requires parts { AreSomeParts parts }
    requires room { HaveRoom (basis_sequence making.now.basis) parts y.old u.old v.old }
    ensures { IfOk result (λ _. AreFilled (basis_sequence making.now.basis) (planes_of making.now.basis) parts
        y.new u.new v.new) }
{
    if parts.end - parts.first == 1 {
        gate.enter(parts.first);
        fill_part(making, 0, parts, y)?;
        fill_part(making, 1, parts, u)?;
        return fill_part(making, 2, parts, v);
    }
    let (front, back) = halves(parts);
    let (y_front, y_back) = y.split_at_mut(room_before(making, 0, parts, front));
    let (u_front, u_back) = u.split_at_mut(room_before(making, 1, parts, front));
    let (v_front, v_back) = v.split_at_mut(room_before(making, 2, parts, front));
    let (ours, theirs) = join_mut(
        rt,
        &mut || -> Result<(), NoMemory>
            requires { IsSync R.row × IsSync G.row × IsBasis making.now.basis × AreSomeParts front
                × HaveRoom (basis_sequence making.now.basis) front y_front.now u_front.now v_front.now }
            ensures { IfOk result (λ _. AreFilled (basis_sequence making.entry.now.basis)
                (planes_of making.entry.now.basis) front y_front.exit.now u_front.exit.now v_front.exit.now) }
        { fill_parts(rt, gate, making, front, y_front, u_front, v_front) },
        &mut || -> Result<(), NoMemory>
            requires { IsSync R.row × IsSync G.row × IsBasis making.now.basis × AreSomeParts back
                × HaveRoom (basis_sequence making.now.basis) back y_back.now u_back.now v_back.now }
            ensures { IfOk result (λ _. AreFilled (basis_sequence making.entry.now.basis)
                (planes_of making.entry.now.basis) back y_back.exit.now u_back.exit.now v_back.exit.now) }
        { fill_parts(rt, gate, making, back, y_back, u_back, v_back) },
    );
    ours?;
    theirs
}

/// The picture of this number whose samples are made from this, by that many workers, in the room of another picture.
pub(crate) fn filled_picture<R: Threads + Sync, G: RowGate>(
    rt: &R,
    gate: &G,
    making: &Making<'_, '_>,
    number: u32,
    room: Picture,
    workers: u32,
) -> Result<Picture, NoMemory>
    requires basis { IsBasis making.now.basis }
    requires room { IsRoomForPicture (basis_sequence making.now.basis) room }
    requires workers { (1 ≤ workers) × (workers ≤ 64) }
    ensures { IfOk result (λ p. p ≡ record {
      number = number;
      y = planes_of making.now.basis component.Y;
      u = planes_of making.now.basis component.U;
      v = planes_of making.now.basis component.V;
    }) }
{
    let Picture {
        number: _,
        mut y,
        mut u,
        mut v,
    } = room;
    let parts = Parts {
        first: 0,
        end: workers,
        all: workers,
    };
    fill_parts(
        rt,
        gate,
        making,
        parts,
        y.values_mut(),
        u.values_mut(),
        v.values_mut(),
    )?;
    Ok(Picture { number, y, u, v })
}
