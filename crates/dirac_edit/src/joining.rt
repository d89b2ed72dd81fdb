//! Sequences, written one behind another: those whose keys leave room are appended to the one before them.

ghost use Rattle.std.specs.Prelude.{◌≡◌, ◌≤◌, ◌<◌, ◌+◌, ◌++◌, ◌^◌, length, map, Err, None, Some, OnOk, MatchOption};
ghost use Rattle.std.specs.Prelude.{false, true, is_none};
ghost use Rattle.std.specs.Int.{to_be_bytes, w32};
ghost use Rattle.std.specs.Io.KnownBytes.{Appends};
ghost use Rattle.dirac_io.specs.Faults.{Rose};
ghost use Rattle.dirac_io.specs.Writing.{AppendsFront};
ghost use Rattle.dirac_encode_laws.specs.Stream.{end_unit, unit};
ghost use Rattle.dirac_edit_laws.specs.Joined.{bare, bytes_or_bare, first_number, joined_sequences};
ghost use Rattle.dirac_edit.specs.Merged.{added, progress_behind, length_behind, may_follow, moved_on, own_bytes};
ghost use Rattle.dirac_edit.specs.Merged.{own_length};
ghost use Rattle.dirac_edit.specs.Merged.{shift_onto, units_behind, way_onto};

use crate::keys::{Keys, keys_of};
use crate::numbers::{behind_number, number_in};
use crate::sequence::{HeldPicture, HeldSequence};
use dirac_common::SEQUENCE_HEADER;
use dirac_content::have_same_payload;
use dirac_io::{Sink, Unwritten, put_all};
use dirac_units::{PARSE_INFO_LENGTH, ParseInfo, put_end, put_unit, unit_length, write_info};
use std::marker::Model;

// The greatest key that a sequence may have.
const GREATEST_KEY: u64 = 0x7FFF_FFFF;

// The length of a picture's unit up to the end of its number.
const NUMBERED_LENGTH: usize = PARSE_INFO_LENGTH + 4;

/// The sequence that was written last, to which another may be appended.
#[derive(Drop)]
struct Latest<'a> {
    header: &'a [u8],
    first: u32,
    // the greatest key of its pictures
    high: u32,
}

impl<'a> Model for Latest<'a> {
    ghost use Rattle.dirac_edit.specs.Merged.{Latest as LatestText};

    ghost Value = { LatestText };

    ghost view = { λ l. record { header = l.header.now; first = l.first; high = l.high } };
}

/// How a sequence is appended to another: how far its numbers are moved, and the greatest key of both.
#[derive(Clone, Copy)]
struct Merge {
    way: u32,
    high: u32,
}

impl<'a> Latest<'a> {
    /// A sequence of its own.
    fn of(header: &'a [u8], keys: Keys) -> Latest<'a>
        ensures { result ≡ record { header = header.now; first = keys.first; high = keys.above } }
    {
        Latest {
            header,
            first: keys.first,
            high: keys.above,
        }
    }

    /// The latest header with this greatest key.
    fn raised(self, high: u32) -> Latest<'a>
        ensures { result ≡ record { header = self.entry.header; first = self.entry.first; high = high } }
    {
        Latest {
            header: self.header,
            first: self.first,
            high,
        }
    }

    /// How a sequence of this header and these keys is appended, if it is.
    fn merge(&self, header: &[u8], keys: Keys) -> Option<Merge>
        ensures { MatchOption result (may_follow self.now header.now keys ≡ false) (λ m.
            (may_follow self.now header.now keys ≡ true) × (m ≡ record {
              way = way_onto self.now keys;
              high = shift_onto self.now keys + keys.above;
            })) }
    {
        let by = u64::from(self.high) + 1 + u64::from(keys.below);
        let high = by + u64::from(keys.above);
        if !have_same_payload(header, self.header) || high > GREATEST_KEY {
            return None;
        }
        Some(Merge {
            way: self.first.wrapping_add(by as u32).wrapping_sub(keys.first),
            high: high as u32,
        })
    }
}

/// How far the writing is: the sequence that was written last, and the length of the last unit.
#[derive(Drop)]
struct Progress<'a> {
    latest: Option<Latest<'a>>,
    previous: u32,
}

impl<'a> Model for Progress<'a> {
    ghost use Rattle.dirac_edit.specs.Merged.{WritingProgress};

    ghost Value = { WritingProgress };

    ghost view = { λ p. record { latest = p.latest; previous = p.previous } };
}

impl<'a> Progress<'a> {
    /// Before the first sequence.
    fn new() -> Progress<'a>
        ensures { result ≡ record { latest = None; previous = 0 } }
    {
        Progress {
            latest: None,
            previous: 0,
        }
    }

    /// Whether nothing is written yet.
    fn is_bare(&self) -> bool
        ensures { result ≡ is_none self.now.latest }
    {
        self.latest.is_none()
    }

    /// The length of the last unit.
    fn previous(&self) -> u32
        ensures { result ≡ self.now.previous }
    {
        self.previous
    }

    /// Writes a sequence, appended to the one before it where it may be.
    fn put<K: Sink>(&mut self, out: &mut K, sequence: &HeldSequence<'a>) -> Result<(), Unwritten>
        ensures all { OnOk result (Appends (K.taken out.old) (K.taken out.new) (added self.old sequence.now).bytes) }
        ensures behind { OnOk result (self.new ≡ progress_behind self.old sequence.now) }
        ensures numbered { first_number sequence.now.pictures < 2 ^ 32 }
        ensures front { AppendsFront (K.taken out.old) (K.taken out.new) (added self.old sequence.now).bytes }
        ensures failed { result ≡ Err Unwritten.Failed → Rose (K.faults out.old) (K.faults out.new) }
        ensures count { K.faults out.old ≤ K.faults out.new }
    {
        let keys = keys_of(sequence.pictures());
        let Some(latest) = self.latest.take() else {
            self.latest = Some(Latest::of(sequence.header(), keys));
            return put_own(out, &mut self.previous, sequence);
        };
        match latest.merge(sequence.header(), keys) {
            Some(merge) => {
                self.latest = Some(latest.raised(merge.high));
                put_units(out, &mut self.previous, merge.way, sequence.pictures())
            }
            None => {
                self.latest = Some(Latest::of(sequence.header(), keys));
                put_apart(out, &mut self.previous, sequence)
            }
        }
    }
}

/// Writes a picture's unit with this number and this rest of its payload, behind a unit of `previous` bytes.
fn put_numbered<K: Sink>(
    out: &mut K,
    code: u8,
    previous: u32,
    number: u32,
    rest: &[u8],
) -> Result<(), Unwritten>
    requires { 17 + length rest.now < 2 ^ 32 }
    ensures all { OnOk result (Appends (K.taken out.old) (K.taken out.new)
        (unit code previous (to_be_bytes w32 number ++ rest.now))) }
    ensures front { AppendsFront (K.taken out.old) (K.taken out.new)
        (unit code previous (to_be_bytes w32 number ++ rest.now)) }
    ensures failed { result ≡ Err Unwritten.Failed → Rose (K.faults out.old) (K.faults out.new) }
    ensures count { K.faults out.old ≤ K.faults out.new }
{
    let info = write_info(ParseInfo {
        code,
        next: numbered_length(rest),
        previous,
    });
    put_both(out, &info, &number.to_be_bytes())?;
    put_all(out, rest).done()
}

/// Writes two pieces.
fn put_both<K: Sink>(out: &mut K, first: &[u8], second: &[u8]) -> Result<(), Unwritten>
    ensures all { OnOk result (Appends (K.taken out.old) (K.taken out.new) (first.now ++ second.now)) }
    ensures front { AppendsFront (K.taken out.old) (K.taken out.new) (first.now ++ second.now) }
    ensures failed { result ≡ Err Unwritten.Failed → Rose (K.faults out.old) (K.faults out.new) }
    ensures count { K.faults out.old ≤ K.faults out.new }
{
    put_all(out, first).done()?;
    put_all(out, second).done()
}

/// The length of a picture's unit, which has this behind its number.
fn numbered_length(rest: &[u8]) -> u32
    requires { 17 + length rest.now < 2 ^ 32 }
    ensures { result ≡ 17 + length rest.now }
{
    (NUMBERED_LENGTH + rest.len()) as u32
}

/// Writes the units of pictures whose numbers are moved on by `way`, behind a unit of `previous` bytes.
fn put_units<K: Sink>(
    out: &mut K,
    previous: &mut u32,
    way: u32,
    pictures: &[HeldPicture<'_>],
) -> Result<(), Unwritten>
    ensures all { OnOk result (Appends (K.taken out.old) (K.taken out.new)
        (units_behind previous.old (map (moved_on way) pictures.now))) }
    ensures last { OnOk result (previous.new ≡ length_behind previous.old (map (moved_on way) pictures.now)) }
    ensures front { AppendsFront (K.taken out.old) (K.taken out.new)
        (units_behind previous.old (map (moved_on way) pictures.now)) }
    ensures failed { result ≡ Err Unwritten.Failed → Rose (K.faults out.old) (K.faults out.new) }
    ensures count { K.faults out.old ≤ K.faults out.new }
{
    for picture in pictures {
        let payload = picture.payload();
        let number = number_in(payload).wrapping_add(way);
        let rest = behind_number(payload);
        put_numbered(out, picture.code(), *previous, number, rest)?;
        *previous = numbered_length(rest);
    }
    Ok(())
}

/// Writes the header and the pictures of a sequence, behind a unit of `previous` bytes.
fn put_own<K: Sink>(
    out: &mut K,
    previous: &mut u32,
    sequence: &HeldSequence<'_>,
) -> Result<(), Unwritten>
    ensures all { OnOk result (Appends (K.taken out.old) (K.taken out.new)
        (own_bytes previous.old sequence.now)) }
    ensures last { OnOk result (previous.new ≡ own_length sequence.now) }
    ensures front { AppendsFront (K.taken out.old) (K.taken out.new) (own_bytes previous.old sequence.now) }
    ensures failed { result ≡ Err Unwritten.Failed → Rose (K.faults out.old) (K.faults out.new) }
    ensures count { K.faults out.old ≤ K.faults out.new }
{
    let header = sequence.header();
    put_unit(out, SEQUENCE_HEADER, *previous, header).done()?;
    *previous = unit_length(header);
    put_units(out, previous, 0, sequence.pictures())
}

/// Writes an end unit behind a unit of `previous` bytes, and behind it a sequence.
fn put_apart<K: Sink>(
    out: &mut K,
    previous: &mut u32,
    sequence: &HeldSequence<'_>,
) -> Result<(), Unwritten>
    ensures all { OnOk result (Appends (K.taken out.old) (K.taken out.new)
        (end_unit previous.old ++ own_bytes 13 sequence.now)) }
    ensures last { OnOk result (previous.new ≡ own_length sequence.now) }
    ensures front { AppendsFront (K.taken out.old) (K.taken out.new)
        (end_unit previous.old ++ own_bytes 13 sequence.now) }
    ensures failed { result ≡ Err Unwritten.Failed → Rose (K.faults out.old) (K.faults out.new) }
    ensures count { K.faults out.old ≤ K.faults out.new }
{
    put_end(out, *previous).done()?;
    *previous = PARSE_INFO_LENGTH as u32;
    put_own(out, previous, sequence)
}

/// Writes a stream without pictures: the first header, where there is one, and an end unit.
fn put_bare<K: Sink>(out: &mut K, sequences: &[HeldSequence<'_>]) -> Result<(), Unwritten>
    ensures all { OnOk result (Appends (K.taken out.old) (K.taken out.new) (bare sequences.now)) }
    ensures front { AppendsFront (K.taken out.old) (K.taken out.new) (bare sequences.now) }
    ensures failed { result ≡ Err Unwritten.Failed → Rose (K.faults out.old) (K.faults out.new) }
    ensures count { K.faults out.old ≤ K.faults out.new }
{
    let Some(sequence) = sequences.first() else {
        return put_end(out, 0).done();
    };
    let header = sequence.header();
    put_unit(out, SEQUENCE_HEADER, 0, header).done()?;
    put_end(out, unit_length(header)).done()
}

/// Writes sequences, joined.
pub(crate) fn put_joined<K: Sink>(
    out: &mut K,
    sequences: &[HeldSequence<'_>],
) -> Result<(), Unwritten>
    ensures all { OnOk result (Appends (K.taken out.old) (K.taken out.new)
        (bytes_or_bare sequences.now (joined_sequences sequences.now))) }
    ensures front { AppendsFront (K.taken out.old) (K.taken out.new)
        (bytes_or_bare sequences.now (joined_sequences sequences.now)) }
    ensures failed { result ≡ Err Unwritten.Failed → Rose (K.faults out.old) (K.faults out.new) }
    ensures count { K.faults out.old ≤ K.faults out.new }
{
    let mut progress = Progress::new();
    for sequence in sequences {
        if sequence.pictures().is_empty() {
            continue;
        }
        progress.put(out, sequence)?;
    }
    if progress.is_bare() {
        return put_bare(out, sequences);
    }
    put_end(out, progress.previous()).done()
}
