use dirac_commands::Ended;
use dirac_common::Cause;
use std::alloc::Global;
use std::test::Fail;
use std::thread::Threads;
use tests_support::{SMALL, STREAM, faulty, header, joined, shows};

// The picture of 8 by 8 samples, 4:2:0, that all pictures here are, as bytes.
const GREY: [u8; 96] = [0x80; 96];

// The unit of a grey intra reference picture of this number.
fn intra(alloc: Global, number: u8) -> Result<Vec<u8>, Fail> {
    joined(
        alloc,
        &[
            &header(0x0C, 31, 0),
            &[0, 0, 0, number, 0x80, 0x90],
            &[0x80; 12],
        ],
    )
}

// The unit, of `next` bytes, of a picture with one reference all of whose blocks are taken from there; `offsets` has
// the reference and what it retires, as numbers that differ from its own.
fn inter(alloc: Global, next: u32, number: u8, offsets: &[u8]) -> Result<Vec<u8>, Fail> {
    joined(
        alloc,
        &[
            &header(0x0D, next, 0),
            &[0, 0, 0, number],
            offsets,
            &STREAM[68..82],
        ],
    )
}

// The unit of such a picture that no other one refers to; `reference` is the number of its reference, less its own, as
// it is coded.
fn between(alloc: Global, next: u32, number: u8, reference: u8) -> Result<Vec<u8>, Fail> {
    joined(
        alloc,
        &[
            &header(0x09, next, 0),
            &[0, 0, 0, number, reference],
            &STREAM[68..82],
        ],
    )
}

// Grey pictures, one after another.
fn grey_pictures(alloc: Global, count: usize) -> Result<Vec<u8>, Fail> {
    let mut raw = Vec::new(alloc);
    for _ in 0..count {
        raw.extend_from_slice(&GREY)?;
    }
    Ok(raw)
}

// Decodes the stream of these pieces, and compares the answer, that many grey pictures, and the tally.
fn shows_grey<R: Threads + Sync>(
    rt: &R,
    alloc: Global,
    pieces: &[&[u8]],
    answer: Ended,
    count: usize,
    line: &str,
) -> Result<(), Fail> {
    let bytes = joined(alloc, pieces)?;
    let raw = grey_pictures(alloc, count)?;
    shows(rt, alloc, &bytes, answer, &raw, line)
}

#[test]
fn decodes_inter_pictures(rt: HostRuntime) -> Result<(), Fail> {
    let alloc = rt.alloc();
    let both = "pictures=2 references=2\n";
    shows_grey(&rt, alloc, &[&STREAM], Ended::Done, 2, both)?;

    // the same pictures, as the two fields of a frame of 8 by 16
    let fields = [0x6Fu8, 0xC1, 0x80, 0xC2, 0x0C, 0x07, 0x84];
    let pieces: [&[u8]; 3] = [&header(0x00, 20, 0), &fields, &STREAM[19..]];
    shows_grey(&rt, alloc, &pieces, Ended::Done, 2, both)
}

#[test]
fn looks_references_up_before_anything_changes(rt: HostRuntime) -> Result<(), Fail> {
    let alloc = rt.alloc();
    // a picture that retires what it refers to decodes; the next can't refer to that
    let first = inter(alloc, 32, 1, &[0x33])?;
    let second = inter(alloc, 32, 2, &[0x78])?;
    let pieces: [&[u8]; 3] = [&STREAM[..50], &first, &second];
    let missing = faulty(3, 95, Cause::MissingReference);
    shows_grey(&rt, alloc, &pieces, missing, 2, "pictures=2 references=1\n")
}

// The same behind an intra picture and one that refers to it.
fn shows_between<R: Threads + Sync>(
    rt: &R,
    alloc: Global,
    pieces: &[&[u8]],
    answer: Ended,
    count: usize,
    line: &str,
) -> Result<(), Fail> {
    let first = between(alloc, 32, 1, 0x30)?;
    let rest = joined(alloc, pieces)?;
    shows_grey(
        rt,
        alloc,
        &[&STREAM[..50], &first, &rest],
        answer,
        count,
        line,
    )
}

#[test]
fn decodes_what_refers_to_the_same_pictures(rt: HostRuntime) -> Result<(), Fail> {
    let alloc = rt.alloc();
    // both refer to picture 0; then the second one to picture 1, which isn't listed; then its payload ends too early
    let end = header(0x10, 0, 32);
    let second = between(alloc, 32, 2, 0x70)?;
    let line = "pictures=3 references=1\n";
    shows_between(&rt, alloc, &[&second, &end], Ended::Done, 3, line)?;

    // an intra picture that no other one refers to stands between them
    let second = between(alloc, 32, 3, 0x0C)?;
    let info = header(0x08, 30, 0);
    let pieces: [&[u8]; 5] = [&info, &[0, 0, 0, 2, 0x90], &[0x80; 12], &second, &end];
    let line = "pictures=4 references=1\n";
    shows_between(&rt, alloc, &pieces, Ended::Done, 4, line)?;

    let line = "pictures=2 references=1\n";
    let second = between(alloc, 32, 2, 0x30)?;
    let missing = faulty(3, 95, Cause::MissingReference);
    shows_between(&rt, alloc, &[&second, &end], missing, 2, line)?;

    let info = header(0x09, 18, 32);
    let end = header(0x10, 0, 18);
    let pieces: [&[u8]; 3] = [&info, &[0, 0, 0, 2, 0x70], &end];
    let short = faulty(3, 100, Cause::UnitShort);
    shows_between(&rt, alloc, &pieces, short, 2, line)
}

// The sequence header and nine grey intra pictures, numbered from 0.
fn nine_pictures(alloc: Global) -> Result<Vec<u8>, Fail> {
    let mut bytes = Vec::from_slice(alloc, &STREAM[..19])?;
    for number in 0..9 {
        let picture = intra(alloc, number)?;
        bytes.extend_from_slice(picture.as_slice())?;
    }
    Ok(bytes)
}

#[test]
fn lists_eight_references(rt: HostRuntime) -> Result<(), Fail> {
    let alloc = rt.alloc();
    let start = nine_pictures(alloc)?;
    // picture 0 has left the list, and picture 1 not yet
    let last = inter(alloc, 33, 9, &[0x13, 0x80])?;
    let missing = faulty(10, 311, Cause::MissingReference);
    let line = "pictures=9 references=8\n";
    shows_grey(&rt, alloc, &[&start, &last], missing, 9, line)?;

    let last = inter(alloc, 33, 9, &[0x07, 0x80])?;
    let pieces: [&[u8]; 3] = [&start, &last, &header(0x10, 0, 33)];
    let line = "pictures=10 references=8\n";
    shows_grey(&rt, alloc, &pieces, Ended::Done, 10, line)
}

// The unit of an intra picture of 2 by 2 samples of this number: one bit brighter than grey in luma, or grey.
fn square(alloc: Global, number: u8, bright: bool) -> Result<Vec<u8>, Fail> {
    let fields = [0, 0, 0, number, 0x80, 0x09, 0x00];
    if bright {
        joined(
            alloc,
            &[&header(0x0C, 33, 0), &fields, &[0x30, 0x2E], &[0x80; 11]],
        )
    } else {
        joined(
            alloc,
            &[&header(0x0C, 32, 0), &fields, &[0x80], &[0x80; 11]],
        )
    }
}

// The sequence header and five such pictures, the second of which, number 4, is the bright one.
fn five_squares(alloc: Global) -> Result<Vec<u8>, Fail> {
    let mut bytes = Vec::from_slice(alloc, &SMALL[..18])?;
    for number in [0u8, 4, 1, 2, 3] {
        let picture = square(alloc, number, number == 4)?;
        bytes.extend_from_slice(picture.as_slice())?;
    }
    Ok(bytes)
}

#[test]
fn delivers_by_number(rt: HostRuntime) -> Result<(), Fail> {
    let alloc = rt.alloc();
    let bright = [
        0x81u8, 0x81, 0x81, 0x81, 0x80, 0x80, 0x80, 0x80, 0x80, 0x80, 0x80, 0x80,
    ];
    let start = five_squares(alloc)?;
    let before = joined(alloc, &[&[0x80; 48], &bright])?;
    let open = faulty(6, 179, Cause::MissingEnd);
    let line = "pictures=5 references=5\n";
    shows(&rt, alloc, &start, open, &before, line)?;

    let last = square(alloc, 8, false)?;
    let whole = joined(alloc, &[&start, &last, &header(0x10, 0, 32)])?;
    let all = joined(alloc, &[&before, &[0x80; 12]])?;
    let line = "pictures=6 references=6\n";
    shows(&rt, alloc, &whole, Ended::Done, &all, line)
}
