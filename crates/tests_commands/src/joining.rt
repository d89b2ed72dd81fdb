use crate::cutting::{stops_at_a_read, stops_at_a_write};
use dirac_commands::Ended;
use dirac_common::Cause;
use std::alloc::Global;
use std::process::Abort;
use std::test::Fail;
use std::thread::Threads;
use tests_support::{STREAM, faulty, header, joined, pieces, tried, words_of, writes};

// STREAM joined with itself: the second half has numbers 2 and 3, and one end unit ends it all.
fn joined_twice(alloc: Global) -> Result<Vec<u8>, Fail> {
    let pictures = pictures_twice(alloc)?;
    joined(alloc, &[pictures.as_slice(), &STREAM[82..]])
}

// The same without its end unit.
fn pictures_twice(alloc: Global) -> Result<Vec<u8>, Fail> {
    joined(
        alloc,
        &[
            &STREAM[..82],
            &header(0x0C, 31, 32),
            &[0x00, 0x00, 0x00, 0x02],
            &STREAM[36..63],
            &[0x00, 0x00, 0x00, 0x03],
            &STREAM[67..82],
        ],
    )
}

// A stream of one intra picture of this number.
fn one_picture(alloc: Global, number: [u8; 4]) -> Result<Vec<u8>, Fail> {
    let end = header(0x10, 0, 31);
    joined(alloc, &[&STREAM[..32], &number, &STREAM[36..50], &end])
}

// Joins the sequences of these pieces behind one another, and compares with those pieces behind one another.
fn joins<R: Threads + Sync>(
    rt: &R,
    alloc: Global,
    pieces: &[&[u8]],
    written: &[&[u8]],
) -> Result<(), Fail> {
    let bytes = joined(alloc, pieces)?;
    let written = joined(alloc, written)?;
    writes(rt, alloc, &["join"], &bytes, Ended::Done, &written)
}

// STREAM joined with itself, and once more.
fn joins_itself<R: Abort + Threads + Sync>(rt: &R, alloc: Global) -> Result<(), Fail> {
    let twice = joined(alloc, &[&STREAM, &STREAM])?;
    let once = joined_twice(alloc)?;
    assert_eq!(rt; (twice.len(), once.len()), (190, 158));
    joins(rt, alloc, &[&twice], &[&once])?;
    // the former half's last key is 1, so the least one behind it is 2
    let pictures = pictures_twice(alloc)?;
    joins(
        rt,
        alloc,
        &[&once, &STREAM],
        &[
            &pictures,
            &header(0x0C, 31, 32),
            &[0x00, 0x00, 0x00, 0x04],
            &STREAM[36..63],
            &[0x00, 0x00, 0x00, 0x05],
            &STREAM[67..],
        ],
    )
}

// The first number stays, and the next one follows it, modulo 2 ^ 32.
fn joins_around<R: Threads + Sync>(rt: &R, alloc: Global) -> Result<(), Fail> {
    let last = one_picture(alloc, [0xFF, 0xFF, 0xFF, 0xFF])?;
    let other = one_picture(alloc, [0x12, 0x34, 0x56, 0x78])?;
    joins(
        rt,
        alloc,
        &[&last, &other],
        &[
            &STREAM[..32],
            &[0xFF, 0xFF, 0xFF, 0xFF],
            &STREAM[36..50],
            &header(0x0C, 31, 31),
            &[0x00, 0x00, 0x00, 0x00],
            &STREAM[36..50],
            &header(0x10, 0, 31),
        ],
    )
}

#[test]
fn joins_sequences(rt: HostRuntime) -> Result<(), Fail> {
    let alloc = rt.alloc();
    joins(&rt, alloc, &[&STREAM], &[&STREAM])?;
    joins_itself(&rt, alloc)?;
    joins_around(&rt, alloc)
}

#[test]
fn joins_what_has_no_pictures(rt: HostRuntime) -> Result<(), Fail> {
    let alloc = rt.alloc();
    let end = header(0x10, 0, 0);
    // a sequence header and an end unit, and the same behind another sequence
    let bare = joined(alloc, &[&STREAM[..19], &header(0x10, 0, 19)])?;
    let behind = joined(
        alloc,
        &[&header(0x00, 19, 13), &STREAM[13..19], &header(0x10, 0, 19)],
    )?;
    joins(&rt, alloc, &[&end], &[&end])?;
    joins(&rt, alloc, &[&end, &header(0x10, 0, 13)], &[&end])?;
    joins(&rt, alloc, &[&bare], &[&bare])?;
    joins(&rt, alloc, &[&bare, &behind], &[&bare])?;
    let padding = header(0x30, 16, 0);
    let padded: [&[u8]; 3] = [&padding, &[1, 2, 3], &header(0x10, 0, 16)];
    joins(&rt, alloc, &padded, &[&end])?;
    let first: [&[u8]; 3] = [&bare, &header(0x00, 19, 13), &STREAM[13..]];
    joins(&rt, alloc, &first, &[&STREAM])?;
    joins(&rt, alloc, &[&STREAM, &behind], &[&STREAM])
}

// The header and two pictures, the first of number 0, the second of one that ends with this byte.
fn two_pictures(alloc: Global, last: u8) -> Result<Vec<u8>, Fail> {
    joined(
        alloc,
        &[
            &STREAM[..50],
            &header(0x0C, 31, 31),
            &[0x7F, 0xFF, 0xFF, last],
            &STREAM[36..50],
        ],
    )
}

#[test]
fn keeps_other_sequences_apart(rt: HostRuntime) -> Result<(), Fail> {
    let alloc = rt.alloc();
    let end = header(0x10, 0, 31);
    let opening = header(0x00, 19, 13);
    // keys up to 2 ^ 31 - 2 leave room for one key more; keys up to 2 ^ 31 - 1 don't
    let pictures = two_pictures(alloc, 0xFE)?;
    joins(
        &rt,
        alloc,
        &[&pictures, &end, &opening, &STREAM[13..50], &end],
        &[
            &pictures,
            &header(0x0C, 31, 31),
            &[0x7F, 0xFF, 0xFF, 0xFF],
            &STREAM[36..50],
            &end,
        ],
    )?;
    let pictures = two_pictures(alloc, 0xFF)?;
    let apart: [&[u8]; 5] = [&pictures, &end, &opening, &STREAM[13..50], &end];
    joins(&rt, alloc, &apart, &apart)
}

#[test]
fn decodes_what_was_joined(rt: HostRuntime) -> Result<(), Fail> {
    let alloc = rt.alloc();
    let bytes = joined_twice(alloc)?;
    let words = words_of(alloc, &["decode"])?;
    let left = tried(&rt, alloc, &words, &bytes, &pieces(7))?;
    assert_eq!(rt; left.ended, Ended::Done);
    assert_eq!(rt; left.out.taken(), [0x80; 384].as_slice());
    let tally = "pictures=4 references=4\n";
    assert_eq!(rt; left.side.taken(), tally.as_bytes());
    Ok(())
}

#[test]
fn refuses_before_anything_is_written(rt: HostRuntime) -> Result<(), Fail> {
    let alloc = rt.alloc();
    let open = faulty(2, 50, Cause::MissingEnd);
    writes(&rt, alloc, &["join"], &STREAM[..50], open, &[])?;
    let words: [&[&str]; 3] = [&["join", "x"], &["join", ""], &["join", "--from=0"]];
    for words in words {
        writes(&rt, alloc, words, &STREAM, Ended::Usage(1), &[])?;
    }
    Ok(())
}

#[test]
fn stops_a_joining_at_a_call_that_fails(rt: HostRuntime) -> Result<(), Fail> {
    let alloc = rt.alloc();
    let words = words_of(alloc, &["join"])?;
    // the first read that fails, before anything is written
    for call in [0, 1, 2, 3] {
        stops_at_a_read(&rt, alloc, &words, call)?;
    }
    // the first write that fails, behind each header, each number and each rest of a payload
    for (call, written) in [
        (0, 0),
        (1, 13),
        (2, 19),
        (3, 32),
        (4, 36),
        (5, 50),
        (6, 63),
        (7, 67),
        (8, 82),
    ] {
        stops_at_a_write(&rt, alloc, &words, call, written)?;
    }
    Ok(())
}
