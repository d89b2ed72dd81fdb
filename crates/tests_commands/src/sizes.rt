use crate::raw::moving;
use dirac_commands::Ended;
use std::alloc::Global;
use std::process::Abort;
use std::test::Fail;
use std::thread::Threads;
use tests_support::{Left, pieces, tried, words_of};

// One picture of 4,096 by 2,304 samples, 4:4:4, without coefficients, by the Haar wavelet at depth 4: all is grey.
const LARGEST: [u8; 92] = [
    0x42, 0x42, 0x43, 0x44, 0x00, 0x00, 0x00, 0x00, 0x16, 0x00, 0x00, 0x00, 0x00, 0x6F, 0xC0, 0x00,
    0x00, 0x60, 0x80, 0x00, 0xF0, 0x20, 0x42, 0x42, 0x43, 0x44, 0x08, 0x00, 0x00, 0x00, 0x39, 0x00,
    0x00, 0x00, 0x16, 0x00, 0x00, 0x00, 0x00, 0x8C, 0x80, 0x80, 0x80, 0x80, 0x80, 0x80, 0x80, 0x80,
    0x80, 0x80, 0x80, 0x80, 0x80, 0x80, 0x80, 0x80, 0x80, 0x80, 0x80, 0x80, 0x80, 0x80, 0x80, 0x80,
    0x80, 0x80, 0x80, 0x80, 0x80, 0x80, 0x80, 0x80, 0x80, 0x80, 0x80, 0x80, 0x80, 0x80, 0x80, 0x42,
    0x42, 0x43, 0x44, 0x10, 0x00, 0x00, 0x00, 0x00, 0x00, 0x00, 0x00, 0x39,
];

// The bytes of this picture.
const LARGEST_LENGTH: usize = 28_311_552;

// Runs words over bytes, which ends well.
fn done<R: Abort + Threads + Sync>(
    rt: &R,
    alloc: Global,
    words: &[&str],
    bytes: &[u8],
) -> Result<Left, Fail> {
    let words = words_of(alloc, words)?;
    let left = tried(rt, alloc, &words, bytes, &pieces(65_536))?;
    assert_eq!(rt; left.ended, Ended::Done);
    Ok(left)
}

// Generated pictures of 720 by 576 samples, 4:2:2, come back exactly at index 0, whatever the number of workers.
#[test]
fn finds_memory_to_make_pictures(rt: HostRuntime) -> Result<(), Fail> {
    let alloc = rt.alloc();
    let made = done(
        &rt,
        alloc,
        &["make", "--base=8", "--count=12", "--index=0", "--workers=1"],
        &[],
    )?;
    let line = made.out.taken();
    assert!(rt; line.starts_with(b"pictures=12 stream="));
    assert!(rt; line.ends_with(b" raw=9953280 exact=12\n"));
    let by_four = done(
        &rt,
        alloc,
        &["make", "--base=8", "--count=12", "--index=0", "--workers=4"],
        &[],
    )?;
    assert_eq!(rt; by_four.out.taken(), line);
    Ok(())
}

// Three pictures of this size become one stream and one set of reconstructions, whatever the number of workers, and
// workers decode it to these.
#[test]
fn finds_memory_for_workers(rt: HostRuntime) -> Result<(), Fail> {
    let alloc = rt.alloc();
    let raw = moving(alloc, 720, 1152, 3)?;
    let alone = done(&rt, alloc, &["encode", "--base=8", "--workers=1"], &raw)?;
    assert_eq!(rt; alone.side.taken().len(), raw.len());
    for workers in ["--workers=2", "--workers=5"] {
        let made = done(&rt, alloc, &["encode", "--base=8", workers], &raw)?;
        assert!(rt; made.out.taken() == alone.out.taken());
        assert!(rt; made.side.taken() == alone.side.taken());
    }
    let shown = done(&rt, alloc, &["pardecode", "--workers=4"], alone.out.taken())?;
    assert!(rt; shown.out.taken() == alone.side.taken());
    Ok(())
}

// The largest picture, on one thread and by workers.
#[test]
fn finds_memory_for_the_largest_picture(rt: HostRuntime) -> Result<(), Fail> {
    let alloc = rt.alloc();
    let grey = vec![in alloc; 0x80u8; LARGEST_LENGTH]?;
    for words in [
        ["decode"].as_slice(),
        ["pardecode", "--workers=4"].as_slice(),
    ] {
        let left = done(&rt, alloc, words, &LARGEST)?;
        assert!(rt; left.out.taken() == grey.as_slice());
        assert_eq!(rt; left.side.taken(), "pictures=1 references=0\n".as_bytes());
    }
    Ok(())
}

// Two pictures of 352 by 288 samples, 4:2:0, within a budget.
#[test]
fn finds_memory_to_keep_a_budget(rt: HostRuntime) -> Result<(), Fail> {
    let alloc = rt.alloc();
    let raw = moving(alloc, 352, 432, 2)?;
    let made = done(&rt, alloc, &["rate", "--base=4", "--budget=12000"], &raw)?;
    assert_eq!(rt; made.side.taken().len(), raw.len());
    let shown = done(&rt, alloc, &["decode"], made.out.taken())?;
    assert!(rt; shown.out.taken() == made.side.taken());
    Ok(())
}
