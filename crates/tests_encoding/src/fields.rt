use crate::encoding::{codes_back, encode_words};
use dirac_commands::Ended;
use dirac_types::{BadSetting, Name};
use std::alloc::Global;
use std::test::Fail;
use tests_support::{GREY, STREAM, header, joined, leaves, noise, pieces, shows, tried, words_of};

// The settings of two fields of 8 by 8 samples, 4:2:0.
const FIELDS: [&str; 4] = ["--width=8", "--height=16", "--depth=1", "--fields=1"];

// The stream of two grey fields: behind a header of its own, the units of two grey frames of that size.
fn grey_fields(alloc: Global) -> Result<Vec<u8>, Fail> {
    let payload = [0x6Fu8, 0xC1, 0x80, 0xC2, 0x0C, 0x07, 0x84];
    let first = header(0x0C, 31, 20);
    let pieces = [
        &header(0x00, 20, 0),
        payload.as_slice(),
        &first,
        &STREAM[32..],
    ];
    joined(alloc, &pieces)
}

#[test]
fn encodes_grey_fields(rt: HostRuntime) -> Result<(), Fail> {
    let alloc = rt.alloc();
    let stream = grey_fields(alloc)?;
    let raw = &GREY[..192];
    let words = encode_words(alloc, &FIELDS, &[])?;
    leaves(&rt, alloc, &words, raw, Ended::Done, &stream, raw)?;
    let tally = "pictures=2 references=2\n";
    shows(&rt, alloc, &stream, Ended::Done, raw, tally)?;

    // by the budget that isn't given, too
    let words = words_of(alloc, &["rate", FIELDS[0], FIELDS[1], FIELDS[2], FIELDS[3]])?;
    leaves(&rt, alloc, &words, raw, Ended::Done, &stream, raw)
}

#[test]
fn refuses_settings_of_fields(rt: HostRuntime) -> Result<(), Fail> {
    let alloc = rt.alloc();
    for (height, fields, chroma, name, value) in [
        ("--height=10", "--fields=1", "--chroma=2", Name::Height, 10),
        ("--height=9", "--fields=1", "--chroma=0", Name::Height, 9),
        ("--height=10", "--fields=2", "--chroma=2", Name::Fields, 2),
    ] {
        let words = encode_words(alloc, &["--width=8", height], &[fields, chroma])?;
        let bad = Ended::BadSettings(BadSetting { name, value });
        leaves(&rt, alloc, &words, &GREY, bad, &[], &[])?;
    }
    let words = encode_words(alloc, &FIELDS, &["--fields=1"])?;
    leaves(&rt, alloc, &words, &GREY, Ended::Usage(5), &[], &[])
}

// Groups of fields whose last frame has both, and one alone.
#[test]
fn decodes_the_fields_that_it_encodes(rt: HostRuntime) -> Result<(), Fail> {
    let alloc = rt.alloc();
    for (bytes, more, tally) in [
        (960, "--references=2", "pictures=10 references=6\n"),
        (864, "--references=2", "pictures=9 references=5\n"),
        (864, "--references=1", "pictures=9 references=5\n"),
        (96, "--references=2", "pictures=1 references=1\n"),
    ] {
        let groups = ["--gop=5", "--between=1", "--index=0", more];
        let words = encode_words(alloc, &FIELDS, &groups)?;
        let raw = noise(alloc, bytes)?;
        codes_back(&rt, alloc, &words, raw.as_slice(), true, tally)?;
    }
    Ok(())
}

// The generated pictures are fields too: here of 8 by 4 samples, 48 bytes each.
#[test]
fn makes_fields(rt: HostRuntime) -> Result<(), Fail> {
    let alloc = rt.alloc();
    let sizes = ["make", "--width=8", "--height=8", "--depth=1"];
    let [make, width, height, depth] = sizes;
    for (index, text) in [
        ("--index=0", "pictures=3 stream=279 raw=144 exact=3\n"),
        ("--index=20", "pictures=3 stream=199 raw=144 exact=0\n"),
    ] {
        let list = [make, width, height, depth, "--fields=1", "--count=3", index];
        let words = words_of(alloc, &list)?;
        let left = tried(&rt, alloc, &words, &[], &pieces(4096))?;
        assert_eq!(&rt; left.ended, Ended::Done);
        assert_eq!(&rt; left.out.taken(), text.as_bytes());
    }
    Ok(())
}
