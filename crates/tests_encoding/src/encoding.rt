use dirac_commands::{Ended, Words};
use dirac_types::{BadSetting, Name};
use std::alloc::Global;
use std::process::Abort;
use std::test::Fail;
use std::thread::Threads;
use tests_support::{
    DECODE, GREY, Left, PLAIN, SIZES, SMALL, STREAM, decoded, header, joined, leaves, noise,
    pieces, tried,
};

// The words `encode`, these, and these.
pub(crate) fn encode_words(alloc: Global, first: &[&str], more: &[&str]) -> Result<Words, Fail> {
    let mut words = Words::new(alloc);
    words.push("encode")?;
    for word in first {
        words.push(word)?;
    }
    for word in more {
        words.push(word)?;
    }
    Ok(words)
}

// Encodes the front of so many bytes of the grey pictures, and compares the answer, the stream, and the front that is
// shown.
fn encodes_grey<R: Abort + Threads + Sync>(
    rt: &R,
    alloc: Global,
    more: &str,
    raw: usize,
    answer: Ended,
    stream: &[u8],
    shown: usize,
) -> Result<(), Fail> {
    let words = encode_words(alloc, &SIZES, &[more])?;
    let raw = &GREY[..raw.min(GREY.len())];
    let shown = &GREY[..shown.min(GREY.len())];
    leaves(rt, alloc, &words, raw, answer, stream, shown)
}

// The second picture refers to the first one, and its unit has 32 bytes.
#[test]
fn encodes_grey_pictures(rt: HostRuntime) -> Result<(), Fail> {
    let alloc = rt.alloc();
    for (more, raw, answer, stream, shown) in [
        (PLAIN, 192, Ended::Done, 95, 192),
        ("--workers=2", 192, Ended::Done, 95, 192),
        ("--workers=5", 192, Ended::Done, 95, 192),
        (PLAIN, 196, Ended::PartialPicture(4), 95, 192),
        ("--pictures=2", 192, Ended::Done, 95, 192),
        ("--unit_bytes=31", 192, Ended::UnitTooLong(1), 50, 0),
        ("--unit_bytes=30", 192, Ended::UnitTooLong(0), 19, 0),
    ] {
        encodes_grey(&rt, alloc, more, raw, answer, &STREAM[..stream], shown)?;
    }
    Ok(())
}

// Where there is no whole picture, an end unit follows the sequence header.
#[test]
fn encodes_no_whole_picture(rt: HostRuntime) -> Result<(), Fail> {
    let alloc = rt.alloc();
    let none = joined(alloc, &[&STREAM[..19], &header(0x10, 0, 19)])?;
    for (more, raw, answer) in [
        (PLAIN, 0, Ended::Done),
        (PLAIN, 1, Ended::PartialPicture(1)),
        (PLAIN, 95, Ended::PartialPicture(95)),
        ("--unit_bytes=30", 95, Ended::PartialPicture(95)),
    ] {
        encodes_grey(&rt, alloc, more, raw, answer, &none, 0)?;
    }
    let words = encode_words(alloc, &["--width=8", "--height=8"], &[])?;
    leaves(&rt, alloc, &words, &[], Ended::Done, &none, &[])
}

#[test]
fn encodes_one_grey_picture(rt: HostRuntime) -> Result<(), Fail> {
    let alloc = rt.alloc();
    let one = joined(alloc, &[&STREAM[..50], &header(0x10, 0, 31)])?;
    for (more, raw, answer) in [
        (PLAIN, 96, Ended::Done),
        (PLAIN, 100, Ended::PartialPicture(4)),
        ("--pictures=1", 100, Ended::PartialPicture(4)),
        ("--pictures=1", 192, Ended::TooManyPictures),
        ("--unit_bytes=31", 96, Ended::Done),
    ] {
        encodes_grey(&rt, alloc, more, raw, answer, &one, 96)?;
    }
    Ok(())
}

#[test]
fn encodes_two_intra_pictures(rt: HostRuntime) -> Result<(), Fail> {
    let alloc = rt.alloc();
    let two = joined(
        alloc,
        &[
            &STREAM[..50],
            &header(0x00, 19, 31),
            &STREAM[13..32],
            &[0, 0, 0, 1],
            &STREAM[36..50],
            &header(0x10, 0, 31),
        ],
    )?;
    encodes_grey(&rt, alloc, "--gop=1", 192, Ended::Done, &two, 192)
}

#[test]
fn encodes_a_small_picture(rt: HostRuntime) -> Result<(), Fail> {
    let alloc = rt.alloc();
    let raw = [
        0x81u8, 0x81, 0x81, 0x81, 0x80, 0x80, 0x80, 0x80, 0x80, 0x80, 0x80, 0x80,
    ];
    let first = ["--width=2", "--height=2", "--chroma=0"];
    let more = ["--wavelet=3", "--depth=1", "--index=0"];
    let words = encode_words(alloc, &first, &more)?;
    leaves(&rt, alloc, &words, &raw, Ended::Done, &SMALL, &raw)
}

#[test]
fn refuses_settings(rt: HostRuntime) -> Result<(), Fail> {
    let alloc = rt.alloc();
    for (more, name, value) in [
        (["--gop=0", "--height=8"], Name::Gop, 0),
        (["--gop=65536", "--height=8"], Name::Gop, 65536),
        (["--width=7", "--height=8"], Name::Width, 7),
        (["--height=7", "--width=8"], Name::Height, 7),
        (["--depth=5", "--index=100"], Name::Depth, 5),
        (["--width=0", "--base=17"], Name::Base, 17),
        (["--base=99", "--workers=65"], Name::Base, 99),
        (["--workers=65", "--recon=made"], Name::Workers, 65),
        (["--workers=0", "--gop=2"], Name::Workers, 0),
        (["--unit_bytes=13", "--pictures=1"], Name::UnitBytes, 13),
    ] {
        let words = encode_words(alloc, &[], &more)?;
        let bad = Ended::BadSettings(BadSetting { name, value });
        leaves(&rt, alloc, &words, &GREY, bad, &[], &[])?;
    }
    Ok(())
}

#[test]
fn refuses_words_of_encode(rt: HostRuntime) -> Result<(), Fail> {
    let alloc = rt.alloc();
    for (first, second, number) in [
        ("--width=8", "--width=8", 2),
        ("--recon=a", "--recon=a", 2),
        ("--width", "8", 1),
        ("--count=3", "--width=8", 1),
        ("--recon=", "--width=8", 1),
        ("--width=", "--width=8", 1),
        ("--width=+8", "--width=8", 1),
        ("--width=00000000008", "--width=8", 1),
        ("--width=4294967296", "--width=8", 1),
        ("--width=8x", "--width=8", 1),
        ("-width=8", "--width=8", 1),
        ("--Width=8", "--width=8", 1),
        ("--width=8", "--", 2),
        ("--width=8", "", 2),
        ("--width=8", "encode", 2),
    ] {
        let words = encode_words(alloc, &[first, second], &["--width=x"])?;
        leaves(&rt, alloc, &words, &GREY, Ended::Usage(number), &[], &[])?;
    }
    Ok(())
}

// Small pictures: how many samples they have across and down, their chroma format, the quantiser index, the codeblocks
// of each direction, and how many bytes two of them have.
#[derive(Clone, Copy)]
struct Shape {
    width: u32,
    height: u32,
    chroma: u32,
    index: u32,
    codeblocks: u32,
    bytes: usize,
}

fn shape_of(size: (u32, u32), chroma: u32, index: u32, codeblocks: u32, bytes: usize) -> Shape {
    let (width, height) = size;
    Shape {
        width,
        height,
        chroma,
        index,
        codeblocks,
        bytes,
    }
}

// The words of `encode` for pictures of a shape.
fn shape_words(alloc: Global, shape: &Shape, wavelet: u32, depth: u32) -> Result<Words, Fail> {
    let mut words = encode_words(alloc, &[], &[])?;
    for (name, value) in [
        ("width", shape.width),
        ("height", shape.height),
        ("chroma", shape.chroma),
        ("index", shape.index),
        ("codeblocks", shape.codeblocks),
        ("wavelet", wavelet),
        ("depth", depth),
    ] {
        let word = format!(in alloc; "--{name}={value}")?;
        words.push(&word)?;
    }
    Ok(words)
}

// Decodes by this command what was encoded, and compares what is shown with the reconstructions, and the tally.
fn shows_coded<R: Abort + Threads + Sync>(
    rt: &R,
    alloc: Global,
    command: &[&str],
    coded: &Left,
    tally: &str,
) -> Result<(), Fail> {
    let shown = decoded(rt, alloc, command, coded.out.taken(), &pieces(4096))?;
    assert_eq!(rt;
        (shown.ended, shown.out.taken(), shown.side.taken()),
        (Ended::Done, coded.side.taken(), tally.as_bytes())
    );
    Ok(())
}

// Encodes raw pictures, decodes the stream, and compares what both gave; where nothing is lost, with the input. What
// encoding left is the answer.
fn coded_back<R: Abort + Threads + Sync>(
    rt: &R,
    alloc: Global,
    words: &Words,
    raw: &[u8],
    is_lossless: bool,
    tally: &str,
) -> Result<Left, Fail> {
    let coded = tried(rt, alloc, words, raw, &pieces(4096))?;
    assert_eq!(rt;
        (coded.ended, coded.side.taken().len()),
        (Ended::Done, raw.len())
    );
    assert!(rt; !is_lossless || coded.side.taken() == raw);
    shows_coded(rt, alloc, &DECODE, &coded, tally)?;
    Ok(coded)
}

// The same, without an answer.
pub(crate) fn codes_back<R: Abort + Threads + Sync>(
    rt: &R,
    alloc: Global,
    words: &Words,
    raw: &[u8],
    is_lossless: bool,
    tally: &str,
) -> Result<(), Fail> {
    coded_back(rt, alloc, words, raw, is_lossless, tally)?;
    Ok(())
}

// Two pictures of a shape, of which the second one refers to the first.
fn round_trip<R: Abort + Threads + Sync>(
    rt: &R,
    alloc: Global,
    shape: &Shape,
    wavelet: u32,
    depth: u32,
) -> Result<(), Fail> {
    let words = shape_words(alloc, shape, wavelet, depth)?;
    let raw = noise(alloc, shape.bytes)?;
    let tally = "pictures=2 references=2\n";
    codes_back(rt, alloc, &words, raw.as_slice(), shape.index == 0, tally)
}

// Eight pictures of a shape: the anchors 0, 3, 6 and 7, of which the last one retires 3, and pairs between them.
fn group_trip<R: Abort + Threads + Sync>(
    rt: &R,
    alloc: Global,
    shape: &Shape,
    more: &str,
) -> Result<(), Fail> {
    let mut words = shape_words(alloc, shape, 1, 2)?;
    words.push(more)?;
    let raw = noise(alloc, shape.bytes.saturating_mul(4))?;
    let tally = "pictures=8 references=3\n";
    codes_back(rt, alloc, &words, raw.as_slice(), shape.index == 0, tally)
}

// Every wavelet and depth.
fn round_trips<R: Abort + Threads + Sync>(
    rt: &R,
    alloc: Global,
    shape: &Shape,
) -> Result<(), Fail> {
    for wavelet in 0..7 {
        for depth in 1..5 {
            round_trip(rt, alloc, shape, wavelet, depth)?;
        }
    }
    Ok(())
}

#[test]
fn decodes_the_groups_that_it_encodes(rt: HostRuntime) -> Result<(), Fail> {
    let alloc = rt.alloc();
    for more in [
        "--references=2",
        "--references=1",
        "--precision=0",
        "--precision=3",
        "--blocks=4",
        "--bias=0",
        "--pyramid=0",
        "--workers=3",
    ] {
        group_trip(&rt, alloc, &shape_of((20, 12), 2, 0, 2, 720), more)?;
        group_trip(&rt, alloc, &shape_of((19, 9), 0, 30, 1, 1026), more)?;
    }
    Ok(())
}

// Fourteen pictures, by settings of the plan.
fn planned_trip<R: Abort + Threads + Sync>(
    rt: &R,
    alloc: Global,
    plan: &[&str],
    tally: &str,
) -> Result<(), Fail> {
    let mut words = encode_words(alloc, &SIZES, plan)?;
    words.push("--index=0")?;
    let raw = noise(alloc, 1344)?;
    codes_back(rt, alloc, &words, raw.as_slice(), true, tally)
}

// As many references are listed as the plan keeps.
#[test]
fn decodes_what_it_plans(rt: HostRuntime) -> Result<(), Fail> {
    let alloc = rt.alloc();
    let three = "pictures=14 references=3\n";
    let eight = "pictures=14 references=8\n";
    for (gop, between, references, tally) in [
        ("--gop=14", "--between=3", "--references=2", three),
        ("--gop=14", "--between=0", "--references=1", three),
        ("--gop=5", "--between=2", "--references=1", eight),
        ("--gop=5", "--between=1", "--references=2", eight),
        ("--gop=1", "--between=3", "--references=2", eight),
    ] {
        planned_trip(&rt, alloc, &[gop, between, references], tally)?;
    }
    Ok(())
}

#[test]
fn decodes_what_it_encodes(rt: HostRuntime) -> Result<(), Fail> {
    let alloc = rt.alloc();
    for (size, chroma, index, codeblocks, bytes) in [
        ((1, 1), 0, 0, 1, 6),
        ((5, 3), 0, 0, 3, 90),
        ((12, 10), 0, 12, 3, 720),
        ((2, 1), 1, 0, 1, 8),
        ((6, 7), 1, 0, 3, 168),
        ((12, 10), 1, 12, 3, 480),
        ((2, 2), 2, 0, 1, 12),
        ((4, 6), 2, 0, 3, 72),
        ((12, 10), 2, 12, 3, 360),
    ] {
        round_trips(
            &rt,
            alloc,
            &shape_of(size, chroma, index, codeblocks, bytes),
        )?;
    }
    Ok(())
}

// Encodes eight pictures of a shape, and decodes them by `pardecode` with this word.
fn pardecodes<R: Abort + Threads + Sync>(
    rt: &R,
    alloc: Global,
    shape: &Shape,
    more: &str,
    workers: &str,
) -> Result<(), Fail> {
    let tally = "pictures=8 references=3\n";
    let mut words = shape_words(alloc, shape, 1, 2)?;
    words.push(more)?;
    let raw = noise(alloc, shape.bytes.saturating_mul(4))?;
    let coded = coded_back(rt, alloc, &words, raw.as_slice(), false, tally)?;
    shows_coded(rt, alloc, &["pardecode", workers], &coded, tally)
}

// Pictures of 40 rows, which have a short last slice, from one reference and from two, by one worker and by more.
#[test]
fn pardecodes_what_it_encodes(rt: HostRuntime) -> Result<(), Fail> {
    let alloc = rt.alloc();
    for (chroma, bytes, more, workers) in [
        (2, 2400, "--references=2", "--workers=1"),
        (1, 3200, "--references=1", "--workers=3"),
        (0, 4800, "--references=2", "--workers=64"),
    ] {
        pardecodes(
            &rt,
            alloc,
            &shape_of((20, 40), chroma, 12, 2, bytes),
            more,
            workers,
        )?;
    }
    Ok(())
}

// Appends a plane of 576 rows: a slope with noise in its lowest bits.
fn push_slope(bytes: &mut Vec<u8>, state: &mut u32, start: u32, columns: u32) -> Result<(), Fail> {
    for place in 0..columns.saturating_mul(576) {
        *state = state.wrapping_mul(1664525).wrapping_add(1013904223);
        let slope = (place % columns.max(1))
            .wrapping_mul(2)
            .wrapping_add(place / 240);
        let value = start.wrapping_add(slope).wrapping_add(*state >> 27) / 4;
        let [_, _, _, byte] = value.to_be_bytes();
        bytes.push(byte)?;
    }
    Ok(())
}

// Twelve pictures of 720 by 576 samples, 4:2:2: from one to the next the slope moves.
fn slopes(alloc: Global) -> Result<Vec<u8>, Fail> {
    let mut bytes = Vec::new(alloc);
    let mut state = 1;
    for number in 0..12u32 {
        let start = number.wrapping_mul(5);
        push_slope(&mut bytes, &mut state, start, 720)?;
        push_slope(&mut bytes, &mut state, start.wrapping_add(40), 360)?;
        push_slope(&mut bytes, &mut state, start.wrapping_add(80), 360)?;
    }
    Ok(bytes)
}

// The other settings are their defaults, among them groups of twelve pictures with two between anchors.
#[test]
fn encodes_pictures_of_720_by_576(rt: HostRuntime) -> Result<(), Fail> {
    let alloc = rt.alloc();
    let raw = slopes(alloc)?;
    assert_eq!(rt; raw.len(), 9953280);
    for (index, is_lossless) in [(PLAIN, false), ("--index=0", true)] {
        let words = encode_words(alloc, &["--base=8"], &[index])?;
        let tally = "pictures=12 references=3\n";
        let coded = coded_back(&rt, alloc, &words, raw.as_slice(), is_lossless, tally)?;
        let header = [0x6F, 0x06, 0x05, 0xA0];
        assert!(rt; coded.out.taken().get(13..17) == Some(header.as_slice()));
    }
    Ok(())
}
