use crate::shape_streams::{
    SHAPES_OF_INTRA_420, SHAPES_OF_INTRA_422, SHAPES_OF_INTRA_444, SHAPES_OF_LISTS,
    SHAPES_OF_ONE_420, SHAPES_OF_ONE_422, SHAPES_OF_ONE_444, SHAPES_OF_TWO_420, SHAPES_OF_TWO_422,
    SHAPES_OF_TWO_444,
};
use dirac_commands::Ended;
use std::alloc::Global;
use std::process::Abort;
use std::test::Fail;
use std::thread::Threads;
use tests_support::{Left, STREAM, header, joined, noise, pieces, tried, words_of};

// A sum of bytes in which the place of each one counts.
fn sum_of(bytes: &[u8]) -> u32 {
    let mut sum = 0u32;
    for byte in bytes {
        sum = sum.wrapping_mul(31).wrapping_add(u32::from(*byte));
    }
    sum
}

// Runs words over bytes, which ends well.
fn done<R: Abort + Threads + Sync>(
    rt: &R,
    alloc: Global,
    words: &[&str],
    bytes: &[u8],
) -> Result<Left, Fail> {
    let words = words_of(alloc, words)?;
    let left = tried(rt, alloc, &words, bytes, &pieces(4096))?;
    assert_eq!(rt; left.ended, Ended::Done);
    Ok(left)
}

// A picture of 8 by 8 samples, 4:2:0, whose luma is narrow up to one level and wide from the next on: luma 0 and 255
// in turn, chroma 128.
const TURNS_WIDE: [u8; 96] = [
    0x42, 0x42, 0x43, 0x44, 0x00, 0x00, 0x00, 0x00, 0x13, 0x00, 0x00, 0x00, 0x00, 0x6F, 0xC1, 0x83,
    0x08, 0x30, 0x79, 0x42, 0x42, 0x43, 0x44, 0x0C, 0x00, 0x00, 0x00, 0x40, 0x00, 0x00, 0x00, 0x13,
    0x00, 0x00, 0x00, 0x00, 0x80, 0x1B, 0x00, 0x30, 0x7E, 0x80, 0x80, 0x80, 0x11, 0xAA, 0xC0, 0x05,
    0xCE, 0xF2, 0xA8, 0x1A, 0x95, 0x23, 0x9B, 0x93, 0x20, 0x7C, 0x44, 0xB3, 0xE6, 0xBF, 0xD0, 0xE1,
    0x2B, 0x13, 0x5E, 0x80, 0x80, 0x80, 0x80, 0x80, 0x80, 0x80, 0x80, 0x80, 0x80, 0x80, 0x80, 0x80,
    0x80, 0x80, 0x80, 0x42, 0x42, 0x43, 0x44, 0x10, 0x00, 0x00, 0x00, 0x00, 0x00, 0x00, 0x00, 0x40,
];

// The stream with padding and auxiliary data of 100,000 bytes each, and with as many bytes behind the last field of its
// first picture.
fn long_units(alloc: Global) -> Result<Vec<u8>, Fail> {
    let long = vec![in alloc; 0xFFu8; 100_000]?;
    let mut bytes = Vec::from_slice(alloc, &header(0x30, 100_013, 0))?;
    bytes.extend_from_slice(&long)?;
    bytes.extend_from_slice(&STREAM[..19])?;
    bytes.extend_from_slice(&header(0x20, 100_013, 19))?;
    bytes.extend_from_slice(&long)?;
    bytes.extend_from_slice(&header(0x0C, 100_031, 100_013))?;
    bytes.extend_from_slice(&STREAM[32..50])?;
    bytes.extend_from_slice(&long)?;
    bytes.extend_from_slice(&STREAM[50..])?;
    Ok(bytes)
}

// That memory is found for what a stream holds is said by no clause: so one of each kind. The sums are those of the
// plain decoder in bench/reference.
#[test]
fn finds_memory_for_pictures_of_every_shape(rt: HostRuntime) -> Result<(), Fail> {
    let alloc = rt.alloc();
    let five = "pictures=5 references=3\n";
    let six = "pictures=6 references=4\n";
    let seven = "pictures=7 references=5\n";
    let long = long_units(alloc)?;
    for (stream, sum, line) in [
        (SHAPES_OF_INTRA_420.as_slice(), 0x7279F080, five),
        (SHAPES_OF_INTRA_422.as_slice(), 0xCB8EFEEE, five),
        (SHAPES_OF_INTRA_444.as_slice(), 0x7D1C521F, five),
        (SHAPES_OF_ONE_420.as_slice(), 0x25C5B03D, six),
        (SHAPES_OF_ONE_422.as_slice(), 0xF8F91149, six),
        (SHAPES_OF_ONE_444.as_slice(), 0x38B6EFB2, six),
        (SHAPES_OF_TWO_420.as_slice(), 0x40E3CE19, seven),
        (SHAPES_OF_TWO_422.as_slice(), 0x471FD89F, seven),
        (SHAPES_OF_TWO_444.as_slice(), 0xAB98B440, seven),
        (
            SHAPES_OF_LISTS.as_slice(),
            0x1AF9FB6D,
            "pictures=12 references=8\n",
        ),
        (long.as_slice(), 0x4CC60000, "pictures=2 references=2\n"),
        (
            TURNS_WIDE.as_slice(),
            0x43605BE0,
            "pictures=1 references=1\n",
        ),
    ] {
        let left = done(&rt, alloc, &["decode"], stream)?;
        assert_eq!(rt; sum_of(left.out.taken()), sum);
        assert_eq!(rt; left.side.taken(), line.as_bytes());
    }
    Ok(())
}

// A thousand units of padding and an end unit, and their lines.
fn thousand_units(alloc: Global) -> Result<(Vec<u8>, String), Fail> {
    let mut bytes = Vec::new(alloc);
    let mut lines = String::new(alloc);
    for index in 0..1000u32 {
        bytes.extend_from_slice(&header(0x30, 13, index))?;
        let line = format!(in alloc;
            "{index} {} 30 padding 13 {index}\n",
            index.wrapping_mul(13)
        )?;
        lines.push_str(line.as_str())?;
    }
    bytes.extend_from_slice(&header(0x10, 0, 13))?;
    lines.push_str("1000 13000 10 end 0 13\n")?;
    Ok((bytes, lines))
}

// Decodes what encoding left, three times behind itself, cut as a whole and joined: it shows what was said beside it.
fn shows_the_same<R: Abort + Threads + Sync>(
    rt: &R,
    alloc: Global,
    coded: &Left,
) -> Result<(), Fail> {
    let stream = coded.out.taken();
    let shown = coded.side.taken();
    let streams = joined(alloc, &[stream, stream, stream])?;
    let pictures = joined(alloc, &[shown, shown, shown])?;
    for word in ["cut", "join"] {
        let edited = done(rt, alloc, &[word], streams.as_slice())?;
        let decoded = done(rt, alloc, &["decode"], edited.out.taken())?;
        assert_eq!(rt; decoded.out.taken(), pictures.as_slice());
    }
    Ok(())
}

// Lists a thousand units.
fn lists_thousand_units<R: Abort + Threads + Sync>(rt: &R, alloc: Global) -> Result<(), Fail> {
    let (bytes, lines) = thousand_units(alloc)?;
    let left = done(rt, alloc, &["list"], bytes.as_slice())?;
    assert_eq!(rt; left.out.taken(), lines.as_str().as_bytes());
    Ok(())
}

// Encodes raw pictures without order, of that many bytes together, and compares sums of the stream and of what is
// shown.
fn encodes<R: Abort + Threads + Sync>(
    rt: &R,
    alloc: Global,
    words: &[&str],
    length: usize,
    sums: (u32, u32),
) -> Result<(), Fail> {
    let raw = noise(alloc, length)?;
    let left = done(rt, alloc, words, raw.as_slice())?;
    assert_eq!(rt; (sum_of(left.out.taken()), sum_of(left.side.taken())), sums);
    shows_the_same(rt, alloc, &left)
}

// Raw pictures without order, of that many bytes together, encoded with settings: a sum of the stream, and of what is
// shown, by the plain encoder in bench/reference.
#[test]
fn finds_memory_for_many_units_and_pictures(rt: HostRuntime) -> Result<(), Fail> {
    let alloc = rt.alloc();
    lists_thousand_units(&rt, alloc)?;
    for (first, second, third, fourth, length, sum, shown) in [
        (
            "--depth=1",
            "--index=0",
            "--gop=12",
            "--between=2",
            672,
            0x6142F270,
            0x102BFB24,
        ),
        (
            "--depth=2",
            "--precision=3",
            "--gop=9",
            "--between=3",
            960,
            0x88AD95F2,
            0xD2F8C9D7,
        ),
        (
            "--depth=1",
            "--precision=0",
            "--chroma=0",
            "--between=1",
            960,
            0x502A5F39,
            0x72EA99F0,
        ),
        // codeblocks of several indices, in chroma some without samples
        (
            "--depth=1",
            "--codeblocks=3",
            "--finer=9",
            "--gop=4",
            480,
            0xC910B63D,
            0x6447F607,
        ),
        // fields with three frames between anchors, the last one alone
        (
            "--depth=1",
            "--fields=1",
            "--between=3",
            "--gop=9",
            912,
            0xAC272788,
            0xB717EBD2,
        ),
    ] {
        let words = [
            "encode",
            "--width=8",
            "--height=8",
            first,
            second,
            third,
            fourth,
        ];
        encodes(&rt, alloc, &words, length, (sum, shown))?;
    }
    Ok(())
}

// A hundred grey pictures, encoded with a word for each setting.
#[test]
fn finds_memory_for_many_words(rt: HostRuntime) -> Result<(), Fail> {
    let alloc = rt.alloc();
    let words = [
        "encode",
        "--base=0",
        "--chroma=2",
        "--width=8",
        "--height=8",
        "--rate=1",
        "--signal=1",
        "--fields=0",
        "--profile=0",
        "--level=0",
        "--wavelet=0",
        "--depth=1",
        "--index=0",
        "--codeblocks=1",
        "--finer=0",
        "--blocks=2",
        "--precision=2",
        "--references=2",
        "--gop=12",
        "--between=3",
        "--range=16",
        "--pyramid=4",
        "--bias=4",
        "--workers=2",
        "--pictures=100",
        "--unit_bytes=65536",
        "--recon=a",
    ];
    let raw = vec![in alloc; 0x80u8; 9600]?;
    let left = done(&rt, alloc, &words, raw.as_slice())?;
    assert_eq!(rt; left.side.taken(), raw.as_slice());
    shows_the_same(&rt, alloc, &left)
}
