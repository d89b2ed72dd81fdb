use crate::encoding::encode_words;
use dirac_commands::Ended;
use dirac_common::Cause;
use dirac_types::{BadSetting, Name};
use std::alloc::Global;
use std::test::Fail;
use tests_support::{SMALL, faulty, joined, leaves, shows};

// The picture's unit of the small stream in codeblock mode 1, behind its parse info's code: the counts of both levels
// are 1, and the LL band's codeblock has the offset 0.
const MODED: [u8; 29] = [
    0x00, 0x00, 0x00, 0x22, 0x00, 0x00, 0x00, 0x12, 0x00, 0x00, 0x00, 0x00, 0x80, 0x09, 0x92, 0x49,
    0x30, 0x96, 0x80, 0x80, 0x80, 0x80, 0x80, 0x80, 0x80, 0x80, 0x80, 0x80, 0x80,
];

// The samples of that picture.
const SAMPLES: [u8; 12] = [
    0x81, 0x81, 0x81, 0x81, 0x80, 0x80, 0x80, 0x80, 0x80, 0x80, 0x80, 0x80,
];

// The stream of this unit, with the sequence header of the small stream and an end unit behind it.
fn stream_of(alloc: Global, unit: &[u8]) -> Result<Vec<u8>, Fail> {
    let end = [
        0x42u8, 0x42, 0x43, 0x44, 0x10, 0x00, 0x00, 0x00, 0x00, 0x00, 0x00, 0x00, 0x22,
    ];
    joined(alloc, &[&SMALL[..23], unit, &end])
}

// The stream whose byte at this place of the unit is another.
fn changed(alloc: Global, place: usize, byte: u8) -> Result<Vec<u8>, Fail> {
    let mut unit = Vec::from_slice(alloc, &MODED)?;
    if let Some(at) = unit.get_mut(place) {
        *at = byte;
    }
    stream_of(alloc, unit.as_slice())
}

#[test]
fn codes_in_codeblock_mode_1(rt: HostRuntime) -> Result<(), Fail> {
    let alloc = rt.alloc();
    let stream = stream_of(alloc, &MODED)?;
    assert_eq!(rt; stream.len(), 65);
    let one = "pictures=1 references=1\n";
    shows(&rt, alloc, &stream, Ended::Done, &SAMPLES, one)?;

    let first = ["--width=2", "--height=2", "--chroma=0", "--finer=1"];
    let more = ["--wavelet=3", "--depth=1", "--index=0"];
    let words = encode_words(alloc, &first, &more)?;
    leaves(&rt, alloc, &words, &SAMPLES, Ended::Done, &stream, &SAMPLES)
}

#[test]
fn refuses_in_codeblock_mode_1(rt: HostRuntime) -> Result<(), Fail> {
    let alloc = rt.alloc();
    let none = "pictures=0 references=0\n";
    // mode 2, and an offset of -1 from index 0
    for (place, byte, cause, at) in [
        (15, 0x4B, Cause::CodeblockMode, 38),
        (17, 0x3E, Cause::QuantIndex, 40),
    ] {
        let stream = changed(alloc, place, byte)?;
        shows(&rt, alloc, &stream, faulty(1, at, cause), &[], none)?;
    }
    let words = encode_words(alloc, &["--width=8", "--height=8", "--finer=100"], &[])?;
    let bad = Ended::BadSettings(BadSetting {
        name: Name::Finer,
        value: 100,
    });
    leaves(&rt, alloc, &words, &[], bad, &[], &[])
}
