use dirac_common::Cause;
use std::alloc::Global;
use std::test::Fail;
use std::thread::Threads;
use tests_support::{SMALL, STREAM, faulty, joined, shows};

// The picture of 8 by 8 samples, 4:2:0, that the stream shows twice, as bytes.
const GREY: [u8; 96] = [0x80; 96];

// Some bytes of a stream, from the first to before the last place, and what stands in their place.
#[derive(Clone, Copy)]
struct Edit<'a> {
    stream: &'a [u8],
    first: usize,
    last: usize,
    bytes: &'a [u8],
}

// As many bytes as there were, in the stream of two pictures.
fn set<'a>(first: usize, bytes: &'a [u8]) -> Edit<'a> {
    Edit {
        stream: &STREAM,
        first,
        last: first.saturating_add(bytes.len()),
        bytes,
    }
}

fn replaced<'a>(stream: &'a [u8], first: usize, last: usize, bytes: &'a [u8]) -> Edit<'a> {
    Edit {
        stream,
        first,
        last,
        bytes,
    }
}

fn edited(alloc: Global, edit: &Edit<'_>) -> Result<Vec<u8>, Fail> {
    let front = edit.stream.get(..edit.first).ok_or("a first place")?;
    let rest = edit.stream.get(edit.last..).ok_or("a last place")?;
    joined(alloc, &[front, edit.bytes, rest])
}

// Behind the picture's header: a vector of 32,768 columns.
const FAR: [u8; 26] = [
    0x00, 0x00, 0x00, 0x23, 0x00, 0x00, 0x00, 0x1F, 0x00, 0x00, 0x00, 0x01, 0x38, 0x6D, 0x00, 0x20,
    0xFE, 0x20, 0xFE, 0x18, 0x00, 0x00, 0x08, 0x02, 0x20, 0xFE,
];

// No block is predicted, and the first DC value is 32,768.
const BRIGHT: [u8; 28] = [
    0x00, 0x00, 0x00, 0x24, 0x00, 0x00, 0x00, 0x1F, 0x00, 0x00, 0x00, 0x01, 0x38, 0x6D, 0x00, 0x20,
    0xFE, 0x20, 0x7E, 0x20, 0xFE, 0x20, 0xFE, 0x18, 0x00, 0x00, 0x19, 0x17,
];

// A block of zeros, which no number ends.
const ENDLESS: [u8; 28] = [
    0x00, 0x00, 0x00, 0x2C, 0x00, 0x00, 0x00, 0x12, 0x00, 0x00, 0x00, 0x00, 0x80, 0x09, 0x00, 0x47,
    0x00, 0x00, 0x00, 0x00, 0x00, 0x00, 0x00, 0x00, 0x00, 0x00, 0x00, 0x00,
];

// The sequence header, but for its base video format.
const OTHER: [u8; 19] = [
    0x42, 0x42, 0x43, 0x44, 0x00, 0x00, 0x00, 0x00, 0x13, 0x00, 0x00, 0x00, 0x00, 0x6F, 0xC1, 0x83,
    0x08, 0x30, 0x78,
];

// Refuses a field before a picture is shown.
fn refuses_before_a_picture<R: Threads + Sync>(rt: &R, alloc: Global) -> Result<(), Fail> {
    for (edit, fault) in [
        // units
        (set(4, &[0x20]), faulty(1, 19, Cause::NoSequence)),
        (set(8, &[0x0C]), faulty(0, 5, Cause::OffsetMissing)),
        (set(23, &[0x4C]), faulty(1, 23, Cause::Vlc)),
        (set(23, &[0xC8]), faulty(1, 23, Cause::LowDelay)),
        (set(23, &[0x77]), faulty(1, 23, Cause::UnknownCode)),
        // the sequence header
        (set(13, &[0x0F]), faulty(0, 13, Cause::Version)),
        (
            replaced(&STREAM, 19, 95, &OTHER),
            faulty(1, 19, Cause::SequenceChanged),
        ),
        // transform parameters
        (set(37, &[0x02]), faulty(1, 37, Cause::Wavelet)),
        (set(37, &[0xAC]), faulty(1, 37, Cause::Depth)),
        (set(37, &[0xC0]), faulty(1, 37, Cause::Depth)),
        (set(37, &[0x9C]), faulty(1, 37, Cause::Codeblocks)),
        // codeblock mode 1, in which the bands are read on to the payload's end
        (
            set(37, &[0x99, 0x24, 0x90]),
            faulty(1, 50, Cause::UnitShort),
        ),
        // subbands
        (
            replaced(&SMALL, 38, 40, &[0x28, 0x23]),
            faulty(1, 38, Cause::QuantIndex),
        ),
        (
            replaced(&SMALL, 23, 40, &ENDLESS),
            faulty(1, 39, Cause::NumberTooLong),
        ),
    ] {
        let bytes = edited(alloc, &edit)?;
        shows(rt, alloc, &bytes, fault, &[], "pictures=0 references=0\n")?;
    }
    Ok(())
}

// Refuses a field of the second picture: the first one is shown.
fn refuses_behind_a_picture<R: Threads + Sync>(rt: &R, alloc: Global) -> Result<(), Fail> {
    for (edit, fault) in [
        // prediction parameters: block parameters 1 and 5, vector precision 4, prediction mode 1, weights
        (set(68, &[0x2D]), faulty(2, 68, Cause::BlockPreset)),
        (set(68, &[0x4D]), faulty(2, 68, Cause::BlockPreset)),
        (set(68, &[0x63]), faulty(2, 68, Cause::Precision)),
        (set(68, &[0x6F]), faulty(2, 68, Cause::GlobalMotion)),
        (set(68, &[0x6C, 0x40]), faulty(2, 68, Cause::PredictionMode)),
        (set(69, &[0xC0]), faulty(2, 69, Cause::Weights)),
        // it names the picture that follows its own
        (set(67, &[0x78]), faulty(2, 63, Cause::MissingReference)),
        // blocks of splits and of modes that begin with ones, or pass the payload; one that is empty
        (set(71, &[0xFF]), faulty(2, 71, Cause::CodeWord)),
        (set(73, &[0xFF]), faulty(2, 73, Cause::CodeWord)),
        (set(70, &[0x56]), faulty(2, 71, Cause::UnitShort)),
        (set(73, &[0x7E]), faulty(2, 79, Cause::CodeWord)),
        // numbers out of their range
        (
            replaced(&STREAM, 55, 78, &FAR),
            faulty(2, 75, Cause::VectorRange),
        ),
        (
            replaced(&STREAM, 55, 79, &BRIGHT),
            faulty(2, 79, Cause::DcRange),
        ),
    ] {
        let bytes = edited(alloc, &edit)?;
        shows(rt, alloc, &bytes, fault, &GREY, "pictures=1 references=1\n")?;
    }
    Ok(())
}

#[test]
fn refuses_each_field_at_its_place(rt: HostRuntime) -> Result<(), Fail> {
    let alloc = rt.alloc();
    refuses_before_a_picture(&rt, alloc)?;
    refuses_behind_a_picture(&rt, alloc)
}
