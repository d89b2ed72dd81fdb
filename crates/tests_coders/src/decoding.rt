use crate::encoding::{encoded, encoded_as, encoded_many, sized};
use crate::gates::HoldsEachCall;
use dirac_common::{NoMemory, OpenGate};
use dirac_decode::{Decoded, Tally};
use dirac_io::{MemSink, MemSource};
use dirac_pardec::decode_rows;
use std::alloc::Global;
use std::process::Abort;
use std::thread::Threads;

// A sequence header, a grey intra picture of 8 by 8 samples, 4:2:0, an inter picture like it, and an end unit.
const STREAM: [u8; 95] = [
    0x42, 0x42, 0x43, 0x44, 0x00, 0x00, 0x00, 0x00, 0x13, 0x00, 0x00, 0x00, 0x00, 0x6F, 0xC1, 0x83,
    0x08, 0x30, 0x79, 0x42, 0x42, 0x43, 0x44, 0x0C, 0x00, 0x00, 0x00, 0x1F, 0x00, 0x00, 0x00, 0x13,
    0x00, 0x00, 0x00, 0x00, 0x80, 0x90, 0x80, 0x80, 0x80, 0x80, 0x80, 0x80, 0x80, 0x80, 0x80, 0x80,
    0x80, 0x80, 0x42, 0x42, 0x43, 0x44, 0x0D, 0x00, 0x00, 0x00, 0x20, 0x00, 0x00, 0x00, 0x1F, 0x00,
    0x00, 0x00, 0x01, 0x38, 0x6D, 0x00, 0x20, 0xFE, 0x20, 0xFE, 0x20, 0xFE, 0x20, 0xFE, 0x80, 0x80,
    0x80, 0x80, 0x42, 0x42, 0x43, 0x44, 0x10, 0x00, 0x00, 0x00, 0x00, 0x00, 0x00, 0x00, 0x20,
];

// Decodes a stream by so many workers with this row held in each call, compares the tally and what comes out, and gives
// the gate.
fn held<R: Abort + Threads + Sync>(
    rt: &R,
    alloc: Global,
    workers: u32,
    stream: &[u8],
    shown: &[u8],
    pictures: u64,
    row: u32,
) -> Result<HoldsEachCall, NoMemory> {
    assert!(rt; 2 <= workers && workers <= 64);
    let gate = HoldsEachCall::new(row);
    let bytes = Vec::from_slice(alloc, stream)?;
    let mut source = MemSource::new(bytes, 4096, Vec::new(alloc));
    let mut out = MemSink::new(alloc, 4096, Vec::new(alloc));
    let ended = decode_rows(rt, alloc, &mut source, &mut out, workers, &gate);
    let tally = Tally {
        pictures,
        references: 2,
    };
    assert_eq!(rt; ended, Decoded::Done(tally));
    assert_eq!(rt; out.taken(), shown);
    Ok(gate)
}

// Decodes a stream by two workers, once with row 0 held in each call and once with row 1, and compares the tally, what
// comes out, and in how many calls both rows came.
fn shares<R: Abort + Threads + Sync>(
    rt: &R,
    alloc: Global,
    stream: &[u8],
    shown: &[u8],
    pictures: u64,
    calls: u64,
) -> Result<(), NoMemory> {
    for row in [0, 1] {
        let gate = held(rt, alloc, 2, stream, shown, pictures, row)?;
        assert_eq!(rt; gate.calls(), Some(calls), "row {row} held");
    }
    Ok(())
}

// The first picture has its residual planes as rows; the second, without a residual, has three calls: the half samples
// of its reference, what its slices are made of, and its slices.
#[test]
fn two_workers_share_the_rows_of_each_call(rt: HostRuntime) -> Result<(), NoMemory> {
    let alloc = rt.alloc();
    shares(&rt, alloc, &STREAM, &[0x80; 192], 2, 4)
}

// Each of two pictures that aren't small has three calls: the orientations of its subbands, what its slices are made
// of, and its slices. The second has one more between them: the half samples of its reference.
#[test]
fn two_workers_share_the_subbands(rt: HostRuntime) -> Result<(), NoMemory> {
    let alloc = rt.alloc();
    let made = encoded(&rt, alloc, 320, 208, 1, &OpenGate)?;
    shares(&rt, alloc, made.stream.taken(), made.shown.taken(), 2, 7)
}

// Two intra pictures have one call: each is decoded whole by one of the workers.
#[test]
fn two_workers_decode_a_picture_each(rt: HostRuntime) -> Result<(), NoMemory> {
    let alloc = rt.alloc();
    let mut settings = sized(320, 208);
    settings.gop = 1;
    let made = encoded_as(&rt, alloc, &settings, &OpenGate)?;
    shares(&rt, alloc, made.stream.taken(), made.shown.taken(), 2, 1)
}

// An intra picture has three calls, the picture behind it that refers to it four, with the half samples of the first.
// The two between them, which refer to both, have two together: the half samples of the second one, since those of the
// first are kept, and then each is decoded whole by one of the workers.
#[test]
fn two_workers_decode_what_refers_to_the_same_pictures(rt: HostRuntime) -> Result<(), NoMemory> {
    let alloc = rt.alloc();
    let settings = sized(320, 208);
    let made = encoded_many(&rt, alloc, &settings, 4, &OpenGate)?;
    shares(&rt, alloc, made.stream.taken(), made.shown.taken(), 4, 9)
}

// The same at precision 0, where no half sample is made: an intra picture has three calls, the picture behind it that
// refers to it three, and the two between them one, in which each is decoded whole by one of the workers.
#[test]
fn two_workers_decode_what_refers_to_whole_samples(rt: HostRuntime) -> Result<(), NoMemory> {
    let alloc = rt.alloc();
    let mut settings = sized(320, 208);
    settings.precision = 0;
    let made = encoded_many(&rt, alloc, &settings, 4, &OpenGate)?;
    shares(&rt, alloc, made.stream.taken(), made.shown.taken(), 4, 7)
}

// The same by four workers: the first two pictures have three calls each, with 12, 3 and 4 rows and with 12, 9 and 4.
// The two between have one in which both are decoded, and each has three, with 12, 9 and 2 rows, since two workers of
// its own read its subbands, make what its slices are made of, and make its slices. All but the rows 0 and 1 are 66.
#[test]
fn four_workers_share_the_rows_of_two_pictures(rt: HostRuntime) -> Result<(), NoMemory> {
    let alloc = rt.alloc();
    let mut settings = sized(320, 208);
    settings.precision = 0;
    let made = encoded_many(&rt, alloc, &settings, 4, &OpenGate)?;
    for row in [0, 1] {
        let (stream, shown) = (made.stream.taken(), made.shown.taken());
        let gate = held(&rt, alloc, 4, stream, shown, 4, row)?;
        assert_eq!(rt; gate.calls(), Some(13), "row {row} held");
        assert_eq!(rt; gate.others(), 66, "row {row} held");
    }
    Ok(())
}
