use crate::gates::{FIRST, HoldsEntry, HoldsRows, SECOND, THIRD};
use dirac_common::{NoMemory, OpenGate, RowGate};
use dirac_encode::{Encoded, encode_stream};
use dirac_io::{MemSink, MemSource};
use dirac_types::Settings;
use std::alloc::Global;
use std::thread::Threads;

// What encoding left: its answer, the stream, and the pictures that decoders show for it.
#[derive(Drop)]
pub struct Made {
    pub ended: Encoded,
    pub stream: MemSink,
    pub shown: MemSink,
}

// Raw pictures of this size, 4:2:0: each is the one before a little lower, and brighter.
fn moving(alloc: Global, width: u32, height: u32, count: u32) -> Result<Vec<u8>, NoMemory> {
    let mut raw = Vec::new(alloc);
    for number in 0..count {
        for place in 0..width.saturating_mul(height).saturating_mul(3) / 2 {
            let byte = place.wrapping_mul(place).wrapping_mul(7) / 13;
            raw.push((byte.wrapping_add(number.wrapping_mul(19)) % 256) as u8)?;
        }
    }
    Ok(raw)
}

// Settings of pictures of this size.
pub fn sized(width: u32, height: u32) -> Settings {
    let mut settings = Settings::of_base(0);
    settings.width = width;
    settings.height = height;
    settings
}

// Encodes two of them; a picture of 40 rows has two rows of superblocks, one of 72 rows has three.
pub fn encoded<R: Threads + Sync, G: RowGate>(
    rt: &R,
    alloc: Global,
    width: u32,
    height: u32,
    workers: u32,
    gate: &G,
) -> Result<Made, NoMemory> {
    let mut settings = sized(width, height);
    settings.workers = workers;
    encoded_as(rt, alloc, &settings, gate)
}

// Encodes two of them by these settings.
pub fn encoded_as<R: Threads + Sync, G: RowGate>(
    rt: &R,
    alloc: Global,
    settings: &Settings,
    gate: &G,
) -> Result<Made, NoMemory> {
    encoded_many(rt, alloc, settings, 2, gate)
}

// Encodes that many of them by these settings.
pub fn encoded_many<R: Threads + Sync, G: RowGate>(
    rt: &R,
    alloc: Global,
    settings: &Settings,
    count: u32,
    gate: &G,
) -> Result<Made, NoMemory> {
    let Ok(()) = settings.check() else {
        return Err(NoMemory);
    };
    let raw = moving(alloc, settings.width, settings.height, count)?;
    let mut source = MemSource::new(raw, 4096, Vec::new(alloc));
    let mut stream = MemSink::new(alloc, 4096, Vec::new(alloc));
    let mut shown = MemSink::new(alloc, 4096, Vec::new(alloc));
    let ended = encode_stream(
        rt,
        alloc,
        &mut source,
        &mut stream,
        &mut shown,
        settings,
        gate,
    );
    Ok(Made {
        ended,
        stream,
        shown,
    })
}

// A worker whose row is held leaves the other rows to the others; in a fixed division one worker has two of three rows,
// and the gate that holds the first of them never sees the second.
#[test]
fn encoding_deals_rows_as_workers_come_free(rt: HostRuntime) -> Result<(), NoMemory> {
    let alloc = rt.alloc();
    let two = FIRST | SECOND;
    let three = FIRST | SECOND | THIRD;
    for (height, workers, held, all) in [
        (40, 2, FIRST, two),
        (40, 2, SECOND, two),
        (40, 2, two, two),
        (40, 3, FIRST, two),
        (40, 3, SECOND, two),
        (72, 2, FIRST, three),
        (72, 2, SECOND, three),
        (72, 2, THIRD, three),
        (72, 3, three, three),
    ] {
        let alone = encoded(&rt, alloc, 8, height, 1, &OpenGate)?;
        let gate = HoldsRows::new(held, all);
        let made = encoded(&rt, alloc, 8, height, workers, &gate)?;
        assert!(rt;
            gate.all_came(),
            "{height} rows, {workers} workers, {held} held"
        );
        assert_eq!(rt; made.ended, Encoded::Done);
        assert_eq!(rt; made.stream.taken(), alone.stream.taken());
        assert_eq!(rt; made.shown.taken(), alone.shown.taken());
    }
    Ok(())
}

#[test]
fn no_gate_is_passed_by_one_thread(rt: HostRuntime) -> Result<(), NoMemory> {
    let gate = HoldsRows::for_turns(1, FIRST, FIRST | SECOND);
    let made = encoded(&rt, rt.alloc(), 8, 40, 1, &gate)?;
    assert!(rt; !gate.all_came());
    assert_eq!(rt; made.ended, Encoded::Done);
    Ok(())
}

// A picture of one row of superblocks, searched in one stage. The third picture refers to the first, which is entry 0;
// the one between them to both: while its row is held in one of them, that in the other one comes.
#[test]
fn four_workers_search_two_references_side_by_side(rt: HostRuntime) -> Result<(), NoMemory> {
    let alloc = rt.alloc();
    let mut settings = sized(8, 8);
    settings.between = 1;
    settings.pyramid = 0;
    settings.precision = 0;
    let alone = encoded_many(&rt, alloc, &settings, 3, &OpenGate)?;
    settings.workers = 4;
    let gate = HoldsEntry::new(1);
    let made = encoded_many(&rt, alloc, &settings, 3, &gate)?;
    assert!(rt; gate.next_came());
    assert_eq!(rt; made.ended, Encoded::Done);
    assert_eq!(rt; made.stream.taken(), alone.stream.taken());
    assert_eq!(rt; made.shown.taken(), alone.shown.taken());
    Ok(())
}
