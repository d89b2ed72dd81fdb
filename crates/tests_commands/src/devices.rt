use dirac_commands::Ended;
use std::alloc::Global;
use std::process::Abort;
use std::test::Fail;
use std::thread::Threads;
use tests_support::{
    DECODE, LINES, Outside, PARDECODE, STREAM, counts_its_fault, decoded, pieces, tried, words_of,
};

// Two pictures of 8 by 8 samples, 4:2:0, of which all samples are grey, as bytes.
const GREY: [u8; 192] = [0x80; 192];

// The words of a command, what it reads, and what it writes, to `out` and beside it, where no call fails.
#[derive(Clone, Copy)]
struct Whole<'a> {
    words: &'a [&'a str],
    input: &'a [u8],
    out: &'a [u8],
    side: &'a [u8],
}

// Whose calls fail.
#[derive(Clone, Copy)]
enum Device {
    Source,
    Out,
    Side,
}

// Pieces of that many bytes, where these calls of a device fail.
fn failing<'a>(device: Device, most: usize, calls: &'a [u64]) -> Outside<'a> {
    match device {
        Device::Source => Outside {
            reads: calls,
            ..pieces(most)
        },
        Device::Out => Outside {
            writes: calls,
            ..pieces(most)
        },
        Device::Side => Outside {
            sides: calls,
            ..pieces(most)
        },
    }
}

fn fault_of(device: Device) -> Ended {
    match device {
        Device::Source => Ended::ReadFault,
        Device::Out => Ended::WriteFault,
        Device::Side => Ended::SideFault,
    }
}

// Runs the command by calls of which some fail. What came out is a front of what is to come, and the fault was counted.
fn stopped<R: Abort + Threads + Sync>(
    rt: &R,
    alloc: Global,
    whole: &Whole<'_>,
    outside: &Outside<'_>,
) -> Result<Ended, Fail> {
    let words = words_of(alloc, whole.words)?;
    let left = tried(rt, alloc, &words, whole.input, outside)?;
    assert!(rt; whole.out.starts_with(left.out.taken()));
    assert!(rt; whole.side.starts_with(left.side.taken()));
    assert!(rt; counts_its_fault(&left));
    if left.ended == Ended::Done {
        assert_eq!(rt; left.out.taken().len(), whole.out.len());
        assert_eq!(rt; left.side.taken().len(), whole.side.len());
    }
    Ok(left.ended)
}

// Lets each call of a device fail in turn, one a run, until none does; that is how many calls there are.
fn calls_that_fail<R: Abort + Threads + Sync>(
    rt: &R,
    alloc: Global,
    whole: &Whole<'_>,
    device: Device,
    most: usize,
) -> Result<u64, Fail> {
    for call in 0..1000 {
        let ended = stopped(rt, alloc, whole, &failing(device, most, &[call]))?;
        if ended == Ended::Done {
            return Ok(call);
        }
        assert_eq!(rt; ended, fault_of(device), "call {call}");
    }
    Ok(1000)
}

// The same for all three, by reads of one byte and writes of seven: a read of each byte and one of the end, where the
// input is read, and as many writes as the bytes want at least.
fn stops_at_each_call<R: Abort + Threads + Sync>(
    rt: &R,
    alloc: Global,
    whole: &Whole<'_>,
    reads: u64,
) -> Result<(), Fail> {
    assert_eq!(rt;
        calls_that_fail(rt, alloc, whole, Device::Source, 1)?,
        reads
    );
    let writes = calls_that_fail(rt, alloc, whole, Device::Out, 7)?;
    assert!(rt; whole.out.len().div_ceil(7) as u64 <= writes && writes < 1000);
    let sides = calls_that_fail(rt, alloc, whole, Device::Side, 7)?;
    assert!(rt; whole.side.len().div_ceil(7) as u64 <= sides && sides < 1000);
    Ok(())
}

// Nothing is shown before the third read of 10 bytes, nor by a first write that fails.
fn shows_nothing_yet<R: Abort + Threads + Sync>(rt: &R, alloc: Global) -> Result<(), Fail> {
    for (device, call) in [(Device::Source, 2), (Device::Out, 0)] {
        let left = decoded(rt, alloc, &DECODE, &STREAM, &failing(device, 10, &[call]))?;
        assert_eq!(rt; left.ended, fault_of(device));
        assert!(rt; left.out.taken().is_empty());
    }
    Ok(())
}

#[test]
fn stops_at_each_call_that_fails(rt: HostRuntime) -> Result<(), Fail> {
    let alloc = rt.alloc();
    for (words, input, out, side, reads) in [
        (
            ["list"].as_slice(),
            STREAM.as_slice(),
            LINES.as_bytes(),
            [].as_slice(),
            96,
        ),
        (
            ["decode"].as_slice(),
            STREAM.as_slice(),
            GREY.as_slice(),
            b"pictures=2 references=2\n".as_slice(),
            96,
        ),
        (
            PARDECODE.as_slice(),
            STREAM.as_slice(),
            GREY.as_slice(),
            b"pictures=2 references=2\n".as_slice(),
            96,
        ),
        (
            ["encode", "--width=8", "--height=8", "--depth=1"].as_slice(),
            GREY.as_slice(),
            STREAM.as_slice(),
            GREY.as_slice(),
            193,
        ),
        (
            [
                "make",
                "--width=8",
                "--height=8",
                "--depth=1",
                "--index=0",
                "--count=2",
            ]
            .as_slice(),
            STREAM.as_slice(),
            b"pictures=2 stream=221 raw=192 exact=2\n".as_slice(),
            [].as_slice(),
            0,
        ),
    ] {
        let whole = Whole {
            words,
            input,
            out,
            side,
        };
        stops_at_each_call(&rt, alloc, &whole, reads)?;
    }
    shows_nothing_yet(&rt, alloc)
}
