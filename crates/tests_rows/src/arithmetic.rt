use dirac_arith::{Decoder, Encoder};
use dirac_common::{Cause, NoMemory};
use std::alloc::Global;
use std::process::Abort;

/// Decides once in context 0, and compares the truth and the probability that is left.
fn decides<R: Abort>(rt: &R, block: &[u8], truth: bool, probability: u16) {
    let mut decoder = Decoder::new(block);
    assert_eq!(rt; decoder.decision(0), Ok(truth));
    assert_eq!(rt; decoder.context(0), probability);
}

#[test]
fn decisions(rt: HostRuntime) {
    decides(&rt, &[0xFE], true, 30833);
    decides(&rt, &[0x7E], false, 34688);
}

#[test]
fn two_decisions(rt: HostRuntime) {
    let block = [0xBBu8];
    let mut decoder = Decoder::new(block.as_slice());
    assert_eq!(rt; decoder.decision(0), Ok(true));
    assert_eq!(rt; decoder.decision(0), Ok(false));
    assert_eq!(rt; decoder.context(0), 32813);
}

#[test]
fn blocks_outside_the_first_interval(rt: HostRuntime) {
    let ones = [0xFFu8, 0xFF];
    assert_eq!(rt;
        Decoder::new(ones.as_slice()).decision(0),
        Err(Cause::CodeWord)
    );
    assert_eq!(rt; Decoder::new(&ones[..0]).decision(0), Err(Cause::CodeWord));
}

#[test]
fn numbers(rt: HostRuntime) {
    let follow = [0u8, 4, 5, 6, 7, 8];
    let block = [0x2Eu8];
    assert_eq!(rt;
        Decoder::new(block.as_slice()).signed(follow.as_slice(), 14, 15),
        Ok(1)
    );
    let zeros = [0u8; 12];
    assert_eq!(rt;
        Decoder::new(zeros.as_slice()).number(follow.as_slice(), 14),
        Err(Cause::NumberTooLong)
    );
}

/// The block of these decisions, each in its context.
fn written<R: Abort>(rt: &R, alloc: Global, decisions: &[(u8, bool)]) -> Result<Vec<u8>, NoMemory> {
    let mut encoder = Encoder::new(alloc);
    for (ctx, truth) in decisions {
        assert!(rt; *ctx < 38);
        encoder.decision(*ctx, *truth)?;
    }
    encoder.finish()
}

/// Writes these decisions, and compares the block.
fn writes<R: Abort>(
    rt: &R,
    alloc: Global,
    decisions: &[(u8, bool)],
    block: &[u8],
) -> Result<(), NoMemory> {
    let bytes = written(rt, alloc, decisions)?;
    assert!(rt; bytes.as_slice() == block);
    Ok(())
}

#[test]
fn written_decisions(rt: HostRuntime) -> Result<(), NoMemory> {
    let alloc = rt.alloc();
    writes(&rt, alloc, &[], &[])?;
    writes(&rt, alloc, &[(0, true)], &[0xFE])?;
    writes(&rt, alloc, &[(0, false)], &[0x7E])?;
    writes(&rt, alloc, &[(0, true), (0, false)], &[0xBB])?;
    let five = [
        (19u8, true),
        (0, false),
        (14, false),
        (4, true),
        (15, false),
    ];
    writes(&rt, alloc, five.as_slice(), &[0x96])
}
