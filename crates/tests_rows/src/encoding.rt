ghost use Rattle.std.specs.Prelude.{◌-◌, ◌<◌, ◌^◌, nat_abs};

use dirac_arith::{Decoder, Encoder};
use dirac_common::NoMemory;
use std::alloc::Global;

fn block_of(alloc: Global, truths: &[bool]) -> Result<Vec<u8>, NoMemory> {
    let mut encoder = Encoder::new(alloc);
    for truth in truths {
        encoder.decision(0, *truth)?;
    }
    encoder.finish()
}

#[test]
fn blocks_of_few_decisions(rt: HostRuntime) {
    let alloc = rt.alloc();
    let cases: [(&[bool], &[u8]); 4] = [
        (&[], &[]),
        (&[true], &[0xFE]),
        (&[false], &[0x7E]),
        (&[true, false], &[0xBB]),
    ];
    for (truths, bytes) in cases {
        let block = block_of(alloc, truths).expect(&rt, "memory");
        assert_eq!(rt; block.as_slice(), bytes);
    }
}

#[test]
fn contexts_move(rt: HostRuntime) {
    let mut encoder = Encoder::new(rt.alloc());
    encoder.decision(0, true).expect(&rt, "memory");
    assert_eq!(rt; encoder.context(0), 30833);
    encoder.decision(0, false).expect(&rt, "memory");
    assert_eq!(rt; encoder.context(0), 32813);
    assert_eq!(rt; encoder.context(1), 0x8000);
}

#[test]
fn block_of_one(rt: HostRuntime) {
    let follow = [0u8, 4, 5, 6, 7, 8];
    let mut encoder = Encoder::new(rt.alloc());
    encoder
        .signed(follow.as_slice(), 14, 15, 1)
        .expect(&rt, "memory");
    let block = encoder.finish().expect(&rt, "memory");
    assert_eq!(rt; block.as_slice(), [0x2Eu8].as_slice());
}

// small and large magnitudes in turn, every other one negative
fn value_at(i: u32) -> i64
    ensures { nat_abs result < 2 ^ 39 - 1 }
{
    let magnitude = i64::from(i.wrapping_mul(0x9E3779B1) >> (i % 32));
    if i % 2 == 0 { magnitude } else { -magnitude }
}

#[test]
fn numbers_written_are_read(rt: HostRuntime) {
    let follow = [0u8, 4, 5, 6, 7, 8];
    let mut encoder = Encoder::new(rt.alloc());
    for i in 0..10_000u32 {
        encoder
            .signed(follow.as_slice(), 14, 15, value_at(i))
            .expect(&rt, "memory");
    }
    let block = encoder.finish().expect(&rt, "memory");
    let mut decoder = Decoder::new(block.as_slice());
    'reading: for i in 0..10_000u32 {
        assert_eq!(rt; decoder.signed(follow.as_slice(), 14, 15), Ok(value_at(i)));
    }
}
