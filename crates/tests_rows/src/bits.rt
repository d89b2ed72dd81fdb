use dirac_bits::BitReader;
use dirac_common::{Cause, Refusal};

const AT_ZERO: u64 = 0;

#[test]
fn unsigned_numbers(rt: HostRuntime) {
    let largest = [0x55u8, 0x55, 0x55, 0x55, 0x55, 0x55, 0x55, 0x55, 0x55, 0x58];
    let too_long = Refusal {
        at: AT_ZERO,
        cause: Cause::NumberTooLong,
    };
    let short = Refusal {
        at: AT_ZERO,
        cause: Cause::UnitShort,
    };
    let zeros = [0u8; 10];
    for (bytes, wanted) in [
        (largest.as_slice(), Ok(549_755_813_886)),
        (&[0x80], Ok(0)),
        (&[0x20], Ok(1)),
        (&[0x60], Ok(2)),
        (&[0x08], Ok(3)),
        (&[0x48], Ok(5)),
        (zeros.as_slice(), Err(too_long)),
        (&zeros[..9], Err(short)),
        (&[], Err(short)),
    ] {
        assert_eq!(rt; (bytes, BitReader::new(bytes).uint()), (bytes, wanted));
    }
}

#[test]
fn a_signed_number_without_its_sign(rt: HostRuntime) {
    let minus_one = [0x30u8];
    assert_eq!(rt; BitReader::new(minus_one.as_slice()).sint(), Ok(-1));
    // a flag, then three digits and the follow bit that ends them: the sign is missing
    let bytes = [0xABu8];
    let mut reader = BitReader::new(bytes.as_slice());
    let short = Refusal {
        at: AT_ZERO,
        cause: Cause::UnitShort,
    };
    let found = (reader.bit(), reader.sint(), reader.uint());
    assert_eq!(rt; found, (Ok(true), Err(short), Ok(14)));
}

#[test]
fn literals_and_blocks(rt: HostRuntime) {
    let bytes = [0x42u8, 0x42, 0x43, 0x44, 0x10];
    let mut reader = BitReader::new(bytes.as_slice());
    let short = Refusal {
        at: 4,
        cause: Cause::UnitShort,
    };
    let found = (reader.literal(), reader.literal());
    assert_eq!(rt; found, (Ok(0x4242_4344), Err(short)));
    assert!(rt; reader.block(2) == Err(short));
    assert!(rt; reader.block(1) == Ok([0x10u8].as_slice()));
    assert_eq!(rt; reader.place(), 5);
}
