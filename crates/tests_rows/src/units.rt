use dirac_common::NoMemory;
use dirac_io::{Filled, MemSource, fill};
use dirac_units::{ParseInfo, UnitStep, Units, write_info};

#[test]
fn the_end_unit_written(rt: HostRuntime) {
    let end = ParseInfo {
        code: 0x10,
        next: 0,
        previous: 0,
    };
    assert!(rt; write_info(end) == [0x42, 0x42, 0x43, 0x44, 0x10, 0, 0, 0, 0, 0, 0, 0, 0]);
    let picture = ParseInfo {
        code: 0x0C,
        next: 31,
        previous: 19,
    };
    assert!(rt; write_info(picture) == [0x42, 0x42, 0x43, 0x44, 0x0C, 0, 0, 0, 31, 0, 0, 0, 19]);
}

// An auxiliary unit of one byte and an end unit: 27 bytes.
const BYTES: [u8; 27] = [
    0x42, 0x42, 0x43, 0x44, 0x20, 0, 0, 0, 14, 0, 0, 0, 0, 9, 0x42, 0x42, 0x43, 0x44, 0x10, 0, 0,
    0, 0, 0, 0, 0, 14,
];

#[test]
fn stopped_after_a_read_fault(rt: HostRuntime) -> Result<(), NoMemory> {
    let alloc = rt.alloc();
    // by two bytes, each header takes seven reads and the payload one; then comes the end
    for call in 0..16 {
        let failing = Vec::from_slice(alloc, [call].as_slice())?;
        let mut source = MemSource::new(Vec::from_slice(alloc, &BYTES)?, 2, failing);
        let mut units = Units::new(alloc);
        if call >= 8 {
            assert!(rt; matches!(units.next(&mut source, true), UnitStep::Unit(_)));
        }
        if call >= 15 {
            assert!(rt; matches!(units.next(&mut source, true), UnitStep::Unit(_)));
        }
        assert!(rt; matches!(units.next(&mut source, true), UnitStep::ReadFault));
        assert!(rt; matches!(units.next(&mut source, true), UnitStep::Stopped));
        assert!(rt; matches!(units.next(&mut source, true), UnitStep::Stopped));
        assert_eq!(rt; source.count(), 1);
    }
    Ok(())
}

#[test]
fn buffers_filled(rt: HostRuntime) -> Result<(), NoMemory> {
    let alloc = rt.alloc();
    let bytes = Vec::from_slice(alloc, [1u8, 2, 3, 4, 5, 6, 7].as_slice())?;
    let failing = Vec::from_slice(alloc, [5u64].as_slice())?;
    let mut source = MemSource::new(bytes, 2, failing);
    let mut buf = [0; 5];
    assert!(rt; fill(&mut source, &mut buf[..0]) == Filled::Whole);
    assert!(rt; fill(&mut source, &mut buf) == Filled::Whole);
    assert!(rt; buf == [1, 2, 3, 4, 5]);
    assert!(rt; fill(&mut source, &mut buf) == Filled::Ended(2));
    assert!(rt; buf[..2] == [6, 7]);
    assert!(rt; fill(&mut source, &mut buf) == Filled::Failed);
    assert!(rt; fill(&mut source, &mut buf) == Filled::Ended(0));
    assert_eq!(rt; source.count(), 1);
    Ok(())
}
