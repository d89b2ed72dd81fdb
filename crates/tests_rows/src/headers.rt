use dirac_bits::{BitReader, BitWriter};
use dirac_coeffs::{BandLayout, read_band};
use dirac_common::{Band, BlockGrid, Cause, Chroma, NoMemory, Refusal, Stop};
use dirac_header::{read_header, read_prediction, read_transform, write_prediction};
use std::alloc::Global;

#[test]
fn the_largest_number_written(rt: HostRuntime) -> Result<(), NoMemory> {
    let mut writer = BitWriter::new(rt.alloc());
    writer.uint(549_755_813_886)?;
    writer.align()?;
    assert!(rt;
        writer.finish()?.as_slice()
            == [0x55u8, 0x55, 0x55, 0x55, 0x55, 0x55, 0x55, 0x55, 0x55, 0x58].as_slice()
    );
    Ok(())
}

#[test]
fn numbers_and_flags_written(rt: HostRuntime) -> Result<(), NoMemory> {
    // versions 2 and 2, profile 0, level 0, base 2, no custom flag, frames
    let mut writer = BitWriter::new(rt.alloc());
    for number in [2u64, 2, 0, 0, 2] {
        assert!(rt; number <= 2);
        writer.uint(number)?;
    }
    for _ in 0..8u8 {
        writer.bit(false)?;
    }
    writer.sint(0)?;
    writer.align()?;
    assert!(rt; writer.finish()?.as_slice() == [0x6Fu8, 0x60, 0x10].as_slice());
    Ok(())
}

#[test]
fn a_literal_and_a_block_written(rt: HostRuntime) -> Result<(), NoMemory> {
    let mut writer = BitWriter::new(rt.alloc());
    writer.sint(-1)?;
    writer.align()?;
    writer.literal(0x4242_4344)?;
    writer.block([0xFEu8].as_slice())?;
    assert!(rt; writer.finish()?.as_slice() == [0x30u8, 0x42, 0x42, 0x43, 0x44, 0xFE].as_slice());
    Ok(())
}

#[test]
fn prediction_parameters_written(rt: HostRuntime) -> Result<(), NoMemory> {
    // block preset 2, precision 2, no global motion, mode 0, default weights
    let mut writer = BitWriter::new(rt.alloc());
    write_prediction(&mut writer, 2, 2)?;
    writer.align()?;
    assert!(rt; writer.finish()?.as_slice() == [0x6Du8, 0x00].as_slice());
    Ok(())
}

#[test]
fn an_intra_header(rt: HostRuntime) {
    let bytes = [0u8, 0, 0, 0, 0x80];
    let mut reader = BitReader::new(bytes.as_slice());
    let Ok(header) = read_header(&mut reader, 0x0C) else {
        panic!(rt; "an intra reference header");
    };
    assert_eq!(rt; (header.number, header.retire), (0, None));
}

#[test]
fn an_inter_header(rt: HostRuntime) {
    // one reference: number 1, the picture before it, none retired
    let bytes = [0u8, 0, 0, 1, 0x38];
    let mut reader = BitReader::new(bytes.as_slice());
    let Ok(header) = read_header(&mut reader, 0x0D) else {
        panic!(rt; "an inter reference header");
    };
    assert_eq!(rt; (header.number, header.retire), (1, None));
    assert_eq!(rt; (header.ref1, header.ref2), (Some(0), None));
}

#[test]
fn prediction_parameters(rt: HostRuntime) {
    // block sizes 2, precision 2, default weights
    let bytes = [0x6Du8, 0x00];
    let mut reader = BitReader::new(bytes.as_slice());
    let Ok(prediction) = read_prediction(&mut reader, 0x0D, Chroma::C420) else {
        panic!(rt; "prediction parameters");
    };
    let grid = BlockGrid {
        xblen: 12,
        yblen: 12,
        xbsep: 8,
        ybsep: 8,
    };
    assert_eq!(rt; (prediction.grid, prediction.precision), (grid, 2));
    let weights = (
        prediction.weight_bits,
        prediction.weight1,
        prediction.weight2,
    );
    assert_eq!(rt; weights, (1, 1, 1));
}

#[test]
fn refused_block_sizes(rt: HostRuntime) {
    // own sizes 4, 4, 1, 4
    let bytes = [0x8Cu8, 0x64, 0x60];
    let refused = read_prediction(&mut BitReader::new(bytes.as_slice()), 0x0D, Chroma::C444);
    let wanted = Refusal {
        at: 0,
        cause: Cause::BlockSize,
    };
    assert!(rt; matches!(refused, Err(refusal) if refusal == wanted));
}

#[test]
fn transform_parameters(rt: HostRuntime) {
    let bytes = [0x90u8];
    let Ok(transform) = read_transform(&mut BitReader::new(bytes.as_slice()), 176, 144) else {
        panic!(rt; "transform parameters");
    };
    let counts = &transform.counts;
    assert_eq!(rt;
        (transform.wavelet, transform.depth, counts.len()),
        (0, 1, 2)
    );
    assert_eq!(rt; counts.at(1), (1, 1));
}

/// The answer of a band of one value, as its index and value, or its refusal.
fn single(alloc: Global, bytes: &[u8]) -> Result<(u8, i64), Stop> {
    let layout = BandLayout {
        band: Band::LL,
        width: 1,
        height: 1,
        across: 1,
        down: 1,
        mode: 0,
    };
    let coded = read_band(alloc, &mut BitReader::new(bytes), layout, None)?;
    if coded.table.width() == 1 && coded.table.height() == 1 {
        return Ok((coded.index, coded.table.at(0, 0)));
    }
    Err(Stop::NoMemory)
}

#[test]
fn bands_of_one_value(rt: HostRuntime) {
    let alloc = rt.alloc();
    assert_eq!(rt; single(alloc, [0x30u8, 0x2E].as_slice()), Ok((0, 1)));
    assert_eq!(rt; single(alloc, [0x80u8].as_slice()), Ok((0, 0)));
    // the last values that 32 bits hold, the first that they don't, and the last of all
    for (last, value) in [
        ([0x00u8, 0x00, 0x00, 0x00, 0xBF], (1i64 << 31) - 1),
        ([0x00, 0x00, 0x00, 0x00, 0xF1], -(1 << 31)),
        ([0x00, 0x00, 0x00, 0x00, 0xEF], 1 << 31),
        ([0x00, 0x00, 0x00, 0x01, 0x43], -(1 << 31) - 1),
        ([0x54, 0x2F, 0x10, 0xFC, 0x35], (1 << 39) - 2),
        ([0x54, 0x2F, 0x10, 0xFC, 0x37], 2 - (1 << 39)),
    ] {
        let [a, b, c, d, e] = last;
        assert_eq!(rt;
            single(alloc, [0x4C, a, b, c, d, e].as_slice()),
            Ok((0, value))
        );
    }
    let code_word = Refusal {
        at: 1,
        cause: Cause::CodeWord,
    };
    assert_eq!(rt;
        single(alloc, [0x70u8, 0xFF, 0xFF].as_slice()),
        Err(Stop::Refused(code_word))
    );
    let index = Refusal {
        at: 0,
        cause: Cause::QuantIndex,
    };
    assert_eq!(rt;
        single(alloc, [0x28u8, 0x23, 0x00].as_slice()),
        Err(Stop::Refused(index))
    );
    let short = Refusal {
        at: 1,
        cause: Cause::UnitShort,
    };
    assert_eq!(rt;
        single(alloc, [0x70u8, 0xFF].as_slice()),
        Err(Stop::Refused(short))
    );
}

/// The answer of a band of one column and two rows, or its refusal.
fn column(alloc: Global, bytes: &[u8]) -> Result<[i64; 2], Stop> {
    let layout = BandLayout {
        band: Band::LL,
        width: 1,
        height: 2,
        across: 1,
        down: 1,
        mode: 0,
    };
    let coded = read_band(alloc, &mut BitReader::new(bytes), layout, None)?;
    if coded.index == 0 && coded.table.width() == 1 && coded.table.height() == 2 {
        return Ok([coded.table.at(0, 0), coded.table.at(0, 1)]);
    }
    Err(Stop::NoMemory)
}

#[test]
fn bands_of_two_values(rt: HostRuntime) {
    let alloc = rt.alloc();
    assert_eq!(rt; column(alloc, [0x30u8, 0xFE].as_slice()), Ok([0, 0]));
    // one value that 32 bits don't hold, above or below one that they do
    for (bytes, values) in [
        ([0x00u8, 0x00, 0x00, 0x00, 0xAC, 0x03], [1i64 << 32, 7]),
        ([0x02, 0x5A, 0xC0, 0x00, 0x03, 0xBD], [7, 1 << 32]),
        ([0x00, 0x00, 0x00, 0x01, 0x42, 0x40], [-(1 << 31) - 1, 3]),
        ([0x08, 0x77, 0xC0, 0x00, 0x0E, 0xEB], [3, -(1 << 31) - 1]),
    ] {
        let [a, b, c, d, e, f] = bytes;
        assert_eq!(rt;
            column(alloc, [0x5C, a, b, c, d, e, f].as_slice()),
            Ok(values)
        );
    }
}
