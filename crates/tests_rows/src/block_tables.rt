use dirac_bits::{BitReader, BitWriter};
use dirac_blocks::{Block, BlockData, read_blocks, write_blocks};
use dirac_common::{NoMemory, Vector};
use dirac_obmc::weight;
use std::alloc::Global;
use std::process::Abort;

/// The block table that these bytes hold.
fn read_table<R: Abort>(
    rt: &R,
    alloc: Global,
    bytes: &[u8],
    across: u32,
    down: u32,
    refs: u8,
) -> Result<BlockData, NoMemory> {
    assert!(rt; 1 <= across && across <= 8 && 1 <= down && down <= 8 && 1 <= refs && refs <= 2);
    let mut reader = BitReader::new(bytes);
    let Ok(table) = read_blocks(alloc, &mut reader, across, down, refs) else {
        panic!(rt; "bytes that hold no table");
    };
    Ok(table)
}

/// The bytes that hold this table.
fn written(alloc: Global, table: &BlockData) -> Result<Vec<u8>, NoMemory> {
    let mut writer = BitWriter::new(alloc);
    write_blocks(alloc, &mut writer, table)?;
    writer.align()?;
    writer.finish()
}

/// Nine lists of random bytes: each is a block of 255 of them.
fn random_lists(alloc: Global, seed: u32) -> Result<Vec<u8>, NoMemory> {
    let mut bytes = Vec::new(alloc);
    let mut seed = seed;
    for _list in 0..9 {
        // the length, 255
        bytes.push(0u8)?;
        bytes.push(0)?;
        bytes.push(0x80)?;
        for _byte in 0..255 {
            seed = seed.wrapping_mul(1_664_525).wrapping_add(1_013_904_223);
            bytes.push((seed >> 24) as u8)?;
        }
    }
    Ok(bytes)
}

/// Whether superblocks of each split are among those of a table.
fn has_all_splits(table: &BlockData) -> bool {
    let (mut whole, mut quarters, mut sixteenths) = (false, false, false);
    for sy in 0..table.down() {
        for sx in 0..table.across() {
            match table.split(sx, sy) {
                0 => whole = true,
                1 => quarters = true,
                _ => sixteenths = true,
            }
        }
    }
    whole && quarters && sixteenths
}

/// Compares every split and every block of two tables.
fn are_same<R: Abort>(rt: &R, read: &BlockData, table: &BlockData) {
    assert_eq!(rt;
        (read.across(), read.down()),
        (table.across(), table.down())
    );
    for sy in 0..table.down() {
        for sx in 0..table.across() {
            assert_eq!(rt; read.split(sx, sy), table.split(sx, sy));
        }
    }
    for j in 0..4 * table.down() {
        for i in 0..4 * table.across() {
            assert!(rt; read.at(i, j) == table.at(i, j), "block {i} of row {j}");
        }
    }
}

/// Reads a table of all splits from random bytes, writes it, and reads it back.
fn comes_back<R: Abort>(
    rt: &R,
    alloc: Global,
    across: u32,
    down: u32,
    refs: u8,
) -> Result<(), NoMemory> {
    let random = random_lists(alloc, across)?;
    let table = read_table(rt, alloc, random.as_slice(), across, down, refs)?;
    assert!(rt; has_all_splits(&table));
    let bytes = written(alloc, &table)?;
    let read = read_table(rt, alloc, bytes.as_slice(), across, down, refs)?;
    are_same(rt, &read, &table);
    Ok(())
}

#[test]
fn tables_written_are_read(rt: HostRuntime) -> Result<(), NoMemory> {
    let alloc = rt.alloc();
    comes_back(&rt, alloc, 5, 4, 1)?;
    comes_back(&rt, alloc, 4, 7, 2)
}

// One superblock that isn't split, all of it from reference 1 with the vector 0.
const STILL: [u8; 11] = [
    0x20, 0xFE, 0x20, 0xFE, 0x20, 0xFE, 0x20, 0xFE, 0x80, 0x80, 0x80,
];

/// All blocks are that one.
fn is_still<R: Abort>(rt: &R, table: &BlockData) {
    assert!(rt; table.across() == 1 && table.down() == 1);
    assert_eq!(rt; table.split(0, 0), 0);
    let still = Block {
        ref1: true,
        ref2: false,
        v1: Vector { x: 0, y: 0 },
        v2: Vector { x: 0, y: 0 },
        dc_y: 0,
        dc_u: 0,
        dc_v: 0,
    };
    for j in 0..4u32 {
        for i in 0..4u32 {
            assert!(rt; table.at(i, j) == still);
        }
    }
}

#[test]
fn still_block_table(rt: HostRuntime) -> Result<(), NoMemory> {
    let alloc = rt.alloc();
    let table = read_table(&rt, alloc, STILL.as_slice(), 1, 1, 1)?;
    is_still(&rt, &table);
    let copy = table.try_copy(alloc)?;
    is_still(&rt, &copy);
    assert!(rt; written(alloc, &copy)?.as_slice() == STILL.as_slice());
    Ok(())
}

#[test]
fn weights_of_blocks(rt: HostRuntime) {
    let inner = [1u32, 3, 5, 7, 8, 8, 8, 8, 7, 5, 3, 1];
    let first = [8u32, 8, 8, 8, 8, 8, 8, 8, 7, 5, 3, 1];
    let last = [1u32, 3, 5, 7, 8, 8, 8, 8, 8, 8, 8, 8];
    for t in 0..12usize {
        let at = t as u32;
        let found = [
            weight(1, 3, 12, 8, at),
            weight(0, 3, 12, 8, at),
            weight(2, 3, 12, 8, at),
        ];
        assert_eq!(rt; found, [inner[t], first[t], last[t]], "at {at}");
    }
    let short = [3u32, 5, 5, 3];
    for t in 0..4usize {
        assert_eq!(rt; weight(1, 3, 4, 2, t as u32), short[t]);
    }
}
