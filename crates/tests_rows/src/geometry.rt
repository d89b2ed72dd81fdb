use dirac_bands::{band_size, dc_add, dc_subtract, edge, join_bands, padded, split_bands};
use dirac_common::{NoMemory, Wide};
use std::alloc::Global;

#[test]
fn sizes_of_bands(rt: HostRuntime) {
    assert_eq!(rt; [edge(5, 2, 1), edge(5, 2, 2), padded(9, 2)], [2, 5, 12]);
    let sizes = [
        band_size(12, 2, 0),
        band_size(12, 2, 1),
        band_size(12, 2, 2),
        // the bands of a luma plane of 176 by 144 at depth 1
        band_size(padded(176, 1), 1, 0),
        band_size(padded(144, 1), 1, 1),
    ];
    assert_eq!(rt; sizes, [3, 3, 6, 88, 72]);
}

#[test]
fn differences_of_a_row(rt: HostRuntime) -> Result<(), NoMemory> {
    let mut table = Wide::try_new(rt.alloc(), 2, 1, 4)?;
    table.set(1, 0, 6);
    dc_subtract(&mut table);
    assert_eq!(rt; (table.at(0, 0), table.at(1, 0)), (4, 2));
    dc_add(&mut table);
    assert_eq!(rt; (table.at(0, 0), table.at(1, 0)), (4, 6));
    Ok(())
}

/// Four bands of one value each, joined.
fn joined(alloc: Global) -> Result<Wide, NoMemory> {
    let ll = Wide::try_new(alloc, 1, 1, 1)?;
    let hl = Wide::try_new(alloc, 1, 1, 2)?;
    let lh = Wide::try_new(alloc, 1, 1, 3)?;
    let hh = Wide::try_new(alloc, 1, 1, 4)?;
    join_bands(alloc, &ll, &hl, &lh, &hh)
}

#[test]
fn bands_joined_and_split(rt: HostRuntime) -> Result<(), NoMemory> {
    let alloc = rt.alloc();
    let plane = joined(alloc)?;
    assert!(rt; plane.width() == 2 && plane.height() == 2);
    assert!(rt; plane.values() == [1i128, 2, 3, 4].as_slice());
    let bands = split_bands(alloc, &plane)?;
    let values = [
        bands.ll.at(0, 0),
        bands.hl.at(0, 0),
        bands.lh.at(0, 0),
        bands.hh.at(0, 0),
    ];
    assert_eq!(rt; values, [1, 2, 3, 4]);
    Ok(())
}
