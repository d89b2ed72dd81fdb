use dirac_common::{Narrow, NoMemory, Wide};
use dirac_lift::synth_level_narrow;

#[test]
fn tables_of_32_bits(rt: HostRuntime) -> Result<(), NoMemory> {
    let alloc = rt.alloc();
    let threes = Narrow::try_new(alloc, 2, 2, 3)?;
    assert!(rt; threes.values() == [3, 3, 3, 3].as_slice());
    let mut plane = Wide::try_new(alloc, 2, 1, 4095)?;
    assert!(rt; plane.width() == 2);
    assert!(rt; plane.height() == 1);
    plane.set(1, 0, -4095);
    match Narrow::try_of(alloc, &plane)? {
        Some(narrow) => {
            assert!(rt; narrow.values() == [4095, -4095].as_slice());
            let wide = narrow.try_wide(alloc)?;
            assert!(rt; wide.width() == 2 && wide.height() == 1);
            assert!(rt; wide.values() == [4095i128, -4095].as_slice());
        }
        None => assert!(rt; false, "4,095 is narrow"),
    }
    plane.set(0, 0, 4096);
    assert!(rt; Narrow::try_of(alloc, &plane)?.is_none());
    Ok(())
}

/// A plane of 2 by 2, and what wavelet 3 makes of it: the rows 1, -2 and 0, 0.
#[test]
fn levels_of_32_bits(rt: HostRuntime) -> Result<(), NoMemory> {
    let mut plane = Narrow::try_new(rt.alloc(), 2, 2, 0)?;
    assert!(rt; plane.width() == 2);
    assert!(rt; plane.height() == 2);
    plane.set(0, 0, 1);
    plane.set(1, 0, -2);
    assert!(rt; plane.values().iter().all(|v| v.unsigned_abs() <= 4095));
    synth_level_narrow(3, &mut plane);
    assert!(rt; plane.values() == [2, 0, 2, 0].as_slice());
    Ok(())
}

/// A plane of 10 by 2, more columns than a block of eight: the rows 0 to 9 and ten zeros.
#[test]
fn levels_of_eight_columns_and_two(rt: HostRuntime) -> Result<(), NoMemory> {
    let mut plane = Narrow::try_new(rt.alloc(), 10, 2, 0)?;
    assert!(rt; plane.width() == 10);
    assert!(rt; plane.height() == 2);
    plane
        .row_mut(0)
        .copy_from_slice([0, 1, 2, 3, 4, 5, 6, 7, 8, 9].as_slice());
    assert!(rt; plane.width() == 10);
    assert!(rt; plane.height() == 2);
    assert!(rt; plane.values().iter().all(|v| v.unsigned_abs() <= 4095));
    synth_level_narrow(3, &mut plane);
    let row = [-1, 0, 0, 3, 1, 6, 2, 9, 3, 12];
    assert!(rt; plane.height() == 2);
    assert!(rt; plane.row(0) == row.as_slice());
    assert!(rt; plane.row(1) == row.as_slice());
    Ok(())
}
