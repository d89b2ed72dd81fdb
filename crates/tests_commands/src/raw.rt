use std::alloc::Global;
use std::test::Fail;

// Appends a row of samples that rise from this one on, with noise in their lowest bits.
fn push_row(bytes: &mut Vec<u8>, first: u32, width: u32) -> Result<(), Fail> {
    for x in 0..width {
        let noise = x.wrapping_mul(x).wrapping_mul(7) / 13 % 16;
        let value = first.wrapping_add(x.wrapping_mul(2)).wrapping_add(noise) / 4;
        bytes.push((value % 256) as u8)?;
    }
    Ok(())
}

/// Raw pictures of that many bytes together: rows of this width, each of which is a little brighter than the one above
/// it and the one in its place in the picture before.
pub fn moving(alloc: Global, width: u32, rows: u32, pictures: u32) -> Result<Vec<u8>, Fail> {
    let mut bytes = Vec::new(alloc);
    for number in 0..pictures {
        for y in 0..rows {
            let first = y.wrapping_mul(3).wrapping_add(number.wrapping_mul(5));
            push_row(&mut bytes, first, width)?;
        }
    }
    Ok(bytes)
}
