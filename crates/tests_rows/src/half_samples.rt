ghost use Rattle.std.specs.Prelude.{All, IsTrue};
ghost use Rattle.dirac_upconvert.specs.HalfSamples.{IsSample};

use dirac_common::{NoMemory, Plane};
use dirac_upconvert::{UpPlane, upconvert, upconvert_for};
use std::alloc::Global;
use std::process::Abort;

/// Whether all are samples of 8 bits, less 128.
fn are_samples(values: &[i16]) -> bool
    ensures { IsTrue result → All IsSample values.now }
{
    values.iter().all(|v| *v >= -128 && *v <= 127)
}

/// A plane of these samples, by rows.
fn plane<R: Abort>(
    rt: &R,
    alloc: Global,
    width: u32,
    height: u32,
    samples: &[i16],
) -> Result<Plane, NoMemory> {
    assert!(rt; 1 <= width && width <= 8 && 1 <= height && height <= 8);
    let mut plane = Plane::try_new(alloc, width, height, 0)?;
    let mut place = 0;
    for y in 0..height {
        for x in 0..width {
            assert!(rt; x < plane.width() && y < plane.height() && place < samples.len());
            plane.set(x, y, samples[place]);
            place += 1;
        }
    }
    Ok(plane)
}

/// The half samples of a plane.
fn upconverted<R: Abort>(rt: &R, alloc: Global, plane: &Plane) -> Result<UpPlane, NoMemory> {
    assert!(rt; plane.width() <= 4096 && plane.height() <= 4096);
    assert!(rt; are_samples(plane.values()));
    upconvert(alloc, plane)
}

/// A plane upconverted for vectors of this precision: at precision 0 it holds no half samples.
fn upconverted_for<R: Abort>(
    rt: &R,
    alloc: Global,
    plane: &Plane,
    precision: u8,
) -> Result<UpPlane, NoMemory> {
    assert!(rt; plane.width() <= 4096 && plane.height() <= 4096);
    assert!(rt; are_samples(plane.values()));
    upconvert_for(alloc, plane, precision)
}

/// Compares the values at positions of the half samples of a plane, made and worked out: precision, column, row and
/// value.
fn shows<R: Abort>(
    rt: &R,
    alloc: Global,
    size: (u32, u32),
    samples: &[i16],
    rows: &[(u8, i64, i64, i16)],
) -> Result<(), NoMemory> {
    let (width, height) = size;
    let plane = plane(rt, alloc, width, height, samples)?;
    let up = upconverted(rt, alloc, &plane)?;
    let alone = upconverted_for(rt, alloc, &plane, 0)?;
    for (precision, x, y, wanted) in rows {
        assert!(rt; *precision <= 3 && -1000 < *x && *x < 1000 && -1000 < *y && *y < 1000);
        assert_eq!(rt;
            up.at(*precision, *x, *y),
            *wanted,
            "precision {precision} at {x}, {y}"
        );
        assert_eq!(rt;
            alone.at(*precision, *x, *y),
            *wanted,
            "precision {precision} at {x}, {y}, worked out"
        );
    }
    Ok(())
}

#[test]
fn rows_of_samples(rt: HostRuntime) -> Result<(), NoMemory> {
    let alloc = rt.alloc();
    let rows = [
        (1u8, 0i64, 0i64, 0i16),
        (1, 1, 0, 16),
        (1, 2, 0, 32),
        (2, 1, 0, 8),
    ];
    shows(&rt, alloc, (2, 1), &[0, 32], rows.as_slice())?;
    let rows = [(1u8, 0i64, 0i64, -128i16), (1, 1, 0, 0), (1, 2, 0, 127)];
    shows(&rt, alloc, (2, 1), &[-128, 127], rows.as_slice())?;
    // the middle half sample is 207 before it is clipped
    shows(
        &rt,
        alloc,
        (4, 1),
        &[-128, 127, 127, -128],
        &[(1, 3, 0, 127)],
    )
}

#[test]
fn samples_past_the_edges(rt: HostRuntime) -> Result<(), NoMemory> {
    let row = plane(&rt, rt.alloc(), 2, 1, &[0, 32])?;
    assert_eq!(rt; row.clamped(-3, 9), 0);
    Ok(())
}

#[test]
fn positions_of_three_by_two(rt: HostRuntime) -> Result<(), NoMemory> {
    let alloc = rt.alloc();
    // columns first would give 1
    shows(&rt, alloc, (2, 2), &[1, -1, 2, 2], &[(1, 1, 1, 2)])?;
    let rows = [
        (0u8, -1i64, 5i64, 40i16),
        (1, 1, 1, -17),
        (1, -3, 9, 40),
        (2, 3, 1, -21),
        (2, 5, 2, -19),
        (3, -1, -1, 10),
        (3, 5, 3, -20),
        (3, 9, 7, -37),
        (3, 6, 5, -28),
        (3, 17, 100, 60),
    ];
    shows(
        &rt,
        alloc,
        (3, 2),
        &[10, -20, 30, 40, -50, 60],
        rows.as_slice(),
    )
}

#[test]
fn lines_of_one_row_and_of_three(rt: HostRuntime) -> Result<(), NoMemory> {
    let alloc = rt.alloc();
    let up = upconverted(&rt, alloc, &plane(&rt, alloc, 2, 1, &[0, 32])?)?;
    let lines = up.lines().unwrap_or(&[]);
    // the even columns, then the odd one; the last place is no sample
    assert!(rt; lines.len() == 4);
    assert!(rt; lines[0] == 0 && lines[1] == 32 && lines[2] == 16);
    let up = upconverted(
        &rt,
        alloc,
        &plane(&rt, alloc, 3, 2, &[10, -20, 30, 40, -50, 60])?,
    )?;
    let lines = up.lines().unwrap_or(&[]);
    assert!(rt; lines.len() == 18);
    // of each row, and of the one between them, the even columns and then the odd ones; 0 stands for a last place
    let wanted = [
        10i8, -20, 30, -13, 0, 0, 25, -35, 45, -17, -4, 0, 40, -50, 60, -22, -9, 0,
    ];
    for k in 0..18 {
        assert!(rt; k == 5 || k == 11 || k == 17 || lines[k] == wanted[k]);
    }
    Ok(())
}

// Rows of a plane of eight by three, whose column x of row y is 16 y + x, at places past its edges: each sample is the
// nearest one of the plane.
#[test]
fn whole_samples_past_the_edges(rt: HostRuntime) -> Result<(), NoMemory> {
    let alloc = rt.alloc();
    let samples = [
        0, 1, 2, 3, 4, 5, 6, 7, 16, 17, 18, 19, 20, 21, 22, 23, 32, 33, 34, 35, 36, 37, 38, 39,
    ];
    let plane = plane(&rt, alloc, 8, 3, &samples)?;
    let alone = upconverted_for(&rt, alloc, &plane, 0)?;
    assert!(rt; !alone.has_half_samples() && alone.lines().is_none());
    assert!(rt; upconverted_for(&rt, alloc, &plane, 1)?.has_half_samples());
    // rows of five, of which the first stands above the plane
    let mut rows = [0i16; 20];
    alone.sub_rows(0, -2, -1, 5, &mut rows);
    let wanted = [
        0, 0, 0, 1, 2, 0, 0, 0, 1, 2, 16, 16, 16, 17, 18, 32, 32, 32, 33, 34,
    ];
    assert_eq!(rt; rows, wanted);
    // the last rows, of eight, which lie inside, and one more below
    let mut eights = [0i16; 24];
    alone.sub_rows(0, 0, 1, 8, &mut eights);
    let wanted = [
        16, 17, 18, 19, 20, 21, 22, 23, 32, 33, 34, 35, 36, 37, 38, 39, 32, 33, 34, 35, 36, 37, 38,
        39,
    ];
    assert_eq!(rt; eights, wanted);
    let mut sixteen = [0i16; 16];
    alone.sub_rows(0, -4, 2, 16, &mut sixteen);
    let wanted = [
        32, 32, 32, 32, 32, 33, 34, 35, 36, 37, 38, 39, 39, 39, 39, 39,
    ];
    assert_eq!(rt; sixteen, wanted);
    let mut row = [0i16; 3];
    alone.sub_row(0, 6, 0, &mut row);
    assert_eq!(rt; row, [6, 7, 7]);
    alone.sub_row(0, 6, 0, &mut []);
    let mut four = [0i16; 32];
    alone.sub_eight_by_four(0, 1, 0, &mut four);
    let wanted = [
        1, 2, 3, 4, 5, 6, 7, 7, 17, 18, 19, 20, 21, 22, 23, 23, 33, 34, 35, 36, 37, 38, 39, 39, 33,
        34, 35, 36, 37, 38, 39, 39,
    ];
    assert_eq!(rt; four, wanted);
    Ok(())
}

// Rows at every precision, past all edges: half samples that are made and half samples that are worked out are the same
// ones. `positions_of_three_by_two` has some of their values.
#[test]
fn rows_of_parts_made_and_worked_out(rt: HostRuntime) -> Result<(), NoMemory> {
    let alloc = rt.alloc();
    let plane = plane(&rt, alloc, 3, 2, &[10, -20, 30, 40, -50, 60])?;
    let up = upconverted(&rt, alloc, &plane)?;
    let alone = upconverted_for(&rt, alloc, &plane, 0)?;
    for precision in 0..4u8 {
        for place in 0..25u8 {
            let x = i64::from(place) - 5;
            let mut made = [0i16; 24];
            let mut worked_out = [1i16; 24];
            up.sub_rows(precision, x, 3 - x, 6, &mut made);
            alone.sub_rows(precision, x, 3 - x, 6, &mut worked_out);
            assert_eq!(rt; made, worked_out);
            let mut made = [0i16; 32];
            let mut worked_out = [1i16; 32];
            up.sub_eight_by_four(precision, x, x - 4, &mut made);
            alone.sub_eight_by_four(precision, x, x - 4, &mut worked_out);
            assert_eq!(rt; made, worked_out);
            let mut made = [0i16; 9];
            let mut worked_out = [1i16; 9];
            up.sub_row(precision, x, 1, &mut made);
            alone.sub_row(precision, x, 1, &mut worked_out);
            assert_eq!(rt; made, worked_out);
        }
    }
    Ok(())
}
