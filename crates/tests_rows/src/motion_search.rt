ghost use Rattle.std.specs.Prelude.{◌≡◌, ◌+◌, ◌≤◌, All, IsTrue, IfOk, length};
ghost use Rattle.dirac_upconvert.specs.HalfSamples.{IsSample};

use dirac_common::{BlockGrid, NoMemory, OpenGate, Plane, Vector};
use dirac_pyramid::Pyramid;
use dirac_search::{Field, Search, Stage, best, candidates, cost, search_field};
use dirac_types::Settings;
use dirac_upconvert::{UpPlane, upconvert};
use std::alloc::Global;
use std::marker::Sync;
use std::process::Abort;
use std::thread::Threads;

/// Whether all are samples of 8 bits, less 128.
fn are_samples(values: &[i16]) -> bool
    ensures { IsTrue result → All IsSample values.now }
{
    values.iter().all(|v| *v >= -128 && *v <= 127)
}

/// A plane of a texture that goes on beyond it, from a column and a row on.
fn texture<R: Abort>(
    rt: &R,
    alloc: Global,
    width: u32,
    height: u32,
    from: (u32, u32),
) -> Result<Plane, NoMemory> {
    let (across, down) = from;
    assert!(rt; 1 <= width && width <= 32 && 1 <= height && height <= 32);
    assert!(rt; across <= 8 && down <= 8);
    let mut plane = Plane::try_new(alloc, width, height, 0)?;
    for y in 0..height {
        for x in 0..width {
            assert!(rt; x < plane.width() && y < plane.height());
            let (column, row) = (x + across, y + down);
            let value = (7 * column + 13 * row + 3 * column * row) % 61;
            plane.set(x, y, value as i16 - 30);
        }
    }
    Ok(plane)
}

/// The half samples of a plane.
fn upconverted<R: Abort>(rt: &R, alloc: Global, plane: &Plane) -> Result<UpPlane, NoMemory> {
    assert!(rt; plane.width() <= 4096 && plane.height() <= 4096);
    assert!(rt; are_samples(plane.values()));
    upconvert(alloc, plane)
}

/// The pyramid of a plane.
fn pyramid<R: Abort>(rt: &R, alloc: Global, plane: &Plane, levels: u8) -> Result<Pyramid, NoMemory>
    ensures { IfOk result (λ p. length p ≡ levels + 1) }
{
    assert!(rt; levels <= 4 && plane.width() <= 8192 && plane.height() <= 8192);
    Pyramid::build(alloc, plane, levels)
}

/// A field of a texture, searched in itself from another column and row on: the vectors by rows, each as its components
/// across and down.
#[derive(Clone, Copy)]
struct Case<'a> {
    size: (u32, u32),
    from: (u32, u32),
    superblocks: (u32, u32),
    levels: u8,
    settings: Settings,
    vectors: &'a [i32],
}

/// Settings of one worker for a search of blocks of 4 by 4 samples.
fn settings(levels: u8, precision: u32, range: u32, bias: u32) -> Settings
    ensures pyramid { result.pyramid ≡ levels }
    ensures precision { result.precision ≡ precision }
    ensures range { result.range ≡ range }
    ensures bias { result.bias ≡ bias }
    ensures workers { result.workers ≡ 1 }
{
    let mut settings = Settings::of_base(0);
    settings.pyramid = u32::from(levels);
    settings.precision = precision;
    settings.range = range;
    settings.bias = bias;
    settings.workers = 1;
    settings
}

/// Blocks of 4 by 4 samples.
fn grid() -> BlockGrid
    ensures { (result.xbsep ≡ 4) × (result.ybsep ≡ 4) }
{
    BlockGrid {
        xblen: 8,
        yblen: 8,
        xbsep: 4,
        ybsep: 4,
    }
}

/// The field of a search in one worker, from pyramids of these levels.
fn searched<R: Abort + Threads + Sync>(
    rt: &R,
    alloc: Global,
    source: &Pyramid,
    reference: &Pyramid,
    up: &UpPlane,
    superblocks: (u32, u32),
    settings: &Settings,
) -> Result<Field, NoMemory>
    requires source { length source.now ≡ settings.now.pyramid + 1 }
    requires reference { length reference.now ≡ settings.now.pyramid + 1 }
    requires workers { settings.now.workers ≡ 1 }
{
    let (across, down) = superblocks;
    assert!(rt; settings.pyramid <= 4);
    assert!(rt; settings.precision <= 3);
    assert!(rt; settings.range <= 16);
    assert!(rt; settings.bias <= 255);
    assert!(rt; across <= 1024);
    assert!(rt; down <= 1024);
    let search = Search {
        source,
        reference,
        up,
        grid: grid(),
        across,
        down,
    };
    search_field(rt, alloc, &search, settings, &OpenGate)
}

/// The vectors of a field by rows, each as its components across and down.
fn vectors_of(alloc: Global, field: &Field) -> Result<Vec<i32>, NoMemory> {
    let (across, down) = (4 * field.across(), 4 * field.down());
    let mut vectors = Vec::new(alloc);
    for j in 0..down {
        for i in 0..across {
            let vector = field.at(i, j);
            vectors.push(vector.x)?;
            vectors.push(vector.y)?;
        }
    }
    Ok(vectors)
}

/// The field of a case, of a source's pyramid in the plane of its reference.
fn found<R: Abort + Threads + Sync>(
    rt: &R,
    alloc: Global,
    case: &Case<'_>,
    source: &Pyramid,
    moved: &Plane,
) -> Result<Field, NoMemory>
    requires levels { case.now.settings.pyramid ≡ case.now.levels }
    requires workers { case.now.settings.workers ≡ 1 }
    requires source { length source.now ≡ case.now.levels + 1 }
{
    let reference = pyramid(rt, alloc, moved, case.levels)?;
    let up = upconverted(rt, alloc, moved)?;
    searched(
        rt,
        alloc,
        source,
        &reference,
        &up,
        case.superblocks,
        &case.settings,
    )
}

/// Compares a field with what the other program found.
fn shows<R: Abort + Threads + Sync>(rt: &R, alloc: Global, case: &Case<'_>) -> Result<(), NoMemory>
    requires levels { case.now.settings.pyramid ≡ case.now.levels }
    requires workers { case.now.settings.workers ≡ 1 }
{
    let (width, height) = case.size;
    let plane = texture(rt, alloc, width, height, (0, 0))?;
    let source = pyramid(rt, alloc, &plane, case.levels)?;
    let moved = texture(rt, alloc, width, height, case.from)?;
    let field = found(rt, alloc, case, &source, &moved)?;
    assert_eq!(rt; vectors_of(alloc, &field)?.as_slice(), case.vectors);
    Ok(())
}

#[test]
fn fields_of_another_program(rt: HostRuntime) -> Result<(), NoMemory> {
    let large = [
        0, -5, 2, -1, 0, 5, 5, 1, -12, -6, 0, -6, 0, 4, 0, 4, -2, -6, -4, 0, 0, -4, 0, -8, -12, -7,
        -8, 0, 0, 0, 0, 0, 2, -2, 0, -11, -16, -4, -15, 0, -12, -7, -11, -7, 0, 4, 0, 4, -3, -4,
        -1, -5, -12, -8, -12, -8, -12, -8, 0, -1, 0, -2, 0, -2, 4, 2, -12, -8, -12, -8, -12, -8,
        -12, -8, -12, -8, 0, 2, 0, 2, 4, 0, 15, 0, 6, 0, -3, 0, -20, 0, 4, 0, 0, 0, 0, 0, 4, 0, 15,
        0, 6, 0, -3, 0, -20, 0, 4, 0, 0, 0, 0, 0, 4, 0, 15, 0, 6, 0, -3, 0, -20, 0, 4, 0, 0, 0, 0,
        0,
    ];
    let narrow = [
        -2, 0, -4, -1, -5, -3, 0, -10, -2, -5, -4, 0, 0, 0, 0, 0, -2, 0, -4, 0, 0, 0, 0, 0, -2, 0,
        -4, 0, 0, 0, 0, 0,
    ];
    shows(
        &rt,
        rt.alloc(),
        &Case {
            size: (24, 20),
            from: (3, 2),
            superblocks: (2, 2),
            levels: 2,
            settings: settings(2, 2, 3, 4),
            vectors: &large,
        },
    )?;
    shows(
        &rt,
        rt.alloc(),
        &Case {
            size: (5, 3),
            from: (1, 0),
            superblocks: (1, 1),
            levels: 1,
            settings: settings(1, 1, 2, 1),
            vectors: &narrow,
        },
    )
}

#[test]
fn level_above_a_row(rt: HostRuntime) -> Result<(), NoMemory> {
    let mut plane = Plane::try_new(rt.alloc(), 3, 1, 1)?;
    plane.set(1, 0, 2);
    plane.set(2, 0, 5);
    let levels = pyramid(&rt, rt.alloc(), &plane, 1)?;
    let level = levels.level(1);
    assert!(rt; level.height() == 1);
    assert_eq!(rt; level.row(0), [2, 5].as_slice());
    Ok(())
}

/// The costs of the first block, moved by a column and still, of planes that are searched in themselves.
fn costs(levels: &Pyramid, up: &UpPlane, bias: u32) -> [u64; 2]
    requires levels { length levels.now ≡ 1 }
    requires bias { bias ≤ 255 }
{
    let search = Search {
        source: levels,
        reference: levels,
        up,
        grid: grid(),
        across: 1,
        down: 1,
    };
    let settings = settings(0, 0, 1, bias);
    let still = Vector { x: 0, y: 0 };
    let moved = Vector { x: 1, y: 0 };
    [
        cost(&search, Stage::Coarse(0), &settings, 0, 0, moved),
        cost(&search, Stage::Coarse(0), &settings, 0, 0, still),
    ]
}

/// Compares the number of candidates of the first block, and which one is chosen where all cost the same.
fn chooses<R: Abort>(rt: &R, alloc: Global, levels: &Pyramid, up: &UpPlane) -> Result<(), NoMemory>
    requires levels { length levels.now ≡ 1 }
{
    let search = Search {
        source: levels,
        reference: levels,
        up,
        grid: grid(),
        across: 1,
        down: 1,
    };
    let settings = settings(0, 0, 1, 0);
    let list = candidates(alloc, Stage::Coarse(0), &settings, None, 0, 0)?;
    assert_eq!(rt; list.len(), 10);
    let found = best(alloc, &search, Stage::Coarse(0), &settings, None, 0, 0)?;
    assert_eq!(rt; (found.x, found.y), (0, 0));
    Ok(())
}

#[test]
fn costs_of_constant_planes(rt: HostRuntime) -> Result<(), NoMemory> {
    let alloc = rt.alloc();
    let plane = Plane::try_new(alloc, 4, 4, 5)?;
    let levels = pyramid(&rt, alloc, &plane, 0)?;
    let up = upconverted(&rt, alloc, &plane)?;
    assert_eq!(rt; costs(&levels, &up, 4), [20, 8]);
    assert_eq!(rt; costs(&levels, &up, 0), [0, 0]);
    chooses(&rt, alloc, &levels, &up)
}
