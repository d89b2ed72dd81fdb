ghost use Rattle.std.specs.Prelude.{All, IsTrue, IfOk, ◌≡◌, ◌≤◌};
ghost use Rattle.dirac_upconvert.specs.HalfSamples.{IsSample};
ghost use Rattle.dirac_types.specs.Settings.{IsAccepted};
ghost use Rattle.dirac_decide.specs.Deciding.{IsPictureOfSamples, IsSearched};
ghost use Rattle.dirac_decide.specs.Given.{view_of};
ghost use Rattle.dirac_vectors.specs.Predictions.{IsShortVector};

use dirac_blocks::{Block, BlockData};
use dirac_common::{NoMemory, Picture, Plane, Vector};
use dirac_decide::{RefView, decide};
use dirac_search::Field;
use dirac_types::Settings;
use dirac_upconvert::{UpPlane, upconvert};
use std::alloc::Global;
use std::process::Abort;

/// Whether all are samples of 8 bits, less 128.
fn are_samples(values: &[i16]) -> bool
    ensures { IsTrue result → All IsSample values.now }
{
    values.iter().all(|v| *v >= -128 && *v <= 127)
}

/// Whether all are vectors of 16 bits.
fn are_vectors(vectors: &[Vector]) -> bool
    ensures { IsTrue result → All IsShortVector vectors.now }
{
    vectors.iter().all(|v| v.x >= -32768 && v.x <= 32767 && v.y >= -32768 && v.y <= 32767)
}

/// The settings of a picture of one superblock in 4:4:4, with vectors in whole samples.
fn settings_of(bias: u32) -> Settings {
    let mut settings = Settings::of_base(0);
    settings.width = 32;
    settings.height = 32;
    settings.chroma = 0;
    settings.blocks = 2;
    settings.precision = 0;
    settings.bias = bias;
    settings
}

/// A flat plane, but for its first 8 columns of 8 rows.
fn plane_of<R: Abort>(rt: &R, alloc: Global, value: i16, first: i16) -> Result<Plane, NoMemory> {
    let mut plane = Plane::try_new(alloc, 32, 32, value)?;
    for y in 0..8 {
        for x in 0..8 {
            assert!(rt; x < plane.width() && y < plane.height());
            plane.set(x, y, first);
        }
    }
    Ok(plane)
}

/// A picture with this luma and flat chroma.
fn source_of(alloc: Global, y: Plane) -> Result<Picture, NoMemory> {
    Ok(Picture {
        number: 1,
        y,
        u: Plane::try_new(alloc, 32, 32, 0)?,
        v: Plane::try_new(alloc, 32, 32, 0)?,
    })
}

/// The half samples of a flat reference.
fn flat<R: Abort>(rt: &R, alloc: Global, value: i16) -> Result<UpPlane, NoMemory> {
    let plane = Plane::try_new(alloc, 32, 32, value)?;
    assert!(rt; plane.width() <= 4096 && plane.height() <= 4096);
    assert!(rt; are_samples(plane.values()));
    upconvert(alloc, &plane)
}

/// The vectors of one superblock: none moves but the first.
fn field_of<R: Abort>(rt: &R, alloc: Global, first: Vector) -> Result<Field, NoMemory>
    ensures across { IfOk result (λ f. f.across ≡ 1) }
    ensures down { IfOk result (λ f. f.down ≡ 1) }
    ensures vectors { IfOk result (λ f. All IsShortVector f.vectors) }
{
    let mut vectors = vec![in alloc; Vector { x: 0, y: 0 }; 16]?;
    vectors[0] = first;
    assert!(rt; vectors.len() == 16 && are_vectors(vectors.as_slice()));
    Ok(Field::new(1, 1, vectors))
}

/// The blocks that are decided for a picture from two references.
fn decided_by_two(
    alloc: Global,
    source: &Picture,
    settings: &Settings,
    first: RefView<'_>,
    second: RefView<'_>,
) -> Result<BlockData, NoMemory>
    requires settings { IsAccepted settings.now }
    requires source { IsPictureOfSamples source.now }
    requires first { IsSearched settings.now source.now (view_of first) }
    requires second { IsSearched settings.now source.now (view_of second) }
{
    decide(alloc, source, settings, first, Some(second))
}

/// The blocks that are decided for a picture from a reference and from a flat one, in which nothing moves.
fn decided_beside<R: Abort>(
    rt: &R,
    alloc: Global,
    source: &Picture,
    settings: &Settings,
    first: RefView<'_>,
    second: i16,
) -> Result<BlockData, NoMemory>
    requires settings { IsAccepted settings.now }
    requires blocks { settings.now.blocks ≡ 2 }
    requires source { IsPictureOfSamples source.now }
    requires across { source.now.y.width ≡ 32 }
    requires down { source.now.y.height ≡ 32 }
    requires first { IsSearched settings.now source.now (view_of first) }
{
    let other = flat(rt, alloc, second)?;
    let still = field_of(rt, alloc, Vector { x: 0, y: 0 })?;
    let beside = RefView {
        up: &other,
        field: &still,
    };
    decided_by_two(alloc, source, settings, first, beside)
}

/// The blocks that are decided for a picture from one flat reference, or from two.
fn decided<R: Abort>(
    rt: &R,
    alloc: Global,
    source: &Picture,
    bias: u32,
    vector: Vector,
    first: i16,
    second: Option<i16>,
) -> Result<BlockData, NoMemory> {
    let settings = settings_of(bias);
    assert!(rt; settings.check().is_ok() && settings.blocks == 2);
    assert!(rt; source.y.width() == 32 && source.y.height() == 32);
    assert!(rt; are_samples(source.y.values()));
    assert!(rt; are_samples(source.u.values()) && are_samples(source.v.values()));
    let up = flat(rt, alloc, first)?;
    let field = field_of(rt, alloc, vector)?;
    let view = RefView {
        up: &up,
        field: &field,
    };
    let Some(second) = second else {
        return decide(alloc, source, &settings, view, None);
    };
    decided_beside(rt, alloc, source, &settings, view, second)
}

/// A block of these references, vectors or luma value.
fn block(ref1: bool, ref2: bool, v1: Vector, dc_y: i32) -> Block {
    Block {
        ref1,
        ref2,
        v1,
        v2: Vector { x: 0, y: 0 },
        dc_y,
        dc_u: 0,
        dc_v: 0,
    }
}

/// Compares the split of the one superblock, its first block and all others.
fn has<R: Abort>(rt: &R, table: &BlockData, split: u8, first: Block, others: Block) {
    assert!(rt; table.across() == 1 && table.down() == 1);
    assert_eq!(rt; table.split(0, 0), split);
    for j in 0..4 {
        for i in 0..4 {
            let wanted = if i == 0 && j == 0 { first } else { others };
            assert!(rt; table.at(i, j) == wanted, "block {i} of row {j}");
        }
    }
}

/// A source, what it is decided from, and what comes of it: the split, the first block and all others.
#[derive(Clone, Copy)]
struct Row {
    luma: i16,
    corner: i16,
    vector: Vector,
    first: i16,
    second: Option<i16>,
    bias: u32,
    split: u8,
    corner_block: Block,
    others: Block,
}

/// A row without vectors whose blocks are all alike.
fn alike(luma: i16, first: i16, second: Option<i16>, block: Block) -> Row {
    Row {
        luma,
        corner: luma,
        vector: Vector { x: 0, y: 0 },
        first,
        second,
        bias: 4,
        split: 0,
        corner_block: block,
        others: block,
    }
}

#[test]
fn modes_and_splits(rt: HostRuntime) -> Result<(), NoMemory> {
    let alloc = rt.alloc();
    let nowhere = Vector { x: 0, y: 0 };
    let right = Vector { x: 1, y: 0 };
    let from_first = block(true, false, nowhere, 0);
    let rows = [
        // 8 against 32 and 128; DC values would cost 12
        alike(0, 0, None, from_first),
        // 32 against 5,120 + 8
        alike(5, 0, None, block(false, false, nowhere, 5)),
        // 16 against 2,056, 1,032 and 40
        alike(12, 10, Some(13), block(true, true, nowhere, 0)),
        // 1,032, 1,056, and 48 + 15 * 8 = 168
        Row {
            corner: 16,
            split: 2,
            corner_block: block(false, false, nowhere, 16),
            ..alike(0, 0, None, from_first)
        },
        // 8 against 20 for the first vector
        Row {
            vector: right,
            ..alike(0, 0, None, from_first)
        },
        // the first of equal costs
        Row {
            vector: right,
            bias: 0,
            ..alike(0, 0, None, block(true, false, right, 0))
        },
    ];
    for row in rows.as_slice() {
        let source = source_of(alloc, plane_of(&rt, alloc, row.luma, row.corner)?)?;
        let table = decided(
            &rt, alloc, &source, row.bias, row.vector, row.first, row.second,
        )?;
        has(&rt, &table, row.split, row.corner_block, row.others);
    }
    Ok(())
}
