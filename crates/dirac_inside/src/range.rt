ghost use Rattle.std.specs.Prelude.{◌≡◌, ℤ, pos, ◌*◌, ◌^◌, ◌<◌, ◌≤◌, ◌*ℤ◌, unsigned_abs, int_le, ◌&&◌, true};
ghost use Rattle.dirac_common.specs.declared.formats.Vector.{Vector as TheVector};
ghost use Rattle.dirac_inside.specs.Inside.{vector_times};
ghost use Rattle.dirac_inside.specs.Ranges.{AreBlocks, ArePlaces, HasTheInside, HasThePlanesInside, IsBounded, IsNear};
ghost use Rattle.dirac_inside.specs.Ranges.{IsRange, IsComponentSpan, is_in};

use crate::picture_blocks::PictureBlocks;
use dirac_common::Vector;

/// The vectors between two of each component, with both.
#[derive(Clone, Copy, Debug, PartialEq, Eq)]
pub struct VectorRange {
    pub left: i64,
    pub right: i64,
    pub top: i64,
    pub bottom: i64,
}

impl VectorRange {
    /// All vectors whose components are of 2 to the power 40 at most.
    pub fn all() -> VectorRange
        ensures all { (v : TheVector) → IsBounded v → is_in result v ≡ true }
        ensures range { IsRange result }
    {
        vectors_between(-FARTHEST, FARTHEST, -FARTHEST, FARTHEST)
    }

    /// Whether a vector lies in the range that counts as so many times itself.
    #[inline(always)]
    pub fn has(self, vector: Vector, count: u32) -> bool
        requires range { IsRange self }
        requires vector { IsNear vector }
        requires at_most_256 { count ≤ 256 }
        ensures { result ≡ is_in self (vector_times count vector) }
    {
        let x = multiple(vector.x, count);
        let y = multiple(vector.y, count);
        both(
            is_between(self.left, x, self.right),
            is_between(self.top, y, self.bottom),
        )
    }

    /// The vectors that lie in both ranges.
    pub fn common(self, other: VectorRange) -> VectorRange
        requires range { IsRange self }
        requires other { IsRange other }
        ensures both { (v : TheVector) → is_in result v ≡ (is_in self v && is_in other v) }
        ensures range { IsRange result }
    {
        vectors_between(
            greater(self.left, other.left),
            lesser(self.right, other.right),
            greater(self.top, other.top),
            lesser(self.bottom, other.bottom),
        )
    }
}

/// The greater of two: not above a number just where both aren't.
fn greater(a: i64, b: i64) -> i64
    requires a { unsigned_abs a ≤ 2 ^ 40 }
    requires b { unsigned_abs b ≤ 2 ^ 40 }
    ensures both { (z : ℤ) → int_le result z ≡ (int_le a z && int_le b z) }
    ensures at_most_2_40 { unsigned_abs result ≤ 2 ^ 40 }
{
    if a < b { b } else { a }
}

/// The lesser of two: not below a number just where both aren't.
fn lesser(a: i64, b: i64) -> i64
    requires a { unsigned_abs a ≤ 2 ^ 40 }
    requires b { unsigned_abs b ≤ 2 ^ 40 }
    ensures both { (z : ℤ) → int_le z result ≡ (int_le z a && int_le z b) }
    ensures at_most_2_40 { unsigned_abs result ≤ 2 ^ 40 }
{
    if a < b { a } else { b }
}

/// The vectors between these components.
fn vectors_between(left: i64, right: i64, top: i64, bottom: i64) -> VectorRange
    ensures left { result.left ≡ left }
    ensures right { result.right ≡ right }
    ensures top { result.top ≡ top }
    ensures bottom { result.bottom ≡ bottom }
{
    VectorRange {
        left,
        right,
        top,
        bottom,
    }
}

/// Whether both hold.
#[inline(always)]
fn both(a: bool, b: bool) -> bool
    ensures { result ≡ (a && b) }
{
    a && b
}

/// Whether a component lies between two others.
#[inline(always)]
fn is_between(least: i64, component: i64, most: i64) -> bool
    ensures { result ≡ (int_le least component && int_le component most) }
{
    least <= component && component <= most
}

/// So many times a component.
#[inline(always)]
fn multiple(component: i32, count: u32) -> i64
    requires component { unsigned_abs component ≤ 2 ^ 24 }
    requires count { count ≤ 256 }
    ensures value { result ≡ pos count *ℤ component }
    ensures at_most_2_32 { unsigned_abs result ≤ 2 ^ 32 }
{
    i64::from(count) * i64::from(component)
}

/// The places of a block along a direction of a plane: those from `first` to `end` - 1.
#[derive(Clone, Copy)]
struct Places {
    first: u64,
    end: u64,
}

fn places_of(block: u32, length: u32, separation: u32, size: u32) -> Places
    requires block { block < 4096 }
    requires separation { separation ≤ 16 }
    ensures places { ArePlaces block length separation size result.first result.end }
    ensures at_most_65536 { result.first ≤ 65536 }
    ensures inside { result.end ≤ size }
{
    let start = u64::from(block * separation);
    let margin = u64::from(length.saturating_sub(separation) / 2);
    Places {
        first: start.saturating_sub(margin),
        end: (start + (u64::from(length) - margin)).min(u64::from(size)),
    }
}

/// How many parts a sample has.
fn parts(precision: u8) -> u32
    requires { precision ≤ 3 }
    ensures value { result ≡ 2 ^ precision }
    ensures at_most_8 { result ≤ 8 }
{
    match precision {
        0 => 1,
        1 => 2,
        2 => 4,
        _ => 8,
    }
}

/// How far a component may lead: from `least` to `most`.
#[derive(Clone, Copy)]
struct Span {
    least: i64,
    most: i64,
}

fn scaled(count: u64, scale: u32) -> i64
    requires count { count ≤ 2 ^ 32 }
    requires scale { scale ≤ 16 }
    ensures value { result ≡ pos (count * scale) }
    ensures at_most_2_36 { unsigned_abs result ≤ 2 ^ 36 }
{
    count as i64 * i64::from(scale)
}

/// How far a component may lead from these places of a plane, each sample of which stands for `ratio` of luma.
fn span_of(places: Places, size: u32, ratio: u32, precision: u8) -> Span
    requires first { places.first ≤ 65536 }
    requires end { places.end ≤ size }
    requires ratio { (1 ≤ ratio) × (ratio ≤ 2) }
    requires precision { precision ≤ 3 }
    ensures span { IsComponentSpan precision ratio size places.first places.end result.least result.most }
    ensures at_most_2_40 { (unsigned_abs result.least ≤ 2 ^ 40) × (unsigned_abs result.most ≤ 2 ^ 40) }
{
    let scale = parts(precision) * ratio;
    Span {
        least: -scaled(places.first, scale),
        most: scaled(u64::from(size) - places.end, scale) + i64::from(ratio - 1),
    }
}

/// What no component is beyond.
const FARTHEST: i64 = 1 << 40;

/// The vectors that take nothing outside from block `i` of row `j`, in a plane whose samples stand for so many luma
/// samples across and down.
fn plane_range(
    blocks: PictureBlocks,
    across: u32,
    down: u32,
    precision: u8,
    i: u32,
    j: u32,
) -> VectorRange
    requires blocks { AreBlocks blocks }
    requires across { (1 ≤ across) × (across ≤ 2) }
    requires down { (1 ≤ down) × (down ≤ 2) }
    requires precision { precision ≤ 3 }
    requires column { i < 4096 }
    requires row { j < 4096 }
    ensures inside { HasThePlanesInside blocks across down precision i j result }
    ensures range { IsRange result }
{
    let width = blocks.width / across;
    let height = blocks.height / down;
    let columns = places_of(
        i,
        blocks.grid.xblen / across,
        blocks.grid.xbsep / across,
        width,
    );
    let rows = places_of(
        j,
        blocks.grid.yblen / down,
        blocks.grid.ybsep / down,
        height,
    );
    if columns.first < columns.end && rows.first < rows.end {
        let columns = span_of(columns, width, across, precision);
        let rows = span_of(rows, height, down, precision);
        vectors_between(columns.least, columns.most, rows.least, rows.most)
    } else {
        VectorRange::all()
    }
}

/// The vectors in 2 to the power `precision` parts of a luma sample that lead from block `i` of row `j` to samples of
/// the reference alone, and to half samples between them, in luma and in chroma. A block that has no sample in a plane
/// asks nothing there.
pub fn inside_range(blocks: PictureBlocks, precision: u8, i: u32, j: u32) -> VectorRange
    requires blocks { AreBlocks blocks }
    requires precision { precision ≤ 3 }
    requires column { i < 4096 }
    requires row { j < 4096 }
    ensures inside { HasTheInside blocks precision i j result }
    ensures range { IsRange result }
{
    let luma = plane_range(blocks, 1, 1, precision, i, j);
    let across = blocks.across_ratio;
    let down = blocks.down_ratio;
    let chroma = plane_range(blocks, across, down, precision, i, j);
    luma.common(chroma)
}
