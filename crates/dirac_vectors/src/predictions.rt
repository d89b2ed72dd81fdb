ghost use Rattle.std.specs.Prelude.{◌≡◌, ◌≤◌};
ghost use Rattle.std.specs.Option.{ForSome};
ghost use Rattle.dirac_vectors.specs.Neighbours.{IsShort};
ghost use Rattle.dirac_vectors.specs.OfThree.{word_of};
ghost use Rattle.dirac_vectors.specs.Predictions.{IsShortVector, split_of, mode_of, component_of, vector_of, dc_of};

use crate::neighbours::{half_of, majority_of, median_of, third_of};
use dirac_common::Vector;

/// The split of a superblock, from those of its neighbours to the left, above, and above and left;
/// None is outside the picture (split prediction, Dirac specification).
pub fn predict_split(left: Option<u8>, above: Option<u8>, corner: Option<u8>) -> u8
    requires left { ForSome left (λ s. s ≤ 2) }
    requires above { ForSome above (λ s. s ≤ 2) }
    requires corner { ForSome corner (λ s. s ≤ 2) }
    ensures value { result ≡ split_of left above corner }
    ensures at_most_2 { result ≤ 2 }
{
    match (left, above, corner) {
        (None, None, _) => 0,
        (Some(left), None, _) => left,
        (None, Some(above), _) => above,
        (Some(_), Some(_), None) => 0,
        (Some(left), Some(above), Some(corner)) => (left + above + corner + 1) / 3,
    }
}

/// One bit of a block's prediction mode, from those of its neighbours to the left, above, and above and left;
/// None is outside the picture (block mode prediction, Dirac specification).
pub fn predict_mode(left: Option<bool>, above: Option<bool>, corner: Option<bool>) -> bool
    ensures { result ≡ mode_of left above corner }
{
    match (left, above, corner) {
        (None, None, _) => false,
        (Some(left), None, _) => left,
        (None, Some(above), _) => above,
        (Some(_), Some(_), None) => false,
        (Some(left), Some(above), Some(corner)) => majority_of(left, above, corner),
    }
}

/// What three neighbouring values predict.
#[derive(Clone, Copy)]
enum OfThree {
    Median,
    Mean,
}

/// What these three values predict.
fn of_three(word: OfThree, a: i32, b: i32, c: i32) -> i32
    requires a { IsShort a }
    requires b { IsShort b }
    requires c { IsShort c }
    ensures value { result ≡ word_of word a b c }
    ensures short { IsShort result }
{
    match word {
        OfThree::Median => median_of(a, b, c),
        OfThree::Mean => third_of(a, b, c),
    }
}

/// A value from those of its neighbours that count.
fn of_neighbours(word: OfThree, left: Option<i32>, above: Option<i32>, corner: Option<i32>) -> i32
    requires left { ForSome left IsShort }
    requires above { ForSome above IsShort }
    requires corner { ForSome corner IsShort }
    ensures value { result ≡ Rattle.dirac_vectors.specs.Predictions.of_neighbours (word_of word) left above corner }
    ensures short { IsShort result }
{
    match (left, above, corner) {
        (None, None, None) => 0,
        (Some(left), None, None) => left,
        (None, Some(above), None) => above,
        (None, None, Some(corner)) => corner,
        (Some(left), Some(above), None) => half_of(left, above),
        (Some(left), None, Some(corner)) => half_of(left, corner),
        (None, Some(above), Some(corner)) => half_of(above, corner),
        (Some(left), Some(above), Some(corner)) => of_three(word, left, above, corner),
    }
}

/// One component of a vector from those of its neighbours.
fn predict_component(left: Option<i32>, above: Option<i32>, corner: Option<i32>) -> i32
    requires left { ForSome left IsShort }
    requires above { ForSome above IsShort }
    requires corner { ForSome corner IsShort }
    ensures value { result ≡ component_of left above corner }
    ensures short { IsShort result }
{
    of_neighbours(OfThree::Median, left, above, corner)
}

/// The vector of a block, from those of its neighbours to the left, above, and above and left;
/// None is outside the picture or doesn't use this reference (motion vector prediction, Dirac specification).
pub fn predict_vector(left: Option<Vector>, above: Option<Vector>, corner: Option<Vector>) -> Vector
    requires left { ForSome left IsShortVector }
    requires above { ForSome above IsShortVector }
    requires corner { ForSome corner IsShortVector }
    ensures value { result ≡ vector_of left above corner }
    ensures short { IsShortVector result }
{
    Vector {
        x: predict_component(left.map(|v| v.x), above.map(|v| v.x), corner.map(|v| v.x)),
        y: predict_component(left.map(|v| v.y), above.map(|v| v.y), corner.map(|v| v.y)),
    }
}

/// The DC value of a block, from those of its neighbours to the left, above, and above and left;
/// None is outside the picture or no DC block (DC value prediction, Dirac specification).
pub fn predict_dc(left: Option<i32>, above: Option<i32>, corner: Option<i32>) -> i32
    requires left { ForSome left IsShort }
    requires above { ForSome above IsShort }
    requires corner { ForSome corner IsShort }
    ensures value { result ≡ dc_of left above corner }
    ensures short { IsShort result }
{
    of_neighbours(OfThree::Mean, left, above, corner)
}
