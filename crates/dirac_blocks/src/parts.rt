ghost use Rattle.std.specs.Prelude.{◌≡◌, ◌<◌, None, slice_index_or};
ghost use Rattle.dirac_vectors.specs.Neighbours.{IsShort};
ghost use Rattle.dirac_vectors.specs.Predictions.{IsShortVector};
ghost use Rattle.dirac_blocks.specs.Parts.{component_along, is_there};

use dirac_block_table::Reference;
use dirac_common::{Component, Vector};

/// What one of a table's lists tells of each unit.
#[derive(Clone, Copy)]
pub enum ListKind {
    Modes,
    Across(Reference),
    Down(Reference),
    Dc(Component),
}

/// Along which axis a component of a vector lies.
#[derive(Clone, Copy)]
pub enum Axis {
    Across,
    Down,
}

/// A table's lists in the order of their blocks; the one without a kind is that of the splits.
pub const LISTS: [Option<ListKind>; 9] = [
    None,
    Some(ListKind::Modes),
    Some(ListKind::Across(Reference::First)),
    Some(ListKind::Down(Reference::First)),
    Some(ListKind::Across(Reference::Second)),
    Some(ListKind::Down(Reference::Second)),
    Some(ListKind::Dc(Component::Y)),
    Some(ListKind::Dc(Component::U)),
    Some(ListKind::Dc(Component::V)),
];

/// List `n` of a table. The loops over lists call it, so that the table of lists is proved of once.
pub fn nth_list(n: usize) -> Option<ListKind>
    requires { n < 9 }
    ensures { result ≡ slice_index_or LISTS n None }
{
    LISTS[n]
}

/// Whether a list is there in a table of that many references.
pub fn is_there(list: Option<ListKind>, refs: u8) -> bool
    ensures { result ≡ is_there list refs }
{
    match list {
        Some(ListKind::Across(Reference::Second)) => refs == 2,
        Some(ListKind::Down(Reference::Second)) => refs == 2,
        _ => true,
    }
}

/// A component of a vector.
pub fn component(vector: Vector, axis: Axis) -> i32
    requires { IsShortVector vector }
    ensures value { result ≡ component_along axis vector }
    ensures short { IsShort result }
{
    match axis {
        Axis::Across => vector.x,
        Axis::Down => vector.y,
    }
}
