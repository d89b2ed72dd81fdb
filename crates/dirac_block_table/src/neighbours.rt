ghost use Rattle.std.specs.Prelude.{Some, ◌≡◌, ◌*◌, ◌<◌, ◌≤◌};
ghost use Rattle.std.specs.Option.{ForSome};
ghost use Rattle.dirac_vectors.specs.Neighbours.{IsShort};
ghost use Rattle.dirac_vectors.specs.Predictions.{IsShortVector, split_of, mode_of, vector_of, dc_of};
ghost use Rattle.dirac_block_table.specs.Neighbours.{near_at, predicted, predicted_split};
ghost use Rattle.dirac_block_table.specs.Neighbours.{use_at, vector_at, dc_at};
ghost use Rattle.dirac_block_table.specs.Tables.{split_at};

use crate::reference::Reference;
use crate::table::BlockData;
use dirac_common::{Component, Vector};
use dirac_vectors::{predict_dc, predict_mode, predict_split, predict_vector};

/// Whether the reference is used of block `i` of row `j`.
pub fn use_bit(table: &BlockData, reference: Reference, i: u32, j: u32) -> Option<bool>
    requires column { i < 4 * table.now.across }
    requires row { j < 4 * table.now.down }
    ensures value { result ≡ use_at reference table.now i j }
{
    let block = table.at(i, j);
    match reference {
        Reference::First => Some(block.ref1),
        Reference::Second => Some(block.ref2),
    }
}

/// Whether the reference is used so many blocks left and above of block `i` of row `j`; None outside the picture.
fn near_use_bit(
    table: &BlockData,
    reference: Reference,
    i: u32,
    j: u32,
    left: u32,
    up: u32,
) -> Option<bool>
    requires column { i < 4 * table.now.across }
    requires row { j < 4 * table.now.down }
    ensures value { result ≡ near_at (use_at reference table.now) i j left up }
{
    if i < left {
        return None;
    }
    if j < up {
        return None;
    }
    use_bit(table, reference, i - left, j - up)
}

/// What the neighbours of block `i` of row `j` predict.
pub fn predicted_use_bit(table: &BlockData, reference: Reference, i: u32, j: u32) -> bool
    requires column { i < 4 * table.now.across }
    requires row { j < 4 * table.now.down }
    ensures value { result ≡ predicted mode_of (use_at reference table.now) i j }
{
    let left = near_use_bit(table, reference, i, j, 1, 0);
    let above = near_use_bit(table, reference, i, j, 0, 1);
    let corner = near_use_bit(table, reference, i, j, 1, 1);
    predict_mode(left, above, corner)
}

/// The vector of block `i` of row `j`.
pub fn vector(table: &BlockData, reference: Reference, i: u32, j: u32) -> Option<Vector>
    requires column { i < 4 * table.now.across }
    requires row { j < 4 * table.now.down }
    ensures value { result ≡ vector_at reference table.now i j }
    ensures short { ForSome result IsShortVector }
{
    let block = table.at(i, j);
    match reference {
        Reference::First => { if block.ref1 { Some(block.v1) } else { None } }
        Reference::Second => { if block.ref2 { Some(block.v2) } else { None } }
    }
}

/// The vector so many blocks left and above of block `i` of row `j`; None outside the picture.
fn near_vector(
    table: &BlockData,
    reference: Reference,
    i: u32,
    j: u32,
    left: u32,
    up: u32,
) -> Option<Vector>
    requires column { i < 4 * table.now.across }
    requires row { j < 4 * table.now.down }
    ensures value { result ≡ near_at (vector_at reference table.now) i j left up }
    ensures short { ForSome result IsShortVector }
{
    if i < left {
        return None;
    }
    if j < up {
        return None;
    }
    vector(table, reference, i - left, j - up)
}

/// What the neighbours of block `i` of row `j` predict.
pub fn predicted_vector(table: &BlockData, reference: Reference, i: u32, j: u32) -> Vector
    requires column { i < 4 * table.now.across }
    requires row { j < 4 * table.now.down }
    ensures value { result ≡ predicted vector_of (vector_at reference table.now) i j }
    ensures short { IsShortVector result }
{
    let left = near_vector(table, reference, i, j, 1, 0);
    let above = near_vector(table, reference, i, j, 0, 1);
    let corner = near_vector(table, reference, i, j, 1, 1);
    predict_vector(left, above, corner)
}

/// The DC value of block `i` of row `j`.
pub fn dc(table: &BlockData, component: Component, i: u32, j: u32) -> Option<i32>
    requires column { i < 4 * table.now.across }
    requires row { j < 4 * table.now.down }
    ensures value { result ≡ dc_at component table.now i j }
    ensures short { ForSome result IsShort }
{
    let block = table.at(i, j);
    if block.ref1 || block.ref2 {
        return None;
    }
    match component {
        Component::Y => Some(block.dc_y),
        Component::U => Some(block.dc_u),
        Component::V => Some(block.dc_v),
    }
}

/// The DC value so many blocks left and above of block `i` of row `j`; None outside the picture.
fn near_dc(
    table: &BlockData,
    component: Component,
    i: u32,
    j: u32,
    left: u32,
    up: u32,
) -> Option<i32>
    requires column { i < 4 * table.now.across }
    requires row { j < 4 * table.now.down }
    ensures value { result ≡ near_at (dc_at component table.now) i j left up }
    ensures short { ForSome result IsShort }
{
    if i < left {
        return None;
    }
    if j < up {
        return None;
    }
    dc(table, component, i - left, j - up)
}

/// What the neighbours of block `i` of row `j` predict.
pub fn predicted_dc(table: &BlockData, component: Component, i: u32, j: u32) -> i32
    requires column { i < 4 * table.now.across }
    requires row { j < 4 * table.now.down }
    ensures value { result ≡ predicted dc_of (dc_at component table.now) i j }
    ensures short { IsShort result }
{
    let left = near_dc(table, component, i, j, 1, 0);
    let above = near_dc(table, component, i, j, 0, 1);
    let corner = near_dc(table, component, i, j, 1, 1);
    predict_dc(left, above, corner)
}

/// The split so many superblocks left and above of superblock `sx` of row `sy`; None outside the picture.
fn near_split(table: &BlockData, sx: u32, sy: u32, left: u32, up: u32) -> Option<u8>
    requires column { sx < table.now.across }
    requires row { sy < table.now.down }
    ensures value { result ≡ near_at (λ x y. Some (split_at table.now x y)) sx sy left up }
    ensures at_most_2 { ForSome result (λ s. s ≤ 2) }
{
    if sx < left {
        return None;
    }
    if sy < up {
        return None;
    }
    Some(table.split(sx - left, sy - up))
}

/// The split that the neighbours of superblock `sx` of row `sy` predict.
pub fn predict_split_at(table: &BlockData, sx: u32, sy: u32) -> u8
    requires column { sx < table.now.across }
    requires row { sy < table.now.down }
    ensures value { result ≡ predicted_split table.now sx sy }
    ensures at_most_2 { result ≤ 2 }
{
    let left = near_split(table, sx, sy, 1, 0);
    let above = near_split(table, sx, sy, 0, 1);
    let corner = near_split(table, sx, sy, 1, 1);
    predict_split(left, above, corner)
}
