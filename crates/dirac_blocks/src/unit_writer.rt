ghost use Rattle.std.specs.Prelude.{◌≡◌, ◌*◌, ◌<◌, OnOk};
ghost use Rattle.dirac_arith.specs.Interval.{narrowed_by};
ghost use Rattle.dirac_blocks.specs.Decisions.{differ, mode_part};
ghost use Rattle.dirac_blocks.specs.Parts.{component_list, part_at};

use crate::parts::{Axis, ListKind, component};
use dirac_arith::{
    DC_DIGITS, DC_FOLLOW, DC_SIGN, Encoder, REFERENCE_1, REFERENCE_2, VECTOR_DIGITS, VECTOR_FOLLOW,
    VECTOR_SIGN,
};
use dirac_block_table::{
    BlockData, Reference, dc, predicted_dc, predicted_use_bit, predicted_vector, vector,
};
use dirac_common::{Component, NoMemory};

/// Whether two bits differ.
pub fn differs(a: bool, b: bool) -> bool
    ensures { result ≡ differ a b }
{
    match a {
        true => !b,
        false => b,
    }
}

/// Writes which references a unit uses, by its first block.
fn write_modes(encoder: &mut Encoder, table: &BlockData, i: u32, j: u32) -> Result<(), NoMemory>
    requires column { i < 4 * table.now.across }
    requires row { j < 4 * table.now.down }
    ensures { OnOk result (encoder.new ≡ narrowed_by encoder.old (mode_part table.now i j)) }
{
    let block = table.at(i, j);
    let first = predicted_use_bit(table, Reference::First, i, j);
    match encoder.decision(REFERENCE_1, differs(block.ref1, first)) {
        Ok(()) => {
            if table.refs() != 2 {
                return Ok(());
            }
            let second = predicted_use_bit(table, Reference::Second, i, j);
            encoder.decision(REFERENCE_2, differs(block.ref2, second))
        }
        Err(e) => Err(e),
    }
}

/// Writes a component of a unit's vector less its prediction, by its first block.
fn write_vector(
    encoder: &mut Encoder,
    table: &BlockData,
    axis: Axis,
    reference: Reference,
    i: u32,
    j: u32,
) -> Result<(), NoMemory>
    requires column { i < 4 * table.now.across }
    requires row { j < 4 * table.now.down }
    ensures { OnOk result (encoder.new ≡ narrowed_by encoder.old
        (part_at (component_list axis reference) table.now i j)) }
{
    let prediction = component(predicted_vector(table, reference, i, j), axis);
    match vector(table, reference, i, j) {
        None => Ok(()),
        Some(v) => {
            let difference = i64::from(component(v, axis)) - i64::from(prediction);
            encoder.signed(&VECTOR_FOLLOW, VECTOR_DIGITS, VECTOR_SIGN, difference)
        }
    }
}

/// Writes a DC value of a unit less its prediction, by its first block.
fn write_dc(
    encoder: &mut Encoder,
    table: &BlockData,
    component: Component,
    i: u32,
    j: u32,
) -> Result<(), NoMemory>
    requires column { i < 4 * table.now.across }
    requires row { j < 4 * table.now.down }
    ensures { OnOk result (encoder.new ≡ narrowed_by encoder.old (part_at (ListKind.Dc component) table.now i j)) }
{
    let prediction = predicted_dc(table, component, i, j);
    match dc(table, component, i, j) {
        None => Ok(()),
        Some(value) => {
            let difference = i64::from(value) - i64::from(prediction);
            encoder.signed(&DC_FOLLOW, DC_DIGITS, DC_SIGN, difference)
        }
    }
}

/// Writes what this list tells of a unit, by its first block.
pub fn write_unit(
    encoder: &mut Encoder,
    table: &BlockData,
    part: ListKind,
    i: u32,
    j: u32,
) -> Result<(), NoMemory>
    requires column { i < 4 * table.now.across }
    requires row { j < 4 * table.now.down }
    ensures { OnOk result (encoder.new ≡ narrowed_by encoder.old (part_at part table.now i j)) }
{
    match part {
        ListKind::Modes => write_modes(encoder, table, i, j),
        ListKind::Across(reference) => {
            write_vector(encoder, table, Axis::Across, reference, i, j)
        }
        ListKind::Down(reference) => write_vector(encoder, table, Axis::Down, reference, i, j),
        ListKind::Dc(component) => write_dc(encoder, table, component, i, j),
    }
}
