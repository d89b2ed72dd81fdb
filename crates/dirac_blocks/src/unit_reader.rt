ghost use Rattle.std.specs.Prelude.{◌≡◌, ℤ, ◌+◌, ◌*◌, ◌<◌, ◌≤◌, ◌^◌, true, length, IfOk};
ghost use Rattle.dirac_arith.specs.Deciding.{GivesReading};
ghost use Rattle.dirac_arith.specs.Spelling.{AreContexts};
ghost use Rattle.dirac_vectors.specs.Neighbours.{IsShort};
ghost use Rattle.dirac_arith.specs.Coded.{read_coded};
ghost use Rattle.dirac_blocks.specs.Grammar.{block_using, is_dc, has_16_bits, mode_coded};
ghost use Rattle.dirac_blocks.specs.Grammar.{unit_coded, uses, value_coded, with_component, with_dc};
ghost use Rattle.dirac_blocks.specs.Parts.{component_list};
ghost use Rattle.dirac_block_table.specs.Tables.{IsBlock};

use crate::parts::{Axis, ListKind, component};
use crate::unit_writer::differs;
use dirac_arith::{
    CONTEXTS, DC_DIGITS, DC_FOLLOW, DC_SIGN, Decoder, REFERENCE_1, REFERENCE_2, VECTOR_DIGITS,
    VECTOR_FOLLOW, VECTOR_SIGN,
};
use dirac_block_table::{
    Block, BlockData, Reference, predicted_dc, predicted_use_bit, predicted_vector,
};
use dirac_common::{Cause, Component, Vector};

/// Whether a value has 16 bits.
fn fits(value: i64) -> bool
    ensures value { result ≡ has_16_bits value }
    ensures short { result ≡ true → IsShort value }
{
    -32768 <= value && value <= 32767
}

/// Reads a value that is predicted; one without 16 bits is refused for this cause.
fn read_value(
    decoder: &mut Decoder<'_>,
    cause: Cause,
    follow: &[u8],
    bits: u8,
    sign: u8,
    prediction: i32,
) -> Result<i32, Cause>
    requires not_empty { 0 < length follow.now }
    requires follow { AreContexts follow.now }
    requires bits { bits < CONTEXTS }
    requires sign { sign < CONTEXTS }
    requires prediction { IsShort prediction }
    requires no_overflow { decoder.old.at.doublings < 2 ^ 61 }
    ensures value { GivesReading result decoder.new
        (read_coded (value_coded cause follow.now bits sign prediction) decoder.old) }
    ensures short { IfOk result IsShort }
    ensures few_doublings { decoder.new.at.doublings ≤ decoder.old.at.doublings + 702 }
{
    match decoder.signed(follow, bits, sign) {
        Ok(number) => {
            let value = number + i64::from(prediction);
            if fits(value) {
                Ok(value as i32)
            } else {
                Err(cause)
            }
        }
        Err(e) => Err(e),
    }
}

/// A block that uses these references, all of whose values are 0.
fn block_of(first: bool, second: bool) -> Block
    ensures { result ≡ block_using first second }
{
    let nowhere = Vector { x: 0, y: 0 };
    Block {
        ref1: first,
        ref2: second,
        v1: nowhere,
        v2: nowhere,
        dc_y: 0,
        dc_u: 0,
        dc_v: 0,
    }
}

/// Reads which references a unit uses: the second one only where there is one.
fn read_mode(decoder: &mut Decoder<'_>, table: &BlockData, i: u32, j: u32) -> Result<Block, Cause>
    requires column { i < 4 * table.now.across }
    requires row { j < 4 * table.now.down }
    requires no_overflow { decoder.old.at.doublings < 2 ^ 60 }
    ensures value { GivesReading result decoder.new (read_coded (mode_coded table.now i j) decoder.old) }
    ensures block { IfOk result (IsBlock table.now.refs) }
    ensures few_doublings { decoder.new.at.doublings ≤ decoder.old.at.doublings + 18 }
{
    match decoder.decision(REFERENCE_1) {
        Ok(bit) => {
            let prediction = predicted_use_bit(table, Reference::First, i, j);
            let first = differs(bit, prediction);
            if table.refs() != 2 {
                return Ok(block_of(first, false));
            }
            let other = predicted_use_bit(table, Reference::Second, i, j);
            match decoder.decision(REFERENCE_2) {
                Ok(other_bit) => {
                    let second = differs(other_bit, other);
                    let block = block_of(first, second);
                    Ok(block)
                }
                Err(e) => Err(e),
            }
        }
        Err(e) => Err(e),
    }
}

/// Whether a block uses a reference.
fn has_reference(block: Block, reference: Reference) -> bool
    ensures { result ≡ uses reference block }
{
    match reference {
        Reference::First => block.ref1,
        Reference::Second => block.ref2,
    }
}

/// The block with this component of a vector.
fn set_component(mut block: Block, axis: Axis, reference: Reference, value: i32) -> Block
    ensures { result ≡ with_component axis reference block value }
{
    match axis {
        Axis::Across => match reference {
            Reference::First => block.v1.x = value,
            Reference::Second => block.v2.x = value,
        },
        Axis::Down => match reference {
            Reference::First => block.v1.y = value,
            Reference::Second => block.v2.y = value,
        },
    }
    block
}

/// The block with this DC value.
fn set_dc(mut block: Block, component: Component, value: i32) -> Block
    ensures { result ≡ with_dc component block value }
{
    match component {
        Component::Y => block.dc_y = value,
        Component::U => block.dc_u = value,
        Component::V => block.dc_v = value,
    }
    block
}

/// Reads a component of a unit's vector, where the unit uses the reference.
fn read_vector(
    decoder: &mut Decoder<'_>,
    table: &BlockData,
    axis: Axis,
    reference: Reference,
    i: u32,
    j: u32,
) -> Result<Block, Cause>
    requires column { i < 4 * table.now.across }
    requires row { j < 4 * table.now.down }
    requires no_overflow { decoder.old.at.doublings < 2 ^ 61 }
    ensures value { GivesReading result decoder.new
        (read_coded (unit_coded (component_list axis reference) table.now i j) decoder.old) }
    ensures block { IfOk result (IsBlock table.now.refs) }
    ensures few_doublings { decoder.new.at.doublings ≤ decoder.old.at.doublings + 702 }
{
    let block = table.at(i, j);
    if !has_reference(block, reference) {
        return Ok(block);
    }
    let prediction = component(predicted_vector(table, reference, i, j), axis);
    match read_value(
        decoder,
        Cause::VectorRange,
        &VECTOR_FOLLOW,
        VECTOR_DIGITS,
        VECTOR_SIGN,
        prediction,
    ) {
        Ok(value) => Ok(set_component(block, axis, reference, value)),
        Err(e) => Err(e),
    }
}

/// Reads a DC value of a unit, where it is a DC block.
fn read_dc(
    decoder: &mut Decoder<'_>,
    table: &BlockData,
    component: Component,
    i: u32,
    j: u32,
) -> Result<Block, Cause>
    requires column { i < 4 * table.now.across }
    requires row { j < 4 * table.now.down }
    requires no_overflow { decoder.old.at.doublings < 2 ^ 61 }
    ensures value { GivesReading result decoder.new (read_coded (unit_coded (ListKind.Dc component) table.now i j)
        decoder.old) }
    ensures block { IfOk result (IsBlock table.now.refs) }
    ensures few_doublings { decoder.new.at.doublings ≤ decoder.old.at.doublings + 702 }
{
    let block = table.at(i, j);
    if block.ref1 || block.ref2 {
        return Ok(block);
    }
    let prediction = predicted_dc(table, component, i, j);
    match read_value(
        decoder,
        Cause::DcRange,
        &DC_FOLLOW,
        DC_DIGITS,
        DC_SIGN,
        prediction,
    ) {
        Ok(value) => Ok(set_dc(block, component, value)),
        Err(e) => Err(e),
    }
}

/// The block of a unit, with what this list tells of it; `i` and `j` are the place of its first block.
pub fn read_unit_block(
    decoder: &mut Decoder<'_>,
    table: &BlockData,
    part: ListKind,
    i: u32,
    j: u32,
) -> Result<Block, Cause>
    requires column { i < 4 * table.now.across }
    requires row { j < 4 * table.now.down }
    requires no_overflow { decoder.old.at.doublings < 2 ^ 60 }
    ensures value { GivesReading result decoder.new (read_coded (unit_coded part table.now i j) decoder.old) }
    ensures block { IfOk result (IsBlock table.now.refs) }
    ensures few_doublings { decoder.new.at.doublings ≤ decoder.old.at.doublings + 702 }
{
    match part {
        ListKind::Modes => read_mode(decoder, table, i, j),
        ListKind::Across(reference) => {
            read_vector(decoder, table, Axis::Across, reference, i, j)
        }
        ListKind::Down(reference) => read_vector(decoder, table, Axis::Down, reference, i, j),
        ListKind::Dc(component) => read_dc(decoder, table, component, i, j),
    }
}
