ghost use Rattle.std.specs.Prelude.{◌≡◌, IfOk, string_bytes};
ghost use Rattle.dirac_stream_commands.specs.Line.{name_of_code, line_with, line_text};

use dirac_common::NoMemory;
use dirac_units::{ParseInfo, Unit, UnitKind, kind_of};
use std::alloc::Global;

// The name of a unit's kind; a refused code has none.
#[tactic(auto, unfolding(crate::specs::Line::name_of_code))]
fn unit_name(code: u8) -> &'static str
    ensures { result.now ≡ name_of_code code }
{
    match kind_of(code) {
        Ok(UnitKind::Sequence) => "sequence",
        Ok(UnitKind::End) => "end",
        Ok(UnitKind::Auxiliary) => "auxiliary",
        Ok(UnitKind::Padding) => "padding",
        Ok(UnitKind::Picture) => "picture",
        Err(_) => "",
    }
}

// The fields of a line, behind one another.
#[tactic(auto, using(std::proofs::lemmas::Fmt::hex_byte))]
fn line_of_fields(
    alloc: Global,
    index: u64,
    at: u64,
    info: ParseInfo,
    name: &str,
) -> Result<String, NoMemory>
    ensures { IfOk result (λ text. string_bytes text ≡ line_with index at info name.now) }
{
    let (code, next, previous) = (info.code, info.next, info.previous);
    Ok(format!(in alloc; "{index} {at} {code:02X} {name} {next} {previous}\n")?)
}

/// The line of a unit: its number, its place, its parse code and name, and both its offsets.
pub fn line(alloc: Global, unit: &Unit) -> Result<String, NoMemory>
    ensures { IfOk result (λ text. string_bytes text ≡ line_text unit.now.index unit.now.at unit.now.info) }
{
    line_of_fields(
        alloc,
        unit.index,
        unit.at,
        unit.info,
        unit_name(unit.info.code),
    )
}
