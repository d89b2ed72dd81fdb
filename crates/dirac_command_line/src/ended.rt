ghost use Rattle.std.specs.Prelude.{◌≡◌, IfOk, string_bytes};
ghost use Rattle.dirac_command_line.specs.Ended.{status_of, text_of, fault_text as text_of_fault};
ghost use Rattle.dirac_command_line.specs.Ended.{bad_setting_text as text_of_bad_setting};
ghost use Rattle.dirac_command_line.specs.Ended.{after_flushes as ended_after_flushes};

use dirac_common::{Fault, NoMemory};
use dirac_types::{BadSetting, cause_name};
use std::alloc::Global;

/// How a run ended.
#[derive(Clone, Copy, Debug, PartialEq, Eq)]
pub enum Ended {
    /// All was done, and the input, where there is one, was read to its end.
    Done,
    /// The number of the first word that doesn't fit, from 0.
    Usage(u32),
    BadSettings(BadSetting),
    /// The first fault of the stream.
    Fault(Fault),
    /// So many bytes are left over whole pictures.
    PartialPicture(u64),
    /// The number of a picture whose unit is longer than the setting allows.
    UnitTooLong(u32),
    TooManyPictures,
    ReadFault,
    WriteFault,
    SideFault,
    NoMemory,
    /// The number that is no point of the stream that is cut, or ends no part of it.
    NoSuchPoint(u64),
    /// The index of the first unit of a part whose picture has a reference outside it.
    OpenCut(u64),
}

impl From<NoMemory> for Ended {
    ghost use Rattle.dirac_command_line.specs.declared.ended.Ended.TheVariants as ended;

    ghost from_gives = { λ _ s. s ≡ ended.NoMemory };

    fn from(_e: NoMemory) -> Ended {
        Ended::NoMemory
    }
}

/// The exit status of the program.
pub fn status(ended: &Ended) -> u8
    ensures { result ≡ status_of ended.now }
{
    match ended {
        Ended::Done => 0,
        Ended::Usage(_) => 2,
        Ended::BadSettings(_) => 3,
        Ended::Fault(_) => 4,
        Ended::PartialPicture(_) => 5,
        Ended::UnitTooLong(_) => 6,
        Ended::TooManyPictures => 7,
        Ended::ReadFault => 8,
        Ended::WriteFault => 9,
        Ended::SideFault => 10,
        Ended::NoMemory => 11,
        Ended::NoSuchPoint(_) => 13,
        Ended::OpenCut(_) => 14,
    }
}

/// The answer behind a run and the flushes of its sinks, where it is known of each sink whether it is sound: nothing
/// failed there. Behind `Done` a sink that isn't sound is answered as a fault of it, what comes out first.
pub fn after_flushes(ended: Ended, out: bool, side: bool) -> Ended
    ensures { result ≡ ended_after_flushes ended out side }
{
    match ended {
        Ended::Done if !out => Ended::WriteFault,
        Ended::Done if !side => Ended::SideFault,
        other => other,
    }
}

/// What the program says of it, without a newline. Nothing for `Done`.
pub fn ended_text(alloc: Global, ended: &Ended) -> Result<String, NoMemory>
    ensures { IfOk result (λ text. string_bytes text ≡ text_of ended.now) }
{
    let text = match ended {
        Ended::Done => String::new(alloc),
        Ended::Usage(n) => format!(in alloc; "usage: word {n}")?,
        Ended::BadSettings(bad) => bad_setting_text(alloc, bad)?,
        Ended::Fault(fault) => fault_text(alloc, fault)?,
        Ended::PartialPicture(n) => format!(in alloc; "partial picture: {n} bytes")?,
        Ended::UnitTooLong(n) => format!(in alloc; "unit too long: picture {n}")?,
        Ended::TooManyPictures => String::from_str(alloc, "too many pictures")?,
        Ended::ReadFault => String::from_str(alloc, "read fault")?,
        Ended::WriteFault => String::from_str(alloc, "write fault")?,
        Ended::SideFault => String::from_str(alloc, "side fault")?,
        Ended::NoMemory => String::from_str(alloc, "no memory")?,
        Ended::NoSuchPoint(n) => format!(in alloc; "no such point: {n}")?,
        Ended::OpenCut(n) => format!(in alloc; "open cut: unit {n}")?,
    };
    Ok(text)
}

fn fault_text(alloc: Global, fault: &Fault) -> Result<String, NoMemory>
    ensures { IfOk result (λ text. string_bytes text ≡ text_of_fault fault.now) }
{
    let (unit, at, name) = (fault.unit, fault.at, cause_name(fault.cause));
    Ok(format!(in alloc; "fault unit={unit} at={at} cause={name}")?)
}

fn bad_setting_text(alloc: Global, bad: &BadSetting) -> Result<String, NoMemory>
    ensures { IfOk result (λ text. string_bytes text ≡ text_of_bad_setting bad.now) }
{
    let (name, value) = (bad.name.text(), bad.value);
    Ok(format!(in alloc; "bad setting {name}={value}")?)
}
