ghost use Rattle.std.specs.Prelude.{◌≡◌};
ghost use Rattle.dirac_types.specs.Causes.{name_of};

use dirac_common::Cause;

/// The name of a cause, as it is printed: that of its variant.
pub fn cause_name(cause: Cause) -> &'static str
    ensures { result.now ≡ name_of cause }
{
    match cause {
        Cause::MissingEnd => "MissingEnd",
        Cause::Truncated => "Truncated",
        Cause::BadPrefix => "BadPrefix",
        Cause::UnknownCode => "UnknownCode",
        Cause::LowDelay => "LowDelay",
        Cause::Vlc => "Vlc",
        Cause::OffsetMissing => "OffsetMissing",
        Cause::SequenceChanged => "SequenceChanged",
        Cause::NoSequence => "NoSequence",
        Cause::UnitShort => "UnitShort",
        Cause::NumberTooLong => "NumberTooLong",
        Cause::Version => "Version",
        Cause::Preset => "Preset",
        Cause::Size => "Size",
        Cause::ChromaFormat => "ChromaFormat",
        Cause::Sampling => "Sampling",
        Cause::RateIndex => "RateIndex",
        Cause::AspectIndex => "AspectIndex",
        Cause::SignalRange => "SignalRange",
        Cause::Depth8 => "Depth8",
        Cause::Fields => "Fields",
        Cause::MissingReference => "MissingReference",
        Cause::BlockPreset => "BlockPreset",
        Cause::BlockSize => "BlockSize",
        Cause::Precision => "Precision",
        Cause::GlobalMotion => "GlobalMotion",
        Cause::PredictionMode => "PredictionMode",
        Cause::Weights => "Weights",
        Cause::Wavelet => "Wavelet",
        Cause::Depth => "Depth",
        Cause::Codeblocks => "Codeblocks",
        Cause::CodeblockMode => "CodeblockMode",
        Cause::QuantIndex => "QuantIndex",
        Cause::CodeWord => "CodeWord",
        Cause::VectorRange => "VectorRange",
        Cause::DcRange => "DcRange",
    }
}
