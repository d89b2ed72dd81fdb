ghost use Rattle.std.specs.Prelude.{◌≡◌, ◌<◌, ◌⊎◌, IfSome, None};
ghost use Rattle.jevmutzal.specs.Numbers.{number_of_cause};

use dirac_types::Cause;

/// The number of a cause: from 1 on, in the order of the list of causes.
pub fn number_of(cause: Cause) -> u32
    ensures { result ≡ number_of_cause cause }
{
    match cause {
        Cause::MissingEnd => 1,
        Cause::Truncated => 2,
        Cause::BadPrefix => 3,
        Cause::UnknownCode => 4,
        Cause::LowDelay => 5,
        Cause::Vlc => 6,
        Cause::OffsetMissing => 7,
        Cause::SequenceChanged => 8,
        Cause::NoSequence => 9,
        Cause::UnitShort => 10,
        Cause::NumberTooLong => 11,
        Cause::Version => 12,
        Cause::Preset => 13,
        Cause::Size => 14,
        Cause::ChromaFormat => 15,
        Cause::Sampling => 16,
        Cause::RateIndex => 17,
        Cause::AspectIndex => 18,
        Cause::SignalRange => 19,
        Cause::Depth8 => 20,
        Cause::Fields => 21,
        Cause::MissingReference => 22,
        Cause::BlockPreset => 23,
        Cause::BlockSize => 24,
        Cause::Precision => 25,
        Cause::GlobalMotion => 26,
        Cause::PredictionMode => 27,
        Cause::Weights => 28,
        Cause::Wavelet => 29,
        Cause::Depth => 30,
        Cause::Codeblocks => 31,
        Cause::CodeblockMode => 32,
        Cause::QuantIndex => 33,
        Cause::CodeWord => 34,
        Cause::VectorRange => 35,
        Cause::DcRange => 36,
    }
}

/// The cause of a number.
pub fn cause_of(number: u32) -> Option<Cause>
    ensures some { IfSome result (λ cause. number_of_cause cause ≡ number) }
    ensures none { result ≡ None → (number ≡ 0) ⊎ (36 < number) }
{
    let cause = match number {
        1 => Cause::MissingEnd,
        2 => Cause::Truncated,
        3 => Cause::BadPrefix,
        4 => Cause::UnknownCode,
        5 => Cause::LowDelay,
        6 => Cause::Vlc,
        7 => Cause::OffsetMissing,
        8 => Cause::SequenceChanged,
        9 => Cause::NoSequence,
        10 => Cause::UnitShort,
        11 => Cause::NumberTooLong,
        12 => Cause::Version,
        13 => Cause::Preset,
        14 => Cause::Size,
        15 => Cause::ChromaFormat,
        16 => Cause::Sampling,
        17 => Cause::RateIndex,
        18 => Cause::AspectIndex,
        19 => Cause::SignalRange,
        20 => Cause::Depth8,
        21 => Cause::Fields,
        22 => Cause::MissingReference,
        23 => Cause::BlockPreset,
        24 => Cause::BlockSize,
        25 => Cause::Precision,
        26 => Cause::GlobalMotion,
        27 => Cause::PredictionMode,
        28 => Cause::Weights,
        29 => Cause::Wavelet,
        30 => Cause::Depth,
        31 => Cause::Codeblocks,
        32 => Cause::CodeblockMode,
        33 => Cause::QuantIndex,
        34 => Cause::CodeWord,
        35 => Cause::VectorRange,
        36 => Cause::DcRange,
        _ => return None,
    };
    Some(cause)
}
