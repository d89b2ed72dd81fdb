ghost use Rattle.std.specs.Prelude.{◌≡◌};

use crate::memory::NoMemory;

/// Why a stream is refused: one variant for each rule that its bytes can break.
#[derive(Clone, Copy, Debug, PartialEq, Eq)]
pub enum Cause {
    /// The input ends, and the unit before is no end unit.
    MissingEnd,
    /// The input ends inside a unit.
    Truncated,
    /// A unit doesn't begin with `BBCD`.
    BadPrefix,
    /// A parse code that the standard doesn't have.
    UnknownCode,
    /// A low-delay picture, which this profile leaves out.
    LowDelay,
    /// A picture without arithmetic coding, which this profile leaves out.
    Vlc,
    /// A next offset that doesn't reach behind its own header.
    OffsetMissing,
    /// A repeated sequence header differs from the open one.
    SequenceChanged,
    /// A picture before any sequence header.
    NoSequence,
    /// A field or block passes the end of the payload.
    UnitShort,
    /// A number of more than 38 digits behind its leading one.
    NumberTooLong,
    /// A major version above 2.
    Version,
    /// A base video format above 16.
    Preset,
    /// A picture size out of range, or no multiple of the chroma ratio.
    Size,
    /// A chroma format above 2.
    ChromaFormat,
    /// A source sampling above 1.
    Sampling,
    /// A frame rate index above 10.
    RateIndex,
    /// A pixel aspect index above 6.
    AspectIndex,
    /// A signal range index above 4.
    SignalRange,
    /// A signal range of another depth than 8 bits.
    Depth8,
    /// Pictures that are fields.
    Fields,
    /// A reference picture that isn't listed.
    MissingReference,
    /// A block index that isn't supported.
    BlockPreset,
    /// Block lengths or separations out of their rule.
    BlockSize,
    /// A vector precision above 3.
    Precision,
    /// Global motion, which this profile leaves out.
    GlobalMotion,
    /// A picture prediction mode other than 0.
    PredictionMode,
    /// Reference weights out of range.
    Weights,
    /// A wavelet index above 6.
    Wavelet,
    /// A transform depth that isn't 1 to 5.
    Depth,
    /// A count of codeblocks out of its rule.
    Codeblocks,
    /// A codeblock mode other than 0.
    CodeblockMode,
    /// A quantiser index above 99.
    QuantIndex,
    /// An arithmetic block that lies outside the first interval.
    CodeWord,
    /// A motion vector outside 16 bits.
    VectorRange,
    /// A DC value outside 16 bits.
    DcRange,
}

/// What a reader of a payload refuses: `at` is a number of bytes from the payload's first byte.
#[derive(Clone, Copy, Debug, PartialEq, Eq)]
pub struct Refusal {
    pub at: u64,
    pub cause: Cause,
}

/// The first fault of a stream: `unit` counts units from 0, `at` is a number of bytes from the input's first byte.
#[derive(Clone, Copy, Debug, PartialEq, Eq)]
pub struct Fault {
    pub unit: u64,
    pub at: u64,
    pub cause: Cause,
}

/// Why a reader that takes memory gave no value.
#[derive(Clone, Copy, Debug, PartialEq, Eq)]
pub enum Stop {
    Refused(Refusal),
    NoMemory,
}

impl From<Refusal> for Stop {
    ghost use Rattle.dirac_common.specs.declared.faults.Stop.TheVariants as stop;

    ghost from_gives = { λ refusal s. s ≡ stop.Refused refusal };

    fn from(refusal: Refusal) -> Stop {
        Stop::Refused(refusal)
    }
}

impl From<NoMemory> for Stop {
    ghost use Rattle.dirac_common.specs.declared.faults.Stop.TheVariants as stop;

    ghost from_gives = { λ _ s. s ≡ stop.NoMemory };

    fn from(_e: NoMemory) -> Stop {
        Stop::NoMemory
    }
}
