ghost use Rattle.std.specs.Prelude.{◌≡◌, IfErr, IfOk};
ghost use Rattle.dirac_types.specs.Settings.{IsAccepted};
ghost use Rattle.dirac_encode_laws.specs.Encoding.{IsRecovered, encoding};
ghost use Rattle.library_use.specs.Calls.{IsWhyNotCoded};

use dirac_encode::{Encoded, encode_stream};
use dirac_io::{MemSink, MemSource, NullSink, OpenGate};
use dirac_types::{BadSetting, Settings};
use std::alloc::Global;
use std::thread::Threads;

/// Why raw pictures were not coded.
#[derive(Clone, Copy, Debug, PartialEq, Eq, Drop)]
pub enum NotCoded {
    /// The first setting that is out of its range.
    BadSetting(BadSetting),
    /// Bytes are left over whole pictures, a unit is too long, there are too many pictures, or memory is wanting.
    Ended(Encoded),
}

/// The stream of raw pictures, one after another, with these settings.
pub fn coded<R: Threads + Sync>(
    rt: &R,
    alloc: Global,
    settings: &Settings,
    raw: Vec<u8>,
) -> Result<MemSink, NotCoded>
    ensures stream { IfOk result (λ stream. stream.taken ≡ (encoding settings.now raw.items).stream) }
    // The stream has no fault and shows the reconstructions, which are the pictures themselves at index 0.
    ensures recovered { IfOk result (λ stream. IsRecovered settings.now raw.items) }
    ensures accepted { IfOk result (λ stream. IsAccepted settings.now) }
    ensures why_not { IfErr result (IsWhyNotCoded settings.now) }
{
    settings.check()?;
    let mut source = MemSource::new(raw, usize::MAX, Vec::new(alloc));
    let mut stream = MemSink::new(alloc, usize::MAX, Vec::new(alloc));
    match encode_stream(
        rt,
        alloc,
        &mut source,
        &mut stream,
        &mut NullSink,
        settings,
        &OpenGate,
    ) {
        Encoded::Done => Ok(stream),
        ended => Err(NotCoded::Ended(ended)),
    }
}

impl From<BadSetting> for NotCoded {
    ghost use Rattle.library_use.specs.declared.encode.NotCoded.TheVariants.{BadSetting};

    ghost from_gives = { λ bad error. error ≡ BadSetting bad };

    fn from(bad: BadSetting) -> NotCoded {
        NotCoded::BadSetting(bad)
    }
}
