ghost use Rattle.std.specs.Prelude.{◌≡◌, Err};
ghost use Rattle.dirac_edit.specs.Steps.{ended_as};

use dirac_common::Fault;
use dirac_io::Unwritten;

/// How a cut or a joining ended.
#[derive(Clone, Copy, Debug, PartialEq, Eq, Drop)]
pub enum Edited {
    /// All was written.
    Done,
    /// The first fault of the input; nothing is written.
    Fault(Fault),
    /// The number that is no point of the input, or ends no part of it; nothing is written.
    NoSuchPoint(u64),
    /// The index of the first unit of the part whose picture has a reference outside it; nothing is written.
    OpenCut(u64),
    /// A read of the source failed; nothing is written.
    ReadFault,
    /// A write to the sink failed.
    WriteFault,
    NoMemory,
}

impl Edited {
    /// The answer where the writing ended so.
    pub(crate) fn of(written: Result<(), Unwritten>) -> Edited
        ensures value { result ≡ ended_as written }
        ensures failed { result ≡ Edited.WriteFault → written ≡ Err Unwritten.Failed }
    {
        match written {
            Ok(()) => Edited::Done,
            Err(Unwritten::Failed) => Edited::WriteFault,
            Err(Unwritten::NoMemory) => Edited::NoMemory,
        }
    }
}
