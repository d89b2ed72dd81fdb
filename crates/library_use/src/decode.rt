ghost use Rattle.std.specs.Prelude.{IfErr, IfOk};
ghost use Rattle.library_use.specs.Calls.{IsWhyNot, ShowsRawPictures};

use dirac_decode::{Decoded, decode_stream};
use dirac_io::{MemSink, MemSource};
use std::alloc::Global;

/// The raw pictures that a stream shows. Where it has a fault, or memory is wanting, that is the answer.
pub fn raw_pictures(alloc: Global, stream: Vec<u8>) -> Result<MemSink, Decoded>
    ensures shown { IfOk result (λ pictures. ShowsRawPictures stream.items pictures.taken) }
    ensures why_not { IfErr result (IsWhyNot stream.items) }
{
    let mut source = MemSource::new(stream, usize::MAX, Vec::new(alloc));
    let mut pictures = MemSink::new(alloc, usize::MAX, Vec::new(alloc));
    match decode_stream(alloc, &mut source, &mut pictures) {
        Decoded::Done(_) => Ok(pictures),
        answer => Err(answer),
    }
}
