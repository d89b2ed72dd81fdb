ghost use Rattle.std.specs.Prelude.{◌≡◌, ◌≤◌, IsOk, IfOk, length, map};
ghost use Rattle.std.specs.Io.KnownBytes.{Appends};
ghost use Rattle.dirac_io.specs.Faults.{Rose};
ghost use Rattle.dirac_io.specs.Writing.{AppendsFront};
ghost use Rattle.dirac_content.specs.Raw.{byte_of, plane_bytes, raw};

use dirac_common::{NoMemory, Picture, Plane};
use dirac_io::{Put, Sink, put_all};

/// How many samples are made bytes and written at once at most, so that these are still at hand when they are written.
const MOST_BYTES_AT_ONCE: usize = 65_536;

/// Writes a raw picture: the rows of Y from top to bottom, then U, then V, a byte a sample. `bytes` is a
/// buffer for the bytes of a piece of a plane, whatever it holds.
pub fn put_picture<K: Sink>(out: &mut K, picture: &Picture, bytes: &mut Vec<u8>) -> Put
    ensures all { result ≡ Put.All → Appends (K.taken out.old) (K.taken out.new) (raw picture.now) }
    ensures front { AppendsFront (K.taken out.old) (K.taken out.new) (raw picture.now) }
    ensures failed { result ≡ Put.Failed → Rose (K.faults out.old) (K.faults out.new) }
    ensures count { K.faults out.old ≤ K.faults out.new }
{
    match put_plane(out, &picture.y, bytes) {
        Put::All => {}
        unwritten => return unwritten,
    }
    match put_plane(out, &picture.u, bytes) {
        Put::All => {}
        unwritten => return unwritten,
    }
    put_plane(out, &picture.v, bytes)
}

/// Writes a plane, piece by piece.
fn put_plane<K: Sink>(out: &mut K, plane: &Plane, bytes: &mut Vec<u8>) -> Put
    ensures all { result ≡ Put.All → Appends (K.taken out.old) (K.taken out.new) (plane_bytes plane.now) }
    ensures front { AppendsFront (K.taken out.old) (K.taken out.new) (plane_bytes plane.now) }
    ensures failed { result ≡ Put.Failed → Rose (K.faults out.old) (K.faults out.new) }
    ensures count { K.faults out.old ≤ K.faults out.new }
{
    let mut rest = plane.values();
    'pieces: while !rest.is_empty() {
        let (piece, behind) = rest.split_at(rest.len().min(MOST_BYTES_AT_ONCE));
        match put_samples(out, piece, bytes) {
            Put::All => rest = behind,
            unwritten => return unwritten,
        }
    }
    Put::All
}

/// Writes samples as bytes.
fn put_samples<K: Sink>(out: &mut K, samples: &[i16], bytes: &mut Vec<u8>) -> Put
    ensures all { result ≡ Put.All → Appends (K.taken out.old) (K.taken out.new) (map byte_of samples.now) }
    ensures front { AppendsFront (K.taken out.old) (K.taken out.new) (map byte_of samples.now) }
    ensures failed { result ≡ Put.Failed → Rose (K.faults out.old) (K.faults out.new) }
    ensures count { K.faults out.old ≤ K.faults out.new }
{
    match fill_bytes(bytes, samples) {
        Ok(()) => put_all(out, bytes.as_slice()),
        Err(NoMemory) => Put::NoMemory,
    }
}

/// Fills the buffer with the bytes of samples.
fn fill_bytes(bytes: &mut Vec<u8>, samples: &[i16]) -> Result<(), NoMemory>
    ensures { IfOk result (λ _. bytes.new.items ≡ map byte_of samples.now) }
{
    bytes.resize(samples.len(), 0)?;
    put_bytes(samples, bytes.as_mut_slice());
    Ok(())
}

/// Writes the bytes of samples.
fn put_bytes(samples: &[i16], bytes: &mut [u8])
    requires { length bytes.old ≡ length samples.now }
    ensures { bytes.new ≡ map byte_of samples.now }
{
    for i in 0..samples.len() {
        bytes[i] = byte(samples[i]);
    }
}

/// The byte of a sample in a raw picture.
#[inline(always)]
pub fn byte(sample: i16) -> u8
    ensures { result ≡ byte_of sample }
{
    (i32::from(sample) + 128).rem_euclid(256) as u8
}
