ghost use Rattle.std.specs.Prelude.{◌≡◌, ◌+◌, ◌-◌, ◌<◌, ◌≤◌, ◌*◌, ◌↔◌, length, IsTrue, IsFalse};
ghost use Rattle.dirac_content.specs.Raw.{byte_of};
ghost use Rattle.dirac_push.specs.Laid.{AreLaid, CopiesSamples, HasRoom, IsLaid};

use dirac_common::Plane;
use dirac_decode::byte;

/// Copies a plane into a buffer, a byte a sample, its rows `stride` bytes apart. No other byte is touched.
/// Where a row has no room in the stride, or the last one in the buffer, the answer is `false`, and nothing is written.
pub fn put_rows(plane: &Plane, out: &mut [u8], stride: usize) -> bool
    ensures room { IsTrue result ↔ HasRoom plane.now (length out.old) stride }
    ensures laid { IsTrue result → IsLaid plane.now stride out.old out.new }
    ensures refused { IsFalse result → out.new ≡ out.old }
{
    let width = plane.width() as usize;
    let height = plane.height() as usize;
    if !has_room(width, height, out.len(), stride) {
        return false;
    }
    for y in 0..height {
        put_row(plane.values(), y * width, width, out, y * stride);
    }
    true
}

/// Whether rows have room in a stride, and the last one in a buffer.
fn has_room(width: usize, height: usize, length: usize, stride: usize) -> bool
    requires some { (1 ≤ width) × (1 ≤ height) }
    ensures { IsTrue result ↔ ((width ≤ stride) × ((height - 1) * stride + width ≤ length)) }
{
    width <= stride && width <= length && height - 1 <= (length - width) / stride
}

/// Copies `width` samples from place `from` on to the bytes from place `start` on.
fn put_row(samples: &[i16], from: usize, width: usize, out: &mut [u8], start: usize)
    requires samples { from + width ≤ length samples.now }
    requires bytes { start + width ≤ length out.old }
    ensures { CopiesSamples samples.now from start width out.old out.new }
{
    for k in 0..width {
        out[start + k] = byte(samples[from + k]);
    }
}
