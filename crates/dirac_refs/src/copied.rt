ghost use Rattle.std.specs.Prelude.{◌≡◌, IfOk};
ghost use Rattle.dirac_refs.specs.References.{as_reference};

use dirac_common::{NoMemory, Picture, is_reference};
use std::alloc::Global;

/// A picture once more, where later pictures may refer to one with this parse code.
pub fn reference_of(alloc: Global, code: u8, picture: &Picture) -> Result<Option<Picture>, NoMemory>
    ensures { IfOk result (λ r. r ≡ as_reference code picture.now) }
{
    if !is_reference(code) {
        return Ok(None);
    }
    let copy = picture.try_copy(alloc)?;
    Ok(Some(copy))
}
