ghost use Rattle.std.specs.Prelude.{◌≡◌, true, false, IfSome, IsSome};
ghost use Rattle.dirac_push.specs.Pushing.{Pushed};

mod parts;

use dirac_push::PushDecoder;
use parts::Parts;
use std::alloc::Global;
use std::marker::Model;

/// What C holds of a decoder: nothing, where it is closed.
#[repr(C)]
pub struct Handle {
    at: *mut u8,
    alloc: Global,
    is_open: bool,
    ghost decoder: { Pushed },
}

impl Model for Handle {
    ghost use Rattle.jevmutzal.specs.Owning.{handle_owns};

    ghost also_owns = { λ h. handle_owns h.is_open h.alloc h.at h.decoder };
}

impl Handle {
    /// A handle that holds nothing.
    pub fn closed(alloc: Global) -> Handle
        ensures { result.is_open ≡ false }
    {
        Handle {
            at: std::ptr::null_mut(),
            alloc,
            is_open: false,
        }
    }

    /// A handle that holds a decoder.
    pub fn opened(decoder: Box<PushDecoder, Global>) -> Handle
        ensures open { result.is_open ≡ true }
        ensures value { result.decoder ≡ decoder.value }
    {
        Handle::of_parts(Parts::of(decoder))
    }

    fn of_parts(parts: Parts<PushDecoder, Global>) -> Handle
        ensures { (result.is_open ≡ true) × (result.decoder ≡ parts.value) }
    {
        let Parts { ptr, alloc } = parts;
        Handle {
            at: ptr as *mut u8,
            alloc,
            is_open: true,
        }
    }

    fn into_parts(self) -> Option<Parts<PushDecoder, Global>>
        ensures { (self.is_open ≡ true → IsSome result)
            × IfSome result (λ parts. (parts.value ≡ self.decoder) × (self.is_open ≡ true)) }
    {
        let Handle { at, alloc, is_open } = self;
        if is_open {
            return Some(Parts {
                ptr: at as *mut PushDecoder,
                alloc,
            });
        }
        None
    }

    /// What the handle holds.
    pub fn into_box(self) -> Option<Box<PushDecoder, Global>>
        ensures open { self.is_open ≡ true → IsSome result }
        ensures closed { IfSome result (λ _. self.is_open ≡ true) }
        ensures value { IfSome result (λ decoder. decoder.value ≡ self.decoder) }
    {
        match self.into_parts() {
            Some(parts) => Some(parts.into_box()),
            None => None,
        }
    }
}

impl Drop for Handle {
    fn drop(self) {
        match self.into_box() {
            Some(decoder) => drop(decoder),
            None => {}
        }
    }
}
