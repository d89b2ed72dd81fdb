//! The numbers of answers. Those below 0 are errors.

/// The version of this interface.
pub const VERSION: u32 = 1;

pub const OK: i32 = 0;
/// A picture: its planes can be copied until the next one is asked for.
pub const PICTURE: i32 = 1;
/// More bytes are needed, or that no more follow.
pub const NEEDS: i32 = 2;
/// The stream ended lawfully.
pub const END: i32 = 3;
/// The stream's first fault.
pub const FAULT: i32 = -1;

pub const NO_MEMORY: i32 = -2;
/// An earlier call answered that there was no memory.
pub const STOPPED: i32 = -3;
/// The decoder is not open.
pub const CLOSED: i32 = -4;
/// No picture was given by the last call of next, or no sequence is known.
pub const NO_PICTURE: i32 = -5;
/// A row has no room in the stride, or the plane in the buffer.
pub const SMALL: i32 = -6;
/// No plane has this number.
pub const UNKNOWN: i32 = -7;
/// It was said before that no more bytes follow.
pub const FINISHED: i32 = -8;
