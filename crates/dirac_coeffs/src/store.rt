use dirac_common::Cause;

/// The values of a band while it is read: in 32 bits, or wide.
#[derive(Drop)]
pub enum Values {
    Narrow(Vec<i32>),
    Wide(Vec<i64>),
}

/// Why reading stopped: the block doesn't hold what it must, or a value doesn't fit the 32 bits that it is read into.
#[derive(Clone, Copy)]
pub enum Unread {
    Refused(Cause),
    TooWide,
}
