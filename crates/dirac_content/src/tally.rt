/// How many pictures were delivered, and the greatest length that a list of references had.
#[derive(Clone, Copy, Debug, PartialEq, Eq)]
pub struct Tally {
    pub pictures: u64,
    pub references: u8,
}
