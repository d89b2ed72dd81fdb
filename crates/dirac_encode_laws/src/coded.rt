use dirac_common::Picture;

/// A picture's payload, and the picture that a decoder shows for it.
#[derive(Drop)]
pub struct Coded {
    pub payload: Vec<u8>,
    pub shown: Picture,
}
