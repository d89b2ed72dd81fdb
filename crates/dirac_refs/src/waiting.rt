use dirac_common::Picture;

/// A decoded picture that waits for its delivery, under its key.
#[derive(Debug, Drop)]
pub struct Waiting {
    pub key: i32,
    pub picture: Picture,
}
