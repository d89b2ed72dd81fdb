/// The first or the second reference of a picture.
#[derive(Clone, Copy)]
pub enum Reference {
    First,
    Second,
}
