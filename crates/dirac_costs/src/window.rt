/// A window of a plane: its first column and row, and how many columns and rows it has. It may reach beyond the plane,
/// whose last samples then go on.
#[derive(Clone, Copy, Debug, PartialEq, Eq)]
pub struct Window {
    pub x: u32,
    pub y: u32,
    pub columns: u32,
    pub rows: u32,
}
