use dirac_common::{BlockGrid, Picture};
use dirac_search::Field;
use dirac_upconvert::UpPlane;

/// A reference: its luma with its half samples, and the vectors that the motion search found in it.
#[derive(Clone, Copy)]
pub struct RefView<'a> {
    pub up: &'a UpPlane,
    pub field: &'a Field,
}

/// What the blocks of a picture are decided from.
#[derive(Clone, Copy)]
pub struct Inputs<'a> {
    pub source: &'a Picture,
    pub first: RefView<'a>,
    pub second: Option<RefView<'a>>,
    pub grid: BlockGrid,
    /// Superblocks across and down.
    pub across: u32,
    pub down: u32,
    /// Luma samples for one chroma sample, across and down.
    pub across_ratio: u32,
    pub down_ratio: u32,
    pub precision: u8,
    pub bias: u32,
    /// Whether vectors must keep inside: not 0.
    pub alike: u32,
}
