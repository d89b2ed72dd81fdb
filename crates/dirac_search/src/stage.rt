use crate::bytes::Bytes;
use dirac_common::BlockGrid;
use dirac_pyramid::Pyramid;
use dirac_types::Settings;
use dirac_upconvert::UpPlane;

/// A stage of the search.
#[derive(Clone, Copy)]
pub enum Stage {
    /// All vectors in a range, in whole samples of this level: the top one.
    Coarse(u8),
    /// Round the vectors of the level above, in whole samples of this level.
    Finer(u8),
    /// Round the former stage's vector, in 2 to this power parts of a sample.
    Sub(u8),
}

/// What is searched: the luma of a picture and of a reference as pyramids, the reference with its half samples, and
/// the blocks.
#[derive(Clone, Copy)]
pub struct Search<'a> {
    pub source: &'a Pyramid,
    pub reference: &'a Pyramid,
    pub up: &'a UpPlane,
    pub grid: BlockGrid,
    /// The number of superblocks across.
    pub across: u32,
    /// The number of superblocks down.
    pub down: u32,
}

/// A stage of a search.
#[derive(Clone, Copy)]
pub(crate) struct Staged<'a, 's, 't, 'b> {
    pub(crate) search: &'a Search<'s>,
    pub(crate) stage: Stage,
    pub(crate) settings: &'t Settings,
    /// The source's samples in bytes, where they are compared so.
    pub(crate) bytes: Option<&'b Bytes>,
}
