use dirac_common::BlockGrid;

/// The blocks of a picture and the sizes of its planes, which those of its references share.
#[derive(Clone, Copy, Debug, PartialEq, Eq)]
pub struct PictureBlocks {
    pub grid: BlockGrid,
    /// The number of luma columns.
    pub width: u32,
    /// The number of luma rows.
    pub height: u32,
    /// Luma samples for one chroma sample, across and down.
    pub across_ratio: u32,
    pub down_ratio: u32,
}
