use dirac_block_table::BlockData;
use dirac_common::{Chroma, Component};
use dirac_parameters::Prediction;
use dirac_upconvert::UpPlane;

/// What one plane of an inter picture is predicted from: the picture's blocks and parameters, and this plane of
/// each reference.
#[derive(Clone, Copy)]
pub struct Motion<'a> {
    pub blocks: &'a BlockData,
    pub prediction: &'a Prediction,
    pub up1: &'a UpPlane,
    /// There where the block table has two references.
    pub up2: Option<&'a UpPlane>,
    pub component: Component,
    pub chroma: Chroma,
    /// The number of columns of this plane.
    pub width: u32,
    /// The number of rows of this plane.
    pub height: u32,
}
