use dirac_common::BlockGrid;

/// How an inter picture is predicted from its references.
#[derive(Clone, Copy, Debug, PartialEq, Eq)]
pub struct Prediction {
    /// Block lengths and separations, in luma samples.
    pub grid: BlockGrid,
    /// A motion vector counts 2^precision parts of a luma sample, from 0 to 3.
    pub precision: u8,
    /// The precision of the weights, from 1 to 8 bits.
    pub weight_bits: u8,
    /// The weight of the first reference.
    pub weight1: i32,
    /// The weight of the second reference; 1 where there is none.
    pub weight2: i32,
}
