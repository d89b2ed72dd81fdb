use dirac_common::Vector;

/// How one block is predicted: from reference 1 with vector 1, from reference 2 with vector 2, from both, or,
/// where it uses neither, from a DC value for each colour component. What a block doesn't use is 0.
#[derive(Clone, Copy, PartialEq, Eq)]
pub struct Block {
    pub ref1: bool,
    pub ref2: bool,
    pub v1: Vector,
    pub v2: Vector,
    pub dc_y: i32,
    pub dc_u: i32,
    pub dc_v: i32,
}
