use crate::coefficients::Coefficients;
use crate::indices::Indices;
use crate::numbers::Numbers;
use dirac_common::Band;

/// Which subband of a level a block holds: its orientation, its size in coefficients, the number of codeblocks that it
/// is divided into, across and down, and the codeblock mode: in mode 0 all codeblocks have the band's quantiser index,
/// in mode 1 each may change it.
#[derive(Clone, Copy)]
pub struct BandLayout {
    pub band: Band,
    pub width: u32,
    pub height: u32,
    pub across: u32,
    pub down: u32,
    pub mode: u8,
}

/// What the arithmetic block of a subband holds: the quantiser index of each codeblock, and the quantised coefficients.
#[derive(Drop)]
pub struct BandBlock {
    pub indices: Indices,
    pub table: Coefficients,
}

/// A subband as it is coded: its quantiser index, that of each codeblock by rows, and the quantised coefficients. In
/// codeblock mode 0 each codeblock has the band's index; in mode 1 a skipped one has that of the codeblock before it,
/// at first the band's. Where the block's length is 0 all three are zeros.
#[derive(Drop)]
pub struct CodedBand {
    pub index: u8,
    pub indices: Indices,
    pub table: Coefficients,
}

/// A subband while it is written: its coefficients and its parent's, as they are lent, by rows, its layout, its
/// quantiser index and that of each codeblock.
#[derive(Clone, Copy)]
pub struct WrittenBand<'a> {
    pub values: Numbers<'a>,
    pub parent: Numbers<'a>,
    pub layout: BandLayout,
    pub index: u8,
    pub indices: &'a Indices,
}
