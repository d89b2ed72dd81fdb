//! What nearly all crates of the codec share: tables of numbers, pictures and their parts, signed numbers, the greatest
//! numbers of the format, parse codes, want of memory, the causes of faults, and what may hold a worker at a row.
#![tactic(auto)]

mod codes;
mod element;
mod faults;
mod formats;
mod limits;
mod memory;
mod numbers;
mod picture;
mod row_gate;
mod shared;
mod table;

pub use codes::{
    AUXILIARY_DATA, END_OF_SEQUENCE, INTER_NON_REFERENCE_1, INTER_NON_REFERENCE_2,
    INTER_REFERENCE_1, INTER_REFERENCE_2, INTRA_NON_REFERENCE, INTRA_REFERENCE, PADDING,
    SEQUENCE_HEADER, is_intra, is_reference, references,
};
pub use faults::{Cause, Fault, Refusal, Stop};
pub use formats::{Band, BlockGrid, Chroma, Component, Kind, Vector, ratio_across, ratio_down};
pub use limits::{
    LARGEST_DEPTH, LARGEST_ENCODED_DEPTH, LARGEST_HEIGHT, LARGEST_INDEX, LARGEST_NARROW,
    LARGEST_SIDE, LARGEST_TABLE_SIDE, LARGEST_WAVELET, LARGEST_WIDTH, MOST_CODEBLOCKS, MOST_DIGITS,
    MOST_SAMPLES, MOST_SUPERBLOCKS,
};
pub use memory::NoMemory;
pub use numbers::with_sign;
pub use picture::Picture;
pub use row_gate::{OpenGate, RowGate};
pub use table::{BandTable, Narrow, Plane, Table, Wide};
