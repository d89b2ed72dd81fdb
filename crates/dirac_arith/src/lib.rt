//! Arithmetic coding of the Dirac specification: decisions, and the numbers that they spell.
#![tactic(auto)]

mod contexts;
mod decoder;
mod encoder;
mod follow;
mod laws;
mod probabilities;
mod registers;
mod tables;
mod tail;

pub use contexts::{
    COEFFICIENT_DIGITS, CONTEXTS, DC_DIGITS, DC_FOLLOW, DC_SIGN, OFFSET_DIGITS, OFFSET_FOLLOW,
    OFFSET_SIGN, PARENT_VALUES, PARENT_ZEROS, REFERENCE_1, REFERENCE_2, SIGN_OF_NEGATIVE,
    SIGN_OF_POSITIVE, SIGN_OF_ZERO, SPLIT_DIGITS, SPLIT_FOLLOW, VECTOR_DIGITS, VECTOR_FOLLOW,
    VECTOR_SIGN, ZERO_FLAG, ZERO_PARENT_VALUES, ZERO_PARENT_ZEROS,
};
pub use decoder::Decoder;
pub use encoder::Encoder;
pub use laws::{
    block_carries_more, block_carries_one_number, block_carries_one_truth, coded_values_are_read,
    reading_composes, reading_is_carrying, truths_are_bits, written_block_carries,
};
pub use registers::{Decided, Registers};
