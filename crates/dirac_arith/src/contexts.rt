/// How many contexts a block's decisions have.
pub const CONTEXTS: usize = 38;

/// The follow contexts of a coefficient, the last of them repeated: where its parent and its neighbours are zero.
pub const ZERO_PARENT_ZEROS: [u8; 6] = [0, 4, 5, 6, 7, 8];

/// Where its parent is zero and a neighbour isn't.
pub const ZERO_PARENT_VALUES: [u8; 6] = [1, 4, 5, 6, 7, 8];

/// Where its parent isn't zero and its neighbours are.
pub const PARENT_ZEROS: [u8; 6] = [2, 9, 10, 11, 12, 13];

/// Where neither its parent nor its neighbours are zero.
pub const PARENT_VALUES: [u8; 6] = [3, 9, 10, 11, 12, 13];

/// The digits of a coefficient.
pub const COEFFICIENT_DIGITS: u8 = 14;

/// The sign of a coefficient beside a zero.
pub const SIGN_OF_ZERO: u8 = 15;

/// The sign of a coefficient beside a negative one.
pub const SIGN_OF_NEGATIVE: u8 = 16;

/// The sign of a coefficient beside a positive one.
pub const SIGN_OF_POSITIVE: u8 = 17;

/// The zero flag of a codeblock.
pub const ZERO_FLAG: u8 = 18;

/// The follow context of an offset, which changes a codeblock's quantiser index.
pub const OFFSET_FOLLOW: [u8; 1] = [19];

/// The digits of an offset.
pub const OFFSET_DIGITS: u8 = 20;

/// The sign of an offset.
pub const OFFSET_SIGN: u8 = 21;

/// The follow contexts of a superblock's split.
pub const SPLIT_FOLLOW: [u8; 2] = [22, 23];

/// The digits of a superblock's split.
pub const SPLIT_DIGITS: u8 = 24;

/// Whether a prediction unit uses reference 1.
pub const REFERENCE_1: u8 = 25;

/// Whether a prediction unit uses reference 2.
pub const REFERENCE_2: u8 = 26;

/// The follow contexts of a vector's component.
pub const VECTOR_FOLLOW: [u8; 5] = [27, 28, 29, 30, 31];

/// The digits of a vector's component.
pub const VECTOR_DIGITS: u8 = 32;

/// The sign of a vector's component.
pub const VECTOR_SIGN: u8 = 33;

/// The follow contexts of a DC value.
pub const DC_FOLLOW: [u8; 2] = [34, 35];

/// The digits of a DC value.
pub const DC_DIGITS: u8 = 36;

/// The sign of a DC value.
pub const DC_SIGN: u8 = 37;
