use dirac_common::Table;

/// The predictions of the samples of some rows, not clipped.
pub type Predicted = Table<i32>;
