//! Generated pictures, as a source of bytes; a sink that keeps bytes in memory; and how many of the pictures that it
//! kept are the generated ones.
#![tactic(auto)]

mod exact;
mod generator;
mod kept;
mod picture;

pub use exact::exact_pictures;
pub use generator::Generator;
pub use kept::KeptBytes;
pub use picture::picture_length;
