//! The commands that encode at the settings' own index: raw pictures from a source, and generated ones in memory.
#![tactic(auto)]

mod encoded;
mod ending;
mod made;

pub use encoded::encode;
pub use ending::ended;
pub use made::make;
