//! The payload of a picture, read and written: its header, what it is predicted from, its transform parameters and the
//! subbands of its three planes.
//!
//! `specs/Grammar` has the fields in their order as they are read, `specs/Written` as they are written, `specs/Fits`
//! what every picture that is read has.
#![tactic(auto)]

mod chain;
mod coded;
mod laws;
mod layouts;
mod motion;
mod picture;
mod plane;
mod plane_bands;
mod shared;
mod sites;
mod texts;
mod weave;
mod write;
mod write_plane;

pub use chain::{Chain, PlaneSize, read_chain};
pub use coded::{CodedMotion, CodedPicture, CodedResidual};
pub use dirac_common::is_intra;
pub use laws::planes_are_read_by_chains;
pub use layouts::layout;
pub use motion::superblocks_over;
pub use picture::{are_listed, read_picture, read_picture_by, read_planes};
pub use plane_bands::PlaneBands;
pub use sites::{FoundPlanes, find_planes};
pub use texts::{Texts, band_text, texts_of};
pub use weave::woven;
pub use write::payload_bytes;
