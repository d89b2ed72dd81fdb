//! A decoder whose pictures are read and rebuilt by workers. They share the rows of each picture, as `dirac_slices`
//! does; but of the pictures that were read ahead, twice as many as there are workers and eight at most, the intra
//! pictures up to the first end unit are decoded at once, a worker each, and so are inter pictures up to the next
//! reference picture, that one too, where they are at least two, more than half as many as there are workers, and of at
//! most 2^23 luma samples. Two and more inter pictures that are fewer are decoded at once too, each by as many workers
//! as all have, who share its rows, if half samples of their size are kept. With one worker, and with sixteen or more,
//! none of this comes to pass.
#![tactic(auto)]

mod alone;
mod asked;
mod at_hand;
mod by_rows;
mod crew;
mod front;
mod halves;
mod lot;
mod run;
mod stream;

pub use dirac_slices::{read_planes_rows, rebuild_rows};
pub use stream::decode_rows;
