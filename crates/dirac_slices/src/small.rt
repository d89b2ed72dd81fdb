//! How many threads a picture is worth; no answer depends on it.
//!
//! Each map of rows starts threads of its own, one fewer than it has workers, and so does the writing of samples. A
//! picture has two maps: one that reads its subbands, and one that makes what its samples are made from. So where four
//! workers share a picture, nine threads are started for an inter picture, and eight for an intra picture, whose second
//! map has three rows. Where `dirac_pardec` decodes two inter pictures at once, each by two workers, three are started
//! for each and one for both. A small picture isn't read by a map, and has two workers at most: two threads are started
//! for it where it is an inter picture, one where it is an intra picture, whose planes are the rows of one map. Where
//! `dirac_pardec` decodes an inter picture, each of its references whose half samples aren't kept yet has a map of
//! three rows before: two threads more, one for a small picture.
ghost use Rattle.std.specs.Prelude.{◌≡◌, ◌≤◌};
ghost use Rattle.dirac_slices.specs.Small.{is_small_picture, shared_by};

use dirac_sequence_header::Sequence;

/// A picture of fewer luma samples than this is small: threads started for it cost more than they give.
pub const SMALL: u64 = 65_536;

/// Whether a picture is small.
pub(crate) fn is_small(sequence: &Sequence) -> bool
    ensures { result ≡ is_small_picture sequence.now }
{
    u64::from(sequence.width) * u64::from(sequence.picture_height()) < SMALL
}

/// How many of these workers share the work on a picture: two of them at most where it has fewer than 65,536 luma
/// samples.
pub fn workers_for(sequence: &Sequence, workers: u32) -> u32
    requires { (1 ≤ workers) × (workers ≤ 64) }
    ensures value { result ≡ shared_by sequence.now workers }
    ensures from_1_to_workers { (1 ≤ result) × (result ≤ workers) }
{
    if is_small(sequence) {
        return workers.min(2);
    }
    workers
}
