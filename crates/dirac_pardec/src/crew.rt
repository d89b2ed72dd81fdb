ghost use Rattle.std.specs.Prelude.{◌≡◌, ◌<◌, ◌≤◌, true};

use dirac_refs::MOST_KEPT_SAMPLES;
use dirac_sequence_header::Sequence;
use dirac_slices::workers_for;

/// Workers that share the work on a picture or on pictures, and the gate that each passes before a row.
#[derive(Drop)]
pub(crate) struct Crew<'a, R, G> {
    pub(crate) rt: &'a R,
    pub(crate) workers: u32,
    pub(crate) gate: &'a G,
    ghost at_least_1: { 1 ≤ workers },
    ghost at_most_64: { workers ≤ 64 },
}

impl<'a, R, G> Crew<'a, R, G> {
    /// So many workers.
    pub(crate) fn new(rt: &'a R, workers: u32, gate: &'a G) -> Crew<'a, R, G>
        requires { (1 ≤ workers) × (workers ≤ 64) }
    {
        Crew { rt, workers, gate }
    }

    /// Those of them that share the work on a picture of this sequence.
    pub(crate) fn for_picture_of(&self, sequence: &Sequence) -> Crew<'a, R, G> {
        Crew::new(self.rt, workers_for(sequence, self.workers), self.gate)
    }

    /// How many of them each of so many pictures has while these are decoded side by side: at least one.
    pub(crate) fn each_of(&self, pictures: u32) -> u32
        requires { 1 ≤ pictures }
        ensures { (1 ≤ result) × (result ≤ 64) }
    {
        (self.workers / pictures).max(1)
    }
}

/// The most luma samples of a picture that is decoded ahead: all that are decoded together are held at once.
const MOST_LUMA_SAMPLES_AHEAD: u64 = 8_388_608;

/// How many luma samples a picture of this sequence has.
fn luma_samples(sequence: &Sequence) -> u64 {
    u64::from(sequence.width) * u64::from(sequence.picture_height())
}

/// Whether so many pictures of this sequence are sooner decoded by a worker each than by workers that share the rows of
/// each, and are small enough to be held at once.
pub(crate) fn are_enough<R, G>(crew: &Crew<R, G>, pictures: usize, sequence: &Sequence) -> bool
    ensures { result ≡ true → 1 < pictures }
{
    pictures >= 2
        && pictures > crew.workers as usize / 2
        && luma_samples(sequence) <= MOST_LUMA_SAMPLES_AHEAD
}

/// Whether so many inter pictures of this sequence are decoded at once: where they are enough for a worker each, or
/// where they are several with planes small enough for half samples to be kept. Where these aren't, each picture whose
/// rows workers share would hold those of all planes of both references at once.
pub(crate) fn are_decoded_at_once<R, G>(
    crew: &Crew<R, G>,
    pictures: usize,
    sequence: &Sequence,
) -> bool
    ensures { result ≡ true → 1 < pictures }
{
    are_enough(crew, pictures, sequence)
        || pictures >= 2 && luma_samples(sequence) <= u64::from(MOST_KEPT_SAMPLES)
}
