use dirac_sequence_header::Sequence;

/// A picture that is asked for: the payload of its unit, its parse code, and the open sequence.
#[derive(Clone, Copy)]
pub(crate) struct Asked<'a> {
    pub(crate) payload: &'a [u8],
    pub(crate) code: u8,
    pub(crate) sequence: &'a Sequence,
}
