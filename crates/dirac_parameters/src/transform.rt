use crate::counts::Counts;

/// How a picture's coefficients are laid out.
#[derive(Drop)]
pub struct Transform {
    /// The number of the wavelet, from 0 to 6.
    pub wavelet: u8,
    /// How many levels the wavelet was applied to, from 1 to 5.
    pub depth: u8,
    /// The counts of codeblocks of levels 0 to `depth`.
    pub counts: Counts,
    /// The codeblock mode: in mode 0 all codeblocks of a subband have its quantiser index; in mode 1 each may
    /// change it.
    pub mode: u8,
}
