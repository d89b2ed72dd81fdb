/// The greatest width of a picture, in luma samples.
pub const LARGEST_WIDTH: u32 = 4096;

/// The greatest height of a picture, in luma samples.
pub const LARGEST_HEIGHT: u32 = 2304;

/// The greatest width and height that calls on a plane of samples take, in samples: at least those of a picture.
pub const LARGEST_SIDE: u32 = 4096;

/// The greatest width and height of a table of values: twice a plane's, for its half samples and for its padding.
pub const LARGEST_TABLE_SIDE: u32 = 8192;

/// The most samples of a picture, in all of its planes together.
pub const MOST_SAMPLES: usize = 28_311_552;

/// The most superblocks of a picture, across and down: each is at least four luma samples wide and high.
pub const MOST_SUPERBLOCKS: u32 = 1024;

/// The most codeblocks of a subband, across and down.
pub const MOST_CODEBLOCKS: u32 = 8192;

/// The greatest wavelet index.
pub const LARGEST_WAVELET: u32 = 6;

/// The greatest quantiser index.
pub const LARGEST_INDEX: u32 = 99;

/// The greatest transform depth that is read.
pub const LARGEST_DEPTH: u32 = 5;

/// The greatest transform depth that is written.
pub const LARGEST_ENCODED_DEPTH: u32 = 4;

/// The most binary digits of a coded number behind its leading one.
pub const MOST_DIGITS: usize = 38;

/// The greatest magnitude of a plane that is transformed in 32 bits: no sum of a level then leaves them.
pub const LARGEST_NARROW: u32 = 4095;
