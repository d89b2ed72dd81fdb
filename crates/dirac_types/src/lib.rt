//! The settings of the encoder, with their ranges, names and defaults, the sizes of their pictures, and the names of
//! causes. Tables, pictures, limits and causes themselves are those of `dirac_common`, passed on.
#![tactic(auto)]

mod causes;
mod ranges;
mod settings;
mod shared;
mod sizes;

pub use causes::cause_name;
pub use dirac_base_formats::{BaseFormat, LAST_BASE, base_format};
pub use dirac_common::{
    Band, BandTable, BlockGrid, Cause, Chroma, Component, Fault, Kind, LARGEST_DEPTH,
    LARGEST_ENCODED_DEPTH, LARGEST_HEIGHT, LARGEST_INDEX, LARGEST_NARROW, LARGEST_SIDE,
    LARGEST_TABLE_SIDE, LARGEST_WAVELET, LARGEST_WIDTH, MOST_CODEBLOCKS, MOST_DIGITS, MOST_SAMPLES,
    MOST_SUPERBLOCKS, Narrow, NoMemory, Picture, Plane, Refusal, Stop, Table, Vector, Wide,
    with_sign,
};
pub use ranges::{step_across, step_down};
pub use settings::{BadSetting, Name, Settings};
