#![tactic(auto)]

//! The wavelet transforms as lifting steps in place.

mod columns;
mod half_ends;
mod half_levels;
mod half_lines;
mod half_rows;
mod halves;
mod held;
mod lanes;
mod laws;
mod levels;
mod liftable;
mod lines;
mod narrow_levels;
mod rings;
mod step;
mod tables;
mod wavelets;
mod zeros;

pub use half_levels::{LinesAtWork, RowPairs, synth_level_by_lines};
pub use half_rows::{HalfRows, analyse_halves_level};
pub use held::{Held, is_narrow};
pub use laws::{lines_come_in_turn, windows_of_rows_synthesise_alike, zeros_stay_zeros};
pub use levels::{analyse_level, synth_level};
pub use lines::{analyse_line, synth_line};
pub use narrow_levels::synth_level_narrow;
