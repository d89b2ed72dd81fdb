//! The words of a command line, as commands with their settings, points and numbers; and how an answer is spelt and
//! told, and which exit status it has.
#![tactic(auto)]

mod checks;
mod ended;
mod options;
mod points;
mod telling;
mod words;

pub use checks::{check_make, check_rate, check_workers};
pub use ended::{Ended, after_flushes, ended_text, status};
pub use telling::tell;
pub use words::{Command, Words, WordsStop, read_words, recon_path, tells_reconstructions};
