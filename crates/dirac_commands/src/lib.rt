//! The commands of `dirac_tool`: `run` reads the words, runs a command over a source and two sinks, and answers;
//! `run_on` and `run_beside` run it over readers and writers of std, and `answer_beside` also tells the answer.
#![tactic(auto)]

mod answering;
mod flushed;
mod rate;
mod running;

pub use answering::answer_beside;
pub use dirac_command_line::{
    Command, Ended, Words, WordsStop, ended_text, read_words, recon_path, status,
    tells_reconstructions,
};
pub use flushed::{run_beside, run_on};
pub use running::run;
