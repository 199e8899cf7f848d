//! The words of the command line: which command they ask for, with its numbers, read with `clap`.
#![tactic(auto)]

mod commands;
mod limits;
mod numbers;
mod options;

pub use commands::{Command, WordsFault, read_command};
pub use limits::{GREATEST_SAMPLE, MOST_AGENTS, MOST_STEPS, MOST_WORKERS};
