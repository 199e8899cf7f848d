//! The top calls: the words of a command, bytes in, bytes out, and a status.
#![tactic(auto)]

mod accepted;
mod commands;
mod input;
mod output;
mod run;
mod scripted;
mod soak;
mod status;
mod top_call;

pub use commands::offline;
pub use top_call::orca;
