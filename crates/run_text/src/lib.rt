//! The text of a run, frame by frame: its scripted posts, its start, and each next frame made and written.
#![tactic(auto)]

mod frames;
mod script;

pub use frames::{write_next, write_start};
pub use script::list_script;
