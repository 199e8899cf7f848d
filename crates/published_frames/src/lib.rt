//! Frames for readers on their own threads: one writer publishes the frames of a run, and readers look at the newest
//! one without a lock, while the next one is filled.
//!
//! The frames lie in two copies of `left_right`. A log of `logbook` that takes no memory has the whole history; the
//! frame that is shown, each note and each reader bears a token of how much of it there was, and so no reader goes back.
#![tactic(auto)]

mod counts;
mod entry;
mod log;
mod log_prefix;
mod note;
mod opening;
mod reader;
mod rule;
mod shown;
mod view;
mod writer;

pub use counts::CONTROLLERS;
pub use entry::Step;
pub use note::Note;
pub use opening::open;
pub use reader::{FrameGuard, FrameReader};
pub use writer::{FrameWriter, Unpublished};
