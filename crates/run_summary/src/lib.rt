//! The summary of a run in one line: its steps and agents, how many bodies of its frames have each mark,
//! the greatest relief among them, and the sums of the coordinates in its last frame.
#![tactic(auto)]

mod counts;
mod positions;
mod summary;
mod text;

pub use summary::Summary;
pub use text::write_summary;
