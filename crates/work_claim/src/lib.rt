//! Numbers that several threads draw from one counter, each number once a round.
//!
//! The root begins a round, lends a claimer to each thread and takes them back. The root and the claimers draw
//! the numbers from 0 on, each draw by one atomic addition, until there are no more. Once all claimers are back
//! and somebody found no more, every number of the round was drawn, and none was drawn twice.
#![tactic(auto)]

mod claimer;
mod claims;
mod limits;
mod root;
mod rule;
mod seat;
mod view;

pub use claimer::Claimer;
pub use claims::Claims;
pub use limits::{MOST_CLAIMERS, MOST_ROUNDS};
pub use root::Root;
pub use view::RoundView;
