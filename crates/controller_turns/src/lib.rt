//! The turns of controllers: a controller has goals for agents, and in a turn on a frame it posts, for each of them, a
//! heading from where the agent is. Its turns may run on a thread of its own, which a notice wakes and ends.
#![tactic(auto)]

mod controller;
mod headings;
mod notice;
mod spawning;
mod told;
mod turn_loop;

pub use controller::Controller;
pub use headings::heading;
pub use notice::{Notice, Stage};
pub use spawning::{TurnsPromise, begin};
pub use told::{Told, Writes};
pub use turn_loop::{Turns, is_newer, turns};
