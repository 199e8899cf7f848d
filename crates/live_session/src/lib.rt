//! The run of a scenario with its controllers on threads of their own. Each looks at published frames and posts preferred
//! velocities for its agents while the stepping thread takes posts in, makes the next frame, writes and publishes it.
#![tactic(auto)]

mod desk;
mod ending;
mod fault;
mod frames;
mod gathering;
mod joining;
mod own_turns;
mod run;
mod session;
mod starting;
mod steered;
mod stepping;

pub use fault::LiveFault;
pub use run::{live, live_places};
