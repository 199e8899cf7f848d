//! The half-planes that an agent never gives up: those of its speed polygon, and those that keep it off
//! wall segments.
//!
//! A `Ring`, the plain or the fine one, gives the half-planes of a greatest speed, and proves that a velocity
//! in all of them, rounded, keeps within that speed. `speed_law` and `inner_law` say what holds by either. `in_reach` tells which segments can matter to an agent, and
//! `wall_plane` gives the half-plane of one that does.
#![tactic(auto)]

mod laws;
mod reach;
mod ring;
mod wall;

pub use laws::{inner_law, speed_law};
pub use reach::in_reach;
pub use ring::Ring;
pub use wall::wall_plane;
