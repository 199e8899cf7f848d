//! The half-planes of a pair of discs: which velocities keep the two apart for their horizon, and the
//! share of this that each of them takes.
//!
//! After van den Berg, Guy, Lin and Manocha, "Reciprocal n-Body Collision Avoidance", sections 3 and 4,
//! in whole numbers. The definitions stand in `crowd_data`, in `specs/Pairs.antt`.
#![tactic(auto)]

mod border;
mod leg;
mod narrow;
mod pair;
mod relative;
mod share;

pub use border::region;
pub use relative::relative_plane;
pub use share::{higher_plane, lower_plane};
