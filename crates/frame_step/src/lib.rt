//! The frames of a run: a stepper holds the present frame of a scenario, and makes the next one from it and
//! from posts. Workers share a step: each draws pieces of the agents from one counter, and moves their bodies.
#![tactic(auto)]

mod limits;
mod moves;
mod places;
mod posts;
mod putting;
mod stepper;
mod team;
mod worker;

pub use limits::MOST_WORKERS;
pub use stepper::Stepper;
