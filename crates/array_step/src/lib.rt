//! One step of a crowd that its caller holds in arrays: agents in, agents out. Nothing is kept from one call
//! to the next, so agents and segments may come, change and go between them.
//!
//! Each call checks the arrays, and makes of the agents the next frame of the scenario that the arrays stand
//! for, by the plain definition.
#![tactic(auto)]

mod agent;
mod fault;
mod first_step;
mod laws;
mod limits;
mod moves;
mod numbers;
mod scenario;
mod segment;

pub use agent::CrowdAgent;
pub use fault::{ArrayFault, StepFault};
pub use laws::{one_step, parts_make_a_step};
pub use moves::{step, step_part};
pub use segment::CrowdSegment;
