//! What a crowd is: agents among wall segments, their scenario and its frames, and the plain definition
//! of how the crowd moves.
//!
//! The definitions stand in `specs/`: `Limits` and `Scenario` say what is accepted, `RingPlanes`,
//! `Walls`, `Pairs` and `Neighbours` what an agent has to respect, `Advice` what it does, `Run` how one
//! frame follows from another, `Present` what holds of every frame, and `Safety` and `SafeSteps` what a
//! safe step is. `proofs/` has what is known of them: crowds, posts, frames, neighbours and shares.
#![tactic(auto)]

mod agent;
mod clearance;
mod copies;
mod frame;
mod limits;
mod pair;
mod post;
mod scenario;
mod script;
mod segment;
mod standing;
mod validity;

pub use agent::Agent;
pub use clearance::clear;
pub use copies::{copy_frame, copy_posts};
pub use frame::{Body, Frame, Mark, Moves, first_frame};
pub use limits::{
    FINE_RING, FIRST_VERSION, GREATEST_AGENT, GREATEST_CONTROLLER, GREATEST_COORDINATE,
    GREATEST_HORIZON, GREATEST_RADIUS, GREATEST_RANGE, GREATEST_SPEED, GREATEST_WEIGHT,
    LATEST_VERSION, MOST_AGENTS, MOST_NEIGHBOURS, MOST_POSTS, MOST_SEGMENTS, MOST_STEPS,
    PLAIN_RING,
};
pub use pair::{Disc, Place, Region};
pub use post::{Goal, Post, SCRIPT, ScriptPost};
pub use scenario::Scenario;
pub use script::push_script;
pub use segment::Segment;
pub use standing::{Touch, first_on_segment};
pub use validity::valid;
