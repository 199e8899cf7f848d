// Posted preferred velocities, and goals.
use fixed_vec::V2;

/// The controller number of scripted posts; those of controllers are 0 to 15.
pub const SCRIPT: u32 = 16;

/// A preferred velocity that the scenario sets for an agent.
#[derive(Clone, Copy, Debug, PartialEq, Eq)]
pub struct ScriptPost {
    /// The frame in whose making it is taken in, from 1 to the scenario's steps.
    pub frame: u32,
    /// The number of the agent.
    pub agent: u32,
    /// The preferred velocity in units per step, each coordinate at most 16,384 in size.
    pub vel: V2,
}

/// A preferred velocity that was taken in, and who posted it.
#[derive(Clone, Copy, Debug, PartialEq, Eq)]
pub struct Post {
    /// The number of the controller, or `SCRIPT`.
    pub controller: u32,
    /// The place among the posts of this controller, from 0.
    pub seq: u32,
    /// The number of the agent.
    pub agent: u32,
    /// The preferred velocity in units per step, each coordinate at most 16,384 in size.
    pub vel: V2,
}

/// Where a controller steers an agent to.
#[derive(Clone, Copy, Debug, PartialEq, Eq)]
pub struct Goal {
    /// The number of the controller, 0 to 15.
    pub controller: u32,
    /// The number of the agent.
    pub agent: u32,
    /// The place to reach, each coordinate at most 4,194,304 in size.
    pub at: V2,
    /// The speed of the approach in units per step, 0 to 16,384.
    pub pace: u32,
}
