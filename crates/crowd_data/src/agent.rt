// Agents.
use fixed_vec::V2;

/// A disc that moves on its own: where it is, how it moves, and how it looks out for others.
#[derive(Clone, Copy, Debug, PartialEq, Eq)]
pub struct Agent {
    /// The position of the centre, in whole units. At the start each coordinate is at most 4,194,304 in
    /// size.
    pub pos: V2,
    /// The velocity in units per step, each coordinate at most 16,384 in size.
    pub vel: V2,
    /// The preferred velocity in units per step, each coordinate at most 16,384 in size.
    pub pref: V2,
    /// The radius in units, 1 to 32,768.
    pub radius: u32,
    /// The greatest speed in units per step, 0 to 16,384.
    pub speed: u32,
    /// The neighbour distance in units, 0 to 65,536: only agents that are nearer can be neighbours.
    pub range: u32,
    /// The most neighbours that it considers, 0 to 64.
    pub most: u32,
    /// The time horizon for other agents in steps, 1 to 4,096.
    pub horizon: u32,
    /// The time horizon for segments in steps, 1 to 4,096.
    pub wall_horizon: u32,
    /// The weight, 1 to 16: of what a pair has to make up, a heavier agent makes up more. Each is 1 in
    /// version 1.
    pub weight: u32,
}
