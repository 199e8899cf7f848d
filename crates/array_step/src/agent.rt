// Agents as a caller holds them.
ghost use Rattle.std.specs.Prelude.{◌≡◌};
ghost use Rattle.array_step.specs.Arrays.{agent_of, weight_of};

use crowd_data::Agent;
use fixed_vec::V2;

/// An agent as a caller holds it: 15 whole numbers of 32 bits each, with no gap. The first 13 are checked at
/// each call; the last two are written by it alone.
#[repr(C)]
#[derive(Clone, Copy, Debug, PartialEq, Eq)]
pub struct CrowdAgent {
    /// The position of the centre in units, each coordinate at most 4,194,304 in size.
    pub x: i32,
    pub y: i32,
    /// The velocity in units per step, each coordinate at most 16,384 in size.
    pub vel_x: i32,
    pub vel_y: i32,
    /// The preferred velocity in units per step, each coordinate at most 16,384 in size.
    pub pref_x: i32,
    pub pref_y: i32,
    /// The radius in units, 1 to 32,768.
    pub radius: u32,
    /// The greatest speed in units per step, 0 to 16,384.
    pub speed: u32,
    /// The neighbour distance in units, 0 to 65,536: only agents that are nearer can be neighbours.
    pub range: u32,
    /// The most neighbours that it considers, 0 to 64.
    pub most: u32,
    /// The time horizon for other agents in steps, 1 to 4,096.
    pub horizon: u32,
    /// The time horizon for segments in steps, 1 to 4,096.
    pub wall_horizon: u32,
    /// The weight, 1 to 16: of what a pair has to make up, a heavier agent makes up more. 0 is the default,
    /// which is 1.
    pub weight: u32,
    /// How the velocity came about: 0 start, 1 feasible, 2 fallback, 3 stopped, 4 crowded.
    pub mark: u32,
    /// By how many lengths of their normals the neighbours' half-planes were relieved, below 2^18.
    pub relief: u32,
}

// It has no gap.
const _: () = prove!(size_of::<CrowdAgent>() == 60);

const DEFAULT_WEIGHT: u32 = 1;

// The weight that a field stands for.
fn weight_of(weight: u32) -> u32
    ensures { result ≡ weight_of weight }
{
    if weight == 0 { DEFAULT_WEIGHT } else { weight }
}

/// The agent of a scenario that this one stands for.
pub(crate) fn agent_of(agent: &CrowdAgent) -> Agent
    ensures { result ≡ agent_of agent.now }
{
    Agent {
        pos: V2 {
            x: i64::from(agent.x),
            y: i64::from(agent.y),
        },
        vel: V2 {
            x: i64::from(agent.vel_x),
            y: i64::from(agent.vel_y),
        },
        pref: V2 {
            x: i64::from(agent.pref_x),
            y: i64::from(agent.pref_y),
        },
        radius: agent.radius,
        speed: agent.speed,
        range: agent.range,
        most: agent.most,
        horizon: agent.horizon,
        wall_horizon: agent.wall_horizon,
        weight: weight_of(agent.weight),
    }
}
