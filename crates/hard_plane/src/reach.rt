// Segments in reach of an agent.
ghost use Rattle.std.specs.Prelude.{◌≡◌, ◌^◌, ◌<◌, pos, ◌+ℤ◌, ◌-ℤ◌, unsigned_abs};
ghost use Rattle.std.specs.Int.{int_max, int_min};
ghost use Rattle.fixed_vec.specs.Vector.{IsBelow};
ghost use Rattle.crowd_data.specs.Limits.{IsBuild, IsSegment};
ghost use Rattle.crowd_data.specs.Walls.{in_reach, is_between, reach_of};

use crowd_data::{Agent, Segment};
use fixed_vec::V2;

// As far as an agent can come within its wall horizon, with its radius.
fn reach(agent: &Agent) -> i64
    requires { IsBuild agent.now }
    ensures value { result ≡ pos (reach_of agent.now) }
    ensures small { unsigned_abs result < 2 ^ 27 }
{
    (agent.radius as u64 + agent.wall_horizon as u64 * agent.speed as u64) as i64
}

fn low(a: i64, b: i64, grown: i64) -> i64
    requires a_small { unsigned_abs a < 2 ^ 23 }
    requires b_small { unsigned_abs b < 2 ^ 23 }
    requires grown_small { unsigned_abs grown < 2 ^ 27 }
    ensures { result ≡ int_min a b -ℤ grown }
{
    a.min(b) - grown
}

fn high(a: i64, b: i64, grown: i64) -> i64
    requires a_small { unsigned_abs a < 2 ^ 23 }
    requires b_small { unsigned_abs b < 2 ^ 23 }
    requires grown_small { unsigned_abs grown < 2 ^ 27 }
    ensures { result ≡ int_max a b +ℤ grown }
{
    a.max(b) + grown
}

// A coordinate lies between two others, grown on both sides.
fn is_between(z: i64, a: i64, b: i64, grown: i64) -> bool
    requires a_small { unsigned_abs a < 2 ^ 23 }
    requires b_small { unsigned_abs b < 2 ^ 23 }
    requires grown_small { unsigned_abs grown < 2 ^ 27 }
    ensures { result ≡ is_between z a b grown }
{
    low(a, b, grown) <= z && z <= high(a, b, grown)
}

/// Whether a segment is in reach of an agent at this position, whose coordinates are below 2^31 in
/// size: the position lies in the segment's bounding box, grown on all sides by the agent's radius and
/// as far as it comes within its wall horizon; the border is in reach. The agent and the segment are
/// within the limits of a scenario.
pub fn in_reach(pos: V2, agent: &Agent, segment: &Segment) -> bool
    requires position { IsBelow pos (2 ^ 31) }
    requires agent { IsBuild agent.now }
    requires segment { IsSegment segment.now }
    ensures { result ≡ in_reach pos agent.now segment.now }
{
    let grown = reach(agent);
    is_between(pos.x, segment.a.x, segment.b.x, grown)
        && is_between(pos.y, segment.a.y, segment.b.y, grown)
}
