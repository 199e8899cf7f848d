// Numbers as they are handed out.
ghost use Rattle.std.specs.Prelude.{◌≡◌, ◌<◌, ◌≤◌, ◌^◌, unsigned_abs, ◌+ℤ◌};
ghost use Rattle.crowd_data.specs.Limits.{IsPosition, IsVelocity};
ghost use Rattle.array_step.specs.Arrays.{advised, agent_of, mark_number};

use crate::agent::CrowdAgent;
use agent_step::Advice;
use crowd_data::{GREATEST_COORDINATE, GREATEST_SPEED, Mark};

fn mark_number(mark: Mark) -> u32
    ensures { result ≡ mark_number mark }
{
    match mark {
        Mark::Start => 0,
        Mark::Feasible => 1,
        Mark::Fallback => 2,
        Mark::Stopped => 3,
        Mark::Crowded => 4,
    }
}

// A small number in 32 bits.
fn narrow(z: i64) -> i32
    requires { unsigned_abs z < 2 ^ 31 }
    ensures { result ≡ z }
{
    z as i32
}

// A coordinate after a step.
fn moved_coordinate(z: i32, v: i64) -> i32
    requires near { unsigned_abs z ≤ GREATEST_COORDINATE }
    requires slow { unsigned_abs v ≤ GREATEST_SPEED }
    ensures { result ≡ z +ℤ v }
{
    narrow(i64::from(z) + v)
}

/// The agent after a step with this advice.
pub(crate) fn advised(agent: &CrowdAgent, advice: Advice) -> CrowdAgent
    requires position { IsPosition (agent_of agent.now).pos }
    requires slow { IsVelocity advice.vel }
    ensures { result ≡ advised agent.now advice.vel advice.mark advice.relief }
{
    CrowdAgent {
        x: moved_coordinate(agent.x, advice.vel.x),
        y: moved_coordinate(agent.y, advice.vel.y),
        vel_x: narrow(advice.vel.x),
        vel_y: narrow(advice.vel.y),
        mark: mark_number(advice.mark),
        relief: advice.relief,
        ..*agent
    }
}
