// The line of an agent, which depends on the scenario's version.
ghost use Rattle.std.specs.Prelude.{◌≡◌, ◌<◌, ◌≤◌, ◌+◌, ◌++◌, length};
ghost use Rattle.frame_text.specs.Lines.{agent_line, weight_text};
ghost use Rattle.frame_text.specs.Printed.{FitsAgent};

use crate::line::Line;
use crowd_data::{Agent, FIRST_VERSION};

// Appends the field of a weight, of at most 11 bytes, where the version has it.
fn put_weight(line: &mut Line, version: u32, weight: u32)
    requires { length line.old + 11 ≤ 160 }
    ensures text { line.new ≡ line.old ++ weight_text version weight }
    ensures size { length line.new ≤ length line.old + 11 }
{
    if version != FIRST_VERSION {
        line.put(b",");
        line.put_number(weight);
    }
}

/// The line of an agent in a scenario of this version.
#[tactic(auto, unfolding(crate::specs::Lines::agent_line))]
pub(crate) fn agent_line(version: u32, agent: &Agent) -> Line
    requires { FitsAgent agent.now }
    ensures value { result ≡ agent_line version agent.now }
    ensures some { 0 < length result }
{
    let mut line = Line::new();
    line.put(b"agent,");
    line.put_vector(agent.pos);
    line.put(b",");
    line.put_vector(agent.vel);
    line.put(b",");
    line.put_vector(agent.pref);
    line.put(b",");
    line.put_number(agent.radius);
    line.put(b",");
    line.put_number(agent.speed);
    line.put(b",");
    line.put_number(agent.range);
    line.put(b",");
    line.put_number(agent.most);
    line.put(b",");
    line.put_number(agent.horizon);
    line.put(b",");
    line.put_number(agent.wall_horizon);
    put_weight(&mut line, version, agent.weight);
    line.put(b"\n");
    line
}
