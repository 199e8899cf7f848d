// The texts of a scenario, of a frame and of the end of a transcript.
ghost use Rattle.std.specs.Prelude.{◌≡◌, ◌≤◌, ◌^◌, [], ◌++◌, ℕ, List, length, flat_map, All};
ghost use Rattle.outside_io.specs.Causes.{HasCause, Wrote};
ghost use Rattle.fixed_vec.specs.Vector.{IsBelow};
ghost use Rattle.crowd_data.specs.Run.{snapshot_of};
ghost use Rattle.crowd_data.specs.declared.post.Post.{Post};
ghost use Rattle.frame_text.specs.Lines.{agent_line, end_line, frame_line, header_line, ring_lines, steps_line};
ghost use Rattle.frame_text.specs.Printed.{FitsAgent, FitsBody};
ghost use Rattle.frame_text.specs.Transcript.{frame_text, head_text, scenario_text};

use crate::agent_line::agent_line;
use crate::line::numbered;
use crate::printed::Printed;
use crowd_data::{Agent, FINE_RING, Frame, Post, Scenario};
use outside_io::{Failed, Sink, write_whole};

// The line of an item, handed to the sink as one piece.
fn write_line<T: Sink, P: Printed>(out: &mut T, item: &P) -> Result<(), Failed>
    requires { P.fits item.now }
    ensures text { Wrote (T.held out.old) (T.held out.new) result (P.text item.now) }
    ensures cause { HasCause (T.faults out.old) (T.faults out.new) result }
{
    let line = item.line();
    write_whole(out, line.bytes())
}

// One line for each item.
fn write_lines<T: Sink, P: Printed>(out: &mut T, items: &[P]) -> Result<(), Failed>
    requires { All P.fits items.now }
    ensures text { Wrote (T.held out.old) (T.held out.new) result (flat_map P.text items.now) }
    ensures cause { HasCause (T.faults out.old) (T.faults out.new) result }
{
    for item in items {
        write_line(out, item)?;
    }
    Ok(())
}

// The line of an agent in a scenario of this version.
fn write_agent<T: Sink>(out: &mut T, version: u32, agent: &Agent) -> Result<(), Failed>
    requires { FitsAgent agent.now }
    ensures text { Wrote (T.held out.old) (T.held out.new) result (agent_line version agent.now) }
    ensures cause { HasCause (T.faults out.old) (T.faults out.new) result }
{
    let line = agent_line(version, agent);
    write_whole(out, line.bytes())
}

// One line for each agent.
fn write_agents<T: Sink>(out: &mut T, version: u32, agents: &[Agent]) -> Result<(), Failed>
    requires { All FitsAgent agents.now }
    ensures text { Wrote (T.held out.old) (T.held out.new) result (flat_map (agent_line version) agents.now) }
    ensures cause { HasCause (T.faults out.old) (T.faults out.new) result }
{
    for agent in agents {
        write_agent(out, version, agent)?;
    }
    Ok(())
}

#[tactic(auto, unfolding(crate::specs::Lines::header_line))]
fn write_header<T: Sink>(out: &mut T, version: u32) -> Result<(), Failed>
    ensures text { Wrote (T.held out.old) (T.held out.new) result (header_line version) }
    ensures cause { HasCause (T.faults out.old) (T.faults out.new) result }
{
    let line = numbered(b"crowd,", version);
    write_whole(out, line.bytes())
}

#[tactic(auto, unfolding(crate::specs::Lines::steps_line))]
fn write_steps<T: Sink>(out: &mut T, steps: u32) -> Result<(), Failed>
    ensures text { Wrote (T.held out.old) (T.held out.new) result (steps_line steps) }
    ensures cause { HasCause (T.faults out.old) (T.faults out.new) result }
{
    let line = numbered(b"steps,", steps);
    write_whole(out, line.bytes())
}

// The line of the ring, where it is the fine one.
#[tactic(auto, unfolding(crate::specs::Lines::ring_line))]
fn write_ring<T: Sink>(out: &mut T, points: u32) -> Result<(), Failed>
    ensures text { Wrote (T.held out.old) (T.held out.new) result (flat_map (λ (line : List ℕ). line) (ring_lines points)) }
    ensures cause { HasCause (T.faults out.old) (T.faults out.new) result }
{
    if points != FINE_RING {
        return Ok(());
    }
    let line = numbered(b"ring,", points);
    write_whole(out, line.bytes())
}

// The lines before the agents.
fn write_head<T: Sink>(out: &mut T, scenario: &Scenario) -> Result<(), Failed>
    ensures text { Wrote (T.held out.old) (T.held out.new) result (head_text scenario.now) }
    ensures cause { HasCause (T.faults out.old) (T.faults out.new) result }
{
    write_header(out, scenario.version())?;
    write_steps(out, scenario.steps())?;
    write_ring(out, scenario.ring())
}

#[tactic(auto, unfolding(crate::specs::Lines::frame_line))]
fn write_number<T: Sink>(out: &mut T, number: u32) -> Result<(), Failed>
    ensures text { Wrote (T.held out.old) (T.held out.new) result (frame_line number) }
    ensures cause { HasCause (T.faults out.old) (T.faults out.new) result }
{
    let line = numbered(b"frame,", number);
    write_whole(out, line.bytes())
}

/// Appends the text of a scenario, each line as one piece. After `Failed`, which comes only where the
/// sink's count of faults rose, the sink holds a prefix of the text more. It takes no memory.
pub fn write_scenario<T: Sink>(out: &mut T, scenario: &Scenario) -> Result<(), Failed>
    ensures text { Wrote (T.held out.old) (T.held out.new) result (scenario_text scenario.now) }
    ensures cause { HasCause (T.faults out.old) (T.faults out.new) result }
{
    write_head(out, scenario)?;
    write_agents(out, scenario.version(), scenario.agents())?;
    write_lines(out, scenario.segments())?;
    write_lines(out, scenario.posts())?;
    write_lines(out, scenario.goals())
}

/// Appends the lines of a frame and of the posts that were taken in when it was made, each line as one
/// piece. Coordinates are below 2^31 in size. After `Failed`, which comes only where the sink's count of
/// faults rose, the sink holds a prefix of the text more. It takes no memory.
pub fn write_frame<T: Sink>(out: &mut T, frame: &Frame, posts: &[Post]) -> Result<(), Failed>
    requires bodies { All FitsBody frame.now.bodies.items }
    requires posts { All (λ (post : Post). IsBelow post.vel (2 ^ 31)) posts.now }
    ensures text { Wrote (T.held out.old) (T.held out.new) result (frame_text (snapshot_of frame.now) posts.now) }
    ensures cause { HasCause (T.faults out.old) (T.faults out.new) result }
{
    write_number(out, frame.number)?;
    write_lines(out, posts)?;
    write_lines(out, frame.bodies.items())
}

/// Appends the line that ends a transcript, with the number of its last frame, as one piece. After
/// `Failed`, which comes only where the sink's count of faults rose, the sink holds a prefix of the line
/// more. It takes no memory.
#[tactic(auto, unfolding(crate::specs::Lines::end_line))]
pub fn write_end<T: Sink>(out: &mut T, number: u32) -> Result<(), Failed>
    ensures text { Wrote (T.held out.old) (T.held out.new) result (end_line number) }
    ensures cause { HasCause (T.faults out.old) (T.faults out.new) result }
{
    let line = numbered(b"end,", number);
    write_whole(out, line.bytes())
}
