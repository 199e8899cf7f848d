// Frames of a run.
ghost use Rattle.std.specs.Prelude.{◌≡◌, IfOk};
ghost use Rattle.crowd_data.specs.Run.{snapshot_of, start_of};

use crate::post::Post;
use crate::scenario::Scenario;
use fixed_vec::{List, NoMemory, V2};
use std::alloc::Global;

/// How a body's velocity came about.
#[derive(Clone, Copy, Debug, PartialEq, Eq)]
pub enum Mark {
    /// It is the scenario's own, in frame 0.
    Start,
    /// All half-planes admitted it.
    Feasible,
    /// The neighbours' half-planes had to be relieved.
    Fallback,
    /// Walls left no room, and the agent stands still.
    Stopped,
    /// Some near agent wasn't among the neighbours.
    Crowded,
}

/// An agent in a frame.
#[derive(Clone, Copy, Debug, PartialEq, Eq)]
pub struct Body {
    /// The number of the agent.
    pub agent: u32,
    /// The position of the centre in units, each coordinate below 2^31 in size.
    pub pos: V2,
    /// The velocity that it moved with to get here, in units per step.
    pub vel: V2,
    /// The preferred velocity after the frame's posts, in units per step.
    pub pref: V2,
    /// How the velocity came about.
    pub mark: Mark,
    /// By how many lengths of their normals the neighbours' half-planes were relieved, below 2^18.
    pub relief: u32,
}

/// The bodies of all agents at one moment.
#[derive(Drop)]
pub struct Frame {
    /// How many steps led to it.
    pub number: u32,
    /// The bodies in order of agent number, from 0.
    pub bodies: List<Body>,
}

/// A frame with the posts that were taken in when it was made.
#[derive(Drop)]
pub struct Moves {
    pub posts: List<Post>,
    pub frame: Frame,
}

/// Frame 0: each agent with its position, velocity and preferred velocity, the mark Start and no relief.
/// `NoMemory` is answered where memory runs out (documented, not proved).
pub fn first_frame(alloc: Global, scenario: &Scenario) -> Result<Frame, NoMemory>
    ensures { IfOk result (λ frame. snapshot_of frame ≡ start_of scenario.now) }
{
    let agents = scenario.agents();
    let mut bodies = List::with_room(alloc, agents.len())?;
    for (number, agent) in agents.iter().enumerate() {
        bodies.push(Body {
            agent: number as u32,
            pos: agent.pos,
            vel: agent.vel,
            pref: agent.pref,
            mark: Mark::Start,
            relief: 0,
        });
    }
    Ok(Frame { number: 0, bodies })
}
