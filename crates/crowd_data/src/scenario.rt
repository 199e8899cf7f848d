// Scenarios.
ghost use Rattle.std.specs.Prelude.{◌≡◌, ◌≤◌, All};
ghost use Rattle.crowd_data.specs.Scenario.{IsValid, Parts, controllers_of};
ghost use Rattle.crowd_data.specs.declared.post.Goal.{Goal};

use crate::agent::Agent;
use crate::post::{Goal, ScriptPost};
use crate::segment::Segment;
use fixed_vec::List;
use std::marker::Model;

/// What a run is made from: a version, the ring of the speed polygons, steps, agents, segments, scripted
/// posts and goals. Its type keeps that they are valid: every number and count is within its limits,
/// version 1 has the plain ring and weights of 1 alone, the frames of the posts never fall, each agent
/// named exists, no agent has two goals, and each agent is clear of each segment.
#[derive(Drop)]
pub struct Scenario {
    version: u32,
    ring: u32,
    steps: u32,
    agents: List<Agent>,
    segments: List<Segment>,
    posts: List<ScriptPost>,
    goals: List<Goal>,
}

impl Model for Scenario {
    ghost Value = { Parts };

    ghost view = { λ s. record { version = s.version; ring = s.ring; steps = s.steps; agents = s.agents.items; segments = s.segments.items; posts = s.posts.items; goals = s.goals.items } };

    ghost invariant = { λ s. IsValid (record { version = s.version; ring = s.ring; steps = s.steps; agents = s.agents.items; segments = s.segments.items; posts = s.posts.items; goals = s.goals.items }) };
}

impl Scenario {
    /// The scenario with these parts, which are valid.
    pub fn of(
        version: u32,
        ring: u32,
        steps: u32,
        agents: List<Agent>,
        segments: List<Segment>,
        posts: List<ScriptPost>,
        goals: List<Goal>,
    ) -> Scenario
        requires { IsValid (record { version = version; ring = ring; steps = steps; agents = agents.items; segments = segments.items; posts = posts.items; goals = goals.items }) }
        ensures { result ≡ record { version = version; ring = ring; steps = steps; agents = agents.items; segments = segments.items; posts = posts.items; goals = goals.items } }
    {
        Scenario {
            version,
            ring,
            steps,
            agents,
            segments,
            posts,
            goals,
        }
    }

    /// The version, 1 or 2.
    pub fn version(&self) -> u32
        ensures value { result ≡ self.now.version }
        ensures valid { IsValid self.now }
    {
        self.version
    }

    /// How many points the ring of the speed polygons has, 36 or 60.
    pub fn ring(&self) -> u32
        ensures value { result ≡ self.now.ring }
        ensures valid { IsValid self.now }
    {
        self.ring
    }

    /// How many steps a whole run has, 0 to 100,000.
    pub fn steps(&self) -> u32
        ensures value { result ≡ self.now.steps }
        ensures valid { IsValid self.now }
    {
        self.steps
    }

    /// The agents in order of number, 0 to 10,000 of them.
    pub fn agents(&self) -> &[Agent]
        ensures value { result.now ≡ self.now.agents }
        ensures valid { IsValid self.now }
    {
        self.agents.items()
    }

    /// The wall segments in order of number, 0 to 2,000 of them.
    pub fn segments(&self) -> &[Segment]
        ensures value { result.now ≡ self.now.segments }
        ensures valid { IsValid self.now }
    {
        self.segments.items()
    }

    /// The scripted posts, 0 to 100,000 of them, whose frames never fall.
    pub fn posts(&self) -> &[ScriptPost]
        ensures value { result.now ≡ self.now.posts }
        ensures valid { IsValid self.now }
    {
        self.posts.items()
    }

    /// The goals, at most one per agent.
    pub fn goals(&self) -> &[Goal]
        ensures value { result.now ≡ self.now.goals }
        ensures valid { IsValid self.now }
    {
        self.goals.items()
    }

    /// One more than the greatest controller number among the goals, or 0 without goals.
    pub fn controllers(&self) -> u32
        ensures { result ≡ controllers_of self.now.goals }
    {
        greatest_controller(self.goals.items())
    }
}

// One more than the greatest controller number, or 0.
fn greatest_controller(goals: &[Goal]) -> u32
    requires { All (λ (goal : Goal). goal.controller ≤ 15) goals.now }
    ensures { result ≡ controllers_of goals.now }
{
    let mut count = 0;
    for goal in goals {
        if goal.controller >= count {
            count = goal.controller + 1;
        }
    }
    count
}
