// Whether the parts of a scenario are valid.
ghost use Rattle.std.specs.Prelude.{◌≡◌, ◌≢◌, ◌≤◌, ◌↔◌, All, AllPairs, IsTrue, length};
ghost use Rattle.crowd_data.specs.Limits.{IsAgent, IsBuild, IsGoal, IsRing, IsScriptPost, IsSegment, IsVersion, IsWeight, IsWithin};
ghost use Rattle.crowd_data.specs.Scenario.{HasPlainParts, IsValid};
ghost use Rattle.crowd_data.specs.Walls.{IsClear};
ghost use Rattle.crowd_data.specs.declared.agent.Agent.{Agent};
ghost use Rattle.crowd_data.specs.declared.post.Goal.{Goal};
ghost use Rattle.crowd_data.specs.declared.post.ScriptPost.{ScriptPost};

use crate::agent::Agent;
use crate::clearance::clear;
use crate::limits::{
    FINE_RING, FIRST_VERSION, GREATEST_CONTROLLER, GREATEST_COORDINATE, GREATEST_HORIZON,
    GREATEST_RADIUS, GREATEST_RANGE, GREATEST_SPEED, GREATEST_WEIGHT, LATEST_VERSION, MOST_AGENTS,
    MOST_NEIGHBOURS, MOST_POSTS, MOST_SEGMENTS, MOST_STEPS, PLAIN_RING,
};
use crate::post::{Goal, ScriptPost};
use crate::segment::Segment;
use fixed_vec::V2;

// The coordinates are at most so large in size.
fn is_within(v: V2, most: u32) -> bool
    ensures { IsTrue result ↔ IsWithin v most }
{
    v.x.unsigned_abs() <= u64::from(most) && v.y.unsigned_abs() <= u64::from(most)
}

fn is_weight(weight: u32) -> bool
    ensures { IsTrue result ↔ IsWeight weight }
{
    1 <= weight && weight <= GREATEST_WEIGHT
}

// The sizes, the speed, the look-out and the weight are within their limits.
fn is_build(agent: &Agent) -> bool
    ensures { IsTrue result ↔ IsBuild agent.now }
{
    1 <= agent.radius
        && agent.radius <= GREATEST_RADIUS
        && agent.speed <= GREATEST_SPEED
        && agent.range <= GREATEST_RANGE
        && agent.most <= MOST_NEIGHBOURS
        && 1 <= agent.horizon
        && agent.horizon <= GREATEST_HORIZON
        && 1 <= agent.wall_horizon
        && agent.wall_horizon <= GREATEST_HORIZON
        && is_weight(agent.weight)
}

fn is_agent(agent: &Agent) -> bool
    ensures { IsTrue result ↔ IsAgent agent.now }
{
    is_within(agent.pos, GREATEST_COORDINATE)
        && is_within(agent.vel, GREATEST_SPEED)
        && is_within(agent.pref, GREATEST_SPEED)
        && is_build(agent)
}

fn is_segment(segment: &Segment) -> bool
    ensures { IsTrue result ↔ IsSegment segment.now }
{
    is_within(segment.a, GREATEST_COORDINATE) && is_within(segment.b, GREATEST_COORDINATE)
}

fn is_post(post: &ScriptPost, steps: u32, agents: usize) -> bool
    ensures { IsTrue result ↔ IsScriptPost steps agents post.now }
{
    1 <= post.frame
        && post.frame <= steps
        && (post.agent as usize) < agents
        && is_within(post.vel, GREATEST_SPEED)
}

fn is_goal(goal: &Goal, agents: usize) -> bool
    ensures { IsTrue result ↔ IsGoal agents goal.now }
{
    goal.controller <= GREATEST_CONTROLLER
        && (goal.agent as usize) < agents
        && is_within(goal.at, GREATEST_COORDINATE)
        && goal.pace <= GREATEST_SPEED
}

fn are_agents(agents: &[Agent]) -> bool
    ensures { IsTrue result ↔ All IsAgent agents.now }
{
    agents.iter().all(|agent| is_agent(agent))
}

fn are_segments(segments: &[Segment]) -> bool
    ensures { IsTrue result ↔ All IsSegment segments.now }
{
    segments.iter().all(|segment| is_segment(segment))
}

fn are_posts(posts: &[ScriptPost], steps: u32, agents: usize) -> bool
    ensures { IsTrue result ↔ All (IsScriptPost steps agents) posts.now }
{
    posts.iter().all(|post| is_post(post, steps, agents))
}

// The frames of the posts never fall.
fn are_in_order(posts: &[ScriptPost]) -> bool
    ensures { IsTrue result ↔ AllPairs (λ (p : ScriptPost) (q : ScriptPost). p.frame ≤ q.frame) posts.now }
{
    let mut last = 0;
    for post in posts {
        if post.frame < last {
            return false;
        }
        last = post.frame;
    }
    true
}

fn are_goals(goals: &[Goal], agents: usize) -> bool
    ensures { IsTrue result ↔ All (IsGoal agents) goals.now }
{
    goals.iter().all(|goal| is_goal(goal, agents))
}

// No agent has two goals. The table says which have one so far.
fn have_one_goal(goals: &[Goal], agents: usize) -> bool
    requires fit { All (IsGoal agents) goals.now }
    requires count { agents ≤ MOST_AGENTS }
    ensures { IsTrue result ↔ AllPairs (λ (g : Goal) (h : Goal). g.agent ≢ h.agent) goals.now }
{
    let mut table = [false; 10_000];
    for goal in goals {
        let agent = goal.agent as usize;
        if table[agent] {
            return false;
        }
        table[agent] = true;
    }
    true
}

fn is_clear_of_all(agent: &Agent, segments: &[Segment]) -> bool
    requires agent { IsAgent agent.now }
    requires segments { All IsSegment segments.now }
    ensures { IsTrue result ↔ All (IsClear agent.now.pos agent.now.radius) segments.now }
{
    segments
        .iter()
        .all(|segment| clear(agent.pos, agent.radius, segment))
}

fn are_clear(agents: &[Agent], segments: &[Segment]) -> bool
    requires agents { All IsAgent agents.now }
    requires segments { All IsSegment segments.now }
    ensures { IsTrue result ↔ All (λ (agent : Agent). All (IsClear agent.pos agent.radius) segments.now) agents.now }
{
    agents.iter().all(|agent| is_clear_of_all(agent, segments))
}

fn is_version(version: u32) -> bool
    ensures { IsTrue result ↔ IsVersion version }
{
    version == FIRST_VERSION || version == LATEST_VERSION
}

fn is_ring(ring: u32) -> bool
    ensures { IsTrue result ↔ IsRing ring }
{
    ring == PLAIN_RING || ring == FINE_RING
}

// What version 1 knows of: the plain ring, and no weight but 1.
fn are_plain(ring: u32, agents: &[Agent]) -> bool
    ensures { IsTrue result ↔ HasPlainParts ring agents.now }
{
    ring == PLAIN_RING && agents.iter().all(|agent| agent.weight == 1)
}

// The version and the ring exist, and version 1 has nothing that is new in version 2.
fn are_of_version(version: u32, ring: u32, agents: &[Agent]) -> bool
    ensures { IsTrue result ↔ (IsVersion version × IsRing ring × (version ≡ FIRST_VERSION → HasPlainParts ring agents.now)) }
{
    is_version(version) && is_ring(ring) && (version != FIRST_VERSION || are_plain(ring, agents))
}

// The steps and the counts are within their limits; goals need no greatest count of their own.
fn are_counts(steps: u32, agents: usize, segments: usize, posts: usize) -> bool
    ensures { IsTrue result ↔ ((steps ≤ MOST_STEPS) × (agents ≤ MOST_AGENTS) × (segments ≤ MOST_SEGMENTS) × (posts ≤ MOST_POSTS)) }
{
    steps <= MOST_STEPS
        && agents <= MOST_AGENTS as usize
        && segments <= MOST_SEGMENTS as usize
        && posts <= MOST_POSTS as usize
}

/// Whether these are the parts of a scenario: the version is 1 or 2, the ring 36 or 60, every number and count
/// within its limits, and in version 1 the ring is 36 and each weight 1; each post's frame is from 1 to the
/// steps, frames of posts never fall, each agent named exists, no agent has two goals, and each agent is clear
/// of each segment. It takes no memory. Its time grows with the count of agents times that of segments, and
/// with the other counts alone.
pub fn valid(
    version: u32,
    ring: u32,
    steps: u32,
    agents: &[Agent],
    segments: &[Segment],
    posts: &[ScriptPost],
    goals: &[Goal],
) -> bool
    ensures { IsTrue result ↔ IsValid (record { version = version; ring = ring; steps = steps; agents = agents.now; segments = segments.now; posts = posts.now; goals = goals.now }) }
{
    if !are_of_version(version, ring, agents) {
        return false;
    }
    if !are_counts(steps, agents.len(), segments.len(), posts.len()) {
        return false;
    }
    if !are_agents(agents) || !are_segments(segments) {
        return false;
    }
    if !are_posts(posts, steps, agents.len()) || !are_in_order(posts) {
        return false;
    }
    if !are_goals(goals, agents.len()) || !have_one_goal(goals, agents.len()) {
        return false;
    }
    are_clear(agents, segments)
}
