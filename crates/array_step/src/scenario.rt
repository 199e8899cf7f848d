// The scenario of one step that arrays stand for.
ghost use Rattle.std.specs.Prelude.{◌≡◌, ◌≤◌, ◌↔◌, All, IfErr, IfOk, IsTrue, length, map};
ghost use Rattle.crowd_data.specs.Limits.{IsAgent, IsRing, IsSegment};
ghost use Rattle.crowd_data.specs.Scenario.{IsValid};
ghost use Rattle.array_step.specs.Arrays.{agent_of, ring_of, scenario_of, segment_of};
ghost use Rattle.array_step.specs.Faults.{AreAgents, Tells};

use crate::agent::{CrowdAgent, agent_of};
use crate::fault::{ArrayFault, StepFault};
use crate::limits::{coordinate_outside, field_outside};
use crate::segment::{CrowdSegment, segment_of};
use crowd_data::{
    Agent, FINE_RING, LATEST_VERSION, MOST_AGENTS, MOST_SEGMENTS, PLAIN_RING, Scenario, Segment,
    first_on_segment,
};
use fixed_vec::List;
use std::alloc::Global;

// The ring that a number stands for.
fn ring_of(ring: u32) -> u32
    ensures { result ≡ ring_of ring }
{
    if ring == 0 { PLAIN_RING } else { ring }
}

fn is_ring(ring: u32) -> bool
    ensures { IsTrue result ↔ IsRing ring }
{
    ring == PLAIN_RING || ring == FINE_RING
}

// The agents, where all are within their limits.
fn all_agents(
    alloc: Global,
    agents: &[CrowdAgent],
    segments: &[CrowdSegment],
    ring: u32,
) -> Result<List<Agent>, StepFault>
    requires { IsRing (ring_of ring) }
    ensures value { IfOk result (λ list. list.items ≡ map agent_of agents.now) }
    ensures count { IfOk result (λ list. length agents.now ≤ MOST_AGENTS) }
    ensures limits { IfOk result (λ list. All IsAgent list.items) }
    ensures refused { IfErr result (Tells agents.now segments.now ring) }
{
    if agents.len() > MOST_AGENTS as usize {
        return Err(StepFault::Arrays(ArrayFault::TooManyAgents));
    }
    let mut list = List::with_room(alloc, agents.len())?;
    for (who, agent) in agents.iter().enumerate() {
        if let Some(field) = field_outside(agent) {
            let agent = who as u32;
            return Err(StepFault::Arrays(ArrayFault::AgentOutOfRange { agent, field }));
        }
        list.push(agent_of(agent));
    }
    Ok(list)
}

// The segments, where all are within their limits.
fn all_segments(
    alloc: Global,
    agents: &[CrowdAgent],
    segments: &[CrowdSegment],
    ring: u32,
) -> Result<List<Segment>, StepFault>
    requires ring { IsRing (ring_of ring) }
    requires agents { AreAgents agents.now }
    ensures value { IfOk result (λ list. list.items ≡ map segment_of segments.now) }
    ensures count { IfOk result (λ list. length segments.now ≤ MOST_SEGMENTS) }
    ensures limits { IfOk result (λ list. All IsSegment list.items) }
    ensures refused { IfErr result (Tells agents.now segments.now ring) }
{
    if segments.len() > MOST_SEGMENTS as usize {
        return Err(StepFault::Arrays(ArrayFault::TooManySegments));
    }
    let mut list = List::with_room(alloc, segments.len())?;
    for (which, segment) in segments.iter().enumerate() {
        if let Some(field) = coordinate_outside(segment) {
            let segment = which as u32;
            return Err(StepFault::Arrays(ArrayFault::SegmentOutOfRange { segment, field }));
        }
        list.push(segment_of(segment));
    }
    Ok(list)
}

/// The scenario of one step that these arrays stand for, or the first cause why they stand for none.
pub(crate) fn scenario_of(
    alloc: Global,
    agents: &[CrowdAgent],
    segments: &[CrowdSegment],
    ring: u32,
) -> Result<Scenario, StepFault>
    ensures value { IfOk result (λ s. s ≡ scenario_of agents.now segments.now ring) }
    ensures valid { IfOk result (λ s. IsValid s) }
    ensures refused { IfErr result (Tells agents.now segments.now ring) }
{
    let points = ring_of(ring);
    if !is_ring(points) {
        return Err(StepFault::Arrays(ArrayFault::NoSuchRing));
    }
    let crowd = all_agents(alloc, agents, segments, ring)?;
    let walls = all_segments(alloc, agents, segments, ring)?;
    if let Some(touch) = first_on_segment(crowd.items(), walls.items()) {
        return Err(StepFault::Arrays(ArrayFault::AgentOnSegment {
            agent: touch.agent,
            segment: touch.segment,
        }));
    }
    let posts = List::with_room(alloc, 0)?;
    let goals = List::with_room(alloc, 0)?;
    Ok(Scenario::of(LATEST_VERSION, points, 1, crowd, walls, posts, goals))
}
