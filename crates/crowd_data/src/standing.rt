// Which agent stands on which segment.
ghost use Rattle.std.specs.Prelude.{◌≡◌, ◌≤◌, All, IfNone, IfSome, Some, length, slice_get, take};
ghost use Rattle.crowd_data.specs.Limits.{IsAgent, IsSegment};
ghost use Rattle.crowd_data.specs.Walls.{IsClear};
ghost use Rattle.crowd_data.specs.declared.segment.Segment.{Segment};
ghost use Rattle.crowd_data.specs.Standing.{AllClear, OnSegment};

use crate::agent::Agent;
use crate::clearance::clear;
use crate::limits::{MOST_AGENTS, MOST_SEGMENTS};
use crate::segment::Segment;

/// An agent that isn't clear of a segment.
#[derive(Clone, Copy)]
pub struct Touch {
    pub agent: u32,
    pub segment: u32,
}

// The first segment that an agent isn't clear of.
fn first_touched(agent: &Agent, segments: &[Segment]) -> Option<u32>
    requires agent { IsAgent agent.now }
    requires segments { All IsSegment segments.now }
    requires count { length segments.now ≤ MOST_SEGMENTS }
    ensures none { IfNone result (All (IsClear agent.now.pos agent.now.radius) segments.now) }
    ensures some { IfSome result (λ which. (segment : Segment) × (slice_get segments.now which ≡ Some segment)
        × (¬ IsClear agent.now.pos agent.now.radius segment) × All (IsClear agent.now.pos agent.now.radius) (take which segments.now)) }
{
    for (which, segment) in segments.iter().enumerate() {
        if !clear(agent.pos, agent.radius, segment) {
            return Some(which as u32);
        }
    }
    None
}

/// The first agent that isn't clear of some segment, with the first such segment. Its time grows with the
/// count of agents times that of segments; it takes no memory.
pub fn first_on_segment(agents: &[Agent], segments: &[Segment]) -> Option<Touch>
    requires agents { All IsAgent agents.now }
    requires agent_count { length agents.now ≤ MOST_AGENTS }
    requires segments { All IsSegment segments.now }
    requires segment_count { length segments.now ≤ MOST_SEGMENTS }
    ensures none { IfNone result (AllClear agents.now segments.now) }
    ensures some { IfSome result (λ touch. OnSegment agents.now segments.now touch.agent touch.segment) }
{
    for (who, agent) in agents.iter().enumerate() {
        if let Some(segment) = first_touched(agent, segments) {
            return Some(Touch {
                agent: who as u32,
                segment,
            });
        }
    }
    None
}
