// The limits of agents and segments.
ghost use Rattle.std.specs.Prelude.{◌≡◌, IfNone, IfSome};
ghost use Rattle.crowd_data.specs.Limits.{IsAgent, IsSegment};
ghost use Rattle.array_step.specs.Arrays.{agent_of, segment_of};
ghost use Rattle.array_step.specs.Faults.{IsFieldOutside, IsCoordinateOutside, reaches_of, sizes_of};

use crate::agent::CrowdAgent;
use crate::segment::CrowdSegment;
use crowd_data::{
    GREATEST_COORDINATE, GREATEST_HORIZON, GREATEST_RADIUS, GREATEST_RANGE, GREATEST_SPEED,
    GREATEST_WEIGHT, MOST_NEIGHBOURS,
};

/// The least that each field of an agent may be in size, in order.
pub(crate) const LEAST: [u32; 13] = [0, 0, 0, 0, 0, 0, 1, 0, 0, 0, 1, 1, 0];

/// The most that each field of an agent may be in size, in order.
pub(crate) const MOST: [u32; 13] = [
    GREATEST_COORDINATE,
    GREATEST_COORDINATE,
    GREATEST_SPEED,
    GREATEST_SPEED,
    GREATEST_SPEED,
    GREATEST_SPEED,
    GREATEST_RADIUS,
    GREATEST_SPEED,
    GREATEST_RANGE,
    MOST_NEIGHBOURS,
    GREATEST_HORIZON,
    GREATEST_HORIZON,
    GREATEST_WEIGHT,
];

// The sizes of the fields that have limits, in order.
fn sizes(agent: &CrowdAgent) -> [u32; 13]
    ensures { result ≡ sizes_of agent.now }
{
    [
        agent.x.unsigned_abs(),
        agent.y.unsigned_abs(),
        agent.vel_x.unsigned_abs(),
        agent.vel_y.unsigned_abs(),
        agent.pref_x.unsigned_abs(),
        agent.pref_y.unsigned_abs(),
        agent.radius,
        agent.speed,
        agent.range,
        agent.most,
        agent.horizon,
        agent.wall_horizon,
        agent.weight,
    ]
}

/// The first field of an agent that is outside of its limits.
pub(crate) fn field_outside(agent: &CrowdAgent) -> Option<u32>
    ensures none { IfNone result (IsAgent (agent_of agent.now)) }
    ensures some { IfSome result (λ field. IsFieldOutside agent.now field) }
{
    let sizes = sizes(agent);
    for field in 0..13usize {
        if sizes[field] < LEAST[field] || MOST[field] < sizes[field] {
            return Some(field as u32);
        }
    }
    None
}

// The sizes of the coordinates, in order.
fn reaches(segment: &CrowdSegment) -> [u32; 4]
    ensures { result ≡ reaches_of segment.now }
{
    [
        segment.ax.unsigned_abs(),
        segment.ay.unsigned_abs(),
        segment.bx.unsigned_abs(),
        segment.by.unsigned_abs(),
    ]
}

/// The first coordinate of a segment that is outside of its limits.
pub(crate) fn coordinate_outside(segment: &CrowdSegment) -> Option<u32>
    ensures none { IfNone result (IsSegment (segment_of segment.now)) }
    ensures some { IfSome result (λ field. IsCoordinateOutside segment.now field) }
{
    let reaches = reaches(segment);
    for field in 0..4usize {
        if GREATEST_COORDINATE < reaches[field] {
            return Some(field as u32);
        }
    }
    None
}
