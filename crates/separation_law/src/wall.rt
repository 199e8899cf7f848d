// Discs that respect a segment.
ghost use Rattle.std.specs.Prelude.{◌≤◌};
ghost use Rattle.crowd_data.specs.Safety.{OffThroughout};
ghost use Rattle.crowd_data.specs.Walls.{IsClear};
ghost use Rattle.separation_law.specs.Respecting.{Respects, StaysOffFor};

use crowd_data::{Agent, Segment};
use fixed_vec::V2;

/// A disc at this position that is clear of a segment, and whose new velocity respects it, stays off the
/// segment for the agent's wall horizon, and so for the one step. A segment in reach is respected by a
/// velocity in its wall plane, one out of reach by a velocity no longer than the agent's speed, and each by
/// zero.
pub fn off_segment(pos: V2, agent: &Agent, segment: &Segment, vel: V2)
    requires some_radius { 1 ≤ agent.now.radius }
    requires some_horizon { 1 ≤ agent.now.wall_horizon }
    requires clear { IsClear pos agent.now.radius segment.now }
    requires respects { Respects pos agent.now segment.now vel }
    ensures horizon { StaysOffFor pos agent.now segment.now vel }
    ensures step { OffThroughout pos vel agent.now.radius segment.now }
{}
