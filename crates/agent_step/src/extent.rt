// Boxes around wall segments, and around what an agent can reach.
ghost use Rattle.std.specs.Prelude.{◌≡◌, ◌⊎◌, ◌^◌, ◌<ℤ◌, pos, ◌+ℤ◌, ◌-ℤ◌, All, IsTrue};
ghost use Rattle.fixed_vec.specs.Vector.{IsBelow};
ghost use Rattle.crowd_data.specs.Limits.{IsBuild};
ghost use Rattle.crowd_data.specs.Walls.{reach_of};
ghost use Rattle.crowd_data.specs.declared.segment.Segment.{Segment};
ghost use Rattle.agent_kdtree.specs.Boxes.{IsNoHigher};
ghost use Rattle.agent_step.specs.WallBlocks.{IsAround};

use crowd_data::{Agent, Segment};
use fixed_vec::V2;

/// A box by its lowest and its highest corner.
#[derive(Clone, Copy)]
pub(crate) struct Extent {
    pub low: V2,
    pub high: V2,
}

// A box in which nothing lies.
const EMPTY: Extent = Extent {
    low: V2 {
        x: i64::MAX,
        y: i64::MAX,
    },
    high: V2 {
        x: i64::MIN,
        y: i64::MIN,
    },
};

fn low_corner(a: V2, b: V2) -> V2
    ensures first { IsNoHigher result a }
    ensures second { IsNoHigher result b }
{
    V2 {
        x: a.x.min(b.x),
        y: a.y.min(b.y),
    }
}

fn high_corner(a: V2, b: V2) -> V2
    ensures first { IsNoHigher a result }
    ensures second { IsNoHigher b result }
{
    V2 {
        x: a.x.max(b.x),
        y: a.y.max(b.y),
    }
}

// The box in which a segment lies too.
fn widened(extent: Extent, segment: &Segment) -> Extent
    ensures own { IsAround result segment.now }
    ensures others { (s : Segment) → IsAround extent s → IsAround result s }
{
    let low = low_corner(segment.a, segment.b);
    let high = high_corner(segment.a, segment.b);
    Extent {
        low: low_corner(extent.low, low),
        high: high_corner(extent.high, high),
    }
}

/// A box in which all these segments lie.
pub(crate) fn extent_of(segments: &[Segment]) -> Extent
    ensures { All (IsAround result) segments.now }
{
    let mut extent = EMPTY;
    for segment in segments {
        extent = widened(extent, segment);
    }
    extent
}

// As far as an agent can come within its wall horizon, with its radius.
fn reach(agent: &Agent) -> i64
    requires { IsBuild agent.now }
    ensures { result ≡ pos (reach_of agent.now) }
{
    (u64::from(agent.radius) + u64::from(agent.wall_horizon) * u64::from(agent.speed)) as i64
}

/// The box around a position that an agent can reach.
pub(crate) fn reached_extent(at: V2, agent: &Agent) -> Extent
    requires position { IsBelow at (2 ^ 31) }
    requires agent { IsBuild agent.now }
    ensures left { result.low.x ≡ at.x -ℤ pos (reach_of agent.now) }
    ensures right { result.high.x ≡ at.x +ℤ pos (reach_of agent.now) }
    ensures below { result.low.y ≡ at.y -ℤ pos (reach_of agent.now) }
    ensures above { result.high.y ≡ at.y +ℤ pos (reach_of agent.now) }
{
    let reach = reach(agent);
    Extent {
        low: V2 {
            x: at.x - reach,
            y: at.y - reach,
        },
        high: V2 {
            x: at.x + reach,
            y: at.y + reach,
        },
    }
}

/// Whether two boxes have no point in common.
pub(crate) fn are_apart(a: &Extent, b: &Extent) -> bool
    ensures { IsTrue result → (a.now.high.x <ℤ b.now.low.x) ⊎ (b.now.high.x <ℤ a.now.low.x) ⊎ (a.now.high.y <ℤ b.now.low.y) ⊎ (b.now.high.y <ℤ a.now.low.y) }
{
    a.high.x < b.low.x || b.high.x < a.low.x || a.high.y < b.low.y || b.high.y < a.low.y
}
