// Wall planes: the half-planes that keep an agent off wall segments.
ghost use Rattle.std.specs.Prelude.{◌≡◌, ◌^◌, ◌≤◌, ◌<◌, IsTrue, pos, ◌+ℤ◌, ◌*ℤ◌, unsigned_abs};
ghost use Rattle.exact_algebra.specs.Numbers.{ceil};
ghost use Rattle.fixed_vec.specs.HalfPlane.{FitsPlane, drawn_of, whole_length};
ghost use Rattle.fixed_vec.specs.Vector.{IsBelow, dot as dot_of};
ghost use Rattle.crowd_data.specs.declared.agent.Agent.{Agent};
ghost use Rattle.crowd_data.specs.Limits.{IsBuild, IsPosition, IsSegment};
ghost use Rattle.crowd_data.specs.Walls.{IsClear, in_reach, is_beside, normal_beside, plane_from, wall_plane};

use crowd_data::{Agent, Segment};
use fixed_vec::{HalfPlane, V2, ceil_root, cross, div_up, dot, minus, perp};

// The line that a wall plane is moved in from: a point on it, and its normal, on the side of the disc.
#[derive(Clone, Copy)]
struct Line {
    normal: V2,
    point: V2,
}

fn is_beside(p: V2, d: V2) -> bool
    requires p_small { IsBelow p (2 ^ 40) }
    requires d_small { IsBelow d (2 ^ 40) }
    ensures { result ≡ is_beside p d }
{
    let foot = dot(p, d);
    0 < foot && foot < dot(d, d)
}

fn normal_beside(p: V2, d: V2) -> V2
    requires p_small { IsBelow p (2 ^ 40) }
    requires d_small { IsBelow d (2 ^ 40) }
    ensures value { result ≡ normal_beside p d }
    ensures small { IsBelow result (2 ^ 40) }
{
    if 0 < cross(d, p) {
        perp(d)
    } else {
        V2 { x: d.y, y: -d.x }
    }
}

// Along the segment, where the foot of the disc's centre lies inside it, and across the way to the
// nearest end elsewhere.
fn wall_line(pos: V2, segment: &Segment) -> Line
    requires position { IsBelow pos (2 ^ 31) }
    requires segment { IsSegment segment.now }
    ensures normal { IsBelow result.normal (2 ^ 40) }
    ensures point { IsPosition result.point }
    ensures plane { (agent : Agent) → wall_plane pos agent segment.now ≡ plane_from result.normal result.point pos agent }
{
    let p = minus(pos, segment.a);
    let d = minus(segment.b, segment.a);
    if is_beside(p, d) {
        Line {
            normal: normal_beside(p, d),
            point: segment.a,
        }
    } else if dot(p, d) <= 0 {
        Line {
            normal: p,
            point: segment.a,
        }
    } else {
        Line {
            normal: minus(pos, segment.b),
            point: segment.b,
        }
    }
}

// The radius times the length of a normal.
fn lift(n: V2, radius: u32) -> i128
    requires { IsBelow n (2 ^ 40) }
    ensures value { result ≡ pos radius *ℤ pos (whole_length n) }
    ensures small { unsigned_abs result < 2 ^ 97 }
{
    (radius as u128 * ceil_root(dot(n, n) as u128) as u128) as i128
}

// How far the disc's edge is beyond a border with this normal through the point at e from its centre.
fn overlap(n: V2, e: V2, radius: u32) -> i128
    requires n_small { IsBelow n (2 ^ 40) }
    requires e_small { IsBelow e (2 ^ 40) }
    ensures { result ≡ dot_of n e +ℤ pos radius *ℤ pos (whole_length n) }
{
    dot(n, e) + lift(n, radius)
}

// The same, spread over the wall horizon.
fn offset(n: V2, e: V2, agent: &Agent) -> i128
    requires n_small { IsBelow n (2 ^ 40) }
    requires e_small { IsBelow e (2 ^ 40) }
    requires horizon { 1 ≤ agent.now.wall_horizon }
    ensures { result ≡ ceil (dot_of n e +ℤ pos agent.now.radius *ℤ pos (whole_length n)) (pos agent.now.wall_horizon) }
{
    div_up(overlap(n, e, agent.radius), agent.wall_horizon as i128)
}

/// The wall plane of a segment that an agent at this position is clear of and has in reach: a velocity
/// in it keeps the agent's disc off the segment for its wall horizon. It isn't drawn in, and there is
/// room in its type for that. The coordinates of the position are below 2^31 in size, and the agent and
/// the segment within the limits of a scenario.
pub fn wall_plane(pos: V2, agent: &Agent, segment: &Segment) -> HalfPlane
    requires position { IsBelow pos (2 ^ 31) }
    requires agent { IsBuild agent.now }
    requires segment { IsSegment segment.now }
    requires reach { IsTrue (in_reach pos agent.now segment.now) }
    requires clear { IsClear pos agent.now.radius segment.now }
    ensures value { result ≡ wall_plane pos agent.now segment.now }
    ensures room { FitsPlane (drawn_of result) }
{
    let line = wall_line(pos, segment);
    let offset = offset(line.normal, minus(line.point, pos), agent);
    HalfPlane::of(line.normal, offset)
}
