// Where a controller steers an agent to.
ghost use Rattle.std.specs.Prelude.{◌≡◌, ◌<◌, ◌≤◌, ◌^◌, pos, ◌*ℤ◌, int_le, unsigned_abs};
ghost use Rattle.crowd_data.specs.declared.limits.TheConstants.{GREATEST_SPEED};
ghost use Rattle.crowd_data.specs.Headings.{cut, heading as heading_of};
ghost use Rattle.crowd_data.specs.Limits.{IsPosition, IsVelocity, IsWithin};
ghost use Rattle.fixed_vec.specs.HalfPlane.{whole_length};
ghost use Rattle.fixed_vec.specs.Vector.{IsBelow, square};
ghost use Rattle.published_frames.specs.History.{farthest};

use crowd_data::Goal;
use fixed_vec::{V2, ceil_root, dot, minus};

// Whether one step of the pace goes the whole way.
fn is_reached(way: V2, pace: u32) -> bool
    requires way { IsBelow way (2 ^ 32) }
    requires pace { pace ≤ GREATEST_SPEED }
    ensures { result ≡ int_le (square way) (pos pace *ℤ pos pace) }
{
    dot(way, way) <= i128::from(pace) * i128::from(pace)
}

// The length of the way, rounded up.
fn length_of(way: V2) -> u64
    requires way { IsBelow way (2 ^ 32) }
    ensures { result ≡ whole_length way }
{
    ceil_root(dot(way, way) as u128)
}

// A coordinate times the pace divided by the length, cut towards zero.
fn scaled(coordinate: i64, pace: u32, length: u64) -> i64
    requires pace { pace ≤ GREATEST_SPEED }
    requires coordinate { unsigned_abs coordinate ≤ length }
    requires length { (0 < length) × (length < 2 ^ 62) }
    ensures exact { result ≡ cut (coordinate *ℤ pos pace) (pos length) }
    ensures small { unsigned_abs result ≤ pace }
{
    (i128::from(coordinate) * i128::from(pace) / i128::from(length)) as i64
}

/// The velocity that takes an agent from a position towards its goal, in units per step: the whole way, where one step of
/// the goal's pace reaches it, and else as fast as the pace in that direction, cut towards zero. The coordinates of the
/// position are below 2^31 in size, and the goal is within its limits.
pub fn heading(pos: V2, goal: &Goal) -> V2
    requires pos { IsWithin pos farthest }
    requires at { IsPosition goal.now.at }
    requires pace { goal.now.pace ≤ GREATEST_SPEED }
    ensures exact { result ≡ heading_of pos goal.now }
    ensures velocity { IsVelocity result }
{
    let way = minus(goal.at, pos);
    if is_reached(way, goal.pace) {
        return way;
    }
    let length = length_of(way);
    V2 {
        x: scaled(way.x, goal.pace, length),
        y: scaled(way.y, goal.pace, length),
    }
}
