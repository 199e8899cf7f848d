// Discs and the segments that they are clear of.
ghost use Rattle.std.specs.Prelude.{◌≡◌, ◌↔◌, ◌^◌, pos, ◌*ℤ◌, ◌≤ℤ◌, IsTrue};
ghost use Rattle.fixed_vec.specs.Vector.{IsBelow, cross, dot as dot_of, square};
ghost use Rattle.crowd_data.specs.Limits.{IsSegment};
ghost use Rattle.crowd_data.specs.Walls.{IsClear};

use crate::segment::Segment;
use fixed_vec::{V2, dot, minus};

// The bounds of the functions below: an offset from a segment's end is below 2^32 in size and the
// segment's direction below 2^24, so their products fit 64 bits, and the squares of those 128.

// The inner product of a short vector with another one.
fn along(p: V2, d: V2) -> i64
    requires p_small { IsBelow p (2 ^ 32) }
    requires d_small { IsBelow d (2 ^ 24) }
    ensures { result ≡ dot_of p d }
{
    p.x * d.x + p.y * d.y
}

// The outer product of a short vector with another one, squared.
fn cross_square(p: V2, d: V2) -> i128
    requires p_small { IsBelow p (2 ^ 32) }
    requires d_small { IsBelow d (2 ^ 24) }
    ensures { result ≡ cross p d *ℤ cross p d }
{
    let turn = (p.x * d.y - p.y * d.x) as i128;
    turn * turn
}

fn square_of(r: u32) -> i128
    ensures { result ≡ pos r *ℤ pos r }
{
    let wide = r as i128;
    wide * wide
}

// The square of a radius times that of a short vector.
fn scaled_square(r: u32, d: V2) -> i128
    requires { IsBelow d (2 ^ 24) }
    ensures { result ≡ pos r *ℤ pos r *ℤ square d }
{
    square_of(r) * dot(d, d)
}

// The point is at least a radius from the origin.
fn is_far(v: V2, r: u32) -> bool
    requires { IsBelow v (2 ^ 33) }
    ensures { IsTrue result ↔ ((pos r *ℤ pos r) ≤ℤ square v) }
{
    square_of(r) <= dot(v, v)
}

// The point p is at least a radius from the line through the origin and d.
fn is_far_from_line(p: V2, d: V2, r: u32) -> bool
    requires p_small { IsBelow p (2 ^ 32) }
    requires d_small { IsBelow d (2 ^ 24) }
    ensures { IsTrue result ↔ ((pos r *ℤ pos r *ℤ square d) ≤ℤ (cross p d *ℤ cross p d)) }
{
    scaled_square(r, d) <= cross_square(p, d)
}

/// Whether a disc is clear of a segment: no point of the segment lies inside the disc. Touching is
/// clear. The coordinates of the disc's centre are below 2^31 in size, and the segment is within the
/// limits of a scenario; it may be one point.
pub fn clear(pos: V2, radius: u32, segment: &Segment) -> bool
    requires position { IsBelow pos (2 ^ 31) }
    requires segment { IsSegment segment.now }
    ensures { IsTrue result ↔ IsClear pos radius segment.now }
{
    let p = minus(pos, segment.a);
    let d = minus(segment.b, segment.a);
    let foot = along(p, d);
    if foot <= 0 {
        is_far(p, radius)
    } else if along(d, d) <= foot {
        is_far(minus(p, d), radius)
    } else {
        is_far_from_line(p, d, radius)
    }
}
