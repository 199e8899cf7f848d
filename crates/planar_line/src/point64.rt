// Points whose parts take 64 bits each.
ghost use Rattle.std.specs.Prelude.{◌≡◌, ◌↔◌, ◌+ℤ◌, ◌*ℤ◌, IfSome, IsTrue};
ghost use Rattle.fixed_vec.specs.Point.{IsIn};
ghost use Rattle.planar_line.specs.Point64.{Take64Bits};

use fixed_vec::{HalfPlane, Point};

/// The point `(x/q, y/q)`, where 64 bits hold each part.
#[derive(Clone, Copy)]
pub(crate) struct Point64 {
    pub x: i64,
    pub y: i64,
    pub q: i64,
    ghost fits: { Take64Bits x y q },
}

// Each part is below it in size: 2^63.
const LIMIT: u128 = 9_223_372_036_854_775_808;

/// The point, where 64 bits hold each of its parts.
pub(crate) fn point64_of(point: &Point) -> Option<Point64>
    ensures { IfSome result (λ p. record { x = p.x; y = p.y; q = p.q } ≡ point.now) }
{
    let x = point.x();
    let y = point.y();
    let q = point.q();
    if x.unsigned_abs() < LIMIT && y.unsigned_abs() < LIMIT && q.unsigned_abs() < LIMIT {
        Some(Point64 {
            x: x as i64,
            y: y as i64,
            q: q as i64,
        })
    } else {
        None
    }
}

// n . p, times the point's denominator.
fn reach(plane: &HalfPlane, point: &Point64) -> i128
    ensures { result ≡ plane.now.n.x *ℤ point.now.x +ℤ plane.now.n.y *ℤ point.now.y }
{
    let n = plane.n();
    n.x as i128 * point.x as i128 + n.y as i128 * point.y as i128
}

// The offset, times the point's denominator.
fn border(plane: &HalfPlane, point: &Point64) -> i128
    ensures { result ≡ plane.now.c *ℤ point.now.q }
{
    plane.c() * point.q as i128
}

/// Whether the point is in the half-plane.
pub(crate) fn is_point64_in(plane: &HalfPlane, point: &Point64) -> bool
    ensures { IsTrue result ↔ IsIn plane.now (record { x = point.now.x; y = point.now.y; q = point.now.q }) }
{
    border(plane, point) <= reach(plane, point)
}
