// Where two borders cross.
ghost use Rattle.std.specs.Prelude.{◌≡◌, pos, ◌<ℤ◌};
ghost use Rattle.fixed_vec.specs.Vector.{cross as cross_of};
ghost use Rattle.planar_line.specs.Border.{crossing_of};

use fixed_vec::{HalfPlane, Point, cross};

/// How the second border turns against the first: positive to the left, 0 where they are parallel.
pub fn slope(first: &HalfPlane, second: &HalfPlane) -> i128
    ensures { result ≡ cross_of first.now.n second.now.n }
{
    cross(first.n(), second.n())
}

/// The point where the two borders cross, the second turned left against the first.
pub fn crossing(first: &HalfPlane, second: &HalfPlane) -> Point
    requires { pos 0 <ℤ cross_of first.now.n second.now.n }
    ensures { result ≡ crossing_of first.now second.now }
{
    let m = first.n();
    let n = second.n();
    let c = first.c();
    let d = second.c();
    let x = c * n.y as i128 - d * m.y as i128;
    let y = m.x as i128 * d - n.x as i128 * c;
    Point::of(x, y, slope(first, second))
}
