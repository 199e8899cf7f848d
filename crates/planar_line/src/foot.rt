// The point of a border that is nearest to a whole point.
ghost use Rattle.std.specs.Prelude.{◌≡◌};
ghost use Rattle.planar_line.specs.Border.{IsPreference, foot_of, lead_of};

use fixed_vec::{HalfPlane, Point, V2, cross, dot};

/// The point of the border that is nearest to the whole point.
pub fn foot(border: &HalfPlane, at: V2) -> Point
    requires { IsPreference at }
    ensures { result ≡ foot_of border.now at }
{
    let n = border.n();
    let c = border.c();
    let along = cross(n, at);
    let x = n.x as i128 * c - n.y as i128 * along;
    let y = n.y as i128 * c + n.x as i128 * along;
    Point::of(x, y, dot(n, n))
}

/// How far the whole point lies along the border beyond `point`, times the point's denominator.
pub fn lead(border: &HalfPlane, point: &Point, at: V2) -> i128
    requires { IsPreference at }
    ensures { result ≡ lead_of border.now point.now at }
{
    let n = border.n();
    let along = n.x as i128 * point.y() - n.y as i128 * point.x();
    cross(n, at) * point.q() - along
}
