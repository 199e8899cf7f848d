// The planar program on one line.
ghost use Rattle.std.specs.Prelude.{◌↔◌, ◌<◌, ◌≤◌, length, pos, ◌≤ℤ◌, IsNone, IfSome};
ghost use Rattle.fixed_vec.specs.Meeting.{relieved_after};
ghost use Rattle.fixed_vec.specs.Point.{Rational};
ghost use Rattle.planar_line.specs.Border.{IsPreference, toward};
ghost use Rattle.planar_line.specs.Line.{IsAdmitted, NearestAdmitted};
ghost use Rattle.planar_line.specs.Relief.{KeepBounds};

use crate::relief::plane_at;
use crate::span::Span;
use fixed_vec::{HalfPlane, Point, V2};

/// The point nearest to `pref` among those on the border of half-plane `line` that are in each
/// half-plane before it, if there are any. The first `hard` half-planes are taken as they are, and
/// the others moved back by `relief` lengths of their normals.
pub fn best_on_line(
    planes: &[HalfPlane],
    hard: usize,
    relief: u32,
    line: usize,
    pref: V2,
) -> Option<Point>
    requires line { line < length planes.now }
    requires hard { hard ≤ length planes.now }
    requires pref { IsPreference pref }
    requires bounds { KeepBounds hard relief planes.now }
    ensures nearest { IfSome result
        (NearestAdmitted (relieved_after hard relief planes.now) line pref) }
    ensures toward { IfSome result
        (λ p. (v : Rational) → IsAdmitted (relieved_after hard relief planes.now) line v
        → toward pref p v ≤ℤ pos 0) }
    ensures none { IsNone result
        ↔ ((v : Rational) → IsAdmitted (relieved_after hard relief planes.now) line v → ⊥) }
{
    let border = plane_at(planes, hard, relief, line);
    let mut span = Span::whole(&border, line);
    match span.narrow(planes, hard, relief, 0, line) {
        Ok(()) => Some(span.nearest(pref)),
        Err(_) => None,
    }
}
