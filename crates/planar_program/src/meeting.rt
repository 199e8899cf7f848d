// Whether a point is in each half-plane of a list.
ghost use Rattle.std.specs.Prelude.{◌≤◌, ◌↔◌, length, IsTrue};
ghost use Rattle.fixed_vec.specs.Meeting.{Meeting, relieved_after};
ghost use Rattle.planar_line.specs.Relief.{KeepBounds};

use fixed_vec::{HalfPlane, Point};
use planar_line::{Probe, contains_at};

/// Whether the point is in each half-plane of the list. The first `hard` are taken as they are, and the
/// others moved back by `relief` lengths of their normals.
pub fn meets(planes: &[HalfPlane], hard: usize, relief: u32, point: &Point) -> bool
    requires hard { hard ≤ length planes.now }
    requires bounds { KeepBounds hard relief planes.now }
    ensures { IsTrue result ↔ Meeting (relieved_after hard relief planes.now) point.now }
{
    // The reader tells that the denominator is positive.
    let _q = point.q();
    let probe = Probe::of(point);
    for place in 0..planes.len() {
        if !contains_at(planes, hard, relief, place, &probe) {
            return false;
        }
    }
    true
}
