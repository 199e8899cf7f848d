// Lists of half-planes of which the first few are hard, and the others are relieved.
ghost use Rattle.std.specs.Prelude.{◌≡◌, ◌<◌, ◌≤◌, ◌↔◌, ◌⊎◌, length, slice_index_or, IsTrue, IsFalse};
ghost use Rattle.fixed_vec.specs.HalfPlane.{relieved_of};
ghost use Rattle.fixed_vec.specs.Meeting.{relieved_after};
ghost use Rattle.fixed_vec.specs.Point.{IsIn};
ghost use Rattle.planar_line.specs.Relief.{CanBeRelieved, KeepBounds, no_plane};

use crate::probe::Probe;
use fixed_vec::{HalfPlane, Point, side};
use std::cmp::Ordering;

// The half-plane moved back by `relief` lengths of its normal.
fn relieved(plane: &HalfPlane, relief: u32) -> HalfPlane
    requires { CanBeRelieved plane.now relief }
    ensures { result ≡ relieved_of plane.now relief }
{
    // The length of a normal takes a root, which a half-plane that isn't relieved can spare.
    if relief == 0 {
        return *plane;
    }
    // The reader tells that the offset is below 2^53 in size.
    let _c = plane.c();
    plane.relieved(relief)
}

/// The half-plane at a place of the list: as it is among the first `hard`, and else relieved.
pub fn plane_at(planes: &[HalfPlane], hard: usize, relief: u32, place: usize) -> HalfPlane
    requires place { place < length planes.now }
    requires hard { hard ≤ length planes.now }
    requires bounds { KeepBounds hard relief planes.now }
    ensures { result ≡ slice_index_or (relieved_after hard relief planes.now) place no_plane }
{
    let plane = &planes[place];
    if place < hard {
        *plane
    } else {
        relieved(plane, relief)
    }
}

/// Whether the half-plane at a place is moved: it is none of the first `hard`, and the relief isn't zero.
pub(crate) fn is_relieved(hard: usize, relief: u32, place: usize) -> bool
    ensures moved { IsTrue result → hard ≤ place }
    ensures same { IsFalse result → (place < hard) ⊎ (relief ≡ 0) }
{
    place >= hard && relief != 0
}

/// Whether the point is in the half-plane at a place of the list, as it is among the first `hard`,
/// and else relieved.
pub fn contains_at(
    planes: &[HalfPlane],
    hard: usize,
    relief: u32,
    place: usize,
    point: &Probe,
) -> bool
    requires place { place < length planes.now }
    requires hard { hard ≤ length planes.now }
    requires bounds { KeepBounds hard relief planes.now }
    ensures { IsTrue result
        ↔ IsIn (slice_index_or (relieved_after hard relief planes.now) place no_plane) point.now }
{
    // A point's denominator is positive, so a half-plane that has it still does when it is relieved.
    if point.is_in(&planes[place]) {
        return true;
    }
    is_relieved(hard, relief, place) && point.is_in(&plane_at(planes, hard, relief, place))
}

/// Whether the point is in the half-plane.
pub fn is_in(plane: &HalfPlane, point: &Point) -> bool
    ensures { IsTrue result ↔ IsIn plane.now point.now }
{
    side(plane, point) != Ordering::Less
}
