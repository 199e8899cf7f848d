// The laws of speed polygons, whichever the ring.
ghost use Rattle.std.specs.Prelude.{◌≤◌, ◌^◌, ℕ, All, pos, ◌*ℤ◌, ◌≤ℤ◌, unsigned_abs};
ghost use Rattle.fixed_vec.specs.Point.{IsIn, rounded_of};
ghost use Rattle.fixed_vec.specs.Vector.{square};
ghost use Rattle.crowd_data.specs.RingPlanes.{ring_planes};
ghost use Rattle.hard_plane.specs.Ring.{IsInner, IsInPolygon};

use crowd_data::GREATEST_SPEED;
use fixed_vec::Point;

/// The speed law of all scenarios. It answers nothing: its contract says that a point of the polygon of a
/// speed, by either ring, is near enough to be rounded, and that its rounding is no longer than the speed.
pub fn speed_law(speed: u32, point: &Point)
    requires speed { speed ≤ GREATEST_SPEED }
    requires inside { IsInPolygon speed point.now }
    ensures across { pos (unsigned_abs point.now.x) ≤ℤ (point.now.q *ℤ pos (2 ^ 32)) }
    ensures along { pos (unsigned_abs point.now.y) ≤ℤ (point.now.q *ℤ pos (2 ^ 32)) }
    ensures within_speed { square (rounded_of point.now) ≤ℤ (pos speed *ℤ pos speed) }
{
    let _ = point.q();
}

/// The inner law. It answers nothing: its contract says that a point no longer than 0.99 times the speed
/// less one, less one, is in all half-planes of the speed, by either ring.
pub fn inner_law(speed: u32, point: &Point)
    requires speed { speed ≤ GREATEST_SPEED }
    requires inner { IsInner speed point.now }
    ensures { (ring : ℕ) → All (λ plane. IsIn plane point.now) (ring_planes ring speed) }
{
    let _ = point.q();
}
