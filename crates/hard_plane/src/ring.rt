// Rings of points round the origin, and the polygon of a speed.
ghost use Rattle.std.specs.Prelude.{◌≡◌, ◌<◌, ◌≤◌, ◌^◌, All, Some, length, slice_get, pos, ◌*ℤ◌, ◌≤ℤ◌, ◌<ℤ◌, IsTrue, unsigned_abs};
ghost use Rattle.exact_algebra.specs.Numbers.{ceil};
ghost use Rattle.fixed_vec.specs.Point.{IsIn, rounded_of};
ghost use Rattle.fixed_vec.specs.Vector.{IsBelow, dot, square};
ghost use Rattle.crowd_data.specs.RingPlanes.{ring_planes_of, ring_points, ring_radius};
ghost use Rattle.hard_plane.specs.Ring.{is_ring, IsNeighbour};

use crowd_data::{FINE_RING, GREATEST_SPEED, PLAIN_RING};
use fixed_vec::{HalfPlane, Point, V2, minus, perp};

// All whole points at distance 65 from the origin.
const PLAIN_POINTS: [V2; 36] = [
    V2 { x: 65, y: 0 },
    V2 { x: 63, y: 16 },
    V2 { x: 60, y: 25 },
    V2 { x: 56, y: 33 },
    V2 { x: 52, y: 39 },
    V2 { x: 39, y: 52 },
    V2 { x: 33, y: 56 },
    V2 { x: 25, y: 60 },
    V2 { x: 16, y: 63 },
    V2 { x: 0, y: 65 },
    V2 { x: -16, y: 63 },
    V2 { x: -25, y: 60 },
    V2 { x: -33, y: 56 },
    V2 { x: -39, y: 52 },
    V2 { x: -52, y: 39 },
    V2 { x: -56, y: 33 },
    V2 { x: -60, y: 25 },
    V2 { x: -63, y: 16 },
    V2 { x: -65, y: 0 },
    V2 { x: -63, y: -16 },
    V2 { x: -60, y: -25 },
    V2 { x: -56, y: -33 },
    V2 { x: -52, y: -39 },
    V2 { x: -39, y: -52 },
    V2 { x: -33, y: -56 },
    V2 { x: -25, y: -60 },
    V2 { x: -16, y: -63 },
    V2 { x: 0, y: -65 },
    V2 { x: 16, y: -63 },
    V2 { x: 25, y: -60 },
    V2 { x: 33, y: -56 },
    V2 { x: 39, y: -52 },
    V2 { x: 52, y: -39 },
    V2 { x: 56, y: -33 },
    V2 { x: 60, y: -25 },
    V2 { x: 63, y: -16 },
];

// All whole points at distance 325 from the origin.
const FINE_POINTS: [V2; 60] = [
    V2 { x: 325, y: 0 },
    V2 { x: 323, y: 36 },
    V2 { x: 315, y: 80 },
    V2 { x: 312, y: 91 },
    V2 { x: 300, y: 125 },
    V2 { x: 280, y: 165 },
    V2 { x: 260, y: 195 },
    V2 { x: 253, y: 204 },
    V2 { x: 204, y: 253 },
    V2 { x: 195, y: 260 },
    V2 { x: 165, y: 280 },
    V2 { x: 125, y: 300 },
    V2 { x: 91, y: 312 },
    V2 { x: 80, y: 315 },
    V2 { x: 36, y: 323 },
    V2 { x: 0, y: 325 },
    V2 { x: -36, y: 323 },
    V2 { x: -80, y: 315 },
    V2 { x: -91, y: 312 },
    V2 { x: -125, y: 300 },
    V2 { x: -165, y: 280 },
    V2 { x: -195, y: 260 },
    V2 { x: -204, y: 253 },
    V2 { x: -253, y: 204 },
    V2 { x: -260, y: 195 },
    V2 { x: -280, y: 165 },
    V2 { x: -300, y: 125 },
    V2 { x: -312, y: 91 },
    V2 { x: -315, y: 80 },
    V2 { x: -323, y: 36 },
    V2 { x: -325, y: 0 },
    V2 { x: -323, y: -36 },
    V2 { x: -315, y: -80 },
    V2 { x: -312, y: -91 },
    V2 { x: -300, y: -125 },
    V2 { x: -280, y: -165 },
    V2 { x: -260, y: -195 },
    V2 { x: -253, y: -204 },
    V2 { x: -204, y: -253 },
    V2 { x: -195, y: -260 },
    V2 { x: -165, y: -280 },
    V2 { x: -125, y: -300 },
    V2 { x: -91, y: -312 },
    V2 { x: -80, y: -315 },
    V2 { x: -36, y: -323 },
    V2 { x: 0, y: -325 },
    V2 { x: 36, y: -323 },
    V2 { x: 80, y: -315 },
    V2 { x: 91, y: -312 },
    V2 { x: 125, y: -300 },
    V2 { x: 165, y: -280 },
    V2 { x: 195, y: -260 },
    V2 { x: 204, y: -253 },
    V2 { x: 253, y: -204 },
    V2 { x: 260, y: -195 },
    V2 { x: 280, y: -165 },
    V2 { x: 300, y: -125 },
    V2 { x: 312, y: -91 },
    V2 { x: 315, y: -80 },
    V2 { x: 323, y: -36 },
];

/// K whole points that go counter-clockwise round the origin at one distance. The half-planes of the
/// edges between neighbouring points, moved to the distance of a speed less one, are the polygon of
/// that speed.
#[derive(Clone, Copy)]
pub struct Ring<const K: usize> {
    /// The distance of each point from the origin, in units, below 1,024.
    pub radius: i64,
    /// The points, in units, counter-clockwise.
    pub points: [V2; K],
    ghost round: { IsTrue (is_ring radius points) },
}

// k times the inner product of an edge's normal with one of its points.
fn scaled_offset(k: u32, normal: V2, m: V2) -> i64
    requires factor { k ≤ GREATEST_SPEED }
    requires normal_small { IsBelow normal (2 ^ 12) }
    requires point_small { IsBelow m (2 ^ 12) }
    ensures value { result ≡ pos k *ℤ dot normal m }
    ensures small { unsigned_abs result < 2 ^ 40 }
{
    i64::from(k) * (normal.x * m.x + normal.y * m.y)
}

// n / d rounded up, for a positive d.
fn quotient_up(n: i64, d: i64) -> i128
    requires small { unsigned_abs n < 2 ^ 40 }
    requires positive { pos 0 <ℤ d }
    ensures { result ≡ ceil n d }
{
    -(-n).div_euclid(d) as i128
}

impl Ring<36> {
    /// The plain ring: 36 points at distance 65.
    pub fn plain() -> Ring<36>
        ensures radius { result.radius ≡ ring_radius PLAIN_RING }
        ensures points { result.points ≡ ring_points PLAIN_RING }
    {
        Ring {
            radius: 65,
            points: PLAIN_POINTS,
        }
    }
}

impl Ring<60> {
    /// The fine ring: 60 points at distance 325. Its polygons cut off at most 0.6 per cent of a speed, where
    /// those of the plain ring cut off just over 1.
    pub fn fine() -> Ring<60>
        ensures radius { result.radius ≡ ring_radius FINE_RING }
        ensures points { result.points ≡ ring_points FINE_RING }
    {
        Ring {
            radius: 325,
            points: FINE_POINTS,
        }
    }
}

impl<const K: usize> Ring<K> {
    fn point(&self, k: usize) -> V2
        requires { k < K }
        ensures value { slice_get self.now.points k ≡ Some result }
        ensures small { IsBelow result 1024 }
        ensures count { length self.now.points ≡ K }
    {
        self.points[k]
    }

    // The next point, or the first one after the last.
    fn neighbour(&self, k: usize, m: V2) -> V2
        requires place { k < K }
        requires point { slice_get self.now.points k ≡ Some m }
        ensures small { IsBelow result 1024 }
        ensures edge { IsNeighbour self.now.radius self.now.points k m result }
    {
        if k + 1 == K {
            self.points[0]
        } else {
            self.points[k + 1]
        }
    }

    // The offset of the edge's border at the distance k from the origin, rounded up.
    fn offset(&self, k: u32, normal: V2, m: V2) -> i128
        requires factor { k ≤ GREATEST_SPEED }
        requires normal_small { IsBelow normal (2 ^ 12) }
        requires point_small { IsBelow m (2 ^ 12) }
        ensures { result ≡ ceil (pos k *ℤ dot normal m) self.now.radius }
    {
        quotient_up(scaled_offset(k, normal, m), self.radius)
    }

    /// The k-th half-plane of the polygon of a speed, which is that of the edge from the k-th point to
    /// its neighbour; there are K of them. The speed is at most 16,384 units per step.
    pub fn plane(&self, k: usize, speed: u32) -> HalfPlane
        requires place { k < K }
        requires speed { speed ≤ GREATEST_SPEED }
        ensures value { slice_get (ring_planes_of self.now.radius self.now.points speed) k ≡ Some result }
        ensures count { length (ring_planes_of self.now.radius self.now.points speed) ≡ K }
    {
        let m = self.point(k);
        let normal = perp(minus(self.neighbour(k, m), m));
        HalfPlane::of(normal, self.offset(speed.saturating_sub(1), normal, m))
    }

    /// The speed law. It answers nothing: its contract says that a point in all half-planes of a speed
    /// is near enough to be rounded, and that its rounding is no longer than the speed.
    pub fn speed_law(&self, speed: u32, point: &Point)
        requires speed { speed ≤ GREATEST_SPEED }
        requires inside { All (λ plane. IsIn plane point.now) (ring_planes_of self.now.radius self.now.points speed) }
        ensures across { pos (unsigned_abs point.now.x) ≤ℤ (point.now.q *ℤ pos (2 ^ 32)) }
        ensures along { pos (unsigned_abs point.now.y) ≤ℤ (point.now.q *ℤ pos (2 ^ 32)) }
        ensures within_speed { square (rounded_of point.now) ≤ℤ (pos speed *ℤ pos speed) }
    {
        let _ = point.q();
    }
}
