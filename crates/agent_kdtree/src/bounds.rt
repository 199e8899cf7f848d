// Boxes around places.
ghost use Rattle.std.specs.Prelude.{◌≡◌, ◌^◌, ◌<◌, ◌≤◌, ◌≤ℤ◌, ◌-ℤ◌, All, ℤ, length, unsigned_abs};
ghost use Rattle.fixed_vec.specs.declared.vector.V2.{V2};
ghost use Rattle.fixed_vec.specs.Vector.{IsBelow};
ghost use Rattle.crowd_data.specs.declared.pair.Place.{Place};
ghost use Rattle.crowd_data.specs.Neighbours.{squared_gap};
ghost use Rattle.agent_kdtree.specs.Boxes.{Covers, CoversAll, IsBounds, IsNoHigher, IsInBounds};
ghost use Rattle.agent_kdtree.specs.Placed.{IsPlaced};

use crowd_data::Place;
use fixed_vec::V2;

/// What a node of the tree is bounded by: its corners, and the greatest radius plus speed in it.
#[derive(Clone, Copy)]
pub(crate) struct Bounds {
    pub low: V2,
    pub high: V2,
    pub greatest_reach: u32,
}

/// A box that covers nothing. Its corners are the farthest that a place can have.
pub(crate) fn empty_bounds() -> Bounds
    ensures { IsBounds result }
{
    Bounds {
        low: V2 {
            x: 2147483647,
            y: 2147483647,
        },
        high: V2 {
            x: -2147483647,
            y: -2147483647,
        },
        greatest_reach: 0,
    }
}

fn low_corner(a: V2, b: V2) -> V2
    requires first { IsBelow a (2 ^ 31) }
    requires second { IsBelow b (2 ^ 31) }
    ensures inside { IsBelow result (2 ^ 31) }
    ensures first { IsNoHigher result a }
    ensures second { IsNoHigher result b }
{
    V2 {
        x: a.x.min(b.x),
        y: a.y.min(b.y),
    }
}

fn high_corner(a: V2, b: V2) -> V2
    requires first { IsBelow a (2 ^ 31) }
    requires second { IsBelow b (2 ^ 31) }
    ensures inside { IsBelow result (2 ^ 31) }
    ensures first { IsNoHigher a result }
    ensures second { IsNoHigher b result }
{
    V2 {
        x: a.x.max(b.x),
        y: a.y.max(b.y),
    }
}

// The box that covers a place too.
fn widened(bounds: Bounds, place: &Place) -> Bounds
    requires bounds { IsBounds bounds }
    requires place { IsPlaced place.now }
    ensures bounds { IsBounds result }
    ensures place { Covers result place.now }
    ensures others { (p : Place) → Covers bounds p → Covers result p }
{
    let low = low_corner(bounds.low, place.pos);
    let high = high_corner(bounds.high, place.pos);
    let greatest_reach = bounds.greatest_reach.max(place.radius + place.speed);
    Bounds {
        low,
        high,
        greatest_reach,
    }
}

/// The box of some places.
pub(crate) fn bounds_of(places: &[Place], order: &[u32]) -> Bounds
    requires placed { All IsPlaced places.now }
    requires order { All (λ k. k < length places.now) order.now }
    ensures bounds { IsBounds result }
    ensures covers { CoversAll result places.now order.now }
{
    let mut bounds = empty_bounds();
    for k in order {
        bounds = widened(bounds, &places[*k as usize]);
    }
    bounds
}

/// The box that covers what either covers.
pub(crate) fn union(a: &Bounds, b: &Bounds) -> Bounds
    requires first { IsBounds a.now }
    requires second { IsBounds b.now }
    ensures bounds { IsBounds result }
    ensures first { (p : Place) → Covers a.now p → Covers result p }
    ensures second { (p : Place) → Covers b.now p → Covers result p }
{
    let low = low_corner(a.low, b.low);
    let high = high_corner(a.high, b.high);
    Bounds {
        low,
        high,
        greatest_reach: a.greatest_reach.max(b.greatest_reach),
    }
}

// A side of a box, and a coordinate.
#[derive(Clone, Copy)]
struct Side {
    low: i64,
    high: i64,
    at: i64,
}

// How far the coordinate is outside of the side.
fn beyond(side: Side) -> u64
    requires low { unsigned_abs side.low < 2 ^ 31 }
    requires high { unsigned_abs side.high < 2 ^ 31 }
    requires at { unsigned_abs side.at < 2 ^ 31 }
    ensures fits { result < 2 ^ 32 }
    ensures least { (x : ℤ) → side.low ≤ℤ x → x ≤ℤ side.high → result ≤ unsigned_abs (x -ℤ side.at) }
{
    if side.at < side.low {
        side.low.abs_diff(side.at)
    } else if side.high < side.at {
        side.high.abs_diff(side.at)
    } else {
        0
    }
}

/// No more than the squared distance of any point in the box.
pub(crate) fn box_distance(bounds: &Bounds, at: V2) -> u64
    requires bounds { IsBounds bounds.now }
    requires at { IsBelow at (2 ^ 31) }
    ensures { (v : V2) → IsInBounds bounds.now v → result ≤ squared_gap v at }
{
    let across = beyond(Side {
        low: bounds.low.x,
        high: bounds.high.x,
        at: at.x,
    });
    let up = beyond(Side {
        low: bounds.low.y,
        high: bounds.high.y,
        at: at.y,
    });
    (across * across).saturating_add(up * up)
}
