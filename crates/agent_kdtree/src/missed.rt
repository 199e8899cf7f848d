// Near agents that a list misses.
ghost use Rattle.crowd_data.specs.declared.limits.TheConstants.{GREATEST_RANGE};
ghost use Rattle.std.specs.Prelude.{◌≡◌, ◌↔◌, ◌⊎◌, ◌+◌, ◌-◌, ◌*◌, ◌<◌, ◌≤◌, slice_index_or, All, Contains, IsFalse, IsTrue, length};
ghost use Rattle.crowd_data.specs.declared.pair.Place.{Place};
ghost use Rattle.crowd_data.specs.Neighbours.{IsNear, MissesNear, place_at};
ghost use Rattle.agent_kdtree.specs.Boxes.{IsBounds, IsNode, box_at};
ghost use Rattle.agent_kdtree.specs.Missed.{IsMissed};
ghost use Rattle.agent_kdtree.specs.Placed.{IsPlaced};
ghost use Rattle.agent_kdtree.specs.Seen.{agents_of};

use crate::bounds::Bounds;
use crate::distance::distance;
use crate::near::Near;
use crate::node::{LEAF, halves, node_distance};
use crowd_data::Place;

fn are_near(a: &Place, b: &Place) -> bool
    requires first { IsPlaced a.now }
    requires second { IsPlaced b.now }
    ensures { IsTrue result ↔ IsNear a.now b.now }
{
    let touching = u64::from(a.radius + b.radius + a.speed + b.speed);
    distance(a.pos, b.pos) <= touching * touching
}

fn is_listed(near: &[Near], k: u32) -> bool
    ensures { IsTrue result ↔ Contains (agents_of near.now) k }
{
    for other in near {
        if other.agent == k {
            return true;
        }
    }
    false
}

// Whether an agent is another near one that is not in the list.
fn is_missed(places: &[Place], who: u32, near: &[Near], k: u32) -> bool
    requires placed { All IsPlaced places.now }
    requires who { who < length places.now }
    requires exists { k < length places.now }
    ensures { IsTrue result ↔ IsMissed places.now who (agents_of near.now) k }
{
    k != who && are_near(&places[who as usize], &places[k as usize]) && !is_listed(near, k)
}

// The greatest distance at which a place of the box is near, at most 98,304 units.
fn near_distance(bounds: &Bounds, place: &Place) -> u64
    requires bounds { IsBounds bounds.now }
    requires place { IsPlaced place.now }
    ensures value { result ≡ bounds.now.greatest_reach + (place.now.radius + place.now.speed) }
    ensures small { result ≤ 98304 }
{
    u64::from(bounds.greatest_reach + (place.radius + place.speed))
}

/// The greatest distance at which a place of the node is near, at most 98,304 units.
pub(crate) fn near_distance_below(
    places: &[Place],
    who: u32,
    order: &[u32],
    boxes: &[Bounds],
) -> u64
    requires placed { All IsPlaced places.now }
    requires who { who < length places.now }
    requires node { IsNode places.now order.now boxes.now }
    ensures value { result ≡ (box_at boxes.now 0).greatest_reach + ((place_at places.now who).radius + (place_at places.now who).speed) }
    ensures small { result ≤ 98304 }
{
    let _ = order;
    near_distance(&boxes[0], &places[who as usize])
}

/// Whether neighbours, found with this range and most, show by themselves that nobody else is as near
/// as this squared distance.
pub(crate) fn lists_all_within(near: &[Near], range: u32, most: u32, far: u64) -> bool
    requires { range ≤ GREATEST_RANGE }
    ensures { IsTrue result → (far < range * range) × (length near.now < most ⊎ (0 < most) × ((d : Near) → far < (slice_index_or near.now (length near.now - 1) d).dist)) }
{
    if u64::from(range) * u64::from(range) <= far {
        return false;
    }
    if near.len() < most as usize {
        return true;
    }
    most > 0 && near[near.len() - 1].dist > far
}

// Whether the box shows that no place of the node is near.
fn is_out_of_reach(places: &[Place], who: u32, order: &[u32], boxes: &[Bounds]) -> bool
    requires placed { All IsPlaced places.now }
    requires who { who < length places.now }
    requires node { IsNode places.now order.now boxes.now }
    ensures { IsTrue result → All (λ k. ¬ IsNear (place_at places.now who) (place_at places.now k)) order.now }
{
    let touching = near_distance_below(places, who, order, boxes);
    touching * touching < node_distance(places, order, boxes, places[who as usize].pos)
}

/// Whether some other near agent below a node is not in the list.
pub(crate) fn misses_below(
    places: &[Place],
    who: u32,
    near: &[Near],
    order: &[u32],
    boxes: &[Bounds],
) -> bool
    requires placed { All IsPlaced places.now }
    requires who { who < length places.now }
    requires node { IsNode places.now order.now boxes.now }
    ensures found { IsTrue result → MissesNear places.now who (agents_of near.now) }
    ensures none { IsFalse result → All (λ k. ¬ IsMissed places.now who (agents_of near.now) k) order.now }
{
    if is_out_of_reach(places, who, order, boxes) {
        return false;
    }
    if order.len() > LEAF {
        let (left, lower, right, upper) = halves(order, boxes);
        misses_below(places, who, near, left, lower)
            || misses_below(places, who, near, right, upper)
    } else {
        misses_among(places, who, near, order)
    }
}

// Whether some other near agent of a leaf is not in the list.
fn misses_among(places: &[Place], who: u32, near: &[Near], order: &[u32]) -> bool
    requires placed { All IsPlaced places.now }
    requires who { who < length places.now }
    requires order { All (λ k. k < length places.now) order.now }
    ensures found { IsTrue result → MissesNear places.now who (agents_of near.now) }
    ensures none { IsFalse result → All (λ k. ¬ IsMissed places.now who (agents_of near.now) k) order.now }
{
    for k in order {
        if is_missed(places, who, near, *k) {
            return true;
        }
    }
    false
}
