// Nodes of the tree: a piece of the agents' numbers, and the boxes of the node and of its halves.
ghost use Rattle.std.specs.Prelude.{◌≡◌, ◌<◌, ◌≤◌, ◌^◌, ◌++◌, All, List, length};
ghost use Rattle.std.specs.List.Sorted.{IsPermutation};
ghost use Rattle.fixed_vec.specs.Vector.{IsBelow};
ghost use Rattle.crowd_data.specs.declared.pair.Place.{Place};
ghost use Rattle.crowd_data.specs.Neighbours.{place_at, squared_gap};
ghost use Rattle.agent_kdtree.specs.Boxes.{IsCovered, IsEnough, IsNode};
ghost use Rattle.agent_kdtree.specs.Gather.{IsQuery, Rises, gather};
ghost use Rattle.agent_kdtree.specs.Placed.{IsPlaced};
ghost use Rattle.agent_kdtree.specs.Seen.{seen_all};

use crate::bounds::{Bounds, bounds_of, box_distance, union};
use crate::near::Near;
use crate::query::{Query, consider_all, is_closed};
use arrayvec::ArrayVec;
use crowd_data::Place;
use fixed_vec::V2;

/// The most places that a leaf has.
pub(crate) const LEAF: usize = 10;

/// How the numbers of a node are halved.
#[derive(Clone, Copy)]
pub(crate) enum Cut {
    /// By the first coordinate, and each half by the second one.
    Across,
    /// By the second coordinate, and each half by the first one.
    Up,
    /// As they stand, and each half too.
    Kept,
}

// How the halves are halved.
fn next_cut(cut: Cut) -> Cut {
    match cut {
        Cut::Across => Cut::Up,
        Cut::Up => Cut::Across,
        Cut::Kept => Cut::Kept,
    }
}

/// Orders the numbers by halves, and writes the box of each node.
pub(crate) fn build(places: &[Place], order: &mut [u32], boxes: &mut [Bounds], cut: Cut)
    requires placed { All IsPlaced places.now }
    requires order { All (λ k. k < length places.now) order.old }
    requires enough { IsEnough (length order.old) (length boxes.old) }
    ensures permutation { IsPermutation order.old order.new }
    ensures covered { IsCovered places.now order.new boxes.new }
{
    if order.len() > LEAF {
        arrange(places, order, cut);
        let middle = order.len() / 2;
        let (left, right) = order.split_at_mut(middle);
        let (first, rest) = boxes.split_at_mut(1);
        let (lower, upper) = rest.split_at_mut(2 * middle / 5 - 1);
        build(places, left, lower, next_cut(cut));
        build(places, right, upper, next_cut(cut));
        first[0] = union(&lower[0], &upper[0]);
    } else {
        boxes[0] = bounds_of(places, order);
    }
}

// By a coordinate, and then by the number.
fn arrange(places: &[Place], order: &mut [u32], cut: Cut)
    ensures { IsPermutation order.old order.new }
{
    let across = match cut {
        Cut::Across => true,
        Cut::Up => false,
        Cut::Kept => return,
    };
    order.sort_unstable_by_key(|k| {
        let at = match places.get(*k as usize) {
            Some(place) if across => place.pos.x,
            Some(place) => place.pos.y,
            None => 0,
        };
        (at, *k)
    });
}

/// The two halves of a node: the numbers and the boxes of each.
pub(crate) fn halves<'a, 'b>(
    order: &'a [u32],
    boxes: &'b [Bounds],
) -> (&'a [u32], &'b [Bounds], &'a [u32], &'b [Bounds])
    requires enough { IsEnough (length order.now) (length boxes.now) }
    requires large { LEAF < length order.now }
    ensures order { order.now ≡ result.0.now ++ result.2.now }
    ensures lower { (places : List Place) → IsNode places order.now boxes.now → IsNode places result.0.now result.1.now }
    ensures upper { (places : List Place) → IsNode places order.now boxes.now → IsNode places result.2.now result.3.now }
    ensures shorter { length result.0.now < length order.now }
    ensures shorter_too { length result.2.now < length order.now }
{
    let middle = order.len() / 2;
    let (left, right) = order.split_at(middle);
    let (_, rest) = boxes.split_at(1);
    let (lower, upper) = rest.split_at(2 * middle / 5 - 1);
    (left, lower, right, upper)
}

/// No more than the squared distance of any place of the node.
pub(crate) fn node_distance(places: &[Place], order: &[u32], boxes: &[Bounds], at: V2) -> u64
    requires node { IsNode places.now order.now boxes.now }
    requires at { IsBelow at (2 ^ 31) }
    ensures { All (λ k. result ≤ squared_gap (place_at places.now k).pos at) order.now }
{
    box_distance(&boxes[0], at)
}

/// Puts into the list what is wanted below a node, no place of which is nearer than `far`.
pub(crate) fn search(
    places: &[Place],
    query: &Query,
    order: &[u32],
    boxes: &[Bounds],
    far: u64,
    best: &mut ArrayVec<Near, 64>,
)
    requires placed { All IsPlaced places.now }
    requires query { IsQuery query.now }
    requires node { IsNode places.now order.now boxes.now }
    requires far { All (λ k. far ≤ squared_gap (place_at places.now k).pos query.now.at) order.now }
    requires room { length best.old.items ≤ query.now.most }
    requires rises { Rises (seen_all best.old.items) }
    ensures value { seen_all best.new.items ≡ gather places.now query.now order.now (seen_all best.old.items) }
    ensures room { length best.new.items ≤ query.now.most }
    ensures rises { Rises (seen_all best.new.items) }
{
    if is_closed(query, best, far) {
        return;
    }
    if order.len() > LEAF {
        let (left, lower, right, upper) = halves(order, boxes);
        let left_far = node_distance(places, left, lower, query.at);
        let right_far = node_distance(places, right, upper, query.at);
        if left_far <= right_far {
            search(places, query, left, lower, left_far, best);
            search(places, query, right, upper, right_far, best);
        } else {
            search(places, query, right, upper, right_far, best);
            search(places, query, left, lower, left_far, best);
        }
    } else {
        consider_all(places, query, order, best);
    }
}
