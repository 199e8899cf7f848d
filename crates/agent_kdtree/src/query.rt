// Whose neighbours are asked for, and the candidates one at a time.
ghost use Rattle.crowd_data.specs.declared.limits.TheConstants.{GREATEST_RANGE, MOST_NEIGHBOURS};
ghost use Rattle.std.specs.Prelude.{◌≡◌, ◌*◌, ◌<◌, ◌≤◌, All, ℕ, List, IsFalse, IsTrue, length};
ghost use Rattle.crowd_data.specs.declared.pair.Place.{Place};
ghost use Rattle.crowd_data.specs.Neighbours.{neighbours, place_at, squared_gap};
ghost use Rattle.agent_kdtree.specs.Gather.{IsQuery, Rises, best_of, gather, offer};
ghost use Rattle.agent_kdtree.specs.Placed.{IsPlaced};
ghost use Rattle.agent_kdtree.specs.Seen.{seen_all};

use crate::distance::distance;
use crate::near::{Near, place_in};
use arrayvec::ArrayVec;
use crowd_data::Place;
use fixed_vec::V2;

/// Whose neighbours are asked for: its number and position, its range and the most that it considers.
#[derive(Clone, Copy)]
pub(crate) struct Query {
    pub who: u32,
    pub at: V2,
    pub range: u32,
    pub most: usize,
}

/// The query for the neighbours of an agent.
pub(crate) fn query_for(places: &[Place], who: u32, range: u32, most: u32) -> Query
    requires placed { All IsPlaced places.now }
    requires who { who < length places.now }
    requires range { range ≤ GREATEST_RANGE }
    requires most { most ≤ MOST_NEIGHBOURS }
    ensures query { IsQuery result }
    ensures at { result.at ≡ (place_at places.now who).pos }
    ensures most { result.most ≡ most }
    ensures value { neighbours places.now who range most ≡ best_of places.now result }
{
    Query {
        who,
        at: places[who as usize].pos,
        range,
        most: most as usize,
    }
}

// The squared distance at which others are out of range.
fn squared_range(query: &Query) -> u64
    requires { IsQuery query.now }
    ensures { result ≡ query.now.range * query.now.range }
{
    u64::from(query.range) * u64::from(query.range)
}

/// Whether no candidate at a squared distance of `far` or more can enter the list.
pub(crate) fn is_closed(query: &Query, best: &ArrayVec<Near, 64>, far: u64) -> bool
    requires query { IsQuery query.now }
    requires room { length best.now.items ≤ query.now.most }
    requires rises { Rises (seen_all best.now.items) }
    ensures closed { IsTrue result → (places : List Place) → (k : ℕ) → far ≤ squared_gap (place_at places k).pos query.now.at
        → offer places query.now k (seen_all best.now.items) ≡ seen_all best.now.items }
    ensures in_range { IsFalse result → far < query.now.range * query.now.range }
{
    if far >= squared_range(query) {
        return true;
    }
    let full = best.len();
    full == query.most && full > 0 && best[full - 1].dist < far
}

// Puts the agent `k` among the best, where it is in range.
#[tactic(auto, unfolding(crate::specs::Gather::offer))]
fn consider(places: &[Place], query: &Query, k: u32, best: &mut ArrayVec<Near, 64>)
    requires exists { k < length places.now }
    requires placed { All IsPlaced places.now }
    requires query { IsQuery query.now }
    requires room { length best.old.items ≤ query.now.most }
    requires rises { Rises (seen_all best.old.items) }
    ensures value { seen_all best.new.items ≡ offer places.now query.now k (seen_all best.old.items) }
    ensures room { length best.new.items ≤ query.now.most }
{
    if k != query.who {
        let dist = distance(places[k as usize].pos, query.at);
        if !is_closed(query, best, dist) {
            place_in(best, query.most, Near { agent: k, dist });
        }
    }
}

/// Puts the agents of a leaf among the best.
pub(crate) fn consider_all(
    places: &[Place],
    query: &Query,
    order: &[u32],
    best: &mut ArrayVec<Near, 64>,
)
    requires placed { All IsPlaced places.now }
    requires query { IsQuery query.now }
    requires order { All (λ k. k < length places.now) order.now }
    requires room { length best.old.items ≤ query.now.most }
    requires rises { Rises (seen_all best.old.items) }
    ensures value { seen_all best.new.items ≡ gather places.now query.now order.now (seen_all best.old.items) }
    ensures room { length best.new.items ≤ query.now.most }
    ensures rises { Rises (seen_all best.new.items) }
{
    for k in order {
        consider(places, query, *k, best);
    }
}
