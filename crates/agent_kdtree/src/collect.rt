// Candidates as single numbers, in range, and then in order.
ghost use Rattle.std.specs.Prelude.{◌≡◌, ◌+◌, ◌<◌, ◌≤◌, ◌++◌, [], All, length, take, true};
ghost use Rattle.crowd_data.specs.declared.pair.Place.{Place};
ghost use Rattle.crowd_data.specs.Neighbours.{in_order, is_in_range, place_at};
ghost use Rattle.crowd_data.specs.declared.limits.TheConstants.{MOST_NEIGHBOURS};
ghost use Rattle.agent_kdtree.specs.Gather.{IsQuery, seen_at};
ghost use Rattle.agent_kdtree.specs.Keys.{seen_in_range, seen_of_key, seen_of_keys};
ghost use Rattle.agent_kdtree.specs.Placed.{IsPlaced};
ghost use Rattle.agent_kdtree.specs.Seen.{seen_all};

use crate::distance::distance;
use crate::near::Near;
use crate::query::Query;
use arrayvec::ArrayVec;
use crowd_data::Place;

// A candidate as one number, whose order is that of candidates, and whether it is in range.
#[derive(Clone, Copy)]
struct Candidate {
    key: u64,
    in_range: bool,
}

fn candidate_of(places: &[Place], query: &Query, k: u32) -> Candidate
    requires exists { k < length places.now }
    requires placed { All IsPlaced places.now }
    requires query { IsQuery query.now }
    ensures in_range { result.in_range ≡ is_in_range query.now.who query.now.range (seen_at places.now query.now.at k) }
    ensures key { result.in_range ≡ true → seen_of_key result.key ≡ seen_at places.now query.now.at k }
{
    let dist = distance(places[k as usize].pos, query.at);
    let squared_range = u64::from(query.range) * u64::from(query.range);
    Candidate {
        key: dist % 4294967296 * 4294967296 + u64::from(k),
        in_range: k != query.who && dist < squared_range,
    }
}

/// Puts the candidates of a piece that are in range behind the first `count` keys, and answers how many
/// keys there are then.
pub(crate) fn collect(
    places: &[Place],
    query: &Query,
    order: &[u32],
    keys: &mut [u64],
    count: usize,
) -> usize
    requires placed { All IsPlaced places.now }
    requires query { IsQuery query.now }
    requires order { All (λ k. k < length places.now) order.now }
    requires room { count + length order.now ≤ length keys.old }
    ensures len { length keys.new ≡ length keys.old }
    ensures within { result ≤ length keys.new }
    ensures value { seen_of_keys (take result keys.new) ≡ seen_of_keys (take count keys.old) ++ seen_in_range places.now query.now order.now }
{
    let mut count = count;
    for k in order {
        let candidate = candidate_of(places, query, *k);
        keys[count] = candidate.key;
        count += if candidate.in_range { 1 } else { 0 };
    }
    count
}

fn near_of(key: u64) -> Near
    ensures { record { agent = result.agent; dist = result.dist } ≡ seen_of_key key }
{
    Near {
        agent: (key % 4294967296) as u32,
        dist: key / 4294967296,
    }
}

/// Puts the first `most` of the keys, in order, into an empty list.
pub(crate) fn first_of(keys: &mut [u64], most: usize, best: &mut ArrayVec<Near, 64>)
    requires most { most ≤ MOST_NEIGHBOURS }
    requires empty { best.old.items ≡ [] }
    ensures { seen_all best.new.items ≡ take most (in_order (seen_of_keys keys.old)) }
{
    keys.sort_unstable();
    let count = keys.len().min(most);
    for i in 0..count {
        best.push(near_of(keys[i]));
    }
}
