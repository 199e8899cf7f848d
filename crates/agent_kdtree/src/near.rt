// Other agents, in the order of how near they are.
ghost use Rattle.std.specs.Prelude.{◌≡◌, ◌≤◌, length, map, take};
ghost use Rattle.std.specs.List.{insert};
ghost use Rattle.crowd_data.specs.Neighbours.{is_before, placed_in};
ghost use Rattle.crowd_data.specs.declared.limits.TheConstants.{MOST_NEIGHBOURS};
ghost use Rattle.agent_kdtree.specs.Seen.{seen_of, seen_all};

use arrayvec::ArrayVec;

/// Another agent as it is seen: its number and its squared distance.
#[derive(Clone, Copy, Default, Debug, PartialEq, Eq)]
pub struct Near {
    pub agent: u32,
    pub dist: u64,
}

fn comes_before(a: &Near, b: &Near) -> bool
    ensures { result ≡ is_before (seen_of a.now) (seen_of b.now) }
{
    a.dist < b.dist || a.dist == b.dist && a.agent < b.agent
}

// Where `near` belongs among `items`.
fn place_for(items: &[Near], near: &Near) -> usize
    ensures within { result ≤ length items.now }
    ensures value { placed_in (seen_of near.now) (seen_all items.now) ≡ seen_all (insert items.now result near.now) }
{
    for (i, other) in items.iter().enumerate() {
        if comes_before(near, other) {
            return i;
        }
    }
    items.len()
}

/// Puts `near` among the best, and begins after the first `most`.
pub(crate) fn place_in(best: &mut ArrayVec<Near, 64>, most: usize, near: Near)
    requires most { most ≤ MOST_NEIGHBOURS }
    requires room { length best.old.items ≤ most }
    ensures { seen_all best.new.items ≡ take most (placed_in (seen_of near) (seen_all best.old.items)) }
{
    let at = place_for(best.as_slice(), &near);
    if at < most {
        if best.len() == most {
            best.pop();
        }
        best.insert(at, near);
    }
}
