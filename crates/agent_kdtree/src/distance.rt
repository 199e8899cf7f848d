// Squared distances.
ghost use Rattle.std.specs.Prelude.{◌≡◌, ◌^◌, ◌-◌, min};
ghost use Rattle.fixed_vec.specs.Vector.{IsBelow};
ghost use Rattle.crowd_data.specs.Neighbours.{squared_gap};

use fixed_vec::V2;

/// The squared distance, or the greatest number where it is larger than that.
pub(crate) fn distance(a: V2, b: V2) -> u64
    requires first { IsBelow a (2 ^ 31) }
    requires second { IsBelow b (2 ^ 31) }
    ensures { result ≡ min (squared_gap a b) (2 ^ 64 - 1) }
{
    let across = a.x.abs_diff(b.x);
    let up = a.y.abs_diff(b.y);
    (across * across).saturating_add(up * up)
}
