// The legs of a velocity obstacle: its tangents from the origin.
ghost use Rattle.std.specs.Prelude.{◌≡◌, ◌^◌, ◌<◌, neg_ℤ, ◌-ℤ◌, ◌*ℤ◌, unsigned_abs};
ghost use Rattle.fixed_vec.specs.Vector.{square};
ghost use Rattle.crowd_data.specs.Pairs.{combined_radius, leg_length as leg_length_of, leg_normal as leg_normal_of, relative_position};

use crate::narrow::dot;
use crate::pair::Pair;
use fixed_vec::{V2, floor_root, perp};

// The square of a leg.
fn leg_square(pair: &Pair) -> i64
    ensures { result ≡ square (relative_position pair.now.low pair.now.high) -ℤ combined_radius pair.now.low pair.now.high *ℤ combined_radius pair.now.low pair.now.high }
{
    let relative_position = pair.relative_position();
    dot(relative_position, relative_position) - pair.joint_square()
}

/// The length of a leg, rounded down.
pub fn leg_length(pair: &Pair) -> i64
    ensures value { result ≡ leg_length_of pair.now.low pair.now.high }
    ensures small { unsigned_abs result < 2 ^ 17 }
{
    floor_root(leg_square(pair).unsigned_abs() as u128) as i64
}

/// The same length the other way round, as the right leg takes it.
pub fn opposite_leg(pair: &Pair) -> i64
    ensures value { result ≡ neg_ℤ (leg_length_of pair.now.low pair.now.high) }
    ensures small { unsigned_abs result < 2 ^ 17 }
{
    -leg_length(pair)
}

// A coordinate of a leg's normal.
fn turned(leg: i64, across: i64, radius: i64, along: i64) -> i64
    requires leg { unsigned_abs leg < 2 ^ 17 }
    requires across { unsigned_abs across < 2 ^ 16 }
    requires radius { unsigned_abs radius < 2 ^ 17 }
    requires along { unsigned_abs along < 2 ^ 16 }
    ensures { result ≡ leg *ℤ across -ℤ radius *ℤ along }
{
    leg * across - radius * along
}

/// The normal of the left leg, or of the right one for the opposite length.
pub fn leg_normal(pair: &Pair, leg: i64) -> V2
    requires { unsigned_abs leg < 2 ^ 17 }
    ensures { result ≡ leg_normal_of pair.now.low pair.now.high leg }
{
    let relative_position = pair.relative_position();
    let across = perp(relative_position);
    let radius = pair.combined_radius();
    V2 {
        x: turned(leg, across.x, radius, relative_position.x),
        y: turned(leg, across.y, radius, relative_position.y),
    }
}
