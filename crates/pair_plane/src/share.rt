// The share of a pair's half-plane that each of the two agents takes.
ghost use Rattle.std.specs.Prelude.{◌≡◌, ℕ, ◌^◌, ◌<◌, unsigned_abs};
ghost use Rattle.fixed_vec.specs.Vector.{opposite as opposite_of};
ghost use Rattle.fixed_vec.specs.HalfPlane.{FitsPlane, drawn_of, relieved_of};
ghost use Rattle.crowd_data.specs.Limits.{IsWeight, IsWithin};
ghost use Rattle.crowd_data.specs.Pairs.{IsPair, higher_share, lack as lack_of, lower_share, part_of, relative_plane};

use crate::narrow::{div_up, dot};
use crate::pair::Pair;
use crate::relative::relative;
use crowd_data::Disc;
use fixed_vec::{HalfPlane, V2};

// The weights by which the two agents of a pair split what is lacking.
#[derive(Clone, Copy)]
struct Weights {
    low: u32,
    high: u32,
    ghost low_limits: { IsWeight low },
    ghost high_limits: { IsWeight high },
}

// The vector the other way round.
fn opposite(n: V2) -> V2
    requires { IsWithin n (2 ^ 32) }
    ensures { result ≡ opposite_of n }
{
    V2 { x: -n.x, y: -n.y }
}

fn normal(plane: &HalfPlane) -> V2
    ensures value { result ≡ plane.now.n }
    ensures small { IsWithin result (2 ^ 32) }
{
    plane.n()
}

// What the relative velocity lacks to be in its half-plane.
fn lack(pair: &Pair, relative: &HalfPlane) -> i64
    requires { relative.now ≡ relative_plane pair.now.low pair.now.high pair.now.tau }
    ensures value { result ≡ lack_of pair.now.low pair.now.high pair.now.tau }
    ensures small { unsigned_abs result < 2 ^ 50 }
{
    relative.c() as i64 - dot(normal(relative), pair.relative_velocity())
}

// The part of a number that falls to the lower agent, rounded up.
fn part(whole: i64, weights: &Weights) -> i64
    requires { unsigned_abs whole < 2 ^ 50 }
    ensures value { result ≡ part_of whole weights.now.low weights.now.high }
    ensures small { unsigned_abs result < 2 ^ 50 }
{
    // Most pairs are of one weight, and halving is faster.
    if weights.low == weights.high {
        div_up(whole, 2)
    } else {
        div_up(
            whole * i64::from(weights.low),
            i64::from(weights.low + weights.high),
        )
    }
}

// What the lower agent makes up of what is lacking.
fn lower_part(pair: &Pair, relative: &HalfPlane, weights: &Weights) -> i64
    requires { relative.now ≡ relative_plane pair.now.low pair.now.high pair.now.tau }
    ensures value { result ≡ part_of (lack_of pair.now.low pair.now.high pair.now.tau) weights.now.low weights.now.high }
    ensures small { unsigned_abs result < 2 ^ 50 }
{
    part(lack(pair, relative), weights)
}

// The offset of the lower agent's share: its part of what is lacking beyond its own velocity.
fn lower_offset(pair: &Pair, relative: &HalfPlane, weights: &Weights) -> i64
    requires { relative.now ≡ relative_plane pair.now.low pair.now.high pair.now.tau }
    ensures { result ≡ (lower_share pair.now.low pair.now.high pair.now.tau weights.now.low weights.now.high).c }
{
    dot(normal(relative), pair.low.vel) + lower_part(pair, relative, weights)
}

// The offset of the higher agent's share: the rest of what is lacking.
fn higher_offset(pair: &Pair, relative: &HalfPlane, weights: &Weights) -> i64
    requires { relative.now ≡ relative_plane pair.now.low pair.now.high pair.now.tau }
    ensures { result ≡ (higher_share pair.now.low pair.now.high pair.now.tau weights.now.low weights.now.high).c }
{
    lack(pair, relative)
        - lower_part(pair, relative, weights)
        - dot(normal(relative), pair.high.vel)
}

// The half-plane with this normal and offset, drawn in.
fn drawn_in(n: V2, c: i64) -> HalfPlane
    requires fits { FitsPlane (record { n = n; c = c }) }
    requires drawn_fits { FitsPlane (drawn_of (record { n = n; c = c })) }
    ensures { result ≡ drawn_of (record { n = n; c = c }) }
{
    HalfPlane::of(n, c as i128).drawn()
}

/// The half-plane that the agent with the lower number takes against the other one: its share, drawn in.
/// It keeps its bounds under every relief below 2^18. The discs are within the limits of `region`, and the
/// weights from 1 to 16.
pub fn lower_plane(
    low: &Disc,
    high: &Disc,
    tau: u32,
    low_weight: u32,
    high_weight: u32,
) -> HalfPlane
    requires pair { IsPair low.now high.now tau }
    requires low_weight { IsWeight low_weight }
    requires high_weight { IsWeight high_weight }
    ensures value { result ≡ drawn_of (lower_share low.now high.now tau low_weight high_weight) }
    ensures relieved { (relief : ℕ) → relief < 2 ^ 18 → FitsPlane (relieved_of result relief) }
{
    let pair = Pair {
        low: *low,
        high: *high,
        tau,
    };
    let weights = Weights {
        low: low_weight,
        high: high_weight,
    };
    let relative = relative(&pair);
    let offset = lower_offset(&pair, &relative, &weights);
    drawn_in(normal(&relative), offset)
}

/// The half-plane that the agent with the higher number takes against the other one: its share, drawn in.
/// It keeps its bounds under every relief below 2^18. The discs are within the limits of `region`, and the
/// weights from 1 to 16.
pub fn higher_plane(
    low: &Disc,
    high: &Disc,
    tau: u32,
    low_weight: u32,
    high_weight: u32,
) -> HalfPlane
    requires pair { IsPair low.now high.now tau }
    requires low_weight { IsWeight low_weight }
    requires high_weight { IsWeight high_weight }
    ensures value { result ≡ drawn_of (higher_share low.now high.now tau low_weight high_weight) }
    ensures relieved { (relief : ℕ) → relief < 2 ^ 18 → FitsPlane (relieved_of result relief) }
{
    let pair = Pair {
        low: *low,
        high: *high,
        tau,
    };
    let weights = Weights {
        low: low_weight,
        high: high_weight,
    };
    let relative = relative(&pair);
    let offset = higher_offset(&pair, &relative, &weights);
    drawn_in(opposite(normal(&relative)), offset)
}
