// The half-plane of the relative velocities that keep two discs apart.
ghost use Rattle.std.specs.Prelude.{◌≡◌, ◌^◌, ◌<◌, pos, ◌*ℤ◌, unsigned_abs};
ghost use Rattle.exact_algebra.specs.Numbers.{ceil};
ghost use Rattle.fixed_vec.specs.Vector.{IsBelow};
ghost use Rattle.fixed_vec.specs.HalfPlane.{FitsPlane, whole_length};
ghost use Rattle.crowd_data.specs.Limits.{IsWithin};
ghost use Rattle.crowd_data.specs.Pairs.{IsPair, from_cutoff, held_off as held_off_of, combined_radius, leg_normal as leg_normal_of, overlap_normal as overlap_normal_of, region_of, relative_in, relative_plane as relative_plane_of};
ghost use Rattle.crowd_data.specs.declared.pair.Region.TheVariants.{Arc, Overlap};

use crate::border::part;
use crate::leg::{leg_length, leg_normal, opposite_leg};
use crate::narrow::{div_up, dot, length};
use crate::pair::Pair;
use crowd_data::{Disc, Region};
use fixed_vec::{HalfPlane, V2, minus};

// The way out of an overlap within one step, or (1, 0) where there is none.
fn overlap_normal(pair: &Pair) -> V2
    ensures value { result ≡ overlap_normal_of pair.now.low pair.now.high }
    ensures small { IsBelow result (2 ^ 17) }
{
    let n = minus(pair.relative_velocity(), pair.relative_position());
    if dot(n, n) == 0 { V2 { x: 1, y: 0 } } else { n }
}

// The sum of the radii times the length of n.
fn radius_times_length(pair: &Pair, n: V2) -> i64
    requires { IsWithin n (2 ^ 28) }
    ensures value { result ≡ combined_radius pair.now.low pair.now.high *ℤ pos (whole_length n) }
    ensures small { unsigned_abs result < 2 ^ 47 }
{
    pair.combined_radius() * length(n)
}

// How far along n the border of the disc lies, times the length of n.
fn held_off(pair: &Pair, n: V2) -> i64
    requires { IsWithin n (2 ^ 28) }
    ensures { result ≡ held_off_of pair.now.low pair.now.high n }
{
    dot(n, pair.relative_position()) + radius_times_length(pair, n)
}

fn overlap_plane(pair: &Pair) -> HalfPlane
    ensures { result ≡ relative_in pair.now.low pair.now.high pair.now.tau Overlap }
{
    let n = overlap_normal(pair);
    HalfPlane::of(n, held_off(pair, n) as i128)
}

// The offset of the half-plane whose border touches the arc.
fn arc_offset(pair: &Pair) -> i64
    ensures { result ≡ ceil (held_off_of pair.now.low pair.now.high (from_cutoff pair.now.low pair.now.high pair.now.tau)) (pos pair.now.tau) }
{
    div_up(held_off(pair, pair.from_cutoff()), pair.horizon())
}

fn arc_plane(pair: &Pair) -> HalfPlane
    requires { region_of pair.now.low pair.now.high pair.now.tau ≡ Arc }
    ensures { result ≡ relative_in pair.now.low pair.now.high pair.now.tau Arc }
{
    HalfPlane::of(pair.from_cutoff(), arc_offset(pair) as i128)
}

fn leg_plane(pair: &Pair, leg: i64) -> HalfPlane
    requires small { unsigned_abs leg < 2 ^ 17 }
    requires fits { FitsPlane (record { n = leg_normal_of pair.now.low pair.now.high leg; c = pos 0 }) }
    ensures { result ≡ record { n = leg_normal_of pair.now.low pair.now.high leg; c = pos 0 } }
{
    HalfPlane::of(leg_normal(pair, leg), 0)
}

/// The half-plane of the relative velocities that keep the two apart.
pub fn relative(pair: &Pair) -> HalfPlane
    ensures { result ≡ relative_plane_of pair.now.low pair.now.high pair.now.tau }
{
    match part(pair) {
        Region::Overlap => overlap_plane(pair),
        Region::Arc => arc_plane(pair),
        Region::Left => leg_plane(pair, leg_length(pair)),
        Region::Right => leg_plane(pair, opposite_leg(pair)),
    }
}

/// The half-plane of the velocities of `low` against `high`, in units per step, that keep the two discs
/// apart for `tau` steps, or part them within one step where they overlap. `low` is the disc of the agent
/// with the lower number. The discs are within the limits of `region`.
pub fn relative_plane(low: &Disc, high: &Disc, tau: u32) -> HalfPlane
    requires { IsPair low.now high.now tau }
    ensures { result ≡ relative_plane_of low.now high.now tau }
{
    relative(&Pair {
        low: *low,
        high: *high,
        tau,
    })
}
