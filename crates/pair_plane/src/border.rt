// Which part of the border of the velocity obstacle counts.
ghost use Rattle.std.specs.Prelude.{◌≡◌};
ghost use Rattle.crowd_data.specs.Pairs.{IsPair, is_arc as is_arc_of, is_overlap as is_overlap_of, region_of};

use crate::narrow::{cross, dot, product};
use crate::pair::Pair;
use crowd_data::{Disc, Region};

// The discs overlap; touching discs don't.
fn is_overlap(pair: &Pair) -> bool
    ensures { result ≡ is_overlap_of pair.now.low pair.now.high }
{
    let relative_position = pair.relative_position();
    dot(relative_position, relative_position) < pair.joint_square()
}

// The relative velocity is nearest to the arc of the cut-off disc, not to a leg.
fn is_arc(pair: &Pair) -> bool
    ensures { result ≡ is_arc_of pair.now.low pair.now.high pair.now.tau }
{
    let from_cutoff = pair.from_cutoff();
    let along = dot(from_cutoff, pair.relative_position());
    along < 0 && product(pair.joint_square(), dot(from_cutoff, from_cutoff)) < product(along, along)
}

/// Which part of the border counts for the pair.
pub fn part(pair: &Pair) -> Region
    ensures { result ≡ region_of pair.now.low pair.now.high pair.now.tau }
{
    if is_overlap(pair) {
        Region::Overlap
    } else if is_arc(pair) {
        Region::Arc
    } else if cross(pair.relative_position(), pair.from_cutoff()) > 0 {
        Region::Left
    } else {
        Region::Right
    }
}

/// Which part of the border of the velocity obstacle counts for two discs and a horizon of `tau` steps.
/// `low` is the disc of the agent with the lower number. The centres are less than 2^16 units apart, the
/// velocities at most 16,384 units per step a coordinate, the radii from 1 to 32,768 units, and the
/// horizon from 1 to 4,096 steps; where the discs are doesn't matter.
pub fn region(low: &Disc, high: &Disc, tau: u32) -> Region
    requires { IsPair low.now high.now tau }
    ensures { result ≡ region_of low.now high.now tau }
{
    part(&Pair {
        low: *low,
        high: *high,
        tau,
    })
}
