// Two discs that respect the half-planes of their pair.
ghost use Rattle.std.specs.Prelude.{pos};
ghost use Rattle.fixed_vec.specs.Vector.{plus, times};
ghost use Rattle.fixed_vec.specs.Point.{IsIn, whole};
ghost use Rattle.crowd_data.specs.Pairs.{IsPair, higher_share, combined_radius, lower_share};
ghost use Rattle.crowd_data.specs.Safety.{ApartThroughout, IsApart};

use crowd_data::Disc;
use fixed_vec::V2;

/// Two discs that are apart, and whose new velocities meet the shares of their pair, stay apart for `tau`
/// steps, and so for the one step, whatever the weights. `low` is the disc of the agent with the lower number.
pub fn pair_apart(
    low: &Disc,
    high: &Disc,
    tau: u32,
    low_vel: V2,
    high_vel: V2,
    low_weight: u32,
    high_weight: u32,
)
    requires limits { IsPair low.now high.now tau }
    requires apart { IsApart low.now.pos high.now.pos (combined_radius low.now high.now) }
    requires low_share { IsIn (lower_share low.now high.now tau low_weight high_weight) (whole low_vel) }
    requires high_share { IsIn (higher_share low.now high.now tau low_weight high_weight) (whole high_vel) }
    ensures horizon { ApartThroughout low.now.pos (times (pos tau) low_vel) high.now.pos (times (pos tau) high_vel) (combined_radius low.now high.now) }
    ensures step { ApartThroughout low.now.pos low_vel high.now.pos high_vel (combined_radius low.now high.now) }
{}

/// Two discs that overlap, and whose new velocities meet the shares of their pair, are apart at the end of
/// the step, whatever the weights. `low` is the disc of the agent with the lower number.
pub fn pair_apart_at_end(
    low: &Disc,
    high: &Disc,
    tau: u32,
    low_vel: V2,
    high_vel: V2,
    low_weight: u32,
    high_weight: u32,
)
    requires overlap { ¬ IsApart low.now.pos high.now.pos (combined_radius low.now high.now) }
    requires low_share { IsIn (lower_share low.now high.now tau low_weight high_weight) (whole low_vel) }
    requires high_share { IsIn (higher_share low.now high.now tau low_weight high_weight) (whole high_vel) }
    ensures { IsApart (plus low.now.pos low_vel) (plus high.now.pos high_vel) (combined_radius low.now high.now) }
{}
