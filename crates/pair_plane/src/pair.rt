// Two discs, as one moves against the other.
ghost use Rattle.std.specs.Prelude.{◌≡◌, ◌*◌, ◌^◌, ◌<◌, ◌≤◌, pos, ◌-ℤ◌, ◌*ℤ◌, unsigned_abs};
ghost use Rattle.fixed_vec.specs.Vector.{IsBelow};
ghost use Rattle.crowd_data.specs.Limits.{IsWithin};
ghost use Rattle.crowd_data.specs.Pairs.{IsPair, from_cutoff as from_cutoff_of, combined_radius as combined_radius_of, relative_position as relative_position_of, relative_velocity as relative_velocity_of};

use crowd_data::{Disc, GREATEST_HORIZON, GREATEST_SPEED};
use fixed_vec::V2;

/// Two discs and the horizon in steps for which they look out, within the limits of a pair.
#[derive(Clone, Copy)]
pub struct Pair {
    pub low: Disc,
    pub high: Disc,
    pub tau: u32,
    ghost limits: { IsPair low high tau },
}

// A coordinate of the way of `horizon` steps with a velocity, seen from an offset.
fn way_past(horizon: i64, velocity: i64, relative_position: i64) -> i64
    requires horizon { unsigned_abs horizon ≤ GREATEST_HORIZON }
    requires velocity { unsigned_abs velocity ≤ 2 * GREATEST_SPEED }
    requires relative_position { unsigned_abs relative_position < 2 ^ 16 }
    ensures { result ≡ horizon *ℤ velocity -ℤ relative_position }
{
    horizon * velocity - relative_position
}

impl Pair {
    /// Where the high disc is, seen from the low one.
    pub fn relative_position(&self) -> V2
        ensures value { result ≡ relative_position_of self.now.low self.now.high }
        ensures small { IsBelow result (2 ^ 16) }
    {
        V2 {
            x: self.high.pos.x - self.low.pos.x,
            y: self.high.pos.y - self.low.pos.y,
        }
    }

    /// How the low disc moves, seen from the high one.
    pub fn relative_velocity(&self) -> V2
        ensures value { result ≡ relative_velocity_of self.now.low self.now.high }
        ensures small { IsWithin result (2 * GREATEST_SPEED) }
    {
        V2 {
            x: self.low.vel.x - self.high.vel.x,
            y: self.low.vel.y - self.high.vel.y,
        }
    }

    /// The horizon in steps.
    pub fn horizon(&self) -> i64
        ensures { result ≡ pos self.now.tau }
    {
        self.tau as i64
    }

    /// The sum of the radii.
    pub fn combined_radius(&self) -> i64
        ensures value { result ≡ combined_radius_of self.now.low self.now.high }
        ensures small { unsigned_abs result ≤ 2 ^ 16 }
    {
        (self.low.radius + self.high.radius) as i64
    }

    /// The square of the sum of the radii.
    pub fn joint_square(&self) -> i64
        ensures { result ≡ combined_radius_of self.now.low self.now.high *ℤ combined_radius_of self.now.low self.now.high }
    {
        let radius = self.combined_radius();
        radius * radius
    }

    /// From the centre of the cut-off disc to the relative velocity, times the horizon.
    pub fn from_cutoff(&self) -> V2
        ensures value { result ≡ from_cutoff_of self.now.low self.now.high self.now.tau }
        ensures small { IsBelow result (2 ^ 28) }
    {
        let relative_position = self.relative_position();
        let velocity = self.relative_velocity();
        let horizon = self.horizon();
        V2 {
            x: way_past(horizon, velocity.x, relative_position.x),
            y: way_past(horizon, velocity.y, relative_position.y),
        }
    }
}
