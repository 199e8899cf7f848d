// Two discs that are too far off to touch within a step.
ghost use Rattle.std.specs.Prelude.{◌+◌, ◌*◌, pos, ◌≤ℤ◌};
ghost use Rattle.fixed_vec.specs.Vector.{square};
ghost use Rattle.crowd_data.specs.Neighbours.{IsNear};
ghost use Rattle.crowd_data.specs.Safety.{ApartThroughout};

use crowd_data::Place;
use fixed_vec::V2;

/// Two discs that aren't near stay apart for the step, whatever velocities they take that aren't longer
/// than their speeds.
pub fn far_pair(a: &Place, b: &Place, a_vel: V2, b_vel: V2)
    requires far { ¬ IsNear a.now b.now }
    requires a_speed { square a_vel ≤ℤ pos (a.now.speed * a.now.speed) }
    requires b_speed { square b_vel ≤ℤ pos (b.now.speed * b.now.speed) }
    ensures { ApartThroughout a.now.pos a_vel b.now.pos b_vel (pos (a.now.radius + b.now.radius)) }
{}
