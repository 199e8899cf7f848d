// Where the bodies of a frame are.
ghost use Rattle.std.specs.Prelude.{◌≡◌, ◌≤◌, ◌^◌, length, All};
ghost use Rattle.fixed_vec.specs.Vector.{IsBelow};
ghost use Rattle.crowd_data.specs.declared.frame.Body.{Body};
ghost use Rattle.crowd_data.specs.declared.limits.TheConstants.{MOST_AGENTS};
ghost use Rattle.run_summary.specs.Summary.{sum_of_positions as sum_of_positions_of};

use crowd_data::Body;
use fixed_vec::V2;

/// The sum of the positions of at most 10,000 bodies, whose coordinates are below 2^31 in size.
pub(crate) fn sum_of_positions(bodies: &[Body]) -> V2
    requires few { length bodies.now ≤ MOST_AGENTS }
    requires small { All (λ (body : Body). IsBelow body.pos (2 ^ 31)) bodies.now }
    ensures { result ≡ sum_of_positions_of bodies.now }
{
    let mut sum = V2 { x: 0, y: 0 };
    for body in bodies {
        sum.x += body.pos.x;
        sum.y += body.pos.y;
    }
    sum
}
