// What is counted of the bodies of one frame.
ghost use Rattle.std.specs.Prelude.{◌≡◌, ◌≤◌, length};
ghost use Rattle.crowd_data.specs.declared.limits.TheConstants.{MOST_AGENTS};
ghost use Rattle.run_summary.specs.Summary.{count_of_mark, greatest_relief as greatest_relief_of};

use crowd_data::{Body, Mark};

/// How many of at most 10,000 bodies have a mark.
pub(crate) fn count_of(bodies: &[Body], mark: Mark) -> u32
    requires { length bodies.now ≤ MOST_AGENTS }
    ensures value { result ≡ count_of_mark mark bodies.now }
    ensures at_most { result ≤ length bodies.now }
{
    bodies.iter().filter(|body| body.mark == mark).count() as u32
}

/// The greatest relief among the bodies, or 0 where there are none.
pub(crate) fn greatest_relief(bodies: &[Body]) -> u32
    ensures { result ≡ greatest_relief_of bodies.now }
{
    let mut greatest = 0;
    for body in bodies {
        greatest = greatest.max(body.relief);
    }
    greatest
}
