// The least relief that leaves a common point.
ghost use Rattle.std.specs.Prelude.{◌↔◌, ℕ, ◌<◌, ◌≤◌, length, take, IsNone, IfSome};
ghost use Rattle.fixed_vec.specs.Meeting.{IsEmpty, Nearest, relieved_after};
ghost use Rattle.planar_line.specs.Border.{IsPreference};
ghost use Rattle.planar_line.specs.Relief.{KeepBounds};
ghost use Rattle.planar_program.specs.Met.{IsMet};

use crate::certificate::raised_relief;
use crate::optimum::optimum;
use fixed_vec::{HalfPlane, Point, V2};

/// The greatest relief that is tried, in whole units per step.
pub const GREATEST_RELIEF: u32 = 262_143;

/// A relief of the soft half-planes, in whole units per step, and the point nearest to a whole point
/// among those that it leaves.
#[derive(Clone, Copy)]
pub struct Relief {
    pub relief: u32,
    pub point: Point,
}

/// The least relief of the half-planes after the first `hard` that leaves a point in each half-plane
/// of the list, and the nearest such point to `pref`. None comes exactly where the hard half-planes have
/// no common point.
pub fn least_relief(planes: &[HalfPlane], hard: usize, pref: V2) -> Option<Relief>
    requires hard { hard ≤ length planes.now }
    requires pref { IsPreference pref }
    requires bounds { KeepBounds hard GREATEST_RELIEF planes.now }
    requires enough { IsMet (take hard planes.now)
        → IsMet (relieved_after hard GREATEST_RELIEF planes.now) }
    ensures nearest { IfSome result
        (λ r. Nearest (relieved_after hard r.relief planes.now) pref r.point) }
    ensures least { IfSome result
        (λ r. (d : ℕ) → d < r.relief → IsEmpty (relieved_after hard d planes.now)) }
    ensures greatest { IfSome result (λ r. r.relief ≤ GREATEST_RELIEF) }
    ensures none { IsNone result ↔ IsEmpty (take hard planes.now) }
{
    // Nearly always no relief is needed.
    let mut relief = 0;
    while relief <= GREATEST_RELIEF {
        match optimum(planes, hard, relief, pref) {
            Ok(point) => return Some(Relief { relief, point }),
            Err(conflict) => relief = raised_relief(planes, hard, relief, &conflict),
        }
    }
    None
}
