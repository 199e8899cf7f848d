// The common point of half-planes that is nearest to a whole point.
ghost use Rattle.std.specs.Prelude.{◌↔◌, ◌<◌, ◌≤◌, length, pos, ◌≤ℤ◌, IsNone, IfSome, IfOk, IfErr};
ghost use Rattle.fixed_vec.specs.Meeting.{IsEmpty, Meeting, Nearest, relieved_after};
ghost use Rattle.fixed_vec.specs.Point.{Rational};
ghost use Rattle.planar_line.specs.Border.{IsPreference, toward};
ghost use Rattle.planar_line.specs.Relief.{KeepBounds};
ghost use Rattle.planar_program.specs.Taken.{IsBest, IsOnTaken, IsTaken, IsTakenWith};

use fixed_vec::{HalfPlane, Point, V2};
use planar_line::{Conflict, Probe, Span, contains_at, plane_at};

// The place of the hard half-plane that a whole point is farthest out of, or `hard` if it is in all of them.
// Nothing rests on it.
fn farthest_out(planes: &[HalfPlane], hard: usize, at: V2) -> usize
    requires hard { hard ≤ length planes.now }
    ensures { result ≤ hard }
{
    let mut farthest = hard;
    let mut most = 0;
    for k in 0..hard {
        let n = planes[k].n();
        let reach = n.x.wrapping_mul(at.x).wrapping_add(n.y.wrapping_mul(at.y));
        let out = (planes[k].c() as i64).wrapping_sub(reach);
        if out > most {
            most = out;
            farthest = k;
        }
    }
    farthest
}

// The best point on the border of the half-plane at `place`, among those in each half-plane taken: those from
// the place `head` up to `head_end`, the soft ones up to `soft_end`, and the hard ones up to `hard_end`.
fn best_on_border(
    planes: &[HalfPlane],
    hard: usize,
    relief: u32,
    place: usize,
    head: usize,
    head_end: usize,
    soft_end: usize,
    hard_end: usize,
    pref: V2,
) -> Result<Probe, Conflict>
    requires place { place < length planes.now }
    requires hard { hard ≤ length planes.now }
    requires head { head ≤ head_end }
    requires head_end { head_end ≤ length planes.now }
    requires soft_start { hard ≤ soft_end }
    requires soft_end { soft_end ≤ length planes.now }
    requires hard_end { hard_end ≤ length planes.now }
    requires pref { IsPreference pref }
    requires bounds { KeepBounds hard relief planes.now }
    ensures best { IfOk result
        (IsBest (IsOnTaken (relieved_after hard relief planes.now) place hard head head_end soft_end hard_end) pref) }
    ensures none { IfErr result
        (λ _. (v : Rational)
        → IsOnTaken (relieved_after hard relief planes.now) place hard head head_end soft_end hard_end v → ⊥) }
{
    let border = plane_at(planes, hard, relief, place);
    let mut span = Span::whole(&border, place);
    span.narrow(planes, hard, relief, head, head_end)?;
    span.narrow(planes, hard, relief, hard, soft_end)?;
    span.narrow(planes, hard, relief, 0, hard_end)?;
    Ok(Probe::of(&span.nearest(pref)))
}

// Takes in the half-plane at `place`: moves `best` to the best point among those that are in it too.
#[inline(always)]
fn take_in(
    planes: &[HalfPlane],
    hard: usize,
    relief: u32,
    place: usize,
    head: usize,
    head_end: usize,
    soft_end: usize,
    hard_end: usize,
    pref: V2,
    best: &mut Probe,
) -> Result<(), Conflict>
    requires place { place < length planes.now }
    requires hard { hard ≤ length planes.now }
    requires head { head ≤ head_end }
    requires head_end { head_end ≤ length planes.now }
    requires soft_start { hard ≤ soft_end }
    requires soft_end { soft_end ≤ length planes.now }
    requires hard_end { hard_end ≤ length planes.now }
    requires pref { IsPreference pref }
    requires bounds { KeepBounds hard relief planes.now }
    requires best { IsBest (IsTaken (relieved_after hard relief planes.now) hard head head_end soft_end hard_end) pref
        best.old }
    ensures best { IfOk result
        (λ _. IsBest (IsTakenWith (relieved_after hard relief planes.now) place hard head head_end soft_end hard_end)
        pref best.new) }
    ensures none { IfErr result
        (λ _. (v : Rational)
        → IsTakenWith (relieved_after hard relief planes.now) place hard head head_end soft_end hard_end v → ⊥) }
{
    if !contains_at(planes, hard, relief, place, best) {
        *best = best_on_border(
            planes, hard, relief, place, head, head_end, soft_end, hard_end, pref,
        )?;
    }
    Ok(())
}

/// The point nearest to `pref` among those in each half-plane of the list, or the places of half-planes that
/// exclude each other. The first `hard` half-planes are taken as they are, and the others moved back by
/// `relief` lengths of their normals.
pub(crate) fn optimum(
    planes: &[HalfPlane],
    hard: usize,
    relief: u32,
    pref: V2,
) -> Result<Point, Conflict>
    requires hard { hard ≤ length planes.now }
    requires pref { IsPreference pref }
    requires bounds { KeepBounds hard relief planes.now }
    ensures nearest { IfOk result (Nearest (relieved_after hard relief planes.now) pref) }
    ensures toward { IfOk result
        (λ p. (v : Rational) → Meeting (relieved_after hard relief planes.now) v
        → toward pref p v ≤ℤ pos 0) }
    ensures none { IfErr result (λ _. IsEmpty (relieved_after hard relief planes.now)) }
{
    let count = planes.len();
    let start = Point::of(pref.x as i128, pref.y as i128, 1);
    let mut best = Probe::of(&start);
    // Each half-plane that moves the best point looks at all before it. So the hard one that does so most comes
    // first, then the soft ones, and the other hard ones, which seldom do, last. The order changes nothing in
    // the result.
    let head = farthest_out(planes, hard, pref);
    let head_end = hard.min(head + 1);
    for place in head..head_end {
        take_in(
            planes, hard, relief, place, head, place, hard, 0, pref, &mut best,
        )?;
    }
    for place in hard..count {
        take_in(
            planes, hard, relief, place, head, head_end, place, 0, pref, &mut best,
        )?;
    }
    for place in 0..hard {
        take_in(
            planes, hard, relief, place, head, head_end, count, place, pref, &mut best,
        )?;
    }
    Ok(best.point())
}

/// The point nearest to `pref` among those in each half-plane of the list, if there are any. The first
/// `hard` half-planes are taken as they are, and the others moved back by `relief` lengths of their normals.
pub fn nearest(planes: &[HalfPlane], hard: usize, relief: u32, pref: V2) -> Option<Point>
    requires hard { hard ≤ length planes.now }
    requires pref { IsPreference pref }
    requires bounds { KeepBounds hard relief planes.now }
    ensures nearest { IfSome result (Nearest (relieved_after hard relief planes.now) pref) }
    ensures toward { IfSome result
        (λ p. (v : Rational) → Meeting (relieved_after hard relief planes.now) v
        → toward pref p v ≤ℤ pos 0) }
    ensures none { IsNone result ↔ IsEmpty (relieved_after hard relief planes.now) }
{
    match optimum(planes, hard, relief, pref) {
        Ok(point) => Some(point),
        Err(_) => None,
    }
}
