// From which relief on half-planes that exclude each other may have a common point.
ghost use Rattle.std.specs.Prelude.{◌≡◌, ℕ, ◌<◌, ◌≤◌, length, pos, ◌+ℤ◌, ◌*ℤ◌, IfSome};
ghost use Rattle.fixed_vec.specs.HalfPlane.{whole_length as length_of};
ghost use Rattle.fixed_vec.specs.Meeting.{IsEmpty, relieved_after};
ghost use Rattle.fixed_vec.specs.Point.{Rational, IsPoint, IsIn};
ghost use Rattle.fixed_vec.specs.Vector.{cross as cross_of, perp as perp_of};
ghost use Rattle.planar_program.specs.Certificate.{FitsParty, IsCertificate, IsParty, IsTooSmall, moved_back};

use crate::relief::GREATEST_RELIEF;
use fixed_vec::{HalfPlane, div_up, perp, triple};
use planar_line::{Conflict, slope};

/// Half-planes have no common point at a relief for which `relief * give` is below `lack`.
#[derive(Clone, Copy)]
struct Certificate {
    lack: i128,
    give: i128,
}

// A half-plane of a conflict, and how far a unit of relief moves it back: the length of its normal, or not
// at all where it is hard.
#[derive(Clone, Copy)]
struct Party {
    plane: HalfPlane,
    give: i128,
}

fn whole_length(plane: &HalfPlane) -> i128
    ensures { result ≡ pos (length_of plane.now.n) }
{
    plane.length() as i128
}

// The half-plane at a place of a list of which the first `hard` are never moved.
fn party_at(planes: &[HalfPlane], hard: usize, place: usize) -> Option<Party>
    requires { hard ≤ length planes.now }
    ensures { IfSome result (λ p. IsParty hard planes.now p.plane p.give) }
{
    if place >= planes.len() {
        return None;
    }
    let plane = &planes[place];
    // The reader tells that the normal is within its bounds, and so is its length.
    let _n = plane.n();
    if place < hard {
        return Some(Party {
            plane: *plane,
            give: 0,
        });
    }
    Some(Party {
        plane: *plane,
        give: whole_length(plane),
    })
}

// A half-plane that lies across another one, and is never moved.
fn across(party: &Party) -> Party
    ensures { result ≡ record { plane = record { n = perp_of party.now.plane.n; c = pos 0 }; give = pos 0 } }
{
    Party {
        plane: HalfPlane::of(perp(party.plane.n()), 0),
        give: 0,
    }
}

// How far three half-planes move back for a unit of relief, each weighed by the slope of the other two.
fn weighed_give(a: &Party, b: &Party, c: &Party) -> i128
    requires a { FitsParty a.now.plane a.now.give }
    requires b { FitsParty b.now.plane b.now.give }
    requires c { FitsParty c.now.plane c.now.give }
    ensures { result ≡ cross_of b.now.plane.n c.now.plane.n *ℤ a.now.give
        +ℤ cross_of c.now.plane.n a.now.plane.n *ℤ b.now.give
        +ℤ cross_of a.now.plane.n b.now.plane.n *ℤ c.now.give }
{
    slope(&b.plane, &c.plane) * a.give
        + slope(&c.plane, &a.plane) * b.give
        + slope(&a.plane, &b.plane) * c.give
}

// The certificate of three half-planes: weighed by the slopes of the other two, their normals add up to zero.
// None if a weight is negative.
fn certificate_of_three(a: &Party, b: &Party, c: &Party) -> Option<Certificate>
    requires a { FitsParty a.now.plane a.now.give }
    requires b { FitsParty b.now.plane b.now.give }
    requires c { FitsParty c.now.plane c.now.give }
    ensures { IfSome result (λ r. (d : ℕ) → IsTooSmall r.lack r.give d → (p : Rational) → IsPoint p
        → IsIn (moved_back a.now.plane a.now.give d) p
        → IsIn (moved_back b.now.plane b.now.give d) p
        → IsIn (moved_back c.now.plane c.now.give d) p → ⊥) }
{
    if slope(&b.plane, &c.plane) < 0
        || slope(&c.plane, &a.plane) < 0
        || slope(&a.plane, &b.plane) < 0
    {
        return None;
    }
    Some(Certificate {
        lack: triple(&a.plane, &b.plane, &c.plane),
        give: weighed_give(a, b, c),
    })
}

// The certificate of two half-planes with opposite normals: that of three, where the third one's weight is
// zero. None if they aren't opposite.
fn certificate_of_two(a: &Party, b: &Party) -> Option<Certificate>
    requires a { FitsParty a.now.plane a.now.give }
    requires b { FitsParty b.now.plane b.now.give }
    ensures { IfSome result (λ r. (d : ℕ) → IsTooSmall r.lack r.give d → (p : Rational) → IsPoint p
        → IsIn (moved_back a.now.plane a.now.give d) p
        → IsIn (moved_back b.now.plane b.now.give d) p → ⊥) }
{
    let third = across(b);
    if slope(&third.plane, &a.plane) < 0 || slope(&a.plane, &b.plane) != 0 {
        return None;
    }
    Some(Certificate {
        lack: triple(&a.plane, &b.plane, &third.plane),
        give: weighed_give(a, b, &third),
    })
}

// The certificate of the half-planes of a conflict, if they exclude each other.
fn certificate_of(planes: &[HalfPlane], hard: usize, conflict: &Conflict) -> Option<Certificate>
    requires { hard ≤ length planes.now }
    ensures { IfSome result (λ r. IsCertificate hard planes.now r.lack r.give) }
{
    let line = party_at(planes, hard, conflict.line)?;
    let low = party_at(planes, hard, conflict.low)?;
    if conflict.low == conflict.high {
        return certificate_of_two(&line, &low);
    }
    let high = party_at(planes, hard, conflict.high)?;
    certificate_of_three(&line, &low, &high)
}

// The least relief that isn't too small, or one above the greatest.
fn least_enough(certificate: &Certificate) -> u32
    ensures { (d : ℕ) → d < result → IsTooSmall certificate.now.lack certificate.now.give d }
{
    if certificate.lack <= 0 {
        return 0;
    }
    if certificate.give <= 0 {
        return GREATEST_RELIEF + 1;
    }
    let least = div_up(certificate.lack, certificate.give);
    if least > GREATEST_RELIEF as i128 {
        GREATEST_RELIEF + 1
    } else {
        least as u32
    }
}

/// A relief above the present one, below which a list has no common point: the least one by the certificate of
/// its conflict, if that says more than the present one.
pub(crate) fn raised_relief(
    planes: &[HalfPlane],
    hard: usize,
    relief: u32,
    conflict: &Conflict,
) -> u32
    requires hard { hard ≤ length planes.now }
    requires relief { relief ≤ GREATEST_RELIEF }
    requires empty { IsEmpty (relieved_after hard relief planes.now) }
    ensures raised { relief < result }
    ensures empty { (d : ℕ) → d < result → IsEmpty (relieved_after hard d planes.now) }
{
    match certificate_of(planes, hard, conflict) {
        Some(certificate) => least_enough(&certificate).max(relief + 1),
        None => relief + 1,
    }
}
