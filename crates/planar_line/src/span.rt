// A stretch of a border.
ghost use Rattle.std.specs.Prelude.{◌≡◌, ◌≤◌, ◌<◌, ◌↔◌, length, pos, ◌<ℤ◌, ◌≤ℤ◌, slice_index_or, IsTrue, IsFalse, IfOk, IfErr};
ghost use Rattle.std.specs.List.{slice_range};
ghost use Rattle.std.specs.Option.{ForSome, IsSomeAnd};
ghost use Rattle.fixed_vec.specs.Point.{IsIn, Rational};
ghost use Rattle.fixed_vec.specs.Vector.{cross as cross_of};
ghost use Rattle.fixed_vec.specs.Meeting.{Meeting, IsNoFarther, relieved_after};
ghost use Rattle.planar_line.specs.Border.{IsOnBorder, IsPreference, toward};
ghost use Rattle.planar_line.specs.Relief.{KeepBounds, no_plane};
ghost use Rattle.planar_line.specs.Span.{Stretch, IsStretch, IsOnStretch, IsPart};

use crate::conflict::Conflict;
use crate::crossing::{crossing, slope};
use crate::foot::{foot, lead};
use crate::probe::Probe;
use crate::relief::{is_in, is_relieved, plane_at};
use fixed_vec::{HalfPlane, Point, V2};
use std::marker::Model;

/// A stretch of the border of a half-plane, between two ends that may be missing. Its type keeps
/// that it has a point.
#[derive(Drop)]
pub struct Span {
    border: HalfPlane,
    low: Option<Probe>,
    high: Option<Probe>,
    // The places of the half-planes that made the border and its ends. Nothing rests on them.
    makers: Conflict,
}

impl Model for Span {
    ghost Value = { Stretch };

    ghost view = { λ s. record { border = s.border; low = s.low; high = s.high } };

    ghost invariant = { λ s. IsStretch (record { border = s.border; low = s.low; high = s.high }) };
}

// Whether there is an end, in the half-plane.
fn is_end_in(plane: &HalfPlane, end: &Option<Probe>) -> bool
    ensures { IsTrue result ↔ IsSomeAnd end.now (IsIn plane.now) }
{
    match end {
        None => false,
        Some(point) => point.is_in(plane),
    }
}

// Whether the end is missing, or in the half-plane.
fn is_no_end_out(plane: &HalfPlane, end: &Option<Probe>) -> bool
    ensures { IsTrue result ↔ ForSome end.now (IsIn plane.now) }
{
    match end {
        None => true,
        Some(point) => point.is_in(plane),
    }
}

impl Span {
    /// The whole border of the half-plane, which stands at a place of a list.
    pub fn whole(border: &HalfPlane, place: usize) -> Span
        ensures { (p : Rational) → IsOnStretch result p ↔ IsOnBorder border.now p }
    {
        // The reader tells that the normal isn't zero, so that the border has points.
        let _n = border.n();
        Span {
            border: *border,
            low: None,
            high: None,
            makers: Conflict {
                line: place,
                low: place,
                high: place,
            },
        }
    }

    // Whether the half-plane is known at once to have all of the span. A parallel one is not.
    fn is_spared(&self, plane: &HalfPlane) -> bool
        ensures { IsTrue result → (p : Rational) → IsOnStretch self.now p → IsIn plane.now p }
    {
        let slope = slope(&self.border, plane);
        if slope > 0 {
            is_end_in(plane, &self.low)
        } else if slope < 0 {
            is_end_in(plane, &self.high)
        } else {
            false
        }
    }

    // Leaves the part of the span in a half-plane that bounds it from below, and tells whether there is any.
    fn raise(&mut self, plane: &HalfPlane, place: usize) -> bool
        requires { pos 0 <ℤ cross_of self.old.border.n plane.now.n }
        ensures exact { IsTrue result → IsPart self.new self.old (IsIn plane.now) }
        ensures none { IsFalse result → (p : Rational) → IsOnStretch self.old p → IsIn plane.now p → ⊥ }
    {
        if is_end_in(plane, &self.low) {
            return true;
        }
        self.makers.low = place;
        if !is_no_end_out(plane, &self.high) {
            return false;
        }
        self.low = Some(Probe::of(&crossing(&self.border, plane)));
        true
    }

    // Leaves the part of the span in a half-plane that bounds it from above, and tells whether there is any.
    fn lower(&mut self, plane: &HalfPlane, place: usize) -> bool
        requires { cross_of self.old.border.n plane.now.n <ℤ pos 0 }
        ensures exact { IsTrue result → IsPart self.new self.old (IsIn plane.now) }
        ensures none { IsFalse result → (p : Rational) → IsOnStretch self.old p → IsIn plane.now p → ⊥ }
    {
        if is_end_in(plane, &self.high) {
            return true;
        }
        self.makers.high = place;
        if !is_no_end_out(plane, &self.low) {
            return false;
        }
        self.high = Some(Probe::of(&crossing(plane, &self.border)));
        true
    }

    // Tells whether the half-plane, whose border is parallel, has all of the span. Else it has none of it.
    fn level(&mut self, plane: &HalfPlane, place: usize) -> bool
        requires { cross_of self.old.border.n plane.now.n ≡ pos 0 }
        ensures exact { IsTrue result → IsPart self.new self.old (IsIn plane.now) }
        ensures none { IsFalse result → (p : Rational) → IsOnStretch self.old p → IsIn plane.now p → ⊥ }
    {
        if is_in(plane, &foot(&self.border, V2 { x: 0, y: 0 })) {
            return true;
        }
        self.makers.low = place;
        self.makers.high = place;
        false
    }

    // Leaves the part of the span in a half-plane, and tells whether there is any.
    fn cut(&mut self, plane: &HalfPlane, place: usize) -> bool
        ensures exact { IsTrue result → IsPart self.new self.old (IsIn plane.now) }
        ensures none { IsFalse result → (p : Rational) → IsOnStretch self.old p → IsIn plane.now p → ⊥ }
    {
        let slope = slope(&self.border, plane);
        if slope > 0 {
            self.raise(plane, place)
        } else if slope < 0 {
            self.lower(plane, place)
        } else {
            self.level(plane, place)
        }
    }

    // Leaves the part of the span in the half-plane at a place of a list, and tells whether there is any.
    fn cut_at(&mut self, planes: &[HalfPlane], hard: usize, relief: u32, place: usize) -> bool
        requires place { place < length planes.now }
        requires hard { hard ≤ length planes.now }
        requires bounds { KeepBounds hard relief planes.now }
        ensures exact { IsTrue result
            → IsPart self.new self.old (IsIn (slice_index_or (relieved_after hard relief planes.now) place no_plane)) }
        ensures none { IsFalse result
            → (p : Rational) → IsOnStretch self.old p
            → IsIn (slice_index_or (relieved_after hard relief planes.now) place no_plane) p → ⊥ }
    {
        let plane = &planes[place];
        if is_relieved(hard, relief, place) {
            // A half-plane that has all of the span as it is does so when it is relieved too.
            if self.is_spared(plane) {
                return true;
            }
            self.cut(&plane_at(planes, hard, relief, place), place)
        } else {
            self.cut(plane, place)
        }
    }

    /// Leaves the part of the span in each half-plane of the list from the place `from` up to `to`. If it
    /// has no point, the error tells the places of half-planes that exclude each other. The first `hard`
    /// half-planes of the list are taken as they are, and the others moved back by `relief` lengths of
    /// their normals.
    pub fn narrow(
        &mut self,
        planes: &[HalfPlane],
        hard: usize,
        relief: u32,
        from: usize,
        to: usize,
    ) -> Result<(), Conflict>
        requires hard { hard ≤ length planes.now }
        requires order { from ≤ to }
        requires end { to ≤ length planes.now }
        requires bounds { KeepBounds hard relief planes.now }
        ensures exact { IfOk result
            (λ _. IsPart self.new self.old (Meeting (slice_range (relieved_after hard relief planes.now) from to))) }
        ensures none { IfErr result
            (λ _. (p : Rational) → IsOnStretch self.old p
            → Meeting (slice_range (relieved_after hard relief planes.now) from to) p → ⊥) }
    {
        for place in from..to {
            if !self.cut_at(planes, hard, relief, place) {
                return Err(self.makers);
            }
        }
        Ok(())
    }

    /// The point of the span that is nearest to the whole point.
    pub fn nearest(&self, pref: V2) -> Point
        requires { IsPreference pref }
        ensures within { IsOnStretch self.now result }
        ensures toward { (v : Rational) → IsOnStretch self.now v → toward pref result v ≤ℤ pos 0 }
        ensures no_farther { (v : Rational) → IsOnStretch self.now v → IsNoFarther pref result v }
    {
        if let Some(low) = &self.low {
            let low = low.point();
            if lead(&self.border, &low, pref) <= 0 {
                return low;
            }
        }
        if let Some(high) = &self.high {
            let high = high.point();
            if lead(&self.border, &high, pref) >= 0 {
                return high;
            }
        }
        foot(&self.border, pref)
    }
}
