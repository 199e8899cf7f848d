// Points that are tested against many half-planes.
ghost use Rattle.std.specs.Prelude.{◌≡◌, ◌↔◌, IsTrue};
ghost use Rattle.fixed_vec.specs.Point.{FitsPoint, IsIn};

use crate::point64::{Point64, is_point64_in, point64_of};
use crate::relief::is_in;
use fixed_vec::{HalfPlane, Point};
use std::marker::Model;

// A point in the smallest numbers that hold it.
#[derive(Drop)]
enum Form {
    Bits64(Point64),
    Bits128(Point),
}

/// A point that is tested against many half-planes. It is kept in the smallest numbers that hold it: 64 bits hold
/// the parts of nearly every one, and a test then takes three products of 64 bits.
#[derive(Drop)]
pub struct Probe {
    form: Form,
}

impl Model for Probe {
    ghost use Rattle.fixed_vec.specs.Point.{FitsPoint, Rational};
    ghost use Rattle.planar_line.specs.Probe.{point_of};

    ghost Value = { Rational };

    ghost view = { λ p. point_of p.form };

    ghost invariant = { λ p. FitsPoint (point_of p.form) };
}

impl Probe {
    /// The point, ready to be tested.
    pub fn of(point: &Point) -> Probe
        ensures { result ≡ point.now }
    {
        // The reader tells that the point is within its bounds.
        let _q = point.q();
        let form = match point64_of(point) {
            Some(p) => Form::Bits64(p),
            None => Form::Bits128(*point),
        };
        Probe { form }
    }

    /// The point itself.
    pub fn point(&self) -> Point
        ensures { result ≡ self.now }
    {
        match &self.form {
            Form::Bits64(p) => Point::of(p.x as i128, p.y as i128, p.q as i128),
            Form::Bits128(p) => *p,
        }
    }

    /// Whether the point is in the half-plane.
    pub fn is_in(&self, plane: &HalfPlane) -> bool
        ensures value { IsTrue result ↔ IsIn plane.now self.now }
        ensures fits { FitsPoint self.now }
    {
        match &self.form {
            Form::Bits64(p) => is_point64_in(plane, p),
            Form::Bits128(p) => is_in(plane, p),
        }
    }
}
