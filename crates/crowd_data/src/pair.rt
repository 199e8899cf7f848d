// What an agent sees of others.
use fixed_vec::V2;

/// Where an agent is and how far it can come: what looking for neighbours needs.
#[derive(Clone, Copy, Debug, PartialEq, Eq)]
pub struct Place {
    /// The position of the centre, each coordinate below 2^31 in size.
    pub pos: V2,
    /// The radius in units, 1 to 32,768.
    pub radius: u32,
    /// The greatest speed in units per step, 0 to 16,384.
    pub speed: u32,
}

/// A moving disc: what the half-plane of a pair is made from.
#[derive(Clone, Copy, Debug, PartialEq, Eq)]
pub struct Disc {
    /// The position of the centre, each coordinate below 2^31 in size.
    pub pos: V2,
    /// The velocity in units per step, each coordinate at most 16,384 in size.
    pub vel: V2,
    /// The radius in units, 1 to 32,768.
    pub radius: u32,
}

/// Which part of the border of the velocity obstacle counts for a pair (van den Berg, Guy, Lin and
/// Manocha, "Reciprocal n-Body Collision Avoidance", section 4): the arc of the cut-off disc, the left
/// or the right leg, or, for discs that overlap, the disc of one step.
#[derive(Clone, Copy, Debug, PartialEq, Eq)]
pub enum Region {
    Arc,
    Left,
    Right,
    Overlap,
}
