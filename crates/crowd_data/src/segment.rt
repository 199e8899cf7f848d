// Wall segments.
use fixed_vec::V2;

/// A straight wall with two sides, from a to b. Each coordinate is at most 4,194,304 in size, and a may
/// be b.
#[derive(Clone, Copy, Debug, PartialEq, Eq)]
pub struct Segment {
    pub a: V2,
    pub b: V2,
}
