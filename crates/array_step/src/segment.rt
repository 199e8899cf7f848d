// Wall segments as a caller holds them.
ghost use Rattle.std.specs.Prelude.{◌≡◌};
ghost use Rattle.array_step.specs.Arrays.{segment_of};

use crowd_data::Segment;
use fixed_vec::V2;

/// A straight wall with two sides, from a to b: four whole numbers of 32 bits each, with no gap. Each
/// coordinate is at most 4,194,304 units in size, and a may be b.
#[repr(C)]
#[derive(Clone, Copy, Debug, PartialEq, Eq)]
pub struct CrowdSegment {
    pub ax: i32,
    pub ay: i32,
    pub bx: i32,
    pub by: i32,
}

// It has no gap.
const _: () = prove!(size_of::<CrowdSegment>() == 16);

/// The segment of a scenario that this one stands for.
pub(crate) fn segment_of(segment: &CrowdSegment) -> Segment
    ensures { result ≡ segment_of segment.now }
{
    Segment {
        a: V2 {
            x: i64::from(segment.ax),
            y: i64::from(segment.ay),
        },
        b: V2 {
            x: i64::from(segment.bx),
            y: i64::from(segment.by),
        },
    }
}
