// Faults as C sees them.
ghost use Rattle.std.specs.Prelude.{◌≡◌};
ghost use Rattle.crowd_c.specs.Faults.{no_such_part, numbers_of};

use array_step::ArrayFault;

/// The first cause why a call was refused: four whole numbers of 32 bits each, with no gap. Causes are
/// numbered in the order in which they are tried, but for 7, which is tried first; what a cause doesn't name
/// is 0.
#[repr(C)]
#[derive(Clone, Copy, Debug, PartialEq, Eq)]
pub struct CrowdFault {
    /// 1 no such ring, 2 too many agents, 3 agent out of range, 4 too many segments, 5 segment out of range,
    /// 6 agent on segment, 7 no such part.
    pub cause: u32,
    pub agent: u32,
    pub field: u32,
    pub segment: u32,
}

// It has no gap.
const _: () = prove!(size_of::<CrowdFault>() == 16);

const NONE: CrowdFault = CrowdFault {
    cause: 0,
    agent: 0,
    field: 0,
    segment: 0,
};

/// The fault of a part that asks for agents that aren't there.
pub(crate) fn no_such_part() -> CrowdFault
    ensures { result ≡ no_such_part }
{
    CrowdFault { cause: 7, ..NONE }
}

/// A fault in numbers.
pub(crate) fn numbers_of(fault: ArrayFault) -> CrowdFault
    ensures { result ≡ numbers_of fault }
{
    match fault {
        ArrayFault::NoSuchRing => CrowdFault { cause: 1, ..NONE },
        ArrayFault::TooManyAgents => CrowdFault { cause: 2, ..NONE },
        ArrayFault::AgentOutOfRange { agent, field } => CrowdFault {
            cause: 3,
            agent,
            field,
            ..NONE
        },
        ArrayFault::TooManySegments => CrowdFault { cause: 4, ..NONE },
        ArrayFault::SegmentOutOfRange { segment, field } => CrowdFault {
            cause: 5,
            segment,
            field,
            ..NONE
        },
        ArrayFault::AgentOnSegment { agent, segment } => CrowdFault {
            cause: 6,
            agent,
            segment,
            ..NONE
        },
    }
}
