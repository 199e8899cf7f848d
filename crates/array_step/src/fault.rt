// Why there is no step.
ghost use Rattle.std.specs.Prelude.{◌≡◌};
ghost use Rattle.array_step.specs.declared.fault.StepFault.TheVariants.{NoMemory as OutOfMemory};

use fixed_vec::NoMemory;

/// The first cause why arrays stand for no scenario, in the order in which the causes are tried. Agents,
/// segments and fields are numbered from 0, fields in the order of their struct.
#[derive(Clone, Copy, Debug, PartialEq, Eq)]
pub enum ArrayFault {
    /// The ring is none of 0, 36 and 60.
    NoSuchRing,
    /// There are more than 10,000 agents.
    TooManyAgents,
    /// A field of an agent is outside of its limits: the least such agent, and its least such field.
    AgentOutOfRange { agent: u32, field: u32 },
    /// There are more than 2,000 segments.
    TooManySegments,
    /// A field of a segment is outside of its limits: the least such segment, and its least such field.
    SegmentOutOfRange { segment: u32, field: u32 },
    /// An agent isn't clear of a segment: the least such agent, and for it the least such segment.
    AgentOnSegment { agent: u32, segment: u32 },
}

/// Why there was no step.
#[derive(Clone, Copy, Debug, PartialEq, Eq)]
pub enum StepFault {
    /// Memory ran out.
    NoMemory,
    /// The arrays stand for no scenario.
    Arrays(ArrayFault),
}

impl From<NoMemory> for StepFault {
    ghost from_gives = { λ _ e. e ≡ OutOfMemory };

    fn from(_: NoMemory) -> Self {
        StepFault::NoMemory
    }
}
