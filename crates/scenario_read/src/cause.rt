// Why a scenario is refused.

/// The first cause why records stand for no scenario, in the order in which the causes are tried.
/// Fields are numbered from 0; field 0 is the record's kind.
#[derive(Clone, Copy, Debug, PartialEq, Eq)]
pub enum Cause {
    /// Record 0 is missing, or its fields aren't exactly `crowd` and `1`, or `crowd` and `2`.
    NoHeader,
    /// The record's kind is none of those of a scenario of its version.
    UnknownKind,
    /// The record has not as many fields as its kind asks for.
    FieldCount,
    /// The field is no number.
    NotANumber { field: u32 },
    /// The field's number is outside of its limits.
    OutOfRange { field: u32 },
    /// There is a `steps` record before this one.
    StepsTwice,
    /// There is a `ring` record before this one.
    RingTwice,
    /// There are as many records of this kind before this one as a scenario may have.
    TooMany,
    /// There is no `steps` record; for a `post` record, none before it.
    NoSteps,
    /// The agent's record doesn't stand before this one.
    NoSuchAgent,
    /// The post's frame is below that of the post before it.
    PostOrder,
    /// The agent has a goal already.
    GoalTwice,
    /// An agent isn't clear of a segment: the least such agent, and for it the least such segment.
    AgentOnSegment { agent: u32, segment: u32 },
}

/// Why no scenario was read.
#[derive(Clone, Copy, Debug, PartialEq, Eq)]
pub enum ScenarioFault {
    /// Memory ran out.
    NoMemory,
    /// The records stand for no scenario: the number of the record, or the count of all records for
    /// a cause that is tried at their end, and the cause.
    At { index: u32, cause: Cause },
}
