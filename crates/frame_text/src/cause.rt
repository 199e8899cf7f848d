// Why bytes are no transcript.
use scenario_read::Cause;

/// The first cause why bytes are no transcript.
#[derive(Clone, Copy, Debug, PartialEq, Eq)]
pub enum TranscriptCause {
    /// The records before the first of kind `frame` stand for no scenario.
    Scenario(Cause),
    /// A record isn't allowed in its place, or the records end before the `end` record.
    Shape,
    /// The bytes aren't the text of what was read.
    Spelling,
}

/// Why no transcript was read.
#[derive(Clone, Copy, Debug, PartialEq, Eq)]
pub enum TranscriptFault {
    /// Memory ran out.
    NoMemory,
    /// The bytes are no transcript. The index is the scenario's record for its cause; for a shape the
    /// number of the first record that isn't allowed, or the count of records; for the spelling the number
    /// of whole lines of the text with which the bytes begin.
    At { index: u32, cause: TranscriptCause },
}
