// Statuses, their codes and their lines on the error output.
ghost use Rattle.std.specs.Prelude.{◌≡◌, ◌≤◌, ◌+◌, ◌++◌, length};
ghost use Rattle.orca_cli.specs.Status.{Reports, cause_text, code_of, message_of};

use frame_text::Line;
use outside_io::{Sink, write_whole};
use scenario_read::Cause;

/// How a command ended.
#[derive(Clone, Copy, Debug, PartialEq, Eq)]
pub(crate) enum Status {
    /// The whole output was written.
    Done,
    /// Memory ran out before anything was written.
    NoMemory,
    /// Memory ran out while controllers ran, and a prefix of the transcript so far was written.
    NoMemoryInRun,
    /// The words are no command's.
    Usage,
    /// The bytes stand for no scenario: the number of a record, and the cause.
    Refused { index: u32, cause: Cause },
    /// The source failed.
    ReadFault,
    /// The sink failed.
    WriteFault,
    /// More bytes came than an input may have.
    TooLong,
}

/// The status as the program ends with it.
pub(crate) fn code(status: Status) -> u8
    ensures { result ≡ code_of status }
{
    match status {
        Status::Done => 0,
        Status::NoMemory => 1,
        Status::NoMemoryInRun => 1,
        Status::Usage => 2,
        Status::Refused { .. } => 3,
        Status::ReadFault => 4,
        Status::WriteFault => 5,
        Status::TooLong => 6,
    }
}

// Appends a cause's name, and where it holds: at most 54 bytes.
#[tactic(auto, unfolding(crate::specs::Status::cause_text))]
fn put_cause(line: &mut Line, cause: Cause)
    requires { length line.old ≤ 100 }
    ensures text { line.new ≡ line.old ++ cause_text cause }
    ensures size { length line.new ≤ length line.old + 54 }
{
    match cause {
        Cause::NoHeader => line.put(b"NoHeader"),
        Cause::UnknownKind => line.put(b"UnknownKind"),
        Cause::FieldCount => line.put(b"FieldCount"),
        Cause::NotANumber { field } => {
            line.put(b"NotANumber field ");
            line.put_number(field);
        }
        Cause::OutOfRange { field } => {
            line.put(b"OutOfRange field ");
            line.put_number(field);
        }
        Cause::StepsTwice => line.put(b"StepsTwice"),
        Cause::RingTwice => line.put(b"RingTwice"),
        Cause::TooMany => line.put(b"TooMany"),
        Cause::NoSteps => line.put(b"NoSteps"),
        Cause::NoSuchAgent => line.put(b"NoSuchAgent"),
        Cause::PostOrder => line.put(b"PostOrder"),
        Cause::GoalTwice => line.put(b"GoalTwice"),
        Cause::AgentOnSegment { agent, segment } => {
            line.put(b"AgentOnSegment agent ");
            line.put_number(agent);
            line.put(b" segment ");
            line.put_number(segment);
        }
    }
}

// The line of a status.
#[tactic(auto, unfolding(crate::specs::Status::message_of))]
fn message(status: Status) -> Line
    ensures { result ≡ message_of status }
{
    let mut line = Line::new();
    match status {
        Status::Done => {}
        Status::NoMemory => line.put(b"no memory\n"),
        Status::NoMemoryInRun => line.put(b"no memory\n"),
        Status::Usage => line.put(b"usage: crowd run|check|sample|soak|live\n"),
        Status::Refused { index, cause } => {
            line.put(b"refused: record ");
            line.put_number(index);
            line.put(b": ");
            put_cause(&mut line, cause);
            line.put(b"\n");
        }
        Status::ReadFault => line.put(b"read fault\n"),
        Status::WriteFault => line.put(b"write fault\n"),
        Status::TooLong => line.put(b"input too long\n"),
    }
    line
}

/// Writes the line of a status. A failure changes nothing else.
pub(crate) fn report<E: Sink>(err: &mut E, status: Status)
    ensures { Reports (E.held err.old) (E.held err.new) (E.faults err.old) (E.faults err.new) status }
{
    let line = message(status);
    let _written = write_whole(err, line.bytes());
}
