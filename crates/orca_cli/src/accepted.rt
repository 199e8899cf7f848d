// The line of a scenario that is accepted.
ghost use Rattle.std.specs.Prelude.{◌≡◌, ◌≤◌, ◌+◌, ◌++◌, decimal, length};
ghost use Rattle.outside_io.specs.Causes.{HasCause, Wrote};
ghost use Rattle.orca_cli.specs.Accepted.{accepted_line};

use crowd_data::Scenario;
use frame_text::Line;
use itoa::Buffer;
use outside_io::{Failed, Sink, write_whole};

// Appends a count in decimal, of at most 20 bytes.
fn put_count(line: &mut Line, count: usize)
    requires { length line.old + 20 ≤ 160 }
    ensures text { line.new ≡ line.old ++ decimal count }
    ensures size { length line.new ≤ length line.old + 20 }
{
    let mut buffer = Buffer::new();
    line.put(buffer.format(count as u64).as_bytes());
}

#[tactic(auto, unfolding(crate::specs::Accepted::accepted_line))]
fn line_of(scenario: &Scenario) -> Line
    ensures { result ≡ accepted_line scenario.now }
{
    let mut line = Line::new();
    line.put(b"accepted,");
    put_count(&mut line, scenario.agents().len());
    line.put(b",");
    put_count(&mut line, scenario.segments().len());
    line.put(b",");
    put_count(&mut line, scenario.posts().len());
    line.put(b",");
    put_count(&mut line, scenario.goals().len());
    line.put(b",");
    line.put_number(scenario.steps());
    line.put(b"\n");
    line
}

/// Appends how large a scenario is, as one line.
pub(crate) fn write_accepted<T: Sink>(out: &mut T, scenario: &Scenario) -> Result<(), Failed>
    ensures text { Wrote (T.held out.old) (T.held out.new) result (accepted_line scenario.now) }
    ensures cause { HasCause (T.faults out.old) (T.faults out.new) result }
{
    let line = line_of(scenario);
    write_whole(out, line.bytes())
}
