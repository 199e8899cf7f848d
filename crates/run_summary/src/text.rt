// The line of a summary.
ghost use Rattle.std.specs.Prelude.{◌≡◌, ◌≤◌, ◌+◌, ◌^◌, ◌++◌, length, All};
ghost use Rattle.std.specs.Fmt.{signed_decimal};
ghost use Rattle.outside_io.specs.Causes.{HasCause, Wrote};
ghost use Rattle.fixed_vec.specs.Vector.{IsBelow};
ghost use Rattle.crowd_data.specs.Run.{snapshot_of};
ghost use Rattle.crowd_data.specs.declared.frame.Body.{Body};
ghost use Rattle.crowd_data.specs.declared.limits.TheConstants.{MOST_AGENTS};
ghost use Rattle.run_summary.specs.Summary.{line_of};

use crate::positions::sum_of_positions;
use crate::summary::Summary;
use crowd_data::{Frame, Scenario};
use frame_text::Line;
use itoa::Buffer;
use outside_io::{Failed, Sink, write_whole};

// Appends a sum of coordinates with its sign, of at most 20 bytes.
fn put_sum(line: &mut Line, sum: i64)
    requires { length line.old + 20 ≤ 160 }
    ensures text { line.new ≡ line.old ++ signed_decimal sum }
    ensures size { length line.new ≤ length line.old + 20 }
{
    let mut buffer = Buffer::new();
    line.put(buffer.format(sum).as_bytes());
}

/// Appends the summary line of a scenario whose frames are summed up, as one piece. The last frame has at
/// most 10,000 bodies, whose coordinates are below 2^31 in size. After `Failed`, which comes only where
/// the sink's count of faults rose, the sink holds a prefix of the line more. It takes no memory.
#[tactic(auto, unfolding(crate::specs::Summary::line_of))]
pub fn write_summary<T: Sink>(
    out: &mut T,
    scenario: &Scenario,
    summary: &Summary,
    last: &Frame,
) -> Result<(), Failed>
    requires few { length last.now.bodies.items ≤ MOST_AGENTS }
    requires small { All (λ (body : Body). IsBelow body.pos (2 ^ 31)) last.now.bodies.items }
    ensures text { Wrote (T.held out.old) (T.held out.new) result (line_of scenario.now summary.now (snapshot_of last.now)) }
    ensures cause { HasCause (T.faults out.old) (T.faults out.new) result }
{
    let sum = sum_of_positions(last.bodies.items());
    let mut line = Line::new();
    line.put(b"soak,");
    line.put_number(scenario.steps());
    line.put(b",");
    line.put_number(scenario.agents().len() as u32);
    line.put(b",");
    line.put_number(summary.feasible);
    line.put(b",");
    line.put_number(summary.fallback);
    line.put(b",");
    line.put_number(summary.stopped);
    line.put(b",");
    line.put_number(summary.crowded);
    line.put(b",");
    line.put_number(summary.relief);
    line.put(b",");
    put_sum(&mut line, sum.x);
    line.put(b",");
    put_sum(&mut line, sum.y);
    line.put(b"\n");
    write_whole(out, line.bytes())
}
