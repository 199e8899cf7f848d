// The run of a scenario, summed up.
ghost use Rattle.std.specs.Prelude.{◌≡◌, ◌+◌, ◌≤◌, length};
ghost use Rattle.outside_io.specs.Causes.{HasCause};
ghost use Rattle.crowd_data.specs.Run.{start_of};
ghost use Rattle.run_summary.specs.Summary.{IsSummary};
ghost use Rattle.orca_cli.specs.Behind.{SumsUp};
ghost use Rattle.orca_cli.specs.Working.{WroteSome};

use crate::scripted::step_scripted;
use crowd_data::Post;
use fixed_vec::List;
use frame_step::Stepper;
use outside_io::{Failed, Gate, Sink};
use run_summary::{Summary, write_summary};
use std::thread::Threads;

// Makes all steps, of which none was made yet, and sums up their frames. One frame is held at a time.
fn sum_up<R: Threads + Sync, G: Gate + Sync>(
    rt: &R,
    stepper: &mut Stepper,
    script: &mut List<Post>,
    gate: &G,
) -> Summary
    requires start { stepper.old.frame.number ≡ 0 }
    requires room { length stepper.old.scenario.posts ≤ length script.old.items + script.old.spare }
    ensures scenario { stepper.new.scenario ≡ stepper.old.scenario }
    ensures run { SumsUp stepper.old.scenario stepper.old.frame result stepper.new.frame }
{
    let steps = stepper.scenario().steps();
    let mut place = 0;
    let mut summary = Summary::empty();
    while stepper.frame().number < steps {
        place = step_scripted(rt, stepper, script, place, gate);
        summary.add(stepper.frame());
    }
    summary
}

/// Writes the summary of the run whose frame 0 is the present one, with its scripted posts. `script` has
/// room for all of them.
pub(crate) fn write_soak<T: Sink, R: Threads + Sync, G: Gate + Sync>(
    rt: &R,
    out: &mut T,
    stepper: &mut Stepper,
    script: &mut List<Post>,
    gate: &G,
) -> Result<(), Failed>
    requires start { stepper.old.frame ≡ start_of stepper.old.scenario }
    requires room { length stepper.old.scenario.posts ≤ length script.old.items + script.old.spare }
    ensures text { WroteSome (IsSummary stepper.old.scenario) (T.held out.old) (T.held out.new) result }
    ensures cause { HasCause (T.faults out.old) (T.faults out.new) result }
{
    let summary = sum_up(rt, stepper, script, gate);
    write_summary(out, stepper.scenario(), &summary, stepper.frame())
}
