// The run of a scenario, written frame by frame.
ghost use Rattle.std.specs.Prelude.{◌≡◌, ◌+◌, ◌≤◌, length};
ghost use Rattle.outside_io.specs.Causes.{HasCause};
ghost use Rattle.crowd_data.specs.Run.{scripts_of, start_of};
ghost use Rattle.frame_text.specs.Transcript.{IsTranscript};
ghost use Rattle.orca_cli.specs.Behind.{IsTextBehind};
ghost use Rattle.orca_cli.specs.Working.{WroteSome};

use crowd_data::Post;
use fixed_vec::List;
use frame_step::Stepper;
use frame_text::write_end;
use outside_io::{Failed, Gate, Sink};
use run_text::{list_script, write_next, write_start};
use std::thread::Threads;

// Writes the frames of all steps, of which none was made yet, and the line at the end.
fn write_steps<T: Sink, R: Threads + Sync, G: Gate + Sync>(
    rt: &R,
    out: &mut T,
    stepper: &mut Stepper,
    script: &mut List<Post>,
    gate: &G,
) -> Result<(), Failed>
    requires start { stepper.old.frame.number ≡ 0 }
    requires room { length stepper.old.scenario.posts ≤ length script.old.items + script.old.spare }
    ensures text { WroteSome (IsTextBehind stepper.old.scenario stepper.old.frame) (T.held out.old) (T.held out.new) result }
    ensures cause { HasCause (T.faults out.old) (T.faults out.new) result }
{
    let steps = stepper.scenario().steps();
    let mut place = 0;
    while stepper.frame().number < steps {
        place = list_script(stepper, script, place);
        write_next(rt, gate, out, stepper, script.items())?;
    }
    write_end(out, stepper.frame().number)
}

/// Writes the transcript of the run whose frame 0 is the present one, with its scripted posts. `script` has
/// room for all of them.
pub(crate) fn write_run<T: Sink, R: Threads + Sync, G: Gate + Sync>(
    rt: &R,
    out: &mut T,
    stepper: &mut Stepper,
    script: &mut List<Post>,
    gate: &G,
) -> Result<(), Failed>
    requires start { stepper.old.frame ≡ start_of stepper.old.scenario }
    requires room { length stepper.old.scenario.posts ≤ length script.old.items + script.old.spare }
    ensures text { WroteSome (IsTranscript stepper.old.scenario (scripts_of stepper.old.scenario)) (T.held out.old) (T.held out.new) result }
    ensures cause { HasCause (T.faults out.old) (T.faults out.new) result }
{
    let _scenario = stepper.scenario();
    write_start(out, stepper)?;
    write_steps(rt, out, stepper, script, gate)
}
