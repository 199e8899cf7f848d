// The frames of a run.
ghost use Rattle.std.specs.Prelude.{◌≡◌, ◌<◌, [], ◌++◌, length};
ghost use Rattle.std.specs.List.{All};
ghost use Rattle.outside_io.specs.Causes.{HasCause, Wrote};
ghost use Rattle.crowd_data.specs.Limits.{IsPost};
ghost use Rattle.crowd_data.specs.Present.{IsPresent};
ghost use Rattle.crowd_data.specs.Run.{IsNext};
ghost use Rattle.frame_text.specs.Transcript.{frame_text, scenario_text};

use crowd_data::Post;
use frame_step::Stepper;
use frame_text::{write_frame, write_scenario};
use outside_io::{Failed, Gate, Sink};
use std::thread::Threads;

/// Appends the text of the scenario and of the present frame, without posts: the start of a transcript where that
/// is frame 0. After `Failed` the sink holds a prefix of it more.
pub fn write_start<T: Sink>(out: &mut T, stepper: &Stepper) -> Result<(), Failed>
    ensures text { Wrote (T.held out.old) (T.held out.new) result (scenario_text stepper.now.scenario ++ frame_text stepper.now.frame []) }
    ensures cause { HasCause (T.faults out.old) (T.faults out.new) result }
{
    match write_scenario(out, stepper.scenario()) {
        Ok(()) => {}
        Err(refused) => return Err(refused),
    }
    write_frame(out, stepper.frame(), &[])
}

/// Makes the next frame with these posts, and appends its text. The step is made also where the sink fails, which
/// then holds a prefix of the text more.
pub fn write_next<R: Threads + Sync, T: Sink, G: Gate + Sync>(
    rt: &R,
    gate: &G,
    out: &mut T,
    stepper: &mut Stepper,
    posts: &[Post],
) -> Result<(), Failed>
    requires below { stepper.old.frame.number < stepper.old.scenario.steps }
    requires posts { All (IsPost (length stepper.old.scenario.agents)) posts.now }
    ensures scenario { stepper.new.scenario ≡ stepper.old.scenario }
    ensures next { IsNext stepper.old.scenario stepper.old.frame posts.now stepper.new.frame }
    ensures present { IsPresent stepper.new.scenario stepper.new.frame }
    ensures text { Wrote (T.held out.old) (T.held out.new) result (frame_text stepper.new.frame posts.now) }
    ensures cause { HasCause (T.faults out.old) (T.faults out.new) result }
{
    // What it keeps bounds the positions that are printed.
    let _scenario = stepper.scenario();
    stepper.step_gated(rt, posts, gate);
    write_frame(out, stepper.frame(), posts)
}
