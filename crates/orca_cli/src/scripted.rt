// A step with the scripted posts of its frame.
ghost use Rattle.std.specs.Prelude.{◌≡◌, ◌+◌, ◌<◌, ◌≤◌, length};
ghost use Rattle.std.specs.List.{All};
ghost use Rattle.crowd_data.specs.Limits.{IsPost};
ghost use Rattle.crowd_data.specs.Run.{IsNext, script_of};
ghost use Rattle.crowd_data.specs.Scripts.{IsCursor};

use crowd_data::Post;
use fixed_vec::List;
use frame_step::Stepper;
use outside_io::Gate;
use run_text::list_script;
use std::thread::Threads;

/// Makes the next frame with its scripted posts, which it leaves in `script`. `place` is where they begin
/// among all scripted posts; the answer is where those of later frames begin.
pub(crate) fn step_scripted<R: Threads + Sync, G: Gate + Sync>(
    rt: &R,
    stepper: &mut Stepper,
    script: &mut List<Post>,
    place: usize,
    gate: &G,
) -> usize
    requires below { stepper.old.frame.number < stepper.old.scenario.steps }
    requires cursor { IsCursor stepper.old.scenario.posts (stepper.old.frame.number + 1) place }
    requires room { length stepper.old.scenario.posts ≤ length script.old.items + script.old.spare }
    ensures scenario { stepper.new.scenario ≡ stepper.old.scenario }
    ensures next { IsNext stepper.old.scenario stepper.old.frame script.new.items stepper.new.frame }
    ensures script { script.new.items ≡ script_of stepper.old.scenario (stepper.old.frame.number + 1) }
    ensures sound { All (IsPost (length stepper.old.scenario.agents)) script.new.items }
    ensures cursor { IsCursor stepper.old.scenario.posts (stepper.new.frame.number + 1) result }
    ensures room { length script.new.items + script.new.spare ≡ length script.old.items + script.old.spare }
{
    let later = list_script(stepper, script, place);
    stepper.step_gated(rt, script.items(), gate);
    later
}
