// The scripted posts of a frame.
ghost use Rattle.std.specs.Prelude.{◌≡◌, ◌+◌, ◌<◌, ◌≤◌, length};
ghost use Rattle.std.specs.List.{All};
ghost use Rattle.crowd_data.specs.Limits.{IsPost};
ghost use Rattle.crowd_data.specs.Run.{script_of};
ghost use Rattle.crowd_data.specs.Scripts.{IsCursor};

use crowd_data::{Post, push_script};
use fixed_vec::List;
use frame_step::Stepper;

/// Leaves the scripted posts of the next frame in the list, which has room for all of the scenario's. `place` is
/// where they begin among all scripted posts; the answer is where those of later frames begin.
pub fn list_script(stepper: &Stepper, list: &mut List<Post>, place: usize) -> usize
    requires below { stepper.now.frame.number < stepper.now.scenario.steps }
    requires cursor { IsCursor stepper.now.scenario.posts (stepper.now.frame.number + 1) place }
    requires room { length stepper.now.scenario.posts ≤ length list.old.items + list.old.spare }
    ensures posts { list.new.items ≡ script_of stepper.now.scenario (stepper.now.frame.number + 1) }
    ensures sound { All (IsPost (length stepper.now.scenario.agents)) list.new.items }
    ensures cursor { IsCursor stepper.now.scenario.posts (stepper.now.frame.number + 2) result }
    ensures room { length list.new.items + list.new.spare ≡ length list.old.items + list.old.spare }
{
    let posts = stepper.scenario().posts();
    let number = stepper.frame().number + 1;
    list.clear();
    push_script(list, posts, place, number)
}
