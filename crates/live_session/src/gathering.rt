// The posts of the next frame.
ghost use Rattle.std.specs.Prelude.{◌≡◌, ◌+◌, ◌<◌, ◌≤◌, ◌++◌, length, OnOk};
ghost use Rattle.crowd_data.specs.Run.{script_of};
ghost use Rattle.crowd_data.specs.Scripts.{IsCursor};
ghost use Rattle.post_box.specs.Ends.{IsTakerOf, Transfers};

use crowd_data::Post;
use fixed_vec::{List, NoMemory};
use frame_step::Stepper;
use post_box::{MOST_TAKEN, PostBox, Taker};
use run_text::list_script;
use std::sync::Wait;

/// Leaves the posts of the next frame in the list: the scripted ones, and behind them those that wait in the box.
pub(crate) fn gather<R: Wait>(
    rt: &R,
    stepper: &Stepper,
    posts: &PostBox,
    taker: &mut Taker,
    list: &mut List<Post>,
    place: usize,
) -> usize
    requires below { stepper.now.frame.number < stepper.now.scenario.steps }
    requires cursor { IsCursor stepper.now.scenario.posts (stepper.now.frame.number + 1) place }
    requires room { length stepper.now.scenario.posts + MOST_TAKEN ≤ length list.old.items + list.old.spare }
    requires taker { IsTakerOf posts.now taker.old }
    ensures queue { taker.new.queue ≡ taker.old.queue }
    ensures moved { Transfers taker.old taker.new (script_of stepper.now.scenario (stepper.now.frame.number + 1)) list.new.items }
    ensures cursor { IsCursor stepper.now.scenario.posts (stepper.now.frame.number + 2) result }
    ensures room { length list.new.items + list.new.spare ≡ length list.old.items + list.old.spare }
{
    let later = list_script(stepper, list, place);
    taker.take(rt, posts, list);
    later
}

/// Puts posts behind those of a list.
pub(crate) fn append(list: &mut List<Post>, more: &[Post]) -> Result<(), NoMemory>
    ensures { OnOk result (list.new.items ≡ list.old.items ++ more.now) }
{
    list.reserve(more.len())?;
    for post in more {
        list.push(*post);
    }
    Ok(())
}
