// The scripted posts of a frame.
ghost use Rattle.std.specs.Prelude.{◌≡◌, ◌<◌, ◌≤◌, ◌+◌, ◌-◌, ◌++◌, All, AllPairs, length};
ghost use Rattle.crowd_data.specs.Scripts.{IsCursor};
ghost use Rattle.crowd_data.specs.Run.{scripted_from};
ghost use Rattle.crowd_data.specs.declared.post.ScriptPost.{ScriptPost};

use crate::limits::{MOST_POSTS, MOST_STEPS};
use crate::post::{Post, SCRIPT, ScriptPost};
use fixed_vec::List;

/// Appends the scripted posts of the frame with this number, each as a post of `SCRIPT` whose `seq` is its
/// place among all scripted posts, and answers the place of the first one of a later frame. `from` is that
/// answer for the frame before, or 0 for frame 1: the frames of the posts never fall.
pub fn push_script(into: &mut List<Post>, posts: &[ScriptPost], from: usize, number: u32) -> usize
    requires few { length posts.now ≤ MOST_POSTS }
    requires last { number < MOST_STEPS + 1 }
    requires order { AllPairs (λ (p : ScriptPost) (q : ScriptPost). p.frame ≤ q.frame) posts.now }
    requires cursor { IsCursor posts.now number from }
    requires room { length posts.now - from ≤ into.old.spare }
    ensures posts { into.new.items ≡ into.old.items ++ scripted_from 0 posts.now number }
    ensures cursor { IsCursor posts.now (number + 1) result }
    ensures room { length into.new.items + into.new.spare ≡ length into.old.items + into.old.spare }
{
    let mut place = from;
    while place < posts.len() && posts[place].frame == number {
        into.push(Post {
            controller: SCRIPT,
            seq: place as u32,
            agent: posts[place].agent,
            vel: posts[place].vel,
        });
        place += 1;
    }
    place
}
