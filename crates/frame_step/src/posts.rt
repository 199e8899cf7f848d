// How posts are taken in.
ghost use Rattle.std.specs.Prelude.{◌≡◌, ◌<◌, All, length};
ghost use Rattle.crowd_data.specs.Present.{AreNumbered};
ghost use Rattle.crowd_data.specs.Run.{after_post, after_posts};
ghost use Rattle.crowd_data.specs.declared.post.Post.{Post};

use crowd_data::{Body, Post};
use fixed_vec::List;

// A post sets the preferred velocity of its agent, whose body stands at the agent's number.
fn take_one(bodies: &mut List<Body>, post: &Post)
    requires agent { post.now.agent < length bodies.old.items }
    requires numbered { AreNumbered bodies.old.items }
    ensures items { bodies.new.items ≡ after_post post.now bodies.old.items }
    ensures spare { bodies.new.spare ≡ bodies.old.spare }
{
    let who = post.agent as usize;
    let body = bodies.items()[who];
    bodies.set(
        who,
        Body {
            pref: post.vel,
            ..body
        },
    );
}

/// Takes posts in: each in order sets the preferred velocity of its agent, so that the last one for an
/// agent wins.
pub(crate) fn take_all(bodies: &mut List<Body>, posts: &[Post])
    requires agents { All (λ (post : Post). post.agent < length bodies.old.items) posts.now }
    requires numbered { AreNumbered bodies.old.items }
    ensures items { bodies.new.items ≡ after_posts posts.now bodies.old.items }
    ensures spare { bodies.new.spare ≡ bodies.old.spare }
{
    for post in posts {
        take_one(bodies, post);
    }
}
