// Equal values in memory of their own.
ghost use Rattle.std.specs.Prelude.{◌≡◌, IfOk};
ghost use Rattle.crowd_data.specs.Run.{snapshot_of};

use crate::frame::{Body, Frame};
use crate::post::Post;
use fixed_vec::{List, NoMemory};
use std::alloc::Global;

/// The same posts in a list of their own. `NoMemory` is answered where memory runs out (documented, not
/// proved).
pub fn copy_posts(alloc: Global, posts: &[Post]) -> Result<List<Post>, NoMemory>
    ensures { IfOk result (λ copy. copy.items ≡ posts.now) }
{
    let mut copy = List::with_room(alloc, posts.len())?;
    for post in posts {
        copy.push(*post);
    }
    Ok(copy)
}

fn copy_bodies(alloc: Global, bodies: &[Body]) -> Result<List<Body>, NoMemory>
    ensures { IfOk result (λ copy. copy.items ≡ bodies.now) }
{
    let mut copy = List::with_room(alloc, bodies.len())?;
    for body in bodies {
        copy.push(*body);
    }
    Ok(copy)
}

/// The same frame in memory of its own. `NoMemory` is answered where memory runs out (documented, not
/// proved).
pub fn copy_frame(alloc: Global, frame: &Frame) -> Result<Frame, NoMemory>
    ensures { IfOk result (λ copy. snapshot_of copy ≡ snapshot_of frame.now) }
{
    let bodies = copy_bodies(alloc, frame.bodies.items())?;
    Ok(Frame {
        number: frame.number,
        bodies,
    })
}
