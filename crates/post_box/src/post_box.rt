// The box: how it is opened, and how it ends.
ghost use Rattle.std.specs.Prelude.{◌≡◌, ◌≤◌, ◌++◌, map, All, IfOk};
ghost use Rattle.std.specs.List.{range_with_len};
ghost use Rattle.post_box.specs.declared.limits.TheConstants.{MOST_CONTROLLERS};
ghost use Rattle.post_box.specs.History.{IsHistory};
ghost use Rattle.post_box.specs.Ends.{AreOnceInOrder, IsPosterOf, IsTakerOf, first_poster, first_taker};

use crate::poster::Poster;
use crate::queue::{Queue, queue_for};
use crate::taker::Taker;
use crowd_data::Post;
use fixed_vec::{List, NoMemory};
use std::alloc::Global;
use std::marker::Model;
use std::sync::Wait;

/// A box of posts. It is lent to the threads that post and take, and ended by `finish`.
pub struct PostBox {
    pub(crate) queue: Queue,
}

impl Model for PostBox {
    ghost use Rattle.post_box.specs.Ends.{BoxState};

    ghost Value = { BoxState };

    ghost view = { λ b. record { queue = b.queue } };
}

/// An empty box for so many controllers and agents, both numbered from 0, with a poster for each
/// controller in order, which may post `most` times, and with its taker. There are at most
/// `MOST_CONTROLLERS` controllers. `NoMemory` is answered where memory runs out (documented, not proved).
pub fn open(
    alloc: Global,
    controllers: u32,
    agents: u32,
    most: u32,
) -> Result<(PostBox, Vec<Poster>, Taker), NoMemory>
    requires { controllers ≤ MOST_CONTROLLERS }
    ensures posters { IfOk result (λ made. made.1.items ≡ map (first_poster made.0.queue agents most) (range_with_len 0 controllers)) }
    ensures taker { IfOk result (λ made. made.2 ≡ first_taker made.0.queue controllers agents) }
{
    let Ok(mut posters) = Vec::with_capacity(alloc, controllers as usize) else {
        return Err(NoMemory);
    };
    let (queue, mut pass) = queue_for(alloc, agents)?;
    for controller in 0..controllers {
        posters.push_reserved(Poster::first_of(&queue, &mut pass, agents, most, controller));
    }
    Ok((PostBox { queue }, posters, Taker::with_pass(pass)))
}

/// Ends a box, and hands out the posts that were not taken, oldest first. The posters and the taker must
/// be the box's own. Of each poster that is handed in, the posts that the taker took and those that are
/// left are, joined, what it posted. `NoMemory` is answered where memory runs out (documented, not
/// proved); the box is gone then too, and with it what was left.
pub fn finish<R: Wait>(
    rt: &R,
    alloc: Global,
    posts: PostBox,
    posters: Vec<Poster>,
    mut taker: Taker,
) -> Result<List<Post>, NoMemory>
    requires taker { IsTakerOf posts taker }
    requires posters { All (IsPosterOf posts) posters.items }
    ensures once_in_order { IfOk result (λ left. AreOnceInOrder posters.items (taker.posts ++ left.items)) }
    ensures history { IfOk result (λ left. IsHistory taker.controllers taker.agents (taker.posts ++ left.items)) }
{
    for poster in posters {
        taker.take_back(&posts, poster);
    }
    let left = taker.take_rest(rt, alloc, &posts);
    let PostBox { queue } = posts;
    queue.destroy();
    left
}
