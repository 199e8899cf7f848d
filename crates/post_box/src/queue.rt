// The queue of posts: its rule, and the steps that a pass makes under it.
ghost use Rattle.std.specs.Prelude.{◌≡◌, ◌+◌, ◌*◌, [], ◌∷◌, ◌++◌, IfOk};
ghost use Rattle.crossbeam_queue.specs.SegTies.{IsSegPassOf};
ghost use Rattle.post_box.specs.History.{IsBoxPost, IsWaiting};
ghost use Rattle.post_box.specs.Views.{poster_view, spent_view, taker_view, with_final};
ghost use Rattle.post_box.specs.Rule.{IsKept};

use crate::view::Known;
use crossbeam_queue::protocol::{Join, Lesson, Outcome, Protocol, Split};
use crossbeam_queue::{RuledSegQueue, SegPass};
use crowd_data::Post;
use fixed_vec::NoMemory;
use std::alloc::Global;

/// The rule of the queue. The first pass is the taker's, and knows of no controller and no agent.
pub struct PostRule;

impl Protocol<Post, Known> for PostRule {
    ghost holds = { IsKept };

    ghost first = { taker_view 0 0 };
}

/// The queue of posts.
pub type Queue = RuledSegQueue<Post, Known, PostRule>;

/// What a poster or the taker knows of the queue. It takes no memory.
pub type Pass = SegPass<Post, Known>;

/// A poster's push: its view is longer by the post.
pub struct Push;

impl Outcome<Post, Known> for Push {
    ghost then = { λ v post w. w ≡ record v { posts = v.posts ++ post ∷ [] } };
}

/// The taker's pop: its view is longer by the post, which is one of the box's. Of an empty queue it
/// learns that all was taken.
pub struct Pop;

impl Outcome<Post, Known> for Pop {
    ghost then = { λ v post w. (w ≡ record v { posts = v.posts ++ post ∷ [] }) × IsBoxPost v.controllers v.agents post };
}

impl Lesson<Post, Known> for Pop {
    ghost fact = { λ v items. IsWaiting v.controllers v.agents v.posts v.final_posts items };
}

/// The taker's pass makes the next controller's poster, and counts it; and it takes a poster back, whose
/// posts it keeps.
pub struct PosterMaking;

impl Split<Known> for PosterMaking {
    ghost left = { λ v. record v { controllers = v.controllers + 1 } };

    ghost right = { λ v. poster_view v.controllers v.agents };
}

impl Join<Known> for PosterMaking {
    ghost both = { λ v w. with_final v w };

    ghost spent = { spent_view };
}

// The taker's pass learns of twice as many agents.
struct AgentsDoubling;

impl Split<Known> for AgentsDoubling {
    ghost left = { λ v. record v { agents = 2 * v.agents } };

    ghost right = { λ _. spent_view };
}

// The taker's pass learns of one more agent.
struct AgentAdding;

impl Split<Known> for AgentAdding {
    ghost left = { λ v. record v { agents = v.agents + 1 } };

    ghost right = { λ _. spent_view };
}

// Lets the taker's pass know how many agents there are. The rule is a type's, and so can't name a number
// that is known at run time alone. The first pass begins with 0, and the number is built up by steps of
// the rule while there is no poster: half of it, twice, and one more where it is odd.
fn learn_agents(queue: &Queue, pass: &mut Pass, agents: u32)
    requires queue { IsSegPassOf queue.now pass.old }
    requires none { pass.old.me.view.client ≡ taker_view 0 0 }
    ensures queue { IsSegPassOf queue.now pass.new }
    ensures agents { pass.new.me.view.client ≡ taker_view 0 agents }
{
    if agents == 0 {
        return;
    }
    learn_agents(queue, pass, agents / 2);
    queue.another::<AgentsDoubling>(pass);
    if agents % 2 == 1 {
        queue.another::<AgentAdding>(pass);
    }
}

/// An empty queue, and the taker's pass, which knows how many agents there are and has made no poster.
/// `NoMemory` is answered where memory runs out (documented, not proved).
pub fn queue_for(alloc: Global, agents: u32) -> Result<(Queue, Pass), NoMemory>
    ensures queue { IfOk result (λ made. IsSegPassOf made.0 made.1) }
    ensures agents { IfOk result (λ made. made.1.me.view.client ≡ taker_view 0 agents) }
{
    let Ok((queue, mut pass)) = Queue::with_rule(alloc) else {
        return Err(NoMemory);
    };
    learn_agents(&queue, &mut pass, agents);
    Ok((queue, pass))
}
