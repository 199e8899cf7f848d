// The taker.
ghost use Rattle.std.specs.Prelude.{◌≡◌, ◌+◌, ◌≤◌, ◌↔◌, [], ◌∷◌, ◌++◌, IfSome, IfNone, IfOk, length};
ghost use Rattle.post_box.specs.History.{IsBoxPost};
ghost use Rattle.post_box.specs.Passes.{IsTakerPass, taker_of};
ghost use Rattle.post_box.specs.Ends.{IsBehind, IsPosterOf, IsTakerOf, Transfers, WasEmpty, after_taking, after_taking_back};

use crate::limits::MOST_TAKEN;
use crate::post_box::PostBox;
use crate::poster::Poster;
use crate::queue::{Pass, Pop, PosterMaking};
use crowd_data::Post;
use fixed_vec::{List, NoMemory};
use std::alloc::Global;
use std::marker::Model;
use std::sync::Wait;

/// Why a call of `Taker::take` ended.
#[derive(Clone, Copy, Debug, PartialEq, Eq)]
pub enum Taken {
    /// The queue was empty.
    Emptied,
    /// As many posts were taken as one call takes; others may be waiting.
    Enough,
}

/// Takes posts out of the queue. A clause sees what it took so far, by the view of its pass on the queue,
/// which a pop alone makes longer.
#[derive(Drop)]
pub struct Taker {
    pass: Pass,
}

impl Model for Taker {
    ghost use Rattle.post_box.specs.Ends.{TakerState};
    ghost use Rattle.post_box.specs.Passes.{IsTakerPass, taker_of};

    ghost Value = { TakerState };

    ghost view = { λ t. taker_of t.pass };

    ghost invariant = { λ t. IsTakerPass t.pass };
}

impl Taker {
    // The taker, once all posters are made.
    pub(crate) fn with_pass(pass: Pass) -> Taker
        requires { IsTakerPass pass }
        ensures { result ≡ taker_of pass }
    {
        Taker { pass }
    }

    // The oldest post, if one waits.
    fn pop<R: Wait>(&mut self, rt: &R, posts: &PostBox) -> Option<Post>
        requires { IsTakerOf posts.now self.old }
        ensures post { IfSome result (λ post. IsBoxPost self.old.controllers self.old.agents post × (self.new ≡ after_taking self.old (post ∷ []))) }
        ensures emptied { IfNone result ((self.new ≡ self.old) × WasEmpty self.old) }
    {
        posts.queue.pop_as::<Pop, R>(rt, &mut self.pass)
    }

    /// Appends the posts that wait, oldest first, and at most `MOST_TAKEN` of them; the list must have room
    /// for so many, and the box must be the taker's own. It takes no memory.
    pub fn take<R: Wait>(&mut self, rt: &R, posts: &PostBox, into: &mut List<Post>) -> Taken
        requires taker { IsTakerOf posts.now self.old }
        requires room { MOST_TAKEN ≤ into.old.spare }
        ensures moved { Transfers self.old self.new into.old.items into.new.items }
        ensures spare { into.new.spare + length into.new.items ≡ into.old.spare + length into.old.items }
        ensures enough { (result ≡ Taken.Enough) ↔ (length into.new.items ≡ length into.old.items + MOST_TAKEN) }
        ensures at_most { length into.new.items ≤ length into.old.items + MOST_TAKEN }

        // At one moment of the call no post waited behind those that the taker has taken.
        ensures emptied { result ≡ Taken.Emptied → WasEmpty self.new }
    {
        for _ in 0..MOST_TAKEN {
            match self.pop(rt, posts) {
                Some(post) => into.push(post),
                None => return Taken::Emptied,
            }
        }
        Taken::Enough
    }

    // Takes a poster back, and keeps what it posted.
    pub(crate) fn take_back(&mut self, posts: &PostBox, poster: Poster)
        requires taker { IsTakerOf posts.now self.old }
        requires poster { IsPosterOf posts.now poster }
        ensures { self.new ≡ after_taking_back self.old poster }
    {
        posts
            .queue
            .absorb::<PosterMaking>(&mut self.pass, poster.pass);
    }

    // What is left in the queue, oldest first.
    pub(crate) fn take_rest<R: Wait>(
        &mut self,
        rt: &R,
        alloc: Global,
        posts: &PostBox,
    ) -> Result<List<Post>, NoMemory>
        requires { IsTakerOf posts.now self.old }
        ensures { IfOk result (λ rest. IsBehind self.old rest.items) }
    {
        let mut rest = List::with_room(alloc, 0)?;
        for _ in rt.forever() {
            rest.reserve(1)?;
            match self.pop(rt, posts) {
                Some(post) => rest.push(post),
                None => return Ok(rest),
            }
        }
        unreachable!()
    }
}
