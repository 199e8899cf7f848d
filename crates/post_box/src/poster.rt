// Posters.
ghost use Rattle.std.specs.Prelude.{◌≡◌, ◌+◌, ◌<◌, ◌≤◌, ◌↔◌, IsTrue, IfOk, OnOk, OnErr, length};
ghost use Rattle.crossbeam_queue.specs.SegTies.{IsSegPassOf};
ghost use Rattle.crowd_data.specs.Limits.{IsPost, IsVelocity};
ghost use Rattle.post_box.specs.Views.{taker_view};
ghost use Rattle.post_box.specs.Ends.{IsPosterOf, after_posting, first_poster, next_post};

use crate::limits::GREATEST_COORDINATE;
use crate::post_box::PostBox;
use crate::queue::{Pass, PosterMaking, Push, Queue};
use crowd_data::Post;
use fixed_vec::V2;
use std::marker::Model;
use std::sync::Wait;

/// That a post is in the queue: whose it is, and its place among the posts of that controller, from 0.
#[derive(Clone, Copy, Debug, PartialEq, Eq)]
pub struct Receipt {
    pub controller: u32,
    pub seq: u32,
}

/// Why a post is refused. Where several hold, the first one is answered.
#[derive(Clone, Copy, Debug, PartialEq, Eq)]
pub enum PostFault {
    /// There is no agent of this number.
    BadAgent,
    /// A coordinate of the velocity is above 16,384 units per step in size.
    BadVelocity,
    /// The poster has as many receipts as it may have.
    TooManyPosts,
    /// There is no memory for the post.
    NoMemory,
}

/// Posts the preferred velocities that one controller wants its agents to have. A clause sees what it
/// posted, by the view of its pass on the queue, which a push alone makes longer.
#[derive(Drop)]
pub struct Poster {
    pub(crate) pass: Pass,
    controller: u32,
    agents: u32,
    most: u32,
    sent: u32,
}

impl Model for Poster {
    ghost use Rattle.post_box.specs.Ends.{PosterState};
    ghost use Rattle.post_box.specs.Passes.{IsPosterPass, queue_of};

    ghost Value = { PosterState };

    ghost view = { λ p. record {
      queue = queue_of p.pass;
      controller = p.controller;
      agents = p.agents;
      most = p.most;
      posts = p.pass.me.view.client.posts;
    } };

    ghost invariant = { λ p. IsPosterPass p.pass p.controller p.agents p.most p.sent };
}

// Whether both coordinates are within the limit.
fn is_velocity(vel: V2) -> bool
    ensures { IsTrue result ↔ IsVelocity vel }
{
    vel.x.unsigned_abs() <= GREATEST_COORDINATE && vel.y.unsigned_abs() <= GREATEST_COORDINATE
}

impl Poster {
    // The poster of the next controller, made by the taker's pass.
    pub(crate) fn first_of(
        queue: &Queue,
        taker: &mut Pass,
        agents: u32,
        most: u32,
        controller: u32,
    ) -> Poster
        requires queue { IsSegPassOf queue.now taker.old }
        requires taker { taker.old.me.view.client ≡ taker_view controller agents }
        ensures queue { IsSegPassOf queue.now taker.new }
        ensures taker { taker.new.me.view.client ≡ taker_view (controller + 1) agents }
        ensures poster { result ≡ first_poster queue.now agents most controller }
    {
        let pass = queue.another::<PosterMaking>(taker);
        Poster {
            pass,
            controller,
            agents,
            most,
            sent: 0,
        }
    }

    /// Posts a preferred velocity, in units per step, for an agent. With the receipt the post is in the
    /// queue; a refusal changes nothing. The box must be the poster's own. `NoMemory` is answered where
    /// memory runs out (documented, not proved).
    pub fn post<R: Wait>(
        &mut self,
        rt: &R,
        posts: &PostBox,
        agent: u32,
        vel: V2,
    ) -> Result<Receipt, PostFault>
        requires { IsPosterOf posts.now self.old }
        ensures receipt { IfOk result (λ receipt. receipt ≡ record { controller = self.old.controller; seq = length self.old.posts }) }
        ensures posted { OnOk result (self.new ≡ after_posting self.old (next_post self.old agent vel)) }
        ensures valid { OnOk result (IsPost self.old.agents (next_post self.old agent vel) × (length self.old.posts < self.old.most)) }

        // The first that holds is answered.
        ensures bad_agent { (result ≡ Err PostFault.BadAgent) ↔ (self.old.agents ≤ agent) }
        ensures bad_velocity { (result ≡ Err PostFault.BadVelocity) ↔ ((agent < self.old.agents) × (¬ IsVelocity vel)) }
        ensures too_many { (result ≡ Err PostFault.TooManyPosts) ↔ (IsPost self.old.agents (next_post self.old agent vel) × (length self.old.posts ≡ self.old.most)) }
        ensures refused { OnErr result (self.new ≡ self.old) }
    {
        if agent >= self.agents {
            return Err(PostFault::BadAgent);
        }
        if !is_velocity(vel) {
            return Err(PostFault::BadVelocity);
        }
        if self.sent >= self.most {
            return Err(PostFault::TooManyPosts);
        }
        let post = Post {
            controller: self.controller,
            seq: self.sent,
            agent,
            vel,
        };
        match posts.queue.push_as::<Push, R>(rt, &mut self.pass, post) {
            Ok(()) => {
                self.sent += 1;
                Ok(Receipt {
                    controller: post.controller,
                    seq: post.seq,
                })
            }
            Err(_) => Err(PostFault::NoMemory),
        }
    }
}
