// Controllers.
ghost use Rattle.std.specs.Prelude.{◌≡◌, ◌+◌, ◌≤◌, [], ◌∷◌, OnOk, OnErr, length};
ghost use Rattle.crowd_data.specs.Run.{snapshot_of};
ghost use Rattle.post_box.specs.Ends.{IsPosterOf};
ghost use Rattle.controller_turns.specs.Turns.{preference_for, turn};
ghost use Rattle.controller_turns.specs.Controllers.{CanTurn, HasPostedSome, IsSamePoster, after_preferences};

use crate::headings::heading;
use crowd_data::{Frame, Goal};
use fixed_vec::{List, NoMemory};
use outside_io::Gate;
use post_box::{PostBox, PostFault, Poster};
use std::marker::Model;
use std::sync::Wait;

/// A controller: it steers agents to their goals. A clause sees its number and its goals, and not how many turns it
/// has had.
#[derive(Drop)]
pub struct Controller {
    number: u32,
    goals: List<Goal>,
    turns: u64,
}

impl Model for Controller {
    ghost use Rattle.controller_turns.specs.Controllers.{ControllerState};

    ghost Value = { ControllerState };

    ghost view = { λ c. record { number = c.number; goals = c.goals.items } };
}

impl Controller {
    /// The controller of this number, 0 to 15, with these goals, before its first turn.
    pub fn of(number: u32, goals: List<Goal>) -> Controller
        ensures { result ≡ record { number = number; goals = goals.items } }
    {
        Controller {
            number,
            goals,
            turns: 0,
        }
    }

    /// Its number.
    pub fn number(&self) -> u32
        ensures { result ≡ self.now.number }
    {
        self.number
    }

    /// Waits until the gate lets its next turn begin.
    pub fn pass<G: Gate>(&self, gate: &G) {
        gate.pass(self.number, self.turns);
    }

    /// Takes a turn on a frame: posts, for each of its goals in order, the heading from where that agent is. The poster is
    /// the box's own one of this controller, and has room for as many posts. `NoMemory` is answered where memory runs out
    /// (documented, not proved); the posts before the refusal stand.
    pub fn turn<R: Wait>(
        &mut self,
        rt: &R,
        frame: &Frame,
        poster: &mut Poster,
        posts: &PostBox,
    ) -> Result<(), NoMemory>
        requires frame { CanTurn self.old.goals (snapshot_of frame.now) }
        requires poster { IsPosterOf posts.now poster.old }
        requires number { poster.old.controller ≡ self.old.number }
        requires agents { length frame.now.bodies.items ≤ poster.old.agents }
        requires room { length poster.old.posts + length self.old.goals ≤ poster.old.most }
        ensures same { self.new ≡ self.old }
        ensures same_poster { IsSamePoster poster.old poster.new }
        ensures posted { OnOk result (poster.new ≡ after_preferences poster.old (turn self.old.goals (snapshot_of frame.now))) }
        ensures cut_short { OnErr result (HasPostedSome poster.old (turn self.old.goals (snapshot_of frame.now)) poster.new) }
    {
        self.turns = self.turns.saturating_add(1);
        for goal in self.goals.items() {
            pursue(rt, goal, frame, poster, posts)?;
        }
        Ok(())
    }
}

// Posts the heading to a goal.
fn pursue<R: Wait>(
    rt: &R,
    goal: &Goal,
    frame: &Frame,
    poster: &mut Poster,
    posts: &PostBox,
) -> Result<(), NoMemory>
    requires frame { CanTurn (goal.now ∷ []) (snapshot_of frame.now) }
    requires poster { IsPosterOf posts.now poster.old }
    requires agents { length frame.now.bodies.items ≤ poster.old.agents }
    requires room { length poster.old.posts + 1 ≤ poster.old.most }
    ensures posted { OnOk result (poster.new ≡ after_preferences poster.old (preference_for (snapshot_of frame.now) goal.now ∷ [])) }
    ensures refused { OnErr result (poster.new ≡ poster.old) }
{
    let body = frame.bodies.items()[goal.agent as usize];
    match poster.post(rt, posts, goal.agent, heading(body.pos, goal)) {
        Ok(_) => Ok(()),
        Err(PostFault::NoMemory) => Err(NoMemory),
        Err(_) => unreachable!(),
    }
}
