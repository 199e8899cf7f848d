// How what the workers put is put together.
ghost use Rattle.std.specs.Prelude.{◌≡◌, ◌<◌, ◌≤◌, ◌+◌, All, length};
ghost use Rattle.agent_step.specs.Frozen.{FrozenState};
ghost use Rattle.work_claim.specs.Names.{claims_id, root_id, root_view};
ghost use Rattle.work_claim.specs.Views.{IsWholeRound};
ghost use Rattle.work_claim.specs.declared.view.RoundView.{RoundView};
ghost use Rattle.frame_step.specs.Moved.{CoversMoved, IsPieceMoved, KeepsMoved};
ghost use Rattle.frame_step.specs.Workers.{HasWorked, desk_of, with_worker};

use crate::limits::AGENTS_PER_PIECE;
use crate::worker::{Desk, Worker};
use crowd_data::{Body, MOST_AGENTS};
use fixed_vec::List;
use work_claim::{Claims, Root};

// Puts the bodies of a piece's agents from one list into another.
fn put_piece(into: &mut List<Body>, bodies: &[Body], piece: u32)
    requires count { length into.old.items ≡ length bodies.now }
    requires few { length bodies.now ≤ MOST_AGENTS }
    ensures moved { (state : FrozenState) → IsPieceMoved state bodies.now piece → IsPieceMoved state into.new.items piece }
    ensures others { (state : FrozenState) → IsPieceMoved state bodies.now piece → KeepsMoved state into.old.items into.new.items }
    ensures count { length into.new.items ≡ length into.old.items }
{
    let from = piece as usize * AGENTS_PER_PIECE;
    let end = bodies.len().min(from + AGENTS_PER_PIECE);
    for who in from..end {
        into.set(who, bodies[who]);
    }
}

// The same of several pieces.
fn put_pieces(into: &mut List<Body>, bodies: &[Body], pieces: &[u32])
    requires count { length into.old.items ≡ length bodies.now }
    requires few { length bodies.now ≤ MOST_AGENTS }
    ensures moved { (state : FrozenState) → All (IsPieceMoved state bodies.now) pieces.now → All (IsPieceMoved state into.new.items) pieces.now }
    ensures others { (state : FrozenState) → All (IsPieceMoved state bodies.now) pieces.now → KeepsMoved state into.old.items into.new.items }
    ensures count { length into.new.items ≡ length into.old.items }
{
    for piece in pieces {
        put_piece(into, bodies, *piece);
    }
}

/// Puts the bodies of a worker's pieces into the list of all, and takes its claimer back.
pub(crate) fn take_in(into: &mut List<Body>, root: &mut Root, claims: &Claims, worker: &mut Worker)
    requires claims { root_id root.old ≡ claims_id claims.now }
    requires count { length into.old.items ≡ length (desk_of worker.old).bodies.items }
    requires few { length into.old.items ≤ MOST_AGENTS }
    requires worked { (round : RoundView) × (state : FrozenState) × HasWorked (claims_id claims.now) round state worker.old }
    ensures claims { root_id root.new ≡ root_id root.old }
    ensures view { root_view root.new ≡ with_worker (root_view root.old) (desk_of worker.old).drawn.items }
    ensures whole { IsWholeRound (root_view root.new) }
    ensures moved { (state : FrozenState) → All (IsPieceMoved state (desk_of worker.old).bodies.items) (desk_of worker.old).drawn.items → CoversMoved state (desk_of worker.old).drawn.items into.new.items }
    ensures others { (state : FrozenState) → All (IsPieceMoved state (desk_of worker.old).bodies.items) (desk_of worker.old).drawn.items → KeepsMoved state into.old.items into.new.items }
    ensures count { length into.new.items ≡ length into.old.items }
    ensures desk { worker.new.desk ≡ worker.old.desk }
{
    let desk: &Desk = &worker.desk;
    put_pieces(into, desk.bodies.items(), desk.drawn.items());
    let Some(claimer) = worker.claimer.take() else {
        unreachable!()
    };
    root.take_back(claims, claimer);
}
