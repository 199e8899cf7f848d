// How bodies move in a step.
ghost use Rattle.std.specs.Prelude.{◌≡◌, ◌<◌, ◌≤◌, ◌+◌, ◌*◌, length};
ghost use Rattle.crowd_data.specs.Limits.{IsVelocity};
ghost use Rattle.crowd_data.specs.Present.{IsBody};
ghost use Rattle.agent_step.specs.Frozen.{most_planes};
ghost use Rattle.crowd_data.specs.Run.{moved_body, snapshot_of};
ghost use Rattle.frame_step.specs.Moved.{AreAllMoved, IsPieceMoved, KeepsMoved, MayStep, agents_per_piece};

use crate::limits::{AGENTS_PER_PIECE, FIRST_WORKER};
use agent_step::{Advice, FrozenCrowd, Scratch, advise};
use crowd_data::{Body, Frame, MOST_AGENTS, MOST_STEPS};
use fixed_vec::{List, plus};
use outside_io::Gate;

// The body after a step.
fn moved(body: &Body, advice: Advice, number: u32) -> Body
    requires few { number < MOST_STEPS }
    requires slow { IsVelocity advice.vel }
    requires limits { IsBody number body.now }
    ensures { result ≡ moved_body advice.vel advice.mark advice.relief body.now }
{
    Body {
        pos: plus(body.pos, advice.vel),
        vel: advice.vel,
        mark: advice.mark,
        relief: advice.relief,
        ..*body
    }
}

/// Puts the bodies of a piece's agents as they are after the step from a frame whose posts are taken in, and of
/// which the crowd is the frozen state.
pub(crate) fn move_piece(
    bodies: &mut List<Body>,
    crowd: &FrozenCrowd,
    frame: &Frame,
    piece: u32,
    scratch: &mut Scratch,
)
    requires step { MayStep crowd.now (snapshot_of frame.now) }
    requires bodies { length bodies.old.items ≡ length crowd.now.scenario.agents }
    requires planes { most_planes (length crowd.now.scenario.segments) ≤ scratch.old }
    ensures moved { IsPieceMoved crowd.now bodies.new.items piece }
    ensures others { KeepsMoved crowd.now bodies.old.items bodies.new.items }
    ensures count { length bodies.new.items ≡ length bodies.old.items }
    ensures planes { scratch.new ≡ scratch.old }
{
    let old = frame.bodies.items();
    let from = piece as usize * AGENTS_PER_PIECE;
    let end = old.len().min(from + AGENTS_PER_PIECE);
    for who in from..end {
        let advice = advise(crowd, who, scratch);
        bodies.set(who, moved(&old[who], advice, frame.number));
    }
}

/// How many pieces so many agents make.
pub(crate) fn piece_count(agents: usize) -> u32
    requires { agents ≤ MOST_AGENTS }
    ensures covers { agents ≤ result * agents_per_piece }
    ensures none_empty { result * agents_per_piece < agents + agents_per_piece }
{
    agents.div_ceil(AGENTS_PER_PIECE) as u32
}

/// Puts the bodies of all agents, one piece after another, as worker 0 passes the gate.
pub(crate) fn move_alone<G: Gate>(
    bodies: &mut List<Body>,
    gate: &G,
    crowd: &FrozenCrowd,
    frame: &Frame,
    scratch: &mut Scratch,
)
    requires step { MayStep crowd.now (snapshot_of frame.now) }
    requires bodies { length bodies.old.items ≡ length crowd.now.scenario.agents }
    requires few { length bodies.old.items ≤ MOST_AGENTS }
    requires planes { most_planes (length crowd.now.scenario.segments) ≤ scratch.old }
    ensures moved { AreAllMoved crowd.now bodies.new.items }
    ensures planes { scratch.new ≡ scratch.old }
{
    let pieces = piece_count(bodies.items().len());
    for piece in 0..pieces {
        gate.pass(FIRST_WORKER, u64::from(piece));
        move_piece(bodies, crowd, frame, piece, scratch);
    }
}
