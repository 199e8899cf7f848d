// What one worker does in a step.
ghost use Rattle.std.specs.Prelude.{◌≡◌, ◌<◌, ◌+◌, [], All, IfOk};
ghost use Rattle.crowd_data.specs.Run.{snapshot_of};
ghost use Rattle.work_claim.specs.Names.{claimer_id, claimer_view, claims_id};
ghost use Rattle.work_claim.specs.declared.view.RoundView.{RoundView};
ghost use Rattle.frame_step.specs.Moved.{IsPieceMoved, MayStep};
ghost use Rattle.frame_step.specs.Workers.{IsDeskFor, IsWorkerFor, HasWorked, IsEquipped, after_drawing};

use crate::limits::FIRST_WORKER;
use crate::moves::move_piece;
use agent_step::{FrozenCrowd, Scratch};
use crossbeam_utils::CachePadded;
use crowd_data::{Body, Frame, Scenario, first_frame};
use fixed_vec::{List, NoMemory};
use outside_io::Gate;
use std::alloc::Global;
use work_claim::{Claimer, Claims, MOST_CLAIMERS};

/// What a worker works with: the numbers of the pieces that it drew in a step, bodies of all agents, of which it
/// puts those of its pieces, and room for half-planes.
#[derive(Drop)]
pub(crate) struct Desk {
    pub drawn: List<u32>,
    pub bodies: List<Body>,
    pub scratch: Scratch,
}

/// A worker. It has a claimer in a step alone. Its desk has cache lines of its own, so that what one worker writes
/// in a step takes no line from another one.
#[derive(Drop)]
pub(crate) struct Worker {
    pub claimer: Option<Claimer>,
    pub desk: CachePadded<Desk>,
}

impl Worker {
    /// A worker for the steps of a scenario, whose agents make so many pieces.
    pub fn open(alloc: Global, scenario: &Scenario, pieces: u32) -> Result<Worker, NoMemory>
        ensures { IfOk result (λ worker. IsWorkerFor scenario.now pieces worker) }
    {
        let desk = Desk {
            drawn: List::with_room(alloc, pieces as usize)?,
            bodies: first_frame(alloc, scenario)?.bodies,
            scratch: Scratch::open(alloc, scenario.segments().len())?,
        };
        Ok(Worker {
            claimer: None,
            desk: CachePadded::new(desk),
        })
    }
}

// Draws pieces until there are no more. It passes the gate before each, and puts its bodies.
fn draw_all<G: Gate>(
    gate: &G,
    who: u32,
    claims: &Claims,
    claimer: &mut Claimer,
    desk: &mut Desk,
    crowd: &FrozenCrowd,
    frame: &Frame,
)
    requires claims { claimer_id claimer.old ≡ claims_id claims.now }
    requires fresh { ((claimer_view claimer.old).own_ends ≡ 0) × ((claimer_view claimer.old).drawn ≡ []) }
    requires none { desk.old.drawn.items ≡ [] }
    requires room { IsDeskFor crowd.now.scenario (claimer_view claimer.old).pieces desk.old }
    requires step { MayStep crowd.now (snapshot_of frame.now) }
    ensures claims { claimer_id claimer.new ≡ claimer_id claimer.old }
    ensures view { claimer_view claimer.new ≡ after_drawing (claimer_view claimer.old) desk.new.drawn.items }
    ensures moved { All (IsPieceMoved crowd.now desk.new.bodies.items) desk.new.drawn.items }
    ensures room { IsDeskFor crowd.now.scenario (claimer_view claimer.old).pieces desk.new }
{
    while let Some(piece) = claimer.next(claims) {
        gate.pass(who, u64::from(piece));
        desk.drawn.push(piece);
        move_piece(&mut desk.bodies, crowd, frame, piece, &mut desk.scratch);
    }
}

/// The part of the worker of this number in a step.
pub(crate) fn work<G: Gate>(
    gate: &G,
    number: usize,
    claims: &Claims,
    worker: &mut Worker,
    crowd: &FrozenCrowd,
    frame: &Frame,
)
    requires number { number < MOST_CLAIMERS }
    requires step { MayStep crowd.now (snapshot_of frame.now) }
    requires equipped { (round : RoundView) × IsEquipped (claims_id claims.now) round crowd.now.scenario worker.old }
    ensures { (round : RoundView) → IsEquipped (claims_id claims.now) round crowd.now.scenario worker.old → HasWorked (claims_id claims.now) round crowd.now worker.new }
{
    let Worker { claimer, desk } = worker;
    let Some(claimer) = claimer else {
        unreachable!()
    };
    draw_all(
        gate,
        FIRST_WORKER + number as u32,
        claims,
        claimer,
        desk,
        crowd,
        frame,
    );
}
