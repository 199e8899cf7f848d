// All workers of a step.
ghost use Rattle.std.specs.Prelude.{◌≡◌, ◌<◌, ℕ, ◌+◌, ◌*◌, ◌≤◌, [], All, IfOk, length};
ghost use Rattle.std.specs.Thread.{IsSync};
ghost use Rattle.agent_step.specs.Frozen.{FrozenState};
ghost use Rattle.crowd_data.specs.Run.{snapshot_of};
ghost use Rattle.crowd_data.specs.Scenario.{Parts};
ghost use Rattle.work_claim.specs.Names.{claims_id, root_id, root_view};
ghost use Rattle.work_claim.specs.Views.{IsAllBack, all_parts, lending};
ghost use Rattle.work_claim.specs.declared.view.RoundView.{RoundView};
ghost use Rattle.frame_step.specs.Moved.{AreAllMoved, MayStep, agents_per_piece};
ghost use Rattle.frame_step.specs.Workers.{IsWorkerFor, HasWorked, IsEquipped, IsTeam, lending_to};

use crate::limits::AGENTS_PER_WORKER;
use crate::moves::{move_alone, piece_count};
use crate::putting::take_in;
use crate::worker::{Worker, work};
use agent_step::{FrozenCrowd, Scratch};
use crowd_data::{Body, Frame, MOST_AGENTS, Scenario};
use fixed_vec::{List, NoMemory};
use outside_io::Gate;
use std::alloc::Global;
use std::thread::{Threads, join_mut};
use work_claim::{Claims, MOST_CLAIMERS, MOST_ROUNDS, Root};

/// The workers of a run, with the counter that they draw pieces from, and room for half-planes where the calling
/// thread works alone. There is no worker where a step isn't worth sharing.
#[derive(Drop)]
pub(crate) struct Team {
    pub claims: Claims,
    pub root: Root,
    pub workers: Vec<Worker>,
    pub scratch: Scratch,
}

// Lends a worker a claimer.
fn equip(root: &mut Root, claims: &Claims, worker: &mut Worker)
    requires claims { root_id root.old ≡ claims_id claims.now }
    requires few { (root_view root.old).lent < MOST_CLAIMERS }
    ensures claims { root_id root.new ≡ root_id root.old }
    ensures view { root_view root.new ≡ lending (root_view root.old) }
    ensures equipped { (scenario : Parts) → IsWorkerFor scenario (root_view root.old).pieces worker.old → IsEquipped (claims_id claims.now) (root_view root.old) scenario worker.new }
{
    worker.desk.drawn.clear();
    worker.claimer = Some(root.lend(claims));
}

// Lends each worker a claimer.
fn equip_all(root: &mut Root, claims: &Claims, workers: &mut [Worker])
    requires claims { root_id root.old ≡ claims_id claims.now }
    requires none { (root_view root.old).lent ≡ 0 }
    requires few { length workers.old ≤ MOST_CLAIMERS }
    ensures claims { root_id root.new ≡ root_id root.old }
    ensures view { root_view root.new ≡ lending_to (root_view root.old) (length workers.old) }
    ensures count { length workers.new ≡ length workers.old }
    ensures equipped { (scenario : Parts) → All (IsWorkerFor scenario (root_view root.old).pieces) workers.old → All (IsEquipped (claims_id claims.now) (root_view root.old) scenario) workers.new }
{
    for i in 0..workers.len() {
        equip(root, claims, &mut workers[i]);
    }
}

// Lets each of these workers do its part, the first of which has this number: each in a thread of its own where one
// can be made, but for the last one. The calling thread starts all the others, one after another, so that the system
// finds an idle processor for each.
#[cycle(one_by_one)]
fn work_all<R: Threads + Sync, G: Gate + Sync>(
    rt: &R,
    gate: &G,
    number: usize,
    claims: &Claims,
    crowd: &FrozenCrowd,
    frame: &Frame,
    workers: &mut [Worker],
)
    requires some { 0 < length workers.old }
    requires few { number + length workers.old ≤ MOST_CLAIMERS }
    requires step { MayStep crowd.now (snapshot_of frame.now) }
    requires equipped { (round : RoundView) × All (IsEquipped (claims_id claims.now) round crowd.now.scenario) workers.old }
    ensures count { length workers.new ≡ length workers.old }
    ensures worked { (round : RoundView) → All (IsEquipped (claims_id claims.now) round crowd.now.scenario) workers.old → All (HasWorked (claims_id claims.now) round crowd.now) workers.new }
{
    if workers.len() == 1 {
        work(gate, number, claims, &mut workers[0], crowd, frame);
        return;
    }
    let (first, others) = workers.split_at_mut(1);
    join_mut(
        rt,
        &mut ||
            requires { IsSync R.row × IsSync G.row × (length first.now ≡ 1) × (number + 1 ≤ MOST_CLAIMERS) × MayStep crowd.now (snapshot_of frame.now) × ((round : RoundView) × All (IsEquipped (claims_id claims.now) round crowd.now.scenario) first.now) }
            ensures { (length first.exit.now ≡ length first.entry.now) × ((round : RoundView) → All (IsEquipped (claims_id claims.entry.now) round crowd.entry.now.scenario) first.entry.now → All (HasWorked (claims_id claims.entry.now) round crowd.entry.now) first.exit.now) }
        { work_all(rt, gate, number, claims, crowd, frame, first) },
        &mut ||
            requires { IsSync R.row × IsSync G.row × (0 < length others.now) × (number + 1 + length others.now ≤ MOST_CLAIMERS) × MayStep crowd.now (snapshot_of frame.now) × ((round : RoundView) × All (IsEquipped (claims_id claims.now) round crowd.now.scenario) others.now) }
            ensures { (length others.exit.now ≡ length others.entry.now) × ((round : RoundView) → All (IsEquipped (claims_id claims.entry.now) round crowd.entry.now.scenario) others.entry.now → All (HasWorked (claims_id claims.entry.now) round crowd.entry.now) others.exit.now) }
        { work_all(rt, gate, number + 1, claims, crowd, frame, others) },
    );
}

// Puts together what all workers did, and takes their claimers back.
fn take_all_in(into: &mut List<Body>, root: &mut Root, claims: &Claims, workers: &mut [Worker])
    requires claims { root_id root.old ≡ claims_id claims.now }
    requires some { 0 < length workers.old }
    requires lent { (root_view root.old).parts + length workers.old ≡ all_parts }
    requires fresh { ((root_view root.old).ends ≡ 0) × ((root_view root.old).drawn ≡ []) }
    requires pieces { length into.old.items ≤ (root_view root.old).pieces * agents_per_piece }
    requires few { length into.old.items ≤ MOST_AGENTS }
    requires worked { (round : RoundView) × (state : FrozenState) × (length into.old.items ≡ length state.scenario.agents) × All (HasWorked (claims_id claims.now) round state) workers.old }
    ensures claims { root_id root.new ≡ root_id root.old }
    ensures all_back { IsAllBack (root_view root.new) }
    ensures rounds { (root_view root.new).rounds ≡ (root_view root.old).rounds }
    ensures pieces { (root_view root.new).pieces ≡ (root_view root.old).pieces }
    ensures moved { (round : RoundView) → (state : FrozenState) → (length into.old.items ≡ length state.scenario.agents) → All (HasWorked (claims_id claims.now) round state) workers.old → AreAllMoved state into.new.items }
    ensures room { (round : RoundView) → (state : FrozenState) → All (HasWorked (claims_id claims.now) round state) workers.old → All (IsWorkerFor state.scenario round.pieces) workers.new }
    ensures count { length workers.new ≡ length workers.old }
{
    for i in 0..workers.len() {
        take_in(into, root, claims, &mut workers[i]);
    }
}

// The workers of a crowd of so many agents: as many as are asked for, but each with agents enough to be worth its
// start; none where that leaves one.
fn worker_count(workers: u32, agents: usize) -> u32
    requires { agents ≤ MOST_AGENTS }
    ensures { result ≤ workers }
{
    let shared = workers.min((agents / AGENTS_PER_WORKER) as u32);
    if shared < 2 { 0 } else { shared }
}

// So many workers for the steps of a scenario.
fn open_workers(
    alloc: Global,
    scenario: &Scenario,
    pieces: u32,
    count: u32,
) -> Result<Vec<Worker>, NoMemory>
    ensures count { IfOk result (λ workers. length workers.items ≡ count) }
    ensures room { IfOk result (λ workers. All (IsWorkerFor scenario.now pieces) workers.items) }
{
    let Ok(mut workers) = Vec::with_capacity(alloc, count as usize) else {
        return Err(NoMemory);
    };
    for _ in 0..count {
        workers.push_reserved(Worker::open(alloc, scenario, pieces)?);
    }
    Ok(workers)
}

impl Team {
    /// The workers for the steps of a scenario, at most as many as are asked for.
    pub fn open(alloc: Global, scenario: &Scenario, workers: u32) -> Result<Team, NoMemory>
        requires { workers ≤ MOST_CLAIMERS }
        ensures { IfOk result (λ team. IsTeam scenario.now 0 team) }
    {
        let agents = scenario.agents().len();
        let pieces = piece_count(agents);
        let (claims, root) = Claims::open(alloc, pieces)?;
        Ok(Team {
            claims,
            root,
            workers: open_workers(alloc, scenario, pieces, worker_count(workers, agents))?,
            scratch: Scratch::open(alloc, scenario.segments().len())?,
        })
    }

    // Shares the step among the workers, of which there is one at least.
    fn move_together<R: Threads + Sync, G: Gate + Sync>(
        &mut self,
        rt: &R,
        gate: &G,
        bodies: &mut List<Body>,
        crowd: &FrozenCrowd,
        frame: &Frame,
    )
        requires team { (most : ℕ) × (most < MOST_ROUNDS) × IsTeam crowd.now.scenario most self.old }
        requires some { 0 < length self.old.workers.items }
        requires step { MayStep crowd.now (snapshot_of frame.now) }
        requires bodies { length bodies.old.items ≡ length crowd.now.scenario.agents }
        requires few { length bodies.old.items ≤ MOST_AGENTS }
        ensures team { (most : ℕ) → IsTeam crowd.now.scenario most self.old → IsTeam crowd.now.scenario (most + 1) self.new }
        ensures moved { AreAllMoved crowd.now bodies.new.items }
    {
        let Team {
            claims,
            root,
            workers,
            scratch: _,
        } = self;
        let workers = workers.as_mut_slice();
        root.begin(claims);
        equip_all(root, claims, workers);
        work_all(rt, gate, 0, claims, crowd, frame, workers);
        take_all_in(bodies, root, claims, workers);
    }

    /// Puts the bodies of all agents as they are after the step from a frame whose posts are taken in, and of
    /// which the crowd is the frozen state.
    pub fn move_all<R: Threads + Sync, G: Gate + Sync>(
        &mut self,
        rt: &R,
        gate: &G,
        bodies: &mut List<Body>,
        crowd: &FrozenCrowd,
        frame: &Frame,
    )
        requires team { (most : ℕ) × (most < MOST_ROUNDS) × IsTeam crowd.now.scenario most self.old }
        requires step { MayStep crowd.now (snapshot_of frame.now) }
        requires bodies { length bodies.old.items ≡ length crowd.now.scenario.agents }
        requires few { length bodies.old.items ≤ MOST_AGENTS }
        ensures team { (most : ℕ) → IsTeam crowd.now.scenario most self.old → IsTeam crowd.now.scenario (most + 1) self.new }
        ensures moved { AreAllMoved crowd.now bodies.new.items }
    {
        if self.workers.is_empty() {
            move_alone(bodies, gate, crowd, frame, &mut self.scratch);
        } else {
            self.move_together(rt, gate, bodies, crowd, frame);
        }
    }
}
