// Runs of a few agents, step by step, and steps that workers share.
ghost use Rattle.std.specs.Prelude.{◌≡◌, ◌<◌, ◌≤◌, All, IfOk, length};
ghost use Rattle.crowd_data.specs.Limits.{IsAgent};

use crate::gates::{FIRST_WORKER, LOOKS};
use crate::texts::scenario_of;
use crowd_data::{Agent, Frame, LATEST_VERSION, Mark, PLAIN_RING, Scenario};
use fixed_vec::{List, NoMemory, V2};
use frame_step::Stepper;
use outside_io::Gate;
use std::alloc::Global;
use std::sync::atomic::{AtomicU64, Ordering};
use std::test::Fail;
use std::thread;
use std::thread::Threads;

const ORIGIN: V2 = V2 { x: 0, y: 0 };

const WALKER: Agent = Agent {
    pos: ORIGIN,
    vel: ORIGIN,
    pref: V2 { x: -300, y: 0 },
    radius: 500,
    speed: 400,
    range: 15000,
    most: 0,
    horizon: 10,
    wall_horizon: 4,
    weight: 1,
};

// Two agents for two steps: the second one is just near the first one, which walks away from it.
const TWO_AGENTS: &[u8] =
    b"crowd,1\nsteps,2\nagent,0,0,0,0,-300,0,500,400,15000,0,10,4\nagent,1800,0,0,0,0,0,500,400,15000,0,10,4\n";

fn opened(alloc: Global) -> Result<Stepper, Fail> {
    Ok(Stepper::open(alloc, scenario_of(alloc, TWO_AGENTS)?, 1)?)
}

// Makes a step without posts, unless none is left.
fn make_step<R: Threads + Sync>(rt: &R, stepper: &mut Stepper) -> bool {
    if stepper.frame().number >= stepper.scenario().steps() {
        return false;
    }
    stepper.step(rt, &[]);
    true
}

// The same, with a gate.
fn make_gated_step<R: Threads + Sync, G: Gate + Sync>(
    rt: &R,
    stepper: &mut Stepper,
    gate: &G,
) -> bool {
    if stepper.frame().number >= stepper.scenario().steps() {
        return false;
    }
    stepper.step_gated(rt, &[], gate);
    true
}

// Whether two bodies stand at these places, both with this mark.
fn stand_at(frame: &Frame, first: V2, second: V2, mark: Mark) -> bool {
    let bodies = frame.bodies.items();
    bodies.len() == 2
        && bodies[0].pos == first
        && bodies[1].pos == second
        && bodies[0].mark == mark
        && bodies[1].mark == mark
}

// Whether the two agents stand at these places after so many steps, both with this mark.
fn stand_after<R: Threads + Sync>(
    rt: &R,
    alloc: Global,
    steps: u32,
    first: V2,
    second: V2,
    mark: Mark,
) -> Result<bool, Fail> {
    let mut stepper = opened(alloc)?;
    let mut made = true;
    for _ in 0..steps {
        made &= make_step(rt, &mut stepper);
    }
    Ok(made && stand_at(stepper.frame(), first, second, mark))
}

#[test]
fn each_step_is_made_from_one_frame(rt: HostRuntime) -> Result<(), Fail> {
    let alloc = rt.alloc();
    let second = V2 { x: 1800, y: 0 };
    let once = V2 { x: -300, y: 0 };
    let twice = V2 { x: -600, y: 0 };
    assert!(rt; stand_after(&rt, alloc, 1, once, second, Mark::Crowded)?);
    assert!(rt; stand_after(&rt, alloc, 2, twice, second, Mark::Feasible)?);
    Ok(())
}

// The agent of this number in a row: each walks towards its neighbour on one side.
fn in_row(number: u32) -> Agent
    requires { number < 1000 }
    ensures { IsAgent result }
{
    Agent {
        pos: V2 {
            x: i64::from(4000 * number),
            y: 0,
        },
        pref: V2 {
            x: if number.is_multiple_of(2) { 300 } else { -300 },
            y: 0,
        },
        most: 10,
        ..WALKER
    }
}

fn row_of(alloc: Global, count: u32) -> Result<List<Agent>, NoMemory>
    requires { count ≤ 1000 }
    ensures count { IfOk result (λ agents. length agents.items ≡ count) }
    ensures sound { IfOk result (λ agents. All IsAgent agents.items) }
{
    let mut agents = List::with_room(alloc, count as usize)?;
    for number in 0..count {
        agents.push(in_row(number));
    }
    Ok(agents)
}

// A row of so many agents, for two steps.
fn opened_row(alloc: Global, count: u32, workers: u32) -> Result<Stepper, NoMemory>
    requires count { count ≤ 1000 }
    requires some_workers { 1 ≤ workers }
    requires workers { workers ≤ 64 }
{
    let scenario = Scenario::of(
        LATEST_VERSION,
        PLAIN_RING,
        2,
        row_of(alloc, count)?,
        List::with_room(alloc, 0)?,
        List::with_room(alloc, 0)?,
        List::with_room(alloc, 0)?,
    );
    Stepper::open(alloc, scenario, workers)
}

// A row of so many agents after two steps, made by so many workers.
fn moved_row<R: Threads + Sync>(
    rt: &R,
    alloc: Global,
    count: u32,
    workers: u32,
) -> Result<Stepper, NoMemory>
    requires count { count ≤ 1000 }
    requires some_workers { 1 ≤ workers }
    requires workers { workers ≤ 64 }
{
    let mut stepper = opened_row(alloc, count, workers)?;
    let _first = make_step(rt, &mut stepper);
    let _second = make_step(rt, &mut stepper);
    Ok(stepper)
}

// Whether the rows of two frames 2 have so many bodies, and the same ones.
fn are_alike(alone: &Frame, shared: &Frame, count: u32) -> bool {
    let bodies = shared.bodies.items();
    alone.number == 2
        && shared.number == 2
        && bodies.len() == count as usize
        && bodies == alone.bodies.items()
}

// Whether so many workers bring a row to the frame 2 that one brings it to.
fn share_well<R: Threads + Sync>(
    rt: &R,
    alloc: Global,
    count: u32,
    workers: u32,
) -> Result<bool, NoMemory>
    requires count { count ≤ 1000 }
    requires some_workers { 1 ≤ workers }
    requires workers { workers ≤ 64 }
{
    let alone = moved_row(rt, alloc, count, 1)?;
    let shared = moved_row(rt, alloc, count, workers)?;
    Ok(are_alike(alone.frame(), shared.frame(), count))
}

#[test]
fn any_number_of_workers_makes_the_same_frames(rt: HostRuntime) -> Result<(), Fail> {
    let alloc = rt.alloc();
    assert!(rt; share_well(&rt, alloc, 0, 5)?);
    assert!(rt; share_well(&rt, alloc, 3, 7)?);
    assert!(rt; share_well(&rt, alloc, 36, 7)?);
    assert!(rt; share_well(&rt, alloc, 129, 64)?);
    assert!(rt; share_well(&rt, alloc, 1000, 3)?);
    assert!(rt; share_well(&rt, alloc, 1000, 64)?);
    Ok(())
}

// Whether a row makes a step with this gate.
fn steps_with<R: Threads + Sync, G: Gate + Sync>(
    rt: &R,
    alloc: Global,
    count: u32,
    workers: u32,
    gate: &G,
) -> Result<bool, NoMemory>
    requires count { count ≤ 1000 }
    requires some_workers { 1 ≤ workers }
    requires workers { workers ≤ 64 }
{
    let mut stepper = opened_row(alloc, count, workers)?;
    Ok(make_gated_step(rt, &mut stepper, gate))
}

// Holds the worker of piece 0 until the three other pieces have come, and those of the others until it has.
#[derive(Drop)]
struct Meeting {
    first: AtomicU64,
    others: AtomicU64,
    seen: AtomicU64,
}

impl Gate for Meeting {
    fn pass(&self, _who: u32, turn: u64) {
        let (mine, awaited, count) = if turn == 0 {
            (&self.first, &self.others, 3)
        } else {
            (&self.others, &self.first, 1)
        };
        mine.fetch_add(1, Ordering::SeqCst);
        for _ in 0..LOOKS {
            if awaited.load(Ordering::SeqCst) == count {
                self.seen.fetch_add(1, Ordering::SeqCst);
                return;
            }
            thread::yield_now();
        }
    }
}

#[test]
fn workers_run_beside_each_other(rt: HostRuntime) -> Result<(), Fail> {
    let gate = Meeting {
        first: AtomicU64::new(0),
        others: AtomicU64::new(0),
        seen: AtomicU64::new(0),
    };
    assert!(rt; steps_with(&rt, rt.alloc(), 128, 2, &gate)?);
    assert_eq!(rt; gate.seen.load(Ordering::SeqCst), 4);
    Ok(())
}

// Counts the pieces that worker 0 brings in order.
#[derive(Drop)]
struct InOrder {
    next: AtomicU64,
}

impl Gate for InOrder {
    fn pass(&self, who: u32, turn: u64) {
        if who == FIRST_WORKER && turn == self.next.load(Ordering::SeqCst) {
            self.next.fetch_add(1, Ordering::SeqCst);
        }
    }
}

#[test]
fn one_worker_passes_the_gate_before_each_piece(rt: HostRuntime) -> Result<(), Fail> {
    let gate = InOrder {
        next: AtomicU64::new(0),
    };
    assert!(rt; steps_with(&rt, rt.alloc(), 65, 1, &gate)?);
    assert_eq!(rt; gate.next.load(Ordering::SeqCst), 3);
    Ok(())
}
