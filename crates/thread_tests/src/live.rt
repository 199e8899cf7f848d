// Live runs over sinks in memory.
use crate::gates::{FIRST_WORKER, sees};
use crate::texts::scenario_of;
use crowd_data::Moves;
use fixed_vec::{List, NoMemory};
use frame_text::read_transcript;
use live_session::{LiveFault, live, live_places};
use outside_io::{Gate, MemSink, OpenGate};
use std::alloc::Global;
use std::sync::Wait;
use std::sync::atomic::{AtomicBool, AtomicU64, Ordering};
use std::test::Fail;
use std::thread::Threads;

// Room for all that these runs write.
const ROOM: usize = 1_000_000;

// As many places as there are.
const ALL_PLACES: u32 = 16;

const ONE_GOAL: &[u8] =
    b"crowd,1\nsteps,1\nagent,0,0,0,0,0,0,500,400,15000,10,10,4\ngoal,0,0,1000,0,300\n";

const TWO_STEPS: &[u8] =
    b"crowd,1\nsteps,2\nagent,0,0,0,0,0,0,500,400,15000,10,10,4\ngoal,0,0,1000,0,300\n";

// How a run ended, and what was written.
#[derive(Drop)]
struct Ended {
    fault: Option<LiveFault>,
    out: MemSink,
}

fn sink_of(alloc: Global, room: usize) -> Result<MemSink, NoMemory> {
    MemSink::open(alloc, room, List::with_room(alloc, 0)?)
}

// Runs a scenario live, with so many places for readers.
fn run<R: Threads + Wait + Sync, G: Gate + Sync>(
    rt: &R,
    alloc: Global,
    input: &[u8],
    places: u32,
    room: usize,
    gate: &G,
) -> Result<Ended, Fail> {
    if places > ALL_PLACES {
        Err::<(), &str>("a test asks for too much")?;
    }
    let scenario = scenario_of(alloc, input)?;
    let mut out = sink_of(alloc, room)?;
    let fault = match live_places(rt, alloc, scenario, 1, places, &mut out, gate) {
        Ok(()) => None,
        Err(fault) => Some(fault),
    };
    Ok(Ended { fault, out })
}

#[test]
fn one_controller_takes_its_last_turn(rt: HostRuntime) -> Result<(), Fail> {
    let scenario = scenario_of(rt.alloc(), ONE_GOAL)?;
    let mut out = sink_of(rt.alloc(), ROOM)?;
    let done = live(&rt, rt.alloc(), scenario, 1, &mut out, &OpenGate);
    assert_eq!(rt; done, Ok(()));
    assert_eq!(rt;
        out.held(),
        b"crowd,1\nsteps,1\nagent,0,0,0,0,0,0,500,400,15000,10,10,4\ngoal,0,0,1000,0,300\nframe,0\nbody,0,0,0,0,0,0,0,start,0\nframe,1\ntake,0,0,0,300,0\nbody,0,300,0,300,0,300,0,feasible,0\nend,1\n".as_slice()
    );
    Ok(())
}

#[test]
fn without_places_the_stepping_thread_takes_each_turn(rt: HostRuntime) -> Result<(), Fail> {
    let ended = run(&rt, rt.alloc(), TWO_STEPS, 0, ROOM, &OpenGate)?;
    assert_eq!(rt; ended.fault, None);
    assert_eq!(rt;
        ended.out.held(),
        b"crowd,1\nsteps,2\nagent,0,0,0,0,0,0,500,400,15000,10,10,4\ngoal,0,0,1000,0,300\nframe,0\nbody,0,0,0,0,0,0,0,start,0\nframe,1\ntake,0,0,0,300,0\nbody,0,300,0,300,0,300,0,feasible,0\nframe,2\ntake,0,1,0,300,0\nbody,0,600,0,300,0,300,0,feasible,0\nend,2\n".as_slice()
    );
    Ok(())
}

#[test]
fn scripted_posts_come_first(rt: HostRuntime) -> Result<(), Fail> {
    let input: &[u8] =
        b"crowd,1\nsteps,1\nagent,0,0,0,0,0,0,500,400,15000,10,10,4\npost,1,0,0,100\ngoal,0,0,1000,0,300\n";
    let ended = run(&rt, rt.alloc(), input, 0, ROOM, &OpenGate)?;
    assert_eq!(rt; ended.fault, None);
    assert_eq!(rt;
        ended.out.held(),
        b"crowd,1\nsteps,1\nagent,0,0,0,0,0,0,500,400,15000,10,10,4\npost,1,0,0,100\ngoal,0,0,1000,0,300\nframe,0\nbody,0,0,0,0,0,0,0,start,0\nframe,1\ntake,16,0,0,0,100\ntake,0,0,0,300,0\nbody,0,300,0,300,0,300,0,feasible,0\nend,1\n".as_slice()
    );
    Ok(())
}

#[test]
fn without_steps_no_controller_starts(rt: HostRuntime) -> Result<(), Fail> {
    let input: &[u8] =
        b"crowd,1\nsteps,0\nagent,0,0,0,0,0,0,500,400,15000,10,10,4\ngoal,0,0,1000,0,300\n";
    let ended = run(&rt, rt.alloc(), input, ALL_PLACES, ROOM, &OpenGate)?;
    assert_eq!(rt; ended.fault, None);
    assert_eq!(rt;
        ended.out.held(),
        b"crowd,1\nsteps,0\nagent,0,0,0,0,0,0,500,400,15000,10,10,4\ngoal,0,0,1000,0,300\nframe,0\nbody,0,0,0,0,0,0,0,start,0\nend,0\n".as_slice()
    );
    Ok(())
}

#[test]
fn without_goals_it_is_the_scripted_run(rt: HostRuntime) -> Result<(), Fail> {
    let input: &[u8] = b"crowd,1\nsteps,1\nagent,0,0,0,0,300,0,500,400,15000,0,10,4\n";
    let ended = run(&rt, rt.alloc(), input, ALL_PLACES, ROOM, &OpenGate)?;
    assert_eq!(rt; ended.fault, None);
    assert_eq!(rt;
        ended.out.held(),
        b"crowd,1\nsteps,1\nagent,0,0,0,0,300,0,500,400,15000,0,10,4\nframe,0\nbody,0,0,0,0,0,300,0,start,0\nframe,1\nbody,0,300,0,300,0,300,0,feasible,0\nend,1\n".as_slice()
    );
    Ok(())
}

// The sink is full behind the line of frame 1: all threads end, and what stands is a prefix.
#[test]
fn a_sink_that_is_full_ends_the_run(rt: HostRuntime) -> Result<(), Fail> {
    let ended = run(&rt, rt.alloc(), TWO_STEPS, ALL_PLACES, 125, &OpenGate)?;
    assert_eq!(rt; ended.fault, Some(LiveFault::WriteFault));
    assert_eq!(rt;
        ended.out.held(),
        b"crowd,1\nsteps,2\nagent,0,0,0,0,0,0,500,400,15000,10,10,4\ngoal,0,0,1000,0,300\nframe,0\nbody,0,0,0,0,0,0,0,start,0\nframe,1\n".as_slice()
    );
    Ok(())
}

// The crossing of a circle by 36 agents, which four controllers steer in turn.
fn circle() -> &'static [u8] {
    b"crowd,1\nsteps,5\nagent,195000,0,0,0,-455,0,1500,500,15000,10,40,10\nagent,189000,48000,0,0,-441,-112,1500,500,15000,10,40,10\nagent,180000,75000,0,0,-420,-175,1500,500,15000,10,40,10\nagent,168000,99000,0,0,-392,-231,1500,500,15000,10,40,10\nagent,156000,117000,0,0,-364,-273,1500,500,15000,10,40,10\nagent,117000,156000,0,0,-273,-364,1500,500,15000,10,40,10\nagent,99000,168000,0,0,-231,-392,1500,500,15000,10,40,10\nagent,75000,180000,0,0,-175,-420,1500,500,15000,10,40,10\nagent,48000,189000,0,0,-112,-441,1500,500,15000,10,40,10\nagent,0,195000,0,0,0,-455,1500,500,15000,10,40,10\nagent,-48000,189000,0,0,112,-441,1500,500,15000,10,40,10\nagent,-75000,180000,0,0,175,-420,1500,500,15000,10,40,10\nagent,-99000,168000,0,0,231,-392,1500,500,15000,10,40,10\nagent,-117000,156000,0,0,273,-364,1500,500,15000,10,40,10\nagent,-156000,117000,0,0,364,-273,1500,500,15000,10,40,10\nagent,-168000,99000,0,0,392,-231,1500,500,15000,10,40,10\nagent,-180000,75000,0,0,420,-175,1500,500,15000,10,40,10\nagent,-189000,48000,0,0,441,-112,1500,500,15000,10,40,10\nagent,-195000,0,0,0,455,0,1500,500,15000,10,40,10\nagent,-189000,-48000,0,0,441,112,1500,500,15000,10,40,10\nagent,-180000,-75000,0,0,420,175,1500,500,15000,10,40,10\nagent,-168000,-99000,0,0,392,231,1500,500,15000,10,40,10\nagent,-156000,-117000,0,0,364,273,1500,500,15000,10,40,10\nagent,-117000,-156000,0,0,273,364,1500,500,15000,10,40,10\nagent,-99000,-168000,0,0,231,392,1500,500,15000,10,40,10\nagent,-75000,-180000,0,0,175,420,1500,500,15000,10,40,10\nagent,-48000,-189000,0,0,112,441,1500,500,15000,10,40,10\nagent,0,-195000,0,0,0,455,1500,500,15000,10,40,10\nagent,48000,-189000,0,0,-112,441,1500,500,15000,10,40,10\nagent,75000,-180000,0,0,-175,420,1500,500,15000,10,40,10\nagent,99000,-168000,0,0,-231,392,1500,500,15000,10,40,10\nagent,117000,-156000,0,0,-273,364,1500,500,15000,10,40,10\nagent,156000,-117000,0,0,-364,273,1500,500,15000,10,40,10\nagent,168000,-99000,0,0,-392,231,1500,500,15000,10,40,10\nagent,180000,-75000,0,0,-420,175,1500,500,15000,10,40,10\nagent,189000,-48000,0,0,-441,112,1500,500,15000,10,40,10\ngoal,0,0,-195000,0,450\ngoal,1,1,-189000,-48000,450\ngoal,2,2,-180000,-75000,450\ngoal,3,3,-168000,-99000,450\ngoal,0,4,-156000,-117000,450\ngoal,1,5,-117000,-156000,450\ngoal,2,6,-99000,-168000,450\ngoal,3,7,-75000,-180000,450\ngoal,0,8,-48000,-189000,450\ngoal,1,9,0,-195000,450\ngoal,2,10,48000,-189000,450\ngoal,3,11,75000,-180000,450\ngoal,0,12,99000,-168000,450\ngoal,1,13,117000,-156000,450\ngoal,2,14,156000,-117000,450\ngoal,3,15,168000,-99000,450\ngoal,0,16,180000,-75000,450\ngoal,1,17,189000,-48000,450\ngoal,2,18,195000,0,450\ngoal,3,19,189000,48000,450\ngoal,0,20,180000,75000,450\ngoal,1,21,168000,99000,450\ngoal,2,22,156000,117000,450\ngoal,3,23,117000,156000,450\ngoal,0,24,99000,168000,450\ngoal,1,25,75000,180000,450\ngoal,2,26,48000,189000,450\ngoal,3,27,0,195000,450\ngoal,0,28,-48000,189000,450\ngoal,1,29,-75000,180000,450\ngoal,2,30,-99000,168000,450\ngoal,3,31,-117000,156000,450\ngoal,0,32,-156000,117000,450\ngoal,1,33,-168000,99000,450\ngoal,2,34,-180000,75000,450\ngoal,3,35,-189000,48000,450\n"
}

// How many posts of a controller stand in all frames.
fn posts_of(frames: &[Moves], controller: u32) -> u32 {
    let mut count = 0u32;
    for moves in frames {
        for post in moves.posts.items() {
            if post.controller == controller {
                count = count.saturating_add(1);
            }
        }
    }
    count
}

// What four controllers make of a circle reads back as a transcript of five steps, in which each has whole turns, a post
// for each of its nine agents.
#[test]
fn four_controllers_cross_a_circle(rt: HostRuntime) -> Result<(), Fail> {
    let ended = run(&rt, rt.alloc(), circle(), ALL_PLACES, ROOM, &OpenGate)?;
    assert_eq!(rt; ended.fault, None);
    if ended.out.held().len() > ROOM {
        Err::<(), &str>("a text of more than its room")?;
    }
    let transcript = read_transcript(rt.alloc(), ended.out.held())?;
    assert_eq!(rt; transcript.frames.items().len(), 6);
    for controller in 0..4u32 {
        let count = posts_of(transcript.frames.items(), controller);
        assert!(rt; count >= 9);
        assert_eq!(rt; count % 9, 0);
    }
    Ok(())
}

// At the first turn of each of two controllers: whether it came, and whether it saw the other come.
#[derive(Drop)]
struct Meeting {
    came: [AtomicBool; 2],
    met: [AtomicBool; 2],
}

// Raises a flag, and looks for the other one.
fn meets(own: &AtomicBool, other: &AtomicBool) -> bool {
    own.store(true, Ordering::SeqCst);
    sees(other)
}

impl Gate for Meeting {
    fn pass(&self, who: u32, turn: u64) {
        if turn > 0 {
            return;
        }
        if who == 0 {
            self.met[0].store(meets(&self.came[0], &self.came[1]), Ordering::SeqCst);
        }
        if who == 1 {
            self.met[1].store(meets(&self.came[1], &self.came[0]), Ordering::SeqCst);
        }
    }
}

#[test]
fn controllers_run_beside_each_other(rt: HostRuntime) -> Result<(), Fail> {
    let input: &[u8] =
        b"crowd,1\nsteps,1\nagent,0,0,0,0,0,0,500,400,15000,10,10,4\nagent,20000,0,0,0,0,0,500,400,15000,10,10,4\ngoal,0,0,1000,0,300\ngoal,1,1,21000,0,300\n";
    let meeting = Meeting {
        came: [AtomicBool::new(false), AtomicBool::new(false)],
        met: [AtomicBool::new(false), AtomicBool::new(false)],
    };
    let ended = run(&rt, rt.alloc(), input, ALL_PLACES, ROOM, &meeting)?;
    assert_eq!(rt; ended.fault, None);
    assert!(rt; meeting.met[0].load(Ordering::SeqCst));
    assert!(rt; meeting.met[1].load(Ordering::SeqCst));
    Ok(())
}

// At steps one and two of one worker: whether it saw turns 0 and 1 of the controller come to the gate.
#[derive(Drop)]
struct Holding {
    steps: AtomicU64,
    came: [AtomicBool; 2],
    seen: [AtomicBool; 2],
}

impl Gate for Holding {
    fn pass(&self, who: u32, turn: u64) {
        if who == 0 && turn < 2 {
            self.came[turn as usize].store(true, Ordering::SeqCst);
        }
        if who == FIRST_WORKER {
            let step = self.steps.fetch_add(1, Ordering::SeqCst);
            if step < 2 {
                self.seen[step as usize].store(sees(&self.came[step as usize]), Ordering::SeqCst);
            }
        }
    }
}

// The controller posts its turn 0 before it comes to the gate for turn 1, which step 2 waits for: so that post is taken
// in before step 3.
#[test]
fn posts_are_taken_before_the_last_frame(rt: HostRuntime) -> Result<(), Fail> {
    let input: &[u8] =
        b"crowd,1\nsteps,4\nagent,0,0,0,0,0,0,500,400,15000,10,10,4\ngoal,0,0,1000,0,300\n";
    let holding = Holding {
        steps: AtomicU64::new(0),
        came: [AtomicBool::new(false), AtomicBool::new(false)],
        seen: [AtomicBool::new(false), AtomicBool::new(false)],
    };
    let ended = run(&rt, rt.alloc(), input, ALL_PLACES, ROOM, &holding)?;
    assert_eq!(rt; ended.fault, None);
    assert!(rt; holding.seen[0].load(Ordering::SeqCst));
    assert!(rt; holding.seen[1].load(Ordering::SeqCst));
    let take: &[u8] = b"take,0,0,0,300,0\n";
    let last: &[u8] = b"frame,4\n";
    let held = ended.out.held();
    let taken = held.windows(take.len()).position(|window| window == take);
    let ended_at = held.windows(last.len()).position(|window| window == last);
    assert!(rt; taken.is_some() && taken < ended_at);
    Ok(())
}
