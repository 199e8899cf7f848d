// A whole live run.
ghost use Rattle.std.specs.Prelude.{◌≡◌, ◌+◌, ◌≤◌, ◌++◌, [], All, IfErr, IfOk, OnOk, length};
ghost use Rattle.crowd_data.specs.Run.{snapshot_of, start_of};
ghost use Rattle.crowd_data.specs.Scenario.{controllers_of};
ghost use Rattle.std.specs.Io.KnownBytes.{Appends};
ghost use Rattle.frame_step.specs.declared.limits.TheConstants.{MOST_WORKERS};
ghost use Rattle.outside_io.specs.Causes.{HasCause, Wrote};
ghost use Rattle.frame_text.specs.Transcript.{frame_text, scenario_text};
ghost use Rattle.published_frames.specs.declared.counts.TheConstants.{CONTROLLERS};
ghost use Rattle.published_frames.specs.declared.reader.FrameReader.{FrameReader};
ghost use Rattle.published_frames.specs.Names.{reader_source, writer_history, writer_source};
ghost use Rattle.outside_io.specs.Sinks.{sink_state};
ghost use Rattle.live_session.specs.LiveText.{WroteLive, WroteLivePart};
ghost use Rattle.live_session.specs.Running.{IsRunning};
ghost use Rattle.live_session.specs.Steering.{most_posts};

use crate::desk::Desk;
use crate::ending::{end_box, last_frame};
use crate::fault::LiveFault;
use crate::session::{Session, with_threads};
use controller_turns::{Notice, Writes};
use core::mem;
use crowd_data::{Frame, Scenario};
use fixed_vec::{List, NoMemory};
use frame_step::Stepper;
use frame_text::write_end;
use outside_io::{Failed, Gate, Sink};
use post_box::MOST_TAKEN;
use published_frames::{CONTROLLERS, FrameReader, FrameWriter};
use run_text::write_start;
use std::alloc::Global;
use std::marker::Brand;
use std::snapshot::Snapshot;
use std::sync::Wait;
use std::thread::Threads;

// A notice for each controller.
fn notices_for<J: Writes>(alloc: Global, controllers: u32) -> Result<Vec<Notice<J>>, NoMemory>
    ensures { IfOk result (λ notices. length notices.items ≡ controllers) }
{
    let Ok(mut notices) = Vec::with_capacity(alloc, controllers as usize) else {
        return Err(NoMemory);
    };
    for _ in 0..controllers {
        notices.push_reserved(Notice::new());
    }
    Ok(notices)
}

// The writer of frames, and so many readers, or as many fewer as there is memory for.
fn open_frames<R: Wait>(
    rt: &R,
    alloc: Global,
    scenario: &Scenario,
    first: &Frame,
    readers: u32,
) -> Result<(FrameWriter, Vec<FrameReader>), NoMemory>
    requires first { snapshot_of first.now ≡ start_of scenario.now }
    requires readers { readers ≤ CONTROLLERS }
    ensures scenario { IfOk result (λ opened. (writer_source opened.0).1 ≡ scenario.now) }
    ensures history { IfOk result (λ opened. writer_history opened.0 ≡ []) }
    ensures readers { IfOk result (λ opened. All (λ (r : FrameReader). reader_source r ≡ writer_source opened.0) opened.1.items) }
{
    for fewer in 0..readers + 1 {
        match published_frames::open(rt, alloc, scenario, first, readers - fewer) {
            Ok(opened) => return Ok(opened),
            Err(_) => {}
        }
    }
    Err(NoMemory)
}

// All that comes after frame 0, where there is a step.
fn run_desk<J: Writes + Send + Sync, R: Threads + Wait + Sync, T: Sink, G: Gate + Sync>(
    rt: &R,
    alloc: Global,
    gate: &G,
    desk: Desk<T>,
    readers: Vec<FrameReader>,
) -> (Desk<T>, Result<(), LiveFault>)
    requires some_steps { 1 ≤ desk.stepper.scenario.steps }
    requires running { IsRunning (sink_state (T.held desk.start.value) (T.faults desk.start.value)) (sink_state (T.held desk.out) (T.faults desk.out)) desk.writer desk.stepper }
    requires first { writer_history desk.writer ≡ [] }
    requires source { writer_source desk.writer ≡ (J.book, desk.stepper.scenario) }
    requires place { desk.place ≡ 0 }
    requires room { length desk.stepper.scenario.posts + MOST_TAKEN ≤ length desk.posts.items + desk.posts.spare }
    requires readers { All (λ (r : FrameReader). reader_source r ≡ (J.book, desk.stepper.scenario)) readers.items }
    ensures start { result.0.start ≡ desk.start }
    ensures scenario { result.0.stepper.scenario ≡ desk.stepper.scenario }
    ensures done { OnOk result.1 (WroteLive result.0.stepper.scenario (sink_state (T.held result.0.start.value) (T.faults result.0.start.value)) (sink_state (T.held result.0.out) (T.faults result.0.out))) }
    ensures fault { IfErr result.1 (WroteLivePart result.0.stepper.scenario (sink_state (T.held result.0.start.value) (T.faults result.0.start.value)) (sink_state (T.held result.0.out) (T.faults result.0.out))) }
{
    let scenario = desk.stepper.scenario();
    let controllers = scenario.controllers();
    let most = (2 * scenario.steps() + 3) * scenario.goals().len() as u32;
    let agents = scenario.agents().len() as u32;
    let (posts, posters, taker) = match post_box::open(alloc, controllers, agents, most) {
        Ok(opened) => opened,
        Err(_) => return (desk, Err(LiveFault::NoMemory)),
    };
    let notices = match notices_for::<J>(alloc, controllers) {
        Ok(notices) => notices,
        Err(_) => {
            end_box(rt, alloc, posts, taker);
            return (desk, Err(LiveFault::NoMemory));
        }
    };
    let mut session = Session {
        desk,
        taker,
        end: Err(LiveFault::NoMemory),
    };
    with_threads::<J, R, T, G>(
        rt,
        alloc,
        gate,
        &posts,
        notices.as_slice(),
        posters,
        readers,
        &mut session,
    );
    let Session {
        mut desk,
        taker,
        end,
    } = session;
    match end {
        Ok(list) => {
            let done = last_frame(rt, alloc, gate, posts, &mut desk, taker, list);
            (desk, done)
        }
        Err(fault) => {
            end_box(rt, alloc, posts, taker);
            (desk, Err(fault))
        }
    }
}

// The run from frame 0 on, which is written; the scenario has a step.
fn run_steps<R: Threads + Wait + Sync, T: Sink, G: Gate + Sync>(
    rt: &R,
    alloc: Global,
    gate: &G,
    places: u32,
    start: Snapshot<T>,
    out: T,
    stepper: Stepper,
) -> (T, Result<(), LiveFault>)
    requires some_steps { 1 ≤ stepper.scenario.steps }
    requires places { places ≤ CONTROLLERS }
    requires first { stepper.frame ≡ start_of stepper.scenario }
    requires written { Appends (T.held start.value) (T.held out) (scenario_text stepper.scenario ++ frame_text stepper.frame []) }
    requires later { T.faults start.value ≤ T.faults out }
    ensures done { OnOk result.1 (WroteLive stepper.scenario (sink_state (T.held start.value) (T.faults start.value)) (sink_state (T.held result.0) (T.faults result.0))) }
    ensures fault { IfErr result.1 (WroteLivePart stepper.scenario (sink_state (T.held start.value) (T.faults start.value)) (sink_state (T.held result.0) (T.faults result.0))) }
{
    let scenario = stepper.scenario();
    let Ok(posts) = List::with_room(alloc, scenario.posts().len() + MOST_TAKEN) else {
        return (out, Err(LiveFault::NoMemory));
    };
    let controllers = scenario.controllers();
    let readers = if controllers < places {
        controllers
    } else {
        places
    };
    let (writer, readers) = match open_frames(rt, alloc, scenario, stepper.frame(), readers) {
        Ok(opened) => opened,
        Err(_) => return (out, Err(LiveFault::NoMemory)),
    };
    let desk = Desk {
        out,
        start,
        stepper,
        writer,
        posts,
        place: 0,
    };
    let (desk, done) = run_desk::<Brand, R, T, G>(rt, alloc, gate, desk, readers);
    let Desk {
        out,
        start: _start,
        stepper: _stepper,
        writer,
        posts: _posts,
        place: _,
    } = desk;
    writer.close(rt);
    (out, done)
}

// The whole run, with the sink by value.
fn run_whole<R: Threads + Wait + Sync, T: Sink, G: Gate + Sync>(
    rt: &R,
    alloc: Global,
    scenario: Scenario,
    workers: u32,
    places: u32,
    mut out: T,
    gate: &G,
) -> (T, Result<(), LiveFault>)
    requires some_workers { 1 ≤ workers }
    requires workers { workers ≤ MOST_WORKERS }
    requires places { places ≤ CONTROLLERS }
    ensures done { OnOk result.1 (WroteLive scenario (sink_state (T.held out) (T.faults out)) (sink_state (T.held result.0) (T.faults result.0))) }
    ensures fault { IfErr result.1 (WroteLivePart scenario (sink_state (T.held out) (T.faults out)) (sink_state (T.held result.0) (T.faults result.0))) }
{
    let start = Snapshot::of(&out);
    let stepper = match Stepper::open(alloc, scenario, workers) {
        Ok(stepper) => stepper,
        Err(_) => return (out, Err(LiveFault::NoMemory)),
    };
    match write_start(&mut out, &stepper) {
        Ok(()) => {}
        Err(_) => return (out, Err(LiveFault::WriteFault)),
    }
    if stepper.scenario().steps() == 0 {
        match write_end(&mut out, 0) {
            Ok(()) => return (out, Ok(())),
            Err(_) => return (out, Err(LiveFault::WriteFault)),
        }
    }
    run_steps(rt, alloc, gate, places, start, out, stepper)
}

/// Runs a scenario with its controllers, each on a thread of its own where it has a reader and a thread can be made, and
/// writes the transcript of this run, for 1 to 64 workers. It asks for a reader for each controller, but for no more than
/// `places` of them, at most `CONTROLLERS`; the stepping thread takes the turns of the others.
///
/// Each frame's posts are its scripted posts in order, and behind them the posts that were taken. The posts of each
/// controller stand in the transcript once and in order, and are its turns on frames of this very run, the last one on the
/// last frame or the one before. A fault ends all threads, and a prefix of the transcript so far was written: `WriteFault`
/// comes only where the sink's count of faults rose, `NoMemory` where memory runs out (documented, not proved).
pub fn live_places<R: Threads + Wait + Sync, T: Sink, G: Gate + Sync>(
    rt: &R,
    alloc: Global,
    scenario: Scenario,
    workers: u32,
    places: u32,
    out: &mut T,
    gate: &G,
) -> Result<(), LiveFault>
    requires some_workers { 1 ≤ workers }
    requires workers { workers ≤ MOST_WORKERS }
    requires places { places ≤ CONTROLLERS }
    ensures done { OnOk result (WroteLive scenario (sink_state (T.held out.old) (T.faults out.old)) (sink_state (T.held out.new) (T.faults out.new))) }
    ensures fault { IfErr result (WroteLivePart scenario (sink_state (T.held out.old) (T.faults out.old)) (sink_state (T.held out.new) (T.faults out.new))) }
{
    mem::replace_with(
        out,
        scenario,
        |out: T, scenario: Scenario| -> (T, Result<(), LiveFault>)
            requires { (1 ≤ workers) × (workers ≤ MOST_WORKERS) × (places ≤ CONTROLLERS) }
            ensures { OnOk result.1 (WroteLive scenario (sink_state (T.held out) (T.faults out)) (sink_state (T.held result.0) (T.faults result.0)))
                × IfErr result.1 (WroteLivePart scenario (sink_state (T.held out) (T.faults out)) (sink_state (T.held result.0) (T.faults result.0))) }
        { run_whole(rt, alloc, scenario, workers, places, out, gate) },
    )
}

/// The same with a reader for each controller.
pub fn live<R: Threads + Wait + Sync, T: Sink, G: Gate + Sync>(
    rt: &R,
    alloc: Global,
    scenario: Scenario,
    workers: u32,
    out: &mut T,
    gate: &G,
) -> Result<(), LiveFault>
    requires some_workers { 1 ≤ workers }
    requires workers { workers ≤ MOST_WORKERS }
    ensures done { OnOk result (WroteLive scenario (sink_state (T.held out.old) (T.faults out.old)) (sink_state (T.held out.new) (T.faults out.new))) }
    ensures fault { IfErr result (WroteLivePart scenario (sink_state (T.held out.old) (T.faults out.old)) (sink_state (T.held out.new) (T.faults out.new))) }
{
    live_places(rt, alloc, scenario, workers, CONTROLLERS as u32, out, gate)
}
