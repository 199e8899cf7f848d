// One frame: made, written and published.
ghost use Rattle.std.specs.Prelude.{◌≡◌, ◌+◌, ◌<◌, [], ◌∷◌, ◌++◌, IfErr, OnOk};
ghost use Rattle.outside_io.specs.Causes.{HasCause, Wrote};
ghost use Rattle.crowd_data.specs.Run.{IsNext, snapshot_of, start_of};
ghost use Rattle.frame_text.specs.Transcript.{frame_text};
ghost use Rattle.published_frames.specs.History.{AreInRange, last_of};
ghost use Rattle.published_frames.specs.Names.{writer_history, writer_source};
ghost use Rattle.outside_io.specs.Sinks.{sink_state};
ghost use Rattle.live_session.specs.LiveText.{IsLiveList, WroteLivePart};
ghost use Rattle.live_session.specs.Running.{IsRunning, step_to};

use crate::desk::Desk;
use crate::fault::LiveFault;
use crowd_data::{Frame, Moves, Post, copy_frame, copy_posts};
use fixed_vec::NoMemory;
use frame_step::Stepper;
use outside_io::{Failed, Gate, Sink};
use published_frames::FrameWriter;
use std::alloc::Global;
use std::sync::Wait;
use std::thread::Threads;

// Makes the next frame with these posts, and writes it.
fn write_next<R: Threads + Sync, T: Sink, G: Gate + Sync>(
    rt: &R,
    gate: &G,
    out: &mut T,
    stepper: &mut Stepper,
    posts: &[Post],
) -> Result<(), Failed>
    requires below { stepper.old.frame.number < stepper.old.scenario.steps }
    requires posts { IsLiveList stepper.old.scenario (stepper.old.frame.number + 1) posts.now }
    ensures scenario { stepper.new.scenario ≡ stepper.old.scenario }
    ensures next { IsNext stepper.old.scenario stepper.old.frame posts.now stepper.new.frame }
    ensures in_range { AreInRange stepper.new.frame.bodies }
    ensures text { Wrote (T.held out.old) (T.held out.new) result (frame_text stepper.new.frame posts.now) }
    ensures cause { HasCause (T.faults out.old) (T.faults out.new) result }
{
    let _scenario = stepper.scenario();
    run_text::write_next(rt, gate, out, stepper, posts)
}

// Publishes a frame that was made with these posts.
fn publish_next<R: Wait>(
    rt: &R,
    alloc: Global,
    writer: &mut FrameWriter,
    frame: &Frame,
    posts: &[Post],
) -> Result<(), NoMemory>
    requires next { IsNext (writer_source writer.old).1 (last_of (start_of (writer_source writer.old).1) (writer_history writer.old)) posts.now (snapshot_of frame.now) }
    requires in_range { AreInRange frame.now.bodies.items }
    ensures source { writer_source writer.new ≡ writer_source writer.old }
    ensures history { OnOk result (writer_history writer.new ≡ writer_history writer.old ++ step_to (snapshot_of frame.now) posts.now ∷ []) }
{
    let posts = copy_posts(alloc, posts)?;
    let frame = copy_frame(alloc, frame)?;
    match writer.publish(rt, Moves { posts, frame }) {
        Ok(()) => Ok(()),
        Err(_) => Err(NoMemory),
    }
}

/// Makes the next frame with the posts that are listed for it, writes and publishes it.
pub(crate) fn advance<R: Threads + Wait + Sync, T: Sink, G: Gate + Sync>(
    rt: &R,
    alloc: Global,
    gate: &G,
    desk: &mut Desk<T>,
) -> Result<(), LiveFault>
    requires below { desk.old.stepper.frame.number < desk.old.stepper.scenario.steps }
    requires posts { IsLiveList desk.old.stepper.scenario (desk.old.stepper.frame.number + 1) desk.old.posts.items }
    requires running { IsRunning (sink_state (T.held desk.old.start.value) (T.faults desk.old.start.value)) (sink_state (T.held desk.old.out) (T.faults desk.old.out)) desk.old.writer desk.old.stepper }
    ensures start { desk.new.start ≡ desk.old.start }
    ensures source { writer_source desk.new.writer ≡ writer_source desk.old.writer }
    ensures scenario { desk.new.stepper.scenario ≡ desk.old.stepper.scenario }
    ensures list { (desk.new.posts ≡ desk.old.posts) × (desk.new.place ≡ desk.old.place) }
    ensures number { desk.new.stepper.frame.number ≡ desk.old.stepper.frame.number + 1 }
    ensures history { OnOk result (writer_history desk.new.writer ≡ writer_history desk.old.writer ++ step_to desk.new.stepper.frame desk.old.posts.items ∷ []) }
    ensures running { OnOk result (IsRunning (sink_state (T.held desk.new.start.value) (T.faults desk.new.start.value)) (sink_state (T.held desk.new.out) (T.faults desk.new.out)) desk.new.writer desk.new.stepper) }
    ensures fault { IfErr result (WroteLivePart desk.new.stepper.scenario (sink_state (T.held desk.new.start.value) (T.faults desk.new.start.value)) (sink_state (T.held desk.new.out) (T.faults desk.new.out))) }
{
    match write_next(
        rt,
        gate,
        &mut desk.out,
        &mut desk.stepper,
        desk.posts.items(),
    ) {
        Ok(()) => {}
        Err(_) => return Err(LiveFault::WriteFault),
    }
    match publish_next(
        rt,
        alloc,
        &mut desk.writer,
        desk.stepper.frame(),
        desk.posts.items(),
    ) {
        Ok(()) => Ok(()),
        Err(_) => Err(LiveFault::NoMemory),
    }
}
