// A live run with its threads.
ghost use Rattle.std.specs.Prelude.{◌≡◌, length, MatchResult};
ghost use Rattle.published_frames.specs.Names.{writer_source};
ghost use Rattle.outside_io.specs.Sinks.{sink_state};
ghost use Rattle.live_session.specs.LiveText.{WroteLivePart};
ghost use Rattle.live_session.specs.Session.{IsClosing, IsOpen};

use crate::desk::Desk;
use crate::fault::LiveFault;
use crate::frames::drive;
use crate::steered::Steered;
use controller_turns::{Notice, Writes};
use outside_io::{Gate, Sink};
use post_box::{PostBox, Poster, Taker};
use published_frames::FrameReader;
use std::alloc::Global;
use std::sync::Wait;
use std::thread;
use std::thread::Threads;

/// What the stepping thread has, and how all frames but the last ended: with all controllers, their turns ended, or by a
/// fault.
pub(crate) struct Session<T> {
    pub(crate) desk: Desk<T>,
    pub(crate) taker: Taker,
    pub(crate) end: Result<Vec<Steered>, LiveFault>,
}

/// All frames but the last, and the end of all threads.
pub(crate) fn with_threads<
    J: Writes + Send + Sync,
    R: Threads + Wait + Sync,
    T: Sink,
    G: Gate + Sync,
>(
    rt: &R,
    alloc: Global,
    gate: &G,
    posts: &PostBox,
    notices: &[Notice<J>],
    posters: Vec<Poster>,
    readers: Vec<FrameReader>,
    session: &mut Session<T>,
)
    requires { IsOpen (sink_state (T.held session.old.desk.start.value) (T.faults session.old.desk.start.value)) (sink_state (T.held session.old.desk.out) (T.faults session.old.desk.out)) J.book posts.now session.old.desk.writer session.old.desk.stepper session.old.desk.posts session.old.desk.place session.old.taker posters.items readers.items (length notices.now) }
    ensures queue { session.new.taker.queue ≡ session.old.taker.queue }
    ensures start { session.new.desk.start ≡ session.old.desk.start }
    ensures scenario { session.new.desk.stepper.scenario ≡ session.old.desk.stepper.scenario }
    ensures end { MatchResult session.new.end
        (λ list. IsClosing (sink_state (T.held session.new.desk.start.value) (T.faults session.new.desk.start.value)) (sink_state (T.held session.new.desk.out) (T.faults session.new.desk.out)) posts.now session.new.desk.writer session.new.desk.stepper session.new.desk.posts session.new.desk.place session.new.taker list.items)
        (WroteLivePart session.new.desk.stepper.scenario (sink_state (T.held session.new.desk.start.value) (T.faults session.new.desk.start.value)) (sink_state (T.held session.new.desk.out) (T.faults session.new.desk.out))) }
{
    let _back = thread::scope(
        thread::scope_env(),
        rt,
        move |scope| -> &mut Session<T>
            requires { IsOpen (sink_state (T.held session.now.desk.start.value) (T.faults session.now.desk.start.value)) (sink_state (T.held session.now.desk.out) (T.faults session.now.desk.out)) J.book posts.now session.now.desk.writer session.now.desk.stepper session.now.desk.posts session.now.desk.place session.now.taker posters.items readers.items (length notices.now) }
            ensures back { result.ghost_name ≡ session.entry.ghost_name }
            ensures queue { result.now.taker.queue ≡ session.entry.now.taker.queue }
            ensures start { result.now.desk.start ≡ session.entry.now.desk.start }
            ensures scenario { result.now.desk.stepper.scenario ≡ session.entry.now.desk.stepper.scenario }
            ensures end { MatchResult result.now.end
                (λ list. IsClosing (sink_state (T.held result.now.desk.start.value) (T.faults result.now.desk.start.value)) (sink_state (T.held result.now.desk.out) (T.faults result.now.desk.out)) posts.entry.now result.now.desk.writer result.now.desk.stepper result.now.desk.posts result.now.desk.place result.now.taker list.items)
                (WroteLivePart result.now.desk.stepper.scenario (sink_state (T.held result.now.desk.start.value) (T.faults result.now.desk.start.value)) (sink_state (T.held result.now.desk.out) (T.faults result.now.desk.out))) }
        {
            session.end = drive(
                scope,
                rt,
                alloc,
                gate,
                posts,
                notices,
                posters,
                readers,
                &mut session.desk,
                &mut session.taker,
            );
            session
        },
    );
}
