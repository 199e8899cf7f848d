// All frames but the last.
ghost use Rattle.std.specs.Prelude.{◌≡◌, ◌+◌, ◌≤◌, ◌<◌, [], All, IfErr, IfOk, OnOk, length};
ghost use Rattle.crowd_data.specs.Scenario.{controllers_of};
ghost use Rattle.published_frames.specs.Names.{writer_history, writer_source};
ghost use Rattle.published_frames.specs.declared.counts.TheConstants.{CONTROLLERS};
ghost use Rattle.outside_io.specs.Sinks.{sink_state};
ghost use Rattle.live_session.specs.LiveText.{WroteLivePart};
ghost use Rattle.live_session.specs.Session.{IsClosing, IsOpen, IsUnderWay};
ghost use Rattle.live_session.specs.Steering.{AreSteering};

use crate::desk::Desk;
use crate::fault::LiveFault;
use crate::gathering::gather;
use crate::joining::join_all;
use crate::own_turns::{last_turns, own_turns};
use crate::starting::start_all;
use crate::steered::{Steered, Steering};
use crate::stepping::advance;
use controller_turns::{Notice, Stage, Writes};
use outside_io::{Gate, Sink};
use post_box::{PostBox, Poster, Taker};
use published_frames::{FrameReader, FrameWriter};
use std::alloc::Global;
use std::sync::Wait;
use std::thread::{Scope, Threads};

// Tells each controller what was published last.
fn renew_all<J: Writes, R: Wait>(rt: &R, notices: &[Notice<J>], writer: &FrameWriter)
    requires book { (writer_source writer.now).0 ≡ J.book }
    requires few { length notices.now ≤ CONTROLLERS }
{
    for (number, notice) in notices.iter().enumerate() {
        notice.renew(rt, writer, number as u32);
    }
}

// Lets each controller's thread end after its turn on the newest frame.
fn close_all<J: Writes, R: Wait>(rt: &R, notices: &[Notice<J>]) {
    for notice in notices {
        notice.end(rt, Stage::Closed);
    }
}

// The turns of the controllers that have no thread, and then a frame with the posts that wait.
fn next_frame<J: Writes, R: Threads + Wait + Sync, T: Sink, G: Gate + Sync>(
    rt: &R,
    alloc: Global,
    gate: &G,
    posts: &PostBox,
    notices: &[Notice<J>],
    desk: &mut Desk<T>,
    taker: &mut Taker,
    list: &mut Vec<Steering>,
) -> Result<(), LiveFault>
    requires book { (writer_source desk.old.writer).0 ≡ J.book }
    requires notices { length notices.now ≡ controllers_of desk.old.stepper.scenario.goals }
    requires below { desk.old.stepper.frame.number < desk.old.stepper.scenario.steps }
    requires under_way { IsUnderWay (sink_state (T.held desk.old.start.value) (T.faults desk.old.start.value)) (sink_state (T.held desk.old.out) (T.faults desk.old.out)) posts.now desk.old.writer desk.old.stepper desk.old.posts desk.old.place taker.old }
    requires steering { AreSteering posts.now (writer_source desk.old.writer) (writer_history desk.old.writer) desk.old.stepper.frame.number list.old.items }
    ensures start { desk.new.start ≡ desk.old.start }
    ensures queue { taker.new.queue ≡ taker.old.queue }
    ensures source { writer_source desk.new.writer ≡ writer_source desk.old.writer }
    ensures scenario { desk.new.stepper.scenario ≡ desk.old.stepper.scenario }
    ensures count { length list.new.items ≡ length list.old.items }
    ensures number { OnOk result (desk.new.stepper.frame.number ≡ desk.old.stepper.frame.number + 1) }
    ensures under_way { OnOk result (IsUnderWay (sink_state (T.held desk.new.start.value) (T.faults desk.new.start.value)) (sink_state (T.held desk.new.out) (T.faults desk.new.out)) posts.now desk.new.writer desk.new.stepper desk.new.posts desk.new.place taker.new) }
    ensures steering { OnOk result (AreSteering posts.now (writer_source desk.new.writer) (writer_history desk.new.writer) desk.new.stepper.frame.number list.new.items) }
    ensures fault { IfErr result (WroteLivePart desk.new.stepper.scenario (sink_state (T.held desk.new.start.value) (T.faults desk.new.start.value)) (sink_state (T.held desk.new.out) (T.faults desk.new.out))) }
{
    let _valid = desk.stepper.scenario();
    match own_turns(rt, gate, desk, posts, list) {
        Ok(()) => {}
        Err(_) => return Err(LiveFault::NoMemory),
    }
    let place = desk.place;
    desk.place = gather(rt, &desk.stepper, posts, taker, &mut desk.posts, place);
    match advance(rt, alloc, gate, desk) {
        Ok(()) => {}
        Err(fault) => return Err(fault),
    }
    renew_all(rt, notices, &desk.writer);
    Ok(())
}

// The controllers begin, and then come all frames but the last.
fn run_frames<'s, E, J: Writes + Send + Sync, R: Threads + Wait + Sync, T: Sink, G: Gate + Sync>(
    scope: &'s Scope<'s, E>,
    rt: &'s R,
    alloc: Global,
    gate: &'s G,
    posts: &'s PostBox,
    notices: &'s [Notice<J>],
    posters: Vec<Poster>,
    readers: Vec<FrameReader>,
    desk: &mut Desk<T>,
    taker: &mut Taker,
) -> Result<Vec<Steering>, LiveFault>
    requires { IsOpen (sink_state (T.held desk.old.start.value) (T.faults desk.old.start.value)) (sink_state (T.held desk.old.out) (T.faults desk.old.out)) J.book posts.now desk.old.writer desk.old.stepper desk.old.posts desk.old.place taker.old posters.items readers.items (length notices.now) }
    ensures start { desk.new.start ≡ desk.old.start }
    ensures queue { taker.new.queue ≡ taker.old.queue }
    ensures source { writer_source desk.new.writer ≡ writer_source desk.old.writer }
    ensures scenario { desk.new.stepper.scenario ≡ desk.old.stepper.scenario }
    ensures last { IfOk result (λ _. desk.new.stepper.frame.number + 1 ≡ desk.new.stepper.scenario.steps) }
    ensures count { IfOk result (λ list. length list.items ≡ controllers_of desk.new.stepper.scenario.goals) }
    ensures under_way { IfOk result (λ _. IsUnderWay (sink_state (T.held desk.new.start.value) (T.faults desk.new.start.value)) (sink_state (T.held desk.new.out) (T.faults desk.new.out)) posts.now desk.new.writer desk.new.stepper desk.new.posts desk.new.place taker.new) }
    ensures steering { IfOk result (λ list. AreSteering posts.now (writer_source desk.new.writer) (writer_history desk.new.writer) desk.new.stepper.frame.number list.items) }
    ensures fault { IfErr result (WroteLivePart desk.new.stepper.scenario (sink_state (T.held desk.new.start.value) (T.faults desk.new.start.value)) (sink_state (T.held desk.new.out) (T.faults desk.new.out))) }
{
    let scenario = desk.stepper.scenario();
    let rounds = scenario.steps() - 1;
    let mut list = match start_all(
        scope, rt, alloc, gate, scenario, posts, notices, posters, readers,
    ) {
        Ok(list) => list,
        Err(_) => return Err(LiveFault::NoMemory),
    };
    for _ in 0..rounds {
        match next_frame(rt, alloc, gate, posts, notices, desk, taker, &mut list) {
            Ok(()) => {}
            Err(fault) => return Err(fault),
        }
    }
    Ok(list)
}

/// All frames but the last, and the end of all turns.
pub(crate) fn drive<
    's,
    E,
    J: Writes + Send + Sync,
    R: Threads + Wait + Sync,
    T: Sink,
    G: Gate + Sync,
>(
    scope: &'s Scope<'s, E>,
    rt: &'s R,
    alloc: Global,
    gate: &'s G,
    posts: &'s PostBox,
    notices: &'s [Notice<J>],
    posters: Vec<Poster>,
    readers: Vec<FrameReader>,
    desk: &mut Desk<T>,
    taker: &mut Taker,
) -> Result<Vec<Steered>, LiveFault>
    requires { IsOpen (sink_state (T.held desk.old.start.value) (T.faults desk.old.start.value)) (sink_state (T.held desk.old.out) (T.faults desk.old.out)) J.book posts.now desk.old.writer desk.old.stepper desk.old.posts desk.old.place taker.old posters.items readers.items (length notices.now) }
    ensures start { desk.new.start ≡ desk.old.start }
    ensures queue { taker.new.queue ≡ taker.old.queue }
    ensures source { writer_source desk.new.writer ≡ writer_source desk.old.writer }
    ensures scenario { desk.new.stepper.scenario ≡ desk.old.stepper.scenario }
    ensures closing { IfOk result (λ list. IsClosing (sink_state (T.held desk.new.start.value) (T.faults desk.new.start.value)) (sink_state (T.held desk.new.out) (T.faults desk.new.out)) posts.now desk.new.writer desk.new.stepper desk.new.posts desk.new.place taker.new list.items) }
    ensures fault { IfErr result (WroteLivePart desk.new.stepper.scenario (sink_state (T.held desk.new.start.value) (T.faults desk.new.start.value)) (sink_state (T.held desk.new.out) (T.faults desk.new.out))) }
{
    let ran = run_frames(
        scope, rt, alloc, gate, posts, notices, posters, readers, desk, taker,
    );
    close_all(rt, notices);
    let list = match ran {
        Ok(list) => list,
        Err(fault) => return Err(fault),
    };
    let mut steered = match join_all(rt, alloc, list) {
        Ok(steered) => steered,
        Err(_) => return Err(LiveFault::NoMemory),
    };
    match last_turns(rt, gate, desk, posts, &mut steered) {
        Ok(()) => Ok(steered),
        Err(_) => Err(LiveFault::NoMemory),
    }
}
