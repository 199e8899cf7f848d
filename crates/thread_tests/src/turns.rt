// Headings by worked examples, a turn whose posts are taken, turns on a thread, and what a notice tells.
ghost use Rattle.std.specs.Prelude.{◌≡◌, ◌≤◌, [], All, IfOk, length, unsigned_abs};
ghost use Rattle.crowd_data.specs.Limits.{IsAgent, IsGoal, IsPosition};
ghost use Rattle.crowd_data.specs.Run.{start_of};
ghost use Rattle.crowd_data.specs.Scenario.{IsValid};
ghost use Rattle.post_box.specs.Ends.{IsPosterOf};
ghost use Rattle.post_box.specs.declared.limits.TheConstants.{MOST_TAKEN};
ghost use Rattle.published_frames.specs.History.{last_of};
ghost use Rattle.published_frames.specs.Names.{reader_source, writer_history, writer_source};
ghost use Rattle.controller_turns.specs.Controllers.{Suits};

use controller_turns::{Controller, Notice, Stage, Told, Turns, Writes, begin, heading};
use crowd_data::{
    Agent, FIRST_VERSION, Frame, Goal, LATEST_VERSION, Moves, PLAIN_RING, Post, Scenario,
    first_frame,
};
use fixed_vec::{List, NoMemory, V2};
use outside_io::{Gate, OpenGate};
use post_box::{MOST_TAKEN, PostBox, Poster, Taken, finish};
use published_frames::{FrameReader, FrameWriter};
use std::alloc::Global;
use std::marker::Brand;
use std::sync::Wait;
use std::sync::atomic::{AtomicU64, Ordering};
use std::test::Fail;
use std::thread;
use std::thread::Threads;

fn goal_at(agent: u32, at: V2, pace: u32) -> Goal
    ensures { result ≡ record { controller = 1; agent = agent; at = at; pace = pace } }
{
    Goal {
        controller: 1,
        agent,
        at,
        pace,
    }
}

// The heading from (0,0) to this place.
fn heading_to(x: i64, y: i64, pace: u32) -> (i64, i64)
    requires place { (unsigned_abs x ≤ 4194304) × (unsigned_abs y ≤ 4194304) }
    requires pace { pace ≤ 16384 }
{
    let vel = heading(V2 { x: 0, y: 0 }, &goal_at(0, V2 { x, y }, pace));
    (vel.x, vel.y)
}

#[test]
fn headings_of_worked_examples(rt: HostRuntime) -> Result<(), Fail> {
    assert_eq!(rt; heading_to(300, 400, 100), (60, 80));
    assert_eq!(rt; heading_to(300, 400, 499), (299, 399));
    assert_eq!(rt; heading_to(300, 400, 500), (300, 400));
    assert_eq!(rt; heading_to(300, 400, 600), (300, 400));
    assert_eq!(rt; heading_to(-7, -7, 3), (-2, -2));
    assert_eq!(rt; heading_to(3, 0, 0), (0, 0));
    assert_eq!(rt; heading_to(0, 0, 0), (0, 0));
    Ok(())
}

// Goals for agent 1 and for agent 0.
fn two_goals(alloc: Global) -> Result<List<Goal>, NoMemory>
    ensures limits { IfOk result (λ goals. All (IsGoal 2) goals.items) }
    ensures count { IfOk result (λ goals. length goals.items ≡ 2) }
{
    let mut goals = List::with_room(alloc, 2)?;
    goals.push(goal_at(1, V2 { x: 0, y: 0 }, 3));
    goals.push(goal_at(0, V2 { x: 300, y: 400 }, 100));
    Ok(goals)
}

// What the controller posts for them in frame 0.
fn two_posts() -> [Post; 2] {
    [
        Post {
            controller: 1,
            seq: 0,
            agent: 1,
            vel: V2 { x: -2, y: -2 },
        },
        Post {
            controller: 1,
            seq: 1,
            agent: 0,
            vel: V2 { x: 60, y: 80 },
        },
    ]
}

// An agent that stands still.
fn agent_at(pos: V2) -> Agent
    requires { IsPosition pos }
    ensures { IsAgent result }
{
    let still = V2 { x: 0, y: 0 };
    Agent {
        pos,
        vel: still,
        pref: still,
        radius: 1,
        speed: 100,
        range: 1_000,
        most: 10,
        horizon: 10,
        wall_horizon: 10,
        weight: 1,
    }
}

// A scenario without steps, with agent 0 at (0,0) and agent 1 at (7,7).
fn two_agents(alloc: Global) -> Result<Scenario, NoMemory>
    ensures steps { IfOk result (λ scenario. scenario.steps ≡ 0) }
    ensures agents { IfOk result (λ scenario. length scenario.agents ≡ 2) }
    ensures valid { IfOk result IsValid }
{
    let mut agents = List::with_room(alloc, 2)?;
    agents.push(agent_at(V2 { x: 0, y: 0 }));
    agents.push(agent_at(V2 { x: 7, y: 7 }));
    Ok(Scenario::of(
        LATEST_VERSION,
        PLAIN_RING,
        0,
        agents,
        List::with_room(alloc, 0)?,
        List::with_room(alloc, 0)?,
        List::with_room(alloc, 0)?,
    ))
}

// A gate that remembers whose turn it let pass last, and which.
#[derive(Drop)]
struct LastPass {
    who: AtomicU64,
    turn: AtomicU64,
}

impl Gate for LastPass {
    fn pass(&self, who: u32, turn: u64) {
        self.who.store(u64::from(who), Ordering::SeqCst);
        self.turn.store(turn, Ordering::SeqCst);
    }
}

// Who a controller is at a gate, and which turn it comes with.
fn passed(controller: &Controller) -> (u64, u64) {
    let gate = LastPass {
        who: AtomicU64::new(9),
        turn: AtomicU64::new(9),
    };
    controller.pass(&gate);
    (
        gate.who.load(Ordering::SeqCst),
        gate.turn.load(Ordering::SeqCst),
    )
}

// What came of a turn: who was at the gate before it and after it, with which turn; whether it was done; what the taker
// answered; and how many posts were left.
#[derive(Clone, Copy)]
struct Turned {
    before: (u64, u64),
    after: (u64, u64),
    is_done: bool,
    taken: Taken,
    left: usize,
}

// A turn of the controller of two goals in frame 0, whose posts are taken into the list.
fn turn_once<R: Wait>(rt: &R, alloc: Global, into: &mut List<Post>) -> Result<Turned, NoMemory>
    requires { MOST_TAKEN ≤ into.old.spare }
{
    let scenario = two_agents(alloc)?;
    let frame = first_frame(alloc, &scenario)?;
    let mut controller = Controller::of(1, two_goals(alloc)?);
    let (posts, mut posters, mut taker) = post_box::open(alloc, 2, 2, 2)?;
    let before = passed(&controller);
    let done = controller.turn(rt, &frame, &mut posters[1], &posts);
    let after = passed(&controller);
    let taken = taker.take(rt, &posts, into);
    let left = finish(rt, alloc, posts, posters, taker)?.items().len();
    Ok(Turned {
        before,
        after,
        is_done: done.is_ok(),
        taken,
        left,
    })
}

#[test]
fn posts_for_each_goal_in_order(rt: HostRuntime) -> Result<(), Fail> {
    let mut into = List::with_room(rt.alloc(), MOST_TAKEN)?;
    let turned = turn_once(&rt, rt.alloc(), &mut into)?;
    assert_eq!(rt; turned.before, (1, 0));
    assert_eq!(rt; turned.after, (1, 1));
    assert!(rt; turned.is_done);
    assert_eq!(rt; turned.taken, Taken::Emptied);
    assert_eq!(rt; into.items(), two_posts().as_slice());
    assert_eq!(rt; turned.left, 0);
    Ok(())
}

// What a controller's turns give back, on a thread where one can be made.
fn turns_beside<'s, J: Writes + Send + Sync, R: Threads + Wait + Sync>(
    rt: &'s R,
    gate: &'s OpenGate,
    posts: &'s PostBox,
    notice: &'s Notice<J>,
    controller: Controller,
    poster: Poster,
    reader: FrameReader,
) -> Turns
    requires book { (reader_source reader).0 ≡ J.book }
    requires poster { IsPosterOf posts.now poster }
    requires suits { Suits (reader_source reader).1 controller poster }
    requires none { poster.posts ≡ [] }
{
    thread::scope(
        thread::scope_env(),
        rt,
        |scope| -> Turns
            requires { ((reader_source reader).0 ≡ J.book) × IsPosterOf posts.now poster × Suits (reader_source reader).1 controller poster × (poster.posts ≡ []) }
        {
            match begin(scope, rt, gate, posts, notice, controller, poster, reader) {
                Ok(thread) => thread.join(rt),
                Err(ended) => ended,
            }
        },
    )
}

// The last turn and the posts of a controller whose notice is at this stage from the beginning.
fn turns_at<J: Writes + Send + Sync, R: Threads + Wait + Sync>(
    rt: &R,
    alloc: Global,
    stage: Stage,
    reader: FrameReader,
) -> Result<(Option<u32>, List<Post>), NoMemory>
    requires book { (reader_source reader).0 ≡ J.book }
    requires steps { (reader_source reader).1.steps ≡ 0 }
    requires agents { length (reader_source reader).1.agents ≡ 2 }
{
    let controller = Controller::of(1, two_goals(alloc)?);
    let notice: Notice<J> = Notice::new();
    notice.end(rt, stage);
    let (posts, mut posters, taker) = post_box::open(alloc, 2, 2, 2)?;
    let Some(poster) = posters.pop() else {
        finish(rt, alloc, posts, posters, taker)?;
        return Err(NoMemory);
    };
    let (_controller, _poster, _reader, last) = turns_beside(
        rt, &OpenGate, &posts, &notice, controller, poster, reader,
    );
    let left = finish(rt, alloc, posts, posters, taker)?;
    Ok((last?, left))
}

// The same, for a controller that reads frame 0.
fn turns_on_frame_zero<R: Threads + Wait + Sync>(
    rt: &R,
    alloc: Global,
    stage: Stage,
) -> Result<(Option<u32>, List<Post>), NoMemory> {
    let scenario = two_agents(alloc)?;
    let first = first_frame(alloc, &scenario)?;
    let (writer, mut readers) = published_frames::open(rt, alloc, &scenario, &first, 1)?;
    let done = match readers.pop() {
        Some(reader) => turns_at::<Brand, R>(rt, alloc, stage, reader),
        None => Err(NoMemory),
    };
    writer.close(rt);
    done
}

#[test]
fn a_closed_notice_leaves_one_turn(rt: HostRuntime) -> Result<(), Fail> {
    let (last, posts) = turns_on_frame_zero(&rt, rt.alloc(), Stage::Closed)?;
    assert_eq!(rt; last, Some(0));
    assert_eq!(rt; posts.items(), two_posts().as_slice());
    Ok(())
}

#[test]
fn an_idle_notice_leaves_none(rt: HostRuntime) -> Result<(), Fail> {
    let (last, posts) = turns_on_frame_zero(&rt, rt.alloc(), Stage::Idle)?;
    assert_eq!(rt; last, None);
    assert_eq!(rt; posts.items().len(), 0);
    Ok(())
}

// A writer for a scenario of one step without agents.
fn writer_of_none<R: Wait>(rt: &R, alloc: Global) -> Result<FrameWriter, NoMemory>
    ensures steps { IfOk result (λ writer. (writer_source writer).1.steps ≡ 1) }
    ensures frame { IfOk result (λ writer. last_of (start_of (writer_source writer).1) (writer_history writer) ≡ record { number = 0; bodies = [] }) }
{
    let scenario = Scenario::of(
        FIRST_VERSION,
        PLAIN_RING,
        1,
        List::with_room(alloc, 0)?,
        List::with_room(alloc, 0)?,
        List::with_room(alloc, 0)?,
        List::with_room(alloc, 0)?,
    );
    let first = first_frame(alloc, &scenario)?;
    let (writer, _readers) = published_frames::open(rt, alloc, &scenario, &first, 1)?;
    Ok(writer)
}

// Publishes frame 1 of a scenario without agents.
fn publish_first<R: Wait>(rt: &R, alloc: Global, writer: &mut FrameWriter) -> Result<(), NoMemory>
    requires steps { (writer_source writer.old).1.steps ≡ 1 }
    requires frame { last_of (start_of (writer_source writer.old).1) (writer_history writer.old) ≡ record { number = 0; bodies = [] } }
    ensures { writer_source writer.new ≡ writer_source writer.old }
{
    let moves = Moves {
        posts: List::with_room(alloc, 0)?,
        frame: Frame {
            number: 1,
            bodies: List::with_room(alloc, 0)?,
        },
    };
    match writer.publish(rt, moves) {
        Ok(()) => Ok(()),
        Err(_) => Err(NoMemory),
    }
}

// The frame that a note tells of.
fn number_of<J: Writes>(told: Option<Told<J>>) -> Option<u32> {
    match told {
        Some(told) => Some(told.into_note().number()),
        None => None,
    }
}

// What a notice tells after a turn on frame 0, once frame 1 is published, and after a turn on that one, once it is closed.
fn numbers_told<J: Writes, R: Wait>(
    rt: &R,
    alloc: Global,
    writer: &mut FrameWriter,
) -> Result<(Option<u32>, Option<u32>), NoMemory>
    requires book { (writer_source writer.old).0 ≡ J.book }
    requires steps { (writer_source writer.old).1.steps ≡ 1 }
    requires frame { last_of (start_of (writer_source writer.old).1) (writer_history writer.old) ≡ record { number = 0; bodies = [] } }
{
    publish_first(rt, alloc, writer)?;
    let notice: Notice<J> = Notice::new();
    notice.renew(rt, writer, 1);
    let (first, _) = notice.wait(rt, Some(0));
    notice.end(rt, Stage::Closed);
    let (second, _) = notice.wait(rt, Some(1));
    Ok((number_of(first), number_of(second)))
}

fn numbers_of_a_writer<R: Wait>(
    rt: &R,
    alloc: Global,
) -> Result<(Option<u32>, Option<u32>), NoMemory> {
    let mut writer = writer_of_none(rt, alloc)?;
    let told = numbers_told::<Brand, R>(rt, alloc, &mut writer);
    writer.close(rt);
    told
}

// A wait that didn't see the newer frame, or the end, would last for ever.
#[test]
fn a_notice_wakes_by_a_frame_and_by_its_end(rt: HostRuntime) -> Result<(), Fail> {
    let told = numbers_of_a_writer(&rt, rt.alloc())?;
    assert_eq!(rt; told, (Some(1), None));
    Ok(())
}
