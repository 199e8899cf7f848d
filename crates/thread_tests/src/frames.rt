// Frames of a crowd without agents, each of which is the next one whatever is posted: what the calls answer, and that
// two readers look at frames at one time.
ghost use Rattle.std.specs.Prelude.{◌≡◌, ◌-◌, ◌<◌, ◌≤◌, ◌++◌, ◌∷◌, [], IfOk};
ghost use Rattle.crowd_data.specs.Run.{start_of};
ghost use Rattle.published_frames.specs.History.{CanFollow, last_of, step_of};
ghost use Rattle.published_frames.specs.Names.{reader_source, writer_history, writer_source};

use crate::gates::sees;
use crowd_data::{FIRST_VERSION, Frame, Moves, PLAIN_RING, Post, SCRIPT, Scenario, first_frame};
use fixed_vec::{List, NoMemory, V2};
use published_frames::{FrameReader, FrameWriter, Unpublished, open};
use std::alloc::Global;
use std::sync::Wait;
use std::sync::atomic::{AtomicBool, Ordering};
use std::test::Fail;
use std::thread;
use std::thread::Threads;

// A scenario of so many steps without agents.
fn empty_crowd(alloc: Global, steps: u32) -> Result<Scenario, NoMemory>
    requires { steps < 100 }
    ensures { IfOk result (λ scenario. scenario ≡ record { version = 1; ring = 36; steps = steps; agents = []; segments = []; posts = []; goals = [] }) }
{
    Ok(Scenario::of(
        FIRST_VERSION,
        PLAIN_RING,
        steps,
        List::with_room(alloc, 0)?,
        List::with_room(alloc, 0)?,
        List::with_room(alloc, 0)?,
        List::with_room(alloc, 0)?,
    ))
}

// The frame of this number, made with a post of each of these controllers.
fn moves_with(alloc: Global, number: u32, controllers: &[u32]) -> Result<Moves, NoMemory>
    ensures { IfOk result (λ moves. (moves.frame.number ≡ number) × (moves.frame.bodies.items ≡ [])) }
{
    let mut posts = List::with_room(alloc, controllers.len())?;
    for controller in controllers {
        if let Err(refused) = posts.reserve(1) {
            return Err(refused);
        }
        posts.push(Post {
            controller: *controller,
            seq: 0,
            agent: 0,
            vel: V2 { x: 100, y: 0 },
        });
    }
    Ok(Moves {
        posts,
        frame: Frame {
            number,
            bodies: List::with_room(alloc, 0)?,
        },
    })
}

// A writer for an empty crowd, with a reader.
fn writer_and_reader<R: Wait>(
    rt: &R,
    alloc: Global,
    steps: u32,
) -> Result<(FrameWriter, FrameReader), NoMemory>
    requires { steps < 100 }
    ensures one_source { IfOk result (λ opened. reader_source opened.1 ≡ writer_source opened.0) }
    ensures steps { IfOk result (λ opened. (writer_source opened.0).1.steps ≡ steps) }
    ensures frame { IfOk result (λ opened. last_of (start_of (writer_source opened.0).1) (writer_history opened.0) ≡ record { number = 0; bodies = [] }) }
{
    let scenario = empty_crowd(alloc, steps)?;
    let first = first_frame(alloc, &scenario)?;
    let (writer, mut readers) = open(rt, alloc, &scenario, &first, 1)?;
    match readers.pop() {
        Some(reader) => Ok((writer, reader)),
        None => {
            writer.close(rt);
            Err(NoMemory)
        }
    }
}

// Publishes moves, and tries the same moves once more where they are refused.
fn publish_again<R: Wait>(rt: &R, writer: &mut FrameWriter, moves: Moves) -> Result<(), Unpublished>
    requires { CanFollow (writer_source writer.old).1 (writer_history writer.old) moves }
    ensures source { writer_source writer.new ≡ writer_source writer.old }
    ensures history { IfOk result (λ _. writer_history writer.new ≡ writer_history writer.old ++ step_of moves ∷ []) }
{
    match writer.publish(rt, moves) {
        Ok(()) => Ok(()),
        Err(refused) => writer.publish(rt, refused.moves),
    }
}

// Publishes the next frame of an empty crowd, with a post of each of these controllers.
fn publish_next<R: Wait>(
    rt: &R,
    alloc: Global,
    writer: &mut FrameWriter,
    number: u32,
    controllers: &[u32],
) -> Result<(), NoMemory>
    requires next { last_of (start_of (writer_source writer.old).1) (writer_history writer.old) ≡ record { number = number - 1; bodies = [] } }
    requires number { (1 ≤ number) × (number ≤ (writer_source writer.old).1.steps) }
    ensures source { writer_source writer.new ≡ writer_source writer.old }
    ensures frame { IfOk result (λ _. last_of (start_of (writer_source writer.new).1) (writer_history writer.new) ≡ record { number = number; bodies = [] }) }
{
    let moves = moves_with(alloc, number, controllers)?;
    match publish_again(rt, writer, moves) {
        Ok(()) => {}
        Err(_) => return Err(NoMemory),
    }
    Ok(())
}

// Reads, and answers the number of the frame.
fn number_read<R: Wait>(rt: &R, reader: FrameReader) -> (FrameReader, u32)
    ensures { reader_source result.0 ≡ reader_source reader }
{
    let guard = reader.read(rt);
    let number = guard.frame().number;
    (guard.leave(), number)
}

// Reads, publishes a frame, and reads once more with a note of it: the numbers read, and what the note tells.
fn read_by_a_note<R: Wait>(rt: &R, alloc: Global) -> Result<([u32; 2], [u32; 3]), NoMemory> {
    let (mut writer, reader) = writer_and_reader(rt, alloc, 1)?;
    let (mut reader, before) = number_read(rt, reader);
    let published = publish_next(rt, alloc, &mut writer, 1, &[SCRIPT, SCRIPT]);
    let note = writer.tell(0);
    let told = [note.number(), note.controller(), note.taken()];
    reader.learn(note);
    let (_reader, after) = number_read(rt, reader);
    writer.close(rt);
    published?;
    Ok(([before, after], told))
}

#[test]
fn a_note_leads_to_the_frame_that_it_tells_of(rt: HostRuntime) -> Result<(), Fail> {
    let (read, told) = read_by_a_note(&rt, rt.alloc())?;
    assert_eq!(rt; read, [0, 1]);
    assert_eq!(rt; told, [1, 0, 0]);
    Ok(())
}

// How many posts were taken in of controller 3, after one frame and after two, and then of two others.
fn counted<R: Wait>(rt: &R, alloc: Global) -> Result<[u32; 4], NoMemory> {
    let (mut writer, _reader) = writer_and_reader(rt, alloc, 2)?;
    let mut counted = [9, 9, 9, 9];
    if let Ok(()) = publish_next(rt, alloc, &mut writer, 1, &[3, SCRIPT, 3, 15]) {
        counted[0] = writer.tell(3).taken();
        if let Ok(()) = publish_next(rt, alloc, &mut writer, 2, &[3]) {
            counted[1] = writer.tell(3).taken();
            counted[2] = writer.tell(15).taken();
            counted[3] = writer.tell(0).taken();
        }
    }
    writer.close(rt);
    Ok(counted)
}

#[test]
fn posts_are_counted_for_their_controllers(rt: HostRuntime) -> Result<(), Fail> {
    assert_eq!(rt; counted(&rt, rt.alloc())?, [2, 3, 1, 0]);
    Ok(())
}

// Reads, publishes a frame, and reads twice after a note of it and an older one were learnt: the numbers read.
fn read_by_late_notes<R: Wait>(rt: &R, alloc: Global) -> Result<[u32; 3], NoMemory> {
    let (mut writer, reader) = writer_and_reader(rt, alloc, 1)?;
    let early = writer.tell(1);
    let (mut reader, before) = number_read(rt, reader);
    let published = publish_next(rt, alloc, &mut writer, 1, &[]);
    reader.learn(writer.tell(1));
    reader.learn(early);
    let (reader, after) = number_read(rt, reader);
    let (_reader, again) = number_read(rt, reader);
    writer.close(rt);
    published?;
    Ok([before, after, again])
}

// The last frame is there for a reader that learnt of it after it had read, also where it learnt an older note last.
#[test]
fn a_note_may_be_learnt_after_reads(rt: HostRuntime) -> Result<(), Fail> {
    assert_eq!(rt; read_by_late_notes(&rt, rt.alloc())?, [0, 1, 1]);
    Ok(())
}

// Sets its flag under its guard, and looks for the other's as long.
fn sees_the_other<R: Wait>(
    rt: &R,
    reader: FrameReader,
    own: &AtomicBool,
    other: &AtomicBool,
) -> bool {
    let guard = reader.read(rt);
    own.store(true, Ordering::SeqCst);
    let seen = sees(other);
    guard.leave();
    seen
}

// Whether two readers see each other's flags while each looks at a frame.
fn see_each_other<R: Wait + Threads + Sync>(rt: &R, one: FrameReader, two: FrameReader) -> bool {
    let flags = [AtomicBool::new(false), AtomicBool::new(false)];
    let (here, there) = thread::join(
        rt,
        || sees_the_other(rt, one, &flags[0], &flags[1]),
        || sees_the_other(rt, two, &flags[1], &flags[0]),
    );
    here && there
}

fn two_readers_meet<R: Wait + Threads + Sync>(rt: &R, alloc: Global) -> Result<bool, NoMemory> {
    let scenario = empty_crowd(alloc, 1)?;
    let first = first_frame(alloc, &scenario)?;
    let (writer, mut readers) = open(rt, alloc, &scenario, &first, 2)?;
    let met = match (readers.pop(), readers.pop()) {
        (Some(one), Some(two)) => see_each_other(rt, one, two),
        _ => false,
    };
    writer.close(rt);
    Ok(met)
}

#[test]
fn two_readers_look_at_one_time(rt: HostRuntime) -> Result<(), Fail> {
    assert!(rt; two_readers_meet(&rt, rt.alloc())?);
    Ok(())
}
