// The records of a transcript's frames, one at a time.
ghost use Rattle.std.specs.Prelude.{◌≡◌, ◌≤◌, ◌<◌, ◌^◌, [], IfOk, IfSome, OnOk, All, Some, map};
ghost use Rattle.csv.specs.Records.{fields_of};
ghost use Rattle.fixed_vec.specs.Vector.{IsBelow};
ghost use Rattle.frame_text.specs.FramesRead.{AddsFrames, so_far};
ghost use Rattle.frame_text.specs.Printed.{FitsBody, FitsMoves, FitsPost};
ghost use Rattle.frame_text.specs.Shape.{all_frames, body_of_row, is_end, is_whole, mark_of_word, number_of_row, post_of_row, posted_of, with_body, with_frame, with_post, with_record};
ghost use Rattle.frame_text.specs.declared.frame_records.FrameFault.TheVariants.{NoMemory as OutOfMemory};

use crate::frames::Frames;
use crate::limits::{GREATEST_PLACE, GREATEST_RELIEF, GREATEST_SEQ};
use crowd_data::{
    Body, Frame, GREATEST_AGENT, GREATEST_SPEED, MOST_STEPS, Mark, Moves, Post, SCRIPT, Scenario,
};
use csv::ByteRecord;
use fixed_vec::{List, NoMemory};
use scenario_read::{count_in, field, is_kind, vector_in};
use std::alloc::Global;
use std::mem;

// Why a record wasn't added.
pub(crate) enum FrameFault {
    NoMemory,
    NotAllowed,
}

impl From<NoMemory> for FrameFault {
    ghost from_gives = { λ _ e. e ≡ OutOfMemory };

    fn from(_: NoMemory) -> Self {
        FrameFault::NoMemory
    }
}

// The number of a `frame` or `end` record.
#[tactic(auto, unfolding(crate::specs::Shape::number_of_row))]
fn number_of(row: &ByteRecord) -> Option<u32>
    ensures value { result ≡ number_of_row (fields_of row.now) }
    ensures limits { IfSome result (λ number. number ≤ MOST_STEPS) }
{
    if row.len() != 2 {
        return None;
    }
    let Ok(number) = count_in(row, 1, 0, MOST_STEPS) else {
        return None;
    };
    Some(number)
}

#[tactic(auto, unfolding(crate::specs::Shape::post_of_row))]
fn post_of(row: &ByteRecord) -> Option<Post>
    ensures value { result ≡ post_of_row (fields_of row.now) }
    ensures limits { IfSome result FitsPost }
{
    if row.len() != 6 {
        return None;
    }
    let Ok(controller) = count_in(row, 1, 0, SCRIPT) else {
        return None;
    };
    let Ok(seq) = count_in(row, 2, 0, GREATEST_SEQ) else {
        return None;
    };
    let Ok(agent) = count_in(row, 3, 0, GREATEST_AGENT) else {
        return None;
    };
    let Ok(vel) = vector_in(row, 4, 5, GREATEST_SPEED) else {
        return None;
    };
    Some(Post {
        controller,
        seq,
        agent,
        vel,
    })
}

#[tactic(auto, unfolding(crate::specs::Shape::mark_of_word))]
fn mark_of(word: &[u8]) -> Option<Mark>
    ensures { result ≡ mark_of_word word.now }
{
    if word == b"start".as_slice() {
        Some(Mark::Start)
    } else if word == b"feasible".as_slice() {
        Some(Mark::Feasible)
    } else if word == b"fallback".as_slice() {
        Some(Mark::Fallback)
    } else if word == b"stopped".as_slice() {
        Some(Mark::Stopped)
    } else if word == b"crowded".as_slice() {
        Some(Mark::Crowded)
    } else {
        None
    }
}

#[tactic(auto, unfolding(crate::specs::Shape::body_of_row))]
fn body_of(row: &ByteRecord) -> Option<Body>
    ensures value { result ≡ body_of_row (fields_of row.now) }
    ensures limits { IfSome result FitsBody }
{
    if row.len() != 10 {
        return None;
    }
    let Ok(agent) = count_in(row, 1, 0, GREATEST_AGENT) else {
        return None;
    };
    let Ok(pos) = vector_in(row, 2, 3, GREATEST_PLACE) else {
        return None;
    };
    let Ok(vel) = vector_in(row, 4, 5, GREATEST_SPEED) else {
        return None;
    };
    let Ok(pref) = vector_in(row, 6, 7, GREATEST_SPEED) else {
        return None;
    };
    let Some(mark) = mark_of(field(row, 8)) else {
        return None;
    };
    let Ok(relief) = count_in(row, 9, 0, GREATEST_RELIEF) else {
        return None;
    };
    Some(Body {
        agent,
        pos,
        vel,
        pref,
        mark,
        relief,
    })
}

// Whether each agent has its body in the last frame, or there is none yet.
fn is_whole(scenario: &Scenario, frames: &Frames) -> bool
    ensures { result ≡ is_whole scenario.now (so_far frames.now) }
{
    frames.begun == 0 || frames.bodies.items().len() == scenario.agents().len()
}

// Moves the last frame to the others.
pub(crate) fn set_aside(alloc: Global, frames: &mut Frames) -> Result<(), NoMemory>
    ensures whole { OnOk result (map posted_of frames.new.whole.items ≡ all_frames (so_far frames.old)) }
    ensures begun { frames.new.begun ≡ frames.old.begun }
    ensures posts { OnOk result (frames.new.posts.items ≡ []) }
    ensures bodies { OnOk result (frames.new.bodies.items ≡ []) }
{
    frames.whole.reserve(1)?;
    let posts = mem::replace(&mut frames.posts, List::with_room(alloc, 0)?);
    let bodies = mem::replace(&mut frames.bodies, List::with_room(alloc, 0)?);
    if frames.begun > 0 {
        let frame = Frame {
            number: frames.begun - 1,
            bodies,
        };
        frames.whole.push(Moves { posts, frame });
    }
    Ok(())
}

// Begins a frame.
fn add_frame(
    alloc: Global,
    scenario: &Scenario,
    frames: &mut Frames,
    number: u32,
) -> Result<(), FrameFault>
    requires { number ≤ MOST_STEPS }
    ensures { AddsFrames (so_far frames.old) (so_far frames.new) result (with_frame scenario.now (so_far frames.old) number) }
{
    if number != frames.begun || number > scenario.steps() || !is_whole(scenario, frames) {
        return Err(FrameFault::NotAllowed);
    }
    set_aside(alloc, frames)?;
    frames.begun = number + 1;
    Ok(())
}

// Adds the record of a post.
fn add_post(scenario: &Scenario, frames: &mut Frames, post: Post) -> Result<(), FrameFault>
    requires { FitsPost post }
    ensures { AddsFrames (so_far frames.old) (so_far frames.new) result (with_post scenario.now (so_far frames.old) post) }
{
    if frames.begun <= 1
        || !frames.bodies.items().is_empty()
        || post.agent as usize >= scenario.agents().len()
    {
        return Err(FrameFault::NotAllowed);
    }
    frames.posts.reserve(1)?;
    frames.posts.push(post);
    Ok(())
}

// Adds the record of a body.
fn add_body(scenario: &Scenario, frames: &mut Frames, body: Body) -> Result<(), FrameFault>
    requires { FitsBody body }
    ensures { AddsFrames (so_far frames.old) (so_far frames.new) result (with_body scenario.now (so_far frames.old) body) }
{
    if frames.begun == 0
        || body.agent as usize != frames.bodies.items().len()
        || body.agent as usize >= scenario.agents().len()
    {
        return Err(FrameFault::NotAllowed);
    }
    frames.bodies.reserve(1)?;
    frames.bodies.push(body);
    Ok(())
}

/// Adds one more record of a frame, or says that it isn't allowed here.
#[tactic(auto, unfolding(crate::specs::Shape::with_record))]
pub(crate) fn add_record(
    alloc: Global,
    scenario: &Scenario,
    frames: &mut Frames,
    row: &ByteRecord,
) -> Result<(), FrameFault>
    ensures { AddsFrames (so_far frames.old) (so_far frames.new) result (with_record scenario.now (so_far frames.old) (fields_of row.now)) }
{
    if is_kind(row, b"frame") {
        match number_of(row) {
            Some(number) => add_frame(alloc, scenario, frames, number),
            None => Err(FrameFault::NotAllowed),
        }
    } else if is_kind(row, b"take") {
        match post_of(row) {
            Some(post) => add_post(scenario, frames, post),
            None => Err(FrameFault::NotAllowed),
        }
    } else if is_kind(row, b"body") {
        match body_of(row) {
            Some(body) => add_body(scenario, frames, body),
            None => Err(FrameFault::NotAllowed),
        }
    } else {
        Err(FrameFault::NotAllowed)
    }
}

/// Whether a record is the `end` record of the frames so far.
#[tactic(auto, unfolding(crate::specs::Shape::is_end))]
pub(crate) fn is_end(scenario: &Scenario, frames: &Frames, row: &ByteRecord) -> bool
    ensures { result ≡ is_end scenario.now (so_far frames.now) (fields_of row.now) }
{
    if !is_kind(row, b"end") {
        return false;
    }
    match number_of(row) {
        Some(number) => number + 1 == frames.begun && is_whole(scenario, frames),
        None => false,
    }
}
