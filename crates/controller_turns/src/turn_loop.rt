// A controller's turns, one after another.
ghost use Rattle.std.specs.Prelude.{◌≡◌, ◌≤◌, IfOk, MatchBool, OnOk, [], length};
ghost use Rattle.post_box.specs.Ends.{IsPosterOf};
ghost use Rattle.published_frames.specs.Names.{reader_seen, reader_source};
ghost use Rattle.controller_turns.specs.Turns.{IsNewer, IsReached};
ghost use Rattle.controller_turns.specs.Controllers.{Ends, HasPostedTurns, IsSamePoster, Suits, posts_of_run};

use crate::controller::Controller;
use crate::notice::{Notice, Stage};
use crate::told::Writes;
use fixed_vec::NoMemory;
use outside_io::Gate;
use post_box::{PostBox, Poster};
use published_frames::FrameReader;
use std::sync::Wait;

/// What a controller's turns give back: the controller, its poster, its reader, and the number of the frame of its last
/// turn, if it had one, or that memory ran out.
pub type Turns = (
    Controller,
    Poster,
    FrameReader,
    Result<Option<u32>, NoMemory>,
);

/// Whether the frame of this number comes after that of the last turn, if there was one.
pub fn is_newer(last: Option<u32>, number: u32) -> bool
    ensures { MatchBool result (IsNewer last number) (IsReached last number) }
{
    match last {
        None => true,
        Some(turned) => turned < number,
    }
}

// Reads, and takes a turn on the frame, where it comes after that of the last turn.
fn read_and_turn<R: Wait, G: Gate>(
    rt: &R,
    gate: &G,
    posts: &PostBox,
    controller: &mut Controller,
    poster: &mut Poster,
    reader: FrameReader,
    last: Option<u32>,
) -> (FrameReader, Result<Option<u32>, NoMemory>)
    requires poster { IsPosterOf posts.now poster.old }
    requires suits { Suits (reader_source reader).1 controller.old poster.old }
    requires turned { HasPostedTurns controller.old.goals (reader_source reader).1 (reader_seen reader) poster.old last }
    requires few { length poster.old.posts ≤ posts_of_run (reader_source reader).1 controller.old.goals }
    ensures controller { controller.new ≡ controller.old }
    ensures poster { IsSamePoster poster.old poster.new }
    ensures source { reader_source result.0 ≡ reader_source reader }
    ensures few { OnOk result.1 (length poster.new.posts ≤ posts_of_run (reader_source reader).1 controller.old.goals) }
    ensures turned { IfOk result.1 (λ now. HasPostedTurns controller.old.goals (reader_source reader).1 (reader_seen result.0) poster.new now) }
{
    let guard = reader.read(rt);
    let number = guard.frame().number;
    if !is_newer(last, number) {
        return (guard.leave(), Ok(last));
    }
    controller.pass(gate);
    match controller.turn(rt, guard.frame(), poster, posts) {
        Ok(()) => (guard.leave(), Ok(Some(number))),
        Err(refused) => (guard.leave(), Err(refused)),
    }
}

/// Takes turns until the notice ends them: one on each frame that the reader is lent and that comes after that of the last
/// turn. `NoMemory` is answered where memory runs out (documented, not proved).
pub fn turns<J: Writes, R: Wait, G: Gate>(
    rt: &R,
    gate: &G,
    posts: &PostBox,
    notice: &Notice<J>,
    mut controller: Controller,
    mut poster: Poster,
    mut reader: FrameReader,
) -> Turns
    requires book { (reader_source reader).0 ≡ J.book }
    requires poster { IsPosterOf posts.now poster }
    requires suits { Suits (reader_source reader).1 controller poster }
    requires none { poster.posts ≡ [] }
    ensures { Ends controller poster (reader_source reader) result }
{
    let mut last = None;
    for _ in rt.forever() {
        let (told, stage) = notice.wait(rt, last);
        if let Stage::Idle = stage {
            return (controller, poster, reader, Ok(last));
        }
        if let Some(told) = told {
            reader.learn(told.into_note());
        }
        let (back, done) = read_and_turn(
            rt,
            gate,
            posts,
            &mut controller,
            &mut poster,
            reader,
            last,
        );
        reader = back;
        let now = match done {
            Ok(now) => now,
            Err(refused) => return (controller, poster, reader, Err(refused)),
        };
        let is_same = now == last;
        last = now;
        if let Stage::Closed = stage {
            if is_same {
                return (controller, poster, reader, Ok(last));
            }
        }
    }
    unreachable!()
}
