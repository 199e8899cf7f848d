// How a controller's turns begin on a thread.
ghost use Rattle.std.specs.Prelude.{◌≡◌, IfErr, IfOk, []};
ghost use Rattle.post_box.specs.Ends.{IsPosterOf};
ghost use Rattle.published_frames.specs.Names.{reader_source};
ghost use Rattle.controller_turns.specs.Controllers.{Ends, Suits};

use crate::controller::Controller;
use crate::notice::{Notice, Stage};
use crate::told::Writes;
use crate::turn_loop::{Turns, turns};
use outside_io::Gate;
use post_box::{PostBox, Poster};
use published_frames::FrameReader;
use std::snapshot::Snapshot;
use std::sync::Wait;
use std::thread::{Promise, PromisedHandle, Scope, Threads};

/// What a controller's thread promises: it gives back this controller, this poster and this reader, with turns.
#[derive(Drop)]
pub struct TurnsPromise {
    controller: Snapshot<Controller>,
    poster: Snapshot<Poster>,
    reader: Snapshot<FrameReader>,
}

impl Promise<Turns> for TurnsPromise {
    ghost kept_by = { λ p r. Ends p.controller.value p.poster.value (reader_source p.reader.value) r };
}

/// Begins a controller's turns on a thread of their own. Where no thread can be made, the notice is marked idle, the work that
/// is handed back is done here, and `Err` has what it gives back.
pub fn begin<'s, E, J: Writes + Send + Sync, R: Threads + Wait + Sync, G: Gate + Sync>(
    scope: &'s Scope<'s, E>,
    rt: &'s R,
    gate: &'s G,
    posts: &'s PostBox,
    notice: &'s Notice<J>,
    controller: Controller,
    poster: Poster,
    reader: FrameReader,
) -> Result<PromisedHandle<Turns, TurnsPromise>, Turns>
    requires book { (reader_source reader).0 ≡ J.book }
    requires poster { IsPosterOf posts.now poster }
    requires suits { Suits (reader_source reader).1 controller poster }
    requires none { poster.posts ≡ [] }
    ensures there { IfOk result (λ thread. (thread.promise.controller.value ≡ controller) × (thread.promise.poster.value ≡ poster) × (thread.promise.reader.value ≡ reader)) }
    ensures here { IfErr result (λ ended. Ends controller poster (reader_source reader) ended) }
{
    let promise = TurnsPromise {
        controller: Snapshot::of(&controller),
        poster: Snapshot::of(&poster),
        reader: Snapshot::of(&reader),
    };
    match scope.spawn_with(promise, move || {
        turns(rt, gate, posts, notice, controller, poster, reader)
    }) {
        Ok(child) => Ok(child),
        Err(refused) => {
            notice.end(rt, Stage::Idle);
            Err((refused.value)())
        }
    }
}
