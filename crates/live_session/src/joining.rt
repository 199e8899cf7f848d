// How the controllers' turns end.
ghost use Rattle.std.specs.Prelude.{◌≡◌, ◌≤◌, ℕ, List, IfOk, length, map};
ghost use Rattle.logbook.specs.Pages.{Book};
ghost use Rattle.crowd_data.specs.Scenario.{Parts};
ghost use Rattle.post_box.specs.Ends.{BoxState};
ghost use Rattle.published_frames.specs.declared.entry.Step.{Step};
ghost use Rattle.live_session.specs.declared.steered.Steered.{Steered};
ghost use Rattle.live_session.specs.Steering.{AreSteered, AreSteering, IsSteered, IsSteering};

use crate::steered::{Steered, Steering};
use fixed_vec::NoMemory;
use post_box::Poster;
use published_frames::FrameReader;
use std::alloc::Global;
use std::thread::Threads;

// A controller, once its thread has ended. `NoMemory` is answered where its turns found none.
fn join<R: Threads>(rt: &R, steering: Steering) -> Result<Steered, NoMemory>
    ensures { (box : BoxState) (source : Book × Parts) (history : List Step) (turns number : ℕ) → IsSteering box source history turns number steering
        → IfOk result (IsSteered box source history turns number) }
{
    match steering {
        Steering::Here(steered) => Ok(steered),
        Steering::OnThread(thread) => {
            let (controller, poster, reader, done) = thread.join(rt);
            match done {
                Ok(last) => Ok(Steered {
                    controller,
                    poster,
                    reader: Some(reader),
                    last,
                }),
                Err(refused) => Err(refused),
            }
        }
    }
}

/// All controllers, once their threads have ended.
pub(crate) fn join_all<R: Threads>(
    rt: &R,
    alloc: Global,
    list: Vec<Steering>,
) -> Result<Vec<Steered>, NoMemory>
    ensures count { IfOk result (λ joined. length joined.items ≡ length list.items) }
    ensures steered { (box : BoxState) (source : Book × Parts) (history : List Step) (turns : ℕ) → AreSteering box source history turns list.items
        → IfOk result (λ joined. AreSteered box source history turns joined.items) }
{
    let Ok(mut joined) = Vec::with_capacity(alloc, list.len()) else {
        return Err(NoMemory);
    };
    for steering in list {
        joined.push_reserved(join(rt, steering)?);
    }
    Ok(joined)
}

/// The posters and the readers of all controllers.
pub(crate) fn parted(
    alloc: Global,
    list: Vec<Steered>,
) -> Result<(Vec<Poster>, Vec<Option<FrameReader>>), NoMemory>
    ensures posters { IfOk result (λ parts. parts.0.items ≡ map (λ (s : Steered). s.poster) list.items) }
    ensures readers { IfOk result (λ parts. parts.1.items ≡ map (λ (s : Steered). s.reader) list.items) }
{
    let Ok(mut posters) = Vec::with_capacity(alloc, list.len()) else {
        return Err(NoMemory);
    };
    let Ok(mut readers) = Vec::with_capacity(alloc, list.len()) else {
        return Err(NoMemory);
    };
    for steered in list {
        posters.push_reserved(steered.poster);
        readers.push_reserved(steered.reader);
    }
    Ok((posters, readers))
}
