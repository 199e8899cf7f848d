// How controllers begin.
ghost use Rattle.std.specs.Prelude.{◌≡◌, ◌<◌, ◌≤◌, ℕ, [], All, IfOk, IfSome, length};
ghost use Rattle.std.specs.List.{range_with_len};
ghost use Rattle.logbook.specs.Pages.{Book};
ghost use Rattle.crowd_data.specs.Scenario.{Parts, controllers_of};
ghost use Rattle.published_frames.specs.declared.reader.FrameReader.{FrameReader};
ghost use Rattle.published_frames.specs.Names.{reader_source, writer_source};
ghost use Rattle.controller_turns.specs.Turns.{goals_of};
ghost use Rattle.live_session.specs.Steering.{AreSteering, IsSteering, controller_of, first_posters, poster_of};

use crate::steered::{Steered, Steering};
use controller_turns::{Controller, Notice, Writes, begin};
use crowd_data::{Goal, Scenario};
use fixed_vec::{List, NoMemory};
use outside_io::Gate;
use post_box::{PostBox, Poster};
use published_frames::FrameReader;
use std::alloc::Global;
use std::sync::Wait;
use std::thread::{Scope, Threads};

// The controller of this number, with its goals in order.
fn controller_for(alloc: Global, goals: &[Goal], number: u32) -> Result<Controller, NoMemory>
    ensures { IfOk result (λ controller. controller ≡ record { number = number; goals = goals_of number goals.now }) }
{
    let mut own = List::with_room(alloc, goals.len())?;
    for goal in goals {
        if goal.controller == number {
            own.push(*goal);
        }
    }
    Ok(Controller::of(number, own))
}

// A controller begins: on a thread of its own, where it has a reader and a thread can be made.
fn start<'s, E, J: Writes + Send + Sync, R: Threads + Wait + Sync, G: Gate + Sync>(
    scope: &'s Scope<'s, E>,
    rt: &'s R,
    gate: &'s G,
    scenario: &Scenario,
    posts: &'s PostBox,
    notice: &'s Notice<J>,
    controller: Controller,
    poster: Poster,
    reader: Option<FrameReader>,
) -> Result<Steering, NoMemory>
    requires controller { controller ≡ controller_of scenario.now controller.number }
    requires poster { poster ≡ poster_of posts.now scenario.now controller.number }
    requires reader { IfSome reader (λ r. reader_source r ≡ (J.book, scenario.now)) }
    ensures { IfOk result (IsSteering posts.now (J.book, scenario.now) [] 0 controller.number) }
{
    let _valid = scenario.goals();
    match reader {
        None => Ok(Steering::Here(Steered {
            controller,
            poster,
            reader: None,
            last: None,
        })),
        Some(reader) => match begin(scope, rt, gate, posts, notice, controller, poster, reader) {
            Ok(thread) => Ok(Steering::OnThread(thread)),
            Err((controller, poster, reader, done)) => match done {
                Ok(last) => Ok(Steering::Here(Steered {
                    controller,
                    poster,
                    reader: Some(reader),
                    last,
                })),
                Err(refused) => Err(refused),
            },
        },
    }
}

// The next reader, if one is left.
fn next_reader(readers: &mut Vec<FrameReader>) -> Option<FrameReader>
    ensures left { (source : Book × Parts) → All (λ (r : FrameReader). reader_source r ≡ source) readers.old.items → All (λ (r : FrameReader). reader_source r ≡ source) readers.new.items }
    ensures next { (source : Book × Parts) → All (λ (r : FrameReader). reader_source r ≡ source) readers.old.items → IfSome result (λ r. reader_source r ≡ source) }
{
    readers.pop()
}

/// All controllers begin. A reader goes to each in order, as long as there are some.
pub(crate) fn start_all<'s, E, J: Writes + Send + Sync, R: Threads + Wait + Sync, G: Gate + Sync>(
    scope: &'s Scope<'s, E>,
    rt: &'s R,
    alloc: Global,
    gate: &'s G,
    scenario: &Scenario,
    posts: &'s PostBox,
    notices: &'s [Notice<J>],
    posters: Vec<Poster>,
    mut readers: Vec<FrameReader>,
) -> Result<Vec<Steering>, NoMemory>
    requires posters { posters.items ≡ first_posters posts.now scenario.now }
    requires notices { length notices.now ≡ controllers_of scenario.now.goals }
    requires readers { All (λ (r : FrameReader). reader_source r ≡ (J.book, scenario.now)) readers.items }
    ensures count { IfOk result (λ list. length list.items ≡ controllers_of scenario.now.goals) }
    ensures steering { IfOk result (λ list. AreSteering posts.now (J.book, scenario.now) [] 0 list.items) }
{
    let Ok(mut list) = Vec::with_capacity(alloc, posters.len()) else {
        return Err(NoMemory);
    };
    let _valid = scenario.goals();
    for poster in posters {
        let notice = &notices[list.len()];
        let controller = controller_for(alloc, scenario.goals(), list.len() as u32)?;
        let steering = start(
            scope,
            rt,
            gate,
            scenario,
            posts,
            notice,
            controller,
            poster,
            next_reader(&mut readers),
        )?;
        list.push_reserved(steering);
    }
    Ok(list)
}
