// Summaries of frames that are made by hand.
ghost use Rattle.std.specs.Prelude.{◌≡◌, [], ◌∷◌, IfOk, ◌≤◌, ◌^◌, All, length};
ghost use Rattle.fixed_vec.specs.Vector.{IsBelow};
ghost use Rattle.crowd_data.specs.declared.frame.Body.{Body};
ghost use Rattle.crowd_data.specs.declared.limits.TheConstants.{MOST_AGENTS, MOST_STEPS};

use crowd_data::{Agent, Body, FIRST_VERSION, Frame, Mark, PLAIN_RING, Scenario};
use fixed_vec::{List, NoMemory, V2};
use outside_io::MemSink;
use run_summary::{Summary, write_summary};
use std::alloc::Global;
use std::test::Fail;

const ORIGIN: V2 = V2 { x: 0, y: 0 };

const STANDING: Agent = Agent {
    pos: V2 { x: 3, y: -4 },
    vel: ORIGIN,
    pref: ORIGIN,
    radius: 500,
    speed: 400,
    range: 15000,
    most: 10,
    horizon: 10,
    wall_horizon: 4,
    weight: 1,
};

const BODY: Body = Body {
    agent: 0,
    pos: ORIGIN,
    vel: ORIGIN,
    pref: ORIGIN,
    mark: Mark::Feasible,
    relief: 0,
};

fn frame_of(
    alloc: Global,
    number: u32,
    a: Body,
    b: Body,
    c: Body,
    d: Body,
    e: Body,
) -> Result<Frame, NoMemory>
    ensures { IfOk result (λ frame. frame.bodies.items ≡ a ∷ b ∷ c ∷ d ∷ e ∷ []) }
{
    let mut bodies = List::with_room(alloc, 5)?;
    bodies.push(a);
    bodies.push(b);
    bodies.push(c);
    bodies.push(d);
    bodies.push(e);
    Ok(Frame { number, bodies })
}

fn scenario_of(alloc: Global, steps: u32) -> Result<Scenario, NoMemory>
    requires { steps ≤ MOST_STEPS }
{
    let mut agents = List::with_room(alloc, 1)?;
    agents.push(STANDING);
    Ok(Scenario::of(
        FIRST_VERSION,
        PLAIN_RING,
        steps,
        agents,
        List::with_room(alloc, 0)?,
        List::with_room(alloc, 0)?,
        List::with_room(alloc, 0)?,
    ))
}

// The callers learn nothing of these helpers, so that no proof computes on the text.

fn text_of(alloc: Global, steps: u32, summary: &Summary, last: &Frame) -> Result<MemSink, Fail>
    requires steps { steps ≤ MOST_STEPS }
    requires few { length last.now.bodies.items ≤ MOST_AGENTS }
    requires small { All (λ (body : Body). IsBelow body.pos (2 ^ 31)) last.now.bodies.items }
{
    let scenario = scenario_of(alloc, steps)?;
    let mut out = MemSink::open(alloc, 100, List::with_room(alloc, 0)?)?;
    write_summary(&mut out, &scenario, summary, last)?;
    Ok(out)
}

fn text_of_two(alloc: Global, first: &Frame, last: &Frame) -> Result<MemSink, Fail>
    requires few_first { length first.now.bodies.items ≤ MOST_AGENTS }
    requires few_last { length last.now.bodies.items ≤ MOST_AGENTS }
    requires small { All (λ (body : Body). IsBelow body.pos (2 ^ 31)) last.now.bodies.items }
{
    let mut summary = Summary::empty();
    summary.add(first);
    summary.add(last);
    text_of(alloc, 2, &summary, last)
}

// Ten bodies in two frames, for a scenario of one agent: four feasible, three fallback, one stopped, two crowded.
#[test]
fn two_frames(rt: HostRuntime) -> Result<(), Fail> {
    let first = frame_of(
        rt.alloc(),
        1,
        BODY,
        BODY,
        Body {
            mark: Mark::Fallback,
            relief: 9,
            ..BODY
        },
        Body {
            mark: Mark::Crowded,
            relief: 4,
            ..BODY
        },
        Body {
            mark: Mark::Crowded,
            pos: V2 { x: 1, y: 1 },
            ..BODY
        },
    )?;
    let last = frame_of(
        rt.alloc(),
        2,
        Body {
            pos: V2 {
                x: -5,
                y: 2_000_000_000,
            },
            ..BODY
        },
        Body {
            pos: V2 {
                x: -7,
                y: 2_000_000_000,
            },
            ..BODY
        },
        Body {
            mark: Mark::Fallback,
            relief: 2,
            pos: V2 { x: 4, y: 30 },
            ..BODY
        },
        Body {
            mark: Mark::Fallback,
            relief: 1,
            pos: V2 { x: 0, y: -1 },
            ..BODY
        },
        Body {
            mark: Mark::Stopped,
            ..BODY
        },
    )?;
    let out = text_of_two(rt.alloc(), &first, &last)?;
    assert_eq!(rt;
        out.held(),
        b"soak,2,1,4,3,1,2,9,-8,4000000029\n".as_slice()
    );
    Ok(())
}

#[test]
fn no_steps(rt: HostRuntime) -> Result<(), Fail> {
    let last = frame_of(rt.alloc(), 0, BODY, BODY, BODY, BODY, BODY)?;
    let out = text_of(rt.alloc(), 0, &Summary::empty(), &last)?;
    assert_eq!(rt; out.held(), b"soak,0,1,0,0,0,0,0,0,0\n".as_slice());
    Ok(())
}
