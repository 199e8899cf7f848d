// Lines of every kind, as the format has them.
ghost use Rattle.frame_text.specs.Printed.{FitsBody};

use crate::texts::{
    has_agents, has_goals, has_posts, has_segments, has_weights, is_same, is_written_as,
};
use crowd_data::{Agent, Body, Frame, Goal, Mark, Post, SCRIPT, ScriptPost, Segment};
use fixed_vec::{List, V2};
use frame_text::{write_end, write_frame};
use outside_io::MemSink;
use std::alloc::Global;
use std::test::Fail;

fn body(mark: Mark) -> Body
    ensures { FitsBody result }
{
    Body {
        agent: 0,
        pos: V2 { x: -1, y: 2 },
        vel: V2 { x: 3, y: -4 },
        pref: V2 { x: 5, y: 6 },
        mark,
        relief: 7,
    }
}

#[test]
fn a_frame_with_a_post(rt: HostRuntime) -> Result<(), Fail> {
    let mut out = MemSink::open(rt.alloc(), 1000, List::with_room(rt.alloc(), 0)?)?;
    let mut bodies = List::with_room(rt.alloc(), 1)?;
    bodies.push(body(Mark::Fallback));
    let frame = Frame { number: 9, bodies };
    let post = Post {
        controller: SCRIPT,
        seq: 1,
        agent: 0,
        vel: V2 { x: 0, y: 100 },
    };
    write_frame(&mut out, &frame, &[post])?;
    write_end(&mut out, 9)?;
    assert_eq!(rt;
        out.held(),
        b"frame,9\ntake,16,1,0,0,100\nbody,0,-1,2,3,-4,5,6,fallback,7\nend,9\n".as_slice()
    );
    Ok(())
}

// Frame 0 with one body that has this mark. Its callers learn nothing of it, so that no proof computes on the text.
fn frame_of(alloc: Global, mark: Mark) -> Result<MemSink, Fail> {
    let mut out = MemSink::open(alloc, 1000, List::with_room(alloc, 0)?)?;
    let mut bodies = List::with_room(alloc, 1)?;
    bodies.push(body(mark));
    write_frame(&mut out, &Frame { number: 0, bodies }, &[])?;
    Ok(out)
}

#[test]
fn marks(rt: HostRuntime) -> Result<(), Fail> {
    let alloc = rt.alloc();
    assert!(rt;
        is_same(
            frame_of(alloc, Mark::Start)?.held(),
            b"frame,0\nbody,0,-1,2,3,-4,5,6,start,7\n"
        )
    );
    assert!(rt;
        is_same(
            frame_of(alloc, Mark::Feasible)?.held(),
            b"frame,0\nbody,0,-1,2,3,-4,5,6,feasible,7\n"
        )
    );
    assert!(rt;
        is_same(
            frame_of(alloc, Mark::Stopped)?.held(),
            b"frame,0\nbody,0,-1,2,3,-4,5,6,stopped,7\n"
        )
    );
    assert!(rt;
        is_same(
            frame_of(alloc, Mark::Crowded)?.held(),
            b"frame,0\nbody,0,-1,2,3,-4,5,6,crowded,7\n"
        )
    );
    Ok(())
}

#[test]
fn records_of_a_scenario(rt: HostRuntime) -> Result<(), Fail> {
    let text =
        b"crowd,1\nsteps,5\nagent,-1,2,3,-4,5,6,7,8,9,10,11,12\nsegment,-100,200,300,-400\npost,5,0,-1,2\ngoal,7,0,3,-4,8\n".as_slice();
    let agent = Agent {
        pos: V2 { x: -1, y: 2 },
        vel: V2 { x: 3, y: -4 },
        pref: V2 { x: 5, y: 6 },
        radius: 7,
        speed: 8,
        range: 9,
        most: 10,
        horizon: 11,
        wall_horizon: 12,
        weight: 1,
    };
    let segment = Segment {
        a: V2 { x: -100, y: 200 },
        b: V2 { x: 300, y: -400 },
    };
    let post = ScriptPost {
        frame: 5,
        agent: 0,
        vel: V2 { x: -1, y: 2 },
    };
    let goal = Goal {
        controller: 7,
        agent: 0,
        at: V2 { x: 3, y: -4 },
        pace: 8,
    };
    assert!(rt; has_agents(rt.alloc(), text, &[agent])?);
    assert!(rt; has_segments(rt.alloc(), text, &[segment])?);
    assert!(rt; has_posts(rt.alloc(), text, &[post])?);
    assert!(rt; has_goals(rt.alloc(), text, &[goal])?);
    assert!(rt; is_written_as(rt.alloc(), text, text)?);
    Ok(())
}

#[test]
fn agent_of_version_2(rt: HostRuntime) -> Result<(), Fail> {
    let text = b"crowd,2\nsteps,0\nagent,-1,2,3,-4,5,6,7,8,9,10,11,12,13\n".as_slice();
    assert!(rt; has_weights(rt.alloc(), text, &[13])?);
    assert!(rt; is_written_as(rt.alloc(), text, text)?);
    Ok(())
}
