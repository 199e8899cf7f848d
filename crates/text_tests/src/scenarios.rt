// Scenarios, and inputs that stand for none.
use crate::texts::{
    Refusal, at, controllers_of, fault_of, first_not_refused, has_agents, has_goals, has_posts,
    has_segments, head_of, is_accepted, is_refused, part_fault_of, part_head_of,
};
use crowd_data::{Agent, Goal, ScriptPost, Segment};
use fixed_vec::V2;
use scenario_read::Cause;
use std::alloc::Global;
use std::test::Fail;

#[test]
fn reads_an_agent(rt: HostRuntime) -> Result<(), Fail> {
    let text: &[u8] = b"crowd,1\nsteps,7\nagent,-4194304,4194304,1,-2,3,-0,500,400,15000,0,10,4\n";
    let agent = Agent {
        pos: V2 {
            x: -4_194_304,
            y: 4_194_304,
        },
        vel: V2 { x: 1, y: -2 },
        pref: V2 { x: 3, y: 0 },
        radius: 500,
        speed: 400,
        range: 15_000,
        most: 0,
        horizon: 10,
        wall_horizon: 4,
        weight: 1,
    };
    assert_eq!(rt; head_of(rt.alloc(), text)?, [1, 36, 7]);
    assert!(rt; has_agents(rt.alloc(), text, &[agent])?);
    Ok(())
}

const ORIGIN: V2 = V2 { x: 0, y: 0 };

const ONE_AGENT: &[u8] = b"crowd,1\nsteps,1\nagent,0,0,0,0,300,0,500,400,15000,0,10,4\n";

#[test]
fn reads_agents_and_segments_in_any_order(rt: HostRuntime) -> Result<(), Fail> {
    let text: &[u8] =
        b"\xef\xbb\xbfcrowd,\"1\"\r\nsegment,-2000,800,2000,800\r\n\r\nagent,0,0,0,0,-0,0300,500,400,15000,10,10,4\nsteps,000000000000000007\nsegment,1,-3000,1,-3000";
    let agent = Agent {
        pos: ORIGIN,
        vel: ORIGIN,
        pref: V2 { x: 0, y: 300 },
        radius: 500,
        speed: 400,
        range: 15_000,
        most: 10,
        horizon: 10,
        wall_horizon: 4,
        weight: 1,
    };
    let wall = Segment {
        a: V2 { x: -2000, y: 800 },
        b: V2 { x: 2000, y: 800 },
    };
    let point = V2 { x: 1, y: -3000 };
    let post = Segment { a: point, b: point };
    assert_eq!(rt; head_of(rt.alloc(), text)?, [1, 36, 7]);
    assert!(rt; has_agents(rt.alloc(), text, &[agent])?);
    assert!(rt; has_segments(rt.alloc(), text, &[wall, post])?);
    Ok(())
}

#[test]
fn names_the_first_cause(rt: HostRuntime) {
    let rows: [Refusal; 14] = [
        (b"", 0, Cause::NoHeader),
        (b"crowd,1,1\nsteps,1", 0, Cause::NoHeader),
        (b"crowd,1\n", 1, Cause::NoSteps),
        (b"crowd,1\nsteps,1\ntree,1", 2, Cause::UnknownKind),
        (b"crowd,1\nsteps,1\ncrowd,1", 2, Cause::UnknownKind),
        (b"crowd,1\nsteps,1\nagent,0,0", 2, Cause::FieldCount),
        (b"crowd,1\nsteps,x", 1, Cause::NotANumber { field: 1 }),
        (b"crowd,1\nsteps,-", 1, Cause::NotANumber { field: 1 }),
        (b"crowd,1\nsteps,+1", 1, Cause::NotANumber { field: 1 }),
        (
            b"crowd,1\nsteps,0000000000000000001",
            1,
            Cause::NotANumber { field: 1 },
        ),
        (b"crowd,1\nsteps,100001", 1, Cause::OutOfRange { field: 1 }),
        (b"crowd,1\nsteps,1\nsteps,1", 2, Cause::StepsTwice),
        (
            b"crowd,1\nsteps,1\nsteps,-1",
            2,
            Cause::OutOfRange { field: 1 },
        ),
        (
            b"crowd,1\nsteps,1\nsegment,0,0,0,4194305",
            2,
            Cause::OutOfRange { field: 4 },
        ),
    ];
    assert_eq!(rt; first_not_refused(rt.alloc(), &rows), None);
}

// Whether a text is refused at its end for this agent on this segment.
fn is_on(alloc: Global, input: &[u8], agent: u32, segment: u32) -> bool {
    is_refused(alloc, input, 6, Cause::AgentOnSegment { agent, segment })
}

#[test]
fn keeps_the_limits_of_an_agent(rt: HostRuntime) {
    let rows: [Refusal; 9] = [
        (
            b"crowd,1\nsteps,1\nagent,4194305,0,0,0,0,0,500,400,15000,0,10,4",
            2,
            Cause::OutOfRange { field: 1 },
        ),
        (
            b"crowd,1\nsteps,1\nagent,0,0,0,-16385,0,0,500,400,15000,0,10,4",
            2,
            Cause::OutOfRange { field: 4 },
        ),
        (
            b"crowd,1\nsteps,1\nagent,0,0,0,0,0,0,0,400,15000,0,10,4",
            2,
            Cause::OutOfRange { field: 7 },
        ),
        (
            b"crowd,1\nsteps,1\nagent,0,0,0,0,0,0,500,16385,15000,0,10,4",
            2,
            Cause::OutOfRange { field: 8 },
        ),
        (
            b"crowd,1\nsteps,1\nagent,0,0,0,0,0,0,500,400,65537,0,10,4",
            2,
            Cause::OutOfRange { field: 9 },
        ),
        (
            b"crowd,1\nsteps,1\nagent,0,0,0,0,0,0,500,400,15000,65,10,4",
            2,
            Cause::OutOfRange { field: 10 },
        ),
        (
            b"crowd,1\nsteps,1\nagent,0,0,0,0,0,0,500,400,15000,0,0,4",
            2,
            Cause::OutOfRange { field: 11 },
        ),
        (
            b"crowd,1\nsteps,1\nagent,0,0,0,0,0,0,500,400,15000,0,4097,4",
            2,
            Cause::OutOfRange { field: 11 },
        ),
        (
            b"crowd,1\nsteps,1\nagent,0,0,0,0,0,0,32769,16385,0,0,0,0",
            2,
            Cause::OutOfRange { field: 7 },
        ),
    ];
    assert_eq!(rt; first_not_refused(rt.alloc(), &rows), None);
}

#[test]
fn cuts_at_every_byte(rt: HostRuntime) {
    for size in 0..ONE_AGENT.len() {
        let wanted = match size {
            0..=6 => at(0, Cause::NoHeader),
            7 | 8 => at(1, Cause::NoSteps),
            9..=12 => at(1, Cause::UnknownKind),
            13 => at(1, Cause::FieldCount),
            14 => at(1, Cause::NotANumber { field: 1 }),
            17..=20 => at(2, Cause::UnknownKind),
            21..=54 => at(2, Cause::FieldCount),
            55 => at(2, Cause::NotANumber { field: 12 }),
            _ => None,
        };
        assert_eq!(rt;
            fault_of(rt.alloc(), &ONE_AGENT[..size]),
            wanted,
            "cut after {size}"
        );
    }
}

#[test]
fn names_the_least_agent_on_the_least_segment(rt: HostRuntime) {
    let alloc = rt.alloc();
    assert!(rt;
        is_refused(
            alloc,
            b"crowd,1\nsteps,1\nagent,0,0,0,0,0,0,500,400,15000,10,10,4\nsegment,-2000,499,2000,499",
            4,
            Cause::AgentOnSegment {
                agent: 0,
                segment: 0
            }
        )
    );
    assert!(rt;
        is_accepted(
            alloc,
            b"crowd,1\nsteps,1\nagent,0,0,0,0,0,0,500,400,15000,10,10,4\nsegment,-2000,500,2000,500"
        )
    );
    assert!(rt;
        is_on(
            alloc,
            b"crowd,1\nsteps,1\nagent,0,0,0,0,0,0,500,400,0,0,10,4\nagent,0,5000,0,0,0,0,500,400,0,0,10,4\nsegment,9000,0,9000,1\nsegment,0,5100,0,5100",
            1,
            1
        )
    );
    assert!(rt;
        is_on(
            alloc,
            b"crowd,1\nsteps,1\nagent,0,5000,0,0,0,0,500,400,0,0,10,4\nagent,0,0,0,0,0,0,500,400,0,0,10,4\nsegment,0,0,0,0\nsegment,0,5100,0,5100",
            0,
            1
        )
    );
}

#[test]
fn reads_posts_and_goals_among_agents(rt: HostRuntime) -> Result<(), Fail> {
    let text: &[u8] =
        b"crowd,1\nsteps,5\nagent,0,0,0,0,0,0,500,400,0,0,10,4\ngoal,15,0,-4194304,7,16384\npost,1,0,-16384,3\nagent,9,9,0,0,0,0,500,400,0,0,10,4\npost,1,1,0,0\npost,5,0,2,1\ngoal,0,1,8,9,0\n";
    let posts = [
        ScriptPost {
            frame: 1,
            agent: 0,
            vel: V2 { x: -16_384, y: 3 },
        },
        ScriptPost {
            frame: 1,
            agent: 1,
            vel: ORIGIN,
        },
        ScriptPost {
            frame: 5,
            agent: 0,
            vel: V2 { x: 2, y: 1 },
        },
    ];
    let goals = [
        Goal {
            controller: 15,
            agent: 0,
            at: V2 {
                x: -4_194_304,
                y: 7,
            },
            pace: 16_384,
        },
        Goal {
            controller: 0,
            agent: 1,
            at: V2 { x: 8, y: 9 },
            pace: 0,
        },
    ];
    assert!(rt; has_posts(rt.alloc(), text, &posts)?);
    assert!(rt; has_goals(rt.alloc(), text, &goals)?);
    assert_eq!(rt; controllers_of(rt.alloc(), text)?, 16);
    Ok(())
}

#[test]
fn keeps_the_limits_of_posts_and_goals(rt: HostRuntime) {
    let rows: [Refusal; 12] = [
        (
            b"crowd,1\nsteps,1\npost,0,0,0,0",
            2,
            Cause::OutOfRange { field: 1 },
        ),
        (
            b"crowd,1\nsteps,1\npost,100001,0,0,0",
            2,
            Cause::OutOfRange { field: 1 },
        ),
        (
            b"crowd,1\nsteps,1\npost,1,10000,0,0",
            2,
            Cause::OutOfRange { field: 2 },
        ),
        (
            b"crowd,1\nsteps,1\npost,1,0,16385,0",
            2,
            Cause::OutOfRange { field: 3 },
        ),
        (
            b"crowd,1\nsteps,1\npost,1,0,0,-16385",
            2,
            Cause::OutOfRange { field: 4 },
        ),
        (
            b"crowd,1\nsteps,1\ngoal,16,0,0,0,0",
            2,
            Cause::OutOfRange { field: 1 },
        ),
        (
            b"crowd,1\nsteps,1\ngoal,0,10000,0,0,0",
            2,
            Cause::OutOfRange { field: 2 },
        ),
        (
            b"crowd,1\nsteps,1\ngoal,0,0,4194305,0,0",
            2,
            Cause::OutOfRange { field: 3 },
        ),
        (
            b"crowd,1\nsteps,1\ngoal,0,0,0,0,16385",
            2,
            Cause::OutOfRange { field: 5 },
        ),
        (b"crowd,1\nsteps,1\npost,1,0,0", 2, Cause::FieldCount),
        (b"crowd,1\nsteps,1\ngoal,0,0,0,0", 2, Cause::FieldCount),
        (
            b"crowd,1\nsteps,1\ngoal,0,x,0,0,0",
            2,
            Cause::NotANumber { field: 2 },
        ),
    ];
    assert_eq!(rt; first_not_refused(rt.alloc(), &rows), None);
}

#[test]
fn names_the_first_cause_of_a_post(rt: HostRuntime) {
    let rows: [Refusal; 5] = [
        (b"crowd,1\npost,1,0,0,0\nsteps,1", 1, Cause::NoSteps),
        (
            b"crowd,1\nsteps,1\npost,2,0,0,0",
            2,
            Cause::OutOfRange { field: 1 },
        ),
        (b"crowd,1\nsteps,1\npost,1,0,0,0", 2, Cause::NoSuchAgent),
        (
            b"crowd,1\nsteps,5\nagent,0,0,0,0,0,0,500,400,15000,10,10,4\npost,3,0,0,0\npost,2,1,0,0",
            4,
            Cause::NoSuchAgent,
        ),
        (
            b"crowd,1\nsteps,5\nagent,0,0,0,0,0,0,500,400,15000,10,10,4\npost,3,0,0,0\npost,2,0,0,0",
            4,
            Cause::PostOrder,
        ),
    ];
    assert_eq!(rt; first_not_refused(rt.alloc(), &rows), None);
}

#[test]
fn names_the_first_cause_of_a_goal(rt: HostRuntime) {
    let rows: [Refusal; 2] = [
        (b"crowd,1\ngoal,0,0,0,0,0\nagent", 1, Cause::NoSuchAgent),
        (
            b"crowd,1\nsteps,1\nagent,0,0,0,0,0,0,500,400,15000,10,10,4\ngoal,0,0,9,9,5\ngoal,1,0,9,9,5",
            4,
            Cause::GoalTwice,
        ),
    ];
    assert_eq!(rt; first_not_refused(rt.alloc(), &rows), None);
}

#[test]
fn takes_no_more_posts_than_there_may_be(rt: HostRuntime) -> Result<(), Fail> {
    let mut input: Vec<u8> = Vec::new(rt.alloc());
    input.extend_from_slice(b"crowd,1\nsteps,1\nagent,0,0,0,0,0,0,500,400,15000,10,10,4\n")?;
    for _ in 0..100_000u32 {
        input.extend_from_slice(b"post,1,0,0,0\n")?;
    }
    assert!(rt; is_accepted(rt.alloc(), input.as_slice()));
    input.extend_from_slice(b"post,2,0,0,0\n")?;
    assert!(rt; is_refused(rt.alloc(), input.as_slice(), 100_003, Cause::TooMany));
    Ok(())
}

#[test]
fn reads_the_part_before_a_kind(rt: HostRuntime) -> Result<(), Fail> {
    let text = b"crowd,1\nsteps,3\nframe,0\nsteps,4\n";
    assert_eq!(rt; part_head_of(rt.alloc(), text, "frame")?, [2, 3]);
    assert_eq!(rt;
        part_head_of(rt.alloc(), b"crowd,1\nsteps,3\n", "frame")?,
        [2, 3]
    );
    assert_eq!(rt;
        part_fault_of(rt.alloc(), b"frame,0\ncrowd,1\n", "frame"),
        at(0, Cause::NoHeader)
    );
    Ok(())
}

#[test]
fn takes_no_more_agents_than_there_may_be(rt: HostRuntime) -> Result<(), Fail> {
    let mut input: Vec<u8> = Vec::new(rt.alloc());
    input.extend_from_slice(b"crowd,1\nsteps,1\n")?;
    for _ in 0..10_000u32 {
        input.extend_from_slice(b"agent,0,0,0,0,0,0,500,400,0,0,10,4\n")?;
    }
    assert!(rt; is_accepted(rt.alloc(), input.as_slice()));
    input.extend_from_slice(b"agent,0,0,0,0,0,0,500,400,0,0,10,4\n")?;
    assert!(rt; is_refused(rt.alloc(), input.as_slice(), 10_002, Cause::TooMany));
    Ok(())
}
