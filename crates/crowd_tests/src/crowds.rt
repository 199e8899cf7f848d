// Scenarios that stand for themselves, and their first frames.
use crate::scenarios::scenario_of;
use crowd_data::{
    Agent, Body, FINE_RING, Goal, Mark, PLAIN_RING, Segment, clear, first_frame, valid,
};
use fixed_vec::V2;
use std::alloc::Global;
use std::test::Fail;

const EACH_ITS_OWN: Agent = Agent {
    pos: V2 { x: 1, y: 2 },
    vel: V2 { x: 3, y: 4 },
    pref: V2 { x: 5, y: 6 },
    radius: 7,
    speed: 8,
    range: 9,
    most: 10,
    horizon: 11,
    wall_horizon: 12,
    weight: 13,
};

// The version, the ring and the count of controllers of a scenario of one agent with a goal.
fn head_of(alloc: Global, ring: u32, agent: Agent, goal: Goal) -> Result<[u32; 3], Fail> {
    let scenario = scenario_of(alloc, ring, &[agent], &[], &[goal])?;
    Ok([scenario.version(), scenario.ring(), scenario.controllers()])
}

// Whether one agent's body is this one in frame 0.
fn begins_as(alloc: Global, agent: Agent, body: Body) -> Result<bool, Fail> {
    let frame = first_frame(alloc, &scenario_of(alloc, PLAIN_RING, &[agent], &[], &[])?)?;
    Ok(frame.number == 0 && frame.bodies.items() == [body].as_slice())
}

#[test]
fn scenario_has_its_numbers(rt: HostRuntime) -> Result<(), Fail> {
    let goal = Goal {
        controller: 3,
        agent: 0,
        at: V2 { x: 0, y: 0 },
        pace: 1,
    };
    let head = head_of(rt.alloc(), FINE_RING, EACH_ITS_OWN, goal)?;
    assert_eq!(rt; head, [2, 60, 4]);
    Ok(())
}

#[test]
fn first_frame_has_the_agents_as_they_are(rt: HostRuntime) -> Result<(), Fail> {
    let body = Body {
        agent: 0,
        pos: V2 { x: 1, y: 2 },
        vel: V2 { x: 3, y: 4 },
        pref: V2 { x: 5, y: 6 },
        mark: Mark::Start,
        relief: 0,
    };
    assert!(rt; begins_as(rt.alloc(), EACH_ITS_OWN, body)?);
    Ok(())
}

const STANDING: Agent = Agent {
    pos: V2 { x: 0, y: 0 },
    vel: V2 { x: 0, y: 0 },
    pref: V2 { x: 0, y: 0 },
    radius: 500,
    speed: 400,
    range: 15000,
    most: 10,
    horizon: 10,
    wall_horizon: 10,
    weight: 1,
};

#[test]
fn versions_have_their_rings_and_weights(rt: HostRuntime) {
    // (version, ring, weight, valid)
    let scenarios = [
        (1, 36, 1, true),
        (1, 36, 2, false),
        (1, 60, 1, false),
        (2, 36, 1, true),
        (2, 60, 16, true),
        (2, 60, 17, false),
        (2, 60, 0, false),
        (2, 48, 1, false),
        (0, 36, 1, false),
        (3, 36, 1, false),
    ];
    for (version, ring, weight, want) in scenarios {
        let agents = [Agent { weight, ..STANDING }];
        assert_eq!(rt; valid(version, ring, 0, &agents, &[], &[], &[]), want);
    }
}

#[test]
fn discs_clear_of_segments_by_hand(rt: HostRuntime) {
    // (radius of a disc at the origin, one end, the other end, clear)
    let walls = [
        // touched beside
        (500, V2 { x: -2000, y: 500 }, V2 { x: 2000, y: 500 }, true),
        (500, V2 { x: -2000, y: 499 }, V2 { x: 2000, y: 499 }, false),
        // slanted: on 4x - 3y = 2500, touched at (400, -300), and on 4x - 3y = 2496
        (500, V2 { x: 100, y: -700 }, V2 { x: 700, y: 100 }, true),
        (501, V2 { x: 100, y: -700 }, V2 { x: 700, y: 100 }, false),
        (500, V2 { x: 99, y: -700 }, V2 { x: 699, y: 100 }, false),
        // one point
        (500, V2 { x: 300, y: 400 }, V2 { x: 300, y: 400 }, true),
        (500, V2 { x: 300, y: 399 }, V2 { x: 300, y: 399 }, false),
        // on a line through the centre, touched at an end
        (500, V2 { x: 500, y: 0 }, V2 { x: 2000, y: 0 }, true),
        (501, V2 { x: 500, y: 0 }, V2 { x: 2000, y: 0 }, false),
        (500, V2 { x: 2000, y: 0 }, V2 { x: 500, y: 0 }, true),
        (501, V2 { x: 2000, y: 0 }, V2 { x: 500, y: 0 }, false),
    ];
    for (radius, a, b, want) in walls {
        assert_eq!(rt; clear(V2 { x: 0, y: 0 }, radius, &Segment { a, b }), want);
    }
}
