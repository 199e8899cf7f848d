// Generated scenarios, by numbers drawn by hand.
ghost use Rattle.std.specs.Prelude.{◌≡◌};
ghost use Rattle.scenario_read.specs.Generator.{next_state};

use crowd_data::{Agent, Goal, MOST_STEPS, Scenario, ScriptPost, Segment};
use fixed_vec::V2;
use scenario_read::generate;
use std::alloc::Global;
use std::test::Fail;

// The first states from the number 0, by the definition of the generator.
fn first_states()
    ensures first { next_state 0 ≡ 74 }
    ensures second { next_state 74 ≡ 5624 }
    ensures third { next_state 5624 ≡ 28652 }
    ensures fourth { next_state 28652 ≡ 51790 }
    ensures fifth { next_state 51790 ≡ 17641 }
    ensures sixth { next_state 17641 ≡ 12409 }
{}

#[test]
fn states_follow_each_other() {
    first_states();
}

// The scenario of one agent, from the number 0.
fn one_agent(alloc: Global, steps: u32) -> Result<Scenario, Fail> {
    if steps > MOST_STEPS {
        Err::<(), &str>("a test asks for too much")?;
    }
    Ok(generate(alloc, 0, 1, steps)?)
}

// Whether that agent is this one.
fn is_agent(alloc: Global, steps: u32, wanted: Agent) -> Result<bool, Fail> {
    Ok(one_agent(alloc, steps)?.agents() == [wanted].as_slice())
}

// Whether it stands among these segments.
fn has_segments(alloc: Global, steps: u32, wanted: &[Segment]) -> Result<bool, Fail> {
    Ok(one_agent(alloc, steps)?.segments() == wanted)
}

// Whether these are its posts.
fn has_posts(alloc: Global, steps: u32, wanted: &[ScriptPost]) -> Result<bool, Fail> {
    Ok(one_agent(alloc, steps)?.posts() == wanted)
}

// Whether this is its goal.
fn has_goal(alloc: Global, steps: u32, wanted: Goal) -> Result<bool, Fail> {
    Ok(one_agent(alloc, steps)?.goals() == [wanted].as_slice())
}

// How many steps there are.
fn steps_of(alloc: Global, steps: u32) -> Result<u32, Fail> {
    Ok(one_agent(alloc, steps)?.steps())
}

#[test]
fn one_agent_without_steps(rt: HostRuntime) -> Result<(), Fail> {
    let agent = Agent {
        pos: V2 { x: -2426, y: -1881 },
        vel: V2 { x: 0, y: 0 },
        pref: V2 { x: 198, y: 179 },
        radius: 595,
        speed: 333,
        range: 15_000,
        most: 10,
        horizon: 40,
        wall_horizon: 10,
        weight: 1,
    };
    let goal = Goal {
        controller: 0,
        agent: 0,
        at: V2 { x: 2426, y: 1881 },
        pace: 333,
    };
    assert_eq!(rt; steps_of(rt.alloc(), 0)?, 0);
    assert!(rt; is_agent(rt.alloc(), 0, agent)?);
    assert!(rt; has_posts(rt.alloc(), 0, &[])?);
    assert!(rt; has_goal(rt.alloc(), 0, goal)?);
    Ok(())
}

#[test]
fn one_agent_among_four_segments(rt: HostRuntime) -> Result<(), Fail> {
    let corners = [
        V2 { x: -5000, y: -5000 },
        V2 { x: 5000, y: -5000 },
        V2 { x: 5000, y: 5000 },
        V2 { x: -5000, y: 5000 },
    ];
    let square = [
        Segment {
            a: corners[0],
            b: corners[1],
        },
        Segment {
            a: corners[1],
            b: corners[2],
        },
        Segment {
            a: corners[2],
            b: corners[3],
        },
        Segment {
            a: corners[3],
            b: corners[0],
        },
    ];
    assert!(rt; has_segments(rt.alloc(), 0, &square)?);
    Ok(())
}

#[test]
fn a_post_for_the_tenth_frame(rt: HostRuntime) -> Result<(), Fail> {
    let post = ScriptPost {
        frame: 10,
        agent: 0,
        vel: V2 { x: -79, y: -9 },
    };
    assert!(rt; has_posts(rt.alloc(), 19, &[post])?);
    Ok(())
}
