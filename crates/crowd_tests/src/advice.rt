// Agents alone and among others, with expected advice by hand.
ghost use Rattle.std.specs.Prelude.{◌<◌, IfOk, length};
ghost use Rattle.crowd_data.specs.Limits.{IsVelocity};

use crate::scenarios::scenario_of;
use agent_step::{Advice, FrozenCrowd, Scratch, advise, open_fixed, open_places};
use crowd_data::{Agent, FINE_RING, Mark, PLAIN_RING, Scenario, Segment, first_frame};
use fixed_vec::{V2, dot};
use std::alloc::Global;
use std::test::Fail;

const ORIGIN: V2 = V2 { x: 0, y: 0 };

const EAST: V2 = V2 { x: 300, y: 0 };

const WALKER: Agent = Agent {
    pos: ORIGIN,
    vel: ORIGIN,
    pref: EAST,
    radius: 500,
    speed: 400,
    range: 15000,
    most: 10,
    horizon: 10,
    wall_horizon: 4,
    weight: 1,
};

// The advice of the agent with this number in the first frame.
fn first_advice(alloc: Global, scenario: &Scenario, who: usize) -> Result<Advice, Fail>
    requires who { who < length scenario.now.agents }
    ensures slow { IfOk result (λ a. IsVelocity a.vel) }
{
    let (polygons, walls) = open_fixed(alloc, scenario)?;
    let (places, tree) = open_places(alloc, scenario.agents())?;
    let mut scratch = Scratch::open(alloc, scenario.segments().len())?;
    let frame = first_frame(alloc, scenario)?;
    let crowd = FrozenCrowd::of(scenario, &frame, &polygons, &walls, places.items(), &tree);
    Ok(advise(&crowd, who, &mut scratch))
}

// The advice of one of these agents among segments, the speed polygons being made by this ring.
fn advice_in(
    alloc: Global,
    ring: u32,
    crowd: &[Agent],
    segments: &[Segment],
    who: usize,
) -> Result<Advice, Fail>
    ensures slow { IfOk result (λ a. IsVelocity a.vel) }
{
    let scenario = scenario_of(alloc, ring, crowd, segments, &[])?;
    if who < scenario.agents().len() {
        first_advice(alloc, &scenario, who)
    } else {
        Ok(Err::<Advice, &str>("a test asks for what is no agent")?)
    }
}

// The advice of an agent that is alone among segments.
fn alone(alloc: Global, ring: u32, agent: Agent, segments: &[Segment]) -> Result<Advice, Fail>
    ensures slow { IfOk result (λ a. IsVelocity a.vel) }
{
    advice_in(alloc, ring, &[agent], segments, 0)
}

// The advice of one of these agents, which have no walls.
fn among(alloc: Global, crowd: &[Agent], who: usize) -> Result<Advice, Fail> {
    advice_in(alloc, PLAIN_RING, crowd, &[], who)
}

// The advice of a walker that looks for no neighbours, with another walker at a place.
fn beside(alloc: Global, pos: V2) -> Result<Advice, Fail> {
    let first = Agent { most: 0, ..WALKER };
    let second = Agent { pos, ..WALKER };
    among(alloc, &[first, second], 0)
}

// The advice of each of two agents.
fn two(alloc: Global, a: Agent, b: Agent) -> Result<[Advice; 2], Fail> {
    let crowd = [a, b];
    Ok([among(alloc, &crowd, 0)?, among(alloc, &crowd, 1)?])
}

// The advice of each of three agents.
fn three(alloc: Global, a: Agent, b: Agent, c: Agent) -> Result<[Advice; 3], Fail> {
    let crowd = [a, b, c];
    let first = among(alloc, &crowd, 0)?;
    let second = among(alloc, &crowd, 1)?;
    Ok([first, second, among(alloc, &crowd, 2)?])
}

fn walker(pos: V2, vel: V2, pref: V2) -> Agent {
    Agent {
        pos,
        vel,
        pref,
        ..WALKER
    }
}

fn with_speed(agent: Agent, speed: u32) -> Agent {
    Agent { speed, ..agent }
}

fn with_weight(agent: Agent, weight: u32) -> Agent {
    Agent { weight, ..agent }
}

fn considering_one(agent: Agent) -> Agent {
    Agent { most: 1, ..agent }
}

fn feasible(vel: V2) -> Advice {
    Advice {
        vel,
        mark: Mark::Feasible,
        relief: 0,
    }
}

fn fallback(vel: V2, relief: u32) -> Advice {
    Advice {
        vel,
        mark: Mark::Fallback,
        relief,
    }
}

fn crowded(vel: V2) -> Advice {
    Advice {
        vel,
        mark: Mark::Crowded,
        relief: 0,
    }
}

#[test]
fn walks_alone(rt: HostRuntime) -> Result<(), Fail> {
    let advice = alone(rt.alloc(), PLAIN_RING, WALKER, &[])?;
    assert_eq!(rt; advice, feasible(EAST));
    Ok(())
}

#[test]
fn stops_at_a_corner_of_its_polygon(rt: HostRuntime) -> Result<(), Fail> {
    let slow = Agent {
        pref: V2 { x: 1000, y: 0 },
        speed: 66,
        ..WALKER
    };
    let advice = alone(rt.alloc(), PLAIN_RING, slow, &[])?;
    assert_eq!(rt; advice, feasible(V2 { x: 65, y: 0 }));
    Ok(())
}

// The corner (323, 36) of the fine ring is nearer than any of the plain one.
#[test]
fn stops_at_a_corner_of_either_polygon(rt: HostRuntime) -> Result<(), Fail> {
    let eager = Agent {
        pref: V2 { x: 3230, y: 360 },
        speed: 326,
        ..WALKER
    };
    let fine = alone(rt.alloc(), FINE_RING, eager, &[])?;
    assert_eq!(rt; fine, feasible(V2 { x: 323, y: 36 }));
    let plain = alone(rt.alloc(), PLAIN_RING, eager, &[])?;
    assert_eq!(rt; plain, feasible(V2 { x: 325, y: 0 }));
    Ok(())
}

#[test]
fn considers_a_wall_by_the_fine_ring(rt: HostRuntime) -> Result<(), Fail> {
    let agent = Agent {
        pref: V2 { x: 0, y: 300 },
        ..WALKER
    };
    let wall = Segment {
        a: V2 { x: -2000, y: 800 },
        b: V2 { x: 2000, y: 800 },
    };
    let advice = alone(rt.alloc(), FINE_RING, agent, &[wall])?;
    assert_eq!(rt; advice, feasible(V2 { x: 0, y: 75 }));
    Ok(())
}

#[test]
fn greatest_of_all_limits(rt: HostRuntime) -> Result<(), Fail> {
    let largest = Agent {
        pos: V2 { x: 4194304, y: 0 },
        vel: ORIGIN,
        pref: V2 { x: 16384, y: 0 },
        radius: 32768,
        speed: 16384,
        range: 65536,
        most: 64,
        horizon: 4096,
        wall_horizon: 4096,
        weight: 16,
    };
    let advice = alone(rt.alloc(), PLAIN_RING, largest, &[])?;
    assert_eq!(rt; advice, feasible(V2 { x: 16383, y: 0 }));
    Ok(())
}

#[test]
fn considers_a_wall_that_it_stands_beside(rt: HostRuntime) -> Result<(), Fail> {
    let agent = Agent {
        pref: V2 { x: 0, y: 300 },
        ..WALKER
    };
    let wall = Segment {
        a: V2 { x: -2000, y: 800 },
        b: V2 { x: 2000, y: 800 },
    };
    let advice = alone(rt.alloc(), PLAIN_RING, agent, &[wall])?;
    assert_eq!(rt; advice, feasible(V2 { x: 0, y: 75 }));
    Ok(())
}

#[test]
fn considers_the_nearest_end_of_a_wall(rt: HostRuntime) -> Result<(), Fail> {
    let wall = Segment {
        a: V2 { x: 1000, y: 0 },
        b: V2 { x: 2000, y: 0 },
    };
    let advice = alone(rt.alloc(), PLAIN_RING, WALKER, &[wall])?;
    assert_eq!(rt; advice, feasible(V2 { x: 125, y: 0 }));
    Ok(())
}

#[test]
fn stands_still_without_room(rt: HostRuntime) -> Result<(), Fail> {
    let agent = Agent {
        pref: V2 { x: 100, y: 0 },
        ..WALKER
    };
    let above = Segment {
        a: V2 { x: -2000, y: 500 },
        b: V2 { x: 2000, y: 500 },
    };
    let below = Segment {
        a: V2 { x: -2000, y: -500 },
        b: V2 { x: 2000, y: -500 },
    };
    let advice = alone(rt.alloc(), PLAIN_RING, agent, &[above, below])?;
    assert_eq!(rt; advice.vel, ORIGIN);
    assert_eq!(rt; advice.mark, Mark::Stopped);
    assert_eq!(rt; advice.relief, 0);
    Ok(())
}

// They are near where they are at most 500 + 500 + 400 + 400 = 1800 apart.
#[test]
fn crowded_by_near_agents(rt: HostRuntime) -> Result<(), Fail> {
    assert_eq!(rt; beside(rt.alloc(), V2 { x: 1500, y: 0 })?, crowded(EAST));
    assert_eq!(rt; beside(rt.alloc(), V2 { x: 0, y: -1800 })?, crowded(EAST));
    assert_eq!(rt;
        beside(rt.alloc(), V2 { x: -1080, y: 1440 })?,
        crowded(EAST)
    );
    Ok(())
}

#[test]
fn not_crowded_by_far_agents(rt: HostRuntime) -> Result<(), Fail> {
    assert_eq!(rt; beside(rt.alloc(), V2 { x: 0, y: 1801 })?, feasible(EAST));
    assert_eq!(rt;
        beside(rt.alloc(), V2 { x: -1080, y: 1441 })?,
        feasible(EAST)
    );
    assert_eq!(rt; beside(rt.alloc(), V2 { x: 10000, y: 0 })?, feasible(EAST));
    Ok(())
}

#[test]
fn keeps_within_every_speed(rt: HostRuntime) -> Result<(), Fail> {
    let prefs = [
        V2 { x: 16384, y: 0 },
        V2 {
            x: -16384,
            y: 16384,
        },
        V2 { x: 5000, y: -12345 },
    ];
    for speed in 0..16385u32 {
        for pref in prefs {
            let agent = Agent {
                pref,
                speed,
                ..WALKER
            };
            let advice = alone(rt.alloc(), PLAIN_RING, agent, &[])?;
            let square = speed as i128 * speed as i128;
            assert!(rt; dot(advice.vel, advice.vel) <= square, "at {speed}");
        }
    }
    Ok(())
}

#[test]
fn pass_far_off(rt: HostRuntime) -> Result<(), Fail> {
    let east = V2 { x: 200, y: 0 };
    let west = V2 { x: -200, y: 0 };
    let first = walker(ORIGIN, east, east);
    let second = walker(V2 { x: 10000, y: 0 }, west, west);
    let advice = two(rt.alloc(), first, second)?;
    assert_eq!(rt; advice, [feasible(east), feasible(west)]);
    Ok(())
}

#[test]
fn pass_on_the_right(rt: HostRuntime) -> Result<(), Fail> {
    let east = V2 { x: 200, y: 0 };
    let west = V2 { x: -200, y: 0 };
    let first = walker(ORIGIN, east, east);
    let second = walker(V2 { x: 3000, y: 0 }, west, west);
    let advice = two(rt.alloc(), first, second)?;
    assert_eq!(rt; advice[0], feasible(V2 { x: 178, y: -63 }));
    assert_eq!(rt; advice[1], feasible(V2 { x: -178, y: 63 }));
    Ok(())
}

#[test]
fn keep_apart_where_they_touch(rt: HostRuntime) -> Result<(), Fail> {
    let first = walker(ORIGIN, ORIGIN, V2 { x: 100, y: 0 });
    let second = walker(V2 { x: 1000, y: 0 }, ORIGIN, V2 { x: -100, y: 0 });
    let advice = two(rt.alloc(), first, second)?;
    assert_eq!(rt; advice, [feasible(ORIGIN), feasible(V2 { x: 1, y: 0 })]);
    Ok(())
}

// The one in the middle touches both others, and has no way to be apart from each.
#[test]
fn relieves_as_little_as_it_can(rt: HostRuntime) -> Result<(), Fail> {
    let first = walker(ORIGIN, ORIGIN, ORIGIN);
    let second = walker(V2 { x: 1000, y: 0 }, ORIGIN, V2 { x: 100, y: 0 });
    let third = walker(V2 { x: 2000, y: 0 }, ORIGIN, ORIGIN);
    let one = V2 { x: 1, y: 0 };
    let advice = three(rt.alloc(), first, second, third)?;
    assert_eq!(rt; advice, [feasible(ORIGIN), fallback(one, 1), feasible(one)]);
    Ok(())
}

#[test]
fn leave_one_place(rt: HostRuntime) -> Result<(), Fail> {
    let agent = with_speed(walker(ORIGIN, ORIGIN, ORIGIN), 600);
    let advice = two(rt.alloc(), agent, agent)?;
    assert_eq!(rt; advice[0], feasible(V2 { x: 501, y: 0 }));
    assert_eq!(rt; advice[1], feasible(V2 { x: -501, y: 0 }));
    Ok(())
}

// Of the 1000 units that both lack, three parts of four fall to the heavier one.
#[test]
fn leave_one_place_by_weight(rt: HostRuntime) -> Result<(), Fail> {
    let lighter = with_speed(walker(ORIGIN, ORIGIN, ORIGIN), 800);
    let heavier = with_weight(lighter, 3);
    let advice = two(rt.alloc(), heavier, lighter)?;
    assert_eq!(rt; advice[0], feasible(V2 { x: 751, y: 0 }));
    assert_eq!(rt; advice[1], feasible(V2 { x: -251, y: 0 }));
    Ok(())
}

// 1000 / 17 is 58.8, so that 59 and 941 fall to them.
#[test]
fn leave_one_place_by_greatest_weight(rt: HostRuntime) -> Result<(), Fail> {
    let lightest = with_speed(walker(ORIGIN, ORIGIN, ORIGIN), 1000);
    let heaviest = with_weight(lightest, 16);
    let advice = two(rt.alloc(), lightest, heaviest)?;
    assert_eq!(rt; advice[0], feasible(V2 { x: 60, y: 0 }));
    assert_eq!(rt; advice[1], feasible(V2 { x: -942, y: 0 }));
    Ok(())
}

#[test]
fn too_slow_to_leave_one_place(rt: HostRuntime) -> Result<(), Fail> {
    let agent = walker(ORIGIN, ORIGIN, ORIGIN);
    let advice = two(rt.alloc(), agent, agent)?;
    assert_eq!(rt; advice[0], fallback(V2 { x: 399, y: 0 }, 102));
    assert_eq!(rt; advice[1], fallback(V2 { x: -399, y: 0 }, 102));
    Ok(())
}

#[test]
fn crowded_by_near_agents_that_it_misses(rt: HostRuntime) -> Result<(), Fail> {
    let first = considering_one(walker(ORIGIN, ORIGIN, ORIGIN));
    let second = walker(V2 { x: 1500, y: 0 }, ORIGIN, ORIGIN);
    let near = walker(V2 { x: 0, y: 1700 }, ORIGIN, ORIGIN);
    let advice = three(rt.alloc(), first, second, near)?;
    assert_eq!(rt;
        advice,
        [crowded(ORIGIN), feasible(ORIGIN), feasible(ORIGIN)]
    );
    let far = walker(V2 { x: 0, y: 1801 }, ORIGIN, ORIGIN);
    let advice = three(rt.alloc(), first, second, far)?;
    assert_eq!(rt; advice[0], feasible(ORIGIN));
    Ok(())
}

// Of two that are as near, it considers the one with the lower number.
#[test]
fn considers_the_lower_number(rt: HostRuntime) -> Result<(), Fail> {
    let first = considering_one(walker(ORIGIN, ORIGIN, V2 { x: 100, y: 0 }));
    let second = walker(V2 { x: 1200, y: 0 }, ORIGIN, ORIGIN);
    let third = walker(V2 { x: -1200, y: 0 }, ORIGIN, ORIGIN);
    let advice = three(rt.alloc(), first, second, third)?;
    assert_eq!(rt; advice[0], crowded(V2 { x: 10, y: 0 }));
    assert_eq!(rt; advice[1], feasible(ORIGIN));
    assert_eq!(rt; advice[2], feasible(ORIGIN));
    Ok(())
}
