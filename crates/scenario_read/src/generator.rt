// Generated scenarios.
ghost use Rattle.std.specs.Prelude.{◌≡◌, ◌≤◌, ◌<◌, ◌*◌, ◌/◌, All, IfOk, OnOk, length};
ghost use Rattle.exact_algebra.specs.Numbers.{ceil_root};
ghost use Rattle.crowd_data.specs.Limits.{IsAgent};
ghost use Rattle.crowd_data.specs.Scenario.{IsValid};
ghost use Rattle.crowd_data.specs.declared.limits.TheConstants.{MOST_AGENTS, MOST_STEPS};
ghost use Rattle.scenario_read.specs.Generator.{coordinate, generated, generated_agent, generated_agents, generated_goal, generated_goals, generated_post, generated_posts, generated_segments, place, state_after};
ghost use Rattle.scenario_read.specs.declared.generator.TheConstants.{MOST_COLUMNS};

use crate::draws::Draws;
use crowd_data::{
    Agent, FIRST_VERSION, Goal, MOST_AGENTS, MOST_STEPS, PLAIN_RING, Scenario, ScriptPost, Segment,
};
use fixed_vec::{List, NoMemory, V2, ceil_root};
use std::alloc::Global;

// The most columns of the grid: as many rows of them have room for the most agents.
const MOST_COLUMNS: u32 = 100;

// The coordinate of an agent in its column or row.
fn coordinate(side: u32, place: u32, drawn: u32) -> i64
    requires side { side ≤ MOST_COLUMNS }
    requires place { place ≤ MOST_AGENTS }
    requires drawn { drawn ≤ 1000 }
    ensures { result ≡ coordinate side place drawn }
{
    4000 * i64::from(place) - 2000 * i64::from(side) + i64::from(drawn) - 500
}

// The place of the next agent, in its cell of a grid with so many columns.
#[tactic(auto, unfolding(crate::specs::Generator::state_after))]
fn generate_place(draws: &mut Draws, side: u32, number: u32) -> V2
    requires some { 1 ≤ side }
    requires side { side ≤ MOST_COLUMNS }
    requires number { number < MOST_AGENTS }
    ensures place { result ≡ place side number draws.old.state }
    ensures state { draws.new.state ≡ state_after 2 draws.old.state }
{
    let x = coordinate(side, number % side, draws.draw(1001));
    let y = coordinate(side, number / side, draws.draw(1001));
    V2 { x, y }
}

// The next agent.
#[tactic(auto, unfolding(crate::specs::Generator::generated_agent, crate::specs::Generator::state_after))]
fn generate_agent(draws: &mut Draws, side: u32, number: u32) -> Agent
    requires some { 1 ≤ side }
    requires side { side ≤ MOST_COLUMNS }
    requires number { number < MOST_AGENTS }
    ensures agent { result ≡ generated_agent side number draws.old.state }
    ensures state { draws.new.state ≡ state_after 6 draws.old.state }
{
    let pos = generate_place(draws, side, number);
    let radius = 500 + draws.draw(501);
    let speed = 200 + draws.draw(201);
    let pref = draws.velocity();
    Agent {
        pos,
        vel: V2 { x: 0, y: 0 },
        pref,
        radius,
        speed,
        range: 15_000,
        most: 10,
        horizon: 40,
        wall_horizon: 10,
        weight: 1,
    }
}

fn generate_agents(
    alloc: Global,
    draws: &mut Draws,
    side: u32,
    count: u32,
) -> Result<List<Agent>, NoMemory>
    requires some { 1 ≤ side }
    requires side { side ≤ MOST_COLUMNS }
    requires count { count ≤ MOST_AGENTS }
    ensures agents { IfOk result (λ agents. agents.items ≡ generated_agents side 0 count draws.old.state) }
    ensures state { OnOk result (draws.new.state ≡ state_after (6 * count) draws.old.state) }
{
    let mut agents = List::with_room(alloc, count as usize)?;
    for number in 0..count {
        agents.push(generate_agent(draws, side, number));
    }
    Ok(agents)
}

// The four walls round all cells.
#[tactic(auto, unfolding(crate::specs::Generator::generated_segments))]
fn generate_segments(alloc: Global, side: u32) -> Result<List<Segment>, NoMemory>
    requires { side ≤ MOST_COLUMNS }
    ensures { IfOk result (λ segments. segments.items ≡ generated_segments side) }
{
    let h = 2000 * i64::from(side) + 3000;
    let low_left = V2 { x: -h, y: -h };
    let low_right = V2 { x: h, y: -h };
    let high_right = V2 { x: h, y: h };
    let high_left = V2 { x: -h, y: h };
    let mut segments = List::with_room(alloc, 4)?;
    segments.push(Segment {
        a: low_left,
        b: low_right,
    });
    segments.push(Segment {
        a: low_right,
        b: high_right,
    });
    segments.push(Segment {
        a: high_right,
        b: high_left,
    });
    segments.push(Segment {
        a: high_left,
        b: low_left,
    });
    Ok(segments)
}

#[tactic(auto, unfolding(crate::specs::Generator::generated_post, crate::specs::Generator::state_after))]
fn generate_post(draws: &mut Draws, agents: u32, frame: u32) -> ScriptPost
    requires { 1 ≤ agents }
    ensures post { result ≡ generated_post agents frame draws.old.state }
    ensures state { draws.new.state ≡ state_after 3 draws.old.state }
{
    let agent = draws.draw(agents);
    let vel = draws.velocity();
    ScriptPost { frame, agent, vel }
}

// A post for each tenth frame up to the steps.
fn generate_posts(
    alloc: Global,
    draws: &mut Draws,
    agents: u32,
    steps: u32,
) -> Result<List<ScriptPost>, NoMemory>
    requires agents { 1 ≤ agents }
    requires steps { steps ≤ MOST_STEPS }
    ensures { IfOk result (λ posts. posts.items ≡ generated_posts agents 10 (steps / 10) draws.old.state) }
{
    let count = steps / 10;
    let mut posts = List::with_room(alloc, count as usize)?;
    for place in 0..count {
        posts.push(generate_post(draws, agents, 10 * place + 10));
    }
    Ok(posts)
}

// An agent wants to the opposite place.
fn generate_goal(number: u32, agent: &Agent) -> Goal
    requires { IsAgent agent.now }
    ensures { result ≡ generated_goal number agent.now }
{
    Goal {
        controller: number % 4,
        agent: number,
        at: V2 {
            x: -agent.pos.x,
            y: -agent.pos.y,
        },
        pace: agent.speed,
    }
}

fn generate_goals(alloc: Global, agents: &[Agent]) -> Result<List<Goal>, NoMemory>
    requires fit { All IsAgent agents.now }
    requires count { length agents.now ≤ MOST_AGENTS }
    ensures { IfOk result (λ goals. goals.items ≡ generated_goals 0 agents.now) }
{
    let mut goals = List::with_room(alloc, agents.len())?;
    for (number, agent) in agents.iter().enumerate() {
        goals.push(generate_goal(number as u32, agent));
    }
    Ok(goals)
}

/// The scenario of version 1 that is generated from a number of at most 65,535, with 1 to 10,000 agents and at most
/// 100,000 steps: the agents at rest in the cells of a square grid, four walls round them, a post for
/// each tenth frame, and a goal for each agent at the opposite place. `NoMemory` is answered only where
/// memory runs out (documented, not proved).
pub fn generate(alloc: Global, number: u32, agents: u32, steps: u32) -> Result<Scenario, NoMemory>
    requires number { number ≤ 65535 }
    requires some_agents { 1 ≤ agents }
    requires agents { agents ≤ MOST_AGENTS }
    requires steps { steps ≤ MOST_STEPS }
    ensures scenario { IfOk result (λ s. s ≡ generated number agents steps) }
    ensures valid { IfOk result (λ s. IsValid s) }
{
    let side = ceil_root(u128::from(agents)) as u32;
    let mut draws = Draws { state: number };
    let crowd = generate_agents(alloc, &mut draws, side, agents)?;
    let segments = generate_segments(alloc, side)?;
    let posts = generate_posts(alloc, &mut draws, agents, steps)?;
    let goals = generate_goals(alloc, crowd.items())?;
    Ok(Scenario::of(
        FIRST_VERSION,
        PLAIN_RING,
        steps,
        crowd,
        segments,
        posts,
        goals,
    ))
}
