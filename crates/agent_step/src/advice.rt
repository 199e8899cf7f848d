// What an agent does in a step.
ghost use Rattle.std.specs.Prelude.{◌≡◌, ◌≢◌, ◌⊎◌, ◌+◌, ◌++◌, ◌<◌, ◌≤◌, All, pos, ◌*ℤ◌, ◌≤ℤ◌, IfSome, length, map, take};
ghost use Rattle.fixed_vec.specs.Meeting.{relieved_after};
ghost use Rattle.fixed_vec.specs.Vector.{square};
ghost use Rattle.crowd_data.specs.Advice.{IsAdvice, GivesWay, StandsStill, agent_at, neighbours_of, soft_planes};
ghost use Rattle.crowd_data.specs.Limits.{IsBuild, IsVelocity, fine_ring};
ghost use Rattle.crowd_data.specs.declared.frame.Mark.TheVariants.{Feasible, Fallback};
ghost use Rattle.planar_line.specs.Relief.{KeepBounds};
ghost use Rattle.planar_program.specs.Met.{IsMet};
ghost use Rattle.pair_plane.specs.Sized.{IsShareSized};
ghost use Rattle.agent_step.specs.Among.{AdvisedAmong};
ghost use Rattle.agent_step.specs.Frozen.{KeepsLimits, agents_in, most_planes};
ghost use Rattle.agent_step.specs.Polygons.{BeginWithPolygon};
ghost use Rattle.agent_kdtree.specs.declared.near.Near.{Near};

use crate::crowd::FrozenCrowd;
use crate::free::free_advice;
use crate::hard::{fill, fill_walls};
use crate::scratch::Scratch;
use crate::soft::push_shares;
use agent_kdtree::Near;
use arrayvec::ArrayVec;
use crowd_data::{Agent, Mark};
use fixed_vec::{HalfPlane, List, V2};
use hard_plane::speed_law;
use planar_program::{GREATEST_RELIEF, least_relief};

/// What an agent does in a step.
#[derive(Clone, Copy, Debug, PartialEq, Eq)]
pub struct Advice {
    /// The velocity in units per step, no longer than the agent's speed.
    pub vel: V2,
    /// How the velocity came about.
    pub mark: Mark,
    /// By how many lengths of their normals the neighbours' half-planes are relieved, below 2^18.
    pub relief: u32,
}

const STILL: V2 = V2 { x: 0, y: 0 };

/// The mark of an agent that moves.
pub(crate) fn mark_of(relief: u32) -> Mark
    ensures feasible { relief ≡ 0 → result ≡ Feasible }
    ensures fallback { relief ≢ 0 → result ≡ Fallback }
{
    if relief == 0 {
        Mark::Feasible
    } else {
        Mark::Fallback
    }
}

// What an agent does among half-planes, the first `hard` of which it never gives up.
fn advise_among(planes: &[HalfPlane], hard: usize, agent: &Agent) -> Advice
    requires build { IsBuild agent.now }
    requires pref { IsVelocity agent.now.pref }
    requires hard { hard ≤ length planes.now }
    requires polygon { BeginWithPolygon (take hard planes.now) agent.now.speed }
    requires bounds { KeepBounds hard GREATEST_RELIEF planes.now }
    requires enough { IsMet (take hard planes.now)
        → IsMet (relieved_after hard GREATEST_RELIEF planes.now) }
    ensures advised { AdvisedAmong hard planes.now agent.now.pref result.vel result.mark result.relief }
    ensures limits { KeepsLimits agent.now.speed result.vel result.relief }
{
    let Some(least) = least_relief(planes, hard, agent.pref) else {
        return Advice {
            vel: STILL,
            mark: Mark::Stopped,
            relief: 0,
        };
    };
    speed_law(agent.speed, &least.point);
    Advice {
        vel: least.point.rounded(),
        mark: mark_of(least.relief),
        relief: least.relief,
    }
}

// Puts the shares of an agent that sees these neighbours behind the half-planes of a list.
fn push_soft(planes: &mut List<HalfPlane>, crowd: &FrozenCrowd, who: usize, near: &[Near])
    requires room { length near.now ≤ planes.old.spare }
    requires who { who < length crowd.now.scenario.agents }
    requires near { map (λ (near : Near). near.agent) near.now ≡ neighbours_of (agents_in crowd.now) who }
    ensures items { planes.new.items ≡ planes.old.items ++ soft_planes (agents_in crowd.now) who }
    ensures sized { All IsShareSized (soft_planes (agents_in crowd.now) who) }
    ensures room { length planes.new.items + planes.new.spare ≡ length planes.old.items + planes.old.spare }
{
    push_shares(planes, crowd.agents(), crowd.bodies(), who, near);
}

// What an agent does that sees these neighbours, but for the mark Crowded, where its polygon doesn't bind it.
fn advise_freely(
    crowd: &FrozenCrowd,
    who: usize,
    near: &[Near],
    scratch: &mut Scratch,
) -> Option<Advice>
    requires who { who < length crowd.now.scenario.agents }
    requires near { map (λ (near : Near). near.agent) near.now ≡ neighbours_of (agents_in crowd.now) who }
    requires room { length near.now + (length crowd.now.scenario.segments + fine_ring) ≤ scratch.old }
    ensures moves { IfSome result (λ a. StandsStill crowd.now.scenario (agents_in crowd.now) who a.vel a.mark a.relief
        ⊎ GivesWay crowd.now.scenario (agents_in crowd.now) who a.vel a.mark a.relief) }
    ensures limits { IfSome result (λ a. KeepsLimits (agent_at crowd.now.scenario.agents who).speed a.vel a.relief) }
    ensures room { scratch.new ≡ scratch.old }
{
    let agent = crowd.agent(who);
    let planes = &mut scratch.planes;
    fill_walls(planes, &agent, crowd.walls());
    let walls = planes.items().len();
    push_soft(planes, crowd, who, near);
    free_advice(planes.items(), walls, crowd.polygon(who), &agent)
}

// The same, whatever its polygon does.
fn advise_fully(crowd: &FrozenCrowd, who: usize, near: &[Near], scratch: &mut Scratch) -> Advice
    requires who { who < length crowd.now.scenario.agents }
    requires near { map (λ (near : Near). near.agent) near.now ≡ neighbours_of (agents_in crowd.now) who }
    requires room { length near.now + (length crowd.now.scenario.segments + fine_ring) ≤ scratch.old }
    ensures moves { StandsStill crowd.now.scenario (agents_in crowd.now) who result.vel result.mark result.relief
        ⊎ GivesWay crowd.now.scenario (agents_in crowd.now) who result.vel result.mark result.relief }
    ensures limits { KeepsLimits (agent_at crowd.now.scenario.agents who).speed result.vel result.relief }
    ensures room { scratch.new ≡ scratch.old }
{
    let agent = crowd.agent(who);
    let planes = &mut scratch.planes;
    fill(planes, crowd.polygon(who), &agent, crowd.walls());
    let hard = planes.items().len();
    push_soft(planes, crowd, who, near);
    advise_among(planes.items(), hard, &agent)
}

// Whether an agent would like to go faster than it may. Nothing rests on it.
fn is_fast(agent: &Agent) -> bool
    requires { IsVelocity agent.now.pref }
{
    let across = agent.pref.x.unsigned_abs();
    let along = agent.pref.y.unsigned_abs();
    let speed = u64::from(agent.speed);
    across * across + along * along > speed * speed
}

// What an agent does that sees these neighbours, but for the mark Crowded.
fn advise_against(crowd: &FrozenCrowd, who: usize, near: &[Near], scratch: &mut Scratch) -> Advice
    requires who { who < length crowd.now.scenario.agents }
    requires near { map (λ (near : Near). near.agent) near.now ≡ neighbours_of (agents_in crowd.now) who }
    requires room { length near.now + (length crowd.now.scenario.segments + fine_ring) ≤ scratch.old }
    ensures moves { StandsStill crowd.now.scenario (agents_in crowd.now) who result.vel result.mark result.relief
        ⊎ GivesWay crowd.now.scenario (agents_in crowd.now) who result.vel result.mark result.relief }
    ensures limits { KeepsLimits (agent_at crowd.now.scenario.agents who).speed result.vel result.relief }
    ensures room { scratch.new ≡ scratch.old }
{
    // The polygons of fast agents mostly bind them.
    if is_fast(&crowd.agent(who)) {
        return advise_fully(crowd, who, near, scratch);
    }
    // Those of others mostly don't, and are left out.
    match advise_freely(crowd, who, near, scratch) {
        Some(advice) => advice,
        None => advise_fully(crowd, who, near, scratch),
    }
}

/// The advice of the agent with this number in the frozen state of its crowd. Its velocity is no longer
/// than the agent's speed, and its relief is at most `GREATEST_RELIEF`, 2^18 - 1. It takes no memory.
pub fn advise(crowd: &FrozenCrowd, who: usize, scratch: &mut Scratch) -> Advice
    requires who { who < length crowd.now.scenario.agents }
    requires room { most_planes (length crowd.now.scenario.segments) ≤ scratch.old }
    ensures advice { IsAdvice crowd.now.scenario (agents_in crowd.now) who result.vel result.mark result.relief }
    ensures slow { IsVelocity result.vel }
    ensures speed { square result.vel ≤ℤ (pos (agent_at crowd.now.scenario.agents who).speed *ℤ pos (agent_at crowd.now.scenario.agents who).speed) }
    ensures relief { result.relief ≤ GREATEST_RELIEF }
    ensures room { scratch.new ≡ scratch.old }
{
    let mut near = ArrayVec::new();
    crowd.find_neighbours(who, &mut near);
    let roomy = advise_against(crowd, who, near.as_slice(), scratch);
    if crowd.is_crowded(who, near.as_slice()) {
        Advice {
            mark: Mark::Crowded,
            ..roomy
        }
    } else {
        roomy
    }
}
