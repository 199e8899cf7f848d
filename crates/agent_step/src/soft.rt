// The half-planes that an agent gives up as little as it can, behind those of a list.
ghost use Rattle.std.specs.Prelude.{◌≡◌, ◌+◌, ◌<◌, ◌≤◌, ◌++◌, All, length, map, min};
ghost use Rattle.crowd_data.specs.Advice.{agent_at, disc_of, share_against};
ghost use Rattle.crowd_data.specs.Run.{crowd_of};
ghost use Rattle.agent_step.specs.Sight.{ArePresent, IsSeen};
ghost use Rattle.agent_kdtree.specs.declared.near.Near.{Near};

use agent_kdtree::Near;
use crowd_data::{Agent, Body, Disc};
use fixed_vec::{HalfPlane, List};
use pair_plane::{higher_plane, lower_plane};

// An agent as a moving disc.
fn disc(agents: &[Agent], bodies: &[Body], who: usize) -> Disc
    requires who { who < length agents.now }
    requires bodies { length bodies.now ≡ length agents.now }
    ensures { result ≡ disc_of (agent_at (crowd_of agents.now bodies.now) who) }
{
    Disc {
        pos: bodies[who].pos,
        vel: bodies[who].vel,
        radius: agents[who].radius,
    }
}

fn weight(agents: &[Agent], who: usize) -> u32
    requires { who < length agents.now }
    ensures { result ≡ (agent_at agents.now who).weight }
{
    agents[who].weight
}

// The smaller of two agents' horizons.
fn joint_horizon(agents: &[Agent], a: usize, b: usize) -> u32
    requires a { a < length agents.now }
    requires b { b < length agents.now }
    ensures { result ≡ min (agent_at agents.now a).horizon (agent_at agents.now b).horizon }
{
    agents[a].horizon.min(agents[b].horizon)
}

// The drawn share that an agent takes against another one.
fn share(agents: &[Agent], bodies: &[Body], who: usize, other: usize) -> HalfPlane
    requires present { ArePresent agents.now bodies.now }
    requires who { who < length agents.now }
    requires seen { IsSeen (crowd_of agents.now bodies.now) who other }
    ensures { result ≡ share_against (crowd_of agents.now bodies.now) who other }
{
    let own = disc(agents, bodies, who);
    let others = disc(agents, bodies, other);
    let horizon = joint_horizon(agents, who, other);
    let own_weight = weight(agents, who);
    let others_weight = weight(agents, other);
    if who < other {
        lower_plane(&own, &others, horizon, own_weight, others_weight)
    } else {
        higher_plane(&others, &own, horizon, others_weight, own_weight)
    }
}

/// Puts the drawn shares that an agent takes against these others behind the half-planes of a list.
pub(crate) fn push_shares(
    planes: &mut List<HalfPlane>,
    agents: &[Agent],
    bodies: &[Body],
    who: usize,
    near: &[Near],
)
    requires room { length near.now ≤ planes.old.spare }
    requires present { ArePresent agents.now bodies.now }
    requires who { who < length agents.now }
    requires seen { All (λ (near : Near). IsSeen (crowd_of agents.now bodies.now) who near.agent) near.now }
    ensures items { planes.new.items
        ≡ planes.old.items ++ map (λ (near : Near). share_against (crowd_of agents.now bodies.now) who near.agent) near.now }
    ensures room { length planes.new.items + planes.new.spare ≡ length planes.old.items + planes.old.spare }
{
    for other in near {
        planes.push(share(agents, bodies, who, other.agent as usize));
    }
}
