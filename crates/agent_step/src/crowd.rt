// The one state that all advice of a step is taken from.
ghost use Rattle.std.specs.Prelude.{◌≡◌, ◌↔◌, ◌^◌, ◌<◌, [], All, IsTrue, length, map};
ghost use Rattle.fixed_vec.specs.Vector.{IsBelow};
ghost use Rattle.crowd_data.specs.Advice.{IsCrowded, agent_at, place_of};
ghost use Rattle.crowd_data.specs.Limits.{IsBuild, IsSegment, IsVelocity};
ghost use Rattle.crowd_data.specs.Present.{IsPresent};
ghost use Rattle.crowd_data.specs.RingPlanes.{ring_planes};
ghost use Rattle.crowd_data.specs.Run.{crowd_of, snapshot_of, standing};
ghost use Rattle.crowd_data.specs.Walls.{IsClear};
ghost use Rattle.crowd_data.specs.declared.agent.Agent.{Agent};
ghost use Rattle.agent_kdtree.specs.Seen.{seen_of};
ghost use Rattle.agent_kdtree.specs.Stands.{StandsFor};
ghost use Rattle.agent_step.specs.Frozen.{agents_in, polygons_of};
ghost use Rattle.agent_step.specs.Sight.{ArePresent, seen_by};
ghost use Rattle.agent_step.specs.WallBlocks.{StandsForWalls};

use crate::polygons::Polygons;
use crate::wall_blocks::WallBlocks;
use agent_kdtree::{Near, Tree};
use arrayvec::ArrayVec;
use crowd_data::{Agent, Body, Frame, Place, Scenario};
use fixed_vec::HalfPlane;
use std::marker::Model;

/// The one frozen state that all advice of a step is taken from: a frame of a scenario's run, the speed
/// polygons of the agents, the walls by blocks, the agents' places in the frame, and a tree over these
/// places.
#[derive(Drop)]
pub struct FrozenCrowd<'a> {
    scenario: &'a Scenario,
    frame: &'a Frame,
    polygons: &'a Polygons,
    walls: &'a WallBlocks,
    places: &'a [Place],
    tree: &'a Tree,
}

impl<'a> Model for FrozenCrowd<'a> {
    ghost use Rattle.crowd_data.specs.Run.{snapshot_of};
    ghost use Rattle.agent_step.specs.Frozen.{FrozenState, IsFrozen};

    ghost Value = { FrozenState };

    ghost view = { λ c. record { scenario = c.scenario.now; frame = snapshot_of c.frame.now } };

    ghost invariant = { λ c. IsFrozen c.scenario.now (snapshot_of c.frame.now) c.polygons.now c.walls.now c.places.now c.tree.now };
}

// The agent as it stands in a frame.
fn standing(agent: &Agent, body: &Body) -> Agent
    ensures { result ≡ standing agent.now body.now }
{
    Agent {
        pos: body.pos,
        vel: body.vel,
        pref: body.pref,
        ..*agent
    }
}

impl<'a> FrozenCrowd<'a> {
    /// The state of a frame of the scenario's run. The polygons are those of all agents, the walls stand
    /// for the scenario's segments, the places are those of all agents in the frame, and the tree stands for
    /// the places.
    pub fn of(
        scenario: &'a Scenario,
        frame: &'a Frame,
        polygons: &'a Polygons,
        walls: &'a WallBlocks,
        places: &'a [Place],
        tree: &'a Tree,
    ) -> FrozenCrowd<'a>
        requires present { IsPresent scenario.now (snapshot_of frame.now) }
        requires polygons { polygons.now ≡ polygons_of scenario.now }
        requires walls { StandsForWalls walls.now scenario.now.segments }
        requires places { places.now ≡ map place_of (crowd_of scenario.now.agents frame.now.bodies.items) }
        requires stands { StandsFor tree.now places.now }
        ensures { result ≡ record { scenario = scenario.now; frame = snapshot_of frame.now } }
    {
        FrozenCrowd {
            scenario,
            frame,
            polygons,
            walls,
            places,
            tree,
        }
    }

    pub(crate) fn agents(&self) -> &[Agent]
        ensures { result.now ≡ self.now.scenario.agents }
    {
        self.scenario.agents()
    }

    pub(crate) fn walls(&self) -> &WallBlocks
        ensures stands { StandsForWalls result.now self.now.scenario.segments }
        ensures valid { All IsSegment self.now.scenario.segments }
    {
        let _segments = self.scenario.segments();
        self.walls
    }

    pub(crate) fn bodies(&self) -> &[Body]
        ensures value { result.now ≡ self.now.frame.bodies }
        ensures present { ArePresent self.now.scenario.agents self.now.frame.bodies }
    {
        let _agents = self.scenario.agents();
        self.frame.bodies.items()
    }

    /// The agent with this number as it stands in the frame.
    pub(crate) fn agent(&self, who: usize) -> Agent
        requires { who < length self.now.scenario.agents }
        ensures value { result ≡ agent_at (agents_in self.now) who }
        ensures speed { result.speed ≡ (agent_at self.now.scenario.agents who).speed }
        ensures build { IsBuild result }
        ensures position { IsBelow result.pos (2 ^ 31) }
        ensures pref { IsVelocity result.pref }
        ensures clear { All (IsClear result.pos result.radius) self.now.scenario.segments }
    {
        let agents = self.scenario.agents();
        let bodies = self.frame.bodies.items();
        standing(&agents[who], &bodies[who])
    }

    /// The speed polygon of the agent with this number.
    pub(crate) fn polygon(&self, who: usize) -> &[HalfPlane]
        requires { who < length self.now.scenario.agents }
        ensures { result.now ≡ ring_planes self.now.scenario.ring (agent_at (agents_in self.now) who).speed }
    {
        self.polygons.of(who)
    }

    /// Puts the neighbours of the agent with this number into an empty list.
    pub(crate) fn find_neighbours(&self, who: usize, near: &mut ArrayVec<Near, 64>)
        requires who { who < length self.now.scenario.agents }
        requires empty { near.old.items ≡ [] }
        ensures { map seen_of near.new.items ≡ seen_by (agents_in self.now) who }
    {
        let agent = &self.scenario.agents()[who];
        self.tree
            .find(self.places, who as u32, agent.range, agent.most, near);
    }

    /// Whether some near agent isn't among the neighbours of the agent with this number.
    pub(crate) fn is_crowded(&self, who: usize, near: &[Near]) -> bool
        requires who { who < length self.now.scenario.agents }
        requires near { map seen_of near.now ≡ seen_by (agents_in self.now) who }
        ensures { IsTrue result ↔ IsCrowded (agents_in self.now) who }
    {
        let agent = &self.scenario.agents()[who];
        self.tree
            .is_crowded(self.places, who as u32, agent.range, agent.most, near)
    }
}
