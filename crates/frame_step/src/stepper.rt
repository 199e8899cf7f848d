// The stepper.
ghost use Rattle.std.specs.Prelude.{◌≡◌, ◌<◌, ◌≤◌, All, IfOk, length};
ghost use Rattle.crowd_data.specs.Limits.{IsPost};
ghost use Rattle.crowd_data.specs.Present.{IsPresent};
ghost use Rattle.crowd_data.specs.Run.{IsNext, snapshot_of, start_of};
ghost use Rattle.crowd_data.specs.SafeSteps.{IsSafeStep};
ghost use Rattle.crowd_data.specs.Scenario.{IsValid};
ghost use Rattle.frame_step.specs.Present.{Course, IsReady};
ghost use Rattle.frame_step.specs.declared.limits.TheConstants.{MOST_WORKERS};

use crate::places::place_all;
use crate::posts::take_all;
use crate::team::Team;
use agent_kdtree::Tree;
use agent_step::{FrozenCrowd, Polygons, WallBlocks, open_fixed, open_places};
use crowd_data::{Body, Frame, Place, Post, Scenario, first_frame};
use fixed_vec::{List, NoMemory};
use outside_io::{Gate, OpenGate};
use run_law::every_step_is_safe;
use std::alloc::Global;
use std::marker::Model;
use std::mem::swap;
use std::thread::Threads;

/// The run of a scenario up to its present frame. It holds all memory that its steps need.
#[derive(Drop)]
pub struct Stepper {
    scenario: Scenario,
    polygons: Polygons,
    walls: WallBlocks,
    frame: Frame,
    next: List<Body>,
    places: List<Place>,
    tree: Tree,
    team: Team,
}

impl Model for Stepper {
    ghost Value = { Course };

    ghost view = { λ s. record { scenario = s.scenario; frame = snapshot_of s.frame } };

    ghost invariant = { λ s. IsReady s.scenario (snapshot_of s.frame) s.polygons s.walls s.next s.places s.tree s.team };
}

impl Stepper {
    /// The run of a scenario at its frame 0, for 1 to 64 workers: the most threads that share a step. It
    /// takes all memory that the steps need; `NoMemory` is answered where memory runs out (documented, not
    /// proved).
    pub fn open(alloc: Global, scenario: Scenario, workers: u32) -> Result<Stepper, NoMemory>
        requires some_workers { 1 ≤ workers }
        requires workers { workers ≤ MOST_WORKERS }
        ensures scenario { IfOk result (λ s. s.scenario ≡ scenario) }
        ensures frame { IfOk result (λ s. s.frame ≡ start_of scenario) }
    {
        // The counter that the workers share is opened first, apart from the walls, which all of them read.
        let team = Team::open(alloc, &scenario, workers)?;
        let (polygons, walls) = open_fixed(alloc, &scenario)?;
        let (places, tree) = open_places(alloc, scenario.agents())?;
        let frame = first_frame(alloc, &scenario)?;
        let next = first_frame(alloc, &scenario)?.bodies;
        Ok(Stepper {
            scenario,
            polygons,
            walls,
            frame,
            next,
            places,
            tree,
            team,
        })
    }

    /// The present frame: one body for each agent in order of number, each coordinate of a position at
    /// most 4,194,304 units and 16,384 more for each step in size, each velocity and preferred velocity
    /// within its limits, and each body clear of each segment.
    pub fn frame(&self) -> &Frame
        ensures value { snapshot_of result.now ≡ self.now.frame }
        ensures present { IsPresent self.now.scenario self.now.frame }
    {
        &self.frame
    }

    /// The scenario that is run.
    pub fn scenario(&self) -> &Scenario
        ensures value { result.now ≡ self.now.scenario }
        ensures valid { IsValid self.now.scenario }
    {
        &self.scenario
    }

    /// Makes the next frame the present one: each post in order sets the preferred velocity of its agent, so
    /// that the last one for an agent wins; each agent's advice is taken from that one frozen state; and each
    /// body moves by its advice. Each post names an agent that exists and a velocity within its limits (each
    /// coordinate at most 16,384 in size), and there must be a step left. It takes no memory, waits for
    /// nobody and can't be refused.
    ///
    /// The step is safe: every body stays clear of every segment, and stays off it throughout the step and
    /// its wall horizon; no velocity is longer than its agent's speed; and discs keep apart by the laws of
    /// pairs.
    pub fn step<R: Threads + Sync>(&mut self, rt: &R, posts: &[Post])
        requires below { self.old.frame.number < self.old.scenario.steps }
        requires posts { All (IsPost (length self.old.scenario.agents)) posts.now }
        ensures scenario { self.new.scenario ≡ self.old.scenario }
        ensures next { IsNext self.old.scenario self.old.frame posts.now self.new.frame }
        ensures safe { IsSafeStep self.old.scenario self.old.frame self.new.frame }
    {
        self.step_gated(rt, posts, &OpenGate);
    }

    /// The same step, with a gate that each worker passes before each of its pieces: worker j as `16 + j`, by
    /// the number of the piece. A piece is 32 agents by number, and the last one may have fewer.
    ///
    /// Workers share the step where there are two and each has 64 agents at least. Then each has a thread of its
    /// own, one of them the caller's; where no thread can be made, they work one after another.
    pub fn step_gated<R: Threads + Sync, G: Gate + Sync>(
        &mut self,
        rt: &R,
        posts: &[Post],
        gate: &G,
    )
        requires below { self.old.frame.number < self.old.scenario.steps }
        requires posts { All (IsPost (length self.old.scenario.agents)) posts.now }
        ensures scenario { self.new.scenario ≡ self.old.scenario }
        ensures next { IsNext self.old.scenario self.old.frame posts.now self.new.frame }
        ensures safe { IsSafeStep self.old.scenario self.old.frame self.new.frame }
    {
        take_all(&mut self.frame.bodies, posts);
        let agents = self.scenario.agents();
        place_all(&mut self.places, agents, self.frame.bodies.items());
        self.tree.rebuild(self.places.items());
        let crowd = FrozenCrowd::of(
            &self.scenario,
            &self.frame,
            &self.polygons,
            &self.walls,
            self.places.items(),
            &self.tree,
        );
        self.team
            .move_all(rt, gate, &mut self.next, &crowd, &self.frame);
        swap(&mut self.frame.bodies, &mut self.next);
        self.frame.number += 1;
        every_step_is_safe(&self.scenario);
    }
}
