// The first step of a scenario.
ghost use Rattle.std.specs.Prelude.{◌≡◌, ◌+◌, ◌≤◌, [], IfOk, drop, length, map, take};
ghost use Rattle.crowd_data.specs.Run.{IsNext, Snapshot, start_of};
ghost use Rattle.crowd_data.specs.Scenario.{IsValid};
ghost use Rattle.agent_step.specs.Frozen.{most_planes};
ghost use Rattle.array_step.specs.Arrays.{agent_of, all_moved};

use crate::agent::CrowdAgent;
use crate::numbers::advised;
use agent_kdtree::Tree;
use agent_step::{FrozenCrowd, Polygons, Scratch, WallBlocks, advise, open_fixed, open_places};
use crowd_data::{Frame, Place, Scenario, first_frame};
use fixed_vec::{List, NoMemory};
use std::alloc::Global;
use std::marker::Model;

/// A scenario at its start, with all that its first step needs.
#[derive(Drop)]
pub(crate) struct FirstStep {
    scenario: Scenario,
    frame: Frame,
    polygons: Polygons,
    walls: WallBlocks,
    places: List<Place>,
    tree: Tree,
    scratch: Scratch,
}

impl Model for FirstStep {
    ghost use Rattle.crowd_data.specs.Run.{snapshot_of};
    ghost use Rattle.crowd_data.specs.Scenario.{Parts};
    ghost use Rattle.array_step.specs.Ready.{IsReady};

    ghost Value = { Parts };

    ghost view = { λ s. s.scenario };

    ghost invariant = { λ s. IsReady s.scenario (snapshot_of s.frame) s.polygons s.walls s.places.items s.tree s.scratch };
}

// Moves agents, the first of which has this number in the crowd, each by its advice.
fn move_each(agents: &mut [CrowdAgent], crowd: &FrozenCrowd, first: usize, scratch: &mut Scratch)
    requires there { first + length agents.old ≤ length crowd.now.scenario.agents }
    requires are { map agent_of agents.old ≡ take (length agents.old) (drop first crowd.now.scenario.agents) }
    requires start { crowd.now.frame ≡ start_of crowd.now.scenario }
    requires valid { IsValid crowd.now.scenario }
    requires room { most_planes (length crowd.now.scenario.segments) ≤ scratch.old }
    ensures moved { (next : Snapshot) → IsNext crowd.now.scenario crowd.now.frame [] next → agents.new ≡ all_moved agents.old (drop first next.bodies) }
    ensures room { scratch.new ≡ scratch.old }
{
    for k in 0..agents.len() {
        let advice = advise(crowd, first + k, scratch);
        agents[k] = advised(&agents[k], advice);
    }
}

impl FirstStep {
    /// Takes the memory that the first step of a scenario needs. `NoMemory` comes only where memory runs out
    /// (documented, not proved).
    pub(crate) fn open(alloc: Global, scenario: Scenario) -> Result<FirstStep, NoMemory>
        ensures { IfOk result (λ step. step ≡ scenario) }
    {
        let frame = first_frame(alloc, &scenario)?;
        let (polygons, walls) = open_fixed(alloc, &scenario)?;
        let (places, tree) = open_places(alloc, scenario.agents())?;
        let scratch = Scratch::open(alloc, scenario.segments().len())?;
        Ok(FirstStep {
            scenario,
            frame,
            polygons,
            walls,
            places,
            tree,
            scratch,
        })
    }

    /// Moves agents, the first of which has this number in the scenario, as they move in the step.
    pub(crate) fn move_from(&mut self, first: usize, agents: &mut [CrowdAgent])
        requires there { first + length agents.old ≤ length self.old.agents }
        requires are { map agent_of agents.old ≡ take (length agents.old) (drop first self.old.agents) }
        ensures { (next : Snapshot) → IsNext self.old (start_of self.old) [] next → agents.new ≡ all_moved agents.old (drop first next.bodies) }
    {
        let crowd = FrozenCrowd::of(
            &self.scenario,
            &self.frame,
            &self.polygons,
            &self.walls,
            self.places.items(),
            &self.tree,
        );
        move_each(agents, &crowd, first, &mut self.scratch);
    }
}
