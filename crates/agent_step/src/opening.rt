// What is opened for the steps of a scenario: what stays the same in all its frames, and its first places.
ghost use Rattle.std.specs.Prelude.{◌≡◌, ◌<◌, ◌^◌, All, IfOk, length, map};
ghost use Rattle.crowd_data.specs.Advice.{place_of};
ghost use Rattle.crowd_data.specs.Limits.{IsAgent};
ghost use Rattle.agent_kdtree.specs.Stands.{StandsFor};
ghost use Rattle.agent_step.specs.Frozen.{polygons_of};
ghost use Rattle.agent_step.specs.WallBlocks.{StandsForWalls};

use crate::polygons::Polygons;
use crate::wall_blocks::WallBlocks;
use agent_kdtree::Tree;
use crowd_data::{Agent, Place, Scenario};
use fixed_vec::{List, NoMemory};
use std::alloc::Global;

/// What stays the same in all frames of a scenario: the speed polygons of its agents, and its walls by
/// blocks. `NoMemory` comes only where memory runs out (documented, not proved).
pub fn open_fixed(alloc: Global, scenario: &Scenario) -> Result<(Polygons, WallBlocks), NoMemory>
    ensures polygons { IfOk result (λ fixed. fixed.0 ≡ polygons_of scenario.now) }
    ensures walls { IfOk result (λ fixed. StandsForWalls fixed.1 scenario.now.segments) }
{
    let polygons = Polygons::open(alloc, scenario)?;
    let walls = WallBlocks::open(alloc, scenario.segments())?;
    Ok((polygons, walls))
}

// The places of agents.
fn places_of(alloc: Global, agents: &[Agent]) -> Result<List<Place>, NoMemory>
    ensures { IfOk result (λ places. places.items ≡ map place_of agents.now) }
{
    let mut places = List::with_room(alloc, agents.len())?;
    for agent in agents {
        places.push(Place {
            pos: agent.pos,
            radius: agent.radius,
            speed: agent.speed,
        });
    }
    Ok(places)
}

/// The places of agents at their start, and a tree that stands for them. `NoMemory` comes only where memory
/// runs out (documented, not proved).
pub fn open_places(alloc: Global, agents: &[Agent]) -> Result<(List<Place>, Tree), NoMemory>
    requires few { length agents.now < 2 ^ 32 }
    requires agents { All IsAgent agents.now }
    ensures places { IfOk result (λ opened. opened.0.items ≡ map place_of agents.now) }
    ensures tree { IfOk result (λ opened. StandsFor opened.1 opened.0.items) }
{
    let places = places_of(alloc, agents)?;
    let tree = Tree::over(alloc, places.items())?;
    Ok((places, tree))
}
