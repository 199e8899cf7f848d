// Room for the half-planes of one agent.
ghost use Rattle.std.specs.Prelude.{◌≤◌, IfOk};
ghost use Rattle.agent_step.specs.Frozen.{most_planes};

use crowd_data::{FINE_RING, MOST_NEIGHBOURS};
use fixed_vec::{HalfPlane, List, NoMemory};
use std::alloc::Global;
use std::marker::Model;

/// Room for the half-planes of one agent, which is used again for each agent and step. Clauses see how
/// many half-planes it has room for.
#[derive(Drop)]
pub struct Scratch {
    pub(crate) planes: List<HalfPlane>,
}

impl Model for Scratch {
    ghost use Rattle.std.specs.Prelude.{ℕ, ◌+◌, length};

    ghost Value = { ℕ };

    ghost view = { λ s. length s.planes.items + s.planes.spare };
}

impl Scratch {
    /// Room for an agent among so many segments. Each can make a half-plane, as each of its neighbours does,
    /// and the speed polygon makes as many as its ring has points. `NoMemory` comes only where memory runs
    /// out (documented, not proved).
    pub fn open(alloc: Global, segments: usize) -> Result<Scratch, NoMemory>
        ensures { IfOk result (λ s. most_planes segments ≤ s) }
    {
        let others = (MOST_NEIGHBOURS + FINE_RING) as usize;
        let Some(room) = segments.checked_add(others) else {
            return Err(NoMemory);
        };
        Ok(Scratch {
            planes: List::with_room(alloc, room)?,
        })
    }
}
