// The speed polygons of the agents of a scenario.
ghost use Rattle.std.specs.Prelude.{◌≡◌, ◌<◌, [], IfOk, length, slice_index_or};
ghost use Rattle.agent_step.specs.Frozen.{polygons_of};

use crate::shared_polygons::{SharedPolygons, shared_by};
use crowd_data::{FINE_RING, Scenario};
use fixed_vec::{HalfPlane, NoMemory};
use hard_plane::Ring;
use std::alloc::Global;
use std::marker::Model;

// Polygons of as many sides as the scenario's ring has points.
#[derive(Drop)]
enum Sides {
    Plain(SharedPolygons<36>),
    Fine(SharedPolygons<60>),
}

/// The speed polygons of all agents of a scenario, in order of number. They are made once, since no step
/// changes them, and agents of one speed share theirs.
#[derive(Drop)]
pub struct Polygons {
    polygons: Sides,
}

impl Model for Polygons {
    ghost use Rattle.std.specs.Prelude.{List};
    ghost use Rattle.fixed_vec.specs.HalfPlane.{Plane};
    ghost use Rattle.agent_step.specs.Polygons.{in_all};

    ghost Value = { List (List Plane) };

    ghost view = { λ p. in_all p.polygons };
}

impl Polygons {
    /// The speed polygons of the agents of this scenario, by its ring. `NoMemory` comes only where memory
    /// runs out (documented, not proved).
    pub fn open(alloc: Global, scenario: &Scenario) -> Result<Polygons, NoMemory>
        ensures { IfOk result (λ p. p ≡ polygons_of scenario.now) }
    {
        let agents = scenario.agents();
        if scenario.ring() == FINE_RING {
            let fine = shared_by(alloc, &Ring::<60>::fine(), agents)?;
            return Ok(Polygons {
                polygons: Sides::Fine(fine),
            });
        }
        let plain = shared_by(alloc, &Ring::<36>::plain(), agents)?;
        Ok(Polygons {
            polygons: Sides::Plain(plain),
        })
    }

    // The polygon of the agent with this number.
    pub(crate) fn of(&self, who: usize) -> &[HalfPlane]
        requires { who < length self.now }
        ensures { result.now ≡ slice_index_or self.now who [] }
    {
        match &self.polygons {
            Sides::Plain(shared) => shared.of(who),
            Sides::Fine(shared) => shared.of(who),
        }
    }
}
