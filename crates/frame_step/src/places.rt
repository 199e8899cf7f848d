// Where all agents stand.
ghost use Rattle.std.specs.Prelude.{◌≡◌, ◌≤◌, ◌+◌, map, length};
ghost use Rattle.crowd_data.specs.Advice.{place_of};
ghost use Rattle.crowd_data.specs.Run.{crowd_of};

use crowd_data::{Agent, Body, Place};
use fixed_vec::List;

/// Makes the places of all agents as their bodies stand.
pub(crate) fn place_all(places: &mut List<Place>, agents: &[Agent], bodies: &[Body])
    requires full { length bodies.now ≡ length agents.now }
    requires room { length agents.now ≤ length places.old.items + places.old.spare }
    ensures places { places.new.items ≡ map place_of (crowd_of agents.now bodies.now) }
    ensures room { length agents.now ≤ length places.new.items + places.new.spare }
{
    places.clear();
    for who in 0..agents.len() {
        places.push(Place {
            pos: bodies[who].pos,
            radius: agents[who].radius,
            speed: agents[who].speed,
        });
    }
}
