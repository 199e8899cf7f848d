// Speed polygons that agents of one speed share.
ghost use Rattle.std.specs.Prelude.{◌≡◌, ◌+◌, ◌≤◌, ◌<◌, ◌^◌, ℕ, [], All, IfOk, IfSome, length, map, slice_index_or};
ghost use Rattle.crowd_data.specs.Limits.{IsAgent, fine_ring};
ghost use Rattle.crowd_data.specs.RingPlanes.{ring_planes_of};
ghost use Rattle.crowd_data.specs.declared.agent.Agent.{Agent};
ghost use Rattle.agent_step.specs.SharedPolygons.{at_places};

use crowd_data::{Agent, GREATEST_SPEED};
use fixed_vec::{HalfPlane, List, NoMemory};
use hard_plane::Ring;
use std::alloc::Global;

/// The polygons of some speeds, and the place of each agent's among them, in order of number.
#[derive(Drop)]
pub(crate) struct SharedPolygons<const K: usize> {
    pub polygons: List<[HalfPlane; K]>,
    pub places: List<u32>,
}

// The half-planes between which a speed is kept, in order.
fn polygon<const K: usize>(ring: &Ring<K>, speed: u32) -> [HalfPlane; K]
    requires some { 0 < K }
    requires speed { speed ≤ GREATEST_SPEED }
    ensures { result ≡ ring_planes_of ring.now.radius ring.now.points speed }
{
    let mut planes = [ring.plane(0, speed); K];
    for k in 0..K {
        planes[k] = ring.plane(k, speed);
    }
    planes
}

// So many zeros.
fn zeros(alloc: Global, count: usize) -> Result<List<u32>, NoMemory> {
    let mut list = List::with_room(alloc, count)?;
    for _ in 0..count {
        list.push(0);
    }
    Ok(list)
}

// Where the place of a speed is noted among as many slots as these.
fn slot(places: &[u32], speed: u32) -> usize {
    speed as usize % places.len().max(1)
}

// Where a speed stands among these, as the noted places have it. That is tested, so nothing rests on them.
fn place_of(speeds: &[u32], noted: &[u32], speed: u32) -> Option<usize>
    ensures within { IfSome result (λ k. k < length speeds.now) }
    ensures value { IfSome result (λ k. slice_index_or speeds.now k 0 ≡ speed) }
{
    let Some(place) = noted.get(slot(noted, speed)) else {
        return None;
    };
    let place = *place as usize;
    if place < speeds.len() && speeds[place] == speed {
        Some(place)
    } else {
        None
    }
}

// Notes where a speed stands.
fn note(noted: &mut List<u32>, speed: u32, place: usize)
    requires { place < 2 ^ 32 }
{
    let slot = slot(noted.items(), speed);
    if slot < noted.items().len() {
        noted.set(slot, place as u32);
    }
}

// The place of a speed among these, which is put behind the others where it isn't found.
fn place_for(speeds: &mut List<u32>, noted: &mut List<u32>, speed: u32) -> usize
    requires room { 1 ≤ speeds.old.spare }
    requires few { length speeds.old.items < 2 ^ 32 }
    ensures within { result < length speeds.new.items }
    ensures value { slice_index_or speeds.new.items result 0 ≡ speed }
    ensures kept { (k : ℕ) → k < length speeds.old.items → slice_index_or speeds.new.items k 0 ≡ slice_index_or speeds.old.items k 0 }
    ensures slow { (most : ℕ) → speed ≤ most → All (λ s. s ≤ most) speeds.old.items → All (λ s. s ≤ most) speeds.new.items }
    ensures no_fewer { length speeds.old.items ≤ length speeds.new.items }
    ensures one_more { length speeds.new.items ≤ length speeds.old.items + 1 }
    ensures spare { speeds.old.spare ≤ speeds.new.spare + 1 }
{
    if let Some(place) = place_of(speeds.items(), noted.items(), speed) {
        return place;
    }
    let place = speeds.items().len();
    note(noted, speed, place);
    speeds.push(speed);
    place
}

// The polygons of these speeds by a ring.
fn polygons_of<const K: usize>(
    alloc: Global,
    ring: &Ring<K>,
    speeds: &[u32],
) -> Result<List<[HalfPlane; K]>, NoMemory>
    requires some { 0 < K }
    requires speeds { All (λ speed. speed ≤ GREATEST_SPEED) speeds.now }
    ensures { IfOk result (λ list. list.items ≡ map (ring_planes_of ring.now.radius ring.now.points) speeds.now) }
{
    let mut polygons = List::with_room(alloc, speeds.len())?;
    for speed in speeds {
        polygons.push(polygon(ring, *speed));
    }
    Ok(polygons)
}

// The speeds of some agents, and the place of each agent's among them, in order of number.
#[derive(Drop)]
struct Speeds {
    speeds: List<u32>,
    places: List<u32>,
}

// All speeds of these agents. One may be there twice, where another one's place was noted in its slot.
fn speeds_of(alloc: Global, agents: &[Agent]) -> Result<Speeds, NoMemory>
    requires agents { All IsAgent agents.now }
    requires few { length agents.now < 2 ^ 32 }
    ensures places { IfOk result (λ s. map (λ k. slice_index_or s.speeds.items k 0) s.places.items ≡ map (λ (agent : Agent). agent.speed) agents.now) }
    ensures within { IfOk result (λ s. All (λ k. k < length s.speeds.items) s.places.items) }
    ensures slow { IfOk result (λ s. All (λ speed. speed ≤ GREATEST_SPEED) s.speeds.items) }
{
    let mut noted = zeros(alloc, 2 * agents.len() + 1)?;
    let mut speeds = List::with_room(alloc, agents.len())?;
    let mut places = List::with_room(alloc, agents.len())?;
    for agent in agents {
        let place = place_for(&mut speeds, &mut noted, agent.speed);
        places.push(place as u32);
    }
    Ok(Speeds { speeds, places })
}

/// The polygons of all these agents by a ring.
pub(crate) fn shared_by<const K: usize>(
    alloc: Global,
    ring: &Ring<K>,
    agents: &[Agent],
) -> Result<SharedPolygons<K>, NoMemory>
    requires some { 0 < K }
    requires sides { K ≤ fine_ring }
    requires agents { All IsAgent agents.now }
    requires few { length agents.now < 2 ^ 32 }
    ensures { IfOk result (λ s. at_places s.polygons.items s.places.items ≡ map (λ (agent : Agent). ring_planes_of ring.now.radius ring.now.points agent.speed) agents.now) }
{
    let Speeds { speeds, places } = speeds_of(alloc, agents)?;
    let polygons = polygons_of(alloc, ring, speeds.items())?;
    Ok(SharedPolygons { polygons, places })
}

impl<const K: usize> SharedPolygons<K> {
    /// The polygon of the agent with this number.
    pub fn of(&self, who: usize) -> &[HalfPlane]
        requires { who < length self.now.places.items }
        ensures { result.now ≡ slice_index_or (at_places self.now.polygons.items self.now.places.items) who [] }
    {
        let place = self.places.items()[who] as usize;
        match self.polygons.items().get(place) {
            Some(polygon) => polygon.as_slice(),
            None => &[],
        }
    }
}
