// Scenarios of a few agents.
use crowd_data::{Agent, Goal, LATEST_VERSION, Scenario, Segment, valid};
use fixed_vec::{List, NoMemory};
use std::alloc::Global;
use std::test::Fail;

fn list_of<T: Copy>(alloc: Global, items: &[T]) -> Result<List<T>, NoMemory> {
    let mut list = List::with_room(alloc, items.len())?;
    for item in items {
        list.reserve(1)?;
        list.push(*item);
    }
    Ok(list)
}

/// A scenario without steps or posts, the speed polygons of its agents being made by this ring. What it is made of is
/// tested as it runs, so that no proof computes on it.
pub(crate) fn scenario_of(
    alloc: Global,
    ring: u32,
    crowd: &[Agent],
    segments: &[Segment],
    goals: &[Goal],
) -> Result<Scenario, Fail> {
    let agents = list_of(alloc, crowd)?;
    let walls = list_of(alloc, segments)?;
    let posts = List::with_room(alloc, 0)?;
    let aims = list_of(alloc, goals)?;
    if valid(
        LATEST_VERSION,
        ring,
        0,
        agents.items(),
        walls.items(),
        posts.items(),
        aims.items(),
    ) {
        Ok(Scenario::of(LATEST_VERSION, ring, 0, agents, walls, posts, aims))
    } else {
        Ok(Err::<Scenario, &str>("a test asks for what is no crowd")?)
    }
}
