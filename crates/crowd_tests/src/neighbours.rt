// Trees over a few places, with expected neighbours by hand, and over a grid that is too large for a look
// at all places.
ghost use Rattle.std.specs.Prelude.{◌≡◌, ◌<◌, ◌^◌, All, IfOk, length};
ghost use Rattle.fixed_vec.specs.Vector.{IsBelow};
ghost use Rattle.agent_kdtree.specs.Placed.{IsPlaced};

use agent_kdtree::{Near, Tree};
use arrayvec::ArrayVec;
use crowd_data::Place;
use fixed_vec::{List, NoMemory, V2};
use std::alloc::Global;
use std::test::Fail;

fn walker(pos: V2) -> Place
    requires { IsBelow pos (2 ^ 31) }
    ensures { IsPlaced result }
{
    Place {
        pos,
        radius: 500,
        speed: 400,
    }
}

#[test]
fn no_places(rt: HostRuntime) -> Result<(), Fail> {
    Tree::over(rt.alloc(), &[])?;
    Ok(())
}

// The first agent considers one neighbour, and another one is near it.
#[test]
fn crowded(rt: HostRuntime) -> Result<(), Fail> {
    let places = [
        walker(V2 { x: 0, y: 0 }),
        walker(V2 { x: 1500, y: 0 }),
        walker(V2 { x: 0, y: 1700 }),
    ];
    let tree = Tree::over(rt.alloc(), &places)?;
    let near = tree.nearest(&places, 0, 15000, 1);
    assert_eq!(rt;
        near.as_slice(),
        [Near {
            agent: 1,
            dist: 2250000
        }]
        .as_slice()
    );
    assert!(rt; tree.misses_near(&places, 0, near.as_slice()));
    let near = tree.nearest(&places, 1, 15000, 10);
    let others = [
        Near {
            agent: 0,
            dist: 2250000,
        },
        Near {
            agent: 2,
            dist: 5140000,
        },
    ];
    assert_eq!(rt; near.as_slice(), others.as_slice());
    assert!(rt; !tree.misses_near(&places, 1, near.as_slice()));
    Ok(())
}

// The other one is one unit past being near.
#[test]
fn not_crowded_by_the_far(rt: HostRuntime) -> Result<(), Fail> {
    let places = [
        walker(V2 { x: 0, y: 0 }),
        walker(V2 { x: 1500, y: 0 }),
        walker(V2 { x: 0, y: 1801 }),
    ];
    let tree = Tree::over(rt.alloc(), &places)?;
    let near = tree.nearest(&places, 0, 15000, 1);
    assert_eq!(rt;
        near.as_slice(),
        [Near {
            agent: 1,
            dist: 2250000
        }]
        .as_slice()
    );
    assert!(rt; !tree.misses_near(&places, 0, near.as_slice()));
    assert!(rt; tree.misses_near(&places, 0, &[]));
    Ok(())
}

// Of two at the same distance, the one with the lower number comes first.
#[test]
fn tie(rt: HostRuntime) -> Result<(), Fail> {
    let places = [
        walker(V2 { x: 0, y: 0 }),
        walker(V2 { x: 1200, y: 0 }),
        walker(V2 { x: -1200, y: 0 }),
    ];
    let tree = Tree::over(rt.alloc(), &places)?;
    let first = Near {
        agent: 1,
        dist: 1440000,
    };
    let second = Near {
        agent: 2,
        dist: 1440000,
    };
    let near = tree.nearest(&places, 0, 15000, 1);
    assert_eq!(rt; near.as_slice(), [first].as_slice());
    assert!(rt; tree.misses_near(&places, 0, near.as_slice()));
    let near = tree.nearest(&places, 0, 15000, 2);
    assert_eq!(rt; near.as_slice(), [first, second].as_slice());
    assert!(rt; !tree.misses_near(&places, 0, near.as_slice()));
    Ok(())
}

// Just out of range, and just in it.
#[test]
fn range(rt: HostRuntime) -> Result<(), Fail> {
    let places = [walker(V2 { x: 0, y: 0 }), walker(V2 { x: 300, y: 400 })];
    let tree = Tree::over(rt.alloc(), &places)?;
    assert_eq!(rt; tree.nearest(&places, 0, 500, 10).len(), 0);
    assert_eq!(rt; tree.nearest(&places, 0, 501, 10).len(), 1);
    assert_eq!(rt; tree.nearest(&places, 0, 501, 0).len(), 0);
    Ok(())
}

const COUNT: u32 = 100000;

const ROW: u32 = 320;

const SPACING: u32 = 4000;

fn grid(alloc: Global) -> Result<List<Place>, NoMemory>
    ensures count { IfOk result (λ places. length places.items ≡ COUNT) }
    ensures placed { IfOk result (λ places. All IsPlaced places.items) }
{
    let mut places = List::with_room(alloc, COUNT as usize)?;
    for i in 0..COUNT {
        places.push(Place {
            pos: V2 {
                x: i64::from(SPACING * (i % ROW)),
                y: i64::from(SPACING * (i / ROW)),
            },
            radius: 500,
            speed: 200,
        });
    }
    Ok(places)
}

fn beside(agent: u32) -> Near {
    Near {
        agent,
        dist: 16000000,
    }
}

// Those of the four beside an agent of the grid that exist, in order of number.
fn around(who: u32) -> ArrayVec<Near, 4>
    requires { who < COUNT }
{
    let mut list = ArrayVec::new();
    if ROW <= who {
        list.push(beside(who - ROW));
    }
    if 0 < who % ROW {
        list.push(beside(who - 1));
    }
    if 0 < (who + 1) % ROW && who + 1 < COUNT {
        list.push(beside(who + 1));
    }
    if who + ROW < COUNT {
        list.push(beside(who + ROW));
    }
    list
}

#[test]
fn sees_the_next_in_a_large_grid(rt: HostRuntime) -> Result<(), Fail> {
    let places = grid(rt.alloc())?;
    let tree = Tree::over(rt.alloc(), places.items())?;
    for _ in 0..10u32 {
        for who in 0..COUNT {
            let near = tree.nearest(places.items(), who, 4500, 4);
            assert_eq!(rt; near.as_slice(), around(who).as_slice());
        }
    }
    Ok(())
}
