// Calls that take memory, and values worked out by hand.
use fixed_vec::{
    HalfPlane, List, Point, V2, ceil_root, cross, div_down, div_up, dot, floor_root, minus, perp,
    plus, side, triple,
};
use std::cmp::Ordering;
use std::test::Fail;

#[test]
fn lists_take_what_they_have_room_for(rt: HostRuntime) -> Result<(), Fail> {
    let mut list = List::with_room(rt.alloc(), 2)?;
    list.push(7u32);
    list.push(8);
    list.reserve(1)?;
    list.push(9);
    list.set(1, 5);
    assert_eq!(rt; list.items(), [7u32, 5, 9].as_slice());
    list.clear();
    assert_eq!(rt; list.items().len(), 0);
    list.push(1);
    assert_eq!(rt; list.items(), [1u32].as_slice());
    Ok(())
}

#[test]
fn vectors(rt: HostRuntime) -> Result<(), Fail> {
    let a = V2 { x: 3, y: -4 };
    let b = V2 { x: 5, y: 2 };
    assert_eq!(rt; dot(a, b), 7);
    assert_eq!(rt; cross(a, b), 26);
    assert_eq!(rt; perp(a), V2 { x: 4, y: 3 });
    assert_eq!(rt; plus(a, b), V2 { x: 8, y: -2 });
    assert_eq!(rt; minus(a, b), V2 { x: -2, y: -6 });
    Ok(())
}

#[test]
fn quotients(rt: HostRuntime) -> Result<(), Fail> {
    for (n, d, down, up) in [
        (7i128, 2i128, 3i128, 4i128),
        (-7, 2, -4, -3),
        (6, 3, 2, 2),
        (-6, 3, -2, -2),
        (0, 5, 0, 0),
        (1, 5, 0, 1),
        (-1, 5, -1, 0),
    ] {
        if d > 0 {
            assert_eq!(rt; div_down(n, d), down, "{n} / {d}");
            assert_eq!(rt; div_up(n, d), up, "{n} / {d}");
        }
    }
    assert_eq!(rt; div_up(i128::MIN, 1), i128::MIN);
    assert_eq!(rt; div_up(i128::MAX, 1), i128::MAX);
    Ok(())
}

#[test]
fn roots(rt: HostRuntime) -> Result<(), Fail> {
    for (n, down, up) in [
        (0u128, 0u64, 0u64),
        (1, 1, 1),
        (2, 1, 2),
        (24, 4, 5),
        (25, 5, 5),
        (26, 5, 6),
    ] {
        if n < 100 {
            assert_eq!(rt; floor_root(n), down, "{n}");
            assert_eq!(rt; ceil_root(n), up, "{n}");
        }
    }
    assert_eq!(rt; floor_root((1u128 << 120) - 1), (1u64 << 60) - 1);
    assert_eq!(rt; ceil_root((1u128 << 120) - 1), 1u64 << 60);
    Ok(())
}

// The half-plane of a lower agent that meets another one head-on.
#[test]
fn half_planes(rt: HostRuntime) -> Result<(), Fail> {
    let plane = HalfPlane::of(V2 { x: -6000, y: 0 }, -2_700_000);
    assert_eq!(rt; plane.length(), 6000);
    assert_eq!(rt; plane.drawn().n(), V2 { x: -6000, y: 0 });
    assert_eq!(rt; plane.drawn().c(), -2_697_000);
    assert_eq!(rt; plane.relieved(3).c(), -2_718_000);
    Ok(())
}

#[test]
fn points(rt: HostRuntime) -> Result<(), Fail> {
    let plane = HalfPlane::of(V2 { x: 2, y: 1 }, 3);
    assert_eq!(rt; side(&plane, &Point::of(1, 1, 1)), Ordering::Equal);
    assert_eq!(rt; side(&plane, &Point::of(2, 1, 2)), Ordering::Less);
    assert_eq!(rt; side(&plane, &Point::of(5, 3, 2)), Ordering::Greater);
    assert_eq!(rt; Point::of(1, -1, 2).rounded(), V2 { x: 1, y: 0 });
    assert_eq!(rt; Point::of(7, -7, 3).rounded(), V2 { x: 2, y: -2 });
    let across = HalfPlane::of(V2 { x: 1, y: 0 }, 5);
    let along = HalfPlane::of(V2 { x: 0, y: 1 }, 7);
    assert_eq!(rt; triple(&across, &along, &plane), -14);
    Ok(())
}
