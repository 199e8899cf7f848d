// Half-planes computed by hand.
ghost use Rattle.std.specs.Prelude.{◌≡◌};
ghost use Rattle.crowd_data.specs.Limits.{IsPosition};
ghost use Rattle.fixed_vec.specs.HalfPlane.{FitsPlane, drawn_of};

use crowd_data::{Agent, Segment, clear};
use fixed_vec::{HalfPlane, Point, V2};
use hard_plane::{Ring, in_reach, inner_law, speed_law, wall_plane};
use std::process::Abort;

const ORIGIN: V2 = V2 { x: 0, y: 0 };

// It comes 500 + 4 * 400 = 2100 far within its wall horizon.
const WALKER: Agent = Agent {
    pos: ORIGIN,
    vel: ORIGIN,
    pref: ORIGIN,
    radius: 500,
    speed: 400,
    range: 0,
    most: 0,
    horizon: 1,
    wall_horizon: 4,
    weight: 1,
};

#[test]
fn polygon_of_a_speed(rt: HostRuntime) {
    let ring = Ring::<36>::plain();
    // (point, speed, normal, offset)
    let edges = [
        (0, 66, V2 { x: -16, y: -2 }, -1040),
        (35, 66, V2 { x: -16, y: 2 }, -1040),
        (0, 16384, V2 { x: -16, y: -2 }, -262128),
        // -2 * 1183 / 65 = -36.4
        (4, 3, V2 { x: -13, y: -13 }, -36),
    ];
    for (k, speed, normal, offset) in edges {
        let plane = ring.plane(k, speed);
        assert_eq!(rt; plane.n(), normal, "at {k}");
        assert_eq!(rt; plane.c(), offset, "at {k}");
    }
}

#[test]
fn polygon_of_a_speed_by_the_fine_ring(rt: HostRuntime) {
    let ring = Ring::<60>::fine();
    // (point, speed, normal, offset)
    let edges = [
        (0, 326, V2 { x: -36, y: -2 }, -11700),
        (59, 326, V2 { x: -36, y: 2 }, -11700),
        (0, 16384, V2 { x: -36, y: -2 }, -589788),
        // -3 * 3705 / 325 = -34.2
        (2, 4, V2 { x: -11, y: -3 }, -34),
    ];
    for (k, speed, normal, offset) in edges {
        let plane = ring.plane(k, speed);
        assert_eq!(rt; plane.n(), normal, "at {k}");
        assert_eq!(rt; plane.c(), offset, "at {k}");
    }
}

#[test]
fn no_way_from_the_origin_at_speeds_0_and_1(rt: HostRuntime) {
    let ring = Ring::<36>::plain();
    for k in 0..36 {
        assert_eq!(rt; ring.plane(k, 0).c(), 0, "at {k}");
        assert_eq!(rt; ring.plane(k, 1).c(), 0, "at {k}");
    }
}

// What is well within a speed is in its half-planes, so it is near enough to be rounded.
#[test]
fn rounds_a_point_within_a_speed(rt: HostRuntime) {
    let point = Point::of(61, 81, 2);
    inner_law(66, &point);
    speed_law(66, &point);
    assert_eq!(rt; point.rounded(), V2 { x: 31, y: 41 });
    Ring::<36>::plain().speed_law(66, &point);
    Ring::<60>::fine().speed_law(66, &point);
}

#[test]
fn reaches_as_far_as_its_box_grown(rt: HostRuntime) {
    let wall = Segment {
        a: V2 { x: 2000, y: 800 },
        b: V2 { x: -2000, y: 800 },
    };
    // (position, in reach)
    let places = [
        (ORIGIN, true),
        (V2 { x: 4100, y: 800 }, true),
        (V2 { x: 4101, y: 800 }, false),
        (V2 { x: -4100, y: 800 }, true),
        (V2 { x: -4101, y: 800 }, false),
        (V2 { x: 0, y: 2900 }, true),
        (V2 { x: 0, y: 2901 }, false),
        (V2 { x: 0, y: -1300 }, true),
        (V2 { x: 0, y: -1301 }, false),
    ];
    for (pos, want) in places {
        assert_eq!(rt; in_reach(pos, &WALKER, &wall), want);
    }
}

// The wall plane of the walker and this segment, which is in its reach and which it is clear of.
fn plane_of(rt: &impl Abort, a: V2, b: V2) -> HalfPlane
    requires a_limit { IsPosition a }
    requires b_limit { IsPosition b }
    ensures { FitsPlane (drawn_of result) }
{
    let wall = Segment { a, b };
    assert!(rt; in_reach(ORIGIN, &WALKER, &wall));
    assert!(rt; clear(ORIGIN, WALKER.radius, &wall));
    wall_plane(ORIGIN, &WALKER, &wall)
}

#[test]
fn wall_planes_by_hand(rt: HostRuntime) {
    // (one end, the other end, normal, offset, offset when drawn in)
    let walls = [
        // beside it, on its right
        (
            V2 { x: -2000, y: 800 },
            V2 { x: 2000, y: 800 },
            V2 { x: 0, y: -4000 },
            -300000,
            -298000,
        ),
        // beside it, on its left
        (
            V2 { x: 2000, y: 800 },
            V2 { x: -2000, y: 800 },
            V2 { x: 0, y: -4000 },
            -300000,
            -298000,
        ),
        // before its near end
        (
            V2 { x: 1000, y: 0 },
            V2 { x: 2000, y: 0 },
            V2 { x: -1000, y: 0 },
            -125000,
            -124500,
        ),
        // beyond its far end
        (
            V2 { x: 2000, y: 0 },
            V2 { x: 1000, y: 0 },
            V2 { x: -1000, y: 0 },
            -125000,
            -124500,
        ),
        // one point: the root of 1,000,001 and -499,501 / 4 are rounded up
        (
            V2 { x: 1000, y: 1 },
            V2 { x: 1000, y: 1 },
            V2 { x: -1000, y: -1 },
            -124875,
            -124374,
        ),
    ];
    for (a, b, normal, offset, drawn_offset) in walls {
        let plane = plane_of(&rt, a, b);
        assert_eq!(rt; plane.n(), normal);
        assert_eq!(rt; plane.c(), offset);
        assert_eq!(rt; plane.drawn().c(), drawn_offset);
    }
}
