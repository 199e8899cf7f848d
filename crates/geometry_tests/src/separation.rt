// Each law is called once, at a pair or a segment that meets what it needs.
use crowd_data::{Agent, Disc, Place, Segment, clear};
use fixed_vec::V2;
use separation_law::{far_pair, off_segment, pair_apart, pair_apart_at_end};

#[test]
fn laws_hold_of_worked_pairs() {
    // Head on and far off: both may go on as they do.
    let low = Disc {
        pos: V2 { x: 0, y: 0 },
        vel: V2 { x: 200, y: 0 },
        radius: 500,
    };
    let high = Disc {
        pos: V2 { x: 10000, y: 0 },
        vel: V2 { x: -200, y: 0 },
        radius: 500,
    };
    pair_apart(&low, &high, 10, low.vel, high.vel, 1, 1);

    // Nearer, and not quite head on: the left leg. One turns left, the other one all but stops.
    let near = Disc {
        pos: V2 { x: 3000, y: 0 },
        vel: V2 { x: -200, y: -1 },
        radius: 500,
    };
    pair_apart(
        &low,
        &near,
        10,
        V2 { x: 0, y: 100 },
        V2 { x: 2, y: 0 },
        1,
        1,
    );

    // In one place: 500 units to each side are enough.
    let still = Disc {
        pos: V2 { x: 0, y: 0 },
        vel: V2 { x: 0, y: 0 },
        radius: 500,
    };
    pair_apart_at_end(
        &still,
        &still,
        10,
        V2 { x: 500, y: 0 },
        V2 { x: -500, y: 0 },
        1,
        1,
    );
    // Of the 1000 units, three parts of four fall to the one that weighs three times as much.
    pair_apart_at_end(
        &still,
        &still,
        10,
        V2 { x: 750, y: 0 },
        V2 { x: -250, y: 0 },
        3,
        1,
    );

    // One unit past being near: they may run at each other.
    let a = Place {
        pos: V2 { x: 0, y: 0 },
        radius: 500,
        speed: 400,
    };
    let b = Place {
        pos: V2 { x: 0, y: 1801 },
        radius: 500,
        speed: 400,
    };
    far_pair(&a, &b, V2 { x: 0, y: 400 }, V2 { x: 0, y: -400 });
}

#[test]
fn wall_law_holds_of_worked_segments(rt: HostRuntime) {
    let origin = V2 { x: 0, y: 0 };
    let walker = Agent {
        pos: origin,
        vel: origin,
        pref: origin,
        radius: 500,
        speed: 400,
        range: 15000,
        most: 10,
        horizon: 10,
        wall_horizon: 10,
        weight: 1,
    };

    // Abreast of a wall 1000 units away: 50 units per step come to touching it in 10 steps.
    let wall = Segment {
        a: V2 { x: -2000, y: 1000 },
        b: V2 { x: 2000, y: 1000 },
    };
    assert!(rt; clear(origin, 500, &wall));
    off_segment(origin, &walker, &wall, V2 { x: 300, y: 50 });

    // One unit out of reach: straight at it.
    let far = Segment {
        a: V2 { x: -2000, y: 4501 },
        b: V2 { x: 2000, y: 4501 },
    };
    assert!(rt; clear(origin, 500, &far));
    off_segment(origin, &walker, &far, V2 { x: 0, y: 400 });

    // Touching an end, at rest.
    let touched = Segment {
        a: V2 { x: 500, y: 0 },
        b: V2 { x: 2000, y: 0 },
    };
    assert!(rt; clear(origin, 500, &touched));
    off_segment(origin, &walker, &touched, origin);
}
