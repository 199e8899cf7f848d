// Pairs worked out by hand.
ghost use Rattle.std.specs.Prelude.{◌≡◌, pos};
ghost use Rattle.crowd_data.specs.Limits.{IsWeight};
ghost use Rattle.crowd_data.specs.Pairs.{IsPair};

use crowd_data::{Disc, Region};
use fixed_vec::{HalfPlane, V2};
use pair_plane::{higher_plane, lower_plane, region, relative_plane};

// A pair, and what has to come of it: the half-planes as normal and offset, the shares drawn in.
#[derive(Clone, Copy)]
struct Case {
    low: Disc,
    high: Disc,
    tau: u32,
    weights: (u32, u32),
    region: Region,
    relative: (V2, i128),
    lower: (V2, i128),
    higher: (V2, i128),
    ghost limits: { IsPair low high tau },
    ghost low_weight: { IsWeight weights.0 },
    ghost high_weight: { IsWeight weights.1 },
}

fn v2(x: i64, y: i64) -> V2
    ensures { result ≡ record { x = x; y = y } }
{
    V2 { x, y }
}

fn disc(pos: V2, vel: V2, radius: u32) -> Disc
    ensures { result ≡ record { pos = pos; vel = vel; radius = radius } }
{
    Disc { pos, vel, radius }
}

fn is(plane: &HalfPlane, wanted: (V2, i128)) -> bool {
    plane.n() == wanted.0 && plane.c() == wanted.1
}

#[test]
fn pairs_worked_by_hand(rt: HostRuntime) {
    let cases = [
        // Head on, far off: the arc.
        Case {
            low: disc(v2(0, 0), v2(200, 0), 500),
            high: disc(v2(10000, 0), v2(-200, 0), 500),
            tau: 10,
            weights: (1, 1),
            region: Region::Arc,
            relative: (v2(-6000, 0), -5400000),
            lower: (v2(-6000, 0), -2697000),
            higher: (v2(6000, 0), -2697000),
        },
        // The same at the end of the numbers.
        Case {
            low: disc(v2(i64::MIN, i64::MAX), v2(200, 0), 500),
            high: disc(v2(i64::MIN + 10000, i64::MAX), v2(-200, 0), 500),
            tau: 10,
            weights: (1, 1),
            region: Region::Arc,
            relative: (v2(-6000, 0), -5400000),
            lower: (v2(-6000, 0), -2697000),
            higher: (v2(6000, 0), -2697000),
        },
        // Head on, nearer: the right leg.
        Case {
            low: disc(v2(0, 0), v2(200, 0), 500),
            high: disc(v2(3000, 0), v2(-200, 0), 500),
            tau: 10,
            weights: (1, 1),
            region: Region::Right,
            relative: (v2(-3000000, -8484000), 0),
            lower: (v2(-3000000, -8484000), 5742000),
            higher: (v2(3000000, 8484000), 5742000),
        },
        // Not quite head on: the left leg.
        Case {
            low: disc(v2(0, 0), v2(200, 0), 500),
            high: disc(v2(3000, 0), v2(-200, -1), 500),
            tau: 10,
            weights: (1, 1),
            region: Region::Left,
            relative: (v2(-3000000, 8484000), 0),
            lower: (v2(-3000000, 8484000), 1500000),
            higher: (v2(3000000, -8484000), 9984000),
        },
        // Touching at rest: a leg of length 0.
        Case {
            low: disc(v2(0, 0), v2(0, 0), 500),
            high: disc(v2(1000, 0), v2(0, 0), 500),
            tau: 10,
            weights: (1, 1),
            region: Region::Right,
            relative: (v2(-1000000, 0), 0),
            lower: (v2(-1000000, 0), 500000),
            higher: (v2(1000000, 0), 500000),
        },
        // In one place at rest: no way out is nearer than another.
        Case {
            low: disc(v2(0, 0), v2(0, 0), 500),
            high: disc(v2(0, 0), v2(0, 0), 500),
            tau: 10,
            weights: (1, 1),
            region: Region::Overlap,
            relative: (v2(1, 0), 1000),
            lower: (v2(1, 0), 501),
            higher: (v2(-1, 0), 501),
        },
        // An overlap at the limits, with an odd lack.
        Case {
            low: disc(v2(0, 0), v2(16384, 0), 32768),
            high: disc(v2(65535, 0), v2(-16384, 0), 32768),
            tau: 4096,
            weights: (1, 1),
            region: Region::Overlap,
            relative: (v2(-32767, 0), 32767),
            lower: (v2(-32767, 0), 32768),
            higher: (v2(32767, 0), 32767),
        },
        // In one place at rest, one three times as heavy: 750 and 250 of 1000.
        Case {
            low: disc(v2(0, 0), v2(0, 0), 500),
            high: disc(v2(0, 0), v2(0, 0), 500),
            tau: 10,
            weights: (3, 1),
            region: Region::Overlap,
            relative: (v2(1, 0), 1000),
            lower: (v2(1, 0), 751),
            higher: (v2(-1, 0), 251),
        },
        // The lightest and the heaviest: 1000 / 17 is 58.8, so 59 and 941.
        Case {
            low: disc(v2(0, 0), v2(0, 0), 500),
            high: disc(v2(0, 0), v2(0, 0), 500),
            tau: 10,
            weights: (1, 16),
            region: Region::Overlap,
            relative: (v2(1, 0), 1000),
            lower: (v2(1, 0), 60),
            higher: (v2(-1, 0), 942),
        },
        // More room than they need, which is split too: 2/3 of -3000000 and 1/3.
        Case {
            low: disc(v2(0, 0), v2(200, 0), 500),
            high: disc(v2(10000, 0), v2(-200, 0), 500),
            tau: 10,
            weights: (2, 1),
            region: Region::Arc,
            relative: (v2(-6000, 0), -5400000),
            lower: (v2(-6000, 0), -3197000),
            higher: (v2(6000, 0), -2197000),
        },
    ];
    for (k, case) in cases.iter().enumerate() {
        let found = region(&case.low, &case.high, case.tau);
        let relative = relative_plane(&case.low, &case.high, case.tau);
        let lower = lower_plane(
            &case.low,
            &case.high,
            case.tau,
            case.weights.0,
            case.weights.1,
        );
        let higher = higher_plane(
            &case.low,
            &case.high,
            case.tau,
            case.weights.0,
            case.weights.1,
        );
        assert!(rt; found == case.region, "region of pair {k}");
        assert!(rt; is(&relative, case.relative), "relative plane of pair {k}");
        assert!(rt; is(&lower, case.lower), "lower plane of pair {k}");
        assert!(rt; is(&higher, case.higher), "higher plane of pair {k}");
    }
}
