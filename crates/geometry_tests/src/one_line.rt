// Worked lines, with expected points by hand.
ghost use Rattle.std.specs.Prelude.{◌≡◌, ◌^◌, ◌<◌, ◌≤◌};
ghost use Rattle.fixed_vec.specs.HalfPlane.{FitsPlane};
ghost use Rattle.planar_line.specs.Border.{IsPreference};
ghost use Rattle.planar_line.specs.Relief.{HasReliefRoom};

use fixed_vec::{HalfPlane, Point, V2};
use planar_line::best_on_line;

const ZERO: V2 = V2 { x: 0, y: 0 };

fn plane(x: i64, y: i64, c: i128) -> HalfPlane
    requires fits { FitsPlane (record { n = record { x = x; y = y }; c = c }) }
    ensures { result ≡ record { n = record { x = x; y = y }; c = c } }
{
    HalfPlane::of(V2 { x, y }, c)
}

// The best point on the border of the second of two half-planes.
fn best_on_second(
    first: HalfPlane,
    second: HalfPlane,
    hard: usize,
    relief: u32,
    pref: V2,
) -> Option<Point>
    requires first { HasReliefRoom first }
    requires second { HasReliefRoom second }
    requires hard { hard ≤ 2 }
    requires relief { relief < 2 ^ 18 }
    requires pref { IsPreference pref }
{
    best_on_line(&[first, second], hard, relief, 1, pref)
}

// Whether the answer is the point (x, y).
fn is_at(answer: Option<Point>, x: i128, y: i128) -> bool {
    match answer {
        None => false,
        Some(point) => {
            let q = point.q();
            point.x() % q == 0 && point.x() / q == x && point.y() % q == 0 && point.y() / q == y
        }
    }
}

#[test]
fn crossing_with_earlier(rt: HostRuntime) {
    let first = plane(1, 0, 5);
    let second = plane(0, 1, 2);
    let best = best_on_second(first, second, 2, 0, ZERO);
    assert!(rt; is_at(best, 5, 2));
}

#[test]
fn foot_where_a_parallel_admits(rt: HostRuntime) {
    let first = plane(0, 1, 1);
    let second = plane(0, 1, 2);
    let best = best_on_second(first, second, 2, 0, ZERO);
    assert!(rt; is_at(best, 0, 2));
}

#[test]
fn none_where_an_opposite_excludes(rt: HostRuntime) {
    let first = plane(0, -1, -1);
    let second = plane(0, 1, 2);
    let best = best_on_second(first, second, 2, 0, ZERO);
    assert!(rt; best.is_none());
}

#[test]
fn none_where_a_parallel_excludes(rt: HostRuntime) {
    let first = plane(0, 1, 5);
    let second = plane(0, 1, 2);
    let best = best_on_second(first, second, 2, 0, ZERO);
    assert!(rt; best.is_none());
}

#[test]
fn opposites_with_one_border(rt: HostRuntime) {
    let first = plane(1, 0, 3);
    let second = plane(-1, 0, -3);
    let best = best_on_second(first, second, 2, 0, V2 { x: 9, y: 7 });
    assert!(rt; is_at(best, 3, 7));
}

#[test]
fn both_relieved(rt: HostRuntime) {
    let first = plane(1, 0, 5);
    let second = plane(0, 1, 2);
    let best = best_on_second(first, second, 0, 1, ZERO);
    assert!(rt; is_at(best, 4, 1));
}

#[test]
fn hard_one_not_relieved(rt: HostRuntime) {
    let first = plane(1, 0, 5);
    let second = plane(0, 1, 2);
    let best = best_on_second(first, second, 1, 1, ZERO);
    assert!(rt; is_at(best, 5, 1));
}
