// Worked programs of two half-planes, with expected points and reliefs by hand.
ghost use Rattle.std.specs.Prelude.{◌≡◌, ◌^◌, ◌<◌, ◌≤◌};
ghost use Rattle.fixed_vec.specs.HalfPlane.{FitsPlane};
ghost use Rattle.planar_line.specs.Border.{IsPreference};
ghost use Rattle.planar_line.specs.Relief.{HasReliefRoom};

use fixed_vec::{HalfPlane, Point, V2};
use planar_program::{GREATEST_RELIEF, Relief, least_relief, meets, nearest};
use std::process::Abort;

const ZERO: V2 = V2 { x: 0, y: 0 };

fn plane(x: i64, y: i64, c: i128) -> HalfPlane
    requires fits { FitsPlane (record { n = record { x = x; y = y }; c = c }) }
    ensures { result ≡ record { n = record { x = x; y = y }; c = c } }
{
    HalfPlane::of(V2 { x, y }, c)
}

// The nearest point of two half-planes.
fn best_of(first: HalfPlane, second: HalfPlane, hard: usize, relief: u32, pref: V2) -> Option<Point>
    requires first { HasReliefRoom first }
    requires second { HasReliefRoom second }
    requires hard { hard ≤ 2 }
    requires relief { relief < 2 ^ 18 }
    requires pref { IsPreference pref }
{
    nearest(&[first, second], hard, relief, pref)
}

// Whether the whole point is in both half-planes.
fn both_have(first: HalfPlane, second: HalfPlane, hard: usize, relief: u32, at: V2) -> bool
    requires first { HasReliefRoom first }
    requires second { HasReliefRoom second }
    requires hard { hard ≤ 2 }
    requires relief { relief < 2 ^ 18 }
    requires at { IsPreference at }
{
    let point = Point::of(at.x as i128, at.y as i128, 1);
    meets(&[first, second], hard, relief, &point)
}

// The least relief of two half-planes that both have the origin once they are relieved as much as possible.
fn least_of(
    rt: &impl Abort,
    first: HalfPlane,
    second: HalfPlane,
    hard: usize,
    pref: V2,
) -> Option<Relief>
    requires first { HasReliefRoom first }
    requires second { HasReliefRoom second }
    requires hard { hard ≤ 2 }
    requires pref { IsPreference pref }
{
    let planes = [first, second];
    let origin = Point::of(0, 0, 1);
    assert!(rt; meets(&planes, hard, GREATEST_RELIEF, &origin));
    least_relief(&planes, hard, pref)
}

// The least relief where both half-planes are hard.
fn least_of_hard(first: HalfPlane, second: HalfPlane, pref: V2) -> Option<Relief>
    requires first { HasReliefRoom first }
    requires second { HasReliefRoom second }
    requires pref { IsPreference pref }
{
    least_relief(&[first, second], 2, pref)
}

// The least relief of three half-planes, as above.
fn least_of_three(
    rt: &impl Abort,
    first: HalfPlane,
    second: HalfPlane,
    third: HalfPlane,
    hard: usize,
) -> Option<Relief>
    requires first { HasReliefRoom first }
    requires second { HasReliefRoom second }
    requires third { HasReliefRoom third }
    requires hard { hard ≤ 3 }
{
    let planes = [first, second, third];
    let far = Point::of(10, 10, 1);
    assert!(rt; meets(&planes, hard, GREATEST_RELIEF, &far));
    least_relief(&planes, hard, ZERO)
}

// Whether the point is (x, y).
fn is_at(point: &Point, x: i128, y: i128) -> bool {
    let q = point.q();
    point.x() % q == 0 && point.x() / q == x && point.y() % q == 0 && point.y() / q == y
}

fn is_best(answer: Option<Point>, x: i128, y: i128) -> bool {
    match answer {
        None => false,
        Some(point) => is_at(&point, x, y),
    }
}

fn is_least(answer: Option<Relief>, relief: u32, x: i128, y: i128) -> bool {
    match answer {
        None => false,
        Some(found) => found.relief == relief && is_at(&found.point, x, y),
    }
}

#[test]
fn corner(rt: HostRuntime) {
    assert!(rt; is_best(best_of(plane(1, 0, 1), plane(0, 1, 2), 1, 0, ZERO), 1, 2));
}

#[test]
fn preference_that_nothing_breaks(rt: HostRuntime) {
    let best = best_of(plane(1, 0, 1), plane(0, 1, 2), 1, 0, V2 { x: 5, y: 6 });
    assert!(rt; is_best(best, 5, 6));
}

#[test]
fn opposites_with_a_gap(rt: HostRuntime) {
    let right = plane(1, 0, 1);
    let left = plane(-1, 0, 0);
    assert!(rt; best_of(right, left, 2, 0, ZERO).is_none());
    assert!(rt; is_best(best_of(right, left, 0, 1, ZERO), 0, 0));
    assert!(rt; is_least(least_of(&rt, right, left, 0, ZERO), 1, 0, 0));
    assert!(rt; least_of_hard(right, left, ZERO).is_none());
}

#[test]
fn point_in_one_of_two(rt: HostRuntime) {
    let right = plane(1, 0, 1);
    let left = plane(-1, 0, 0);
    assert!(rt; !both_have(right, left, 2, 0, ZERO));
    assert!(rt; both_have(right, left, 0, 1, ZERO));
    assert!(rt; !both_have(right, left, 1, 1, ZERO));
}

#[test]
fn two_discs_at_one_place(rt: HostRuntime) {
    let within_speed = plane(-1, 0, -399);
    let apart = plane(1, 0, 501);
    assert!(rt; is_least(least_of(&rt, within_speed, apart, 1, ZERO), 102, 399, 0));
}

#[test]
fn reliefs_of_each_size(rt: HostRuntime) {
    let stop = plane(-1, 0, 0);
    assert!(rt;
        is_least(
            least_of(&rt, plane(-1, 0, -10), plane(1, 0, 5), 1, ZERO),
            0,
            5,
            0
        )
    );
    assert!(rt;
        is_least(
            least_of(&rt, stop, plane(1, 0, 131_072), 1, ZERO),
            131_072,
            0,
            0
        )
    );
    assert!(rt;
        is_least(
            least_of(&rt, stop, plane(1, 0, 262_143), 1, ZERO),
            262_143,
            0,
            0
        )
    );
}

// The normal (1, 1) has the whole length 2: five lengths make up for 10.
#[test]
fn relief_by_whole_lengths(rt: HostRuntime) {
    let least = least_of(&rt, plane(-1, -1, 0), plane(1, 1, 10), 1, ZERO);
    assert!(rt; is_least(least, 5, 0, 0));
}

// x >= 10, y >= 10 and x + y <= 12 lack 8, for which a unit of relief makes up by 1, 1 and 2: two units make up
// for all of it. Where the first is hard, three are needed.
#[test]
fn three_that_exclude_each_other(rt: HostRuntime) {
    let right = plane(1, 0, 10);
    let up = plane(0, 1, 10);
    let back = plane(-1, -1, -12);
    assert!(rt; is_least(least_of_three(&rt, right, up, back, 0), 2, 8, 8));
    assert!(rt; is_least(least_of_three(&rt, back, up, right, 0), 2, 8, 8));
    assert!(rt; is_least(least_of_three(&rt, right, up, back, 1), 3, 10, 7));
}
