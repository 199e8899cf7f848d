// Whole vectors of the plane.
ghost use Rattle.std.specs.Prelude.{◌≡◌, ◌^◌, neg_ℤ, ◌+ℤ◌, ◌-ℤ◌};
ghost use Rattle.fixed_vec.specs.Vector.{IsBelow, cross as cross_of, dot as dot_of};

/// A whole vector or point, in whole units or whole units per step.
#[derive(Clone, Copy, Debug, PartialEq, Eq)]
pub struct V2 {
    pub x: i64,
    pub y: i64,
}

/// The inner product. Coordinates are below 2^40 in size.
pub fn dot(a: V2, b: V2) -> i128
    requires a_small { IsBelow a (2 ^ 40) }
    requires b_small { IsBelow b (2 ^ 40) }
    ensures { result ≡ dot_of a b }
{
    a.x as i128 * b.x as i128 + a.y as i128 * b.y as i128
}

/// The outer product: positive where b lies to the left of a. Coordinates are below 2^40 in size.
pub fn cross(a: V2, b: V2) -> i128
    requires a_small { IsBelow a (2 ^ 40) }
    requires b_small { IsBelow b (2 ^ 40) }
    ensures { result ≡ cross_of a b }
{
    a.x as i128 * b.y as i128 - a.y as i128 * b.x as i128
}

/// The vector turned left by a right angle. Coordinates are below 2^40 in size.
pub fn perp(a: V2) -> V2
    requires { IsBelow a (2 ^ 40) }
    ensures { result ≡ record { x = neg_ℤ a.y; y = a.x } }
{
    V2 { x: -a.y, y: a.x }
}

/// The sum. Coordinates are below 2^40 in size.
pub fn plus(a: V2, b: V2) -> V2
    requires a_small { IsBelow a (2 ^ 40) }
    requires b_small { IsBelow b (2 ^ 40) }
    ensures { result ≡ record { x = a.x +ℤ b.x; y = a.y +ℤ b.y } }
{
    V2 {
        x: a.x + b.x,
        y: a.y + b.y,
    }
}

/// The difference. Coordinates are below 2^40 in size.
pub fn minus(a: V2, b: V2) -> V2
    requires a_small { IsBelow a (2 ^ 40) }
    requires b_small { IsBelow b (2 ^ 40) }
    ensures { result ≡ record { x = a.x -ℤ b.x; y = a.y -ℤ b.y } }
{
    V2 {
        x: a.x - b.x,
        y: a.y - b.y,
    }
}
