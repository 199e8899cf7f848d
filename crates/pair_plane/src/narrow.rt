// Products and quotients that fit 64 bits; those of `fixed_vec` take 128.
ghost use Rattle.std.specs.Prelude.{◌≡◌, ◌^◌, ◌<◌, pos, ◌*ℤ◌, ◌<ℤ◌, unsigned_abs};
ghost use Rattle.exact_algebra.specs.Numbers.{ceil};
ghost use Rattle.fixed_vec.specs.Vector.{cross as cross_of, dot as dot_of};
ghost use Rattle.fixed_vec.specs.HalfPlane.{whole_length};
ghost use Rattle.crowd_data.specs.Limits.{IsWithin};

use fixed_vec::{V2, ceil_root, perp};

/// The inner product. Coordinates are at most 2^32 and 2^28 in size.
pub fn dot(a: V2, b: V2) -> i64
    requires a_small { IsWithin a (2 ^ 32) }
    requires b_small { IsWithin b (2 ^ 28) }
    ensures value { result ≡ dot_of a b }
    ensures small { unsigned_abs result < 2 ^ 62 }
{
    a.x * b.x + a.y * b.y
}

/// The outer product. Coordinates are at most 2^32 and 2^28 in size.
pub fn cross(a: V2, b: V2) -> i64
    requires a_small { IsWithin a (2 ^ 32) }
    requires b_small { IsWithin b (2 ^ 28) }
    ensures { result ≡ cross_of a b }
{
    dot(perp(a), b)
}

/// The product, which may take 128 bits.
pub fn product(a: i64, b: i64) -> i128
    ensures { result ≡ a *ℤ b }
{
    a as i128 * b as i128
}

/// n / d rounded up, for a positive d.
pub fn div_up(n: i64, d: i64) -> i64
    requires { pos 0 <ℤ d }
    ensures { result ≡ ceil n d }
{
    // A quotient that isn't positive is cut towards zero, which is up.
    if n > 0 { (n - 1) / d + 1 } else { n / d }
}

/// The length of a vector, rounded up to a whole number. Coordinates are at most 2^28 in size.
pub fn length(n: V2) -> i64
    requires { IsWithin n (2 ^ 28) }
    ensures value { result ≡ pos (whole_length n) }
    ensures small { unsigned_abs result < 2 ^ 30 }
{
    ceil_root(dot(n, n).unsigned_abs() as u128) as i64
}
