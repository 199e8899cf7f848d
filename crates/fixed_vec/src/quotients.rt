// Quotients rounded down and up.
ghost use Rattle.std.specs.Prelude.{◌≡◌, pos, ◌<ℤ◌};
ghost use Rattle.exact_algebra.specs.Numbers.{floor, ceil};

/// n / d rounded down, for a positive d.
pub fn div_down(n: i128, d: i128) -> i128
    requires { pos 0 <ℤ d }
    ensures { result ≡ floor n d }
{
    n.div_euclid(d)
}

/// n / d rounded up, for a positive d.
pub fn div_up(n: i128, d: i128) -> i128
    requires { pos 0 <ℤ d }
    ensures { result ≡ ceil n d }
{
    // A quotient that isn't positive is cut towards zero, which is up.
    if n > 0 { (n - 1) / d + 1 } else { n / d }
}
