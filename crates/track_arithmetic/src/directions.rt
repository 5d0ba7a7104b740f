// The direction of a complex number.
ghost use Rattle.std.specs.Prelude.{◌≡◌, ◌-◌, ◌*◌, ◌^◌, ◌<◌, ◌≤◌, nat_abs, pos};
ghost use Rattle.track_arithmetic.specs.Laws.{IsWithin};
ghost use Rattle.track_arithmetic.specs.Numbers.{direction, direction_part, power, root};

use crate::Complex;
use crate::rounding::nearest;

// The greatest number whose square is at most n.
#[tactic(auto, using(crate::proofs::Roots::root_is))]
fn root(n: u64) -> u64
    ensures is { result ≡ root n }
    ensures small { result < 2 ^ 32 }
{
    n.isqrt()
}

// The amplitude, rounded down.
fn amplitude(x: Complex) -> u64
    requires { IsWithin (2 ^ 31 - 1) x }
    ensures is { result ≡ root (power x) }
    ensures re { nat_abs x.re ≤ result }
    ensures im { nat_abs x.im ≤ result }
    ensures small { result < 2 ^ 32 }
{
    root(x.power())
}

// 2^14 times a part over the amplitude, the nearest whole number.
#[tactic(auto, using(crate::proofs::Roots::part_within))]
fn direction_part(x: i64, s: u64) -> i64
    requires x { nat_abs x < 2 ^ 31 }
    requires within { nat_abs x ≤ s }
    requires some { 0 < s }
    requires most { s < 2 ^ 32 }
    ensures is { result ≡ direction_part x s }
    ensures within { nat_abs result ≤ 2 ^ 14 }
{
    nearest(x * 16384, s)
}

/// The direction of a complex number, as one of amplitude 2^14: each part is the nearest whole number. It
/// is 2^14 for 0. The number's parts are below 2^31.
#[tactic(auto, unfolding(crate::specs::Numbers::direction))]
pub fn direction(x: Complex) -> Complex
    requires { IsWithin (2 ^ 31 - 1) x }
    ensures is { result ≡ direction x }
    ensures within { IsWithin (2 ^ 14) result }
{
    let s = amplitude(x);
    if s == 0 {
        return Complex { re: 1 << 14, im: 0 };
    }
    Complex {
        re: direction_part(x.re, s),
        im: direction_part(x.im, s),
    }
}
