// Quotients, rounded to the nearest whole number.
ghost use Rattle.std.specs.Prelude.{◌≡◌, ℕ, ◌-◌, ◌*◌, ◌^◌, ◌<◌, ◌≤◌, nat_abs, pos, ◌+ℤ◌, ◌-ℤ◌, ◌*ℤ◌};
ghost use Rattle.track_arithmetic.specs.Laws.{IsWithin};
ghost use Rattle.track_arithmetic.specs.Numbers.{floor, near, nearest, shifted, value_near};

use crate::Complex;

// x / 2^s, the nearest whole number, and of two the greater.
fn near_part(x: i64, s: u32) -> i64
    requires x { nat_abs x ≤ 2 ^ 62 }
    requires some { 1 ≤ s }
    requires most { s ≤ 32 }
    ensures { result ≡ floor (x +ℤ pos (2 ^ (s - 1))) (2 ^ s) }
{
    (x + (1 << (s - 1))) >> s
}

/// A number over 2^s, on each axis the nearest whole number, and of two the greater. Its parts are at most
/// 2^62, and `s` is 1 to 32.
pub fn near(x: Complex, s: u32) -> Complex
    requires x { IsWithin (2 ^ 62) x }
    requires some { 1 ≤ s }
    requires most { s ≤ 32 }
    ensures is { result ≡ near s x }
    ensures within { (a : ℕ) → IsWithin (2 ^ s * a) x → IsWithin a result }
{
    Complex {
        re: near_part(x.re, s),
        im: near_part(x.im, s),
    }
}

/// A number over 2^s, on each axis rounded down. `s` is at most 32.
pub fn shifted(x: Complex, s: u32) -> Complex
    requires { s ≤ 32 }
    ensures { result ≡ shifted s x }
{
    Complex {
        re: x.re >> s,
        im: x.im >> s,
    }
}

// The whole number nearest to a quotient, of two the greater.
pub(crate) fn nearest(x: i64, n: u64) -> i64
    requires x { nat_abs x ≤ 2 ^ 60 }
    requires some { 0 < n }
    requires most { n ≤ 2 ^ 60 }
    ensures { result ≡ nearest x n }
{
    let n = n as i64;
    (2 * x + n).div_euclid(2 * n)
}

/// The value of a cell nearest to `x / n`: the nearest whole number, of two the greater, limited to 16
/// bits. `x` is at most 2^60, and `n` is 1 to 2^60.
pub fn value_near(x: i64, n: u64) -> i16
    requires x { nat_abs x ≤ 2 ^ 60 }
    requires some { 0 < n }
    requires most { n ≤ 2 ^ 60 }
    ensures { result ≡ value_near x n }
{
    nearest(x, n).clamp(-32768, 32767) as i16
}

// The product of a guess and a divisor.
fn multiple(guess: i16, divisor: i64) -> i64
    requires { nat_abs divisor ≤ 2 ^ 47 }
    ensures is { result ≡ guess *ℤ divisor }
    ensures small { nat_abs result ≤ 2 ^ 62 }
{
    i64::from(guess) * divisor
}

// Twice a dividend and once its divisor, of which the quotient by twice the divisor is rounded down.
fn dividend(x: i64, n: i64) -> i64
    requires x { nat_abs x ≤ 2 ^ 60 }
    requires n { nat_abs n ≤ 2 ^ 46 }
    ensures is { result ≡ pos 2 *ℤ x +ℤ n }
    ensures small { nat_abs result ≤ 3 * 2 ^ 60 }
{
    2 * x + n
}

// What a guess at a quotient leaves of the dividend.
fn rest_after(guess: i16, dividend: i64, divisor: i64) -> i64
    requires dividend { nat_abs dividend ≤ 3 * 2 ^ 60 }
    requires divisor { nat_abs divisor ≤ 2 ^ 47 }
    ensures { result ≡ dividend -ℤ guess *ℤ divisor }
{
    dividend - multiple(guess, divisor)
}

/// The same, by a guess at it: a right one costs no division, if `n` is at most 2^46.
pub fn value_by(guess: i16, x: i64, n: u64) -> i16
    requires x { nat_abs x ≤ 2 ^ 60 }
    requires some { 0 < n }
    requires most { n ≤ 2 ^ 60 }
    ensures { result ≡ value_near x n }
{
    if n <= 1 << 46 {
        let divisor = 2 * n as i64;
        let rest = rest_after(guess, dividend(x, n as i64), divisor);
        if rest >= 0 && rest < divisor {
            return guess;
        }
    }
    value_near(x, n)
}
