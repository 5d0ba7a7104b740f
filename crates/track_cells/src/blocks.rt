// The gains of 192 inner carriers at once. Their 64 points begin five before their own, so that three rows of
// coefficients serve all of them. The parts of the points stand apart, so that sums of neighbours are computed in
// lanes.
ghost use Rattle.std.specs.Prelude.{◌≡◌, ℕ, ◌+◌, ◌*◌, ◌<◌, ◌≤◌, ◌^◌, [], length, get_or, nat_abs, pos, ◌+ℤ◌, ◌*ℤ◌};
ghost use Rattle.tracking.specs.InFrequency.{frequency_row};
ghost use Rattle.track_arithmetic.specs.Numbers.{floor};
ghost use Rattle.track_cells.specs.Gains.{gain_of, AreWithin};
ghost use Rattle.track_cells.specs.Sizes.{size_to};
ghost use Rattle.track_cells.specs.Weighed.{part_at, weighed, weighed_to};

use crate::rows::row;
use mode_set::Guard;
use track_arithmetic::{Complex, near};

// A part of a point in 32 bits.
fn part(x: i64) -> i32
    requires { nat_abs x ≤ 2 ^ 22 }
    ensures { result ≡ x }
{
    x as i32
}

// The real parts of the points of a block and of eleven more.
pub(crate) fn real_parts(points: &[Complex]) -> [i32; 75]
    requires long { length points.now ≡ 75 }
    requires points { AreWithin (2 ^ 22) points.now }
    ensures is { (n : ℕ) → n < 75 → part_at result n ≡ (gain_of points.now n).re }
    ensures within { (n : ℕ) → n < 75 → nat_abs (part_at result n) ≤ 2 ^ 22 }
{
    let mut parts = [0i32; 75];
    for n in 0..75 {
        parts[n] = part(points[n].re);
    }
    parts
}

// Their imaginary parts.
pub(crate) fn imaginary_parts(points: &[Complex]) -> [i32; 75]
    requires long { length points.now ≡ 75 }
    requires points { AreWithin (2 ^ 22) points.now }
    ensures is { (n : ℕ) → n < 75 → part_at result n ≡ (gain_of points.now n).im }
    ensures within { (n : ℕ) → n < 75 → nat_abs (part_at result n) ≤ 2 ^ 22 }
{
    let mut parts = [0i32; 75];
    for n in 0..75 {
        parts[n] = part(points[n].im);
    }
    parts
}

fn product(part: i32, coefficient: i16) -> i64
    requires { nat_abs part ≤ 2 ^ 22 }
    ensures is { result ≡ coefficient *ℤ part }
    ensures small { nat_abs result ≤ nat_abs coefficient * 2 ^ 22 }
{
    i64::from(part) * i64::from(coefficient)
}

fn plus(sum: i64, x: i64) -> i64
    requires sum { nat_abs sum ≤ 2 ^ 38 }
    requires x { nat_abs x ≤ 2 ^ 38 }
    ensures { result ≡ sum +ℤ x }
{
    sum + x
}

// The sum of twelve parts from place `n` on, each times its coefficient.
fn weighed_sum(row: &[i16; 12], parts: &[i32; 75], n: usize) -> i64
    requires place { n < 64 }
    requires parts { (k : ℕ) → k < 75 → nat_abs (part_at parts.now k) ≤ 2 ^ 22 }
    requires row { size_to 12 row.now ≤ 58154 }
    ensures is { result ≡ weighed_to 12 row.now parts.now n }
    ensures within { nat_abs result ≤ 2 ^ 38 }
{
    let mut sum: i64 = 0;
    for i in 0..12 {
        sum = plus(sum, product(parts[n + i], row[i]));
    }
    sum
}

// A sum over 2^14, the nearest whole number.
fn near_sum(sum: i64) -> i32
    requires { nat_abs sum ≤ 2 ^ 38 }
    ensures is { result ≡ floor (sum +ℤ pos (2 ^ 13)) (2 ^ 14) }
    ensures within { nat_abs result ≤ 2 ^ 24 }
{
    near(Complex { re: sum, im: 0 }, 14).re as i32
}

// The sums from each of 64 places on, over 2^14.
fn weighed_row(row: &[i16; 12], parts: &[i32; 75]) -> [i32; 64]
    requires parts { (k : ℕ) → k < 75 → nat_abs (part_at parts.now k) ≤ 2 ^ 22 }
    requires row { size_to 12 row.now ≤ 58154 }
    ensures is { (n : ℕ) → n < 64 → part_at result n ≡ weighed row.now parts.now n }
    ensures within { (n : ℕ) → n < 64 → nat_abs (part_at result n) ≤ 2 ^ 24 }
{
    let mut sums = [0i32; 64];
    for n in 0..64 {
        sums[n] = near_sum(weighed_sum(row, parts, n));
    }
    sums
}

// The same by the three rows of inner carriers.
pub(crate) fn weighed_rows(guard: Guard, parts: &[i32; 75]) -> [[i32; 64]; 3]
    requires parts { (k : ℕ) → k < 75 → nat_abs (part_at parts.now k) ≤ 2 ^ 22 }
    ensures is { (r n : ℕ) → r < 3 → n < 64 → part_at (get_or result r []) n
        ≡ weighed (frequency_row guard (15 + r)) parts.now n }
    ensures within { (r n : ℕ) → r < 3 → n < 64 → nat_abs (part_at (get_or result r []) n) ≤ 2 ^ 24 }
{
    let mut sums = [[0i32; 64]; 3];
    for r in 0..3 {
        sums[r] = weighed_row(row(guard, 15 + r), parts);
    }
    sums
}
