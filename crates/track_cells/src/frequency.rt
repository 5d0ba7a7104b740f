// Interpolation in frequency.
ghost use Rattle.std.specs.Prelude.{◌≡◌, ℕ, ◌+◌, ◌*◌, ◌-◌, ◌/◌, ◌<◌, ◌≤◌, ◌^◌, [], length, get_or, nat_abs, pos};
ghost use Rattle.spec_words.specs.Words.{numbers};
ghost use Rattle.mode_set.specs.StreamTable.{carriers};
ghost use Rattle.tracking.specs.Comb.{points};
ghost use Rattle.tracking.specs.InFrequency.{carrier_gain, first_point, slope};
ghost use Rattle.track_arithmetic.specs.Laws.{IsWithin};
ghost use Rattle.track_arithmetic.specs.Numbers.{near, scaled, sum_of, times, turned_by};
ghost use Rattle.track_arithmetic.specs.declared.complex.Complex.{Complex as Gain};
ghost use Rattle.track_cells.specs.Gains.{gain_of, AreCentred, AreGains, AreSmall, AreWithin};
ghost use Rattle.track_cells.specs.Sizes.{size_to};
ghost use Rattle.track_cells.specs.Weighed.{pair, pair_at, part_at, AreBack};

use crate::blocks::{imaginary_parts, real_parts, weighed_rows};
use crate::rows::row;
use crate::turns::{cosines_back, turned_by};
use mode_set::{Guard, Mode};
use track_arithmetic::{Complex, near};

// Sixty-fourths of a turn from a carrier to the next.
fn slope(guard: Guard) -> u32
    ensures is { result ≡ slope guard }
    ensures few { result ≤ 8 }
{
    match guard {
        Guard::G1of4 => 8,
        Guard::G1of8 => 4,
        Guard::G1of16 => 2,
        Guard::G1of32 => 1,
    }
}

// A gain turned by `i` sixty-fourths of a turn.
fn turn(gain: Complex, i: u32) -> Complex
    requires gain { IsWithin (2 ^ 40) gain }
    requires i { i < 2 ^ 31 }
    ensures is { result ≡ near 14 (times gain (turned_by i)) }
    ensures within { (a : ℕ) → IsWithin a gain → IsWithin (2 * a) result }
{
    near(gain.times(turned_by(i)), 14)
}

// The sum of twelve points, each times its coefficient.
fn weighted(row: &[i16; 12], points: &[Complex]) -> Complex
    requires long { length points.now ≡ 12 }
    requires points { AreWithin (2 ^ 22) points.now }
    requires row { size_to 12 row.now ≤ 58154 }
    ensures is { result ≡ sum_of (λ i. scaled (get_or row.now i (pos 0)) (gain_of points.now i)) (numbers 12) }
    ensures within { IsWithin (2 ^ 16 * 2 ^ 22) result }
{
    let mut sum = Complex { re: 0, im: 0 };
    for i in 0..12 {
        sum = sum.plus(points[i].scaled(i64::from(row[i])));
    }
    sum
}

// Turns the gains at the points so that the middle of the guard interval has no delay.
pub(crate) fn centre(guard: Guard, gains: &[Complex], centred: &mut [Complex])
    requires gains { AreWithin (2 ^ 21) gains.now }
    requires few { length gains.now ≤ 2273 }
    requires long { length centred.old ≡ length gains.now }
    ensures long { length centred.new ≡ length gains.now }
    ensures is { (j : ℕ) → j < length gains.now → gain_of centred.new j
        ≡ near 14 (times (gain_of gains.now j) (turned_by (3 * j * slope guard))) }
    ensures within { AreWithin (2 ^ 22) centred.new }
{
    let slope = slope(guard);
    for j in 0..centred.len() {
        centred[j] = turn(gains[j], 3 * j as u32 * slope);
    }
}

// The first of the twelve points for a carrier.
fn first_point(mode: Mode, k: usize) -> usize
    requires { k < carriers mode }
    ensures is { result ≡ first_point mode k }
    ensures within { result + 12 ≤ points mode }
    ensures below { 3 * result ≤ k }
    ensures near { k - 3 * result < 34 }
{
    let points = (mode.carriers() as usize + 2) / 3;
    (k / 3).saturating_sub(5).min(points - 12)
}

// The gain at a carrier, by the centred gains at the points.
fn carrier_gain(guard: Guard, mode: Mode, centred: &[Complex], k: usize) -> Complex
    requires long { length centred.now ≡ points mode }
    requires centred { AreWithin (2 ^ 22) centred.now }
    requires carrier { k < carriers mode }
    ensures is { (gains : ℕ → Gain) → AreCentred guard mode gains centred.now → result
        ≡ carrier_gain guard mode gains k }
    ensures within { IsWithin (2 ^ 25) result }
{
    let first = first_point(mode, k);
    let sum = weighted(row(guard, k - 3 * first), &centred[first..first + 12]);
    turn(near(sum, 14), 63 * (k as u32 * slope(guard)))
}

// The gains of the carriers below `end` by those below `from`, carrier by carrier.
pub(crate) fn put_each(
    guard: Guard,
    mode: Mode,
    centred: &[Complex],
    from: usize,
    end: usize,
    to: &mut [Complex],
)
    requires long { length centred.now ≡ points mode }
    requires centred { AreWithin (2 ^ 22) centred.now }
    requires from { from ≤ end }
    requires end { end ≤ carriers mode }
    requires carriers { length to.old ≡ carriers mode }
    ensures carriers { length to.new ≡ carriers mode }
    ensures is { (gains : ℕ → Gain) → AreCentred guard mode gains centred.now → AreGains guard mode gains from to.old
        → AreGains guard mode gains end to.new }
    ensures within { AreSmall from to.old → AreSmall end to.new }
{
    for k in from..end {
        to[k] = carrier_gain(guard, mode, centred, k);
    }
}

// A gain, given by its parts, turned by a direction.
fn turned(re: i32, im: i32, cosine: i16, sine: i16) -> Complex
    requires re { nat_abs re ≤ 2 ^ 24 }
    requires im { nat_abs im ≤ 2 ^ 24 }
    requires cosine { nat_abs cosine ≤ 2 ^ 14 }
    requires sine { nat_abs sine ≤ 2 ^ 14 }
    ensures is { result ≡ near 14 (times (pair re im) (pair cosine sine)) }
    ensures within { IsWithin (2 ^ 25) result }
{
    let gain = Complex {
        re: i64::from(re),
        im: i64::from(im),
    };
    let direction = Complex {
        re: i64::from(cosine),
        im: i64::from(sine),
    };
    near(gain.times(direction), 14)
}

// The gains of the three carriers from `k` on, by place `n` of the rows of a block.
fn put_three(
    re: &[[i32; 64]; 3],
    im: &[[i32; 64]; 3],
    cosines: &[i16; 192],
    sines: &[i16; 192],
    n: usize,
    k: usize,
    to: &mut [Complex],
)
    requires re { (r : ℕ) → r < 3 → nat_abs (part_at (get_or re.now r []) n) ≤ 2 ^ 24 }
    requires im { (r : ℕ) → r < 3 → nat_abs (part_at (get_or im.now r []) n) ≤ 2 ^ 24 }
    requires cosines { (j : ℕ) → j < 192 → nat_abs (part_at cosines.now j) ≤ 2 ^ 14 }
    requires sines { (j : ℕ) → j < 192 → nat_abs (part_at sines.now j) ≤ 2 ^ 14 }
    requires place { n < 64 }
    requires room { k + 3 ≤ length to.old }
    ensures long { length to.new ≡ length to.old }
    ensures before { (j : ℕ) → j < k → gain_of to.new j ≡ gain_of to.old j }
    ensures is { (r : ℕ) → r < 3 → gain_of to.new (k + r) ≡ near 14 (times (pair_at (get_or re.now r [])
        (get_or im.now r []) n) (pair_at cosines.now sines.now (3 * n + r))) }
    ensures within { (r : ℕ) → r < 3 → IsWithin (2 ^ 25) (gain_of to.new (k + r)) }
{
    for r in 0..3 {
        let j = 3 * n + r;
        to[k + r] = turned(re[r][n], im[r][n], cosines[j], sines[j]);
    }
}

// The gains of the 192 carriers from 15 + 192 b on.
fn put_block(
    guard: Guard,
    mode: Mode,
    centred: &[Complex],
    b: usize,
    cosines: &[i16; 192],
    sines: &[i16; 192],
    to: &mut [Complex],
)
    requires long { length centred.now ≡ points mode }
    requires centred { AreWithin (2 ^ 22) centred.now }
    requires block { 64 * b + 75 ≤ points mode }
    requires cosines { AreBack guard 0 cosines.now }
    requires sines { AreBack guard 48 sines.now }
    requires carriers { length to.old ≡ carriers mode }
    ensures carriers { length to.new ≡ carriers mode }
    ensures is { (gains : ℕ → Gain) → AreCentred guard mode gains centred.now
        → AreGains guard mode gains (15 + 192 * b) to.old → AreGains guard mode gains (15 + 192 * b + 192) to.new }
    ensures within { AreSmall (15 + 192 * b) to.old → AreSmall (15 + 192 * b + 192) to.new }
{
    let points = &centred[64 * b..64 * b + 75];
    let re = weighed_rows(guard, &real_parts(points));
    let im = weighed_rows(guard, &imaginary_parts(points));
    for n in 0..64 {
        put_three(&re, &im, cosines, sines, n, 15 + 192 * b + 3 * n, to);
    }
}

// The gains of all carriers below `15 + 192 n` by those of the first 15.
fn put_blocks(guard: Guard, mode: Mode, centred: &[Complex], n: usize, to: &mut [Complex])
    requires long { length centred.now ≡ points mode }
    requires centred { AreWithin (2 ^ 22) centred.now }
    requires blocks { 64 * n + 11 ≤ points mode }
    requires carriers { length to.old ≡ carriers mode }
    ensures carriers { length to.new ≡ carriers mode }
    ensures is { (gains : ℕ → Gain) → AreCentred guard mode gains centred.now → AreGains guard mode gains 15 to.old
        → AreGains guard mode gains (15 + 192 * n) to.new }
    ensures within { AreSmall 15 to.old → AreSmall (15 + 192 * n) to.new }
{
    let cosines = cosines_back(slope(guard), 0);
    let sines = cosines_back(slope(guard), 48);
    for b in 0..n {
        put_block(guard, mode, centred, b, &cosines, &sines, to);
    }
}

/// The gain at each carrier of a symbol, from that at its comb points, every third carrier. Both are 16
/// times the value of a pilot. `centred` is room for as many gains as there are points. No part of a
/// point's gain exceeds 2^21, and none of a carrier's 2^25.
pub fn interpolate(
    guard: Guard,
    mode: Mode,
    gains: &[Complex],
    centred: &mut [Complex],
    to: &mut [Complex],
)
    requires points { length gains.now ≡ points mode }
    requires gains { AreWithin (2 ^ 21) gains.now }
    requires room { length centred.old ≡ points mode }
    requires carriers { length to.old ≡ carriers mode }
    ensures room { length centred.new ≡ points mode }
    ensures carriers { length to.new ≡ carriers mode }
    ensures is { (k : ℕ) → k < carriers mode → gain_of to.new k ≡ carrier_gain guard mode (gain_of gains.now) k }
    ensures within { AreWithin (2 ^ 25) to.new }
{
    centre(guard, gains, centred);
    let n = (centred.len() - 11) / 64;
    put_each(guard, mode, centred, 0, 15, to);
    put_blocks(guard, mode, centred, n, to);
    put_each(guard, mode, centred, 15 + 192 * n, to.len(), to);
}
