// The gains at the points.
ghost use Rattle.std.specs.Prelude.{◌≡◌, ℕ, ◌+◌, ◌-◌, ◌*◌, ◌%◌, ◌<◌, ◌≤◌, ◌^◌, List, length, get_or, map, true};
ghost use Rattle.std.specs.Prelude.{nat_abs, pos};
ghost use Rattle.spec_words.specs.Words.{numbers};
ghost use Rattle.mode_set.specs.declared.modes.Guard.{Guard};
ghost use Rattle.tracking.specs.Comb.{comb_of, points};
ghost use Rattle.tracking.specs.InTime.{distance, place, point_gain, symbol_at};
ghost use Rattle.tracking.specs.Moving.{motion as motion_at};
ghost use Rattle.track_motion.specs.Around.{IsAround, IsLook};
ghost use Rattle.track_motion.specs.Places.{in_file};
ghost use Rattle.track_pilots.specs.Window.{StandsFor};
ghost use Rattle.track_comb_gains.specs.Shares.{IsKept};
ghost use Rattle.qam_map.specs.declared.cell.Cell.{Cell};
ghost use Rattle.track_arithmetic.specs.Laws.{IsWithin};
ghost use Rattle.track_arithmetic.specs.Numbers.{near, nothing, scaled, sum_of, times};
ghost use Rattle.track_cells.specs.Gains.{gain_of, AreWithin};
ghost use Rattle.track_cells.specs.Sizes.{size_to};

use crate::taps::{all_counting, taps};
use mode_set::Carriers;
use track_arithmetic::{Complex, near};
use track_motion::Surroundings;
use track_pilots::PilotWindow;
use tracking::Motion;

// The symbol at a place, symbol `m` itself if the tap is 0.
fn symbol(count: u64, m: u64, tap: i16, p: usize) -> u64
    requires there { m < count }
    requires late { count ≤ m + 8 }
    requires few { count ≤ 2 ^ 32 }
    requires place { p ≤ 15 }
    requires in_file { (tap ≡ pos 0 → ⊥) → in_file count m p ≡ true }
    ensures is { (tap ≡ pos 0 → ⊥) → result ≡ symbol_at m p }
    ensures kept { IsKept count result }
{
    if tap == 0 { m } else { m + p as u64 - 7 }
}

// The four symbols around symbol `m` at a distance, symbol `m` itself in place of one whose tap is 0. The file has the
// others.
fn symbols_at(count: u64, m: u64, taps: &[i16; 4], d: usize) -> [u64; 4]
    requires there { m < count }
    requires late { count ≤ m + 8 }
    requires few { count ≤ 2 ^ 32 }
    requires distance { d < 4 }
    requires in_file { (i : ℕ) → i < 4 → (get_or taps.now i (pos 0) ≡ pos 0 → ⊥) → in_file count m (place d i) ≡ true }
    ensures are { (i : ℕ) → i < 4 → (get_or taps.now i (pos 0) ≡ pos 0 → ⊥) → get_or result i 0
        ≡ symbol_at m (place d i) }
    ensures kept { (i : ℕ) → i < 4 → IsKept count (get_or result i 0) }
{
    let mut symbols = [0; 4];
    for i in 0..4 {
        symbols[i] = symbol(count, m, taps[i], 3 + 4 * i - d);
    }
    symbols
}

// The turns of the four symbols at a distance, each times its tap.
fn factors_at(around: &Surroundings, taps: &[i16; 4], d: usize) -> [Complex; 4]
    requires turns { (p : ℕ) → p < 16 → IsWithin (2 ^ 14) (get_or around.now.turns p nothing) }
    requires distance { d < 4 }
    ensures are { (i : ℕ) → i < 4 → gain_of result i ≡ scaled (get_or taps.now i (pos 0))
        (get_or around.now.turns (place d i) nothing) }
    ensures within { (i : ℕ) → i < 4 → IsWithin (nat_abs (get_or taps.now i (pos 0)) * 2 ^ 14) (gain_of result i) }
{
    let mut factors = [Complex { re: 0, im: 0 }; 4];
    for i in 0..4 {
        factors[i] = around.turns[3 + 4 * i - d].scaled(i64::from(taps[i]));
    }
    factors
}

// The sum of point `j` of four symbols, each times its factor.
fn weighted<M: Carriers>(
    window: &PilotWindow<M>,
    symbols: &[u64; 4],
    factors: &[Complex; 4],
    taps: &[i16; 4],
    j: usize,
) -> Complex
    requires kept { (i : ℕ) → i < 4 → IsKept window.now.count (get_or symbols.now i 0) }
    requires factors { (i : ℕ) → i < 4 → IsWithin (nat_abs (get_or taps.now i (pos 0)) * 2 ^ 14)
        (gain_of factors.now i) }
    requires small { size_to 4 taps.now ≤ 5620 }
    requires point { j < points M.MODE }
    ensures is { (all : List (List Cell)) → StandsFor M.MODE window.now all → result
        ≡ sum_of (λ i. times (gain_of factors.now i) ((comb_of M.MODE all).value (get_or symbols.now i 0) j))
        (numbers 4) }
    ensures within { IsWithin (5620 * 2 ^ 30) result }
{
    let mut sum = Complex { re: 0, im: 0 };
    for i in 0..4 {
        sum = sum.plus(factors[i].times(window.row(symbols[i])[j]));
    }
    sum
}

// The gains at the points `first`, `first + 4` and so on, which are at the same distance.
fn put_distance<M: Carriers>(
    window: &PilotWindow<M>,
    symbols: &[u64; 4],
    factors: &[Complex; 4],
    taps: &[i16; 4],
    first: usize,
    gains: &mut [Complex],
)
    requires kept { (i : ℕ) → i < 4 → IsKept window.now.count (get_or symbols.now i 0) }
    requires factors { (i : ℕ) → i < 4 → IsWithin (nat_abs (get_or taps.now i (pos 0)) * 2 ^ 14)
        (gain_of factors.now i) }
    requires small { size_to 4 taps.now ≤ 5620 }
    requires first { first < 4 }
    requires long { length gains.old ≡ points M.MODE }
    ensures long { length gains.new ≡ points M.MODE }
    ensures is { (all : List (List Cell)) (j : ℕ) → StandsFor M.MODE window.now all → j < points M.MODE
        → j % 4 ≡ first → gain_of gains.new j ≡ near 22 (sum_of (λ i. times (gain_of factors.now i)
        ((comb_of M.MODE all).value (get_or symbols.now i 0) j)) (numbers 4)) }
    ensures within { (j : ℕ) → j < points M.MODE → j % 4 ≡ first → IsWithin (2 ^ 21) (gain_of gains.new j) }
    ensures others { (j : ℕ) → (j % 4 ≡ first → ⊥) → gain_of gains.new j ≡ gain_of gains.old j }
{
    let count = (gains.len() - first + 3) / 4;
    for q in 0..count {
        let j = first + 4 * q;
        gains[j] = near(weighted(window, symbols, factors, taps, j), 22);
    }
}

// The first of the points at a distance.
fn first_point(m: u64, d: usize) -> usize
    requires { d < 4 }
    ensures is { (j : ℕ) → distance m j ≡ d → j % 4 ≡ result }
    ensures others { (j : ℕ) → j % 4 ≡ result → distance m j ≡ d }
    ensures few { result < 4 }
{
    ((m % 4) as usize + 4 - d) % 4
}

/// The gain at each comb point of symbol `m`, as 16 times the value of a pilot.
pub fn point_gains<M: Carriers>(
    window: &PilotWindow<M>,
    m: u64,
    around: &Surroundings,
    motion: Motion,
    gains: &mut [Complex],
)
    requires there { m < window.now.count }
    requires late { window.now.count ≤ m + 8 }
    requires few { window.now.count ≤ 2 ^ 32 }
    requires look { IsLook window.now.count m around.now }
    requires long { length gains.old ≡ points M.MODE }
    ensures long { length gains.new ≡ points M.MODE }
    ensures is { (symbols : List (List Cell)) (guard : Guard) (j : ℕ) → StandsFor M.MODE window.now symbols
        → IsAround (comb_of M.MODE symbols) m around.now → motion ≡ motion_at guard (comb_of M.MODE symbols) m
        → j < points M.MODE → gain_of gains.new j ≡ point_gain guard (comb_of M.MODE symbols) m j }
    ensures within { AreWithin (2 ^ 21) gains.new }
{
    let counts = all_counting(around);
    for d in 0..4 {
        let row = taps(motion, d, counts[d]);
        let symbols = symbols_at(window.count(), m, row, d);
        let factors = factors_at(around, row, d);
        put_distance(window, &symbols, &factors, row, first_point(m, d), gains);
    }
}
