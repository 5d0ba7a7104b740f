//! The gains at the points point by point, each by its own turns and taps: the program of the definition.
ghost use Rattle.std.specs.Prelude.{◌≡◌, ℕ, ◌+◌, ◌-◌, ◌*◌, ◌%◌, ◌<◌, ◌≤◌, ◌^◌, List, length, get_or, map, true};
ghost use Rattle.std.specs.Prelude.{nat_abs, pos};
ghost use Rattle.spec_words.specs.Words.{numbers};
ghost use Rattle.mode_set.specs.declared.modes.Guard.{Guard};
ghost use Rattle.tracking.specs.Comb.{comb_of, points, turned_value};
ghost use Rattle.tracking.specs.InTime.{counting, distance, gain_by, place, point_gain, symbol_at};
ghost use Rattle.tracking.specs.Moving.{motion as motion_at};
ghost use Rattle.track_motion.specs.Around.{IsAround, IsLook};
ghost use Rattle.track_motion.specs.Places.{in_file};
ghost use Rattle.track_pilots.specs.Window.{StandsFor};
ghost use Rattle.track_comb_gains.specs.Kept.{has, kept_tap, places_of};
ghost use Rattle.qam_map.specs.declared.cell.Cell.{Cell};
ghost use Rattle.track_arithmetic.specs.Laws.{IsWithin};
ghost use Rattle.track_arithmetic.specs.Numbers.{nothing, scaled, sum_of};
ghost use Rattle.track_cells.specs.Gains.{gain_of, AreWithin};
ghost use Rattle.track_cells.specs.Sizes.{size_to};

use crate::taps::{all_counting, taps};
use mode_set::Carriers;
use track_arithmetic::{Complex, near};
use track_motion::{Surroundings, turned_value};
use track_pilots::PilotWindow;
use tracking::Motion;

// What the symbol at a place adds to the gain at a point. The file has the place, or the tap is 0.
fn share<M: Carriers>(
    window: &PilotWindow<M>,
    m: u64,
    around: &Surroundings,
    tap: i16,
    p: usize,
    j: usize,
) -> Complex
    requires there { m < window.now.count }
    requires late { window.now.count ≤ m + 8 }
    requires few { window.now.count ≤ 2 ^ 32 }
    requires look { IsLook window.now.count m around.now }
    requires place { p ≤ 15 }
    requires in_file { (tap ≡ pos 0 → ⊥) → in_file window.now.count m p ≡ true }
    requires point { j < points M.MODE }
    ensures is { (symbols : List (List Cell)) → StandsFor M.MODE window.now symbols
        → IsAround (comb_of M.MODE symbols) m around.now → result
        ≡ scaled tap (turned_value (comb_of M.MODE symbols) m (symbol_at m p) j) }
    ensures within { IsWithin (nat_abs tap * 2 ^ 30) result }
{
    if tap == 0 {
        return Complex { re: 0, im: 0 };
    }
    turned_value(window, m, around, p, j).scaled(i64::from(tap))
}

// The gain at point `j` by these taps of the four symbols at its distance.
fn weighted<M: Carriers>(
    window: &PilotWindow<M>,
    m: u64,
    around: &Surroundings,
    taps: &[i16; 4],
    d: usize,
    j: usize,
) -> Complex
    requires there { m < window.now.count }
    requires late { window.now.count ≤ m + 8 }
    requires few { window.now.count ≤ 2 ^ 32 }
    requires look { IsLook window.now.count m around.now }
    requires distance { d < 4 }
    requires in_file { (i : ℕ) → i < 4 → (get_or taps.now i (pos 0) ≡ pos 0 → ⊥)
        → in_file window.now.count m (place d i) ≡ true }
    requires small { size_to 4 taps.now ≤ 5620 }
    requires point { j < points M.MODE }
    ensures is { (symbols : List (List Cell)) → StandsFor M.MODE window.now symbols
        → IsAround (comb_of M.MODE symbols) m around.now → result
        ≡ sum_of (λ i. scaled (get_or taps.now i (pos 0)) (turned_value (comb_of M.MODE symbols) m
        (symbol_at m (place d i)) j)) (numbers 4) }
    ensures within { IsWithin (5620 * 2 ^ 30) result }
{
    let mut sum = Complex { re: 0, im: 0 };
    for i in 0..4 {
        sum = sum.plus(share(window, m, around, taps[i], 3 + 4 * i - d, j));
    }
    sum
}

// The number of symbols from the last one at which point `j` is a scattered pilot to symbol `m`.
fn distance(m: u64, j: usize) -> usize
    requires { j < 4096 }
    ensures is { result ≡ distance m j }
    ensures few { result < 4 }
{
    ((m % 4) as usize + 3 * j) % 4
}

// The gain at point `j`, where those that count at each distance are the bits of a number.
fn point_gain<M: Carriers>(
    window: &PilotWindow<M>,
    m: u64,
    around: &Surroundings,
    motion: Motion,
    counts: &[usize; 4],
    j: usize,
) -> Complex
    requires there { m < window.now.count }
    requires late { window.now.count ≤ m + 8 }
    requires few { window.now.count ≤ 2 ^ 32 }
    requires look { IsLook window.now.count m around.now }
    requires counts { (d : ℕ) → d < 4 → get_or counts.now d 0 < 16 }
    requires counts_there { (d i : ℕ) → d < 4 → i < 4 → has (get_or counts.now d 0) i ≡ true
        → in_file window.now.count m (place d i) ≡ true }
    requires point { j < points M.MODE }
    ensures is { (symbols : List (List Cell)) (guard : Guard) → StandsFor M.MODE window.now symbols
        → IsAround (comb_of M.MODE symbols) m around.now → ((d : ℕ) → d < 4 → counting (comb_of M.MODE symbols) m d ≡
        places_of d (get_or counts.now d 0)) → motion ≡ motion_at guard (comb_of M.MODE symbols) m → result
        ≡ point_gain guard (comb_of M.MODE symbols) m j }
    ensures within { IsWithin (2 ^ 21) result }
{
    let d = distance(m, j);
    let sum = weighted(window, m, around, taps(motion, d, counts[d]), d, j);
    near(sum, 22)
}

/// The gain at each comb point of symbol `m`, as [`crate::point_gains`] finds it.
pub fn point_gains<M: Carriers>(
    window: &PilotWindow<M>,
    m: u64,
    around: &Surroundings,
    motion: Motion,
    gains: &mut [Complex],
)
    requires there { m < window.now.count }
    requires late { window.now.count ≤ m + 8 }
    requires few { window.now.count ≤ 2 ^ 32 }
    requires look { IsLook window.now.count m around.now }
    requires long { length gains.old ≡ points M.MODE }
    ensures long { length gains.new ≡ points M.MODE }
    ensures is { (symbols : List (List Cell)) (guard : Guard) (j : ℕ) → StandsFor M.MODE window.now symbols
        → IsAround (comb_of M.MODE symbols) m around.now → motion ≡ motion_at guard (comb_of M.MODE symbols) m
        → j < points M.MODE → gain_of gains.new j ≡ point_gain guard (comb_of M.MODE symbols) m j }
    ensures within { AreWithin (2 ^ 21) gains.new }
{
    let counts = all_counting(around);
    for j in 0..gains.len() {
        gains[j] = point_gain(window, m, around, motion, &counts, j);
    }
}
