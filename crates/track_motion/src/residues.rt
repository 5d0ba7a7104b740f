// How well the symbols around a symbol predict its continual pilots.
ghost use Rattle.std.specs.Prelude.{◌≡◌, ℕ, ◌+◌, ◌-◌, ◌*◌, ◌<◌, ◌≤◌, ◌^◌, List, IfSome, nat_abs, true};
ghost use Rattle.tracking.specs.Comb.{comb_of, points, turned_value};
ghost use Rattle.tracking.specs.InTime.{symbol_at};
ghost use Rattle.tracking.specs.Moving.{followed, follows, predicted, residue, tap};
ghost use Rattle.track_motion.specs.Around.{IsAround, IsLook};
ghost use Rattle.track_motion.specs.Means.{AreMeans, AreSmall, fast_of, left, most_left, most_residue, slow_of};
ghost use Rattle.track_motion.specs.Places.{in_file};
ghost use Rattle.track_pilots.specs.Window.{StandsFor};
ghost use Rattle.qam_map.specs.declared.cell.Cell.{Cell};
ghost use Rattle.track_arithmetic.specs.Laws.{IsWithin};

use crate::surroundings::{Surroundings, is_seen};
use mode_set::Carriers;
use track_arithmetic::{Complex, near};
use track_pilots::PilotWindow;
use track_turns::continual_points;
use tracking::Motion;

/// The running means of what the predictions by both motions leave of the continual pilots.
#[derive(Clone, Copy, Debug, PartialEq, Eq)]
pub struct Residues {
    /// By the slow one.
    pub slow: u64,
    /// By the fast one.
    pub fast: u64,
}

/// Point `j` of the symbol at a place around symbol `m`, turned to the phase of symbol `m`, times 2^14. The file has
/// the place.
pub fn turned_value<M: Carriers>(
    window: &PilotWindow<M>,
    m: u64,
    around: &Surroundings,
    p: usize,
    j: usize,
) -> Complex
    requires there { m < window.now.count }
    requires late { window.now.count ≤ m + 8 }
    requires few { window.now.count ≤ 2 ^ 32 }
    requires look { IsLook window.now.count m around.now }
    requires place { p < 16 }
    requires in_file { in_file window.now.count m p ≡ true }
    requires point { j < points M.MODE }
    ensures is { (symbols : List (List Cell)) → StandsFor M.MODE window.now symbols
        → IsAround (comb_of M.MODE symbols) m around.now → result
        ≡ turned_value (comb_of M.MODE symbols) m (symbol_at m p) j }
    ensures within { IsWithin (2 ^ 30) result }
{
    window.row(m + p as u64 - 7)[j].times(around.turns[p])
}

// The tap of the prediction by the symbol 6 before, 2 before, 2 after or 6 after.
#[tactic(auto, unfolding(tracking::specs::Moving::tap, tracking::specs::Coefficients::time_taps))]
fn tap(motion: Motion, i: usize) -> i64
    requires { i < 4 }
    ensures is { result ≡ tap motion 2 i }
    ensures within { nat_abs result ≤ 2429 }
{
    match motion {
        Motion::Slow => 1024,
        Motion::Fast => { if i == 0 || i == 3 { -381 } else { 2429 } }
    }
}

// Point `j` of symbol `m`, as the four symbols predict it.
fn predicted<M: Carriers>(
    window: &PilotWindow<M>,
    m: u64,
    around: &Surroundings,
    motion: Motion,
    j: usize,
) -> Complex
    requires there { m < window.now.count }
    requires late { window.now.count ≤ m + 8 }
    requires few { window.now.count ≤ 2 ^ 32 }
    requires look { IsLook window.now.count m around.now }
    requires first { in_file window.now.count m 1 ≡ true }
    requires last { in_file window.now.count m 13 ≡ true }
    requires point { j < points M.MODE }
    ensures is { (symbols : List (List Cell)) → StandsFor M.MODE window.now symbols
        → IsAround (comb_of M.MODE symbols) m around.now → result ≡ predicted (comb_of M.MODE symbols) motion m j }
    ensures within { IsWithin (2 ^ 18) result }
{
    let mut sum = Complex { re: 0, im: 0 };
    for i in 0..4 {
        let value = turned_value(window, m, around, 4 * i + 1, j);
        sum = sum.plus(value.scaled(tap(motion, i)));
    }
    near(sum, 26)
}

// How far point `j` of symbol `m` is from what is predicted.
fn left<M: Carriers>(
    window: &PilotWindow<M>,
    m: u64,
    around: &Surroundings,
    motion: Motion,
    j: usize,
) -> u64
    requires there { m < window.now.count }
    requires late { window.now.count ≤ m + 8 }
    requires few { window.now.count ≤ 2 ^ 32 }
    requires look { IsLook window.now.count m around.now }
    requires first { in_file window.now.count m 1 ≡ true }
    requires last { in_file window.now.count m 13 ≡ true }
    requires point { j < points M.MODE }
    ensures is { (symbols : List (List Cell)) → StandsFor M.MODE window.now symbols
        → IsAround (comb_of M.MODE symbols) m around.now → result ≡ left (comb_of M.MODE symbols) motion m j }
    ensures most { result ≤ most_left }
{
    let prediction = predicted(window, m, around, motion, j);
    window.row(m)[j].minus(prediction).power()
}

// How far all continual pilots of symbol `m` are from what is predicted.
fn residue<M: Carriers>(
    window: &PilotWindow<M>,
    m: u64,
    around: &Surroundings,
    motion: Motion,
) -> u64
    requires there { m < window.now.count }
    requires late { window.now.count ≤ m + 8 }
    requires few { window.now.count ≤ 2 ^ 32 }
    requires look { IsLook window.now.count m around.now }
    requires first { in_file window.now.count m 1 ≡ true }
    requires last { in_file window.now.count m 13 ≡ true }
    ensures is { (symbols : List (List Cell)) → StandsFor M.MODE window.now symbols
        → IsAround (comb_of M.MODE symbols) m around.now → result ≡ residue (comb_of M.MODE symbols) motion m }
    ensures most { result ≤ most_residue }
{
    let points = continual_points(M::MODE);
    let mut sum: u64 = 0;
    for i in 0..points.len() {
        sum += left(window, m, around, motion, usize::from(points[i]));
    }
    sum
}

// An eighth of the way from the mean to one more.
fn followed(mean: u64, residue: u64) -> u64
    requires mean { mean ≤ most_residue }
    requires residue { residue ≤ most_residue }
    ensures is { result ≡ followed mean residue }
    ensures most { result ≤ most_residue }
{
    (7 * mean + residue) / 8
}

// The means with one residue more of each.
fn with_residues(means: Option<Residues>, slow: u64, fast: u64) -> Residues
    requires means { AreSmall means }
    requires slow { slow ≤ most_residue }
    requires fast { fast ≤ most_residue }
    ensures slow { result.slow ≡ follows (slow_of means) slow }
    ensures fast { result.fast ≡ follows (fast_of means) fast }
    ensures small_slow { result.slow ≤ most_residue }
    ensures small_fast { result.fast ≤ most_residue }
{
    match means {
        None => Residues { slow, fast },
        Some(before) => Residues {
            slow: followed(before.slow, slow),
            fast: followed(before.fast, fast),
        },
    }
}

/// The running means after symbol `m`, by those before it.
pub fn follow<M: Carriers>(
    window: &PilotWindow<M>,
    m: u64,
    around: &Surroundings,
    means: Option<Residues>,
) -> Option<Residues>
    requires there { m < window.now.count }
    requires late { window.now.count ≤ m + 8 }
    requires few { window.now.count ≤ 2 ^ 32 }
    requires look { IsLook window.now.count m around.now }
    requires small { AreSmall means }
    ensures are { (symbols : List (List Cell)) → StandsFor M.MODE window.now symbols
        → IsAround (comb_of M.MODE symbols) m around.now → AreMeans (comb_of M.MODE symbols) (m - 1) means
        → AreMeans (comb_of M.MODE symbols) m result }
    ensures small { AreSmall result }
{
    if !is_seen(around) {
        return means;
    }
    let slow = residue(window, m, around, Motion::Slow);
    let fast = residue(window, m, around, Motion::Fast);
    Some(with_residues(means, slow, fast))
}
