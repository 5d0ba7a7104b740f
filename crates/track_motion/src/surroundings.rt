// The symbols around a symbol.
ghost use Rattle.std.specs.Prelude.{◌≡◌, ℕ, ◌+◌, ◌-◌, ◌*◌, ◌<◌, ◌≤◌, ◌^◌, List, get_or, false, true, nat_le, nat_lt};
ghost use Rattle.std.specs.Prelude.{◌&&◌};
ghost use Rattle.tracking.specs.BadSymbols.{middle};
ghost use Rattle.tracking.specs.Comb.{comb_of, turn, Comb};
ghost use Rattle.tracking.specs.InTime.{is_good, is_there, symbol_at};
ghost use Rattle.tracking.specs.Moving.{is_seen};
ghost use Rattle.track_motion.specs.Around.{IsAround, IsLook};
ghost use Rattle.track_motion.specs.Kept.{AreLow, KeepsChanges};
ghost use Rattle.track_motion.specs.Places.{end_place, first_place, in_file, HasChanges, HasLesser};
ghost use Rattle.track_pilots.specs.Window.{StandsFor};
ghost use Rattle.qam_map.specs.declared.cell.Cell.{Cell};
ghost use Rattle.track_arithmetic.specs.Laws.{IsWithin};
ghost use Rattle.track_arithmetic.specs.Numbers.{nothing};

use crate::changes::{changes_by, end_place, first_place, lesser_changes, middle_change};
use mode_set::Carriers;
use track_arithmetic::Complex;
use track_pilots::PilotWindow;
use track_turns::turn;

/// What is seen around symbol m, by the places from seven symbols before it to seven after it.
#[derive(Clone, Copy, Debug, PartialEq, Eq)]
pub struct Surroundings {
    /// Whether the file has the symbol at the place.
    pub there: [bool; 16],
    /// Whether it is there and not bad.
    pub good: [bool; 16],
    /// The turn from it to symbol m.
    pub turns: [Complex; 16],
    /// The middle one of the changes.
    pub middle: u64,
}

// The turn from the symbol at a place, nothing if the file does not have it.
fn turn_at<M: Carriers>(window: &PilotWindow<M>, m: u64, p: usize) -> Complex
    requires there { m < window.now.count }
    requires late { window.now.count ≤ m + 8 }
    requires few { window.now.count ≤ 2 ^ 32 }
    requires place { p < 16 }
    ensures is { (symbols : List (List Cell)) → StandsFor M.MODE window.now symbols → in_file window.now.count m p
        ≡ true → result ≡ turn (comb_of M.MODE symbols) m (symbol_at m p) }
    ensures within { IsWithin (2 ^ 14) result }
{
    if p < first_place(m) || p >= end_place(window.count(), m) {
        return Complex { re: 0, im: 0 };
    }
    turn(window, m, m + p as u64 - 7)
}

// The turns by their places.
fn turns<M: Carriers>(window: &PilotWindow<M>, m: u64) -> [Complex; 16]
    requires there { m < window.now.count }
    requires late { window.now.count ≤ m + 8 }
    requires few { window.now.count ≤ 2 ^ 32 }
    ensures are { (symbols : List (List Cell)) (p : ℕ) → StandsFor M.MODE window.now symbols → p < 16
        → in_file window.now.count m p ≡ true → get_or result p nothing
        ≡ turn (comb_of M.MODE symbols) m (symbol_at m p) }
    ensures within { (p : ℕ) → p < 16 → IsWithin (2 ^ 14) (get_or result p nothing) }
{
    let mut turns = [Complex { re: 0, im: 0 }; 16];
    for p in 0..16 {
        turns[p] = turn_at(window, m, p);
    }
    turns
}

// Which places the file has.
fn are_there(first: usize, end: usize) -> [bool; 16]
    ensures { (p : ℕ) → p < 16 → get_or result p false ≡ (nat_le first p && nat_lt p end) }
{
    let mut there = [false; 16];
    for p in 0..16 {
        there[p] = first <= p && p < end;
    }
    there
}

// Which of them are not bad.
fn are_good(lesser: &[u64; 16], middle: u64, first: usize, end: usize) -> [bool; 16]
    requires { middle ≤ 2 ^ 44 }
    ensures { (p : ℕ) → p < 16 → get_or result p false ≡ ((nat_le first p && nat_lt p end) && nat_le
        (get_or lesser.now p 0) (4 * middle)) }
{
    let mut good = [false; 16];
    for p in 0..16 {
        good[p] = first <= p && p < end && lesser[p] <= 4 * middle;
    }
    good
}

/// What is seen around symbol `m`, by the changes of the symbols around it.
pub(crate) fn seen_by<M: Carriers>(
    window: &PilotWindow<M>,
    m: u64,
    changes: &[u64; 16],
) -> Surroundings
    requires there { m < window.now.count }
    requires late { window.now.count ≤ m + 8 }
    requires few { window.now.count ≤ 2 ^ 32 }
    requires small { AreLow changes.now }
    ensures looks { IsLook window.now.count m result }
    ensures are { (symbols : List (List Cell)) → StandsFor M.MODE window.now symbols
        → HasChanges (comb_of M.MODE symbols) m changes.now → IsAround (comb_of M.MODE symbols) m result }
{
    let first = first_place(m);
    let end = end_place(window.count(), m);
    let lesser = lesser_changes(changes, first, end);
    let middle = middle_change(&lesser, first, end);
    Surroundings {
        there: are_there(first, end),
        good: are_good(&lesser, middle, first, end),
        turns: turns(window, m),
        middle,
    }
}

/// Looks at the symbols around symbol `m`, of which the window has the last one, by the kept changes of the symbols.
pub fn look_by<M: Carriers>(window: &PilotWindow<M>, m: u64, kept: &[u64; 16]) -> Surroundings
    requires there { m < window.now.count }
    requires late { window.now.count ≤ m + 8 }
    requires few { window.now.count ≤ 2 ^ 32 }
    requires small { AreLow kept.now }
    ensures looks { IsLook window.now.count m result }
    ensures are { (symbols : List (List Cell)) → StandsFor M.MODE window.now symbols
        → KeepsChanges (comb_of M.MODE symbols) kept.now → IsAround (comb_of M.MODE symbols) m result }
{
    seen_by(window, m, &changes_by(m, kept))
}

// Whether all five are set.
fn all_five(first: bool, second: bool, third: bool, fourth: bool, last: bool) -> bool
    ensures { result ≡ ((((first && second) && third) && fourth) && last) }
{
    first && second && third && fourth && last
}

/// Whether the channel's motion is measured at the symbol: those 6 and 2 before and after it are there, and none
/// of the five is bad.
pub fn is_seen(around: &Surroundings) -> bool
    ensures is { (c : Comb) (m : ℕ) → m < c.count → IsAround c m around.now → result ≡ is_seen c m }
    ensures first { (count m : ℕ) → IsLook count m around.now → result ≡ true → in_file count m 1 ≡ true }
    ensures last { (count m : ℕ) → IsLook count m around.now → result ≡ true → in_file count m 13 ≡ true }
{
    let good = &around.good;
    all_five(good[1], good[5], good[7], good[9], good[13])
}
