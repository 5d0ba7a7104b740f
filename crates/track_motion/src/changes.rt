// The changes around a symbol. Place p around symbol m is symbol m + p - 7.
ghost use Rattle.std.specs.Prelude.{◌≡◌, ℕ, ◌+◌, ◌-◌, ◌*◌, ◌<◌, ◌≤◌, ◌^◌, List, IsTrue, ◌↔◌, get_or, true};
ghost use Rattle.tracking.specs.BadSymbols.{lesser_change, middle};
ghost use Rattle.tracking.specs.Comb.{change, comb_of, Comb};
ghost use Rattle.tracking.specs.InTime.{symbol_at};
ghost use Rattle.track_motion.specs.Kept.{AreLow, KeepsBefore, KeepsChanges};
ghost use Rattle.track_motion.specs.Places.{end_place, first_place, in_file, HasChanges, HasLesser};
ghost use Rattle.track_pilots.specs.Window.{StandsFor};
ghost use Rattle.qam_map.specs.declared.cell.Cell.{Cell};

use mode_set::Carriers;
use track_arithmetic::middle;
use track_pilots::PilotWindow;
use track_turns::change;

/// The first of the places that the file has.
pub(crate) fn first_place(m: u64) -> usize
    ensures { result ≡ first_place m }
{
    7u64.saturating_sub(m) as usize
}

/// The place after the last one, of a file of `count` symbols. Symbol `m` is one of them.
pub(crate) fn end_place(count: u64, m: u64) -> usize
    requires { m < count }
    ensures { result ≡ end_place count m }
{
    (count - m).min(8) as usize + 7
}

/// Room for the changes of sixteen symbols, none of which is kept yet.
pub fn no_changes() -> [u64; 16]
    ensures { AreLow result }
{
    [0; 16]
}

/// Keeps the change of the last symbol of the window from the one before it, as that of symbol t at place t modulo 16.
/// The other fifteen places stay.
pub fn push_change<M: Carriers>(window: &PilotWindow<M>, kept: &mut [u64; 16])
    requires some { 1 ≤ window.now.count }
    requires small { AreLow kept.old }
    ensures small { AreLow kept.new }
    ensures keeps { (symbols : List (List Cell)) → StandsFor M.MODE window.now symbols
        → KeepsBefore (comb_of M.MODE symbols) kept.old → KeepsChanges (comb_of M.MODE symbols) kept.new }
{
    let last = window.count() - 1;
    if last == 0 {
        return;
    }
    kept[(last % 16) as usize] = change(window, last);
}

/// The kept changes of the symbols around symbol m by their places.
pub(crate) fn changes_by(m: u64, kept: &[u64; 16]) -> [u64; 16]
    requires few { m < 2 ^ 32 }
    requires small { AreLow kept.now }
    ensures are { (c : Comb) → KeepsChanges c kept.now → m < c.count → c.count ≤ m + 8 → HasChanges c m result }
    ensures most { (p : ℕ) → p < 16 → get_or result p 0 ≤ 2 ^ 44 }
{
    let mut changes = [0; 16];
    for p in 0..16 {
        changes[p] = kept[((m + p as u64 + 9) % 16) as usize];
    }
    changes
}

// How far the symbol at a place is from its nearer neighbour in the file.
fn lesser_change(changes: &[u64; 16], first: usize, end: usize, p: usize) -> u64
    requires small { (k : ℕ) → k < 16 → get_or changes.now k 0 ≤ 2 ^ 44 }
    requires end { end ≤ 15 }
    requires place { p < 16 }
    ensures is { (c : Comb) (m : ℕ) → HasChanges c m changes.now → first ≡ first_place m → end ≡ end_place c.count m
        → m < c.count → first ≤ p → p < end → result ≡ lesser_change c m (symbol_at m p) }
    ensures most { result ≤ 2 ^ 44 }
{
    let from = changes[p];
    if p + 1 >= end {
        return if p > first { from } else { 0 };
    }
    let to = changes[p + 1];
    if p > first { from.min(to) } else { to }
}

/// How far the symbols at the places are from their nearer neighbours.
pub(crate) fn lesser_changes(changes: &[u64; 16], first: usize, end: usize) -> [u64; 16]
    requires small { (k : ℕ) → k < 16 → get_or changes.now k 0 ≤ 2 ^ 44 }
    requires end { end ≤ 15 }
    ensures are { (c : Comb) (m : ℕ) → HasChanges c m changes.now → first ≡ first_place m → end ≡ end_place c.count m
        → m < c.count → HasLesser c m result }
    ensures most { (p : ℕ) → p < 16 → get_or result p 0 ≤ 2 ^ 44 }
{
    let mut lesser = [0; 16];
    for p in 0..16 {
        lesser[p] = lesser_change(changes, first, end, p);
    }
    lesser
}

/// The middle one of those from place `first` to before `end`.
pub(crate) fn middle_change(lesser: &[u64; 16], first: usize, end: usize) -> u64
    requires small { (k : ℕ) → k < 16 → get_or lesser.now k 0 ≤ 2 ^ 44 }
    requires some { first < end }
    requires end { end ≤ 15 }
    ensures is { (c : Comb) (m : ℕ) → HasLesser c m lesser.now → first ≡ first_place m → end ≡ end_place c.count m
        → m < c.count → result ≡ middle c m }
    ensures most { result ≤ 2 ^ 44 }
{
    let mut sorted = *lesser;
    middle(&mut sorted[first..end])
}
