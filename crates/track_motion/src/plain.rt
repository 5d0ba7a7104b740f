//! What is seen around a symbol, with each change found anew: the program of the definition.
ghost use Rattle.std.specs.Prelude.{◌≡◌, ℕ, ◌+◌, ◌<◌, ◌≤◌, ◌^◌, List, get_or};
ghost use Rattle.tracking.specs.Comb.{change, comb_of};
ghost use Rattle.tracking.specs.InTime.{symbol_at};
ghost use Rattle.track_motion.specs.Around.{IsAround, IsLook};
ghost use Rattle.track_motion.specs.Places.{end_place, first_place, HasChanges};
ghost use Rattle.track_pilots.specs.Window.{StandsFor};
ghost use Rattle.qam_map.specs.declared.cell.Cell.{Cell};

use crate::changes::{end_place, first_place};
use crate::surroundings::{Surroundings, seen_by};
use mode_set::Carriers;
use track_pilots::PilotWindow;
use track_turns::change;

// The change at a place, 0 if the file does not have it and the one before it.
fn change_at<M: Carriers>(window: &PilotWindow<M>, m: u64, p: usize) -> u64
    requires there { m < window.now.count }
    requires late { window.now.count ≤ m + 8 }
    requires few { window.now.count ≤ 2 ^ 32 }
    requires place { p < 16 }
    ensures is { (symbols : List (List Cell)) → StandsFor M.MODE window.now symbols → first_place m < p
        → p < end_place window.now.count m → result ≡ change (comb_of M.MODE symbols) (symbol_at m p) }
    ensures most { result ≤ 2 ^ 44 }
{
    if p <= first_place(m) || p >= end_place(window.count(), m) {
        return 0;
    }
    change(window, m + p as u64 - 7)
}

// The changes of the symbols around symbol `m` from those before them, by their places.
fn changes<M: Carriers>(window: &PilotWindow<M>, m: u64) -> [u64; 16]
    requires there { m < window.now.count }
    requires late { window.now.count ≤ m + 8 }
    requires few { window.now.count ≤ 2 ^ 32 }
    ensures are { (symbols : List (List Cell)) → StandsFor M.MODE window.now symbols
        → HasChanges (comb_of M.MODE symbols) m result }
    ensures most { (p : ℕ) → p < 16 → get_or result p 0 ≤ 2 ^ 44 }
{
    let mut changes = [0; 16];
    for p in 0..16 {
        changes[p] = change_at(window, m, p);
    }
    changes
}

/// Looks at the symbols around symbol `m`, of which the window has the last one.
pub fn look<M: Carriers>(window: &PilotWindow<M>, m: u64) -> Surroundings
    requires there { m < window.now.count }
    requires late { window.now.count ≤ m + 8 }
    requires few { window.now.count ≤ 2 ^ 32 }
    ensures looks { IsLook window.now.count m result }
    ensures are { (symbols : List (List Cell)) → StandsFor M.MODE window.now symbols
        → IsAround (comb_of M.MODE symbols) m result }
{
    seen_by(window, m, &changes(window, m))
}
