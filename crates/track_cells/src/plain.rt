//! The gains carrier by carrier, and the correction with a division for each part and each weight: the programs of
//! the definitions.
ghost use Rattle.std.specs.Prelude.{◌≡◌, ℕ, ◌+◌, ◌*◌, ◌++◌, ◌<◌, ◌≤◌, ◌^◌, length, vec_len, vec_capacity};
ghost use Rattle.mode_set.specs.StreamTable.{carriers};
ghost use Rattle.tracking.specs.Comb.{points};
ghost use Rattle.tracking.specs.Correction.{corrected, divided};
ghost use Rattle.tracking.specs.InFrequency.{carrier_gain};
ghost use Rattle.track_arithmetic.specs.Laws.{IsWithin};
ghost use Rattle.track_arithmetic.specs.Numbers.{power};
ghost use Rattle.track_cells.specs.Gains.{corrected_bytes, gain_of, AreWithin};

use crate::correction::{across, along, scaled};
use crate::frequency::{centre, put_each};
use crate::weights::{divided_weight, shared_weight};
use frame_build::{cell_bytes, push_five};
use mode_set::{Guard, Mode};
use qam_map::Cell;
use track_arithmetic::{Complex, value_near};
use tracking::Tracked;

// The cell divided by a gain of this power.
fn divided(gain: Complex, cell: Cell, n: u64) -> Cell
    requires gain { IsWithin (2 ^ 25) gain }
    requires n { n ≡ power gain }
    requires some { 0 < n }
    requires most { n ≤ 2 ^ 51 }
    ensures { result ≡ divided gain cell }
{
    let re = along(cell.re, cell.im, gain.re, gain.im);
    let im = across(cell.re, cell.im, gain.re, gain.im);
    Cell {
        re: value_near(scaled(re), n),
        im: value_near(scaled(im), n),
    }
}

// The cell divided by the gain, and its weight.
fn corrected(full: u64, gain: Complex, cell: Cell, old: u8) -> Tracked
    requires some { 1 ≤ full }
    requires most { full ≤ 2 ^ 52 }
    requires gain { IsWithin (2 ^ 25) gain }
    ensures { result ≡ corrected full gain cell old }
{
    let n = gain.power();
    if n == 0 {
        return Tracked {
            cell: Cell { re: 0, im: 0 },
            weight: 0,
        };
    }
    Tracked {
        cell: divided(gain, cell, n),
        weight: shared_weight(divided_weight(full, n), old),
    }
}

/// Appends the corrected cells of a symbol, as [`crate::push_corrected`] does.
pub fn push_corrected(
    full: u64,
    gains: &[Complex],
    cells: &[Cell],
    weights: &[u8],
    to: &mut Vec<u8>,
)
    requires some { 1 ≤ full }
    requires most { full ≤ 2 ^ 52 }
    requires gains { AreWithin (2 ^ 25) gains.now }
    requires cells { length cells.now ≡ length gains.now }
    requires weights { length weights.now ≡ length gains.now }
    requires few { length gains.now ≤ 6817 }
    requires room { vec_len to.old + 5 * length gains.now ≤ vec_capacity to.old }
    ensures appended { to.new.items ≡ to.old.items ++ corrected_bytes full gains.now cells.now weights.now (length
        gains.now) }
    ensures capacity { vec_capacity to.new ≡ vec_capacity to.old }
{
    for k in 0..gains.len() {
        let restored = corrected(full, gains[k], cells[k], weights[k]);
        push_five(cell_bytes(restored.cell, restored.weight), to);
    }
}

/// The gain at each carrier of a symbol, as [`crate::interpolate`] finds it.
pub fn interpolate(
    guard: Guard,
    mode: Mode,
    gains: &[Complex],
    centred: &mut [Complex],
    to: &mut [Complex],
)
    requires points { length gains.now ≡ points mode }
    requires gains { AreWithin (2 ^ 21) gains.now }
    requires room { length centred.old ≡ points mode }
    requires carriers { length to.old ≡ carriers mode }
    ensures room { length centred.new ≡ points mode }
    ensures carriers { length to.new ≡ carriers mode }
    ensures is { (k : ℕ) → k < carriers mode → gain_of to.new k ≡ carrier_gain guard mode (gain_of gains.now) k }
    ensures within { AreWithin (2 ^ 25) to.new }
{
    centre(guard, gains, centred);
    put_each(guard, mode, centred, 0, to.len(), to);
}
