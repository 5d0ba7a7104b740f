//! The correction of a symbol carrier by carrier, with a division for each part: the program of the definition.
ghost use Rattle.std.specs.Prelude.{◌≡◌, ◌+◌, ◌*◌, ◌^◌, ◌/◌, ◌<◌, ◌≤◌, ◌++◌, ◌==◌, if◌then◌else◌, min, length, vec_len};
ghost use Rattle.std.specs.Prelude.{vec_capacity};
ghost use Rattle.mode_set.specs.StreamTable.{carriers};
ghost use Rattle.cell_equal.specs.Equal.{corrected, divided, equalised_bytes, power};
ghost use Rattle.cell_equal.specs.State.{IsSmall};

use crate::divide::{NOTHING, across, along, power, scaled, value_near};
use crate::span::Span;
use crate::{Equalised, Gain};
use frame_build::{cell_bytes, push_five};
use mode_set::Mode;
use qam_map::Cell;

// The cell divided by a gain of this power, with divisions.
fn plainly_divided(gain: Gain, cell: Cell, n: u64) -> Cell
    requires small { IsSmall gain }
    requires n { n ≡ power gain }
    requires some { 0 < n }
    requires most { n ≤ 2 ^ 39 }
    ensures { result ≡ divided gain cell }
{
    let re = along(cell.re, cell.im, gain.re, gain.im);
    let im = across(cell.re, cell.im, gain.re, gain.im);
    Cell {
        re: value_near(scaled(gain.span, re), n),
        im: value_near(scaled(gain.span, im), n),
    }
}

// The weight after correction, with a division.
fn plain_weight(old: u8, span: u8, n: u64) -> u8
    requires some { 1 ≤ span }
    requires span { span ≤ 12 }
    requires n { n ≤ 2 ^ 39 }
    ensures { result ≡ (if old == 0 then 0 else min 15 (16 * n / (21845 * span) ^ 2)) }
{
    let one = 21845 * u64::from(span);
    let all = 16 * n / (one * one);
    if old == 0 { 0 } else { all.min(15) as u8 }
}

// The cell divided by the gain, and its weight, with divisions.
fn plainly_corrected(gain: Gain, cell: Cell, weight: u8) -> Equalised
    requires { IsSmall gain }
    ensures { result ≡ corrected gain cell weight }
{
    let n = power(gain);
    if n == 0 {
        return NOTHING;
    }
    let restored = plainly_divided(gain, cell, n);
    Equalised {
        cell: restored,
        weight: plain_weight(weight, gain.span, n),
    }
}

/// Appends the corrected cells of a symbol, as [`crate::equalise`] does.
pub fn equalise(mode: Mode, l: u8, cells: &[Cell], weights: &[u8], to: &mut Vec<u8>)
    requires symbol { l < 68 }
    requires cells { length cells.now ≡ carriers mode }
    requires weights { length weights.now ≡ carriers mode }
    requires room { vec_len to.old + 5 * carriers mode ≤ vec_capacity to.old }
    ensures appended { to.new.items ≡ to.old.items ++ equalised_bytes mode l cells.now weights.now }
    ensures capacity { vec_capacity to.new ≡ vec_capacity to.old }
{
    let mut span = Span::first(cells);
    for k in 0..cells.len() {
        span.advance(mode, l, cells, k as u32);
        let gain = span.gain(k as u32);
        let restored = plainly_corrected(gain, cells[k], weights[k]);
        push_five(cell_bytes(restored.cell, restored.weight), to);
    }
}
