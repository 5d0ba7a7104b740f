// The carriers from one pilot to the next.
ghost use Rattle.std.specs.Prelude.{◌≡◌, ℕ, List, ◌+◌, ◌-◌, ◌*◌, ◌<◌, ◌≤◌, ◌++◌, length, take, vec_len, vec_capacity};
ghost use Rattle.mode_set.specs.StreamTable.{carriers};
ghost use Rattle.cell_equal.specs.Equal.{bytes_of, corrected};
ghost use Rattle.cell_equal.specs.State.{IsAround, IsSmall, first_bytes};

use crate::divide::{corrected, corrected_pilot};
use crate::span::Span;
use crate::{Equalised, Gain};
use frame_build::{cell_bytes, push_five};
use mode_set::Mode;
use pilots::reference;
use qam_map::Cell;

// Appends a cell divided by a gain.
#[inline(always)]
fn push_corrected(gain: Gain, cell: Cell, weight: u8, to: &mut Vec<u8>)
    requires small { IsSmall gain }
    requires room { vec_len to.old + 5 ≤ vec_capacity to.old }
    ensures bytes { to.new.items ≡ to.old.items ++ bytes_of (corrected gain cell weight) }
    ensures len { vec_len to.new ≡ vec_len to.old + 5 }
    ensures capacity { vec_capacity to.new ≡ vec_capacity to.old }
{
    let restored = corrected(gain, cell, weight);
    push_five(cell_bytes(restored.cell, restored.weight), to);
}

// Appends the corrected cells from carrier `from` up to the next pilot, which may be `from` itself.
pub(crate) fn push_run(
    mode: Mode,
    l: u8,
    cells: &[Cell],
    weights: &[u8],
    from: u32,
    span: &mut Span,
    to: &mut Vec<u8>,
)
    requires symbol { l < 68 }
    requires cells { length cells.now ≡ carriers mode }
    requires weights { length weights.now ≡ carriers mode }
    requires carrier { from < carriers mode }
    requires before { IsAround mode l cells.now (from - 1) span.old }
    requires room { vec_len to.old + 5 * (carriers mode - from) ≤ vec_capacity to.old }
    ensures around { IsAround mode l cells.now span.new.right span.new }
    ensures forward { from ≤ span.new.right }
    ensures within { span.new.right < carriers mode }
    ensures bytes { (start : List ℕ) → to.old.items ≡ start ++ first_bytes mode l cells.now weights.now from
        → to.new.items ≡ start ++ first_bytes mode l cells.now weights.now (span.new.right + 1) }
    ensures len { vec_len to.new + 5 * from ≡ vec_len to.old + 5 * (span.new.right + 1) }
    ensures capacity { vec_capacity to.new ≡ vec_capacity to.old }
{
    span.advance(mode, l, cells, from);
    let right = span.right;
    let mut gain = span.gain(from);
    for k in from..right {
        let at = k as usize;
        push_corrected(gain, cells[at], weights[at], to);
        gain = span.next_gain(gain);
    }
    let pilot = corrected_pilot(reference(right), span.at_right, weights[right as usize]);
    push_five(cell_bytes(pilot.cell, pilot.weight), to);
}

// Writes a corrected cell over the five bytes of carrier `k`.
#[inline(always)]
fn put_cell(restored: Equalised, k: usize, to: &mut [u8])
    requires room { 5 * k + 5 ≤ length to.old }
    ensures long { length to.new ≡ length to.old }
    ensures bytes { take (5 * (k + 1)) to.new ≡ take (5 * k) to.old ++ bytes_of restored }
{
    let bytes = cell_bytes(restored.cell, restored.weight);
    to[5 * k..5 * k + 5].copy_from_slice(&bytes);
}

// Writes the corrected cells from carrier `from` up to the next pilot, which may be `from` itself.
pub(crate) fn put_run(
    mode: Mode,
    l: u8,
    cells: &[Cell],
    weights: &[u8],
    from: u32,
    span: &mut Span,
    to: &mut [u8],
)
    requires symbol { l < 68 }
    requires cells { length cells.now ≡ carriers mode }
    requires weights { length weights.now ≡ carriers mode }
    requires carrier { from < carriers mode }
    requires before { IsAround mode l cells.now (from - 1) span.old }
    requires long { length to.old ≡ 5 * carriers mode }
    ensures around { IsAround mode l cells.now span.new.right span.new }
    ensures forward { from ≤ span.new.right }
    ensures within { span.new.right < carriers mode }
    ensures bytes { take (5 * from) to.old ≡ first_bytes mode l cells.now weights.now from
        → take (5 * (span.new.right + 1)) to.new ≡ first_bytes mode l cells.now weights.now (span.new.right + 1) }
    ensures long { length to.new ≡ length to.old }
{
    span.advance(mode, l, cells, from);
    let right = span.right;
    let mut gain = span.gain(from);
    for k in from..right {
        let at = k as usize;
        put_cell(corrected(gain, cells[at], weights[at]), at, to);
        gain = span.next_gain(gain);
    }
    let at = right as usize;
    put_cell(
        corrected_pilot(reference(right), span.at_right, weights[at]),
        at,
        to,
    );
}
