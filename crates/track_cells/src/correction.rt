// The correction of the cells of a symbol.
ghost use Rattle.std.specs.Prelude.{◌≡◌, ℕ, ◌+◌, ◌*◌, ◌++◌, ◌<◌, ◌≤◌, ◌^◌, length, nat_abs, vec_len, vec_capacity, pos};
ghost use Rattle.std.specs.Prelude.{◌+ℤ◌, ◌-ℤ◌, ◌*ℤ◌};
ghost use Rattle.tracking.specs.Correction.{corrected, divided};
ghost use Rattle.track_arithmetic.specs.Laws.{IsWithin};
ghost use Rattle.track_arithmetic.specs.Numbers.{power, value_near};
ghost use Rattle.track_cells.specs.Gains.{corrected_bytes, AreWithin};

use crate::estimate;
use crate::weights::{shared_weight, weight_of};
use frame_build::{cell_bytes, push_five};
use qam_map::Cell;
use track_arithmetic::{Complex, value_by};
use tracking::Tracked;

// The product of a value of a cell and a part of a gain.
fn product(value: i16, part: i64) -> i64
    requires { nat_abs part ≤ 2 ^ 25 }
    ensures is { result ≡ value *ℤ part }
    ensures small { nat_abs result ≤ 2 ^ 40 }
{
    i64::from(value) * part
}

// The part of a cell along the gain (u, v), times the gain's amplitude.
pub(crate) fn along(re: i16, im: i16, u: i64, v: i64) -> i64
    requires u { nat_abs u ≤ 2 ^ 25 }
    requires v { nat_abs v ≤ 2 ^ 25 }
    ensures is { result ≡ re *ℤ u +ℤ im *ℤ v }
    ensures small { nat_abs result ≤ 2 ^ 41 }
{
    product(re, u) + product(im, v)
}

// The part across it.
pub(crate) fn across(re: i16, im: i16, u: i64, v: i64) -> i64
    requires u { nat_abs u ≤ 2 ^ 25 }
    requires v { nat_abs v ≤ 2 ^ 25 }
    ensures is { result ≡ im *ℤ u -ℤ re *ℤ v }
    ensures small { nat_abs result ≤ 2 ^ 41 }
{
    product(im, u) - product(re, v)
}

// 16 times the value of a sent pilot, times a number.
pub(crate) fn scaled(x: i64) -> i64
    requires { nat_abs x ≤ 2 ^ 41 }
    ensures is { result ≡ pos 349520 *ℤ x }
    ensures small { nat_abs result ≤ 2 ^ 60 }
{
    349520 * x
}

// The value of a cell nearest to that over a power, by a guess at it.
fn quotient(guess: i16, x: i64, n: u64) -> i16
    requires x { nat_abs x ≤ 2 ^ 41 }
    requires some { 0 < n }
    requires most { n ≤ 2 ^ 51 }
    ensures { result ≡ value_near (pos 349520 *ℤ x) n }
{
    value_by(guess, scaled(x), n)
}

// The cell divided by a gain of this power.
fn divided(gain: Complex, cell: Cell, n: u64) -> Cell
    requires gain { IsWithin (2 ^ 25) gain }
    requires n { n ≡ power gain }
    requires some { 0 < n }
    requires most { n ≤ 2 ^ 51 }
    ensures { result ≡ divided gain cell }
{
    let (re, im) = estimate::parts(gain, cell);
    Cell {
        re: quotient(re, along(cell.re, cell.im, gain.re, gain.im), n),
        im: quotient(im, across(cell.re, cell.im, gain.re, gain.im), n),
    }
}

// The cell divided by the gain, and its weight.
fn corrected(full: u64, gain: Complex, cell: Cell, old: u8) -> Tracked
    requires some { 1 ≤ full }
    requires most { full ≤ 2 ^ 52 }
    requires gain { IsWithin (2 ^ 25) gain }
    ensures { result ≡ corrected full gain cell old }
{
    let n = gain.power();
    if n == 0 {
        return Tracked {
            cell: Cell { re: 0, im: 0 },
            weight: 0,
        };
    }
    Tracked {
        cell: divided(gain, cell, n),
        weight: shared_weight(weight_of(full, n), old),
    }
}

/// Appends the cells of a symbol, each divided by the gain of its carrier, five bytes each: both parts, 16
/// bits in two's complement with the high byte first, and the weight, 0 to 15. A carrier with the power `full`
/// keeps its weight, and one with less has a share of it. There is a gain, a cell and a weight for each
/// carrier. The spare of `to` has room for the symbol, so no memory is taken.
pub fn push_corrected(
    full: u64,
    gains: &[Complex],
    cells: &[Cell],
    weights: &[u8],
    to: &mut Vec<u8>,
)
    requires some { 1 ≤ full }
    requires most { full ≤ 2 ^ 52 }
    requires gains { AreWithin (2 ^ 25) gains.now }
    requires cells { length cells.now ≡ length gains.now }
    requires weights { length weights.now ≡ length gains.now }
    requires few { length gains.now ≤ 6817 }
    requires room { vec_len to.old + 5 * length gains.now ≤ vec_capacity to.old }
    ensures appended { to.new.items ≡ to.old.items ++ corrected_bytes full gains.now cells.now weights.now (length
        gains.now) }
    ensures capacity { vec_capacity to.new ≡ vec_capacity to.old }
{
    for k in 0..gains.len() {
        let restored = corrected(full, gains[k], cells[k], weights[k]);
        push_five(cell_bytes(restored.cell, restored.weight), to);
    }
}
