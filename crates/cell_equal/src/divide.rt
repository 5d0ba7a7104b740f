// A cell divided by the gain of its carrier.
ghost use Rattle.std.specs.Prelude.{◌≡◌, ℕ, ◌+◌, ◌*◌, ◌^◌, ◌<◌, ◌≤◌, nat_abs, min, ◌/◌, ◌==◌, if◌then◌else◌, pos, ◌+ℤ◌};
ghost use Rattle.std.specs.Prelude.{◌-ℤ◌, ◌*ℤ◌, ◌<ℤ◌, IsTrue};
ghost use Rattle.qam_map.specs.declared.cell.Cell.{Cell as CellOf};
ghost use Rattle.cell_equal.specs.Equal.{power, nearest, value_near, divided, corrected, unturned};
ghost use Rattle.cell_equal.specs.State.{IsSmall};

use crate::{Equalised, Gain, estimate};
use qam_map::Cell;

// A cell whose gain has no power.
pub(crate) const NOTHING: Equalised = Equalised {
    cell: Cell { re: 0, im: 0 },
    weight: 0,
};

// The product of a value of a cell and a part of a gain.
pub(crate) fn product(value: i16, part: i64) -> i64
    requires { nat_abs part ≤ 393216 }
    ensures is { result ≡ value *ℤ part }
    ensures small { nat_abs result ≤ 2 ^ 34 }
{
    i64::from(value) * part
}

// The product of a value of a cell and a divisor.
fn multiple(value: i16, divisor: i64) -> i64
    requires { nat_abs divisor ≤ 2 ^ 40 }
    ensures is { result ≡ value *ℤ divisor }
    ensures small { nat_abs result ≤ 2 ^ 55 }
{
    i64::from(value) * divisor
}

// A value times 21845 and the distance between the pilots.
pub(crate) fn scaled(span: u8, value: i64) -> i64
    requires span { span ≤ 12 }
    requires value { nat_abs value ≤ 2 ^ 35 }
    ensures is { result ≡ pos (21845 * span) *ℤ value }
    ensures small { nat_abs result ≤ 2 ^ 53 }
{
    21845 * i64::from(span) * value
}

pub(crate) fn power(gain: Gain) -> u64
    requires { IsSmall gain }
    ensures is { result ≡ power gain }
    ensures small { result ≤ 2 ^ 39 }
{
    let (re, im) = (gain.re.unsigned_abs(), gain.im.unsigned_abs());
    re * re + im * im
}

// The integer nearest to a quotient, of two the greater.
fn nearest(x: i64, n: i64) -> i64
    requires x { nat_abs x ≤ 2 ^ 53 }
    requires some { pos 0 <ℤ n }
    requires most { nat_abs n ≤ 2 ^ 39 }
    ensures { (p : ℕ) → n ≡ pos p → result ≡ nearest x p }
{
    (2 * x + n).div_euclid(2 * n)
}

// The same, limited to the range of a cell's value.
pub(crate) fn value_near(x: i64, n: u64) -> i16
    requires x { nat_abs x ≤ 2 ^ 53 }
    requires some { 0 < n }
    requires most { n ≤ 2 ^ 39 }
    ensures { result ≡ value_near x n }
{
    nearest(x, n as i64).clamp(-32768, 32767) as i16
}

// Twice a dividend plus its divisor; divided by twice the divisor and rounded down it gives the nearest quotient.
fn dividend(x: i64, n: i64) -> i64
    requires x { nat_abs x ≤ 2 ^ 53 }
    requires most { nat_abs n ≤ 2 ^ 39 }
    ensures is { result ≡ pos 2 *ℤ x +ℤ n }
    ensures small { nat_abs result ≤ 2 ^ 55 }
{
    2 * x + n
}

// What remains of the dividend after a guess at the quotient.
fn rest_behind(guess: i16, dividend: i64, divisor: i64) -> i64
    requires dividend { nat_abs dividend ≤ 2 ^ 55 }
    requires divisor { nat_abs divisor ≤ 2 ^ 40 }
    ensures { result ≡ dividend -ℤ guess *ℤ divisor }
{
    dividend - multiple(guess, divisor)
}

// The value of a cell nearest to x / n: the guess if it passes the test, which needs no division.
fn value_by(guess: i16, x: i64, n: u64) -> i16
    requires x { nat_abs x ≤ 2 ^ 53 }
    requires some { 0 < n }
    requires most { n ≤ 2 ^ 39 }
    ensures { result ≡ value_near x n }
{
    let divisor = 2 * n as i64;
    let rest = rest_behind(guess, dividend(x, n as i64), divisor);
    if rest >= 0 && rest < divisor {
        return guess;
    }
    value_near(x, n)
}

// A quotient times 21845 and the distance between the pilots. `inverse` is about that of `n`.
fn quotient(value: i64, span: u8, n: u64, inverse: f64) -> i16
    requires value { nat_abs value ≤ 2 ^ 35 }
    requires span { span ≤ 12 }
    requires some { 0 < n }
    requires most { n ≤ 2 ^ 39 }
    ensures { result ≡ value_near (pos (21845 * span) *ℤ value) n }
{
    let x = scaled(span, value);
    value_by(estimate::value(x, inverse), x, n)
}

// The part of a cell along the gain (u, v), times the gain's amplitude.
pub(crate) fn along(re: i16, im: i16, u: i64, v: i64) -> i64
    requires u { nat_abs u ≤ 393216 }
    requires v { nat_abs v ≤ 393216 }
    ensures is { result ≡ re *ℤ u +ℤ im *ℤ v }
    ensures small { nat_abs result ≤ 2 ^ 35 }
{
    product(re, u) + product(im, v)
}

// The part across it.
pub(crate) fn across(re: i16, im: i16, u: i64, v: i64) -> i64
    requires u { nat_abs u ≤ 393216 }
    requires v { nat_abs v ≤ 393216 }
    ensures is { result ≡ im *ℤ u -ℤ re *ℤ v }
    ensures small { nat_abs result ≤ 2 ^ 35 }
{
    product(im, u) - product(re, v)
}

// A digit of a quotient, if its part still fits the remainder, and what then remains.
fn take(rest: u64, part: u64, digit: u8) -> (u8, u64)
    requires { rest < 2 * part }
    ensures rest { result.1 < part }
    ensures most { result.0 ≤ digit }
    ensures sum { (unit : ℕ) → part ≡ digit * unit → result.0 * unit + result.1 ≡ rest }
{
    if rest >= part {
        (digit, rest - part)
    } else {
        (0, rest)
    }
}

// The quotient of two powers, at most 15, digit by digit instead of a division.
fn fifteen_at_most(power: u64, unit: u64) -> u8
    requires unit { 0 < unit }
    requires most { unit ≤ 2 ^ 37 }
    ensures { result ≡ min 15 (power / unit) }
{
    if power >= 15 * unit {
        return 15;
    }
    let (eights, power) = take(power, 8 * unit, 8);
    let (fours, power) = take(power, 4 * unit, 4);
    let (twos, power) = take(power, 2 * unit, 2);
    let (ones, _) = take(power, unit, 1);
    eights + fours + twos + ones
}

// Whether a number is the quotient of two powers.
fn is_quotient(guess: u8, power: u64, unit: u64) -> bool
    requires guess { guess ≤ 15 }
    requires unit { unit ≤ 2 ^ 37 }
    ensures { IsTrue result → guess ≡ power / unit }
{
    let part = u64::from(guess) * unit;
    if part > power {
        return false;
    }
    power - part < unit
}

// The quotient of two powers, at most 15: a guess if it passes the test.
fn fifteen_by(span: u8, power: u64, unit: u64) -> u8
    requires span { span ≤ 12 }
    requires unit { 0 < unit }
    requires most { unit ≤ 2 ^ 37 }
    ensures { result ≡ min 15 (power / unit) }
{
    let limited = power.min(15 * unit);
    let guess = estimate::weight(limited, span);
    if is_quotient(guess, limited, unit) {
        return guess;
    }
    fifteen_at_most(power, unit)
}

// The weight after correction: 0 stays, otherwise sixteen times the power of the gain, at most 15.
fn weight_after(old: u8, span: u8, n: u64) -> u8
    requires some { 1 ≤ span }
    requires span { span ≤ 12 }
    requires n { n ≤ 2 ^ 39 }
    ensures { result ≡ (if old == 0 then 0 else min 15 (16 * n / (21845 * span) ^ 2)) }
{
    if old == 0 {
        return 0;
    }
    let one = 21845 * u64::from(span);
    fifteen_by(span, 16 * n, one * one)
}

// The cell divided by a gain of this power.
fn divided(gain: Gain, cell: Cell, n: u64) -> Cell
    requires small { IsSmall gain }
    requires n { n ≡ power gain }
    requires some { 0 < n }
    requires most { n ≤ 2 ^ 39 }
    ensures { result ≡ divided gain cell }
{
    let inverse = estimate::inverse(n);
    let re = along(cell.re, cell.im, gain.re, gain.im);
    let im = across(cell.re, cell.im, gain.re, gain.im);
    Cell {
        re: quotient(re, gain.span, n, inverse),
        im: quotient(im, gain.span, n, inverse),
    }
}

// The cell divided by the gain, and its weight.
#[inline(always)]
pub(crate) fn corrected(gain: Gain, cell: Cell, weight: u8) -> Equalised
    requires { IsSmall gain }
    ensures { result ≡ corrected gain cell weight }
{
    let n = power(gain);
    if n == 0 {
        return NOTHING;
    }
    let restored = divided(gain, cell, n);
    Equalised {
        cell: restored,
        weight: weight_after(weight, gain.span, n),
    }
}

// The value of a pilot as sent.
fn sent_pilot(opposite: bool) -> i16
    ensures { result ≡ unturned opposite (pos 21845) }
{
    if opposite { -21845 } else { 21845 }
}

// A pilot divided by its own gain, which gives the pilot as sent, and its weight.
#[inline(always)]
pub(crate) fn corrected_pilot(opposite: bool, gain: Gain, weight: u8) -> Equalised
    requires small { IsSmall gain }
    requires span { gain.span ≡ 1 }
    ensures { (cell : CellOf) → gain.re ≡ unturned opposite cell.re → gain.im ≡ unturned opposite cell.im
        → result ≡ corrected gain cell weight }
{
    let n = power(gain);
    if n == 0 {
        return NOTHING;
    }
    let re = sent_pilot(opposite);
    let after = weight_after(weight, gain.span, n);
    Equalised {
        cell: Cell { re, im: 0 },
        weight: after,
    }
}
