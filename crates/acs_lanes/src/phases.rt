// The tables of a step in each of the six phases.
ghost use Rattle.std.specs.Prelude.{◌≡◌, ◌≤◌, ◌<◌, ◌+◌, ◌*◌, ◌%◌, ◌^◌, ◌++◌, ℕ, Bool, not, length, slice_index};
ghost use Rattle.spec_words.specs.Bits.{is_set};
ghost use Rattle.code_paths.specs.declared.costs.CostPair.{CostPair as Pair};
ghost use Rattle.acs_lanes.specs.Lanes16.{AreMarks, way};
ghost use Rattle.acs_lanes.specs.Phases.{AreCostsIn, AreTurnedIn, all_sums, by_halves, exchanged, in_order, laid_in};
ghost use Rattle.acs_lanes.specs.Phases.{lower_eights, lower_fours, next, ordered, ordered_by};
ghost use Rattle.acs_lanes.specs.Phases.{upper_eights, upper_fours, way_in};

use crate::lanes16::Lanes;
use std::simd::cmp::SimdPartialOrd;
use std::simd::{u8x16, u8x32, u16x16};

/// The costs of the steps from the even states on 0, as from the odd ones on 1, and of the others: of the first
/// vectors, and of the second ones.
#[inline(always)]
pub(crate) fn costs_in(phase: usize, sums: u16x16) -> (u16x16, u16x16, u16x16, u16x16)
    requires { phase < 6 }
    ensures { (pair : Pair) → sums ≡ all_sums pair → AreCostsIn phase pair result.0 result.1 result.2 result.3 }
{
    if phase == 0 {
        let zero = sums.swizzle([0, 3, 0, 3, 1, 2, 1, 2, 10, 9, 10, 9, 11, 8, 11, 8]);
        let one = sums.swizzle([3, 0, 3, 0, 2, 1, 2, 1, 9, 10, 9, 10, 8, 11, 8, 11]);
        (zero, one, one, zero)
    } else if phase == 1 {
        let zero = sums.swizzle([0, 2, 0, 2, 1, 3, 1, 3, 11, 9, 11, 9, 10, 8, 10, 8]);
        let one = sums.swizzle([3, 1, 3, 1, 2, 0, 2, 0, 8, 10, 8, 10, 9, 11, 9, 11]);
        (zero, one, one, zero)
    } else if phase == 2 {
        let zero = sums.swizzle([0, 2, 3, 1, 1, 3, 2, 0, 11, 9, 8, 10, 10, 8, 9, 11]);
        let one = sums.swizzle([3, 1, 0, 2, 2, 0, 1, 3, 8, 10, 11, 9, 9, 11, 10, 8]);
        (zero, one, zero, one)
    } else if phase == 3 {
        let zero = sums.swizzle([0, 2, 3, 1, 3, 1, 0, 2, 8, 10, 11, 9, 11, 9, 8, 10]);
        let one = sums.swizzle([3, 1, 0, 2, 0, 2, 3, 1, 11, 9, 8, 10, 8, 10, 11, 9]);
        let last_zero = sums.swizzle([1, 3, 2, 0, 2, 0, 1, 3, 9, 11, 10, 8, 10, 8, 9, 11]);
        let last_one = sums.swizzle([2, 0, 1, 3, 1, 3, 2, 0, 10, 8, 9, 11, 9, 11, 10, 8]);
        (zero, one, last_zero, last_one)
    } else if phase == 4 {
        let zero = sums.swizzle([0, 2, 3, 1, 3, 1, 0, 2, 9, 11, 10, 8, 10, 8, 9, 11]);
        let one = sums.swizzle([3, 1, 0, 2, 0, 2, 3, 1, 10, 8, 9, 11, 9, 11, 10, 8]);
        (zero, one, zero, one)
    } else {
        let zero = sums.swizzle([0, 3, 3, 0, 0, 3, 3, 0, 9, 10, 10, 9, 9, 10, 10, 9]);
        let one = sums.swizzle([3, 0, 0, 3, 3, 0, 0, 3, 10, 9, 9, 10, 10, 9, 9, 10]);
        let last_zero = sums.swizzle([2, 1, 1, 2, 2, 1, 1, 2, 11, 8, 8, 11, 11, 8, 8, 11]);
        let last_one = sums.swizzle([1, 2, 2, 1, 1, 2, 2, 1, 8, 11, 11, 8, 8, 11, 11, 8]);
        (zero, one, last_zero, last_one)
    }
}

/// The bytes of marks in the order of a word's bits: within each half of the vector, where one instruction does it. In
/// the first phase none is needed.
#[inline(always)]
fn ordered_in(phase: usize, bytes: u8x32) -> u8x32
    requires { phase < 6 }
    ensures { result ≡ ordered phase bytes }
{
    if phase == 0 {
        bytes.swizzle([
            0, 1, 2, 3, 4, 5, 6, 7, 8, 9, 10, 11, 12, 13, 14, 15, 16, 17, 18, 19, 20, 21, 22, 23,
            24, 25, 26, 27, 28, 29, 30, 31,
        ])
    } else if phase == 1 {
        bytes.swizzle([
            0, 4, 2, 6, 8, 12, 10, 14, 1, 5, 3, 7, 9, 13, 11, 15, 16, 20, 18, 22, 24, 28, 26, 30,
            17, 21, 19, 23, 25, 29, 27, 31,
        ])
    } else if phase == 2 {
        bytes.swizzle([
            0, 4, 8, 12, 1, 5, 9, 13, 2, 6, 10, 14, 3, 7, 11, 15, 16, 20, 24, 28, 17, 21, 25, 29,
            18, 22, 26, 30, 19, 23, 27, 31,
        ])
    } else if phase == 3 {
        bytes.swizzle([
            0, 8, 1, 9, 4, 12, 5, 13, 2, 10, 3, 11, 6, 14, 7, 15, 16, 24, 17, 25, 20, 28, 21, 29,
            18, 26, 19, 27, 22, 30, 23, 31,
        ])
    } else if phase == 4 {
        bytes.swizzle([
            0, 1, 8, 9, 4, 5, 12, 13, 2, 3, 10, 11, 6, 7, 14, 15, 16, 17, 24, 25, 20, 21, 28, 29,
            18, 19, 26, 27, 22, 23, 30, 31,
        ])
    } else {
        bytes.swizzle([
            0, 8, 4, 12, 2, 10, 6, 14, 1, 9, 5, 13, 3, 11, 7, 15, 16, 24, 20, 28, 18, 26, 22, 30,
            17, 25, 21, 29, 19, 27, 23, 31,
        ])
    }
}

/// The marks of two vectors, in each half those of eight lanes of the first and then of the last.
// As one instruction makes bytes of the lanes of two vectors.
#[inline(always)]
fn by_halves(first: u8x16, last: u8x16) -> u8x32
    ensures { result ≡ by_halves first last }
{
    first.shuffle(
        last,
        [
            0, 1, 2, 3, 4, 5, 6, 7, 16, 17, 18, 19, 20, 21, 22, 23, 8, 9, 10, 11, 12, 13, 14, 15,
            24, 25, 26, 27, 28, 29, 30, 31,
        ],
    )
}

/// The word of the lanes of two vectors that have a mark.
#[inline(always)]
pub(crate) fn half_marks(phase: usize, first: u8x16, last: u8x16) -> u64
    requires { phase < 6 }
    ensures small { result < 2 ^ 32 }
    ensures bits { (is_odd : ℕ → Bool) → AreMarks first last is_odd → (k : ℕ) → k < 32 → is_set result k
        ≡ not (is_odd (way_in phase (exchanged phase k))) }
{
    let bytes = ordered_in(phase, by_halves(first, last));
    bytes.simd_ge(u8x32::splat(128)).to_bitmask()
}

/// The bytes of marks in the order of states below 32, in the first phase.
fn in_states(bytes: u8x32) -> u8x32
    ensures { result ≡ ordered_by way bytes }
{
    bytes.swizzle([
        0, 4, 2, 6, 1, 5, 3, 7, 8, 12, 10, 14, 9, 13, 11, 15, 16, 20, 18, 22, 17, 21, 19, 23, 24,
        28, 26, 30, 25, 29, 27, 31,
    ])
}

/// The word of the lanes of two vectors that have no mark, in the order of states, in the first phase.
pub(crate) fn half_word(first: u8x16, last: u8x16) -> u64
    ensures small { result < 2 ^ 32 }
    ensures bits { (is_odd : ℕ → Bool) → AreMarks first last is_odd → (k : ℕ) → k < 32 → is_set result k
        ≡ is_odd (way k) }
{
    let bytes = in_states(by_halves(first, last));
    bytes.simd_ge(u8x32::splat(128)).to_bitmask() ^ 0xFFFF_FFFF
}

/// The word of the states that the even way leads to, by the marks of those below 32 and of the others, before its bits
/// are put in the order of states.
// It is turned over when they are, four words at once.
#[inline(always)]
pub(crate) fn word_in(phase: usize, low: u64, high: u64) -> u64
    requires phase { phase < 6 }
    requires small { low < 2 ^ 32 }
    ensures low { (is_odd : ℕ → Bool) → ((k : ℕ) → k < 32 → is_set low k ≡ not (is_odd (way_in phase
        (exchanged phase k)))) → (k : ℕ) → k < 32 → is_set (in_order phase result) k ≡ is_odd (way_in phase k) }
    ensures high { (is_odd : ℕ → Bool) → ((k : ℕ) → k < 32 → is_set high k ≡ not (is_odd (way_in phase
        (exchanged phase k)))) → (k : ℕ) → k < 32 → is_set (in_order phase result) (k + 32)
        ≡ is_odd (way_in phase k) }
{
    low | high << 32
}

/// The lower four of each eight lanes of two vectors in turn, and the upper four.
#[inline(always)]
fn fours_apart(x: u16x16, y: u16x16) -> (u16x16, u16x16)
    ensures lower { result.0 ≡ lower_fours x y }
    ensures upper { result.1 ≡ upper_fours x y }
{
    (
        x.shuffle(
            y,
            [0, 16, 1, 17, 2, 18, 3, 19, 8, 24, 9, 25, 10, 26, 11, 27],
        ),
        x.shuffle(
            y,
            [4, 20, 5, 21, 6, 22, 7, 23, 12, 28, 13, 29, 14, 30, 15, 31],
        ),
    )
}

/// The lower eight lanes of two vectors, and the upper eight.
#[inline(always)]
fn eights_apart(x: u16x16, y: u16x16) -> (u16x16, u16x16)
    ensures lower { result.0 ≡ lower_eights x y }
    ensures upper { result.1 ≡ upper_eights x y }
{
    (
        x.shuffle(y, [0, 1, 2, 3, 4, 5, 6, 7, 16, 17, 18, 19, 20, 21, 22, 23]),
        x.shuffle(
            y,
            [8, 9, 10, 11, 12, 13, 14, 15, 24, 25, 26, 27, 28, 29, 30, 31],
        ),
    )
}

/// Lanes of two and two vectors, by fours.
#[inline(always)]
fn by_fours(x0: u16x16, x1: u16x16, y0: u16x16, y1: u16x16) -> Lanes
    ensures a { result.a ≡ lower_fours x0 y0 }
    ensures b { result.b ≡ lower_fours x1 y1 }
    ensures c { result.c ≡ upper_fours x0 y0 }
    ensures d { result.d ≡ upper_fours x1 y1 }
{
    let (a, c) = fours_apart(x0, y0);
    let (b, d) = fours_apart(x1, y1);
    Lanes { a, b, c, d }
}

/// The same, with the vectors in another order.
#[inline(always)]
fn by_fours_across(x0: u16x16, x1: u16x16, y0: u16x16, y1: u16x16) -> Lanes
    ensures a { result.a ≡ lower_fours x0 y0 }
    ensures b { result.b ≡ upper_fours x0 y0 }
    ensures c { result.c ≡ lower_fours x1 y1 }
    ensures d { result.d ≡ upper_fours x1 y1 }
{
    let (a, b) = fours_apart(x0, y0);
    let (c, d) = fours_apart(x1, y1);
    Lanes { a, b, c, d }
}

/// Lanes of two and two vectors, by eights.
#[inline(always)]
fn by_eights(x0: u16x16, x1: u16x16, y0: u16x16, y1: u16x16) -> Lanes
    ensures a { result.a ≡ lower_eights x0 y0 }
    ensures b { result.b ≡ lower_eights x1 y1 }
    ensures c { result.c ≡ upper_eights x0 y0 }
    ensures d { result.d ≡ upper_eights x1 y1 }
{
    let (a, c) = eights_apart(x0, y0);
    let (b, d) = eights_apart(x1, y1);
    Lanes { a, b, c, d }
}

/// The new costs of the states below 32 and of the others, as the lanes of the next phase.
#[inline(always)]
pub(crate) fn turned_in(
    phase: usize,
    low_first: u16x16,
    low_last: u16x16,
    high_first: u16x16,
    high_last: u16x16,
) -> Lanes
    requires { phase < 6 }
    ensures { AreTurnedIn phase low_first low_last high_first high_last
        (laid_in (next phase) result.a result.b result.c result.d) }
{
    if phase < 3 {
        by_fours(low_first, low_last, high_first, high_last)
    } else if phase == 3 {
        by_fours_across(low_first, low_last, high_first, high_last)
    } else if phase == 4 {
        by_eights(low_first, high_first, low_last, high_last)
    } else {
        by_eights(low_first, low_last, high_first, high_last)
    }
}
