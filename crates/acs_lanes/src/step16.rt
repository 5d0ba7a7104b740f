// A step over the lanes.
ghost use Rattle.std.specs.Prelude.{◌≡◌, ◌≤◌, ◌<◌, ◌^◌, ◌++◌, ℕ, slice_index};
ghost use Rattle.acs_lanes.specs.Lanes.{IsLaneStep};
ghost use Rattle.acs_lanes.specs.Lanes16.{AddFits, AreLaidCosts, AreLesser, AreTurned, joined, laid};
ghost use Rattle.acs_lanes.specs.Lanes16.{repeated, way, word_of};

use crate::lanes16::Lanes;
use crate::phases::half_word;
use conv_code::CostPair;
use std::simd::cmp::{SimdOrd, SimdPartialEq};
use std::simd::{u8x16, u16x16, u64x4};

/// The four costs of a pair as one word, which is read at once.
#[inline(always)]
pub(crate) fn word_of(pair: CostPair) -> u64
    ensures { result ≡ word_of pair }
{
    pair.x0 as u64
        + 0x1_0000 * pair.x1 as u64
        + 0x1_0000_0000 * pair.y0 as u64
        + 0x1_0000_0000_0000 * pair.y1 as u64
}

/// The four costs of a pair, four times.
fn repeated(pair: CostPair) -> u16x16
    ensures { result ≡ repeated pair }
{
    u16x16::from_le_bytes(u64x4::splat(word_of(pair)).to_le_bytes())
}

/// The costs of the steps: from the even states on 0, as from the odd ones on 1, and the others, which are those of the
/// neighbouring lanes. In the second vectors of the even and of the odd states the two are exchanged.
fn step_costs(pair: CostPair) -> (u16x16, u16x16)
    ensures { AreLaidCosts pair result.0 result.1 }
{
    let costs = repeated(pair);
    let xs = costs.swizzle([0, 1, 0, 1, 0, 1, 0, 1, 9, 8, 9, 8, 9, 8, 9, 8]);
    let ys = costs.swizzle([2, 3, 2, 3, 3, 2, 3, 2, 10, 11, 10, 11, 11, 10, 11, 10]);
    let zero = xs + ys;
    let one = zero.swizzle([1, 0, 3, 2, 5, 4, 7, 6, 9, 8, 11, 10, 13, 12, 15, 14]);
    (zero, one)
}

/// Lanes of small numbers as bytes.
#[inline(always)]
fn bytes_of(lanes: u16x16) -> u8x16
    requires { (k : ℕ) → k < 16 → slice_index lanes k < 256 }
    ensures { result ≡ lanes }
{
    lanes.cast()
}

/// The lesser sum of each lane, and a mark where it is that of the even state.
pub(crate) fn pick(
    even: u16x16,
    even_step: u16x16,
    odd: u16x16,
    odd_step: u16x16,
) -> (u16x16, u8x16)
    requires lens { AddFits even even_step }
    requires odd_lens { AddFits odd odd_step }
    ensures { AreLesser even even_step odd odd_step result.0 result.1 }
{
    let evens = even + even_step;
    let least = (odd + odd_step).simd_min(evens);
    let marks = least
        .simd_eq(evens)
        .select(u16x16::splat(255), u16x16::splat(0));
    (least, bytes_of(marks))
}

/// The new costs of the states below 32 and of the others, each of which two vectors hold where the ways lead, as
/// lanes.
fn turned(low_first: u16x16, low_last: u16x16, high_first: u16x16, high_last: u16x16) -> Lanes
    requires low { (w : ℕ) → w < 32 → slice_index (low_first ++ low_last) w < 2 ^ 16 }
    requires high { (w : ℕ) → w < 32 → slice_index (high_first ++ high_last) w < 2 ^ 16 }
    ensures { AreTurned low_first low_last high_first high_last (laid result.a result.b result.c result.d) }
{
    let low_even = low_first.shuffle(
        low_last,
        [0, 16, 1, 17, 2, 18, 3, 19, 8, 24, 9, 25, 10, 26, 11, 27],
    );
    let low_odd = low_first.shuffle(
        low_last,
        [4, 20, 5, 21, 6, 22, 7, 23, 12, 28, 13, 29, 14, 30, 15, 31],
    );
    let high_even = high_first.shuffle(
        high_last,
        [0, 16, 1, 17, 2, 18, 3, 19, 8, 24, 9, 25, 10, 26, 11, 27],
    );
    let high_odd = high_first.shuffle(
        high_last,
        [4, 20, 5, 21, 6, 22, 7, 23, 12, 28, 13, 29, 14, 30, 15, 31],
    );
    Lanes {
        a: low_even.shuffle(
            high_even,
            [0, 1, 2, 3, 4, 5, 6, 7, 16, 17, 18, 19, 20, 21, 22, 23],
        ),
        b: low_even.shuffle(
            high_even,
            [8, 9, 10, 11, 12, 13, 14, 15, 24, 25, 26, 27, 28, 29, 30, 31],
        ),
        c: low_odd.shuffle(
            high_odd,
            [0, 1, 2, 3, 4, 5, 6, 7, 16, 17, 18, 19, 20, 21, 22, 23],
        ),
        d: low_odd.shuffle(
            high_odd,
            [8, 9, 10, 11, 12, 13, 14, 15, 24, 25, 26, 27, 28, 29, 30, 31],
        ),
    }
}

/// The step over all states: the new costs, and the words of the states below 32 and of the others.
pub(crate) fn step(old: Lanes, pair: CostPair) -> (Lanes, u64, u64)
    requires fit { (n : ℕ) → n < 64 → slice_index (joined old.a old.b old.c old.d) n ≤ 57345 }
    ensures step { IsLaneStep pair (laid old.a old.b old.c old.d) (laid result.0.a result.0.b result.0.c result.0.d)
        result.1 result.2 }
{
    let (zero, one) = step_costs(pair);
    let (low_first, low_first_even) = pick(old.a, zero, old.c, one);
    let (high_first, high_first_even) = pick(old.a, one, old.c, zero);
    let (low_last, low_last_even) = pick(old.b, one, old.d, zero);
    let (high_last, high_last_even) = pick(old.b, zero, old.d, one);
    (
        turned(low_first, low_last, high_first, high_last),
        half_word(low_first_even, low_last_even),
        half_word(high_first_even, high_last_even),
    )
}
