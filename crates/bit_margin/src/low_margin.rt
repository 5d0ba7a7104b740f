// Margins from sums of 16 bits.
ghost use Rattle.std.specs.Prelude.{◌≡◌, ◌≤◌, ◌<◌, ◌+◌, ◌^◌, ℕ, min, length, slice_index};
ghost use Rattle.bit_margin.specs.Sums.{IsApart, IsLeastOf};

use crate::lanes16::{LowStates, read};
use crate::lowered::{least_lane, lesser};
use crate::sums::{States, least_on};
use std::simd::cmp::SimdOrd;
use std::simd::u16x16;

/// The sum of two in each lane, or 65,535 if it is greater.
fn capped_sum(before: u16x16, behind: u16x16) -> u16x16
    requires before { length before ≡ 16 }
    requires behind { length behind ≡ 16 }
    requires fits { (k : ℕ) → k < 16 → slice_index behind k < 2 ^ 16 }
    ensures len { length result ≡ 16 }
    ensures is { (k : ℕ) → k < 16 → slice_index result k ≡ min (slice_index before k + slice_index behind k) 65535 }
{
    before.simd_min(u16x16::splat(65535) - behind) + behind
}

/// The least sum of a path through one of 32 consecutive states, or 65,535 if it is greater.
fn least_through(before: &[u16], behind: &[u16]) -> u16
    requires before_len { length before.now ≡ 32 }
    requires behind_len { length behind.now ≡ 32 }
    requires fits { (k : ℕ) → k < 32 → slice_index behind.now k < 2 ^ 16 }
    ensures { IsLeastOf (λ k. min (slice_index before.now k + slice_index behind.now k) 65535) 32 result }
{
    let first = capped_sum(read(&before[..16]), read(&behind[..16]));
    let last = capped_sum(read(&before[16..]), read(&behind[16..]));
    least_lane(lesser(first, last).to_array())
}

/// The least sums of the paths through the states whose newest bit is 0, and 1, from the sums to and from each state;
/// 65,535 in place of a greater one.
fn least_on_low(before: &LowStates, behind: &LowStates) -> (u16, u16)
    requires fits { (n : ℕ) → n < 64 → slice_index behind.now n < 2 ^ 16 }
    ensures zero { IsLeastOf (λ k. min (slice_index before.now (k + 0) + slice_index behind.now (k + 0)) 65535) 32
        result.0 }
    ensures one { IsLeastOf (λ k. min (slice_index before.now (k + 32) + slice_index behind.now (k + 32)) 65535) 32
        result.1 }
{
    (
        least_through(&before[..32], &behind[..32]),
        least_through(&before[32..], &behind[32..]),
    )
}

/// The sums in 32 bits.
fn wide(sums: &LowStates) -> States
    ensures { (n : ℕ) → n < 64 → slice_index result n ≡ slice_index sums.now n }
{
    let mut wide = [0u32; 64];
    for n in 0..64usize {
        wide[n] = sums[n] as u32;
    }
    wide
}

/// The margin of a step if sums leave 16 bits.
// A call of its own with its own copy, so that the sums stay in registers where none is made, which is nearly always.
#[inline(never)]
fn wide_margin(before: LowStates, behind: &LowStates) -> u32
    requires before { (n : ℕ) → n < 64 → slice_index before n < 2 ^ 16 }
    requires behind { (n : ℕ) → n < 64 → slice_index behind.now n < 2 ^ 16 }
    ensures { IsApart before behind.now result }
{
    let (zero, one) = least_on(&wide(&before), behind);
    zero.abs_diff(one)
}

/// The margin of a step: how far the least sums of the paths with 0 and with 1 are apart.
pub(crate) fn margin_between(before: &LowStates, behind: &LowStates) -> u32
    requires before { (n : ℕ) → n < 64 → slice_index before.now n < 2 ^ 16 }
    requires behind { (n : ℕ) → n < 64 → slice_index behind.now n < 2 ^ 16 }
    ensures { IsApart before.now behind.now result }
{
    let (zero, one) = least_on_low(before, behind);
    if zero < u16::MAX && one < u16::MAX {
        zero.abs_diff(one) as u32
    } else {
        wide_margin(*before, behind)
    }
}
