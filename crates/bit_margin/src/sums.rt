// Sums of the 64 states.
ghost use Rattle.std.specs.Prelude.{◌≡◌, ◌+◌, ◌<◌, ◌≤◌, ◌^◌, ℕ, min, length, slice_index};
ghost use Rattle.bit_margin.specs.Sums.{far, AreStartCosts, IsLeastOf};

use crate::lanes16::LowStates;
use inner_decoder::StartState;
use std::simd::cmp::SimdOrd;
use std::simd::{u16x16, u32x16};

/// A number for each state: the register of the inner code as a number below 64, its newest bit being bit 5.
pub(crate) type States = [u32; 64];

/// More than any path of a window costs.
const FAR: u32 = 1_073_741_824;

/// No costs.
pub(crate) fn no_costs() -> States
    ensures { (n : ℕ) → n < 64 → slice_index result n ≡ 0 }
{
    [0; 64]
}

/// Only state 0 is a start.
fn zero_alone() -> States
    ensures here { slice_index result 0 ≡ 0 }
    ensures others { (n : ℕ) → 0 < n → n < 64 → slice_index result n ≡ far }
{
    let mut costs = [FAR; 64];
    costs[0] = 0;
    costs
}

/// The cost of each start: 0 for an allowed start, far more than any path for the others.
pub(crate) fn start_costs(start: StartState) -> States
    ensures { AreStartCosts start result }
{
    match start {
        StartState::Zero => zero_alone(),
        StartState::Any => no_costs(),
    }
}

/// Sixteen lanes in 32 bits.
fn wide(lanes: u16x16) -> u32x16
    ensures { result ≡ lanes }
{
    lanes.cast()
}

/// The sums through sixteen consecutive states: the cost up to each plus the cost after it.
fn both(before: &[u32], behind: &[u16]) -> u32x16
    requires before_len { length before.now ≡ 16 }
    requires behind_len { length behind.now ≡ 16 }
    requires before_small { (k : ℕ) → k < 16 → slice_index before.now k ≤ 2 ^ 31 }
    requires behind_small { (k : ℕ) → k < 16 → slice_index behind.now k ≤ 2 ^ 30 }
    ensures len { length result ≡ 16 }
    ensures is { (k : ℕ) → k < 16 → slice_index result k ≡ slice_index before.now k + slice_index behind.now k }
{
    u32x16::from_slice(before) + wide(u16x16::from_slice(behind))
}

/// The lower one of each two lanes.
fn lesser(xs: u32x16, ys: u32x16) -> u32x16
    requires xs { length xs ≡ 16 }
    requires ys { length ys ≡ 16 }
    ensures len { length result ≡ 16 }
    ensures is { (k : ℕ) → k < 16 → slice_index result k ≡ min (slice_index xs k) (slice_index ys k) }
{
    xs.simd_min(ys)
}

/// The least of sixteen numbers.
fn least_lane(lanes: [u32; 16]) -> u32
    ensures { IsLeastOf (slice_index lanes) 16 result }
{
    let mut least = lanes[0];
    for k in 1..16usize {
        least = least.min(lanes[k]);
    }
    least
}

/// The least sum of a path through one of 32 consecutive states.
fn least_through(before: &[u32], behind: &[u16]) -> u32
    requires before_len { length before.now ≡ 32 }
    requires behind_len { length behind.now ≡ 32 }
    requires before_small { (k : ℕ) → k < 32 → slice_index before.now k ≤ 2 ^ 31 }
    requires behind_small { (k : ℕ) → k < 32 → slice_index behind.now k ≤ 2 ^ 30 }
    ensures { IsLeastOf (λ k. slice_index before.now k + slice_index behind.now k) 32 result }
{
    let first = both(&before[..16], &behind[..16]);
    let last = both(&before[16..], &behind[16..]);
    least_lane(lesser(first, last).to_array())
}

/// The least sums of the paths through the states whose newest bit is 0, and 1, from the sums to and from each state.
pub(crate) fn least_on(before: &States, behind: &LowStates) -> (u32, u32)
    requires small { (n : ℕ) → n < 64 → slice_index before.now n ≤ 2 ^ 31 }
    requires behind { (n : ℕ) → n < 64 → slice_index behind.now n ≤ 2 ^ 30 }
    ensures zero { IsLeastOf (λ k. slice_index before.now (k + 0) + slice_index behind.now (k + 0)) 32 result.0 }
    ensures one { IsLeastOf (λ k. slice_index before.now (k + 32) + slice_index behind.now (k + 32)) 32 result.1 }
{
    (
        least_through(&before[..32], &behind[..32]),
        least_through(&before[32..], &behind[32..]),
    )
}
