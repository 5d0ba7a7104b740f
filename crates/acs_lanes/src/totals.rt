// The least totals to each state and from each state, a step further.
ghost use Rattle.std.specs.Prelude.{◌≡◌, ◌≤◌, ◌<◌, ◌+◌, ◌*◌, ◌^◌, ◌++◌, ℕ, min, length, slice_index};
ghost use Rattle.acs_lanes.specs.Lanes16.{joined};
ghost use Rattle.acs_lanes.specs.Totals.{IsBackward, IsForward};

use crate::lanes::{first_costs, four_costs, last_costs, pick, read, step_all, store};
use conv_code::CostPair;
use std::simd::u32x16;

/// Takes a step forward: from the least sums to each state before a step to those after it.
///
/// A state is the register of the inner code as a number below 64: the newest bit is bit 5, the oldest bit 0. State n
/// is reached from the states `2 * (n % 32)` and the one after it, on the input that is its newest bit. Each sum must
/// have room for the costs of a step, at most 8190 (EN 300 744, 4.3.3).
pub fn forward(sums: &mut [u32; 64], pair: CostPair)
    requires fit { (n : ℕ) → n < 64 → slice_index sums.old n + 8190 < 2 ^ 32 }
    ensures step { IsForward pair sums.old sums.new }
{
    let _words = step_all(sums, pair);
}

/// The sums from 32 states in a row, by those from the sixteen states that they lead to on 0 and the sixteen on 1.
fn from_both(zero: u32x16, one: u32x16, same: u32x16, other: u32x16) -> (u32x16, u32x16)
    requires zero { length zero ≡ 16 }
    requires one { length one ≡ 16 }
    requires same { length same ≡ 16 }
    requires other { length other ≡ 16 }
    requires zero_fit { (k : ℕ) → k < 16 → slice_index zero k + 8190 < 2 ^ 32 }
    requires one_fit { (k : ℕ) → k < 16 → slice_index one k + 8190 < 2 ^ 32 }
    requires same_small { (k : ℕ) → k < 16 → slice_index same k ≤ 8190 }
    requires other_small { (k : ℕ) → k < 16 → slice_index other k ≤ 8190 }
    ensures first_len { length result.0 ≡ 16 }
    ensures last_len { length result.1 ≡ 16 }
    ensures even { (k : ℕ) → k < 16 → slice_index (result.0 ++ result.1) (2 * k)
        ≡ min (slice_index zero k + slice_index same k) (slice_index one k + slice_index other k) }
    ensures odd { (k : ℕ) → k < 16 → slice_index (result.0 ++ result.1) (2 * k + 1)
        ≡ min (slice_index zero k + slice_index other k) (slice_index one k + slice_index same k) }
{
    let (even, _even_word) = pick(zero, same, one, other);
    let (odd, _odd_word) = pick(zero, other, one, same);
    even.interleave(odd)
}

/// Writes the sums of all states.
fn store_all(sums: &mut [u32; 64], a: u32x16, b: u32x16, c: u32x16, d: u32x16)
    requires a { length a ≡ 16 }
    requires b { length b ≡ 16 }
    requires c { length c ≡ 16 }
    requires d { length d ≡ 16 }
    ensures { sums.new ≡ joined a b c d }
{
    store(sums, 0, a);
    store(sums, 16, b);
    store(sums, 32, c);
    store(sums, 48, d);
}

/// Takes a step backward: from the least sums of the paths from each state after a step to those from each state before
/// it.
///
/// States `2 * k` and the one after it lead to state k on the input 0 and to state k + 32 on 1. Each sum must have
/// room for the costs of a step, at most 8190 (EN 300 744, 4.3.3).
pub fn backward(sums: &mut [u32; 64], pair: CostPair)
    requires fit { (n : ℕ) → n < 64 → slice_index sums.old n + 8190 < 2 ^ 32 }
    ensures step { IsBackward pair sums.old sums.new }
{
    let costs = four_costs(pair);
    let (same, other) = first_costs(costs);
    let (far_same, far_other) = last_costs(costs);
    let (a, b) = from_both(read(&sums[..16]), read(&sums[32..48]), same, other);
    let (c, d) = from_both(read(&sums[16..32]), read(&sums[48..]), far_same, far_other);
    store_all(sums, a, b, c, d);
}
