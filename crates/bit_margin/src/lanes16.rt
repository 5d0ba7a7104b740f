// Steps backward and forward over sums of 16 bits.
ghost use Rattle.std.specs.Prelude.{◌≡◌, ◌≤◌, ◌<◌, ◌+◌, ◌*◌, ◌^◌, ◌++◌, ℕ, min, length, slice_index};
ghost use Rattle.code_paths.specs.declared.costs.CostPair.{CostPair as Pair};
ghost use Rattle.acs_lanes.specs.Lanes.{AreStepCosts, four};
ghost use Rattle.acs_lanes.specs.Lanes16.{AddFits, joined};
ghost use Rattle.acs_lanes.specs.Totals.{IsBackward, IsForward};

use conv_code::CostPair;
use std::simd::cmp::SimdOrd;
use std::simd::{u16x4, u16x16};

/// A number for each state: its sum less a number that all sums have in common.
pub(crate) type LowStates = [u16; 64];

/// Sixteen sums.
pub(crate) fn read(sums: &[u16]) -> u16x16
    requires { length sums.now ≡ 16 }
    ensures { result ≡ sums.now }
{
    u16x16::from_slice(sums)
}

/// Writes sixteen sums.
fn write(sums: &mut [u16], lanes: u16x16)
    requires size { length sums.old ≡ 16 }
    requires lanes { length lanes ≡ 16 }
    ensures { sums.new ≡ lanes }
{
    lanes.copy_to_slice(sums);
}

/// Writes the sums of sixteen consecutive states.
fn store(sums: &mut LowStates, from: usize, lanes: u16x16)
    requires from { from ≤ 48 }
    requires lanes { length lanes ≡ 16 }
    ensures here { (k : ℕ) → k < 16 → slice_index sums.new (from + k) ≡ slice_index lanes k }
    ensures below { (k : ℕ) → k < from → slice_index sums.new k ≡ slice_index sums.old k }
    ensures above { (k : ℕ) → from + 16 ≤ k → k < 64 → slice_index sums.new k ≡ slice_index sums.old k }
{
    write(&mut sums[from..from + 16], lanes);
}

/// Writes the sums of all states.
pub(crate) fn store_all(sums: &mut LowStates, a: u16x16, b: u16x16, c: u16x16, d: u16x16)
    requires a { length a ≡ 16 }
    requires b { length b ≡ 16 }
    requires c { length c ≡ 16 }
    requires d { length d ≡ 16 }
    ensures { sums.new ≡ joined a b c d }
{
    store(sums, 0, a);
    store(sums, 16, b);
    store(sums, 32, c);
    store(sums, 48, d);
}

/// The costs of the four pairs of an X and a Y, by 2X + Y.
fn four_costs(pair: CostPair) -> u16x4
    ensures { result ≡ four pair }
{
    let costs = u16x4::from_array([pair.x0, pair.x1, pair.y0, pair.y1]);
    costs.swizzle([0, 0, 1, 1]) + costs.swizzle([2, 3, 2, 3])
}

/// The costs of the steps from the even states below 32 on 0, which are those from the odd states on 1, and the others.
fn first_costs(costs: u16x4) -> (u16x16, u16x16)
    ensures { (pair : Pair) → costs ≡ four pair → AreStepCosts pair 0 result.0 result.1 }
{
    (
        costs.swizzle([0, 1, 0, 1, 3, 2, 3, 2, 3, 2, 3, 2, 0, 1, 0, 1]),
        costs.swizzle([3, 2, 3, 2, 0, 1, 0, 1, 0, 1, 0, 1, 3, 2, 3, 2]),
    )
}

/// The same from the states from 32 on.
fn last_costs(costs: u16x4) -> (u16x16, u16x16)
    ensures { (pair : Pair) → costs ≡ four pair → AreStepCosts pair 16 result.0 result.1 }
{
    (
        costs.swizzle([2, 3, 2, 3, 1, 0, 1, 0, 1, 0, 1, 0, 2, 3, 2, 3]),
        costs.swizzle([1, 0, 1, 0, 2, 3, 2, 3, 2, 3, 2, 3, 1, 0, 1, 0]),
    )
}

/// The lower one of two sums in each lane.
fn lesser_sum(first: u16x16, first_step: u16x16, last: u16x16, last_step: u16x16) -> u16x16
    requires lens { AddFits first first_step }
    requires last_lens { AddFits last last_step }
    ensures len { length result ≡ 16 }
    ensures cost { (k : ℕ) → k < 16 → slice_index result k ≡ min (slice_index first k + slice_index first_step k)
        (slice_index last k + slice_index last_step k) }
{
    let firsts = first + first_step;
    (last + last_step).simd_min(firsts)
}

/// The sums from 32 consecutive states, from those of the sixteen states that they lead to on 0 and the sixteen on 1.
fn from_both(zero: u16x16, one: u16x16, same: u16x16, other: u16x16) -> (u16x16, u16x16)
    requires zero { length zero ≡ 16 }
    requires one { length one ≡ 16 }
    requires same { length same ≡ 16 }
    requires other { length other ≡ 16 }
    requires zero_fit { (k : ℕ) → k < 16 → slice_index zero k + 8190 < 2 ^ 16 }
    requires one_fit { (k : ℕ) → k < 16 → slice_index one k + 8190 < 2 ^ 16 }
    requires same_small { (k : ℕ) → k < 16 → slice_index same k ≤ 8190 }
    requires other_small { (k : ℕ) → k < 16 → slice_index other k ≤ 8190 }
    ensures first_len { length result.0 ≡ 16 }
    ensures last_len { length result.1 ≡ 16 }
    ensures even { (k : ℕ) → k < 16 → slice_index (result.0 ++ result.1) (2 * k)
        ≡ min (slice_index zero k + slice_index same k) (slice_index one k + slice_index other k) }
    ensures odd { (k : ℕ) → k < 16 → slice_index (result.0 ++ result.1) (2 * k + 1)
        ≡ min (slice_index zero k + slice_index other k) (slice_index one k + slice_index same k) }
{
    let even = lesser_sum(zero, same, one, other);
    let odd = lesser_sum(zero, other, one, same);
    even.interleave(odd)
}

/// Takes a step backward: from the least sums from each state after a step to those from each state before it. Each
/// must have room for the costs of a step, at most 8190 (EN 300 744, 4.3.3).
pub(crate) fn backward(sums: &mut LowStates, pair: CostPair)
    requires fit { (n : ℕ) → n < 64 → slice_index sums.old n + 8190 < 2 ^ 16 }
    ensures step { IsBackward pair sums.old sums.new }
{
    let costs = four_costs(pair);
    let (same, other) = first_costs(costs);
    let (far_same, far_other) = last_costs(costs);
    let (a, b) = from_both(read(&sums[..16]), read(&sums[32..48]), same, other);
    let (c, d) = from_both(read(&sums[16..32]), read(&sums[48..]), far_same, far_other);
    store_all(sums, a, b, c, d);
}
/// The sums of the even and of the odd ones of 32 consecutive states.
fn halves(sums: &[u16]) -> (u16x16, u16x16)
    requires { length sums.now ≡ 32 }
    ensures even_len { length result.0 ≡ 16 }
    ensures odd_len { length result.1 ≡ 16 }
    ensures even { (k : ℕ) → k < 16 → slice_index result.0 k ≡ slice_index sums.now (2 * k) }
    ensures odd { (k : ℕ) → k < 16 → slice_index result.1 k ≡ slice_index sums.now (2 * k + 1) }
{
    read(&sums[..16]).deinterleave(read(&sums[16..]))
}

/// The sums of sixteen consecutive states below 32 and of the sixteen that lie 32 above them, from those of the 32
/// states that lead to them.
fn into_both(old: &[u16], zero: u16x16, one: u16x16) -> (u16x16, u16x16)
    requires old { length old.now ≡ 32 }
    requires zero { length zero ≡ 16 }
    requires one { length one ≡ 16 }
    requires fit { (j : ℕ) → j < 32 → slice_index old.now j + 8190 < 2 ^ 16 }
    requires zero_small { (k : ℕ) → k < 16 → slice_index zero k ≤ 8190 }
    requires one_small { (k : ℕ) → k < 16 → slice_index one k ≤ 8190 }
    ensures low_len { length result.0 ≡ 16 }
    ensures high_len { length result.1 ≡ 16 }
    ensures low { (k : ℕ) → k < 16 → slice_index result.0 k ≡ min (slice_index old.now (2 * k) + slice_index zero k)
        (slice_index old.now (2 * k + 1) + slice_index one k) }
    ensures high { (k : ℕ) → k < 16 → slice_index result.1 k ≡ min (slice_index old.now (2 * k) + slice_index one k)
        (slice_index old.now (2 * k + 1) + slice_index zero k) }
{
    let (even, odd) = halves(old);
    (
        lesser_sum(even, zero, odd, one),
        lesser_sum(even, one, odd, zero),
    )
}

/// Takes a step forward: from the least sums to each state before a step to those after it. Each must have room for the
/// costs of a step, at most 8190 (EN 300 744, 4.3.3).
pub(crate) fn forward(sums: &mut LowStates, pair: CostPair)
    requires fit { (n : ℕ) → n < 64 → slice_index sums.old n + 8190 < 2 ^ 16 }
    ensures step { IsForward pair sums.old sums.new }
{
    let costs = four_costs(pair);
    let (zero, one) = first_costs(costs);
    let (far_zero, far_one) = last_costs(costs);
    let (a, c) = into_both(&sums[..32], zero, one);
    let (b, d) = into_both(&sums[32..], far_zero, far_one);
    store_all(sums, a, b, c, d);
}
