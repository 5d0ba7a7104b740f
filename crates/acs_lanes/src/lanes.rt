// The step in lanes.
ghost use Rattle.std.specs.Prelude.{◌≡◌, ◌≤◌, ◌<◌, ◌+◌, ◌*◌, ◌^◌, ℕ, min, length, slice_index, take, drop};
ghost use Rattle.std.specs.Bool.{nat_lt};
ghost use Rattle.spec_words.specs.Bits.{is_set};
ghost use Rattle.code_paths.specs.declared.costs.CostPair.{CostPair as Pair};
ghost use Rattle.acs_plain.specs.Steps.{AreSteps, Close, IsStep, SomeAlive};
ghost use Rattle.acs_plain.specs.Spread.{IsSpread};
ghost use Rattle.acs_lanes.specs.Lanes.{AreLess, AreStepCosts, AreTaken, IsHalfStep, IsLaneStep, four};

use crate::settle::{is_ready, settle};
use crate::slices::run_alive;
use acs_plain::{Acs, Sums};
use conv_code::CostPair;
use std::simd::cmp::{SimdOrd, SimdPartialEq};
use std::simd::{u16x4, u32x4, u32x16};

/// A vector of 16 costs.
pub(crate) fn read(costs: &[u32]) -> u32x16
    requires { length costs.now ≡ 16 }
    ensures { result ≡ costs.now }
{
    u32x16::from_slice(costs)
}

/// Writes 16 costs.
pub(crate) fn write(costs: &mut [u32], lanes: u32x16)
    requires size { length costs.old ≡ 16 }
    requires lanes { length lanes ≡ 16 }
    ensures { costs.new ≡ lanes }
{
    lanes.copy_to_slice(costs);
}

/// The costs of the even and of the odd ones of 32 states.
fn halves(costs: &[u32]) -> (u32x16, u32x16)
    requires { length costs.now ≡ 32 }
    ensures even_len { length result.0 ≡ 16 }
    ensures odd_len { length result.1 ≡ 16 }
    ensures even { (k : ℕ) → k < 16 → slice_index result.0 k ≡ slice_index costs.now (2 * k) }
    ensures odd { (k : ℕ) → k < 16 → slice_index result.1 k ≡ slice_index costs.now (2 * k + 1) }
{
    read(&costs[..16]).deinterleave(read(&costs[16..]))
}

/// The costs of the four pairs of an X and a Y, by 2X + Y.
pub(crate) fn four_costs(pair: CostPair) -> u32x4
    ensures { result ≡ four pair }
{
    let costs: u32x4 = u16x4::from_array([pair.x0, pair.x1, pair.y0, pair.y1]).cast();
    costs.swizzle([0, 0, 1, 1]) + costs.swizzle([2, 3, 2, 3])
}

/// The costs of the steps from the even states below 32 on 0, which are those from the odd states on 1, and the
/// others: X and Y of two steps both differ where the oldest bit alone or the input alone does.
pub(crate) fn first_costs(costs: u32x4) -> (u32x16, u32x16)
    ensures { (pair : Pair) → costs ≡ four pair → AreStepCosts pair 0 result.0 result.1 }
{
    // 2X + Y of the even states on 0, and on 1
    (
        costs.swizzle([0, 1, 0, 1, 3, 2, 3, 2, 3, 2, 3, 2, 0, 1, 0, 1]),
        costs.swizzle([3, 2, 3, 2, 0, 1, 0, 1, 0, 1, 0, 1, 3, 2, 3, 2]),
    )
}

/// The same from the states from 32 on.
pub(crate) fn last_costs(costs: u32x4) -> (u32x16, u32x16)
    ensures { (pair : Pair) → costs ≡ four pair → AreStepCosts pair 16 result.0 result.1 }
{
    (
        costs.swizzle([2, 3, 2, 3, 1, 0, 1, 0, 1, 0, 1, 0, 2, 3, 2, 3]),
        costs.swizzle([1, 0, 1, 0, 2, 3, 2, 3, 2, 3, 2, 3, 1, 0, 1, 0]),
    )
}

/// The lesser sum of each lane, and a word that says where it is that of the odd state alone.
pub(crate) fn pick(even: u32x16, even_step: u32x16, odd: u32x16, odd_step: u32x16) -> (u32x16, u64)
    requires lens { AreLess even even_step }
    requires odd_lens { AreLess odd odd_step }
    ensures len { length result.0 ≡ 16 }
    ensures cost { (k : ℕ) → k < 16 → slice_index result.0 k
        ≡ min (slice_index even k + slice_index even_step k) (slice_index odd k + slice_index odd_step k) }
    ensures odd { (k : ℕ) → k < 16 → is_set result.1 k ≡ nat_lt (slice_index odd k + slice_index odd_step k)
        (slice_index even k + slice_index even_step k) }
    ensures small { result.1 < 2 ^ 16 }
{
    let evens = even + even_step;
    let least = (odd + odd_step).simd_min(evens);
    (least, !least.simd_eq(evens).to_bitmask() & 0xFFFF)
}

/// What comes of 32 states in a row, by the costs of their steps: the costs of 16 states below 32 and of the 16
/// states that lie 32 above them, each followed by the word that says which of them came from the odd state.
fn sixteen(old: &[u32], zero: u32x16, one: u32x16) -> (u32x16, u64, u32x16, u64)
    requires old { length old.now ≡ 32 }
    requires zero { length zero ≡ 16 }
    requires one { length one ≡ 16 }
    requires fit { (j : ℕ) → j < 32 → slice_index old.now j + 8190 < 2 ^ 32 }
    requires zero_small { (k : ℕ) → k < 16 → slice_index zero k ≤ 8190 }
    requires one_small { (k : ℕ) → k < 16 → slice_index one k ≤ 8190 }
    ensures low { AreTaken old.now zero one result.0 result.1 }
    ensures high { AreTaken old.now one zero result.2 result.3 }
{
    let (even, odd) = halves(old);
    let (low, first) = pick(even, zero, odd, one);
    let (high, second) = pick(even, one, odd, zero);
    (low, first, high, second)
}

/// Writes the costs of 16 states in a row.
pub(crate) fn store(cost: &mut [u32; 64], from: usize, lanes: u32x16)
    requires from { from ≤ 48 }
    requires lanes { length lanes ≡ 16 }
    ensures here { (k : ℕ) → k < 16 → slice_index cost.new (from + k) ≡ slice_index lanes k }
    ensures below { (k : ℕ) → k < from → slice_index cost.new k ≡ slice_index cost.old k }
    ensures above { (k : ℕ) → from + 16 ≤ k → k < 64 → slice_index cost.new k ≡ slice_index cost.old k }
{
    write(&mut cost[from..from + 16], lanes);
}

/// Two words of 16 bits, the first one's bits the lowest.
fn joined(first: u64, last: u64) -> u64
    requires first { first < 2 ^ 16 }
    requires last { last < 2 ^ 16 }
    ensures low { (k : ℕ) → k < 16 → is_set result k ≡ is_set first k }
    ensures high { (k : ℕ) → k < 16 → is_set result (k + 16) ≡ is_set last k }
    ensures small { result < 2 ^ 32 }
{
    first | last << 16
}

/// What comes of the upper half of the states: the costs of the states from 48 on are written, those of the states
/// from 16 to 31 wait until the lower half is read.
fn last_half(cost: &mut [u32; 64], waiting: &mut [u32; 16], costs: u32x4) -> (u64, u64)
    requires costs { (pair : Pair) × (costs ≡ four pair) }
    requires fit { (j : ℕ) → j < 64 → slice_index cost.old j + 8190 < 2 ^ 32 }
    ensures half { (pair : Pair) → costs ≡ four pair → IsHalfStep pair 16 (take 32 (drop 32 cost.old)) (slice_index
        waiting.new) (λ k. slice_index cost.new (48 + k)) result.0 result.1 }
    ensures same { (k : ℕ) → k < 48 → slice_index cost.new k ≡ slice_index cost.old k }
{
    let (zero, one) = last_costs(costs);
    let (low, low_odd, high, high_odd) = sixteen(&cost[32..], zero, one);
    write(waiting, low);
    store(cost, 48, high);
    (low_odd, high_odd)
}

/// What comes of the lower half of the states: the costs of the states below 16 and from 32 to 47 are written.
fn first_half(cost: &mut [u32; 64], costs: u32x4) -> (u64, u64)
    requires costs { (pair : Pair) × (costs ≡ four pair) }
    requires fit { (j : ℕ) → j < 32 → slice_index cost.old j + 8190 < 2 ^ 32 }
    ensures half { (pair : Pair) → costs ≡ four pair → IsHalfStep pair 0 (take 32 cost.old) (slice_index cost.new) (λ k.
        slice_index cost.new (32 + k)) result.0 result.1 }
    ensures same { (k : ℕ) → 48 ≤ k → k < 64 → slice_index cost.new k ≡ slice_index cost.old k }
{
    let (zero, one) = first_costs(costs);
    let (low, low_odd, high, high_odd) = sixteen(&cost[..32], zero, one);
    store(cost, 0, low);
    store(cost, 32, high);
    (low_odd, high_odd)
}

/// The step over all states, where each may be compared with each: the words of the states below 32 and of the others.
#[inline(always)]
pub(crate) fn step_all(cost: &mut [u32; 64], pair: CostPair) -> (u64, u64)
    requires fit { (j : ℕ) → j < 64 → slice_index cost.old j + 8190 < 2 ^ 32 }
    ensures step { IsLaneStep pair cost.old cost.new result.0 result.1 }
{
    let costs = four_costs(pair);
    let mut waiting = [0; 16];
    let (last_low, last_high) = last_half(cost, &mut waiting, costs);
    let (low, high) = first_half(cost, costs);
    store(cost, 16, read(&waiting));
    (joined(low, last_low), joined(high, last_high))
}

/// The same.
// It is a call of its own, so that the words are computed next to their vectors and not after the caller's branches.
#[inline(never)]
fn step_lanes(cost: &mut [u32; 64], pair: CostPair) -> (u64, u64)
    requires fit { (j : ℕ) → j < 64 → slice_index cost.old j + 8190 < 2 ^ 32 }
    ensures step { IsLaneStep pair cost.old cost.new result.0 result.1 }
{
    step_all(cost, pair)
}

/// The step from sums that are large, or of which some are not alive.
// Most steps need it not, and what is rare stays out of their way.
#[inline(never)]
fn step_settled(sums: &mut Sums, pair: CostPair) -> u64
    requires some { SomeAlive sums.old }
    requires close { Close 131072 sums.old }
    ensures step { IsStep sums.old pair sums.new result }
{
    let _low = settle(sums);
    let (low, high) = step_lanes(&mut sums.cost, pair);
    sums.alive = sums.followers();
    low | high << 32
}

/// A step.
fn step_one(sums: &mut Sums, pair: CostPair) -> u64
    requires some { SomeAlive sums.old }
    requires close { Close 131072 sums.old }
    ensures step { IsStep sums.old pair sums.new result }
{
    if !is_ready(sums) {
        return step_settled(sums, pair);
    }
    let (low, high) = step_lanes(&mut sums.cost, pair);
    low | high << 32
}

/// The steps on pairs, one after another.
fn run_each(sums: &mut Sums, pairs: &[CostPair], words: &mut [u64])
    requires spread { IsSpread sums.old }
    requires room { length words.old ≡ length pairs.now }
    ensures steps { AreSteps sums.old pairs.now sums.new words.new }
    ensures spread { IsSpread sums.new }
    ensures room { length words.new ≡ length pairs.now }
{
    for k in 0..pairs.len() {
        words[k] = step_one(sums, pairs[k]);
    }
}

/// The step over vectors of 16 lanes, and many steps over vectors of 16 lanes of 16 bits.
#[derive(Debug, Drop)]
pub struct LaneAcs;

impl Acs for LaneAcs {
    fn step(sums: &mut Sums, pair: CostPair) -> u64 {
        step_one(sums, pair)
    }

    fn run(sums: &mut Sums, pairs: &[CostPair], words: &mut [u64]) {
        if sums.alive == u64::MAX && !pairs.is_empty() {
            run_alive(sums, pairs, words);
        } else {
            run_each(sums, pairs, words);
        }
    }
}
