// Sums of 16 bits, lowered so that they stay small.
ghost use Rattle.std.specs.Prelude.{◌≡◌, [], ◌∷◌, ◌++◌, ◌≤◌, ◌<◌, ◌+◌, ◌^◌, ℕ, List, min, length, slice_index};
ghost use Rattle.code_paths.specs.declared.costs.CostPair.{CostPair as Pair};
ghost use Rattle.acs_lanes.specs.Lanes16.{AreClose, AreLowered};
ghost use Rattle.bit_margin.specs.Sums.{AreLowBackward, AreLowForward, IsLeastOf};

use crate::lanes16::{LowStates, backward, forward, read, store_all};
use conv_code::CostPair;
use std::simd::cmp::SimdOrd;
use std::simd::u16x16;

/// No sums.
pub(crate) fn no_sums() -> LowStates
    ensures { (n : ℕ) → n < 64 → slice_index result n ≡ 0 }
{
    [0; 64]
}

/// The lower one of each two lanes.
pub(crate) fn lesser(xs: u16x16, ys: u16x16) -> u16x16
    requires xs { length xs ≡ 16 }
    requires ys { length ys ≡ 16 }
    ensures len { length result ≡ 16 }
    ensures is { (k : ℕ) → k < 16 → slice_index result k ≡ min (slice_index xs k) (slice_index ys k) }
{
    xs.simd_min(ys)
}

/// The least of sixteen numbers.
pub(crate) fn least_lane(lanes: [u16; 16]) -> u16
    ensures { IsLeastOf (slice_index lanes) 16 result }
{
    let mut least = lanes[0];
    for k in 1..16usize {
        least = least.min(lanes[k]);
    }
    least
}

/// The least of the sums.
fn least(sums: &LowStates) -> u16
    ensures below { (n : ℕ) → n < 64 → result ≤ slice_index sums.now n }
    ensures close { AreClose sums.now → (n : ℕ) → n < 64 → slice_index sums.now n ≤ result + 49140 }
{
    let first = lesser(read(&sums[..16]), read(&sums[16..32]));
    let last = lesser(read(&sums[32..48]), read(&sums[48..]));
    least_lane(lesser(first, last).to_array())
}

/// Sixteen lanes less a number.
fn less(lanes: u16x16, low: u16) -> u16x16
    requires long { length lanes ≡ 16 }
    requires high { (k : ℕ) → k < 16 → low ≤ slice_index lanes k }
    requires fits { (k : ℕ) → k < 16 → slice_index lanes k < 2 ^ 16 }
    ensures long { length result ≡ 16 }
    ensures is { (k : ℕ) → k < 16 → slice_index result k + low ≡ slice_index lanes k }
{
    lanes - u16x16::splat(low)
}

/// The sums less the least of them.
fn lower(sums: &mut LowStates)
    requires close { AreClose sums.old }
    requires fits { (n : ℕ) → n < 64 → slice_index sums.old n < 2 ^ 16 }
    ensures { AreLowered sums.old sums.new }
{
    let low = least(sums);
    let a = less(read(&sums[..16]), low);
    let b = less(read(&sums[16..32]), low);
    let c = less(read(&sums[32..48]), low);
    let d = less(read(&sums[48..]), low);
    store_all(sums, a, b, c, d);
}

/// The greatest sum of state 0 with which the costs of a step may be added to every sum.
// No sum is more than 49,140 above that of state 0, and 8,205 + 49,140 + 8,190 is 65,535.
const ROOM: u16 = 8205;

/// Makes room for a step: the least sum is subtracted from all if they may be high.
fn settle(sums: &mut LowStates)
    requires close { AreClose sums.old }
    requires fits { (n : ℕ) → n < 64 → slice_index sums.old n < 2 ^ 16 }
    ensures { AreLowered sums.old sums.new }
{
    if sums[0] > ROOM {
        lower(sums);
    }
}

/// Takes a step backward from sums that are the least totals from each state less a number.
pub(crate) fn step_back(sums: &mut LowStates, pair: CostPair)
    requires low { (d : List Pair) × AreLowBackward d sums.old }
    ensures step { (d : List Pair) → AreLowBackward d sums.old → AreLowBackward (pair ∷ d) sums.new }
{
    settle(sums);
    backward(sums, pair);
}

/// Takes a step forward from sums that are the least totals to each state, from any start, less a number.
pub(crate) fn step_on(sums: &mut LowStates, pair: CostPair)
    requires low { (c : List Pair) × AreLowForward c sums.old }
    ensures step { (c : List Pair) → AreLowForward c sums.old → AreLowForward (c ++ pair ∷ []) sums.new }
{
    settle(sums);
    forward(sums, pair);
}
