// The 64 costs in lanes of 16 bits.
ghost use Rattle.std.specs.Prelude.{◌≡◌, ◌≤◌, ◌<◌, ◌+◌, ◌%◌, ◌^◌, ℕ, IsFalse, max, min, length, slice_index};
ghost use Rattle.acs_lanes.specs.Lanes16.{AreLanes, AreLowered, AreRoomy, AreClose, joined, laid, place, state_at};

use crate::lanes::write;
use std::simd::cmp::{SimdOrd, SimdPartialOrd};
use std::simd::{u16x16, u32x16};

/// The costs of the 64 states, 16 of them in each vector, in an order that a step gives back: the even states in the
/// first two vectors, the odd ones in the last two.
#[derive(Clone, Copy, Drop)]
pub(crate) struct Lanes {
    pub(crate) a: u16x16,
    pub(crate) b: u16x16,
    pub(crate) c: u16x16,
    pub(crate) d: u16x16,
    ghost lanes: { AreLanes a b c d },
}

/// Which state's cost is at a place of the lanes.
fn state_in(place: usize) -> usize
    requires { place < 64 }
    ensures { result ≡ state_at place }
{
    32 * (place / 8 % 2)
        + 16 * (place / 16 % 2)
        + 8 * (place % 2)
        + 4 * (place / 2 % 2)
        + 2 * (place / 4 % 2)
        + place / 32
}

/// Where a state's cost is in the lanes.
fn place_of(state: usize) -> usize
    requires { state < 64 }
    ensures { result ≡ place state }
{
    32 * (state % 2)
        + 16 * (state / 16 % 2)
        + 8 * (state / 32)
        + 4 * (state / 2 % 2)
        + 2 * (state / 4 % 2)
        + state / 8 % 2
}

/// The costs less a number, in lanes.
fn narrowed(costs: &[u32; 64], low: u32) -> [u16; 64]
    requires low { (n : ℕ) → n < 64 → low ≤ slice_index costs.now n }
    requires high { (n : ℕ) → n < 64 → slice_index costs.now n ≤ low + 49140 }
    ensures is { (p : ℕ) → p < 64 → slice_index result p + low ≡ slice_index costs.now (state_at p) }
    ensures few { (p : ℕ) → p < 64 → slice_index result p ≤ 49140 }
    ensures long { length result ≡ 64 }
{
    let mut lanes = [0u16; 64];
    for p in 0..64usize {
        lanes[p] = (costs[state_in(p)] - low) as u16;
    }
    lanes
}

/// Sixteen costs in a row.
fn part(costs: &[u16; 64], from: usize) -> u16x16
    requires { from ≤ 48 }
    ensures long { length result ≡ 16 }
    ensures is { (k : ℕ) → k < 16 → slice_index result k ≡ slice_index costs.now (from + k) }
{
    u16x16::from_slice(&costs[from..from + 16])
}

/// The costs less a number, in lanes.
pub(crate) fn narrow(costs: &[u32; 64], low: u32) -> Lanes
    requires low { (n : ℕ) → n < 64 → low ≤ slice_index costs.now n }
    requires high { (n : ℕ) → n < 64 → slice_index costs.now n ≤ low + 49140 }
    ensures is { (n : ℕ) → n < 64 → slice_index (laid result.a result.b result.c result.d) n + low
        ≡ slice_index costs.now n }
{
    let lanes = narrowed(costs, low);
    Lanes {
        a: part(&lanes, 0),
        b: part(&lanes, 16),
        c: part(&lanes, 32),
        d: part(&lanes, 48),
    }
}

/// The lanes in 32 bits.
fn wide(lanes: u16x16) -> u32x16
    ensures { result ≡ lanes }
{
    lanes.cast()
}

/// Writes the costs of 16 states in a row.
fn store(cost: &mut [u32; 64], from: usize, lanes: u16x16)
    requires from { from ≤ 48 }
    requires lanes { length lanes ≡ 16 }
    ensures here { (k : ℕ) → k < 16 → slice_index cost.new (from + k) ≡ slice_index lanes k }
    ensures below { (k : ℕ) → k < from → slice_index cost.new k ≡ slice_index cost.old k }
    ensures above { (k : ℕ) → from + 16 ≤ k → k < 64 → slice_index cost.new k ≡ slice_index cost.old k }
{
    write(&mut cost[from..from + 16], wide(lanes));
}

/// All lanes in 32 bits.
fn all_lanes(lanes: Lanes) -> [u32; 64]
    ensures { result ≡ joined lanes.a lanes.b lanes.c lanes.d }
{
    let mut all = [0u32; 64];
    store(&mut all, 0, lanes.a);
    store(&mut all, 16, lanes.b);
    store(&mut all, 32, lanes.c);
    store(&mut all, 48, lanes.d);
    all
}

/// The costs in 32 bits, in the order of states.
pub(crate) fn widen(lanes: Lanes, cost: &mut [u32; 64])
    ensures { cost.new ≡ laid lanes.a lanes.b lanes.c lanes.d }
{
    let all = all_lanes(lanes);
    for n in 0..64usize {
        cost[n] = all[place_of(n)];
    }
}

/// The higher one of each two lanes.
#[inline(always)]
pub(crate) fn higher(x: u16x16, y: u16x16) -> u16x16
    requires x { length x ≡ 16 }
    requires y { length y ≡ 16 }
    ensures long { length result ≡ 16 }
    ensures is { (k : ℕ) → k < 16 → slice_index result k ≡ max (slice_index x k) (slice_index y k) }
{
    x.simd_max(y)
}

/// Is some lane at least 32,768?
// That is its highest bit, which takes one instruction.
#[inline(always)]
pub(crate) fn reaches(lanes: u16x16) -> bool
    requires { length lanes ≡ 16 }
    ensures low { IsFalse result → (k : ℕ) → k < 16 → slice_index lanes k < 32768 }
{
    u16x16::splat(32768).simd_le(lanes).to_bitmask() != 0
}

/// Is some lane so high that the greatest costs of two steps might not fit?
#[inline(always)]
pub(crate) fn is_high(lanes: Lanes) -> bool
    ensures low { IsFalse result → (n : ℕ) → n < 64 → slice_index (joined lanes.a lanes.b lanes.c lanes.d) n < 32768 }
{
    reaches(higher(higher(lanes.a, lanes.b), higher(lanes.c, lanes.d)))
}

/// The lower one of each two lanes.
#[inline(always)]
fn lower(x: u16x16, y: u16x16) -> u16x16
    requires x { length x ≡ 16 }
    requires y { length y ≡ 16 }
    ensures long { length result ≡ 16 }
    ensures is { (k : ℕ) → k < 16 → slice_index result k ≡ min (slice_index x k) (slice_index y k) }
{
    x.simd_min(y)
}

/// The least of sixteen lanes.
#[inline(always)]
fn least_lane(lanes: u16x16) -> u16
    requires { length lanes ≡ 16 }
    ensures below { (k : ℕ) → k < 16 → result ≤ slice_index lanes k }
    ensures attained { (k : ℕ) × (k < 16) × (slice_index lanes k ≡ result) }
{
    let all = lanes.to_array();
    let mut low = all[0];
    for k in 1..16usize {
        if all[k] < low {
            low = all[k];
        }
    }
    low
}

/// The least cost in the lanes.
// No call that would send the lanes through memory, although it is seldom made: the lanes stay in registers.
#[inline(always)]
fn least(lanes: Lanes) -> u16
    ensures below { (n : ℕ) → n < 64 → result ≤ slice_index (joined lanes.a lanes.b lanes.c lanes.d) n }
    ensures close { AreClose (joined lanes.a lanes.b lanes.c lanes.d) → (n : ℕ) → n < 64
        → slice_index (joined lanes.a lanes.b lanes.c lanes.d) n ≤ result + 49140 }
{
    least_lane(lower(lower(lanes.a, lanes.b), lower(lanes.c, lanes.d)))
}

/// Sixteen lanes less a number.
#[inline(always)]
fn less(lanes: u16x16, low: u16) -> u16x16
    requires long { length lanes ≡ 16 }
    requires high { (k : ℕ) → k < 16 → low ≤ slice_index lanes k }
    requires fits { (k : ℕ) → k < 16 → slice_index lanes k < 2 ^ 16 }
    ensures long { length result ≡ 16 }
    ensures is { (k : ℕ) → k < 16 → slice_index result k + low ≡ slice_index lanes k }
{
    lanes - u16x16::splat(low)
}

/// The lanes less a number.
#[inline(always)]
fn less_by(lanes: Lanes, low: u16) -> Lanes
    requires { (n : ℕ) → n < 64 → low ≤ slice_index (joined lanes.a lanes.b lanes.c lanes.d) n }
    ensures { (n : ℕ) → n < 64 → slice_index (joined result.a result.b result.c result.d) n + low
        ≡ slice_index (joined lanes.a lanes.b lanes.c lanes.d) n }
{
    Lanes {
        a: less(lanes.a, low),
        b: less(lanes.b, low),
        c: less(lanes.c, low),
        d: less(lanes.d, low),
    }
}

/// The lanes less the least of them.
#[inline(always)]
fn less_by_least(lanes: Lanes) -> Lanes
    requires { AreClose (joined lanes.a lanes.b lanes.c lanes.d) }
    ensures { AreRoomy (joined lanes.a lanes.b lanes.c lanes.d) (joined result.a result.b result.c result.d) }
{
    less_by(lanes, least(lanes))
}

/// The lanes made such that the costs of two steps may be added. `high` is false if that is so already.
// The least is taken from each, which leaves 49,140 at most, since they are that close; and 65,535 - 2 * 8,190 is
// 49,155.
#[inline(always)]
pub(crate) fn lowered_if(high: bool, lanes: Lanes) -> Lanes
    requires close { AreClose (joined lanes.a lanes.b lanes.c lanes.d) }
    requires room { IsFalse high → (n : ℕ) → n < 64 → slice_index (joined lanes.a lanes.b lanes.c lanes.d) n ≤ 49155 }
    ensures { AreRoomy (joined lanes.a lanes.b lanes.c lanes.d) (joined result.a result.b result.c result.d) }
{
    if high { less_by_least(lanes) } else { lanes }
}

/// The same, where the lanes say themselves whether one of them is at least 32,768.
#[inline(always)]
pub(crate) fn lowered(lanes: Lanes) -> Lanes
    requires { AreClose (joined lanes.a lanes.b lanes.c lanes.d) }
    ensures { AreRoomy (joined lanes.a lanes.b lanes.c lanes.d) (joined result.a result.b result.c result.d) }
{
    lowered_if(is_high(lanes), lanes)
}
