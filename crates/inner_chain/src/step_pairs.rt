// The pairs of two steps of the words of a run: the steps of a word are neighbours, so that two pairs are one vector.
ghost use Rattle.std.specs.Prelude.{◌≡◌, ◌≢◌, ◌+◌, ◌*◌, ◌/◌, ◌%◌, ◌<◌, ◌≤◌, ℕ, drop, length, slice_index};
ghost use Rattle.std.specs.Prelude.{slice_index_or};
ghost use Rattle.code_paths.specs.declared.costs.CostPair.{CostPair as AnyPair};
ghost use Rattle.soft_metric.specs.Squares.{IsSmallPair};
ghost use Rattle.inner_chain.specs.CostTables.{IsRoom};
ghost use Rattle.inner_chain.specs.StepPairs.{IsInLanes, WritesSteps, costs_in, four_lanes, lane_of, word_lanes};

use conv_code::CostPair;
use std::simd::{u16x8, u32x4};

// Two costs in a lane of 32 bits, the first in the lower half.
fn lane_of(costs: (u16, u16)) -> u32
    ensures { result ≡ lane_of costs }
{
    costs.0 as u32 + 65536 * costs.1 as u32
}

// The costs at four entries in a row.
#[inline(always)]
pub(crate) fn four_lanes(costs: &[(u16, u16)], first: usize) -> u32x4
    requires { first + 4 ≤ length costs.now }
    ensures { result ≡ four_lanes costs.now first }
{
    u32x4::from_array([
        lane_of(costs[first]),
        lane_of(costs[first + 1]),
        lane_of(costs[first + 2]),
        lane_of(costs[first + 3]),
    ])
}

// The costs of four words in a row at two steps: the first word has the entries `here` at the one, `next` at the other.
#[inline(always)]
fn four_words(
    costs: &[(u16, u16)],
    here: (usize, usize),
    next: (usize, usize),
) -> (u32x4, u32x4, u32x4, u32x4)
    requires here { (here.0 + 4 ≤ length costs.now) × (here.1 + 4 ≤ length costs.now) }
    requires next { (next.0 + 4 ≤ length costs.now) × (next.1 + 4 ≤ length costs.now) }
    ensures first { result.0 ≡ word_lanes costs.now here.0 here.1 next.0 next.1 }
    ensures second { result.1 ≡ word_lanes costs.now (here.0 + 1) (here.1 + 1) (next.0 + 1) (next.1 + 1) }
    ensures third { result.2 ≡ word_lanes costs.now (here.0 + 2) (here.1 + 2) (next.0 + 2) (next.1 + 2) }
    ensures fourth { result.3 ≡ word_lanes costs.now (here.0 + 3) (here.1 + 3) (next.0 + 3) (next.1 + 3) }
{
    let x = four_lanes(costs, here.0);
    let y = four_lanes(costs, here.1);
    let z = four_lanes(costs, next.0);
    let w = four_lanes(costs, next.1);
    let low = x.shuffle(y, [0, 4, 1, 5]);
    let high = x.shuffle(y, [2, 6, 3, 7]);
    let next_low = z.shuffle(w, [0, 4, 1, 5]);
    let next_high = z.shuffle(w, [2, 6, 3, 7]);
    (
        low.shuffle(next_low, [0, 1, 4, 5]),
        low.shuffle(next_low, [2, 3, 6, 7]),
        high.shuffle(next_high, [0, 1, 4, 5]),
        high.shuffle(next_high, [2, 3, 6, 7]),
    )
}

// The costs of four lanes.
// They are taken as bytes, so that LLVM keeps the vector that they come from.
#[inline(always)]
fn costs_of(lanes: u32x4) -> [u16; 8]
    ensures zero { (k : ℕ) → k < 4 → slice_index result (2 * k) ≡ slice_index lanes k % 65536 }
    ensures one { (k : ℕ) → k < 4 → slice_index result (2 * k + 1) ≡ slice_index lanes k / 65536 }
{
    u16x8::from_le_bytes(lanes.to_le_bytes()).to_array()
}

// Writes the two pairs of four lanes.
#[inline(always)]
fn put_pairs(lanes: u32x4, first: usize, to: &mut [CostPair])
    requires small { (k : ℕ) → k < 4 → IsSmallPair (costs_in (slice_index lanes k)) }
    requires room { first + 1 < length to.old }
    ensures long { length to.new ≡ length to.old }
    ensures here { (d : AnyPair) → IsInLanes (slice_index lanes 0) (slice_index lanes 1)
        (slice_index_or to.new first d) }
    ensures next { (d : AnyPair) → IsInLanes (slice_index lanes 2) (slice_index lanes 3)
        (slice_index_or to.new (first + 1) d) }
    ensures others { (k : ℕ) (d : AnyPair) → k ≢ first → k ≢ first + 1
        → slice_index_or to.new k d ≡ slice_index_or to.old k d }
{
    let costs = costs_of(lanes);
    to[first] = CostPair {
        x0: costs[0],
        x1: costs[1],
        y0: costs[2],
        y1: costs[3],
    };
    to[first + 1] = CostPair {
        x0: costs[4],
        x1: costs[5],
        y0: costs[6],
        y1: costs[7],
    };
}

// Writes the pairs of two steps of four words.
#[inline(always)]
fn write_four(
    costs: &[(u16, u16)],
    here: (usize, usize),
    next: (usize, usize),
    to: &mut [CostPair],
    first: usize,
    steps: usize,
)
    requires costs { IsRoom costs.now }
    requires here { (here.0 + 4 ≤ length costs.now) × (here.1 + 4 ≤ length costs.now) }
    requires next { (next.0 + 4 ≤ length costs.now) × (next.1 + 4 ≤ length costs.now) }
    requires steps { 2 ≤ steps }
    requires room { first + 3 * steps + 1 < length to.old }
    ensures { WritesSteps 4 costs.now here next steps first to.old to.new }
{
    let (a, b, c, d) = four_words(costs, here, next);
    put_pairs(a, first, to);
    put_pairs(b, first + steps, to);
    put_pairs(c, first + 2 * steps, to);
    put_pairs(d, first + 3 * steps, to);
}

// Writes the pairs of two steps of one word.
#[inline(always)]
fn write_one(
    costs: &[(u16, u16)],
    here: (usize, usize),
    next: (usize, usize),
    first: usize,
    to: &mut [CostPair],
)
    requires costs { IsRoom costs.now }
    requires here { (here.0 < length costs.now) × (here.1 < length costs.now) }
    requires next { (next.0 < length costs.now) × (next.1 < length costs.now) }
    requires room { first + 1 < length to.old }
    ensures { (n : ℕ) → WritesSteps 1 costs.now here next n first to.old to.new }
{
    to[first] = CostPair {
        x0: costs[here.0].0,
        x1: costs[here.0].1,
        y0: costs[here.1].0,
        y1: costs[here.1].1,
    };
    to[first + 1] = CostPair {
        x0: costs[next.0].0,
        x1: costs[next.0].1,
        y0: costs[next.1].0,
        y1: costs[next.1].1,
    };
}

// Writes the pairs of two steps of each word of a run, whose first word has the entries `here` at the one and `next` at
// the following one. Those of a word stand `steps` after those of the word before, from number `first` on.
pub(crate) fn write_two_steps(
    costs: &[(u16, u16)],
    here: (usize, usize),
    next: (usize, usize),
    steps: usize,
    first: usize,
    to: &mut [CostPair],
)
    requires costs { IsRoom costs.now }
    requires here { (here.0 ≤ 1536) × (here.1 ≤ 1536) }
    requires next { (next.0 ≤ 1536) × (next.1 ≤ 1536) }
    requires some { 2 ≤ steps }
    requires steps { steps ≤ 65536 }
    requires room { first + 20 * steps + 1 < length to.old }
    ensures { WritesSteps 21 costs.now here next steps first to.old to.new }
{
    let mut at = first;
    for four in 0..5 {
        let word = 4 * four;
        write_four(
            costs,
            (here.0 + word, here.1 + word),
            (next.0 + word, next.1 + word),
            to,
            at,
            steps,
        );
        at += 4 * steps;
    }
    write_one(
        costs,
        (here.0 + 20, here.1 + 20),
        (next.0 + 20, next.1 + 20),
        at,
        to,
    );
}
