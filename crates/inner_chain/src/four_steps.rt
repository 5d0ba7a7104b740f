// The pairs of four steps of the words of a run: the steps of a word are neighbours, so that four pairs are one vector.
ghost use Rattle.std.specs.Prelude.{◌≡◌, ◌≢◌, ◌+◌, ◌++◌, ◌*◌, ◌/◌, ◌%◌, ◌<◌, ◌≤◌, ℕ, length, slice_index};
ghost use Rattle.std.specs.Prelude.{slice_index_or};
ghost use Rattle.code_paths.specs.declared.costs.CostPair.{CostPair as AnyPair};
ghost use Rattle.soft_metric.specs.Squares.{IsSmallPair};
ghost use Rattle.inner_chain.specs.CostTables.{IsRoom};
ghost use Rattle.inner_chain.specs.StepPairs.{AreSmallEntries, IsInLanes, WritesWords, costs_in, four_lanes};
ghost use Rattle.inner_chain.specs.StepPairs.{lanes_of_word};

use crate::step_pairs::four_lanes;
use conv_code::CostPair;
use std::simd::{u16x16, u32x8};

// The costs at four entries in a row, and at four others. Each four are a vector first, so that LLVM loads them as one.
#[inline(always)]
fn eight_lanes(costs: &[(u16, u16)], first: usize, other: usize) -> u32x8
    requires first { first + 4 ≤ length costs.now }
    requires other { other + 4 ≤ length costs.now }
    ensures { result ≡ four_lanes costs.now first ++ four_lanes costs.now other }
{
    four_lanes(costs, first).shuffle(four_lanes(costs, other), [0, 1, 2, 3, 4, 5, 6, 7])
}

// The costs of four words in a row at four steps, of those from number `word` on of a run, whose first word has these
// entries.
#[inline(always)]
fn four_words(
    costs: &[(u16, u16)],
    entries: &[(usize, usize); 4],
    word: usize,
) -> (u32x8, u32x8, u32x8, u32x8)
    requires costs { IsRoom costs.now }
    requires entries { AreSmallEntries entries.now }
    requires word { word ≤ 16 }
    ensures first { result.0 ≡ lanes_of_word costs.now entries.now (λ n. n + word) }
    ensures second { result.1 ≡ lanes_of_word costs.now entries.now (λ n. n + word + 1) }
    ensures third { result.2 ≡ lanes_of_word costs.now entries.now (λ n. n + word + 2) }
    ensures fourth { result.3 ≡ lanes_of_word costs.now entries.now (λ n. n + word + 3) }
{
    let x = eight_lanes(costs, entries[0].0 + word, entries[2].0 + word);
    let y = eight_lanes(costs, entries[0].1 + word, entries[2].1 + word);
    let z = eight_lanes(costs, entries[1].0 + word, entries[3].0 + word);
    let w = eight_lanes(costs, entries[1].1 + word, entries[3].1 + word);
    let low = x.shuffle(y, [0, 8, 1, 9, 4, 12, 5, 13]);
    let high = x.shuffle(y, [2, 10, 3, 11, 6, 14, 7, 15]);
    let next_low = z.shuffle(w, [0, 8, 1, 9, 4, 12, 5, 13]);
    let next_high = z.shuffle(w, [2, 10, 3, 11, 6, 14, 7, 15]);
    (
        low.shuffle(next_low, [0, 1, 8, 9, 4, 5, 12, 13]),
        low.shuffle(next_low, [2, 3, 10, 11, 6, 7, 14, 15]),
        high.shuffle(next_high, [0, 1, 8, 9, 4, 5, 12, 13]),
        high.shuffle(next_high, [2, 3, 10, 11, 6, 7, 14, 15]),
    )
}

// The costs of eight lanes, taken as bytes as those of four are.
#[inline(always)]
fn costs_of(lanes: u32x8) -> [u16; 16]
    ensures zero { (k : ℕ) → k < 8 → slice_index result (2 * k) ≡ slice_index lanes k % 65536 }
    ensures one { (k : ℕ) → k < 8 → slice_index result (2 * k + 1) ≡ slice_index lanes k / 65536 }
{
    u16x16::from_le_bytes(lanes.to_le_bytes()).to_array()
}

// Writes the four pairs of eight lanes.
#[inline(always)]
fn put_pairs(lanes: u32x8, first: usize, to: &mut [CostPair])
    requires small { (k : ℕ) → k < 8 → IsSmallPair (costs_in (slice_index lanes k)) }
    requires room { first + 3 < length to.old }
    ensures long { length to.new ≡ length to.old }
    ensures zero { (d : AnyPair) → IsInLanes (slice_index lanes 0) (slice_index lanes 1)
        (slice_index_or to.new first d) }
    ensures one { (d : AnyPair) → IsInLanes (slice_index lanes 2) (slice_index lanes 3)
        (slice_index_or to.new (first + 1) d) }
    ensures two { (d : AnyPair) → IsInLanes (slice_index lanes 4) (slice_index lanes 5)
        (slice_index_or to.new (first + 2) d) }
    ensures three { (d : AnyPair) → IsInLanes (slice_index lanes 6) (slice_index lanes 7)
        (slice_index_or to.new (first + 3) d) }
    ensures others { (k : ℕ) (d : AnyPair) → k ≢ first → k ≢ first + 1 → k ≢ first + 2 → k ≢ first + 3
        → slice_index_or to.new k d ≡ slice_index_or to.old k d }
{
    let numbers = costs_of(lanes);
    to[first] = CostPair {
        x0: numbers[0],
        x1: numbers[1],
        y0: numbers[2],
        y1: numbers[3],
    };
    to[first + 1] = CostPair {
        x0: numbers[4],
        x1: numbers[5],
        y0: numbers[6],
        y1: numbers[7],
    };
    to[first + 2] = CostPair {
        x0: numbers[8],
        x1: numbers[9],
        y0: numbers[10],
        y1: numbers[11],
    };
    to[first + 3] = CostPair {
        x0: numbers[12],
        x1: numbers[13],
        y0: numbers[14],
        y1: numbers[15],
    };
}

// Writes the pairs of four steps of four words.
#[inline(always)]
fn write_square(
    costs: &[(u16, u16)],
    entries: &[(usize, usize); 4],
    word: usize,
    to: &mut [CostPair],
    first: usize,
    steps: usize,
)
    requires costs { IsRoom costs.now }
    requires entries { AreSmallEntries entries.now }
    requires word { word ≤ 16 }
    requires steps { 4 ≤ steps }
    requires room { first + 3 * steps + 3 < length to.old }
    ensures { WritesWords word 4 4 costs.now entries.now steps first to.old to.new }
{
    let (a, b, c, d) = four_words(costs, entries, word);
    put_pairs(a, first, to);
    put_pairs(b, first + steps, to);
    put_pairs(c, first + 2 * steps, to);
    put_pairs(d, first + 3 * steps, to);
}

// Writes the pairs of four steps of one word.
#[inline(always)]
fn write_word(
    costs: &[(u16, u16)],
    entries: &[(usize, usize); 4],
    word: usize,
    first: usize,
    to: &mut [CostPair],
)
    requires costs { IsRoom costs.now }
    requires entries { AreSmallEntries entries.now }
    requires word { word ≤ 20 }
    requires room { first + 3 < length to.old }
    ensures { (n : ℕ) → WritesWords word 1 4 costs.now entries.now n first to.old to.new }
{
    for step in 0..4 {
        let (x, y) = entries[step];
        to[first + step] = CostPair {
            x0: costs[x + word].0,
            x1: costs[x + word].1,
            y0: costs[y + word].0,
            y1: costs[y + word].1,
        };
    }
}

// Writes the pairs of four steps of each word of a run, whose first word has these entries. Those of a word stand
// `steps` after those of the word before, from number `first` on.
pub(crate) fn write_four_steps(
    costs: &[(u16, u16)],
    entries: &[(usize, usize); 4],
    steps: usize,
    first: usize,
    to: &mut [CostPair],
)
    requires costs { IsRoom costs.now }
    requires entries { AreSmallEntries entries.now }
    requires some { 4 ≤ steps }
    requires steps { steps ≤ 65536 }
    requires room { first + 20 * steps + 3 < length to.old }
    ensures { WritesWords 0 21 4 costs.now entries.now steps first to.old to.new }
{
    let mut at = first;
    for four in 0..5 {
        write_square(costs, entries, 4 * four, to, at, steps);
        at += 4 * steps;
    }
    write_word(costs, entries, 20, at, to);
}
