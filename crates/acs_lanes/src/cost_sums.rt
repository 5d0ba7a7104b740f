// The sums of the steps' costs, made before the steps, four steps at once. Each step's sums are in the word that its
// decisions replace.
ghost use Rattle.std.specs.Prelude.{◌≡◌, ◌*◌, ◌/◌, ◌<◌, ◌≤◌, ◌+◌, ◌++◌, ℕ, [], ◌∷◌, IsTrue, IsFalse, length, map};
ghost use Rattle.std.specs.Prelude.{slice_index, slice_index_or};
ghost use Rattle.code_paths.specs.declared.costs.CostPair.{CostPair as Pair};
ghost use Rattle.acs_lanes.specs.Lanes.{four};
ghost use Rattle.acs_lanes.specs.Phases.{IsLow, all_sums, sum_word};

use crate::fours::store;
use crate::lanes16::higher;
use crate::step16::word_of;
use conv_code::CostPair;
use std::simd::cmp::SimdPartialOrd;
use std::simd::{u16x16, u64x4};

/// The sums of the costs of four steps: of each those of a cost of X and one of Y, by 2X + Y.
// The four pairs are one load, and two shuffles and an addition serve all of them.
#[inline(always)]
fn four_sums(a: CostPair, b: CostPair, c: CostPair, d: CostPair) -> u16x16
    ensures { result ≡ four a ++ four b ++ four c ++ four d }
{
    let words = u64x4::from_array([word_of(a), word_of(b), word_of(c), word_of(d)]);
    let costs = u16x16::from_le_bytes(words.to_le_bytes());
    costs.swizzle([0, 0, 1, 1, 4, 4, 5, 5, 8, 8, 9, 9, 12, 12, 13, 13])
        + costs.swizzle([2, 3, 2, 3, 6, 7, 6, 7, 10, 11, 10, 11, 14, 15, 14, 15])
}

/// The same, each step's as a word.
#[inline(always)]
fn words_of(sums: u16x16) -> u64x4
    ensures { (a b c d : Pair) → sums ≡ four a ++ four b ++ four c ++ four d
        → result ≡ sum_word a ∷ sum_word b ∷ sum_word c ∷ sum_word d ∷ [] }
{
    u64x4::from_le_bytes(sums.to_le_bytes())
}

/// Are all lanes below 4,096?
fn are_low(lanes: u16x16) -> bool
    requires { length lanes ≡ 16 }
    ensures { IsTrue result → (k : ℕ) → k < 16 → slice_index lanes k < 4096 }
{
    u16x16::splat(4096).simd_le(lanes).to_bitmask() == 0
}

/// Writes each step's sums, by fours as far as there are such, and answers whether all of these are low.
pub(crate) fn write_sums(pairs: &[CostPair], words: &mut [u64]) -> bool
    requires room { length words.old ≡ length pairs.now }
    ensures sums { (k : ℕ) → k < 4 * (length pairs.now / 4) → slice_index words.new k
        ≡ slice_index (map sum_word pairs.now) k }
    ensures low { IsTrue result → (k : ℕ) (d : Pair) → k < 4 * (length pairs.now / 4)
        → IsLow (slice_index_or pairs.now k d) }
    ensures room { length words.new ≡ length pairs.now }
{
    let mut most = u16x16::splat(0);
    for k in 0..pairs.len() / 4 {
        let at = 4 * k;
        let sums = four_sums(pairs[at], pairs[at + 1], pairs[at + 2], pairs[at + 3]);
        most = higher(most, sums);
        store(words, at, words_of(sums));
    }
    are_low(most)
}

/// The sums of a step, four times.
// As one word of 64 bits they are read into all lanes at once.
#[inline(always)]
pub(crate) fn sums_in(word: u64) -> u16x16
    ensures { (pair : Pair) → word ≡ sum_word pair → result ≡ all_sums pair }
{
    u16x16::from_le_bytes(u64x4::splat(word).to_le_bytes())
}
