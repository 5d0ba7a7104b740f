// Six steps over the lanes, which leave them in their order.
ghost use Rattle.std.specs.Prelude.{◌≡◌, ◌≤◌, ◌<◌, ◌+◌, ◌*◌, ◌/◌, ℕ, [], ◌∷◌, ◌++◌, length, slice_index, take};
ghost use Rattle.std.specs.Prelude.{IsFalse, IsTrue};
ghost use Rattle.code_paths.specs.declared.costs.CostPair.{CostPair as Pair};
ghost use Rattle.acs_plain.specs.Spread.{IsSpread};
ghost use Rattle.acs_plain.specs.Steps.{AreSteps};
ghost use Rattle.acs_lanes.specs.Lanes16.{all_with, joined, laid};
ghost use Rattle.acs_lanes.specs.Phases.{IsLow, IsWordStep, all_sums, in_order, laid_in, next, sum_word, way_in};
ghost use Rattle.acs_lanes.specs.Six.{AreSixSteps, HaveSums};

use crate::cost_sums::{sums_in, write_sums};
use crate::lanes16::{Lanes, higher, is_high, lowered_if, reaches};
use crate::phases::{costs_in, half_marks, turned_in, word_in};
use crate::step16::pick;
use crate::word_order::order_words;
use conv_code::CostPair;
use std::simd::u16x16;

/// Is one of the new costs of the states below 16 at least 32,768? A true answer may be wrong.
// In the last phase the first vector has these states, in the others the first and the last one have them.
#[inline(always)]
fn may_be_high(phase: usize, low_first: u16x16, low_last: u16x16) -> bool
    requires { phase < 6 }
    ensures { IsFalse result → (k : ℕ) → k < 16 → slice_index (low_first ++ low_last) (way_in phase k) < 32768 }
{
    if phase == 5 {
        reaches(low_first)
    } else {
        reaches(higher(low_first, low_last))
    }
}

/// The step over all states in a phase: the new costs, a bit for each state that the even way leads to, in the order of
/// the phase, and whether one of the new costs of the states below 16 may be at least 32,768.
// The marks of the states below 32 become bits before those of the others are made: then 128-bit registers suffice.
#[inline(always)]
fn step_in(phase: usize, old: Lanes, sums: u16x16) -> (Lanes, u64, bool)
    requires phase { phase < 6 }
    requires fit { (n : ℕ) → n < 64 → slice_index (joined old.a old.b old.c old.d) n ≤ 57345 }
    requires sums { (pair : Pair) × (sums ≡ all_sums pair) }
    ensures step { (pair : Pair) → sums ≡ all_sums pair → IsWordStep pair (laid_in phase old.a old.b old.c old.d)
        (laid_in (next phase) result.0.a result.0.b result.0.c result.0.d) (in_order phase result.1) }
    ensures low { IsFalse result.2 → (k : ℕ) → k < 16
        → slice_index (laid_in (next phase) result.0.a result.0.b result.0.c result.0.d) k < 32768 }
{
    let (zero_first, one_first, zero_last, one_last) = costs_in(phase, sums);
    let (low_first, low_first_even) = pick(old.a, zero_first, old.c, one_first);
    let (low_last, low_last_even) = pick(old.b, zero_last, old.d, one_last);
    let low_even = half_marks(phase, low_first_even, low_last_even);
    let (high_first, high_first_even) = pick(old.a, one_first, old.c, zero_first);
    let (high_last, high_last_even) = pick(old.b, one_last, old.d, zero_last);
    let high_even = half_marks(phase, high_first_even, high_last_even);
    (
        turned_in(phase, low_first, low_last, high_first, high_last),
        word_in(phase, low_even, high_even),
        may_be_high(phase, low_first, low_last),
    )
}

/// Two steps, whose words have the sums of their costs before and their decisions after, in the order of the phases.
/// First the lanes are made such that the costs of both may be added: `high` is false if that is so already. The answer
/// says whether one of the new costs of the states below 16 may be at least 32,768.
#[inline(always)]
fn two_in(phase: usize, from: Lanes, high: bool, words: &mut [u64], at: usize) -> (Lanes, bool)
    requires phase { phase < 5 }
    requires spread { IsSpread (all_with (laid_in phase from.a from.b from.c from.d)) }
    requires room { IsFalse high → (n : ℕ) → n < 64 → slice_index (joined from.a from.b from.c from.d) n ≤ 49155 }
    requires more { at + 2 ≤ length words.old }
    requires first { (pair : Pair) × (slice_index words.old at ≡ sum_word pair) }
    requires last { (pair : Pair) × (slice_index words.old (at + 1) ≡ sum_word pair) }
    ensures steps { (x y : Pair) → slice_index words.old at ≡ sum_word x
        → slice_index words.old (at + 1) ≡ sum_word y → AreSteps (all_with
        (laid_in phase from.a from.b from.c from.d)) (x ∷ y ∷ []) (all_with
        (laid_in (next (phase + 1)) result.0.a result.0.b result.0.c result.0.d))
        (in_order phase (slice_index words.new at) ∷ in_order (phase + 1) (slice_index words.new (at + 1)) ∷ []) }
    ensures spread { IsSpread (all_with
        (laid_in (next (phase + 1)) result.0.a result.0.b result.0.c result.0.d)) }
    ensures low { IsFalse result.1 → (k : ℕ) → k < 16
        → slice_index (laid_in (next (phase + 1)) result.0.a result.0.b result.0.c result.0.d) k < 32768 }
    ensures grown { (x y : Pair) (most : ℕ) → slice_index words.old at ≡ sum_word x
        → slice_index words.old (at + 1) ≡ sum_word y → IsLow x → IsLow y
        → ((n : ℕ) → n < 64 → slice_index (joined from.a from.b from.c from.d) n ≤ most)
        → (n : ℕ) → n < 64 → slice_index (joined result.0.a result.0.b result.0.c result.0.d) n ≤ most + 8190 }
    ensures below { (k : ℕ) → k < at → slice_index words.new k ≡ slice_index words.old k }
    ensures above { (k : ℕ) → at + 2 ≤ k → slice_index words.new k ≡ slice_index words.old k }
    ensures room { length words.new ≡ length words.old }
{
    let (middle, first_word, _) = step_in(phase, lowered_if(high, from), sums_in(words[at]));
    words[at] = first_word;
    let next = at + 1;
    let (last, last_word, is_high) = step_in(phase + 1, middle, sums_in(words[next]));
    words[next] = last_word;
    (last, is_high)
}

/// Six steps, whose words have the sums of their costs before and their decisions after, in the order of the phases.
/// `high` is false if all costs are below 32,768. Where the sums are low too, those of all six may be added.
// Otherwise two steps lead from the same states to all those that agree in their lowest four bits. So their costs
// differ by at most 16,380, and it is enough to look at one of each four. Each of the two forms has one caller, so that
// LLVM makes it part of it.
#[inline(always)]
fn six_in<const LOW: bool>(from: Lanes, high: bool, words: &mut [u64], at: usize) -> Lanes
    requires spread { IsSpread (all_with (laid from.a from.b from.c from.d)) }
    requires high { IsFalse high → (n : ℕ) → n < 64 → slice_index (joined from.a from.b from.c from.d) n < 32768 }
    requires low { IsTrue LOW → IsFalse high }
    requires more { at + 6 ≤ length words.old }
    requires sums { HaveSums LOW words.old at }
    ensures { AreSixSteps at (laid from.a from.b from.c from.d) (laid result.a result.b result.c result.d) words.old
        words.new }
{
    let (second, second_high) = two_in(0, from, high, words, at);
    let (fourth, fourth_high) = two_in(2, second, second_high & !LOW, words, at + 2);
    let (last, _) = two_in(4, fourth, fourth_high & !LOW, words, at + 4);
    last
}

/// The same, whatever the costs are. `low` says whether all sums are low.
#[inline(always)]
fn six_steps(low: bool, from: Lanes, words: &mut [u64], at: usize) -> Lanes
    requires spread { IsSpread (all_with (laid from.a from.b from.c from.d)) }
    requires more { at + 6 ≤ length words.old }
    requires sums { HaveSums low words.old at }
    ensures { AreSixSteps at (laid from.a from.b from.c from.d) (laid result.a result.b result.c result.d) words.old
        words.new }
{
    let high = is_high(from);
    if low && !high {
        six_in::<true>(from, false, words, at)
    } else {
        six_in::<false>(from, high, words, at)
    }
}

/// The steps by twelves, as far as there are such.
// Words are put in order four at a time, so that six phases twice are the least.
#[inline(never)]
pub(crate) fn run_twelves(from: Lanes, pairs: &[CostPair], words: &mut [u64]) -> Lanes
    requires spread { IsSpread (all_with (laid from.a from.b from.c from.d)) }
    requires room { length words.old ≡ length pairs.now }
    ensures steps { AreSteps (all_with (laid from.a from.b from.c from.d))
        (take (12 * (length pairs.now / 12)) pairs.now) (all_with (laid result.a result.b result.c result.d))
        (take (12 * (length pairs.now / 12)) words.new) }
    ensures spread { IsSpread (all_with (laid result.a result.b result.c result.d)) }
    ensures room { length words.new ≡ length pairs.now }
{
    let low = write_sums(pairs, words);
    let mut lanes = from;
    for k in 0..2 * (pairs.len() / 12) {
        lanes = six_steps(low, lanes, words, 6 * k);
    }
    order_words(words);
    lanes
}
