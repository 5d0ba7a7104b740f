// Runs of words: 21 in a row, whose bits at a place of the label come in the order of the words.
ghost use Rattle.std.specs.Prelude.{◌≡◌, ◌≢◌, ◌+◌, ◌*◌, ◌/◌, ◌<◌, ◌≤◌, ℕ, IfSome, IsTrue, drop, length, slice_index};
ghost use Rattle.std.specs.Prelude.{slice_index_or};
ghost use Rattle.code_paths.specs.declared.costs.CostPair.{CostPair as AnyPair};
ghost use Rattle.inner_chain.specs.CostTables.{AreInRuns, Follows, FollowAll, IsPairAt, IsRead, IsRoom, IsSmallEntry};
ghost use Rattle.inner_chain.specs.CostTables.{pair_at, run_words};

use crate::cost_entries::{BLOCK_WORDS, NO_ENTRY, RUN_WORDS};
use crate::four_steps::write_four_steps;
use crate::step_pairs::write_two_steps;
use conv_code::CostPair;

// The runs of a block.
const RUNS: usize = BLOCK_WORDS / RUN_WORDS;

// Whether an entry follows that of the first word of a run, that number of words later.
fn follows(first: u16, words: usize, entry: u16) -> bool
    requires { words < run_words }
    ensures { IsTrue result → Follows first words entry }
{
    entry as usize == first as usize + words || first == NO_ENTRY && entry == NO_ENTRY
}

// Whether the entries from number `at` on follow those from number `first` on, as many as asked for.
fn all_follow(entries: &[u16], number: usize, first: usize, words: usize, at: usize) -> bool
    requires words { words < run_words }
    requires first { first + number ≤ length entries.now }
    requires at { at + number ≤ length entries.now }
    ensures { IsTrue result → FollowAll entries.now number first words at }
{
    for k in 0..number {
        if !follows(entries[first + k], words, entries[at + k]) {
            return false;
        }
    }
    true
}

// Whether in a run of words of this many steps the entries of each follow those of the first one.
fn is_run(entries: &[u16], steps: usize, run: usize) -> bool
    requires steps { steps ≤ 65536 }
    requires run { run < 12 }
    requires long { length entries.now ≡ 2 * (252 * steps) }
    ensures { IsTrue result → (u : ℕ) → u < run_words → FollowAll entries.now (2 * steps)
        (2 * (run_words * run * steps)) u (2 * ((run_words * run + u) * steps)) }
{
    let first = RUN_WORDS * run;
    for word in 0..RUN_WORDS {
        if !all_follow(
            entries,
            2 * steps,
            2 * (first * steps),
            word,
            2 * ((first + word) * steps),
        ) {
            return false;
        }
    }
    true
}

// The steps of a word, if the entries of a block are in runs, and there are some.
pub(crate) fn steps_of_word(entries: &[u16]) -> Option<usize>
    requires { length entries.now ≤ 65536 }
    ensures { IfSome result (λ n. AreInRuns n entries.now) }
{
    let steps = entries.len() / (2 * BLOCK_WORDS);
    if steps == 0 || entries.len() != 2 * (BLOCK_WORDS * steps) {
        return None;
    }
    for run in 0..RUNS {
        if !is_run(entries, steps, run) {
            return None;
        }
    }
    Some(steps)
}

// Writes the pairs of a step of each word of a run, whose first word has the entries `x` and `y` at this step. Those
// pairs stand `steps` apart, from number `first` on.
fn write_run(
    costs: &[(u16, u16)],
    x: usize,
    y: usize,
    steps: usize,
    first: usize,
    to: &mut [CostPair],
)
    requires x { x ≤ 1536 }
    requires y { y ≤ 1536 }
    requires costs { IsRoom costs.now }
    requires some { 0 < steps }
    requires steps { steps ≤ 65536 }
    requires room { first + 20 * steps < length to.old }
    ensures here { (u : ℕ) (d : AnyPair) → u < run_words → IsPairAt costs.now (x + u) (y + u)
        (slice_index_or to.new (first + u * steps) d) }
    ensures others { (k : ℕ) (d : AnyPair) → ((u : ℕ) → u < run_words → k ≢ first + u * steps)
        → slice_index_or to.new k d ≡ slice_index_or to.old k d }
    ensures rest { (k : ℕ) → first + 20 * steps < k → drop k to.new ≡ drop k to.old }
    ensures long { length to.new ≡ length to.old }
{
    let mut at = first;
    for word in 0..RUN_WORDS {
        to[at] = CostPair {
            x0: costs[x + word].0,
            x1: costs[x + word].1,
            y0: costs[y + word].0,
            y1: costs[y + word].1,
        };
        at += steps;
    }
}

// The entries of the X and the Y of a step.
fn entries_of(entries: &[u16], step: usize) -> (usize, usize)
    requires { 2 * step + 1 < length entries.now }
    ensures x { result.0 ≡ slice_index entries.now (2 * step) }
    ensures y { result.1 ≡ slice_index entries.now (2 * step + 1) }
{
    (entries[2 * step] as usize, entries[2 * step + 1] as usize)
}

// The entries of four steps.
fn four_entries(entries: &[u16], step: usize) -> [(usize, usize); 4]
    requires { 2 * (step + 3) + 1 < length entries.now }
    ensures { (s : ℕ) → s < 4 → pair_at result s ≡ (
      slice_index entries.now (2 * (step + s)),
      slice_index entries.now (2 * (step + s) + 1),
    ) }
{
    [
        entries_of(entries, step),
        entries_of(entries, step + 1),
        entries_of(entries, step + 2),
        entries_of(entries, step + 3),
    ]
}

// Writes the pairs of the steps of the words of a run, four steps at once while as many remain.
fn write_fours(
    costs: &[(u16, u16)],
    entries: &[u16],
    start: usize,
    steps: usize,
    first: usize,
    to: &mut [CostPair],
)
    requires costs { IsRoom costs.now }
    requires entries { (k : ℕ) → k < length entries.now → IsSmallEntry (slice_index entries.now k) }
    requires within { 2 * (start + steps) ≤ length entries.now }
    requires steps { steps ≤ 65536 }
    requires room { first + 21 * steps ≤ length to.old }
    ensures here { (u s : ℕ) (d : AnyPair) → u < run_words → s < 4 * (steps / 4) → IsPairAt costs.now
        (slice_index entries.now (2 * (start + s)) + u) (slice_index entries.now (2 * (start + s) + 1) + u)
        (slice_index_or to.new (first + s + u * steps) d) }
    ensures before { (k : ℕ) (d : AnyPair) → k < first → slice_index_or to.new k d ≡ slice_index_or to.old k d }
    ensures rest { (k : ℕ) → first + 21 * steps ≤ k → drop k to.new ≡ drop k to.old }
    ensures long { length to.new ≡ length to.old }
{
    for four in 0..steps / 4 {
        let step = 4 * four;
        let here = four_entries(entries, start + step);
        write_four_steps(costs, &here, steps, first + step, to);
    }
}

// Writes the pairs of all steps of the words of a run, whose first word has the entries from those of step `start` on.
// They are written by four steps, then by two, and the last of an odd number by itself.
fn write_words(
    costs: &[(u16, u16)],
    entries: &[u16],
    steps: usize,
    start: usize,
    first: usize,
    to: &mut [CostPair],
)
    requires steps { steps ≤ 65536 }
    requires entries { (k : ℕ) → k < length entries.now → IsSmallEntry (slice_index entries.now k) }
    requires within { 2 * (start + steps) ≤ length entries.now }
    requires costs { IsRoom costs.now }
    requires room { first + 21 * steps ≤ length to.old }
    ensures here { (u s : ℕ) (d : AnyPair) → u < run_words → s < steps → IsPairAt costs.now
        (slice_index entries.now (2 * (start + s)) + u) (slice_index entries.now (2 * (start + s) + 1) + u)
        (slice_index_or to.new (first + s + u * steps) d) }
    ensures before { (k : ℕ) (d : AnyPair) → k < first → slice_index_or to.new k d ≡ slice_index_or to.old k d }
    ensures rest { (k : ℕ) → first + 21 * steps ≤ k → drop k to.new ≡ drop k to.old }
    ensures long { length to.new ≡ length to.old }
{
    write_fours(costs, entries, start, steps, first, to);
    for half in 2 * (steps / 4)..steps / 2 {
        let step = 2 * half;
        let here = entries_of(entries, start + step);
        let next = entries_of(entries, start + step + 1);
        write_two_steps(costs, here, next, steps, first + step, to);
    }
    if steps % 2 == 1 {
        let step = steps - 1;
        let (x, y) = entries_of(entries, start + step);
        write_run(costs, x, y, steps, first + step, to);
    }
}

// Writes a pair for each two entries over those from number `first` on, and keeps the others: for entries in runs of
// words of this many steps.
pub(crate) fn write_runs(
    costs: &[(u16, u16)],
    entries: &[u16],
    steps: usize,
    first: usize,
    to: &mut [CostPair],
)
    requires steps { steps ≤ 65536 }
    requires runs { AreInRuns steps entries.now }
    requires entries { (k : ℕ) → k < length entries.now → IsSmallEntry (slice_index entries.now k) }
    requires costs { IsRoom costs.now }
    requires room { first + 252 * steps ≤ length to.old }
    ensures here { (t : ℕ) (d : AnyPair) → t < 252 * steps → IsRead costs.now entries.now t
        (slice_index_or to.new (first + t) d) }
    ensures before { (k : ℕ) (d : AnyPair) → k < first → slice_index_or to.new k d ≡ slice_index_or to.old k d }
    ensures rest { (k : ℕ) → first + 252 * steps ≤ k → drop k to.new ≡ drop k to.old }
    ensures long { length to.new ≡ length to.old }
{
    for run in 0..RUNS {
        let start = RUN_WORDS * run * steps;
        write_words(costs, entries, steps, start, first + start, to);
    }
}
