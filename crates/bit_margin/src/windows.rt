// The margins of a block over its window.
ghost use Rattle.std.specs.Prelude.{◌≡◌, ◌+◌, ◌<◌, ◌≤◌, ℕ, List, None, length, drop, vec_len, vec_capacity};
ghost use Rattle.inner_decoder.specs.Starts.{start_of};
ghost use Rattle.inner_decoder.specs.declared.decoder.StartState.{StartState};
ghost use Rattle.bit_margin.specs.Sums.{AreLowBackward, AreRows, Appended, HavePassed, Passed};

use crate::lanes16::LowStates;
use crate::low_margin::margin_between;
use crate::lowered::{no_sums, step_back, step_on};
use crate::sums::{States, least_on, start_costs};
use acs_lanes::forward;
use conv_code::CostPair;
use inner_decoder::StartState;

/// The least sums over the pairs from each state before them, less a number.
fn sums_over(pairs: &[CostPair]) -> LowStates
    ensures { AreLowBackward pairs.now result }
{
    let mut sums = no_sums();
    for k in 0..pairs.len() {
        step_back(&mut sums, pairs[pairs.len() - 1 - k]);
    }
    sums
}

/// Writes the sums after each of the first steps of a window, from those after the last of them.
fn keep_backward(window: &[CostPair], steps: usize, behind: &LowStates, rows: &mut [LowStates])
    requires steps { steps ≤ length window.now }
    requires room { steps ≤ length rows.old }
    requires behind { AreLowBackward (drop steps window.now) behind.now }
    ensures rows { AreRows window.now steps rows.new }
    ensures size { length rows.new ≡ length rows.old }
{
    let mut sums = *behind;
    for k in 0..steps {
        let t = steps - 1 - k;
        rows[t] = sums;
        step_back(&mut sums, window[t]);
    }
}

/// Appends the margins of the first steps of a window, from the sums before the first and those after each of them.
fn push_margins(
    before: &mut States,
    window: &[CostPair],
    steps: usize,
    rows: &[LowStates],
    to: &mut Vec<u32>,
)
    requires few { length window.now ≤ 1280 }
    requires steps { steps ≤ length window.now }
    requires size { steps ≤ length rows.now }
    requires rows { AreRows window.now steps rows.now }
    requires spare { vec_len to.old + steps ≤ vec_capacity to.old }
    requires passed { HavePassed window.now 0 before.old to.old.items }
    ensures passed { (s : StartState) (old : List ℕ) → Passed s window.now 0 before.old old to.old.items
        → Passed s window.now steps before.new old to.new.items }
    ensures len { vec_len to.new ≡ vec_len to.old + steps }
    ensures capacity { vec_capacity to.new ≡ vec_capacity to.old }
{
    for t in 0..steps {
        forward(before, window[t]);
        let (zero, one) = least_on(before, &rows[t]);
        to.push_reserved(zero.abs_diff(one));
    }
}

/// Appends the margins of the first steps of a window whose paths may start anywhere, from the sums after each of them.
fn push_low(window: &[CostPair], steps: usize, rows: &[LowStates], to: &mut Vec<u32>)
    requires few { length window.now ≤ 1280 }
    requires steps { steps ≤ length window.now }
    requires size { steps ≤ length rows.now }
    requires rows { AreRows window.now steps rows.now }
    requires spare { vec_len to.old + steps ≤ vec_capacity to.old }
    ensures margins { Appended None window.now steps to.old.items to.new.items }
    ensures len { vec_len to.new ≡ vec_len to.old + steps }
    ensures capacity { vec_capacity to.new ≡ vec_capacity to.old }
{
    let mut before = no_sums();
    for t in 0..steps {
        step_on(&mut before, window[t]);
        to.push_reserved(margin_between(&before, &rows[t]));
    }
}

/// Appends the margins of the first steps of a window whose paths start in state 0, from the sums after each of them.
// The sums are of 32 bits, as those from a start that is not allowed are far above the others. It is the first block.
fn push_first(window: &[CostPair], steps: usize, rows: &[LowStates], to: &mut Vec<u32>)
    requires few { length window.now ≤ 1280 }
    requires steps { steps ≤ length window.now }
    requires size { steps ≤ length rows.now }
    requires rows { AreRows window.now steps rows.now }
    requires spare { vec_len to.old + steps ≤ vec_capacity to.old }
    ensures margins { Appended (start_of StartState.Zero) window.now steps to.old.items to.new.items }
    ensures len { vec_len to.new ≡ vec_len to.old + steps }
    ensures capacity { vec_capacity to.new ≡ vec_capacity to.old }
{
    let mut before = start_costs(StartState::Zero);
    push_margins(&mut before, window, steps, rows, to);
}

/// Appends the margins of the first steps of a window.
pub(crate) fn push_block(
    start: StartState,
    window: &[CostPair],
    block: usize,
    rows: &mut [LowStates],
    to: &mut Vec<u32>,
)
    requires few { length window.now ≤ 1280 }
    requires block { block ≤ length window.now }
    requires short { block ≤ 1024 }
    requires rows { length rows.old ≡ 1024 }
    requires spare { vec_len to.old + block ≤ vec_capacity to.old }
    ensures margins { Appended (start_of start) window.now block to.old.items to.new.items }
    ensures len { vec_len to.new ≡ vec_len to.old + block }
    ensures capacity { vec_capacity to.new ≡ vec_capacity to.old }
    ensures rows { length rows.new ≡ 1024 }
{
    let behind = sums_over(&window[block..]);
    keep_backward(window, block, &behind, rows);
    match start {
        StartState::Any => push_low(window, block, rows, to),
        StartState::Zero => push_first(window, block, rows, to),
    }
}
