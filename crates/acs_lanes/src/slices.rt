// Many steps in lanes of 16 bits.
ghost use Rattle.std.specs.Prelude.{◌≡◌, ◌≤◌, ◌<◌, length, take};
ghost use Rattle.acs_plain.specs.declared.sums.Sums.{Sums as AllSums};
ghost use Rattle.acs_plain.specs.Spread.{IsSpread};
ghost use Rattle.acs_plain.specs.Steps.{AreSteps};
ghost use Rattle.acs_lanes.specs.Lanes16.{all_with, laid};

use crate::lanes16::{Lanes, lowered, narrow, widen};
use crate::six::run_twelves;
use crate::step16::step;
use acs_plain::Sums;
use conv_code::CostPair;

/// A step in lanes for each pair from a place on.
fn run_rest(from: Lanes, pairs: &[CostPair], at: usize, words: &mut [u64]) -> Lanes
    requires spread { IsSpread (all_with (laid from.a from.b from.c from.d)) }
    requires room { length words.old ≡ length pairs.now }
    requires within { at ≤ length pairs.now }
    ensures steps { (start : AllSums) → AreSteps start (take at pairs.now) (all_with (laid from.a from.b from.c from.d))
        (take at words.old) → AreSteps start pairs.now (all_with (laid result.a result.b result.c result.d)) words.new }
    ensures room { length words.new ≡ length pairs.now }
{
    let mut lanes = from;
    for k in at..pairs.len() {
        let (next, low, high) = step(lowered(lanes), pairs[k]);
        lanes = next;
        words[k] = low | high << 32;
    }
    lanes
}

/// A step in lanes for each pair, by twelves as far as there are such.
fn run_lanes(from: Lanes, pairs: &[CostPair], words: &mut [u64]) -> Lanes
    requires spread { IsSpread (all_with (laid from.a from.b from.c from.d)) }
    requires room { length words.old ≡ length pairs.now }
    ensures steps { AreSteps (all_with (laid from.a from.b from.c from.d)) pairs.now
        (all_with (laid result.a result.b result.c result.d)) words.new }
    ensures room { length words.new ≡ length pairs.now }
{
    let lanes = run_twelves(from, pairs, words);
    run_rest(lanes, pairs, 12 * (pairs.len() / 12), words)
}

/// The steps where every state is alive.
pub(crate) fn run_alive(sums: &mut Sums, pairs: &[CostPair], words: &mut [u64])
    requires spread { IsSpread sums.old }
    requires alive { sums.old.alive ≡ 18446744073709551615 }
    requires some { 0 < length pairs.now }
    requires room { length words.old ≡ length pairs.now }
    ensures steps { AreSteps sums.old pairs.now sums.new words.new }
    ensures spread { IsSpread sums.new }
    ensures room { length words.new ≡ length pairs.now }
{
    let low = sums.least();
    let lanes = run_lanes(narrow(&sums.cost, low), pairs, words);
    widen(lanes, &mut sums.cost);
}
