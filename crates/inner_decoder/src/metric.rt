// Path metrics that always fit 32 bits.
ghost use Rattle.std.specs.Prelude.{◌≡◌, ◌<◌, ◌-◌, ◌^◌, ℕ, IsTrue, length, slice_index};
ghost use Rattle.acs_plain.specs.Steps.{IsStep, AreSteps, SomeAlive, alive};
ghost use Rattle.inner_decoder.specs.Metrics.{IsBest};

use acs_plain::{Acs, Sums};
use conv_code::CostPair;
use std::marker::Model;

/// Path metrics that are close together. The invariant keeps every sum from wrapping, however long the stream.
#[derive(Drop)]
pub(crate) struct Metric {
    sums: Sums,
}

impl Model for Metric {
    ghost use Rattle.acs_plain.specs.declared.sums.Sums.{Sums};
    ghost use Rattle.acs_plain.specs.Spread.{IsSpread};

    ghost Value = { Sums };

    ghost view = { λ m. m.sums };

    ghost invariant = { λ m. IsSpread m.sums };
}

impl Metric {
    /// All registers, at no cost.
    pub(crate) fn any() -> Metric
        ensures lives { (n : ℕ) → n < 64 → IsTrue (alive result n) }
        ensures cost { (n : ℕ) → n < 64 → slice_index result.cost n ≡ 0 }
    {
        Metric {
            sums: Sums {
                cost: [0; 64],
                alive: u64::MAX,
            },
        }
    }

    /// One register, at no cost.
    pub(crate) fn only(state: u8) -> Metric
        requires { state < 64 }
        ensures lives { result.alive ≡ 2 ^ state }
        ensures cost { slice_index result.cost state ≡ 0 }
    {
        Metric {
            sums: Sums {
                cost: [0; 64],
                alive: 1 << state,
            },
        }
    }

    /// The word of alive states.
    pub(crate) fn alive(&self) -> u64
        ensures is { result ≡ self.now.alive }
        ensures some { SomeAlive self.now }
    {
        self.sums.alive
    }

    /// A step of the decoder; returns the decision word.
    pub(crate) fn step<A: Acs>(&mut self, pair: CostPair) -> u64
        ensures step { IsStep self.old pair self.new result }
        ensures some { SomeAlive self.new }
    {
        A::step(&mut self.sums, pair)
    }

    /// A step of the decoder on each of the pairs in order, with all states alive; the words are the decision words.
    pub(crate) fn run<A: Acs>(&mut self, pairs: &[CostPair], words: &mut [u64])
        requires all { self.old.alive ≡ 2 ^ 64 - 1 }
        requires size { length words.old ≡ length pairs.now }
        ensures all { self.new.alive ≡ 2 ^ 64 - 1 }
        ensures size { length words.new ≡ length pairs.now }
        ensures steps { AreSteps self.old pairs.now self.new words.new }
        ensures some { SomeAlive self.new }
    {
        A::run(&mut self.sums, pairs, words);
        let is_full = self.alive() == u64::MAX;
        prove!(is_full);
    }

    /// The alive state of least cost; among equals, the lowest one.
    pub(crate) fn best(&self) -> u8
        ensures { IsBest self.now result }
    {
        let low = self.sums.least();
        for n in 0..64u8 {
            if self.sums.is_alive(n) && self.sums.cost[n as usize] == low {
                return n;
            }
        }
        unreachable!()
    }
}
