// One add-compare-select step.
ghost use Rattle.std.specs.Prelude.{◌≡◌, length};
ghost use Rattle.acs_plain.specs.Steps.{IsStep, AreSteps, Close, SomeAlive};
ghost use Rattle.acs_plain.specs.Spread.{IsSpread};

use crate::Sums;
use conv_code::CostPair;

/// One step of the Viterbi decoder.
pub trait Acs {
    /// Adds the costs of a step to the sums, and keeps the lower way into each state; on a tie that from the even
    /// state. Bit n of the result, the decision word, is set if the odd way was taken to state n.
    ///
    /// Some state must be alive, and alive costs differ by at most 131,072. Afterwards state n is alive if `2 * (n %
    /// 32)` or the state after that was. One number is subtracted from all alive costs, so that all fit 32 bits.
    fn step(sums: &mut Sums, pair: CostPair) -> u64
        requires some { SomeAlive sums.old }
        requires close { Close 131072 sums.old }
        ensures step { IsStep sums.old pair sums.new result };

    /// Takes a step on each of the pairs, in order; the words are the decision words, one for each pair.
    ///
    /// The sums must be as close together as the steps of a stream leave them, and they are so afterwards.
    fn run(sums: &mut Sums, pairs: &[CostPair], words: &mut [u64])
        requires spread { IsSpread sums.old }
        requires room { length words.old ≡ length pairs.now }
        ensures steps { AreSteps sums.old pairs.now sums.new words.new }
        ensures spread { IsSpread sums.new }
        ensures room { length words.new ≡ length pairs.now }
    {
        for k in 0..pairs.len() {
            words[k] = Self::step(sums, pairs[k]);
        }
    }
}
