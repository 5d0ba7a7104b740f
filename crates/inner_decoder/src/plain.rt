// The plain form of `run_over`, with the same result: the pairs of a symbol are loaded first, one by one or as a copy.
// Its proofs stand in the folder of the module `branch`, as the type does.
ghost use Rattle.std.specs.Prelude.{◌≡◌, ◌+◌, ◌<◌, ◌≤◌, ◌^◌, Bool, List, [], ◌∷◌, ◌++◌, false, length};
ghost use Rattle.std.specs.declared.option.Option.{Option};
ghost use Rattle.code_paths.specs.declared.costs.CostPair.{CostPair};
ghost use Rattle.inner_decoder.specs.Tracking.{Stands};
ghost use Rattle.inner_decoder.specs.Running.{RanSymbol};
ghost use Rattle.inner_decoder.specs.Events.{ats};

use crate::Branch;
use crate::branch::run;
use acs_plain::Acs;
use conv_code::CostPair;
use survivor_ring::Survivors;

impl<A: Acs, V: Survivors<2048>> Branch<A, V> {
    /// Loads the next pair of the symbol. Fewer than `most` are loaded, and the branch has not ended.
    pub fn load(&mut self, pair: CostPair)
        requires going { self.old.decoder.ended ≡ false }
        requires room { length self.old.loaded < self.old.most }
        ensures loaded { self.new ≡ record self.old { loaded = self.old.loaded ++ pair ∷ [] } }
        ensures amount { length self.new.loaded ≡ length self.old.loaded + 1 }
    {
        self.pairs[self.used as usize] = pair;
        self.used += 1;
    }

    /// Loads the next pairs of the symbol, in order. There is room for them, and the branch has not ended.
    pub fn load_all(&mut self, pairs: &[CostPair])
        requires going { self.old.decoder.ended ≡ false }
        requires room { length self.old.loaded + length pairs.now ≤ self.old.most }
        ensures loaded { self.new ≡ record self.old { loaded = self.old.loaded ++ pairs.now } }
        ensures amount { length self.new.loaded ≡ length self.old.loaded + length pairs.now }
    {
        let used = self.used as usize;
        let end = used + pairs.len();
        self.pairs[used..end].copy_from_slice(pairs);
        self.used = end as u32;
    }

    /// Steps the decoder through the loaded pairs in order, clears them, and gives all shared bits: all bits given so
    /// far are then exactly the bits given of the definition. The events are the new reports.
    ///
    /// `most` is at most 31,752, the steps of the largest symbol; fewer than eight bits are pending, fewer than 2^61
    /// steps were made, and the branch has not ended.
    pub fn run_symbol(&mut self)
        requires going { self.old.decoder.ended ≡ false }
        requires most { self.old.most ≤ 31752 }
        requires wait { length self.old.wait < 8 }
        requires steps { self.old.decoder.steps < 2 ^ 61 }
        ensures going { self.new.decoder.ended ≡ false }
        ensures most { self.new.most ≡ self.old.most }
        ensures loaded { self.new.loaded ≡ [] }
        ensures steps { self.new.decoder.steps ≡ self.old.decoder.steps + length self.old.loaded }
        ensures amount { length self.new.wait + self.new.decoder.waiting ≡ length self.old.wait
            + self.old.decoder.waiting + length self.old.loaded }
        ensures ran { (a : Option (List Bool)) (c : List CostPair) (g : List Bool) → Stands 2048 self.old.decoder a c g
            → RanSymbol 2048 self.new.decoder a c g self.old.loaded self.old.wait self.new.wait (ats self.new.events) }
    {
        self.events.clear();
        run(
            &mut self.decoder,
            &self.pairs[..self.used as usize],
            &mut self.wait,
            &mut self.events,
        );
        self.used = 0;
        self.decoder.give(&mut self.wait);
    }
}
