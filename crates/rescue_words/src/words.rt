// The outer code of a stream with rescue.
ghost use Rattle.std.specs.Prelude.{◌≡◌, ◌+◌, ◌*◌, ◌<◌, ◌≤◌, ◌^◌, ◌++◌, ◌∷◌, [], ℕ, List, length, vec_len};
ghost use Rattle.std.specs.Prelude.{vec_capacity, IfOk};
ghost use Rattle.rescue_words.specs.Rescued.{RescueTally};
ghost use Rattle.rescue_words.specs.Running.{Stands, Took};

use crate::counts::{RescueCounts, no_counts};
use crate::fill::MarginFill;
use crate::recovery::finish_known;
use outer_chain::OuterRx;
use std::alloc::{AllocError, Global};
use std::marker::Model;

/// Takes the interleaved bytes of a stream with their margins, and returns the packets of its words, which are rescued
/// if possible. Its state matches the bytes and margins received, and the output.
///
/// Only `new` allocates memory.
#[derive(Drop)]
pub struct RescueWords {
    outer: OuterRx,
    margins: MarginFill,
    counts: RescueCounts,
}

impl Model for RescueWords {
    ghost use Rattle.std.specs.Prelude.{◌≡◌, ◌<◌, length};
    ghost use Rattle.rescue_words.specs.Carrying.{made_of};
    ghost use Rattle.rescue_words.specs.Recovering.{AreFit};
    ghost use Rattle.rescue_words.specs.Running.{WordsState};

    ghost Value = { WordsState };

    ghost view = { λ x. record {
      outer = x.outer;
      margins = made_of x.margins.lines x.margins.word x.margins.filled;
      counts = x.counts;
    } };

    ghost invariant = { λ x. AreFit x.counts × (x.margins.filled < 204) × (length x.margins.word ≡ 204) };
}

impl RescueWords {
    /// It has received no byte. The only error is lack of memory.
    pub fn new(alloc: Global) -> Result<RescueWords, AllocError>
        ensures stands { IfOk result (λ x. Stands x [] [] []
            (record { words = 0; clean = 0; corrected = 0; rescued = 0; bad = 0; unphased = 0 })) }
        ensures words { IfOk result (λ x. x.counts.words ≡ 0) }
        ensures begun { IfOk result (λ x. x.margins.begun ≡ []) }
    {
        Ok(RescueWords {
            outer: OuterRx::new(alloc)?,
            margins: MarginFill::new(alloc)?,
            counts: no_counts(),
        })
    }

    /// Takes the next interleaved byte and its margin, and appends the packet of the word that ends with it, if one
    /// does and has a phase.
    ///
    /// There is room for a packet, and fewer than 2^62 words were counted. In total at most 188 bytes are appended for
    /// every 204 taken.
    pub fn take(&mut self, byte: u8, margin: u32, to: &mut Vec<u8>)
        requires room { vec_len to.old + 188 ≤ vec_capacity to.old }
        requires few { self.old.counts.words < 2 ^ 62 }
        ensures capacity { vec_capacity to.new ≡ vec_capacity to.old }
        ensures amount { 204 * vec_len to.new + 188 * length self.new.margins.begun ≤ 204 * vec_len to.old
            + 188 * (length self.old.margins.begun + 1) }
        ensures words { self.new.counts.words ≤ self.old.counts.words + 1 }
        ensures took { (bytes margins given : List ℕ) (tally : RescueTally) → Stands self.old bytes margins given tally
            → Took self.new (bytes ++ byte ∷ []) (margins ++ margin ∷ []) given to.old.items to.new.items }
    {
        let ended = self.margins.put(margin);
        match self.outer.take_byte(byte) {
            None => {}
            Some(slot) => finish_known(
                ended,
                &mut self.outer,
                slot,
                &self.margins.word,
                &mut self.counts,
                to,
            ),
        }
    }

    /// The counts of the words so far.
    pub fn counts(&self) -> RescueCounts
        ensures { result ≡ self.now.counts }
    {
        self.counts
    }
}
