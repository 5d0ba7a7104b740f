// Received words.

ghost use Rattle.std.specs.Prelude.{◌≡◌, ◌≢◌, ℕ, List, Some};
ghost use Rattle.rs204.specs.Decoded.{Decoded};
ghost use Rattle.outer_chain.specs.Words.{IsNear};

use rs204::{Outcome, decode};

/// A received word of 204 bytes and what became of it, which is `Bad` until it is decoded.
#[derive(Drop)]
pub struct WordSlot {
    /// The word as it was received, or the nearest codeword once it is decoded.
    pub word: [u8; 204],
    /// The outcome of decoding the word.
    pub outcome: Outcome,
}

impl WordSlot {
    /// Replaces the word by its nearest codeword, if there is one, and records the outcome.
    pub fn decode(&mut self)
        ensures decoded { Decoded self.old.word self.new.word self.new.outcome }
        ensures nearest { (near : List ℕ) → IsNear self.old.word (Some near) → self.new.word ≡ near }
        ensures not_bad { (near : List ℕ) → IsNear self.old.word (Some near) → self.new.outcome ≢ Outcome.Bad }
    {
        self.outcome = decode(&mut self.word);
    }
}
