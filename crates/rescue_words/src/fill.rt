// The margins of the word that is being filled.
ghost use Rattle.std.specs.Prelude.{◌≡◌, ◌+◌, ◌*◌, ◌/◌, ◌%◌, ◌<◌, ◌↔◌, ℕ, List, [], ◌∷◌, ◌++◌, length, IfOk};
ghost use Rattle.std.specs.Prelude.{IsTrue, IsFalse};
ghost use Rattle.forney.specs.Values.{values, stream_of};
ghost use Rattle.forney.specs.Interleaving.{deinterleaved};
ghost use Rattle.rescue_words.specs.Carrying.{Holds, made_of};

use crate::lines::MarginLines;
use std::alloc::{AllocError, Global};

/// The last place of a word.
const LAST: usize = 203;

/// The margins of the word that is being filled, after their delay lines.
#[derive(Drop)]
pub(crate) struct MarginFill {
    pub(crate) lines: MarginLines,
    pub(crate) word: [u32; 204],
    pub(crate) filled: usize,
}

impl MarginFill {
    /// It has received no margin. The only error is lack of memory.
    pub(crate) fn new(alloc: Global) -> Result<MarginFill, AllocError>
        ensures empty { IfOk result (λ x. Holds (made_of x.lines x.word x.filled) []) }
        ensures filled { IfOk result (λ x. x.filled ≡ 0) }
        ensures long { IfOk result (λ x. length x.word ≡ 204) }
    {
        Ok(MarginFill {
            lines: MarginLines::new(alloc)?,
            word: [0; 204],
            filled: 0,
        })
    }

    /// Takes the margin of the next interleaved byte. Returns whether a word ends with it, whose margins `word` then
    /// has.
    pub(crate) fn put(&mut self, margin: u32) -> bool
        requires small { self.old.filled < 204 }
        requires long { length self.old.word ≡ 204 }
        ensures long { length self.new.word ≡ 204 }
        ensures small { self.new.filled < 204 }
        ensures holds { (margins : List ℕ) → Holds (made_of self.old.lines self.old.word self.old.filled) margins
            → Holds (made_of self.new.lines self.new.word self.new.filled) (margins ++ margin ∷ []) }
        ensures ends { (margins : List ℕ) → Holds (made_of self.old.lines self.old.word self.old.filled) margins
            → IsTrue result ↔ (length (margins ++ margin ∷ []) % 204 ≡ 0) }
        ensures word { (margins : List ℕ) → Holds (made_of self.old.lines self.old.word self.old.filled) margins
            → IsTrue result → self.new.word ≡ values (deinterleaved (stream_of (margins ++ margin ∷ [])))
            (204 * (length margins / 204)) 204 }
        ensures within { IsFalse result → self.new.filled ≡ self.old.filled + 1 }
        ensures ended { IsTrue result → (self.old.filled ≡ 203) × (self.new.filled ≡ 0) }
    {
        self.word[self.filled] = self.lines.step(margin);
        if self.filled < LAST {
            self.filled += 1;
            return false;
        }
        self.filled = 0;
        true
    }
}
