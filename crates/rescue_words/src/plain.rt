// The margins of whole words, one list for each word: the program of the definition.
ghost use Rattle.std.specs.Prelude.{◌≡◌, ◌+◌, ◌*◌, ◌/◌, ◌%◌, ◌↔◌, ℕ, List, [], ◌∷◌, ◌++◌, length, IfOk};
ghost use Rattle.std.specs.Prelude.{IfSome, IsSome, IsNone};
ghost use Rattle.forney.specs.Values.{values, stream_of};
ghost use Rattle.forney.specs.Interleaving.{deinterleaved};
ghost use Rattle.rescue_words.specs.Carrying.{Holds};

use crate::lines::MarginLines;
use std::alloc::{AllocError, Global};
use std::marker::Model;

/// The last place of a word.
const LAST: usize = 203;

/// Takes the margins of interleaved bytes, and returns those of each word of 204 deinterleaved bytes, including the
/// words of the start-up. The state matches the margins received.
#[derive(Drop)]
pub struct MarginRx {
    lines: MarginLines,
    word: [u32; 204],
    filled: usize,
}

impl Model for MarginRx {
    ghost use Rattle.std.specs.Prelude.{◌<◌, take};
    ghost use Rattle.rescue_words.specs.Carrying.{MarginState};

    ghost Value = { MarginState };

    ghost view = { λ x. record { lines = x.lines; begun = take x.filled x.word } };

    ghost invariant = { λ x. x.filled < 204 };
}

impl MarginRx {
    /// It has received no margin. The only error is lack of memory.
    pub fn new(alloc: Global) -> Result<MarginRx, AllocError>
        ensures empty { IfOk result (λ x. Holds x []) }
        ensures begun { IfOk result (λ x. x.begun ≡ []) }
    {
        Ok(MarginRx {
            lines: MarginLines::new(alloc)?,
            word: [0; 204],
            filled: 0,
        })
    }

    /// Takes the margin of the next interleaved byte. Returns the margins of the word that ends with it, exactly if one
    /// does.
    pub fn take(&mut self, margin: u32) -> Option<[u32; 204]>
        ensures holds { (margins : List ℕ) → Holds self.old margins → Holds self.new (margins ++ margin ∷ []) }
        ensures ends { (margins : List ℕ) → Holds self.old margins
            → IsSome result ↔ (length (margins ++ margin ∷ []) % 204 ≡ 0) }
        ensures word { (margins : List ℕ) → Holds self.old margins
            → IfSome result (λ w. w ≡ values (deinterleaved (stream_of (margins ++ margin ∷ [])))
            (204 * (length margins / 204)) 204) }
        ensures within { IsNone result → length self.new.begun ≡ length self.old.begun + 1 }
        ensures ended { IfSome result (λ w. (length self.old.begun ≡ 203) × (length self.new.begun ≡ 0)) }
    {
        self.word[self.filled] = self.lines.step(margin);
        if self.filled < LAST {
            self.filled += 1;
            return None;
        }
        self.filled = 0;
        Some(self.word)
    }
}
