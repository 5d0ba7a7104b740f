//! The outer interleaver and what undoes it (EN 300 744, 4.3.2): convolutional, of depth 12.
//!
//! Byte p of a stream goes through branch p mod 12, which delays by that many times 17 of the
//! branch's own bytes, that is by as many words of 204 bytes; the deinterleaver's branches delay by
//! what is missing from eleven. The delay lines are full of zeros at the start.
#![tactic(auto)]

ghost use Rattle.std.specs.Prelude.{◌≡◌, ℕ, List, [], ◌∷◌, ◌++◌, length, IfOk};
ghost use Rattle.forney.specs.Values.{stream_of};
ghost use Rattle.forney.specs.Interleaving.{deinterleaved};
ghost use Rattle.forney.specs.Delays.{Deinterleaves};
ghost use Rattle.forney.specs.Laws.{ElevenWords, ElevenWordsOfBytes, FirstInterleaved, FirstDeinterleaved};

mod lines;
mod plain;
mod word_interleaver;

use lines::Lines;
pub use plain::Interleaver;
use std::alloc::{AllocError, Global};
use std::marker::Model;
pub use word_interleaver::WordInterleaver;

// The lengths of the branches, in bytes of each.
const FALLING: [usize; 12] = [187, 170, 153, 136, 119, 102, 85, 68, 51, 34, 17, 0];

/// Puts interleaved bytes back in order. It stands for those that it has had.
#[derive(Drop)]
pub struct Deinterleaver {
    lines: Lines,
}

impl Model for Deinterleaver {
    ghost use Rattle.forney.specs.Delays.{Delays};

    ghost Value = { Delays };

    ghost view = { λ d. record { lines = d.lines.lines.items; next = d.lines.next } };
}

impl Deinterleaver {
    /// A deinterleaver that has had no byte. The only error is want of memory.
    pub fn new(alloc: Global) -> Result<Deinterleaver, AllocError>
        ensures empty { IfOk result (λ d. Deinterleaves d []) }
    {
        Ok(Deinterleaver {
            lines: Lines::new(alloc, &FALLING)?,
        })
    }

    /// Takes the next interleaved byte, and gives the next deinterleaved one.
    pub fn step(&mut self, byte: u8) -> u8
        ensures given { (bytes : List ℕ) → Deinterleaves self.old bytes → result
            ≡ deinterleaved (stream_of (bytes ++ byte ∷ [])) (length bytes) }
        ensures stands { (bytes : List ℕ) → Deinterleaves self.old bytes → Deinterleaves self.new (bytes ++ byte ∷ []) }
    {
        self.lines.step(byte)
    }
}

/// Both interleavers together delay by eleven words: byte p comes out as byte p + 2244.
pub fn eleven_words()
    ensures streams { ElevenWords }
    ensures bytes { ElevenWordsOfBytes }
{}

/// What is interleaved or deinterleaved depends on no later byte, so streams and their beginnings agree.
pub fn beginnings()
    ensures interleaved { FirstInterleaved }
    ensures deinterleaved { FirstDeinterleaved }
{}
