// The outer interleaver byte by byte: the definition's program, which tests run beside the faster one over whole words.
ghost use Rattle.std.specs.Prelude.{◌≡◌, ℕ, List, [], ◌∷◌, ◌++◌, length, IfOk};
ghost use Rattle.forney.specs.Values.{stream_of};
ghost use Rattle.forney.specs.Interleaving.{interleaved};
ghost use Rattle.forney.specs.Delays.{Interleaves};

use crate::lines::Lines;
use std::alloc::{AllocError, Global};
use std::marker::Model;

// The lengths of the branches, in bytes of each.
const RISING: [usize; 12] = [0, 17, 34, 51, 68, 85, 102, 119, 136, 153, 170, 187];

/// Interleaves coded bytes. It stands for those that it has had.
#[derive(Drop)]
pub struct Interleaver {
    lines: Lines,
}

impl Model for Interleaver {
    ghost use Rattle.forney.specs.Delays.{Delays};

    ghost Value = { Delays };

    ghost view = { λ d. record { lines = d.lines.lines.items; next = d.lines.next } };
}

impl Interleaver {
    /// An interleaver that has had no byte. The only error is want of memory.
    pub fn new(alloc: Global) -> Result<Interleaver, AllocError>
        ensures empty { IfOk result (λ i. Interleaves i []) }
    {
        Ok(Interleaver {
            lines: Lines::new(alloc, &RISING)?,
        })
    }

    /// Takes the next coded byte, and gives the next interleaved one.
    pub fn step(&mut self, byte: u8) -> u8
        ensures given { (coded : List ℕ) → Interleaves self.old coded → result
            ≡ interleaved (stream_of (coded ++ byte ∷ [])) (length coded) }
        ensures stands { (coded : List ℕ) → Interleaves self.old coded → Interleaves self.new (coded ++ byte ∷ []) }
    {
        self.lines.step(byte)
    }
}
