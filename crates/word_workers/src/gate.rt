// The gate that each piece of work enters before it begins.
ghost use Rattle.std.specs.Prelude.{ℕ, Bool, IsTrue, true};

use std::marker::Sync;

/// Work that is done in pieces.
#[derive(Clone, Copy, Debug, Drop, PartialEq, Eq)]
pub enum Job {
    /// Outer words.
    Outer,
    /// The inner decoders of the two streams.
    Inner,
}

/// A gate that each piece of work enters before it begins. It does not affect the work.
pub trait Gate: Sync {
    ghost use Rattle.word_workers.specs.declared.gate.Job.{Job};

    /// Whether this piece of this work has entered. It says nothing of the gate itself: only `enter` ensures it, so a
    /// promise of it for a piece proves a call of `enter` with the number of that piece.
    ghost has_entered: { Self → Job → ℕ → Bool };

    /// Called by the thread that does a piece, before it does it: for outer words with the number of the word, for
    /// inner decoders with 0 for HP and 1 for LP.
    fn enter(&self, job: Job, piece: u32)
        ensures entered { IsTrue (has_entered self.now job piece) };
}

/// A gate that never blocks.
#[derive(Clone, Copy, Debug, Drop)]
pub struct OpenGate;

impl Gate for OpenGate {
    ghost has_entered = { λ _ _ _. true };

    fn enter(&self, _job: Job, _piece: u32) {}
}
