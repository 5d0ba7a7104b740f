// A gate at which pieces of work wait for each other.
ghost use Rattle.std.specs.Prelude.{true};

use std::sync::atomic::{AtomicBool, Ordering};
use word_workers::{Gate, Job};

/// Two flags of a job, which stay set: piece 0 was there, and another piece was. The third one says that a piece gave
/// up waiting.
#[derive(Drop)]
pub struct Flags {
    first: AtomicBool,
    other: AtomicBool,
    tired: AtomicBool,
}

// Sets the flag, and spins until the other one is set.
fn meet(own: &AtomicBool, awaited: &AtomicBool, tired: &AtomicBool) {
    own.store(true, Ordering::SeqCst);
    for _turn in 0..1_000_000_000u64 {
        if awaited.load(Ordering::SeqCst) {
            return;
        }
    }
    tired.store(true, Ordering::SeqCst);
}

impl Flags {
    fn new() -> Flags {
        Flags {
            first: AtomicBool::new(false),
            other: AtomicBool::new(false),
            tired: AtomicBool::new(false),
        }
    }

    fn enter(&self, piece: u32) {
        if piece == 0 {
            meet(&self.first, &self.other, &self.tired);
        } else {
            meet(&self.other, &self.first, &self.tired);
        }
    }

    /// Whether any piece was there.
    pub fn seen(&self) -> bool {
        self.first.load(Ordering::SeqCst) || self.other.load(Ordering::SeqCst)
    }

    /// Whether piece 0 and another one were there, and none gave up waiting.
    pub fn have_met(&self) -> bool {
        self.first.load(Ordering::SeqCst)
            && self.other.load(Ordering::SeqCst)
            && !self.tired.load(Ordering::SeqCst)
    }
}

/// A gate at which piece 0 of a job and another piece wait for each other.
#[derive(Drop)]
pub struct Meeting {
    /// Those of the outer words.
    pub outer: Flags,
    /// Those of the inner decoders.
    pub inner: Flags,
}

impl Meeting {
    /// A gate where no piece has been.
    pub fn new() -> Meeting {
        Meeting {
            outer: Flags::new(),
            inner: Flags::new(),
        }
    }
}

impl Gate for Meeting {
    ghost has_entered = { λ _ _ _. true };

    fn enter(&self, job: Job, piece: u32) {
        match job {
            Job::Outer => self.outer.enter(piece),
            Job::Inner => self.inner.enter(piece),
        }
    }
}
