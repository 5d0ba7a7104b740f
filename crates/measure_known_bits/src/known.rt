// The known bits of a stream.
ghost use Rattle.std.specs.Prelude.{◌≡◌, ◌≢◌, ◌+◌, ◌*◌, ◌<◌, ◌≤◌, ◌^◌, ◌↔◌, ◌⊎◌, ◌&&◌, ◌||◌, [], ◌∷◌, ◌++◌, ℕ, List};
ghost use Rattle.std.specs.Prelude.{Bool, not, nat_le, IfOk, IsTrue, length, take, drop};
ghost use Rattle.spec_words.specs.Bits.{spelled};
ghost use Rattle.mode_set.specs.declared.modes.Stream.{Stream as AnyStream};
ghost use Rattle.mode_set.specs.declared.settings.Settings.{Settings as AnySettings};
ghost use Rattle.inner_chain.specs.Labels.{register_of};
ghost use Rattle.measure_known_bits.specs.Passing.{HasPassed, IsSettled};

use crate::moving::{BYTES, move_bits, skip_bits};
use bit_pack::{BitBuf, WaitBuf};
use inner_chain::InnerTx;
use mode_set::{Carriers, Stream};
use std::alloc::{AllocError, Global};
use std::marker::Model;

/// The known bits of a stream that its encoder has not passed: at most those of four of the largest symbols.
#[derive(Drop)]
pub struct KnownBits {
    waiting: Box<BitBuf<BYTES>>,
    lag: u64,
    before: u64,
}

impl Model for KnownBits {
    ghost use Rattle.std.specs.Prelude.{◌≤◌};
    ghost use Rattle.measure_known_bits.specs.Seen.{KnownState};

    ghost Value = { KnownState };

    ghost view = { λ k. record { waiting = k.waiting.value; lag = k.lag; before = k.before } };

    ghost invariant = { λ k. k.lag ≤ k.before };
}

impl KnownBits {
    /// No bit is known. The only error is want of memory.
    pub fn new(alloc: Global) -> Result<Self, AllocError>
        ensures none { IfOk result (λ k. k ≡ record { waiting = []; lag = 0; before = 0 }) }
    {
        Ok(KnownBits {
            waiting: Box::new(alloc, BitBuf::new())?,
            lag: 0,
            before: 0,
        })
    }

    /// Takes a known bit more. Fewer than 127,008 wait.
    pub fn push_bit(&mut self, bit: bool)
        requires room { length self.old.waiting < 127008 }
        ensures pushed { self.new ≡ record self.old { waiting = self.old.waiting ++ bit ∷ [] } }
    {
        self.waiting.push_bit(bit);
    }

    /// Takes eight known bits more, the most significant of the byte first. At most 127,000 wait.
    pub fn push_byte(&mut self, byte: u8)
        requires room { length self.old.waiting ≤ 127000 }
        ensures pushed { self.new ≡ record self.old { waiting = self.old.waiting ++ spelled 8 byte } }
    {
        self.waiting.push_byte(byte);
    }

    /// Moves the stream's encoder on to the next symbol, as far as bits are known.
    pub fn pass_by<M: Carriers>(&mut self, stream: Stream, coder: &mut InnerTx<M>)
        ensures settings { coder.new.settings ≡ coder.old.settings }
        ensures settled { IsSettled self.new }
        ensures before { self.new.before ≡ self.old.before }
        ensures lag { self.new.lag ≤ self.new.before }
        ensures long { length (register_of coder.old stream) ≡ 6 → length (register_of coder.new stream) ≡ 6 }
        ensures few { length self.new.waiting ≤ length self.old.waiting }
        ensures other { (σ : AnyStream) → σ ≢ stream → register_of coder.new σ ≡ register_of coder.old σ }
        ensures passed { (s : AnySettings) (m : ℕ) (known : List Bool)
            → HasPassed s stream m self.old (register_of coder.old stream) known
            → HasPassed s stream m self.new (register_of coder.new stream) known }
    {
        let count = self.lag.min(self.waiting.waiting() as u64);
        skip_bits(&mut self.waiting, stream, coder, count as usize);
        self.lag -= count;
    }

    /// Is the next symbol without the stream, or do the known bits reach to the end of its steps, and is the register
    /// before them known?
    pub fn suffices(&self, present: bool, steps: u32, zero: bool) -> bool
        requires lag { self.now.lag < 2 ^ 60 }
        ensures result { result ≡ (not present || (nat_le (self.now.lag + steps) (length self.now.waiting) &&
            (zero || nat_le 6 self.now.before))) }
    {
        !present
            || (self.lag + steps as u64 <= self.waiting.waiting() as u64
                && (zero || self.before >= 6))
    }

    /// Takes the bits of the next symbol, one for each of its steps.
    pub fn take_symbol(&mut self, steps: u32, to: &mut WaitBuf)
        requires enough { steps ≤ length self.old.waiting }
        requires few { steps ≤ 31752 }
        requires none { to.old ≡ [] }
        requires before { self.old.before < 2 ^ 60 }
        ensures taken { to.new ≡ take steps self.old.waiting }
        ensures left { self.new ≡ record self.old {
          waiting = drop steps self.old.waiting;
          before = self.old.before +
              steps;
        } }
    {
        move_bits(&mut self.waiting, to, steps as usize);
        self.before += steps as u64;
    }

    /// Leaves out the next symbol, of `steps` steps.
    pub fn leave_out(&mut self, steps: u32)
        requires before { self.old.before < 2 ^ 60 }
        requires lag { self.old.lag < 2 ^ 60 }
        ensures left { self.new ≡ record self.old { lag = self.old.lag + steps; before = self.old.before + steps } }
    {
        self.lag += steps as u64;
        self.before += steps as u64;
    }
}
