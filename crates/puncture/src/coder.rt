// Encoder and puncturer in one, a byte at a time.
ghost use Rattle.std.specs.Prelude.{◌≡◌, ◌+◌, ◌*◌, ◌<◌, ◌≤◌, ℕ, Bool, [], ◌++◌, length};
ghost use Rattle.spec_words.specs.Bits.{spelled};
ghost use Rattle.mode_set.specs.StreamTable.{steps_in_period};
ghost use Rattle.mode_set.specs.declared.modes.Rate.{Rate as AnyRate};
ghost use Rattle.puncture.specs.SentBits.{path_of, bits_from, sent_bits};
ghost use Rattle.puncture.specs.Steps.{sent_before, IsAtPath};

use crate::eight_steps::{Bits, bit_of};
use crate::periods::PeriodTable;
use bit_pack::{BitBuf, BitWord};
use conv_code::Encoder;
use mode_set::Rate;
use std::marker::Model;

// Appends bits one by one. There must be room for them.
fn push_few<const N: usize>(word: u16, count: u8, to: &mut BitBuf<N>)
    requires few { count ≤ 16 }
    requires room { length to.old + count ≤ 8 * N }
    ensures bits { to.new ≡ to.old ++ spelled count word }
    ensures amount { length to.new ≡ length to.old + count }
{
    let mut left = count;
    while left > 0 {
        left -= 1;
        to.push_bit(bit_of(word, left));
    }
}

// Appends bits, whole bytes first. There must be room for them.
fn push_bits<const N: usize>(bits: Bits, to: &mut BitBuf<N>)
    requires few { bits.count ≤ 16 }
    requires room { length to.old + bits.count ≤ 8 * N }
    ensures bits { to.new ≡ to.old ++ spelled bits.count bits.word }
    ensures amount { length to.new ≡ length to.old + bits.count }
{
    let mut left = bits.count;
    while left >= 8 {
        left -= 8;
        to.push_byte((bits.word >> left & 0xFF) as u8);
    }
    push_few(bits.word, left, to);
}

/// The inner code at one rate, a byte at a time: the encoder and its puncturer in one (EN 300 744, 4.3.3).
///
/// It is seen as its rate, the steps of the period that are done, and the encoder's register.
#[derive(Debug, Drop)]
pub struct PuncturedEncoder {
    encoder: Encoder,
    rate: Rate,
    place: u8,
    table: PeriodTable,
}

impl Model for PuncturedEncoder {
    ghost use Rattle.std.specs.Prelude.{◌<◌};
    ghost use Rattle.mode_set.specs.StreamTable.{steps_in_period};
    ghost use Rattle.puncture.specs.Steps.{Coder};
    ghost use Rattle.puncture.specs.Periods.{IsPeriodTable};

    ghost Value = { Coder };

    ghost view = { λ c. record { rate = c.rate; step = c.place; register = c.encoder } };

    ghost invariant = { λ c. (c.place < steps_in_period c.rate) × IsPeriodTable c.rate c.table.words c.table.ends };
}

impl PuncturedEncoder {
    /// The coder before the first byte of any stream: the register is six zeros.
    pub fn start(rate: Rate) -> PuncturedEncoder
        ensures at { (bytes : ℕ → ℕ) → IsAtPath result rate (path_of bytes) 0 }
        ensures none { (path : ℕ → Bool) → sent_bits rate path 0 (sent_before rate 0) ≡ [] }
    {
        PuncturedEncoder {
            encoder: Encoder::start(),
            rate,
            place: 0,
            table: PeriodTable::new(rate),
        }
    }

    // Codes a byte: what is sent of its eight steps.
    fn coded(&mut self, byte: u8) -> Bits
        ensures few { result.count ≤ 16 }
        ensures next { (r : AnyRate) (path : ℕ → Bool) (t : ℕ) → IsAtPath self.old r path t
            → spelled 8 byte ≡ bits_from path (t + 6) 8 → IsAtPath self.new r path (t + 8) }
        ensures sent { (r : AnyRate) (path : ℕ → Bool) (t : ℕ) → IsAtPath self.old r path t
            → spelled 8 byte ≡ bits_from path (t + 6) 8
            → spelled result.count result.word ≡ sent_bits r path (sent_before r t) (sent_before r (t + 8)) }
    {
        let (x, y) = self.encoder.step_byte(byte);
        let (bits, place) = self.table.punctured(self.rate, self.place, x, y);
        self.place = place;
        bits
    }

    /// Codes a byte, the most significant bit first, and appends what is sent of its eight steps, 8 to 16 bits. There
    /// must be room for sixteen.
    ///
    /// A queue that holds sent bits of the path goes on to hold them. `of_bytes` says so of byte `m` of a stream of
    /// bytes.
    pub fn push_byte<const N: usize>(&mut self, byte: u8, to: &mut BitBuf<N>)
        requires room { length to.old + 16 ≤ 8 * N }
        ensures few { length to.new ≤ length to.old + 16 }
        ensures next { (r : AnyRate) (path : ℕ → Bool) (t : ℕ) → IsAtPath self.old r path t
            → spelled 8 byte ≡ bits_from path (t + 6) 8 → IsAtPath self.new r path (t + 8) }
        ensures sent { (r : AnyRate) (path : ℕ → Bool) (t : ℕ) → IsAtPath self.old r path t
            → spelled 8 byte ≡ bits_from path (t + 6) 8
            → to.new ≡ to.old ++ sent_bits r path (sent_before r t) (sent_before r (t + 8)) }
        ensures holds { (r : AnyRate) (path : ℕ → Bool) (t a : ℕ) → IsAtPath self.old r path t
            → spelled 8 byte ≡ bits_from path (t + 6) 8
            → a ≤ sent_before r t → to.old ≡ sent_bits r path a (sent_before r t)
            → to.new ≡ sent_bits r path a (sent_before r (t + 8)) }
        ensures of_bytes { (r : AnyRate) (bytes : ℕ → ℕ) (m a : ℕ) → IsAtPath self.old r (path_of bytes) (8 * m) → byte
            ≡ bytes m
            → a ≤ sent_before r (8 * m) → to.old ≡ sent_bits r (path_of bytes) a (sent_before r (8 * m))
            → IsAtPath self.new r (path_of bytes) (8 * (m + 1))
            × (to.new ≡ sent_bits r (path_of bytes) a (sent_before r (8 * (m + 1)))) }
    {
        let bits = self.coded(byte);
        push_bits(bits, to);
    }

    /// Codes a byte as [`PuncturedEncoder::push_byte`] does, and appends what is sent of it to few bits in a word.
    /// There must be room for sixteen.
    pub fn push_byte_in_word(&mut self, byte: u8, to: &mut BitWord)
        requires room { length to.old + 16 ≤ 32 }
        ensures few { length to.new ≤ length to.old + 16 }
        ensures next { (r : AnyRate) (path : ℕ → Bool) (t : ℕ) → IsAtPath self.old r path t
            → spelled 8 byte ≡ bits_from path (t + 6) 8 → IsAtPath self.new r path (t + 8) }
        ensures sent { (r : AnyRate) (path : ℕ → Bool) (t : ℕ) → IsAtPath self.old r path t
            → spelled 8 byte ≡ bits_from path (t + 6) 8
            → to.new ≡ to.old ++ sent_bits r path (sent_before r t) (sent_before r (t + 8)) }
    {
        let bits = self.coded(byte);
        to.push_bits(bits.word, bits.count);
    }
}
