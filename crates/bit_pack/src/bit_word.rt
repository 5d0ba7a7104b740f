// A few bits in a word.
ghost use Rattle.std.specs.Prelude.{◌≡◌, ◌+◌, ◌<◌, ◌≤◌, ℕ, [], ◌++◌, length, IsNone, IfSome, ◌↔◌};
ghost use Rattle.spec_words.specs.Bits.{spelled};

use std::marker::Model;

/// A queue of at most 32 bits in one word, seen as their list, next bit first.
// The bits are the lowest `count` of `bits`, most significant first. Higher bits mean nothing.
#[derive(Drop)]
pub struct BitWord {
    bits: u32,
    count: u8,
}

impl Model for BitWord {
    ghost use Rattle.std.specs.Prelude.{Bool, List, ◌≤◌};
    ghost use Rattle.spec_words.specs.Bits.{spelled};

    ghost Value = { List Bool };

    ghost view = { λ b. spelled b.count b.bits };

    ghost invariant = { λ b. b.count ≤ 32 };
}

/// The lowest `places` bits of `low` below those of `high`.
fn joined(high: u32, low: u16, places: u8) -> u32
    requires places { places ≤ 16 }
    ensures { (n : ℕ) → n + places ≤ 32 → spelled (n + places) result ≡ spelled n high ++ spelled places low }
{
    (((high as u64) << places | low as u64 & (1 << places) - 1) & 0xFFFF_FFFF) as u32
}

impl BitWord {
    /// The empty queue.
    pub fn new() -> BitWord
        ensures empty { result ≡ [] }
    {
        BitWord { bits: 0, count: 0 }
    }

    /// The number of bits in the queue.
    pub fn waiting(&self) -> usize
        ensures number { result ≡ length self.now }
        ensures few { result ≤ 32 }
    {
        self.count as usize
    }

    /// Appends the lowest `count` bits of a word, at most sixteen, most significant first. There must be room for them.
    pub fn push_bits(&mut self, word: u16, count: u8)
        requires few { count ≤ 16 }
        requires room { length self.old + count ≤ 32 }
        ensures bits { self.new ≡ self.old ++ spelled count word }
        ensures amount { length self.new ≡ length self.old + count }
    {
        self.bits = joined(self.bits, word, count);
        self.count += count;
    }

    /// Removes the first eight bits and returns them as a byte, first bit most significant; None exactly if there are
    /// fewer than eight, and then nothing changes.
    pub fn take_byte(&mut self) -> Option<u8>
        ensures none { IsNone result ↔ (length self.old < 8) }
        ensures unchanged { IsNone result → self.new ≡ self.old }
        ensures taken { IfSome result (λ b. self.old ≡ spelled 8 b ++ self.new) }
        ensures amount { IfSome result (λ b. length self.old ≡ length self.new + 8) }
    {
        if self.count < 8 {
            return None;
        }
        self.count -= 8;
        Some((self.bits >> self.count & 0xFF) as u8)
    }
}
