// What is sent of eight steps, one step after another.
ghost use Rattle.std.specs.Prelude.{◌≡◌, ◌+◌, ◌<◌, ◌≤◌, ◌%◌, ℕ, [], ◌∷◌, ◌++◌};
ghost use Rattle.spec_words.specs.Bits.{is_set, spelled};
ghost use Rattle.mode_set.specs.StreamTable.{steps_in_period};
ghost use Rattle.puncture.specs.Steps.{bits_sent, bits_of_steps, has_x, has_y};

use crate::Sent;
use crate::rule::{next_place, sent_in_place};
use mode_set::Rate;

// Bit `place` of a number, bit 0 being the lowest.
pub(crate) fn bit_of(number: u16, place: u8) -> bool
    requires { place < 16 }
    ensures { result ≡ is_set number place }
{
    (number >> place) & 1 == 1
}

// A word moved up by one place, and a bit in the place that becomes free.
fn with_bit(word: u16, bit: bool) -> u16
    ensures { (n : ℕ) → n < 16 → spelled (n + 1) result ≡ spelled n word ++ bit ∷ [] }
{
    word << 1 | bit as u16
}

// The lowest bits of a word, as many as `count`.
#[derive(Clone, Copy)]
pub(crate) struct Bits {
    pub word: u16,
    pub count: u8,
}

// The bits, and after them what is sent of a step.
fn with_sent(bits: Bits, sent: Sent, x: bool, y: bool) -> Bits
    requires room { bits.count ≤ 14 }
    ensures bits { spelled result.count result.word ≡ spelled bits.count bits.word
        ++ bits_sent (has_x sent) (has_y sent) x y }
    ensures few { result.count ≤ bits.count + 2 }
{
    match sent {
        Sent::Both => Bits {
            word: with_bit(with_bit(bits.word, x), y),
            count: bits.count + 2,
        },
        Sent::OnlyX => Bits {
            word: with_bit(bits.word, x),
            count: bits.count + 1,
        },
        Sent::OnlyY => Bits {
            word: with_bit(bits.word, y),
            count: bits.count + 1,
        },
    }
}

// What is sent of eight steps, and the place in the period after them, step by step.
pub(crate) fn punctured(rate: Rate, start: u8, x: u8, y: u8) -> (Bits, u8)
    requires { start < steps_in_period rate }
    ensures bits { (t : ℕ) → start ≡ t % steps_in_period rate → spelled result.0.count result.0.word
        ≡ bits_of_steps rate t (spelled 8 x) (spelled 8 y) }
    ensures few { result.0.count ≤ 16 }
    ensures within { result.1 < steps_in_period rate }
    ensures next { (t : ℕ) → start ≡ t % steps_in_period rate → result.1 ≡ (t + 8) % steps_in_period rate }
{
    let mut bits = Bits { word: 0, count: 0 };
    let mut place = start;
    for step in 0..8u8 {
        let sent = sent_in_place(rate, place);
        bits = with_sent(
            bits,
            sent,
            bit_of(x as u16, 7 - step),
            bit_of(y as u16, 7 - step),
        );
        place = next_place(rate, place);
    }
    (bits, place)
}
