// The deinterleaver of margins.
ghost use Rattle.std.specs.Prelude.{◌≡◌, ◌<◌, ◌^◌, ℕ, List, [], ◌∷◌, ◌++◌, length, IfOk};
ghost use Rattle.forney.specs.Values.{stream_of};
ghost use Rattle.forney.specs.Interleaving.{deinterleaved};
ghost use Rattle.rescue_words.specs.Carrying.{Carries, first_byte, second_byte, third_byte, fourth_byte};

use forney::Deinterleaver;
use std::alloc::{AllocError, Global};
use std::marker::Model;

/// Puts the margins of interleaved bytes in the order of the deinterleaved ones (EN 300 744, 4.3.2). Each of the four
/// bytes of a margin has a deinterleaver of its own. The state matches the margins received.
#[derive(Drop)]
pub struct MarginLines {
    first: Deinterleaver,
    second: Deinterleaver,
    third: Deinterleaver,
    fourth: Deinterleaver,
}

impl Model for MarginLines {
    ghost use Rattle.rescue_words.specs.Carrying.{MarginDelays};

    ghost Value = { MarginDelays };

    ghost view = { λ x. record { first = x.first; second = x.second; third = x.third; fourth = x.fourth } };
}

/// The four bytes of a margin, lowest first.
fn bytes_of_margin(margin: u32) -> (u8, u8, u8, u8)
    ensures first { result.0 ≡ first_byte margin }
    ensures second { result.1 ≡ second_byte margin }
    ensures third { result.2 ≡ third_byte margin }
    ensures fourth { result.3 ≡ fourth_byte margin }
    ensures small { margin < 2 ^ 32 }
{
    (
        (margin % 0x100) as u8,
        (margin / 0x100 % 0x100) as u8,
        (margin / 0x1_0000 % 0x100) as u8,
        (margin / 0x100_0000 % 0x100) as u8,
    )
}

impl MarginLines {
    /// Lines that have received no margin. The only error is lack of memory.
    pub fn new(alloc: Global) -> Result<MarginLines, AllocError>
        ensures empty { IfOk result (λ x. Carries x []) }
    {
        Ok(MarginLines {
            first: Deinterleaver::new(alloc)?,
            second: Deinterleaver::new(alloc)?,
            third: Deinterleaver::new(alloc)?,
            fourth: Deinterleaver::new(alloc)?,
        })
    }

    /// Takes the margin of the next interleaved byte, and returns that of the next deinterleaved one.
    pub fn step(&mut self, margin: u32) -> u32
        ensures given { (margins : List ℕ) → Carries self.old margins → result
            ≡ deinterleaved (stream_of (margins ++ margin ∷ [])) (length margins) }
        ensures stands { (margins : List ℕ) → Carries self.old margins → Carries self.new (margins ++ margin ∷ []) }
    {
        let (first, second, third, fourth) = bytes_of_margin(margin);
        let first = self.first.step(first);
        let second = self.second.step(second);
        let third = self.third.step(third);
        let fourth = self.fourth.step(fourth);
        first as u32 + second as u32 * 0x100 + third as u32 * 0x1_0000 + fourth as u32 * 0x100_0000
    }
}
