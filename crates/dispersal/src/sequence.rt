// The shift register that generates the pseudo-random sequence.
ghost use Rattle.std.specs.Prelude.{◌≡◌, ◌<◌, ◌+◌, ◌*◌, ℕ};
ghost use Rattle.dispersal.specs.Sequence.{sequence_byte, shifted};

use std::marker::Model;

/// The shift register of energy dispersal, which generates the sequence byte by byte.
///
/// Contracts see it as the number of the next byte.
#[derive(Drop)]
pub struct Sequence {
    next: u16,
    register: u16,
}

impl Model for Sequence {
    ghost use Rattle.std.specs.Prelude.{◌≡◌, ◌<◌, ◌*◌, ℕ};
    ghost use Rattle.dispersal.specs.Sequence.{spelled};

    ghost Value = { ℕ };

    ghost view = { λ s. s.next };

    ghost invariant = { λ s. s.register ≡ spelled 15 (8 * s.next) };
}

// One step of the register: the sum of the two oldest bits becomes the newest.
fn step(register: u16) -> u16
    requires { register < 32768 }
    ensures step { result ≡ shifted register }
    ensures fits { result < 32768 }
{
    let oldest = register >> 14;
    let next = (register >> 13) & 1;
    ((register & 0x3FFF) << 1) | (oldest ^ next)
}

impl Sequence {
    /// The register before the sequence's first byte: 100101010000000, newest bit first.
    pub fn start() -> Sequence
        ensures start { result ≡ 0 }
    {
        Sequence {
            next: 0,
            register: 0xA9,
        }
    }

    /// The next byte of the sequence, first bit most significant. Fewer than 65,535 bytes were taken before.
    pub fn next_byte(&mut self) -> u8
        requires { self.old < 65535 }
        ensures byte { result ≡ sequence_byte self.old }
        ensures next { self.new ≡ self.old + 1 }
    {
        let mut register = self.register;
        for _ in 0..8u16 {
            register = step(register);
        }
        self.register = register;
        self.next += 1;
        (register & 0xFF) as u8
    }
}
