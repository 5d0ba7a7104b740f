// The encoder, and the coded bits of a branch of the trellis.
ghost use Rattle.std.specs.Prelude.{◌≡◌, ◌+◌, ◌<◌, ◌^◌, ℕ, Bool, List, [], ◌∷◌, ◌++◌, drop};
ghost use Rattle.spec_words.specs.Bits.{is_set, xor, spelled};
ghost use Rattle.code_paths.specs.Paths.{parity_x, parity_y};
ghost use Rattle.code_paths.specs.States.{register};
ghost use Rattle.conv_code.specs.Coded.{xs_of, ys_of, zeros, IsAfter, Codes};

use std::marker::Model;

/// Bit `place` of a number, bit 0 being the lowest.
fn bit_of(number: u8, place: u8) -> bool
    requires { place < 8 }
    ensures { result ≡ is_set number place }
{
    (number >> place) & 1 == 1
}

/// X and Y of the step from a state on an input bit.
///
/// A state is the register as a number below 64: bit 5 is the newest bit, bit 0 the oldest, so the input u leads from
/// state s to `32u + s / 2`.
pub fn branch(state: u8, bit: bool) -> (bool, bool)
    requires state { state < 64 }
    ensures x { result.0 ≡ parity_x (register state ++ bit ∷ []) }
    ensures y { result.1 ≡ parity_y (register state ++ bit ∷ []) }
{
    let [last, before, third] = [bit_of(state, 5), bit_of(state, 4), bit_of(state, 3)];
    let [fifth, sixth] = [bit_of(state, 1), bit_of(state, 0)];
    let x = bit ^ (last ^ (before ^ (third ^ sixth)));
    let y = bit ^ (before ^ (third ^ (fifth ^ sixth)));
    (x, y)
}

/// The X bits of all inputs in a word; bit 0 is the newest.
fn taps_x(inputs: u16) -> u16
    ensures { (k : ℕ) → k < 8 → is_set result k ≡ xor (is_set inputs k) (xor (is_set inputs (k + 1))
        (xor (is_set inputs (k + 2)) (xor (is_set inputs (k + 3)) (is_set inputs (k + 6))))) }
{
    inputs ^ (inputs >> 1 ^ (inputs >> 2 ^ (inputs >> 3 ^ inputs >> 6)))
}

/// The Y bits of all inputs in a word; bit 0 is the newest.
fn taps_y(inputs: u16) -> u16
    ensures { (k : ℕ) → k < 8 → is_set result k ≡ xor (is_set inputs k) (xor (is_set inputs (k + 2))
        (xor (is_set inputs (k + 3)) (xor (is_set inputs (k + 5)) (is_set inputs (k + 6))))) }
{
    inputs ^ (inputs >> 2 ^ (inputs >> 3 ^ (inputs >> 5 ^ inputs >> 6)))
}

/// The register followed by an input bit.
fn with_bit(register: u8, bit: bool) -> u16
    requires { register < 64 }
    ensures { spelled 7 result ≡ spelled 6 register ++ bit ∷ [] }
{
    (register as u16) << 1 | bit as u16
}

/// The register followed by the eight inputs of a byte.
fn with_byte(register: u8, byte: u8) -> u16
    requires { register < 64 }
    ensures { spelled 14 result ≡ spelled 6 register ++ spelled 8 byte }
{
    (register as u16) << 8 | byte as u16
}

/// The encoder of the inner code. Contracts see its register, oldest bit first.
///
/// It matches a path, the register before the first bit followed by the input bits: its register is the last six bits
/// of the path, and each coded bit is a parity of bits of the path.
#[derive(Debug, Drop)]
pub struct Encoder {
    // the oldest bit is bit 5
    register: u8,
}

impl Model for Encoder {
    ghost use Rattle.std.specs.Prelude.{Bool, List, ◌<◌};
    ghost use Rattle.spec_words.specs.Bits.{spelled};

    ghost Value = { List Bool };

    ghost view = { λ e. spelled 6 e.register };

    ghost invariant = { λ e. e.register < 64 };
}

impl Encoder {
    /// The encoder before the first bit: its register is six zeros.
    pub fn start() -> Encoder
        ensures register { result ≡ zeros }
        ensures path { IsAfter result zeros }
    {
        Encoder { register: 0 }
    }

    /// Takes a bit, and returns its X and its Y.
    pub fn step(&mut self, bit: bool) -> (bool, bool)
        ensures x { result.0 ≡ parity_x (self.old ++ bit ∷ []) }
        ensures y { result.1 ≡ parity_y (self.old ++ bit ∷ []) }
        ensures register { self.new ≡ drop 1 (self.old ++ bit ∷ []) }
        ensures path { (p : List Bool) → IsAfter self.old p → Codes p (bit ∷ []) (result.0 ∷ []) (result.1 ∷ [])
            self.new }
    {
        let inputs = with_bit(self.register, bit);
        self.register = (inputs & 63) as u8;
        (taps_x(inputs) & 1 == 1, taps_y(inputs) & 1 == 1)
    }

    /// Takes the eight bits of a byte, most significant first, and returns their X and their Y, each in a byte in the
    /// same order.
    pub fn step_byte(&mut self, byte: u8) -> (u8, u8)
        ensures x { spelled 8 result.0 ≡ xs_of 8 (self.old ++ spelled 8 byte) }
        ensures y { spelled 8 result.1 ≡ ys_of 8 (self.old ++ spelled 8 byte) }
        ensures register { self.new ≡ drop 8 (self.old ++ spelled 8 byte) }
        ensures path { (p : List Bool) → IsAfter self.old p → Codes p (spelled 8 byte) (spelled 8 result.0) (spelled 8
            result.1) self.new }
    {
        let inputs = with_byte(self.register, byte);
        self.register = byte & 63;
        ((taps_x(inputs) & 0xFF) as u8, (taps_y(inputs) & 0xFF) as u8)
    }

    /// Takes the eight bits of a byte, the most significant first, and answers the inputs of their steps: the register
    /// before them, then the eight bits, the oldest one the most significant of fourteen.
    pub fn push_byte(&mut self, byte: u8) -> u16
        ensures inputs { spelled 14 result ≡ self.old ++ spelled 8 byte }
        ensures register { self.new ≡ drop 8 (self.old ++ spelled 8 byte) }
    {
        let inputs = with_byte(self.register, byte);
        self.register = byte & 63;
        inputs
    }
}
