// The fields of a TPS word as digits, and back (EN 300 744, 4.6.2).
ghost use Rattle.std.specs.Prelude.{◌≡◌, ◌+◌, ◌^◌, ◌<◌, ◌≤◌, ◌++◌, length, take};
ghost use Rattle.spec_words.specs.Bits.{digits, spelled};
ghost use Rattle.tps_word.specs.Tps.{sync_word, length_bits, shape_bits, hierarchy_bits, rate_bits, guard_bits};
ghost use Rattle.tps_word.specs.Tps.{mode_bits};
ghost use Rattle.tps_word.specs.Number.{number_of, shape_numbered, hierarchy_numbered, rate_numbered, guard_numbered};
ghost use Rattle.tps_word.specs.Number.{mode_numbered};

use mode_set::{Guard, Hierarchy, Mode, Rate, Shape};

/// Writes a string of digits after the first `at` bits, and returns where it ends.
pub(crate) fn put(bits: &mut [bool], at: usize, text: &[u8]) -> usize
    requires { at + length text.now ≤ length bits.old }
    ensures end { result ≡ at + length text.now }
    ensures front { take result bits.new ≡ take at bits.old ++ digits text.now }
{
    for (i, digit) in text.iter().enumerate() {
        bits[at + i] = *digit == b'1';
    }
    at + text.len()
}

/// Writes a number in `width` digits after the first `at` bits, and returns where it ends.
pub(crate) fn put_number(bits: &mut [bool], at: usize, width: usize, number: u8) -> usize
    requires width { width ≤ 8 }
    requires room { at + width ≤ length bits.old }
    ensures end { result ≡ at + width }
    ensures front { take result bits.new ≡ take at bits.old ++ spelled width number }
{
    for i in 0..width {
        bits[at + i] = number >> (width - 1 - i) & 1 == 1;
    }
    at + width
}

/// The number of a list of bits, most significant first.
pub(crate) fn number(bits: &[bool]) -> u8
    requires { length bits.now ≤ 8 }
    ensures value { result ≡ number_of bits.now }
    ensures small { result < 2 ^ length bits.now }
{
    let mut number = 0;
    for bit in bits {
        number = 2 * number + u8::from(*bit);
    }
    number
}

/// s1 to s16.
#[tactic(auto, unfolding(crate::specs::Tps::sync_word))]
pub(crate) fn sync_digits(frame: u8) -> &'static [u8; 16]
    ensures { digits result.now ≡ sync_word frame }
{
    if frame % 2 == 1 {
        b"0011010111101110"
    } else {
        b"1100101000010001"
    }
}

/// s17 to s22.
#[tactic(auto, unfolding(crate::specs::Tps::length_bits))]
pub(crate) fn length_digits(with_cell: bool) -> &'static [u8; 6]
    ensures { digits result.now ≡ length_bits with_cell }
{
    if with_cell { b"011111" } else { b"010111" }
}

/// s25, s26.
#[tactic(auto, unfolding(crate::specs::Tps::shape_bits))]
pub(crate) fn shape_digits(shape: Shape) -> &'static [u8; 2]
    ensures { digits result.now ≡ shape_bits shape }
{
    match shape {
        Shape::Qpsk => b"00",
        Shape::Qam16 => b"01",
        Shape::Qam64 => b"10",
    }
}

/// s27 to s29.
#[tactic(auto, unfolding(crate::specs::Tps::hierarchy_bits))]
pub(crate) fn hierarchy_digits(hierarchy: Hierarchy) -> &'static [u8; 3]
    ensures { digits result.now ≡ hierarchy_bits hierarchy }
{
    match hierarchy {
        Hierarchy::Flat => b"000",
        Hierarchy::Alpha1 => b"001",
        Hierarchy::Alpha2 => b"010",
        Hierarchy::Alpha4 => b"011",
    }
}

/// s30 to s32, s33 to s35.
#[tactic(auto, unfolding(crate::specs::Tps::rate_bits))]
pub(crate) fn rate_digits(rate: Rate) -> &'static [u8; 3]
    ensures { digits result.now ≡ rate_bits rate }
{
    match rate {
        Rate::R1of2 => b"000",
        Rate::R2of3 => b"001",
        Rate::R3of4 => b"010",
        Rate::R5of6 => b"011",
        Rate::R7of8 => b"100",
    }
}

/// s36, s37.
#[tactic(auto, unfolding(crate::specs::Tps::guard_bits))]
pub(crate) fn guard_digits(guard: Guard) -> &'static [u8; 2]
    ensures { digits result.now ≡ guard_bits guard }
{
    match guard {
        Guard::G1of32 => b"00",
        Guard::G1of16 => b"01",
        Guard::G1of8 => b"10",
        Guard::G1of4 => b"11",
    }
}

/// s38, s39.
#[tactic(auto, unfolding(crate::specs::Tps::mode_bits))]
pub(crate) fn mode_digits(mode: Mode) -> &'static [u8; 2]
    ensures { digits result.now ≡ mode_bits mode }
{
    match mode {
        Mode::M2k => b"00",
        Mode::M8k => b"01",
    }
}

/// The constellation for the number of its digits.
pub(crate) fn shape_of(number: u8) -> Option<Shape>
    ensures { result ≡ shape_numbered number }
{
    match number {
        0 => Some(Shape::Qpsk),
        1 => Some(Shape::Qam16),
        2 => Some(Shape::Qam64),
        _ => None,
    }
}

pub(crate) fn hierarchy_of(number: u8) -> Option<Hierarchy>
    ensures { result ≡ hierarchy_numbered number }
{
    match number {
        0 => Some(Hierarchy::Flat),
        1 => Some(Hierarchy::Alpha1),
        2 => Some(Hierarchy::Alpha2),
        3 => Some(Hierarchy::Alpha4),
        _ => None,
    }
}

pub(crate) fn rate_of(number: u8) -> Option<Rate>
    ensures { result ≡ rate_numbered number }
{
    match number {
        0 => Some(Rate::R1of2),
        1 => Some(Rate::R2of3),
        2 => Some(Rate::R3of4),
        3 => Some(Rate::R5of6),
        4 => Some(Rate::R7of8),
        _ => None,
    }
}

pub(crate) fn guard_of(number: u8) -> Option<Guard>
    ensures { result ≡ guard_numbered number }
{
    match number {
        0 => Some(Guard::G1of32),
        1 => Some(Guard::G1of16),
        2 => Some(Guard::G1of8),
        3 => Some(Guard::G1of4),
        _ => None,
    }
}

pub(crate) fn mode_of(number: u8) -> Option<Mode>
    ensures { result ≡ mode_numbered number }
{
    match number {
        0 => Some(Mode::M2k),
        1 => Some(Mode::M8k),
        _ => None,
    }
}
