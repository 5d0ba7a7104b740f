// Puncturing against outside values: the standard's table, and coded bytes of an independent program.
ghost use Rattle.std.specs.Prelude.{◌≤◌};

use super::parameters::RATES;
use bit_pack::BitBuf;
use conv_code::Encoder;
use mode_set::Rate;
use puncture::{Depuncturer, PuncturedEncoder, Puncturer, Sent, sent};
use std::alloc::Global;
use std::process::Abort;

// A letter a step: B for both, X or Y for one.
fn letter(sent: Sent) -> char {
    match sent {
        Sent::Both => 'B',
        Sent::OnlyX => 'X',
        Sent::OnlyY => 'Y',
    }
}

/// The bits sent in the first eight steps at each rate.
const STEPS: [&str; 5] = ["BBBBBBBB", "BYBYBYBY", "BYXBYXBY", "BYXYXBYX", "BYYYXYXB"];

#[test]
fn table_of_the_five_rates(rt: HostRuntime) {
    for (rate, steps) in RATES.into_iter().zip(STEPS) {
        let mut row = String::new(rt.alloc());
        for step in 0..8u64 {
            row.push(letter(sent(rate, step))).expect(&rt, "memory");
        }
        assert_eq!(rt; row.as_str(), steps);
    }
}

// A single one through the encoder, at rate 7/8.
#[test]
fn single_one_at_seven_eighths(rt: HostRuntime) {
    let mut encoder = Encoder::start();
    let mut puncturer = Puncturer::start(Rate::R7of8);
    let mut bits: BitBuf<4> = BitBuf::new();
    for step in 0..7u8 {
        let coded = encoder.step(step == 0);
        if bits.waiting() <= 30 {
            puncturer.push(coded, &mut bits);
        }
    }
    assert_eq!(rt; (bits.take_byte(), bits.waiting()), (Some(0b1101_1011), 0));
}

const BYTES: [u8; 24] = [
    0x63, 0x6E, 0x21, 0, 0, 0, 0, 0, 0, 0, 0, 0, 0x33, 0x6E, 0x31, 0, 0, 0, 0, 0, 0, 0, 0, 0,
];

// These bytes after coding at each rate, without the last partial byte, and the number of bits.
const CODED: [(&[u8], usize); 5] = [
    (
        &[
            0x35, 0x3B, 0xB8, 0x5C, 0xE4, 0x32, 0x7C, 0x70, 0, 0, 0, 0, 0, 0, 0, 0, 0, 0, 0, 0, 0,
            0, 0, 0, 0x0D, 0x40, 0xC8, 0x5C, 0xE7, 0x8E, 0x0C, 0x70, 0, 0, 0, 0, 0, 0, 0, 0, 0, 0,
            0, 0, 0, 0, 0, 0,
        ],
        384,
    ),
    (
        &[
            0x2C, 0xDB, 0x1E, 0xC8, 0x87, 0x98, 0, 0, 0, 0, 0, 0, 0, 0, 0, 0, 0, 0, 0x1D, 0x0D,
            0x1E, 0xCE, 0x61, 0x98, 0, 0, 0, 0, 0, 0, 0, 0, 0, 0, 0, 0,
        ],
        288,
    ),
    (
        &[
            0x25, 0xBC, 0x73, 0x4D, 0x73, 0, 0, 0, 0, 0, 0, 0, 0, 0, 0, 0, 0x16, 0x10, 0x73, 0x73,
            0x13, 0, 0, 0, 0, 0, 0, 0, 0, 0, 0, 0,
        ],
        256,
    ),
    (
        &[
            0x2B, 0x58, 0xCE, 0x23, 0xB0, 0, 0, 0, 0, 0, 0, 0, 0, 0, 0x02, 0x44, 0x2D, 0x33, 0x13,
            0, 0, 0, 0, 0, 0, 0, 0, 0,
        ],
        231,
    ),
    (
        &[
            0x3B, 0xD2, 0xD0, 0xCE, 0x60, 0, 0, 0, 0, 0, 0, 0, 0, 0, 0xF1, 0x0A, 0xDD, 0x8B, 0, 0,
            0, 0, 0, 0, 0, 0, 0,
        ],
        220,
    ),
];

// The number of bits for these bytes, and their whole bytes.
fn coded_at(rt: &impl Abort, alloc: Global, rate: Rate) -> (usize, Vec<u8>) {
    let mut coder = PuncturedEncoder::start(rate);
    let mut bits: BitBuf<48> = BitBuf::new();
    for byte in BYTES {
        if bits.waiting() <= 368 {
            coder.push_byte(byte, &mut bits);
        }
    }
    let number = bits.waiting();
    let mut bytes = Vec::new(alloc);
    for _ in 0..number / 8 {
        if let Some(byte) = bits.take_byte() {
            bytes.push(byte).expect(rt, "memory");
        }
    }
    (number, bytes)
}

#[test]
fn bytes_at_each_rate(rt: HostRuntime) {
    for (rate, (coded, number)) in RATES.into_iter().zip(CODED) {
        let (found, bytes) = coded_at(&rt, rt.alloc(), rate);
        assert_eq!(rt; (found, bytes.as_slice()), (number, coded));
    }
}

// A byte through a coder, and its eight steps through an encoder and a puncturer: the bits sent by each, as a number,
// and how many there are.
fn sent_of_byte(
    coder: &mut PuncturedEncoder,
    encoder: &mut Encoder,
    puncturer: &mut Puncturer,
    byte: u8,
) -> [(u32, usize); 2] {
    let mut bits: BitBuf<2> = BitBuf::new();
    coder.push_byte(byte, &mut bits);
    let mut steps: BitBuf<2> = BitBuf::new();
    for place in 0..8u8 {
        let coded = encoder.step(byte >> (7 - place) & 1 == 1);
        if steps.waiting() <= 14 {
            puncturer.push(coded, &mut steps);
        }
    }
    [all_of(&mut bits), all_of(&mut steps)]
}

// The bits as a number, and how many there are.
fn all_of(bits: &mut BitBuf<2>) -> (u32, usize) {
    let mut number = 0u32;
    let count = bits.waiting();
    for _ in 0..count {
        let bit = bits.take_bit() == Some(true);
        number = number.wrapping_mul(2).wrapping_add(bit as u32);
    }
    (number, count)
}

// Bytes, coded with a table over the places of a period, send the same bits as single steps: each byte seven times, so
// that each is coded at every place where a byte can begin.
#[test]
fn bytes_are_their_steps(rt: HostRuntime) {
    for rate in RATES {
        let mut coder = PuncturedEncoder::start(rate);
        let mut encoder = Encoder::start();
        let mut puncturer = Puncturer::start(rate);
        for number in 0..1792u32 {
            let byte = (number % 256) as u8;
            let [bits, steps] = sent_of_byte(&mut coder, &mut encoder, &mut puncturer, byte);
            assert_eq!(rt; bits, steps);
        }
    }
}

#[test]
fn costs_at_three_quarters(rt: HostRuntime) {
    let mut depuncturer = Depuncturer::start(Rate::R3of4);
    let (a, b, none) = ((1, 2), (3, 4095), (0, 0));
    for (needs, first, x, y) in [(2, a, a, b), (1, b, none, b), (1, a, a, none), (2, b, b, b)] {
        let needed = depuncturer.needs();
        let pair = depuncturer.pair(first, b);
        assert_eq!(rt;
            (needed, (pair.x0, pair.x1), (pair.y0, pair.y1)),
            (needs, x, y)
        );
    }
}

// The costs of a sent bit, by its number; no two numbers have the same.
fn costs_of(number: u16) -> (u16, u16)
    ensures { (result.0 ≤ 4095) × (result.1 ≤ 4095) }
{
    (1 + number % 2000, 4095 - number % 2000)
}

// The costs of the coded bits of a step with these sent bits, after `before` sent bits; and the number of sent bits.
fn costs_sent(sent: Sent, before: u16) -> ((u16, u16), (u16, u16), u16) {
    let first = costs_of(before);
    match sent {
        Sent::Both => (first, costs_of(before.wrapping_add(1)), 2),
        Sent::OnlyX => (first, (0, 0), 1),
        Sent::OnlyY => ((0, 0), first, 1),
    }
}

// Twelve hundred steps at each rate, against the costs in the table for each step: those of its own bits, by their
// numbers.
#[test]
fn costs_at_each_rate(rt: HostRuntime) {
    for rate in RATES {
        let mut depuncturer = Depuncturer::start(rate);
        let mut before = 0u16;
        for step in 0..1200u64 {
            let (x, y, count) = costs_sent(sent(rate, step), before);
            let needed = depuncturer.needs();
            let first = costs_of(before);
            let second = costs_of(before.wrapping_add(1));
            let pair = depuncturer.pair(first, second);
            assert_eq!(rt;
                ((pair.x0, pair.x1), (pair.y0, pair.y1), u16::from(needed)),
                (x, y, count)
            );
            before = before.wrapping_add(count);
        }
    }
}
