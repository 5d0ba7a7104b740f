// The TPS words of transmissions against those of another modulator, with errors and with fields that the standard does
// not use.
ghost use Rattle.std.specs.Prelude.{◌≤◌};

use mode_set::{Guard, Hierarchy, Mode, Rate, Settings, Shape};
use qam_map::Cell;
use std::alloc::Global;
use std::process::Abort;
use std::rt::HostRuntime;
use tps_bch::{TpsOutcome, correct, parity};
use tps_word::{TpsWord, vote};

fn bits_of(text: &[u8; 67]) -> [bool; 67] {
    let mut bits = [false; 67];
    for (i, bit) in bits.iter_mut().enumerate() {
        *bit = text[i] == b'1';
    }
    bits
}

// Every single or double error is corrected.
fn errors_are_corrected(rt: &impl Abort, sent: &[bool; 67]) {
    for i in 0..67usize {
        let mut once = *sent;
        once[i] = !once[i];
        assert!(rt; corrected(once) == (TpsOutcome::Read(1), *sent));
        for j in i + 1..67 {
            let mut twice = once;
            twice[j] = !twice[j];
            assert!(rt; corrected(twice) == (TpsOutcome::Read(2), *sent));
        }
    }
}

fn corrected(word: [bool; 67]) -> (TpsOutcome, [bool; 67]) {
    let mut word = word;
    let outcome = correct(&mut word);
    (outcome, word)
}

// The word with another value in the `width` bits from bit `at` on, s1 being bit 0, and its parity.
fn with_field(
    rt: &impl Abort,
    sent: &[bool; 67],
    at: usize,
    width: usize,
    value: u8,
) -> [bool; 67] {
    let mut info = [false; 53];
    for (i, bit) in info.iter_mut().enumerate() {
        *bit = sent[i];
    }
    for i in 0..width {
        assert!(rt; width <= 8 && at <= 40);
        info[at + i] = value >> (width - 1 - i) & 1 == 1;
    }
    let rest = parity(&info);
    let mut word = [false; 67];
    for (i, bit) in word.iter_mut().enumerate() {
        *bit = if i < 53 { info[i] } else { rest[i - 53] };
    }
    word
}

// Values that no word has: the position and the width of the field, and the value.
const OTHER_FIELDS: [(usize, usize, u8); 18] = [
    // the length
    (16, 6, 0b000000),
    (16, 6, 0b010110),
    (16, 6, 0b011110),
    (16, 6, 0b100111),
    (16, 6, 0b111111),
    // the constellation
    (24, 2, 0b11),
    // the hierarchy
    (26, 3, 4),
    (26, 3, 5),
    (26, 3, 6),
    (26, 3, 7),
    // the rates
    (29, 3, 5),
    (29, 3, 6),
    (29, 3, 7),
    (32, 3, 5),
    (32, 3, 6),
    (32, 3, 7),
    // the mode
    (37, 2, 0b10),
    (37, 2, 0b11),
];

fn other_fields_are_not_read(rt: &impl Abort, sent: &[bool; 67]) {
    for (at, width, value) in OTHER_FIELDS {
        assert!(rt; TpsWord::read(&with_field(rt, sent, at, width, value)) == None);
    }
}

// One of the four words of a transmission.
fn check_word(rt: &impl Abort, settings: &Settings, frame: u8, text: &[u8; 67])
    requires first { 1 ≤ frame }
    requires last { frame ≤ 4 }
{
    let word = TpsWord::signalled(settings, frame);
    let sent = bits_of(text);
    assert!(rt; (word.write(), TpsWord::read(&sent)) == (sent, Some(word)));
    errors_are_corrected(rt, &sent);
    other_fields_are_not_read(rt, &sent);
}

fn check(rt: &impl Abort, alloc: Global, text: &str, frames: [&[u8; 67]; 4]) {
    let settings = Settings::read(alloc, text.as_bytes()).expect(rt, "the settings");
    for (i, text) in frames.iter().enumerate() {
        check_word(rt, &settings, i as u8 + 1, text);
    }
}

// Settings, and the words of the four frames.
const CASES: [(&str, [&[u8; 67]; 4]); 18] = [
    (
        "mode = \"2k\"\nconstellation = \"qpsk\"\nhierarchy = \"none\"\nrate_hp = \"1/2\"\nguard = \"1/32\"\n",
        [
            b"0011010111101110010111000000000000000000000000000000001100110000100",
            b"1100101000010001010111010000000000000000000000000000000110010101000",
            b"0011010111101110010111100000000000000000000000000000001010101111001",
            b"1100101000010001010111110000000000000000000000000000000000001010101",
        ],
    ),
    (
        "mode = \"2k\"\nconstellation = \"16qam\"\nhierarchy = \"none\"\nrate_hp = \"2/3\"\nguard = \"1/16\"\ncell_id = 65535\n",
        [
            b"0011010111101110011111000100000100001001111111100000010000110100100",
            b"1100101000010001011111010100000100001001111111100000011010010001000",
            b"0011010111101110011111100100000100001001111111100000010110101011001",
            b"1100101000010001011111110100000100001001111111100000011100001110101",
        ],
    ),
    (
        "mode = \"2k\"\nconstellation = \"16qam\"\nhierarchy = \"1\"\nrate_hp = \"3/4\"\nrate_lp = \"5/6\"\nguard = \"1/8\"\ncell_id = 43981\n",
        [
            b"0011010111101110011111000100101001110001010101100000011110110100111",
            b"1100101000010001011111010100101001110001100110100000001110111100110",
            b"0011010111101110011111100100101001110001010101100000011000101011010",
            b"1100101000010001011111110100101001110001100110100000001000100011011",
        ],
    ),
    (
        "mode = \"2k\"\nconstellation = \"16qam\"\nhierarchy = \"2\"\nrate_hp = \"5/6\"\nrate_lp = \"2/3\"\nguard = \"1/4\"\ncell_id = 0\n",
        [
            b"0011010111101110011111000101001100111000000000000000011100011110001",
            b"1100101000010001011111010101001100111000000000000000010110111011101",
            b"0011010111101110011111100101001100111000000000000000011010000001100",
            b"1100101000010001011111110101001100111000000000000000010000100100000",
        ],
    ),
    (
        "mode = \"2k\"\nconstellation = \"16qam\"\nhierarchy = \"4\"\nrate_hp = \"7/8\"\nrate_lp = \"7/8\"\nguard = \"1/32\"\ncell_id = 4660\n",
        [
            b"0011010111101110011111000101110010000000001001000000001001101011010",
            b"1100101000010001011111010101110010000000011010000000000100110010011",
            b"0011010111101110011111100101110010000000001001000000001111110100111",
            b"1100101000010001011111110101110010000000011010000000000010101101110",
        ],
    ),
    (
        "mode = \"2k\"\nconstellation = \"64qam\"\nhierarchy = \"none\"\nrate_hp = \"1/2\"\nguard = \"1/16\"\n",
        [
            b"0011010111101110010111001000000000001000000000000000001001111010111",
            b"1100101000010001010111011000000000001000000000000000000011011111011",
            b"0011010111101110010111101000000000001000000000000000001111100101010",
            b"1100101000010001010111111000000000001000000000000000000101000000110",
        ],
    ),
    (
        "mode = \"2k\"\nconstellation = \"64qam\"\nhierarchy = \"1\"\nrate_hp = \"2/3\"\nrate_lp = \"1/2\"\nguard = \"1/8\"\ncell_id = 65535\n",
        [
            b"0011010111101110011111001000100100010001111111100000010111101111111",
            b"1100101000010001011111011000100100010001111111100000011101001010011",
            b"0011010111101110011111101000100100010001111111100000010001110000010",
            b"1100101000010001011111111000100100010001111111100000011011010101110",
        ],
    ),
    (
        "mode = \"2k\"\nconstellation = \"64qam\"\nhierarchy = \"2\"\nrate_hp = \"3/4\"\nrate_lp = \"5/6\"\nguard = \"1/4\"\ncell_id = 43981\n",
        [
            b"0011010111101110011111001001001001111001010101100000001111011100111",
            b"1100101000010001011111011001001001111001100110100000011111010100110",
            b"0011010111101110011111101001001001111001010101100000001001000011010",
            b"1100101000010001011111111001001001111001100110100000011001001011011",
        ],
    ),
    (
        "mode = \"2k\"\nconstellation = \"64qam\"\nhierarchy = \"4\"\nrate_hp = \"5/6\"\nrate_lp = \"2/3\"\nguard = \"1/32\"\ncell_id = 0\n",
        [
            b"0011010111101110011111001001101100100000000000000000011011000101010",
            b"1100101000010001011111011001101100100000000000000000010001100000110",
            b"0011010111101110011111101001101100100000000000000000011101011010111",
            b"1100101000010001011111111001101100100000000000000000010111111111011",
        ],
    ),
    (
        "mode = \"8k\"\nconstellation = \"qpsk\"\nhierarchy = \"none\"\nrate_hp = \"7/8\"\nguard = \"1/16\"\ncell_id = 4660\n",
        [
            b"0011010111101110011111000000010000001010001001000000011110111010000",
            b"1100101000010001011111010000010000001010011010000000010011100011001",
            b"0011010111101110011111100000010000001010001001000000011000100101101",
            b"1100101000010001011111110000010000001010011010000000010101111100100",
        ],
    ),
    (
        "mode = \"8k\"\nconstellation = \"16qam\"\nhierarchy = \"none\"\nrate_hp = \"1/2\"\nguard = \"1/8\"\n",
        [
            b"0011010111101110010111000100000000010010000000000000011110111001001",
            b"1100101000010001010111010100000000010010000000000000010100011100101",
            b"0011010111101110010111100100000000010010000000000000011000100110100",
            b"1100101000010001010111110100000000010010000000000000010010000011000",
        ],
    ),
    (
        "mode = \"8k\"\nconstellation = \"16qam\"\nhierarchy = \"1\"\nrate_hp = \"2/3\"\nrate_lp = \"1/2\"\nguard = \"1/4\"\ncell_id = 65535\n",
        [
            b"0011010111101110011111000100100100011011111111100000011001000000010",
            b"1100101000010001011111010100100100011011111111100000010011100101110",
            b"0011010111101110011111100100100100011011111111100000011111011111111",
            b"1100101000010001011111110100100100011011111111100000010101111010011",
        ],
    ),
    (
        "mode = \"8k\"\nconstellation = \"16qam\"\nhierarchy = \"2\"\nrate_hp = \"3/4\"\nrate_lp = \"5/6\"\nguard = \"1/32\"\ncell_id = 43981\n",
        [
            b"0011010111101110011111000101001001100011010101100000011000011111001",
            b"1100101000010001011111010101001001100011100110100000001000010111000",
            b"0011010111101110011111100101001001100011010101100000011110000000100",
            b"1100101000010001011111110101001001100011100110100000001110001000101",
        ],
    ),
    (
        "mode = \"8k\"\nconstellation = \"16qam\"\nhierarchy = \"4\"\nrate_hp = \"5/6\"\nrate_lp = \"2/3\"\nguard = \"1/16\"\ncell_id = 0\n",
        [
            b"0011010111101110011111000101101100101010000000000000010101101010111",
            b"1100101000010001011111010101101100101010000000000000011111001111011",
            b"0011010111101110011111100101101100101010000000000000010011110101010",
            b"1100101000010001011111110101101100101010000000000000011001010000110",
        ],
    ),
    (
        "mode = \"8k\"\nconstellation = \"64qam\"\nhierarchy = \"none\"\nrate_hp = \"7/8\"\nguard = \"1/8\"\ncell_id = 4660\n",
        [
            b"0011010111101110011111001000010000010010001001000000000010011100000",
            b"1100101000010001011111011000010000010010011010000000001111000101001",
            b"0011010111101110011111101000010000010010001001000000000100000011101",
            b"1100101000010001011111111000010000010010011010000000001001011010100",
        ],
    ),
    (
        "mode = \"8k\"\nconstellation = \"64qam\"\nhierarchy = \"1\"\nrate_hp = \"1/2\"\nrate_lp = \"3/4\"\nguard = \"1/4\"\n",
        [
            b"0011010111101110010111001000100001011010000000000000000100001100100",
            b"1100101000010001010111011000100001011010000000000000001110101001000",
            b"0011010111101110010111101000100001011010000000000000000010010011001",
            b"1100101000010001010111111000100001011010000000000000001000110110101",
        ],
    ),
    (
        "mode = \"8k\"\nconstellation = \"64qam\"\nhierarchy = \"2\"\nrate_hp = \"2/3\"\nrate_lp = \"1/2\"\nguard = \"1/32\"\ncell_id = 65535\n",
        [
            b"0011010111101110011111001001000100000011111111100000010001000100001",
            b"1100101000010001011111011001000100000011111111100000011011100001101",
            b"0011010111101110011111101001000100000011111111100000010111011011100",
            b"1100101000010001011111111001000100000011111111100000011101111110000",
        ],
    ),
    (
        "mode = \"8k\"\nconstellation = \"64qam\"\nhierarchy = \"4\"\nrate_hp = \"3/4\"\nrate_lp = \"5/6\"\nguard = \"1/16\"\ncell_id = 43981\n",
        [
            b"0011010111101110011111001001101001101011010101100000000110101000001",
            b"1100101000010001011111011001101001101011100110100000010110100000000",
            b"0011010111101110011111101001101001101011010101100000000000110111100",
            b"1100101000010001011111111001101001101011100110100000010000111111101",
        ],
    ),
];

#[test]
fn words_of_another_modulator(rt: HostRuntime) {
    let alloc = rt.alloc();
    for (text, frames) in CASES {
        check(&rt, alloc, text, frames);
    }
}

// Two words, one with a cell identifier and a hierarchy, and one without.
fn layered_word() -> TpsWord {
    TpsWord {
        frame: 1,
        with_cell: true,
        shape: Shape::Qam64,
        hierarchy: Hierarchy::Alpha2,
        rate_hp: Rate::R5of6,
        rate_lp: Rate::R7of8,
        guard: Guard::G1of4,
        mode: Mode::M2k,
        cell_byte: 0xAB,
    }
}

fn flat_word() -> TpsWord {
    TpsWord {
        frame: 4,
        with_cell: false,
        shape: Shape::Qam16,
        hierarchy: Hierarchy::Flat,
        rate_hp: Rate::R2of3,
        rate_lp: Rate::R1of2,
        guard: Guard::G1of8,
        mode: Mode::M8k,
        cell_byte: 0,
    }
}

// Whether the word is written as these bits, and read from them.
fn is_sent_as(word: TpsWord, text: &[u8; 67]) -> bool {
    let sent = bits_of(text);
    1 <= word.frame
        && word.frame <= 4
        && (word.with_cell || word.cell_byte == 0)
        && (word.write(), TpsWord::read(&sent)) == (sent, Some(word))
}

// Words of another modulator.
#[test]
fn words_of_two_transmissions(rt: HostRuntime) {
    let layered = b"0011010111101110011111001001001110011001010101100000000001100111101";
    assert!(&rt; is_sent_as(layered_word(), layered));
    let flat = b"1100101000010001010111110100000100010010000000000000000010001001100";
    assert!(&rt; is_sent_as(flat_word(), flat));
}

// The flat word with its last bit flipped, and with the sync word of another frame.
#[test]
fn words_that_are_not_read(rt: HostRuntime) {
    for text in [
        b"1100101000010001010111110100000100010010000000000000000010001001101",
        b"0011010111101110010111110100000100010010000000000000000010001001100",
    ] {
        assert!(&rt; TpsWord::read(&bits_of(text)) == None);
    }
}

// Turned cells vote 1, equal ones 0, and so does a sum of 0.
#[test]
fn turned_cells(rt: HostRuntime) {
    let cells = [Cell { re: 16384, im: 0 }, Cell { re: -16384, im: 5 }];
    let turned = [Cell { re: -16384, im: 0 }, Cell { re: 16384, im: -5 }];
    let crossed = [Cell { re: 16384, im: 0 }, Cell { re: 16384, im: 0 }];
    let votes = [
        vote(&cells, &turned),
        vote(&cells, &cells),
        vote(&cells, &crossed),
    ];
    assert!(&rt; votes == [true, false, false]);
}

// The parity of 52 zeros and then a 1 is x^14 divided by the generator.
#[test]
fn parity_of_a_single_one(rt: HostRuntime) {
    let mut info = [false; 53];
    info[52] = true;
    let expected = [
        false, false, false, false, true, true, false, true, true, true, false, true, true, true,
    ];
    assert!(&rt; parity(&info) == expected);
}

// The zero word is a word of the code, and x^7 + x^3 + 1, flips of s60, s64 and s67, divides the generator: with these
// it is within two bits of no word.
#[test]
fn words_of_the_code(rt: HostRuntime) {
    errors_are_corrected(&rt, &[false; 67]);
    let mut word = [false; 67];
    for place in [59usize, 63, 66] {
        word[place] = true;
    }
    assert!(&rt; corrected(word) == (TpsOutcome::Unreadable, word));
}
