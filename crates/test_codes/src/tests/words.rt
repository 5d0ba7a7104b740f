// Words against outside values, and the fast decoder against the plain one.
ghost use Rattle.std.specs.Prelude.{◌≤◌, length};

use gf256::Elem;
use rs204::{Outcome, decode, encode, plain};
use test_tools::{next_byte, next_number};

// The sixteen bytes after 187 zeros and a one: the generator's coefficients after its first.
const PARITY_OF_ONE: [u8; 16] = [
    0x3B, 0x0D, 0x68, 0xBD, 0x44, 0xD1, 0x1E, 0x08, 0xA3, 0x41, 0x29, 0xE5, 0x62, 0x32, 0x24, 0x3B,
];

// The coefficients of the product of x + λ^i for i below 8; as errors they are close to no codeword.
pub(super) const NEAR_NONE: [u8; 9] = [0x01, 0xFF, 0x0B, 0x51, 0x36, 0xEF, 0xAD, 0xC8, 0x18];

// Zeros, with these bytes at the end.
fn ends_with(last: &[u8]) -> [u8; 204]
    requires few { length last.now ≤ 204 }
{
    let mut word = [0u8; 204];
    word[204 - last.len()..].copy_from_slice(last);
    word
}

#[test]
fn parity_of_a_single_one(rt: HostRuntime) {
    let mut message = [0u8; 188];
    message[187] = 1;
    let mut word = ends_with(&PARITY_OF_ONE);
    word[187] = 1;
    assert!(rt; encode(&message) == word);
}

// Whether this is the outcome for the word, and this the word afterwards.
fn comes_out(received: &[u8; 204], outcome: Outcome, left: &[u8; 204]) -> bool {
    let mut word = *received;
    decode(&mut word) == outcome && word == *left
}

// Zeros, and eight bytes of this value at positions `apart` bytes apart.
fn eight_errors(first: usize, apart: usize, value: u8) -> [u8; 204]
    requires first { first ≤ 7 }
    requires apart { apart ≤ 20 }
{
    let mut word = [0u8; 204];
    for k in 0..8usize {
        word[first + apart * k] = value;
    }
    word
}

// Zeros, and the coefficients of the product of x + λ^i for i below `factors`.
pub(super) fn product_of(factors: u8) -> [u8; 204]
    requires { factors ≤ 12 }
{
    let mut product = [0u8; 13];
    product[0] = 1;
    for i in 0..factors {
        for k in (0..12usize).rev() {
            product[k + 1] ^= Elem(product[k]).times_power(i).0;
        }
    }
    let degree = factors as usize;
    let mut word = [0u8; 204];
    for k in 0..degree + 1 {
        word[203 - degree + k] = product[k];
    }
    word
}

#[test]
fn outcomes_of_words(rt: HostRuntime) {
    let zeros = [0u8; 204];
    assert!(rt; comes_out(&zeros, Outcome::Clean, &zeros));
    assert!(rt; comes_out(&eight_errors(0, 1, 1), Outcome::Corrected(8), &zeros));
    assert!(rt; comes_out(&eight_errors(7, 20, 91), Outcome::Corrected(8), &zeros));
    let product = ends_with(&NEAR_NONE);
    assert!(rt; product_of(8) == product && comes_out(&product, Outcome::Bad, &product));
}

// A codeword of a random message, and the same with this number of random errors.
fn drawn_words(seed: &mut u32, errors: usize) -> ([u8; 204], [u8; 204])
    requires { errors ≤ 12 }
{
    let mut message = [0u8; 188];
    for i in 0..188usize {
        message[i] = next_byte(seed);
    }
    let sent = encode(&message);
    let mut word = sent;
    for k in 0..errors {
        let number = next_number(seed);
        word[16 * k + (number >> 28) as usize] ^= 1 + ((number >> 16) % 255) as u8;
    }
    (sent, word)
}

// Whether both decoders agree on a word, and with up to eight errors find the word sent.
fn both_agree(sent: &[u8; 204], received: &[u8; 204], errors: usize) -> bool {
    let mut slow = *received;
    let outcome = plain::decode(&mut slow);
    let is_right = match errors {
        0 => outcome == Outcome::Clean,
        1..=8 => outcome == Outcome::Corrected(errors as u8) && slow == *sent,
        _ => true,
    };
    is_right && comes_out(received, outcome, &slow)
}

// Codewords of random messages with 0 to 12 random errors, with both decoders.
#[test]
fn drawn_errors_by_both_decoders(rt: HostRuntime) {
    let mut seed = 1u32;
    for errors in 0..13usize {
        let (sent, word) = drawn_words(&mut seed, errors);
        assert!(rt; both_agree(&sent, &word, errors), "{errors} errors");
    }
}

// The word with these errors, each a position and a value.
fn with_errors(word: &[u8; 204], errors: &[(u8, u8)]) -> [u8; 204] {
    let mut disturbed = *word;
    for error in errors {
        disturbed[error.0 as usize % 204] ^= error.1;
    }
    disturbed
}

// Two errors at the ends of a word and next to each other, three whose first syndromes are those of one, and four whose
// first five are those of two.
#[test]
fn few_errors(rt: HostRuntime) {
    let mut seed = 2u32;
    let rows = [
        &[(0u8, 1u8), (203, 255)][..],
        &[(0, 255), (1, 255)],
        &[(202, 16), (203, 1)],
        &[(187, 7), (188, 7)],
        &[(5, 120), (95, 131), (108, 185)],
        &[(13, 69), (31, 20), (64, 208), (72, 113)],
    ];
    for row in rows {
        let (sent, _) = drawn_words(&mut seed, 0);
        assert!(rt;
            comes_out(
                &with_errors(&sent, row),
                Outcome::Corrected(row.len() as u8),
                &sent
            )
        );
    }
}

// Two random errors at random positions.
#[test]
fn two_drawn_errors(rt: HostRuntime) {
    let mut seed = 3u32;
    for _ in 0..40u8 {
        let (sent, _) = drawn_words(&mut seed, 0);
        let first = next_number(&mut seed) >> 8;
        let second = first % 204 + 1 + (next_number(&mut seed) >> 8) % 203;
        let errors = [
            ((first % 204) as u8, 1 + next_byte(&mut seed) % 255),
            ((second % 204) as u8, 1 + next_byte(&mut seed) % 255),
        ];
        assert!(rt; comes_out(&with_errors(&sent, &errors), Outcome::Corrected(2), &sent));
    }
}
