// Decoding from the remainder of a division; syndromes are only computed if it is not 0.

ghost use Rattle.std.specs.Prelude.{◌≡◌, ◌≢◌, ◌<◌, ℕ, List, length, slice_index};
ghost use Rattle.rs204.specs.Codes.{IsCodeword};
ghost use Rattle.rs204.specs.Decoded.{Decoded, IsFar, IsNearBy};

use crate::bytes::{inv, mul};
use crate::division::rest;
use crate::outcome::Outcome;
use crate::steps::{is_codeword, nearest, places_apart, syndromes_by_rest};
use gf256::Elem;

/// The most errors that are corrected.
const MOST: u8 = 8;

/// The word after correcting a single error, if its first syndromes show one: its value is the first syndrome, and the
/// power of λ for its position is the ratio of each syndrome to the one before. Otherwise the word itself.
// No contract: a codeword at distance 1 is the nearest one, which the caller checks.
fn less_one_error(word: &[u8; 204], values: &[u8; 16]) -> [u8; 204]
    ensures size { length result ≡ 204 }
    ensures bytes { (i : ℕ) → slice_index result i < 256 }
{
    let mut fixed = *word;
    let (first, second) = (values[0], values[1]);
    if first != 0 && second != 0 && mul(first, values[2]) == mul(second, second) {
        let place = (255 + Elem(second).log() as usize - Elem(first).log() as usize) % 255;
        if place < 204 {
            fixed[203 - place] ^= first;
        }
    }
    fixed
}

/// The entry of `halved`, which is linear, for bit i of a sum.
const HALVES: [u8; 8] = [214, 232, 234, 44, 238, 0, 36, 80];

/// The element which, added to its own square, gives this one, if there is one.
// No contract, as for its callers.
fn halved(sum: u8) -> u8 {
    let mut root = 0u8;
    for i in 0..8usize {
        if (sum >> i) & 1 == 1 {
            root ^= HALVES[i];
        }
    }
    root
}

/// Adds a value to the byte of a word at the position of a power of λ, if there is one.
fn add_at(word: &mut [u8; 204], power: u8, value: u8)
    ensures size { length word.new ≡ 204 }
    ensures bytes { (i : ℕ) → slice_index word.new i < 256 }
{
    if power != 0 {
        let place = Elem(power).log() as usize;
        if place < 204 {
            word[203 - place] ^= value;
        }
    }
}

/// Corrects two errors of a word, from its first two syndromes and the sum and the product of the powers of λ for their
/// positions. The sum is not 0.
fn take_two(word: &mut [u8; 204], values: &[u8; 16], sum: u8, product: u8)
    requires { sum ≢ 0 }
    ensures size { length word.new ≡ 204 }
    ensures bytes { (i : ℕ) → slice_index word.new i < 256 }
{
    let inverse = inv(sum);
    // the powers are the sum times the two roots of x^2 + x + product / sum^2
    let ratio = mul(product, mul(inverse, inverse));
    let one = mul(sum, halved(ratio));
    let other = one ^ sum;
    let value = mul(values[1] ^ mul(other, values[0]), inverse);
    add_at(word, one, value);
    add_at(word, other, values[0] ^ value);
}

/// The word after correcting two errors, if its first syndromes show two: each next syndrome is then the sum of the two
/// powers of λ for their positions times the one before, plus their product times the one before that. Otherwise the
/// word itself.
// No contract either.
fn less_two_errors(word: &[u8; 204], values: &[u8; 16]) -> [u8; 204]
    ensures size { length result ≡ 204 }
    ensures bytes { (i : ℕ) → slice_index result i < 256 }
{
    let mut fixed = *word;
    let (first, second, third, fourth) = (values[0], values[1], values[2], values[3]);
    let determinant = mul(first, third) ^ mul(second, second);
    if determinant != 0 {
        let inverse = inv(determinant);
        let sum = mul(mul(first, fourth) ^ mul(second, third), inverse);
        let product = mul(mul(second, fourth) ^ mul(third, third), inverse);
        // with more errors the fifth syndrome rarely fits
        if sum != 0 && mul(sum, fourth) ^ mul(product, third) == values[4] {
            take_two(&mut fixed, values, sum, product);
        }
    }
    fixed
}

/// Replaces the word by the codeword within distance 8, if there is one.
fn put_right(word: &mut [u8; 204]) -> Outcome
    ensures { Decoded word.old word.new result }
{
    let left = rest(word);
    if left == 0 {
        return Outcome::Clean;
    }
    let values = syndromes_by_rest(left);
    // most words that are not clean have one or two errors
    let early = less_one_error(word, &values);
    if places_apart(word, &early) == 1 && is_codeword(&early) {
        *word = early;
        return Outcome::Corrected(1);
    }
    let early = less_two_errors(word, &values);
    if places_apart(word, &early) == 2 && is_codeword(&early) {
        *word = early;
        return Outcome::Corrected(2);
    }
    let fixed = nearest(word, &values);
    let count = places_apart(word, &fixed);
    if count == 0 || count > MOST || !is_codeword(&fixed) {
        return Outcome::Bad;
    }
    *word = fixed;
    Outcome::Corrected(count)
}

/// Corrects a word if a codeword is within distance 8.
///
/// `Clean` exactly if the word is a codeword. `Corrected(n)` exactly if a codeword is at distance n, 1 to 8; the word
/// then becomes it. `Bad` exactly if no codeword is within distance 8; the word is then unchanged (EN 300 744, 4.3.2).
pub fn decode(word: &mut [u8; 204]) -> Outcome
    ensures decoded { Decoded word.old word.new result }
    ensures clean { IsCodeword word.old → result ≡ Outcome.Clean }
    ensures corrected { (n : ℕ) (c : List ℕ) → IsNearBy word.old n c → (result ≡ Outcome.Corrected n) × (word.new ≡ c) }
    ensures bad { IsFar word.old → result ≡ Outcome.Bad }
{
    put_right(word)
}
