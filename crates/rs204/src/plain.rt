// The decoder by the definitions: slow, and the reference for the fast one.

ghost use Rattle.std.specs.Prelude.{◌≡◌, ◌<◌, ◌↔◌, ℕ, IsTrue, reverse, slice_index};
ghost use Rattle.rs204.specs.Polynomials.{value_at};
ghost use Rattle.rs204.specs.Decoding.{AreSyndromes};
ghost use Rattle.rs204.specs.Decoded.{Decoded};

use crate::bytes::{mul, power};
use crate::outcome::Outcome;
use crate::steps::{nearest, places_apart};

/// The value of a word's polynomial.
fn value(word: &[u8], x: u8) -> u8
    ensures { result ≡ value_at x (reverse word.now) }
{
    let mut sum = 0u8;
    for byte in word {
        sum = mul(x, sum) ^ *byte;
    }
    sum
}

fn syndromes(word: &[u8]) -> [u8; 16]
    ensures { AreSyndromes word.now result }
{
    let mut found = [0u8; 16];
    for i in 0..16u8 {
        found[i as usize] = value(word, power(i));
    }
    found
}

fn all_zero(values: &[u8; 16]) -> bool
    ensures { IsTrue result ↔ ((i : ℕ) → i < 16 → slice_index values.now i ≡ 0) }
{
    for v in values {
        if *v != 0 {
            return false;
        }
    }
    true
}

/// Corrects a word if a codeword is within distance 8.
pub fn decode(word: &mut [u8; 204]) -> Outcome
    ensures { Decoded word.old word.new result }
{
    let values = syndromes(word.as_slice());
    if all_zero(&values) {
        return Outcome::Clean;
    }
    let fixed = nearest(word, &values);
    let count = places_apart(word, &fixed);
    if count == 0 || count > 8 || !all_zero(&syndromes(fixed.as_slice())) {
        return Outcome::Bad;
    }
    *word = fixed;
    Outcome::Corrected(count)
}
