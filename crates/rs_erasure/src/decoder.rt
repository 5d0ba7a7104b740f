// Decoding a word with erasures.

ghost use Rattle.std.specs.Prelude.{◌≡◌, ◌<◌, ◌≤◌, ℕ, List, length, slice_index};
ghost use Rattle.std.specs.List.{All};
ghost use Rattle.std.specs.List.Sorted.{IsStrictlyIncreasing};
ghost use Rattle.rs204.specs.Codes.{IsCodeword};
ghost use Rattle.rs_erasure.specs.Outside.{IsFarOutside, IsOutside, distance_outside};
ghost use Rattle.rs_erasure.specs.Locating.{blanked};
ghost use Rattle.rs_erasure.specs.Decoded.{DecodedOutside};

use crate::locate::{errata_locator, modified_syndromes, place_powers};
use crate::outcome::Erased;
use rs204::steps::{is_codeword, locator, places_apart, repair, syndromes};

/// The most errors that are corrected outside the erasures.
const MOST: u8 = 4;

/// A word with 0 in its erased positions.
fn blank(word: &[u8; 204], erased: &[u8; 8]) -> [u8; 204]
    requires { All (λ e. e < 204) erased.now }
    ensures { result ≡ blanked erased.now word.now }
{
    let mut left = *word;
    for place in erased {
        left[*place as usize] = 0;
    }
    left
}

/// The number of positions outside the erasures where two words differ.
fn places_outside(a: &[u8; 204], b: &[u8; 204], erased: &[u8; 8]) -> u8
    requires { All (λ e. e < 204) erased.now }
    ensures { result ≡ distance_outside erased.now a.now b.now }
{
    places_apart(&blank(a, erased), &blank(b, erased))
}

/// The codeword that differs in at most `most` positions outside the erasures, if there is one; otherwise any word.
fn nearest_outside(word: &[u8; 204], erased: &[u8; 8], most: u8) -> [u8; 204]
    requires within { All (λ e. e < 204) erased.now }
    requires few { most ≤ 4 }
    ensures is { (c : List ℕ) → IsCodeword c → distance_outside erased.now word.now c ≤ most → result ≡ c }
    ensures size { length result ≡ 204 }
    ensures bytes { (i : ℕ) → slice_index result i < 256 }
{
    let values = syndromes(word);
    let powers = place_powers(erased);
    let left = modified_syndromes(&values, &powers);
    let outside = locator(&left, most as usize);
    let errata = errata_locator(&outside, &powers);
    repair(word, &values, errata.as_slice())
}

/// Replaces the word by the codeword nearest to it outside the erasures, if there is one.
fn put_right(word: &mut [u8; 204], erased: &[u8; 8]) -> Erased
    requires { All (λ e. e < 204) erased.now }
    ensures { DecodedOutside erased.now word.old word.new result }
{
    let fixed = nearest_outside(word, erased, MOST);
    let count = places_outside(word, &fixed, erased);
    if count > MOST || !is_codeword(&fixed) {
        return Erased::NoWord;
    }
    *word = fixed;
    Erased::Found(count)
}

/// Corrects a word with eight erasures at rising positions. Position 0 is the first byte.
///
/// `Found(n)` exactly if a codeword differs from the word in n positions outside the erasures, 0 to 4; the word then
/// becomes it. `NoWord` exactly if every codeword differs in more; the word is then unchanged (EN 300 744, 4.3.2).
pub fn decode_erased(word: &mut [u8; 204], erased: &[u8; 8]) -> Erased
    requires rising { IsStrictlyIncreasing erased.now }
    requires within { All (λ e. e < 204) erased.now }
    ensures decoded { DecodedOutside erased.now word.old word.new result }
    ensures found { (n : ℕ) (c : List ℕ) → IsOutside word.old erased.now n c → (result ≡ Erased.Found n)
        × (word.new ≡ c) }
    ensures no_word { IsFarOutside word.old erased.now → result ≡ Erased.NoWord }
{
    put_right(word, erased)
}
