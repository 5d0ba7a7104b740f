//! The BCH code that protects the TPS bits of a frame: 53 bits, 14 parity bits, two errors corrected.
//!
//! EN 300 744, 4.6.2.11.
#![tactic(auto)]

ghost use Rattle.std.specs.Prelude.{◌≡◌, ◌<◌, not, slice_set, ◌++◌, ◌≤◌, ℕ, List, Bool};
ghost use Rattle.spec_words.specs.Bits.{bit};
ghost use Rattle.tps_bch.specs.Bch.{tps_parity, IsTpsWord, IsCorrected, IsFar, AreApart, bit_distance};

mod syndromes;

use syndromes::{place_of, places_of, syndrome};

/// The outcome of a correction.
#[derive(Clone, Copy, Debug, PartialEq, Eq)]
pub enum TpsOutcome {
    /// A word of the code is at this distance, 0 to 2.
    Read(u8),
    /// No word of the code is within distance 2.
    Unreadable,
}

/// The parity bits s54 to s67 for bits s1 to s53: together they are a multiple of the generator.
pub fn parity(info: &[bool; 53]) -> [bool; 14]
    ensures rest { result ≡ tps_parity info.now }
    ensures word { IsTpsWord (info.now ++ result) }
{
    let rest = syndrome(info);
    let mut bits = [false; 14];
    for (i, bit) in bits.iter_mut().enumerate() {
        *bit = rest >> (13 - i) & 1 == 1;
    }
    bits
}

fn flip(word: &mut [bool; 67], place: usize)
    requires { place < 67 }
    ensures { word.new ≡ slice_set word.old place (not (bit word.old place)) }
{
    word[place] = !word[place];
}

/// Replaces bits s1 to s67 by the word of the code within distance 2, if there is one, and returns the distance;
/// otherwise leaves them unchanged.
pub fn correct(word: &mut [bool; 67]) -> TpsOutcome
    ensures read { (n : ℕ) → result ≡ TpsOutcome.Read n → IsCorrected word.old word.new n }
    ensures unreadable { result ≡ TpsOutcome.Unreadable → (word.new ≡ word.old) × IsFar word.old }
    ensures nearest { (w : List Bool) → IsTpsWord w → bit_distance word.old w ≤ 2
        → (result ≡ TpsOutcome.Read (bit_distance word.old w)) × (word.new ≡ w) }
{
    let syndrome = syndrome(word);
    if syndrome == 0 {
        return TpsOutcome::Read(0);
    }
    if let Some(i) = place_of(syndrome) {
        flip(word, i);
        return TpsOutcome::Read(1);
    }
    if let Some((i, j)) = places_of(syndrome) {
        flip(word, i);
        flip(word, j);
        return TpsOutcome::Read(2);
    }
    TpsOutcome::Unreadable
}

/// Any two words of the code differ in at least five bits, so at most one is within distance 2 of given bits.
pub fn words_are_apart()
    ensures { AreApart }
{}
