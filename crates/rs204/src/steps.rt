// The steps shared by the decoders of this code: syndromes, a locator of the errors, and the correction of a word at
// the locator's roots.

ghost use Rattle.std.specs.Prelude.{◌≡◌, ◌+◌, ◌-◌, ◌<◌, ◌≤◌, ℕ, List, length, map, slice_index, bit_xor, take, IsTrue};
ghost use Rattle.std.specs.Prelude.{◌↔◌};
ghost use Rattle.gf256.specs.Field as field;
ghost use Rattle.rs204.specs.Codes.{AreBytes, IsCodeword, distance, plus, rest_of};
ghost use Rattle.rs204.specs.Polynomials.{IsNonzero, along};
ghost use Rattle.rs204.specs.Kernels.{IsKernel, vector};
ghost use Rattle.rs204.specs.Decoding.{AllDiffer, AreSyndromes, Differ, DifferAtRoots, HasFewRoots, IsLocator};
ghost use Rattle.rs204.specs.Decoding.{IsSolution, Solves, Unscales, chosen, corrected, is_root};
ghost use Rattle.rs204.specs.Division.{Holds};
ghost use Rattle.std.specs.List.{All};

use crate::bytes::{inv, mul, power};
use crate::division::rest;
use crate::values::values_at_places;
use gf256::Elem;

/// The values at the first sixteen powers of λ after one more coefficient.
fn next_values(values: &mut [u8; 16], byte: u8)
    ensures { (i : ℕ) → i < 16 → slice_index values.new i ≡ bit_xor (field.mul (slice_index values.old i)
        (field.power i)) byte }
{
    for i in 0..16u8 {
        let value = Elem(values[i as usize]);
        values[i as usize] = value.times_power(i).0 ^ byte;
    }
}

/// The values of the sixteen coefficients of a remainder.
fn values_of_rest(rest: &[u8; 16]) -> [u8; 16]
    ensures { AreSyndromes rest.now result }
{
    let mut values = [0u8; 16];
    for byte in rest {
        next_values(&mut values, *byte);
    }
    values
}

/// The syndromes of a word, from its remainder after division by the generator.
pub(crate) fn syndromes_by_rest(left: u128) -> [u8; 16]
    ensures { (word : List ℕ) → length word ≡ 204 → AreBytes word → Holds left (rest_of 188 word)
        → AreSyndromes word result }
{
    values_of_rest(&left.to_le_bytes())
}

/// The syndromes of a word: its polynomial evaluated at the first sixteen powers of λ.
pub fn syndromes(word: &[u8; 204]) -> [u8; 16]
    ensures { AreSyndromes word.now result }
{
    syndromes_by_rest(rest(word))
}

/// Whether a word is a codeword.
pub fn is_codeword(word: &[u8; 204]) -> bool
    ensures { IsTrue result ↔ IsCodeword word.now }
{
    rest(word) == 0
}

/// The sum of the products of a vector and the values from an index on.
fn product(vector: &[u8; 9], values: &[u8; 16], from: usize) -> u8
    requires { from < 8 }
    ensures { result ≡ along vector.now (λ k. slice_index values.now k) from }
{
    let mut sum = 0u8;
    for j in 0..9usize {
        sum ^= mul(vector[j], values[from + j]);
    }
    sum
}

/// Adds a multiple of a vector.
fn add_multiple(to: &mut [u8; 9], factor: u8, other: &[u8; 9])
    ensures { to.new ≡ plus to.old (map (field.mul factor) other.now) }
{
    for j in 0..9usize {
        to[j] ^= mul(factor, other[j]);
    }
}

/// A vector that is not cleared, if there is one.
fn pivot(vectors: &[[u8; 9]; 9], last: usize, values: &[u8; 16], from: usize) -> usize
    requires from { from < 8 }
    requires last { last < 9 }
    ensures within { result ≤ last }
    ensures cleared { along (vector vectors.now result) (λ j. slice_index values.now j) from ≡ 0 → (k : ℕ) → k ≤ last
        → along (vector vectors.now k) (λ j. slice_index values.now j) from ≡ 0 }
{
    for k in 0..=last {
        if product(&vectors[k], values, from) != 0 {
            return k;
        }
    }
    last
}

/// Clears a vector with another one.
fn clear(to: &mut [u8; 9], other: &[u8; 9], inverse: u8, values: &[u8; 16], from: usize)
    requires { from < 8 }
    ensures { to.new ≡ plus to.old
        (map (field.mul (field.mul (along to.old (λ j. slice_index values.now j) from) inverse)) other.now) }
{
    let factor = mul(product(to, values, from), inverse);
    add_multiple(to, factor, other);
}

/// Makes the vectors before the last one satisfy one more equation.
fn reduce(vectors: &mut [[u8; 9]; 9], last: usize, values: &[u8; 16], from: usize)
    requires from { from < 8 }
    requires last { last < 9 }
    ensures { (wide : ℕ) → IsKernel wide (last + 1) from values.now (vector vectors.old)
        → IsKernel wide last (from + 1) values.now (vector vectors.new) }
{
    let at = pivot(vectors, last, values, from);
    vectors.swap(at, last);
    let other = vectors[last];
    let rest = product(&other, values, from);
    if rest != 0 {
        let inverse = inv(rest);
        for k in 0..last {
            clear(&mut vectors[k], &other, inverse, values, from);
        }
    }
}

const UNITS: [[u8; 9]; 9] = [
    [1, 0, 0, 0, 0, 0, 0, 0, 0],
    [0, 1, 0, 0, 0, 0, 0, 0, 0],
    [0, 0, 1, 0, 0, 0, 0, 0, 0],
    [0, 0, 0, 1, 0, 0, 0, 0, 0],
    [0, 0, 0, 0, 1, 0, 0, 0, 0],
    [0, 0, 0, 0, 0, 1, 0, 0, 0],
    [0, 0, 0, 0, 0, 0, 1, 0, 0],
    [0, 0, 0, 0, 0, 0, 0, 1, 0],
    [0, 0, 0, 0, 0, 0, 0, 0, 1],
];

/// A polynomial that satisfies as many equations as there may be errors.
fn solution(values: &[u8; 16], errors: usize) -> [u8; 9]
    requires { errors ≤ 8 }
    ensures { IsSolution errors values.now result }
{
    let mut vectors = UNITS;
    for i in 0..errors {
        reduce(&mut vectors, errors - i, values, i);
    }
    vectors[0]
}

/// A locator of at most `errors` errors, at most 8, from their values at the first powers of λ, two for each error.
///
/// If there are no more errors, the locator is 0 at the power of λ for the position of each. Its coefficients are in
/// rising order, from x^0 on. Values after the first `2 * errors` are ignored.
pub fn locator(values: &[u8; 16], errors: usize) -> [u8; 9]
    requires { errors ≤ 8 }
    ensures { IsLocator errors values.now result }
{
    solution(values, errors)
}

/// At most sixteen positions of a word, as powers of x.
#[derive(Drop)]
struct Places {
    at: [u8; 16],
    count: usize,
}

/// The positions where a polynomial is 0.
fn find_places(polynomial: &[u8]) -> Places
    requires size { length polynomial.now ≤ 17 }
    requires few { HasFewRoots polynomial.now }
    ensures count { result.count ≤ 16 }
    ensures places { take result.count result.at ≡ chosen (is_root polynomial.now) 204 }
{
    let mut found = Places {
        at: [0; 16],
        count: 0,
    };
    let values = values_at_places(polynomial);
    for k in 0..204u8 {
        let value = values[k as usize];
        if value == 0 {
            found.at[found.count] = k;
            found.count += 1;
        }
    }
    found
}

/// The number of positions where two words differ.
pub fn places_apart(a: &[u8; 204], b: &[u8; 204]) -> u8
    ensures { result ≡ distance a.now b.now }
{
    let mut count = 0u8;
    for i in 0..204usize {
        if a[i] != b[i] {
            count += 1;
        }
    }
    count
}

/// Removes a position from the values of errors. `place` is the power of λ for it.
///
/// Each value but the last becomes the next one plus `place` times itself, which cancels what an error at this position
/// adds. The last value means nothing afterwards. There is at least one value.
pub fn take_out(moments: &mut [u8], place: u8)
    requires { 0 < length moments.old }
    ensures size { length moments.new ≡ length moments.old }
    ensures each { (i : ℕ) → i + 1 < length moments.old → slice_index moments.new i
        ≡ bit_xor (slice_index moments.old (i + 1)) (field.mul place (slice_index moments.old i)) }
{
    for i in 0..moments.len() - 1 {
        moments[i] = moments[i + 1] ^ mul(place, moments[i]);
    }
}

/// Restores values that were scaled by (their position less another one), and returns their sum.
fn unscale(places: &[u8], place: u8, values: &mut [u8]) -> u8
    requires size { length values.old ≡ length places.now }
    requires differ { Differ place places.now }
    ensures size { length values.new ≡ length values.old }
    ensures unscaled { Unscales places.now place values.old values.new result (length places.now) }
{
    let mut sum = 0u8;
    for j in 0..places.len() {
        values[j] = mul(values[j], inv(places[j] ^ place));
        sum ^= values[j];
    }
    sum
}

/// The values at different positions with these moments.
fn solve(places: &[u8], moments: &mut [u8], values: &mut [u8])
    requires moments { length moments.old ≡ length places.now }
    requires values { length values.old ≡ length places.now }
    requires differ { AllDiffer places.now }
    ensures size { length values.new ≡ length values.old }
    ensures solved { Solves places.now moments.old values.new }
{
    if places.is_empty() {
        return;
    }
    let place = places[0];
    let first = moments[0];
    let count = places.len();
    take_out(moments, place);
    solve(&places[1..], &mut moments[..count - 1], &mut values[1..]);
    let sum = unscale(&places[1..], place, &mut values[1..]);
    values[0] = first ^ sum;
}

fn correct(word: &mut [u8; 204], places: &[u8], values: &[u8])
    requires size { length values.now ≡ length places.now }
    requires within { All (λ k. k < 204) places.now }
    requires bytes { (i : ℕ) → slice_index word.old i < 256 }
    ensures is { word.new ≡ corrected word.old places.now values.now }
    ensures size { length word.new ≡ 204 }
    ensures bytes { (i : ℕ) → slice_index word.new i < 256 }
{
    for j in 0..places.len() {
        let at = 203 - places[j] as usize;
        word[at] ^= values[j];
    }
}

fn powers(places: &Places) -> [u8; 16]
    requires { places.now.count ≤ 16 }
    ensures { take places.now.count result ≡ map field.power (take places.now.count places.now.at) }
{
    let mut found = [0u8; 16];
    for j in 0..places.count {
        found[j] = power(places.at[j]);
    }
    found
}

/// The codeword that differs from a word only at positions that are roots of a polynomial, if there is one; otherwise
/// any word.
///
/// `values` are the word's syndromes. The polynomial is not 0 and has at most 17 coefficients, that of x^0 first. The
/// position of byte i is λ^(203 - i).
pub fn repair(word: &[u8; 204], values: &[u8; 16], polynomial: &[u8]) -> [u8; 204]
    requires values { AreSyndromes word.now values.now }
    requires size { length polynomial.now ≤ 17 }
    requires some { IsNonzero polynomial.now }
    ensures is { (c : List ℕ) → IsCodeword c → DifferAtRoots polynomial.now word.now c → result ≡ c }
    ensures size { length result ≡ 204 }
    ensures bytes { (i : ℕ) → slice_index result i < 256 }
{
    let places = find_places(polynomial);
    let count = places.count;
    let found = powers(&places);
    let mut moments = *values;
    let mut errors = [0u8; 16];
    solve(&found[..count], &mut moments[..count], &mut errors[..count]);
    let mut fixed = *word;
    correct(&mut fixed, &places.at[..count], &errors[..count]);
    fixed
}

/// The codeword within distance 8 of a word, if there is one; otherwise any word.
pub(crate) fn nearest(word: &[u8; 204], values: &[u8; 16]) -> [u8; 204]
    requires { AreSyndromes word.now values.now }
    ensures near { (c : List ℕ) → IsCodeword c → distance word.now c ≤ 8 → result ≡ c }
    ensures size { length result ≡ 204 }
    ensures bytes { (i : ℕ) → slice_index result i < 256 }
{
    let polynomial = locator(values, 8);
    repair(word, values, polynomial.as_slice())
}
