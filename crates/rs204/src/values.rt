// The values of a polynomial at the positions of a word, twelve at a time.

ghost use Rattle.std.specs.Prelude.{◌≡◌, ◌+◌, ◌*◌, ◌<◌, ◌≤◌, ℕ, length, slice_index, take};
ghost use Rattle.gf256.specs.Field as field;
ghost use Rattle.rs204.specs.Division.{Holds};
ghost use Rattle.rs204.specs.Polynomials.{value_at};
ghost use Rattle.rs204.specs.Values.{term_values};

use crate::terms::{high, low};
use gf256::Elem;

/// The values of a term at the first sixteen powers of λ.
#[inline]
fn term_at(coefficient: u8, exponent: usize) -> u128
    requires { exponent < 17 }
    ensures { Holds result (term_values coefficient exponent 0 16) }
{
    let at = 16 * exponent;
    low(at + (coefficient % 16) as usize) ^ high(at + (coefficient / 16) as usize)
}

/// The values of a polynomial at the first sixteen powers of λ.
fn first_values(terms: &[u8; 17], count: usize) -> [u8; 16]
    requires { count ≤ 17 }
    ensures { (i : ℕ) → i < 16 → slice_index result i ≡ value_at (field.power i) (take count terms.now) }
{
    let mut sum = 0u128;
    for j in 0..count {
        sum ^= term_at(terms[j], j);
    }
    sum.to_le_bytes()
}

/// Replaces a polynomial of x by that of λ^12 * x.
fn advance(terms: &mut [u8; 17], count: usize)
    requires { count ≤ 17 }
    ensures size { length terms.new ≡ 17 }
    ensures each { (k : ℕ) → k < count → slice_index terms.new k
        ≡ field.mul (slice_index terms.old k) (field.power (12 * k)) }
{
    for j in 0..count {
        terms[j] = Elem(terms[j]).times_power(12 * j as u8).0;
    }
}

fn terms_of(polynomial: &[u8]) -> [u8; 17]
    requires { length polynomial.now ≤ 17 }
    ensures size { length result ≡ 17 }
    ensures each { (k : ℕ) → k < length polynomial.now → slice_index result k ≡ slice_index polynomial.now k }
{
    let mut terms = [0u8; 17];
    for j in 0..polynomial.len() {
        terms[j] = polynomial[j];
    }
    terms
}

/// Writes the first twelve of these values after the earlier ones.
fn put_twelve(values: &mut [u8; 204], from: usize, next: &[u8; 16])
    requires { from ≤ 192 }
    ensures size { length values.new ≡ 204 }
    ensures before { (k : ℕ) → k < from → slice_index values.new k ≡ slice_index values.old k }
    ensures put { (i : ℕ) → i < 12 → slice_index values.new (from + i) ≡ slice_index next.now i }
{
    for i in 0..12usize {
        values[from + i] = next[i];
    }
}

/// The values of a polynomial at the powers of λ for a word's positions.
pub(crate) fn values_at_places(polynomial: &[u8]) -> [u8; 204]
    requires { length polynomial.now ≤ 17 }
    ensures size { length result ≡ 204 }
    ensures each { (k : ℕ) → k < 204 → slice_index result k ≡ value_at (field.power k) polynomial.now }
{
    let count = polynomial.len();
    let mut terms = terms_of(polynomial);
    let mut values = [0u8; 204];
    for block in 0..17usize {
        let next = first_values(&terms, count);
        put_twelve(&mut values, 12 * block, &next);
        advance(&mut terms, count);
    }
    values
}
