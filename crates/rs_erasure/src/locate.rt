// A polynomial whose roots are the erased positions and the errors outside them.

ghost use Rattle.std.specs.Prelude.{◌≡◌, ◌<◌, ◌≤◌, ◌++◌, [], ◌∷◌, ℕ, length, map, slice_index};
ghost use Rattle.std.specs.List.{All};
ghost use Rattle.rs204.specs.Codes.{with_root};
ghost use Rattle.rs_erasure.specs.Locating.{IsProduct, lowered, place_power};

use gf256::Elem;
use rs204::steps::take_out;

/// The powers of λ for positions of a word.
pub(crate) fn place_powers(places: &[u8; 8]) -> [u8; 8]
    requires { All (λ e. e < 204) places.now }
    ensures { result ≡ map place_power places.now }
{
    let mut found = [0u8; 8];
    for k in 0..8usize {
        found[k] = Elem::power(203 - places[k]).0;
    }
    found
}

/// The modified syndromes: the syndromes with the erased positions removed. The first eight are values of the errors
/// outside the erasures only.
pub(crate) fn modified_syndromes(values: &[u8; 16], powers: &[u8; 8]) -> [u8; 16]
    ensures { (i : ℕ) → i < 8 → slice_index result i ≡ lowered powers.now (λ k. slice_index values.now k) i }
{
    let mut left = *values;
    for power in powers {
        take_out(&mut left, *power);
    }
    left
}

/// Multiplies a polynomial by x + root.
fn multiply(polynomial: &mut [u8; 13], root: u8)
    requires { slice_index polynomial.old 12 ≡ 0 }
    ensures is { with_root root polynomial.old ≡ polynomial.new ++ 0 ∷ [] }
    ensures bytes { (i : ℕ) → slice_index polynomial.new i < 256 }
{
    let mut carry = 0u8;
    for coefficient in polynomial.iter_mut() {
        let higher = *coefficient;
        *coefficient = Elem(root).mul(Elem(higher)).0 ^ carry;
        carry = higher;
    }
}

/// The errata locator: a locator of degree four, times x + root for each erased place.
pub(crate) fn errata_locator(locator: &[u8; 9], powers: &[u8; 8]) -> [u8; 13]
    requires { (j : ℕ) → 5 ≤ j → slice_index locator.now j ≡ 0 }
    ensures is { IsProduct powers.now locator.now result }
    ensures size { length result ≡ 13 }
{
    let mut product = [0u8; 13];
    product[..9].copy_from_slice(locator);
    for power in powers {
        multiply(&mut product, *power);
    }
    product
}
