//! The field of 256 elements over which the outer code is defined (EN 300 744, 4.3.2).
//!
//! An element is a byte whose bit i is the coefficient of x^i. A sum is the XOR, a product is the carry-less product
//! modulo x^8 + x^4 + x^3 + x^2 + 1, and λ is the element 2. The code multiplies with tables of powers and logarithms.
#![tactic(auto)]

ghost use Rattle.std.specs.Prelude.{◌≡◌, ◌≢◌, ◌<◌, bit_xor};
ghost use Rattle.gf256.specs.Field as field;

pub mod laws;
mod tables;

use tables::{logarithm_at, power_at};

/// An element of the field.
#[derive(Clone, Copy, Debug, Default, PartialEq, Eq)]
pub struct Elem(pub u8);

impl Elem {
    /// The sum of two elements, which is also their difference.
    pub fn add(self, other: Elem) -> Elem
        ensures { result.0 ≡ bit_xor self.0 other.0 }
    {
        Elem(self.0 ^ other.0)
    }

    /// The product of two elements.
    pub fn mul(self, other: Elem) -> Elem
        ensures { result.0 ≡ field.mul self.0 other.0 }
    {
        let sum = logarithm_at(self.0) + logarithm_at(other.0);
        Elem(power_at(sum as usize))
    }

    /// The product with a power of λ, which saves a look-up.
    pub fn times_power(self, exponent: u8) -> Elem
        ensures { result.0 ≡ field.mul self.0 (field.power exponent) }
    {
        let sum = logarithm_at(self.0) + exponent as u16;
        Elem(power_at(sum as usize))
    }

    /// The inverse of a nonzero element.
    pub fn inv(self) -> Elem
        requires { self.0 ≢ 0 }
        ensures { field.mul self.0 result.0 ≡ 1 }
    {
        Elem::power(255 - self.log())
    }

    /// A power of λ.
    pub fn power(exponent: u8) -> Elem
        ensures { result.0 ≡ field.power exponent }
    {
        Elem(power_at(exponent as usize))
    }

    /// The logarithm of a nonzero element: the number below 255 whose power it is.
    pub fn log(self) -> u8
        requires { self.0 ≢ 0 }
        ensures below { result < 255 }
        ensures is { field.power result ≡ self.0 }
    {
        logarithm_at(self.0) as u8
    }
}
