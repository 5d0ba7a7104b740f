// The field's operations on bytes.

ghost use Rattle.std.specs.Prelude.{◌≡◌, ◌≢◌};
ghost use Rattle.gf256.specs.Field as field;

use gf256::Elem;

/// The product of two elements.
#[inline]
pub(crate) fn mul(a: u8, b: u8) -> u8
    ensures { result ≡ field.mul a b }
{
    Elem(a).mul(Elem(b)).0
}

/// A power of λ.
#[inline]
pub(crate) fn power(exponent: u8) -> u8
    ensures { result ≡ field.power exponent }
{
    Elem::power(exponent).0
}

/// The inverse of a nonzero element.
#[inline]
pub(crate) fn inv(a: u8) -> u8
    requires { a ≢ 0 }
    ensures { field.mul a result ≡ 1 }
{
    Elem(a).inv().0
}
