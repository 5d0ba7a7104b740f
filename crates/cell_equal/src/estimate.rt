// Guesses at a corrected cell and its weight. They have no contract; the caller tests each of them.
ghost use Rattle.std.specs.Prelude.{◌≤◌, ◌^◌, nat_abs};

// About 2^60 divided by the square of 21845 times each distance between two pilots.
#[rattlefmt::skip]
static SHARES: [u64; 13] = [
    0, 2415992834, 603998209, 268443649, 150999553, 96639714,
    67110913, 49305977, 37749889, 29827073, 24159929, 19966883, 16777729,
];

// The integer nearest to a float, if it is a value of a cell. The last digit of the sum is worth 2^-20, so its integer
// part is above its last 20 bits.
fn near(quotient: f64) -> i16 {
    let sum = quotient + 6442450944.5;
    if sum >= 1.0 {
        ((sum.to_bits() >> 20 & 0xFFFF) as u16).cast_signed()
    } else {
        0
    }
}

// About the inverse of a power.
pub(crate) fn inverse(n: u64) -> f64
    requires { n ≤ 2 ^ 39 }
{
    1.0 / (n as i64) as f64
}

// About the value of a cell nearest to x / n, from the inverse of n.
pub(crate) fn value(x: i64, inverse: f64) -> i16
    requires { nat_abs x ≤ 2 ^ 53 }
{
    near(x as f64 * inverse)
}

// About the quotient of a power and a unit, the square of 21845 times the distance between the pilots. The power is at
// most 15 units.
pub(crate) fn weight(power: u64, span: u8) -> u8
    requires { span ≤ 12 }
    ensures { result ≤ 15 }
{
    (power.wrapping_mul(SHARES[span as usize]) >> 60) as u8
}
