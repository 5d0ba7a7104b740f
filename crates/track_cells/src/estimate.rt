// Guesses at a corrected cell. No clause depends on them: callers test each guess.
ghost use Rattle.std.specs.Prelude.{◌^◌};
ghost use Rattle.track_arithmetic.specs.Laws.{IsWithin};

use qam_map::Cell;
use track_arithmetic::Complex;

// The whole number nearest to a float, if that is a value of a cell.
// The last digit of the sum is worth 2^-20, so its whole part stands above its last 20 bits.
fn near(quotient: f64) -> i16 {
    let sum = quotient + 6442450944.5;
    if sum >= 1.0 {
        ((sum.to_bits() >> 20 & 0xFFFF) as u16).cast_signed()
    } else {
        0
    }
}

// About the parts of the cell divided by the gain.
pub(crate) fn parts(gain: Complex, cell: Cell) -> (i16, i16)
    requires { IsWithin (2 ^ 25) gain }
{
    let (u, v) = (f64::from(gain.re as i32), f64::from(gain.im as i32));
    let (re, im) = (f64::from(cell.re), f64::from(cell.im));
    let scale = 349520.0 / (u * u + v * v);
    (
        near((re * u + im * v) * scale),
        near((im * u - re * v) * scale),
    )
}
