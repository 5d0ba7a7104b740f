// Division of a word by the generator, four bytes at a time.

ghost use Rattle.std.specs.Prelude.{ℕ, List};
ghost use Rattle.rs204.specs.Codes.{rest_of};
ghost use Rattle.rs204.specs.Division.{Holds, divided};

use crate::multiples::{first, second};
use crate::multiples_ahead::{fourth, third};

/// The value of the fourth highest byte of a register.
const FOURTH_HIGHEST: u128 = 0x1_00000000_00000000_00000000;

/// The register after four steps of the division, with these bytes of the word shifted in: the remainders of its four
/// leading coefficients are added to the others.
#[inline]
fn four_steps(register: u128, a: u8, b: u8, c: u8, d: u8) -> u128
    ensures { (bytes : List ℕ) → Holds register bytes → Holds result (divided (divided (divided (divided bytes a) b) c)
        d) }
{
    let next = a as u128 + b as u128 * 256 + c as u128 * 65536 + d as u128 * 16777216;
    let moved = register / 4294967296 + next * FOURTH_HIGHEST;
    let low = (register % 4294967296) as u32;
    moved
        ^ first((low / 16777216) as u8)
        ^ second((low / 65536 % 256) as u8)
        ^ third((low / 256 % 256) as u8)
        ^ fourth((low % 256) as u8)
}

/// The remainder of a word: sixteen coefficients, that of x^15 in the lowest byte.
pub(crate) fn rest(word: &[u8; 204]) -> u128
    ensures { Holds result (rest_of 188 word.now) }
{
    let mut register = 0u128;
    for i in 0..51usize {
        let at = 4 * i;
        register = four_steps(register, word[at], word[at + 1], word[at + 2], word[at + 3]);
    }
    register
}
