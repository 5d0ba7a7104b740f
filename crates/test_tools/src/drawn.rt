// Random numbers and bits of a linear congruential generator, which independent programs generate too.
ghost use Rattle.std.specs.Prelude.{◌≤◌};

use bit_pack::WaitBuf;

/// The next number, which is also the generator's next state.
pub fn next_number(state: &mut u32) -> u32 {
    *state = state.wrapping_mul(1664525).wrapping_add(1013904223);
    *state
}

/// The next byte: the highest bits of the next number.
pub fn next_byte(state: &mut u32) -> u8 {
    (next_number(state) >> 24) as u8
}

/// Appends random bytes to the queue until it has `count` bits.
pub fn fill(state: &mut u32, count: usize, to: &mut WaitBuf)
    requires { count ≤ 36000 }
{
    for _ in 0..4608u32 {
        if to.waiting() < count {
            to.push_byte(next_byte(state));
        }
    }
}
