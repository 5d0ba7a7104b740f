// Sums of bytes.
ghost use Rattle.std.specs.Prelude.{◌≡◌, ◌+◌, ◌%◌, ◌^◌, sum};

/// The sum of bytes, added to another one modulo 2^32.
pub(crate) fn sum_onto(start: u32, bytes: &[u8]) -> u32
    ensures { result ≡ (start + sum bytes.now) % 2 ^ 32 }
{
    let mut total = start;
    for byte in bytes {
        total = total.wrapping_add(u32::from(*byte));
    }
    total
}
