// The bits in which words differ.
ghost use Rattle.std.specs.Prelude.{◌≡◌, ◌<◌, ◌≤◌, not, count_by};
ghost use Rattle.std.specs.Bool.{beq};
ghost use Rattle.spec_words.specs.Bits.{is_set};
ghost use Rattle.spec_words.specs.Words.{numbers};
ghost use Rattle.measurement.specs.SuperFrames.{bits_apart};
ghost use Rattle.measure_words.specs.Sums.{byte_apart};

/// The number of bits in which two bytes differ.
fn bits_of_byte(one: u8, other: u8) -> u32
    ensures is { result ≡ count_by (λ i. not (beq (is_set one i) (is_set other i))) (numbers 8) }
    ensures few { result ≤ 8 }
{
    (one ^ other).count_ones()
}

/// The number of bits in which byte `p` of two words differs.
fn bits_at(one: &[u8; 204], other: &[u8; 204], p: usize) -> u32
    requires p { p < 204 }
    ensures is { result ≡ byte_apart one.now other.now p }
    ensures few { result ≤ 8 }
{
    bits_of_byte(one[p], other[p])
}

/// The number of bits in which two words differ.
pub(crate) fn bits_apart(one: &[u8; 204], other: &[u8; 204]) -> u64
    ensures is { result ≡ bits_apart one.now other.now }
    ensures few { result ≤ 1632 }
{
    let mut bits = 0;
    for p in 0..204usize {
        bits += bits_at(one, other, p) as u64;
    }
    bits
}
