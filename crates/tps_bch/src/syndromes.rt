// Syndromes of the code: remainders of division by the generator.
ghost use Rattle.std.specs.Prelude.{◌≡◌, ℕ, ◌<◌, ◌≤◌, ◌^◌, ◌≢◌, length, IfSome, IfNone, bit_xor};
ghost use Rattle.tps_bch.specs.Syndromes.{syndromes, syndrome_by, syndrome_at};

/// The remainders of x^66 to x^0, each with the coefficient of x^13 as bit 13: entry `i` is the syndrome of a single
/// error in bit s_(i+1).
#[rattlefmt::skip]
static SYNDROMES: [u16; 67] = [
    0x2302, 0x1181, 0x297B, 0x3506, 0x1A83, 0x2CFA, 0x167D, 0x2A85,
    0x34F9, 0x3BC7, 0x3C58, 0x1E2C, 0x0F16, 0x078B, 0x227E, 0x113F,
    0x2924, 0x1492, 0x0A49, 0x249F, 0x33F4, 0x19FA, 0x0CFD, 0x27C5,
    0x3259, 0x3897, 0x3DF0, 0x1EF8, 0x0F7C, 0x07BE, 0x03DF, 0x2054,
    0x102A, 0x0815, 0x25B1, 0x3363, 0x380A, 0x1C05, 0x2FB9, 0x3667,
    0x3A88, 0x1D44, 0x0EA2, 0x0751, 0x2213, 0x30B2, 0x1859, 0x2D97,
    0x3770, 0x1BB8, 0x0DDC, 0x06EE, 0x0377, 0x2000, 0x1000, 0x0800,
    0x0400, 0x0200, 0x0100, 0x0080, 0x0040, 0x0020, 0x0010, 0x0008,
    0x0004, 0x0002, 0x0001,
];

fn table() -> &'static [u16; 67]
    ensures { result.now ≡ syndromes }
{
    &SYNDROMES
}

/// The syndrome of up to 67 bits: 0 exactly if 67 bits are a word of the code.
pub(crate) fn syndrome(bits: &[bool]) -> u16
    requires { length bits.now ≤ 67 }
    ensures { result ≡ syndrome_by syndromes bits.now }
{
    let rests = table();
    let mut sum = 0;
    for (i, bit) in bits.iter().enumerate() {
        if *bit {
            sum ^= rests[i];
        }
    }
    sum
}

/// The position of a single error with this syndrome.
pub(crate) fn place_of(syndrome: u16) -> Option<usize>
    ensures found { IfSome result (λ i. (i < 67) × (syndrome_at i ≡ syndrome)) }
    ensures none { IfNone result ((i : ℕ) → i < 67 → syndrome_at i ≢ syndrome) }
{
    table().iter().position(|rest| *rest == syndrome)
}

/// The positions of two errors with this syndrome.
pub(crate) fn places_of(syndrome: u16) -> Option<(usize, usize)>
    ensures found { IfSome result (λ two. (two.0 < 67) × (two.1 < 67)
        × (bit_xor (syndrome_at two.0) (syndrome_at two.1) ≡ syndrome)) }
    ensures none { IfNone result ((i j : ℕ) → i < 67 → j < 67 → bit_xor (syndrome_at i) (syndrome_at j) ≢ syndrome) }
{
    for (i, rest) in table().iter().enumerate() {
        if let Some(j) = place_of(rest ^ syndrome) {
            return Some((i, j));
        }
    }
    None
}
