// The reference sequence.
ghost use Rattle.std.specs.Prelude.{◌≡◌};
ghost use Rattle.pilots.specs.Reference.{reference};
ghost use Rattle.pilots.specs.Tables.{reference_words};

// The sequence repeats after this number of bits.
const PERIOD: u32 = 2047;

// One period: bit k is bit k mod 64 of word k div 64.
#[rattlefmt::skip]
static BITS: [u64; 32] = [
    0x037F8CC1E03007FF, 0xBE6CF1E7CF34D21D, 0x8B3ED31D29D1628F, 0x23FACC4B5EDCE34F,
    0xB19297BD93687158, 0x2F04D5E23052A2EF, 0xE6E5B092BD137D26, 0x770D81C0355222FA,
    0xCDB49217A8C41F56, 0xA33AD3B792685BF6, 0x8D41DFC99E96425F, 0x88415FDCC9E16570,
    0x9D963DAC91E83152, 0x3AAC44A0BAB913D7, 0x0CFE19A96E8E41A0, 0x5777272F2E7B0C7E,
    0x5809542205008015, 0x2B51228515D76270, 0xD4375277A73A790C, 0x40F54DDE36525D09,
    0x2B7B8C6B5B893E86, 0x10D7E2650F7E730D, 0xB2ED1B7C735876A7, 0x91682405FF6670F2,
    0x6DDB638F94C21FA9, 0x54F74D8B6B8EC1B5, 0x7C2605AA3BAC6E0E, 0x8C3E0655A23AF919,
    0x6BA46F5B23853F79, 0xFF4CDE1CFCB3478A, 0x5022AFBB392C2E04, 0x1996971728D14821,
];

fn bits() -> &'static [u64; 32]
    ensures { result.now ≡ reference_words }
{
    &BITS
}

/// Bit w_k of the reference sequence, which gives the pilots of carrier `k` their sign (EN 300 744, 4.5.2): a pilot is
/// negative if it is 1.
pub fn reference(k: u32) -> bool
    ensures { result ≡ reference k }
{
    let place = k % PERIOD;
    bits()[(place / 64) as usize] >> (place % 64) & 1 == 1
}
