// Directions by sixty-fourths of a turn.
ghost use Rattle.std.specs.Prelude.{◌≡◌, ℕ, ◌+◌, ◌*◌, ◌%◌, ◌<◌, ◌≤◌, ◌^◌, map, nat_abs};
ghost use Rattle.spec_words.specs.Words.{numbers};
ghost use Rattle.track_arithmetic.specs.Laws.{IsWithin};
ghost use Rattle.track_arithmetic.specs.Numbers.{cosine, turned_by};
ghost use Rattle.track_cells.specs.Weighed.{part_at};

use track_arithmetic::Complex;

// 2^14 times the cosine of each sixty-fourth of a turn, the nearest whole number.
#[rattlefmt::skip]
static COSINES: [i16; 64] = [
    16384, 16305, 16069, 15679, 15137, 14449, 13623, 12665, 11585, 10394, 9102, 7723, 6270, 4756, 3196, 1606,
    0, -1606, -3196, -4756, -6270, -7723, -9102, -10394, -11585, -12665, -13623, -14449, -15137, -15679, -16069, -16305,
    -16384, -16305, -16069, -15679, -15137, -14449, -13623, -12665, -11585, -10394, -9102, -7723, -6270, -4756, -3196,
        -1606,
    0, 1606, 3196, 4756, 6270, 7723, 9102, 10394, 11585, 12665, 13623, 14449, 15137, 15679, 16069, 16305,
];

fn cosines() -> &'static [i16; 64]
    ensures { result.now ≡ map cosine (numbers 64) }
{
    &COSINES
}

// The cosine of `i` sixty-fourths of a turn.
fn cosine(i: u32) -> i64
    requires { i < 64 }
    ensures is { result ≡ cosine i }
    ensures within { nat_abs result ≤ 2 ^ 14 }
{
    i64::from(cosines()[i as usize])
}

// The direction of `i` sixty-fourths of a turn.
#[tactic(auto, unfolding(track_arithmetic::specs::Numbers::turned_by))]
pub(crate) fn turned_by(i: u32) -> Complex
    requires { i < 2 ^ 31 }
    ensures is { result ≡ turned_by i }
    ensures within { IsWithin (2 ^ 14) result }
{
    Complex {
        re: cosine(i % 64),
        im: cosine((i + 48) % 64),
    }
}

// The cosine in 16 bits.
fn short_cosine(i: u32) -> i16
    requires { i < 64 }
    ensures is { result ≡ cosine i }
    ensures within { nat_abs result ≤ 2 ^ 14 }
{
    cosine(i) as i16
}

// The cosines of the turns back of the 192 carriers from carrier 15 on, each `ahead` sixty-fourths further. They
// repeat each 192 carriers.
pub(crate) fn cosines_back(slope: u32, ahead: u32) -> [i16; 192]
    requires slope { slope ≤ 8 }
    requires ahead { ahead < 64 }
    ensures is { (j : ℕ) → j < 192 → part_at result j ≡ cosine ((63 * ((15 + j) * slope) + ahead) % 64) }
    ensures within { (j : ℕ) → j < 192 → nat_abs (part_at result j) ≤ 2 ^ 14 }
{
    let mut back = [0i16; 192];
    for j in 0..192 {
        back[j] = short_cosine((63 * ((15 + j as u32) * slope) + ahead) % 64);
    }
    back
}
