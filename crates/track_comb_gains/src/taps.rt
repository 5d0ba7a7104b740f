// The taps of the four symbols around a symbol at which a point is a scattered pilot.
ghost use Rattle.std.specs.Prelude.{◌≡◌, ℕ, ◌+◌, ◌-◌, ◌*◌, ◌<◌, ◌≤◌, length, get_or, map, false, true};
ghost use Rattle.spec_words.specs.Words.{numbers};
ghost use Rattle.tracking.specs.Comb.{Comb};
ghost use Rattle.tracking.specs.InTime.{counting, place};
ghost use Rattle.track_motion.specs.Around.{IsAround, IsLook};
ghost use Rattle.track_motion.specs.Places.{in_file};
ghost use Rattle.track_comb_gains.specs.Kept.{has, kept_tap, kept_taps, number_of, places_of};
ghost use Rattle.track_cells.specs.Sizes.{size_to};

use crate::tables::{FAST, SLOW};
use track_motion::Surroundings;
use tracking::Motion;

// The number with these bits.
fn number_of(first: bool, second: bool, third: bool, last: bool) -> usize
    ensures is { result ≡ number_of first second third last }
    ensures few { result < 16 }
{
    usize::from(first) + 2 * usize::from(second) + 4 * usize::from(third) + 8 * usize::from(last)
}

// The flags of the four places at a distance, as the bits of a number.
fn flags(places: &[bool; 16], d: usize) -> usize
    requires { d < 4 }
    ensures is { result ≡ number_of (get_or places.now (place d 0) false) (get_or places.now (place d 1) false)
        (get_or places.now (place d 2) false) (get_or places.now (place d 3) false) }
    ensures few { result < 16 }
{
    number_of(places[3 - d], places[7 - d], places[11 - d], places[15 - d])
}

// The symbols that count at a distance: the good ones, or all that are there if none is good.
fn counting(around: &Surroundings, d: usize) -> usize
    requires { d < 4 }
    ensures is { (c : Comb) (m : ℕ) → IsAround c m around.now → counting c m d ≡ places_of d result }
    ensures there { (count m i : ℕ) → IsLook count m around.now → i < 4 → has result i ≡ true
        → in_file count m (place d i) ≡ true }
    ensures few { result < 16 }
{
    let good = flags(&around.good, d);
    if good == 0 {
        flags(&around.there, d)
    } else {
        good
    }
}

// The same for each distance.
pub(crate) fn all_counting(around: &Surroundings) -> [usize; 4]
    ensures is { (c : Comb) (m d : ℕ) → IsAround c m around.now → d < 4 → counting c m d
        ≡ places_of d (get_or result d 0) }
    ensures there { (count m d i : ℕ) → IsLook count m around.now → d < 4 → i < 4 → has (get_or result d 0) i ≡ true
        → in_file count m (place d i) ≡ true }
    ensures few { (d : ℕ) → d < 4 → get_or result d 0 < 16 }
{
    let mut counts = [0; 4];
    for d in 0..4 {
        counts[d] = counting(around, d);
    }
    counts
}

// The table of a motion.
fn table(motion: Motion) -> &'static [[i16; 4]; 64]
    ensures { result.now ≡ map (kept_taps motion) (numbers 64) }
{
    match motion {
        Motion::Slow => &SLOW,
        Motion::Fast => &FAST,
    }
}

/// The taps of the four symbols at a distance, where those that count are the bits of `n`.
pub(crate) fn taps(motion: Motion, d: usize, n: usize) -> &'static [i16; 4]
    requires d { d < 4 }
    requires n { n < 16 }
    ensures is { result.now ≡ map (kept_tap motion d n) (numbers 4) }
    ensures small { size_to 4 result.now ≤ 5620 }
{
    &table(motion)[16 * d + n]
}
