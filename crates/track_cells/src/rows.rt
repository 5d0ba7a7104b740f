// The coefficients of the interpolation in frequency.
ghost use Rattle.std.specs.Prelude.{◌≡◌, ◌<◌, ◌≤◌, ◌^◌, map, get_or, length};
ghost use Rattle.spec_words.specs.Words.{numbers};
ghost use Rattle.tracking.specs.InFrequency.{frequency_row};
ghost use Rattle.track_cells.specs.Sizes.{size_to};

use crate::coefficients::{GUARD_1_OF_4, GUARD_1_OF_8, GUARD_1_OF_16, GUARD_1_OF_32};
use mode_set::Guard;

// All rows for a guard interval.
fn rows(guard: Guard) -> &'static [[i16; 12]; 34]
    ensures { result.now ≡ map (frequency_row guard) (numbers 34) }
{
    match guard {
        Guard::G1of32 => &GUARD_1_OF_32,
        Guard::G1of16 => &GUARD_1_OF_16,
        Guard::G1of8 => &GUARD_1_OF_8,
        Guard::G1of4 => &GUARD_1_OF_4,
    }
}

// Row `t`. The sum of the absolute values bounds each sum that it weighs.
pub(crate) fn row(guard: Guard, t: usize) -> &'static [i16; 12]
    requires { t < 34 }
    ensures is { result.now ≡ frequency_row guard t }
    ensures small { size_to 12 result.now ≤ 58154 }
{
    &rows(guard)[t]
}
