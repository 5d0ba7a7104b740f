// The power with which a cell counts whole.
ghost use Rattle.std.specs.Prelude.{◌≡◌, ℕ, ◌+◌, ◌*◌, ◌/◌, ◌<◌, ◌≤◌, ◌^◌, length, max, sum_by};
ghost use Rattle.spec_words.specs.Words.{numbers};
ghost use Rattle.mode_set.specs.StreamTable.{carriers};
ghost use Rattle.tracking.specs.Correction.{full_power, full_ratio, mean_power};
ghost use Rattle.track_arithmetic.specs.Numbers.{power};
ghost use Rattle.track_cells.specs.Gains.{gain_of, AreWithin};

use mode_set::{Mode, Shape};
use track_arithmetic::Complex;

// The sum of the powers.
fn total_power(gains: &[Complex]) -> u64
    requires few { length gains.now ≤ 6817 }
    requires gains { AreWithin (2 ^ 25) gains.now }
    ensures is { result ≡ sum_by (λ k. power (gain_of gains.now k)) (numbers (length gains.now)) }
    ensures most { result ≤ length gains.now * 2 ^ 51 }
{
    let mut total: u64 = 0;
    for k in 0..gains.len() {
        total += gains[k].power();
    }
    total
}

/// The mean power of the gain over all carriers of a symbol, rounded down, and 1 at least. No part of a gain
/// exceeds 2^25.
#[tactic(auto, unfolding(tracking::specs::Correction::mean_power))]
pub fn mean_power(mode: Mode, gains: &[Complex]) -> u64
    requires carriers { length gains.now ≡ carriers mode }
    requires gains { AreWithin (2 ^ 25) gains.now }
    ensures is { result ≡ mean_power mode (gain_of gains.now) }
    ensures some { 1 ≤ result }
    ensures most { result ≤ 2 ^ 51 }
{
    (total_power(gains) / u64::from(mode.carriers())).max(1)
}

// The ratio of power to noise from which a cell counts whole.
fn full_ratio(shape: Shape) -> u64
    ensures is { result ≡ full_ratio shape }
    ensures most { result ≤ 100 }
{
    match shape {
        Shape::Qpsk => 8,
        Shape::Qam16 => 25,
        Shape::Qam64 => 100,
    }
}

/// The power of the gain at which a cell has full weight: by the noise of the continual pilots, and 3/2
/// of the mean power at most. The mean is at most 2^51, the noise at most 2^44, and there are 1 to 177
/// pilots.
pub fn full_power(shape: Shape, mean: u64, noise: u64, pilots: u64) -> u64
    requires mean { mean ≤ 2 ^ 51 }
    requires noise { noise ≤ 2 ^ 44 }
    requires some { 1 ≤ pilots }
    requires most { pilots ≤ 177 }
    ensures is { result ≡ full_power shape mean noise pilots }
    ensures some { 1 ≤ result }
    ensures most { result ≤ 2 ^ 52 }
{
    let by_noise = 4096 * (full_ratio(shape) * noise) / (9 * pilots);
    (3 * mean / 2).min(by_noise).max(1)
}
