// Costs by the weight of their cell.
ghost use Rattle.std.specs.Prelude.{◌≡◌, ◌*◌, ◌/◌, ◌%◌, ◌^◌, ◌<◌, ◌≤◌, ℕ, slice_index, IsTrue};
ghost use Rattle.std.specs.Simd.Lanes.{zip2};
ghost use Rattle.soft_metric.specs.Squares.{IsSmallPair};
ghost use Rattle.soft_metric.specs.Weights.{weighted as weighted_by};

use std::simd::num::SimdUint;
use std::simd::{u16x16, u32x16};

/// The costs of the values 0 and 1 of a bit, weighed by how far its cell can be trusted: each is
/// multiplied by the weight and divided by 15, rounded down.
///
/// The weight is at most 15, which changes nothing; 0 leaves no cost. The costs are at most 4095.
pub fn weighted(pair: (u16, u16), weight: u8) -> (u16, u16)
    requires weight { weight ≤ 15 }
    requires costs { IsSmallPair pair }
    ensures weighted { result ≡ weighted_by pair weight }
    ensures small { IsSmallPair result }
{
    let weight = weight as u16;
    (pair.0 * weight / 15, pair.1 * weight / 15)
}

// Costs by weights in each lane.
fn weighed(costs: u16x16, weights: u16x16) -> u16x16
    ensures { result ≡ zip2 (λ cost weight. cost * weight % 2 ^ 16 / 15) costs weights }
{
    let products: u32x16 = (costs * weights).cast();
    // a fifteenth is 34953 / 2^19: the upper half of a product, which is one instruction, and its eighth
    let high: u16x16 = (products * u32x16::splat(34953) >> u32x16::splat(16)).cast();
    high >> u16x16::splat(3)
}

// The same, for weights that are known to be full, if `FULL`: they change nothing.
pub(crate) fn weighed_by<const FULL: bool>(costs: u16x16, weights: u16x16) -> u16x16
    requires costs { (k : ℕ) → k < 16 → slice_index costs k ≤ 4095 }
    requires full { IsTrue FULL → (k : ℕ) → k < 16 → slice_index weights k ≡ 15 }
    ensures { result ≡ zip2 (λ cost weight. cost * weight % 2 ^ 16 / 15) costs weights }
{
    if FULL {
        return costs;
    }
    weighed(costs, weights)
}
