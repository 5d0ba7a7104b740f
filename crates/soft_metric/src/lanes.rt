// The costs of sixteen values of an axis at once.
ghost use Rattle.std.specs.Prelude.{◌≡◌, ◌+◌, ◌-◌, ◌/◌, ◌^◌, ◌<◌, ◌≤◌, ℕ, min, map, slice_index, slice_index_or};
ghost use Rattle.std.specs.Simd.Lanes.{zip2};
ghost use Rattle.std.specs.Int.{abs_diff};
ghost use Rattle.mode_set.specs.Levels.{levels as levels_of};
ghost use Rattle.mode_set.specs.StreamTable.{label_bits};
ghost use Rattle.qam_map.specs.Points.{on_axis};
ghost use Rattle.qam_map.specs.declared.cell.Cell.{Cell as AnyCell};
ghost use Rattle.soft_metric.specs.Costs.{costs_at_place, four_levels};
ghost use Rattle.soft_metric.specs.Squares.{IsSmallPair, lane_magnitude, lane_zero, lane_one, lane_value, pair_at};
ghost use Rattle.soft_metric.specs.Squares.{scaled as scaled_of};

use mode_set::{Hierarchy, Shape};
use qam_map::Cell;
use std::simd::cmp::{SimdOrd, SimdPartialOrd};
use std::simd::num::SimdUint;
use std::simd::{u16x16, u32x16};

// The lesser one in each lane.
fn lesser(a: u16x16, b: u16x16) -> u16x16
    ensures { result ≡ zip2 min a b }
{
    a.simd_min(b)
}

// The costs of the squares of these distances.
fn scaled(gaps: u16x16) -> u16x16
    ensures { result ≡ map (λ gap. scaled_of (gap ^ 2)) gaps }
{
    let wide: u32x16 = gaps.cast();
    // the upper half of the square, which is one instruction
    let high: u16x16 = (wide * wide >> u32x16::splat(16)).cast();
    lesser(high >> u16x16::splat(2), u16x16::splat(4095))
}

// The magnitudes of values modulo 2^16.
fn magnitudes_of(values: u16x16) -> u16x16
    ensures values { result ≡ map lane_magnitude values }
    ensures small { (k : ℕ) → k < 16 → slice_index result k ≤ 32768 }
{
    lesser(values, u16x16::splat(0) - values)
}

// The costs of the squared distances to a level on the values' side of 0, by their magnitudes.
fn near_costs(magnitudes: u16x16, level: u16) -> u16x16
    requires magnitudes { (k : ℕ) → k < 16 → slice_index magnitudes k ≤ 32768 }
    requires level { (1 ≤ level) × (level ≤ 20000) }
    ensures { result ≡ map (λ magnitude. scaled_of (abs_diff magnitude level ^ 2)) magnitudes }
{
    // a distance has 16 bits with its sign, so that the upper half of its square is one instruction
    let gaps = magnitudes - u16x16::splat(level) + u16x16::splat(32768);
    let wide = gaps.cast() - u32x16::splat(32768);
    let high: u16x16 = (wide * wide >> u32x16::splat(16)).cast();
    high >> u16x16::splat(2)
}

// The costs of the values 0 and 1 of the bit of axis number `axis`, where a value of an axis is
// given modulo 2^16.
pub(crate) fn lane_costs(levels: [u16; 4], axis: u8, values: u16x16) -> (u16x16, u16x16)
    requires axis { axis < 3 }
    requires levels { (k : ℕ) → slice_index levels k ≤ 20000 }
    requires above { (k : ℕ) → k < 4 → 1 ≤ slice_index levels k }
    ensures zero { result.0 ≡ map (lane_zero levels axis) values }
    ensures one { result.1 ≡ map (lane_one levels axis) values }
{
    let magnitudes = magnitudes_of(values);
    let first = near_costs(magnitudes, levels[0]);
    let second = near_costs(magnitudes, levels[1]);
    let third = near_costs(magnitudes, levels[2]);
    let last = near_costs(magnitudes, levels[3]);
    match axis {
        0 => {
            let near = lesser(lesser(first, second), lesser(third, last));
            let far = scaled(magnitudes + u16x16::splat(levels[3]));
            let positive = values.simd_lt(u16x16::splat(32768));
            (positive.select(near, far), positive.select(far, near))
        }
        1 => (lesser(first, second), lesser(third, last)),
        _ => (lesser(first, last), lesser(second, third)),
    }
}

// The value of a cell on the axis of a place, modulo 2^16.
pub(crate) fn value_of(cell: Cell, place: u8) -> u16
    ensures { lane_value result ≡ on_axis cell place }
{
    let x = if place % 2 == 0 { cell.re } else { cell.im };
    x.cast_unsigned()
}

// Those of sixteen cells.
pub(crate) fn values_of(cells: &[Cell; 16], place: u8) -> [u16; 16]
    ensures { (k : ℕ) (d : AnyCell) → k < 16 → lane_value (slice_index result k)
        ≡ on_axis (slice_index_or cells.now k d) place }
{
    let mut values = [0; 16];
    for k in 0..16 {
        values[k] = value_of(cells[k], place);
    }
    values
}

pub(crate) fn in_pairs(zero: [u16; 16], one: [u16; 16]) -> [(u16, u16); 16]
    ensures { (k : ℕ) → k < 16 → pair_at result k ≡ (slice_index zero k, slice_index one k) }
{
    let mut pairs = [(0, 0); 16];
    for k in 0..16 {
        pairs[k] = (zero[k], one[k]);
    }
    pairs
}

// The costs at a place of sixteen cells, by the levels of an axis.
pub(crate) fn costs_by_lanes(
    shape: Shape,
    hierarchy: Hierarchy,
    levels: [u16; 4],
    cells: &[Cell; 16],
    place: u8,
) -> [(u16, u16); 16]
    requires place { place < label_bits shape }
    requires levels { levels ≡ four_levels (levels_of shape hierarchy) }
    ensures costs { (k : ℕ) (d : AnyCell) → k < 16 → pair_at result k
        ≡ costs_at_place shape hierarchy (slice_index_or cells.now k d) place }
    ensures small { (k : ℕ) → k < 16 → IsSmallPair (pair_at result k) }
{
    let values = u16x16::from_array(values_of(cells, place));
    let (zero, one) = lane_costs(levels, place / 2, values);
    in_pairs(zero.to_array(), one.to_array())
}
