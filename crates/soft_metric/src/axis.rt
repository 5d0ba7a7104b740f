// The costs of all bits of one axis.
ghost use Rattle.std.specs.Prelude.{◌≡◌, ◌+◌, ◌*◌, ◌/◌, ◌^◌, ◌<◌, ◌≤◌, ℕ, min, if◌then◌else◌, length, slice_index};
ghost use Rattle.std.specs.Prelude.{slice_index_or, true, false};
ghost use Rattle.std.specs.Int.{abs_diff};
ghost use Rattle.mode_set.specs.Levels.{levels as levels_of};
ghost use Rattle.mode_set.specs.StreamTable.{label_bits};
ghost use Rattle.soft_metric.specs.Costs.{cost, costs_at_place, four_levels};
ghost use Rattle.qam_map.specs.declared.cell.Cell.{Cell as AnyCell};
ghost use Rattle.soft_metric.specs.Squares.{AreAxisCosts, IsSmallPair};
ghost use Rattle.soft_metric.specs.Weights.{weighted};

use crate::lanes::costs_by_lanes;
use crate::planes::{Axes, write_planes};
use mode_set::{Hierarchy, Shape};
use qam_map::{Cell, levels};
use std::marker::Model;

/// The metric of the axes of a constellation. It is seen as the constellation and its hierarchy.
#[derive(Drop)]
pub struct AxisMetric {
    shape: Shape,
    hierarchy: Hierarchy,
    // from the outermost to the innermost
    levels: [u16; 4],
}

impl Model for AxisMetric {
    ghost use Rattle.std.specs.Prelude.{◌≡◌};
    ghost use Rattle.mode_set.specs.Levels.{levels as levels_of};
    ghost use Rattle.mode_set.specs.declared.modes.Shape.{Shape};
    ghost use Rattle.mode_set.specs.declared.modes.Hierarchy.{Hierarchy};
    ghost use Rattle.soft_metric.specs.Costs.{four_levels};

    ghost Value = { Shape × Hierarchy };

    ghost view = { λ m. (m.shape, m.hierarchy) };

    ghost invariant = { λ m. m.levels ≡ four_levels (levels_of m.shape m.hierarchy) };
}

// Four levels: each of one or two levels again for the bits that choose none.
fn four_levels(shape: Shape, hierarchy: Hierarchy) -> [u16; 4]
    ensures { result ≡ four_levels (levels_of shape hierarchy) }
{
    let levels = levels(shape, hierarchy);
    let number = levels.len();
    [
        levels[0],
        levels[number / 4],
        levels[number / 2],
        levels[number - 1],
    ]
}

fn near_square(magnitude: u32, level: u32) -> u32
    requires magnitude { magnitude ≤ 32768 }
    requires level { level ≤ 20000 }
    ensures { result ≡ abs_diff magnitude level ^ 2 }
{
    // the square of the difference, also where it is below zero
    let gap = magnitude.wrapping_sub(level);
    gap.wrapping_mul(gap)
}

fn far_square(magnitude: u32, level: u32) -> u32
    requires magnitude { magnitude ≤ 32768 }
    requires level { level ≤ 20000 }
    ensures { result ≡ (magnitude + level) ^ 2 }
{
    let gap = magnitude + level;
    gap * gap
}

fn scaled(square: u32) -> u16
    ensures { result ≡ min 4095 (square / 2 ^ 18) }
{
    (square >> 18).min(4095) as u16
}

fn in_order(positive: bool, near: u16, far: u16) -> (u16, u16)
    ensures zero { result.0 ≡ (if positive then near else far) }
    ensures one { result.1 ≡ (if positive then far else near) }
{
    if positive { (near, far) } else { (far, near) }
}

// The costs of an axis with these four levels, from the outermost to the innermost.
fn costs_of(levels: [u16; 4], positive: bool, magnitude: u32) -> [(u16, u16); 3]
    requires magnitude { magnitude ≤ 32768 }
    requires levels { (k : ℕ) → slice_index levels k ≤ 20000 }
    ensures { AreAxisCosts levels positive magnitude result }
{
    let first = near_square(magnitude, levels[0] as u32);
    let second = near_square(magnitude, levels[1] as u32);
    let third = near_square(magnitude, levels[2] as u32);
    let last = near_square(magnitude, levels[3] as u32);
    let outer = first.min(second);
    let inner = third.min(last);
    let near = scaled(outer.min(inner));
    let far = scaled(far_square(magnitude, levels[3] as u32));
    [
        in_order(positive, near, far),
        (scaled(outer), scaled(inner)),
        (scaled(first.min(last)), scaled(second.min(third))),
    ]
}

impl AxisMetric {
    /// The metric of a constellation.
    pub fn new(shape: Shape, hierarchy: Hierarchy) -> AxisMetric
        ensures { result ≡ (shape, hierarchy) }
    {
        AxisMetric {
            shape,
            hierarchy,
            levels: four_levels(shape, hierarchy),
        }
    }

    /// The costs of the values 0 and 1 of the bits of an axis with the value `x`: first of the sign,
    /// place 0 or 1 of the label, then of places 2 or 3, and of places 4 or 5, as far as the label
    /// has them.
    pub fn costs(&self, x: i16) -> [(u16, u16); 3]
        ensures costs { (e : ℕ) → e < label_bits self.now.0 → slice_index_or result (e / 2) (0, 0)
            ≡ (cost self.now.0 self.now.1 x e false, cost self.now.0 self.now.1 x e true) }
        ensures small { (k : ℕ) → k < 3 → IsSmallPair (slice_index_or result k (0, 0)) }
    {
        costs_of(self.levels, x >= 0, x.unsigned_abs() as u32)
    }
    /// The costs of the values 0 and 1 at a place of the label of each of sixteen cells.
    pub fn costs_lanes(&self, cells: &[Cell; 16], place: u8) -> [(u16, u16); 16]
        requires { place < label_bits self.now.0 }
        ensures costs { (k : ℕ) (d : AnyCell) → k < 16 → slice_index_or result k (0, 0)
            ≡ costs_at_place self.now.0 self.now.1 (slice_index_or cells.now k d) place }
        ensures small { (k : ℕ) → k < 16 → IsSmallPair (slice_index_or result k (0, 0)) }
    {
        costs_by_lanes(self.shape, self.hierarchy, self.levels, cells, place)
    }

    /// Writes the costs of the values 0 and 1 at each place of the label of each of many cells, by the
    /// cells' weights: those of `costs_lanes`, each as `weighted` makes it. Those at the first place of
    /// all cells come first, then those at the next one; what comes after them stays.
    pub fn write_weighted_costs(&self, cells: &[Cell], weights: &[u8], to: &mut [(u16, u16)])
        requires weights_long { length weights.now ≡ length cells.now }
        requires weights { (k : ℕ) → k < length cells.now → slice_index weights.now k ≤ 15 }
        requires room { label_bits self.now.0 * length cells.now ≤ length to.old }
        ensures costs { (k e : ℕ) (d : AnyCell) → k < length cells.now → e < label_bits self.now.0
            → slice_index_or to.new (e * length cells.now + k) (0, 0)
            ≡ weighted (costs_at_place self.now.0 self.now.1 (slice_index_or cells.now k d) e)
            (slice_index weights.now k) }
        ensures small { (k : ℕ) → IsSmallPair (slice_index_or to.old k (0, 0))
            → IsSmallPair (slice_index_or to.new k (0, 0)) }
        ensures rest { (k : ℕ) → label_bits self.now.0 * length cells.now ≤ k → slice_index_or to.new k (0, 0)
            ≡ slice_index_or to.old k (0, 0) }
        ensures long { length to.new ≡ length to.old }
    {
        let axes = Axes {
            shape: self.shape,
            hierarchy: self.hierarchy,
            levels: self.levels,
        };
        write_planes(axes, cells, weights, to);
    }
}
