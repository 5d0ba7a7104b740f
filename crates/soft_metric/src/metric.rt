// The costs of single bits.
ghost use Rattle.std.specs.Prelude.{◌≡◌, ◌<◌, ℕ, slice_index_or, true, false};
ghost use Rattle.mode_set.specs.StreamTable.{label_bits};
ghost use Rattle.qam_map.specs.Points.{on_axis};
ghost use Rattle.qam_map.specs.declared.cell.Cell.{Cell as AnyCell};
ghost use Rattle.soft_metric.specs.Costs.{cost, costs_at_place};
ghost use Rattle.soft_metric.specs.Squares.{IsSmallPair};

use crate::AxisMetric;
use mode_set::{Hierarchy, Shape};
use qam_map::Cell;

/// The costs of the values 0 and 1 of the bit at a place of the label that a cell carries.
///
/// The cost of a value is the least squared distance of the cell, on the place's axis, to the
/// points whose label has the value there, divided by 2^18 and rounded down, and at most 4095. The place
/// is below the number of bits a cell.
pub fn costs(shape: Shape, hierarchy: Hierarchy, cell: Cell, place: u8) -> (u16, u16)
    requires { place < label_bits shape }
    ensures zero { result.0 ≡ cost shape hierarchy (on_axis cell place) place false }
    ensures one { result.1 ≡ cost shape hierarchy (on_axis cell place) place true }
    ensures small { IsSmallPair result }
{
    let x = if place % 2 == 0 { cell.re } else { cell.im };
    AxisMetric::new(shape, hierarchy).costs(x)[place as usize / 2]
}

/// The costs of the values 0 and 1 of the bit at a place of the label that each of sixteen cells
/// carries: those of `costs`, sixteen times, in lanes.
pub fn costs_lanes(
    shape: Shape,
    hierarchy: Hierarchy,
    cells: &[Cell; 16],
    place: u8,
) -> [(u16, u16); 16]
    requires { place < label_bits shape }
    ensures costs { (k : ℕ) (d : AnyCell) → k < 16 → slice_index_or result k (0, 0)
        ≡ costs_at_place shape hierarchy (slice_index_or cells.now k d) place }
    ensures small { (k : ℕ) → k < 16 → IsSmallPair (slice_index_or result k (0, 0)) }
{
    AxisMetric::new(shape, hierarchy).costs_lanes(cells, place)
}
