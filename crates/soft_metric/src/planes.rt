// The weighted costs of all places of the labels of many cells.
ghost use Rattle.std.specs.Prelude.{◌≡◌, ◌+◌, ◌-◌, ◌*◌, ◌/◌, ◌%◌, ◌<◌, ◌≤◌, ℕ, length, map, slice_index};
ghost use Rattle.std.specs.Prelude.{slice_index_or, IsTrue};
ghost use Rattle.mode_set.specs.Levels.{levels as levels_of};
ghost use Rattle.mode_set.specs.StreamTable.{label_bits};
ghost use Rattle.qam_map.specs.Points.{on_axis};
ghost use Rattle.qam_map.specs.declared.cell.Cell.{Cell as AnyCell};
ghost use Rattle.soft_metric.specs.Costs.{four_levels};
ghost use Rattle.soft_metric.specs.Planes.{IsWrittenAt, WritesCosts};
ghost use Rattle.soft_metric.specs.Squares.{lane_pair, lane_value, pair_at};
ghost use Rattle.soft_metric.specs.Weights.{weighted as weighted_by};

use crate::lanes::{lane_costs, value_of};
use crate::metric::costs;
use crate::weight::{weighed_by, weighted};
use mode_set::{Hierarchy, Shape};
use qam_map::Cell;
use std::simd::num::SimdUint;
use std::simd::{u16x16, u32x16};

// A constellation, and the four levels of its axes from the outermost to the innermost.
#[derive(Clone, Copy, Drop)]
pub(crate) struct Axes {
    pub(crate) shape: Shape,
    pub(crate) hierarchy: Hierarchy,
    pub(crate) levels: [u16; 4],
}

// A cell in a lane of 32 bits: its real part modulo 2^16 in the lower half, its imaginary part in the upper one.
fn lane_of(cell: Cell) -> u32
    ensures real { lane_value (result % 65536) ≡ on_axis cell 0 }
    ensures imaginary { lane_value (result / 65536) ≡ on_axis cell 1 }
{
    65536 * value_of(cell, 1) as u32 + value_of(cell, 0) as u32
}

// Sixteen cells in a row, each in a lane of 32 bits.
fn lanes_from(cells: &[Cell], first: usize) -> [u32; 16]
    requires { first + 16 ≤ length cells.now }
    ensures real { (j : ℕ) (d : AnyCell) → j < 16 → lane_value (slice_index result j % 65536)
        ≡ on_axis (slice_index_or cells.now (first + j) d) 0 }
    ensures imaginary { (j : ℕ) (d : AnyCell) → j < 16 → lane_value (slice_index result j / 65536)
        ≡ on_axis (slice_index_or cells.now (first + j) d) 1 }
{
    let mut lanes = [0; 16];
    for k in 0..16 {
        lanes[k] = lane_of(cells[first + k]);
    }
    lanes
}

// The real parts of cells in lanes of 32 bits.
fn real_parts(cells: u32x16) -> u16x16
    ensures { result ≡ map (λ c. c % 65536) cells }
{
    (cells & u32x16::splat(65535)).cast()
}

// The imaginary parts.
fn imaginary_parts(cells: u32x16) -> u16x16
    ensures { result ≡ map (λ c. c / 65536) cells }
{
    (cells >> u32x16::splat(16)).cast()
}

// The values of sixteen cells in a row on both axes, modulo 2^16.
fn values_from(cells: &[Cell], first: usize) -> (u16x16, u16x16)
    requires { first + 16 ≤ length cells.now }
    ensures real { (j : ℕ) (d : AnyCell) → j < 16 → lane_value (slice_index result.0 j)
        ≡ on_axis (slice_index_or cells.now (first + j) d) 0 }
    ensures imaginary { (j : ℕ) (d : AnyCell) → j < 16 → lane_value (slice_index result.1 j)
        ≡ on_axis (slice_index_or cells.now (first + j) d) 1 }
{
    let lanes = u32x16::from_array(lanes_from(cells, first));
    (real_parts(lanes), imaginary_parts(lanes))
}

// The weights of sixteen cells in a row.
fn weights_from(weights: &[u8], first: usize) -> [u16; 16]
    requires { first + 16 ≤ length weights.now }
    ensures { (j : ℕ) → j < 16 → slice_index result j ≡ slice_index weights.now (first + j) }
{
    let mut lanes = [0; 16];
    for k in 0..16 {
        lanes[k] = weights[first + k] as u16;
    }
    lanes
}

// Puts sixteen pairs in place of those from number `first` on.
fn put_pairs(to: &mut [(u16, u16)], first: usize, zero: [u16; 16], one: [u16; 16])
    requires { first + 16 ≤ length to.old }
    ensures long { length to.new ≡ length to.old }
    ensures here { (k : ℕ) → k < 16 → pair_at to.new (first + k) ≡ (slice_index zero k, slice_index one k) }
    ensures below { (k : ℕ) → k < first → pair_at to.new k ≡ pair_at to.old k }
    ensures above { (k : ℕ) → first + 16 ≤ k → pair_at to.new k ≡ pair_at to.old k }
{
    for k in 0..16 {
        to[first + k] = (zero[k], one[k]);
    }
}

// The weights of sixteen cells in lanes. None is read if all are known to be full.
fn lane_weights<const FULL: bool>(weights: &[u8], first: usize) -> u16x16
    requires within { first + 16 ≤ length weights.now }
    requires full { IsTrue FULL → (k : ℕ) → k < length weights.now → slice_index weights.now k ≡ 15 }
    ensures { (j : ℕ) → j < 16 → slice_index result j ≡ slice_index weights.now (first + j) }
{
    if FULL {
        u16x16::splat(15)
    } else {
        u16x16::from_array(weights_from(weights, first))
    }
}

// The values of sixteen cells on an axis, and the weights of the cells.
#[derive(Clone, Copy, Drop)]
struct Sixteen {
    values: u16x16,
    weights: u16x16,
}

// Lanes with the second and the third quarter exchanged. The instructions that separate the parts of cells, and those
// that make pairs, work within halves of vectors, where this is their order: in it they need no further instruction.
fn turned(lanes: u16x16) -> u16x16
    ensures long { length result ≡ 16 }
    ensures lanes { (k : ℕ) → k < 16 → slice_index result k ≡ slice_index lanes (k / 8 * 4 + k / 4 % 2 * 8 + k % 4) }
{
    lanes.swizzle([0, 1, 2, 3, 8, 9, 10, 11, 4, 5, 6, 7, 12, 13, 14, 15])
}

// Writes the weighted costs of the bit of axis number `axis` of sixteen cells.
#[inline(always)]
fn write_lanes<const FULL: bool>(
    levels: [u16; 4],
    axis: u8,
    values: u16x16,
    weights: u16x16,
    to: &mut [(u16, u16)],
    first: usize,
)
    requires axis { axis < 3 }
    requires levels { (k : ℕ) → slice_index levels k ≤ 20000 }
    requires above { (k : ℕ) → k < 4 → 1 ≤ slice_index levels k }
    requires weights { (k : ℕ) → k < 16 → slice_index weights k ≤ 15 }
    requires full { IsTrue FULL → (k : ℕ) → k < 16 → slice_index weights k ≡ 15 }
    requires room { first + 16 ≤ length to.old }
    ensures long { length to.new ≡ length to.old }
    ensures here { (k : ℕ) → k < 16 → pair_at to.new (first + k)
        ≡ weighted_by (lane_pair levels axis (slice_index values k)) (slice_index weights k) }
    ensures below { (k : ℕ) → k < first → pair_at to.new k ≡ pair_at to.old k }
    ensures above { (k : ℕ) → first + 16 ≤ k → pair_at to.new k ≡ pair_at to.old k }
{
    let lane_values = turned(values);
    let lane_weights = turned(weights);
    let (zero, one) = lane_costs(levels, axis, lane_values);
    put_pairs(
        to,
        first,
        turned(weighed_by::<FULL>(zero, lane_weights)).to_array(),
        turned(weighed_by::<FULL>(one, lane_weights)).to_array(),
    );
}

// Writes the weighted costs at one place of sixteen cells from number `q` on, which have these values
// on the place's axis.
#[inline(always)]
fn write_place<const FULL: bool>(
    axes: Axes,
    cells: &[Cell],
    weights: &[u8],
    sixteen: Sixteen,
    place: u8,
    q: usize,
    to: &mut [(u16, u16)],
)
    requires levels { axes.levels ≡ four_levels (levels_of axes.shape axes.hierarchy) }
    requires place { place < label_bits axes.shape }
    requires weights_long { length weights.now ≡ length cells.now }
    requires weights { (k : ℕ) → k < length cells.now → slice_index weights.now k ≤ 15 }
    requires full { IsTrue FULL → (k : ℕ) → k < length weights.now → slice_index weights.now k ≡ 15 }
    requires within { q + 16 ≤ length cells.now }
    requires values { (j : ℕ) (d : AnyCell) → j < 16 → lane_value (slice_index sixteen.values j)
        ≡ on_axis (slice_index_or cells.now (q + j) d) (place % 2) }
    requires lane_weights { (j : ℕ) → j < 16 → slice_index sixteen.weights j ≡ slice_index weights.now (q + j) }
    requires room { label_bits axes.shape * length cells.now ≤ length to.old }
    ensures writes { WritesCosts axes.shape axes.hierarchy cells.now weights.now to.old to.new }
    ensures here { (k : ℕ) → q ≤ k → k < q + 16
        → IsWrittenAt axes.shape axes.hierarchy cells.now weights.now to.new place k }
{
    let first = place as usize * cells.len() + q;
    write_lanes::<FULL>(
        axes.levels,
        place / 2,
        sixteen.values,
        sixteen.weights,
        to,
        first,
    );
}

// Writes the weighted costs at all places of the axis of `side`, 0 or 1, of sixteen cells from number
// `q` on, which have these values on the axis. It has no loop, so that the compiler knows each place.
#[inline(always)]
fn write_side<const PLACES: u8, const FULL: bool>(
    axes: Axes,
    cells: &[Cell],
    weights: &[u8],
    sixteen: Sixteen,
    side: u8,
    q: usize,
    to: &mut [(u16, u16)],
)
    requires levels { axes.levels ≡ four_levels (levels_of axes.shape axes.hierarchy) }
    requires places { label_bits axes.shape ≡ PLACES }
    requires side { side < 2 }
    requires weights_long { length weights.now ≡ length cells.now }
    requires weights { (k : ℕ) → k < length cells.now → slice_index weights.now k ≤ 15 }
    requires full { IsTrue FULL → (k : ℕ) → k < length weights.now → slice_index weights.now k ≡ 15 }
    requires within { q + 16 ≤ length cells.now }
    requires values { (j : ℕ) (d : AnyCell) → j < 16 → lane_value (slice_index sixteen.values j)
        ≡ on_axis (slice_index_or cells.now (q + j) d) side }
    requires lane_weights { (j : ℕ) → j < 16 → slice_index sixteen.weights j ≡ slice_index weights.now (q + j) }
    requires room { label_bits axes.shape * length cells.now ≤ length to.old }
    ensures writes { WritesCosts axes.shape axes.hierarchy cells.now weights.now to.old to.new }
    ensures here { (e k : ℕ) → e < label_bits axes.shape → e % 2 ≡ side → q ≤ k → k < q + 16
        → IsWrittenAt axes.shape axes.hierarchy cells.now weights.now to.new e k }
{
    match PLACES {
        2 => write_place::<FULL>(axes, cells, weights, sixteen, side, q, to),
        4 => {
            write_place::<FULL>(axes, cells, weights, sixteen, side, q, to);
            write_place::<FULL>(axes, cells, weights, sixteen, 2 + side, q, to);
        }
        _ => {
            write_place::<FULL>(axes, cells, weights, sixteen, side, q, to);
            write_place::<FULL>(axes, cells, weights, sixteen, 2 + side, q, to);
            write_place::<FULL>(axes, cells, weights, sixteen, 4 + side, q, to);
        }
    }
}

// Writes the weighted costs at all places of sixteen cells from number `q` on.
#[inline(always)]
fn write_sixteen<const PLACES: u8, const FULL: bool>(
    axes: Axes,
    cells: &[Cell],
    weights: &[u8],
    q: usize,
    to: &mut [(u16, u16)],
)
    requires levels { axes.levels ≡ four_levels (levels_of axes.shape axes.hierarchy) }
    requires places { label_bits axes.shape ≡ PLACES }
    requires weights_long { length weights.now ≡ length cells.now }
    requires weights { (k : ℕ) → k < length cells.now → slice_index weights.now k ≤ 15 }
    requires full { IsTrue FULL → (k : ℕ) → k < length weights.now → slice_index weights.now k ≡ 15 }
    requires within { q + 16 ≤ length cells.now }
    requires room { label_bits axes.shape * length cells.now ≤ length to.old }
    ensures writes { WritesCosts axes.shape axes.hierarchy cells.now weights.now to.old to.new }
    ensures here { (e k : ℕ) → e < label_bits axes.shape → q ≤ k → k < q + 16
        → IsWrittenAt axes.shape axes.hierarchy cells.now weights.now to.new e k }
{
    let (real, imaginary) = values_from(cells, q);
    let weighed = lane_weights::<FULL>(weights, q);
    let of_real = Sixteen {
        values: real,
        weights: weighed,
    };
    let of_imaginary = Sixteen {
        values: imaginary,
        weights: weighed,
    };
    write_side::<PLACES, FULL>(axes, cells, weights, of_real, 0, q, to);
    write_side::<PLACES, FULL>(axes, cells, weights, of_imaginary, 1, q, to);
}

// Writes the weighted costs at all places of one cell. Not worth a copy for each constellation.
#[inline(never)]
fn write_one(
    shape: Shape,
    hierarchy: Hierarchy,
    cells: &[Cell],
    weights: &[u8],
    q: usize,
    to: &mut [(u16, u16)],
)
    requires weights_long { length weights.now ≡ length cells.now }
    requires weights { (k : ℕ) → k < length cells.now → slice_index weights.now k ≤ 15 }
    requires within { q < length cells.now }
    requires room { label_bits shape * length cells.now ≤ length to.old }
    ensures writes { WritesCosts shape hierarchy cells.now weights.now to.old to.new }
    ensures here { (e : ℕ) → e < label_bits shape → IsWrittenAt shape hierarchy cells.now weights.now to.new e q }
{
    for place in 0..shape.label_bits() {
        let pair = costs(shape, hierarchy, cells[q], place);
        to[place as usize * cells.len() + q] = weighted(pair, weights[q]);
    }
}

// Writes the weighted costs at all places of many cells, sixteen at once and the rest one by one.
fn write_cells<const PLACES: u8, const FULL: bool>(
    axes: Axes,
    cells: &[Cell],
    weights: &[u8],
    to: &mut [(u16, u16)],
)
    requires levels { axes.levels ≡ four_levels (levels_of axes.shape axes.hierarchy) }
    requires weights_long { length weights.now ≡ length cells.now }
    requires weights { (k : ℕ) → k < length cells.now → slice_index weights.now k ≤ 15 }
    requires full { IsTrue FULL → (k : ℕ) → k < length weights.now → slice_index weights.now k ≡ 15 }
    requires places { label_bits axes.shape ≡ PLACES }
    requires room { label_bits axes.shape * length cells.now ≤ length to.old }
    ensures writes { WritesCosts axes.shape axes.hierarchy cells.now weights.now to.old to.new }
    ensures here { (k e : ℕ) → k < length cells.now → e < label_bits axes.shape
        → IsWrittenAt axes.shape axes.hierarchy cells.now weights.now to.new e k }
{
    let mut q = 0;
    while q + 16 <= cells.len() {
        write_sixteen::<PLACES, FULL>(axes, cells, weights, q, to);
        q += 16;
    }
    while q < cells.len() {
        write_one(axes.shape, axes.hierarchy, cells, weights, q, to);
        q += 1;
    }
}

// Writes them by the number of places, which then is a constant.
fn write_by_shape<const FULL: bool>(
    axes: Axes,
    cells: &[Cell],
    weights: &[u8],
    to: &mut [(u16, u16)],
)
    requires levels { axes.levels ≡ four_levels (levels_of axes.shape axes.hierarchy) }
    requires room { label_bits axes.shape * length cells.now ≤ length to.old }
    requires weights_long { length weights.now ≡ length cells.now }
    requires weights { (k : ℕ) → k < length cells.now → slice_index weights.now k ≤ 15 }
    requires full { IsTrue FULL → (k : ℕ) → k < length weights.now → slice_index weights.now k ≡ 15 }
    ensures writes { WritesCosts axes.shape axes.hierarchy cells.now weights.now to.old to.new }
    ensures here { (k e : ℕ) → k < length cells.now → e < label_bits axes.shape
        → IsWrittenAt axes.shape axes.hierarchy cells.now weights.now to.new e k }
{
    match axes.shape {
        Shape::Qpsk => write_cells::<2, FULL>(axes, cells, weights, to),
        Shape::Qam16 => write_cells::<4, FULL>(axes, cells, weights, to),
        Shape::Qam64 => write_cells::<6, FULL>(axes, cells, weights, to),
    }
}

// Whether all of these weights are 15.
fn are_full(weights: &[u8]) -> bool
    requires { (k : ℕ) → k < length weights.now → slice_index weights.now k ≤ 15 }
    ensures { IsTrue result → (k : ℕ) → k < length weights.now → slice_index weights.now k ≡ 15 }
{
    let mut least = 15;
    for k in 0..weights.len() {
        least = weights[k].min(least);
    }
    least == 15
}

// Writes the weighted costs at all places of many cells. Full weights, which change nothing, take less.
pub(crate) fn write_planes(axes: Axes, cells: &[Cell], weights: &[u8], to: &mut [(u16, u16)])
    requires levels { axes.levels ≡ four_levels (levels_of axes.shape axes.hierarchy) }
    requires weights_long { length weights.now ≡ length cells.now }
    requires weights { (k : ℕ) → k < length cells.now → slice_index weights.now k ≤ 15 }
    requires room { label_bits axes.shape * length cells.now ≤ length to.old }
    ensures writes { WritesCosts axes.shape axes.hierarchy cells.now weights.now to.old to.new }
    ensures here { (k e : ℕ) → k < length cells.now → e < label_bits axes.shape
        → IsWrittenAt axes.shape axes.hierarchy cells.now weights.now to.new e k }
{
    if are_full(weights) {
        write_by_shape::<true>(axes, cells, weights, to);
    } else {
        write_by_shape::<false>(axes, cells, weights, to);
    }
}
