// From labels to cells.
ghost use Rattle.std.specs.Prelude.{◌≡◌, ◌/◌, ◌<◌, ◌≤◌, ◌^◌, ℕ, ◌∷◌, [], length, slice_index, take};
ghost use Rattle.spec_words.specs.Bits.{is_set};
ghost use Rattle.mode_set.specs.Levels.{levels as levels_of};
ghost use Rattle.mode_set.specs.StreamTable.{label_bits};
ghost use Rattle.mode_set.specs.declared.modes.Hierarchy.{Hierarchy as AnyHierarchy};
ghost use Rattle.qam_map.specs.Points.{map_cell, ring_of, spacing as spacing_of, tolerance as tolerance_of, value_of};

use crate::Cell;
use mode_set::{
    Constellation, Hierarchy, Qam16A1, Qam16A2, Qam16A4, Qam64A1, Qam64A2, Qam64A4, Qpsk, Shape,
};

/// The levels of an axis, outermost first, as 16384 times the standard's normalised values (EN 300 744, 4.3.5): those
/// of the constellation's type in `mode_set`.
///
/// QPSK has one level, 16-QAM two and 64-QAM four. Without a hierarchy they are those of α = 1.
pub fn levels(shape: Shape, hierarchy: Hierarchy) -> &'static [u16]
    ensures levels { result.now ≡ levels_of shape hierarchy }
    ensures small { (k : ℕ) → slice_index result.now k < 20000 }
{
    match shape {
        Shape::Qpsk => Qpsk::levels(),
        Shape::Qam16 => match hierarchy {
            Hierarchy::Flat | Hierarchy::Alpha1 => Qam16A1::levels(),
            Hierarchy::Alpha2 => Qam16A2::levels(),
            Hierarchy::Alpha4 => Qam16A4::levels(),
        },
        Shape::Qam64 => match hierarchy {
            Hierarchy::Flat | Hierarchy::Alpha1 => Qam64A1::levels(),
            Hierarchy::Alpha2 => Qam64A2::levels(),
            Hierarchy::Alpha4 => Qam64A4::levels(),
        },
    }
}

// The index of the level, outermost first, that the bits after the sign select.
fn ring(shape: Shape, outer: bool, inner: bool) -> u8
    ensures is { result ≡ ring_of shape outer inner }
    ensures small { (hierarchy : AnyHierarchy) → result < length (levels_of shape hierarchy) }
{
    match shape {
        Shape::Qpsk => 0,
        Shape::Qam16 => outer as u8,
        Shape::Qam64 => match (outer, inner) {
            (false, false) => 0,
            (false, true) => 1,
            (true, true) => 2,
            (true, false) => 3,
        },
    }
}

// The value that three bits select on an axis: the sign, and the bits after it.
fn axis_value(shape: Shape, hierarchy: Hierarchy, sign: bool, outer: bool, inner: bool) -> i16
    ensures { result ≡ value_of shape hierarchy (take (label_bits shape / 2) (sign ∷ outer ∷ inner ∷ [])) }
{
    let level = levels(shape, hierarchy)[ring(shape, outer, inner) as usize] as i16;
    if sign { -level } else { level }
}

fn bit(label: u8, place: u8) -> bool
    requires { place < 8 }
    ensures { result ≡ is_set label place }
{
    (label >> place) & 1 == 1
}

/// The cell of a label: bit e of the label is y_e of EN 300 744, 4.3.5. y0, y2 and y4 select the real part, y1, y3 and
/// y5 the imaginary part; the first of them is the sign. The label is below 2^v, where v is the number of bits of a
/// cell.
pub fn map(shape: Shape, hierarchy: Hierarchy, label: u8) -> Cell
    requires { label < 2 ^ label_bits shape }
    ensures { result ≡ map_cell shape hierarchy (is_set label) }
{
    Cell {
        re: axis_value(
            shape,
            hierarchy,
            bit(label, 0),
            bit(label, 2),
            bit(label, 4),
        ),
        im: axis_value(
            shape,
            hierarchy,
            bit(label, 1),
            bit(label, 3),
            bit(label, 5),
        ),
    }
}

/// The least distance between two values of an axis: between adjacent levels, or between the innermost one and its
/// opposite.
pub fn spacing(shape: Shape, hierarchy: Hierarchy) -> u16
    ensures spacing { result ≡ spacing_of shape hierarchy }
    ensures some { 3153 ≤ result }
{
    let levels = levels(shape, hierarchy);
    match shape {
        Shape::Qpsk => 2 * levels[0],
        Shape::Qam16 => (2 * levels[1]).min(levels[0] - levels[1]),
        Shape::Qam64 => (levels[0] - levels[1])
            .min(levels[1] - levels[2])
            .min(levels[2] - levels[3])
            .min(2 * levels[3]),
    }
}

/// How far a cell may be from its point on each axis so that each bit of the point still costs less than its
/// complement: a quarter of the spacing, rounded down.
pub fn tolerance(shape: Shape, hierarchy: Hierarchy) -> u16
    ensures { result ≡ tolerance_of shape hierarchy }
{
    spacing(shape, hierarchy) / 4
}
