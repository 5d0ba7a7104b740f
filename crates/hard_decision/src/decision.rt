// Hard decisions by the middles between the levels of an axis.
ghost use Rattle.std.specs.Prelude.{◌≡◌, ◌<◌, ◌≤◌, ℕ, false, slice_index_or};
ghost use Rattle.spec_words.specs.Bits.{is_set};
ghost use Rattle.mode_set.specs.Levels.{levels as levels_of};
ghost use Rattle.mode_set.specs.StreamTable.{label_bits};
ghost use Rattle.qam_map.specs.Points.{distance, map_cell};
ghost use Rattle.qam_map.specs.declared.cell.Cell.{Cell as AnyCell};
ghost use Rattle.hard_decision.specs.Bounds.{bounds};
ghost use Rattle.hard_decision.specs.Hard.{axis_bit, hard_bit};

use mode_set::{Hierarchy, Shape};
use qam_map::{levels, spacing};
use std::marker::Model;

/// Makes the hard decisions on the axes of a constellation. It is seen as the constellation and its hierarchy.
#[derive(Drop)]
pub struct HardDecision {
    shape: Shape,
    hierarchy: Hierarchy,
    // Twice the middles between levels: the outer bit is set below the first, the inner one from the
    // second on and below the third.
    outer_below: u32,
    inner_from: u32,
    inner_below: u32,
}

impl Model for HardDecision {
    ghost use Rattle.std.specs.Prelude.{◌≡◌};
    ghost use Rattle.mode_set.specs.Levels.{levels as levels_of};
    ghost use Rattle.mode_set.specs.declared.modes.Shape.{Shape};
    ghost use Rattle.mode_set.specs.declared.modes.Hierarchy.{Hierarchy};
    ghost use Rattle.hard_decision.specs.Bounds.{bounds};

    ghost Value = { Shape × Hierarchy };

    ghost view = { λ d. (d.shape, d.hierarchy) };

    ghost invariant = { λ d. (d.outer_below, d.inner_from, d.inner_below)
        ≡ bounds d.shape (levels_of d.shape d.hierarchy) };
}

// Twice the middles that decide the bits after the sign.
fn bounds_of(shape: Shape, hierarchy: Hierarchy) -> (u32, u32, u32)
    ensures { result ≡ bounds shape (levels_of shape hierarchy) }
{
    let levels = levels(shape, hierarchy);
    match shape {
        Shape::Qpsk => (0, 0, 0),
        Shape::Qam16 => (levels[0] as u32 + levels[1] as u32, 0, 0),
        Shape::Qam64 => (
            levels[1] as u32 + levels[2] as u32,
            levels[2] as u32 + levels[3] as u32,
            levels[0] as u32 + levels[1] as u32,
        ),
    }
}

impl HardDecision {
    /// The decisions of a constellation.
    pub fn new(shape: Shape, hierarchy: Hierarchy) -> HardDecision
        ensures { result ≡ (shape, hierarchy) }
    {
        let (outer_below, inner_from, inner_below) = bounds_of(shape, hierarchy);
        HardDecision {
            shape,
            hierarchy,
            outer_below,
            inner_from,
            inner_below,
        }
    }

    /// The bits of the point of an axis that is nearest to the value `x`, of two the greater: the sign,
    /// then those of places 2 or 3, and of places 4 or 5, false where the label has none.
    pub fn bits(&self, x: i16) -> [bool; 3]
        ensures bits { (i : ℕ) → i < 3 → slice_index_or result i false ≡ axis_bit self.now.0 self.now.1 x i }
    {
        let negative = x < 0;
        // Of two points at the same distance the greater one is nearer: on the negative side a middle
        // belongs to the inner one.
        let twice = 2 * x.unsigned_abs() as u32 - negative as u32;
        let outer = twice < self.outer_below;
        let inner = (self.inner_from <= twice) & (twice < self.inner_below);
        [negative, outer, inner]
    }

    /// How near a cell is to the point of a label, on each axis, for its bits to be decided as those of the label.
    pub fn safe_distance(&self) -> u16
        ensures few { result ≤ 11585 }
        ensures decided { (label e : ℕ) (cell : AnyCell) → e < label_bits self.now.0
            → distance cell.re (map_cell self.now.0 self.now.1 (is_set label)).re < result
            → distance cell.im (map_cell self.now.0 self.now.1 (is_set label)).im < result
            → hard_bit self.now.0 self.now.1 cell e ≡ is_set label e }
    {
        spacing(self.shape, self.hierarchy) / 2
    }
}
