// The seven constellations as types.
ghost use Rattle.std.specs.Prelude.{◌≡◌, ℕ, refl, IsTrue};
ghost use Rattle.mode_set.specs.StreamTable.{label_bits};
ghost use Rattle.mode_set.specs.Levels.{levels};
ghost use Rattle.mode_set.specs.Kept.{is_flat, is_qpsk};
ghost use Rattle.mode_set.specs.declared.modes.Shape.{Shape as ShapeOf};
ghost use Rattle.mode_set.specs.declared.modes.Hierarchy.{Hierarchy as HierarchyOf};

use crate::{Hierarchy, Shape};

/// A constellation with its levels as a type, for generic code (EN 300 744, 4.3.5).
///
/// A constellation without a hierarchy has the levels of α = 1.
pub trait Constellation {
    /// The constellation.
    const SHAPE: Shape;
    /// A hierarchy with these levels: none for QPSK, otherwise that of the α.
    const HIERARCHY: Hierarchy;
    /// v, the bits of a label.
    const V: u8;

    ghost SHAPE: { ShapeOf };

    ghost HIERARCHY: { HierarchyOf };

    ghost V: { ℕ };

    /// The levels of an axis, outermost first, as 16384 times the standard's normalised values.
    fn levels() -> &'static [u16]
        ensures { result.now ≡ levels SHAPE HIERARCHY };

    ghost bits: { V ≡ label_bits SHAPE };

    ghost stands: { IsTrue (is_qpsk SHAPE) → IsTrue (is_flat HIERARCHY) };
}

/// QPSK.
#[derive(Clone, Copy, Debug, PartialEq, Eq)]
pub struct Qpsk;

impl Constellation for Qpsk {
    const SHAPE: Shape = Shape::Qpsk;

    const HIERARCHY: Hierarchy = Hierarchy::Flat;

    const V: u8 = 2;

    ghost SHAPE = { ShapeOf.Qpsk };

    ghost HIERARCHY = { HierarchyOf.Flat };

    ghost V = { 2 };

    ghost bits = { refl };

    ghost stands = { λ qpsk. qpsk };

    fn levels() -> &'static [u16] {
        &[11585]
    }
}

/// 16-QAM, without a hierarchy or with α = 1.
#[derive(Clone, Copy, Debug, PartialEq, Eq)]
pub struct Qam16A1;

impl Constellation for Qam16A1 {
    const SHAPE: Shape = Shape::Qam16;

    const HIERARCHY: Hierarchy = Hierarchy::Alpha1;

    const V: u8 = 4;

    ghost SHAPE = { ShapeOf.Qam16 };

    ghost HIERARCHY = { HierarchyOf.Alpha1 };

    ghost V = { 4 };

    ghost bits = { refl };

    ghost stands = { λ qpsk. qpsk };

    fn levels() -> &'static [u16] {
        &[15543, 5181]
    }
}

/// 16-QAM with α = 2.
#[derive(Clone, Copy, Debug, PartialEq, Eq)]
pub struct Qam16A2;

impl Constellation for Qam16A2 {
    const SHAPE: Shape = Shape::Qam16;

    const HIERARCHY: Hierarchy = Hierarchy::Alpha2;

    const V: u8 = 4;

    ghost SHAPE = { ShapeOf.Qam16 };

    ghost HIERARCHY = { HierarchyOf.Alpha2 };

    ghost V = { 4 };

    ghost bits = { refl };

    ghost stands = { λ qpsk. qpsk };

    fn levels() -> &'static [u16] {
        &[14654, 7327]
    }
}

/// 16-QAM with α = 4.
#[derive(Clone, Copy, Debug, PartialEq, Eq)]
pub struct Qam16A4;

impl Constellation for Qam16A4 {
    const SHAPE: Shape = Shape::Qam16;

    const HIERARCHY: Hierarchy = Hierarchy::Alpha4;

    const V: u8 = 4;

    ghost SHAPE = { ShapeOf.Qam16 };

    ghost HIERARCHY = { HierarchyOf.Alpha4 };

    ghost V = { 4 };

    ghost bits = { refl };

    ghost stands = { λ qpsk. qpsk };

    fn levels() -> &'static [u16] {
        &[13632, 9088]
    }
}

/// 64-QAM, without a hierarchy or with α = 1.
#[derive(Clone, Copy, Debug, PartialEq, Eq)]
pub struct Qam64A1;

impl Constellation for Qam64A1 {
    const SHAPE: Shape = Shape::Qam64;

    const HIERARCHY: Hierarchy = Hierarchy::Alpha1;

    const V: u8 = 6;

    ghost SHAPE = { ShapeOf.Qam64 };

    ghost HIERARCHY = { HierarchyOf.Alpha1 };

    ghost V = { 6 };

    ghost bits = { refl };

    ghost stands = { λ qpsk. qpsk };

    fn levels() -> &'static [u16] {
        &[17697, 12641, 7584, 2528]
    }
}

/// 64-QAM with α = 2.
#[derive(Clone, Copy, Debug, PartialEq, Eq)]
pub struct Qam64A2;

impl Constellation for Qam64A2 {
    const SHAPE: Shape = Shape::Qam64;

    const HIERARCHY: Hierarchy = Hierarchy::Alpha2;

    const V: u8 = 6;

    ghost SHAPE = { ShapeOf.Qam64 };

    ghost HIERARCHY = { HierarchyOf.Alpha2 };

    ghost V = { 6 };

    ghost bits = { refl };

    ghost stands = { λ qpsk. qpsk };

    fn levels() -> &'static [u16] {
        &[16921, 12691, 8461, 4230]
    }
}

/// 64-QAM with α = 4.
#[derive(Clone, Copy, Debug, PartialEq, Eq)]
pub struct Qam64A4;

impl Constellation for Qam64A4 {
    const SHAPE: Shape = Shape::Qam64;

    const HIERARCHY: Hierarchy = Hierarchy::Alpha4;

    const V: u8 = 6;

    ghost SHAPE = { ShapeOf.Qam64 };

    ghost HIERARCHY = { HierarchyOf.Alpha4 };

    ghost V = { 6 };

    ghost bits = { refl };

    ghost stands = { λ qpsk. qpsk };

    fn levels() -> &'static [u16] {
        &[15766, 12612, 9459, 6306]
    }
}
