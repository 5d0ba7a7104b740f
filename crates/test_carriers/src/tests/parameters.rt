// Constellations, rates and settings of several tests.
ghost use Rattle.std.specs.Prelude.{◌≡◌, false};
ghost use Rattle.mode_set.specs.Kept.{is_flat, is_qpsk};
ghost use Rattle.mode_set.specs.declared.modes.Mode.TheVariants.{M2k};

use mode_set::{Hierarchy, Mode, Rate, Settings, Shape};
use test_tools::hierarchical;

/// Each constellation with each hierarchy that it can have.
pub(crate) const CONSTELLATIONS: [(Shape, Hierarchy); 9] = [
    (Shape::Qpsk, Hierarchy::Flat),
    (Shape::Qam16, Hierarchy::Flat),
    (Shape::Qam16, Hierarchy::Alpha1),
    (Shape::Qam16, Hierarchy::Alpha2),
    (Shape::Qam16, Hierarchy::Alpha4),
    (Shape::Qam64, Hierarchy::Flat),
    (Shape::Qam64, Hierarchy::Alpha1),
    (Shape::Qam64, Hierarchy::Alpha2),
    (Shape::Qam64, Hierarchy::Alpha4),
];

/// The rates of the inner code.
pub(crate) const RATES: [Rate; 5] = [
    Rate::R1of2,
    Rate::R2of3,
    Rate::R3of4,
    Rate::R5of6,
    Rate::R7of8,
];

/// Two streams in the 2K mode, with the rates of HP and of LP.
pub(crate) fn two_streams(shape: Shape, hierarchy: Hierarchy, rates: (Rate, Rate)) -> Settings
    requires shape { is_qpsk shape ≡ false }
    requires hierarchy { is_flat hierarchy ≡ false }
    ensures { result.mode ≡ M2k }
{
    let (rate_hp, rate_lp) = rates;
    hierarchical(Mode::M2k, shape, hierarchy, rate_hp, rate_lp)
}
