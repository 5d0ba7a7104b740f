// Points of the constellations against the figures of EN 300 744, 4.3.5.
ghost use Rattle.std.specs.Prelude.{◌<◌, ◌^◌};
ghost use Rattle.mode_set.specs.StreamTable.{label_bits};

use mode_set::{Hierarchy, Shape};
use qam_map::{Cell, map, spacing, tolerance};
use std::process::Abort;
use std::rt::HostRuntime;

fn stands(rt: &impl Abort, shape: Shape, hierarchy: Hierarchy, label: u8, re: i16, im: i16)
    requires { label < 2 ^ label_bits shape }
{
    assert!(rt;
        map(shape, hierarchy, label) == Cell { re, im },
        "at {label}"
    );
}

#[test]
fn points_of_the_figures(rt: HostRuntime) {
    // the upper row of 64-QAM: 100000 100010 101010 101000 001000 001010 000010 000000
    for (label, re) in [
        (0b000001, -17697),
        (0b010001, -12641),
        (0b010101, -7584),
        (0b000101, -2528),
        (0b000100, 2528),
        (0b010100, 7584),
        (0b010000, 12641),
        (0b000000, 17697),
    ] {
        assert!(rt; label < 64);
        stands(&rt, Shape::Qam64, Hierarchy::Flat, label, re, 17697);
    }
    // the corners 11.. of the other constellations, lower left, and their innermost points
    stands(&rt, Shape::Qpsk, Hierarchy::Flat, 0b01, -11585, 11585);
    stands(&rt, Shape::Qam16, Hierarchy::Flat, 0b0011, -15543, -15543);
    stands(&rt, Shape::Qam16, Hierarchy::Alpha1, 0b1111, -5181, -5181);
    stands(&rt, Shape::Qam16, Hierarchy::Alpha2, 0b0011, -14654, -14654);
    stands(&rt, Shape::Qam16, Hierarchy::Alpha2, 0b1100, 7327, 7327);
    stands(&rt, Shape::Qam16, Hierarchy::Alpha4, 0b0011, -13632, -13632);
    stands(&rt, Shape::Qam16, Hierarchy::Alpha4, 0b0111, -9088, -13632);
    stands(
        &rt,
        Shape::Qam64,
        Hierarchy::Alpha2,
        0b000011,
        -16921,
        -16921,
    );
    stands(&rt, Shape::Qam64, Hierarchy::Alpha2, 0b101000, 16921, 8461);
    stands(
        &rt,
        Shape::Qam64,
        Hierarchy::Alpha4,
        0b000011,
        -15766,
        -15766,
    );
    stands(&rt, Shape::Qam64, Hierarchy::Alpha4, 0b001100, 6306, 6306);
    assert_eq!(rt; tolerance(Shape::Qam64, Hierarchy::Alpha4), 788);
}

/// The constellations with their hierarchies, and the least distance between two values of an axis. These are the
/// levels of the standard (EN 300 744, 4.3.5), integers over a square root, times 16384 and rounded.
const SPACINGS: [(Shape, Hierarchy, u16); 9] = [
    (Shape::Qpsk, Hierarchy::Flat, 23_170),
    (Shape::Qam16, Hierarchy::Flat, 10_362),
    (Shape::Qam16, Hierarchy::Alpha1, 10_362),
    (Shape::Qam16, Hierarchy::Alpha2, 7_327),
    (Shape::Qam16, Hierarchy::Alpha4, 4_544),
    (Shape::Qam64, Hierarchy::Flat, 5_056),
    (Shape::Qam64, Hierarchy::Alpha1, 5_056),
    (Shape::Qam64, Hierarchy::Alpha2, 4_230),
    (Shape::Qam64, Hierarchy::Alpha4, 3_153),
];

// Each spacing, and the quarter of it by which noise may move a cell.
#[test]
fn spacings_of_the_levels(rt: HostRuntime) {
    for (shape, hierarchy, least) in SPACINGS {
        let found = (spacing(shape, hierarchy), tolerance(shape, hierarchy));
        assert_eq!(rt; found, (least, least / 4));
    }
}
