// Costs at single values, and against a plain minimum over the points of all labels.
ghost use Rattle.std.specs.Prelude.{◌<◌};
ghost use Rattle.mode_set.specs.StreamTable.{label_bits};

use super::parameters::CONSTELLATIONS;
use mode_set::{Hierarchy, Shape};
use qam_map::{Cell, map};
use soft_metric::{costs, costs_lanes, weighted};
use std::process::Abort;
use std::rt::HostRuntime;

// The constellation without a hierarchy, both parts of the cell, the label bit and the costs of 0 and of 1.
const SINGLE_VALUES: [(Shape, i16, i16, u8, (u16, u16)); 6] = [
    (Shape::Qpsk, 0, 7, 0, (511, 511)),
    (Shape::Qpsk, 7, 11585, 1, (0, 2047)),
    (Shape::Qpsk, -32768, 7, 0, (4095, 1711)),
    (Shape::Qam64, 0, 7, 0, (24, 24)),
    (Shape::Qam64, 0, 7, 2, (609, 24)),
    (Shape::Qam64, 0, 7, 4, (24, 219)),
];

#[test]
fn costs_at_single_values(rt: HostRuntime) {
    for (shape, re, im, place, pair) in SINGLE_VALUES {
        assert!(rt; place < shape.label_bits());
        assert_eq!(rt; costs(shape, Hierarchy::Flat, Cell { re, im }, place), pair);
    }
}

// The least cost of values 0 and 1 over the points of all labels.
fn plain(rt: &impl Abort, shape: Shape, hierarchy: Hierarchy, cell: Cell, place: u8) -> (u16, u16) {
    let mut least = [u64::MAX; 2];
    for label in 0..64u8 {
        if label < 1 << shape.label_bits() {
            let point = map(shape, hierarchy, label);
            let (x, value) = if place % 2 == 0 {
                (cell.re, point.re)
            } else {
                (cell.im, point.im)
            };
            let gap = u64::from(x.abs_diff(value));
            assert!(rt; place < 8);
            let bit = (label >> place & 1) as usize;
            least[bit] = least[bit].min(gap * gap);
        }
    }
    (
        (least[0] >> 18).min(4095) as u16,
        (least[1] >> 18).min(4095) as u16,
    )
}

// The costs of a value on both axes are the plain minimum for each label bit.
fn are_plain(rt: &impl Abort, shape: Shape, hierarchy: Hierarchy, value: i16) {
    let cell = Cell {
        re: value,
        im: value,
    };
    for place in 0..shape.label_bits() {
        assert!(rt; place < shape.label_bits());
        assert!(rt;
            costs(shape, hierarchy, cell, place) == plain(rt, shape, hierarchy, cell, place)
        );
    }
}

// The point on the real axis of a label whose imaginary bits are 0, if this is such a label.
fn real_point(shape: Shape, hierarchy: Hierarchy, label: u8) -> Option<i16> {
    if label < 1 << shape.label_bits() && label & 0b101010 == 0 {
        Some(map(shape, hierarchy, label).re)
    } else {
        None
    }
}

// The edges of the decision intervals are half way between two points.
fn edges_are_plain(rt: &impl Abort, shape: Shape, hierarchy: Hierarchy) {
    for label in 0..64u8 {
        for other in 0..64u8 {
            if let (Some(a), Some(b)) = (
                real_point(shape, hierarchy, label),
                real_point(shape, hierarchy, other),
            ) {
                let edge = (a / 2).saturating_add(b / 2);
                for step in [-2i16, -1, 0, 1, 2] {
                    are_plain(rt, shape, hierarchy, edge.saturating_add(step));
                }
            }
        }
    }
}

// Value number `step` of 2000 spread over the range.
fn spread(step: u32) -> i16
    requires { step < 2000 }
{
    ((step * 65535 / 1999) as i32 - 32768) as i16
}

#[test]
fn costs_are_the_plain_least(rt: HostRuntime) {
    for (shape, hierarchy) in CONSTELLATIONS {
        edges_are_plain(&rt, shape, hierarchy);
        for step in 0..2000u32 {
            are_plain(&rt, shape, hierarchy, spread(step));
        }
    }
}

// Sixteen cells from number `first` of the spread values on, forwards on the real axis and backwards on the imaginary
// one.
fn sixteen(first: u32) -> [Cell; 16]
    requires { first < 1985 }
{
    let mut cells = [Cell { re: 0, im: 0 }; 16];
    for k in 0..16u32 {
        cells[k as usize] = Cell {
            re: spread(first + k),
            im: spread(1999 - first - k),
        };
    }
    cells
}

#[test]
fn lanes_are_single_costs(rt: HostRuntime) {
    for (shape, hierarchy) in CONSTELLATIONS {
        for block in 0..125u32 {
            let cells = sixteen(16 * block);
            for place in 0..shape.label_bits() {
                assert!(rt; place < shape.label_bits());
                let lanes = costs_lanes(shape, hierarchy, &cells, place);
                for (cell, pair) in cells.into_iter().zip(lanes) {
                    let single = costs(shape, hierarchy, cell, place);
                    let least = plain(&rt, shape, hierarchy, cell, place);
                    assert!(rt; [single, least] == [pair; 2]);
                }
            }
        }
    }
}

// A pair of costs, a weight and the weighted pair.
const WEIGHTED: [((u16, u16), u8, (u16, u16)); 7] = [
    ((511, 2047), 0, (0, 0)),
    ((511, 2047), 1, (34, 136)),
    ((511, 2047), 7, (238, 955)),
    ((511, 2047), 14, (476, 1910)),
    ((511, 2047), 15, (511, 2047)),
    ((4095, 14), 15, (4095, 14)),
    ((4095, 14), 1, (273, 0)),
];

#[test]
fn costs_by_weights(rt: HostRuntime) {
    for (pair, weight, want) in WEIGHTED {
        assert!(rt; weight <= 15 && pair.0 < 4096 && pair.1 < 4096);
        assert_eq!(rt; weighted(pair, weight), want);
    }
}
