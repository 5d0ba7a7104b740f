// The sums of a symbol, by the distances of its cells and by hard decisions of all of them.
ghost use Rattle.std.specs.Prelude.{◌≡◌, ℕ, ◌<◌, ◌^◌, get_or};
ghost use Rattle.mode_set.specs.StreamTable.{label_bits};
ghost use Rattle.mode_set.specs.declared.modes.Mode.TheVariants.{M2k};

use super::parameters::CONSTELLATIONS;
use measure_sums::{plain, sum_symbol};
use mode_set::{Hierarchy, Mode, Rate, Settings, Shape};
use qam_map::{Cell, map};
use std::process::Abort;
use std::rt::HostRuntime;
use test_tools::{flat, hierarchical, next_number};

// Settings with this constellation.
fn settings(shape: Shape, hierarchy: Hierarchy) -> Settings
    ensures mode { result.mode ≡ M2k }
{
    let rate = Rate::R2of3;
    match shape {
        Shape::Qpsk => flat(Mode::M2k, shape, rate),
        Shape::Qam16 | Shape::Qam64 => {
            if hierarchy.is_flat() {
                flat(Mode::M2k, shape, rate)
            } else {
                hierarchical(Mode::M2k, shape, hierarchy, rate, rate)
            }
        }
    }
}

// One label on all payload carriers.
fn labels(shape: Shape, label: u8) -> [u8; 1512]
    requires { label < 2 ^ label_bits shape }
    ensures { (q : ℕ) → q < 1512 → get_or result q 0 < 2 ^ label_bits shape }
{
    [label; 1512]
}

// A value at the end of its range, or one beside the level: near to it, or as far as the levels around it.
fn value(state: &mut u32, level: i16) -> i16 {
    let number = next_number(state);
    let far = (number >> 17) as i16;
    match number >> 13 & 7 {
        0 => i16::MIN,
        1 => i16::MAX,
        2 => far.wrapping_mul(2),
        3 => level.wrapping_add(far / 4),
        4 => level.wrapping_sub(far / 4),
        5 => level.wrapping_add(far / 16),
        6 => level.wrapping_sub(far / 16),
        _ => level,
    }
}

// The weight 0 for one cell of eight.
fn weight(state: &mut u32) -> u8 {
    match next_number(state) >> 29 {
        0 => 0,
        1 => 1,
        2 => 255,
        _ => 15,
    }
}

// Both bodies on a symbol of one label and of generated cells.
fn are_summed_alike(rt: &impl Abort, settings: &Settings, symbol: u8, label: u8, state: &mut u32)
    requires mode { settings.now.mode ≡ M2k }
    requires symbol { symbol < 68 }
    requires label { label < 2 ^ label_bits settings.now.shape }
{
    let labels = labels(settings.shape, label);
    let point = map(settings.shape, settings.hierarchy, label);
    let mut cells = [point; 1705];
    let mut weights = [15u8; 1705];
    for k in 0..1705usize {
        cells[k] = Cell {
            re: value(state, point.re),
            im: value(state, point.im),
        };
        weights[k] = weight(state);
    }
    let quick = sum_symbol(settings, symbol, &labels, &cells, &weights);
    assert!(rt; quick == plain::sum_symbol(settings, symbol, &labels, &cells, &weights));
    assert!(rt; quick.muted > 0 && quick.error > quick.power);
}

// Both bodies on a symbol of each label.
fn labels_are_summed_alike(rt: &impl Abort, settings: &Settings, state: &mut u32)
    requires mode { settings.now.mode ≡ M2k }
{
    for label in 0..64u8 {
        if label < 1 << settings.shape.label_bits() {
            are_summed_alike(rt, settings, label % 4, label, state);
        }
    }
}

#[test]
fn sums_by_both_bodies(rt: HostRuntime) {
    let mut state = 30;
    for (shape, hierarchy) in CONSTELLATIONS {
        labels_are_summed_alike(&rt, &settings(shape, hierarchy), &mut state);
    }
}
