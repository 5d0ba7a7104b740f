// The points of a constellation.
ghost use Rattle.std.specs.Prelude.{◌≡◌, ◌<◌, ◌^◌, ◌≤◌, ℕ};
ghost use Rattle.mode_set.specs.StreamTable.{label_bits};
ghost use Rattle.measure_sums.specs.Quick.{AreSent, sent_for};
ghost use Rattle.measure_sums.specs.Tables.{ArePoints};

use crate::place::power;
use crate::sent::Sent;
use mode_set::{Hierarchy, Shape};
use qam_map::{Cell, map};

fn label_count(shape: Shape) -> u8
    ensures count { result ≡ 2 ^ label_bits shape }
    ensures few { result ≤ 64 }
{
    1 << shape.label_bits()
}

// The cells of all labels of a constellation.
pub(crate) fn points_of(shape: Shape, hierarchy: Hierarchy) -> [Cell; 64]
    ensures { ArePoints shape hierarchy (2 ^ label_bits shape) result }
{
    let mut points = [Cell { re: 0, im: 0 }; 64];
    for label in 0..label_count(shape) {
        points[label as usize] = map(shape, hierarchy, label);
    }
    points
}

// The point of a label and its power.
fn sent(shape: Shape, hierarchy: Hierarchy, label: u8) -> Sent
    requires { label < 2 ^ label_bits shape }
    ensures is { result ≡ sent_for shape hierarchy label }
    ensures few { result.power ≤ 2 ^ 31 }
{
    let point = map(shape, hierarchy, label);
    Sent {
        point,
        power: power(point),
    }
}

// The same of all labels.
pub(crate) fn sent_of(shape: Shape, hierarchy: Hierarchy) -> [Sent; 64]
    ensures sent { AreSent shape hierarchy (2 ^ label_bits shape) result }
{
    let nothing = Sent {
        point: Cell { re: 0, im: 0 },
        power: 0,
    };
    let mut all = [nothing; 64];
    for label in 0..label_count(shape) {
        all[label as usize] = sent(shape, hierarchy, label);
    }
    all
}
