// Corrected cells and their weights, against values from Python's integers.
use mode_set::Shape;
use qam_map::Cell;
use std::process::Abort;
use std::rt::HostRuntime;
use track_arithmetic::Complex;
use track_cells::{full_power, push_corrected};

#[rattlefmt::skip]
static CORRECTED: [u8; 30] = [
    210, 191, 45, 65, 15, 20, 61, 195, 73, 9, 60, 19, 127, 255, 0,
    0, 0, 0, 0, 0, 127, 255, 220, 55, 2, 0, 117, 255, 248, 15,
];

// A nominal gain, a quarter turn, a weak gain, none, one with cells past the range, and a weight above 15.
#[test]
fn six_carriers(rt: HostRuntime) {
    let gains = [
        Complex { re: 349520, im: 0 },
        Complex { re: 0, im: 349520 },
        Complex {
            re: 1000,
            im: -2000,
        },
        Complex { re: 0, im: 0 },
        Complex {
            re: -200000,
            im: 150000,
        },
        Complex { re: 299999, im: 1 },
    ];
    let cells = [
        Cell {
            re: -11585,
            im: 11585,
        },
        Cell {
            re: 15543,
            im: 5181,
        },
        Cell { re: 300, im: 40 },
        Cell { re: 5, im: 6 },
        Cell {
            re: -32768,
            im: 32767,
        },
        Cell { re: 100, im: -7 },
    ];
    let mut bytes = Vec::with_capacity(rt.alloc(), 30).expect(&rt, "memory");
    push_corrected(
        90_000_000_000,
        &gains,
        &cells,
        &[15, 9, 15, 15, 3, 200],
        &mut bytes,
    );
    assert!(&rt; bytes.as_slice() == CORRECTED.as_slice());
}

// The noise decides unless it is too little.
#[test]
fn powers_of_whole_cells(rt: HostRuntime) {
    assert!(&rt; full_power(Shape::Qpsk, 1_000_000, 3_000, 45) == 242725);
    assert!(&rt; full_power(Shape::Qam16, 1_000_000, 3_000, 45) == 758518);
    assert!(&rt; full_power(Shape::Qam64, 1_000_000, 3_000, 45) == 1_500_000);
    assert!(&rt; full_power(Shape::Qam64, 1, 0, 177) == 1);
}
