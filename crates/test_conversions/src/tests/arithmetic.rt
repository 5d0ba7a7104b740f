// Roundings, directions and medians, against values from Python's integers.
use std::process::Abort;
use std::rt::HostRuntime;
use track_arithmetic::{Complex, direction, middle, near, shifted, value_near};

// A complex number and its direction.
#[rattlefmt::skip]
static DIRECTIONS: [((i64, i64), (i64, i64)); 11] = [
    ((0, 0), (16384, 0)),
    ((3, 4), (9830, 13107)),
    ((-3, 4), (-9830, 13107)),
    ((1, 0), (16384, 0)),
    ((0, -7), (0, -16384)),
    ((1, 1), (16384, 16384)),
    ((-1, -1), (-16384, -16384)),
    ((2147483647, -2147483647), (11585, -11585)),
    ((123456789, -987654321), (2032, -16257)),
    ((-5, 2147483647), (0, 16384)),
    ((2, -1), (16384, -8192)),
];

// Each direction has parts that are the nearest integers.
#[test]
fn directions(rt: HostRuntime) {
    for &((re, im), (want_re, want_im)) in DIRECTIONS.iter() {
        assert!(&rt; -2147483648 < re && re < 2147483648 && -2147483648 < im && im < 2147483648);
        let found = direction(Complex { re, im });
        assert!(&rt;
            found
                == Complex {
                    re: want_re,
                    im: want_im
                }
        );
    }
}

// Halves are rounded up, negative ones too.
#[test]
fn halves(rt: HostRuntime) {
    let half = Complex { re: 3, im: -3 };
    assert!(&rt; near(half, 1) == Complex { re: 2, im: -1 });
    assert!(&rt; shifted(half, 1) == Complex { re: 1, im: -2 });
    let wide = Complex {
        re: 8191,
        im: -8193,
    };
    assert!(&rt; near(wide, 14) == Complex { re: 0, im: -1 });
    assert!(&rt; value_near(5, 2) == 3);
    assert!(&rt; value_near(-5, 2) == -2);
    assert!(&rt; value_near(65535, 2) == 32767);
    assert!(&rt; value_near(-65538, 2) == -32768);
}

// The median of an even number is the lower of the two in the middle; equal numbers count separately.
#[test]
fn middles(rt: HostRuntime) {
    assert!(&rt; middle(&mut [7]) == 7);
    assert!(&rt; middle(&mut [9, 4]) == 4);
    assert!(&rt; middle(&mut [3, 1, 2]) == 2);
    assert!(&rt; middle(&mut [5, 5, 5, 0]) == 5);
    assert!(&rt; middle(&mut [8, 0, 0, 0, 9, 7]) == 0);
}
