// The bodies that are fast and the plain ones: both give the same.
ghost use Rattle.std.specs.Prelude.{◌≡◌, ◌+◌, ◌^◌, ◌<◌, ◌≤◌, length, nat_abs};
ghost use Rattle.track_arithmetic.specs.Laws.{IsWithin};
ghost use Rattle.track_cells.specs.Gains.{AreWithin};

use mode_set::{Guard, Mode};
use qam_map::Cell;
use std::process::Abort;
use std::rt::HostRuntime;
use std::test::Fail;
use track_arithmetic::{Complex, value_by, value_near};
use track_cells::{interpolate, plain, push_corrected};

/// Numbers and divisors: halves, negative ones, past the range, and divisors of 2^46, one more, and 2^60.
static QUOTIENTS: [(i64, u64); 14] = [
    (0, 1),
    (5, 2),
    (-5, 2),
    (65533, 2),
    (65534, 2),
    (-65537, 2),
    (-65538, 2),
    (1_152_921_504_606_846_976, 1),
    (-1_152_921_504_606_846_976, 3),
    (105_553_116_266_496, 70_368_744_177_664),
    (-105_553_116_266_496, 70_368_744_177_664),
    (105_553_116_266_497, 70_368_744_177_665),
    (-1_152_921_504_606_846_976, 70_368_744_177_664),
    (-576_460_752_303_423_488, 1_152_921_504_606_846_976),
];

// Whatever is guessed, the value is the nearest.
#[test]
fn guesses(rt: HostRuntime) {
    for &(x, n) in QUOTIENTS.iter() {
        assert!(&rt; -1_152_921_504_606_846_976 <= x && x <= 1_152_921_504_606_846_976);
        assert!(&rt; 0 < n && n <= 1_152_921_504_606_846_976);
        let value = value_near(x, n);
        for guess in [
            value,
            0,
            1,
            -1,
            value.saturating_add(1),
            value.saturating_sub(1),
        ] {
            assert!(&rt; value_by(guess, x, n) == value);
        }
    }
}

/// Gains: none, the smallest, of which the quotients are halves, nominal, and with powers up to 2^51.
static GAINS: [(i64, i64); 12] = [
    (0, 0),
    (1, 0),
    (0, -1),
    (699040, 0),
    (-699040, 699040),
    (349520, 0),
    (-200000, 150000),
    (5931642, 5931642),
    (-5931643, 5931642),
    (8388608, -1),
    (33554432, -33554432),
    (-33554431, 12345678),
];

/// Parts of cells.
static PARTS: [i16; 7] = [-32768, -15543, -1, 0, 3, 5181, 32767];

fn is_same(rt: &HostRuntime, full: u64, gain: Complex, cell: Cell, weight: u8) -> Result<bool, Fail>
    requires some { 1 ≤ full }
    requires most { full ≤ 2 ^ 52 }
    requires gain { IsWithin (2 ^ 25) gain }
{
    let mut fast = Vec::with_capacity(rt.alloc(), 5)?;
    let mut plainly = Vec::with_capacity(rt.alloc(), 5)?;
    push_corrected(full, &[gain], &[cell], &[weight], &mut fast);
    plain::push_corrected(full, &[gain], &[cell], &[weight], &mut plainly);
    Ok(fast.as_slice() == plainly.as_slice())
}

// Each gain with each pair of parts, and powers of which the cell's is a small or a great part.
#[test]
fn cells_by_both_bodies(rt: HostRuntime) -> Result<(), Fail> {
    for &(re, im) in GAINS.iter() {
        assert!(&rt; -33554432 <= re && re <= 33554432 && -33554432 <= im && im <= 33554432);
        for &x in PARTS.iter() {
            for &full in [1, 122_163_230_400, 977_315_430_400, 4_503_599_627_370_496].iter() {
                assert!(&rt; 1 <= full && full <= 4_503_599_627_370_496);
                let cell = Cell { re: x, im: 7181 };
                assert!(&rt; is_same(&rt, full, Complex { re, im }, cell, 15)?);
            }
        }
    }
    Ok(())
}

// A number that looks random, at most 2^21.
fn part(seed: u64) -> i64
    ensures { nat_abs result ≤ 2 ^ 21 }
{
    ((seed.wrapping_mul(6364136223846793005) >> 32) % 4194305) as i64 - 2097152
}

fn fill(points: &mut [Complex])
    ensures long { length points.new ≡ length points.old }
    ensures within { AreWithin (2 ^ 21) points.new }
{
    for j in 0..points.len() {
        points[j] = Complex {
            re: part(2 * j as u64 + 1),
            im: part(2 * j as u64 + 2),
        };
    }
}

// The gains at all carriers of the 2K mode by both bodies.
fn have_same_gains(rt: &HostRuntime, guard: Guard) -> Result<bool, Fail> {
    let nothing = Complex { re: 0, im: 0 };
    let mut points = vec![in rt.alloc(); nothing; 569]?;
    fill(&mut points);
    let mut centred = vec![in rt.alloc(); nothing; 569]?;
    let mut fast = vec![in rt.alloc(); nothing; 1705]?;
    let mut plainly = vec![in rt.alloc(); nothing; 1705]?;
    interpolate(guard, Mode::M2k, &points, &mut centred, &mut fast);
    plain::interpolate(guard, Mode::M2k, &points, &mut centred, &mut plainly);
    Ok(fast.as_slice() == plainly.as_slice())
}

#[test]
fn gains_by_both_bodies(rt: HostRuntime) -> Result<(), Fail> {
    for guard in [Guard::G1of4, Guard::G1of8, Guard::G1of16, Guard::G1of32] {
        assert!(&rt; have_same_gains(&rt, guard)?);
    }
    Ok(())
}
