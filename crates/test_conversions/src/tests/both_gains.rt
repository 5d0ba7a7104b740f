// The fast bodies of tracking and the plain ones: what is seen around a symbol, and its gains at the comb points.
ghost use Rattle.std.specs.Prelude.{◌+◌, ◌^◌, ◌<◌, ◌≤◌};
ghost use Rattle.track_motion.specs.Around.{IsLook};
ghost use Rattle.track_motion.specs.Kept.{AreLow};

use mode_set::Mode2k;
use qam_map::Cell;
use std::alloc::{AllocError, Global};
use std::process::Abort;
use std::rt::HostRuntime;
use std::test::Fail;
use track_arithmetic::Complex;
use track_comb_gains::point_gains;
use track_motion::{Surroundings, look_by, no_changes, push_change};
use track_pilots::PilotWindow;
use tracking::Motion;

// A cell that looks random.
fn cell_of(seed: u64) -> Cell {
    let bytes = seed.wrapping_mul(6364136223846793005).to_be_bytes();
    Cell {
        re: i16::from_be_bytes([bytes[0], bytes[1]]),
        im: i16::from_be_bytes([bytes[2], bytes[3]]),
    }
}

// Whether both bodies give the same gains at the points of symbol `m`.
fn have_same_points(
    alloc: Global,
    window: &PilotWindow<Mode2k>,
    m: u64,
    around: &Surroundings,
    motion: Motion,
) -> Result<bool, AllocError>
    requires there { m < window.now.count }
    requires late { window.now.count ≤ m + 8 }
    requires few { window.now.count ≤ 2 ^ 32 }
    requires look { IsLook window.now.count m around.now }
{
    let nothing = Complex { re: 0, im: 0 };
    let mut fast = vec![in alloc; nothing; 569]?;
    let mut plainly = vec![in alloc; nothing; 569]?;
    point_gains(window, m, around, motion, &mut fast);
    track_comb_gains::plain::point_gains(window, m, around, motion, &mut plainly);
    Ok(fast.as_slice() == plainly.as_slice())
}

// Looks at the symbols around the one `back` symbols before the last, if there is one, in both ways.
fn look_back(
    rt: &impl Abort,
    alloc: Global,
    window: &PilotWindow<Mode2k>,
    kept: &[u64; 16],
    back: u64,
) -> Result<(), AllocError>
    requires few { window.now.count ≤ 2 ^ 32 }
    requires small { AreLow kept.now }
    requires back { back < 8 }
{
    let count = window.count();
    if count <= back {
        return Ok(());
    }
    let m = count - 1 - back;
    let around = track_motion::plain::look(window, m);
    let seen = look_by(window, m, kept);
    assert!(rt; seen == around, "around symbol {m} of {count}");
    let slow = have_same_points(alloc, window, m, &around, Motion::Slow)?;
    let fast = have_same_points(alloc, window, m, &around, Motion::Fast)?;
    assert!(rt; slow && fast, "the points of symbol {m} of {count}");
    Ok(())
}

// Takes the next symbol.
fn take_symbol(
    alloc: Global,
    number: u64,
    window: &mut PilotWindow<Mode2k>,
    kept: &mut [u64; 16],
) -> Result<(), AllocError>
    requires number { number < 2 ^ 32 }
    requires few { window.old.count < 2 ^ 32 }
    requires small { AreLow kept.old }
    ensures count { window.new.count ≤ window.old.count + 1 }
    ensures small { AreLow kept.new }
{
    let mut cells = vec![in alloc; Cell { re: 0, im: 0 }; 1705]?;
    for k in 0..1705usize {
        cells[k] = cell_of(1705 * number + k as u64 + 1);
    }
    window.push(&cells);
    push_change(window, kept);
    Ok(())
}

// Random cells, so that most symbols are far from their neighbours; every fifth symbol is sent twice.
#[test]
fn points_by_both_bodies(rt: HostRuntime) -> Result<(), Fail> {
    let alloc = rt.alloc();
    let mut window = PilotWindow::<Mode2k>::new(alloc)?;
    let mut kept = no_changes();
    for t in 0..20u64 {
        take_symbol(alloc, t / 5 * 5 + (t % 5).max(1), &mut window, &mut kept)?;
        look_back(&rt, alloc, &window, &kept, t % 8)?;
        look_back(&rt, alloc, &window, &kept, 7 - t % 8)?;
    }
    Ok(())
}
