// The tracker, symbol by symbol: the sums of the symbols that it gives are those of an independent program.
ghost use Rattle.std.specs.Prelude.{◌≡◌, ◌+◌, ◌<◌, ◌≤◌, false, true, vec_capacity};

use super::tracking_files::{HEADER, random_cells};
use frame_build::SymbolIn;
use mode_set::{Mode, Mode2k, Settings};
use std::alloc::{AllocError, Global};
use std::process::Abort;
use std::test::Fail;
use test_runs::{BASE, SYMBOL, checksum};
use tracker::Tracker;

/// The sums of eight symbols of random cells, tracked.
#[rattlefmt::skip]
static SUMS: [u32; 8] = [114151462, 4276086162, 1432800275, 3026201503, 4192966337, 654826319, 4267888721, 717707930];

// Takes one symbol. From the eighth one on the tracker gives another, whose sum is returned.
fn taken(
    alloc: Global,
    bytes: &[u8],
    tracker: &mut Tracker<Mode2k>,
    room: &mut Vec<u8>,
) -> Result<Option<u32>, AllocError>
    requires few { tracker.old.window.count < 100 }
    requires going { tracker.old.ended ≡ false }
    requires room { 8525 ≤ vec_capacity room.old }
    ensures count { tracker.new.window.count ≤ tracker.old.window.count + 1 }
    ensures going { tracker.new.ended ≡ false }
    ensures capacity { vec_capacity room.new ≡ vec_capacity room.old }
{
    let mut symbol = SymbolIn::<Mode2k>::new(alloc)?;
    symbol.take(bytes);
    room.clear();
    if !symbol.whole() {
        return Ok(None);
    }
    if tracker.take(symbol.cells(), symbol.weights(), room) {
        Ok(Some(checksum(room)))
    } else {
        Ok(None)
    }
}

// The next one of the remaining symbols.
fn left(tracker: &mut Tracker<Mode2k>, room: &mut Vec<u8>) -> Option<u32>
    requires ended { tracker.old.ended ≡ true }
    requires room { 8525 ≤ vec_capacity room.old }
    ensures ended { tracker.new.ended ≡ true }
    ensures capacity { vec_capacity room.new ≡ vec_capacity room.old }
{
    room.clear();
    if tracker.rest(room) {
        Some(checksum(room))
    } else {
        None
    }
}

// Seven symbols give none, the eighth gives the first, and after the end the rest follow.
fn track_all(
    rt: &impl Abort,
    alloc: Global,
    cells: &[u8],
    tracker: &mut Tracker<Mode2k>,
    room: &mut Vec<u8>,
) -> Result<(), AllocError>
    requires none { tracker.old.window.count ≡ 0 }
    requires going { tracker.old.ended ≡ false }
    requires room { 8525 ≤ vec_capacity room.old }
{
    for m in 0..8usize {
        let symbol = &cells[cells.len().min(m * SYMBOL)..cells.len().min(m * SYMBOL + SYMBOL)];
        let found = taken(alloc, symbol, tracker, room)?;
        let wanted = if m == 7 { Some(SUMS[0]) } else { None };
        assert!(rt; found == wanted, "symbol {m}");
    }
    assert!(rt; !tracker.ended());
    tracker.end();
    assert!(rt; tracker.ended());
    for m in 1..8usize {
        let found = left(tracker, room);
        assert!(rt; found == Some(SUMS[m]), "symbol {m} after the end");
    }
    let found = left(tracker, room);
    assert!(rt; found.is_none());
    Ok(())
}

#[test]
fn eight_symbols(rt: HostRuntime) -> Result<(), Fail> {
    let alloc = rt.alloc();
    let cells = random_cells(alloc, &HEADER, 8 * SYMBOL as u32, 8)?;
    let settings = Settings::read(alloc, BASE.as_bytes());
    let mut room = Vec::with_capacity(alloc, SYMBOL)?;
    match settings {
        Ok(settings) => match settings.mode {
            Mode::M2k => {
                let mut tracker = Tracker::<Mode2k>::new(alloc, &settings)?;
                let first = cells.len().min(8);
                track_all(&rt, alloc, &cells[first..], &mut tracker, &mut room)?;
            }
            Mode::M8k => assert!(&rt; false, "the mode"),
        },
        Err(_) => assert!(&rt; false, "the settings"),
    }
    Ok(())
}
