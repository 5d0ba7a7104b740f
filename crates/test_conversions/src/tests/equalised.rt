// The command `equalise`. The expected reports, lengths and sums are those of an independent program.
use super::conversions::{
    Fault, HALF_HEADER, HALF_LINE, HEADER, HEADER_SUM, HEADLESS, READ, Row, WRITE, faults_stand,
    rows_stand, stands,
};
use station_core::{Failing, InPort, OutPort};
use std::alloc::{AllocError, Global};
use std::test::Fail;
use std::thread::Threads;
use test_runs::{BASE, Conditions, LAYERED, WHOLE_NULLS, WIDE, ample, null_cells, run_on_cells};

/// The bytes of a cell file of a super-frame of the 2K mode, and the sum of that of null packets.
const SUPER_FRAME: usize = 2_318_808;

const NULLS: u32 = 2_468_371_442;

/// The sum of those cells turned by an eighth, weakened and corrected.
const EIGHTH: u32 = 3_635_339_598;

const EQUALISE: &str = "equalise s a cells";

/// The sum of the header and of one symbol of `cell_file` corrected, and of two.
const ONE_SYMBOL: u32 = 959_283_447;

const TWO_SYMBOLS: u32 = 168_465_058;

// The header of a mode, 0 for 2K and 1 for 8K, then `count` bytes by a rule of their own, with weights of 0 to 15 and
// above.
fn cell_file(alloc: Global, mode: u8, count: u32) -> Result<Vec<u8>, AllocError> {
    let mut bytes = Vec::from_slice(alloc, b"DVTC\x02".as_slice())?;
    bytes.push(mode)?;
    bytes.push(0)?;
    bytes.push(0)?;
    for i in 0..count {
        let number = i.wrapping_mul(i).wrapping_add(i.wrapping_mul(7));
        bytes.push((number / 16 % 256) as u8)?;
    }
    Ok(bytes)
}

// A part of a cell, from its two bytes.
fn part_of(high: u8, low: u8) -> i32 {
    i32::from((u16::from(high) * 256 + u16::from(low)).cast_signed())
}

// Appends a part of a cell that fits.
fn push_part(part: i32, to: &mut Vec<u8>) -> Result<(), AllocError> {
    let bytes = (part.clamp(-32768, 32767) as i16).to_be_bytes();
    to.push(bytes[0])?;
    to.push(bytes[1])?;
    Ok(())
}

// A cell (x, y) after a channel: turned by a quarter, or by an eighth and weakened to 0.7.
fn through(x: i32, y: i32, eighth: bool) -> (i32, i32) {
    let (x, y) = (x.clamp(-32768, 32767), y.clamp(-32768, 32767));
    if eighth {
        ((x - y).div_euclid(2), (x + y).div_euclid(2))
    } else {
        (-y, x)
    }
}

// The cell file of the super-frame of null packets, each cell after such a channel.
fn turned_nulls<R: Threads + Sync>(
    rt: &R,
    alloc: Global,
    eighth: bool,
) -> Result<Vec<u8>, AllocError> {
    let sent = null_cells(rt, alloc, BASE, false)?;
    let mut bytes = Vec::new(alloc);
    for byte in sent.iter().take(8) {
        bytes.push(*byte)?;
    }
    for cell in sent[bytes.len().min(sent.len())..].chunks_exact(5) {
        let (x, y) = (part_of(cell[0], cell[1]), part_of(cell[2], cell[3]));
        let (x, y) = through(x, y, eighth);
        push_part(x, &mut bytes)?;
        push_part(y, &mut bytes)?;
        bytes.push(cell[4])?;
    }
    Ok(bytes)
}

// The super-frame of null packets, turned by a quarter, is restored exactly.
#[test]
fn quarter_turn(rt: HostRuntime) -> Result<(), Fail> {
    let alloc = rt.alloc();
    let turned = turned_nulls(&rt, alloc, false)?;
    assert_eq!(rt; turned.len(), SUPER_FRAME);
    let room = ample(SUPER_FRAME as u32);
    let ran = run_on_cells(&rt, alloc, EQUALISE, (BASE, ""), &turned, room)?;
    stands(&rt, &ran, (0, "symbols 272 tail 0\n", SUPER_FRAME, NULLS));
    Ok(())
}

// Turned by an eighth and weakened, it is corrected well enough for a receiver to find all words clean.
#[test]
fn weakened_and_received(rt: HostRuntime) -> Result<(), Fail> {
    let alloc = rt.alloc();
    let room = ample(SUPER_FRAME as u32);
    let turned = turned_nulls(&rt, alloc, true)?;
    let ran = run_on_cells(&rt, alloc, EQUALISE, (BASE, ""), &turned, room)?;
    stands(&rt, &ran, (0, "symbols 272 tail 0\n", SUPER_FRAME, EIGHTH));
    let receive = "receive s a hp";
    let back = run_on_cells(&rt, alloc, receive, (BASE, ""), &ran.cells, room)?;
    assert!(rt; back.status == 0 && back.report.as_slice() == WHOLE_NULLS.as_bytes());
    Ok(())
}

// Zero cells give no gain: they stay 0 with weight 0.
#[test]
fn zero_cells(rt: HostRuntime) -> Result<(), Fail> {
    let alloc = rt.alloc();
    let mut bytes = cell_file(alloc, 0, 0)?;
    for place in 0..8525u32 {
        bytes.push(if place % 5 == 4 { 15 } else { 0 })?;
    }
    let ran = run_on_cells(&rt, alloc, EQUALISE, (BASE, ""), &bytes, ample(40_000))?;
    stands(&rt, &ran, (0, "symbols 1 tail 0\n", 8_533, 2_233_569_185));
    Ok(())
}

/// Whole symbols and parts of one in the 2K mode, with any other settings.
#[rattlefmt::skip]
static LENGTHS: [Row<'static>; 5] = [
    (EQUALISE, (BASE, ""), HEADER, (0, "symbols 0 tail 0\n", HEADER, HEADER_SUM)),
    (EQUALISE, (BASE, ""), 8_532, (0, "symbols 0 tail 8524\n", HEADER, HEADER_SUM)),
    (EQUALISE, (BASE, ""), 8_533, (0, "symbols 1 tail 0\n", 8_533, ONE_SYMBOL)),
    (EQUALISE, (LAYERED, ""), 8_534, (0, "symbols 1 tail 1\n", 8_533, ONE_SYMBOL)),
    (EQUALISE, (BASE, ""), 25_588, (0, "symbols 3 tail 5\n", 25_583, 1_057_960_316)),
];

/// In the 8K mode.
#[rattlefmt::skip]
static WIDE_LENGTHS: [Row<'static>; 1] = [
    (EQUALISE, (WIDE, ""), 34_096, (0, "symbols 1 tail 3\n", 34_093, 2_002_112_095)),
];

// With whole reads and single bytes. The second super-frame's first symbols have the phases of the first ones.
#[test]
fn whole_symbols_and_parts(rt: HostRuntime) -> Result<(), Fail> {
    let alloc = rt.alloc();
    let narrow = cell_file(alloc, 0, 25_580)?;
    let wide = cell_file(alloc, 1, 34_088)?;
    for most in [u32::MAX, 1] {
        let conditions = Conditions {
            most,
            ..ample(40_000)
        };
        rows_stand(&rt, alloc, &narrow, conditions, &LENGTHS)?;
        rows_stand(&rt, alloc, &wide, conditions, &WIDE_LENGTHS)?;
    }
    Ok(())
}

/// Symbols of a frame and three more in the 2K mode.
#[rattlefmt::skip]
static FRAME: [Row<'static>; 1] = [
    (EQUALISE, (BASE, ""), 605_283, (0, "symbols 71 tail 0\n", 605_283, 755_273_051)),
];

/// Symbols of each place among four in the 8K mode.
#[rattlefmt::skip]
static WIDE_FRAME: [Row<'static>; 1] = [
    (EQUALISE, (WIDE, ""), 136_348, (0, "symbols 4 tail 0\n", 136_348, 909_070_439)),
];

#[test]
fn symbols_of_every_phase(rt: HostRuntime) -> Result<(), Fail> {
    let alloc = rt.alloc();
    let narrow = cell_file(alloc, 0, 605_275)?;
    rows_stand(&rt, alloc, &narrow, ample(700_000), &FRAME)?;
    let wide = cell_file(alloc, 1, 136_340)?;
    rows_stand(&rt, alloc, &wide, ample(700_000), &WIDE_FRAME)?;
    Ok(())
}

const LIMITED: (&str, &str) = (BASE, "max_symbols = 2\n");

/// As many symbols as the limit, and one more or part of it.
#[rattlefmt::skip]
static LIMITS: [Row<'static>; 4] = [
    (EQUALISE, LIMITED, 17_058, (0, "symbols 2 tail 0\n", 17_058, TWO_SYMBOLS)),
    (EQUALISE, LIMITED, 25_582, (0, "symbols 2 tail 8524\n", 17_058, TWO_SYMBOLS)),
    (EQUALISE, LIMITED, 25_583, (8, "limit 2\n", 17_058, TWO_SYMBOLS)),
    (EQUALISE, LIMITED, 25_588, (8, "limit 2\n", 17_058, TWO_SYMBOLS)),
];

#[test]
fn limits_of_symbols(rt: HostRuntime) -> Result<(), Fail> {
    let cells = cell_file(rt.alloc(), 0, 25_580)?;
    rows_stand(&rt, rt.alloc(), &cells, ample(40_000), &LIMITS)?;
    Ok(())
}

/// Invalid command lines, rejected settings, a missing file, and cells without the header of the mode: no new file is
/// created.
#[rattlefmt::skip]
static REFUSED: [Row<'static>; 10] = [
    ("equalise s a", (BASE, ""), 8_533, (2, "usage\n", 0, 0)),
    ("equalise s a b cells", (LAYERED, ""), 8_533, (2, "usage\n", 0, 0)),
    (EQUALISE, ("mode =", ""), 8_533, (3, "settings not toml\n", 0, 0)),
    (EQUALISE, ("colour = 1\n", ""), 8_533, (3, "settings unknown 0\n", 0, 0)),
    (EQUALISE, ("", ""), 8_533, (3, "settings missing mode\n", 0, 0)),
    ("equalise gone a cells", (BASE, ""), 8_533, (5, READ, 0, 0)),
    ("equalise s gone cells", (BASE, ""), 8_533, (5, READ, 0, 0)),
    (EQUALISE, (BASE, ""), 0, (9, HEADLESS, 0, 0)),
    (EQUALISE, (BASE, ""), 7, (9, HEADLESS, 0, 0)),
    (EQUALISE, (WIDE, ""), 34_093, (9, HEADLESS, 0, 0)),
];

/// The header of the 8K mode.
#[rattlefmt::skip]
static WIDE_REFUSED: [Row<'static>; 1] = [
    (EQUALISE, (BASE, ""), 8_533, (9, HEADLESS, 0, 0)),
];

#[test]
fn refused_words_settings_and_cells(rt: HostRuntime) -> Result<(), Fail> {
    let alloc = rt.alloc();
    let narrow = cell_file(alloc, 0, 34_085)?;
    rows_stand(&rt, alloc, &narrow, ample(40_000), &REFUSED)?;
    let wide = cell_file(alloc, 1, 34_085)?;
    rows_stand(&rt, alloc, &wide, ample(40_000), &WIDE_REFUSED)?;
    Ok(())
}

/// The report before a failed close.
const CLOSED: &str = "symbols 2 tail 0\nwrite fault\n";

/// Calls that fail in the work on two symbols.
#[rattlefmt::skip]
static FAULTS: [Fault<'static>; 11] = [
    (Failing::Read(InPort::Settings, 1), (5, READ, 0, 0)),
    (Failing::Attach(InPort::Cells, 1), (5, READ, 0, 0)),
    (Failing::Read(InPort::Cells, 1), (5, READ, 0, 0)),
    (Failing::Read(InPort::Cells, 2), (5, READ, HEADER, HEADER_SUM)),
    (Failing::Read(InPort::Cells, 3), (5, READ, 8_533, ONE_SYMBOL)),
    (Failing::Read(InPort::Cells, 4), (5, READ, 17_058, TWO_SYMBOLS)),
    (Failing::Create(OutPort::Cells, 1), (6, WRITE, 0, 0)),
    (Failing::Write(OutPort::Cells, 1), (6, WRITE, 4, HALF_HEADER)),
    (Failing::Write(OutPort::Cells, 2), (6, WRITE, 4_270, 1_023_285_492)),
    (Failing::Write(OutPort::Report, 1), (6, HALF_LINE, 17_058, TWO_SYMBOLS)),
    (Failing::Close(OutPort::Cells, 1), (6, CLOSED, 17_058, TWO_SYMBOLS)),
];

#[test]
fn faults_of_the_station(rt: HostRuntime) -> Result<(), Fail> {
    let cells = cell_file(rt.alloc(), 0, 17_050)?;
    faults_stand(&rt, rt.alloc(), EQUALISE, &cells, 40_000, &FAULTS)?;
    Ok(())
}
