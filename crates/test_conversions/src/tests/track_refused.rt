// Refused runs of `track`, and their results: a prefix of an independent program's output.
use super::conversions::{
    Fault, HALF_HEADER, HALF_LINE, HEADER_SUM, HEADLESS, READ, Row, WRITE, faults_stand, rows_stand,
};
use super::tracking_files::{HEADER, TRACK, WIDE_HEADER, random_cells};
use station_core::{Failing, InPort, OutPort};
use std::test::Fail;
use test_runs::{BASE, LAYERED, SYMBOL, WIDE, WIDE_SYMBOL, ample};

/// The capacity of the new file.
const ROOM: u32 = 100_000;

/// The new file of nine symbols of random cells: the sums of its first symbols.
const HALF: u32 = 2_016_796_423;

const ONE: u32 = 805_911_000;

const TWO: u32 = 709_140_472;

const TWO_AND_HALF: u32 = 1_962_133_641;

const WHOLE: u32 = 3_771_601_802;

/// The bytes of nine symbols.
const NINE: usize = 8 + 9 * SYMBOL;

const LIMITED: (&str, &str) = (BASE, "max_symbols = 9\n");

/// As many symbols as the limit, and one more or part of it: then the last seven are not given.
#[rattlefmt::skip]
static LIMITS: [Row<'static>; 3] = [
    (TRACK, LIMITED, NINE, (0, "symbols 9 tail 0\n", 76_733, WHOLE)),
    (TRACK, LIMITED, NINE + 8_524, (0, "symbols 9 tail 8524\n", 76_733, WHOLE)),
    (TRACK, LIMITED, NINE + SYMBOL + 3, (8, "limit 9\n", 17_058, TWO)),
];

/// The report before a failed close.
const CLOSED: &str = "symbols 9 tail 0\nwrite fault\n";

/// Calls that fail in the work on nine symbols.
#[rattlefmt::skip]
static FAULTS: [Fault<'static>; 13] = [
    (Failing::Read(InPort::Settings, 1), (5, READ, 0, 0)),
    (Failing::Attach(InPort::Cells, 1), (5, READ, 0, 0)),
    (Failing::Read(InPort::Cells, 1), (5, READ, 0, 0)),
    (Failing::Read(InPort::Cells, 2), (5, READ, 8, HEADER_SUM)),
    (Failing::Read(InPort::Cells, 9), (5, READ, 8, HEADER_SUM)),
    (Failing::Read(InPort::Cells, 10), (5, READ, 8_533, ONE)),
    (Failing::Read(InPort::Cells, 11), (5, READ, 17_058, TWO)),
    (Failing::Create(OutPort::Cells, 1), (6, WRITE, 0, 0)),
    (Failing::Write(OutPort::Cells, 1), (6, WRITE, 4, HALF_HEADER)),
    (Failing::Write(OutPort::Cells, 2), (6, WRITE, 4_270, HALF)),
    (Failing::Write(OutPort::Cells, 4), (6, WRITE, 21_320, TWO_AND_HALF)),
    (Failing::Write(OutPort::Report, 1), (6, HALF_LINE, 76_733, WHOLE)),
    (Failing::Close(OutPort::Cells, 1), (6, CLOSED, 76_733, WHOLE)),
];

#[test]
fn limits_of_symbols(rt: HostRuntime) -> Result<(), Fail> {
    let cells = random_cells(rt.alloc(), &HEADER, 10 * SYMBOL as u32 + 3, 9)?;
    rows_stand(&rt, rt.alloc(), &cells, ample(ROOM), &LIMITS)?;
    Ok(())
}

#[test]
fn faults_of_the_station(rt: HostRuntime) -> Result<(), Fail> {
    let cells = random_cells(rt.alloc(), &HEADER, 9 * SYMBOL as u32, 9)?;
    faults_stand(&rt, rt.alloc(), TRACK, &cells, ROOM, &FAULTS)?;
    Ok(())
}

/// Invalid command lines, rejected settings, a missing file, and cells without the header of the mode: no new file is
/// created.
#[rattlefmt::skip]
static REFUSED: [Row<'static>; 10] = [
    ("track s a", (BASE, ""), 8_533, (2, "usage\n", 0, 0)),
    ("track s a b cells", (LAYERED, ""), 8_533, (2, "usage\n", 0, 0)),
    (TRACK, ("mode =", ""), 8_533, (3, "settings not toml\n", 0, 0)),
    (TRACK, ("colour = 1\n", ""), 8_533, (3, "settings unknown 0\n", 0, 0)),
    (TRACK, ("", ""), 8_533, (3, "settings missing mode\n", 0, 0)),
    ("track gone a cells", (BASE, ""), 8_533, (5, READ, 0, 0)),
    ("track s gone cells", (BASE, ""), 8_533, (5, READ, 0, 0)),
    (TRACK, (BASE, ""), 0, (9, HEADLESS, 0, 0)),
    (TRACK, (BASE, ""), 7, (9, HEADLESS, 0, 0)),
    (TRACK, (WIDE, ""), 34_093, (9, HEADLESS, 0, 0)),
];

/// The header of the 8K mode.
#[rattlefmt::skip]
static WIDE_REFUSED: [Row<'static>; 1] = [
    (TRACK, (BASE, ""), 8_533, (9, HEADLESS, 0, 0)),
];

#[test]
fn refused_words_settings_and_cells(rt: HostRuntime) -> Result<(), Fail> {
    let alloc = rt.alloc();
    let narrow = random_cells(alloc, &HEADER, WIDE_SYMBOL as u32, 1)?;
    rows_stand(&rt, alloc, &narrow, ample(ROOM), &REFUSED)?;
    let wide = random_cells(alloc, &WIDE_HEADER, WIDE_SYMBOL as u32, 1)?;
    rows_stand(&rt, alloc, &wide, ample(ROOM), &WIDE_REFUSED)?;
    Ok(())
}
