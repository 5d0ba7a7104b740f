// Files without a place, limits, refusals and faults of `align`. The expected reports, lengths and sums are those of an
// independent program.
use super::aligned::ALIGN;
use super::conversions::{
    Fault, Found, HALF_HEADER, HEADER, HEADER_SUM, HEADLESS, READ, Row, WRITE, faults_stand,
    rows_stand,
};
use station_core::{Failing, InPort, OutPort};
use std::alloc::{AllocError, Global};
use std::test::Fail;
use std::thread::Threads;
use test_runs::{BASE, LAYERED, SUPER_FRAME, SYMBOL, WIDE, ample, heard, null_cells};

const NONE: Found<'static> = (10, "tune none\n", HEADER, HEADER_SUM);

/// The lines of a place with nothing after it.
const AT_ZERO: &str =
    "tune at 0 frame 1\nannounced constellation qpsk hierarchy none rate_hp 1/2 guard 1/32\nsymbols 0 tail 0\n";

/// Its lines and that of the limit.
const LIMIT_AT_ZERO: &str =
    "tune at 0 frame 1\nannounced constellation qpsk hierarchy none rate_hp 1/2 guard 1/32\nlimit 68\n";

/// The first symbols of a super-frame: cells that end before a frame is complete hold no place; more symbols than the
/// limit are refused first.
#[rattlefmt::skip]
static FEW: [Row<'static>; 6] = [
    (ALIGN, (BASE, ""), HEADER, NONE),
    (ALIGN, (BASE, ""), HEADER + 67 * SYMBOL, NONE),
    (ALIGN, (BASE, "max_symbols = 67\n"), HEADER + 67 * SYMBOL, NONE),
    (ALIGN, (BASE, ""), HEADER + 68 * SYMBOL, (0, AT_ZERO, HEADER, HEADER_SUM)),
    (ALIGN, (BASE, "max_symbols = 67\n"), HEADER + 68 * SYMBOL, (8, "limit 67\n", HEADER, HEADER_SUM)),
    (ALIGN, (BASE, "max_symbols = 68\n"), HEADER + 69 * SYMBOL, (8, LIMIT_AT_ZERO, HEADER, HEADER_SUM)),
];

#[test]
fn few_symbols(rt: HostRuntime) -> Result<(), Fail> {
    let alloc = rt.alloc();
    let cells = null_cells(&rt, alloc, BASE, false)?;
    rows_stand(&rt, alloc, &cells, ample(SUPER_FRAME), &FEW)?;
    Ok(())
}

/// The lines of the place, and the lines after them: a limit, the closing line, and faults.
const LIMIT_110: &str =
    "tune at 41 frame 4\nannounced constellation qpsk hierarchy none rate_hp 1/2 guard 1/32\nlimit 110\n";

const LIMIT_111: &str =
    "tune at 41 frame 4\nannounced constellation qpsk hierarchy none rate_hp 1/2 guard 1/32\nlimit 111\n";

const THREE_SYMBOLS: &str =
    "tune at 41 frame 4\nannounced constellation qpsk hierarchy none rate_hp 1/2 guard 1/32\nsymbols 3 tail 0\n";

const READ_BEHIND: &str =
    "tune at 41 frame 4\nannounced constellation qpsk hierarchy none rate_hp 1/2 guard 1/32\nread fault\n";

const WRITE_BEHIND: &str =
    "tune at 41 frame 4\nannounced constellation qpsk hierarchy none rate_hp 1/2 guard 1/32\nwrite fault\n";

const CLOSED: &str =
    "tune at 41 frame 4\nannounced constellation qpsk hierarchy none rate_hp 1/2 guard 1/32\nsymbols 3 tail 0\nwrite fault\n";

/// Half of the first line, half of the second one, and half of the closing line.
const HALF_FIRST: &str = "tune at 4write fault\n";

const HALF_SECOND: &str = "tune at 41 frame 4\nannounced constellation qpsk hierwrite fault\n";

const HALF_CLOSING: &str =
    "tune at 41 frame 4\nannounced constellation qpsk hierarchy none rate_hp 1/2 guard 1/32\nsymbols write fault\n";

/// The sum of the header and one symbol, of two, and of all three.
const ONE: u32 = 1_101_841_114;

const TWO: u32 = 455_134_520;

const ALL: u32 = 3_642_937_220;

/// The bytes of a file of 112 symbols, three of which are copied.
const LENGTH: usize = HEADER + 112 * SYMBOL;

/// The limit counts all symbols of the file.
#[rattlefmt::skip]
static LIMITS: [Row<'static>; 4] = [
    (ALIGN, (BASE, "max_symbols = 108\n"), LENGTH, (8, "limit 108\n", HEADER, HEADER_SUM)),
    (ALIGN, (BASE, "max_symbols = 110\n"), LENGTH, (8, LIMIT_110, 8_533, ONE)),
    (ALIGN, (BASE, "max_symbols = 111\n"), LENGTH, (8, LIMIT_111, 17_058, TWO)),
    (ALIGN, (BASE, "max_symbols = 112\n"), LENGTH, (0, THREE_SYMBOLS, 25_583, ALL)),
];

/// Invalid command lines, rejected settings, a missing file, and cells without the header of the mode: no new file is
/// created.
#[rattlefmt::skip]
static REFUSED: [Row<'static>; 10] = [
    ("align s a", (BASE, ""), 8, (2, "usage\n", 0, 0)),
    ("align s a b cells", (LAYERED, ""), 8, (2, "usage\n", 0, 0)),
    (ALIGN, ("mode =", ""), 8, (3, "settings not toml\n", 0, 0)),
    (ALIGN, ("colour = 1\n", ""), 8, (3, "settings unknown 0\n", 0, 0)),
    (ALIGN, ("", ""), 8, (3, "settings missing mode\n", 0, 0)),
    ("align gone a cells", (BASE, ""), 8, (5, READ, 0, 0)),
    ("align s gone cells", (BASE, ""), 8, (5, READ, 0, 0)),
    (ALIGN, (BASE, ""), 0, (9, HEADLESS, 0, 0)),
    (ALIGN, (BASE, ""), 7, (9, HEADLESS, 0, 0)),
    (ALIGN, (WIDE, ""), 8, (9, HEADLESS, 0, 0)),
];

/// Calls that fail in the work on that file.
#[rattlefmt::skip]
static FAULTS: [Fault<'static>; 12] = [
    (Failing::Read(InPort::Settings, 1), (5, READ, 0, 0)),
    (Failing::Attach(InPort::Cells, 1), (5, READ, 0, 0)),
    (Failing::Read(InPort::Cells, 1), (5, READ, 0, 0)),
    (Failing::Read(InPort::Cells, 2), (5, READ, HEADER, HEADER_SUM)),
    (Failing::Read(InPort::Cells, 112), (5, READ_BEHIND, 8_533, ONE)),
    (Failing::Create(OutPort::Cells, 1), (6, WRITE, 0, 0)),
    (Failing::Write(OutPort::Cells, 1), (6, WRITE, 4, HALF_HEADER)),
    (Failing::Write(OutPort::Cells, 3), (6, WRITE_BEHIND, 12_795, 524_240_185)),
    (Failing::Write(OutPort::Report, 1), (6, HALF_FIRST, HEADER, HEADER_SUM)),
    (Failing::Write(OutPort::Report, 2), (6, HALF_SECOND, HEADER, HEADER_SUM)),
    (Failing::Write(OutPort::Report, 3), (6, HALF_CLOSING, 25_583, ALL)),
    (Failing::Close(OutPort::Cells, 1), (6, CLOSED, 25_583, ALL)),
];

// That file.
fn file_of<R: Threads + Sync>(rt: &R, alloc: Global) -> Result<Vec<u8>, AllocError> {
    let cells = null_cells(rt, alloc, BASE, false)?;
    heard(alloc, &cells, SYMBOL, 163, 3)
}

#[test]
fn limits_of_symbols(rt: HostRuntime) -> Result<(), Fail> {
    let file = file_of(&rt, rt.alloc())?;
    assert_eq!(rt; file.len(), LENGTH);
    rows_stand(&rt, rt.alloc(), &file, ample(100_000), &LIMITS)?;
    Ok(())
}

#[test]
fn refused_words_settings_and_cells(rt: HostRuntime) -> Result<(), Fail> {
    let header = b"DVTC\x02\0\0\0";
    rows_stand(&rt, rt.alloc(), header, ample(40_000), &REFUSED)?;
    Ok(())
}

#[test]
fn faults_of_the_station(rt: HostRuntime) -> Result<(), Fail> {
    let file = file_of(&rt, rt.alloc())?;
    faults_stand(&rt, rt.alloc(), ALIGN, &file, 100_000, &FAULTS)?;
    Ok(())
}
