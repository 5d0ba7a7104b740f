// The command `upgrade`. The expected reports, lengths and sums are those of an independent program.
use super::conversions::{
    Fault, HALF_HEADER, HALF_LINE, HEADER, HEADER_SUM, READ, Row, WRITE, faults_stand, rows_stand,
    stands,
};
use station_core::{Failing, InPort, OutPort};
use std::alloc::{AllocError, Global};
use std::test::Fail;
use test_runs::{BASE, Conditions, LAYERED, SUPER_FRAME, WIDE, ample, null_cells, run_on_cells};

/// The bytes of a super-frame of old cells of the 2K mode.
const OLD_SUPER_FRAME: usize = 1_855_040;

/// The bytes of a file of version 2 that holds it.
const NEW_SUPER_FRAME: usize = SUPER_FRAME as usize;

const UPGRADE: &str = "upgrade s a cells";

/// The sum of the header and of one symbol of `old_bytes`, and of two.
const ONE_SYMBOL: u32 = 3_437_183_718;

const TWO_SYMBOLS: u32 = 1_084_413_920;

// A number of bytes of old cells, by a rule of their own.
fn old_bytes(alloc: Global, count: u32) -> Result<Vec<u8>, AllocError> {
    let mut bytes = Vec::new(alloc);
    for i in 0..count {
        let number = i.wrapping_mul(i).wrapping_add(i.wrapping_mul(7));
        bytes.push((number / 16 % 256) as u8)?;
    }
    Ok(bytes)
}

// The cells written by `modulate`, as a file of version 1: without header and weights.
fn as_old_cells(alloc: Global, written: &[u8]) -> Result<Vec<u8>, AllocError> {
    let mut bytes = Vec::new(alloc);
    for (place, byte) in written.iter().skip(8).enumerate() {
        if place % 5 != 4 {
            bytes.push(*byte)?;
        }
    }
    Ok(bytes)
}

// The super-frame of null packets becomes the file written by `modulate`: its first cells, its first scattered pilot
// past carrier 0, and a TPS carrier in the first and in the fourth symbol.
#[test]
fn null_super_frame(rt: HostRuntime) -> Result<(), Fail> {
    let alloc = rt.alloc();
    let sent = null_cells(&rt, alloc, BASE, false)?;
    let old_cells = as_old_cells(alloc, &sent)?;
    assert_eq!(rt; old_cells.len(), OLD_SUPER_FRAME);
    let room = ample(SUPER_FRAME);
    let ran = run_on_cells(&rt, alloc, UPGRADE, (BASE, ""), &old_cells, room)?;
    let found = (0, "symbols 272 tail 0\n", NEW_SUPER_FRAME, 2_468_371_442);
    stands(&rt, &ran, found);
    assert!(rt; ran.cells == sent);
    let begins = [
        0x44u8, 0x56, 0x54, 0x43, 0x02, 0x00, 0x00, 0x00, 0xAA, 0xAB, 0x00, 0x00, 0x0F, 0xD2, 0xBF,
        0x2D, 0x41, 0x0F,
    ];
    assert!(rt; ran.cells.starts_with(begins.as_slice()));
    let places = [
        (68, [0x55u8, 0x55, 0x00, 0x00, 0x0F]),
        (178, [0x40, 0x00, 0x00, 0x00, 0x0F]),
        (25_753, [0xC0, 0x00, 0x00, 0x00, 0x0F]),
    ];
    for (at, cell) in places {
        assert!(rt; at < 30_000 && ran.cells.len() == NEW_SUPER_FRAME);
        assert!(rt; &ran.cells[at..at + 5] == cell.as_slice(), "at {at}");
    }
    Ok(())
}

/// Whole symbols and parts of one in the 2K mode and in the 8K mode, with any other settings.
#[rattlefmt::skip]
static LENGTHS: [Row<'static>; 6] = [
    (UPGRADE, (BASE, ""), 0, (0, "symbols 0 tail 0\n", HEADER, HEADER_SUM)),
    (UPGRADE, (BASE, ""), 6_819, (0, "symbols 0 tail 6819\n", HEADER, HEADER_SUM)),
    (UPGRADE, (BASE, ""), 6_820, (0, "symbols 1 tail 0\n", 8_533, ONE_SYMBOL)),
    (UPGRADE, (LAYERED, ""), 6_821, (0, "symbols 1 tail 1\n", 8_533, ONE_SYMBOL)),
    (UPGRADE, (BASE, ""), 20_465, (0, "symbols 3 tail 5\n", 25_583, 3_216_819_601)),
    (UPGRADE, (WIDE, ""), 27_271, (0, "symbols 1 tail 3\n", 34_093, 330_508_231)),
];

// With whole reads and single bytes.
#[test]
fn whole_symbols_and_parts(rt: HostRuntime) -> Result<(), Fail> {
    let old_cells = old_bytes(rt.alloc(), 27_271)?;
    for most in [u32::MAX, 1] {
        let conditions = Conditions {
            most,
            ..ample(40_000)
        };
        rows_stand(&rt, rt.alloc(), &old_cells, conditions, &LENGTHS)?;
    }
    Ok(())
}

const LIMITED: (&str, &str) = (BASE, "max_symbols = 2\n");

/// As many symbols as the limit, and one more or part of it.
#[rattlefmt::skip]
static LIMITS: [Row<'static>; 4] = [
    (UPGRADE, LIMITED, 13_640, (0, "symbols 2 tail 0\n", 17_058, TWO_SYMBOLS)),
    (UPGRADE, LIMITED, 20_459, (0, "symbols 2 tail 6819\n", 17_058, TWO_SYMBOLS)),
    (UPGRADE, LIMITED, 20_460, (8, "limit 2\n", 17_058, TWO_SYMBOLS)),
    (UPGRADE, LIMITED, 20_465, (8, "limit 2\n", 17_058, TWO_SYMBOLS)),
];

#[test]
fn limits_of_symbols(rt: HostRuntime) -> Result<(), Fail> {
    let old_cells = old_bytes(rt.alloc(), 20_465)?;
    rows_stand(&rt, rt.alloc(), &old_cells, ample(40_000), &LIMITS)?;
    Ok(())
}

/// Invalid command lines, rejected settings, and a missing file: no new file is created.
#[rattlefmt::skip]
static REFUSED: [Row<'static>; 7] = [
    ("upgrade s a", (BASE, ""), 6_820, (2, "usage\n", 0, 0)),
    ("upgrade s a b cells", (LAYERED, ""), 6_820, (2, "usage\n", 0, 0)),
    (UPGRADE, ("mode =", ""), 6_820, (3, "settings not toml\n", 0, 0)),
    (UPGRADE, ("colour = 1\n", ""), 6_820, (3, "settings unknown 0\n", 0, 0)),
    (UPGRADE, ("", ""), 6_820, (3, "settings missing mode\n", 0, 0)),
    ("upgrade gone a cells", (BASE, ""), 6_820, (5, READ, 0, 0)),
    ("upgrade s gone cells", (BASE, ""), 6_820, (5, READ, 0, 0)),
];

#[test]
fn refused_words_and_settings(rt: HostRuntime) -> Result<(), Fail> {
    let old_cells = old_bytes(rt.alloc(), 6_820)?;
    rows_stand(&rt, rt.alloc(), &old_cells, ample(40_000), &REFUSED)?;
    Ok(())
}

/// The report before a failed close.
const CLOSED: &str = "symbols 2 tail 0\nwrite fault\n";

/// Calls that fail in the work on two symbols.
#[rattlefmt::skip]
static FAULTS: [Fault<'static>; 10] = [
    (Failing::Read(InPort::Settings, 1), (5, READ, 0, 0)),
    (Failing::Attach(InPort::Cells, 1), (5, READ, 0, 0)),
    (Failing::Read(InPort::Cells, 1), (5, READ, HEADER, HEADER_SUM)),
    (Failing::Read(InPort::Cells, 2), (5, READ, 8_533, ONE_SYMBOL)),
    (Failing::Read(InPort::Cells, 3), (5, READ, 17_058, TWO_SYMBOLS)),
    (Failing::Create(OutPort::Cells, 1), (6, WRITE, 0, 0)),
    (Failing::Write(OutPort::Cells, 1), (6, WRITE, 4, HALF_HEADER)),
    (Failing::Write(OutPort::Cells, 2), (6, WRITE, 4_270, 2_017_724_778)),
    (Failing::Write(OutPort::Report, 1), (6, HALF_LINE, 17_058, TWO_SYMBOLS)),
    (Failing::Close(OutPort::Cells, 1), (6, CLOSED, 17_058, TWO_SYMBOLS)),
];

#[test]
fn faults_of_the_station(rt: HostRuntime) -> Result<(), Fail> {
    let old_cells = old_bytes(rt.alloc(), 13_640)?;
    faults_stand(&rt, rt.alloc(), UPGRADE, &old_cells, 40_000, &FAULTS)?;
    Ok(())
}
