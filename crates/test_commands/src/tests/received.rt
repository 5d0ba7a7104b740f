// The command `receive` with one stream. The expected reports and lengths are those of an independent program.
ghost use Rattle.std.specs.Prelude.{◌≤◌};

use super::cells::{HEADER, SUPER_FRAME, SYMBOL, number_at, put_number, zero_cells};
use mode_set::Mode;
use pilots::tps_carriers;
use station_core::{Failing, InPort, OutPort};
use std::alloc::{AllocError, Global};
use std::process::Abort;
use std::test::Fail;
use std::thread::Threads;
use test_runs::{
    BASE, Conditions, File, LAYERED, Made, UNMADE, WHOLE_NULLS, WIDE, ample, checksum, run_files,
    text_bytes,
};

const ONE: &str = "receive s a hp";

const ONE_BAD: &str =
    "symbols 272 tail 0\ntps read 3 bad 1\nhp words 241 clean 241 corrected 0 bad 0 unphased 0 unmerged 0\n";

const CLOSED: &str =
    "symbols 272 tail 0\ntps read 4 bad 0\nhp words 241 clean 241 corrected 0 bad 0 unphased 0 unmerged 0\nwrite fault\n";

const UNPHASED: &str =
    "symbols 272 tail 0\ntps read 0 bad 4\nhp words 241 clean 241 corrected 0 bad 0 unphased 241 unmerged 0\n";

const ERASED: &str =
    "symbols 272 tail 0\ntps read 4 bad 0\nhp words 241 clean 241 corrected 0 bad 0 unphased 241 unmerged 0\n";

/// A symbol and a byte of it, no symbol, and symbols cut within a cell or before its weight.
const PART: &str =
    "symbols 1 tail 1\ntps read 0 bad 0\nhp words 0 clean 0 corrected 0 bad 0 unphased 0 unmerged 0\n";

const EMPTY: &str =
    "symbols 0 tail 0\ntps read 0 bad 0\nhp words 0 clean 0 corrected 0 bad 0 unphased 0 unmerged 0\n";

const WITHIN_A_CELL: &str =
    "symbols 0 tail 8523\ntps read 0 bad 0\nhp words 0 clean 0 corrected 0 bad 0 unphased 0 unmerged 0\n";

const BEFORE_A_WEIGHT: &str =
    "symbols 0 tail 8524\ntps read 0 bad 0\nhp words 0 clean 0 corrected 0 bad 0 unphased 0 unmerged 0\n";

// The expected result: the status, the report, and the number of bytes of null packets at HP, if it was created. No
// other output is created.
type Found = (u8, &'static str, Option<usize>);

/// Null packets in all words.
const NULLS: Found = (0, WHOLE_NULLS, Some(45_308));

// Cells from the file of the super-frame of null packets.
#[derive(Clone, Copy)]
enum Cells {
    // All of them.
    Whole,
    // A number of bytes of the file.
    Front(usize),
    // The file, then its first symbol again.
    OneMore,
    // The file without its header.
    Headless,
    // The header of version 1, and a prefix of the file.
    OtherVersion,
    // A file of version 1: the cells without header and weights.
    Old,
}

// Receives these cells, and returns whether the result is as expected.
fn leaves<R: Threads + Sync>(
    rt: &R,
    alloc: Global,
    text: &str,
    settings: (&str, &str),
    cells: Vec<u8>,
    conditions: Conditions,
    found: Found,
) -> Result<bool, AllocError>
    requires { 1 ≤ conditions.most }
{
    let settings = text_bytes(alloc, settings.0, settings.1)?;
    let ran = run_files(
        rt,
        alloc,
        text,
        settings,
        (cells, Vec::new(alloc)),
        1,
        conditions,
    )?;
    let is_told = ran.status == found.0 && ran.report.as_slice() == found.1.as_bytes();
    let count = found.2.unwrap_or(0);
    let nulls = File::Nulls(count / 188, count % 188).bytes(alloc)?;
    let made = Made {
        hp: found.2.is_some(),
        ..UNMADE
    };
    Ok(is_told && ran.made == made && ran.hp == nulls)
}

// The cells of the super-frame of null packets.
fn null_cells<R: Abort + Threads + Sync>(rt: &R, alloc: Global) -> Result<Vec<u8>, AllocError> {
    let settings = text_bytes(alloc, BASE, "")?;
    let none = (Vec::new(alloc), Vec::new(alloc));
    let ran = run_files(
        rt,
        alloc,
        "modulate s a cells",
        settings,
        none,
        1,
        ample(2_318_808),
    )?;
    let is_sent = ran.cells.len() == SUPER_FRAME && checksum(&ran.cells) == 2_468_371_442;
    assert!(rt; ran.status == 0 && is_sent);
    Ok(ran.cells)
}

// The bytes of these cells.
fn bytes_of(alloc: Global, file: &[u8], cells: Cells) -> Result<Vec<u8>, AllocError> {
    let header = 8.min(file.len());
    match cells {
        Cells::Whole => Vec::from_slice(alloc, file),
        Cells::Front(count) => Vec::from_slice(alloc, &file[..count.min(file.len())]),
        Cells::OneMore => {
            let mut bytes = Vec::from_slice(alloc, file)?;
            bytes.extend_from_slice(&file[header..(8 + SYMBOL).min(file.len())])?;
            Ok(bytes)
        }
        Cells::Headless => Vec::from_slice(alloc, &file[header..]),
        Cells::OtherVersion => {
            let mut bytes = Vec::from_slice(alloc, &HEADER[..])?;
            bytes[4] = 1;
            bytes.extend_from_slice(&file[..100.min(file.len())])?;
            Ok(bytes)
        }
        Cells::Old => {
            let mut bytes = Vec::new(alloc);
            for (place, byte) in file[header..].iter().enumerate() {
                if place % 5 != 4 {
                    bytes.push(*byte)?;
                }
            }
            Ok(bytes)
        }
    }
}

// Receives these cells of the file, with reads of at most this number of bytes, and returns whether the result is as
// expected.
fn is_found<R: Abort + Threads + Sync>(
    rt: &R,
    alloc: Global,
    file: &[u8],
    settings: (&str, &str),
    (cells, most): (Cells, u32),
    found: Found,
) -> Result<bool, AllocError> {
    assert!(rt; 1 <= most);
    let conditions = Conditions {
        most,
        ..ample(50_000)
    };
    let cells = bytes_of(alloc, file, cells)?;
    leaves(rt, alloc, ONE, settings, cells, conditions, found)
}

/// A read returns all that it asks for.
const FULL_READS: u32 = u32::MAX;

const LIMIT: &str = "max_symbols = 272\n";

/// The null super-frame: whole, one byte for each read, within the limit of symbols and past it. A line of the
/// settings, the cells, and the expected result.
static WHOLE: [(&str, (Cells, u32), Found); 4] = [
    ("", (Cells::Whole, FULL_READS), NULLS),
    ("", (Cells::Whole, 1), NULLS),
    (LIMIT, (Cells::Whole, FULL_READS), NULLS),
    (
        LIMIT,
        (Cells::OneMore, FULL_READS),
        (8, "limit 272\n", Some(45_120)),
    ),
];

#[test]
fn null_super_frame(rt: HostRuntime) -> Result<(), Fail> {
    let alloc = rt.alloc();
    let file = null_cells(&rt, alloc)?;
    for (place, (line, cells, found)) in WHOLE.iter().enumerate() {
        let stands = is_found(&rt, alloc, &file, (BASE, *line), *cells, *found)?;
        assert!(rt; stands, "run {place}");
    }
    Ok(())
}

/// The header, a symbol and a byte of it, and the header alone. Cut within a cell or before its weight, a symbol does
/// not count.
static PARTS: [((Cells, u32), &str); 6] = [
    ((Cells::Front(8 + SYMBOL + 1), FULL_READS), PART),
    ((Cells::Front(8 + SYMBOL + 1), 1), PART),
    ((Cells::Front(8), FULL_READS), EMPTY),
    ((Cells::Front(8), 1), EMPTY),
    ((Cells::Front(8 + SYMBOL - 2), FULL_READS), WITHIN_A_CELL),
    ((Cells::Front(8 + SYMBOL - 1), FULL_READS), BEFORE_A_WEIGHT),
];

#[test]
fn parts_of_the_null_super_frame(rt: HostRuntime) -> Result<(), Fail> {
    let alloc = rt.alloc();
    let file = null_cells(&rt, alloc)?;
    for (place, (cells, report)) in PARTS.iter().enumerate() {
        let stands = is_found(&rt, alloc, &file, (BASE, ""), *cells, (0, *report, Some(0)))?;
        assert!(rt; stands, "run {place}");
    }
    Ok(())
}

const HALF_LINE: &str = "symbols 2write fault\n";

/// One call of the station fails, with this result for the null super-frame.
static FAULTS: [(Failing, Found); 9] = [
    (Failing::Attach(InPort::Cells, 1), (5, "read fault\n", None)),
    (Failing::Read(InPort::Cells, 1), (5, "read fault\n", None)),
    (
        Failing::Read(InPort::Cells, 2),
        (5, "read fault\n", Some(0)),
    ),
    (
        Failing::Read(InPort::Cells, 32),
        (5, "read fault\n", Some(3_008)),
    ),
    (Failing::Create(OutPort::Hp, 1), (6, "write fault\n", None)),
    (
        Failing::Write(OutPort::Hp, 1),
        (6, "write fault\n", Some(94)),
    ),
    (
        Failing::Write(OutPort::Hp, 2),
        (6, "write fault\n", Some(282)),
    ),
    (
        Failing::Write(OutPort::Report, 1),
        (6, HALF_LINE, Some(45_308)),
    ),
    (Failing::Close(OutPort::Hp, 1), (6, CLOSED, Some(45_308))),
];

#[test]
fn faults_of_the_station(rt: HostRuntime) -> Result<(), Fail> {
    let alloc = rt.alloc();
    let file = null_cells(&rt, alloc)?;
    for (call, found) in &FAULTS {
        let conditions = Conditions {
            failing: Some(*call),
            ..ample(50_000)
        };
        let cells = Vec::from_slice(alloc, &file)?;
        let stands = leaves(&rt, alloc, ONE, (BASE, ""), cells, conditions, *found)?;
        assert!(rt; stands, "{call:?}");
    }
    Ok(())
}

/// A file that does not begin with the header of its mode is rejected before an output is created: shorter ones, one
/// without a header, a file of version 1, one whose header has another version, and one of the other mode. The
/// settings, and the cells.
static HEADERS: [(&str, (Cells, u32)); 7] = [
    (BASE, (Cells::Front(0), FULL_READS)),
    (BASE, (Cells::Front(7), FULL_READS)),
    (BASE, (Cells::Front(7), 1)),
    (BASE, (Cells::Headless, FULL_READS)),
    (BASE, (Cells::Old, FULL_READS)),
    (BASE, (Cells::OtherVersion, FULL_READS)),
    (WIDE, (Cells::Whole, FULL_READS)),
];

#[test]
fn refused_headers(rt: HostRuntime) -> Result<(), Fail> {
    let alloc = rt.alloc();
    let file = null_cells(&rt, alloc)?;
    for (place, (settings, cells)) in HEADERS.iter().enumerate() {
        let found = (9, "cells header\n", None);
        let stands = is_found(&rt, alloc, &file, (*settings, ""), *cells, found)?;
        assert!(rt; stands, "run {place}");
    }
    Ok(())
}

/// Invalid command lines, a missing file, and settings that do not fit the arguments or are rejected: no output is
/// created.
static REFUSED: [(&str, &str, Found); 7] = [
    (
        "receive s gone hp",
        "colour = \"red\"\n",
        (3, "settings unknown 0\n", None),
    ),
    ("receive s a", BASE, (2, "usage\n", None)),
    ("receive s a hp lp more", LAYERED, (2, "usage\n", None)),
    ("Receive s a hp", BASE, (2, "usage\n", None)),
    ("receive s gone hp", BASE, (5, "read fault\n", None)),
    (ONE, LAYERED, (3, "settings form\n", None)),
    ("receive s a hp lp", BASE, (3, "settings form\n", None)),
];

#[test]
fn refused_words_and_settings(rt: HostRuntime) -> Result<(), Fail> {
    let alloc = rt.alloc();
    for (text, settings, found) in &REFUSED {
        let none = Vec::new(alloc);
        let stands = leaves(
            &rt,
            alloc,
            *text,
            (*settings, ""),
            none,
            ample(50_000),
            *found,
        )?;
        assert!(rt; stands, "{text}");
    }
    Ok(())
}

// The bytes after the header, with this weight for each cell.
fn weighted(
    rt: &impl Abort,
    alloc: Global,
    cells: &[u8],
    weight: u8,
) -> Result<Vec<u8>, AllocError> {
    let mut bytes = Vec::from_slice(alloc, cells)?;
    for cell in 0..463_760usize {
        let at = 8 + 5 * cell + 4;
        assert!(rt; at < bytes.len());
        bytes[at] = weight;
    }
    Ok(bytes)
}

// With weights of 1 the null super-frame is received, and with weights above 15, which count as 15; with weights of 0
// every cost ties and no word has a phase, while the TPS words are read.
#[test]
fn weights_of_the_null_super_frame(rt: HostRuntime) -> Result<(), Fail> {
    let alloc = rt.alloc();
    let cells = null_cells(&rt, alloc)?;
    for (weight, found) in [(1, NULLS), (255, NULLS), (0, (0, ERASED, Some(0)))] {
        let bytes = weighted(&rt, alloc, &cells, weight)?;
        let stands = leaves(&rt, alloc, ONE, (BASE, ""), bytes, ample(50_000), found)?;
        assert!(rt; stands, "weight {weight}");
    }
    Ok(())
}

// Inverts the TPS cells of a symbol.
fn negate_tps(rt: &impl Abort, bytes: &mut [u8], symbol: usize) {
    assert!(rt; symbol < 272);
    for carrier in tps_carriers(Mode::M2k) {
        let at = 8 + SYMBOL * symbol + 5 * *carrier as usize;
        for place in [at, at + 2] {
            let number = number_at(rt, bytes, place).wrapping_neg();
            put_number(rt, bytes, place, number);
        }
    }
}

// The TPS cells of symbols 5 to 59 of the first frame invert two bits of its word, which are corrected; those of
// symbols 60 to 63 and 67 invert three.
#[test]
fn turned_tps_bits(rt: HostRuntime) -> Result<(), Fail> {
    let alloc = rt.alloc();
    let wide = ample(50_000);
    let mut cells = null_cells(&rt, alloc)?;
    for symbol in 5..60usize {
        negate_tps(&rt, &mut cells, symbol);
    }
    assert!(rt; leaves(&rt, alloc, ONE, (BASE, ""), cells, wide, NULLS)?);
    let mut cells = null_cells(&rt, alloc)?;
    for symbol in [60usize, 61, 62, 63, 67] {
        negate_tps(&rt, &mut cells, symbol);
    }
    let found = (0, ONE_BAD, Some(45_308));
    assert!(rt; leaves(&rt, alloc, ONE, (BASE, ""), cells, wide, found)?);
    Ok(())
}

// Two symbols with all cells (0, 11585): no survivors agree within 2048 steps.
#[test]
fn unmerged_at_2049(rt: HostRuntime) -> Result<(), Fail> {
    let alloc = rt.alloc();
    let mut cells = Vec::from_slice(alloc, HEADER.as_slice())?;
    for _ in 0..3410u32 {
        cells.extend_from_slice([0x00u8, 0x00, 0x2D, 0x41, 0x0F].as_slice())?;
    }
    let report =
        "hp unmerged at 2049\nsymbols 2 tail 0\ntps read 0 bad 0\nhp words 0 clean 0 corrected 0 bad 0 unphased 0 unmerged 1\n";
    let settings = (BASE, "start = \"any\"\n");
    let found = (0, report, Some(0));
    assert!(rt; leaves(&rt, alloc, ONE, settings, cells, ample(50_000), found)?);
    Ok(())
}

// A super-frame of zero cells, from the register zero and from any: every cost ties, so the least path is all zeros,
// and its words are the zero codeword, which has no phase.
#[test]
fn cells_of_zeros(rt: HostRuntime) -> Result<(), Fail> {
    let alloc = rt.alloc();
    for lines in ["", "start = \"any\"\n"] {
        let cells = zero_cells(alloc)?;
        let found = (0, UNPHASED, Some(0));
        let stands = leaves(&rt, alloc, ONE, (BASE, lines), cells, ample(50_000), found)?;
        assert!(rt; stands, "{lines}");
    }
    Ok(())
}
