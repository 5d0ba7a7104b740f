// Cells that no modulator sends, fed in three ways. The expected reports and counts are those of an independent
// program.
use crate::{Cut, Received};
use load_gen::Load;
use mode_set::{Mode, Mode2k, Settings};
use rx_report::StreamCounts;
use std::alloc::{AllocError, Global};
use std::process::Abort;
use std::test::Fail;
use std::thread::Threads;

/// The cells of five symbols of the 2K mode.
const CELLS: usize = 5 * 1705;

/// The bytes after the last whole symbol.
const TAIL: usize = 3;

/// Cells that no modulator sends.
#[derive(Clone, Copy)]
enum Cells {
    /// This number on both axes.
    All(i16),
    /// Random numbers.
    Drawn,
}

/// The total output of receptions: the reports, the sum of their steps, the clean words and the bad ones.
type Found = (u64, u64, u64, u64);

/// The constellations with their hierarchies, and the result of the eight receptions of each: four kinds of cells, from
/// the register zero and from any.
static CASES: [(&str, Found); 9] = [
    (
        "constellation = \"qpsk\"\nrate_hp = \"7/8\"\n",
        (0, 0, 0, 0),
    ),
    (
        "constellation = \"16qam\"\nrate_hp = \"2/3\"\n",
        (36, 369_279, 2, 6),
    ),
    (
        "constellation = \"16qam\"\nhierarchy = \"1\"\nrate_hp = \"7/8\"\nrate_lp = \"5/6\"\n",
        (0, 0, 0, 0),
    ),
    (
        "constellation = \"16qam\"\nhierarchy = \"2\"\nrate_hp = \"5/6\"\nrate_lp = \"7/8\"\n",
        (0, 0, 0, 0),
    ),
    (
        "constellation = \"16qam\"\nhierarchy = \"4\"\nrate_hp = \"3/4\"\nrate_lp = \"7/8\"\n",
        (0, 0, 0, 0),
    ),
    (
        "constellation = \"64qam\"\nrate_hp = \"7/8\"\n",
        (38, 781_484, 26, 78),
    ),
    (
        "constellation = \"64qam\"\nhierarchy = \"1\"\nrate_hp = \"7/8\"\nrate_lp = \"7/8\"\n",
        (24, 321_285, 20, 20),
    ),
    (
        "constellation = \"64qam\"\nhierarchy = \"2\"\nrate_hp = \"2/3\"\nrate_lp = \"3/4\"\n",
        (22, 271_288, 8, 8),
    ),
    (
        "constellation = \"64qam\"\nhierarchy = \"4\"\nrate_hp = \"7/8\"\nrate_lp = \"1/2\"\n",
        (14, 114_804, 0, 0),
    ),
];

// The settings of a case with this start register.
fn settings_of(
    rt: &impl Abort,
    alloc: Global,
    lines: &str,
    start: &str,
) -> Result<Settings, AllocError> {
    let text = format!(in alloc; "mode = \"2k\"\nguard = \"1/32\"\nstart = \"{start}\"\n{lines}")?;
    let read = Settings::read(alloc, text.as_bytes());
    assert!(rt; read.is_ok(), "{lines}");
    match read {
        Ok(settings) => Ok(settings),
        Err(_) => Err(AllocError),
    }
}

// The bytes of a cell with weight 15.
fn push_cell(to: &mut Vec<u8>, re: i16, im: i16) -> Result<(), AllocError> {
    to.extend_from_slice(re.to_be_bytes().as_slice())?;
    to.extend_from_slice(im.to_be_bytes().as_slice())?;
    to.push(15)?;
    Ok(())
}

// Five symbols of such cells, and three bytes.
fn bytes_of(alloc: Global, cells: Cells) -> Result<Vec<u8>, AllocError> {
    let mut load = Load::start(23);
    let mut bytes = Vec::new(alloc);
    for _ in 0..CELLS {
        let (re, im) = match cells {
            Cells::All(number) => (number, number),
            Cells::Drawn => (load.shift(5792), load.shift(5792)),
        };
        push_cell(&mut bytes, re, im)?;
    }
    for _ in 0..TAIL {
        bytes.push(0x5A)?;
    }
    Ok(bytes)
}

// Adds the result of a reception.
fn add(found: &mut Found, received: &Received) {
    for event in &received.events {
        found.0 = found.0.wrapping_add(1);
        found.1 = found.1.wrapping_add(event.at);
    }
    add_words(found, received.counts.hp);
    if let Some(lp) = received.counts.lp {
        add_words(found, lp);
    }
}

fn add_words(found: &mut Found, counts: StreamCounts) {
    found.2 = found.2.wrapping_add(counts.clean);
    found.3 = found.3.wrapping_add(counts.bad);
}

// Whether there was output after each of five symbols and at the end, all bytes were taken, and there was no output
// between two symbols.
fn is_whole(received: &Received, bytes: usize) -> bool {
    let counts = received.counts;
    received.quiet
        && received.taken == bytes
        && (received.ends.len(), counts.symbols, counts.tail) == (6, 5, TAIL as u32)
}

// The reception of the bytes in these pieces.
fn received<R: Abort + Threads + Sync>(
    rt: &R,
    alloc: Global,
    settings: &Settings,
    bytes: &[u8],
    cut: Cut,
) -> Result<Received, AllocError> {
    assert!(rt; settings.mode == Mode::M2k);
    Received::of::<Mode2k, R>(rt, alloc, settings, bytes, cut)
}

// Receives the bytes whole, byte by byte and in random pieces, which give the same after each symbol.
fn compare_cuts<R: Abort + Threads + Sync>(
    rt: &R,
    alloc: Global,
    settings: &Settings,
    bytes: &[u8],
    found: &mut Found,
) -> Result<(), AllocError> {
    let whole = received(rt, alloc, settings, bytes, Cut::Size(bytes.len()))?;
    assert!(rt; is_whole(&whole, bytes.len()));
    for cut in [Cut::Size(1), Cut::Drawn(7000)] {
        let other = received(rt, alloc, settings, bytes, cut)?;
        assert!(rt; other == whole);
    }
    add(found, &whole);
    Ok(())
}

// Receives each kind of cells with the settings.
fn compare_cells<R: Abort + Threads + Sync>(
    rt: &R,
    alloc: Global,
    settings: &Settings,
    found: &mut Found,
) -> Result<(), AllocError> {
    for cells in [
        Cells::All(-32768),
        Cells::All(32767),
        Cells::All(0),
        Cells::Drawn,
    ] {
        let bytes = bytes_of(alloc, cells)?;
        compare_cuts(rt, alloc, settings, &bytes, found)?;
    }
    Ok(())
}

// The total of the receptions with these lines, from the register zero and from any.
fn found_by<R: Abort + Threads + Sync>(
    rt: &R,
    alloc: Global,
    lines: &str,
) -> Result<Found, AllocError> {
    let mut found = (0u64, 0u64, 0u64, 0u64);
    for start in ["zero", "any"] {
        let settings = settings_of(rt, alloc, lines, start)?;
        compare_cells(rt, alloc, &settings, &mut found)?;
    }
    Ok(found)
}

#[test]
fn cells_that_no_modulator_sends(rt: HostRuntime) -> Result<(), Fail> {
    let alloc = rt.alloc();
    for (lines, expected) in &CASES {
        let found = found_by(&rt, alloc, lines)?;
        assert!(rt; found == *expected, "{lines}");
    }
    Ok(())
}
