// Invalid command lines, rejected settings and cells, and faults. The expected reports are those of an independent
// program.
use super::measure_running::{MEASURE, first, stands};
use station_core::{Failing, InPort, OutPort};
use std::test::Fail;
use test_runs::{BASE, Conditions, LAYERED, WIDE, ample, run_on_cells, sent};

/// Arguments, settings, the length of the file, the status and its text.
static REFUSED: [(&str, &str, usize, u8, &str); 10] = [
    ("measure s", BASE, 8, 2, "usage\n"),
    ("measure s a hp", LAYERED, 8, 2, "usage\n"),
    (MEASURE, "mode =", 8, 3, "settings not toml\n"),
    (MEASURE, "colour = 1\n", 8, 3, "settings unknown 0\n"),
    (MEASURE, "", 8, 3, "settings missing mode\n"),
    ("measure gone a", BASE, 8, 5, "read fault\n"),
    ("measure s gone", BASE, 8, 5, "read fault\n"),
    (MEASURE, BASE, 0, 9, "cells header\n"),
    (MEASURE, BASE, 7, 9, "cells header\n"),
    (MEASURE, WIDE, 8, 9, "cells header\n"),
];

#[test]
fn refused_words_settings_and_cells(rt: HostRuntime) -> Result<(), Fail> {
    let alloc = rt.alloc();
    let header = b"DVTC\x02\0\0\0";
    for (text, settings, length, status, report) in &REFUSED {
        let cells = &header[..(*length).min(8)];
        let ran = run_on_cells(&rt, alloc, text, (*settings, ""), cells, ample(5_000))?;
        stands(&rt, &ran, *status, report);
    }
    Ok(())
}

/// A call that fails in the work on 276 symbols, the status, and the report.
static FAULTS: [(Failing, u8, &str); 8] = [
    (Failing::Read(InPort::Settings, 1), 5, "read fault\n"),
    (Failing::Attach(InPort::Cells, 1), 5, "read fault\n"),
    (Failing::Read(InPort::Cells, 1), 5, "read fault\n"),
    (Failing::Read(InPort::Cells, 275), 5, "read fault\n"),
    (
        Failing::Read(InPort::Cells, 277),
        5,
        "superframe 0 symbols 272 cells 411264 muted 0 power 110393313004800 error 0 tps read 4 bad 0\nhp bits 822528 wrong 0 words 241 clean 241 corrected 0 bad 0 unphased 0 unmerged 0 repaired 0\nread fault\n",
    ),
    (
        Failing::Write(OutPort::Report, 1),
        6,
        "superframe 0 symbols 272 cells 411264 muted 0 write fault\n",
    ),
    (
        Failing::Write(OutPort::Report, 2),
        6,
        "superframe 0 symbols 272 cells 411264 muted 0 power 110393313004800 error 0 tps read 4 bad 0\nhp bits 822528 wrong 0 words 241 clean 241 corrwrite fault\n",
    ),
    (
        Failing::Write(OutPort::Report, 5),
        6,
        "superframe 0 symbols 272 cells 411264 muted 0 power 110393313004800 error 0 tps read 4 bad 0\nhp bits 822528 wrong 0 words 241 clean 241 corrected 0 bad 0 unphased 0 unmerged 0 repaired 0\nsuperframe 1 symbols 4 cells 6048 muted 0 power 1623431073600 error 0 tps read 0 bad 0\nhp bits 12096 wrong 0 words 3 clean 3 corrected 0 bad 0 unphased 0 unmerged 0 repaired 0\nsymbols 2write fault\n",
    ),
];

// The lines of the super-frame are written with symbol 274, one write for each.
#[test]
fn faults(rt: HostRuntime) -> Result<(), Fail> {
    let alloc = rt.alloc();
    let cells = sent(&rt, alloc, (BASE, ""), (300, None), 2)?;
    let file = first(alloc, &cells, 276, 0)?;
    for (call, status, report) in &FAULTS {
        let conditions = Conditions {
            failing: Some(*call),
            ..ample(5_000)
        };
        let ran = run_on_cells(&rt, alloc, MEASURE, (BASE, ""), &file, conditions)?;
        stands(&rt, &ran, *status, report);
    }
    Ok(())
}
