// Runs of the commands that write a new file of cells, and their results.
use station_core::Failing;
use std::alloc::{AllocError, Global};
use std::process::Abort;
use std::thread::Threads;
use test_runs::{BASE, Conditions, Made, Ran, UNMADE, ample, checksum, run_on_cells};

/// The expected result: the status, the report, the length of the new file, and its sum. A length of 0 stands for no
/// file.
pub(crate) type Found<'a> = (u8, &'a str, usize, u32);

/// A run: its arguments, the settings and the lines after them, the number of bytes of the file that it reads, and the
/// expected result.
pub(crate) type Row<'a> = (&'a str, (&'a str, &'a str), usize, Found<'a>);

/// A call that fails, and the expected result.
pub(crate) type Fault<'a> = (Failing, Found<'a>);

/// The length of a header, and the sum of that of the 2K mode, and of half of it.
pub(crate) const HEADER: usize = 8;

pub(crate) const HEADER_SUM: u32 = 4_029_675_199;

pub(crate) const HALF_HEADER: u32 = 2_111_105;

pub(crate) const READ: &str = "read fault\n";

pub(crate) const WRITE: &str = "write fault\n";

pub(crate) const HEADLESS: &str = "cells header\n";

/// The closing line of two symbols or of nine after a failed write of it.
pub(crate) const HALF_LINE: &str = "symbols write fault\n";

/// Compares the result. No table has a case of a new file created and empty.
pub(crate) fn stands(rt: &impl Abort, ran: &Ran, found: Found<'_>) {
    let is_told = ran.status == found.0 && ran.report.as_slice() == found.1.as_bytes();
    assert!(rt; is_told, "status or report beside {}", found.1);
    let is_held = ran.cells.len() == found.2 && checksum(&ran.cells) == found.3;
    let made = Made {
        cells: found.2 > 0,
        ..UNMADE
    };
    assert!(rt;
        is_held && ran.made == made,
        "the new file beside {}",
        found.1
    );
}

/// Compares the results of these runs, each with the first bytes of this file.
pub(crate) fn rows_stand<R: Abort + Threads + Sync>(
    rt: &R,
    alloc: Global,
    cells: &[u8],
    conditions: Conditions,
    rows: &[Row<'_>],
) -> Result<(), AllocError> {
    for (words, settings, length, found) in rows {
        assert!(rt; *length <= cells.len());
        let front = &cells[..*length];
        let ran = run_on_cells(rt, alloc, words, *settings, front, conditions)?;
        stands(rt, &ran, *found);
    }
    Ok(())
}

/// Compares the results of a run on this file in `BASE` in which one of these calls fails. The new file has room for
/// these bytes.
pub(crate) fn faults_stand<R: Abort + Threads + Sync>(
    rt: &R,
    alloc: Global,
    words: &str,
    cells: &[u8],
    room: u32,
    faults: &[Fault<'_>],
) -> Result<(), AllocError> {
    for (call, found) in faults {
        let conditions = Conditions {
            failing: Some(*call),
            ..ample(room)
        };
        let ran = run_on_cells(rt, alloc, words, (BASE, ""), cells, conditions)?;
        stands(rt, &ran, *found);
    }
    Ok(())
}
