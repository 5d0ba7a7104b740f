// Runs of `measure`, and their results.
use std::alloc::{AllocError, Global};
use std::process::Abort;
use std::thread::Threads;
use test_runs::{Ran, SYMBOL, UNMADE, ample, run_on_cells};

pub(crate) const MEASURE: &str = "measure s a";

/// Compares the result. No output is created.
pub(crate) fn stands(rt: &impl Abort, ran: &Ran, status: u8, report: &str) {
    assert!(rt;
        ran.status == status && ran.report.as_slice() == report.as_bytes(),
        "status or report beside {report}"
    );
    assert!(rt; ran.made == UNMADE, "an output was made beside {report}");
}

/// Measures this file without a fault and compares the report.
pub(crate) fn prints<R: Abort + Threads + Sync>(
    rt: &R,
    alloc: Global,
    settings: (&str, &str),
    cells: &[u8],
    report: &str,
) -> Result<(), AllocError> {
    let ran = run_on_cells(rt, alloc, MEASURE, settings, cells, ample(5_000))?;
    stands(rt, &ran, 0, report);
    Ok(())
}

/// The header of a file and a number of its symbols, and this many bytes after them.
pub(crate) fn first(
    alloc: Global,
    cells: &[u8],
    symbols: usize,
    bytes: usize,
) -> Result<Vec<u8>, AllocError> {
    let end = 8 + symbols.min(2_000) * SYMBOL + bytes.min(SYMBOL);
    Vec::from_slice(alloc, &cells[..end.min(cells.len())])
}

// The negative of a number of two bytes, within 16 bits.
fn negative(high: u8, low: u8) -> [u8; 2] {
    let number = i32::from(i16::from_be_bytes([high, low]));
    ((-number).clamp(-32_768, 32_767) as i16).to_be_bytes()
}

/// Negates the number at this byte of a file. -32768 becomes 32767.
pub(crate) fn negate(cells: &mut [u8], place: usize) {
    if place < cells.len() && cells.len() - place >= 2 {
        let turned = negative(cells[place], cells[place + 1]);
        cells[place] = turned[0];
        cells[place + 1] = turned[1];
    }
}
