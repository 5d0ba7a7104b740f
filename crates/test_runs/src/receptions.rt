// Receptions, and their results.
use crate::runs::{Conditions, Ran, ample, run_on_cells};
use station_core::Failing;
use std::alloc::{AllocError, Global};
use std::thread::Threads;
use test_tools::checksum;

/// The content of an output: the number of bytes, and their sum. None if it was not created.
pub type Held = Option<(usize, u32)>;

/// The expected result: the status, the report, and the content of HP and LP.
pub type Found<'a> = (u8, &'a str, Held, Held);

/// A call that fails, and the expected result.
pub type Fault<'a> = (Failing, Found<'a>);

/// An output that was created and is empty.
pub const EMPTY: Held = Some((0, 0));

// The content of an output.
fn held(is_made: bool, bytes: &[u8]) -> Held {
    if is_made {
        Some((bytes.len(), checksum(bytes)))
    } else {
        None
    }
}

/// Whether this is the result, and no other output was created.
pub fn stands(ran: &Ran, found: Found<'_>) -> bool {
    let is_told = ran.status == found.0 && ran.report.as_slice() == found.1.as_bytes();
    let is_held = held(ran.made.hp, &ran.hp) == found.2 && held(ran.made.lp, &ran.lp) == found.3;
    is_told && is_held && !ran.made.cells && !ran.made.bytes
}

/// Whether these arguments with these settings and this file of cells have this result. The only error is lack of
/// memory.
pub fn leaves<R: Threads + Sync>(
    rt: &R,
    alloc: Global,
    words: &str,
    settings: (&str, &str),
    cells: &[u8],
    conditions: Conditions,
    found: Found<'_>,
) -> Result<bool, AllocError> {
    let ran = run_on_cells(rt, alloc, words, settings, cells, conditions)?;
    Ok(stands(&ran, found))
}

/// The index of the first call whose failure gives another result for these arguments, these settings and this file of
/// cells. Each output has room for these bytes. The only error is lack of memory.
pub fn first_wrong<R: Threads + Sync>(
    rt: &R,
    alloc: Global,
    (words, settings): (&str, &str),
    cells: &[u8],
    room: u32,
    faults: &[Fault<'_>],
) -> Result<Option<usize>, AllocError> {
    for (number, (call, found)) in faults.iter().enumerate() {
        let conditions = Conditions {
            failing: Some(*call),
            ..ample(room)
        };
        if !leaves(rt, alloc, words, (settings, ""), cells, conditions, *found)? {
            return Ok(Some(number));
        }
    }
    Ok(None)
}
