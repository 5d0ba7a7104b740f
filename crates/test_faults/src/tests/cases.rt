// A run without a fault, and the runs with one failed call.
use station_core::Failing;
use std::alloc::{AllocError, Global};
use std::process::Abort;
use std::thread::Threads;
use test_runs::{Conditions, Ran, ample, checksum, run_files, text_bytes};

/// The capacity of each output: a super-frame of cells.
const ROOM: u32 = 2_400_000;

/// The expected result if a call fails: the status, the number of bytes of the closing lines before the text of the
/// status, and the number of bytes of the whole first output and of the whole output of LP.
pub(crate) type Stands = (u8, usize, (usize, usize));

/// The call is never made: an input that has ended is not read again.
pub(crate) const UNASKED: Stands = (0, usize::MAX, (usize::MAX, usize::MAX));

/// A command: its arguments, the settings, the two inputs, and the closing lines of its whole run.
#[derive(Drop)]
pub(crate) struct Work<'a> {
    /// The arguments.
    pub text: &'a str,
    /// The settings.
    pub settings: &'a str,
    /// The files `a` and `b`.
    pub inputs: (Vec<u8>, Vec<u8>),
    /// The closing lines.
    pub lines: &'a str,
}

// Runs a command with this failed call.
fn run<R: Threads + Sync>(
    rt: &R,
    alloc: Global,
    work: &Work<'_>,
    failing: Option<Failing>,
) -> Result<Ran, AllocError> {
    let settings = text_bytes(alloc, work.settings, "")?;
    let first = Vec::from_slice(alloc, &work.inputs.0)?;
    let second = Vec::from_slice(alloc, &work.inputs.1)?;
    let conditions = Conditions {
        failing,
        ..ample(ROOM)
    };
    run_files(
        rt,
        alloc,
        work.text,
        settings,
        (first, second),
        100,
        conditions,
    )
}

/// Runs a command without a fault. Its first output and that of LP have these lengths and sums, from an independent
/// program.
pub(crate) fn whole<R: Abort + Threads + Sync>(
    rt: &R,
    alloc: Global,
    work: &Work<'_>,
    sums: [(usize, u32); 2],
) -> Result<Ran, AllocError> {
    let ran = run(rt, alloc, work, None)?;
    assert_eq!(rt; ran.status, 0, "{}", work.text);
    assert!(rt;
        ran.report.as_slice() == work.lines.as_bytes(),
        "{}",
        work.lines
    );
    let first = first_output(&ran);
    assert_eq!(rt; (first.len(), checksum(first)), sums[0], "{}", work.text);
    assert_eq!(rt; (ran.lp.len(), checksum(&ran.lp)), sums[1], "{}", work.text);
    Ok(ran)
}

// The output that is not LP's. A command has one.
fn first_output(ran: &Ran) -> &[u8] {
    if !ran.bytes.is_empty() {
        &ran.bytes
    } else if !ran.cells.is_empty() {
        &ran.cells
    } else {
        &ran.hp
    }
}

// Whether this is the prefix of this number of bytes, or all if there are fewer.
fn is_front(part: &[u8], whole: &[u8], count: usize) -> bool {
    let most = whole.len().min(count);
    part == &whole[..most]
}

// The text of a status of faults, or of a limit of 32 symbols. A run that succeeds has none.
fn text_of(status: u8) -> &'static str {
    if status == 0 {
        ""
    } else if status == 5 {
        "read fault\n"
    } else if status == 6 {
        "write fault\n"
    } else {
        "limit 32\n"
    }
}

// Whether the report holds this number of bytes of the lines, then this text.
fn is_told(report: &[u8], lines: &[u8], count: usize, text: &str) -> bool {
    let most = report.len().min(count);
    is_front(&report[..most], lines, count) && &report[most..] == text.as_bytes()
}

/// Runs a command with one failed call, and compares the status, the report and each output with the results of its
/// whole run.
pub(crate) fn fails<R: Abort + Threads + Sync>(
    rt: &R,
    alloc: Global,
    work: &Work<'_>,
    whole: &Ran,
    call: Failing,
    stands: Stands,
) -> Result<(), AllocError> {
    let ran = run(rt, alloc, work, Some(call))?;
    let (status, lines, (first, lp)) = stands;
    assert_eq!(rt; ran.status, status, "{}: {call:?}", work.text);
    let told = is_told(&ran.report, work.lines.as_bytes(), lines, text_of(status));
    assert!(rt; told, "{}: the report at {call:?}", work.text);
    let left = is_front(&ran.bytes, &whole.bytes, first)
        && is_front(&ran.cells, &whole.cells, first)
        && is_front(&ran.hp, &whole.hp, first)
        && is_front(&ran.lp, &whole.lp, lp);
    assert!(rt; left, "{}: the outputs at {call:?}", work.text);
    Ok(())
}

/// The same for each call of a table.
pub(crate) fn each_fails<R: Abort + Threads + Sync>(
    rt: &R,
    alloc: Global,
    work: &Work<'_>,
    whole: &Ran,
    cases: &[(Failing, Stands)],
) -> Result<(), AllocError> {
    for (call, stands) in cases {
        fails(rt, alloc, work, whole, *call, *stands)?;
    }
    Ok(())
}
