// A run with one transport file, and the command `outer`. The expected bytes are those of an independent program.
use station_core::Failing;
use std::alloc::{AllocError, Global};
use std::process::Abort;
use std::test::Fail;
use std::thread::Threads;
use test_runs::{
    BASE, Conditions, File, Made, Ran, UNMADE, ample, checksum, run_files, text_bytes,
};

/// The expected result: the status, the report, the length of the output, and its sum.
pub(crate) type Found = (u8, &'static str, usize, u32);

/// A call that fails, the limit of packets, and the most bytes that a read returns.
pub(crate) type Terms = (Option<Failing>, u64, u32);

/// No call fails, and no limit applies.
pub(crate) const FREE: Terms = (None, 100, u32::MAX);

/// A run: its arguments, the settings, the transport file, the terms, and the expected result.
pub(crate) type Case = (
    &'static str,
    (&'static str, &'static str),
    File,
    Terms,
    Found,
);

/// Runs these arguments with the settings and this file.
pub(crate) fn run_on<R: Abort + Threads + Sync>(
    rt: &R,
    alloc: Global,
    text: &str,
    settings: Vec<u8>,
    file: File,
    terms: Terms,
) -> Result<Ran, AllocError> {
    let (failing, limit, most) = terms;
    assert!(rt; 1 <= limit && limit <= 100_000_000 && 1 <= most);
    let conditions = Conditions {
        failing,
        most,
        ..ample(50_000)
    };
    let files = (file.bytes(alloc)?, Vec::new(alloc));
    run_files(rt, alloc, text, settings, files, limit, conditions)
}

// Runs a case, and returns whether it has the expected result. No table has a case of an output created and empty.
fn is_found<R: Abort + Threads + Sync>(
    rt: &R,
    alloc: Global,
    case: &Case,
) -> Result<bool, AllocError> {
    let (text, settings, file, terms, found) = *case;
    let settings = text_bytes(alloc, settings.0, settings.1)?;
    let ran = run_on(rt, alloc, text, settings, file, terms)?;
    let is_told = ran.status == found.0 && ran.report.as_slice() == found.1.as_bytes();
    let made = Made {
        bytes: found.2 > 0,
        ..UNMADE
    };
    let is_held = ran.bytes.len() == found.2 && checksum(&ran.bytes) == found.3;
    Ok(is_told && is_held && ran.made == made)
}

/// The index of the first run with another result.
pub(crate) fn first_wrong<R: Abort + Threads + Sync>(
    rt: &R,
    alloc: Global,
    cases: &[Case],
) -> Result<Option<usize>, AllocError> {
    for (number, case) in cases.iter().enumerate() {
        if !is_found(rt, alloc, case)? {
            return Ok(Some(number));
        }
    }
    Ok(None)
}

/// A part of the bytes that a run writes: its position, and its bytes.
pub(crate) type Part = (usize, &'static [u8]);

// Whether this part is in these bytes.
fn is_in(bytes: &[u8], part: &Part) -> bool {
    part.0 <= bytes.len() && bytes[part.0..].starts_with(part.1)
}

/// Runs these arguments with the settings and null packets. Returns the status, the output's length, whether the report
/// is this, and the index of the first part that is not in the output.
pub(crate) fn parts_of<R: Abort + Threads + Sync>(
    rt: &R,
    alloc: Global,
    (text, packets): (&str, usize),
    report: &str,
    parts: &[Part],
) -> Result<(u8, usize, bool, Option<usize>), AllocError> {
    let settings = text_bytes(alloc, BASE, "")?;
    let ran = run_on(rt, alloc, text, settings, File::Nulls(packets, 0), FREE)?;
    let missing = parts.iter().position(|part| !is_in(&ran.bytes, part));
    let is_told = ran.report.as_slice() == report.as_bytes();
    Ok((ran.status, ran.bytes.len(), is_told, missing))
}

static BEGINS: [Part; 1] = [(0, &[0xB8, 0, 0, 0, 0, 0, 0, 0, 0, 0, 0, 0, 0x8C])];

const FORM: &str = "outer a out";

/// A sample, a packet without its sync byte, and a packet past the limit.
#[rattlefmt::skip]
static CASES: [Case; 3] = [
    (FORM, (BASE, ""), File::Counted(100, 0), FREE, (0, "hp packets 100 tail 0\n", 20_400, 499_727_075)),
    (FORM, (BASE, ""), File::Unsynced(1, 1), FREE, (4, "hp packet 1\n", 204, 2_722_950_962)),
    (FORM, (BASE, ""), File::Nulls(3, 0), (None, 2, u32::MAX), (8, "limit 2\n", 408, 151_037_055)),
];

#[test]
fn one_null_packet_a_sample_and_refusals(rt: HostRuntime) -> Result<(), Fail> {
    let left = parts_of(&rt, rt.alloc(), (FORM, 1), "hp packets 1 tail 0\n", &BEGINS)?;
    assert_eq!(rt; left, (0, 204, true, None));
    assert_eq!(rt; first_wrong(&rt, rt.alloc(), &CASES)?, None);
    Ok(())
}
