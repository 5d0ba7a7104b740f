// Refusals in the work followed by a failed flush, as on a full disk: the write was given first, so the status is 6.
// The outputs are those after the refusal, and the report has the lines before it.
use super::cells::symbols;
use station_core::{Failing, InPort};
use std::alloc::{AllocError, Global};
use std::process::Abort;
use std::test::Fail;
use std::thread::Threads;
use test_runs::{BASE, Conditions, File, LAYERED, Ran, ample, run_files, text_bytes};

/// The capacity of each output: a super-frame of cells.
const ROOM: u32 = 2_400_000;

/// A limit of 32 symbols.
const LIMITED: &str = "max_symbols = 32\n";

// A refused run: its arguments, the lines after the settings, the most packets, the call that fails, and the status and
// the text of the refusal.
type Refused<'a> = (&'a str, &'a str, u64, Option<Failing>, u8, &'a str);

// Runs a command with these settings and inputs. Its flush fails, or does not.
fn run<R: Threads + Sync>(
    rt: &R,
    alloc: Global,
    refused: Refused<'_>,
    settings: &str,
    inputs: (&[u8], &[u8]),
    flush_fails: bool,
) -> Result<Ran, AllocError> {
    let (text, more, packets, failing, _, _) = refused;
    let settings = text_bytes(alloc, settings, more)?;
    let first = Vec::from_slice(alloc, inputs.0)?;
    let second = Vec::from_slice(alloc, inputs.1)?;
    let conditions = Conditions {
        failing,
        flush_fails,
        ..ample(ROOM)
    };
    let most = packets.clamp(1, 1000);
    run_files(rt, alloc, text, settings, (first, second), most, conditions)
}

// Whether the report ends with this text, and the rest is that of the other.
fn ends_with(report: &[u8], text: &str, other: &[u8], end: &str) -> bool {
    let lines = report.strip_suffix(text.as_bytes());
    lines.is_some() && lines == other.strip_suffix(end.as_bytes())
}

// Compares a refusal with the same one after a failed flush.
fn compare<R: Abort + Threads + Sync>(
    rt: &R,
    alloc: Global,
    refused: Refused<'_>,
    settings: &str,
    inputs: (&[u8], &[u8]),
) -> Result<(), AllocError> {
    let (text, _, _, _, status, told) = refused;
    let kept = run(rt, alloc, refused, settings, inputs, false)?;
    let lost = run(rt, alloc, refused, settings, inputs, true)?;
    assert_eq!(rt; (kept.status, lost.status), (status, 6), "{text}");
    let reported = ends_with(&kept.report, told, &lost.report, "write fault\n");
    assert!(rt; reported, "{text}: the report at {status}");
    let same = kept.bytes == lost.bytes
        && kept.cells == lost.cells
        && kept.hp == lost.hp
        && kept.lp == lost.lp;
    assert!(rt; same, "{text}: the outputs at {status}");
    Ok(())
}

// A packet without its sync byte, a failed read, and one packet more than the limit.
fn of_packets<'a>(text: &'a str) -> [Refused<'a>; 3] {
    let read = Some(Failing::Read(InPort::Hp, 3));
    [
        (text, "", 100, None, 4, "hp packet 4\n"),
        (text, "", 100, read, 5, "read fault\n"),
        (text, "", 2, None, 8, "limit 2\n"),
    ]
}

#[test]
fn packets(rt: HostRuntime) -> Result<(), Fail> {
    let alloc = rt.alloc();
    let packets = File::Unsynced(4, 1).bytes(alloc)?;
    let texts = [
        "disperse a out",
        "outer a out",
        "inner s a out",
        "modulate s a cells",
    ];
    for text in texts {
        for refused in of_packets(text) {
            compare(&rt, alloc, refused, BASE, (&packets, &[]))?;
        }
    }
    let of_lp = ("modulate s a b cells", "", 100, None, 4, "lp packet 4\n");
    let nulls = File::Nulls(40, 0).bytes(alloc)?;
    compare(&rt, alloc, of_lp, LAYERED, (&nulls, &packets))?;
    Ok(())
}

// The cells of forty packets.
fn cells_of<R: Threads + Sync>(rt: &R, alloc: Global) -> Result<Vec<u8>, AllocError> {
    let settings = text_bytes(alloc, BASE, "")?;
    let hp = File::Counted(40, 0).bytes(alloc)?;
    let inputs = (hp, Vec::new(alloc));
    let ran = run_files(
        rt,
        alloc,
        "modulate s a cells",
        settings,
        inputs,
        100,
        ample(ROOM),
    )?;
    Ok(ran.cells)
}

// A failed read, and one symbol more than the limit.
fn of_symbols<'a>(text: &'a str) -> [Refused<'a>; 2] {
    let read = Some(Failing::Read(InPort::Cells, 30));
    [
        (text, "", 100, read, 5, "read fault\n"),
        (text, LIMITED, 100, None, 8, "limit 32\n"),
    ]
}

#[test]
fn cells(rt: HostRuntime) -> Result<(), Fail> {
    let alloc = rt.alloc();
    let cells = cells_of(&rt, alloc)?;
    let few = &cells[..cells.len().min(symbols(80))];
    let texts = [
        "receive s a hp",
        "rescue s a hp",
        "tune s a hp",
        "align s a cells",
        "measure s a",
        "upgrade s a cells",
        "equalise s a cells",
        "track s a cells",
    ];
    for text in texts {
        for refused in of_symbols(text) {
            compare(&rt, alloc, refused, BASE, (few, &[]))?;
        }
    }
    let none = ("tune s a hp", "", 100, None, 10, "tune none\n");
    let part = &cells[..cells.len().min(symbols(60))];
    compare(&rt, alloc, none, BASE, (part, &[]))?;
    let none = ("align s a cells", "", 100, None, 10, "tune none\n");
    compare(&rt, alloc, none, BASE, (part, &[]))?;
    let form = ("tune s a hp lp", "", 100, None, 11, "tune form\n");
    compare(&rt, alloc, form, BASE, (few, &[]))?;
    Ok(())
}
