// The command `trial` on a station in memory. The expected lines are those of an independent program.
use station_core::{Failing, InPort, OutPort};
use std::alloc::{AllocError, Global};
use std::process::Abort;
use std::test::Fail;
use std::thread::Threads;
use test_runs::{BASE, Conditions, LAYERED, UNMADE, WIDE, ample, run_files, text_bytes};

// Runs these arguments with these settings, and compares the status and the report. No output is created.
fn expect<R: Abort + Threads + Sync>(
    rt: &R,
    alloc: Global,
    text: &str,
    settings: (&str, &str),
    failing: Option<Failing>,
    found: (u8, &str),
) -> Result<(), AllocError> {
    let settings = text_bytes(alloc, settings.0, settings.1)?;
    let none = (Vec::new(alloc), Vec::new(alloc));
    let conditions = Conditions {
        failing,
        ..ample(1_000)
    };
    let ran = run_files(rt, alloc, text, settings, none, 1, conditions)?;
    let is_told = ran.status == found.0 && ran.report.as_slice() == found.1.as_bytes();
    assert!(rt;
        is_told && ran.made == UNMADE,
        "{text}: status or report beside {}",
        found.1
    );
    Ok(())
}

/// LP appears with the second super-frame.
const LP_COMES: &str =
    "max_symbols = 543\nplan = [{ after = 1, constellation = \"16qam\", hierarchy = \"4\", rate_hp = \"1/2\", rate_lp = \"3/4\" }]\n";

// The packets of LP need two super-frames, which are 544 symbols.
#[test]
fn one_stream_and_its_refusals(rt: HostRuntime) -> Result<(), Fail> {
    let alloc = rt.alloc();
    let lines = "cells 227682593\nhp packets 150 back 241 sum 7666638\n";
    let from_any = "start = \"any\"\nmax_symbols = 272\n";
    for (words, more, status, report) in [
        ("trial s 7", "", 0, lines),
        ("trial s 0000000007", from_any, 0, lines),
        ("trial s 7", "max_symbols = 271\n", 8, "limit 271\n"),
        ("trial s 7", LP_COMES, 8, "limit 543\n"),
        ("trial s 7", "colour = \"red\"\n", 3, "settings unknown 0\n"),
        ("trial gone 7", "", 5, "read fault\n"),
    ] {
        expect(&rt, alloc, words, (BASE, more), None, (status, report))?;
    }
    let unread = Some(Failing::Read(InPort::Settings, 1));
    let fault = (5, "read fault\n");
    expect(&rt, alloc, "trial s 7", (BASE, ""), unread, fault)?;
    Ok(())
}

// A number has one to ten digits and is at most 4294967295: then the settings are checked, which are rejected. Other
// arguments are invalid.
#[test]
fn numbers_among_the_words(rt: HostRuntime) -> Result<(), Fail> {
    let alloc = rt.alloc();
    let refused = (BASE, "colour = \"red\"\n");
    for words in ["trial s 0", "trial s 4294967295"] {
        expect(
            &rt,
            alloc,
            words,
            refused,
            None,
            (3, "settings unknown 0\n"),
        )?;
    }
    for words in [
        "trial s 4294967296",
        "trial s 9999999999",
        "trial s 00000000007",
        "trial s +7",
        "trial s -1",
        "trial s 7_0",
        "trial s 1e3",
        "trial s １",
    ] {
        expect(&rt, alloc, words, refused, None, (2, "usage\n"))?;
    }
    Ok(())
}

#[test]
fn two_streams_and_a_failed_write(rt: HostRuntime) -> Result<(), Fail> {
    let alloc = rt.alloc();
    let lines =
        "cells 227851732\nhp packets 150 back 241 sum 7668862\nlp packets 146 back 367 sum 13935564\n";
    expect(&rt, alloc, "trial s 7", (LAYERED, ""), None, (0, lines))?;
    let second = Some(Failing::Write(OutPort::Report, 2));
    let half = "cells 227682593\nhp packets 150 bacwrite fault\n";
    expect(&rt, alloc, "trial s 7", (BASE, ""), second, (6, half))?;
    Ok(())
}

#[test]
fn one_stream_of_the_8k_mode(rt: HostRuntime) -> Result<(), Fail> {
    let lines = "cells 914590089\nhp packets 150 back 997 sum 41380676\n";
    expect(&rt, rt.alloc(), "trial s 7", (WIDE, ""), None, (0, lines))?;
    Ok(())
}
