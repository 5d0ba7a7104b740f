// The command `receive` with workers.
use std::alloc::{AllocError, Global};
use std::test::Fail;
use std::thread::Threads;
use test_runs::{BASE, Meeting, Ran, WHOLE_NULLS, run_gated_files, text_bytes};
use word_workers::{Gate, OpenGate};

/// Two streams of 3/4 in 64-QAM in the 8K mode.
const LAYERED_64: &str =
    "mode = \"8k\"\nconstellation = \"64qam\"\nhierarchy = \"2\"\nrate_hp = \"3/4\"\nrate_lp = \"3/4\"\nguard = \"1/32\"\n";

// Runs these arguments through this gate, with a file of cells named `b` and an empty one named `a`.
fn run<R: Threads + Sync, G: Gate>(
    rt: &R,
    alloc: Global,
    gate: &G,
    text: &str,
    settings: (&str, &str),
    cells: &[u8],
) -> Result<Ran, AllocError> {
    let settings = text_bytes(alloc, settings.0, settings.1)?;
    let inputs = (Vec::new(alloc), Vec::from_slice(alloc, cells)?);
    run_gated_files(rt, alloc, gate, text, settings, inputs)
}

// The first three symbols of two streams of null packets: two workers decode outer words in parallel, as do the inner
// decoders of the streams.
#[test]
fn two_threads_in_a_reception(rt: HostRuntime) -> Result<(), Fail> {
    let alloc = rt.alloc();
    let settings = (LAYERED_64, "max_symbols = 3\n");
    let sent = run(&rt, alloc, &OpenGate, "modulate s a a sent", settings, &[])?;
    assert_eq!(rt; (sent.status, sent.cells.len()), (8, 102_263));
    let gate = Meeting::new();
    let settings = (LAYERED_64, "workers = 2\n");
    let words = "receive s b hp lp";
    let got = run(&rt, alloc, &gate, words, settings, &sent.cells)?;
    assert_eq!(rt; got.status, 0);
    assert!(rt; gate.outer.have_met() && gate.inner.have_met());
    Ok(())
}

// The null super-frame gives the same with 1, 3 and 16 workers.
#[test]
fn null_super_frame_by_workers(rt: HostRuntime) -> Result<(), Fail> {
    let alloc = rt.alloc();
    let sent = run(&rt, alloc, &OpenGate, "modulate s a sent", (BASE, ""), &[])?;
    assert_eq!(rt; (sent.status, sent.cells.len()), (0, 2_318_808));
    for workers in ["workers = 1\n", "workers = 3\n", "workers = 16\n"] {
        let settings = (BASE, workers);
        let words = "receive s b hp";
        let got = run(&rt, alloc, &OpenGate, words, settings, &sent.cells)?;
        assert_eq!(rt; (got.status, got.hp.len(), got.lp.len()), (0, 45_308, 0));
        assert!(rt; got.report.as_slice() == WHOLE_NULLS.as_bytes());
    }
    Ok(())
}
