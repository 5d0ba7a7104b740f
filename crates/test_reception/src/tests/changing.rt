// `tune` across super-frames with changing parameters. The expected reports, lengths and sums are those of an
// independent program.
use std::alloc::{AllocError, Global};
use std::process::Abort;
use std::test::Fail;
use std::thread::Threads;
use test_runs::{BASE, EMPTY, Held, LAYERED, SUPER_FRAME, SYMBOL, ample, heard, leaves, sent};

// A transmission: its settings, its plan, and its packets of HP and of LP.
type Sent<'a> = (&'a str, &'a str, (u32, Option<u32>));

const LP_COMES: &str =
    "plan = [{ after = 1, constellation = \"16qam\", hierarchy = \"4\", rate_hp = \"1/2\", rate_lp = \"3/4\" }]\n";

const LP_GOES: &str = "plan = [{ after = 1, constellation = \"qpsk\", rate_hp = \"1/2\" }]\n";

const DENSER: &str = "plan = [{ after = 2, constellation = \"16qam\", rate_hp = \"2/3\" }]\n";

/// Both streams of the super-frame with the announced parameters.
const BOTH: &str =
    "tune at 41 frame 4\nsymbols 24 tail 0\ntps read 0 bad 0\nhp words 11 clean 11 corrected 0 bad 0 unphased 4 unmerged 0\nlp words 22 clean 22 corrected 0 bad 0 unphased 0 unmerged 0\n";

/// HP alone.
const ALONE: &str =
    "tune at 41 frame 4\nsymbols 24 tail 0\ntps read 0 bad 0\nhp words 11 clean 11 corrected 0 bad 0 unphased 4 unmerged 0\n";

/// A super-frame with the announced parameters, and the first symbols of one with others.
const CHANGED_BEHIND: &str =
    "tune at 41 frame 4\nsymbols 296 tail 0\ntps read 4 bad 0\nhp words 263 clean 241 corrected 0 bad 22 unphased 4 unmerged 0\n";

const HP: Held = Some((1_316, 50_597_823));

// The header of the transmission's cells, then its symbols from number 163 on, up to this one.
fn late<R: Abort + Threads + Sync>(
    rt: &R,
    alloc: Global,
    (settings, plan, packets): Sent<'_>,
    end: usize,
) -> Result<Vec<u8>, AllocError> {
    let cells = sent(rt, alloc, (settings, plan), packets, 3)?;
    let end = (8 + end.min(600) * SYMBOL).min(cells.len());
    heard(alloc, &cells[..end], SYMBOL, 163, 0)
}

// The parameters change at the super-frame that `tune` waits for: the ones announced for it are used, even if LP
// appears or disappears. They change again after it: what follows is received with the announced parameters, and is
// bad.
#[test]
fn parameters_change_while_tuning(rt: HostRuntime) -> Result<(), Fail> {
    let alloc = rt.alloc();
    let form = (11, "tune form\n", EMPTY, None);
    let form_of_two = (11, "tune form\n", EMPTY, EMPTY);
    let both = (0, BOTH, HP, Some((4_136, 1_511_112_651)));
    let changed = (0, CHANGED_BEHIND, Some((48_692, 125_840_467)), None);
    let cases = [
        (
            (BASE, LP_COMES, (300, Some(100))),
            296,
            "tune s a hp lp",
            both,
        ),
        ((BASE, LP_COMES, (300, Some(100))), 296, "tune s a hp", form),
        (
            (LAYERED, LP_GOES, (300, Some(100))),
            296,
            "tune s a hp",
            (0, ALONE, HP, None),
        ),
        (
            (LAYERED, LP_GOES, (300, Some(100))),
            296,
            "tune s a hp lp",
            form_of_two,
        ),
        ((BASE, DENSER, (600, None)), 568, "tune s a hp", changed),
    ];
    let room = ample(SUPER_FRAME);
    for (sent, end, words, found) in cases {
        let cells = late(&rt, alloc, sent, end)?;
        let is_so = leaves(&rt, alloc, words, (BASE, ""), &cells, room, found)?;
        assert!(rt; is_so, "{} {}", words, sent.1);
    }
    Ok(())
}
