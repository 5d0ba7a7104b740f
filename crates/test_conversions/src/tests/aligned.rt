// Places found by `align`. The expected reports, lengths and sums are those of an independent program.
use super::conversions::{Found, HEADER, HEADER_SUM, Row, rows_stand, stands};
use std::alloc::{AllocError, Global};
use std::process::Abort;
use std::test::Fail;
use std::thread::Threads;
use test_runs::{
    BASE, Conditions, LAYERED, SUPER_FRAME, SYMBOL, WIDE, WIDE_SYMBOL, ample, heard, null_cells,
    run_on_cells, sent, wide_null_cells,
};

pub(crate) const ALIGN: &str = "align s a cells";

/// The lines of the second of two super-frames, received from symbol 10 of the first one on.
const SECOND: &str =
    "tune at 58 frame 2\nannounced constellation qpsk hierarchy none rate_hp 1/2 guard 1/32\nsymbols 272 tail 0\n";

/// Those of the layered super-frame at which the plan takes effect.
const PLANNED: &str =
    "tune at 0 frame 1\nannounced constellation 16qam hierarchy 4 rate_hp 1/2 rate_lp 3/4 guard 1/32\nsymbols 272 tail 0\n";

/// The plan.
const LP_COMES: &str =
    "plan = [{ after = 1, constellation = \"16qam\", hierarchy = \"4\", rate_hp = \"1/2\", rate_lp = \"3/4\" }]\n";

// The cells of two super-frames of 300 packets, without their first ten symbols.
fn late<R: Abort + Threads + Sync>(rt: &R, alloc: Global) -> Result<Vec<u8>, AllocError> {
    let cells = sent(rt, alloc, (BASE, ""), (300, None), 2)?;
    heard(alloc, &cells, SYMBOL, 10, 0)
}

// The second of two super-frames is copied unchanged, with the settings of the transmission and with others.
#[test]
fn second_super_frame(rt: HostRuntime) -> Result<(), Fail> {
    let alloc = rt.alloc();
    let file = late(&rt, alloc)?;
    for settings in [BASE, LAYERED] {
        let room = ample(SUPER_FRAME);
        let ran = run_on_cells(&rt, alloc, ALIGN, (settings, ""), &file, room)?;
        let found = (0, SECOND, SUPER_FRAME as usize, 3_997_570_612);
        stands(&rt, &ran, found);
    }
    Ok(())
}

// The announced parameters are those that the plan sends next.
#[test]
fn announced_plan(rt: HostRuntime) -> Result<(), Fail> {
    let alloc = rt.alloc();
    let file = sent(&rt, alloc, (BASE, LP_COMES), (300, Some(100)), 2)?;
    let room = ample(SUPER_FRAME);
    let ran = run_on_cells(&rt, alloc, ALIGN, (BASE, ""), &file, room)?;
    stands(&rt, &ran, (0, PLANNED, SUPER_FRAME as usize, 19_705_062));
    Ok(())
}

/// The closing lines of files that end around the second super-frame.
const NO_TAIL: &str =
    "tune at 58 frame 2\nannounced constellation qpsk hierarchy none rate_hp 1/2 guard 1/32\nsymbols 0 tail 0\n";

const TAIL_OF_FOUR: &str =
    "tune at 58 frame 2\nannounced constellation qpsk hierarchy none rate_hp 1/2 guard 1/32\nsymbols 0 tail 4\n";

const TAIL_OF_ONE: &str =
    "tune at 58 frame 2\nannounced constellation qpsk hierarchy none rate_hp 1/2 guard 1/32\nsymbols 1 tail 1\n";

/// Cells that end before the next super-frame have no tail.
#[rattlefmt::skip]
static CUTS: [Row<'static>; 3] = [
    (ALIGN, (BASE, ""), HEADER + 261 * SYMBOL + 8_524, (0, NO_TAIL, HEADER, HEADER_SUM)),
    (ALIGN, (BASE, ""), HEADER + 262 * SYMBOL + 4, (0, TAIL_OF_FOUR, HEADER, HEADER_SUM)),
    (ALIGN, (BASE, ""), HEADER + 263 * SYMBOL + 1, (0, TAIL_OF_ONE, 8_533, 1_363_019_003)),
];

#[test]
fn ends_around_the_super_frame(rt: HostRuntime) -> Result<(), Fail> {
    let file = late(&rt, rt.alloc())?;
    rows_stand(&rt, rt.alloc(), &file, ample(SUPER_FRAME), &CUTS)?;
    Ok(())
}

/// The settings of a transmission, the first symbol received, the number of symbols of a second super-frame, and the
/// expected result.
static ANNOUNCED: [(&str, usize, usize, Found<'static>); 5] = [
    (
        BASE,
        163,
        3,
        (
            0,
            "tune at 41 frame 4\nannounced constellation qpsk hierarchy none rate_hp 1/2 guard 1/32\nsymbols 3 tail 0\n",
            25_583,
            3_642_937_220,
        ),
    ),
    (
        "mode = \"2k\"\nconstellation = \"16qam\"\nrate_hp = \"2/3\"\nguard = \"1/16\"\n",
        155,
        3,
        (
            0,
            "tune at 49 frame 4\nannounced constellation 16qam hierarchy none rate_hp 2/3 guard 1/16\nsymbols 3 tail 0\n",
            25_583,
            1_209_495_739,
        ),
    ),
    (
        "mode = \"2k\"\nconstellation = \"64qam\"\nhierarchy = \"2\"\nrate_hp = \"5/6\"\nrate_lp = \"7/8\"\nguard = \"1/4\"\n",
        182,
        3,
        (
            0,
            "tune at 22 frame 4\nannounced constellation 64qam hierarchy 2 rate_hp 5/6 rate_lp 7/8 guard 1/4\nsymbols 3 tail 0\n",
            25_583,
            3_732_984_159,
        ),
    ),
    (
        "mode = \"2k\"\nconstellation = \"64qam\"\nhierarchy = \"1\"\nrate_hp = \"3/4\"\nrate_lp = \"2/3\"\nguard = \"1/8\"\n",
        197,
        2,
        (
            0,
            "tune at 7 frame 4\nannounced constellation 64qam hierarchy 1 rate_hp 3/4 rate_lp 2/3 guard 1/8\nsymbols 2 tail 0\n",
            17_058,
            723_420_346,
        ),
    ),
    (
        LAYERED,
        163,
        2,
        (
            0,
            "tune at 41 frame 4\nannounced constellation 16qam hierarchy 4 rate_hp 1/2 rate_lp 3/4 guard 1/32\nsymbols 2 tail 0\n",
            17_058,
            1_527_128_586,
        ),
    ),
];

// Every constellation, hierarchy, rate and guard interval is announced by its name, whatever the settings say.
#[test]
fn every_word(rt: HostRuntime) -> Result<(), Fail> {
    let alloc = rt.alloc();
    for (sent, first, following, found) in &ANNOUNCED {
        let cells = null_cells(&rt, alloc, sent, sent.contains("rate_lp"))?;
        let file = heard(alloc, &cells, SYMBOL, *first, *following)?;
        let room = ample(SUPER_FRAME);
        let ran = run_on_cells(&rt, alloc, ALIGN, (BASE, ""), &file, room)?;
        stands(&rt, &ran, *found);
    }
    Ok(())
}

// The 8K mode.
#[test]
fn wide_symbols(rt: HostRuntime) -> Result<(), Fail> {
    let alloc = rt.alloc();
    let cells = wide_null_cells(&rt, alloc, WIDE)?;
    let file = heard(alloc, &cells, WIDE_SYMBOL, 201, 2)?;
    let room = ample(SUPER_FRAME);
    let ran = run_on_cells(&rt, alloc, ALIGN, (WIDE, ""), &file, room)?;
    let report =
        "tune at 3 frame 4\nannounced constellation qpsk hierarchy none rate_hp 1/2 guard 1/32\nsymbols 2 tail 0\n";
    stands(&rt, &ran, (0, report, 68_178, 1_609_659_017));
    Ok(())
}

// Replaces the weights of a file from its symbol 109 on by numbers of up to 255.
fn weigh(file: &mut [u8]) {
    let first = 8 + 109 * SYMBOL + 4;
    for (place, byte) in file.iter_mut().enumerate() {
        if first <= place && place.wrapping_sub(first) % 5 == 0 {
            *byte = (place.wrapping_mul(7) % 256) as u8;
        }
    }
}

// Symbols are copied byte for byte, even weights above 15, with whole reads and with reads of few bytes.
#[test]
fn byte_for_byte(rt: HostRuntime) -> Result<(), Fail> {
    let alloc = rt.alloc();
    let cells = null_cells(&rt, alloc, BASE, false)?;
    let mut file = heard(alloc, &cells, SYMBOL, 163, 3)?;
    weigh(&mut file);
    let report =
        "tune at 41 frame 4\nannounced constellation qpsk hierarchy none rate_hp 1/2 guard 1/32\nsymbols 3 tail 0\n";
    for most in [u32::MAX, 1_000] {
        let conditions = Conditions {
            most,
            ..ample(SUPER_FRAME)
        };
        let ran = run_on_cells(&rt, alloc, ALIGN, (BASE, ""), &file, conditions)?;
        stands(&rt, &ran, (0, report, 25_583, 3_253_655_487));
    }
    Ok(())
}

// `receive` gives for the new file the packets that `tune` gives for the old one.
#[test]
fn received_as_tuned(rt: HostRuntime) -> Result<(), Fail> {
    let alloc = rt.alloc();
    let room = ample(SUPER_FRAME);
    let cells = null_cells(&rt, alloc, BASE, false)?;
    let file = heard(alloc, &cells, SYMBOL, 163, 24)?;
    let tuned = run_on_cells(&rt, alloc, "tune s a hp", (BASE, ""), &file, room)?;
    let made = run_on_cells(&rt, alloc, ALIGN, (BASE, ""), &file, room)?;
    let any = (BASE, "start = \"any\"\n");
    let back = run_on_cells(&rt, alloc, "receive s a hp", any, &made.cells, room)?;
    assert_eq!(rt; (tuned.status, made.status, back.status), (0, 0, 0));
    assert!(rt; tuned.hp == back.hp && back.hp.len() == 2_068);
    Ok(())
}
