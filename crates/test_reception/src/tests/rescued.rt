// The command `rescue`. The expected reports, lengths and sums are those of an independent program.
use station_core::{Failing, InPort, OutPort};
use std::alloc::{AllocError, Global};
use std::test::Fail;
use std::thread::Threads;
use test_runs::{
    BASE, Conditions, EMPTY, Fault, Found, Held, LAYERED, SUPER_FRAME, SYMBOL, WIDE_SYMBOL, ample,
    first_wrong, leaves, noisy, null_cells, wide_null_cells,
};

/// QPSK at 7/8.
const QPSK: &str = "mode = \"2k\"\nconstellation = \"qpsk\"\nrate_hp = \"7/8\"\nguard = \"1/32\"\n";

/// 64-QAM at 7/8, and the result for 14 symbols of it from any register, with noise that moves each part by at most
/// 2,875: 3 words of 5 are rescued.
const SIXTY_FOUR: &str =
    "mode = \"2k\"\nconstellation = \"64qam\"\nrate_hp = \"7/8\"\nguard = \"1/32\"\n";

const THREE_OF_FIVE: &str =
    "symbols 14 tail 0\nhp words 57 clean 0 corrected 52 rescued 3 bad 2 unphased 0 unmerged 0\n";

/// 16-QAM at 2/3, and the result for 20 symbols of it, with noise that moves each part by at most 7,380: 4 words of 18
/// are rescued.
const SIXTEEN: &str =
    "mode = \"2k\"\nconstellation = \"16qam\"\nrate_hp = \"2/3\"\nguard = \"1/32\"\n";

const FOUR_OF_18: &str =
    "symbols 20 tail 0\nhp words 38 clean 0 corrected 20 rescued 4 bad 14 unphased 0 unmerged 0\n";

const ALL: Held = Some((7_144, 3_112_967_656));

/// The output without the last symbol.
const ALL_BUT_ONE: Held = Some((6_580, 2_132_560_500));

/// Half of the first write.
const HALF: Held = Some((282, 1_288_369_202));

/// The lines of them all, before a failed close.
const CLOSED: &str =
    "symbols 20 tail 0\nhp words 38 clean 0 corrected 20 rescued 4 bad 14 unphased 0 unmerged 0\nwrite fault\n";

/// QPSK: all three words without a nearest codeword are rescued.
const ALL_THREE: &str =
    "symbols 20 tail 0\nhp words 21 clean 2 corrected 16 rescued 3 bad 0 unphased 0 unmerged 0\n";

/// Two streams: two of nine such words of LP are rescued.
const TWO_OF_NINE: &str =
    "symbols 30 tail 0\nhp words 16 clean 16 corrected 0 rescued 0 bad 0 unphased 0 unmerged 0\nlp words 30 clean 0 corrected 21 rescued 2 bad 7 unphased 0 unmerged 0\n";

/// The lines of them all, before a failed close.
const CLOSED_OF_TWO: &str =
    "symbols 30 tail 0\nhp words 16 clean 16 corrected 0 rescued 0 bad 0 unphased 0 unmerged 0\nlp words 30 clean 0 corrected 21 rescued 2 bad 7 unphased 0 unmerged 0\nwrite fault\n";

/// The super-frame of null packets in `BASE`, and none of its symbols.
const WHOLE_NULLS: &str =
    "symbols 272 tail 0\nhp words 241 clean 241 corrected 0 rescued 0 bad 0 unphased 0 unmerged 0\n";

const NO_WORDS: &str =
    "symbols 0 tail 0\nhp words 0 clean 0 corrected 0 rescued 0 bad 0 unphased 0 unmerged 0\n";

// A file with noise: the settings of its transmission, the number of its symbols, and the most by which each part is
// moved.
type Noisy<'a> = (&'a str, usize, u32);

// The header and the first symbols of a cell file.
fn front(file: &[u8], symbols: usize) -> &[u8] {
    &file[..(8 + symbols.min(300) * SYMBOL).min(file.len())]
}

// The symbols of null packets with noise.
fn disturbed<R: Threads + Sync>(
    rt: &R,
    alloc: Global,
    file: Noisy<'_>,
    two: bool,
) -> Result<Vec<u8>, AllocError> {
    let cells = null_cells(rt, alloc, file.0, two)?;
    noisy(alloc, front(&cells, file.1), file.2)
}

const ANY: &str = "start = \"any\"\n";

/// A file with noise, the line of the settings' start, and the expected result.
static CASES: [(Noisy<'static>, &str, Found<'static>); 4] = [
    (
        (QPSK, 20, 12_460),
        ANY,
        (0, ALL_THREE, Some((3_948, 1_716_182_877)), None),
    ),
    (
        (SIXTY_FOUR, 14, 2_875),
        ANY,
        (0, THREE_OF_FIVE, Some((10_716, 3_641_308_779)), None),
    ),
    ((SIXTEEN, 20, 7_380), "", (0, FOUR_OF_18, ALL, None)),
    (
        (LAYERED, 30, 2_680),
        "",
        (
            0,
            TWO_OF_NINE,
            Some((3_008, 2_915_110_544)),
            Some((5_640, 3_964_788_347)),
        ),
    ),
];

// QPSK and 64-QAM from any register, 16-QAM from the register zero, and two streams; whole reads, and reads of few
// bytes.
#[test]
fn words_come_back(rt: HostRuntime) -> Result<(), Fail> {
    let alloc = rt.alloc();
    let pieces = Conditions {
        most: 997,
        ..ample(SUPER_FRAME)
    };
    for (sent, start, found) in &CASES {
        let two = found.3.is_some();
        let words = if two {
            "rescue s a hp lp"
        } else {
            "rescue s a hp"
        };
        let file = disturbed(&rt, alloc, *sent, two)?;
        let settings = (sent.0, *start);
        let whole = leaves(
            &rt,
            alloc,
            words,
            settings,
            &file,
            ample(SUPER_FRAME),
            *found,
        )?;
        let cut = leaves(&rt, alloc, words, settings, &file, pieces, *found)?;
        assert!(rt; whole && cut, "{}", found.1);
    }
    Ok(())
}

// Limits of symbols: all of them, and one fewer.
#[test]
fn limits_of_symbols(rt: HostRuntime) -> Result<(), Fail> {
    let alloc = rt.alloc();
    let file = disturbed(&rt, alloc, (SIXTEEN, 20, 7_380), false)?;
    let cases = [
        ("max_symbols = 20\n", (0, FOUR_OF_18, ALL, None)),
        ("max_symbols = 19\n", (8, "limit 19\n", ALL_BUT_ONE, None)),
    ];
    for (limit, found) in cases {
        let wide = ample(SUPER_FRAME);
        let settings = (SIXTEEN, limit);
        assert!(rt;
            leaves(&rt, alloc, "rescue s a hp", settings, &file, wide, found)?,
            "{}",
            limit
        );
    }
    Ok(())
}

/// Calls that fail, of one stream.
#[rattlefmt::skip]
static FAULTS: [Fault<'static>; 8] = [
    (Failing::Read(InPort::Settings, 1), (5, "read fault\n", None, None)),
    (Failing::Attach(InPort::Cells, 1), (5, "read fault\n", None, None)),
    (Failing::Read(InPort::Cells, 1), (5, "read fault\n", None, None)),
    (Failing::Read(InPort::Cells, 21), (5, "read fault\n", ALL_BUT_ONE, None)),
    (Failing::Create(OutPort::Hp, 1), (6, "write fault\n", None, None)),
    (Failing::Write(OutPort::Hp, 1), (6, "write fault\n", HALF, None)),
    (Failing::Write(OutPort::Report, 1), (6, "symbols 2write fault\n", ALL, None)),
    (Failing::Close(OutPort::Hp, 1), (6, CLOSED, ALL, None)),
];

/// Those of two streams at LP, whose first two packets are output with the tenth symbol.
#[rattlefmt::skip]
static FAULTS_OF_LP: [Fault<'static>; 3] = [
    (Failing::Create(OutPort::Lp, 1), (6, "write fault\n", EMPTY, None)),
    (Failing::Write(OutPort::Lp, 1), (6, "write fault\n", EMPTY, Some((188, 2_061_598_505)))),
    (Failing::Close(OutPort::Lp, 1), (6, CLOSED_OF_TWO, Some((3_008, 2_915_110_544)), Some((5_640, 3_964_788_347)))),
];

// One call of the station fails. A failed write writes the first half of its bytes.
#[test]
fn faults_of_the_station(rt: HostRuntime) -> Result<(), Fail> {
    let alloc = rt.alloc();
    let file = disturbed(&rt, alloc, (SIXTEEN, 20, 7_380), false)?;
    let run = ("rescue s a hp", SIXTEEN);
    let wrong = first_wrong(&rt, alloc, run, &file, SUPER_FRAME, &FAULTS)?;
    assert_eq!(rt; wrong, None);
    let layered = disturbed(&rt, alloc, (LAYERED, 30, 2_680), true)?;
    let run = ("rescue s a hp lp", LAYERED);
    let wrong = first_wrong(&rt, alloc, run, &layered, SUPER_FRAME, &FAULTS_OF_LP)?;
    assert_eq!(rt; wrong, None);
    // within the header of the cells
    let pieces = Conditions {
        most: 5,
        failing: Some(Failing::Read(InPort::Cells, 2)),
        ..ample(SUPER_FRAME)
    };
    let found = (5, "read fault\n", None, None);
    assert!(rt;
        leaves(
            &rt,
            alloc,
            "rescue s a hp",
            (SIXTEEN, ""),
            &file,
            pieces,
            found
        )?
    );
    Ok(())
}

// The super-frame of null packets, its header and parts of it, arguments that do not fit, and rejected settings.
#[test]
fn null_super_frame(rt: HostRuntime) -> Result<(), Fail> {
    let alloc = rt.alloc();
    let cells = null_cells(&rt, alloc, BASE, false)?;
    assert!(rt; cells.len() == 8 + 272 * SYMBOL);
    let one = "rescue s a hp";
    let two = "rescue s a hp lp";
    let form = (3, "settings form\n", None, None);
    let unknown = (3, "settings unknown 0\n", None, None);
    let header = (9, "cells header\n", None, None);
    let packets = Some((45_308, 481_694_105));
    let cases = [
        (one, BASE, cells.len(), (0, WHOLE_NULLS, packets, None)),
        (one, BASE, 8, (0, NO_WORDS, EMPTY, None)),
        (one, BASE, 7, header),
        (two, BASE, 8, form),
        (one, LAYERED, 8, form),
        (one, "colour = \"red\"\n", 8, unknown),
        ("rescue s a", BASE, 8, (2, "usage\n", None, None)),
    ];
    for (words, settings, length, found) in cases {
        let file = &cells[..length.min(cells.len())];
        let wide = ample(SUPER_FRAME);
        let is_so = leaves(&rt, alloc, words, (settings, ""), file, wide, found)?;
        assert!(rt; is_so, "{} of {} bytes beside {}", words, length, found.1);
    }
    Ok(())
}

/// 16-QAM at 2/3 in the 8K mode, and the result for seven symbols of it, with noise that moves each part by at most
/// 7,200: 2 words of 4 are rescued.
const WIDE_SIXTEEN: &str =
    "mode = \"8k\"\nconstellation = \"16qam\"\nrate_hp = \"2/3\"\nguard = \"1/32\"\n";

const TWO_OF_FOUR: &str =
    "symbols 7 tail 0\nhp words 58 clean 2 corrected 52 rescued 2 bad 2 unphased 0 unmerged 0\n";

#[test]
fn words_come_back_in_the_8k_mode(rt: HostRuntime) -> Result<(), Fail> {
    let alloc = rt.alloc();
    let cells = wide_null_cells(&rt, alloc, WIDE_SIXTEEN)?;
    let file = noisy(
        alloc,
        &cells[..(8 + 7 * WIDE_SYMBOL).min(cells.len())],
        7_200,
    )?;
    let settings = (WIDE_SIXTEEN, "");
    let found = (0, TWO_OF_FOUR, Some((10_904, 857_551_973)), None);
    let wide = ample(SUPER_FRAME);
    assert!(rt; leaves(&rt, alloc, "rescue s a hp", settings, &file, wide, found)?);
    Ok(())
}
