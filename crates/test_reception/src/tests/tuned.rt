// The command `tune`. The expected reports, lengths and sums are those of an independent program.
use station_core::{Failing, InPort, OutPort};
use std::alloc::{AllocError, Global};
use std::process::Abort;
use std::test::Fail;
use std::thread::Threads;
use test_runs::{
    BASE, EMPTY, Fault, File, Found, Held, LAYERED, SUPER_FRAME, SYMBOL, WIDE, WIDE_SYMBOL, ample,
    first_wrong, heard, leaves, noisy, null_cells, run_on_cells, sent, wide_null_cells,
};

const ONE: &str = "tune s a hp";

const TWO: &str = "tune s a hp lp";

/// The number of symbols taken from the super-frame that follows.
const FOLLOWING: usize = 24;

/// The closing lines for the symbols of `BASE` that follow.
const RECEIVED: &str =
    "tune at 4 frame 4\nsymbols 24 tail 0\ntps read 0 bad 0\nhp words 11 clean 11 corrected 0 bad 0 unphased 0 unmerged 0\n";

// An announced transmission: its shape and rates, the first symbol received, and the expected result.
type Announced<'a> = (&'a str, usize, Found<'a>);

const PACKETS: Held = Some((2_068, 3_923_578_435));

/// The output without the last symbol.
const ALL_BUT_ONE: Held = Some((1_880, 3_596_870_170));

/// Half of the first packet.
const HALF: Held = Some((94, 2_357_816_009));

/// The first packet of HP, and six packets of LP.
const ONE_PACKET: Held = Some((188, 2_061_598_505));

const SIX_PACKETS: Held = Some((1_128, 2_307_759_734));

/// The closing lines, before a failed close.
const CLOSED: &str =
    "tune at 4 frame 4\nsymbols 24 tail 0\ntps read 0 bad 0\nhp words 11 clean 11 corrected 0 bad 0 unphased 0 unmerged 0\nwrite fault\n";

/// The same of two streams.
const CLOSED_OF_TWO: &str =
    "tune at 4 frame 4\nsymbols 24 tail 0\ntps read 0 bad 0\nhp words 11 clean 11 corrected 0 bad 0 unphased 0 unmerged 0\nlp words 22 clean 22 corrected 0 bad 0 unphased 0 unmerged 0\nwrite fault\n";

/// The lines if the cells end with the frame at the place.
const AT_ZERO: &str =
    "tune at 0 frame 1\nsymbols 0 tail 0\ntps read 0 bad 0\nhp words 0 clean 0 corrected 0 bad 0 unphased 0 unmerged 0\n";

/// The lines of the second of two super-frames.
const SECOND: &str =
    "tune at 58 frame 2\nsymbols 272 tail 0\ntps read 4 bad 0\nhp words 241 clean 241 corrected 0 bad 0 unphased 4 unmerged 0\n";

// A transmission with these choices is found from this symbol on, with its own settings and with others.
fn is_found<R: Abort + Threads + Sync>(
    rt: &R,
    alloc: Global,
    case: Announced<'_>,
) -> Result<bool, AllocError> {
    let two = case.2.3.is_some();
    let words = if two { TWO } else { ONE };
    let cells = null_cells(rt, alloc, case.0, two)?;
    let file = heard(alloc, &cells, SYMBOL, case.1, FOLLOWING)?;
    let room = ample(SUPER_FRAME);
    leaves(rt, alloc, words, (BASE, ""), &file, room, case.2)
}

/// Each constellation without a hierarchy.
static CONSTELLATIONS: [Announced<'static>; 3] = [
    (
        BASE,
        163,
        (
            0,
            "tune at 41 frame 4\nsymbols 24 tail 0\ntps read 0 bad 0\nhp words 11 clean 11 corrected 0 bad 0 unphased 0 unmerged 0\n",
            PACKETS,
            None,
        ),
    ),
    (
        "mode = \"2k\"\nconstellation = \"16qam\"\nrate_hp = \"2/3\"\nguard = \"1/32\"\n",
        155,
        (
            0,
            "tune at 49 frame 4\nsymbols 24 tail 0\ntps read 0 bad 0\nhp words 48 clean 48 corrected 0 bad 0 unphased 0 unmerged 0\n",
            Some((9_024, 2_591_075_248)),
            None,
        ),
    ),
    (
        "mode = \"2k\"\nconstellation = \"64qam\"\nrate_hp = \"7/8\"\nguard = \"1/32\"\n",
        197,
        (
            0,
            "tune at 7 frame 4\nsymbols 24 tail 0\ntps read 0 bad 0\nhp words 105 clean 105 corrected 0 bad 0 unphased 0 unmerged 0\n",
            Some((19_740, 1_859_297_745)),
            None,
        ),
    ),
];

// Each constellation without a hierarchy.
#[test]
fn each_constellation(rt: HostRuntime) -> Result<(), Fail> {
    for case in &CONSTELLATIONS {
        assert!(rt;
            is_found(&rt, rt.alloc(), *case)?,
            "found from symbol {}",
            case.1
        );
    }
    Ok(())
}

/// Each hierarchy, in 16-QAM and in 64-QAM.
static HIERARCHIES: [Announced<'static>; 6] = [
    (
        "mode = \"2k\"\nconstellation = \"16qam\"\nhierarchy = \"1\"\nrate_hp = \"1/2\"\nrate_lp = \"5/6\"\nguard = \"1/32\"\n",
        182,
        (
            0,
            "tune at 22 frame 4\nsymbols 24 tail 0\ntps read 0 bad 0\nhp words 11 clean 11 corrected 0 bad 0 unphased 0 unmerged 0\nlp words 26 clean 26 corrected 0 bad 0 unphased 0 unmerged 0\n",
            PACKETS,
            Some((4_888, 4_088_119_466)),
        ),
    ),
    (
        "mode = \"2k\"\nconstellation = \"16qam\"\nhierarchy = \"4\"\nrate_hp = \"3/4\"\nrate_lp = \"7/8\"\nguard = \"1/32\"\n",
        165,
        (
            0,
            "tune at 39 frame 4\nsymbols 24 tail 0\ntps read 0 bad 0\nhp words 22 clean 22 corrected 0 bad 0 unphased 0 unmerged 0\nlp words 27 clean 27 corrected 0 bad 0 unphased 0 unmerged 0\n",
            Some((4_136, 3_451_673_862)),
            Some((5_076, 1_359_295_699)),
        ),
    ),
    (
        "mode = \"2k\"\nconstellation = \"64qam\"\nhierarchy = \"2\"\nrate_hp = \"7/8\"\nrate_lp = \"2/3\"\nguard = \"1/32\"\n",
        203,
        (
            0,
            "tune at 1 frame 4\nsymbols 24 tail 0\ntps read 0 bad 0\nhp words 27 clean 27 corrected 0 bad 0 unphased 0 unmerged 0\nlp words 48 clean 48 corrected 0 bad 0 unphased 0 unmerged 0\n",
            Some((5_076, 1_359_295_699)),
            Some((9_024, 2_591_075_248)),
        ),
    ),
    (
        "mode = \"2k\"\nconstellation = \"16qam\"\nhierarchy = \"2\"\nrate_hp = \"2/3\"\nrate_lp = \"1/2\"\nguard = \"1/16\"\n",
        171,
        (
            0,
            "tune at 33 frame 4\nsymbols 24 tail 0\ntps read 0 bad 0\nhp words 18 clean 18 corrected 0 bad 0 unphased 0 unmerged 0\nlp words 11 clean 11 corrected 0 bad 0 unphased 0 unmerged 0\n",
            Some((3_384, 4_260_053_346)),
            PACKETS,
        ),
    ),
    (
        "mode = \"2k\"\nconstellation = \"64qam\"\nhierarchy = \"1\"\nrate_hp = \"5/6\"\nrate_lp = \"3/4\"\nguard = \"1/8\"\n",
        190,
        (
            0,
            "tune at 14 frame 4\nsymbols 24 tail 0\ntps read 0 bad 0\nhp words 26 clean 26 corrected 0 bad 0 unphased 0 unmerged 0\nlp words 55 clean 55 corrected 0 bad 0 unphased 0 unmerged 0\n",
            Some((4_888, 4_088_119_466)),
            Some((10_340, 613_633_103)),
        ),
    ),
    (
        "mode = \"2k\"\nconstellation = \"64qam\"\nhierarchy = \"4\"\nrate_hp = \"1/2\"\nrate_lp = \"7/8\"\nguard = \"1/4\"\n",
        150,
        (
            0,
            "tune at 54 frame 4\nsymbols 24 tail 0\ntps read 0 bad 0\nhp words 11 clean 11 corrected 0 bad 0 unphased 0 unmerged 0\nlp words 66 clean 66 corrected 0 bad 0 unphased 0 unmerged 0\n",
            PACKETS,
            Some((12_408, 3_813_088_530)),
        ),
    ),
];

// Each hierarchy in 16-QAM and in 64-QAM.
#[test]
fn each_hierarchy(rt: HostRuntime) -> Result<(), Fail> {
    for case in &HIERARCHIES {
        assert!(rt;
            is_found(&rt, rt.alloc(), *case)?,
            "found from symbol {}",
            case.1
        );
    }
    Ok(())
}

/// 16-QAM at 2/3, and the start of its report with 24 symbols after the place.
const SIXTEEN: &str =
    "mode = \"2k\"\nconstellation = \"16qam\"\nrate_hp = \"2/3\"\nguard = \"1/32\"\n";

const CORRECTED: &str =
    "tune at 49 frame 4\nsymbols 24 tail 0\ntps read 0 bad 0\nhp words 48 clean 12 corrected 36 bad 0 unphased 0 unmerged 0\n";

const MOSTLY_BAD: &str =
    "tune at 49 frame 4\nsymbols 24 tail 0\ntps read 0 bad 0\nhp words 48 clean 0 corrected 5 bad 43 unphased 0 unmerged 0\n";

// Noise that the outer code corrects, noise that it mostly does not, and noise in which nothing is readable.
#[test]
fn noise_on_all_cells(rt: HostRuntime) -> Result<(), Fail> {
    let alloc = rt.alloc();
    let cells = null_cells(&rt, alloc, SIXTEEN, false)?;
    let file = heard(alloc, &cells, SYMBOL, 155, FOLLOWING)?;
    let room = ample(SUPER_FRAME);
    let cases = [
        (7_000, (0, CORRECTED, Some((9_024, 2_591_075_248)), None)),
        (7_500, (0, MOSTLY_BAD, Some((9_024, 2_945_153_715)), None)),
        (28_000, (10, "tune none\n", EMPTY, None)),
    ];
    for (most, found) in cases {
        let disturbed = noisy(alloc, &file, most)?;
        let is_so = leaves(&rt, alloc, ONE, (BASE, ""), &disturbed, room, found)?;
        assert!(rt; is_so, "noise of {most}");
    }
    Ok(())
}

// Symbols from the first number to before the second.
type Span = (usize, usize);

// Symbols 200 to 271 of the null super-frame of `BASE`, and its symbols 0 to 23 after them.
fn late_nulls<R: Threads + Sync>(rt: &R, alloc: Global) -> Result<Vec<u8>, AllocError> {
    let cells = null_cells(rt, alloc, BASE, false)?;
    heard(alloc, &cells, SYMBOL, 200, FOLLOWING)
}

// These symbols of a file turned by a half: each part x of a cell becomes -1 - x.
fn turned(alloc: Global, file: &[u8], spans: (Span, Span)) -> Result<Vec<u8>, AllocError> {
    let mut bytes = Vec::new(alloc);
    for (place, byte) in file.iter().enumerate() {
        let symbol = place.saturating_sub(8) / SYMBOL;
        let is_in = |span: Span| span.0 <= symbol && symbol < span.1;
        let is_part = place >= 8 && (place - 8) % 5 < 4;
        let is_turned = is_part && (is_in(spans.0) || is_in(spans.1));
        bytes.push(if is_turned { !*byte } else { *byte })?;
    }
    Ok(bytes)
}

// Wrong votes: each turned span has one at its start and one after its end. Up to two do not matter.
#[test]
fn wrong_votes(rt: HostRuntime) -> Result<(), Fail> {
    let alloc = rt.alloc();
    let nulls = late_nulls(&rt, alloc)?;
    let none = (10, "tune none\n", EMPTY, None);
    let plain = (0, RECEIVED, PACKETS, None);
    let cases = [
        (((0, 0), (0, 0)), plain),
        (((0, 20), (0, 0)), plain),
        (((20, 30), (0, 0)), plain),
        (((0, 20), (30, 40)), none),
        (((5, 6), (7, 8)), none),
    ];
    let room = ample(SUPER_FRAME);
    for (spans, found) in cases {
        let file = turned(alloc, &nulls, spans)?;
        let is_so = leaves(&rt, alloc, ONE, (BASE, ""), &file, room, found)?;
        assert!(rt; is_so, "turned from {} and from {}", spans.0.0, spans.1.0);
    }
    Ok(())
}

/// A line of the settings, and the expected result.
static LIMITS: [(&str, Found<'static>); 6] = [
    ("max_symbols = 60\n", (8, "limit 60\n", EMPTY, None)),
    ("max_symbols = 71\n", (8, "limit 71\n", EMPTY, None)),
    (
        "max_symbols = 72\n",
        (8, "tune at 4 frame 4\nlimit 72\n", EMPTY, None),
    ),
    (
        "max_symbols = 73\n",
        (8, "tune at 4 frame 4\nlimit 73\n", EMPTY, None),
    ),
    (
        "max_symbols = 95\n",
        (8, "tune at 4 frame 4\nlimit 95\n", ALL_BUT_ONE, None),
    ),
    ("max_symbols = 96\n", (0, RECEIVED, PACKETS, None)),
];

// The limit counts all symbols of the file: within the frame of the place, after it, and in the reception.
#[test]
fn limits_of_symbols(rt: HostRuntime) -> Result<(), Fail> {
    let alloc = rt.alloc();
    let nulls = late_nulls(&rt, alloc)?;
    let room = ample(SUPER_FRAME);
    for (limit, found) in &LIMITS {
        let is_so = leaves(&rt, alloc, ONE, (BASE, *limit), &nulls, room, *found)?;
        assert!(rt; is_so, "{}", limit);
    }
    Ok(())
}

/// Calls that fail, of one stream.
#[rattlefmt::skip]
static FAULTS: [Fault<'static>; 10] = [
    (Failing::Read(InPort::Settings, 1), (5, "read fault\n", None, None)),
    (Failing::Attach(InPort::Cells, 1), (5, "read fault\n", None, None)),
    (Failing::Read(InPort::Cells, 1), (5, "read fault\n", None, None)),
    (Failing::Read(InPort::Cells, 73), (5, "read fault\n", EMPTY, None)),
    (Failing::Read(InPort::Cells, 74), (5, "tune at 4 frame 4\nread fault\n", EMPTY, None)),
    (Failing::Read(InPort::Cells, 97), (5, "tune at 4 frame 4\nread fault\n", ALL_BUT_ONE, None)),
    (Failing::Create(OutPort::Hp, 1), (6, "write fault\n", None, None)),
    (Failing::Write(OutPort::Hp, 1), (6, "tune at 4 frame 4\nwrite fault\n", HALF, None)),
    (Failing::Write(OutPort::Report, 1), (6, "tune at 4write fault\n", EMPTY, None)),
    (Failing::Close(OutPort::Hp, 1), (6, CLOSED, PACKETS, None)),
];

/// Those of a transmission of two streams at LP, whose first packet is output with the ninth symbol. The 13th gives the
/// first of HP and two of LP, its sixth and its seventh.
#[rattlefmt::skip]
static FAULTS_OF_LP: [Fault<'static>; 4] = [
    (Failing::Create(OutPort::Lp, 1), (6, "write fault\n", EMPTY, None)),
    (Failing::Write(OutPort::Lp, 1), (6, "tune at 4 frame 4\nwrite fault\n", EMPTY, HALF)),
    (Failing::Write(OutPort::Lp, 5), (6, "tune at 4 frame 4\nwrite fault\n", ONE_PACKET, SIX_PACKETS)),
    (Failing::Close(OutPort::Lp, 1), (6, CLOSED_OF_TWO, PACKETS, Some((4_136, 3_451_673_862)))),
];

// One call of the station fails, before the place and after it. A failed write writes the first half of its bytes.
#[test]
fn faults_of_the_station(rt: HostRuntime) -> Result<(), Fail> {
    let alloc = rt.alloc();
    let nulls = late_nulls(&rt, alloc)?;
    let wrong = first_wrong(&rt, alloc, (ONE, BASE), &nulls, SUPER_FRAME, &FAULTS)?;
    assert_eq!(rt; wrong, None);
    let cells = null_cells(&rt, alloc, LAYERED, true)?;
    let layered = heard(alloc, &cells, SYMBOL, 200, FOLLOWING)?;
    let run = (TWO, BASE);
    let wrong = first_wrong(&rt, alloc, run, &layered, SUPER_FRAME, &FAULTS_OF_LP)?;
    assert_eq!(rt; wrong, None);
    Ok(())
}

/// Invalid command lines, missing files, and rejected settings, before the cells are opened: nothing is written.
static REFUSED: [(&str, &str, Found<'static>); 7] = [
    ("tune s a", "", (2, "usage\n", None, None)),
    ("tune s a hp lp more", "", (2, "usage\n", None, None)),
    ("Tune s a hp", "", (2, "usage\n", None, None)),
    ("tune gone a hp", "", (5, "read fault\n", None, None)),
    ("tune s gone hp", "", (5, "read fault\n", None, None)),
    (
        "tune s gone hp",
        "colour = \"red\"\n",
        (3, "settings unknown 0\n", None, None),
    ),
    (
        "tune s gone hp",
        "workers = 0\n",
        (3, "settings value workers\n", None, None),
    ),
];

#[test]
fn refused_words_and_settings(rt: HostRuntime) -> Result<(), Fail> {
    let alloc = rt.alloc();
    let room = ample(SUPER_FRAME);
    for (words, line, found) in &REFUSED {
        let is_so = leaves(&rt, alloc, *words, (BASE, *line), &[], room, *found)?;
        assert!(rt; is_so, "{} by {}", words, line);
    }
    Ok(())
}

// The first symbols of a super-frame, with these settings and these arguments: 67 hold no frame, and 68 hold one.
#[test]
fn first_symbols(rt: HostRuntime) -> Result<(), Fail> {
    let alloc = rt.alloc();
    let none = (10, "tune none\n", EMPTY, None);
    let form = (11, "tune form\n", EMPTY, None);
    let form_of_two = (11, "tune form\n", EMPTY, EMPTY);
    let header = (9, "cells header\n", None, None);
    let limit = (8, "limit 67\n", EMPTY, None);
    let cases = [
        (BASE, 67, (BASE, ""), ONE, none),
        (BASE, 68, (BASE, ""), ONE, (0, AT_ZERO, EMPTY, None)),
        (BASE, 68, (BASE, ""), TWO, form_of_two),
        (LAYERED, 68, (BASE, ""), ONE, form),
        (LAYERED, 69, (BASE, "max_symbols = 68\n"), ONE, form),
        (LAYERED, 69, (BASE, "max_symbols = 67\n"), ONE, limit),
        (BASE, 68, (WIDE, ""), ONE, header),
    ];
    let room = ample(SUPER_FRAME);
    for (sent, count, settings, words, found) in cases {
        let cells = null_cells(&rt, alloc, sent, sent == LAYERED)?;
        let file = heard(alloc, &cells, SYMBOL, 300, count)?;
        let is_so = leaves(&rt, alloc, words, settings, &file, room, found)?;
        assert!(rt; is_so, "{} symbols beside {}", count, found.1);
    }
    Ok(())
}

/// The lines of a transmission of the 8K mode.
const WIDE_RECEIVED: &str =
    "tune at 4 frame 4\nsymbols 9 tail 0\ntps read 0 bad 0\nhp words 22 clean 22 corrected 0 bad 0 unphased 0 unmerged 0\n";

// Symbols 200 to 271 of the null super-frame of the 8K mode, and its symbols 0 to 8 after them.
#[test]
fn symbols_of_the_8k_mode(rt: HostRuntime) -> Result<(), Fail> {
    let alloc = rt.alloc();
    let cells = wide_null_cells(&rt, alloc, WIDE)?;
    let file = heard(alloc, &cells, WIDE_SYMBOL, 200, 9)?;
    let found = (0, WIDE_RECEIVED, Some((4_136, 3_451_673_862)), None);
    let room = ample(SUPER_FRAME);
    assert!(rt; leaves(&rt, alloc, ONE, (WIDE, ""), &file, room, found)?);
    Ok(())
}

// The cells of a hundred packets of HP and two hundred of LP, with only HP to be written.
#[test]
fn packets_of_two_streams_for_one_file(rt: HostRuntime) -> Result<(), Fail> {
    let alloc = rt.alloc();
    let cells = sent(&rt, alloc, (LAYERED, ""), (100, Some(200)), 1)?;
    assert!(rt; cells.len() == SUPER_FRAME as usize);
    let found = (11, "tune form\n", EMPTY, None);
    let room = ample(SUPER_FRAME);
    assert!(rt; leaves(&rt, alloc, ONE, (BASE, ""), &cells, room, found)?);
    Ok(())
}

// Cells of the 2K mode under the header of the 8K mode hold no frame.
#[test]
fn cells_of_the_other_mode(rt: HostRuntime) -> Result<(), Fail> {
    let alloc = rt.alloc();
    let mut file = late_nulls(&rt, alloc)?;
    assert!(rt; file.len() == 8 + 96 * SYMBOL);
    file[5] = 1;
    let found = (10, "tune none\n", EMPTY, None);
    let room = ample(SUPER_FRAME);
    assert!(rt; leaves(&rt, alloc, ONE, (WIDE, ""), &file, room, found)?);
    Ok(())
}

// Two super-frames without their first ten symbols: the second one is received, with no phase for its first four words.
#[test]
fn second_super_frame(rt: HostRuntime) -> Result<(), Fail> {
    let alloc = rt.alloc();
    let cells = sent(&rt, alloc, (BASE, ""), (300, None), 2)?;
    let file = heard(alloc, &cells, SYMBOL, 10, 0)?;
    let room = ample(SUPER_FRAME);
    let ran = run_on_cells(&rt, alloc, ONE, (BASE, ""), &file, room)?;
    assert!(rt; ran.status == 0 && ran.report.as_slice() == SECOND.as_bytes());
    let packets = File::Counted(300, 193).bytes(alloc)?;
    assert!(rt; packets.len() >= 48_128);
    assert!(rt; &ran.hp[..] == &packets[48_128..]);
    Ok(())
}
