// The command `modulate`. The expected reports and sums are those of an independent program.
use super::cells::SUPER_FRAME;
use station_core::{Failing, InPort, OutPort};
use std::alloc::{AllocError, Global};
use std::test::Fail;
use std::thread::Threads;
use test_runs::{
    BASE, Conditions, File, LAYERED, Made, UNMADE, ample, checksum, run_files, text_bytes,
};

/// No packet.
const NONE: File = File::Nulls(0, 0);

const NULLS: &str = "hp packets 0 tail 0\nsuperframes 1\n";

const ONE: &str = "modulate s a cells";

const TWO: &str = "modulate s a b cells";

// The expected result: the status, the report, the length of the cells, and their sum.
type Found = (u8, &'static str, usize, u32);

// Modulates two transport files, at most 100 packets of each, and returns whether the result is as expected. No table
// has a case of a file of cells created and empty.
fn is_found<R: Threads + Sync>(
    rt: &R,
    alloc: Global,
    text: &str,
    settings: (&str, &str),
    inputs: (File, File),
    failing: Option<Failing>,
    found: Found,
) -> Result<bool, AllocError> {
    let settings = text_bytes(alloc, settings.0, settings.1)?;
    let files = (inputs.0.bytes(alloc)?, inputs.1.bytes(alloc)?);
    let conditions = Conditions {
        failing,
        ..ample(2_318_808)
    };
    let ran = run_files(rt, alloc, text, settings, files, 100, conditions)?;
    let is_told = ran.status == found.0 && ran.report.as_slice() == found.1.as_bytes();
    let made = Made {
        cells: found.2 > 0,
        ..UNMADE
    };
    let is_held = ran.cells.len() == found.2 && checksum(&ran.cells) == found.3;
    Ok(is_told && is_held && ran.made == made)
}

// The super-frame of null packets: its first bytes, its first scattered pilot past carrier 0, and a TPS carrier in the
// first and in the fourth symbol.
#[test]
fn null_super_frame(rt: HostRuntime) -> Result<(), Fail> {
    let alloc = rt.alloc();
    let settings = text_bytes(alloc, BASE, "")?;
    let none = (Vec::new(alloc), Vec::new(alloc));
    let ran = run_files(&rt, alloc, ONE, settings, none, 1, ample(2_318_808))?;
    assert_eq!(rt; ran.status, 0);
    assert!(rt; ran.report.as_slice() == NULLS.as_bytes());
    assert_eq!(rt; ran.cells.len(), SUPER_FRAME);
    let begins = [
        0x44u8, 0x56, 0x54, 0x43, 0x02, 0x00, 0x00, 0x00, 0xAA, 0xAB, 0x00, 0x00, 0x0F, 0xD2, 0xBF,
        0x2D, 0x41, 0x0F,
    ];
    assert_eq!(rt; &ran.cells[..18], begins.as_slice());
    let places = [
        (68, [0x55u8, 0x55, 0x00, 0x00, 0x0F]),
        (178, [0x40, 0x00, 0x00, 0x00, 0x0F]),
        (25_753, [0xC0, 0x00, 0x00, 0x00, 0x0F]),
    ];
    for (at, cell) in places {
        assert!(rt; at < 30_000 && ran.cells.len() == SUPER_FRAME);
        assert!(rt; &ran.cells[at..at + 5] == cell.as_slice(), "at {at}");
    }
    Ok(())
}

const HUNDRED: &str = "hp packets 100 tail 0\nsuperframes 1\n";

const TWO_STREAMS: &str = "hp packets 100 tail 0\nlp packets 20 tail 5\nsuperframes 1\n";

const PART: &str = "hp packets 5 tail 7\nsuperframes 1\n";

/// A hundred packets.
const COUNTED: File = File::Counted(100, 0);

/// One stream, two streams, and a partial packet after the last whole one: the report, and the sum of the cells.
static WHOLE: [(&str, &str, (File, File), (&str, u32)); 4] = [
    (ONE, BASE, (NONE, NONE), (NULLS, 2_468_371_442)),
    (ONE, BASE, (COUNTED, NONE), (HUNDRED, 720_243_768)),
    (
        TWO,
        LAYERED,
        (COUNTED, File::Nulls(20, 5)),
        (TWO_STREAMS, 682_362_670),
    ),
    (ONE, BASE, (File::Nulls(5, 7), NONE), (PART, 2_468_371_442)),
];

#[test]
fn whole_runs(rt: HostRuntime) -> Result<(), Fail> {
    let alloc = rt.alloc();
    for (text, settings, inputs, (report, sum)) in &WHOLE {
        let found = (0, *report, SUPER_FRAME, *sum);
        let stands = is_found(&rt, alloc, *text, (*settings, ""), *inputs, None, found)?;
        assert!(rt; stands, "{report}");
    }
    Ok(())
}

/// A packet without its sync byte, also as the fourth of five, and the limits.
static REFUSED: [(&str, File, Found); 3] = [
    (
        "",
        File::Unsynced(3, 1),
        (4, "hp packet 3\n", 25_583, 3_642_937_220),
    ),
    (
        "max_symbols = 271\n",
        NONE,
        (8, "limit 271\n", 2_310_283, 1_827_462_168),
    ),
    (
        "",
        File::Nulls(101, 0),
        (8, "limit 100\n", 912_183, 2_503_620_961),
    ),
];

/// The same for two streams: HP is read before LP.
static REFUSED_OF_TWO: [(File, File, Found); 2] = [
    (
        NONE,
        File::Unsynced(2, 0),
        (4, "lp packet 2\n", 8_533, 1_411_197_320),
    ),
    (
        File::Unsynced(0, 0),
        File::Unsynced(0, 0),
        (4, "hp packet 0\n", 8, 4_029_675_199),
    ),
];

#[test]
fn refused_packets_and_limits(rt: HostRuntime) -> Result<(), Fail> {
    let alloc = rt.alloc();
    for (line, hp, found) in &REFUSED {
        let stands = is_found(&rt, alloc, ONE, (BASE, *line), (*hp, NONE), None, *found)?;
        assert!(rt; stands, "{}", found.1);
    }
    for (hp, lp, found) in &REFUSED_OF_TWO {
        let stands = is_found(&rt, alloc, TWO, (LAYERED, ""), (*hp, *lp), None, *found)?;
        assert!(rt; stands, "{}", found.1);
    }
    Ok(())
}

/// Invalid command lines, settings that do not fit the arguments or are rejected, and a missing file: no cells are
/// created.
static REFUSED_WORDS: [(&str, &str, Found); 6] = [
    (
        "modulate s gone cells",
        "colour = \"red\"\n",
        (3, "settings unknown 0\n", 0, 0),
    ),
    (ONE, LAYERED, (3, "settings form\n", 0, 0)),
    (TWO, BASE, (3, "settings form\n", 0, 0)),
    ("modulate s gone cells", BASE, (5, "read fault\n", 0, 0)),
    ("modulate s a", BASE, (2, "usage\n", 0, 0)),
    ("modulate s a b cells more", LAYERED, (2, "usage\n", 0, 0)),
];

#[test]
fn refused_words_and_settings(rt: HostRuntime) -> Result<(), Fail> {
    let alloc = rt.alloc();
    for (text, settings, found) in &REFUSED_WORDS {
        let stands = is_found(
            &rt,
            alloc,
            *text,
            (*settings, ""),
            (NONE, NONE),
            None,
            *found,
        )?;
        assert!(rt; stands, "{text}");
    }
    Ok(())
}

const READ: &str = "read fault\n";

const WRITE: &str = "write fault\n";

/// The closing lines with half of the second one written, or before a failed close.
const HALF_LINE: &str = "hp packets 0 tail 0\nsuperfrwrite fault\n";

const CLOSED: &str = "hp packets 0 tail 0\nsuperframes 1\nwrite fault\n";

/// One call of the station fails, with this result for this number of null packets.
static FAULTS: [(Failing, usize, Found); 8] = [
    (Failing::Read(InPort::Settings, 1), 2, (5, READ, 0, 0)),
    (Failing::Attach(InPort::Hp, 1), 2, (5, READ, 0, 0)),
    (
        Failing::Read(InPort::Hp, 3),
        2,
        (5, READ, 17_058, 455_134_520),
    ),
    (Failing::Create(OutPort::Cells, 1), 2, (6, WRITE, 0, 0)),
    (
        Failing::Write(OutPort::Cells, 1),
        0,
        (6, WRITE, 4, 2_111_105),
    ),
    (
        Failing::Write(OutPort::Cells, 2),
        2,
        (6, WRITE, 4_270, 4_149_754_026),
    ),
    (
        Failing::Write(OutPort::Report, 2),
        0,
        (6, HALF_LINE, SUPER_FRAME, 2_468_371_442),
    ),
    (
        Failing::Close(OutPort::Cells, 1),
        0,
        (6, CLOSED, SUPER_FRAME, 2_468_371_442),
    ),
];

/// One fails at LP, with this result for three null packets of each stream.
static FAULTS_OF_LP: [(Failing, Found); 2] = [
    (Failing::Read(InPort::Lp, 1), (5, READ, 8, 4_029_675_199)),
    (
        Failing::Read(InPort::Lp, 3),
        (5, READ, 8_533, 1_411_197_320),
    ),
];

#[test]
fn faults_of_the_station(rt: HostRuntime) -> Result<(), Fail> {
    let alloc = rt.alloc();
    for (call, packets, found) in &FAULTS {
        let inputs = (File::Nulls(*packets, 0), NONE);
        let stands = is_found(&rt, alloc, ONE, (BASE, ""), inputs, Some(*call), *found)?;
        assert!(rt; stands, "{call:?}");
    }
    for (call, found) in &FAULTS_OF_LP {
        let inputs = (File::Nulls(3, 0), File::Nulls(3, 0));
        let stands = is_found(&rt, alloc, TWO, (LAYERED, ""), inputs, Some(*call), *found)?;
        assert!(rt; stands, "{call:?}");
    }
    Ok(())
}
