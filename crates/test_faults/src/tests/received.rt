// The command `receive` with one stream and with two, on the first frame of a transmission of forty packets of HP and
// seventy of LP, and three bytes of its next symbol. The first read returns the header, each other one a symbol. The
// numbers of packets after the symbols are those of an independent program.
use super::cases::{Stands, UNASKED, Work, each_fails, whole};
use super::cells::symbols;
use station_core::Failing::{Attach, Close, Create, Read, Write};
use station_core::{Failing, InPort, OutPort};
use std::alloc::{AllocError, Global};
use std::process::Abort;
use std::test::Fail;
use std::thread::Threads;
use test_runs::{BASE, File, LAYERED, Ran, ample, checksum, run_files, text_bytes};

const ONE_LINES: &str =
    "symbols 68 tail 3\ntps read 1 bad 0\nhp words 52 clean 52 corrected 0 bad 0 unphased 0 unmerged 0\n";

const TWO_LINES: &str =
    "symbols 68 tail 3\ntps read 1 bad 0\nhp words 52 clean 52 corrected 0 bad 0 unphased 0 unmerged 0\nlp words 83 clean 83 corrected 0 bad 0 unphased 0 unmerged 0\n";

/// The number of symbols received.
const SYMBOLS: usize = 68;

// The cells to receive, from those that `modulate` with these arguments gives for forty packets of HP and this number
// of LP.
fn cells_of<R: Abort + Threads + Sync>(
    rt: &R,
    alloc: Global,
    text: &str,
    settings: &str,
    lp: u32,
    sum: u32,
) -> Result<Vec<u8>, AllocError> {
    let settings = text_bytes(alloc, settings, "")?;
    let hp = File::Counted(40, 0).bytes(alloc)?;
    let lp = File::Counted(lp, 0).bytes(alloc)?;
    let ran = run_files(rt, alloc, text, settings, (hp, lp), 100, ample(2_400_000))?;
    assert_eq!(rt;
        (ran.cells.len(), checksum(&ran.cells)),
        (symbols(272), sum),
        "{text}"
    );
    let count = symbols(SYMBOLS).saturating_add(3).min(ran.cells.len());
    Vec::from_slice(alloc, &ran.cells[..count])
}

// Whether these are the packets sent, then null packets.
fn is_sent(
    rt: &impl Abort,
    alloc: Global,
    whole: &Ran,
    hp: File,
    lp: File,
) -> Result<(), AllocError> {
    let expected = hp.bytes(alloc)?;
    assert!(rt; whole.hp == expected);
    let expected = lp.bytes(alloc)?;
    assert!(rt; whole.lp == expected);
    Ok(())
}

// A fault before an output is created, or while HP's is.
const UNREAD: Stands = (5, 0, (0, 0));

const UNMADE: Stands = (6, 0, (0, 0));

// A read of a symbol fails, with this number of packets of HP and of LP written.
fn read(hp: usize, lp: usize) -> Stands {
    (5, 0, (packets(hp), packets(lp)))
}

// A write of packets fails: this number of bytes of HP and of LP is written.
fn write(hp: usize, lp: usize) -> Stands {
    (6, 0, (hp, lp))
}

// A fault after the last packet: this much of the closing lines is written.
fn behind(lines: usize) -> Stands {
    (6, lines, (usize::MAX, usize::MAX))
}

// The bytes of this number of packets.
fn packets(count: usize) -> usize {
    count.saturating_mul(188)
}

// The bytes of this number of packets and of half a packet.
fn and_half(count: usize) -> usize {
    packets(count).saturating_add(94)
}

// The calls before the work, which are the same for one stream and for two, and those after it at HP and at the first
// lines.
fn shared(all: usize) -> [(Failing, Stands); 9] {
    [
        (Attach(InPort::Settings, 1), UNREAD),
        (Read(InPort::Settings, 1), UNREAD),
        (Read(InPort::Settings, 2), UNREAD),
        (Attach(InPort::Cells, 1), UNREAD),
        (Create(OutPort::Hp, 1), UNMADE),
        (Read(InPort::Cells, 1), UNREAD),
        (Write(OutPort::Report, 1), behind(9)),
        (Write(OutPort::Report, 2), behind(18 + 8)),
        (Close(OutPort::Hp, 1), behind(all)),
    ]
}

// The 46th symbol completes the 31st packet of HP, and the last one follows at the end.
#[test]
fn one_stream(rt: HostRuntime) -> Result<(), Fail> {
    let alloc = rt.alloc();
    let cells = cells_of(&rt, alloc, "modulate s a cells", BASE, 0, 3_839_501_988)?;
    let work = Work {
        text: "receive s a hp",
        settings: BASE,
        inputs: (cells, Vec::new(alloc)),
        lines: ONE_LINES,
    };
    let whole = whole(&rt, alloc, &work, [(9776, 3_359_498_792), (0, 0)])?;
    is_sent(&rt, alloc, &whole, File::Counted(40, 12), File::Nulls(0, 0))?;
    let own = [
        (Read(InPort::Cells, 2), read(0, 0)),
        (Read(InPort::Cells, 31), read(15, 0)),
        (Read(InPort::Cells, 71), read(51, 0)),
        (Read(InPort::Cells, 72), UNASKED),
        (Write(OutPort::Hp, 1), write(and_half(0), 0)),
        (Write(OutPort::Hp, 31), write(and_half(30), 0)),
        (Write(OutPort::Hp, 52), write(and_half(51), 0)),
        (Write(OutPort::Report, 3), behind(35 + 30)),
    ];
    each_fails(&rt, alloc, &work, &whole, shared(96).as_slice())?;
    each_fails(&rt, alloc, &work, &whole, own.as_slice())?;
    Ok(())
}

// Within a symbol the packets of HP are written before those of LP. The ninth symbol completes the first packet of LP,
// the 39th two packets, by the 31st write, and the last symbol the last of LP.
#[test]
fn two_streams(rt: HostRuntime) -> Result<(), Fail> {
    let alloc = rt.alloc();
    let cells = cells_of(
        &rt,
        alloc,
        "modulate s a b cells",
        LAYERED,
        70,
        4_043_082_350,
    )?;
    let work = Work {
        text: "receive s a hp lp",
        settings: LAYERED,
        inputs: (cells, Vec::new(alloc)),
        lines: TWO_LINES,
    };
    let sums = [(9776, 3_359_498_792), (15_604, 4_229_376_744)];
    let whole = whole(&rt, alloc, &work, sums)?;
    is_sent(
        &rt,
        alloc,
        &whole,
        File::Counted(40, 12),
        File::Counted(70, 13),
    )?;
    let own = [
        (Create(OutPort::Lp, 1), UNMADE),
        (Read(InPort::Cells, 2), read(0, 0)),
        (Read(InPort::Cells, 31), read(15, 29)),
        (Read(InPort::Cells, 71), read(51, 83)),
        (Read(InPort::Cells, 72), UNASKED),
        (Write(OutPort::Hp, 1), write(and_half(0), packets(5))),
        (Write(OutPort::Hp, 31), write(and_half(30), packets(51))),
        (Write(OutPort::Hp, 52), write(and_half(51), packets(83))),
        (Write(OutPort::Lp, 1), write(0, and_half(0))),
        (Write(OutPort::Lp, 31), write(packets(25), packets(42))),
        (Write(OutPort::Lp, 60), write(packets(51), and_half(82))),
        (Write(OutPort::Report, 3), behind(35 + 30)),
        (Write(OutPort::Report, 4), behind(96 + 30)),
        (Close(OutPort::Lp, 1), behind(157)),
    ];
    each_fails(&rt, alloc, &work, &whole, shared(157).as_slice())?;
    each_fails(&rt, alloc, &work, &whole, own.as_slice())?;
    Ok(())
}
