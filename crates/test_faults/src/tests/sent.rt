// The command `modulate` with one stream and with two: forty packets of HP, and seventy of LP. A super-frame has 272
// symbols, and the first write is that of the header.
use super::cases::{Stands, UNASKED, Work, each_fails, whole};
use super::cells::{and_half, symbols};
use station_core::Failing::{Attach, Close, Create, Read, Write};
use station_core::{Failing, InPort, OutPort};
use std::alloc::{AllocError, Global};
use std::test::Fail;
use test_runs::{BASE, File, LAYERED};

/// `BASE` with a limit of 32 symbols.
const LIMITED: &str =
    "mode = \"2k\"\nconstellation = \"qpsk\"\nrate_hp = \"1/2\"\nguard = \"1/32\"\nmax_symbols = 32\n";

const ONE_LINES: &str = "hp packets 40 tail 0\nsuperframes 1\n";

const TWO_LINES: &str = "hp packets 40 tail 0\nlp packets 70 tail 0\nsuperframes 1\n";

// The work for forty counting packets, and this number in the second file.
fn work_of<'a>(
    alloc: Global,
    text: &'a str,
    settings: &'a str,
    lines: &'a str,
    lp: u32,
) -> Result<Work<'a>, AllocError> {
    let hp = File::Counted(40, 0).bytes(alloc)?;
    let lp = File::Counted(lp, 0).bytes(alloc)?;
    Ok(Work {
        text,
        settings,
        inputs: (hp, lp),
        lines,
    })
}

// A fault before the output is created.
const UNREAD: Stands = (5, 0, (0, 0));

// A read of a packet fails with this number of symbols written.
fn read(count: usize) -> Stands {
    (5, 0, (symbols(count), 0))
}

// The write of the header fails, with its first half written.
const HEADER: Stands = (6, 0, (4, 0));

// The write of a symbol fails, with its first half written.
fn write(count: usize) -> Stands {
    (6, 0, (and_half(count), 0))
}

// A fault after the last symbol: this much of the closing lines is written.
fn behind(lines: usize) -> Stands {
    (6, lines, (symbols(272), 0))
}

// The calls at the settings and at the cells, which are the same for one stream and for two.
fn shared() -> [(Failing, Stands); 9] {
    [
        (Attach(InPort::Settings, 1), UNREAD),
        (Read(InPort::Settings, 1), UNREAD),
        (Read(InPort::Settings, 2), UNREAD),
        (Attach(InPort::Hp, 1), UNREAD),
        (Create(OutPort::Cells, 1), (6, 0, (0, 0))),
        (Write(OutPort::Cells, 1), HEADER),
        (Write(OutPort::Cells, 2), write(0)),
        (Write(OutPort::Cells, 31), write(29)),
        (Write(OutPort::Cells, 273), write(271)),
    ]
}

// A symbol takes 1512 of the 1632 bits of a packet: thirty packets suffice for 32 symbols, and forty for 43. With a
// limit of 32 symbols no packet is read for another one.
#[test]
fn one_stream(rt: HostRuntime) -> Result<(), Fail> {
    let alloc = rt.alloc();
    let work = work_of(alloc, "modulate s a cells", BASE, ONE_LINES, 0)?;
    let whole = whole(&rt, alloc, &work, [(symbols(272), 3_839_501_988), (0, 0)])?;
    let own = [
        (Read(InPort::Hp, 1), read(0)),
        (Read(InPort::Hp, 31), read(32)),
        (Read(InPort::Hp, 41), read(43)),
        (Read(InPort::Hp, 42), UNASKED),
        (Write(OutPort::Report, 1), behind(10)),
        (Write(OutPort::Report, 2), behind(21 + 7)),
        (Close(OutPort::Cells, 1), behind(35)),
    ];
    each_fails(&rt, alloc, &work, &whole, shared().as_slice())?;
    each_fails(&rt, alloc, &work, &whole, own.as_slice())?;
    let limited = work_of(alloc, "modulate s a cells", LIMITED, "", 0)?;
    let at_limit = [
        (Read(InPort::Hp, 30), read(31)),
        (Read(InPort::Hp, 31), (8, 0, (symbols(32), 0))),
    ];
    each_fails(&rt, alloc, &limited, &whole, at_limit.as_slice())?;
    Ok(())
}

// A symbol takes 2268 bits of LP: thirty packets suffice for 21 symbols, and seventy for 50.
#[test]
fn two_streams(rt: HostRuntime) -> Result<(), Fail> {
    let alloc = rt.alloc();
    let work = work_of(alloc, "modulate s a b cells", LAYERED, TWO_LINES, 70)?;
    let whole = whole(&rt, alloc, &work, [(symbols(272), 4_043_082_350), (0, 0)])?;
    let own = [
        (Attach(InPort::Lp, 1), UNREAD),
        (Read(InPort::Hp, 1), read(0)),
        (Read(InPort::Hp, 31), read(32)),
        (Read(InPort::Hp, 41), read(43)),
        (Read(InPort::Hp, 42), UNASKED),
        (Read(InPort::Lp, 1), read(0)),
        (Read(InPort::Lp, 31), read(21)),
        (Read(InPort::Lp, 71), read(50)),
        (Read(InPort::Lp, 72), UNASKED),
        (Write(OutPort::Report, 1), behind(10)),
        (Write(OutPort::Report, 2), behind(21 + 10)),
        (Write(OutPort::Report, 3), behind(42 + 7)),
        (Close(OutPort::Cells, 1), behind(56)),
    ];
    each_fails(&rt, alloc, &work, &whole, shared().as_slice())?;
    each_fails(&rt, alloc, &work, &whole, own.as_slice())?;
    Ok(())
}
