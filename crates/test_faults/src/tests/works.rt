// The commands `disperse`, `outer` and `inner` on 33 packets. A read returns one packet, and a write takes the whole
// bytes for one packet.
use super::cases::{Stands, UNASKED, Work, each_fails, whole};
use station_core::Failing::{Attach, Close, Create, Read, Write};
use station_core::{Failing, InPort, OutPort};
use std::alloc::{AllocError, Global};
use std::test::Fail;
use test_runs::File;

/// `BASE` at 5/6, where no packet ends with a whole byte.
const FIVE_OF_SIX: &str =
    "mode = \"2k\"\nconstellation = \"qpsk\"\nrate_hp = \"5/6\"\nguard = \"1/32\"\n";

const LINES: &str = "hp packets 33 tail 0\n";

// The work for 33 counting packets.
fn work_of<'a>(alloc: Global, text: &'a str) -> Result<Work<'a>, AllocError> {
    Ok(Work {
        text,
        settings: FIVE_OF_SIX,
        inputs: (File::Counted(33, 0).bytes(alloc)?, Vec::new(alloc)),
        lines: LINES,
    })
}

// A read fails with these bytes written.
fn read(count: usize) -> Stands {
    (5, 0, (count, 0))
}

// A write of the output fails, with these bytes written, including its first half.
fn write(count: usize) -> Stands {
    (6, 0, (count, 0))
}

// A fault after the work: this much of the closing line is written.
fn behind(lines: usize) -> Stands {
    (6, lines, (usize::MAX, 0))
}

// The calls that each of the three makes only once, and the last read, with these bytes written after it, and none
// more.
fn shared(all: usize) -> [(Failing, Stands); 7] {
    [
        (Attach(InPort::Hp, 1), read(0)),
        (Create(OutPort::Bytes, 1), write(0)),
        (Read(InPort::Hp, 1), read(0)),
        (Read(InPort::Hp, 34), read(all)),
        (Read(InPort::Hp, 35), UNASKED),
        (Write(OutPort::Report, 1), behind(10)),
        (Close(OutPort::Bytes, 1), behind(21)),
    ]
}

#[test]
fn disperse(rt: HostRuntime) -> Result<(), Fail> {
    let alloc = rt.alloc();
    let work = work_of(alloc, "disperse a out")?;
    let whole = whole(&rt, alloc, &work, [(6204, 1_883_983_342), (0, 0)])?;
    let own = [
        (Read(InPort::Hp, 31), read(30 * 188)),
        (Write(OutPort::Bytes, 1), write(94)),
        (Write(OutPort::Bytes, 31), write(30 * 188 + 94)),
        (Write(OutPort::Bytes, 33), write(32 * 188 + 94)),
    ];
    each_fails(&rt, alloc, &work, &whole, shared(33 * 188).as_slice())?;
    each_fails(&rt, alloc, &work, &whole, own.as_slice())?;
    Ok(())
}

#[test]
fn outer(rt: HostRuntime) -> Result<(), Fail> {
    let alloc = rt.alloc();
    let work = work_of(alloc, "outer a out")?;
    let whole = whole(&rt, alloc, &work, [(6732, 3_138_451_067), (0, 0)])?;
    let own = [
        (Read(InPort::Hp, 31), read(30 * 204)),
        (Write(OutPort::Bytes, 1), write(102)),
        (Write(OutPort::Bytes, 31), write(30 * 204 + 102)),
        (Write(OutPort::Bytes, 33), write(32 * 204 + 102)),
    ];
    each_fails(&rt, alloc, &work, &whole, shared(33 * 204).as_slice())?;
    each_fails(&rt, alloc, &work, &whole, own.as_slice())?;
    Ok(())
}

// At 5/6 five steps send six bits: 1632 steps 1959 bits, 30 packets 58,752, 31 packets 60,711, 32 packets 62,669 and 33
// packets 64,628. The last write is that of the partial byte.
#[test]
fn inner(rt: HostRuntime) -> Result<(), Fail> {
    let alloc = rt.alloc();
    let work = work_of(alloc, "inner s a out")?;
    let whole = whole(&rt, alloc, &work, [(8079, 1_059_659_218), (0, 0)])?;
    let own = [
        (Attach(InPort::Settings, 1), read(0)),
        (Read(InPort::Settings, 1), read(0)),
        (Read(InPort::Settings, 2), read(0)),
        (Read(InPort::Hp, 31), read(7344)),
        (Write(OutPort::Bytes, 1), write(244 / 2)),
        (Write(OutPort::Bytes, 31), write(7344 + (7588 - 7344) / 2)),
        (Write(OutPort::Bytes, 34), write(8078)),
    ];
    each_fails(&rt, alloc, &work, &whole, shared(8078).as_slice())?;
    each_fails(&rt, alloc, &work, &whole, own.as_slice())?;
    Ok(())
}
