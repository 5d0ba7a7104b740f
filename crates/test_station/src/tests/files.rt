// The station over files, in an empty folder.
ghost use Rattle.station_core.specs.Meaning.{IsFresh};

use super::calls::Answer::{All, Bytes, Done, Failed};
use super::calls::Call::{
    Attach, Close, Create, Flush, Length, Line, Printed, Read, ReadAll, Write,
};
use super::calls::{buffered, unbuffered};
use station_core::{InPort, OutPort, Station};
use station_files::FileStation;
use std::test::Fail;

// A small piece, one larger than a buffer, and a small one.
#[test]
fn files_written_and_read_back(rt: HostRuntime) -> Result<(), Fail> {
    let whole = All(40_005, 280_015, 5);
    let calls = [
        Create("out.ts"),
        Write(&[1, 2, 3]),
        Write(&[7; 40_000]),
        Write(&[4, 5]),
        Close,
        Attach("out.ts"),
        ReadAll,
    ];
    let want = [Done, Done, Done, Done, Done, Done, whole];
    assert_eq!(rt; buffered(&rt, &calls)?.as_slice(), want.as_slice());
    let read = unbuffered(&rt, 0, &[Attach("out.ts"), ReadAll])?;
    assert_eq!(rt; read.as_slice(), [Done, whole].as_slice());
    Ok(())
}

// Attaches LP and creates Cells, and returns which of them succeeded.
fn open_missing<'a, S: Station<'a>>(station: &mut S) -> [bool; 2]
    requires { IsFresh (S.meaning station.old) }
{
    let attached = station.attach(InPort::Lp, "no such file").is_ok();
    let created = station.create(OutPort::Cells, "no such folder/out");
    [attached, created.is_ok()]
}

#[test]
fn files_that_are_not_there(rt: HostRuntime) {
    assert_eq!(rt; open_missing(&mut FileStation::new(&rt)), [false, false]);
}

// A full device: bytes still fit the station's buffer, but are not written.
#[test]
fn a_fault_of_the_file_is_answered_at_close(rt: HostRuntime) -> Result<(), Fail> {
    let answers = buffered(&rt, &[Create("/dev/full"), Write(&[1, 2, 3]), Close])?;
    assert_eq!(rt; answers.as_slice(), [Done, Done, Failed].as_slice());
    Ok(())
}

// A flush reports it as well, and repeatedly, since nothing was written. Without a write there is nothing to report.
#[test]
fn a_fault_of_the_file_is_answered_at_a_flush(rt: HostRuntime) -> Result<(), Fail> {
    let calls = [
        Flush,
        Create("/dev/full"),
        Flush,
        Write(&[1, 2, 3]),
        Flush,
        Flush,
        Write(&[4]),
        Close,
    ];
    let want = [Done, Done, Done, Done, Failed, Failed, Failed, Done];
    assert_eq!(rt; buffered(&rt, &calls)?.as_slice(), want.as_slice());
    Ok(())
}

// After a flush the bytes are in the file, and more may be written.
#[test]
fn flushed_bytes_stand_in_the_file(rt: HostRuntime) -> Result<(), Fail> {
    let calls = [
        Create("out.ts"),
        Write(&[1, 2, 3]),
        Length("out.ts"),
        Flush,
        Length("out.ts"),
        Write(&[4]),
        Close,
        Length("out.ts"),
    ];
    let want = [Done, Done, Bytes(0), Done, Bytes(3), Done, Done, Bytes(4)];
    assert_eq!(rt; buffered(&rt, &calls)?.as_slice(), want.as_slice());
    Ok(())
}

// An output that is an input is not created, and the input stays. A device may be both.
#[test]
fn an_open_file_is_no_output(rt: HostRuntime) -> Result<(), Fail> {
    let made = [Create("in.ts"), Write(&[1, 2, 3]), Close];
    let answers = buffered(&rt, &made)?;
    assert_eq!(rt; answers.as_slice(), [Done, Done, Done].as_slice());
    let again = [Attach("in.ts"), Create("in.ts"), Length("in.ts"), Read(9)];
    let want = [Done, Failed, Bytes(3), Bytes(3)];
    assert_eq!(rt; buffered(&rt, &again)?.as_slice(), want.as_slice());
    let device = [Attach("/dev/null"), Create("/dev/null"), Write(&[1]), Close];
    let want = [Done, Done, Done, Done];
    assert_eq!(rt; buffered(&rt, &device)?.as_slice(), want.as_slice());
    Ok(())
}

// The bytes of a piece larger than the buffer are written at once.
#[test]
fn a_fault_of_the_file_is_answered_at_the_write(rt: HostRuntime) -> Result<(), Fail> {
    let small = Write(&[1, 2, 3]);
    let answers = buffered(&rt, &[Create("/dev/full"), Write(&[7; 40_000]), small])?;
    assert_eq!(rt; answers.as_slice(), [Done, Failed, Failed].as_slice());
    let answers = unbuffered(&rt, 0, &[Create("/dev/full"), small])?;
    assert_eq!(rt; answers.as_slice(), [Done, Failed].as_slice());
    Ok(())
}

// A folder can be opened, but not read.
#[test]
fn a_fault_of_the_file_is_not_its_end(rt: HostRuntime) -> Result<(), Fail> {
    let answers = unbuffered(&rt, 0, &[Attach("."), Read(1000)])?;
    assert_eq!(rt; answers.as_slice(), [Done, Failed].as_slice());
    Ok(())
}

// One file is written and read: earlier writes are in it when it is read. The second byte was in the station's buffer,
// so nothing had to be written for it.
#[test]
fn a_read_of_the_file_comes_behind_the_writes(rt: HostRuntime) -> Result<(), Fail> {
    let calls = [
        Create("out.ts"),
        Attach("out.ts"),
        Write(&[1, 2, 3]),
        Read(1),
        Write(&[4]),
        Read(1),
        Length("out.ts"),
        Read(1),
        Read(1),
        Length("out.ts"),
    ];
    let want = [
        Done,
        Done,
        Done,
        Bytes(1),
        Done,
        Bytes(1),
        Bytes(3),
        Bytes(1),
        Bytes(1),
        Bytes(4),
    ];
    assert_eq!(rt; buffered(&rt, &calls)?.as_slice(), want.as_slice());
    Ok(())
}

#[test]
fn a_line_comes_behind_the_writes(rt: HostRuntime) -> Result<(), Fail> {
    let calls = [
        Create("out.ts"),
        Write(&[1, 2, 3]),
        Line,
        Length("out.ts"),
        Printed,
    ];
    let want = [Done, Done, Done, Bytes(3), Bytes(5)];
    assert_eq!(rt; buffered(&rt, &calls)?.as_slice(), want.as_slice());
    Ok(())
}

// The first line reports the fault and isn't written, the next is written, and `close` doesn't report it again.
#[test]
fn a_line_tells_the_fault_of_a_file_once(rt: HostRuntime) -> Result<(), Fail> {
    let calls = [
        Create("/dev/full"),
        Write(&[1, 2, 3]),
        Line,
        Printed,
        Line,
        Printed,
        Close,
    ];
    let want = [Done, Done, Failed, Bytes(0), Done, Bytes(5), Done];
    assert_eq!(rt; buffered(&rt, &calls)?.as_slice(), want.as_slice());
    Ok(())
}

// A read can't report it: the next write does, once.
#[test]
fn a_write_tells_the_fault_that_a_read_met(rt: HostRuntime) -> Result<(), Fail> {
    let calls = [
        Create("/dev/full"),
        Attach("/dev/null"),
        Write(&[1, 2, 3]),
        Read(1),
        Write(&[4]),
        Close,
    ];
    let want = [Done, Done, Done, Bytes(0), Failed, Done];
    assert_eq!(rt; buffered(&rt, &calls)?.as_slice(), want.as_slice());
    Ok(())
}

// An interrupted call is retried up to a thousand times: a read of a file, and a line.
#[test]
fn calls_that_signals_interrupt_are_tried_again(rt: HostRuntime) -> Result<(), Fail> {
    let calls = [Create("sevens"), Write(&[7; 10]), Length("sevens")];
    let want = [Done, Done, Bytes(10)];
    assert_eq!(rt; unbuffered(&rt, 0, &calls)?.as_slice(), want.as_slice());
    let calls = [Attach("sevens"), Read(10), Line, Printed];
    for (signals, want) in [
        (999, [Done, Bytes(10), Done, Bytes(5)]),
        (1000, [Done, Failed, Failed, Bytes(0)]),
    ] {
        let answers = unbuffered(&rt, signals, &calls)?;
        assert_eq!(rt; answers.as_slice(), want.as_slice(), "{signals} signals");
    }
    Ok(())
}
