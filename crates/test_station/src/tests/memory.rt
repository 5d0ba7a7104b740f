// The station in memory, call by call.
ghost use Rattle.std.specs.Prelude.{◌≡◌, ◌<◌, length, true, false, IfOk, OnOk};
ghost use Rattle.station_core.specs.Meaning.{IsFresh};
ghost use Rattle.station_core.specs.Memory.{memory_meaning};

use station_core::{Failed, Failing, InPort, MemoryStation, OutPort, Station};
use std::alloc::{AllocError, Global};
use std::test::Fail;

// Two files with the same name.
fn files(alloc: Global) -> Result<Vec<(String, Vec<u8>)>, AllocError> {
    let first = vec![in alloc; 1u8, 2, 3, 4, 5]?;
    let second = vec![in alloc; 9u8]?;
    let mut files = Vec::new(alloc);
    files.push((String::from_str(alloc, "a")?, first))?;
    files.push((String::from_str(alloc, "a")?, second))?;
    Ok(files)
}

// A station with these files, whose reads return at most two bytes.
fn station<'a>(
    alloc: Global,
    room: u32,
    failing: &[Failing],
) -> Result<MemoryStation<'a>, AllocError>
    ensures { IfOk result (λ s. IsFresh (memory_meaning s)) }
{
    let failing = Vec::from_slice(alloc, failing)?;
    MemoryStation::new(alloc, files(alloc)?, 2, room, failing)
}

// Reads at HP, and returns the number of bytes, if it does not fail.
fn next<'a, S: Station<'a>>(station: &mut S, buf: &mut [u8; 4]) -> Option<usize>
    requires { (S.meaning station.old).hp.attached ≡ true }
    ensures { (S.meaning station.new).hp.attached ≡ true }
{
    station.read(InPort::Hp, buf).ok()
}

// Writes to HP, and returns whether it succeeded.
fn put<'a, S: Station<'a>>(station: &mut S, bytes: &[u8]) -> bool
    requires some { 0 < length bytes.now }
    requires created { (S.meaning station.old).hp_out.created ≡ true }
    requires open { (S.meaning station.old).hp_out.closed ≡ false }
    ensures created { (S.meaning station.new).hp_out.created ≡ true }
    ensures open { (S.meaning station.new).hp_out.closed ≡ false }
{
    station.write(OutPort::Hp, bytes).is_ok()
}

// The results of a reader's calls: whether a missing file exists, the number of bytes of each read, and after two of
// them the first bytes of the buffer.
type Reads = (
    bool,
    (Option<usize>, [u8; 2]),
    Option<usize>,
    (Option<usize>, [u8; 2]),
    [Option<usize>; 2],
);

// Requests a missing file, and reads an existing one.
fn read_file<'a, S: Station<'a>>(station: &mut S) -> Result<Reads, Failed>
    requires { IsFresh (S.meaning station.old) }
{
    let missing = station.attach(InPort::Lp, "b").is_ok();
    station.attach(InPort::Hp, "a")?;
    let mut buf = [0u8; 4];
    let first = (next(station, &mut buf), [buf[0], buf[1]]);
    let second = next(station, &mut buf);
    let third = (next(station, &mut buf), [buf[0], buf[1]]);
    let rest = [next(station, &mut buf), next(station, &mut buf)];
    Ok((missing, first, second, third, rest))
}

#[test]
fn reads_of_at_most_two_bytes(rt: HostRuntime) -> Result<(), Fail> {
    let mut station = station(rt.alloc(), 10, &[Failing::Read(InPort::Hp, 2)])?;
    let first = (Some(2), [1, 2]);
    let third = (Some(2), [3, 4]);
    let want = (false, first, None, third, [Some(1), Some(0)]);
    assert_eq!(rt; read_file(&mut station), Ok(want));
    Ok(())
}

// Creates a file, and writes two pieces.
fn write_twice<'a, S: Station<'a>>(station: &mut S) -> Result<[bool; 2], Failed>
    requires { IsFresh (S.meaning station.old) }
    ensures created { OnOk result ((S.meaning station.new).hp_out.created ≡ true) }
    ensures open { OnOk result ((S.meaning station.new).hp_out.closed ≡ false) }
{
    station.create(OutPort::Hp, "out")?;
    let first = put(station, &[1, 2]);
    Ok([first, put(station, &[3, 4, 5])])
}

// Writes a piece of four bytes and one of three, and closes the file.
fn write_and_close<'a, S: Station<'a>>(station: &mut S) -> [bool; 3]
    requires created { (S.meaning station.old).hp_out.created ≡ true }
    requires open { (S.meaning station.old).hp_out.closed ≡ false }
{
    let four = put(station, &[6, 7, 8, 9]);
    let three = put(station, &[6, 7, 8]);
    [four, three, station.close(OutPort::Hp).is_ok()]
}

#[test]
fn half_a_write_and_no_room(rt: HostRuntime) -> Result<(), Fail> {
    let failing = [
        Failing::Write(OutPort::Hp, 2),
        Failing::Close(OutPort::Hp, 1),
    ];
    let mut station = station(rt.alloc(), 6, &failing)?;
    let half = write_twice(&mut station)?;
    assert_eq!(rt; station.written(OutPort::Hp), [1u8, 2, 3].as_slice());
    let no_room = write_and_close(&mut station);
    assert_eq!(rt;
        station.written(OutPort::Hp),
        [1u8, 2, 3, 6, 7, 8].as_slice()
    );
    assert_eq!(rt; (half, no_room), ([true, false], [false, true, false]));
    Ok(())
}

// Creates a file, writes to it, and flushes it twice.
fn write_and_flush<'a, S: Station<'a>>(station: &mut S) -> Result<[bool; 3], Failed>
    requires { IsFresh (S.meaning station.old) }
{
    station.create(OutPort::Hp, "out")?;
    let written = put(station, &[1, 2]);
    Ok([written, station.flush().is_ok(), station.flush().is_ok()])
}

// A failed flush leaves the written bytes.
#[test]
fn flushes_that_fail(rt: HostRuntime) -> Result<(), Fail> {
    let mut failing = station(rt.alloc(), 6, &[Failing::Flush])?;
    assert_eq!(rt; write_and_flush(&mut failing)?, [true, false, false]);
    assert_eq!(rt; failing.written(OutPort::Hp), [1u8, 2].as_slice());
    let mut kept = station(rt.alloc(), 6, &[])?;
    assert_eq!(rt; write_and_flush(&mut kept)?, [true, true, true]);
    Ok(())
}
