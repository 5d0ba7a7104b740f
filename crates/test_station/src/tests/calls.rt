// Calls on a station over files, and their results.
ghost use Rattle.std.specs.Prelude.{◌<◌, length, true};
ghost use Rattle.station_core.specs.Meaning.{IsFresh};
ghost use Rattle.test_station.specs.Ports.{AreTrue};

use super::watched::Watched;
use station_core::{Failed, InPort, OutPort, Station};
use station_files::{Buffers, FileStation};
use std::alloc::{AllocError, Global};
use std::fs;

/// A call on a station, or a check of its effect on the system.
#[derive(Clone, Copy)]
pub enum Call<'n> {
    /// Creates the file of Bytes.
    Create(&'n str),
    /// Writes to Bytes.
    Write(&'n [u8]),
    /// Flushes the outputs.
    Flush,
    /// Closes Bytes.
    Close,
    /// Writes a line of five bytes to Report.
    Line,
    /// Attaches HP.
    Attach(&'n str),
    /// Reads at most this number of bytes at HP, from 1 to 1,000.
    Read(usize),
    /// Reads HP to its end in pieces.
    ReadAll,
    /// Checks the length of a file.
    Length(&'n str),
    /// Checks how many bytes were printed.
    Printed,
}

/// The result of a call.
#[derive(Clone, Copy, Debug, PartialEq)]
pub enum Answer {
    /// It did not fail.
    Done,
    /// It failed.
    Failed,
    /// A number of bytes.
    Bytes(u64),
    /// A number of bytes, their sum, and the last one.
    All(usize, u32, u8),
    /// It was not made, as the station's contract excludes it here.
    Barred,
}

// The names requested at the ports, and which ports are open.
#[derive(Drop)]
struct Ports {
    bytes_asked: bool,
    bytes_open: bool,
    hp_asked: bool,
    hp_attached: bool,
}

// The result of a call without a value.
fn done(outcome: Result<(), Failed>) -> Answer {
    match outcome {
        Ok(()) => Answer::Done,
        Err(_) => Answer::Failed,
    }
}

fn create<'a, S: Station<'a>>(ports: &mut Ports, station: &mut S, name: &'a str) -> Answer
    requires { AreTrue ports.old.bytes_asked ports.old.bytes_open ports.old.hp_asked ports.old.hp_attached
        (S.meaning station.old) }
    ensures { AreTrue ports.new.bytes_asked ports.new.bytes_open ports.new.hp_asked ports.new.hp_attached
        (S.meaning station.new) }
{
    if ports.bytes_asked {
        return Answer::Barred;
    }
    ports.bytes_asked = true;
    let outcome = station.create(OutPort::Bytes, name);
    ports.bytes_open = outcome.is_ok();
    done(outcome)
}

fn write<'a, S: Station<'a>>(ports: &mut Ports, station: &mut S, bytes: &[u8]) -> Answer
    requires { AreTrue ports.old.bytes_asked ports.old.bytes_open ports.old.hp_asked ports.old.hp_attached
        (S.meaning station.old) }
    ensures { AreTrue ports.new.bytes_asked ports.new.bytes_open ports.new.hp_asked ports.new.hp_attached
        (S.meaning station.new) }
{
    if !ports.bytes_open || bytes.is_empty() {
        return Answer::Barred;
    }
    done(station.write(OutPort::Bytes, bytes))
}

fn flush<'a, S: Station<'a>>(_ports: &Ports, station: &mut S) -> Answer
    requires { AreTrue _ports.now.bytes_asked _ports.now.bytes_open _ports.now.hp_asked _ports.now.hp_attached
        (S.meaning station.old) }
    ensures { AreTrue _ports.now.bytes_asked _ports.now.bytes_open _ports.now.hp_asked _ports.now.hp_attached
        (S.meaning station.new) }
{
    done(station.flush())
}

fn close<'a, S: Station<'a>>(ports: &mut Ports, station: &mut S) -> Answer
    requires { AreTrue ports.old.bytes_asked ports.old.bytes_open ports.old.hp_asked ports.old.hp_attached
        (S.meaning station.old) }
    ensures { AreTrue ports.new.bytes_asked ports.new.bytes_open ports.new.hp_asked ports.new.hp_attached
        (S.meaning station.new) }
{
    if !ports.bytes_open {
        return Answer::Barred;
    }
    ports.bytes_open = false;
    done(station.close(OutPort::Bytes))
}

fn attach<'a, S: Station<'a>>(ports: &mut Ports, station: &mut S, name: &'a str) -> Answer
    requires { AreTrue ports.old.bytes_asked ports.old.bytes_open ports.old.hp_asked ports.old.hp_attached
        (S.meaning station.old) }
    ensures { AreTrue ports.new.bytes_asked ports.new.bytes_open ports.new.hp_asked ports.new.hp_attached
        (S.meaning station.new) }
{
    if ports.hp_asked {
        return Answer::Barred;
    }
    ports.hp_asked = true;
    let outcome = station.attach(InPort::Hp, name);
    ports.hp_attached = outcome.is_ok();
    done(outcome)
}

fn read<'a, S: Station<'a>>(ports: &mut Ports, station: &mut S, most: usize) -> Answer
    requires { AreTrue ports.old.bytes_asked ports.old.bytes_open ports.old.hp_asked ports.old.hp_attached
        (S.meaning station.old) }
    ensures { AreTrue ports.new.bytes_asked ports.new.bytes_open ports.new.hp_asked ports.new.hp_attached
        (S.meaning station.new) }
{
    if !ports.hp_attached {
        return Answer::Barred;
    }
    let mut buf = [0u8; 1000];
    match station.read(InPort::Hp, &mut buf[..most.clamp(1, 1000)]) {
        Ok(count) => Answer::Bytes(count as u64),
        Err(_) => Answer::Failed,
    }
}

fn read_all<'a, S: Station<'a>>(ports: &mut Ports, station: &mut S) -> Answer
    requires { AreTrue ports.old.bytes_asked ports.old.bytes_open ports.old.hp_asked ports.old.hp_attached
        (S.meaning station.old) }
    ensures { AreTrue ports.new.bytes_asked ports.new.bytes_open ports.new.hp_asked ports.new.hp_attached
        (S.meaning station.new) }
{
    if !ports.hp_attached {
        return Answer::Barred;
    }
    let mut read = 0usize;
    let mut sum = 0u32;
    let mut last = 0;
    let mut buf = [0u8; 1000];
    for _ in 0..100u8 {
        let count = station.read(InPort::Hp, &mut buf).unwrap_or(0);
        for byte in buf.iter().take(count) {
            sum = sum.wrapping_add(u32::from(*byte));
            last = *byte;
        }
        read = read.saturating_add(count);
    }
    Answer::All(read, sum, last)
}

fn length(watched: &Watched<'_>, name: &str) -> Answer {
    match fs::metadata(watched, name) {
        Ok(data) => Answer::Bytes(data.len()),
        Err(_) => Answer::Failed,
    }
}

// Makes a call, if the contract allows it.
fn make_call<'a, S: Station<'a>>(
    ports: &mut Ports,
    station: &mut S,
    watched: &Watched<'_>,
    call: Call<'a>,
) -> Answer
    requires { AreTrue ports.old.bytes_asked ports.old.bytes_open ports.old.hp_asked ports.old.hp_attached
        (S.meaning station.old) }
    ensures { AreTrue ports.new.bytes_asked ports.new.bytes_open ports.new.hp_asked ports.new.hp_attached
        (S.meaning station.new) }
{
    match call {
        Call::Create(name) => create(ports, station, name),
        Call::Write(bytes) => write(ports, station, bytes),
        Call::Flush => flush(ports, station),
        Call::Close => close(ports, station),
        Call::Line => done(station.write(OutPort::Report, b"line\n")),
        Call::Attach(name) => attach(ports, station, name),
        Call::Read(most) => read(ports, station, most),
        Call::ReadAll => read_all(ports, station),
        Call::Length(name) => length(watched, name),
        Call::Printed => Answer::Bytes(watched.printed.get() as u64),
    }
}

// The result of each call at a station where nothing was requested.
fn answers<'a, S: Station<'a>>(
    alloc: Global,
    station: &mut S,
    watched: &Watched<'_>,
    calls: &[Call<'a>],
) -> Result<Vec<Answer>, AllocError>
    requires { IsFresh (S.meaning station.old) }
{
    let mut ports = Ports {
        bytes_asked: false,
        bytes_open: false,
        hp_asked: false,
        hp_attached: false,
    };
    let mut answers = Vec::with_capacity(alloc, calls.len())?;
    for call in calls {
        answers.push(make_call(&mut ports, station, watched, *call))?;
    }
    Ok(answers)
}

/// The result of each call at a station with buffers. The only error is lack of memory.
pub fn buffered<'c>(rt: &'c HostRuntime, calls: &'c [Call<'c>]) -> Result<Vec<Answer>, AllocError> {
    let watched = Watched::new(rt, 0);
    let mut station = FileStation::with_buffers(&watched, Buffers::new(rt.alloc())?);
    answers(rt.alloc(), &mut station, &watched, calls)
}

/// The result of each call at a station without buffers, interrupted by this number of signals. The only error is lack
/// of memory.
pub fn unbuffered<'c>(
    rt: &'c HostRuntime,
    signals: u32,
    calls: &'c [Call<'c>],
) -> Result<Vec<Answer>, AllocError> {
    let alloc = rt.alloc();
    let watched = Watched::new(rt, signals);
    let system = &watched;
    let mut station = FileStation::new(system);
    answers(alloc, &mut station, system, calls)
}
