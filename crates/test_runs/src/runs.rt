// A station for a run of a command, and the results of the run.
ghost use Rattle.std.specs.Prelude.{◌≡◌, ◌≤◌, None, IfOk, false};
ghost use Rattle.station_core.specs.Meaning.{IsFresh};
ghost use Rattle.station_core.specs.Memory.{memory_meaning};

use crate::files::text_bytes;
use dvbt_top::{Limits, run_gated, run_within};
use station_core::{Failing, MemoryStation, OutPort};
use std::alloc::{AllocError, Global};
use std::thread::Threads;
use word_workers::Gate;

/// The outputs created by a run; they may be empty.
#[derive(Clone, Copy, Debug, PartialEq, Eq)]
pub struct Made {
    /// The output of `disperse`, `outer` and `inner`.
    pub bytes: bool,
    /// The cells of a modulation, or of a conversion.
    pub cells: bool,
    /// That of HP.
    pub hp: bool,
    /// That of LP.
    pub lp: bool,
}

/// No output was created.
pub const UNMADE: Made = Made {
    bytes: false,
    cells: false,
    hp: false,
    lp: false,
};

/// The results of a run: its status, the outputs created, and the bytes written to each.
#[derive(Drop)]
pub struct Ran {
    /// The status.
    pub status: u8,
    /// The outputs created.
    pub made: Made,
    /// The lines and the text of the report.
    pub report: Vec<u8>,
    /// The output of `disperse`, `outer` and `inner`.
    pub bytes: Vec<u8>,
    /// The cells of a modulation.
    pub cells: Vec<u8>,
    /// The packets of HP.
    pub hp: Vec<u8>,
    /// The packets of LP.
    pub lp: Vec<u8>,
}

impl Ran {
    /// The content of the station after a run with this status. The only error is lack of memory.
    pub fn new(alloc: Global, status: u8, station: &MemoryStation<'_>) -> Result<Ran, AllocError> {
        Ok(Ran {
            status,
            made: Made {
                bytes: station.is_created(OutPort::Bytes),
                cells: station.is_created(OutPort::Cells),
                hp: station.is_created(OutPort::Hp),
                lp: station.is_created(OutPort::Lp),
            },
            report: Vec::from_slice(alloc, station.written(OutPort::Report))?,
            bytes: Vec::from_slice(alloc, station.written(OutPort::Bytes))?,
            cells: Vec::from_slice(alloc, station.written(OutPort::Cells))?,
            hp: Vec::from_slice(alloc, station.written(OutPort::Hp))?,
            lp: Vec::from_slice(alloc, station.written(OutPort::Lp))?,
        })
    }
}

/// The behaviour of a station.
#[derive(Clone, Copy)]
pub struct Conditions {
    /// The most bytes that a read returns.
    pub most: u32,
    /// The capacity of each output in bytes.
    pub room: u32,
    /// The call that fails, if any.
    pub failing: Option<Failing>,
    /// Whether each flush fails.
    pub flush_fails: bool,
}

/// A station with this capacity for each output, where no call fails.
pub fn ample(room: u32) -> Conditions
    ensures { result ≡ record { most = 4294967295; room = room; failing = None; flush_fails = false } }
{
    Conditions {
        most: u32::MAX,
        room,
        failing: None,
        flush_fails: false,
    }
}

/// The words of this text. The only error is lack of memory.
pub fn words_of(alloc: Global, text: &str) -> Result<Vec<String>, AllocError> {
    let mut words = Vec::new(alloc);
    for word in text.split_whitespace() {
        words.push(String::from_str(alloc, word)?)?;
    }
    Ok(words)
}

// The settings with the name `s` and two files with the names `a` and `b`.
fn named(
    alloc: Global,
    settings: Vec<u8>,
    inputs: (Vec<u8>, Vec<u8>),
) -> Result<Vec<(String, Vec<u8>)>, AllocError> {
    let mut files = Vec::new(alloc);
    files.push((String::from_str(alloc, "s")?, settings))?;
    files.push((String::from_str(alloc, "a")?, inputs.0))?;
    files.push((String::from_str(alloc, "b")?, inputs.1))?;
    Ok(files)
}

/// A station for one run, with the settings named `s` and two files named `a` and `b`. Reads return at least one byte.
/// The only error is lack of memory.
fn station_of<'a>(
    alloc: Global,
    settings: Vec<u8>,
    inputs: (Vec<u8>, Vec<u8>),
    conditions: Conditions,
) -> Result<MemoryStation<'a>, AllocError>
    requires { 1 ≤ conditions.most }
    ensures fresh { IfOk result (λ s. IsFresh (memory_meaning s)) }
{
    let files = named(alloc, settings, inputs)?;
    let mut failing = Vec::new(alloc);
    if let Some(call) = conditions.failing {
        failing.push(call)?;
    }
    if conditions.flush_fails {
        failing.push(Failing::Flush)?;
    }
    MemoryStation::new(alloc, files, conditions.most, conditions.room, failing)
}

// Runs these arguments with this limit of packets, and returns only the status.
fn run_words<'a, R: Threads + Sync>(
    rt: &R,
    alloc: Global,
    words: &'a [String],
    packets: u64,
    station: &mut MemoryStation<'a>,
) -> u8
    requires fresh { IsFresh (memory_meaning station.old) }
    requires some { 1 ≤ packets }
    requires few { packets ≤ 100000000 }
{
    run_within(rt, alloc, words, Limits { packets }, station)
}

// The same through this gate, with a limit of a thousand packets.
fn run_words_gated<'a, R: Threads + Sync, G: Gate>(
    rt: &R,
    alloc: Global,
    gate: &G,
    words: &'a [String],
    station: &mut MemoryStation<'a>,
) -> u8
    requires fresh { IsFresh (memory_meaning station.old) }
{
    run_gated(rt, alloc, words, Limits { packets: 1000 }, gate, station)
}

/// Runs these arguments with the settings, named `s`, and two files, named `a` and `b`, with this limit of packets. The
/// only error is lack of memory.
pub fn run_files<R: Threads + Sync>(
    rt: &R,
    alloc: Global,
    text: &str,
    settings: Vec<u8>,
    inputs: (Vec<u8>, Vec<u8>),
    packets: u64,
    conditions: Conditions,
) -> Result<Ran, AllocError>
    requires most { 1 ≤ conditions.most }
    requires some { 1 ≤ packets }
    requires few { packets ≤ 100000000 }
{
    let words = words_of(alloc, text)?;
    let mut station = station_of(alloc, settings, inputs, conditions)?;
    let status = run_words(rt, alloc, &words, packets, &mut station);
    Ran::new(alloc, status, &station)
}

/// Runs these arguments with these settings and the lines after them, and with this file of cells. Reads return at
/// least one byte. The only error is lack of memory.
pub fn run_on_cells<R: Threads + Sync>(
    rt: &R,
    alloc: Global,
    text: &str,
    settings: (&str, &str),
    cells: &[u8],
    conditions: Conditions,
) -> Result<Ran, AllocError> {
    let settings = text_bytes(alloc, settings.0, settings.1)?;
    let inputs = (Vec::from_slice(alloc, cells)?, Vec::new(alloc));
    let readable = Conditions {
        most: conditions.most.max(1),
        ..conditions
    };
    run_files(rt, alloc, text, settings, inputs, 1, readable)
}

/// The same through this gate, with a limit of a thousand packets, in a station with the capacity for a super-frame of
/// the 2K mode.
pub fn run_gated_files<R: Threads + Sync, G: Gate>(
    rt: &R,
    alloc: Global,
    gate: &G,
    text: &str,
    settings: Vec<u8>,
    inputs: (Vec<u8>, Vec<u8>),
) -> Result<Ran, AllocError> {
    let words = words_of(alloc, text)?;
    let mut station = station_of(alloc, settings, inputs, ample(2_400_000))?;
    let status = run_words_gated(rt, alloc, gate, &words, &mut station);
    Ran::new(alloc, status, &station)
}
