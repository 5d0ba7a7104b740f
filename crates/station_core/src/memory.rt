// A station in memory.
ghost use Rattle.std.specs.Prelude.{◌≤◌, ◌↔◌, ◌≡◌, ◌<◌, length, IsTrue, Contains};
ghost use Rattle.station_core.specs.Counted.{next_call, counted};

use crate::sink::{Writing, count_fault};
use crate::source::Reading;
use crate::{Failed, InPort, OutPort, Station};
use std::alloc::{AllocError, Global};

/// A call set to fail: call n of its kind at its port, counted from 1, or every flush.
#[derive(Clone, Copy, Debug, PartialEq, Eq)]
pub enum Failing {
    /// Opening a file for reading.
    Attach(InPort, u64),
    /// A read.
    Read(InPort, u64),
    /// Creating an output.
    Create(OutPort, u64),
    /// A write.
    Write(OutPort, u64),
    /// Closing an output.
    Close(OutPort, u64),
    /// Every flush of the outputs, as after a fault that no write has reported.
    Flush,
}

/// A station with its files and outputs in memory, whose contents are known.
///
/// Exactly these calls fail, and each failure is counted: the calls in its list `failing`, `attach` of a name that no
/// file has, and a `write` past the capacity of the port. A read returns at most the buffer's length, `most_per_read`
/// and what is left. A write set to fail writes the first half of its bytes, rounded down; one past the capacity writes
/// nothing. Written bytes are stored at once, but a flush set to fail still fails. Only `new` allocates memory.
#[derive(Drop)]
pub struct MemoryStation<'a> {
    files: Vec<(String, Vec<u8>)>,
    most_per_read: u32,
    failing: Vec<Failing>,
    settings: Reading<'a>,
    hp: Reading<'a>,
    lp: Reading<'a>,
    cells: Reading<'a>,
    cells_out: Writing<'a>,
    hp_out: Writing<'a>,
    lp_out: Writing<'a>,
    bytes_out: Writing<'a>,
    report: Writing<'a>,
    // the reads and writes tried at each port
    reads: [u64; 4],
    writes: [u64; 5],
    read_faults: u64,
    write_faults: u64,
    close_faults: u64,
    // an output was written to since the last successful flush
    pending: bool,
    ghost reads_some: { 1 ≤ most_per_read },
}

#[tactic(auto, unfolding(crate::specs::Memory::memory_meaning))]
impl<'a> MemoryStation<'a> {
    ghost use Rattle.std.specs.Prelude.{IfOk, ◌≡◌, ◌≤◌, true, replicate};
    ghost use Rattle.station_core.specs.Meaning.{sink_at, fresh, IsFresh};
    ghost use Rattle.station_core.specs.Memory.{memory_meaning, failing_of, most_of, room_of, reads_of, writes_of};
    ghost use Rattle.station_core.specs.Files.{found};
    ghost use Rattle.station_core.specs.declared.ports.OutPort.{OutPort};

    /// A station with these files; of several with the same name the first counts.
    ///
    /// A read returns at most `most_per_read` bytes, which is at least 1. Each output holds up to `room` bytes, which
    /// are allocated now. The calls in `failing` fail.
    pub fn new(
        alloc: Global,
        files: Vec<(String, Vec<u8>)>,
        most_per_read: u32,
        room: u32,
        failing: Vec<Failing>,
    ) -> Result<MemoryStation<'a>, AllocError>
        requires { 1 ≤ most_per_read }
        ensures meaning { IfOk result (λ s. memory_meaning s ≡ fresh true (found files.items)) }
        ensures fresh { IfOk result (λ s. IsFresh (memory_meaning s)) }
        ensures failing { IfOk result (λ s. failing_of s ≡ failing.items) }
        ensures most { IfOk result (λ s. most_of s ≡ most_per_read) }
        ensures room { IfOk result (λ s. (port : OutPort) → room_of port s ≡ room) }
        ensures reads { IfOk result (λ s. reads_of s ≡ replicate 4 0) }
        ensures writes { IfOk result (λ s. writes_of s ≡ replicate 5 0) }
    {
        let mut report = Writing::new(alloc, room)?;
        report.created = true;
        Ok(MemoryStation {
            files,
            most_per_read,
            failing,
            settings: Reading::new(),
            hp: Reading::new(),
            lp: Reading::new(),
            cells: Reading::new(),
            cells_out: Writing::new(alloc, room)?,
            hp_out: Writing::new(alloc, room)?,
            lp_out: Writing::new(alloc, room)?,
            bytes_out: Writing::new(alloc, room)?,
            report,
            reads: [0; 4],
            writes: [0; 5],
            read_faults: 0,
            write_faults: 0,
            close_faults: 0,
            pending: false,
        })
    }

    /// The bytes written to a port; none if it was not created.
    pub fn written(&self, port: OutPort) -> &[u8]
        ensures { result.now ≡ (sink_at port (memory_meaning self.now)).written }
    {
        match port {
            OutPort::Cells => &self.cells_out.bytes,
            OutPort::Hp => &self.hp_out.bytes,
            OutPort::Lp => &self.lp_out.bytes,
            OutPort::Bytes => &self.bytes_out.bytes,
            OutPort::Report => &self.report.bytes,
        }
    }

    /// Whether the output at a port was created; it may be empty.
    pub fn is_created(&self, port: OutPort) -> bool
        ensures { result ≡ (sink_at port (memory_meaning self.now)).created }
    {
        match port {
            OutPort::Cells => self.cells_out.created,
            OutPort::Hp => self.hp_out.created,
            OutPort::Lp => self.lp_out.created,
            OutPort::Bytes => self.bytes_out.created,
            OutPort::Report => self.report.created,
        }
    }
}

// Whether a call is in the list.
fn is_named(failing: &[Failing], call: Failing) -> bool
    ensures { IsTrue result ↔ Contains failing.now call }
{
    failing.iter().any(|named| *named == call)
}

impl InPort {
    ghost use Rattle.station_core.specs.Memory.{in_number};

    fn index(self) -> usize
        ensures number { result ≡ in_number self }
        ensures below { result < 4 }
    {
        match self {
            InPort::Settings => 0,
            InPort::Hp => 1,
            InPort::Lp => 2,
            InPort::Cells => 3,
        }
    }
}

impl OutPort {
    ghost use Rattle.station_core.specs.Memory.{out_number};

    fn index(self) -> usize
        ensures number { result ≡ out_number self }
        ensures below { result < 5 }
    {
        match self {
            OutPort::Cells => 0,
            OutPort::Hp => 1,
            OutPort::Lp => 2,
            OutPort::Bytes => 3,
            OutPort::Report => 4,
        }
    }
}

// Counts one more call at a port, and returns its number, from 1.
fn count_call(calls: &mut [u64], port: usize) -> u64
    requires { port < length calls.old }
    ensures number { result ≡ next_call calls.old port }
    ensures counted { calls.new ≡ counted calls.old port }
{
    calls[port] = calls[port].saturating_add(1);
    calls[port]
}

#[tactic(auto, unfolding(crate::specs::Memory::memory_meaning))]
impl<'a> Station<'a> for MemoryStation<'a> {
    ghost use Rattle.std.specs.Prelude.{
      ◌≡◌,
      ◌≢◌,
      ◌≤◌,
      ◌<◌,
      ◌↔◌,
      ◌⊎◌,
      ◌+◌,
      ◌/◌,
      ◌++◌,
      ℕ,
      min,
      take,
      length,
      IsErr,
      IsTrue,
      OnOk,
      OnErr,
      IfOk,
      Contains,
      true,
      false,
      None,
      [],
    };
    ghost use Rattle.station_core.specs.Causes.{Rose, greatest_count};
    ghost use Rattle.station_core.specs.Meaning.{
      source_at,
      sink_at,
      with_source,
      with_sink,
      with_written,
      with_read_faults,
      with_write_faults,
      with_close_faults,
      with_failed_write,
      flushed,
      asked_source,
      attached_source,
      read_source,
      asked_sink,
      created_sink,
      written_sink,
      closed_sink,
    };
    ghost use Rattle.station_core.specs.declared.ports.OutPort.TheVariants.{Report};
    ghost use Rattle.station_core.specs.Files.{has_file};
    ghost use Rattle.station_core.specs.Memory.{
      memory_meaning,
      files_of,
      failing_of,
      most_of,
      room_of,
      reads_of,
      writes_of,
      in_number,
      out_number,
      IsSamePlan,
    };
    ghost use Rattle.station_core.specs.Counted.{next_call, counted};

    ghost meaning = { memory_meaning };

    fn attach(&mut self, port: InPort, name: &'a str) -> Result<(), Failed>
        requires { (source_at port (memory_meaning self.old)).asked ≡ None }
        ensures ok { OnOk result (memory_meaning self.new ≡ with_source port (attached_source name.now
            ((memory_meaning self.old).file name.now) (source_at port (memory_meaning self.old)))
            (memory_meaning self.old)) }
        ensures err { OnErr result (memory_meaning self.new ≡ with_read_faults (memory_meaning self.new).read_faults
            (with_source port (asked_source name.now (source_at port (memory_meaning self.old)))
            (memory_meaning self.old))) }
        ensures cause { OnErr result (Rose (memory_meaning self.old).read_faults
            (memory_meaning self.new).read_faults) }
        ensures later { (memory_meaning self.old).read_faults ≤ (memory_meaning self.new).read_faults }
        ensures bounded { OnErr result ((memory_meaning self.new).read_faults ≤ greatest_count) }
        ensures exact { IsErr result ↔ (Contains (failing_of self.old) (Failing.Attach port 1) ⊎
            (has_file (files_of self.old) name.now ≡ false)) }
        ensures plan { IsSamePlan self.old self.new }
        ensures reads { reads_of self.new ≡ reads_of self.old }
        ensures writes { writes_of self.new ≡ writes_of self.old }
    {
        let fails = is_named(&self.failing, Failing::Attach(port, 1));
        let files = &self.files;
        let faults = &mut self.read_faults;
        match port {
            InPort::Settings => self.settings.attach(files, fails, name, faults),
            InPort::Hp => self.hp.attach(files, fails, name, faults),
            InPort::Lp => self.lp.attach(files, fails, name, faults),
            InPort::Cells => self.cells.attach(files, fails, name, faults),
        }
    }

    fn read(&mut self, port: InPort, buf: &mut [u8]) -> Result<usize, Failed>
        requires attached { (source_at port (memory_meaning self.old)).attached ≡ true }
        requires room { 0 < length buf.old }
        ensures bound { IfOk result (λ n. n ≤ length buf.new) }
        ensures ok { IfOk result (λ n. memory_meaning self.new
            ≡ with_source port (read_source n (source_at port (memory_meaning self.old))) (memory_meaning self.old)) }
        ensures bytes { IfOk result (λ n. IsTrue (memory_meaning self.old).tells → take n buf.new
            ≡ take n (source_at port (memory_meaning self.old)).left) }
        ensures some { IfOk result (λ n. IsTrue (memory_meaning self.old).tells
            → n ≤ length (source_at port (memory_meaning self.old)).left) }
        ensures end { IfOk result (λ n. IsTrue (memory_meaning self.old).tells → n ≡ 0
            → (source_at port (memory_meaning self.old)).left ≡ []) }
        ensures err { OnErr result (memory_meaning self.new ≡ with_read_faults (memory_meaning self.new).read_faults
            (memory_meaning self.old)) }
        ensures cause { OnErr result (Rose (memory_meaning self.old).read_faults
            (memory_meaning self.new).read_faults) }
        ensures later { (memory_meaning self.old).read_faults ≤ (memory_meaning self.new).read_faults }
        ensures bounded { OnErr result ((memory_meaning self.new).read_faults ≤ greatest_count) }
        ensures exact { IsErr result ↔ Contains (failing_of self.old)
            (Failing.Read port (next_call (reads_of self.old) (in_number port))) }
        ensures amount { IfOk result (λ n. n ≡ min (min (most_of self.old) (length buf.old)) (length
            (source_at port (memory_meaning self.old)).left)) }
        ensures plan { IsSamePlan self.old self.new }
        ensures reads { reads_of self.new ≡ counted (reads_of self.old) (in_number port) }
        ensures writes { writes_of self.new ≡ writes_of self.old }
    {
        let number = count_call(&mut self.reads, port.index());
        let fails = is_named(&self.failing, Failing::Read(port, number));
        let most = self.most_per_read as usize;
        let files = &self.files;
        let faults = &mut self.read_faults;
        match port {
            InPort::Settings => self.settings.read(files, fails, most, buf, faults),
            InPort::Hp => self.hp.read(files, fails, most, buf, faults),
            InPort::Lp => self.lp.read(files, fails, most, buf, faults),
            InPort::Cells => self.cells.read(files, fails, most, buf, faults),
        }
    }

    fn create(&mut self, port: OutPort, name: &'a str) -> Result<(), Failed>
        requires asked { (sink_at port (memory_meaning self.old)).asked ≡ None }
        requires port { port ≢ Report }
        ensures ok { OnOk result (memory_meaning self.new ≡ with_sink port (created_sink name.now
            (sink_at port (memory_meaning self.old))) (memory_meaning self.old)) }
        ensures err { OnErr result (memory_meaning self.new ≡ with_write_faults (memory_meaning self.new).write_faults
            (with_sink port (asked_sink name.now (sink_at port (memory_meaning self.old))) (memory_meaning self.old))) }
        ensures cause { OnErr result (Rose (memory_meaning self.old).write_faults
            (memory_meaning self.new).write_faults) }
        ensures later { (memory_meaning self.old).write_faults ≤ (memory_meaning self.new).write_faults }
        ensures bounded { OnErr result ((memory_meaning self.new).write_faults ≤ greatest_count) }
        ensures exact { IsErr result ↔ Contains (failing_of self.old) (Failing.Create port 1) }
        ensures plan { IsSamePlan self.old self.new }
        ensures reads { reads_of self.new ≡ reads_of self.old }
        ensures writes { writes_of self.new ≡ writes_of self.old }
    {
        let fails = is_named(&self.failing, Failing::Create(port, 1));
        let faults = &mut self.write_faults;
        match port {
            OutPort::Cells => self.cells_out.create(fails, name, faults),
            OutPort::Hp => self.hp_out.create(fails, name, faults),
            OutPort::Lp => self.lp_out.create(fails, name, faults),
            OutPort::Bytes => self.bytes_out.create(fails, name, faults),
            OutPort::Report => unreachable!(),
        }
    }

    fn write(&mut self, port: OutPort, bytes: &[u8]) -> Result<(), Failed>
        requires created { (sink_at port (memory_meaning self.old)).created ≡ true }
        requires open { (sink_at port (memory_meaning self.old)).closed ≡ false }
        requires some { 0 < length bytes.now }
        ensures ok { OnOk result (memory_meaning self.new ≡ with_written port (written_sink
            (memory_meaning self.old).tells bytes.now (sink_at port (memory_meaning self.old)))
            (memory_meaning self.old)) }
        ensures err { OnErr result ((n : ℕ) × (memory_meaning self.new ≡ with_failed_write port
            (memory_meaning self.new).write_faults (memory_meaning self.new).report_faults
            (with_written port (written_sink (memory_meaning self.old).tells (take n bytes.now)
            (sink_at port (memory_meaning self.old))) (memory_meaning self.old)))) }
        ensures cause { OnErr result (Rose (memory_meaning self.old).write_faults
            (memory_meaning self.new).write_faults) }
        ensures at_report { OnErr result (port ≡ Report → Rose (memory_meaning self.old).report_faults
            (memory_meaning self.new).report_faults) }
        ensures later { (memory_meaning self.old).write_faults ≤ (memory_meaning self.new).write_faults }
        ensures later_report { (memory_meaning self.old).report_faults ≤ (memory_meaning self.new).report_faults }
        ensures bounded { OnErr result ((memory_meaning self.new).write_faults ≤ greatest_count) }
        ensures exact { IsErr result ↔ (Contains (failing_of self.old)
            (Failing.Write port (next_call (writes_of self.old) (out_number port)))
            ⊎ (room_of port self.old < length (sink_at port (memory_meaning self.old)).written + length bytes.now)) }
        ensures half { Contains (failing_of self.old) (Failing.Write port
            (next_call (writes_of self.old) (out_number port)))
            → length (sink_at port (memory_meaning self.old)).written + length bytes.now ≤ room_of port self.old
            → (sink_at port (memory_meaning self.new)).written ≡ (sink_at port (memory_meaning self.old)).written
            ++ take (length bytes.now / 2) bytes.now }
        ensures no_room { room_of port self.old < length (sink_at port (memory_meaning self.old)).written
            + length bytes.now
            → (sink_at port (memory_meaning self.new)).written ≡ (sink_at port (memory_meaning self.old)).written }
        ensures plan { IsSamePlan self.old self.new }
        ensures reads { reads_of self.new ≡ reads_of self.old }
        ensures writes { writes_of self.new ≡ counted (writes_of self.old) (out_number port) }
    {
        let number = count_call(&mut self.writes, port.index());
        let fails = is_named(&self.failing, Failing::Write(port, number));
        let faults = &mut self.write_faults;
        match port {
            OutPort::Cells => {
                self.pending = true;
                self.cells_out.write(fails, bytes, faults)
            }
            OutPort::Hp => {
                self.pending = true;
                self.hp_out.write(fails, bytes, faults)
            }
            OutPort::Lp => {
                self.pending = true;
                self.lp_out.write(fails, bytes, faults)
            }
            OutPort::Bytes => {
                self.pending = true;
                self.bytes_out.write(fails, bytes, faults)
            }
            OutPort::Report => self.report.write(fails, bytes, faults),
        }
    }

    fn flush(&mut self) -> Result<(), Failed>
        ensures ok { OnOk result (memory_meaning self.new ≡ flushed (memory_meaning self.old)) }
        ensures err { OnErr result (memory_meaning self.new ≡ with_write_faults (memory_meaning self.new).write_faults
            (memory_meaning self.old)) }
        ensures cause { OnErr result (Rose (memory_meaning self.old).write_faults
            (memory_meaning self.new).write_faults) }
        ensures later { (memory_meaning self.old).write_faults ≤ (memory_meaning self.new).write_faults }
        ensures bounded { OnErr result ((memory_meaning self.new).write_faults ≤ greatest_count) }
        ensures exact { IsErr result ↔ Contains (failing_of self.old) Failing.Flush }
        ensures plan { IsSamePlan self.old self.new }
        ensures reads { reads_of self.new ≡ reads_of self.old }
        ensures writes { writes_of self.new ≡ writes_of self.old }
    {
        if is_named(&self.failing, Failing::Flush) {
            return Err(count_fault(&mut self.write_faults));
        }
        self.pending = false;
        Ok(())
    }

    fn close(&mut self, port: OutPort) -> Result<(), Failed>
        requires created { (sink_at port (memory_meaning self.old)).created ≡ true }
        requires open { (sink_at port (memory_meaning self.old)).closed ≡ false }
        ensures ok { OnOk result (memory_meaning self.new ≡ with_sink port (closed_sink
            (sink_at port (memory_meaning self.old))) (memory_meaning self.old)) }
        ensures err { OnErr result (memory_meaning self.new ≡ with_close_faults (memory_meaning self.new).close_faults
            (with_sink port (closed_sink (sink_at port (memory_meaning self.old))) (memory_meaning self.old))) }
        ensures cause { OnErr result (Rose (memory_meaning self.old).close_faults
            (memory_meaning self.new).close_faults) }
        ensures later { (memory_meaning self.old).close_faults ≤ (memory_meaning self.new).close_faults }
        ensures bounded { OnErr result ((memory_meaning self.new).close_faults ≤ greatest_count) }
        ensures exact { IsErr result ↔ Contains (failing_of self.old) (Failing.Close port 1) }
        ensures plan { IsSamePlan self.old self.new }
        ensures reads { reads_of self.new ≡ reads_of self.old }
        ensures writes { writes_of self.new ≡ writes_of self.old }
    {
        let fails = is_named(&self.failing, Failing::Close(port, 1));
        let faults = &mut self.close_faults;
        match port {
            OutPort::Cells => self.cells_out.close(fails, faults),
            OutPort::Hp => self.hp_out.close(fails, faults),
            OutPort::Lp => self.lp_out.close(fails, faults),
            OutPort::Bytes => self.bytes_out.close(fails, faults),
            OutPort::Report => self.report.close(fails, faults),
        }
    }
}
