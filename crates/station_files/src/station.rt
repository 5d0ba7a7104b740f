// The station over files and standard output.
ghost use Rattle.std.specs.Prelude.{◌≡◌, ◌≤◌, OnOk, OnErr};
ghost use Rattle.station_core.specs.Causes.{Rose, greatest_count};

use crate::buffers::Buffers;
use crate::opening::{attach_at, create_at, empty, is_same, metadata_of, open_to_write};
use crate::outputs::Outputs;
use crate::reading::FileReading;
use station_core::{Failed, InPort, OutPort, Station};
use std::fs::Metadata;
use std::rt::Files;

/// The files of a runtime, and its standard output as Report.
///
/// Bytes written to a port are buffered, if it has a buffer, until the buffer is full, a read reaches a file, a line is
/// written to Report, or `flush` or `close` is called. Once one of these two returns `Ok` and no earlier call failed,
/// all bytes are in the file.
///
/// Each failed call is counted, and a count stops at its greatest number. A write that takes nothing of a nonempty
/// piece is a fault, and so is a call interrupted by a signal a thousand times. Once the file of a port has failed,
/// nothing more is written to it. A fault met before a read is reported by the next write to its port or to Report, by
/// `flush`, or by `close`. If Report reports one, nothing of the line is written, and the next line is unaffected.
///
/// An output is truncated only after checking that it is not a file already open under any name: `create` fails at such
/// a file and leaves it unchanged. A character device such as a terminal may be read and written at once.
#[derive(Drop)]
pub struct FileStation<'a, R: Files + Print> {
    rt: &'a R,
    settings: FileReading<'a, R::File>,
    hp: FileReading<'a, R::File>,
    lp: FileReading<'a, R::File>,
    cells: FileReading<'a, R::File>,
    outputs: Outputs<'a, R::File>,
    report_closed: bool,
    read_faults: u64,
    write_faults: u64,
    close_faults: u64,
    // the failed writes to Report
    report_faults: u64,
}

impl<'a, R: Files + Print> FileStation<'a, R> {
    ghost use Rattle.station_files.specs.Station.{file_meaning};
    ghost use Rattle.station_core.specs.Meaning.{IsFresh};

    /// A station without buffers, with no name requested and no fault counted. Every read and write is a system call.
    pub fn new(rt: &'a R) -> FileStation<'a, R>
        ensures fresh { IsFresh (file_meaning result) }
        ensures no_read_fault { (file_meaning result).read_faults ≡ 0 }
        ensures no_write_fault { (file_meaning result).write_faults ≡ 0 }
        ensures no_close_fault { (file_meaning result).close_faults ≡ 0 }
    {
        FileStation {
            rt,
            settings: FileReading::new(None),
            hp: FileReading::new(None),
            lp: FileReading::new(None),
            cells: FileReading::new(None),
            outputs: Outputs::new(None, None, None, None),
            report_closed: false,
            read_faults: 0,
            write_faults: 0,
            close_faults: 0,
            report_faults: 0,
        }
    }

    /// A station with these buffers, with no name requested and no fault counted.
    pub fn with_buffers(rt: &'a R, buffers: Buffers) -> FileStation<'a, R>
        ensures fresh { IsFresh (file_meaning result) }
        ensures no_read_fault { (file_meaning result).read_faults ≡ 0 }
        ensures no_write_fault { (file_meaning result).write_faults ≡ 0 }
        ensures no_close_fault { (file_meaning result).close_faults ≡ 0 }
    {
        FileStation {
            rt,
            settings: FileReading::new(Some(buffers.settings)),
            hp: FileReading::new(Some(buffers.hp)),
            lp: FileReading::new(Some(buffers.lp)),
            cells: FileReading::new(Some(buffers.cells)),
            outputs: Outputs::new(
                Some(buffers.cells_out),
                Some(buffers.hp_out),
                Some(buffers.lp_out),
                Some(buffers.bytes_out),
            ),
            report_closed: false,
            read_faults: 0,
            write_faults: 0,
            close_faults: 0,
            report_faults: 0,
        }
    }
}

impl<'a, R: Files + Print> FileStation<'a, R> {
    // Whether a port has this file open.
    fn has_open(&self, file: &Metadata) -> bool {
        is_same(&self.settings.file, file)
            || is_same(&self.hp.file, file)
            || is_same(&self.lp.file, file)
            || is_same(&self.cells.file, file)
            || is_same(&self.outputs.cells.file, file)
            || is_same(&self.outputs.hp.file, file)
            || is_same(&self.outputs.lp.file, file)
            || is_same(&self.outputs.bytes.file, file)
    }

    // Opens the file of this name for writing, and truncates it, unless a port has it open already.
    fn make(&self, name: &str) -> Result<R::File, Failed> {
        let file = open_to_write(self.rt, name)?;
        let metadata = metadata_of(&file)?;
        if self.has_open(&metadata) {
            return Err(Failed);
        }
        empty(&file, &metadata)?;
        Ok(file)
    }
}

// The result of a call, with its failure counted.
fn counted<T>(outcome: Result<T, Failed>, faults: &mut u64) -> Result<T, Failed>
    ensures same { result ≡ outcome }
    ensures ok { OnOk result (faults.new ≡ faults.old) }
    ensures rose { OnErr result (Rose faults.old faults.new) }
    ensures later { faults.old ≤ faults.new }
    ensures bounded { OnErr result (faults.new ≤ greatest_count) }
{
    if outcome.is_err() {
        *faults = faults.saturating_add(1);
    }
    outcome
}

impl<'a, R: Files + Print> Station<'a> for FileStation<'a, R> {
    ghost use Rattle.station_files.specs.Station.{file_meaning};

    ghost meaning = { file_meaning };

    fn attach(&mut self, port: InPort, name: &'a str) -> Result<(), Failed> {
        let faults = &mut self.read_faults;
        match port {
            InPort::Settings => counted(attach_at(self.rt, &mut self.settings, name), faults),
            InPort::Hp => counted(attach_at(self.rt, &mut self.hp, name), faults),
            InPort::Lp => counted(attach_at(self.rt, &mut self.lp, name), faults),
            InPort::Cells => counted(attach_at(self.rt, &mut self.cells, name), faults),
        }
    }

    fn read(&mut self, port: InPort, buf: &mut [u8]) -> Result<usize, Failed> {
        let faults = &mut self.read_faults;
        let outputs = &mut self.outputs;
        match port {
            InPort::Settings => counted(self.settings.read(outputs, buf), faults),
            InPort::Hp => counted(self.hp.read(outputs, buf), faults),
            InPort::Lp => counted(self.lp.read(outputs, buf), faults),
            InPort::Cells => counted(self.cells.read(outputs, buf), faults),
        }
    }

    fn create(&mut self, port: OutPort, name: &'a str) -> Result<(), Failed> {
        let made = self.make(name);
        let faults = &mut self.write_faults;
        let outputs = &mut self.outputs;
        match port {
            OutPort::Cells => counted(create_at(&mut outputs.cells, name, made), faults),
            OutPort::Hp => counted(create_at(&mut outputs.hp, name, made), faults),
            OutPort::Lp => counted(create_at(&mut outputs.lp, name, made), faults),
            OutPort::Bytes => counted(create_at(&mut outputs.bytes, name, made), faults),
            OutPort::Report => unreachable!(),
        }
    }

    fn write(&mut self, port: OutPort, bytes: &[u8]) -> Result<(), Failed> {
        let faults = &mut self.write_faults;
        let outputs = &mut self.outputs;
        match port {
            OutPort::Cells => {
                outputs.pending = true;
                counted(outputs.cells.write(bytes), faults)
            }
            OutPort::Hp => {
                outputs.pending = true;
                counted(outputs.hp.write(bytes), faults)
            }
            OutPort::Lp => {
                outputs.pending = true;
                counted(outputs.lp.write(bytes), faults)
            }
            OutPort::Bytes => {
                outputs.pending = true;
                counted(outputs.bytes.write(bytes), faults)
            }
            OutPort::Report => {
                let answer = counted(outputs.report(self.rt, bytes), faults);
                counted(answer, &mut self.report_faults)
            }
        }
    }

    fn flush(&mut self) -> Result<(), Failed> {
        counted(self.outputs.hand_over(), &mut self.write_faults)
    }

    fn close(&mut self, port: OutPort) -> Result<(), Failed> {
        let faults = &mut self.close_faults;
        let outputs = &mut self.outputs;
        match port {
            OutPort::Cells => counted(outputs.cells.close(), faults),
            OutPort::Hp => counted(outputs.hp.close(), faults),
            OutPort::Lp => counted(outputs.lp.close(), faults),
            OutPort::Bytes => counted(outputs.bytes.close(), faults),
            OutPort::Report => {
                self.report_closed = true;
                Ok(())
            }
        }
    }
}
