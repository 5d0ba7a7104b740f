// An output file, written in large pieces.
use crate::buffer::Buffer;
use crate::patience::write_whole;
use station_core::Failed;
use std::fs::OpenFile;
use std::io::{ErrorKind, Write};

/// Whether a write to the file has failed. After that nothing more is written to it.
#[derive(Clone, Copy, Debug, PartialEq, Eq)]
pub enum Fault {
    /// No write has failed.
    Absent,
    /// A write has failed, and no call of the station has reported it.
    Untold,
    /// A write has failed, and a call has reported it.
    Told,
}

/// An output port.
#[derive(Drop)]
pub struct FileWriting<'a, F> {
    pub asked: Option<&'a str>,
    pub file: Option<F>,
    pub created: bool,
    pub closed: bool,
    fault: Fault,
    // to be written
    buffer: Buffer,
}

// Makes sure that the written bytes reach the file. A pipe or a terminal stores nothing, and says so.
fn sync<F: OpenFile>(file: &F) -> Result<(), Failed> {
    match file.sync_data() {
        Ok(()) => Ok(()),
        Err(error) => match error.kind() {
            ErrorKind::InvalidInput | ErrorKind::Unsupported => Ok(()),
            _ => Err(Failed),
        },
    }
}

impl<'a, F: Write + OpenFile + Drop> FileWriting<'a, F> {
    ghost use Rattle.std.specs.Prelude.{◌≡◌, ◌≢◌, ◌↔◌, IsErr, OnOk};
    ghost use Rattle.station_core.specs.Meaning.{no_sink, closed_sink};
    ghost use Rattle.station_files.specs.declared.writing.Fault.TheVariants.{Absent, Untold, Told};
    ghost use Rattle.station_files.specs.Ports.{sink_of};
    ghost use Rattle.station_files.specs.Waiting.{IsOut, IsSettled};

    /// A port where no name was requested.
    pub fn new(memory: Option<Vec<u8>>) -> FileWriting<'a, F>
        ensures new { sink_of result ≡ no_sink }
        ensures settled { IsSettled result }
    {
        FileWriting {
            asked: None,
            file: None,
            created: false,
            closed: false,
            fault: Fault::Absent,
            buffer: Buffer::new(memory),
        }
    }

    /// Writes the pending bytes to the file. If that fails, the rest is dropped, and `tell` reports it.
    pub fn flush(&mut self)
        ensures same { sink_of self.new ≡ sink_of self.old }
        ensures out { IsOut self.new }
        ensures failed { self.old.fault ≢ Absent → self.new.fault ≢ Absent }
        ensures untold { self.old.fault ≡ Untold → self.new.fault ≡ Untold }
        ensures idle { IsOut self.old → self.new ≡ self.old }
    {
        if self.buffer.is_empty() {
            return;
        }
        let written = match &mut self.file {
            Some(file) => write_whole(file, self.buffer.waiting()),
            None => Err(Failed),
        };
        self.buffer.clear();
        if written.is_err() {
            self.fault = Fault::Untold;
        }
    }

    /// Fails if the file has failed since the last call of `tell`. A failure is reported only once.
    pub fn tell(&mut self) -> Result<(), Failed>
        ensures same { sink_of self.new ≡ sink_of self.old }
        ensures buffer { self.new.buffer ≡ self.old.buffer }
        ensures told { self.new.fault ≢ Untold }
        ensures fails { IsErr result ↔ (self.old.fault ≡ Untold) }
        ensures idle { self.old.fault ≡ Absent → self.new ≡ self.old }
    {
        if self.fault == Fault::Untold {
            self.fault = Fault::Told;
            return Err(Failed);
        }
        Ok(())
    }

    /// Writes the pending bytes to the file. It fails if a write of the file has failed, even if that was reported
    /// before.
    pub fn settle(&mut self) -> Result<(), Failed>
        ensures same { sink_of self.new ≡ sink_of self.old }
        ensures out { IsOut self.new }
        ensures failed { self.old.fault ≢ Absent → IsErr result }
        ensures told { IsErr result ↔ (self.new.fault ≢ Absent) }
    {
        self.flush();
        if self.fault != Fault::Absent {
            self.fault = Fault::Told;
            return Err(Failed);
        }
        Ok(())
    }

    /// Does what `settle` does, and makes sure that all bytes have reached the file.
    pub fn hand_over(&mut self) -> Result<(), Failed>
        ensures same { sink_of self.new ≡ sink_of self.old }
        ensures settled { OnOk result (IsSettled self.new) }
    {
        self.settle()?;
        let synced = match &self.file {
            Some(file) => sync(file),
            None => Ok(()),
        };
        if synced.is_err() {
            self.fault = Fault::Told;
        }
        synced
    }

    /// Takes bytes to be written after the earlier ones. Once the file has failed, every call fails.
    pub fn write(&mut self, bytes: &[u8]) -> Result<(), Failed>
        ensures same { sink_of self.new ≡ sink_of self.old }
        ensures failed { self.old.fault ≢ Absent → IsErr result }
        ensures told { IsErr result ↔ (self.new.fault ≢ Absent) }
    {
        if self.fault == Fault::Absent && self.buffer.gather(bytes) {
            return Ok(());
        }
        self.settle()?;
        if self.buffer.gather(bytes) {
            return Ok(());
        }
        let written = match &mut self.file {
            Some(file) => write_whole(file, bytes),
            None => Err(Failed),
        };
        if written.is_err() {
            self.fault = Fault::Told;
        }
        written
    }

    /// Writes the pending bytes and closes the file, even if writing fails.
    pub fn close(&mut self) -> Result<(), Failed>
        ensures closed { sink_of self.new ≡ closed_sink (sink_of self.old) }
        ensures told { self.old.fault ≡ Untold → IsErr result }
        ensures settled { IsSettled self.old → IsSettled self.new }
    {
        self.flush();
        let told = self.tell();
        let synced = match &self.file {
            Some(file) => sync(file),
            None => Err(Failed),
        };
        self.file = None;
        self.closed = true;
        told.and(synced)
    }
}
