// An input file, read in large pieces.
use crate::buffer::Buffer;
use crate::outputs::Outputs;
use crate::patience::read_patiently;
use station_core::Failed;
use std::fs::OpenFile;
use std::io::{Read, Write};

/// An input port.
#[derive(Drop)]
pub struct FileReading<'a, F> {
    pub asked: Option<&'a str>,
    pub file: Option<F>,
    // read from the file, but not yet returned
    buffer: Buffer,
}

impl<'a, F: Read + Write + OpenFile + Drop> FileReading<'a, F> {
    ghost use Rattle.std.specs.Prelude.{◌≡◌, ◌≤◌, length, IfOk};
    ghost use Rattle.station_core.specs.Meaning.{no_source};
    ghost use Rattle.station_files.specs.Ports.{source_of};
    ghost use Rattle.station_files.specs.Outputs.{AllOut, SameSinks};

    /// A port where no name was requested.
    pub fn new(memory: Option<Vec<u8>>) -> FileReading<'a, F>
        ensures { source_of result ≡ no_source }
    {
        FileReading {
            asked: None,
            file: None,
            buffer: Buffer::new(memory),
        }
    }

    // Reads from the file itself, which may wait for another process to write it; so all outputs are written first.
    fn read_file(&mut self, _written: &Outputs<'a, F>, buf: &mut [u8]) -> Result<usize, Failed>
        requires written { AllOut _written.now }
        ensures same { source_of self.new ≡ source_of self.old }
        ensures bound { IfOk result (λ n. n ≤ length buf.new) }
    {
        let Some(file) = &mut self.file else {
            return Err(Failed);
        };
        if buf.len() >= self.buffer.room() {
            return read_patiently(file, buf);
        }
        self.buffer.fill(file)?;
        Ok(self.buffer.hand_out(buf))
    }

    /// Reads some bytes, none at the end of the file. Before it reads the file, everything given to the outputs is
    /// written.
    pub fn read(&mut self, outputs: &mut Outputs<'a, F>, buf: &mut [u8]) -> Result<usize, Failed>
        ensures same { source_of self.new ≡ source_of self.old }
        ensures outputs { SameSinks outputs.old outputs.new }
        ensures waits { outputs.new.pending ≡ outputs.old.pending }
        ensures bound { IfOk result (λ n. n ≤ length buf.new) }
    {
        if !self.buffer.is_empty() {
            return Ok(self.buffer.hand_out(buf));
        }
        outputs.flush();
        self.read_file(outputs, buf)
    }
}
