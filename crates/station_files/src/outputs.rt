// All output files together.
ghost use Rattle.std.specs.Prelude.{◌≡◌, false};
ghost use Rattle.station_files.specs.Waiting.{IsSettled};

use crate::patience::write_whole;
use crate::writing::FileWriting;
use station_core::Failed;
use std::fs::OpenFile;
use std::io;
use std::io::Write;

/// The output ports except Report.
#[derive(Drop)]
pub struct Outputs<'a, F> {
    pub cells: FileWriting<'a, F>,
    pub hp: FileWriting<'a, F>,
    pub lp: FileWriting<'a, F>,
    pub bytes: FileWriting<'a, F>,
    // a port was written to since everything was last passed to the files
    pub pending: bool,
    ghost settled_cells: { pending ≡ false → IsSettled cells },
    ghost settled_hp: { pending ≡ false → IsSettled hp },
    ghost settled_lp: { pending ≡ false → IsSettled lp },
    ghost settled_bytes: { pending ≡ false → IsSettled bytes },
}

impl<'a, F: Write + OpenFile + Drop> Outputs<'a, F> {
    ghost use Rattle.std.specs.Prelude.{◌≡◌, false, OnOk, OnErr};
    ghost use Rattle.station_core.specs.Meaning.{no_sink};
    ghost use Rattle.station_files.specs.Ports.{sink_of};
    ghost use Rattle.station_files.specs.Outputs.{AllOut, AllTold, SameSinks};

    /// Ports where no name was requested, with this memory.
    pub fn new(
        cells: Option<Vec<u8>>,
        hp: Option<Vec<u8>>,
        lp: Option<Vec<u8>>,
        bytes: Option<Vec<u8>>,
    ) -> Outputs<'a, F>
        ensures cells { sink_of result.cells ≡ no_sink }
        ensures hp { sink_of result.hp ≡ no_sink }
        ensures lp { sink_of result.lp ≡ no_sink }
        ensures bytes { sink_of result.bytes ≡ no_sink }
        ensures settled { result.pending ≡ false }
    {
        Outputs {
            cells: FileWriting::new(cells),
            hp: FileWriting::new(hp),
            lp: FileWriting::new(lp),
            bytes: FileWriting::new(bytes),
            pending: false,
        }
    }

    /// Writes the pending bytes of all ports. A failed file is reported by `tell`.
    pub fn flush(&mut self)
        ensures same { SameSinks self.old self.new }
        ensures out { AllOut self.new }
        ensures waits { self.new.pending ≡ self.old.pending }
    {
        self.cells.flush();
        self.hp.flush();
        self.lp.flush();
        self.bytes.flush();
    }

    // Fails if a file has failed since the last report.
    fn tell(&mut self) -> Result<(), Failed>
        requires out { AllOut self.old }
        ensures same { SameSinks self.old self.new }
        ensures out { AllOut self.new }
        ensures told { AllTold self.new }
        ensures waits { self.new.pending ≡ self.old.pending }
    {
        let cells = self.cells.tell();
        let hp = self.hp.tell();
        let lp = self.lp.tell();
        let bytes = self.bytes.tell();
        cells.and(hp).and(lp).and(bytes)
    }

    /// Passes all bytes given to the ports to their files. It fails if any file has failed, even if that was reported
    /// before.
    pub fn hand_over(&mut self) -> Result<(), Failed>
        ensures same { SameSinks self.old self.new }
        ensures ok { OnOk result (self.new.pending ≡ false) }
        ensures err { OnErr result (self.new.pending ≡ self.old.pending) }
    {
        if !self.pending {
            return Ok(());
        }
        self.cells.hand_over()?;
        self.hp.hand_over()?;
        self.lp.hand_over()?;
        self.bytes.hand_over()?;
        self.pending = false;
        Ok(())
    }

    /// Writes a line to standard output, after everything given to the ports. If a port fails, so does this call, and
    /// nothing of the line is written.
    pub fn report<R: Print>(&mut self, rt: &R, line: &[u8]) -> Result<(), Failed>
        ensures same { SameSinks self.old self.new }
        ensures out { AllOut self.new }
        ensures told { AllTold self.new }
        ensures waits { self.new.pending ≡ self.old.pending }
    {
        self.flush();
        self.tell()?;
        self.print_line(rt, line)
    }

    // Writes a line to standard output, whose reader may assume that the outputs are written.
    fn print_line<R: Print>(&self, rt: &R, line: &[u8]) -> Result<(), Failed>
        requires { AllOut self.now }
    {
        write_whole(&mut io::writer(rt), line)
    }
}
