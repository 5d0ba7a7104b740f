// The work of `align` on the symbols of a file of cells.
ghost use Rattle.std.specs.Prelude.{◌≡◌, ◌≤◌, ◌<◌, ◌^◌, ◌-◌, ◌+◌, true, false, None, Some, IsTrue};
ghost use Rattle.cmd_cells.specs.Outputs.{IsWriting};
ghost use Rattle.cmd_cells.specs.Stops.{HasCause};
ghost use Rattle.tps_word.specs.Tps.{IsValid};
ghost use Rattle.tune_in.specs.Places.{begin as begin_of};
ghost use Rattle.cmd_align.specs.Announcement.{found_lines};
ghost use Rattle.cmd_align.specs.Working.{Appends, ReportOnly};

use crate::announcement::announced_line;
use crate::copying::Copying;
use cmd_base::{CellsRefusal, Refusal};
use cmd_cells::{RunError, SymbolWork, write_some};
use cmd_convert::line_of_counts;
use frame_build::header;
use mode_set::{Carriers, Settings};
use station_core::{OutPort, Station};
use tune_in::{Found, begin};
use tune_search::{Search, place_line};

// Writes the lines of a place, one write for each.
fn write_found<'a, S: Station<'a>>(found: &Found, station: &mut S) -> Result<(), RunError>
    requires created { (S.meaning station.old).report.created ≡ true }
    requires open { (S.meaning station.old).report.closed ≡ false }
    ensures kind { IsWriting result }
    ensures cause { HasCause (S.meaning station.old) (S.meaning station.new) result }
    ensures later_report { (S.meaning station.old).report_faults ≤ (S.meaning station.new).report_faults }
    ensures others { ReportOnly (S.meaning station.old) (S.meaning station.new) }
    ensures written { IsTrue (S.meaning station.old).tells → Appends (found_lines found.now) (S.meaning
        station.old).report.written (S.meaning station.new).report.written result }
{
    let place = place_line(found);
    let announced = announced_line(&found.word);
    write_some(OutPort::Report, place.as_str().as_bytes(), station)?;
    write_some(OutPort::Report, announced.as_str().as_bytes(), station)
}

// The state after a place is found: the symbols before the next super-frame are skipped.
fn copying_from(found: &Found) -> Copying
    requires place { found.now.place < 2 ^ 32 }
    requires valid { IsValid found.now.word }
    ensures skip { result.skip + (found.now.place + 68) ≡ begin_of found.now }
    ensures symbols { result.symbols ≡ 0 }
    ensures tail { result.tail ≡ 0 }
{
    Copying {
        skip: begin(found) - (found.place + 68),
        symbols: 0,
        tail: 0,
    }
}

/// A search for a place, and the copying after it.
#[derive(Drop)]
pub(crate) struct AligningWork<M: Carriers> {
    /// The settings of the command.
    pub settings: Settings,
    /// The search.
    pub search: Search<M>,
    /// The copying, once a place is found.
    pub copying: Option<Copying>,
}

impl<'a, S: Station<'a>, M: Carriers> SymbolWork<'a, S> for AligningWork<M> {
    ghost use Rattle.std.specs.Prelude.{⊤, []};
    ghost use Rattle.mode_set.specs.declared.settings.Settings.{Settings};
    ghost use Rattle.cmd_convert.specs.Working.{writes_at};
    ghost use Rattle.tune_search.specs.Searching.{IsSearching};
    ghost use Rattle.cmd_align.specs.Working.{AligningStands, aligning_work};

    ghost Setup = { Settings };

    ghost setup = { λ x. x.settings };

    ghost work = { λ s. aligning_work s };

    ghost outputs = { λ s. writes_at };

    ghost able = { ⊤ };

    ghost is_new = { λ x. (x.copying ≡ None) × IsSearching x.settings x.search.tuner x.search.symbol []
        × (x.settings.mode ≡ M.MODE) };

    ghost stands = { λ x bytes given. (x.settings.mode ≡ M.MODE)
        × AligningStands (λ s. IsSearching s x.search.tuner x.search.symbol) x.settings x.copying bytes given };

    fn begin(&mut self, station: &mut S) -> Result<(), RunError> {
        write_some(OutPort::Cells, &header(self.settings.mode), station)
    }

    fn take(&mut self, piece: &[u8], station: &mut S) -> Result<(), RunError> {
        tune_in::more_bytes();
        let size = 5 * self.settings.mode.carriers() as usize;
        if let Some(copying) = &mut self.copying {
            return copying.take(size, piece, station);
        }
        match self.search.take(piece) {
            Some(found) => {
                self.copying = Some(copying_from(&found));
                write_found(&found, station)
            }
            None => Ok(()),
        }
    }

    fn finish(&mut self, station: &mut S) -> Result<(), RunError> {
        match &self.copying {
            Some(copying) => {
                let line = line_of_counts(copying.symbols, copying.tail);
                write_some(OutPort::Report, line.as_str().as_bytes(), station)
            }
            None => Err(RunError::Work(Refusal::Cells(CellsRefusal::NoPlace))),
        }
    }

    fn law(&self) {
        reception::laws::symbols();
        tune_in::more_bytes();
    }
}
