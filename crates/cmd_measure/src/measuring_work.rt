// The work of `measure` on the symbols of a file of cells.

use crate::measurers::ModeMeasurer;
use crate::writing::write_lines;
use cmd_cells::{RunError, SymbolWork};
use measurer::MeasureOut;
use station_core::Station;
use std::thread::Threads;

/// A measurer whose lines are written, with the lines of its last call, the runtime whose threads it may use, and its
/// feeder.
#[derive(Drop)]
pub(crate) struct MeasuringWork<'r, R, F, T> {
    /// The runtime.
    pub rt: &'r R,
    /// The function that feeds the measurer.
    pub feeder: F,
    /// The measurer.
    pub measurer: T,
    /// The lines of its last call.
    pub out: MeasureOut,
}

impl<
    'a,
    'r,
    S: Station<'a>,
    R: Threads + Sync,
    F: Fn(&mut T, &[u8], &mut MeasureOut) -> usize,
    T: ModeMeasurer,
> SymbolWork<'a, S> for MeasuringWork<'r, R, F, T> {
    ghost use Rattle.std.specs.Prelude.{[]};
    ghost use Rattle.std.specs.Thread.{IsSync};
    ghost use Rattle.mode_set.specs.declared.settings.Settings.{Settings};
    ghost use Rattle.cmd_measure.specs.Feeder.{FedStands};
    ghost use Rattle.cmd_measure.specs.Working.{Prints, measuring_work, writes_nowhere};

    ghost Setup = { Settings };

    ghost setup = { λ x. (T.state x.measurer).settings };

    ghost work = { λ s. measuring_work s };

    ghost outputs = { λ s. writes_nowhere };

    ghost able = { IsSync R.row };

    ghost is_new = { λ x. FedStands T.size T.state F.Fn x.feeder x.measurer [] [] };

    ghost stands = { λ x bytes. Prints (FedStands T.size T.state F.Fn x.feeder x.measurer bytes) };

    fn begin(&mut self, _station: &mut S) -> Result<(), RunError> {
        Ok(())
    }

    fn take(&mut self, piece: &[u8], station: &mut S) -> Result<(), RunError> {
        (self.feeder)(&mut self.measurer, piece, &mut self.out);
        write_lines(self.out.lines(), station)
    }

    fn finish(&mut self, station: &mut S) -> Result<(), RunError> {
        self.measurer.finish(self.rt, &mut self.out);
        write_lines(self.out.lines(), station)
    }

    fn law(&self) {
        reception::laws::symbols();
        measurement::laws::sums_stay();
    }
}
