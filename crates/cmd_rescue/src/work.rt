// The work of `rescue` on the symbols of a file of cells.
ghost use Rattle.rescue.specs.ReportText.{closing_lines};
ghost use Rattle.cmd_rescue.specs.Closing.{few_lines};

use cmd_cells::{RunError, SymbolWork};
use cmd_receive::{ClosingLines, write_lines, write_out};
use mode_set::Carriers;
use rescue::{Counts, Rescue, RxOut};
use rx_report::Line;
use station_core::Station;
use std::thread::Threads;

/// The counts at the end of a reception.
#[derive(Drop)]
pub(crate) struct LastCounts {
    /// The counts.
    pub counts: Counts,
}

impl ClosingLines for LastCounts {
    ghost lines = { λ x. closing_lines x.counts };

    ghost few = { λ x. few_lines x.counts };

    fn line(&self, number: u8) -> Option<Line> {
        self.counts.line(number)
    }
}

/// A rescuing receiver whose packets and lines are written, with the output of its last call, the runtime whose threads
/// it may use, and a flag for two streams.
#[derive(Drop)]
pub(crate) struct RescueWork<'r, R, M: Carriers> {
    /// The runtime.
    pub rt: &'r R,
    /// The receiver.
    pub receiver: Rescue<M>,
    /// The output of its last call.
    pub out: RxOut,
    /// Whether LP is written too.
    pub two: bool,
}

impl<'a, 'r, S: Station<'a>, R: Threads + Sync, M: Carriers> SymbolWork<'a, S>
    for RescueWork<'r, R, M> {
    ghost use Rattle.std.specs.Prelude.{[], Bool};
    ghost use Rattle.std.specs.Thread.{IsSync};
    ghost use Rattle.mode_set.specs.declared.settings.Settings.{Settings};
    ghost use Rattle.reception.specs.Streams.{so_far};
    ghost use Rattle.rescue.specs.Streams.{nothing};
    ghost use Rattle.rescue.specs.Standing.{StandsFor};
    ghost use Rattle.cmd_receive.specs.Kinds.{writes_at};
    ghost use Rattle.cmd_rescue.specs.Working.{RescueStands, rescue_work};

    ghost Setup = { Settings × Bool };

    ghost setup = { λ x. (x.receiver.settings, x.two) };

    ghost work = { λ p. rescue_work p.0 p.1 };

    ghost outputs = { λ p. writes_at p.1 };

    ghost able = { IsSync R.row };

    ghost is_new = { λ x. StandsFor so_far x.receiver [] nothing };

    ghost stands = { λ x. RescueStands (StandsFor so_far x.receiver) x.receiver.settings x.two };

    fn begin(&mut self, _station: &mut S) -> Result<(), RunError> {
        rescue::laws::nothing();
        reception::laws::events();
        Ok(())
    }

    fn take(&mut self, piece: &[u8], station: &mut S) -> Result<(), RunError> {
        self.receiver.feed(self.rt, piece, &mut self.out);
        write_out(self.two, &self.out, station)
    }

    fn finish(&mut self, station: &mut S) -> Result<(), RunError> {
        rescue::laws::receptions();
        self.receiver.finish(&mut self.out);
        write_out(self.two, &self.out, station)?;
        let counts = self.receiver.counts();
        write_lines(&LastCounts { counts }, station)
    }

    fn law(&self) {
        reception::laws::symbols();
        reception::laws::costs();
    }
}
