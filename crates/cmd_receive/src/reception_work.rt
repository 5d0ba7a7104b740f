// The work of `receive` on the symbols of a file of cells.

use crate::receivers::ModeReceiver;
use crate::writing::{write_lines, write_out};
use cmd_cells::{RunError, SymbolWork};
use receiver::RxOut;
use station_core::Station;
use std::thread::Threads;

/// A receiver whose packets and lines are written, with the output of its last call, the runtime whose threads it may
/// use, its feeder, and a flag for two streams.
#[derive(Drop)]
pub struct ReceptionWork<'r, R, F, T> {
    /// The runtime.
    pub rt: &'r R,
    /// The function that feeds the receiver.
    pub feeder: F,
    /// The receiver.
    pub receiver: T,
    /// The output of its last call.
    pub out: RxOut,
    /// Whether LP is written too.
    pub two: bool,
}

impl<
    'a,
    'r,
    S: Station<'a>,
    R: Threads + Sync,
    F: Fn(&mut T, &[u8], &mut RxOut) -> usize,
    T: ModeReceiver,
> SymbolWork<'a, S> for ReceptionWork<'r, R, F, T> {
    ghost use Rattle.std.specs.Prelude.{[], Bool};
    ghost use Rattle.std.specs.Thread.{IsSync};
    ghost use Rattle.mode_set.specs.declared.settings.Settings.{Settings};
    ghost use Rattle.reception.specs.Laws.{nothing};
    ghost use Rattle.cmd_receive.specs.Feeder.{FedStands};
    ghost use Rattle.cmd_receive.specs.Working.{ReceiverStands, reception_work, writes_at};

    ghost Setup = { Settings × Bool };

    ghost setup = { λ x. ((T.state x.receiver).settings, x.two) };

    ghost work = { λ p. reception_work p.0 p.1 };

    ghost outputs = { λ p. writes_at p.1 };

    ghost able = { IsSync R.row };

    ghost is_new = { λ x. FedStands T.state F.Fn x.feeder x.receiver [] nothing };

    ghost stands = { λ x. ReceiverStands (FedStands T.state F.Fn x.feeder x.receiver) (T.state x.receiver).settings
        x.two };

    fn begin(&mut self, _station: &mut S) -> Result<(), RunError> {
        reception::laws::nothing();
        reception::laws::events();
        Ok(())
    }

    fn take(&mut self, piece: &[u8], station: &mut S) -> Result<(), RunError> {
        (self.feeder)(&mut self.receiver, piece, &mut self.out);
        write_out(self.two, &self.out, station)
    }

    fn finish(&mut self, station: &mut S) -> Result<(), RunError> {
        reception::laws::receptions();
        self.receiver.finish(self.rt, &mut self.out);
        write_out(self.two, &self.out, station)?;
        write_lines(&self.receiver.counts(), station)
    }

    fn law(&self) {
        reception::laws::symbols();
        reception::laws::costs();
    }
}
