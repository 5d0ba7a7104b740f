// The work of `tune` on the symbols of a file of cells.
ghost use Rattle.std.specs.Prelude.{◌≡◌, ◌≤◌, ◌<◌, ◌^◌, [], true, false, None};
ghost use Rattle.reception.specs.Laws.{nothing};
ghost use Rattle.cmd_receive.specs.Feeder.{FedStands, IsFeeder};
ghost use Rattle.cmd_cells.specs.Stops.{HasCause};
ghost use Rattle.cmd_cells.specs.Work.{HasReason, WritesOnly};
ghost use Rattle.tps_word.specs.Tps.{IsValid};
ghost use Rattle.cmd_tune.specs.Working.{BeginsBehind, HasSome, Tunes, tuning_work};

use crate::reception_at_place::Behind;
use cmd_base::{CellsRefusal, Refusal};
use cmd_cells::{RunError, SymbolWork, write_some};
use cmd_receive::{ModeReceiver, ReceptionWork};
use mode_set::{Carriers, Settings};
use receiver::RxOut;
use station_core::{OutPort, Station};
use std::alloc::Global;
use std::thread::Threads;
use tune_in::{Found, announced, begin};
use tune_search::{Search, place_line};

/// A search for a place, and the reception after it.
#[derive(Drop)]
pub(crate) struct TuningWork<'r, M: Carriers, R, F, X> {
    /// The settings of the command.
    pub settings: Settings,
    /// Whether LP is written too.
    pub two: bool,
    /// The search.
    pub search: Search<M>,
    /// The runtime whose threads the receiver may use.
    pub rt: &'r R,
    /// The function that feeds the receiver.
    pub feeder: F,
    /// The allocator of its memory.
    pub alloc: Global,
    /// The reception, once a place is found.
    pub behind: Option<Behind<'r, R, F, X>>,
}

impl<
    'r,
    M: Carriers,
    R: Threads + Sync,
    F: Fn(&mut X, &[u8], &mut RxOut) -> usize + Copy,
    X: ModeReceiver + Drop,
> TuningWork<'r, M, R, F, X> {
    // At a place: checks its form, makes the receiver and writes the line.
    fn tune<'a, S: Station<'a>>(&mut self, found: &Found, station: &mut S) -> Result<(), RunError>
        requires feeder { IsFeeder X.state F.Fn self.old.feeder }
        requires mode { self.old.settings.mode ≡ X.mode }
        requires place { found.now.place < 2 ^ 32 }
        requires valid { IsValid found.now.word }
        requires created { (S.meaning station.old).report.created ≡ true }
        requires open { (S.meaning station.old).report.closed ≡ false }
        ensures settings { self.new.settings ≡ self.old.settings }
        ensures two { self.new.two ≡ self.old.two }
        ensures feeder { self.new.feeder ≡ self.old.feeder }
        ensures others { WritesOnly (S.meaning station.old) (S.meaning station.new) }
        ensures cause { HasCause (S.meaning station.old) (S.meaning station.new) result }
        ensures reason { HasReason (tuning_work self.old.settings self.old.two) result }
        ensures later_report { (S.meaning station.old).report_faults ≤ (S.meaning station.new).report_faults }
        ensures tunes { Tunes found.now self.old.two (HasSome
            (λ b. BeginsBehind (X.state b.work.receiver).settings
            (FedStands X.state F.Fn b.work.feeder b.work.receiver [] nothing) self.old.settings b.skip b.work.two
            self.old.two found.now) self.new.behind) (S.meaning station.old) (S.meaning station.new) result }
    {
        let settings = announced(&found.word, &self.settings);
        if settings.hierarchy.is_flat() == self.two {
            return Err(RunError::Work(Refusal::Cells(CellsRefusal::AnnouncedForm)));
        }
        let Ok(out) = RxOut::new(self.alloc) else {
            return Err(RunError::Work(Refusal::Memory));
        };
        let Some(receiver) = X::made(self.alloc, &settings) else {
            return Err(RunError::Work(Refusal::Memory));
        };
        self.behind = Some(Behind {
            skip: begin(found) - (found.place + 68),
            work: ReceptionWork {
                rt: self.rt,
                feeder: self.feeder,
                receiver,
                out,
                two: self.two,
            },
        });
        let line = place_line(found);
        write_some(OutPort::Report, line.as_str().as_bytes(), station)
    }
}

impl<
    'a,
    'r,
    S: Station<'a>,
    M: Carriers,
    R: Threads + Sync,
    F: Fn(&mut X, &[u8], &mut RxOut) -> usize + Copy,
    X: ModeReceiver + Drop,
> SymbolWork<'a, S> for TuningWork<'r, M, R, F, X> {
    ghost use Rattle.std.specs.Prelude.{[], Bool};
    ghost use Rattle.mode_set.specs.declared.settings.Settings.{Settings};
    ghost use Rattle.std.specs.Thread.{IsSync};
    ghost use Rattle.cmd_receive.specs.Feeder.{FedStands, IsFeeder};
    ghost use Rattle.cmd_receive.specs.Working.{ReceiverStands, writes_at};
    ghost use Rattle.tune_search.specs.Searching.{IsSearching};
    ghost use Rattle.cmd_tune.specs.Working.{IsBehindPlace, TuningStands, tuning_work};

    ghost Setup = { Settings × Bool };

    ghost setup = { λ x. (x.settings, x.two) };

    ghost work = { λ p. tuning_work p.0 p.1 };

    ghost outputs = { λ p. writes_at p.1 };

    ghost able = { IsSync R.row };

    ghost is_new = { λ x. (x.behind ≡ None) × IsSearching x.settings x.search.tuner x.search.symbol []
        × (x.settings.mode ≡ M.MODE) × (X.mode ≡ M.MODE) × IsFeeder X.state F.Fn x.feeder };

    ghost stands = { λ x bytes given. (x.settings.mode ≡ M.MODE) × (X.mode ≡ M.MODE) × IsFeeder X.state F.Fn x.feeder
        × TuningStands (λ s. IsSearching s x.search.tuner x.search.symbol) (λ b s two found bytes behind. IsBehindPlace
        (X.state b.work.receiver).settings b.work.two b.skip
        (ReceiverStands (FedStands X.state F.Fn b.work.feeder b.work.receiver) (X.state b.work.receiver).settings
        b.work.two) s two found bytes behind) x.settings x.two x.behind bytes given };

    fn begin(&mut self, _station: &mut S) -> Result<(), RunError> {
        Ok(())
    }

    fn take(&mut self, piece: &[u8], station: &mut S) -> Result<(), RunError> {
        reception::laws::nothing();
        reception::laws::events();
        tune_in::more_bytes();
        let size = 5 * self.settings.mode.carriers() as usize;
        if let Some(behind) = &mut self.behind {
            return behind.take(size, piece, station);
        }
        match self.search.take(piece) {
            Some(found) => self.tune(&found, station),
            None => Ok(()),
        }
    }

    fn finish(&mut self, station: &mut S) -> Result<(), RunError> {
        match &mut self.behind {
            Some(behind) => behind.work.finish(station),
            None => Err(RunError::Work(Refusal::Cells(CellsRefusal::NoPlace))),
        }
    }

    fn law(&self) {
        reception::laws::symbols();
        reception::laws::costs();
        tune_in::more_bytes();
    }
}
