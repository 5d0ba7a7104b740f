// The reception after a place.
ghost use Rattle.std.specs.Prelude.{◌≡◌, ◌≤◌, ◌<◌, ◌^◌, ◌++◌, ℕ, List, length};
ghost use Rattle.mode_set.specs.declared.settings.Settings.{Settings as AnySettings};
ghost use Rattle.reception.specs.Cells.{symbol_length, symbols, tail};
ghost use Rattle.std.specs.Thread.{IsSync};
ghost use Rattle.cmd_cells.specs.Stops.{HasCause};
ghost use Rattle.cmd_cells.specs.Work.{AreOpen, Does, HasReason, WritesOnly, Written};
ghost use Rattle.cmd_receive.specs.Feeder.{FedStands};
ghost use Rattle.cmd_receive.specs.Working.{LiveGives, ReceiverStands, reception_work, writes_at};
ghost use Rattle.tune_in.specs.declared.frame.Found.{Found as AnyFound};
ghost use Rattle.tune_in.specs.OfBytes.{rest};
ghost use Rattle.cmd_tune.specs.Working.{IsBehind};

use cmd_cells::{RunError, SymbolWork};
use cmd_receive::{ModeReceiver, ReceptionWork};
use receiver::RxOut;
use station_core::Station;
use std::thread::Threads;

/// The reception after a place.
#[derive(Drop)]
pub(crate) struct Behind<'r, R, F, X> {
    /// The symbols still to be skipped.
    pub skip: u64,
    /// The reception.
    pub work: ReceptionWork<'r, R, F, X>,
}

impl<'r, R: Threads + Sync, F: Fn(&mut X, &[u8], &mut RxOut) -> usize, X: ModeReceiver> Behind<
    'r,
    R,
    F,
    X,
> {
    /// Takes the next symbol of `size` bytes, or the part of it that ends the cells: skips it, or receives
    /// it and writes the result.
    pub(crate) fn take<'a, S: Station<'a>>(
        &mut self,
        size: usize,
        piece: &[u8],
        station: &mut S,
    ) -> Result<(), RunError>
        requires threads { IsSync R.row }
        requires open { AreOpen (writes_at self.old.work.two) (S.meaning station.old) }
        requires going { (s : AnySettings) × (found : AnyFound) × (bytes : List ℕ) × (given : Written)
            × (symbols s bytes < 2 ^ 32) × ((X.state self.old.work.receiver).settings.mode ≡ s.mode)
            × IsBehind (ReceiverStands (FedStands X.state F.Fn self.old.work.feeder self.old.work.receiver)
            (X.state self.old.work.receiver).settings self.old.work.two) (X.state self.old.work.receiver).settings s
            self.old.work.two self.old.skip found bytes given }
        ensures settings { (X.state self.new.work.receiver).settings ≡ (X.state self.old.work.receiver).settings }
        ensures two { self.new.work.two ≡ self.old.work.two }
        ensures others { WritesOnly (S.meaning station.old) (S.meaning station.new) }
        ensures cause { HasCause (S.meaning station.old) (S.meaning station.new) result }
        ensures reason { HasReason (reception_work (X.state self.old.work.receiver).settings self.old.work.two) result }
        ensures later_report { (S.meaning station.old).report_faults ≤ (S.meaning station.new).report_faults }
        ensures takes { (s : AnySettings) (found : AnyFound) (bytes : List ℕ) (given : Written)
            → (X.state self.old.work.receiver).settings.mode ≡ s.mode → size ≡ symbol_length s
            → IsBehind (ReceiverStands (FedStands X.state F.Fn self.old.work.feeder self.old.work.receiver)
            (X.state self.old.work.receiver).settings self.old.work.two) (X.state self.old.work.receiver).settings s
            self.old.work.two self.old.skip found bytes given
            → tail s bytes ≡ 0 → length piece.now ≤ size
            → Does (IsBehind (ReceiverStands (FedStands X.state F.Fn self.new.work.feeder self.new.work.receiver)
            (X.state self.new.work.receiver).settings self.new.work.two) (X.state self.new.work.receiver).settings s
            self.new.work.two self.new.skip found (bytes ++ piece.now))
            (LiveGives (X.state self.old.work.receiver).settings self.old.work.two (rest s (bytes ++ piece.now) found))
            (λ r. ⊥) given (S.meaning station.old) (S.meaning station.new) result }
    {
        reception::laws::symbols();
        if self.skip == 0 {
            return self.work.take(piece, station);
        }
        if piece.len() == size {
            self.skip -= 1;
        }
        Ok(())
    }
}
