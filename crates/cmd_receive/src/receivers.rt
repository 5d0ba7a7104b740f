// The receiver of the work.
ghost use Rattle.std.specs.Prelude.{◌≡◌, ℕ, List, IfSome, [], false};
ghost use Rattle.mode_set.specs.declared.modes.Mode.{Mode};
ghost use Rattle.reception.specs.Laws.{nothing};
ghost use Rattle.reception.specs.Streams.{Moment, Reception, so_far, at_end};
ghost use Rattle.reception.specs.Lines.{counts_of};
ghost use Rattle.reception.specs.Feeds.{Finishes};
ghost use Rattle.std.specs.Thread.{IsSync};
ghost use Rattle.receiver.specs.Seen.{ReceiverState};
ghost use Rattle.receiver.specs.Standing.{StandsFor};

use mode_set::{Carriers, Settings};
use receiver::{Receiver, RxOut};
use rx_report::Counts;
use std::alloc::Global;
use std::thread::Threads;

/// The receiver of a mode. The work feeds it by a closure that it holds: the kit refuses a trait's method with a gate
/// there, as its bound would be assumed of one thread alone.
pub trait ModeReceiver {
    ghost state: { Self → ReceiverState };

    ghost mode: { Mode };

    /// A new receiver with these settings; None only for want of memory.
    fn made(alloc: Global, settings: &Settings) -> Option<Self>
        requires mode { settings.now.mode ≡ mode }
        ensures settings { IfSome result (λ x. (state x).settings ≡ settings.now) }
        ensures stands { IfSome result (λ x. StandsFor so_far (state x) [] nothing) };

    /// Ends the reception.
    fn finish<R: Threads + Sync>(&mut self, rt: &R, out: &mut RxOut)
        requires threads { IsSync R.row }
        requires going { (state self.old).ended ≡ false }
        ensures settings { (state self.new).settings ≡ (state self.old).settings }
        ensures finished { (bytes : List ℕ) (r : Reception) → StandsFor so_far (state self.old) bytes r
            → Finishes (StandsFor at_end (state self.new)) (state self.old).settings bytes r out.new };

    /// The counts so far, or at the end.
    fn counts(&self) -> Counts
        ensures { (moment : Moment) (bytes : List ℕ) (r : Reception) → StandsFor moment (state self.now) bytes r
            → result ≡ counts_of (state self.now).settings bytes r };
}

impl<M: Carriers> ModeReceiver for Receiver<M> {
    ghost state = { λ x. x };

    ghost mode = { M.MODE };

    fn made(alloc: Global, settings: &Settings) -> Option<Self> {
        match Receiver::<M>::new(alloc, settings) {
            Ok(receiver) => Some(receiver),
            Err(_) => None,
        }
    }

    fn finish<R: Threads + Sync>(&mut self, rt: &R, out: &mut RxOut) {
        Receiver::<M>::finish(self, rt, out);
    }

    fn counts(&self) -> Counts {
        Receiver::<M>::counts(self)
    }
}
