// The measurer of the work.
ghost use Rattle.std.specs.Prelude.{◌≡◌, ◌++◌, ℕ, List, false};
ghost use Rattle.std.specs.List.{concat};
ghost use Rattle.std.specs.Thread.{IsSync};
ghost use Rattle.reception.specs.Streams.{so_far, at_end};
ghost use Rattle.measurer.specs.Seen.{MeasurerState};
ghost use Rattle.measurer.specs.Standing.{StandsFor};

use measurer::{MeasureOut, Measurer};
use mode_set::Carriers;
use std::thread::Threads;

/// The measurer of a mode. The work feeds it by a closure that it holds: the kit refuses a trait's method with a gate
/// there, as its bound would be assumed of one thread alone.
pub(crate) trait ModeMeasurer {
    /// Its visible state, and the bytes of a symbol.
    ghost state: { Self → MeasurerState };

    ghost size: { ℕ };

    /// Ends the measurement.
    fn finish<R: Threads + Sync>(&mut self, rt: &R, out: &mut MeasureOut)
        requires threads { IsSync R.row }
        requires going { (state self.old).ended ≡ false }
        ensures settings { (state self.new).settings ≡ (state self.old).settings }
        ensures finished { (bytes given : List ℕ) → StandsFor so_far (state self.old) bytes given
            → StandsFor at_end (state self.new) bytes (given ++ concat out.new) };
}

impl<M: Carriers> ModeMeasurer for Measurer<M> {
    ghost use Rattle.std.specs.Prelude.{◌*◌};

    ghost state = { λ x. x };

    ghost size = { 5 * M.K };

    fn finish<R: Threads + Sync>(&mut self, rt: &R, out: &mut MeasureOut) {
        Measurer::<M>::finish(self, rt, out);
    }
}
