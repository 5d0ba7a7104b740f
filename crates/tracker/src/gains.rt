// The gains at all carriers of a symbol.
ghost use Rattle.std.specs.Prelude.{◌≡◌, ℕ, ◌+◌, ◌<◌, ◌≤◌, ◌^◌, List, length};
ghost use Rattle.mode_set.specs.StreamTable.{carriers};
ghost use Rattle.tracking.specs.Comb.{comb_of, points};
ghost use Rattle.tracking.specs.InFrequency.{carrier_gain};
ghost use Rattle.tracking.specs.InTime.{point_gain};
ghost use Rattle.tracking.specs.Moving.{motion as motion_at};
ghost use Rattle.track_motion.specs.Around.{IsAround, IsLook};
ghost use Rattle.track_pilots.specs.Window.{StandsFor};
ghost use Rattle.qam_map.specs.declared.cell.Cell.{Cell};
ghost use Rattle.track_cells.specs.Gains.{gain_of, AreWithin};

use mode_set::{Carriers, Guard};
use std::alloc::{AllocError, Global};
use std::marker::{Model, PhantomData};
use track_arithmetic::Complex;
use track_cells::interpolate;
use track_comb_gains::point_gains;
use track_motion::Surroundings;
use track_pilots::PilotWindow;
use tracking::Motion;

// The gain at each carrier, by those at the comb points.
fn carrier_gains<M: Carriers>(
    guard: Guard,
    gains: &[Complex],
    centred: &mut [Complex],
    to: &mut [Complex],
)
    requires gains { length gains.now ≡ points M.MODE }
    requires within { AreWithin (2 ^ 21) gains.now }
    requires centred { length centred.old ≡ points M.MODE }
    requires carriers { length to.old ≡ carriers M.MODE }
    ensures centred { length centred.new ≡ points M.MODE }
    ensures carriers { length to.new ≡ carriers M.MODE }
    ensures is { (k : ℕ) → k < carriers M.MODE → gain_of to.new k ≡ carrier_gain guard M.MODE (gain_of gains.now) k }
    ensures within { AreWithin (2 ^ 25) to.new }
{
    interpolate(guard, M::MODE, gains, centred, to);
}

/// Room for the gains at the comb points and at the carriers of a symbol.
///
/// It is seen as the gains at all carriers.
#[derive(Drop)]
pub(crate) struct GainRoom<M: Carriers> {
    points: Vec<Complex>,
    centred: Vec<Complex>,
    all: Vec<Complex>,
    of: PhantomData<M>,
}

impl<M: Carriers> Model for GainRoom<M> {
    ghost use Rattle.std.specs.Prelude.{List, length};
    ghost use Rattle.track_arithmetic.specs.declared.complex.Complex.{Complex as Gain};
    ghost use Rattle.tracker.specs.Tracks.{HasRoom};

    ghost Value = { List Gain };

    ghost view = { λ r. r.all.items };

    ghost invariant = { λ r. HasRoom M.MODE (length r.points.items) (length r.centred.items) (length r.all.items) };
}

impl<M: Carriers> GainRoom<M> {
    /// It takes all its memory; the only error is want of it.
    pub(crate) fn new(alloc: Global) -> Result<Self, AllocError> {
        let count = (M::K as usize + 2) / 3;
        let points = vec![in alloc; Complex { re: 0, im: 0 }; count]?;
        let centred = vec![in alloc; Complex { re: 0, im: 0 }; count]?;
        let all = vec![in alloc; Complex { re: 0, im: 0 }; M::K as usize]?;
        Ok(GainRoom {
            points,
            centred,
            all,
            of: PhantomData,
        })
    }

    /// Finds the gain at each carrier of symbol `m`, as 16 times the value of a pilot.
    pub(crate) fn find(
        &mut self,
        guard: Guard,
        window: &PilotWindow<M>,
        m: u64,
        around: &Surroundings,
        motion: Motion,
    )
        requires there { m < window.now.count }
        requires late { window.now.count ≤ m + 8 }
        requires few { window.now.count ≤ 2 ^ 32 }
        requires look { IsLook window.now.count m around.now }
        ensures is { (symbols : List (List Cell)) (k : ℕ) → StandsFor M.MODE window.now symbols
            → IsAround (comb_of M.MODE symbols) m around.now → motion ≡ motion_at guard (comb_of M.MODE symbols) m
            → k < carriers M.MODE → gain_of self.new k ≡ carrier_gain guard M.MODE (point_gain guard
            (comb_of M.MODE symbols) m) k }
        ensures within { AreWithin (2 ^ 25) self.new }
    {
        point_gains(window, m, around, motion, &mut self.points);
        carrier_gains::<M>(guard, &self.points, &mut self.centred, &mut self.all);
    }

    /// The gains.
    pub(crate) fn gains(&self) -> &[Complex]
        ensures is { result.now ≡ self.now }
        ensures long { length result.now ≡ carriers M.MODE }
    {
        &self.all
    }
}
