// The rows of the last sixteen symbols.
ghost use Rattle.std.specs.Prelude.{◌≡◌, ℕ, ◌+◌, ◌∷◌, ◌++◌, ◌<◌, ◌≤◌, ◌^◌, [], List, IfOk, length, get_or};
ghost use Rattle.tracking.specs.Comb.{comb_of, points};
ghost use Rattle.track_pilots.specs.Window.{StandsFor};
ghost use Rattle.qam_map.specs.declared.cell.Cell.{Cell as AnyCell};
ghost use Rattle.track_arithmetic.specs.Laws.{IsWithin};
ghost use Rattle.track_arithmetic.specs.Numbers.{nothing};

use crate::pilots_of_symbol::take_pilots;
use mode_set::Carriers;
use qam_map::Cell;
use std::alloc::{AllocError, Global};
use std::marker::{Model, PhantomData};
use track_arithmetic::Complex;

/// The cells of the comb points, every third carrier, in the last sixteen symbols. Each cell is taken for a
/// pilot: it is negated if its pilot is sent negative (EN 300 744, 4.5.2). Pilots stand on comb points alone
/// (4.5.3 and 4.5.4).
///
/// It stands for the symbols that it has had. No call but `new` takes memory.
#[derive(Drop)]
pub struct PilotWindow<M: Carriers> {
    // Symbol t has row t modulo 16.
    rows: Vec<Complex>,
    count: u64,
    of: PhantomData<M>,
}

impl<M: Carriers> Model for PilotWindow<M> {
    ghost use Rattle.track_pilots.specs.Window.{WindowState, HasRows};

    ghost Value = { WindowState };

    ghost view = { λ w. record { count = w.count; rows = w.rows.items } };

    ghost invariant = { λ w. HasRows M.K w.rows.items w.count };
}

impl<M: Carriers> PilotWindow<M> {
    /// A window that has had no symbol. It takes all its memory; the only error is want of it.
    pub fn new(alloc: Global) -> Result<Self, AllocError>
        ensures count { IfOk result (λ w. w.count ≡ 0) }
        ensures stands { IfOk result (λ w. StandsFor M.MODE w []) }
    {
        let rows = vec![in alloc; Complex { re: 0, im: 0 }; 16 * ((M::K as usize + 2) / 3)]?;
        Ok(PilotWindow {
            rows,
            count: 0,
            of: PhantomData,
        })
    }

    /// Takes the next symbol by the cells of all its carriers. It has had fewer than 2^32 symbols.
    pub fn push(&mut self, cells: &[Cell])
        requires cells { length cells.now ≡ M.K }
        requires few { self.old.count < 2 ^ 32 }
        ensures count { self.new.count ≡ self.old.count + 1 }
        ensures stands { (symbols : List (List AnyCell)) → StandsFor M.MODE self.old symbols
            → StandsFor M.MODE self.new (symbols ++ cells.now ∷ []) }
    {
        let points = (M::K as usize + 2) / 3;
        let from = (self.count % 16) as usize * points;
        take_pilots(cells, &mut self.rows[from..from + points]);
        self.count += 1;
    }

    /// The symbols it has had.
    pub fn count(&self) -> u64
        ensures { result ≡ self.now.count }
    {
        self.count
    }

    /// The points of symbol `t`, which is one of the last sixteen. Each part is at most 2^15.
    pub fn row(&self, t: u64) -> &[Complex]
        requires there { t < self.now.count }
        requires late { self.now.count ≤ t + 16 }
        ensures long { length result.now ≡ points M.MODE }
        ensures is { (symbols : List (List AnyCell)) (j : ℕ) → StandsFor M.MODE self.now symbols → j < points M.MODE
            → get_or result.now j nothing ≡ (comb_of M.MODE symbols).value t j }
        ensures within { (j : ℕ) → j < points M.MODE → IsWithin (2 ^ 15) (get_or result.now j nothing) }
    {
        let points = (M::K as usize + 2) / 3;
        let from = (t % 16) as usize * points;
        &self.rows[from..from + points]
    }
}
