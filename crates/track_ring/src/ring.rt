// The ring.
ghost use Rattle.std.specs.Prelude.{◌≡◌, ℕ, ◌+◌, ◌∷◌, ◌++◌, ◌<◌, ◌≤◌, ◌^◌, [], List, IfOk, length, slice_index};
ghost use Rattle.tracking.specs.Tracking.{Symbol};
ghost use Rattle.qam_map.specs.Cells.{cell_of};
ghost use Rattle.track_ring.specs.Ring.{Keeps, symbol_of};

use mode_set::Carriers;
use qam_map::Cell;
use std::alloc::{AllocError, Global};
use std::marker::{Model, PhantomData};

// Puts the cells of a symbol into a row.
fn copy_cells(cells: &[Cell], row: &mut [Cell])
    requires { length row.old ≡ length cells.now }
    ensures long { length row.new ≡ length row.old }
    ensures is { row.new ≡ cells.now }
{
    row.copy_from_slice(cells);
}

// Puts the weights of a symbol into a row.
fn copy_weights(weights: &[u8], row: &mut [u8])
    requires { length row.old ≡ length weights.now }
    ensures long { length row.new ≡ length row.old }
    ensures is { row.new ≡ weights.now }
{
    row.copy_from_slice(weights);
}

/// The cells of all carriers and their weights in the last eight symbols.
///
/// It stands for the symbols that it has had. No call but `new` takes memory.
#[derive(Drop)]
pub struct SymbolRing<M: Carriers> {
    // Symbol t has row t modulo 8.
    cells: Vec<Cell>,
    weights: Vec<u8>,
    count: u64,
    of: PhantomData<M>,
}

impl<M: Carriers> Model for SymbolRing<M> {
    ghost use Rattle.track_ring.specs.Ring.{RingState, HasRows};

    ghost Value = { RingState };

    ghost view = { λ r. record { count = r.count; cells = r.cells.items; weights = r.weights.items } };

    ghost invariant = { λ r. HasRows M.K r.cells.items r.weights.items r.count };
}

impl<M: Carriers> SymbolRing<M> {
    /// A ring that has had no symbol. It takes all its memory; the only error is want of it.
    pub fn new(alloc: Global) -> Result<Self, AllocError>
        ensures count { IfOk result (λ r. r.count ≡ 0) }
        ensures keeps { IfOk result (λ r. Keeps M.K r []) }
    {
        let cells = vec![in alloc; Cell { re: 0, im: 0 }; 8 * M::K as usize]?;
        let weights = vec![in alloc; 0u8; 8 * M::K as usize]?;
        Ok(SymbolRing {
            cells,
            weights,
            count: 0,
            of: PhantomData,
        })
    }

    /// Takes the next symbol by the cells of all its carriers and their weights. It has had fewer than 2^32 symbols.
    pub fn push(&mut self, cells: &[Cell], weights: &[u8])
        requires cells { length cells.now ≡ M.K }
        requires weights { length weights.now ≡ M.K }
        requires few { self.old.count < 2 ^ 32 }
        ensures count { self.new.count ≡ self.old.count + 1 }
        ensures keeps { (symbols : List Symbol) → Keeps M.K self.old symbols
            → Keeps M.K self.new (symbols ++ record { cells = cells.now; weights = weights.now } ∷ []) }
    {
        let carriers = M::K as usize;
        let from = (self.count % 8) as usize * carriers;
        copy_cells(cells, &mut self.cells[from..from + carriers]);
        copy_weights(weights, &mut self.weights[from..from + carriers]);
        self.count += 1;
    }

    /// The cells of symbol `t`, which is one of the last eight.
    pub fn cells(&self, t: u64) -> &[Cell]
        requires there { t < self.now.count }
        requires late { self.now.count ≤ t + 8 }
        ensures long { length result.now ≡ M.K }
        ensures is { (symbols : List Symbol) (k : ℕ) → Keeps M.K self.now symbols → k < M.K → cell_of result.now k
            ≡ cell_of (symbol_of symbols t).cells k }
    {
        let carriers = M::K as usize;
        let from = (t % 8) as usize * carriers;
        &self.cells[from..from + carriers]
    }

    /// The weights of symbol `t`, which is one of the last eight.
    pub fn weights(&self, t: u64) -> &[u8]
        requires there { t < self.now.count }
        requires late { self.now.count ≤ t + 8 }
        ensures long { length result.now ≡ M.K }
        ensures is { (symbols : List Symbol) (k : ℕ) → Keeps M.K self.now symbols → k < M.K → slice_index result.now k
            ≡ slice_index (symbol_of symbols t).weights k }
    {
        let carriers = M::K as usize;
        let from = (t % 8) as usize * carriers;
        &self.weights[from..from + carriers]
    }
}
