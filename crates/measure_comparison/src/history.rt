// The cells of the last four symbols.
ghost use Rattle.std.specs.Prelude.{◌≡◌, ◌%◌, ◌<◌, IfOk, length, slice_set, slice_index_or};
ghost use Rattle.measure_comparison.specs.Seen.{SymbolState};

use qam_map::Cell;
use std::alloc::{AllocError, Global};
use std::marker::Model;

/// The cells of a symbol and their weights.
#[derive(Drop)]
pub struct KeptSymbol {
    cells: Vec<Cell>,
    weights: Vec<u8>,
}

impl Model for KeptSymbol {
    ghost use Rattle.measure_comparison.specs.Seen.{SymbolState};

    ghost Value = { SymbolState };

    ghost view = { λ k. record { cells = k.cells.items; weights = k.weights.items } };
}

impl KeptSymbol {
    /// Space for a symbol of `carriers` carriers.
    pub(crate) fn new(alloc: Global, carriers: usize) -> Result<Self, AllocError>
        ensures cells { IfOk result (λ k. length k.cells ≡ carriers) }
        ensures weights { IfOk result (λ k. length k.weights ≡ carriers) }
    {
        Ok(KeptSymbol {
            cells: vec![in alloc; Cell { re: 0, im: 0 }; carriers]?,
            weights: vec![in alloc; 0u8; carriers]?,
        })
    }

    /// Keeps another symbol in its place.
    pub(crate) fn put(&mut self, cells: &[Cell], weights: &[u8])
        requires cells { length cells.now ≡ length self.old.cells }
        requires weights { length weights.now ≡ length self.old.weights }
        ensures put { self.new ≡ record { cells = cells.now; weights = weights.now } }
    {
        self.cells.copy_from_slice(cells);
        self.weights.copy_from_slice(weights);
    }

    pub(crate) fn cells(&self) -> &[Cell]
        ensures cells { result.now ≡ self.now.cells }
    {
        &self.cells
    }

    pub(crate) fn weights(&self) -> &[u8]
        ensures weights { result.now ≡ self.now.weights }
    {
        &self.weights
    }
}
