// From bytes that were cut anywhere to the cells of symbols and their weights.
ghost use Rattle.std.specs.Prelude.{◌≡◌, ℕ, ◌+◌, ◌*◌, ◌≢◌, ◌<◌, ◌≤◌, ◌++◌, ◌↔◌, [], ◌-◌, min, take, length};
ghost use Rattle.std.specs.Prelude.{slice_index, IfOk, IsTrue};
ghost use Rattle.frame_build.specs.Symbol.{cells_from, weights_from};

use crate::read_cells::read_symbol;
use mode_set::Carriers;
use qam_map::Cell;
use std::alloc::{AllocError, Global};
use std::marker::{Model, PhantomData};

/// Takes bytes, cut anywhere, as the cells of symbol after symbol and their weights: five bytes a cell,
/// the weight last.
///
/// It is seen as the bytes of the current symbol that were taken so far.
#[derive(Drop)]
pub struct SymbolIn<M: Carriers> {
    // The bytes of the current symbol, of which the first `filled` were taken, and its cells and their
    // weights once it is whole.
    bytes: Vec<u8>,
    filled: usize,
    cells: Vec<Cell>,
    weights: Vec<u8>,
    of: PhantomData<M>,
}

impl<M: Carriers> Model for SymbolIn<M> {
    ghost use Rattle.std.specs.Prelude.{List, ℕ, take};
    ghost use Rattle.frame_build.specs.State.{IsTaking};

    ghost Value = { List ℕ };

    ghost view = { λ i. take i.filled i.bytes.items };

    ghost invariant = { λ i. IsTaking M.K i.filled i.bytes.items i.cells.items i.weights.items };
}

impl<M: Carriers> SymbolIn<M> {
    /// No byte was taken yet. It takes all its memory.
    pub fn new(alloc: Global) -> Result<Self, AllocError>
        ensures { IfOk result (λ symbol. symbol ≡ []) }
    {
        let bytes = vec![in alloc; 0u8; 5 * M::K as usize]?;
        let cells = vec![in alloc; Cell { re: 0, im: 0 }; M::K as usize]?;
        let weights = vec![in alloc; 0u8; M::K as usize]?;
        Ok(SymbolIn {
            bytes,
            filled: 0,
            cells,
            weights,
            of: PhantomData,
        })
    }

    /// How many bytes of the current symbol were taken so far.
    pub fn waiting(&self) -> u32
        ensures is { result ≡ length self.now }
        ensures most { result ≤ 5 * M.K }
    {
        self.filled as u32
    }

    /// Whether a whole symbol waits.
    pub fn whole(&self) -> bool
        ensures { IsTrue result ↔ (length self.now ≡ 5 * M.K) }
    {
        self.filled == self.bytes.len()
    }

    /// Takes bytes from the front of the piece, as many as it has or the current symbol wants, and
    /// answers how many.
    pub fn take(&mut self, piece: &[u8]) -> usize
        requires { length self.old ≢ 5 * M.K }
        ensures count { result ≡ min (length piece.now) (5 * M.K - length self.old) }
        ensures taken { self.new ≡ self.old ++ take result piece.now }
    {
        let missing = self.bytes.len() - self.filled;
        let count = piece.len().min(missing);
        let end = self.filled + count;
        self.bytes[self.filled..end].copy_from_slice(&piece[..count]);
        self.filled = end;
        if count == missing {
            read_symbol(&self.bytes, &mut self.cells, &mut self.weights);
        }
        count
    }

    /// The cells of the whole symbol that waits.
    pub fn cells(&self) -> &[Cell]
        requires { length self.now ≡ 5 * M.K }
        ensures cells { result.now ≡ cells_from self.now M.K }
        ensures count { length result.now ≡ M.K }
    {
        &self.cells
    }

    /// The weights of these cells, each at most 15: a byte above it counts as 15.
    pub fn weights(&self) -> &[u8]
        requires { length self.now ≡ 5 * M.K }
        ensures weights { result.now ≡ weights_from self.now M.K }
        ensures count { length result.now ≡ M.K }
        ensures small { (k : ℕ) → k < M.K → slice_index result.now k ≤ 15 }
    {
        &self.weights
    }

    /// Passes on to the following symbol, of which no byte was taken yet.
    pub fn next(&mut self)
        requires { length self.old ≡ 5 * M.K }
        ensures { self.new ≡ [] }
    {
        self.filled = 0;
    }
}
