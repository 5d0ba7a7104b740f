// The search for a place in the symbols of a file.
ghost use Rattle.std.specs.Prelude.{◌≡◌, ◌≤◌, ◌<◌, ◌^◌, ◌++◌, ℕ, List, [], length, IfSome, IfOk};
ghost use Rattle.mode_set.specs.declared.settings.Settings.{Settings};
ghost use Rattle.reception.specs.Cells.{symbol_length, symbols, tail};
ghost use Rattle.tps_word.specs.Tps.{IsValid};
ghost use Rattle.tune_search.specs.Searching.{IsSearching, Searched};

use frame_build::SymbolIn;
use mode_set::Carriers;
use std::alloc::{AllocError, Global};
use tune_in::{Found, Tuner};

/// A search for a place: a tuner, with room for a symbol.
#[derive(Drop)]
pub struct Search<M: Carriers> {
    /// The tuner.
    pub tuner: Tuner<M>,
    /// Room for the cells of a symbol.
    pub symbol: SymbolIn<M>,
}

impl<M: Carriers> Search<M> {
    /// A search that has taken no byte. It takes all its memory; the only error is want of it.
    pub fn new(alloc: Global) -> Result<Self, AllocError>
        ensures { IfOk result (λ x. (s : Settings) → s.mode ≡ M.MODE → IsSearching s x.tuner x.symbol []) }
    {
        let symbol = SymbolIn::<M>::new(alloc)?;
        // Constructed last: early returns would have to drop it, which is slow to prove.
        let tuner = Tuner::<M>::new(alloc)?;
        Ok(Search { tuner, symbol })
    }

    /// Takes the next symbol, or the part of it that ends the cells. Returns the least place exactly if this
    /// symbol is the last of its frame.
    pub fn take(&mut self, piece: &[u8]) -> Option<Found>
        requires going { (s : Settings) × (bytes : List ℕ) × (s.mode ≡ M.MODE)
            × IsSearching s self.old.tuner self.old.symbol bytes × (symbols s bytes < 2 ^ 32) }
        ensures takes { (s : Settings) (bytes : List ℕ) → s.mode ≡ M.MODE
            → IsSearching s self.old.tuner self.old.symbol bytes → tail s bytes ≡ 0
            → length piece.now ≤ symbol_length s
            → Searched s (IsSearching s self.new.tuner self.new.symbol) (bytes ++ piece.now) result }
        ensures place { IfSome result (λ found. found.place < 2 ^ 32) }
        ensures word { IfSome result (λ found. IsValid found.word) }
    {
        reception::laws::symbols();
        tune_in::more_bytes();
        tune_in::symbols_of_bytes();
        if piece.len() != 5 * M::K as usize {
            return None;
        }
        self.symbol.take(piece);
        let found = self.tuner.symbol(self.symbol.cells());
        self.symbol.next();
        found
    }
}
