// The tuner.
ghost use Rattle.std.specs.Prelude.{◌≡◌, ◌+◌, ◌∷◌, ◌++◌, ◌<◌, ◌≤◌, ◌^◌, [], ℕ, List, false, IfOk, IfSome, IfNone, None};
ghost use Rattle.std.specs.Prelude.{length, take, is_some};
ghost use Rattle.tps_word.specs.Vote.{tps_cells_of, vote};
ghost use Rattle.tps_word.specs.declared.word.TpsWord.{TpsWord as Word};
ghost use Rattle.tune_in.specs.Places.{Announces};
ghost use Rattle.circular_buffer.specs.Buffer.{buffer, keep_last};
ghost use Rattle.qam_map.specs.declared.cell.Cell.{Cell as AnyCell};
ghost use Rattle.tps_word.specs.Tps.{IsValid};
ghost use Rattle.tune_in.specs.Tuning.{Keeps, StandsFor, Answers};

use crate::Found;
use crate::frame::announced_by;
use circular_buffer::HeapCircularBuffer;
use mode_set::Carriers;
use qam_map::Cell;
use std::alloc::{AllocError, Global};
use std::marker::{Model, PhantomData};
use tps_word::{TpsWord, take_tps_cells, vote};

// The votes of a frame's 68 symbols.
const VOTES: usize = 67;

// The 67 votes, oldest first.
fn all_votes(votes: &HeapCircularBuffer<bool>) -> [bool; 67]
    requires { length votes.now.items ≡ 67 }
    ensures { result ≡ votes.now.items }
{
    let mut all = [false; VOTES];
    let (older, newer) = votes.as_slices();
    all[..older.len()].copy_from_slice(older);
    all[older.len()..].copy_from_slice(newer);
    all
}

// Keeps the vote of a symbol and the one before it, if there is one.
fn keep_vote(
    votes: &mut HeapCircularBuffer<bool>,
    before: &[Cell; 68],
    now: &[Cell; 68],
    count: usize,
    symbols: u64,
)
    requires few { count ≤ 68 }
    ensures first { symbols ≡ 0 → votes.new ≡ votes.old }
    ensures later { 0 < symbols → votes.new ≡ buffer (keep_last votes.old.capacity
        (votes.old.items ++ vote (take count before.now) (take count now.now) ∷ [])) votes.old.capacity }
{
    if symbols == 0 {
        return;
    }
    votes.push_back(vote(&before[..count], &now[..count]));
}

/// Searches for a frame of a transmission in symbols that begin anywhere: 68 symbols whose TPS cells hold a TPS word of
/// the mode (EN 300 744, 4.6).
///
/// Its state matches the symbols received. A symbol costs a vote, and from the 68th on a copy of all 67 votes and a
/// check of 16 of them; more only if these are close to a sync word. Only `new` allocates memory.
#[derive(Drop)]
pub struct Tuner<M: Carriers> {
    // The TPS cells of the last symbol.
    before: [Cell; 68],
    // The last 67 votes, each of a symbol and the one before it.
    votes: HeapCircularBuffer<bool>,
    symbols: u64,
    found: bool,
    of: PhantomData<M>,
}

impl<M: Carriers> Model for Tuner<M> {
    ghost use Rattle.tune_in.specs.Tuning.{TunerState, IsTuning};

    ghost Value = { TunerState };

    ghost view = { λ t. record { symbols = t.symbols; found = t.found; before = t.before; votes = t.votes.items } };

    ghost invariant = { λ t. IsTuning t.votes.items t.votes.capacity t.symbols };
}

impl<M: Carriers> Tuner<M> {
    /// A tuner that has received no symbol. It allocates all its memory; the only error is lack of memory.
    pub fn new(alloc: Global) -> Result<Self, AllocError>
        ensures symbols { IfOk result (λ t. t.symbols ≡ 0) }
        ensures searching { IfOk result (λ t. t.found ≡ false) }
        ensures stands { IfOk result (λ t. StandsFor M.MODE t []) }
    {
        Ok(Tuner {
            before: [Cell { re: 0, im: 0 }; 68],
            votes: HeapCircularBuffer::with_capacity(alloc, VOTES)?,
            symbols: 0,
            found: false,
            of: PhantomData,
        })
    }

    // Takes the TPS cells of the next symbol, and its vote.
    fn note(&mut self, cells: &[Cell])
        requires cells { length cells.now ≡ M.K }
        requires few { self.old.symbols < 2 ^ 32 }
        ensures symbols { self.new.symbols ≡ self.old.symbols + 1 }
        ensures found { self.new.found ≡ self.old.found }
        ensures keeps { (shown : ℕ → List AnyCell) (n : ℕ) → shown n ≡ tps_cells_of M.MODE cells.now
            → Keeps M.MODE self.old shown n → Keeps M.MODE self.new shown (n + 1) }
    {
        let mut now = [Cell { re: 0, im: 0 }; 68];
        let count = take_tps_cells(M::MODE, cells, &mut now);
        keep_vote(&mut self.votes, &self.before, &now, count, self.symbols);
        self.before = now;
        self.symbols += 1;
    }

    // The fields that the last 68 symbols announce, if they are a frame.
    fn announced(&self) -> Option<TpsWord>
        ensures some { IfSome result (λ w. (length self.now.votes ≡ 67) × Announces M.MODE self.now.votes w) }
        ensures none { result ≡ None → length self.now.votes ≡ 67 → (w : Word) → Announces M.MODE self.now.votes w → ⊥ }
    {
        if self.votes.len() != VOTES {
            return None;
        }
        announced_by(M::MODE, &all_votes(&self.votes))
    }

    /// Takes the next symbol as the cells of all its carriers. It returns the least place in the symbols received, with
    /// the corrected TPS word, exactly if this symbol is the last of that frame.
    ///
    /// Nothing was found before (see `found`), and fewer than 2^32 symbols were received (see `symbols`). The word
    /// returned is of the mode, and its fields are valid.
    pub fn symbol(&mut self, cells: &[Cell]) -> Option<Found>
        requires cells { length cells.now ≡ M.K }
        requires searching { self.old.found ≡ false }
        requires few { self.old.symbols < 2 ^ 32 }
        ensures symbols { self.new.symbols ≡ self.old.symbols + 1 }
        ensures found { self.new.found ≡ is_some result }
        ensures answer { (symbols : List (List AnyCell)) → StandsFor M.MODE self.old symbols
            → Answers M.MODE (symbols ++ cells.now ∷ []) result }
        ensures stands { (symbols : List (List AnyCell)) → StandsFor M.MODE self.old symbols
            → IfNone result (StandsFor M.MODE self.new (symbols ++ cells.now ∷ [])) }
        ensures place { IfSome result (λ f. f.place < 2 ^ 32) }
        ensures word { IfSome result (λ f. IsValid f.word) }
        ensures mode { IfSome result (λ f. f.word.mode ≡ M.MODE) }
    {
        self.note(cells);
        let word = self.announced()?;
        self.found = true;
        Some(Found {
            place: self.symbols - 68,
            word,
        })
    }

    /// The number of symbols received.
    pub fn symbols(&self) -> u64
        ensures { result ≡ self.now.symbols }
    {
        self.symbols
    }

    /// Whether a place was found.
    pub fn found(&self) -> bool
        ensures { result ≡ self.now.found }
    {
        self.found
    }
}
