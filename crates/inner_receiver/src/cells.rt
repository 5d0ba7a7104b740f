// From bytes in pieces of any length to the cost pairs of symbols.
ghost use Rattle.std.specs.Prelude.{◌≡◌, ◌+◌, ◌-◌, ◌*◌, ◌<◌, ◌≤◌, ◌^◌, [], ℕ, List, true, false, cond, min, length};
ghost use Rattle.std.specs.Prelude.{IfOk, if◌then◌else◌, None, Some};
ghost use Rattle.mode_set.specs.StreamTable.{carriers};
ghost use Rattle.mode_set.specs.declared.modes.Stream.TheVariants.{Lp};
ghost use Rattle.symbol_parameters.specs.Spans.{exists_in};
ghost use Rattle.inner_chain.specs.CostTables.{AreWeights};
ghost use Rattle.inner_receiver.specs.Rooms.{most_pairs};
ghost use Rattle.inner_receiver.specs.Seen.{pairs_of};
ghost use Rattle.inner_receiver.specs.Fed.{HasHad, Fed};

use crate::pairs::{put_pairs, room_for_pairs};
use conv_code::CostPair;
use frame_build::SymbolIn;
use inner_chain::InnerRx;
use mode_set::{Carriers, Settings, Stream};
use qam_map::Cell;
use std::alloc::{AllocError, Global};
use std::marker::Model;

/// Takes the bytes of cells in pieces of any length, and gives the cells of each whole symbol and the cost pairs of
/// each stream in it.
///
/// Only `new` allocates memory; no call can fail after it.
#[derive(Drop)]
pub struct SymbolCosts<M: Carriers> {
    settings: Settings,
    // The bytes of the unfinished symbol, or of the one just completed.
    input: SymbolIn<M>,
    whole: bool,
    inner: InnerRx<M>,
    // Space for the most cost pairs of each stream in a symbol, and how many at the start are those of the last whole
    // one.
    hp: Vec<CostPair>,
    lp: Vec<CostPair>,
    hp_used: usize,
    lp_used: usize,
    taken: u64,
}

impl<M: Carriers> Model for SymbolCosts<M> {
    ghost use Rattle.std.specs.Prelude.{cond, [], take};
    ghost use Rattle.frame_build.specs.Symbol.{cells_from, weights_from};
    ghost use Rattle.inner_receiver.specs.Seen.{CostsState};
    ghost use Rattle.inner_receiver.specs.Kept.{AreKept};

    ghost Value = { CostsState };

    ghost view = { λ x. record {
      settings = x.settings;
      rest = cond x.whole [] x.input;
      taken = x.taken;
      whole = x.whole;
      cells = cells_from x.input M.K;
      weights = weights_from x.input M.K;
      hp = take x.hp_used x.hp.items;
      lp = take x.lp_used x.lp.items;
    } };

    ghost invariant = { λ x. AreKept M.MODE M.K x.settings x.inner x.input x.whole x.hp.items x.lp.items x.hp_used
        x.lp_used };
}

/// Resets after a completed symbol.
fn pass_on<M: Carriers>(whole: &mut bool, input: &mut SymbolIn<M>)
    requires ended { whole.old ≡ true → length input.old ≡ 5 * M.K }
    ensures going { whole.new ≡ false }
    ensures input { input.new ≡ cond whole.old [] input.old }
{
    if *whole {
        input.next();
        *whole = false;
    }
}

impl<M: Carriers> SymbolCosts<M> {
    /// It has received no byte. It allocates all its memory, enough for symbols of any parameters of the mode; the only
    /// error is lack of memory.
    pub fn new(alloc: Global, settings: &Settings) -> Result<Self, AllocError>
        requires mode { settings.now.mode ≡ M.MODE }
        ensures settings { IfOk result (λ x. x.settings ≡ settings.now) }
        ensures taken { IfOk result (λ x. x.taken ≡ 0) }
        ensures rest { IfOk result (λ x. x.rest ≡ []) }
        ensures had { IfOk result (λ x. HasHad x []) }
    {
        Ok(SymbolCosts {
            settings: *settings,
            input: SymbolIn::new(alloc)?,
            whole: false,
            inner: InnerRx::new(alloc, settings)?,
            hp: room_for_pairs(alloc, settings, Stream::Hp)?,
            lp: room_for_pairs(alloc, settings, Stream::Lp)?,
            hp_used: 0,
            lp_used: 0,
            taken: 0,
        })
    }

    /// Takes bytes from the start of the piece, all of them or as many as the current symbol needs, and returns their
    /// number. If they complete the symbol, its cells, their weights and cost pairs are available until the next call.
    ///
    /// Fewer than 2^32 symbols were taken so far.
    pub fn feed(&mut self, piece: &[u8]) -> usize
        requires few { self.old.taken < 2 ^ 32 }
        ensures settings { self.new.settings ≡ self.old.settings }
        ensures count { result ≡ min (length piece.now) (5 * M.K - length self.old.rest) }
        ensures within { self.new.whole ≡ false → self.new.taken ≡ self.old.taken }
        ensures ended { self.new.whole ≡ true → self.new.taken ≡ self.old.taken + 1 }
        ensures fed { (bytes : List ℕ) → HasHad self.old bytes → Fed self.new bytes piece.now result }
    {
        reception::laws::symbols();
        reception::laws::costs();
        pass_on(&mut self.whole, &mut self.input);
        let count = self.input.take(piece);
        if !self.input.whole() {
            return count;
        }
        self.whole = true;
        let cells = self.input.cells();
        let weights = self.input.weights();
        let (hp_used, lp_used) = put_pairs(
            &self.settings,
            self.taken,
            &mut self.inner,
            cells,
            weights,
            &mut self.hp,
            &mut self.lp,
        );
        self.hp_used = hp_used;
        self.lp_used = lp_used;
        self.taken += 1;
        count
    }

    /// Whether the last bytes completed a symbol.
    pub fn whole(&self) -> bool
        ensures whole { result ≡ self.now.whole }
    {
        self.whole
    }

    /// The cells of the completed symbol.
    pub fn cells(&self) -> &[Cell]
        requires whole { self.now.whole ≡ true }
        ensures cells { result.now ≡ self.now.cells }
        ensures count { length result.now ≡ carriers self.now.settings.mode }
    {
        self.input.cells()
    }

    /// The weights of these cells, each at most 15.
    pub fn weights(&self) -> &[u8]
        requires whole { self.now.whole ≡ true }
        ensures weights { result.now ≡ self.now.weights }
        ensures are { AreWeights self.now.settings.mode result.now }
    {
        self.input.weights()
    }

    /// The cost pairs of a stream in the completed symbol, one for each step; none if the symbol does not have the
    /// stream.
    pub fn pairs(&self, stream: Stream) -> &[CostPair]
        ensures pairs { result.now ≡ pairs_of self.now stream }
        ensures few { length result.now ≤ most_pairs self.now.settings stream }
        ensures largest { length result.now ≤ 31752 }
    {
        match stream {
            Stream::Hp => &self.hp[..self.hp_used],
            Stream::Lp => &self.lp[..self.lp_used],
        }
    }

    /// The settings.
    pub fn settings(&self) -> &Settings
        ensures settings { result.now ≡ self.now.settings }
    {
        &self.settings
    }

    /// The number of whole symbols taken.
    pub fn symbols(&self) -> u64
        ensures number { result ≡ self.now.taken }
    {
        self.taken
    }

    /// The number of bytes of the unfinished symbol.
    pub fn waiting(&self) -> u32
        ensures number { result ≡ length self.now.rest }
    {
        if self.whole { 0 } else { self.input.waiting() }
    }

    /// A value for LP, if LP exists in the transmission.
    pub fn where_lp<T: Copy>(&self, of_lp: T) -> Option<T>
        ensures { result ≡ (if exists_in self.now.settings Lp then Some of_lp else None) }
    {
        symbol_parameters::laws::settings();
        if self.settings.has_lp() {
            Some(of_lp)
        } else {
            None
        }
    }
}
