// The receiver with rescue.
ghost use Rattle.std.specs.Prelude.{◌≡◌, ◌+◌, ◌-◌, ◌*◌, ◌<◌, ◌≤◌, ◌^◌, ◌↔◌, [], ℕ, List, true, false, min, length};
ghost use Rattle.std.specs.Prelude.{IfOk, IfSome, IsNone, Some, slice_get};
ghost use Rattle.reception.specs.Cells.{symbols};
ghost use Rattle.reception.specs.Streams.{so_far, at_end, Moment};
ghost use Rattle.rescue.specs.Streams.{Rescue as Rescued, nothing};
ghost use Rattle.rescue.specs.Feeds.{Feeds, Finishes};
ghost use Rattle.rescue.specs.Lines.{counts_of};
ghost use Rattle.rescue.specs.ReportText.{closing_lines};
ghost use Rattle.rescue.specs.Standing.{StandsFor};

use crate::stream::StreamRx;
use crate::{Counts, RxOut};
use inner_receiver::{SymbolCosts, take_symbol};
use mode_set::{Carriers, Settings, Stream};
use rx_report::Line;
use std::alloc::{AllocError, Global};
use std::marker::Model;
use std::thread::Threads;
use word_workers::OpenGate;

/// Receives the cells of a transmission, as bytes in pieces of any length, and gives the packets of its streams as far
/// as they are decided. In each word without a nearest codeword the eight least reliable bytes are erased.
///
/// Its state matches the bytes received and the output given. Only `new` allocates memory; no call can fail after it.
#[derive(Drop)]
pub struct Rescue<M: Carriers> {
    cells: SymbolCosts<M>,
    hp: StreamRx,
    lp: StreamRx,
    ended: bool,
}

impl<M: Carriers> Model for Rescue<M> {
    ghost use Rattle.rescue.specs.Seen.{RescueState};
    ghost use Rattle.rescue.specs.Kept.{IsRescuing, seen};

    ghost Value = { RescueState };

    ghost view = { λ x. record {
      settings = x.cells.settings;
      rest = x.cells.rest;
      taken = x.cells.taken;
      hp = seen x.hp;
      lp = seen x.lp;
      ended = x.ended;
    } };

    ghost invariant = { λ x. IsRescuing x.cells.taken x.hp x.lp x.ended };
}

impl<M: Carriers> Rescue<M> {
    /// A receiver that has received no byte. It allocates all its memory, enough for any parameters of the mode; the
    /// only error is lack of memory.
    pub fn new(alloc: Global, settings: &Settings) -> Result<Self, AllocError>
        requires mode { settings.now.mode ≡ M.MODE }
        ensures settings { IfOk result (λ x. x.settings ≡ settings.now) }
        ensures going { IfOk result (λ x. x.ended ≡ false) }
        ensures taken { IfOk result (λ x. x.taken ≡ 0) }
        ensures stands { IfOk result (λ x. StandsFor so_far x [] nothing) }
    {
        reception::laws::costs();
        outer_chain::laws::bits();
        rescue_words::laws::receiving();
        Ok(Rescue {
            cells: SymbolCosts::new(alloc, settings)?,
            hp: StreamRx::new(alloc, settings.start)?,
            lp: StreamRx::new(alloc, settings.start)?,
            ended: false,
        })
    }

    /// Takes bytes from the start of the piece, all of them or as many as the current symbol needs, and returns their
    /// number. `out` then has exactly the output that they make definite.
    ///
    /// Fewer than 2^32 symbols were received so far, and the receiver has not ended.
    pub fn feed<R: Threads + Sync>(&mut self, rt: &R, piece: &[u8], out: &mut RxOut) -> usize
        requires going { self.old.ended ≡ false }
        requires few { self.old.taken < 2 ^ 32 }
        ensures settings { self.new.settings ≡ self.old.settings }
        ensures going { self.new.ended ≡ false }
        ensures count { result ≡ min (length piece.now) (5 * M.K - length self.old.rest) }
        ensures taken { self.new.taken ≤ self.old.taken + 1 }
        ensures fed { (bytes : List ℕ) (r : Rescued) → StandsFor so_far self.old bytes r
            → Feeds (StandsFor so_far self.new) self.old.settings bytes piece.now r result out.new }
    {
        reception::laws::symbols();
        reception::laws::costs();
        reception::laws::events();
        outer_chain::laws::bits();
        rescue_words::laws::receiving();
        out.clear();
        let count = self.cells.feed(piece);
        if !self.cells.whole() {
            return count;
        }
        let hp_pairs = self.cells.pairs(Stream::Hp);
        let lp_pairs = self.cells.pairs(Stream::Lp);
        take_symbol(
            rt,
            &OpenGate,
            hp_pairs,
            lp_pairs,
            &mut self.hp.branch,
            &mut self.lp.branch,
            &mut out.events,
        );
        self.hp.deliver(hp_pairs, &mut out.hp);
        self.lp.deliver(lp_pairs, &mut out.lp);
        count
    }

    /// Ends the reception: `out` then has the rest of the packets.
    ///
    /// The receiver has not ended.
    pub fn finish(&mut self, out: &mut RxOut)
        requires going { self.old.ended ≡ false }
        ensures settings { self.new.settings ≡ self.old.settings }
        ensures ended { self.new.ended ≡ true }
        ensures taken { self.new.taken ≡ self.old.taken }
        ensures finished { (bytes : List ℕ) (r : Rescued) → StandsFor so_far self.old bytes r
            → Finishes (StandsFor at_end self.new) self.old.settings bytes r out.new }
    {
        outer_chain::laws::bits();
        rescue_words::laws::receiving();
        out.clear();
        self.hp.finish(&mut out.hp);
        self.lp.finish(&mut out.lp);
        self.ended = true;
    }

    /// Whether `finish` was called.
    pub fn ended(&self) -> bool
        ensures { result ≡ self.now.ended }
    {
        self.ended
    }

    /// The number of whole symbols received so far.
    pub fn symbols(&self) -> u64
        ensures number { result ≡ self.now.taken }
        ensures symbols { (moment : Moment) (bytes : List ℕ) (r : Rescued) → StandsFor moment self.now bytes r → result
            ≡ symbols self.now.settings bytes }
    {
        self.cells.symbols()
    }
    /// The counts so far, or at the end.
    pub fn counts(&self) -> Counts
        ensures { (moment : Moment) (bytes : List ℕ) (r : Rescued) → StandsFor moment self.now bytes r → result
            ≡ counts_of self.now.settings bytes r }
    {
        reception::laws::symbols();
        Counts {
            symbols: self.cells.symbols(),
            tail: self.cells.waiting(),
            hp: self.hp.counts(),
            lp: self.cells.where_lp(self.lp.counts()),
        }
    }

    /// The closing lines of the report in order, numbered from 0; `None` exactly past the last.
    ///
    /// The receiver has ended.
    pub fn line(&self, number: u8) -> Option<Line>
        requires ended { self.now.ended ≡ true }
        ensures line { (bytes : List ℕ) (r : Rescued) → StandsFor at_end self.now bytes r
            → IfSome result (λ l. slice_get (closing_lines (counts_of self.now.settings bytes r)) number
            ≡ Some l.bytes) }
        ensures past { (bytes : List ℕ) (r : Rescued) → StandsFor at_end self.now bytes r
            → IsNone result ↔ (length (closing_lines (counts_of self.now.settings bytes r)) ≤ number) }
    {
        self.counts().line(number)
    }
}
