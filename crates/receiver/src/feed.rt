// The receiver.
ghost use Rattle.std.specs.Prelude.{◌≡◌, ◌+◌, ◌-◌, ◌*◌, ◌<◌, ◌≤◌, ◌^◌, [], ℕ, List, IsTrue, true, false, min, take};
ghost use Rattle.std.specs.Prelude.{length, IfOk};
ghost use Rattle.mode_set.specs.declared.modes.Stream.TheVariants.{Hp, Lp};
ghost use Rattle.symbol_parameters.specs.Spans.{exists_in};
ghost use Rattle.reception.specs.Streams.{so_far, at_end, start_of, Moment, Reception};
ghost use Rattle.reception.specs.Lines.{counts_of};
ghost use Rattle.reception.specs.Laws.{nothing};
ghost use Rattle.reception.specs.Cells.{symbols};
ghost use Rattle.reception.specs.Costs.{costs};
ghost use Rattle.reception.specs.Feeds.{Feeds, Finishes};
ghost use Rattle.receiver.specs.Seen.{stream_of};
ghost use Rattle.receiver.specs.Standing.{StandsFor, HasBits};

use crate::RxOut;
use crate::stream::StreamRx;
use acs_lanes::LaneAcs;
use inner_decoder::Branch;
use inner_receiver::{FrameReader, SymbolCosts, take_symbol};
use mode_set::{Carriers, Settings, Stream};
use rx_report::Counts;
use std::alloc::{AllocError, Global};
use std::marker::Model;
use std::thread::Threads;
use survivor_ring::RingSurvivors;
use word_workers::{Gate, OpenGate};

/// Receives the cells of a transmission, as bytes in pieces of any length, and gives the packets of its streams as far
/// as they are decided.
///
/// Its state matches the bytes received and the output given. Only `new` allocates memory; no call can fail after it.
#[derive(Drop)]
pub struct Receiver<M: Carriers> {
    cells: SymbolCosts<M>,
    hp: StreamRx,
    lp: StreamRx,
    frames: FrameReader,
    ended: bool,
}

impl<M: Carriers> Model for Receiver<M> {
    ghost use Rattle.receiver.specs.Seen.{ReceiverState};
    ghost use Rattle.receiver.specs.Kept.{IsReceiving};

    ghost Value = { ReceiverState };

    ghost view = { λ x. record {
      settings = x.cells.settings;
      rest = x.cells.rest;
      taken = x.cells.taken;
      hp = record { branch = x.hp.branch; outer = x.hp.outer; counts = x.hp.counts };
      lp = record { branch = x.lp.branch; outer = x.lp.outer; counts = x.lp.counts };
      frames = x.frames;
      ended = x.ended;
    } };

    ghost invariant = { λ x. IsReceiving x.cells.taken x.hp x.lp x.frames x.ended };
}

impl<M: Carriers> Receiver<M> {
    /// A receiver that has received no byte. It allocates all its memory, enough for any parameters of the mode; the
    /// only error is lack of memory.
    pub fn new(alloc: Global, settings: &Settings) -> Result<Self, AllocError>
        requires mode { settings.now.mode ≡ M.MODE }
        ensures settings { IfOk result (λ x. x.settings ≡ settings.now) }
        ensures going { IfOk result (λ x. x.ended ≡ false) }
        ensures taken { IfOk result (λ x. x.taken ≡ 0) }
        ensures stands { IfOk result (λ x. StandsFor so_far x [] nothing) }
    {
        reception::laws::nothing();
        reception::laws::costs();
        Ok(Receiver {
            cells: SymbolCosts::new(alloc, settings)?,
            hp: StreamRx::new(alloc, settings.start)?,
            lp: StreamRx::new(alloc, settings.start)?,
            frames: FrameReader::new(),
            ended: false,
        })
    }

    /// Takes bytes from the start of the piece, all of them or as many as the current symbol needs, and returns their
    /// number. `out` then has exactly the output that they make definite.
    ///
    /// Fewer than 2^32 symbols were received so far, and the receiver has not ended.
    pub fn feed<R: Threads + Sync>(&mut self, rt: &R, piece: &[u8], out: &mut RxOut) -> usize
        requires going { self.old.ended ≡ false }
        requires few { self.old.taken < 2 ^ 32 }
        ensures settings { self.new.settings ≡ self.old.settings }
        ensures going { self.new.ended ≡ false }
        ensures count { result ≡ min (length piece.now) (5 * M.K - length self.old.rest) }
        ensures taken { self.new.taken ≤ self.old.taken + 1 }
        ensures fed { (bytes : List ℕ) (r : Reception) → StandsFor so_far self.old bytes r
            → Feeds (StandsFor so_far self.new) self.old.settings bytes piece.now r result out.new }
    {
        self.feed_gated(rt, &OpenGate, piece, out)
    }

    /// Does what `feed` does, for every gate: the workers that decode the outer words of a symbol, and the inner
    /// decoders of two streams, enter it.
    pub fn feed_gated<R: Threads + Sync, G: Gate>(
        &mut self,
        rt: &R,
        gate: &G,
        piece: &[u8],
        out: &mut RxOut,
    ) -> usize
        requires going { self.old.ended ≡ false }
        requires few { self.old.taken < 2 ^ 32 }
        ensures settings { self.new.settings ≡ self.old.settings }
        ensures going { self.new.ended ≡ false }
        ensures count { result ≡ min (length piece.now) (5 * M.K - length self.old.rest) }
        ensures taken { self.new.taken ≤ self.old.taken + 1 }
        ensures fed { (bytes : List ℕ) (r : Reception) → StandsFor so_far self.old bytes r
            → Feeds (StandsFor so_far self.new) self.old.settings bytes piece.now r result out.new }
    {
        reception::laws::symbols();
        reception::laws::costs();
        reception::laws::events();
        outer_chain::laws::bits();
        outer_chain::laws::receiving();
        out.clear();
        let count = self.cells.feed(piece);
        if !self.cells.whole() {
            return count;
        }
        let settings = self.cells.settings();
        self.frames.take(settings.mode, self.cells.cells());
        take_symbol(
            rt,
            gate,
            self.cells.pairs(Stream::Hp),
            self.cells.pairs(Stream::Lp),
            &mut self.hp.branch,
            &mut self.lp.branch,
            &mut out.events,
        );
        self.hp.deliver(rt, gate, settings.workers, &mut out.hp);
        self.lp.deliver(rt, gate, settings.workers, &mut out.lp);
        count
    }

    /// Ends the reception: `out` then has the rest of the packets.
    ///
    /// The receiver has not ended.
    pub fn finish<R: Threads + Sync>(&mut self, rt: &R, out: &mut RxOut)
        requires going { self.old.ended ≡ false }
        ensures settings { self.new.settings ≡ self.old.settings }
        ensures ended { self.new.ended ≡ true }
        ensures taken { self.new.taken ≡ self.old.taken }
        ensures finished { (bytes : List ℕ) (r : Reception) → StandsFor so_far self.old bytes r
            → Finishes (StandsFor at_end self.new) self.old.settings bytes r out.new }
    {
        outer_chain::laws::bits();
        outer_chain::laws::receiving();
        out.clear();
        let workers = self.cells.settings().workers;
        self.hp.finish(rt, workers, &mut out.hp);
        self.lp.finish(rt, workers, &mut out.lp);
        self.ended = true;
    }

    /// Whether `finish` was called.
    pub fn ended(&self) -> bool
        ensures { result ≡ self.now.ended }
    {
        self.ended
    }

    /// The number of whole symbols received so far.
    pub fn symbols(&self) -> u64
        ensures number { result ≡ self.now.taken }
        ensures symbols { (moment : Moment) (bytes : List ℕ) (r : Reception) → StandsFor moment self.now bytes r
            → result ≡ symbols self.now.settings bytes }
    {
        self.cells.symbols()
    }

    /// The counts so far, or at the end.
    pub fn counts(&self) -> Counts
        ensures { (moment : Moment) (bytes : List ℕ) (r : Reception) → StandsFor moment self.now bytes r → result
            ≡ counts_of self.now.settings bytes r }
    {
        reception::laws::symbols();
        Counts {
            symbols: self.cells.symbols(),
            tail: self.cells.waiting(),
            tps_read: self.frames.read,
            tps_bad: self.frames.bad,
            hp: self.hp.counts,
            lp: self.cells.where_lp(self.lp.counts),
        }
    }

    /// The inner decoder of a stream that exists in the transmission. It matches the costs of the whole symbols and the
    /// bits given for them, and after `finish` the bits at the end: then no bit is pending, and the one alive state is
    /// the last six bits of the path.
    pub fn branch(&self, stream: Stream) -> &Branch<LaneAcs, RingSurvivors<2048>>
        requires exists { IsTrue (exists_in self.now.settings stream) }
        ensures branch { result.now ≡ (stream_of self.now stream).branch }
        ensures loaded { (moment : Moment) (bytes : List ℕ) (r : Reception) → StandsFor moment self.now bytes r
            → result.now.loaded ≡ [] }
        ensures stands { (moment : Moment) (bytes : List ℕ) (r : Reception) → StandsFor moment self.now bytes r
            → HasBits moment result.now (start_of self.now.settings.start) (costs self.now.settings bytes stream) }
    {
        match stream {
            Stream::Hp => &self.hp.branch,
            Stream::Lp => &self.lp.branch,
        }
    }
}
