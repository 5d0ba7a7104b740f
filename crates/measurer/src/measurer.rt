// The measurer.
ghost use Rattle.std.specs.Prelude.{◌≡◌, ◌+◌, ◌-◌, ◌*◌, ◌<◌, ◌≤◌, ◌^◌, ◌++◌, [], ℕ, List, true, false, min, take};
ghost use Rattle.std.specs.Prelude.{length, IfOk};
ghost use Rattle.std.specs.List.{concat};
ghost use Rattle.reception.specs.Streams.{so_far, at_end};
ghost use Rattle.mode_set.specs.declared.settings.Settings.{Settings as AnySettings};
ghost use Rattle.measure_known_bits.specs.Passing.{IsSettled};
ghost use Rattle.reception.specs.Cells.{symbols};
ghost use Rattle.reception.specs.Streams.{Moment};
ghost use Rattle.measure_stream.specs.Reports.{AreFew};
ghost use Rattle.measurement.specs.Lines.{defined_by};
ghost use Rattle.measurer.specs.Sums.{nothing_of};
ghost use Rattle.measurer.specs.Standing.{MetersStand, FramesStand, StandsFor};
ghost use Rattle.measurer.specs.Steps.{AreKept, HasBegun, HasStood, IsDone, CountsOn, HasLines, HasCompared};
ghost use Rattle.measurer.specs.Steps.{IsCompared, IsLive, IsEnding, IsEnded, HasPlace, Adds};

use crate::measure_out::{MeasureOut, put_counts, put_super_frame};
use crate::meter::FrameMeter;
use inner_receiver::{FrameReader, SymbolCosts};
use mode_set::{Carriers, Settings};
use std::alloc::{AllocError, Global};
use std::marker::Model;
use std::thread::Threads;
use word_workers::{Gate, OpenGate};

/// The symbols of a super-frame.
const SYMBOLS: u64 = 272;

/// The symbols after a symbol whose decided bits it is compared with.
const LATER: u64 = 3;

/// Measures the cells of a transmission, as bytes that are cut anywhere, and gives the lines of each super-frame with
/// the symbol that defines them.
///
/// It stands for the bytes that it has had and for the lines that it gave. No call but `new` takes memory or is
/// refused.
#[derive(Drop)]
pub struct Measurer<M: Carriers> {
    cells: SymbolCosts<M>,
    meter: FrameMeter<M>,
    frames: FrameReader,
    ended: bool,
}

impl<M: Carriers> Model for Measurer<M> {
    ghost use Rattle.measurer.specs.Seen.{MeasurerState};
    ghost use Rattle.measurer.specs.Kept.{IsKept};

    ghost Value = { MeasurerState };

    ghost view = { λ x. record {
      settings = x.cells.settings;
      rest = x.cells.rest;
      taken = x.cells.taken;
      meter
          = x.meter;
      frames = x.frames;
      ended = x.ended;
    } };

    ghost invariant = { λ x. IsKept
        (record {
          settings = x.cells.settings;
          rest = x.cells.rest;
          taken = x.cells.taken;
          meter = x.meter;
          frames
              = x.frames;
          ended = x.ended;
        }) };
}

/// Gives the lines of the current super-frame, and passes on to the next one.
fn close_super_frame<M: Carriers>(
    cells: &SymbolCosts<M>,
    frames: &FrameReader,
    meter: &mut FrameMeter<M>,
    out: &mut MeasureOut,
)
    requires few { meter.old.current.number < 2 ^ 31 }
    requires counts { CountsOn meter.old.current frames.now }
    requires stood { HasStood cells.now.settings meter.old }
    requires room { length out.old ≤ 6 }
    ensures few { length out.new ≤ length out.old + 3 }
    ensures comparer { meter.new.comparer ≡ meter.old.comparer }
    ensures hp_known { meter.new.hp.known ≡ meter.old.hp.known }
    ensures lp_known { meter.new.lp.known ≡ meter.old.lp.known }
    ensures current { meter.new.current ≡ nothing_of (meter.old.current.number + 1) frames.now.read frames.now.bad }
    ensures hp_reports { (n : ℕ) → AreFew meter.old.hp.reports n → AreFew meter.new.hp.reports n }
    ensures lp_reports { (n : ℕ) → AreFew meter.old.lp.reports n → AreFew meter.new.lp.reports n }
    ensures stand { (moment : Moment) (bytes : List ℕ) → MetersStand moment cells.now.settings bytes meter.old
        → IsDone moment (symbols cells.now.settings bytes) meter.old.comparer.next meter.old.current.number
        → MetersStand moment cells.now.settings bytes meter.new }
    ensures lines { (moment : Moment) (bytes given : List ℕ) → MetersStand moment cells.now.settings bytes meter.old
        → FramesStand cells.now.settings bytes frames.now meter.old.current
        → IsDone moment (symbols cells.now.settings bytes) meter.old.comparer.next meter.old.current.number
        → HasLines cells.now.settings bytes meter.old.current.number given
        → Adds out.old out.new (HasLines cells.now.settings bytes (meter.old.current.number + 1)) given }
{
    put_super_frame(&meter.super_frame(frames, cells), out);
    meter.advance(frames, cells.settings());
}

/// Compares the symbol that the last one makes known, if there is one.
fn compare_next<M: Carriers>(taken: u64, meter: &mut FrameMeter<M>)
    requires few { taken ≤ 2 ^ 32 }
    requires kept { AreKept meter.old taken }
    requires next { meter.old.comparer.next ≡ taken - 4 }
    requires number { meter.old.current.number ≡ defined_by (taken - 1) }
    requires begun { HasBegun meter.old }
    ensures kept { AreKept meter.new taken }
    ensures next { meter.new.comparer.next ≡ taken - 3 }
    ensures current { meter.new.current ≡ record meter.old.current {
      symbols = meter.new.current.symbols;
      sums =
          meter.new.current.sums;
    } }
    ensures hp_settled { IsSettled meter.new.hp.known }
    ensures lp_settled { IsSettled meter.new.lp.known }
    ensures compared { (s : AnySettings) (bytes : List ℕ) → symbols s bytes ≡ taken
        → MetersStand so_far s bytes meter.old → MetersStand so_far s bytes meter.new }
{
    symbol_parameters::laws::steps();
    if taken > LATER {
        meter.compare();
    }
}

/// Gives the lines that the last symbol defines, if it defines some.
fn give_lines<M: Carriers>(
    cells: &SymbolCosts<M>,
    frames: &FrameReader,
    meter: &mut FrameMeter<M>,
    out: &mut MeasureOut,
)
    requires few { cells.now.taken ≤ 2 ^ 32 }
    requires kept { AreKept meter.old cells.now.taken }
    requires compared { IsCompared cells.now.settings cells.now.taken frames.now meter.old }
    requires none { out.old ≡ [] }
    ensures few { length out.new ≤ 3 }
    ensures kept { AreKept meter.new cells.now.taken }
    ensures live { (bytes given : List ℕ) → symbols cells.now.settings bytes ≡ cells.now.taken
        → HasCompared cells.now.settings bytes frames.now meter.old given
        → IsLive cells.now.settings bytes frames.now meter.new (given ++ concat out.new) }
{
    if cells.symbols() == SYMBOLS * (meter.number() + 1) + LATER {
        close_super_frame(cells, frames, meter, out);
    }
}

/// At the end: compares the symbols of the current super-frame that are left, and gives its lines, if it has begun.
fn end_super_frame<M: Carriers>(
    cells: &SymbolCosts<M>,
    frames: &FrameReader,
    meter: &mut FrameMeter<M>,
    out: &mut MeasureOut,
)
    requires few { cells.now.taken ≤ 2 ^ 32 }
    requires place { HasPlace meter.old cells.now.taken }
    requires ending { IsEnded cells.now.settings cells.now.taken frames.now meter.old }
    requires room { length out.old ≤ 6 }
    ensures few { length out.new ≤ length out.old + 3 }
    ensures place { HasPlace meter.new cells.now.taken }
    ensures further { 272 * meter.old.current.number < cells.now.taken → meter.new.current.number
        ≡ meter.old.current.number + 1 }
    ensures stays { cells.now.taken ≤ 272 * meter.old.current.number → meter.new.current.number
        ≡ meter.old.current.number }
    ensures ended { (bytes given : List ℕ) → symbols cells.now.settings bytes ≡ cells.now.taken
        → IsEnding cells.now.settings bytes frames.now meter.old given
        → Adds out.old out.new (IsEnding cells.now.settings bytes frames.now meter.new) given }
{
    let taken = cells.symbols();
    let number = meter.number();
    if SYMBOLS * number < taken {
        meter.compare_up_to(taken.min(SYMBOLS * (number + 1)));
        close_super_frame(cells, frames, meter, out);
    }
}

impl<M: Carriers> Measurer<M> {
    /// A measurer that has had no byte. It takes all its memory, enough for any parameters of the mode; the only error
    /// is want of it.
    pub fn new(alloc: Global, settings: &Settings) -> Result<Self, AllocError>
        requires mode { settings.now.mode ≡ M.MODE }
        ensures settings { IfOk result (λ x. x.settings ≡ settings.now) }
        ensures going { IfOk result (λ x. x.ended ≡ false) }
        ensures taken { IfOk result (λ x. x.taken ≡ 0) }
        ensures stands { IfOk result (λ x. StandsFor so_far x [] []) }
    {
        Ok(Measurer {
            cells: SymbolCosts::new(alloc, settings)?,
            meter: FrameMeter::new(alloc, settings)?,
            frames: FrameReader::new(),
            ended: false,
        })
    }

    /// Takes bytes from the front of the piece, as many as it has or the current symbol wants, and answers
    /// how many. `out` has then exactly the lines that became defined by them.
    ///
    /// Fewer than 2^32 symbols were received so far, and the measurer has not ended.
    pub fn feed<R: Threads + Sync>(&mut self, rt: &R, piece: &[u8], out: &mut MeasureOut) -> usize
        requires going { self.old.ended ≡ false }
        requires few { self.old.taken < 2 ^ 32 }
        ensures settings { self.new.settings ≡ self.old.settings }
        ensures going { self.new.ended ≡ false }
        ensures count { result ≡ min (length piece.now) (5 * M.K - length self.old.rest) }
        ensures taken { self.new.taken ≤ self.old.taken + 1 }
        ensures few { length out.new ≤ 3 }
        ensures fed { (bytes given : List ℕ) → StandsFor so_far self.old bytes given
            → StandsFor so_far self.new (bytes ++ take result piece.now) (given ++ concat out.new) }
    {
        self.feed_gated(rt, &OpenGate, piece, out)
    }

    /// Does what `feed` does, for every gate: the workers that decode the outer words of a symbol, and the
    /// inner decoders of two streams, enter it.
    pub fn feed_gated<R: Threads + Sync, G: Gate>(
        &mut self,
        rt: &R,
        gate: &G,
        piece: &[u8],
        out: &mut MeasureOut,
    ) -> usize
        requires going { self.old.ended ≡ false }
        requires few { self.old.taken < 2 ^ 32 }
        ensures settings { self.new.settings ≡ self.old.settings }
        ensures going { self.new.ended ≡ false }
        ensures count { result ≡ min (length piece.now) (5 * M.K - length self.old.rest) }
        ensures taken { self.new.taken ≤ self.old.taken + 1 }
        ensures few { length out.new ≤ 3 }
        ensures fed { (bytes given : List ℕ) → StandsFor so_far self.old bytes given
            → StandsFor so_far self.new (bytes ++ take result piece.now) (given ++ concat out.new) }
    {
        reception::laws::symbols();
        reception::laws::costs();
        measurement::laws::sums_stay();
        out.clear();
        let count = self.cells.feed(piece);
        if !self.cells.whole() {
            return count;
        }
        let mode = self.cells.settings().mode;
        self.frames.take(mode, self.cells.cells());
        self.meter.take(rt, gate, &self.cells);
        compare_next(self.cells.symbols(), &mut self.meter);
        give_lines(&self.cells, &self.frames, &mut self.meter, out);
        count
    }

    /// Ends the measurement: `out` has then the lines that were not given yet, the closing ones last.
    ///
    /// The measurer has not ended.
    pub fn finish<R: Threads + Sync>(&mut self, rt: &R, out: &mut MeasureOut)
        requires going { self.old.ended ≡ false }
        ensures settings { self.new.settings ≡ self.old.settings }
        ensures ended { self.new.ended ≡ true }
        ensures taken { self.new.taken ≡ self.old.taken }
        ensures few { length out.new ≤ 10 }
        ensures finished { (bytes given : List ℕ) → StandsFor so_far self.old bytes given
            → StandsFor at_end self.new bytes (given ++ concat out.new) }
    {
        out.clear();
        self.ended = true;
        let workers = self.cells.settings().workers;
        self.meter.finish(rt, workers, self.cells.settings());
        end_super_frame(&self.cells, &self.frames, &mut self.meter, out);
        end_super_frame(&self.cells, &self.frames, &mut self.meter, out);
        put_counts(&self.meter.counts(&self.frames, &self.cells), out);
    }

    /// The whole symbols received so far.
    pub fn symbols(&self) -> u64
        ensures number { result ≡ self.now.taken }
    {
        self.cells.symbols()
    }

    /// Was `finish` called?
    pub fn ended(&self) -> bool
        ensures ended { result ≡ self.now.ended }
    {
        self.ended
    }
}
