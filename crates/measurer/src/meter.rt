// The measuring of symbols, super-frame after super-frame.
ghost use Rattle.std.specs.Prelude.{◌≡◌, ◌+◌, ◌-◌, ◌*◌, ◌<◌, ◌≤◌, ◌^◌, ◌++◌, [], ℕ, List, Bool, true, false, IfOk};
ghost use Rattle.std.specs.Prelude.{length};
ghost use Rattle.mode_set.specs.declared.settings.Settings.{Settings as AnySettings};
ghost use Rattle.measure_known_bits.specs.Passing.{IsSettled};
ghost use Rattle.reception.specs.Cells.{symbols};
ghost use Rattle.reception.specs.Laws.{unfinished};
ghost use Rattle.reception.specs.Streams.{Moment, so_far, at_end};
ghost use Rattle.measure_sums.specs.Tables.{AreLittle};
ghost use Rattle.reception.specs.Frames.{tps_cells};
ghost use Rattle.inner_receiver.specs.Framing.{FrameStands};
ghost use Rattle.measurer.specs.Sums.{nothing_of};
ghost use Rattle.measure_stream.specs.Reports.{AreFew};
ghost use Rattle.measurement.specs.SuperFrames.{AreSums};
ghost use Rattle.measurer.specs.Standing.{GoOn, MetersStand, FramesStand};
ghost use Rattle.measurer.specs.Steps.{AreKept, TakesSymbol, TakesNext, HasBegun, HasStood, HasGone, IsDue, IsDone};
ghost use Rattle.measurer.specs.Steps.{CountsOn, AreClosing};

use crate::current::Current;
use inner_receiver::{FrameReader, SymbolCosts, take_symbol};
use measure_comparison::Comparer;
use measure_report::SuperFrame;
use measure_stream::StreamMeter;
use mode_set::{Carriers, Settings, Stream};
use rx_report::{Counts, Event};
use std::alloc::{AllocError, Global};
use std::marker::Model;
use std::thread::Threads;
use word_workers::Gate;

/// The symbols of a super-frame.
const SYMBOLS: u64 = 272;

/// The most reports of one symbol.
const EVENTS: usize = 32;

/// Has the decoders of both streams and what becomes of their bits, and compares the symbols of the current
/// super-frame.
#[derive(Drop)]
pub(crate) struct FrameMeter<M: Carriers> {
    comparer: Comparer<M>,
    hp: StreamMeter,
    lp: StreamMeter,
    current: Current,
    // The reports of the last symbol.
    events: Vec<Event>,
}

impl<M: Carriers> Model for FrameMeter<M> {
    ghost use Rattle.std.specs.Prelude.{◌≤◌, vec_capacity};
    ghost use Rattle.measurer.specs.Seen.{MeterState};

    ghost Value = { MeterState };

    ghost view = { λ x. record { comparer = x.comparer; hp = x.hp; lp = x.lp; current = x.current } };

    ghost invariant = { λ x. 32 ≤ vec_capacity x.events };
}

impl<M: Carriers> FrameMeter<M> {
    /// Before the first symbol. The only error is want of memory.
    pub(crate) fn new(alloc: Global, settings: &Settings) -> Result<Self, AllocError>
        requires mode { settings.now.mode ≡ M.MODE }
        ensures kept { IfOk result (λ x. AreKept x 0) }
        ensures goes_on { IfOk result (λ x. GoOn settings.now [] x) }
        ensures number { IfOk result (λ x. x.current.number ≡ 0) }
        ensures read { IfOk result (λ x. x.current.read_before ≡ 0) }
        ensures bad { IfOk result (λ x. x.current.bad_before ≡ 0) }
    {
        measure_comparison::laws::standing();
        reception::laws::costs();
        let current = Current::first();
        Ok(FrameMeter {
            comparer: Comparer::new(alloc, settings)?,
            hp: StreamMeter::new(alloc, settings, Stream::Hp)?,
            lp: StreamMeter::new(alloc, settings, Stream::Lp)?,
            events: Vec::with_capacity(alloc, EVENTS)?,
            current,
        })
    }

    /// The number of the current super-frame.
    pub(crate) fn number(&self) -> u64
        ensures number { result ≡ self.now.current.number }
    {
        self.current.number
    }

    /// Takes the symbol that was ended: decodes it, hands on what is decided then, and keeps its cells.
    pub(crate) fn take<R: Threads + Sync, G: Gate>(
        &mut self,
        rt: &R,
        gate: &G,
        cells: &SymbolCosts<M>,
    )
        requires whole { cells.now.whole ≡ true }
        requires few { cells.now.taken ≤ 2 ^ 32 }
        requires kept { AreKept self.old (cells.now.taken - 1) }
        requires takes { TakesNext self.old cells.now }
        ensures kept { AreKept self.new cells.now.taken }
        ensures next { self.new.comparer.next ≡ self.old.comparer.next }
        ensures current { self.new.current ≡ self.old.current }
        ensures taken { (bytes p : List ℕ) → TakesSymbol self.old cells.now bytes p
            → MetersStand so_far cells.now.settings (bytes ++ p) self.new }
    {
        measure_comparison::laws::standing();
        measure_stream::laws::ready();
        measure_stream::laws::few();
        measure_stream::laws::room();
        symbol_parameters::laws::steps();
        measure_known_bits::laws::rooms();
        reception::laws::symbols();
        reception::laws::costs();
        let settings = cells.settings();
        let taken = cells.symbols();
        let within = taken <= SYMBOLS * (self.current.number + 1);
        self.events.clear();
        take_symbol(
            rt,
            gate,
            cells.pairs(Stream::Hp),
            cells.pairs(Stream::Lp),
            &mut self.hp.branch,
            &mut self.lp.branch,
            &mut self.events,
        );
        self.hp.deliver(rt, gate, settings.workers, within);
        self.lp.deliver(rt, gate, settings.workers, within);
        self.comparer
            .keep(taken - 1, cells.cells(), cells.weights());
    }

    /// Compares the next symbol, or leaves it out.
    pub(crate) fn compare(&mut self)
        requires few { self.old.comparer.next < 2 ^ 32 }
        requires symbols { self.old.current.symbols < 272 }
        requires little { AreLittle self.old.current.sums (6048 * self.old.current.symbols) }
        requires begun { HasBegun self.old }
        ensures begun { HasBegun self.new }
        ensures next { self.new.comparer.next ≡ self.old.comparer.next + 1 }
        ensures hp { self.new.hp ≡ record self.old.hp { known = self.new.hp.known } }
        ensures lp { self.new.lp ≡ record self.old.lp { known = self.new.lp.known } }
        ensures current { self.new.current ≡ record self.old.current {
          symbols = self.new.current.symbols;
          sums =
              self.new.current.sums;
        } }
        ensures symbols { self.new.current.symbols ≤ self.old.current.symbols + 1 }
        ensures little { AreLittle self.new.current.sums (6048 * self.new.current.symbols) }
        ensures hp_settled { IsSettled self.new.hp.known }
        ensures lp_settled { IsSettled self.new.lp.known }
        ensures compared { (moment : Moment) (s : AnySettings) (bytes : List ℕ) → MetersStand moment s bytes self.old
            → IsDue moment (symbols s bytes) self.old.comparer.next
            → 272 * self.old.current.number ≤ self.old.comparer.next
            → MetersStand moment s bytes self.new }
    {
        measure_known_bits::laws::rooms();
        symbol_parameters::laws::steps();
        code_paths::given_once();
        code_paths::ended_once();
        reception::laws::costs();
        let sums = self
            .comparer
            .compare(&mut self.hp.known, &mut self.lp.known);
        self.current.add(&sums);
    }

    /// Compares the symbols below number `to`, at the end.
    pub(crate) fn compare_up_to(&mut self, to: u64)
        requires few { to ≤ 2 ^ 32 }
        requires from { self.old.comparer.next ≤ to }
        requires symbols { self.old.current.symbols + to ≤ 272 + self.old.comparer.next }
        requires little { AreLittle self.old.current.sums (6048 * self.old.current.symbols) }
        requires begun { HasBegun self.old }
        ensures next { self.new.comparer.next ≡ to }
        ensures current { self.new.current ≡ record self.old.current {
          symbols = self.new.current.symbols;
          sums =
              self.new.current.sums;
        } }
        ensures compared { (s : AnySettings) (bytes : List ℕ) → MetersStand at_end s bytes self.old
            → to ≤ symbols s bytes → symbols s bytes < self.old.comparer.next + 4
            → 272 * self.old.current.number ≤ self.old.comparer.next
            → MetersStand at_end s bytes self.new }
    {
        for _m in self.comparer.next()..to {
            self.compare();
        }
    }

    /// The sums of the current super-frame.
    pub(crate) fn super_frame(&self, frames: &FrameReader, cells: &SymbolCosts<M>) -> SuperFrame
        requires counts { CountsOn self.now.current frames.now }
        ensures sums { (moment : Moment) (bytes : List ℕ) → MetersStand moment cells.now.settings bytes self.now
            → FramesStand cells.now.settings bytes frames.now self.now.current
            → IsDone moment (symbols cells.now.settings bytes) self.now.comparer.next self.now.current.number
            → AreSums cells.now.settings bytes self.now.current.number result }
    {
        code_paths::uniqueness::existence();
        code_paths::given_once();
        code_paths::ended_once();
        symbol_parameters::laws::steps();
        reception::laws::costs();
        let sums = &self.current.sums;
        let hp = self.hp.sums(&sums.hp);
        let lp = self.lp.sums(&sums.lp);
        SuperFrame {
            number: self.current.number,
            symbols: self.current.symbols,
            cells: sums.cells,
            muted: sums.muted,
            power: sums.power,
            error: sums.error,
            tps_read: frames.read - self.current.read_before,
            tps_bad: frames.bad - self.current.bad_before,
            hp,
            lp: cells.where_lp(lp),
        }
    }

    /// Passes on to the next super-frame.
    pub(crate) fn advance(&mut self, frames: &FrameReader, settings: &Settings)
        requires few { self.old.current.number < 2 ^ 31 }
        requires stood { HasStood settings.now self.old }
        ensures comparer { self.new.comparer ≡ self.old.comparer }
        ensures hp_known { self.new.hp.known ≡ self.old.hp.known }
        ensures lp_known { self.new.lp.known ≡ self.old.lp.known }
        ensures current { self.new.current ≡ nothing_of (self.old.current.number + 1) frames.now.read frames.now.bad }
        ensures hp_reports { (n : ℕ) → AreFew self.old.hp.reports n → AreFew self.new.hp.reports n }
        ensures lp_reports { (n : ℕ) → AreFew self.old.lp.reports n → AreFew self.new.lp.reports n }
        ensures advanced { (moment : Moment) (bytes : List ℕ) → MetersStand moment settings.now bytes self.old
            → IsDone moment (symbols settings.now bytes) self.old.comparer.next self.old.current.number
            → MetersStand moment settings.now bytes self.new }
    {
        measure_known_bits::laws::rooms();
        symbol_parameters::laws::steps();
        symbol_parameters::laws::words();
        code_paths::given_once();
        code_paths::ended_once();
        reception::laws::costs();
        let number = self.current.number + 1;
        self.hp.advance(settings, Stream::Hp, number as u32);
        self.lp.advance(settings, Stream::Lp, number as u32);
        self.current = Current::at(number, frames);
    }

    /// Ends both streams.
    pub(crate) fn finish<R: Threads + Sync>(&mut self, rt: &R, workers: u8, settings: &Settings)
        requires some_worker { 1 ≤ workers }
        requires few_workers { workers ≤ 16 }
        requires gone { HasGone settings.now self.old }
        ensures comparer { self.new.comparer ≡ self.old.comparer }
        ensures current { self.new.current ≡ self.old.current }
        ensures finished { (bytes : List ℕ) → GoOn settings.now bytes self.old
            → MetersStand at_end settings.now bytes self.new }
    {
        measure_known_bits::laws::rooms();
        symbol_parameters::laws::steps();
        measure_comparison::laws::standing();
        measure_stream::laws::ready();
        measure_stream::laws::few();
        measure_stream::laws::room();
        reception::laws::costs();
        self.hp.finish(rt, workers);
        self.lp.finish(rt, workers);
    }

    /// The counts of all that was received.
    pub(crate) fn counts(&self, frames: &FrameReader, cells: &SymbolCosts<M>) -> Counts
        ensures counts { (bytes : List ℕ) → MetersStand at_end cells.now.settings bytes self.now
            → FrameStands cells.now.settings.mode frames.now (tps_cells cells.now.settings bytes)
            (symbols cells.now.settings bytes) → cells.now.taken ≡ symbols cells.now.settings bytes
            → cells.now.rest ≡ unfinished cells.now.settings bytes → AreClosing cells.now.settings bytes result }
    {
        reception::laws::symbols();
        let hp = self.hp.counts();
        let lp = self.lp.counts();
        Counts {
            symbols: cells.symbols(),
            tail: cells.waiting(),
            tps_read: frames.read,
            tps_bad: frames.bad,
            hp,
            lp: cells.where_lp(lp),
        }
    }
}
