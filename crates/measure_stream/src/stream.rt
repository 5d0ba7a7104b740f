// The measuring of one stream.
ghost use Rattle.std.specs.Prelude.{◌≡◌, ◌+◌, ◌-◌, ◌*◌, ◌<◌, ◌≤◌, ◌^◌, ◌++◌, [], ℕ, List, Bool, true, All, IfOk, min};
ghost use Rattle.std.specs.Prelude.{length};
ghost use Rattle.code_paths.specs.declared.costs.CostPair.{CostPair as Pair};
ghost use Rattle.inner_decoder.specs.Events.{ats};
ghost use Rattle.inner_decoder.specs.Running.{BranchState};
ghost use Rattle.outer_chain.specs.Bits.{bytes_of};
ghost use Rattle.outer_chain.specs.Words.{word_count};
ghost use Rattle.symbol_parameters.specs.Spans.{steps_before, words_before, words_in};
ghost use Rattle.inner_receiver.specs.Branches.{HasTaken};
ghost use Rattle.measure_known_bits.specs.Laws.{nothing_known};
ghost use Rattle.mode_set.specs.declared.modes.Stream.{Stream as AnyStream};
ghost use Rattle.mode_set.specs.declared.settings.Settings.{Settings as AnySettings};
ghost use Rattle.reception.specs.Costs.{costs};
ghost use Rattle.reception.specs.Streams.{Moment, so_far, at_end};
ghost use Rattle.measure_sums.specs.Comparing.{bits_in, wrong_in};
ghost use Rattle.measurement.specs.SuperFrames.{Knowns, over_compared, known_with, told_before, AreStreamSums};
ghost use Rattle.measure_stream.specs.Reports.{AreCounted, AreFew, LieIn, no_reports};
ghost use Rattle.measure_stream.specs.Standing.{Stands, MayGive, IsReady, HasRun, Gave, WentOn, AreTotals};

use crate::passing::pass_bits;
use crate::reports::ReportCounts;
use bit_pack::BitWord;
use inner_receiver::{StreamBranch, begin, end};
use measure_known_bits::KnownBits;
use measure_report::{BitSums, StreamSums};
use measure_words::MeasuredWords;
use mode_set::{Settings, Stream};
use rx_report::StreamCounts;
use std::alloc::{AllocError, Global};
use std::thread::Threads;
use word_workers::{Gate, OpenGate};

/// The words of the start-up.
const START_UP: u64 = 11;

/// The decoder of a stream, and what becomes of the bits that it gives.
#[derive(Drop)]
pub struct StreamMeter {
    /// The decoder.
    pub branch: StreamBranch,
    /// The decided bits that the stream's encoder has not passed.
    pub known: KnownBits,
    /// The bits of the unfinished byte.
    pub part: BitWord,
    /// The received words.
    pub words: MeasuredWords,
    /// The outer words of the stream before the next super-frame.
    pub words_before: u64,
    /// The reports of the decoder.
    pub reports: ReportCounts,
}

/// The number of the first word that is not reported before the stream's words of the next super-frame begin.
fn limit_of(words_before: u64) -> u64
    ensures is { result ≡ words_before - 11 }
{
    words_before.saturating_sub(START_UP)
}

/// The outer words of a stream in a super-frame.
fn words_of(settings: &Settings, stream: Stream, super_frame: u32) -> u64
    ensures words { result ≡ words_in settings.now stream super_frame }
    ensures few { result ≤ 5292 }
{
    symbol_parameters::laws::settings();
    settings
        .with_entry(&settings.entry(super_frame))
        .words_per_super_frame(stream) as u64
}

impl StreamMeter {
    /// The meter of a stream of which nothing was received, in the first super-frame. It takes all its memory; the
    /// only error is want of it.
    pub fn new(alloc: Global, settings: &Settings, stream: Stream) -> Result<Self, AllocError>
        ensures ready { IfOk result (λ x. IsReady x) }
        ensures steps { IfOk result (λ x. x.branch.decoder.steps ≡ 0) }
        ensures known { IfOk result (λ x. x.known ≡ nothing_known) }
        ensures words { IfOk result (λ x. x.words.all.words ≡ 0) }
        ensures before { IfOk result (λ x. x.words_before ≡ words_before settings.now stream 1) }
        ensures reports { IfOk result (λ x. x.reports ≡ no_reports) }
        ensures stands { IfOk result (λ x. Stands so_far x settings.now stream 0 0 [] [] []) }
    {
        symbol_parameters::laws::words();
        Ok(StreamMeter {
            branch: begin(alloc, settings.start)?,
            known: KnownBits::new(alloc)?,
            part: BitWord::new(),
            words: MeasuredWords::new(alloc)?,
            words_before: words_of(settings, stream, 0),
            reports: ReportCounts::none(),
        })
    }

    /// Hands on the bits that wait, and decodes the words that are then whole.
    pub fn give<R: Threads + Sync, G: Gate>(&mut self, rt: &R, gate: &G, workers: u8)
        requires some_worker { 1 ≤ workers }
        requires few_workers { workers ≤ 16 }
        requires may { MayGive self.old }
        requires known { length self.old.known.waiting + length self.old.branch.wait ≤ 127008 }
        requires few { self.old.words.all.words ≤ 2 ^ 49 }
        ensures few { self.new.words.all.words ≤ self.old.words.all.words + 24 }
        ensures branch { self.new.branch ≡ record self.old.branch { wait = [] } }
        ensures known { self.new.known ≡ record self.old.known {
          waiting = self.old.known.waiting ++
              self.old.branch.wait;
        } }
        ensures before { self.new.words_before ≡ self.old.words_before }
        ensures reports { self.new.reports ≡ self.old.reports }
        ensures gave { Gave self.old self.new }
    {
        let _waiting = self.branch.waiting();
        pass_bits(
            &mut self.branch,
            &mut self.known,
            &mut self.part,
            &mut self.words,
        );
        let limit = limit_of(self.words_before);
        self.words.finish(rt, gate, workers, limit);
    }

    /// Counts the reports of the last symbol, which is of the current super-frame or after it.
    fn report(&mut self, within: bool)
        requires few { AreFew self.old.reports (2 ^ 60) }
        ensures few { (n : ℕ) → AreFew self.old.reports n → AreFew self.new.reports (n + 16) }
        ensures rest { self.new ≡ record self.old { reports = self.new.reports } }
        ensures counted { (s : AnySettings) (σ : AnyStream) (j before after : ℕ) (reports : List ℕ)
            → AreCounted self.old.reports s σ j reports → All (λ at. (before < at) × (at ≤ after)) (ats
            self.old.branch.events)
            → LieIn within s σ j before after → AreCounted self.new.reports s σ j (reports ++ ats
            self.old.branch.events) }
    {
        let reports = self.branch.events();
        self.reports.count(reports.len() as u64, within);
    }

    /// Gives on what the decoder gave in a symbol, which is of the current super-frame or after it: hands on the
    /// bits, decodes the words that are then whole, and counts the reports.
    ///
    /// The decoder has run the symbol. With its bits at most 127,008 wait.
    pub fn deliver<R: Threads + Sync, G: Gate>(
        &mut self,
        rt: &R,
        gate: &G,
        workers: u8,
        within: bool,
    )
        requires some_worker { 1 ≤ workers }
        requires few_workers { workers ≤ 16 }
        requires has_run { HasRun self.old }
        requires known { length self.old.known.waiting + length self.old.branch.wait ≤ 127008 }
        requires words { self.old.words.all.words ≤ 2 ^ 49 }
        requires reports { AreFew self.old.reports (2 ^ 60) }
        ensures ready { IsReady self.new }
        ensures branch { self.new.branch ≡ record self.old.branch { wait = [] } }
        ensures known { self.new.known ≡ record self.old.known {
          waiting = self.old.known.waiting ++
              self.old.branch.wait;
        } }
        ensures words { self.new.words.all.words ≤ self.old.words.all.words + 24 }
        ensures before { self.new.words_before ≡ self.old.words_before }
        ensures reports { (n : ℕ) → AreFew self.old.reports n → AreFew self.new.reports (n + 16) }
        ensures fed { (before : BranchState) (pairs : List Pair) → HasTaken pairs before self.old.branch
            → (s : AnySettings) (σ : AnyStream) (j from : ℕ) (c : List Pair) (bits : List Bool) (reports : List ℕ)
            → Stands so_far (record self.old { branch = before }) s σ j from c bits reports
            → LieIn within s σ j (length c) (length c + length pairs)
            → WentOn so_far self.old self.new s σ j from (c ++ pairs) bits (reports ++ ats self.old.branch.events) }
    {
        reception::laws::events();
        self.give(rt, gate, workers);
        self.report(within);
    }

    /// Ends the stream: hands on the bits that were left, and decodes the words that are then whole.
    ///
    /// With the bits that are left in the decoder at most 127,008 wait.
    pub fn finish<R: Threads + Sync>(&mut self, rt: &R, workers: u8)
        requires some_worker { 1 ≤ workers }
        requires few_workers { workers ≤ 16 }
        requires ready { IsReady self.old }
        requires known { length self.old.known.waiting + self.old.branch.decoder.waiting ≤ 127008 }
        requires words { self.old.words.all.words ≤ 2 ^ 49 }
        ensures ended { self.new.branch.decoder.ended ≡ true }
        ensures steps { self.new.branch.decoder.steps ≡ self.old.branch.decoder.steps }
        ensures words { self.new.words.all.words ≤ self.old.words.all.words + 24 }
        ensures before { self.new.words_before ≡ self.old.words_before }
        ensures reports { self.new.reports ≡ self.old.reports }
        ensures finished { (s : AnySettings) (σ : AnyStream) (j from : ℕ) (c : List Pair) (bits : List Bool)
            (reports : List ℕ) → Stands so_far self.old s σ j from c bits reports
            → WentOn at_end self.old self.new s σ j from c bits reports }
    {
        end(&mut self.branch);
        self.give(rt, &OpenGate, workers);
    }

    /// Passes on to super-frame `next`, which follows the current one.
    pub fn advance(&mut self, settings: &Settings, stream: Stream, next: u32)
        requires few { self.old.words_before < 2 ^ 60 }
        ensures branch { self.new.branch ≡ self.old.branch }
        ensures known { self.new.known ≡ self.old.known }
        ensures words { self.new.words.all ≡ self.old.words.all }
        ensures before { self.new.words_before ≡ self.old.words_before + words_in settings.now stream next }
        ensures reports { (n : ℕ) → AreFew self.old.reports n → AreFew self.new.reports n }
        ensures advanced { (moment : Moment) (j from : ℕ) (c : List Pair) (bits : List Bool) (reports : List ℕ) → next
            ≡ j + 1 → Stands moment self.old settings.now stream j from c bits reports
            → length c ≤ steps_before settings.now stream (272 * (j + 2))
            → Stands moment self.new settings.now stream (j + 1)
            (min (word_count (bytes_of bits)) (words_before settings.now stream (j + 1) - 11)) c bits reports }
    {
        symbol_parameters::laws::words();
        reception::laws::events();
        outer_chain::laws::bits();
        self.words_before += words_of(settings, stream, next);
        self.words.advance();
        self.reports.advance();
    }

    /// The counts of all words, and of all reports.
    pub fn counts(&self) -> StreamCounts
        ensures totals { (moment : Moment) (s : AnySettings) (σ : AnyStream) (j from : ℕ) (c : List Pair)
            (bits : List Bool) (reports : List ℕ) → Stands moment self.now s σ j from c bits reports
            → AreTotals bits reports result }
    {
        outer_chain::laws::bits();
        let words = self.words.all();
        StreamCounts {
            words: words.words,
            clean: words.clean,
            corrected: words.corrected,
            bad: words.bad,
            unphased: words.unphased,
            unmerged: self.reports.all,
        }
    }

    /// The sums of the stream in the current super-frame, with those of its bits.
    pub fn sums(&self, bits: &BitSums) -> StreamSums
        ensures sums { (moment : Moment) (s : AnySettings) (bytes : List ℕ) (known : Knowns) (σ : AnyStream)
            (j from : ℕ) (given : List Bool) (reports : List ℕ)
            → Stands moment self.now s σ j from (costs s bytes σ) given reports
            → known_with known σ j ≡ given → told_before s known σ j ≡ from → bits.now.bits
            ≡ over_compared s bytes known j (λ x. bits_in x σ) → bits.now.wrong
            ≡ over_compared s bytes known j (λ x. wrong_in x σ)
            → AreStreamSums s bytes known j σ result }
    {
        outer_chain::laws::bits();
        let words = self.words.current();
        StreamSums {
            bits: bits.bits,
            wrong: bits.wrong,
            words: words.words,
            clean: words.clean,
            corrected: words.corrected,
            bad: words.bad,
            unphased: words.unphased,
            unmerged: self.reports.current,
            repaired: words.repaired,
        }
    }
}
