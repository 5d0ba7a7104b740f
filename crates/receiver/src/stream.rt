// The reception of one stream, symbol by symbol.
ghost use Rattle.std.specs.Prelude.{◌≡◌, ◌+◌, ◌<◌, ◌≤◌, ◌^◌, ◌++◌, [], ℕ, List, Bool, length, vec_len, vec_capacity};
ghost use Rattle.std.specs.Prelude.{IfOk, true};
ghost use Rattle.std.specs.declared.option.Option.{Option};
ghost use Rattle.code_paths.specs.declared.costs.CostPair.{CostPair as Pair};
ghost use Rattle.inner_decoder.specs.Events.{ats};
ghost use Rattle.inner_decoder.specs.Running.{BranchState};
ghost use Rattle.inner_receiver.specs.Branches.{HasTaken};
ghost use Rattle.outer_chain.specs.Words.{Tally, word_count};
ghost use Rattle.outer_chain.specs.Running.{Finished, no_words};
ghost use Rattle.reception.specs.Streams.{so_far, at_end, start_of};
ghost use Rattle.reception.specs.Lines.{stream_counts};
ghost use Rattle.receiver.specs.Words.{Started, Gives, AreFew};
ghost use Rattle.receiver.specs.Standing.{StreamStands, StreamGave};
ghost use Rattle.receiver.specs.Ready.{IsReady, MayGive, seen};

use crate::words::{WORDS, collect, decode, finish_words};
use inner_receiver::{StreamBranch, begin, end};
use mode_set::Start;
use outer_chain::{OuterRx, WordSlot};
use rx_report::StreamCounts;
use std::alloc::{AllocError, Global};
use std::thread::Threads;
use word_workers::{Gate, OpenGate};

/// The decoder of one stream, and what its bits become: bytes, words, packets and counts.
#[derive(Drop)]
pub(crate) struct StreamRx {
    pub(crate) branch: StreamBranch,
    pub(crate) outer: OuterRx,
    // The words that a symbol completes; none between two symbols.
    pub(crate) slots: Vec<WordSlot>,
    pub(crate) counts: StreamCounts,
}

/// Counts of zero.
fn no_counts() -> StreamCounts
    ensures { result ≡ stream_counts no_words 0 }
{
    StreamCounts {
        words: 0,
        clean: 0,
        corrected: 0,
        bad: 0,
        unphased: 0,
        unmerged: 0,
    }
}

impl StreamRx {
    /// A stream that has received nothing. The only error is lack of memory.
    pub(crate) fn new(alloc: Global, start: Start) -> Result<Self, AllocError>
        ensures ready { IfOk result (λ x. IsReady x) }
        ensures steps { IfOk result (λ x. x.branch.decoder.steps ≡ 0) }
        ensures counts { IfOk result (λ x. AreFew x.counts 0) }
        ensures stands { IfOk result (λ x. StreamStands so_far (seen x) (start_of start) [] [] no_words []) }
    {
        outer_chain::laws::receiving();
        Ok(StreamRx {
            branch: begin(alloc, start)?,
            outer: OuterRx::new(alloc)?,
            slots: Vec::with_capacity(alloc, WORDS)?,
            counts: no_counts(),
        })
    }

    /// Takes the whole bytes of the pending bits, decodes the words that end with them, and appends their packets.
    fn give<R: Threads + Sync, G: Gate>(&mut self, rt: &R, gate: &G, workers: u8, to: &mut Vec<u8>)
        requires some_worker { 1 ≤ workers }
        requires few_workers { workers ≤ 16 }
        requires started { Started self.old.outer }
        requires none { self.old.slots.items ≡ [] }
        requires slots { 24 ≤ vec_capacity self.old.slots }
        requires room { vec_len to.old + 4512 ≤ vec_capacity to.old }
        requires few { AreFew self.old.counts (2 ^ 61) }
        ensures none { self.new.slots.items ≡ [] }
        ensures slots { vec_capacity self.new.slots ≡ vec_capacity self.old.slots }
        ensures capacity { vec_capacity to.old ≤ vec_capacity to.new }
        ensures wait { length self.new.branch.wait < 8 }
        ensures rest { self.new.branch ≡ record self.old.branch { wait = self.new.branch.wait } }
        ensures few { (n : ℕ) → AreFew self.old.counts n → AreFew self.new.counts (n + 24) }
        ensures started { Started self.new.outer }
        ensures gives { (bytes given : List ℕ) (tally : Tally)
            → Finished self.old.outer bytes given tally (word_count bytes)
            → Gives self.old.branch.wait self.new.branch.wait self.new.outer bytes given tally to.old.items to.new.items
            self.old.counts self.new.counts }
    {
        collect(&mut self.branch, &mut self.outer, &mut self.slots);
        decode(rt, gate, workers, &mut self.slots);
        finish_words(&mut self.outer, &self.slots, &mut self.counts, to);
        self.slots.clear();
    }

    /// Counts the reports of the last symbol.
    fn report(&mut self)
        requires few { AreFew self.old.counts (2 ^ 62) }
        ensures few { (n : ℕ) → AreFew self.old.counts n → AreFew self.new.counts (n + 16) }
        ensures counted { self.new ≡ record self.old {
          counts = record self.old.counts
              { unmerged = self.old.counts.unmerged + length self.old.branch.events };
        } }
    {
        let reports = self.branch.events();
        self.counts.unmerged += reports.len() as u64;
    }

    /// Processes the decoder's output for a symbol: decodes the words then complete and appends their packets, and
    /// counts the reports.
    pub(crate) fn deliver<R: Threads + Sync, G: Gate>(
        &mut self,
        rt: &R,
        gate: &G,
        workers: u8,
        to: &mut Vec<u8>,
    )
        requires some_worker { 1 ≤ workers }
        requires few_workers { workers ≤ 16 }
        requires may { MayGive self.old }
        requires counts { AreFew self.old.counts (2 ^ 60) }
        requires room { vec_len to.old + 4512 ≤ vec_capacity to.old }
        ensures ready { IsReady self.new }
        ensures rest { self.new.branch ≡ record self.old.branch { wait = self.new.branch.wait } }
        ensures counts { (n : ℕ) → AreFew self.old.counts n → AreFew self.new.counts (n + 40) }
        ensures capacity { vec_capacity to.old ≤ vec_capacity to.new }
        ensures fed { (before : BranchState) (pairs : List Pair) → HasTaken pairs before self.old.branch
            → (a : Option (List Bool)) (c : List Pair) (given : List ℕ) (tally : Tally) (reports : List ℕ)
            → StreamStands so_far (record { branch = before; outer = self.old.outer; counts = self.old.counts }) a c
            given tally reports
            → StreamGave so_far (seen self.new) a (c ++ pairs) given (reports ++ ats self.new.branch.events)
            to.old.items to.new.items }
    {
        self.give(rt, gate, workers, to);
        self.report();
    }

    /// Decodes the rest, and appends the packets of the words then complete.
    pub(crate) fn finish<R: Threads + Sync>(&mut self, rt: &R, workers: u8, to: &mut Vec<u8>)
        requires some_worker { 1 ≤ workers }
        requires few_workers { workers ≤ 16 }
        requires ready { IsReady self.old }
        requires counts { AreFew self.old.counts (2 ^ 60) }
        requires room { vec_len to.old + 4512 ≤ vec_capacity to.old }
        ensures ended { self.new.branch.decoder.ended ≡ true }
        ensures steps { self.new.branch.decoder.steps ≡ self.old.branch.decoder.steps }
        ensures counts { (n : ℕ) → AreFew self.old.counts n → AreFew self.new.counts (n + 40) }
        ensures capacity { vec_capacity to.old ≤ vec_capacity to.new }
        ensures ended_stream { (a : Option (List Bool)) (c : List Pair) (given : List ℕ) (tally : Tally)
            (reports : List ℕ) → StreamStands so_far (seen self.old) a c given tally reports
            → StreamGave at_end (seen self.new) a c given reports to.old.items to.new.items }
    {
        end(&mut self.branch);
        self.give(rt, &OpenGate, workers, to);
    }
}
