// The work of a trial, symbol after symbol.
ghost use Rattle.std.specs.Prelude.{◌≡◌, ◌+◌, ◌*◌, ◌<◌, ◌≤◌, IfOk, vec_capacity};
ghost use Rattle.std.specs.Option.{option_map};
ghost use Rattle.reception.specs.Streams.{Reception};
ghost use Rattle.rx_report.specs.declared.counts.StreamCounts.{StreamCounts as CountsOf};
ghost use Rattle.trial.specs.Drawn.{hp_count, lp_count, trial_frames, trial_symbols};
ghost use Rattle.trial.specs.Outcome.{TrialGives, trial_counts};
ghost use Rattle.trial.specs.Counting.{return_of};
ghost use Rattle.trial.specs.State.{IsBefore};

use crate::disturbing::disturb;
use crate::draws::{Draws, put_wanted};
use crate::feeding::SummedReceiver;
use crate::laws::{cells, packets_back};
use crate::sums::sum_onto;
use crate::{StreamReturn, TrialCounts};
use mode_set::{Carriers, Settings};
use modulator::Modulator;
use rx_report::StreamCounts;
use std::alloc::{AllocError, Global};
use std::thread::Threads;
use word_workers::Gate;

// The result for a stream: one packet for each word with a phase.
fn stream_return(packets: u32, counts: &StreamCounts, sum: u32) -> StreamReturn
    ensures { result ≡ return_of packets counts.now sum }
{
    StreamReturn {
        packets,
        back: counts.words.saturating_sub(counts.unphased),
        sum,
    }
}

fn lp_return(packets: u32, counts: &Option<StreamCounts>, sum: u32) -> Option<StreamReturn>
    ensures { result ≡ option_map (λ (counts : CountsOf). return_of packets counts sum) counts.now }
{
    match counts {
        Some(counts) => Some(stream_return(packets, counts, sum)),
        None => None,
    }
}

/// The parts of a trial: the random values, the modulator, the bytes of a symbol as sent and as fed, the receiver, and
/// the sum of the bytes fed.
#[derive(Drop)]
pub(crate) struct Work<M: Carriers> {
    pub draws: Draws,
    pub tx: Modulator<M>,
    pub sent: Vec<u8>,
    pub fed: Vec<u8>,
    pub rx: SummedReceiver<M>,
    pub cells: u32,
}

impl<M: Carriers> Work<M> {
    /// Only the counts were generated. It allocates all its memory; the only error is lack of memory.
    pub fn new(alloc: Global, settings: &Settings, number: u32) -> Result<Self, AllocError>
        requires mode { settings.now.mode ≡ M.MODE }
        ensures number { IfOk result (λ w. w.draws.number ≡ number) }
        ensures sent { IfOk result (λ w. 5 * M.K ≤ vec_capacity w.sent) }
        ensures fed { IfOk result (λ w. 5 * M.K ≤ vec_capacity w.fed) }
        ensures first { IfOk result (λ w. IsBefore settings.now 0 w.draws w.tx w.rx.receiver w.rx.hp w.rx.lp w.cells) }
    {
        cells();
        transmission::laws::packets();
        Ok(Work {
            draws: Draws::start(settings, number),
            sent: Vec::with_capacity(alloc, 5 * M::K as usize)?,
            fed: Vec::with_capacity(alloc, 5 * M::K as usize)?,
            tx: Modulator::new(alloc, settings)?,
            rx: SummedReceiver::new(alloc, settings)?,
            cells: 0,
        })
    }

    // Generates, sends, disturbs and feeds the next symbol.
    fn next_symbol<R: Threads + Sync, G: Gate>(
        &mut self,
        rt: &R,
        gate: &G,
        settings: &Settings,
        symbol: u32,
    )
        requires mode { settings.now.mode ≡ M.MODE }
        requires within { symbol < trial_symbols settings.now self.old.draws.number }
        requires sent { 5 * M.K ≤ vec_capacity self.old.sent }
        requires fed { 5 * M.K ≤ vec_capacity self.old.fed }
        requires before { IsBefore settings.now symbol self.old.draws self.old.tx self.old.rx.receiver self.old.rx.hp
            self.old.rx.lp self.old.cells }
        ensures number { self.new.draws.number ≡ self.old.draws.number }
        ensures sent { vec_capacity self.new.sent ≡ vec_capacity self.old.sent }
        ensures fed { vec_capacity self.new.fed ≡ vec_capacity self.old.fed }
        ensures next { IsBefore settings.now (symbol + 1) self.new.draws self.new.tx self.new.rx.receiver self.new.rx.hp
            self.new.rx.lp self.new.cells }
    {
        cells();
        transmission::laws::packets();
        put_wanted(&mut self.draws, &mut self.tx);
        self.sent.clear();
        self.tx.symbol(&mut self.sent);
        disturb::<M>(settings, symbol, &self.sent, &mut self.draws, &mut self.fed);
        self.cells = sum_onto(self.cells, &self.fed);
        self.rx
            .feed_symbol(rt, gate, &self.fed, &mut self.draws.load);
    }

    /// The number of super-frames for the counts of packets; none if no number carries them.
    pub fn super_frames(&self, settings: &Settings) -> Option<u64>
        requires hp { self.now.draws.hp_packets ≡ hp_count self.now.draws.number }
        requires lp { self.now.draws.lp_packets ≡ lp_count settings.now self.now.draws.number }
        ensures { result ≡ trial_frames settings.now self.now.draws.number }
    {
        Modulator::<M>::super_frames(
            settings,
            self.draws.hp_packets as u64,
            self.draws.lp_packets as u64,
        )
    }

    /// All symbols of the transmission, whose number is given.
    pub fn all_symbols<R: Threads + Sync, G: Gate>(
        &mut self,
        rt: &R,
        gate: &G,
        settings: &Settings,
        symbols: u32,
    )
        requires mode { settings.now.mode ≡ M.MODE }
        requires all { symbols ≡ trial_symbols settings.now self.old.draws.number }
        requires sent { 5 * M.K ≤ vec_capacity self.old.sent }
        requires fed { 5 * M.K ≤ vec_capacity self.old.fed }
        requires first { IsBefore settings.now 0 self.old.draws self.old.tx self.old.rx.receiver self.old.rx.hp
            self.old.rx.lp self.old.cells }
        ensures number { self.new.draws.number ≡ self.old.draws.number }
        ensures last { IsBefore settings.now symbols self.new.draws self.new.tx self.new.rx.receiver self.new.rx.hp
            self.new.rx.lp self.new.cells }
    {
        for symbol in 0..symbols {
            self.next_symbol(rt, gate, settings, symbol);
        }
    }

    /// Ends the reception and counts.
    pub fn finish<R: Threads + Sync>(&mut self, rt: &R, settings: &Settings) -> TrialCounts
        requires last { IsBefore settings.now (trial_symbols settings.now self.old.draws.number) self.old.draws
            self.old.tx self.old.rx.receiver self.old.rx.hp self.old.rx.lp self.old.cells }
        ensures counts { (r : Reception) × TrialGives settings.now self.old.draws.number r
            × (result ≡ trial_counts settings.now self.old.draws.number r) }
    {
        packets_back();
        self.rx.finish(rt);
        let counts = self.rx.receiver.counts();
        TrialCounts {
            cells: self.cells,
            hp: stream_return(self.draws.hp_packets, &counts.hp, self.rx.hp),
            lp: lp_return(self.draws.lp_packets, &counts.lp, self.rx.lp),
        }
    }
}
