// A trial.
ghost use Rattle.std.specs.Prelude.{◌≡◌, ◌*◌, ◌<◌, ◌^◌, Some, IfOk};
ghost use Rattle.reception.specs.Streams.{Reception};
ghost use Rattle.trial.specs.Drawn.{trial_frames};
ghost use Rattle.trial.specs.Outcome.{TrialGives, trial_counts};

use crate::TrialCounts;
use crate::work::Work;
use mode_set::{Carriers, Settings};
use std::alloc::{AllocError, Global};
use std::marker::Model;
use std::thread::Threads;
use word_workers::Gate;

/// A trial of settings and a number: random packets from the number are modulated, the cells are disturbed and received
/// in pieces, and the received packets are counted. As many super-frames are sent as the counts of packets need.
///
/// Contracts see the settings and the number. Only `new` allocates memory.
#[derive(Drop)]
pub struct Trial<M: Carriers> {
    settings: Settings,
    work: Work<M>,
}

impl<M: Carriers> Model for Trial<M> {
    ghost use Rattle.std.specs.Prelude.{◌≡◌, ◌≤◌, ◌*◌, vec_capacity};
    ghost use Rattle.trial.specs.State.{IsBefore, TrialOf};

    ghost Value = { TrialOf };

    ghost view = { λ t. record { settings = t.settings; number = t.work.draws.number } };

    ghost invariant = { λ t. (t.settings.mode ≡ M.MODE) × (5 * M.K ≤ vec_capacity t.work.sent)
        × (5 * M.K ≤ vec_capacity t.work.fed)
        × IsBefore t.settings 0 t.work.draws t.work.tx t.work.rx.receiver t.work.rx.hp t.work.rx.lp t.work.cells };
}

impl<M: Carriers> Trial<M> {
    /// A trial before its first symbol. It allocates all its memory; the only error is lack of memory.
    pub fn new(alloc: Global, settings: &Settings, number: u32) -> Result<Self, AllocError>
        requires mode { settings.now.mode ≡ M.MODE }
        ensures settings { IfOk result (λ t. t.settings ≡ settings.now) }
        ensures number { IfOk result (λ t. t.number ≡ number) }
    {
        Ok(Trial {
            settings: *settings,
            work: Work::new(alloc, settings, number)?,
        })
    }

    /// The number of super-frames for the counts of packets; none if no number carries them.
    pub fn super_frames(&self) -> Option<u64>
        ensures { result ≡ trial_frames self.now.settings self.now.number }
    {
        self.work.super_frames(&self.settings)
    }

    /// Runs the trial over its super-frames, whose number is given, and returns the counts. Its receiver is fed through
    /// the gate; the decoding at the end passes none.
    pub fn run<R: Threads + Sync, G: Gate>(self, rt: &R, gate: &G, super_frames: u64) -> TrialCounts
        requires frames { trial_frames self.settings self.number ≡ Some super_frames }
        requires few { 272 * super_frames < 2 ^ 32 }
        ensures counts { (r : Reception) × TrialGives self.settings self.number r
            × (result ≡ trial_counts self.settings self.number r) }
    {
        let settings = self.settings;
        let mut work = self.work;
        work.all_symbols(rt, gate, &settings, 272 * super_frames as u32);
        work.finish(rt, &settings)
    }
}
