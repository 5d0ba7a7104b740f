// The command.
ghost use Rattle.std.specs.Prelude.{◌≡◌};
ghost use Rattle.station_core.specs.Meaning.{IsFresh};
ghost use Rattle.trial.specs.Outcome.{at_zero};
ghost use Rattle.cmd_base.specs.Run.{Run};
ghost use Rattle.cmd_trial.specs.Steps.{IsReady, RunsOrLacks};
ghost use Rattle.cmd_trial.specs.TrialCommand.{trial_command};

use crate::run::run_trial;
use cmd_base::{Limits, Refusal, read_settings, refuse};
use mode_set::{Carriers, Mode, Mode2k, Mode8k, Settings, Start};
use station_core::Station;
use std::alloc::Global;
use std::thread::Threads;
use trial::Trial as Work;
use word_workers::Gate;

// The settings of a trial, whose receiver always starts at zero.
fn from_zero(settings: &Settings) -> Settings
    ensures { result ≡ at_zero settings.now }
{
    let mut zero = *settings;
    zero.start = Start::Zero;
    zero
}

// Allocates the memory for a mode's trial, and runs it.
// Not inlined: the trial lies in its frame, and the settings are read on a smaller stack.
#[inline(never)]
fn trial_in<'a, M: Carriers, R: Threads + Sync, G: Gate, S: Station<'a>>(
    rt: &R,
    alloc: Global,
    gate: &G,
    settings: &Settings,
    number: u32,
    station: &mut S,
) -> u8
    requires mode { settings.now.mode ≡ M.MODE }
    requires ready { IsReady (S.meaning station.old) }
    ensures { RunsOrLacks settings.now number (S.meaning station.old) (S.meaning station.new) result }
{
    match Work::<M>::new(alloc, settings, number) {
        Ok(trial) => run_trial(rt, gate, settings.max_symbols, trial, station),
        Err(_) => refuse(&Refusal::Memory, station),
    }
}

/// Runs `trial SETTINGS NUMBER` and returns its status.
///
/// The settings are read and checked, and then all memory is allocated. A trial is refused if no number of super-frames
/// carries its packets, or if the settings allow fewer symbols than these super-frames have. Only the port Settings is
/// used. The limits of packets do not apply. Its receiver is fed through the gate; the decoding at the end passes none.
pub fn trial<'a, R: Threads + Sync, G: Gate, S: Station<'a>>(
    rt: &R,
    alloc: Global,
    gate: &G,
    settings: &'a str,
    number: u32,
    limits: &Limits,
    station: &mut S,
) -> u8
    requires fresh { IsFresh (S.meaning station.old) }
    ensures { Run (trial_command settings.now number) limits.now.packets (S.meaning station.old) (S.meaning station.new)
        result }
{
    trial::workers::workers();
    match read_settings(alloc, settings, station) {
        Ok(accepted) => {
            let zero = from_zero(&accepted);
            match zero.mode {
                Mode::M2k => trial_in::<Mode2k, R, G, S>(rt, alloc, gate, &zero, number, station),
                Mode::M8k => trial_in::<Mode8k, R, G, S>(rt, alloc, gate, &zero, number, station),
            }
        }
        Err(refusal) => refuse(&refusal, station),
    }
}
