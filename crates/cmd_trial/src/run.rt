// A whole run after its settings.
ghost use Rattle.std.specs.Prelude.{◌≡◌, ◌*◌, ◌≤◌, Some, None, IfSome, IfNone, IsTrue, is_some};
ghost use Rattle.cmd_base.specs.declared.refusal.Refusal.TheVariants as AnyRefusal;
ghost use Rattle.cmd_base.specs.Causes.{HasCause};
ghost use Rattle.cmd_trial.specs.TrialCommand.{limit_of};
ghost use Rattle.cmd_trial.specs.Steps.{IsReady, Ran, ReportOnly, RunsTrial};

use crate::lines::write_lines;
use cmd_base::{Refusal, refuse};
use mode_set::Carriers;
use station_core::Station;
use std::thread::Threads;
use trial::Trial;
use word_workers::Gate;

// The super-frames of a trial, if they exist and their symbols are within the limit.
fn frames_within(frames: Option<u64>, max_symbols: u32) -> Option<u64>
    ensures some { IfSome result (λ n. (frames ≡ Some n) × (272 * n ≤ max_symbols)) }
    ensures allowed { IsTrue (is_some result) → limit_of max_symbols frames ≡ None }
    ensures none { IfNone result (limit_of max_symbols frames ≡ Some (AnyRefusal.Limit max_symbols)) }
{
    let count = frames?;
    if count > u64::from(max_symbols / 272) {
        return None;
    }
    Some(count)
}

// Runs a trial and writes its closing lines, if it has super-frames and its settings allow their symbols.
fn run_and_report<'a, M: Carriers, R: Threads + Sync, G: Gate, S: Station<'a>>(
    rt: &R,
    gate: &G,
    max_symbols: u32,
    trial: Trial<M>,
    station: &mut S,
) -> Result<(), Refusal>
    requires ready { IsReady (S.meaning station.old) }
    requires most { trial.settings.max_symbols ≡ max_symbols }
    ensures others { ReportOnly (S.meaning station.old) (S.meaning station.new) }
    ensures cause { HasCause (S.meaning station.old) (S.meaning station.new) result }
    ensures ran { Ran trial.settings trial.number (S.meaning station.old) (S.meaning station.new) result }
{
    match frames_within(trial.super_frames(), max_symbols) {
        Some(super_frames) => {
            let counts = trial.run(rt, gate, super_frames);
            write_lines(&counts, station)
        }
        None => Err(Refusal::Limit(u64::from(max_symbols))),
    }
}

/// Runs a trial whose memory is allocated, and returns its status.
pub(crate) fn run_trial<'a, M: Carriers, R: Threads + Sync, G: Gate, S: Station<'a>>(
    rt: &R,
    gate: &G,
    max_symbols: u32,
    trial: Trial<M>,
    station: &mut S,
) -> u8
    requires ready { IsReady (S.meaning station.old) }
    requires most { trial.settings.max_symbols ≡ max_symbols }
    ensures runs { RunsTrial trial.settings trial.number (S.meaning station.old) (S.meaning station.new) result }
{
    match run_and_report(rt, gate, max_symbols, trial, station) {
        Ok(()) => 0,
        Err(refusal) => refuse(&refusal, station),
    }
}
