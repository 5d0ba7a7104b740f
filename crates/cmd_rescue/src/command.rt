// The command.
ghost use Rattle.std.specs.Prelude.{◌≡◌};
ghost use Rattle.std.specs.Option.{option_copied};
ghost use Rattle.station_core.specs.Meaning.{IsFresh};
ghost use Rattle.cmd_base.specs.Run.{Run};
ghost use Rattle.cmd_cells.specs.Runs.{IsReady};
ghost use Rattle.cmd_cells.specs.Outputs.{stream_names};
ghost use Rattle.cmd_receive.specs.Runs.{RunsOrLacks};
ghost use Rattle.cmd_rescue.specs.Working.{rescue_work};
ghost use Rattle.cmd_rescue.specs.RescueCommand.{rescue_command};

use crate::work::RescueWork;
use cmd_base::{Limits, Refusal, read_fitting, refuse};
use cmd_cells::{ReceptionFiles, run_cells};
use frame_build::header;
use mode_set::{Carriers, Mode, Mode2k, Mode8k, Settings};
use rescue::{Rescue, RxOut};
use station_core::Station;
use std::alloc::Global;
use std::thread::Threads;

// Allocates the memory for a mode's receiver and one symbol, and runs the reception.
// Not inlined: the decoders' values lie in its frame, and the settings are read on a smaller stack.
#[inline(never)]
fn rescue_in<'a, 'r, M: Carriers, R: Threads + Sync, S: Station<'a>>(
    rt: &'r R,
    alloc: Global,
    settings: &Settings,
    files: ReceptionFiles<'a>,
    station: &mut S,
) -> u8
    requires mode { settings.now.mode ≡ M.MODE }
    requires ready { IsReady (stream_names files.hp.now (option_copied files.lp)) (S.meaning station.old) }
    ensures { RunsOrLacks rescue_work settings.now files.entry.cells.now files.entry.hp.now
        (option_copied files.entry.lp) (S.meaning station.old) (S.meaning station.new) result }
{
    let Ok(out) = RxOut::new(alloc) else {
        return refuse(&Refusal::Memory, station);
    };
    let Ok(mut symbol) = vec![in alloc; 0u8; 5 * M::K as usize] else {
        return refuse(&Refusal::Memory, station);
    };
    // Constructed last: early returns would have to drop it, which is slow to prove.
    let Ok(receiver) = Rescue::<M>::new(alloc, settings) else {
        return refuse(&Refusal::Memory, station);
    };
    let mut work = RescueWork {
        rt,
        receiver,
        out,
        two: files.lp.is_some(),
    };
    run_cells(
        settings.max_symbols,
        files.cells,
        Some(header(settings.mode)),
        &files,
        &mut work,
        &mut symbol,
        station,
    )
}

/// Runs `rescue SETTINGS CELLS HP` or, with an LP file, `rescue SETTINGS CELLS HP LP`, and returns its status. `files`
/// are all files but the settings.
///
/// Its promise is `Run` of its definition, `rescue_command`. The settings are read and checked, and then all memory is
/// allocated, before another port is requested; the cells are opened, and their header is read, before an output is
/// created.
pub fn rescue<'a, R: Threads + Sync, S: Station<'a>>(
    rt: &R,
    alloc: Global,
    settings: &'a str,
    files: ReceptionFiles<'a>,
    limits: &Limits,
    station: &mut S,
) -> u8
    requires fresh { IsFresh (S.meaning station.old) }
    ensures { Run (rescue_command settings.now files.entry.cells.now files.entry.hp.now (option_copied files.entry.lp))
        limits.now.packets (S.meaning station.old) (S.meaning station.new) result }
{
    reception::laws::symbols();
    reception::laws::events();
    rescue::laws::nothing();
    rescue::laws::receptions();
    rescue::laws::existence();
    rescue::laws::beginnings();
    rescue::laws::workers();
    match read_fitting(alloc, settings, files.lp, station) {
        Ok(accepted) => match accepted.mode {
            Mode::M2k => rescue_in::<Mode2k, R, S>(rt, alloc, &accepted, files, station),
            Mode::M8k => rescue_in::<Mode8k, R, S>(rt, alloc, &accepted, files, station),
        },
        Err(refusal) => refuse(&refusal, station),
    }
}
