// The command.
ghost use Rattle.std.specs.Prelude.{◌≡◌, ◌<◌, ◌^◌, false};
ghost use Rattle.std.specs.Option.{option_copied};
ghost use Rattle.std.specs.Thread.{IsSync};
ghost use Rattle.station_core.specs.Meaning.{IsFresh};
ghost use Rattle.cmd_base.specs.Run.{Run};
ghost use Rattle.cmd_receive.specs.Feeder.{IsFed};
ghost use Rattle.cmd_cells.specs.Runs.{IsReady};
ghost use Rattle.cmd_base.specs.Ports.{stream_names};
ghost use Rattle.cmd_receive.specs.Runs.{RunsOrLacks};
ghost use Rattle.cmd_tune.specs.Working.{tuning_work};
ghost use Rattle.cmd_tune.specs.TuneCommand.{tune_command};

use crate::reception_at_place::Behind;
use crate::tuning_work::TuningWork;
use cmd_base::{Limits, Refusal, read_settings, refuse};
use cmd_cells::{ReceptionFiles, run_cells};
use frame_build::header;
use mode_set::{Carriers, Mode, Mode2k, Mode8k, Settings};
use receiver::{Receiver, RxOut};
use station_core::Station;
use std::alloc::Global;
use std::thread::Threads;
use tune_search::Search;
use word_workers::Gate;

// Allocates a mode's search and one symbol, and runs the tuning through this gate.
fn tune_in_mode<'a, 'r, M: Carriers, R: Threads + Sync, G: Gate, S: Station<'a>>(
    rt: &'r R,
    gate: &'r G,
    alloc: Global,
    settings: &Settings,
    files: ReceptionFiles<'a>,
    station: &mut S,
) -> u8
    requires mode { settings.now.mode ≡ M.MODE }
    requires ready { IsReady (stream_names files.hp.now (option_copied files.lp)) (S.meaning station.old) }
    ensures { RunsOrLacks tuning_work settings.now files.entry.cells.now files.entry.hp.now
        (option_copied files.entry.lp) (S.meaning station.old) (S.meaning station.new) result }
{
    let Ok(mut symbol) = vec![in alloc; 0u8; 5 * M::K as usize] else {
        return refuse(&Refusal::Memory, station);
    };
    // Constructed last: early returns would have to drop it, which is slow to prove.
    let Ok(search) = Search::<M>::new(alloc) else {
        return refuse(&Refusal::Memory, station);
    };
    let feeder = move |receiver: &mut Receiver<M>, piece: &[u8], out: &mut RxOut| -> usize
        requires { IsSync R.row × (receiver.now.ended ≡ false) × (receiver.now.taken < 2 ^ 32) }
        ensures { IsFed receiver.entry.now piece.entry.now receiver.exit.now out.exit.now result }
    { receiver.feed_gated(rt, gate, piece, out) };
    let mut work = TuningWork {
        settings: *settings,
        two: files.lp.is_some(),
        search,
        rt,
        feeder,
        alloc,
        behind: None::<Behind<R, _, Receiver<M>>>,
    };
    run_cells(
        settings.max_symbols,
        files.cells,
        Some(header(settings.mode)),
        &files,
        &mut work,
        &mut symbol,
        station,
    )
}

/// Runs `tune SETTINGS CELLS HP` or, with a file of LP, `tune SETTINGS CELLS HP LP`, and returns its status.
/// `files` are all but the settings.
///
/// Its promise is `Run` of its definition, `tune_command`. The cells begin at any symbol. Of the settings
/// only the mode, the workers and the limit are used; the first readable frame announces the rest. The
/// settings are read and the search is allocated before another file is asked for; the receiver is allocated
/// at the place. The receiver is fed through the gate: no clause depends on it. Decoding at the end of the
/// cells passes no gate.
pub fn tune<'a, R: Threads + Sync, G: Gate, S: Station<'a>>(
    rt: &R,
    alloc: Global,
    gate: &G,
    settings: &'a str,
    files: ReceptionFiles<'a>,
    limits: &Limits,
    station: &mut S,
) -> u8
    requires fresh { IsFresh (S.meaning station.old) }
    ensures { Run (tune_command settings.now files.entry.cells.now files.entry.hp.now (option_copied files.entry.lp))
        limits.now.packets (S.meaning station.old) (S.meaning station.new) result }
{
    reception::laws::symbols();
    reception::laws::events();
    reception::laws::nothing();
    reception::laws::receptions();
    reception::moments::existence();
    reception::moments::beginnings();
    tune_in::one_found();
    tune_search::laws::least_place();
    tune_in::found_stays();
    tune_in::more_bytes();
    reception::workers::workers();
    match read_settings(alloc, settings, station) {
        Ok(accepted) => match accepted.mode {
            Mode::M2k => tune_in_mode::<Mode2k, R, G, S>(
                rt, gate, alloc, &accepted, files, station,
            ),
            Mode::M8k => tune_in_mode::<Mode8k, R, G, S>(
                rt, gate, alloc, &accepted, files, station,
            ),
        },
        Err(refusal) => refuse(&refusal, station),
    }
}
