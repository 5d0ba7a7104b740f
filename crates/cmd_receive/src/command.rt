// The command.
ghost use Rattle.std.specs.Prelude.{◌≡◌, ◌<◌, ◌^◌, false};
ghost use Rattle.std.specs.Option.{option_copied};
ghost use Rattle.station_core.specs.Meaning.{IsFresh};
ghost use Rattle.cmd_base.specs.Run.{Run};
ghost use Rattle.std.specs.Thread.{IsSync};
ghost use Rattle.cmd_receive.specs.Feeder.{IsFed};
ghost use Rattle.cmd_cells.specs.Runs.{IsReady};
ghost use Rattle.cmd_cells.specs.Outputs.{stream_names};
ghost use Rattle.cmd_receive.specs.Runs.{RunsOrLacks};
ghost use Rattle.cmd_receive.specs.Working.{reception_work};
ghost use Rattle.cmd_receive.specs.ReceiveCommand.{receive_command};

use crate::reception_work::ReceptionWork;
use cmd_base::{Limits, Refusal, read_fitting, refuse};
use cmd_cells::{ReceptionFiles, run_cells};
use code_paths::shared_begins_least;
use frame_build::header;
use mode_set::{Carriers, Mode, Mode2k, Mode8k, Settings};
use receiver::{Receiver, RxOut};
use station_core::Station;
use std::alloc::Global;
use std::thread::Threads;
use word_workers::Gate;

// Allocates the memory for a mode's receiver and one symbol, and runs the reception through this gate.
fn receive_in<'a, 'r, M: Carriers, R: Threads + Sync, G: Gate, S: Station<'a>>(
    rt: &'r R,
    gate: &'r G,
    alloc: Global,
    settings: &Settings,
    files: ReceptionFiles<'a>,
    station: &mut S,
) -> u8
    requires mode { settings.now.mode ≡ M.MODE }
    requires ready { IsReady (stream_names files.hp.now (option_copied files.lp)) (S.meaning station.old) }
    ensures { RunsOrLacks reception_work settings.now files.entry.cells.now files.entry.hp.now
        (option_copied files.entry.lp) (S.meaning station.old) (S.meaning station.new) result }
{
    let Ok(out) = RxOut::new(alloc) else {
        return refuse(&Refusal::Memory, station);
    };
    let Ok(mut symbol) = vec![in alloc; 0u8; 5 * M::K as usize] else {
        return refuse(&Refusal::Memory, station);
    };
    // Constructed last: early returns would have to drop it, which is slow to prove.
    let Ok(receiver) = Receiver::<M>::new(alloc, settings) else {
        return refuse(&Refusal::Memory, station);
    };
    let feeder = move |receiver: &mut Receiver<M>, piece: &[u8], out: &mut RxOut| -> usize
        requires { IsSync R.row × (receiver.now.ended ≡ false) × (receiver.now.taken < 2 ^ 32) }
        ensures { IsFed receiver.entry.now piece.entry.now receiver.exit.now out.exit.now result }
    { receiver.feed_gated(rt, gate, piece, out) };
    let mut work = ReceptionWork {
        rt,
        feeder,
        receiver,
        out,
        two: files.lp.is_some(),
    };
    run_cells(
        settings.max_symbols,
        files.cells,
        Some(header(settings.mode)),
        &files,
        &mut work,
        &mut symbol,
        station,
    )
}

/// Runs `receive SETTINGS CELLS HP` or, with an LP file, `receive SETTINGS CELLS HP LP`, and returns its status.
/// `files` are all files but the settings.
///
/// Its promise is `Run` of its definition, `receive_command`. The settings are read and checked, and then all memory is
/// allocated, before another port is requested; the cells are opened, and their header is read, before an output is
/// created. The receiver is fed through the gate; no clause depends on it. The decoding at the end passes no gate.
pub fn receive<'a, R: Threads + Sync, G: Gate, S: Station<'a>>(
    rt: &R,
    alloc: Global,
    gate: &G,
    settings: &'a str,
    files: ReceptionFiles<'a>,
    limits: &Limits,
    station: &mut S,
) -> u8
    requires fresh { IsFresh (S.meaning station.old) }
    ensures { Run (receive_command settings.now files.entry.cells.now files.entry.hp.now (option_copied files.entry.lp))
        limits.now.packets (S.meaning station.old) (S.meaning station.new) result }
{
    reception::workers::workers();
    law_link::laws::noise();
    reception::laws::symbols();
    reception::laws::events();
    reception::laws::nothing();
    reception::laws::receptions();
    reception::moments::existence();
    reception::moments::beginnings();
    law_link::laws::own_cells();
    law_link::laws::packets_then_nulls();
    shared_begins_least();
    match read_fitting(alloc, settings, files.lp, station) {
        Ok(accepted) => match accepted.mode {
            Mode::M2k => receive_in::<Mode2k, R, G, S>(rt, gate, alloc, &accepted, files, station),
            Mode::M8k => receive_in::<Mode8k, R, G, S>(rt, gate, alloc, &accepted, files, station),
        },
        Err(refusal) => refuse(&refusal, station),
    }
}
