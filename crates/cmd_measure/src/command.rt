// The command.
ghost use Rattle.std.specs.Prelude.{◌≡◌, ◌<◌, ◌*◌, ◌^◌, false};
ghost use Rattle.std.specs.Thread.{IsSync};
ghost use Rattle.station_core.specs.Meaning.{IsFresh};
ghost use Rattle.cmd_base.specs.Run.{Run};
ghost use Rattle.cmd_cells.specs.Runs.{IsReady};
ghost use Rattle.cmd_measure.specs.Feeder.{IsFed};
ghost use Rattle.cmd_measure.specs.MeasureCommand.{measure_command, no_names};
ghost use Rattle.cmd_measure.specs.Working.{RunsOrLacks};

use crate::measuring_work::MeasuringWork;
use crate::no_files::NoFiles;
use cmd_base::{Limits, Refusal, read_settings, refuse};
use cmd_cells::run_cells;
use frame_build::header;
use measurer::{MeasureOut, Measurer};
use mode_set::{Carriers, Mode, Mode2k, Mode8k, Settings};
use station_core::Station;
use std::alloc::Global;
use std::thread::Threads;
use word_workers::Gate;

// Allocates the memory for a mode's measurer and one symbol, and runs the work through this gate.
// Not inlined: the measurer lies in its frame, and the settings are read on a smaller stack.
#[inline(never)]
fn measure_in<'a, 'r, M: Carriers, R: Threads + Sync, G: Gate, S: Station<'a>>(
    rt: &'r R,
    gate: &'r G,
    alloc: Global,
    settings: &Settings,
    cells: &'a str,
    station: &mut S,
) -> u8
    requires mode { settings.now.mode ≡ M.MODE }
    requires ready { IsReady no_names (S.meaning station.old) }
    ensures { RunsOrLacks settings.now cells.now (S.meaning station.old) (S.meaning station.new) result }
{
    let Ok(out) = MeasureOut::new(alloc) else {
        return refuse(&Refusal::Memory, station);
    };
    let Ok(mut symbol) = vec![in alloc; 0u8; 5 * M::K as usize] else {
        return refuse(&Refusal::Memory, station);
    };
    // Constructed last: early returns would have to drop it, which is slow to prove.
    let Ok(measurer) = Measurer::<M>::new(alloc, settings) else {
        return refuse(&Refusal::Memory, station);
    };
    let feeder = move |measurer: &mut Measurer<M>, piece: &[u8], out: &mut MeasureOut| -> usize
        requires { IsSync R.row × (measurer.now.ended ≡ false) × (measurer.now.taken < 2 ^ 32) }
        ensures { IsFed (5 * M.K) measurer.entry.now piece.entry.now measurer.exit.now out.exit.now result }
    { measurer.feed_gated(rt, gate, piece, out) };
    let mut work = MeasuringWork {
        rt,
        feeder,
        measurer,
        out,
    };
    run_cells(
        settings.max_symbols,
        cells,
        Some(header(settings.mode)),
        &NoFiles,
        &mut work,
        &mut symbol,
        station,
    )
}

/// Runs `measure SETTINGS CELLS` and returns its status: the sums of each super-frame are reported with the symbol that
/// defines them, and at the end the remaining sums and the closing lines of `receive`. CELLS is a cell file of version
/// 2 that begins at the first symbol of a super-frame. The measurements are those of ETSI TR 101 290, 9.15 to 9.18.
///
/// Its promise is `Run` of its definition, `measure_command`. The settings are read and checked, and then all memory is
/// allocated, before CELLS is opened. The report is the only output. The measurer is fed through the gate; no clause
/// depends on it.
pub fn measure<'a, R: Threads + Sync, G: Gate, S: Station<'a>>(
    rt: &R,
    alloc: Global,
    gate: &G,
    settings: &'a str,
    cells: &'a str,
    limits: &Limits,
    station: &mut S,
) -> u8
    requires fresh { IsFresh (S.meaning station.old) }
    ensures { Run (measure_command settings.now cells.now) limits.now.packets (S.meaning station.old)
        (S.meaning station.new) result }
{
    reception::laws::symbols();
    reception::laws::receptions();
    reception::moments::existence();
    measurement::laws::sums_stay();
    measurement::laws::one_sums();
    measurement::laws::beginnings();
    law_measurement::laws::lines_add_up();
    law_measurement::laws::decided_cells_are_sent();
    law_measurement::laws::transmissions_are_measured();
    match read_settings(alloc, settings, station) {
        Ok(accepted) => match accepted.mode {
            Mode::M2k => measure_in::<Mode2k, R, G, S>(rt, gate, alloc, &accepted, cells, station),
            Mode::M8k => measure_in::<Mode8k, R, G, S>(rt, gate, alloc, &accepted, cells, station),
        },
        Err(refusal) => refuse(&refusal, station),
    }
}
