// The command.
ghost use Rattle.std.specs.Prelude.{◌≡◌};
ghost use Rattle.station_core.specs.Meaning.{IsFresh};
ghost use Rattle.cmd_base.specs.Run.{Run};
ghost use Rattle.cmd_base.specs.Ports.{cell_names};
ghost use Rattle.cmd_cells.specs.Runs.{IsReady};
ghost use Rattle.cmd_track.specs.TrackCommand.{track_command};
ghost use Rattle.cmd_track.specs.Working.{RunsOrLacks};

use crate::tracking_work::TrackingWork;
use cmd_base::{Limits, Refusal, read_settings, refuse};
use cmd_cells::{CellFile, run_cells};
use frame_build::{SymbolIn, header};
use mode_set::{Carriers, Mode, Mode2k, Mode8k, Settings};
use station_core::Station;
use std::alloc::Global;
use tracker::Tracker;

// Allocates the memory for a symbol as bytes, as cells and corrected, and for a tracker, and tracks the cells.
fn track_in<'a, M: Carriers, S: Station<'a>>(
    alloc: Global,
    settings: &Settings,
    old_cells: &'a str,
    new_cells: &'a str,
    station: &mut S,
) -> u8
    requires mode { settings.now.mode ≡ M.MODE }
    requires ready { IsReady (cell_names new_cells.now) (S.meaning station.old) }
    ensures { RunsOrLacks settings.now old_cells.now new_cells.now (S.meaning station.old) (S.meaning station.new)
        result }
{
    let size = 5 * M::K as usize;
    let Ok(mut bytes) = vec![in alloc; 0u8; size] else {
        return refuse(&Refusal::Memory, station);
    };
    let Ok(symbol) = SymbolIn::<M>::new(alloc) else {
        return refuse(&Refusal::Memory, station);
    };
    let Ok(room) = Vec::with_capacity(alloc, size) else {
        return refuse(&Refusal::Memory, station);
    };
    let Ok(tracker) = Tracker::<M>::new(alloc, settings) else {
        return refuse(&Refusal::Memory, station);
    };
    let mut work = TrackingWork {
        tracker,
        symbol,
        room,
        symbols: 0,
        tail: 0,
    };
    let files = CellFile { name: new_cells };
    run_cells(
        settings.max_symbols,
        old_cells,
        Some(header(M::MODE)),
        &files,
        &mut work,
        &mut bytes,
        station,
    )
}

/// Runs `track SETTINGS IN OUT` and returns its status: the cells of IN are corrected by the scattered pilots of
/// neighbouring symbols (EN 300 744, 4.5.3), and written to OUT with weights from the noise. Both are cell files of
/// version 2, and IN begins at the first symbol of a super-frame.
///
/// Its promise is `Run` of its definition, `track_command`. The settings are read and checked; only the mode, the guard
/// interval, the constellation of each super-frame and the limit of symbols matter. Then all memory is allocated,
/// before another port is requested. IN is opened, and its header is read, before OUT is created. The limits of packets
/// do not apply.
///
/// Its own laws: symbols once in OUT stay, whatever follows in IN; if the cells of IN are a transmission received
/// through a flat channel, each cell of OUT is close to the one sent, and a receiver gives the packets for OUT; the
/// gain of a channel that does not change is exact; and more power never gives a lower weight.
pub fn track<'a, S: Station<'a>>(
    alloc: Global,
    settings: &'a str,
    old_cells: &'a str,
    new_cells: &'a str,
    limits: &Limits,
    station: &mut S,
) -> u8
    requires fresh { IsFresh (S.meaning station.old) }
    ensures { Run (track_command settings.now old_cells.now new_cells.now) limits.now.packets (S.meaning station.old)
        (S.meaning station.new) result }
{
    reception::laws::symbols();
    tracking::laws::live_symbols_stay();
    tracking::laws::greater_powers_weigh_more();
    law_tracking::gains::steady_gains_are_exact();
    law_tracking::laws::flat_gain_is_tracked();
    match read_settings(alloc, settings, station) {
        Ok(accepted) => match accepted.mode {
            Mode::M2k => track_in::<Mode2k, S>(alloc, &accepted, old_cells, new_cells, station),
            Mode::M8k => track_in::<Mode8k, S>(alloc, &accepted, old_cells, new_cells, station),
        },
        Err(refusal) => refuse(&refusal, station),
    }
}
