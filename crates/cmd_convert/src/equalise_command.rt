// The command.
ghost use Rattle.std.specs.Prelude.{◌≡◌};
ghost use Rattle.station_core.specs.Meaning.{IsFresh};
ghost use Rattle.cmd_base.specs.Run.{Run};
ghost use Rattle.cmd_cells.specs.Outputs.{cell_names};
ghost use Rattle.cmd_cells.specs.Runs.{IsReady};
ghost use Rattle.cmd_convert.specs.Runs.{RunsOrLacks};
ghost use Rattle.cmd_convert.specs.Equalising.{equalisation};
ghost use Rattle.cmd_convert.specs.EqualiseCommand.{equalise_command};

use crate::equaliser::Equaliser;
use crate::run_conversion;
use cmd_base::{Limits, Refusal, read_settings, refuse};
use frame_build::{SymbolIn, header};
use mode_set::{Carriers, Mode, Mode2k, Mode8k, Settings};
use station_core::Station;
use std::alloc::Global;

// Allocates the memory for a symbol as bytes, as cells and corrected, and corrects the cells.
fn equalise_in<'a, M: Carriers, S: Station<'a>>(
    alloc: Global,
    settings: &Settings,
    old_cells: &'a str,
    new_cells: &'a str,
    station: &mut S,
) -> u8
    requires mode { settings.now.mode ≡ M.MODE }
    requires ready { IsReady (cell_names new_cells.now) (S.meaning station.old) }
    ensures { RunsOrLacks (equalisation M.MODE) settings.now.max_symbols old_cells.now new_cells.now
        (S.meaning station.old) (S.meaning station.new) result }
{
    let size = 5 * M::K as usize;
    let Ok(mut bytes) = vec![in alloc; 0u8; size] else {
        return refuse(&Refusal::Memory, station);
    };
    let Ok(symbol) = SymbolIn::<M>::new(alloc) else {
        return refuse(&Refusal::Memory, station);
    };
    let Ok(room) = vec![in alloc; 0u8; size] else {
        return refuse(&Refusal::Memory, station);
    };
    run_conversion(
        settings.max_symbols,
        Some(header(M::MODE)),
        Equaliser::<M> { symbol, room },
        &mut bytes,
        old_cells,
        new_cells,
        station,
    )
}

/// Runs `equalise SETTINGS IN OUT` and returns its status: the cells of IN are corrected by the pilots of their own
/// symbols (EN 300 744, 4.5), and written to OUT. Both are cell files of version 2, and IN begins at the first symbol
/// of a super-frame.
///
/// Its promise is `Run` of its definition, `equalise_command`. The settings are read and checked; only the mode and the
/// limit of symbols matter. Then all memory is allocated, before another port is requested. IN is opened, and its
/// header is read, before OUT is created. The limits of packets do not apply.
///
/// Its own law: if the cells of IN are a transmission received through a flat channel, each cell of OUT is close to the
/// one sent, and a receiver gives the packets for OUT.
pub fn equalise<'a, S: Station<'a>>(
    alloc: Global,
    settings: &'a str,
    old_cells: &'a str,
    new_cells: &'a str,
    limits: &Limits,
    station: &mut S,
) -> u8
    requires fresh { IsFresh (S.meaning station.old) }
    ensures { Run (equalise_command settings.now old_cells.now new_cells.now) limits.now.packets (S.meaning station.old)
        (S.meaning station.new) result }
{
    law_link::flat_gain::files_come_back();
    match read_settings(alloc, settings, station) {
        Ok(accepted) => match accepted.mode {
            Mode::M2k => equalise_in::<Mode2k, S>(alloc, &accepted, old_cells, new_cells, station),
            Mode::M8k => equalise_in::<Mode8k, S>(alloc, &accepted, old_cells, new_cells, station),
        },
        Err(refusal) => refuse(&refusal, station),
    }
}
