// The command.
ghost use Rattle.std.specs.Prelude.{◌≡◌};
ghost use Rattle.station_core.specs.Meaning.{IsFresh};
ghost use Rattle.cmd_base.specs.Run.{Run};
ghost use Rattle.cmd_base.specs.Ports.{cell_names};
ghost use Rattle.cmd_cells.specs.Runs.{IsReady};
ghost use Rattle.cmd_align.specs.AlignCommand.{align_command};
ghost use Rattle.cmd_align.specs.Working.{RunsOrLacks};

use crate::aligning_work::AligningWork;
use crate::copying::Copying;
use cmd_base::{Limits, Refusal, read_settings, refuse};
use cmd_cells::{CellFile, run_cells};
use frame_build::header;
use mode_set::{Carriers, Mode, Mode2k, Mode8k, Settings};
use station_core::Station;
use std::alloc::Global;
use tune_search::Search;

// Allocates the memory for a mode's search and one symbol, and runs the work.
fn align_in<'a, M: Carriers, S: Station<'a>>(
    alloc: Global,
    settings: &Settings,
    old_cells: &'a str,
    new_cells: &'a str,
    station: &mut S,
) -> u8
    requires mode { settings.now.mode ≡ M.MODE }
    requires ready { IsReady (cell_names new_cells.now) (S.meaning station.old) }
    ensures { RunsOrLacks settings.now old_cells.now new_cells.now (S.meaning station.old) (S.meaning station.new)
        result }
{
    let Ok(mut symbol) = vec![in alloc; 0u8; 5 * M::K as usize] else {
        return refuse(&Refusal::Memory, station);
    };
    // Constructed last: early returns would have to drop it, which is slow to prove.
    let Ok(search) = Search::<M>::new(alloc) else {
        return refuse(&Refusal::Memory, station);
    };
    let mut work = AligningWork {
        settings: *settings,
        search,
        copying: None::<Copying>,
    };
    let files = CellFile { name: new_cells };
    run_cells(
        settings.max_symbols,
        old_cells,
        Some(header(settings.mode)),
        &files,
        &mut work,
        &mut symbol,
        station,
    )
}

/// Runs `align SETTINGS IN OUT` and returns its status: from the super-frame after the first readable frame on, the
/// whole symbols of IN are copied to OUT, byte for byte. Both are cell files of version 2, and IN begins at any symbol.
///
/// Its promise is `Run` of its definition, `align_command`. The settings are read and checked; only the mode and the
/// limit of symbols matter. Then all memory is allocated, before another port is requested. IN is opened, and its
/// header is read, before OUT is created. If IN holds no place the status is 10, and OUT holds only the header. The
/// limits of packets have no effect.
///
/// Its own laws: the place is the least one, and with the announced settings a receiver gives for OUT what it gives for
/// IN from the next super-frame on.
pub fn align<'a, S: Station<'a>>(
    alloc: Global,
    settings: &'a str,
    old_cells: &'a str,
    new_cells: &'a str,
    limits: &Limits,
    station: &mut S,
) -> u8
    requires fresh { IsFresh (S.meaning station.old) }
    ensures { Run (align_command settings.now old_cells.now new_cells.now) limits.now.packets (S.meaning station.old)
        (S.meaning station.new) result }
{
    reception::laws::symbols();
    tune_in::more_bytes();
    tune_search::laws::least_place();
    reception::whole_symbols::whole_symbols();
    match read_settings(alloc, settings, station) {
        Ok(accepted) => match accepted.mode {
            Mode::M2k => align_in::<Mode2k, S>(alloc, &accepted, old_cells, new_cells, station),
            Mode::M8k => align_in::<Mode8k, S>(alloc, &accepted, old_cells, new_cells, station),
        },
        Err(refusal) => refuse(&refusal, station),
    }
}
