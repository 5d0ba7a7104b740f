// The command.
ghost use Rattle.station_core.specs.Meaning.{IsFresh};
ghost use Rattle.cmd_base.specs.Run.{Run};
ghost use Rattle.cmd_cells.specs.Outputs.{cell_names};
ghost use Rattle.cmd_cells.specs.Runs.{IsReady};
ghost use Rattle.cmd_convert.specs.Runs.{RunsOrLacks};
ghost use Rattle.cmd_convert.specs.Upgrading.{upgrading};
ghost use Rattle.cmd_convert.specs.UpgradeCommand.{upgrade_command};

use crate::run_conversion;
use crate::upgrader::Upgrader;
use cmd_base::{Limits, Refusal, read_settings, refuse};
use mode_set::Settings;
use station_core::Station;
use std::alloc::Global;

// Allocates the memory for a symbol of each version, and upgrades the old cells.
fn upgrade_accepted<'a, S: Station<'a>>(
    alloc: Global,
    settings: &Settings,
    old_cells: &'a str,
    new_cells: &'a str,
    station: &mut S,
) -> u8
    requires ready { IsReady (cell_names new_cells.now) (S.meaning station.old) }
    ensures { RunsOrLacks (upgrading settings.now.mode) settings.now.max_symbols old_cells.now new_cells.now
        (S.meaning station.old) (S.meaning station.new) result }
{
    let carriers = settings.mode.carriers() as usize;
    let Ok(mut symbol) = vec![in alloc; 0u8; 4 * carriers] else {
        return refuse(&Refusal::Memory, station);
    };
    let Ok(room) = vec![in alloc; 0u8; 5 * carriers] else {
        return refuse(&Refusal::Memory, station);
    };
    let upgrader = Upgrader {
        mode: settings.mode,
        room,
    };
    run_conversion(
        settings.max_symbols,
        None,
        upgrader,
        &mut symbol,
        old_cells,
        new_cells,
        station,
    )
}

/// Runs `upgrade SETTINGS OLD NEW` and returns its status: the cells of OLD, a file of version 1, are written to NEW as
/// a file of version 2.
///
/// Its promise is `Run` of its definition, `upgrade_command`. The settings are read and checked; only the mode and the
/// limit of symbols matter. Then all memory is allocated, before another port is requested. OLD is opened before NEW is
/// created. The limits of packets do not apply.
pub fn upgrade<'a, S: Station<'a>>(
    alloc: Global,
    settings: &'a str,
    old_cells: &'a str,
    new_cells: &'a str,
    limits: &Limits,
    station: &mut S,
) -> u8
    requires fresh { IsFresh (S.meaning station.old) }
    ensures { Run (upgrade_command settings.now old_cells.now new_cells.now) limits.now.packets (S.meaning station.old)
        (S.meaning station.new) result }
{
    law_link::upgraded::upgraded_costs();
    match read_settings(alloc, settings, station) {
        Ok(accepted) => upgrade_accepted(alloc, &accepted, old_cells, new_cells, station),
        Err(refusal) => refuse(&refusal, station),
    }
}
