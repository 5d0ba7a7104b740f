// The command.
ghost use Rattle.std.specs.Prelude.{◌≡◌, ◌≤◌, true};
ghost use Rattle.std.specs.Option.{option_copied};
ghost use Rattle.station_core.specs.Meaning.{IsFresh};
ghost use Rattle.cmd_base.specs.Run.{Run};
ghost use Rattle.cmd_base.specs.StreamForm.{fits_form};
ghost use Rattle.cmd_modulate.specs.ModulateCommand.{modulate_command};
ghost use Rattle.cmd_modulate.specs.Steps.{IsReady, RunsOrLacks};

use crate::run::{Names, modulate_all};
use cmd_base::{Limits, Refusal, read_fitting, refuse};
use mode_set::{Carriers, Mode, Mode2k, Mode8k, Settings};
use modulator::Modulator;
use station_core::Station;
use std::alloc::Global;

// Allocates the memory for a mode's modulator and one symbol, and runs the modulation.
// A call of its own: a modulator is large, and no other command should pay for its room on the stack.
#[inline(never)]
fn modulate_in<'a, M: Carriers, S: Station<'a>>(
    alloc: Global,
    settings: &Settings,
    names: Names<'a>,
    limits: &Limits,
    station: &mut S,
) -> u8
    requires mode { settings.now.mode ≡ M.MODE }
    requires form { fits_form settings.now (option_copied names.lp) ≡ true }
    requires few { limits.now.packets ≤ 100000000 }
    requires ready { IsReady (S.meaning station.old) }
    ensures { RunsOrLacks settings.now limits.now.packets names.entry.hp.now (option_copied names.entry.lp)
        names.entry.cells.now (S.meaning station.old) (S.meaning station.new) result }
{
    let Ok(mut bytes) = vec![in alloc; 0u8; 5 * M::K as usize] else {
        return refuse(&Refusal::Memory, station);
    };
    // Constructed last: early returns would have to drop it, which is slow to prove.
    let Ok(mut tx) = Modulator::<M>::new(alloc, settings) else {
        return refuse(&Refusal::Memory, station);
    };
    match modulate_all(names, limits, settings, &mut tx, &mut bytes, station) {
        Ok(_) => 0,
        Err(refusal) => refuse(&refusal, station),
    }
}

/// Runs `modulate SETTINGS HP CELLS` or, with an LP file, `modulate SETTINGS HP LP CELLS`, and returns its status.
///
/// The settings are read and checked, and then all memory is allocated, before another port is requested.
pub fn modulate<'a, S: Station<'a>>(
    alloc: Global,
    settings: &'a str,
    hp: &'a str,
    lp: Option<&'a str>,
    cells: &'a str,
    limits: &Limits,
    station: &mut S,
) -> u8
    requires fresh { IsFresh (S.meaning station.old) }
    requires few { limits.now.packets ≤ 100000000 }
    ensures { Run (modulate_command settings.now hp.now (option_copied lp.entry) cells.now) limits.now.packets
        (S.meaning station.old) (S.meaning station.new) result }
{
    match read_fitting(alloc, settings, lp, station) {
        Ok(accepted) => {
            let names = Names { hp, lp, cells };
            match accepted.mode {
                Mode::M2k => modulate_in::<Mode2k, S>(alloc, &accepted, names, limits, station),
                Mode::M8k => modulate_in::<Mode8k, S>(alloc, &accepted, names, limits, station),
            }
        }
        Err(refusal) => refuse(&refusal, station),
    }
}
