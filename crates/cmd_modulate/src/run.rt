// A whole run after its settings.
ghost use Rattle.std.specs.Prelude.{◌≡◌, ◌≤◌, ◌<◌, ◌*◌, true, length};
ghost use Rattle.std.specs.Option.{option_copied};
ghost use Rattle.transmission.specs.Transmission.{Inputs};
ghost use Rattle.modulator.specs.State.{HasPut};
ghost use Rattle.cmd_base.specs.StreamForm.{fits_form};
ghost use Rattle.cmd_base.specs.Causes.{HasEndCause};
ghost use Rattle.cmd_modulate.specs.ModulateCommand.{files_of};
ghost use Rattle.cmd_modulate.specs.Seen.{seen_of};
ghost use Rattle.cmd_modulate.specs.Steps.{IsAccepted, IsNew, IsReady, Ran};

use crate::counts::TransmissionCounts;
use crate::inputs::PacketInputs;
use crate::steps::{close_refused, finish, open};
use crate::symbols::send_file;
use cmd_base::{Limits, Refusal};
use mode_set::{Carriers, Settings};
use modulator::Modulator;
use station_core::Station;
use transmission::laws::{symbols, work};

/// The names of the files of a modulation.
#[derive(Clone, Copy)]
pub(crate) struct Names<'a> {
    /// The transport file of high priority, or the only one.
    pub hp: &'a str,
    /// The transport file of low priority, if there is one.
    pub lp: Option<&'a str>,
    /// The file of cells to write.
    pub cells: &'a str,
}

/// Does a modulation with this modulator, which has had no packet, from opening the ports to closing them. `bytes`
/// has the length of a symbol.
pub(crate) fn modulate_all<'a, M: Carriers, S: Station<'a>>(
    names: Names<'a>,
    limits: &Limits,
    settings: &Settings,
    tx: &mut Modulator<M>,
    bytes: &mut [u8],
    station: &mut S,
) -> Result<TransmissionCounts, Refusal>
    requires ready { IsReady (S.meaning station.old) }
    requires few { limits.now.packets ≤ 100000000 }
    requires same { tx.old.settings ≡ settings.now }
    requires form { fits_form tx.old.settings (option_copied names.lp) ≡ true }
    requires new { IsNew (seen_of tx.old) }
    requires stands { (inputs : Inputs) → HasPut tx.old inputs }
    requires long { length bytes.old ≡ 5 * M.K }
    requires some { 0 < 5 * M.K }
    ensures cause { HasEndCause ((S.meaning station.old).tells ≡ true
        → IsAccepted tx.old.settings limits.now.packets
        (files_of (S.meaning station.old).file names.entry.hp.now (option_copied names.entry.lp)))
        (S.meaning station.old) (S.meaning station.new) result }
    ensures ran { Ran tx.old.settings limits.now.packets names.entry.hp.now (option_copied names.entry.lp)
        names.entry.cells.now (S.meaning station.old) (S.meaning station.new) result }
{
    work();
    symbols();
    open(names.hp, names.lp, names.cells, station)?;
    let two = names.lp.is_some();
    match send_file(
        limits,
        settings,
        PacketInputs::first(two),
        tx,
        bytes,
        station,
    ) {
        Ok(counts) => finish(two, counts, station),
        Err(refusal) => Err(close_refused(refusal, station)),
    }
}
