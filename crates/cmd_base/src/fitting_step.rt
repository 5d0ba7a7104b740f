// The settings of a command with one stream or two, which fit its arguments.
ghost use Rattle.std.specs.Option.{option_copied};
ghost use Rattle.station_core.specs.Meaning.{IsUnasked};
ghost use Rattle.cmd_base.specs.FittingStep.{Accepts};
ghost use Rattle.cmd_base.specs.SettingsStep.{AsksSettings};

use crate::settings_step::read_settings;
use crate::{Refusal, SettingsRefusal};
use mode_set::Settings;
use station_core::Station;
use std::alloc::Global;

/// Reads the settings file of this name, as [`read_settings`] does, and rejects settings that do not fit the arguments:
/// an LP file is given exactly if LP exists in the settings.
pub fn read_fitting<'a, S: Station<'a>>(
    alloc: Global,
    name: &'a str,
    lp: Option<&'a str>,
    station: &mut S,
) -> Result<Settings, Refusal>
    requires unasked { IsUnasked (S.meaning station.old).settings }
    ensures asks { AsksSettings name.now (S.meaning station.old) (S.meaning station.new) }
    ensures accepts { Accepts name.now (option_copied lp.entry) (S.meaning station.old) (S.meaning station.new) result }
{
    let settings = read_settings(alloc, name, station)?;
    if lp.is_some() != settings.has_lp() {
        return Err(Refusal::Settings(SettingsRefusal::Form));
    }
    Ok(settings)
}
