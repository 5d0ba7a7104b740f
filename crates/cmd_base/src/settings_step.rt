// Reading the settings of a command, before anything else is requested.
ghost use Rattle.std.specs.Prelude.{◌≡◌, ◌≤◌, ◌+◌, ℕ, List, length, drop, true, IfOk, IsTrue, Some, OnOk, OnErr};
ghost use Rattle.station_core.specs.Causes.{Rose};
ghost use Rattle.station_core.specs.Meaning.{IsUnasked};
ghost use Rattle.cmd_base.specs.SettingsFile.{most_settings};
ghost use Rattle.cmd_base.specs.Reading.{ReadsFront};
ghost use Rattle.cmd_base.specs.SettingsStep.{AsksSettings, IsCheck, Checks, ReadsSettings};

use crate::read::fill;
use crate::{Refusal, SettingsRefusal};
use mode_set::Settings;
use station_core::{Failed, InPort, Station};
use std::alloc::Global;

// The greatest length of a settings file.
const MOST: usize = 65_536;

// Opens the file and reads it to its end, or to one byte past the limit.
fn read_bytes<'a, S: Station<'a>>(
    name: &'a str,
    bytes: &mut [u8],
    station: &mut S,
) -> Result<usize, Failed>
    requires unasked { IsUnasked (S.meaning station.old).settings }
    requires size { length bytes.old ≡ most_settings + 1 }
    ensures asks { AsksSettings name.now (S.meaning station.old) (S.meaning station.new) }
    ensures size { length bytes.new ≡ most_settings + 1 }
    ensures within { IfOk result (λ n. n ≤ most_settings + 1) }
    ensures faultless { OnOk result ((S.meaning station.new).read_faults ≡ (S.meaning station.old).read_faults) }
    ensures asked { OnOk result ((S.meaning station.new).settings.asked ≡ Some name.now) }
    ensures attached { OnOk result ((S.meaning station.new).settings.attached ≡ true) }
    ensures left { IfOk result (λ n. (S.meaning station.new).settings.left
        ≡ drop n ((S.meaning station.old).file name.now)) }
    ensures bytes { IfOk result (λ n. IsTrue (S.meaning station.old).tells
        → ReadsFront ((S.meaning station.old).file name.now) (most_settings + 1) n bytes.new) }
    ensures fault { OnErr result (Rose (S.meaning station.old).read_faults (S.meaning station.new).read_faults) }
{
    station.attach(InPort::Settings, name)?;
    fill(station, InPort::Settings, bytes)
}

// The settings that the first bytes of a buffer state, if there are not too many.
fn check(alloc: Global, bytes: &[u8], filled: usize) -> Result<Settings, Refusal>
    requires size { length bytes.now ≡ most_settings + 1 }
    requires within { filled ≤ most_settings + 1 }
    ensures kind { IsCheck result }
    ensures checks { (file : List ℕ) → ReadsFront file (most_settings + 1) filled bytes.now → Checks file result }
{
    if filled > MOST {
        return Err(Refusal::Settings(SettingsRefusal::TooLong));
    }
    match Settings::read(alloc, &bytes[..filled]) {
        Ok(settings) => Ok(settings),
        Err(error) => Err(Refusal::from(error)),
    }
}

// Reads and checks the settings, with a buffer for the bytes of the file.
fn read_into<'a, S: Station<'a>>(
    alloc: Global,
    name: &'a str,
    bytes: &mut [u8],
    station: &mut S,
) -> Result<Settings, Refusal>
    requires unasked { IsUnasked (S.meaning station.old).settings }
    requires size { length bytes.old ≡ most_settings + 1 }
    ensures asks { AsksSettings name.now (S.meaning station.old) (S.meaning station.new) }
    ensures reads { ReadsSettings name.now (S.meaning station.old) (S.meaning station.new) result }
{
    match read_bytes(name, bytes, station) {
        Ok(filled) => check(alloc, bytes, filled),
        Err(_) => Err(Refusal::ReadFault),
    }
}

/// Reads the settings file of this name at the port Settings, where no name was requested before.
///
/// At most 65,537 bytes of it are read. A file of more than 65,536 is rejected as too long, a shorter one because of
/// its document; both depend on its bytes alone. Memory is allocated before the file is opened, and for the document.
pub fn read_settings<'a, S: Station<'a>>(
    alloc: Global,
    name: &'a str,
    station: &mut S,
) -> Result<Settings, Refusal>
    requires unasked { IsUnasked (S.meaning station.old).settings }
    ensures asks { AsksSettings name.now (S.meaning station.old) (S.meaning station.new) }
    ensures reads { ReadsSettings name.now (S.meaning station.old) (S.meaning station.new) result }
{
    let mut bytes = match vec![in alloc; 0u8; MOST + 1] {
        Ok(bytes) => bytes,
        Err(_) => return Err(Refusal::Memory),
    };
    read_into(alloc, name, &mut bytes, station)
}
