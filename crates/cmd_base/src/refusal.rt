// Why a run stops.
ghost use Rattle.std.specs.Prelude.{◌≡◌};
ghost use Rattle.cmd_base.specs.SettingsFile.{refused_as};

use mode_set::{Key, SettingsError, Stream};

/// Why a settings file is rejected. All reasons have status 3.
#[derive(Clone, Copy, Debug, PartialEq, Eq)]
pub enum SettingsRefusal {
    /// It has more than 65,536 bytes.
    TooLong,
    /// It is not a TOML document.
    NotToml,
    /// An unknown key; its index among all keys in byte order, from 0.
    Unknown(u32),
    /// A mandatory key is absent.
    Missing(Key),
    /// The value of a key has the wrong type or is not allowed.
    Value(Key),
    /// Two keys contradict each other; the later of them in the table's order is named.
    Clash(Key),
    /// An LP file is given but LP does not exist in the settings, or the reverse.
    Form,
}

/// Why a file of cells is rejected. Each reason has a status of its own.
#[derive(Clone, Copy, Debug, PartialEq, Eq)]
pub enum CellsRefusal {
    /// It does not begin with the header of the settings' mode: status 9.
    Header,
    /// It ends without a frame of a transmission: status 10.
    NoPlace,
    /// It announces a hierarchy and no LP file is given, or the reverse: status 11.
    AnnouncedForm,
}

/// Why a run has stopped. Each reason has a status and a text in the report.
#[derive(Clone, Copy, Debug, PartialEq, Eq)]
pub enum Refusal {
    /// Invalid command line: status 2.
    Usage,
    /// The settings are rejected: status 3.
    Settings(SettingsRefusal),
    /// A file could not be opened or read: status 5.
    ReadFault,
    /// A file could not be created, written or closed: status 6.
    WriteFault,
    /// The packet of this number, from 0, does not begin with the sync byte: status 4.
    NotSync(Stream, u64),
    /// Lack of memory: status 7.
    Memory,
    /// An input has more packets, or there are more symbols, than this limit: status 8.
    Limit(u64),
    /// The cells are rejected.
    Cells(CellsRefusal),
}

impl From<SettingsError> for Refusal {
    /// Lack of memory is no fault of the settings, and has its own refusal.
    fn from(error: SettingsError) -> Refusal
        ensures refusal { result ≡ refused_as error }
    {
        match error {
            SettingsError::NotToml => Refusal::Settings(SettingsRefusal::NotToml),
            SettingsError::Unknown(place) => Refusal::Settings(SettingsRefusal::Unknown(place)),
            SettingsError::Missing(key) => Refusal::Settings(SettingsRefusal::Missing(key)),
            SettingsError::Value(key) => Refusal::Settings(SettingsRefusal::Value(key)),
            SettingsError::Clash(key) => Refusal::Settings(SettingsRefusal::Clash(key)),
            SettingsError::Memory => Refusal::Memory,
        }
    }
}
