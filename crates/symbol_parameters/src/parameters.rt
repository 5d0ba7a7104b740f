// The parameters of a symbol.
ghost use Rattle.std.specs.Prelude.{◌≡◌, ◌/◌, ◌<◌, ◌^◌};
ghost use Rattle.mode_set.specs.Entries.{entry, with_entry};
ghost use Rattle.symbol_parameters.specs.Spans.{settings_at};

use crate::laws::settings as super_frame_settings;
use mode_set::{Entry, Settings};

/// The parameters of symbol `m` of a transmission: the entry of its super-frame, which has 272 symbols (EN 300 744,
/// 4.4).
/// `m` is below 2^40.
pub fn parameters_of_symbol(settings: &Settings, m: u64) -> Entry
    requires { m < 2 ^ 40 }
    ensures is { result ≡ entry settings.now (m / 272) }
    ensures settings { with_entry settings.now result ≡ settings_at settings.now m }
{
    super_frame_settings();
    settings.entry((m / 272) as u32)
}
