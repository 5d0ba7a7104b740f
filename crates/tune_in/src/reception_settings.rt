// The settings announced by a TPS word.
ghost use Rattle.tps_word.specs.Tps.{IsValid};
ghost use Rattle.tune_in.specs.Announced.{IsAnnounced};

use mode_set::{Plan, Settings, Start};
use tps_word::TpsWord;

/// The settings of the reception that the word announces: its constellation, hierarchy, rates and guard interval, with
/// the mode, the workers and the limit of the given settings. It starts with any register, and has no cell identifier
/// and no plan. The word's fields are valid, as for each word that a `Tuner` finds.
pub fn announced(word: &TpsWord, settings: &Settings) -> Settings
    requires valid { IsValid word.now }
    ensures { IsAnnounced word.now settings.now result }
{
    let rate_lp = if word.hierarchy.is_flat() {
        None
    } else {
        Some(word.rate_lp)
    };
    Settings {
        mode: settings.mode,
        shape: word.shape,
        hierarchy: word.hierarchy,
        rate_hp: word.rate_hp,
        rate_lp,
        guard: word.guard,
        cell_id: None,
        start: Start::Any,
        workers: settings.workers,
        max_symbols: settings.max_symbols,
        plan: Plan::none(),
    }
}
