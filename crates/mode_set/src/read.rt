// Reading settings from a TOML document.
ghost use Rattle.std.specs.Prelude.{◌≡◌, ℕ, IsSomeAnd, ◌≢◌, ◌≤◌, Some, None, IfOk, IfSome, IfErr, not, position};
ghost use Rattle.std.specs.Prelude.{string_bytes, Err};
ghost use Rattle.toml.specs.View.{table_view};
ghost use Rattle.mode_set.specs.AtKeys.{document, cell_id_in, keys_of, first_of};
ghost use Rattle.mode_set.specs.Document.{first_unknown, unknown, reasons, States, IsStatedBy, refusal};
ghost use Rattle.mode_set.specs.Causes.{IsMissing, HasWrongValue, Clashes};
ghost use Rattle.mode_set.specs.declared.key.Key.{Key as AnyKey};
ghost use Rattle.std.specs.Result.{result_err};
ghost use Rattle.std.specs.List.Sorted.{IsStrictlySortedBy};
ghost use Rattle.std.specs.Cmp.Lexicographic.{slice_cmp};
ghost use Rattle.std.specs.Ordering.{nat_cmp};
ghost use Rattle.std.specs.String.{string_cmp};
ghost use Rattle.std.specs.BTreeMap.{keys};
ghost use Rattle.mode_set.specs.Keys.{is_key};

use crate::at_keys::{
    check_fit, number_of, number_or, required_word, value_at, word_if_present, word_or,
};
use crate::key::is_known;
use crate::plan_key::plan_or_none;
use crate::{Hierarchy, Key, Settings, SettingsError, Shape, Start};
use std::alloc::Global;
use toml::Table;

// The number of an optional key.
fn cell_id(table: &Table) -> Result<Option<u16>, SettingsError>
    ensures { result ≡ cell_id_in (table_view table.now) }
{
    match value_at(table, Key::CellId) {
        Some(value) => Ok(Some(number_of(value, Key::CellId, 0, 65535)? as u16)),
        None => Ok(None),
    }
}

// The index of the first unknown key.
fn place_of_unknown(table: &Table) -> Option<usize>
    ensures place { result ≡ position (λ k. not (is_key (string_bytes k))) (keys table.now) }
    ensures ordered { IsStrictlySortedBy string_cmp (keys table.now) }
{
    table.keys().position(|key| !is_known(key.as_str()))
}

// The same for the document.
fn first_unknown_key(table: &Table) -> Option<usize>
    ensures place { result ≡ first_unknown (table_view table.now) }
    ensures few { IfSome result (λ n. n ≤ 11) }
    ensures byte_order { IsStrictlySortedBy (slice_cmp nat_cmp) (keys_of (table_view table.now)) }
{
    place_of_unknown(table)
}

// The document has only the eleven keys.
fn check_keys(table: &Table) -> Result<(), SettingsError>
    ensures unknown { result_err result ≡ unknown (first_unknown (table_view table.now)) }
    ensures byte_order { IsStrictlySortedBy (slice_cmp nat_cmp) (keys_of (table_view table.now)) }
{
    match first_unknown_key(table) {
        Some(place) => Err(SettingsError::Unknown(place as u32)),
        None => Ok(()),
    }
}

// The settings that the document's table states.
fn settings_of(table: &Table) -> Result<Settings, SettingsError>
    ensures reason { result_err result ≡ first_of (reasons (table_view table.now)) }
    ensures states { IfOk result (States (table_view table.now)) }
    ensures byte_order { IsStrictlySortedBy (slice_cmp nat_cmp) (keys_of (table_view table.now)) }
{
    check_keys(table)?;
    let mode = required_word(table, Key::Mode)?;
    let shape: Shape = required_word(table, Key::Constellation)?;
    let hierarchy = word_or(table, Key::Hierarchy, Hierarchy::Flat)?;
    let rate_hp = required_word(table, Key::RateHp)?;
    let rate_lp = word_if_present(table, Key::RateLp)?;
    let guard = required_word(table, Key::Guard)?;
    let cell_id = cell_id(table)?;
    let start = word_or(table, Key::Start, Start::Zero)?;
    let workers = number_or(table, Key::Workers, 1, 1, 16)? as u8;
    let max_symbols = number_or(table, Key::MaxSymbols, 1000000, 1, u32::MAX)?;
    let plan = plan_or_none(table)?;
    check_fit(shape, hierarchy, rate_lp)?;
    Ok(Settings {
        mode,
        shape,
        hierarchy,
        rate_hp,
        rate_lp,
        guard,
        cell_id,
        start,
        workers,
        max_symbols,
        plan,
    })
}

// The table of a document.
fn table_of(alloc: Global, bytes: &[u8]) -> Result<Table, SettingsError>
    ensures ok { IfOk result (λ t. document bytes.now ≡ Some (table_view t)) }
    ensures err { IfErr result (λ e. e ≢ SettingsError.Memory → (e ≡ SettingsError.NotToml)
        × (document bytes.now ≡ None)) }
{
    match toml::table_from_slice(alloc, bytes) {
        Ok(table) => Ok(table),
        Err(error) if error.is_memory() => Err(SettingsError::Memory),
        Err(_) => Err(SettingsError::NotToml),
    }
}

impl Settings {
    /// Reads the settings of a TOML document.
    ///
    /// The first reason to reject it is returned, in the order of `SettingsError`: not TOML, an unknown key, then the
    /// keys in the order of `Key`, then the two clashes. Memory may be lacking at any point.
    pub fn read(alloc: Global, bytes: &[u8]) -> Result<Settings, SettingsError>
        ensures record { IfOk result (λ s. IsStatedBy s bytes.now) }
        ensures first_reason { result ≢ Err SettingsError.Memory → result_err result ≡ refusal bytes.now }

        // The meaning of each error, which follows from these two clauses.
        ensures not_toml { result ≡ Err SettingsError.NotToml → document bytes.now ≡ None }
        ensures unknown { (n : ℕ) → result ≡ Err (SettingsError.Unknown n)
            → IsSomeAnd (document bytes.now) (λ ms. first_unknown ms ≡ Some n) }
        ensures missing { (k : AnyKey) → result ≡ Err (SettingsError.Missing k)
            → IsSomeAnd (document bytes.now) (IsMissing k) }
        ensures value { (k : AnyKey) → result ≡ Err (SettingsError.Value k)
            → IsSomeAnd (document bytes.now) (HasWrongValue k) }
        ensures clash { (k : AnyKey) → result ≡ Err (SettingsError.Clash k)
            → IsSomeAnd (document bytes.now) (Clashes k) }
        ensures byte_order { result ≢ Err SettingsError.Memory
            → IfSome (document bytes.now) (λ ms. IsStrictlySortedBy (slice_cmp nat_cmp) (keys_of ms)) }
    {
        let table = table_of(alloc, bytes)?;
        settings_of(&table)
    }
}
