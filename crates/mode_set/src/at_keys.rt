// The values at the keys of a table.
ghost use Rattle.std.specs.Prelude.{◌≡◌, ◌∷◌, [], ◌≤◌, option_map, IfOk, Ok, is_ok};
ghost use Rattle.toml.specs.Data.{get_member};
ghost use Rattle.toml.specs.View.{view, table_view};
ghost use Rattle.mode_set.specs.Values.{a_word, a_number};
ghost use Rattle.mode_set.specs.AtKeys.{at, accepted, required, with_default, if_present, hierarchy_clash};
ghost use Rattle.mode_set.specs.AtKeys.{rate_lp_clash, first_of};
ghost use Rattle.mode_set.specs.Kept.{IsKeptEntry, fit_together};
ghost use Rattle.std.specs.Result.{result_err};

use crate::words::Word;
use crate::{Hierarchy, Key, Rate, SettingsError, Shape};
use toml::{Table, Value};

// The value at a key, given as a text.
pub(crate) fn member_at<'a>(table: &'a Table, text: &str) -> Option<&'a Value>
    ensures { option_map (λ v. view v.now) result ≡ get_member text.now (table_view table.now) }
{
    table.get(text)
}

// The value at a key.
pub(crate) fn value_at<'a>(table: &'a Table, key: Key) -> Option<&'a Value>
    ensures { option_map (λ v. view v.now) result ≡ at key (table_view table.now) }
{
    member_at(table, key.text())
}

// A value selected by a word.
fn word_of<T: Word>(value: &Value, key: Key) -> Result<T, SettingsError>
    ensures { result ≡ accepted key (a_word T.words (view value.now)) }
{
    match value.as_str() {
        Some(text) => T::from_word(text).ok_or(SettingsError::Value(key)),
        None => Err(SettingsError::Value(key)),
    }
}

// An integer from `least` to `most`.
pub(crate) fn number_of(
    value: &Value,
    key: Key,
    least: u32,
    most: u32,
) -> Result<u32, SettingsError>
    ensures value { result ≡ accepted key (a_number least most (view value.now)) }
    ensures within { IfOk result (λ n. n ≤ most) }
{
    match value.as_integer() {
        Some(n) if n >= least as i64 && n <= most as i64 => Ok(n as u32),
        _ => Err(SettingsError::Value(key)),
    }
}

// The value of a mandatory key, selected by a word.
pub(crate) fn required_word<T: Word>(table: &Table, key: Key) -> Result<T, SettingsError>
    ensures { result ≡ required key (a_word T.words) (at key (table_view table.now)) }
{
    match value_at(table, key) {
        Some(value) => word_of(value, key),
        None => Err(SettingsError::Missing(key)),
    }
}

// The value of a key with a default, selected by a word.
pub(crate) fn word_or<T: Word>(table: &Table, key: Key, default: T) -> Result<T, SettingsError>
    ensures { result ≡ with_default key default (a_word T.words) (at key (table_view table.now)) }
{
    match value_at(table, key) {
        Some(value) => word_of(value, key),
        None => Ok(default),
    }
}

// The value of an optional key, selected by a word.
pub(crate) fn word_if_present<T: Word>(table: &Table, key: Key) -> Result<Option<T>, SettingsError>
    ensures { result ≡ if_present key (a_word T.words) (at key (table_view table.now)) }
{
    match value_at(table, key) {
        Some(value) => Ok(Some(word_of(value, key)?)),
        None => Ok(None),
    }
}

// The number of a key with a default.
pub(crate) fn number_or(
    table: &Table,
    key: Key,
    default: u32,
    least: u32,
    most: u32,
) -> Result<u32, SettingsError>
    requires { default ≤ most }
    ensures value { result ≡ with_default key default (a_number least most) (at key (table_view table.now)) }
    ensures within { IfOk result (λ n. n ≤ most) }
{
    match value_at(table, key) {
        Some(value) => number_of(value, key, least, most),
        None => Ok(default),
    }
}

// Parameters that fit one another, or the first clash.
pub(crate) fn check_fit(
    shape: Shape,
    hierarchy: Hierarchy,
    rate_lp: Option<Rate>,
) -> Result<(), SettingsError>
    ensures clash { result_err result ≡ first_of (hierarchy_clash (Ok shape) (Ok hierarchy) ∷ rate_lp_clash
        (Ok hierarchy) (Ok rate_lp) ∷ []) }
    ensures fits { is_ok result ≡ fit_together shape hierarchy rate_lp }
    ensures kept { IfOk result (λ u. IsKeptEntry shape hierarchy rate_lp) }
{
    if shape.is_qpsk() && !hierarchy.is_flat() {
        return Err(SettingsError::Clash(Key::Hierarchy));
    }
    if rate_lp.is_some() == hierarchy.is_flat() {
        return Err(SettingsError::Clash(Key::RateLp));
    }
    Ok(())
}
