// The plan that a settings document states.
ghost use Rattle.std.specs.Prelude.{◌≡◌, option_and_then, string_bytes};
ghost use Rattle.std.specs.List.{list_all};
ghost use Rattle.std.specs.BTreeMap.{keys};
ghost use Rattle.toml.specs.Data.{as_table};
ghost use Rattle.toml.specs.View.{view, items_view, table_view};
ghost use Rattle.mode_set.specs.PlanKey.{is_entry_key, has_entry_keys, after_in, entry_in, entries_in, a_plan, plan_in};
ghost use Rattle.mode_set.specs.Plans.{plan_of};

use crate::at_keys::{
    check_fit, member_at, number_of, required_word, value_at, word_if_present, word_or,
};
use crate::{Entry, Hierarchy, Key, Plan, SettingsError, Shape};
use toml::{Table, Value};

// Whether the text is a key of an entry.
fn is_of_entry(text: &str) -> bool
    ensures { result ≡ is_entry_key text.now }
{
    matches!(
        text,
        "after" | "constellation" | "hierarchy" | "rate_hp" | "rate_lp"
    )
}

// Whether all keys are those of an entry.
fn all_of_entry(table: &Table) -> bool
    ensures { result ≡ list_all (λ k. is_entry_key (string_bytes k)) (keys table.now) }
{
    table.keys().all(|key| is_of_entry(key.as_str()))
}

// The same for the table's members.
fn keys_are_of_entry(table: &Table) -> bool
    ensures { result ≡ has_entry_keys (table_view table.now) }
{
    all_of_entry(table)
}

// The number of an entry's first super-frame.
fn after(table: &Table) -> Option<u32>
    ensures { result ≡ after_in (table_view table.now) }
{
    number_of(member_at(table, "after")?, Key::Plan, 1, u32::MAX).ok()
}

// The entry that a table states, if any.
fn entry(table: &Table) -> Option<Entry>
    ensures { result ≡ entry_in (table_view table.now) }
{
    if !keys_are_of_entry(table) {
        return None;
    }
    let after = after(table)?;
    let shape: Shape = required_word(table, Key::Constellation).ok()?;
    let hierarchy = word_or(table, Key::Hierarchy, Hierarchy::Flat).ok()?;
    let rate_hp = required_word(table, Key::RateHp).ok()?;
    let rate_lp = word_if_present(table, Key::RateLp).ok()?;
    check_fit(shape, hierarchy, rate_lp).ok()?;
    Some(Entry {
        after,
        shape,
        hierarchy,
        rate_hp,
        rate_lp,
    })
}

// The entry that a value of an array states.
fn entry_of(value: &Value) -> Option<Entry>
    ensures { result ≡ option_and_then entry_in (as_table (view value.now)) }
{
    entry(value.as_table()?)
}

// The plan of an array's entries; it may be empty.
fn entries(values: &[Value]) -> Option<Plan>
    ensures { result ≡ option_and_then plan_of (entries_in (items_view values.now)) }
{
    let mut plan = Plan::none();
    for value in values {
        if !plan.push(entry_of(value)?) {
            return None;
        }
    }
    Some(plan)
}

// The plan that a value states.
fn plan(value: &Value) -> Option<Plan>
    ensures { result ≡ a_plan (view value.now) }
{
    let plan = entries(value.as_array()?)?;
    if plan.len() == 0 {
        return None;
    }
    Some(plan)
}

// The plan of the document, which is empty if the key is absent.
pub(crate) fn plan_or_none(table: &Table) -> Result<Plan, SettingsError>
    ensures { result ≡ plan_in (table_view table.now) }
{
    match value_at(table, Key::Plan) {
        Some(value) => plan(value).ok_or(SettingsError::Value(Key::Plan)),
        None => Ok(Plan::none()),
    }
}
