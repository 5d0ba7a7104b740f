// The tables from which labels are gathered, turned to the parameters of a symbol.
ghost use Rattle.std.specs.Prelude.{◌≡◌, false, true, vec_capacity};
ghost use Rattle.mode_set.specs.Entries.{with_entry};
ghost use Rattle.inner_chain.specs.Tables.{AreEntries, IsLabelTable};

use crate::alike::are_alike;
use crate::entries::write_entries;
use mode_set::{Carriers, Entry, Settings};
use symbol_interleave::Permutation;

// Turns the tables from the latest parameters to those of an entry. They are written anew only where
// these are others.
pub(crate) fn turn_label_tables<M: Carriers>(
    settings: &Settings,
    entry: &Entry,
    permutation: &Permutation<M>,
    latest: &mut Entry,
    even: &mut Vec<u16>,
    odd: &mut Vec<u16>,
)
    requires mode { settings.now.mode ≡ M.MODE }
    requires even { IsLabelTable (with_entry settings.now latest.old) false even.old.items (vec_capacity even.old) }
    requires odd { IsLabelTable (with_entry settings.now latest.old) true odd.old.items (vec_capacity odd.old) }
    ensures latest { latest.new ≡ entry.now }
    ensures even { IsLabelTable (with_entry settings.now entry.now) false even.new.items (vec_capacity even.new) }
    ensures odd { IsLabelTable (with_entry settings.now entry.now) true odd.new.items (vec_capacity odd.new) }
{
    let alike = are_alike(latest, entry);
    *latest = *entry;
    if alike {
        return;
    }
    let settings = settings.with_entry(entry);
    write_entries(&settings, false, permutation, even);
    write_entries(&settings, true, permutation, odd);
}

// The table of the symbols of even or of odd number.
pub(crate) fn table_of<'a>(
    settings: &Settings,
    is_odd: bool,
    even: &'a [u16],
    odd: &'a [u16],
) -> &'a [u16]
    requires even { AreEntries settings.now false even.now }
    requires odd { AreEntries settings.now true odd.now }
    ensures { AreEntries settings.now is_odd result.now }
{
    if is_odd { odd } else { even }
}
