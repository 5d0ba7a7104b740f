// The labels of a symbol in the order of its words, before the symbol interleaver.
ghost use Rattle.std.specs.Prelude.{◌≡◌, ◌*◌, ◌≤◌, IsTrue, Some, length, vec_capacity};
ghost use Rattle.mode_set.specs.Entries.{with_entry};
ghost use Rattle.mode_set.specs.StreamTable.{payload};
ghost use Rattle.mode_set.specs.declared.modes.Shape.TheVariants.{Qam64, Qpsk};
ghost use Rattle.mode_set.specs.declared.modes.Hierarchy.TheVariants.{Flat};
ghost use Rattle.mode_set.specs.declared.modes.Rate.TheVariants.{R1of2, R2of3};
ghost use Rattle.mode_set.specs.declared.entry.Entry.{Entry as AnyEntry};
ghost use Rattle.mode_set.specs.declared.settings.Settings.{Settings as AnySettings};
ghost use Rattle.inner_chain.specs.Labels.{AreWordLabels, Paths, coded_bits};
ghost use Rattle.inner_chain.specs.Tables.{AreAllParities, AreWordEntries, IsWordTable, most_steps};

use crate::alike::are_alike;
use crate::entries::write_word_entries;
use crate::fours::{has_fours, packed, turned};
use crate::gather::write_labels;
use crate::twos::{has_twos, turned_words};
use bit_interleave::laws::each_bit_is_found;
use mode_set::{Entry, Mode, Settings, Shape};

// Whether a table has been written for the parameters of this entry.
fn is_for(latest: &Option<Entry>, entry: &Entry) -> bool
    ensures { IsTrue result → (e : AnyEntry) × (latest.now ≡ Some e)
        × ((s : AnySettings) → with_entry s e ≡ with_entry s entry.now) }
{
    match latest {
        Some(known) => are_alike(known, entry),
        None => false,
    }
}

// Turns a table to the parameters of an entry. It is written only if it has not been written for them.
fn turn_word_table(
    settings: &Settings,
    entry: &Entry,
    latest: &mut Option<Entry>,
    entries: &mut Vec<u16>,
)
    requires { IsWordTable settings.now latest.old entries.old.items (vec_capacity entries.old) }
    ensures entries { AreWordEntries (with_entry settings.now entry.now) entries.new.items }
    ensures table { IsWordTable settings.now latest.new entries.new.items (vec_capacity entries.new) }
{
    if is_for(latest, entry) {
        return;
    }
    write_word_entries(&settings.with_entry(entry), entries);
    *latest = Some(*entry);
}

// Writes the labels bit by bit, each by its entry: for any parameters.
fn write_gathered(settings: &Settings, entries: &[u16], parities: &[bool], to: &mut [u8])
    requires entries { AreWordEntries settings.now entries.now }
    requires room { 2 * most_steps settings.now.mode ≤ length parities.now }
    requires long { length to.old ≡ payload settings.now.mode }
    ensures { (paths : Paths) → AreAllParities settings.now paths parities.now
        → AreWordLabels settings.now (coded_bits settings.now paths) to.new }
{
    match settings.shape {
        Shape::Qpsk => write_labels::<2>(parities, entries, to),
        Shape::Qam16 => write_labels::<4>(parities, entries, to),
        Shape::Qam64 => write_labels::<6>(parities, entries, to),
    }
}

// Writes labels of six bits at rate 2/3.
fn write_fours(settings: &Settings, parities: &[bool], to: &mut [u8])
    requires shape { settings.now.shape ≡ Qam64 }
    requires hierarchy { settings.now.hierarchy ≡ Flat }
    requires rate { settings.now.rate_hp ≡ R2of3 }
    requires room { 2 * most_steps settings.now.mode ≤ length parities.now }
    requires long { length to.old ≡ payload settings.now.mode }
    ensures { (paths : Paths) → AreAllParities settings.now paths parities.now
        → AreWordLabels settings.now (coded_bits settings.now paths) to.new }
{
    each_bit_is_found();
    let number = settings.mode.payload() as usize;
    let words = turned(&packed(parities, number), number / 126);
    to.copy_from_slice(&words[..number]);
}

// Writes labels of two bits at rate 1/2.
fn write_twos(settings: &Settings, parities: &[bool], to: &mut [u8])
    requires shape { settings.now.shape ≡ Qpsk }
    requires hierarchy { settings.now.hierarchy ≡ Flat }
    requires rate { settings.now.rate_hp ≡ R1of2 }
    requires room { 2 * most_steps settings.now.mode ≤ length parities.now }
    requires long { length to.old ≡ payload settings.now.mode }
    ensures { (paths : Paths) → AreAllParities settings.now paths parities.now
        → AreWordLabels settings.now (coded_bits settings.now paths) to.new }
{
    each_bit_is_found();
    match settings.mode {
        Mode::M2k => {
            let words: [u8; 1512] = turned_words(parities, 12);
            to.copy_from_slice(&words);
        }
        Mode::M8k => {
            let words: [u8; 6048] = turned_words(parities, 48);
            to.copy_from_slice(&words);
        }
    }
}

// Writes the labels of a symbol's words over the slice. `present` has the symbol's parameters, which are those of the
// entry.
pub(crate) fn write_word_labels(
    present: &Settings,
    settings: &Settings,
    entry: &Entry,
    parities: &[bool],
    latest: &mut Option<Entry>,
    entries: &mut Vec<u16>,
    to: &mut [u8],
)
    requires present { present.now ≡ with_entry settings.now entry.now }
    requires table { IsWordTable settings.now latest.old entries.old.items (vec_capacity entries.old) }
    requires room { 2 * most_steps present.now.mode ≤ length parities.now }
    requires long { length to.old ≡ payload present.now.mode }
    ensures labels { (paths : Paths) → AreAllParities present.now paths parities.now
        → AreWordLabels present.now (coded_bits present.now paths) to.new }
    ensures table { IsWordTable settings.now latest.new entries.new.items (vec_capacity entries.new) }
{
    if has_fours(present) {
        write_fours(present, parities, to);
        return;
    }
    if has_twos(present) {
        write_twos(present, parities, to);
        return;
    }
    turn_word_table(settings, entry, latest, entries);
    write_gathered(present, entries, parities, to);
}
