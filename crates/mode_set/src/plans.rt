// The entries of a plan.
ghost use Rattle.std.specs.Prelude.{◌≡◌, ◌+◌, ◌<◌, ◌≤◌, ◌++◌, ◌∷◌, [], length, get_or, nat_lt, nat_le, IsTrue, IsFalse};
ghost use Rattle.std.specs.Prelude.{find, reverse, is_some, None};
ghost use Rattle.std.specs.List.{list_all, list_any};
ghost use Rattle.mode_set.specs.PlanList.{filler, may_follow};
ghost use Rattle.mode_set.specs.Plans.{entries_of, no_plan};
ghost use Rattle.mode_set.specs.declared.entry.Entry.{Entry as AnyEntry};

use crate::{Entry, Hierarchy, Plan, Rate, Shape};

// The padding after the last entry of a plan.
fn no_entry() -> Entry
    ensures { result ≡ filler }
{
    Entry {
        after: 0,
        shape: Shape::Qpsk,
        hierarchy: Hierarchy::Flat,
        rate_hp: Rate::R1of2,
        rate_lp: None,
    }
}

// Whether all entries begin before a super-frame.
fn are_before(entries: &[Entry], super_frame: u32) -> bool
    ensures { result ≡ list_all (λ e. nat_lt e.after super_frame) entries.now }
{
    entries.iter().all(|entry| entry.after < super_frame)
}

// The last entry that begins at a super-frame or before it.
fn last_until(entries: &[Entry], super_frame: u32) -> Option<Entry>
    ensures { result ≡ find (λ e. nat_le e.after super_frame) (reverse entries.now) }
{
    let mut last = None;
    for entry in entries {
        if entry.after <= super_frame {
            last = Some(*entry);
        }
    }
    last
}

// Whether some entry has the LP stream.
fn any_lp(entries: &[Entry]) -> bool
    ensures { result ≡ list_any (λ e. is_some e.rate_lp) entries.now }
{
    entries.iter().any(|entry| entry.rate_lp.is_some())
}

impl Plan {
    /// The empty plan: the parameters never change.
    pub fn none() -> Plan
        ensures { result ≡ no_plan }
    {
        Plan {
            entries: [no_entry(); 16],
            count: 0,
        }
    }

    /// The number of entries.
    pub fn len(&self) -> usize
        ensures is { result ≡ length (entries_of self.now) }
        ensures few { result ≤ 16 }
    {
        self.count as usize
    }

    /// Entry `i`, counted from 0; `i` is below `len`.
    pub fn get(&self, i: usize) -> Entry
        requires { i < length (entries_of self.now) }
        ensures { (d : AnyEntry) → result ≡ get_or (entries_of self.now) i d }
    {
        self.entries[i]
    }

    /// Appends an entry if there is room and its number is above 0 and above all others. Returns whether it did.
    pub fn push(&mut self, entry: Entry) -> bool
        ensures tells { result ≡ may_follow (entries_of self.old) entry }
        ensures pushed { IsTrue result → entries_of self.new ≡ entries_of self.old ++ entry ∷ [] }
        ensures refused { IsFalse result → self.new ≡ self.old }
    {
        let count = self.count as usize;
        if count == 16 || entry.after == 0 || !are_before(&self.entries[..count], entry.after) {
            return false;
        }
        let mut entries = self.entries;
        entries[count] = entry;
        *self = Plan {
            entries,
            count: self.count + 1,
        };
        true
    }

    // The last entry that begins at a super-frame or before it.
    pub(crate) fn until(&self, super_frame: u32) -> Option<Entry>
        ensures is { result ≡ find (λ e. nat_le e.after super_frame) (reverse (entries_of self.now)) }
        ensures first { super_frame ≡ 0 → result ≡ None }
    {
        last_until(&self.entries[..self.count as usize], super_frame)
    }

    // Whether some entry has the LP stream.
    pub(crate) fn has_lp(&self) -> bool
        ensures { result ≡ list_any (λ e. is_some e.rate_lp) (entries_of self.now) }
    {
        any_lp(&self.entries[..self.count as usize])
    }
}
