// The parameters of each super-frame of a transmission.
ghost use Rattle.std.specs.Prelude.{◌≡◌};
ghost use Rattle.mode_set.specs.Entries.{entry, has_lp, top, with_entry};

use crate::{Entry, Settings};

// The settings' own parameters.
fn own(settings: &Settings) -> Entry
    ensures { result ≡ top settings.now }
{
    Entry {
        after: 0,
        shape: settings.shape,
        hierarchy: settings.hierarchy,
        rate_hp: settings.rate_hp,
        rate_lp: settings.rate_lp,
    }
}

impl Settings {
    /// The settings' own parameters, with number 0: those of the first super-frames.
    pub fn top(&self) -> Entry
        ensures { result ≡ top self.now }
    {
        own(self)
    }

    /// The parameters of a super-frame: those of the plan's last entry whose number is at most the super-frame's;
    /// without one, the settings' own.
    pub fn entry(&self, super_frame: u32) -> Entry
        ensures is { result ≡ entry self.now super_frame }
        ensures first { super_frame ≡ 0 → result ≡ top self.now }
    {
        self.plan.until(super_frame).unwrap_or(own(self))
    }

    /// Whether some super-frame may have the LP stream: the settings' own parameters have it, or those of an entry.
    pub fn has_lp(&self) -> bool
        ensures { result ≡ has_lp self.now }
    {
        self.rate_lp.is_some() || self.plan.has_lp()
    }

    /// The settings with the parameters of an entry; everything else stays.
    pub fn with_entry(&self, entry: &Entry) -> Settings
        ensures { result ≡ with_entry self.now entry.now }
    {
        Settings {
            mode: self.mode,
            shape: entry.shape,
            hierarchy: entry.hierarchy,
            rate_hp: entry.rate_hp,
            rate_lp: entry.rate_lp,
            guard: self.guard,
            cell_id: self.cell_id,
            start: self.start,
            workers: self.workers,
            max_symbols: self.max_symbols,
            plan: self.plan,
        }
    }
}
