// Whether entries of a plan have the same parameters.
ghost use Rattle.std.specs.Prelude.{◌≡◌, IsTrue};
ghost use Rattle.mode_set.specs.Entries.{with_entry};
ghost use Rattle.mode_set.specs.declared.settings.Settings.{Settings as AnySettings};

use mode_set::Entry;

// Whether two entries have the same parameters, whatever the super-frames from which they hold.
pub(crate) fn are_alike(one: &Entry, other: &Entry) -> bool
    ensures { IsTrue result → (s : AnySettings) → with_entry s one.now ≡ with_entry s other.now }
{
    if one.shape != other.shape || one.hierarchy != other.hierarchy {
        return false;
    }
    if one.rate_hp != other.rate_hp {
        return false;
    }
    one.rate_lp == other.rate_lp
}
