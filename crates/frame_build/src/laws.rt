// Facts about symbols, each as what an empty function ensures.
ghost use Rattle.std.specs.Prelude.{◌≡◌, ℕ, ◌%◌, Bool};
ghost use Rattle.frame_build.specs.Announcing.{announcing_bytes};
ghost use Rattle.frame_build.specs.ReadBack.{CellsAreReadBack, FiveBytesACell, WeightsAreReadBack};
ghost use Rattle.frame_build.specs.Symbol.{Agree, symbol_bytes};
ghost use Rattle.mode_set.specs.declared.settings.Settings.{Settings as AnySettings};

use mode_set::{Mode, Settings};
use pilots::payload_carriers_are_numbered;

/// A symbol's pilots and TPS cells are those of the symbol 272 before it, where the settings of both
/// super-frames and those that they announce are the same: what stands around the labels repeats.
pub fn symbols_repeat(m: u64)
    ensures { (now : AnySettings) (next : AnySettings) (labels : ℕ → ℕ → Bool) → announcing_bytes now next m labels
        ≡ announcing_bytes now next (m % 272) labels }
{}

/// A symbol depends on the bits of its labels alone: equal ones on each payload place give equal bytes,
/// whatever the settings of the mode.
pub fn symbols_follow_labels(mode: Mode, m: u64)
    ensures { (now : AnySettings) (next : AnySettings) (labels : ℕ → ℕ → Bool) (more : ℕ → ℕ → Bool) → now.mode ≡ mode
        → Agree now labels more
        → announcing_bytes now next m labels ≡ announcing_bytes now next m more }
{
    payload_carriers_are_numbered(mode, (m % 68) as u8);
}

/// A symbol that announces its own settings is that of a transmission whose parameters do not change.
pub fn symbols_announce_themselves(settings: &Settings, m: u64)
    ensures { (labels : ℕ → ℕ → Bool) → announcing_bytes settings.now settings.now m labels
        ≡ symbol_bytes settings.now m labels }
{}

/// The cells of a list that fit 16 bits on both axes, and weights of 15 at most, are read back from the
/// five bytes of each.
pub fn cells_are_read_back()
    ensures long { FiveBytesACell }
    ensures cells { CellsAreReadBack }
    ensures weights { WeightsAreReadBack }
{}
