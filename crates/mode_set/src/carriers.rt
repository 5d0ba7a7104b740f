// The two modes as types.
ghost use Rattle.std.specs.Prelude.{◌≡◌, ℕ, refl};
ghost use Rattle.mode_set.specs.StreamTable.{carriers, payload};
ghost use Rattle.mode_set.specs.Rows.{IsModeRow};
ghost use Rattle.mode_set.specs.declared.modes.Mode.{Mode as ModeOf};
ghost use Rattle.mode_set.specs.declared.modes.Mode.TheVariants.{M2k, M8k};
ghost use Rattle.std.proofs.Common.{inl, inr};

use crate::Mode;

/// A transmission mode as a type, for generic code (EN 300 744, 4.4 and 4.3.4).
///
/// The four numbers are those of one mode in the standard, that of `MODE`.
pub trait Carriers {
    /// The mode itself.
    const MODE: Mode;
    /// K, the carriers of a symbol.
    const K: u32;
    /// The payload carriers of a symbol.
    const NMAX: u32;
    /// The bits of an address of the symbol interleaver.
    const NR: u32;
    /// The blocks of 126 bits of each bit interleaver in a symbol.
    const BLOCKS: u32;

    ghost MODE: { ModeOf };

    ghost K: { ℕ };

    ghost NMAX: { ℕ };

    ghost NR: { ℕ };

    ghost BLOCKS: { ℕ };

    ghost row: { IsModeRow MODE K NMAX NR BLOCKS };

    ghost k_of: { K ≡ carriers MODE };

    ghost nmax_of: { NMAX ≡ payload MODE };
}

/// The mode of 1705 carriers.
#[derive(Clone, Copy, Debug, PartialEq, Eq)]
pub struct Mode2k;

impl Carriers for Mode2k {
    const MODE: Mode = Mode::M2k;

    const K: u32 = 1705;

    const NMAX: u32 = 1512;

    const NR: u32 = 11;

    const BLOCKS: u32 = 12;

    ghost MODE = { M2k };

    ghost K = { 1705 };

    ghost NMAX = { 1512 };

    ghost NR = { 11 };

    ghost BLOCKS = { 12 };

    ghost row = { inl (refl, refl, refl, refl, refl) };

    ghost k_of = { refl };

    ghost nmax_of = { refl };
}

/// The mode of 6817 carriers.
#[derive(Clone, Copy, Debug, PartialEq, Eq)]
pub struct Mode8k;

impl Carriers for Mode8k {
    const MODE: Mode = Mode::M8k;

    const K: u32 = 6817;

    const NMAX: u32 = 6048;

    const NR: u32 = 13;

    const BLOCKS: u32 = 48;

    ghost MODE = { M8k };

    ghost K = { 6817 };

    ghost NMAX = { 6048 };

    ghost NR = { 13 };

    ghost BLOCKS = { 48 };

    ghost row = { inr (refl, refl, refl, refl, refl) };

    ghost k_of = { refl };

    ghost nmax_of = { refl };
}
