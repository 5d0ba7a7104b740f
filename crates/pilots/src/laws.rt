// Laws of carriers for all symbols. Each is the contract of a function with an empty body.
ghost use Rattle.std.specs.Prelude.{◌≡◌, ℕ, ◌+◌, ◌%◌, ◌<◌, IsTrue, length};
ghost use Rattle.spec_words.specs.Bits.{xor};
ghost use Rattle.mode_set.specs.StreamTable.{carriers, payload};
ghost use Rattle.pilots.specs.Carriers.{kind, payload_carriers, AreNumbered};
ghost use Rattle.pilots.specs.Around.{PilotsAreAround};
ghost use Rattle.pilots.specs.Reference.{reference};

use mode_set::Mode;

/// Each symbol has exactly as many payload carriers as the mode names: 1512 or 6048.
pub fn symbols_have_as_many_payload_carriers(mode: Mode, l: u8)
    ensures { length (payload_carriers mode l) ≡ payload mode }
{}

/// A carrier is the `q`-th payload carrier exactly if its kind says so; so `carrier` and `kind` are inverse to each
/// other.
pub fn payload_carriers_are_numbered(mode: Mode, l: u8)
    ensures { AreNumbered mode l }
{}

/// The kinds of the carriers repeat after four symbols.
pub fn kinds_repeat(mode: Mode, l: u8)
    ensures kinds { (k : ℕ) → k < carriers mode → kind mode l k ≡ kind mode (l % 4) k }
    ensures carriers { payload_carriers mode l ≡ payload_carriers mode (l % 4) }
{}

/// The reference sequence begins with eleven ones, and each further bit is the sum of those 9 and 11
/// places before it: the generator X^11 + X^2 + 1 of EN 300 744, 4.5.2.
pub fn reference_recurs(k: u32)
    ensures ones { k < 11 → IsTrue (reference k) }
    ensures rule { reference (k + 11) ≡ xor (reference k) (reference (k + 2)) }
{}

/// Each carrier of a symbol is a pilot or between two pilots at most twelve carriers apart (EN 300 744, 4.5.3 and
/// 4.5.4).
pub fn pilots_are_around()
    ensures { PilotsAreAround }
{}
