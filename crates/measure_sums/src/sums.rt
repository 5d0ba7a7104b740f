// Sums, and what is added to them.
ghost use Rattle.std.specs.Prelude.{◌≡◌, ◌+◌, ◌≤◌, ◌^◌, ℕ};
ghost use Rattle.measure_sums.specs.Tables.{AreLittle, no_sums, plus};

use measure_report::{BitSums, SymbolSums};

pub(crate) fn nothing() -> SymbolSums
    ensures is { result ≡ no_sums }
    ensures little { AreLittle result 0 }
{
    let none = BitSums { bits: 0, wrong: 0 };
    SymbolSums {
        cells: 0,
        muted: 0,
        power: 0,
        error: 0,
        hp: none,
        lp: none,
    }
}

fn add_bits(sums: &mut BitSums, more: &BitSums)
    requires sums { sums.old.bits + sums.old.wrong ≤ 2 ^ 40 }
    requires more { more.now.bits + more.now.wrong ≤ 2 ^ 40 }
    ensures bits { sums.new.bits ≡ sums.old.bits + more.now.bits }
    ensures wrong { sums.new.wrong ≡ sums.old.wrong + more.now.wrong }
{
    sums.bits += more.bits;
    sums.wrong += more.wrong;
}

// Adds what one payload place adds.
pub(crate) fn add(sums: &mut SymbolSums, place: &SymbolSums)
    requires place { AreLittle place.now 1 }
    requires few { AreLittle sums.old 65536 }
    ensures is { sums.new ≡ plus sums.old place.now }
    ensures little { (n : ℕ) → AreLittle sums.old n → AreLittle sums.new (n + 1) }
{
    sums.cells += place.cells;
    sums.muted += place.muted;
    sums.power += place.power;
    sums.error += place.error;
    add_bits(&mut sums.hp, &place.hp);
    add_bits(&mut sums.lp, &place.lp);
}
