// The vote of the TPS cells.
ghost use Rattle.std.specs.Prelude.{◌≡◌, ◌≤◌, length, pos, neg_ℤ, ◌≤ℤ◌, ◌+ℤ◌, ◌*ℤ◌};
ghost use Rattle.tps_word.specs.Vote.{vote};

use qam_map::Cell;

fn product(a: i16, b: i16) -> i32
    ensures { result ≡ a *ℤ b }
{
    i32::from(a) * i32::from(b)
}

fn correlation(before: Cell, now: Cell) -> i64
    ensures value { result ≡ before.re *ℤ now.re +ℤ before.im *ℤ now.im }
    ensures least { neg_ℤ (pos 4294967296) ≤ℤ result }
    ensures most { result ≤ℤ pos 4294967296 }
{
    let re = product(before.re, now.re);
    let im = product(before.im, now.im);
    i64::from(re) + i64::from(im)
}

/// The TPS bit of a symbol, from its TPS cells `now` and those of the symbol `before` it: 1 exactly if the sum of the
/// products `re re' + im im'` over the carriers is negative, since a 1 inverts every TPS cell (EN 300 744, 4.6.3). Both
/// have the same number of cells, at most 68.
pub fn vote(before: &[Cell], now: &[Cell]) -> bool
    requires same { length before.now ≡ length now.now }
    requires few { length before.now ≤ 68 }
    ensures { result ≡ vote before.now now.now }
{
    let mut sum = 0i64;
    for (i, cell) in before.iter().enumerate() {
        sum += correlation(*cell, now[i]);
    }
    sum < 0
}
