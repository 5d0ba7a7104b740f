// The weight of a corrected cell.
ghost use Rattle.std.specs.Prelude.{◌≡◌, ℕ, ◌+◌, ◌*◌, ◌/◌, ◌<◌, ◌≤◌, ◌^◌, min};
ghost use Rattle.tracking.specs.Correction.{shared_weight, weight_of};

// A digit of a quotient, if the part that it stands for is still in the rest, and what is left then.
fn take(rest: u64, part: u64, digit: u8) -> (u8, u64)
    requires { rest < 2 * part }
    ensures rest { result.1 < part }
    ensures most { result.0 ≤ digit }
    ensures sum { (unit : ℕ) → part ≡ digit * unit → result.0 * unit + result.1 ≡ rest }
{
    if rest >= part {
        (digit, rest - part)
    } else {
        (0, rest)
    }
}

// A quotient, 15 at most, digit by digit in place of a division.
fn fifteen_at_most(x: u64, unit: u64) -> u8
    requires unit { 0 < unit }
    requires most { unit ≤ 2 ^ 52 }
    ensures is { result ≡ min 15 (x / unit) }
    ensures most { result ≤ 15 }
{
    if x >= 15 * unit {
        return 15;
    }
    let (eights, x) = take(x, 8 * unit, 8);
    let (fours, x) = take(x, 4 * unit, 4);
    let (twos, x) = take(x, 2 * unit, 2);
    let (ones, _) = take(x, unit, 1);
    eights + fours + twos + ones
}

// The share of the weight that a cell of this power keeps, in fifteenths.
pub(crate) fn weight_of(full: u64, n: u64) -> u8
    requires some { 1 ≤ full }
    requires most { full ≤ 2 ^ 52 }
    requires n { n ≤ 2 ^ 51 }
    ensures is { result ≡ weight_of full n }
    ensures most { result ≤ 15 }
{
    fifteen_at_most(15 * n + full / 2, full)
}

// The same by a division.
pub(crate) fn divided_weight(full: u64, n: u64) -> u8
    requires some { 1 ≤ full }
    requires most { full ≤ 2 ^ 52 }
    requires n { n ≤ 2 ^ 51 }
    ensures is { result ≡ weight_of full n }
    ensures most { result ≤ 15 }
{
    ((15 * n + full / 2) / full).min(15) as u8
}

pub(crate) fn shared_weight(w: u8, old: u8) -> u8
    requires { w ≤ 15 }
    ensures { result ≡ shared_weight w old }
{
    let old = old.min(15);
    // Most carriers keep theirs whole.
    if w == 15 {
        return old;
    }
    ((2 * (u32::from(w) * u32::from(old)) + 15) / 30) as u8
}
