// The comb points of a symbol.
ghost use Rattle.std.specs.Prelude.{◌≡◌, ℕ, ◌+◌, ◌*◌, ◌^◌, ◌<◌, ◌≤◌, length, get_or};
ghost use Rattle.track_arithmetic.specs.Laws.{IsWithin};
ghost use Rattle.track_arithmetic.specs.Numbers.{nothing};
ghost use Rattle.tracking.specs.Comb.{pilot};

use pilots::reference;
use qam_map::Cell;
use track_arithmetic::Complex;

// The cell of point j, taken for a pilot: negated if the pilot is sent negative.
#[tactic(auto, unfolding(tracking::specs::Comb::pilot))]
fn pilot(cells: &[Cell], j: usize) -> Complex
    requires within { 3 * j < length cells.now }
    requires few { length cells.now ≤ 6817 }
    ensures is { result ≡ pilot cells.now j }
    ensures within { IsWithin (2 ^ 15) result }
{
    let cell = cells[3 * j];
    let (re, im) = (i64::from(cell.re), i64::from(cell.im));
    if reference(3 * j as u32) {
        Complex { re: -re, im: -im }
    } else {
        Complex { re, im }
    }
}

// Puts the pilots of all points into a row.
pub(crate) fn take_pilots(cells: &[Cell], row: &mut [Complex])
    requires points { 3 * length row.old ≤ length cells.now + 2 }
    requires few { length cells.now ≤ 6817 }
    ensures long { length row.new ≡ length row.old }
    ensures is { (j : ℕ) → j < length row.old → get_or row.new j nothing ≡ pilot cells.now j }
    ensures within { (j : ℕ) → j < length row.old → IsWithin (2 ^ 15) (get_or row.new j nothing) }
{
    for j in 0..row.len() {
        row[j] = pilot(cells, j);
    }
}
