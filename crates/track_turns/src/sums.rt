// Sums over the continual pilots of two symbols.
ghost use Rattle.std.specs.Prelude.{◌≡◌, ◌*◌, ◌+◌, ◌^◌, ◌<◌, ◌≤◌, length, get_or};
ghost use Rattle.track_turns.specs.Rows.{at, IsRow, difference, differences, product, products};
ghost use Rattle.track_arithmetic.specs.Laws.{IsWithin};

use track_arithmetic::{Complex, near};

// The product of a value with the conjugate of another.
fn product(row: &[Complex], other: &[Complex], j: usize) -> Complex
    requires row { j < length row.now }
    requires other { j < length other.now }
    requires row_small { IsWithin (2 ^ 15) (at row.now j) }
    requires other_small { IsWithin (2 ^ 15) (at other.now j) }
    ensures is { result ≡ product row.now other.now j }
    ensures within { IsWithin (2 ^ 31) result }
{
    row[j].times(other[j].conjugate())
}

// The sum of the products of a row with the conjugate of another. There are 177 points at most.
pub(crate) fn products(points: &[u16], row: &[Complex], other: &[Complex]) -> Complex
    requires few { length points.now ≤ 177 }
    requires row { IsRow points.now row.now }
    requires other { IsRow points.now other.now }
    ensures is { result ≡ products points.now row.now other.now }
    ensures within { IsWithin (177 * 2 ^ 31) result }
{
    let mut sum = Complex { re: 0, im: 0 };
    for i in 0..points.len() {
        sum = sum.plus(product(row, other, usize::from(points[i])));
    }
    sum
}

// How far a value is from another that is turned.
fn difference(row: &[Complex], other: &[Complex], turn: Complex, j: usize) -> u64
    requires row { j < length row.now }
    requires other { j < length other.now }
    requires row_small { IsWithin (2 ^ 15) (at row.now j) }
    requires other_small { IsWithin (2 ^ 15) (at other.now j) }
    requires turn { IsWithin (2 ^ 14) turn }
    ensures is { result ≡ difference row.now other.now turn j }
    ensures most { result ≤ 2 ^ 36 }
{
    row[j].minus(near(other[j].times(turn), 14)).power()
}

// The sum of how far the values of a row are from those of another that is turned.
pub(crate) fn differences(points: &[u16], row: &[Complex], other: &[Complex], turn: Complex) -> u64
    requires few { length points.now ≤ 177 }
    requires row { IsRow points.now row.now }
    requires other { IsRow points.now other.now }
    requires turn { IsWithin (2 ^ 14) turn }
    ensures is { result ≡ differences points.now row.now other.now turn }
    ensures most { result ≤ 177 * 2 ^ 36 }
{
    let mut sum: u64 = 0;
    for i in 0..points.len() {
        sum += difference(row, other, turn, usize::from(points[i]));
    }
    sum
}
