// Four words in a row.
ghost use Rattle.std.specs.Prelude.{◌≡◌, ◌≤◌, ◌<◌, ◌+◌, ℕ, length, slice_index};

use std::simd::u64x4;

/// Writes four words.
#[inline(always)]
fn write(words: &mut [u64], lanes: u64x4)
    requires size { length words.old ≡ 4 }
    requires lanes { length lanes ≡ 4 }
    ensures { words.new ≡ lanes }
{
    lanes.copy_to_slice(words);
}

/// Writes four words from a place on.
#[inline(always)]
pub(crate) fn store(words: &mut [u64], from: usize, lanes: u64x4)
    requires from { from + 4 ≤ length words.old }
    requires lanes { length lanes ≡ 4 }
    ensures here { (k : ℕ) → k < 4 → slice_index words.new (from + k) ≡ slice_index lanes k }
    ensures below { (k : ℕ) → k < from → slice_index words.new k ≡ slice_index words.old k }
    ensures above { (k : ℕ) → from + 4 ≤ k → slice_index words.new k ≡ slice_index words.old k }
    ensures room { length words.new ≡ length words.old }
{
    write(&mut words[from..from + 4], lanes);
}
