// The bits of decision words put in the order of states, four words at once.
ghost use Rattle.std.specs.Prelude.{◌≡◌, ◌≤◌, ◌<◌, ◌+◌, ◌*◌, ◌/◌, ◌%◌, ℕ, length, slice_index};
ghost use Rattle.std.specs.Int.{bit_not, w64};
ghost use Rattle.acs_lanes.specs.Phases.{in_order, moved_by};

use crate::fours::store;
use std::simd::u64x4;

/// Each word turned over, and the bits of a mask exchanged with those `shifts` places above them.
// Where they differ both are turned over again.
#[inline(always)]
fn moved(words: u64x4, shifts: u64x4, masks: u64x4) -> u64x4
    requires words { length words ≡ 4 }
    requires shifts { length shifts ≡ 4 }
    requires masks { length masks ≡ 4 }
    requires small { (k : ℕ) → k < 4 → slice_index shifts k < 64 }
    ensures long { length result ≡ 4 }
    ensures is { (k : ℕ) → k < 4 → slice_index result k
        ≡ moved_by (slice_index shifts k) (slice_index masks k) (bit_not w64 (slice_index words k)) }
{
    let turned = !words;
    let differ = (turned >> shifts ^ turned) & masks;
    turned ^ differ ^ differ << shifts
}

/// The same for four words from a place on.
#[inline(always)]
fn move_four(words: &mut [u64], from: usize, shifts: [u64; 4], masks: [u64; 4])
    requires from { from + 4 ≤ length words.old }
    requires small { (k : ℕ) → k < 4 → slice_index shifts k < 64 }
    ensures here { (k : ℕ) → k < 4 → slice_index words.new (from + k)
        ≡ moved_by (slice_index shifts k) (slice_index masks k)
        (bit_not w64 (slice_index words.old (from + k))) }
    ensures below { (k : ℕ) → k < from → slice_index words.new k ≡ slice_index words.old k }
    ensures above { (k : ℕ) → from + 4 ≤ k → slice_index words.new k ≡ slice_index words.old k }
    ensures room { length words.new ≡ length words.old }
{
    let four = u64x4::from_slice(&words[from..from + 4]);
    let to = moved(four, u64x4::from_array(shifts), u64x4::from_array(masks));
    store(words, from, to);
}

/// Puts the bits of twelve words in order, of two times six phases.
#[inline(always)]
fn order_twelve(words: &mut [u64], from: usize)
    requires from { from + 12 ≤ length words.old }
    ensures here { (k : ℕ) → k < 12 → slice_index words.new (from + k)
        ≡ in_order (k % 6) (slice_index words.old (from + k)) }
    ensures below { (k : ℕ) → k < from → slice_index words.new k ≡ slice_index words.old k }
    ensures above { (k : ℕ) → from + 12 ≤ k → slice_index words.new k ≡ slice_index words.old k }
    ensures room { length words.new ≡ length words.old }
{
    move_four(
        words,
        from,
        [3, 8, 12, 14],
        [
            0x0A0A_0A0A_0A0A_0A0A,
            0x0000_FF00_0000_FF00,
            0x0000_F0F0_0000_F0F0,
            0x0000_CCCC_0000_CCCC,
        ],
    );
    move_four(
        words,
        from + 4,
        [15, 15, 3, 8],
        [
            0x0000_AAAA_0000_AAAA,
            0x0000_AAAA_0000_AAAA,
            0x0A0A_0A0A_0A0A_0A0A,
            0x0000_FF00_0000_FF00,
        ],
    );
    move_four(
        words,
        from + 8,
        [12, 14, 15, 15],
        [
            0x0000_F0F0_0000_F0F0,
            0x0000_CCCC_0000_CCCC,
            0x0000_AAAA_0000_AAAA,
            0x0000_AAAA_0000_AAAA,
        ],
    );
}

/// Puts the bits of all words in order, by twelves as far as there are such.
pub(crate) fn order_words(words: &mut [u64])
    ensures ordered { (k : ℕ) → k < 12 * (length words.old / 12) → slice_index words.new k
        ≡ in_order (k % 6) (slice_index words.old k) }
    ensures room { length words.new ≡ length words.old }
{
    for k in 0..words.len() / 12 {
        order_twelve(words, 12 * k);
    }
}
