// The margins of bytes, block by block.
ghost use Rattle.std.specs.Prelude.{◌≡◌, ◌+◌, ◌*◌, ◌<◌, ◌≤◌, [], ◌∷◌, false, true, length, vec_len, vec_capacity};
ghost use Rattle.rescue.specs.Moves.{Pushes, EndsMargins};

use bit_margin::Margins;
use conv_code::CostPair;
use rescue_words::push_byte_margins;

/// Replaces the content of `block` by the margins of the bits of a block, and appends those of its bytes.
fn take_block(margins: &mut Margins, block: &mut Vec<u32>, to: &mut Vec<u32>)
    requires going { margins.old.ended ≡ false }
    requires full { length margins.old.waiting ≡ 1280 }
    requires block { 1279 ≤ vec_capacity block.old }
    requires room { vec_len to.old + 128 ≤ vec_capacity to.old }
    ensures going { margins.new.ended ≡ false }
    ensures left { length margins.new.waiting ≡ 256 }
    ensures block { vec_capacity block.new ≡ vec_capacity block.old }
    ensures capacity { vec_capacity to.new ≡ vec_capacity to.old }
    ensures amount { vec_len to.new ≡ vec_len to.old + 128 }
    ensures pushed { Pushes [] margins.old margins.new to.old.items to.new.items }
{
    rescue_words::laws::byte_margins();
    block.clear();
    margins.take(block);
    push_byte_margins(block, to);
}

/// Pushes a pair and, if it fills the window of a block, appends the margins of the block's bytes.
fn push_pair(margins: &mut Margins, pair: CostPair, block: &mut Vec<u32>, to: &mut Vec<u32>)
    requires going { margins.old.ended ≡ false }
    requires waits { length margins.old.waiting < 1280 }
    requires block { 1279 ≤ vec_capacity block.old }
    requires room { vec_len to.old + 128 ≤ vec_capacity to.old }
    ensures going { margins.new.ended ≡ false }
    ensures waits { length margins.new.waiting < 1280 }
    ensures block { vec_capacity block.new ≡ vec_capacity block.old }
    ensures capacity { vec_capacity to.new ≡ vec_capacity to.old }
    ensures amount { 8 * vec_len to.new + length margins.new.waiting ≡ 8 * vec_len to.old + length margins.old.waiting
        + 1 }
    ensures behind { 256 ≤ length margins.old.waiting → 256 ≤ length margins.new.waiting }
    ensures pushed { Pushes (pair ∷ []) margins.old margins.new to.old.items to.new.items }
{
    if margins.push(pair) {
        take_block(margins, block, to);
    }
}

/// Pushes pairs, and appends the margins of the bytes of each block whose window they fill.
pub(crate) fn push_pairs(
    margins: &mut Margins,
    pairs: &[CostPair],
    block: &mut Vec<u32>,
    to: &mut Vec<u32>,
)
    requires going { margins.old.ended ≡ false }
    requires waits { length margins.old.waiting < 1280 }
    requires block { 1279 ≤ vec_capacity block.old }
    requires room { 8 * vec_len to.old + length margins.old.waiting + length pairs.now
        + 1024 ≤ 8 * vec_capacity to.old }
    ensures going { margins.new.ended ≡ false }
    ensures waits { length margins.new.waiting < 1280 }
    ensures block { vec_capacity block.new ≡ vec_capacity block.old }
    ensures capacity { vec_capacity to.new ≡ vec_capacity to.old }
    ensures amount { 8 * vec_len to.new + length margins.new.waiting ≡ 8 * vec_len to.old + length margins.old.waiting
        + length pairs.now }
    ensures behind { 256 ≤ length margins.old.waiting → 256 ≤ length margins.new.waiting }
    ensures pushed { Pushes pairs.now margins.old margins.new to.old.items to.new.items }
{
    for k in 0..pairs.len() {
        push_pair(margins, pairs[k], block, to);
    }
}

/// Appends the margins of the bytes of all pending steps, and ends the margins.
pub(crate) fn end_margins(margins: &mut Margins, block: &mut Vec<u32>, to: &mut Vec<u32>)
    requires going { margins.old.ended ≡ false }
    requires waits { length margins.old.waiting < 1280 }
    requires block { 1279 ≤ vec_capacity block.old }
    requires room { vec_len to.old + 159 ≤ vec_capacity to.old }
    ensures ended { margins.new.ended ≡ true }
    ensures block { vec_capacity block.new ≡ vec_capacity block.old }
    ensures capacity { vec_capacity to.new ≡ vec_capacity to.old }
    ensures ends { EndsMargins margins.old to.old.items to.new.items }
{
    rescue_words::laws::byte_margins();
    block.clear();
    margins.finish(block);
    push_byte_margins(block, to);
}
