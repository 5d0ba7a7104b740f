// Bytes and their margins, which wait for each other.
ghost use Rattle.std.specs.Prelude.{◌≡◌, ◌+◌, ◌/◌, ◌<◌, ◌≤◌, ◌^◌, ◌++◌, ◌∷◌, [], drop, length, vec_len, vec_capacity};
ghost use Rattle.rescue.specs.Moves.{Passes, FinishesWords, GivesWords};

use inner_receiver::StreamBranch;
use rescue_words::RescueWords;

/// Appends a byte.
fn push_byte(byte: u8, to: &mut Vec<u8>)
    requires room { vec_len to.old < vec_capacity to.old }
    ensures items { to.new.items ≡ to.old.items ++ byte ∷ [] }
    ensures small { byte < 256 }
    ensures capacity { vec_capacity to.new ≡ vec_capacity to.old }
{
    to.push_reserved(byte);
}

/// Takes the first byte of the pending bits, of which there are at least eight.
fn pass_byte(branch: &mut StreamBranch, to: &mut Vec<u8>)
    requires wait { 8 ≤ length branch.old.wait }
    requires room { vec_len to.old < vec_capacity to.old }
    ensures capacity { vec_capacity to.new ≡ vec_capacity to.old }
    ensures wait { length branch.old.wait ≡ length branch.new.wait + 8 }
    ensures passed { Passes 1 branch.old branch.new to.old.items to.new.items }
{
    match branch.take_byte() {
        Some(byte) => push_byte(byte, to),
        None => {}
    }
}

/// Takes the whole bytes of the pending bits.
pub(crate) fn pass_bytes(branch: &mut StreamBranch, to: &mut Vec<u8>)
    requires room { vec_len to.old + length branch.old.wait / 8 ≤ vec_capacity to.old }
    ensures capacity { vec_capacity to.new ≡ vec_capacity to.old }
    ensures wait { length branch.new.wait < 8 }
    ensures passed { Passes (length branch.old.wait / 8) branch.old branch.new to.old.items to.new.items }
{
    for _k in 0..branch.waiting() / 8 {
        pass_byte(branch, to);
    }
}

/// Removes the first items of a queue.
fn drop_first<T: Drop>(queue: &mut Vec<T>, count: usize)
    requires within { count ≤ vec_len queue.old }
    ensures rest { queue.new.items ≡ drop count queue.old.items }
    ensures capacity { vec_capacity queue.new ≡ vec_capacity queue.old }
{
    let left = queue.len() - count;
    queue.rotate_left(count);
    queue.truncate(left);
}

/// Takes bytes and as many margins, and appends the packets of the words that end with them.
///
/// There are at most 4,400 of them.
fn finish_words(words: &mut RescueWords, bytes: &[u8], margins: &[u32], to: &mut Vec<u8>)
    requires many { length margins.now ≡ length bytes.now }
    requires few { length bytes.now ≤ 4400 }
    requires begun { length words.old.margins.begun < 204 }
    requires words { words.old.counts.words < 2 ^ 61 }
    requires room { vec_len to.old + 4512 ≤ vec_capacity to.old }
    ensures capacity { vec_capacity to.new ≡ vec_capacity to.old }
    ensures words { words.new.counts.words ≤ words.old.counts.words + length bytes.now }
    ensures finished { FinishesWords bytes.now margins.now words.old words.new to.old.items to.new.items }
{
    for k in 0..bytes.len() {
        words.take(bytes[k], margins[k], to);
    }
}

/// Passes bytes with their margins to the words as far as there are both, and appends the packets.
///
/// There are at most 4,400 bytes.
pub(crate) fn give_words(
    bytes: &mut Vec<u8>,
    margins: &mut Vec<u32>,
    words: &mut RescueWords,
    to: &mut Vec<u8>,
)
    requires few { vec_len bytes.old ≤ 4400 }
    requires begun { length words.old.margins.begun < 204 }
    requires words { words.old.counts.words < 2 ^ 61 }
    requires room { vec_len to.old + 4512 ≤ vec_capacity to.old }
    ensures capacity { vec_capacity to.new ≡ vec_capacity to.old }
    ensures bytes { vec_capacity bytes.new ≡ vec_capacity bytes.old }
    ensures margins { vec_capacity margins.new ≡ vec_capacity margins.old }
    ensures words { words.new.counts.words ≤ words.old.counts.words + 4400 }
    ensures gives { GivesWords bytes.old.items margins.old.items words.old bytes.new.items margins.new.items words.new
        to.old.items to.new.items }
{
    let count = bytes.len().min(margins.len());
    finish_words(words, &bytes[..count], &margins[..count], to);
    drop_first(bytes, count);
    drop_first(margins, count);
}
