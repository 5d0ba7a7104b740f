// From the bits of a decoder to packets.
ghost use Rattle.std.specs.Prelude.{◌≡◌, ◌+◌, ◌-◌, ◌*◌, ◌/◌, ◌%◌, ◌<◌, ◌≤◌, ◌^◌, ◌++◌, [], ℕ, List, All};
ghost use Rattle.std.specs.Prelude.{length, vec_len, vec_capacity};
ghost use Rattle.rs204.specs.Decoded.{Decoded};
ghost use Rattle.outer_chain.specs.Words.{Tally, word_at, word_count};
ghost use Rattle.outer_chain.specs.Running.{Finished, bytes_given};
ghost use Rattle.receiver.specs.Words.{AreDecoded, DecodesAll, Started, Took, Passed, Collected, counted, Wrote};
ghost use Rattle.receiver.specs.Words.{AreFew};

use inner_receiver::StreamBranch;
use outer_chain::laws::receiving;
use outer_chain::{OuterRx, WordSlot};
use rs204::Outcome;
use rx_report::StreamCounts;
use std::thread::Threads;
use ts_packet::Packet;
use word_workers::{Gate, decode_all};

/// The most words that one symbol completes.
pub(crate) const WORDS: usize = 24;

/// Takes bytes of the stream, none of them after the end of its word, and keeps the word that ends with them, if one
/// does.
fn take_run(outer: &mut OuterRx, bytes: &[u8], slots: &mut Vec<WordSlot>)
    requires some { 0 < length bytes.now }
    requires within { outer.old.next % 204 + length bytes.now ≤ 204 }
    requires room { vec_len slots.old < vec_capacity slots.old }
    ensures capacity { vec_capacity slots.new ≡ vec_capacity slots.old }
    ensures small { All (λ b. b < 256) bytes.now }
    ensures took { (before given : List ℕ) (tally : Tally) (done : ℕ) → Finished outer.old before given tally done
        → Took outer.new bytes.now before given tally done slots.old.items slots.new.items }
{
    outer_chain::laws::taking();
    outer_chain::laws::growth();
    outer.put_bytes(bytes, slots);
}

/// Takes the first bytes of the pending bits, which have as many, and none of them after the end of its word.
fn pass_run(
    branch: &mut StreamBranch,
    outer: &mut OuterRx,
    number: usize,
    slots: &mut Vec<WordSlot>,
)
    requires some { 0 < number }
    requires wait { 8 * number ≤ length branch.old.wait }
    requires within { outer.old.next % 204 + number ≤ 204 }
    requires room { vec_len slots.old < vec_capacity slots.old }
    ensures capacity { vec_capacity slots.new ≡ vec_capacity slots.old }
    ensures wait { length branch.old.wait ≡ length branch.new.wait + 8 * number }
    ensures rest { branch.new ≡ record branch.old { wait = branch.new.wait } }
    ensures passed { (bytes given : List ℕ) (tally : Tally) (done : ℕ) → Finished outer.old bytes given tally done
        → Passed branch.old.wait branch.new.wait number outer.new bytes given tally done slots.old.items
        slots.new.items }
{
    let mut bytes = [0u8; 204];
    let run = &mut bytes[..number];
    branch.take_bytes(run);
    take_run(outer, run, slots);
}

/// How many of the next bytes to take at once: up to the end of their word.
fn run_of(outer: &OuterRx, left: usize) -> usize
    requires some { 0 < left }
    ensures some { 0 < result }
    ensures few { result ≤ left }
    ensures within { outer.now.next % 204 + result ≤ 204 }
{
    outer.to_end().min(left)
}

/// Takes the whole bytes of the pending bits, and keeps the words that end with them, at most 24.
pub(crate) fn collect(branch: &mut StreamBranch, outer: &mut OuterRx, slots: &mut Vec<WordSlot>)
    requires started { Started outer.old }
    requires none { slots.old.items ≡ [] }
    requires room { 24 ≤ vec_capacity slots.old }
    ensures capacity { vec_capacity slots.new ≡ vec_capacity slots.old }
    ensures few { vec_len slots.new ≤ 24 }
    ensures wait { length branch.new.wait < 8 }
    ensures rest { branch.new ≡ record branch.old { wait = branch.new.wait } }
    ensures collected { (bytes given : List ℕ) (tally : Tally) → Finished outer.old bytes given tally (word_count bytes)
        → Collected branch.old.wait bytes given tally (word_count bytes) (length branch.old.wait / 8) outer.new
        branch.new.wait slots.new.items }
{
    let all = branch.waiting() as usize / 8;
    let mut taken = 0;
    while taken < all {
        let number = run_of(outer, all - taken);
        pass_run(branch, outer, number, slots);
        taken += number;
    }
}

/// Decodes each word, with `workers` workers.
pub(crate) fn decode<R: Threads + Sync, G: Gate>(
    rt: &R,
    gate: &G,
    workers: u8,
    slots: &mut Vec<WordSlot>,
)
    requires some_worker { 1 ≤ workers }
    requires few_workers { workers ≤ 16 }
    requires few { vec_len slots.old ≤ 24 }
    ensures capacity { vec_capacity slots.new ≡ vec_capacity slots.old }
    ensures decoded { DecodesAll slots.old.items slots.new.items }
{
    decode_all(rt, workers, gate, slots.as_mut_slice());
}

/// Counts a word.
fn count(counts: &mut StreamCounts, outcome: Outcome, phased: bool)
    requires few { AreFew counts.old (2 ^ 62) }
    ensures few { (n : ℕ) → AreFew counts.old n → AreFew counts.new (n + 1) }
    ensures counted { counts.new ≡ counted counts.old outcome phased }
{
    counts.words += 1;
    if !phased {
        counts.unphased += 1;
    }
    match outcome {
        Outcome::Clean => counts.clean += 1,
        Outcome::Corrected(_) => counts.corrected += 1,
        Outcome::Bad => counts.bad += 1,
    }
}

/// Appends bytes, for which there is room.
fn append(bytes: &[u8], to: &mut Vec<u8>)
    requires room { vec_len to.old + length bytes.now ≤ vec_capacity to.old }
    ensures items { to.new.items ≡ to.old.items ++ bytes.now }
    ensures capacity { vec_capacity to.old ≤ vec_capacity to.new }
{
    match to.extend_from_slice(bytes) {
        Ok(()) => {}
        Err(_) => unreachable!(),
    }
}

/// Appends the packet of a word, if it has one.
fn append_packet(packet: &Option<Packet>, to: &mut Vec<u8>)
    requires room { vec_len to.old + 188 ≤ vec_capacity to.old }
    ensures items { to.new.items ≡ to.old.items ++ bytes_given packet.now }
    ensures len { vec_len to.new ≤ vec_len to.old + 188 }
    ensures capacity { vec_capacity to.old ≤ vec_capacity to.new }
{
    if let Some(packet) = packet {
        append(packet.bytes(), to);
    }
}

/// Finishes a decoded word: counts it and writes its packet, if it has one.
fn finish_word(outer: &mut OuterRx, slot: &WordSlot, counts: &mut StreamCounts, to: &mut Vec<u8>)
    requires room { vec_len to.old + 188 ≤ vec_capacity to.old }
    requires few { AreFew counts.old (2 ^ 62) }
    ensures len { vec_len to.new ≤ vec_len to.old + 188 }
    ensures capacity { vec_capacity to.old ≤ vec_capacity to.new }
    ensures few { (n : ℕ) → AreFew counts.old n → AreFew counts.new (n + 1) }
    ensures wrote { (bytes given : List ℕ) (tally : Tally) (done : ℕ) → Finished outer.old bytes given tally done
        → done < word_count bytes → Decoded (word_at bytes done) slot.now.word slot.now.outcome
        → Wrote outer.new bytes given (done + 1) to.old.items to.new.items counts.old counts.new tally }
{
    receiving();
    let packet = outer.finish_word(slot);
    count(counts, slot.outcome, packet.is_some());
    append_packet(&packet, to);
}

/// Finishes decoded words in order.
pub(crate) fn finish_words(
    outer: &mut OuterRx,
    slots: &[WordSlot],
    counts: &mut StreamCounts,
    to: &mut Vec<u8>,
)
    requires number { length slots.now ≤ 24 }
    requires room { vec_len to.old + 188 * length slots.now ≤ vec_capacity to.old }
    requires few { AreFew counts.old (2 ^ 61) }
    ensures capacity { vec_capacity to.old ≤ vec_capacity to.new }
    ensures few { (n : ℕ) → AreFew counts.old n → AreFew counts.new (n + 24) }
    ensures wrote { (bytes given : List ℕ) (tally : Tally) (done : ℕ) → Finished outer.old bytes given tally done → done
        + length slots.now ≤ word_count bytes → AreDecoded bytes done slots.now
        → Wrote outer.new bytes given (done + length slots.now) to.old.items to.new.items counts.old counts.new tally }
{
    for slot in slots {
        finish_word(outer, slot, counts, to);
    }
}
