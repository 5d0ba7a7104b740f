// Outer words in chunks.
ghost use Rattle.std.specs.Int.{div_ceil};
ghost use Rattle.std.specs.Prelude.{◌≡◌, ◌+◌, ◌<◌, ◌≤◌, ℕ, IsTrue, length, slice_index_or};
ghost use Rattle.rs204.specs.Decoded.{Decoded};

use crate::gate::{Gate, Job};
use outer_chain::WordSlot;
use std::thread::{Threads, for_each_chunk_mut};

/// Enters the gate with the number of a word, and decodes the word.
fn decode_one<G: Gate>(gate: &G, number: u32, slot: &mut WordSlot)
    ensures decoded { Decoded slot.old.word slot.new.word slot.new.outcome }
    ensures entered { IsTrue (G.has_entered gate.now Job.Outer number) }
{
    gate.enter(Job::Outer, number);
    slot.decode();
}

/// Decodes the words of a chunk in order; the first has number `start`.
fn decode_chunk<G: Gate>(gate: &G, start: usize, chunk: &mut [WordSlot])
    requires few { start + length chunk.old ≤ 24 }
    ensures each { (i : ℕ) (d : WordSlot) → i < length chunk.old
        → Decoded (slice_index_or chunk.old i d).word (slice_index_or chunk.new i d).word
        (slice_index_or chunk.new i d).outcome }
    ensures entered { (i : ℕ) → i < length chunk.old → IsTrue (G.has_entered gate.now Job.Outer (start + i)) }
{
    for k in 0..chunk.len() {
        decode_one(gate, (start + k) as u32, &mut chunk[k]);
    }
}

/// The number of slots in a chunk; the last one may have fewer.
fn chunk_len(slots: usize, workers: u8) -> usize
    requires some { 1 ≤ slots }
    requires some_worker { 1 ≤ workers }
    ensures len { result ≡ div_ceil slots workers }
    ensures some { 1 ≤ result }
{
    slots.div_ceil(workers as usize)
}

/// Decodes each word, with at most `workers` workers; each slot ends as [`WordSlot::decode`] leaves it, for every
/// number of workers and every gate.
///
/// There are 1 to 16 workers and at most 24 slots. They are divided into chunks of `ceil(len / workers)` slots, in
/// order. With two or more chunks a thread is started for each, except for one that the caller decodes itself, as it
/// does with all for which no thread can be started. Before it decodes a slot a worker enters the gate with
/// [`Job::Outer`] and the number of the slot.
pub fn decode_all<R: Threads + Sync, G: Gate>(rt: &R, workers: u8, gate: &G, slots: &mut [WordSlot])
    requires some_worker { 1 ≤ workers }
    requires few_workers { workers ≤ 16 }
    requires few_slots { length slots.old ≤ 24 }
    ensures each { (i : ℕ) (d : WordSlot) → i < length slots.old
        → Decoded (slice_index_or slots.old i d).word (slice_index_or slots.new i d).word
        (slice_index_or slots.new i d).outcome }
    ensures entered { (i : ℕ) → i < length slots.old → IsTrue (G.has_entered gate.now Job.Outer i) }
{
    if slots.is_empty() {
        return;
    }
    let size = chunk_len(slots.len(), workers);
    let work = |start: usize, chunk: &mut [WordSlot]|
        requires { start + length chunk.now ≤ 24 }
        ensures each { (i : ℕ) (d : WordSlot) → i < length chunk.entry.now
            → Decoded (slice_index_or chunk.entry.now i d).word (slice_index_or chunk.exit.now i d).word
            (slice_index_or chunk.exit.now i d).outcome }
        ensures entered { (i : ℕ) → i < length chunk.entry.now
            → IsTrue (G.has_entered gate.entry.now Job.Outer (start + i)) }
    { decode_chunk(gate, start, chunk) };
    for_each_chunk_mut(rt, slots, size, &work);
}
