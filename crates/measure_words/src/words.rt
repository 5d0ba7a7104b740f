// From the bytes of a stream to the counts of its words.
ghost use Rattle.std.specs.Prelude.{◌≡◌, ◌+◌, ◌<◌, ◌≤◌, ◌^◌, ◌∷◌, ◌++◌, [], ℕ, List, IfOk, map, min, length, vec_len};
ghost use Rattle.std.specs.Prelude.{slice_index_or, vec_capacity};
ghost use Rattle.rs204.specs.Decoded.{Decoded};
ghost use Rattle.outer_chain.specs.Words.{word_at, word_count};
ghost use Rattle.outer_chain.specs.declared.slot.WordSlot.{WordSlot as Slot};
ghost use Rattle.measure_words.specs.Sums.{AreFew, counted};
ghost use Rattle.measure_words.specs.Counted.{HasCounted, Measures, AreDecoded, AreReceived};

use crate::counts::WordSums;
use crate::repaired::bits_apart;
use outer_chain::{OuterRx, WordSlot};
use rs204::Outcome;
use std::alloc::{AllocError, Global};
use std::marker::Model;
use std::thread::Threads;
use word_workers::{Gate, decode_all};

/// The most words that wait to be decoded.
const WORDS: usize = 24;

/// Takes the interleaved bytes of a stream, and counts its words: all of them, those of the current super-frame, and
/// those after it.
///
/// It stands for the bytes that it has had. No call but `new` takes memory or is refused.
#[derive(Drop)]
pub struct MeasuredWords {
    outer: OuterRx,
    slots: Vec<WordSlot>,
    // Room for the words as they were received.
    received: Vec<[u8; 204]>,
    all: WordSums,
    current: WordSums,
    later: WordSums,
}

impl Model for MeasuredWords {
    ghost use Rattle.std.specs.Prelude.{◌≤◌, vec_capacity};
    ghost use Rattle.measure_words.specs.Seen.{WordsState};
    ghost use Rattle.measure_words.specs.Sums.{AreFew};

    ghost Value = { WordsState };

    ghost view = { λ x. record {
      outer = x.outer;
      slots = x.slots.items;
      all = x.all;
      current = x.current;
      later
          = x.later;
    } };

    ghost invariant = { λ x. (24 ≤ vec_capacity x.slots) × (24 ≤ vec_capacity x.received) × AreFew x.all x.all.words
        × AreFew x.current x.all.words × AreFew x.later x.all.words };
}

/// Keeps the words as they were received.
fn keep(slots: &[WordSlot], received: &mut Vec<[u8; 204]>)
    requires room { length slots.now ≤ vec_capacity received.old }
    ensures received { received.new.items ≡ map (λ (s : Slot). s.word) slots.now }
    ensures capacity { vec_capacity received.new ≡ vec_capacity received.old }
{
    received.clear();
    for slot in slots {
        received.push_reserved(slot.word);
    }
}

/// Decodes each word, by this number of workers.
fn decode<R: Threads + Sync, G: Gate>(rt: &R, gate: &G, workers: u8, slots: &mut Vec<WordSlot>)
    requires some_worker { 1 ≤ workers }
    requires few_workers { workers ≤ 16 }
    requires few { vec_len slots.old ≤ 24 }
    ensures capacity { vec_capacity slots.new ≡ vec_capacity slots.old }
    ensures long { length slots.new.items ≡ length slots.old.items }
    ensures each { (i : ℕ) (d : Slot) → i < length slots.old.items
        → Decoded (slice_index_or slots.old.items i d).word (slice_index_or slots.new.items i d).word
        (slice_index_or slots.new.items i d).outcome }
{
    decode_all(rt, workers, gate, slots.as_mut_slice());
}

/// Counts word `number` in the super-frame if it is below `limit`, and after it if not.
fn count_apart(
    number: u64,
    limit: u64,
    outcome: Outcome,
    phased: bool,
    repaired: u64,
    current: &mut WordSums,
    later: &mut WordSums,
)
    requires repaired { repaired ≤ 1632 }
    requires current { AreFew current.old (2 ^ 50) }
    requires later { AreFew later.old (2 ^ 50) }
    ensures current { (n : ℕ) → AreFew current.old n → AreFew current.new (n + 1) }
    ensures later { (n : ℕ) → AreFew later.old n → AreFew later.new (n + 1) }
    ensures below { number < limit → (current.new ≡ counted current.old outcome phased repaired)
        × (later.new ≡ later.old) }
    ensures above { limit ≤ number → (current.new ≡ current.old)
        × (later.new ≡ counted later.old outcome phased repaired) }
{
    if number < limit {
        current.count(outcome, phased, repaired);
    } else {
        later.count(outcome, phased, repaired);
    }
}

/// Counts a decoded word, also in the super-frame if its number is below `limit`, and after it if not.
fn count_word(
    outer: &mut OuterRx,
    slot: &WordSlot,
    received: &[u8; 204],
    limit: u64,
    all: &mut WordSums,
    current: &mut WordSums,
    later: &mut WordSums,
)
    requires all { AreFew all.old (2 ^ 50) }
    requires current { AreFew current.old (2 ^ 50) }
    requires later { AreFew later.old (2 ^ 50) }
    ensures all { (n : ℕ) → AreFew all.old n → AreFew all.new (n + 1) }
    ensures current { (n : ℕ) → AreFew current.old n → AreFew current.new (n + 1) }
    ensures later { (n : ℕ) → AreFew later.old n → AreFew later.new (n + 1) }
    ensures words { all.new.words ≡ all.old.words + 1 }
    ensures counted { (bytes : List ℕ) (done from : ℕ) → HasCounted outer.old all.old current.old later.old bytes done
        from limit → done < word_count bytes
        → received.now ≡ word_at bytes done → Decoded (word_at bytes done) slot.now.word slot.now.outcome
        → HasCounted outer.new all.new current.new later.new bytes (done + 1) from limit }
{
    let repaired = bits_apart(received, &slot.word);
    let phased = outer.finish_word(slot).is_some();
    count_apart(
        all.words,
        limit,
        slot.outcome,
        phased,
        repaired,
        current,
        later,
    );
    all.count(slot.outcome, phased, repaired);
}

/// Counts decoded words in order.
fn count_words(
    outer: &mut OuterRx,
    slots: &[WordSlot],
    received: &[[u8; 204]],
    limit: u64,
    all: &mut WordSums,
    current: &mut WordSums,
    later: &mut WordSums,
)
    requires number { length slots.now ≤ 24 }
    requires received { length received.now ≡ length slots.now }
    requires all { AreFew all.old (2 ^ 49) }
    requires current { AreFew current.old (2 ^ 49) }
    requires later { AreFew later.old (2 ^ 49) }
    ensures all { (n : ℕ) → AreFew all.old n → AreFew all.new (n + length slots.now) }
    ensures current { (n : ℕ) → AreFew current.old n → AreFew current.new (n + length slots.now) }
    ensures later { (n : ℕ) → AreFew later.old n → AreFew later.new (n + length slots.now) }
    ensures words { all.new.words ≡ all.old.words + length slots.now }
    ensures counted { (bytes : List ℕ) (done from : ℕ) → HasCounted outer.old all.old current.old later.old bytes done
        from limit → done + length slots.now ≤ word_count bytes
        → AreReceived bytes done received.now → AreDecoded bytes done slots.now
        → HasCounted outer.new all.new current.new later.new bytes (done + length slots.now) from limit }
{
    for k in 0..slots.len() {
        count_word(outer, &slots[k], &received[k], limit, all, current, later);
    }
}

impl MeasuredWords {
    /// No byte was taken. It takes all its memory; the only error is want of it.
    pub fn new(alloc: Global) -> Result<Self, AllocError>
        ensures none { IfOk result (λ x. x.slots ≡ []) }
        ensures words { IfOk result (λ x. x.all.words ≡ 0) }
        ensures measures { (limit : ℕ) → IfOk result (λ x. Measures x [] 0 0 limit) }
    {
        let outer = OuterRx::new(alloc)?;
        let slots = Vec::with_capacity(alloc, WORDS)?;
        let received = Vec::with_capacity(alloc, WORDS)?;
        Ok(MeasuredWords {
            outer,
            slots,
            received,
            all: WordSums::none(),
            current: WordSums::none(),
            later: WordSums::none(),
        })
    }

    /// Takes the next byte. Fewer than 24 words wait to be decoded.
    pub fn put_byte(&mut self, byte: u8)
        requires room { length self.old.slots < 24 }
        ensures words { self.new.all ≡ self.old.all }
        ensures measures { (bytes : List ℕ) (done from limit : ℕ) → Measures self.old bytes done from limit
            → Measures self.new (bytes ++ byte ∷ []) done from limit }
    {
        outer_chain::laws::growth();
        self.outer.put_byte(byte, &mut self.slots);
    }

    /// Decodes the words that wait, by this number of workers, and counts them: those below number `limit` in the
    /// current super-frame, the others after it.
    pub fn finish<R: Threads + Sync, G: Gate>(&mut self, rt: &R, gate: &G, workers: u8, limit: u64)
        requires some_worker { 1 ≤ workers }
        requires few_workers { workers ≤ 16 }
        requires slots { length self.old.slots ≤ 24 }
        requires few { self.old.all.words ≤ 2 ^ 49 }
        ensures none { self.new.slots ≡ [] }
        ensures words { self.new.all.words ≡ self.old.all.words + length self.old.slots }
        ensures measures { (bytes : List ℕ) (done from : ℕ) → Measures self.old bytes done from limit
            → Measures self.new bytes (word_count bytes) from limit }
    {
        keep(&self.slots, &mut self.received);
        decode(rt, gate, workers, &mut self.slots);
        count_words(
            &mut self.outer,
            &self.slots,
            &self.received,
            limit,
            &mut self.all,
            &mut self.current,
            &mut self.later,
        );
        self.slots.clear();
    }

    /// Passes on to the next super-frame: the words that were counted after the current one are its first ones.
    pub fn advance(&mut self)
        ensures none { self.new.slots ≡ self.old.slots }
        ensures words { self.new.all ≡ self.old.all }
        ensures measures { (bytes : List ℕ) (done from limit next : ℕ) → Measures self.old bytes done from limit
            → limit ≤ next → done ≤ next → Measures self.new bytes done (min done limit) next }
    {
        self.current = self.later;
        self.later = WordSums::none();
    }

    /// The counts of all words.
    pub fn all(&self) -> WordSums
        ensures all { result ≡ self.now.all }
    {
        self.all
    }

    /// The counts of the words of the current super-frame.
    pub fn current(&self) -> WordSums
        ensures current { result ≡ self.now.current }
    {
        self.current
    }
}
