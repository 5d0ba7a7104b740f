// The receiver of the outer code.

ghost use Rattle.std.specs.Prelude.{◌≡◌, ◌<◌, ◌≤◌, ◌+◌, ◌-◌, ◌*◌, ◌%◌, ◌↔◌, ℕ, List, [], ◌∷◌, ◌++◌, length, take, drop};
ghost use Rattle.std.specs.Prelude.{Some, IfOk, IfSome, IsSome, vec_len, vec_capacity};
ghost use Rattle.outer_chain.specs.Words.{word_at, word_count, phase_of, given_packet, packet_of, has, IsNear};
ghost use Rattle.outer_chain.specs.Nears.{near_of};
ghost use Rattle.outer_chain.specs.Receiving.{EndsWord, Holds, Receives, undecoded};
ghost use Rattle.outer_chain.specs.Sent.{packet_at, code_at};
ghost use Rattle.outer_chain.specs.Bursts.{BurstsOf, NextOfBursts};

use crate::slot::WordSlot;
use dispersal::undo;
use rs204::Outcome;
use std::alloc::{AllocError, Global};
use std::marker::Model;
use ts_packet::Packet;

/// The words of the start-up, which begin before the first byte.
const START_UP: u8 = 11;

/// The last place of a word.
const LAST: usize = 203;

/// The bytes of a word.
const WORD: usize = 204;

/// The bytes of a round, one for each branch of the interleaver and for each word that is being filled.
const ROUND: usize = 12;

/// The bytes of the twelve words that are being filled.
const WORDS: usize = 2448;

/// The place of the first byte: the first place of the last of the twelve words.
const FIRST: usize = 2244;

/// The sync byte of the first packet of a group of eight, inverted.
const INVERTED_SYNC: u8 = 0xB8;

/// The packets of a group.
const GROUP: u8 = 8;

/// Takes the interleaved bytes of a stream and gives its packets. It stands for the bytes that it
/// has had; the phase that contracts see is that of the word that was finished last.
#[derive(Drop)]
pub struct OuterRx {
    // Each byte is put at once where it stands in its word, so no byte is moved through a delay line.
    words: Vec<u8>,
    next: usize,
    filled: usize,
    start: u8,
    phase: Option<u8>,
}

impl Model for OuterRx {
    ghost use Rattle.std.specs.Prelude.{◌≡◌, ◌<◌, ◌%◌, length};
    ghost use Rattle.std.specs.Option.{ForSome};
    ghost use Rattle.outer_chain.specs.Receiving.{Receiver};

    ghost Value = { Receiver };

    ghost view = { λ r. record { words = r.words.items; next = r.next; start = r.start; phase = r.phase } };

    ghost invariant = { λ r. (length r.words.items ≡ 2448) × (r.next < 2448) × (r.filled ≡ r.next % 204)
        × ForSome r.phase (λ f. f < 8) };
}

// Whether the word is a codeword after its decoding.
fn is_near(outcome: Outcome) -> bool
    ensures { (word : List ℕ) → result ≡ has (near_of outcome word) }
{
    match outcome {
        Outcome::Clean => true,
        Outcome::Corrected(_) => true,
        Outcome::Bad => false,
    }
}

// The phase of a word, by that of the word before.
fn phase_after(slot: &WordSlot, before: Option<u8>) -> Option<u8>
    requires { IfSome before (λ f. f < 8) }
    ensures phase { result ≡ phase_of (near_of slot.now.outcome slot.now.word) before }
    ensures small { IfSome result (λ f. f < 8) }
{
    if is_near(slot.outcome) && slot.word[0] == INVERTED_SYNC {
        return Some(0);
    }
    Some((before? + 1) % GROUP)
}

// The packet of a word at its phase.
fn packet_at(slot: &WordSlot, phase: u8) -> Packet
    requires { phase < 8 }
    ensures { result ≡ packet_of phase slot.now.word (near_of slot.now.outcome slot.now.word) }
{
    let mut head = [0u8; 188];
    head.copy_from_slice(&slot.word[..188]);
    let mut packet = undo(phase, &head);
    if !is_near(slot.outcome) {
        packet.mark_error();
    }
    packet
}

// The place of the byte after the one at this place: one place on, in the word before, which is the
// last of the twelve where this is the first.
fn place_after(place: usize) -> usize
    requires { place < 2448 }
    ensures is { result ≡ (place + 2245) % 2448 }
{
    if place < LAST {
        place + (WORDS - LAST)
    } else {
        place - LAST
    }
}

// Puts bytes where they stand in their words one by one, and gives the place of the next one.
fn put_singly(words: &mut [u8], next: usize, bytes: &[u8]) -> usize
    requires twelve { length words.old ≡ 2448 }
    requires next { next < 2448 }
    ensures size { length words.new ≡ 2448 }
    ensures next { result < 2448 }
    ensures place { result % 204 ≡ (next + length bytes.now) % 204 }
    ensures holds { (before : List ℕ) → Holds words.old next before → Holds words.new result (before ++ bytes.now) }
{
    let mut place = next;
    for byte in bytes {
        words[place] = *byte;
        place = place_after(place);
    }
    place
}

// Puts bytes where they stand in their words, none of them after one in the first of the twelve words. Each place is
// then 203 below the one before, and none has to be compared.
#[inline(always)]
fn put_falling(words: &mut [u8], next: usize, bytes: &[u8])
    requires twelve { length words.old ≡ 2448 }
    requires next { next < 2448 }
    requires falls { 203 * length bytes.now ≤ next + 203 }
    ensures size { length words.new ≡ 2448 }
    ensures holds { (before : List ℕ) → Holds words.old next before
        → Holds words.new ((next + 2245 * length bytes.now) % 2448) (before ++ bytes.now) }
{
    for byte in 0..bytes.len() {
        words[next - LAST * byte] = bytes[byte];
    }
}

// Puts the bytes of a round: the first into word `FROM` of the twelve, each other one into the word before. The last
// word comes before the first, and as `FROM` is a constant the compiler knows where that is.
#[inline(always)]
fn put_round<const FROM: usize>(words: &mut [u8], next: usize, bytes: &[u8])
    requires twelve { length words.old ≡ 2448 }
    requires from { FROM < 12 }
    requires above { 204 * FROM ≤ next }
    requires below { next + 12 ≤ 204 * FROM + 204 }
    requires round { length bytes.now ≡ 12 }
    ensures size { length words.new ≡ 2448 }
    ensures holds { (before : List ℕ) → Holds words.old next before
        → Holds words.new ((next + 12) % 2448) (before ++ bytes.now) }
{
    put_falling(words, next, &bytes[..FROM + 1]);
    if FROM + 1 < ROUND {
        put_falling(words, next + WORDS - LAST * (FROM + 1), &bytes[FROM + 1..]);
    }
}

// Puts the bytes of rounds, the first of each in word `FROM` of the twelve.
fn put_rounds<const FROM: usize>(words: &mut [u8], next: usize, bytes: &[u8])
    requires twelve { length words.old ≡ 2448 }
    requires from { FROM < 12 }
    requires above { 204 * FROM ≤ next }
    requires below { next + length bytes.now ≤ 204 * FROM + 204 }
    requires rounds { length bytes.now % 12 ≡ 0 }
    ensures size { length words.new ≡ 2448 }
    ensures holds { (before : List ℕ) → Holds words.old next before
        → Holds words.new ((next + length bytes.now) % 2448) (before ++ bytes.now) }
{
    for round in 0..bytes.len() / ROUND {
        let taken = ROUND * round;
        put_round::<FROM>(words, next + taken, &bytes[taken..taken + ROUND]);
    }
}

// Puts the bytes of rounds, none of them after the end of its word.
fn put_rounds_from(words: &mut [u8], next: usize, bytes: &[u8])
    requires twelve { length words.old ≡ 2448 }
    requires next { next < 2448 }
    requires within { next % 204 + length bytes.now ≤ 204 }
    requires rounds { length bytes.now % 12 ≡ 0 }
    ensures size { length words.new ≡ 2448 }
    ensures holds { (before : List ℕ) → Holds words.old next before
        → Holds words.new ((next + length bytes.now) % 2448) (before ++ bytes.now) }
{
    match next / WORD {
        0 => put_rounds::<0>(words, next, bytes),
        1 => put_rounds::<1>(words, next, bytes),
        2 => put_rounds::<2>(words, next, bytes),
        3 => put_rounds::<3>(words, next, bytes),
        4 => put_rounds::<4>(words, next, bytes),
        5 => put_rounds::<5>(words, next, bytes),
        6 => put_rounds::<6>(words, next, bytes),
        7 => put_rounds::<7>(words, next, bytes),
        8 => put_rounds::<8>(words, next, bytes),
        9 => put_rounds::<9>(words, next, bytes),
        10 => put_rounds::<10>(words, next, bytes),
        _ => put_rounds::<11>(words, next, bytes),
    }
}

// Puts bytes where they stand in their words, none of them after the end of its word, and gives the place of the next
// one: whole rounds at once, and the bytes after them one by one.
fn put_each(words: &mut [u8], next: usize, bytes: &[u8]) -> usize
    requires twelve { length words.old ≡ 2448 }
    requires next { next < 2448 }
    requires within { next % 204 + length bytes.now ≤ 204 }
    ensures size { length words.new ≡ 2448 }
    ensures next { result < 2448 }
    ensures place { result % 204 ≡ (next + length bytes.now) % 204 }
    ensures holds { (before : List ℕ) → Holds words.old next before → Holds words.new result (before ++ bytes.now) }
{
    let whole = bytes.len() - bytes.len() % ROUND;
    put_rounds_from(words, next, &bytes[..whole]);
    let place = next + whole;
    let place = if place < WORDS { place } else { 0 };
    put_singly(words, place, &bytes[whole..])
}

// The word that begins at this place.
fn word_from(words: &[u8], first: usize) -> [u8; 204]
    requires within { first + 204 ≤ length words.now }
    ensures { result ≡ take 204 (drop first words.now) }
{
    let mut word = [0u8; 204];
    word.copy_from_slice(&words[first..first + WORD]);
    word
}

// Appends the word that begins at this place, but of the start-up only counts it.
#[inline(never)]
fn end_word(words: &[u8], first: usize, start: &mut u8, slots: &mut Vec<WordSlot>)
    requires within { first + 204 ≤ length words.now }
    requires room { vec_len slots.old < vec_capacity slots.old }
    ensures capacity { vec_capacity slots.new ≡ vec_capacity slots.old }
    ensures start { start.new ≡ start.old - 1 }
    ensures none { 0 < start.old → slots.new.items ≡ slots.old.items }
    ensures word { start.old ≡ 0 → slots.new.items ≡ slots.old.items
        ++ record { word = take 204 (drop first words.now); outcome = Outcome.Bad } ∷ [] }
{
    if *start > 0 {
        *start -= 1;
        return;
    }
    slots.push_reserved(WordSlot {
        word: word_from(words, first),
        outcome: Outcome::Bad,
    });
}

impl OuterRx {
    /// A receiver that has had no byte and finished no word. The only error is want of memory.
    pub fn new(alloc: Global) -> Result<OuterRx, AllocError>
        ensures empty { IfOk result (λ rx. Receives rx []) }
        ensures phase { IfOk result (λ rx. rx.phase ≡ None) }
    {
        Ok(OuterRx {
            words: vec![in alloc; 0; WORDS]?,
            next: FIRST,
            filled: 0,
            start: START_UP,
            phase: None,
        })
    }

    /// Takes the next interleaved byte. Gives the word that ends with it, still to be decoded, exactly
    /// where a word after the eleven of the start-up ends with it. Where the bytes are those of packets
    /// with bursts, the word's nearest codeword is that of its packet, as without them.
    pub fn take_byte(&mut self, byte: u8) -> Option<WordSlot>
        ensures stands { (bytes : List ℕ) → Receives self.old bytes → Receives self.new (bytes ++ byte ∷ []) }
        ensures ends { (bytes : List ℕ) → Receives self.old bytes → IsSome result ↔ EndsWord (bytes ++ byte ∷ []) }
        ensures word { (bytes : List ℕ) → Receives self.old bytes
            → IfSome result (λ slot. slot.word ≡ word_at (bytes ++ byte ∷ []) (word_count (bytes ++ byte ∷ []) - 1)) }
        ensures undecoded { IfSome result (λ slot. slot.outcome ≡ Outcome.Bad) }
        ensures bursts { (bytes : List ℕ) (packets : List (List ℕ)) → Receives self.old bytes
            → BurstsOf packets (bytes ++ byte ∷ []) → IfSome result (λ slot. IsNear slot.word
            (Some (code_at packets (word_count (bytes ++ byte ∷ []) - 1)))) }
        ensures phase { self.new.phase ≡ self.old.phase }
    {
        let place = self.next;
        self.words[place] = byte;
        self.next = place_after(place);
        if self.filled < LAST {
            self.filled += 1;
            return None;
        }
        self.filled = 0;
        if self.start > 0 {
            self.start -= 1;
            return None;
        }
        Some(WordSlot {
            word: word_from(self.words.as_slice(), place - LAST),
            outcome: Outcome::Bad,
        })
    }

    /// Takes the next interleaved byte, as [`OuterRx::take_byte`] does, and appends the word that ends
    /// with it, still to be decoded, exactly where a word after the eleven of the start-up ends with it.
    /// There is room for one word; the capacity stays. No word is moved where none ends. Where the bytes
    /// are those of packets with bursts, the word's nearest codeword is that of its packet, as without
    /// them.
    #[inline]
    pub fn put_byte(&mut self, byte: u8, slots: &mut Vec<WordSlot>)
        requires room { vec_len slots.old < vec_capacity slots.old }
        ensures capacity { vec_capacity slots.new ≡ vec_capacity slots.old }
        ensures stands { (bytes : List ℕ) → Receives self.old bytes → Receives self.new (bytes ++ byte ∷ []) }
        ensures word { (bytes : List ℕ) → Receives self.old bytes → EndsWord (bytes ++ byte ∷ []) → slots.new.items
            ≡ slots.old.items ++ undecoded (bytes ++ byte ∷ []) (word_count (bytes ++ byte ∷ []) - 1) ∷ [] }
        ensures none { (bytes : List ℕ) → Receives self.old bytes → (EndsWord (bytes ++ byte ∷ []) → ⊥)
            → slots.new.items ≡ slots.old.items }
        ensures bursts { (bytes : List ℕ) (packets : List (List ℕ)) → Receives self.old bytes
            → BurstsOf packets (bytes ++ byte ∷ []) → EndsWord (bytes ++ byte ∷ [])
            → IsNear (word_at (bytes ++ byte ∷ []) (word_count (bytes ++ byte ∷ []) - 1))
            (Some (code_at packets (word_count (bytes ++ byte ∷ []) - 1))) }
        ensures phase { self.new.phase ≡ self.old.phase }
    {
        let place = self.next;
        self.words[place] = byte;
        self.next = place_after(place);
        if self.filled < LAST {
            self.filled += 1;
            return;
        }
        self.filled = 0;
        end_word(self.words.as_slice(), place - LAST, &mut self.start, slots);
    }

    /// How many bytes the word that is being received still needs, at least one.
    pub fn to_end(&self) -> usize
        ensures is { result + self.now.next % 204 ≡ 204 }
        ensures some { 0 < result }
    {
        WORD - self.filled
    }

    /// Takes the next interleaved bytes, as [`OuterRx::put_byte`] does one by one, and appends the word
    /// that ends with the last of them, still to be decoded, exactly where a word after the eleven of the
    /// start-up ends with it. There is at least one byte and at most `to_end` bytes, those up to the end of
    /// the word that is being received, and there is room for one word; the capacity stays. If the bytes are
    /// those of packets with bursts, the word's nearest codeword is that of its packet, as without them.
    pub fn put_bytes(&mut self, bytes: &[u8], slots: &mut Vec<WordSlot>)
        requires some { 0 < length bytes.now }
        requires within { self.old.next % 204 + length bytes.now ≤ 204 }
        requires room { vec_len slots.old < vec_capacity slots.old }
        ensures capacity { vec_capacity slots.new ≡ vec_capacity slots.old }
        ensures stands { (before : List ℕ) → Receives self.old before → Receives self.new (before ++ bytes.now) }
        ensures word { (before : List ℕ) → Receives self.old before → EndsWord (before ++ bytes.now) → slots.new.items
            ≡ slots.old.items ++ undecoded (before ++ bytes.now) (word_count (before ++ bytes.now) - 1) ∷ [] }
        ensures none { (before : List ℕ) → Receives self.old before → (EndsWord (before ++ bytes.now) → ⊥)
            → slots.new.items ≡ slots.old.items }
        ensures bursts { (before : List ℕ) (packets : List (List ℕ)) → Receives self.old before
            → BurstsOf packets (before ++ bytes.now) → EndsWord (before ++ bytes.now)
            → IsNear (word_at (before ++ bytes.now) (word_count (before ++ bytes.now) - 1))
            (Some (code_at packets (word_count (before ++ bytes.now) - 1))) }
        ensures phase { self.new.phase ≡ self.old.phase }
    {
        let next = put_each(self.words.as_mut_slice(), self.next, bytes);
        self.next = next;
        let filled = self.filled + bytes.len();
        if filled < WORD {
            self.filled = filled;
            return;
        }
        self.filled = 0;
        end_word(self.words.as_slice(), next, &mut self.start, slots);
    }

    /// The packet of a decoded word, meant for each word in order: none exactly where the word has no
    /// phase, and marked where the word has no nearest codeword. A nearest codeword that begins with
    /// the inverted sync byte has phase 0, another word the phase after that of the word before. Of
    /// bytes of packets with bursts each word gives its packet, at the phase that it was sent with.
    pub fn finish_word(&mut self, slot: &WordSlot) -> Option<Packet>
        ensures phase { self.new.phase ≡ phase_of (near_of slot.now.outcome slot.now.word) self.old.phase }
        ensures packet { result ≡ given_packet self.new.phase slot.now.word (near_of slot.now.outcome slot.now.word) }
        ensures stands { (bytes : List ℕ) → Receives self.old bytes → Receives self.new bytes }
        ensures burst_phase { (packets : List (List ℕ)) (done : ℕ)
            → NextOfBursts self.old packets done slot.now.word slot.now.outcome → self.new.phase ≡ Some (done % 8) }
        ensures burst_packet { (packets : List (List ℕ)) (done : ℕ)
            → NextOfBursts self.old packets done slot.now.word slot.now.outcome → result
            ≡ Some (packet_at packets done) }
    {
        let phase = phase_after(slot, self.phase);
        self.phase = phase;
        Some(packet_at(slot, phase?))
    }
}
