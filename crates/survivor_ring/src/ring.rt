// Survivors as decision words.
ghost use Rattle.std.specs.Prelude.{◌≡◌, ◌≢◌, ◌+◌, ◌-◌, ◌*◌, ◌/◌, ◌%◌, ◌<◌, ◌≤◌, ◌==◌, ℕ, Bool, List, [], ◌∷◌, ◌++◌};
ghost use Rattle.std.specs.Prelude.{◌&&◌, ◌||◌, length, take, drop, IsTrue};
ghost use Rattle.spec_words.specs.Bits.{is_set, spelled};
ghost use Rattle.code_paths.specs.States.{before};
ghost use Rattle.survivor_ring.specs.Survivors.{IsAlike};
ghost use Rattle.survivor_ring.specs.Ring.{TraceFollows, root, trace, IsTraced, AreBefore, IsSplit, IsUniform};
ghost use Rattle.survivor_ring.specs.Ring.{IsSingle, Chosen};
ghost use Rattle.std.specs.Prelude.{slice_index, IsFalse, ◌^◌};
ghost use Rattle.bit_pack.specs.Queue.{bits_of_bytes};

use crate::Survivors;
use crate::bits::{append_traced, lowest};
use bit_pack::WaitBuf;
use circular_buffer::HeapCircularBuffer;
use std::alloc::{AllocError, Global};

/// The bits of both halves.
fn folded(word: u64) -> u32
    ensures { (k : ℕ) → k < 32 → is_set result k ≡ (is_set word k || is_set word (k + 32)) }
{
    ((word | word >> 32) & 0xFFFF_FFFF) as u32
}

/// The bits of each byte at twice their indices.
static SPREAD: [u16; 256] = [
    0, 1, 4, 5, 16, 17, 20, 21, 64, 65, 68, 69, 80, 81, 84, 85, 256, 257, 260, 261, 272, 273, 276,
    277, 320, 321, 324, 325, 336, 337, 340, 341, 1024, 1025, 1028, 1029, 1040, 1041, 1044, 1045,
    1088, 1089, 1092, 1093, 1104, 1105, 1108, 1109, 1280, 1281, 1284, 1285, 1296, 1297, 1300, 1301,
    1344, 1345, 1348, 1349, 1360, 1361, 1364, 1365, 4096, 4097, 4100, 4101, 4112, 4113, 4116, 4117,
    4160, 4161, 4164, 4165, 4176, 4177, 4180, 4181, 4352, 4353, 4356, 4357, 4368, 4369, 4372, 4373,
    4416, 4417, 4420, 4421, 4432, 4433, 4436, 4437, 5120, 5121, 5124, 5125, 5136, 5137, 5140, 5141,
    5184, 5185, 5188, 5189, 5200, 5201, 5204, 5205, 5376, 5377, 5380, 5381, 5392, 5393, 5396, 5397,
    5440, 5441, 5444, 5445, 5456, 5457, 5460, 5461, 16384, 16385, 16388, 16389, 16400, 16401,
    16404, 16405, 16448, 16449, 16452, 16453, 16464, 16465, 16468, 16469, 16640, 16641, 16644,
    16645, 16656, 16657, 16660, 16661, 16704, 16705, 16708, 16709, 16720, 16721, 16724, 16725,
    17408, 17409, 17412, 17413, 17424, 17425, 17428, 17429, 17472, 17473, 17476, 17477, 17488,
    17489, 17492, 17493, 17664, 17665, 17668, 17669, 17680, 17681, 17684, 17685, 17728, 17729,
    17732, 17733, 17744, 17745, 17748, 17749, 20480, 20481, 20484, 20485, 20496, 20497, 20500,
    20501, 20544, 20545, 20548, 20549, 20560, 20561, 20564, 20565, 20736, 20737, 20740, 20741,
    20752, 20753, 20756, 20757, 20800, 20801, 20804, 20805, 20816, 20817, 20820, 20821, 21504,
    21505, 21508, 21509, 21520, 21521, 21524, 21525, 21568, 21569, 21572, 21573, 21584, 21585,
    21588, 21589, 21760, 21761, 21764, 21765, 21776, 21777, 21780, 21781, 21824, 21825, 21828,
    21829, 21840, 21841, 21844, 21845,
];

/// Moves each bit of a byte to twice its index.
fn spread_byte(byte: u8) -> u64
    ensures small { result < 65536 }
    ensures bits { (k : ℕ) → k < 16 → is_set result k ≡ ((k % 2 == 0) && is_set byte (k / 2)) }
{
    SPREAD[byte as usize] as u64
}

/// Moves each bit to twice its index.
fn spread(word: u32) -> u64
    ensures { (k : ℕ) → k < 64 → is_set result k ≡ ((k % 2 == 0) && is_set word (k / 2)) }
{
    let low = spread_byte((word % 256) as u8) + 65536 * spread_byte(((word >> 8) % 256) as u8);
    let high = spread_byte(((word >> 16) % 256) as u8)
        + 65536 * spread_byte(((word >> 24) % 256) as u8);
    low + 0x1_0000_0000 * high
}

/// The predecessors, by a decision word, of the states of a set.
fn ancestors(set: u64, word: u64) -> u64
    ensures { AreBefore set word result }
{
    spread(folded(set & !word)) | spread(folded(set & word)) << 1
}

fn is_uniform(set: u64) -> bool
    ensures yes { IsTrue result → IsUniform set }
    ensures no { IsFalse result → IsSplit set }
{
    set >> 32 == 0 || set & 0xFFFF_FFFF == 0
}

fn lowered(set: u64, index: usize, answer: usize) -> usize
    ensures { Chosen set index answer result }
{
    if is_uniform(set) { answer } else { index }
}

/// The number of words of a ring and after it.
fn number_of(words: &HeapCircularBuffer<u64>, more: &[u64]) -> usize
    requires { length words.now.items + length more.now ≤ 2056 }
    ensures { result ≡ length (words.now.items ++ more.now) }
{
    words.len() + more.len()
}

fn ring_word(words: &HeapCircularBuffer<u64>, index: usize) -> u64
    requires { index < length words.now.items }
    ensures { result ≡ slice_index words.now.items index }
{
    match words.get(index) {
        Some(word) => *word,
        None => unreachable!(),
    }
}

/// One of the words of a ring and after it.
fn word_at(words: &HeapCircularBuffer<u64>, more: &[u64], index: usize) -> u64
    requires { index < length (words.now.items ++ more.now) }
    ensures { result ≡ slice_index (words.now.items ++ more.now) index }
{
    let count = words.len();
    if index < count {
        ring_word(words, index)
    } else {
        more[index - count]
    }
}

fn step_back(word: u64, state: u64) -> u64
    requires state { state < 64 }
    ensures is { result ≡ before word state }
    ensures small { result < 64 }
{
    let odd = (word >> state) & 1 == 1;
    2 * (state % 32) + if odd { 1 } else { 0 }
}

/// Writes the bits of words, from an index on, one by one: for the oldest word the state before it, and the eight bits
/// from this index on. `byte` is the eight bits after those of the newest word.
fn trace_steps(
    words: &[u64],
    place: usize,
    state: u64,
    byte: u64,
    bytes: &mut [u8; 257],
) -> (u64, u64)
    requires state { state < 64 }
    requires byte { byte < 256 }
    requires room { place + length words.now ≤ 2056 }
    ensures root { result.0 ≡ root words.now state }
    ensures small { result.0 < 64 }
    ensures byte { result.1 < 256 }
    ensures traced { (bits : List Bool) → take (length words.now) (drop place bits) ≡ trace words.now state
        → IsTraced bits (place + length words.now) byte bytes.old → IsTraced bits place result.1 bytes.new }
{
    let count = words.len();
    let mut now = state;
    let mut last = byte;
    for k in 0..count {
        let index = count - 1 - k;
        last = last / 2 + 128 * (now / 32);
        bytes[(place + index) / 8] = last as u8;
        now = step_back(words[index], now);
    }
    (now, last)
}

/// A step back that keeps the bits passed: the predecessor is the lowest six bits, and above them are the newest bits
/// of the states passed, the last one lowest.
fn walk_back(word: u64, walk: u64) -> u64
    requires { walk < 8192 }
    ensures state { result % 64 ≡ before word (walk % 64) }
    ensures rest { result / 2 ≡ walk }
{
    let odd = (word >> (walk % 64)) & 1 == 1;
    2 * walk + if odd { 1 } else { 0 }
}

/// The bits of each byte in reverse order.
static REVERSED: [u8; 256] = [
    0, 128, 64, 192, 32, 160, 96, 224, 16, 144, 80, 208, 48, 176, 112, 240, 8, 136, 72, 200, 40,
    168, 104, 232, 24, 152, 88, 216, 56, 184, 120, 248, 4, 132, 68, 196, 36, 164, 100, 228, 20,
    148, 84, 212, 52, 180, 116, 244, 12, 140, 76, 204, 44, 172, 108, 236, 28, 156, 92, 220, 60,
    188, 124, 252, 2, 130, 66, 194, 34, 162, 98, 226, 18, 146, 82, 210, 50, 178, 114, 242, 10, 138,
    74, 202, 42, 170, 106, 234, 26, 154, 90, 218, 58, 186, 122, 250, 6, 134, 70, 198, 38, 166, 102,
    230, 22, 150, 86, 214, 54, 182, 118, 246, 14, 142, 78, 206, 46, 174, 110, 238, 30, 158, 94,
    222, 62, 190, 126, 254, 1, 129, 65, 193, 33, 161, 97, 225, 17, 145, 81, 209, 49, 177, 113, 241,
    9, 137, 73, 201, 41, 169, 105, 233, 25, 153, 89, 217, 57, 185, 121, 249, 5, 133, 69, 197, 37,
    165, 101, 229, 21, 149, 85, 213, 53, 181, 117, 245, 13, 141, 77, 205, 45, 173, 109, 237, 29,
    157, 93, 221, 61, 189, 125, 253, 3, 131, 67, 195, 35, 163, 99, 227, 19, 147, 83, 211, 51, 179,
    115, 243, 11, 139, 75, 203, 43, 171, 107, 235, 27, 155, 91, 219, 59, 187, 123, 251, 7, 135, 71,
    199, 39, 167, 103, 231, 23, 151, 87, 215, 55, 183, 119, 247, 15, 143, 79, 207, 47, 175, 111,
    239, 31, 159, 95, 223, 63, 191, 127, 255,
];

/// The bits of a byte in reverse order.
fn reversed(byte: u8) -> u8
    ensures { (k : ℕ) → k < 8 → is_set result (7 - k) ≡ is_set byte k }
{
    REVERSED[byte as usize]
}

/// The state before eight words, and their bits as a byte.
fn trace_byte(words: &[u64], state: u64) -> (u64, u8)
    requires number { length words.now ≡ 8 }
    requires state { state < 64 }
    ensures root { result.0 ≡ root words.now state }
    ensures small { result.0 < 64 }
    ensures bits { spelled 8 result.1 ≡ trace words.now state }
{
    let mut walk = state;
    for k in 0..8usize {
        walk = walk_back(words[7 - k], walk);
    }
    (walk % 64, reversed((walk / 64 % 256) as u8))
}

/// Writes the bits of the newer words, and at the same time those of the older words for state 0 after them: two
/// tracebacks in parallel take no longer than one. Returns the states before the older and the newer words.
fn trace_both(
    older: &[u64],
    newer: &[u64],
    state: u64,
    first: &mut [u8],
    last: &mut [u8],
) -> (u64, u64)
    requires number { length last.old ≡ length first.old }
    requires older { length older.now ≡ 8 * length first.old }
    requires newer { length newer.now ≡ 8 * length first.old }
    requires state { state < 64 }
    ensures first_size { length first.new ≡ length first.old }
    ensures last_size { length last.new ≡ length last.old }
    ensures first_root { result.0 ≡ root older.now 0 }
    ensures first_bits { bits_of_bytes first.new ≡ trace older.now 0 }
    ensures last_root { result.1 ≡ root newer.now state }
    ensures last_bits { bits_of_bytes last.new ≡ trace newer.now state }
    ensures small { result.1 < 64 }
{
    let count = first.len();
    let mut guess = 0;
    let mut now = state;
    for k in 0..count {
        let index = count - 1 - k;
        let (next, byte) = trace_byte(&newer[8 * index..8 * index + 8], now);
        let (other, guessed) = trace_byte(&older[8 * index..8 * index + 8], guess);
        last[index] = byte;
        first[index] = guessed;
        now = next;
        guess = other;
    }
    (guess, now)
}

/// Changes the bits written for state 0 to those for another state. Once a byte stays the same, so do all before it, as
/// the traceback has reached the same state.
fn rejoin(words: &[u64], state: u64, guess: u64, bytes: &mut [u8]) -> u64
    requires number { length words.now ≡ 8 * length bytes.old }
    requires state { state < 64 }
    requires guess { guess ≡ root words.now 0 }
    requires bits { bits_of_bytes bytes.old ≡ trace words.now 0 }
    ensures size { length bytes.new ≡ length bytes.old }
    ensures root { result ≡ root words.now state }
    ensures bits { bits_of_bytes bytes.new ≡ trace words.now state }
{
    let count = bytes.len();
    let mut now = state;
    for k in 0..count {
        let index = count - 1 - k;
        let (next, byte) = trace_byte(&words[8 * index..8 * index + 8], now);
        if bytes[index] == byte {
            return guess;
        }
        bytes[index] = byte;
        now = next;
    }
    now
}

/// Writes the bits of words, eight in a byte, and returns the state before them.
fn trace_bytes(words: &[u64], half: usize, state: u64, bytes: &mut [u8]) -> u64
    requires number { length words.now ≡ 16 * half }
    requires size { length bytes.old ≡ 2 * half }
    requires state { state < 64 }
    ensures size { length bytes.new ≡ length bytes.old }
    ensures root { result ≡ root words.now state }
    ensures bits { bits_of_bytes bytes.new ≡ trace words.now state }
{
    let older = &words[..8 * half];
    let newer = &words[8 * half..];
    let (first, last) = bytes.split_at_mut(half);
    let (guess, now) = trace_both(older, newer, state, first, last);
    rejoin(older, now, guess, first)
}

/// Writes the bits of words, from an index on, eight in a byte: for the oldest word the state before it, and the eight
/// bits from this index on. `byte` is the eight bits after those of the newest word.
fn trace_part(
    words: &[u64],
    place: usize,
    state: u64,
    byte: u64,
    bytes: &mut [u8; 257],
) -> (u64, u64)
    requires state { state < 64 }
    requires byte { byte < 256 }
    requires room { place + length words.now ≤ 2056 }
    ensures root { result.0 ≡ root words.now state }
    ensures small { result.0 < 64 }
    ensures byte { result.1 < 256 }
    ensures traced { (bits : List Bool) → take (length words.now) (drop place bits) ≡ trace words.now state
        → IsTraced bits (place + length words.now) byte bytes.old → IsTraced bits place result.1 bytes.new }
{
    let count = words.len();
    let low = (8 - place % 8) % 8;
    if count < low + 16 {
        return trace_steps(words, place, state, byte, bytes);
    }
    let half = (count - low) / 16;
    let high = low + 16 * half;
    let start = (place + low) / 8;
    let (after, _) = trace_steps(&words[high..], place + high, state, byte, bytes);
    let now = trace_bytes(
        &words[low..high],
        half,
        after,
        &mut bytes[start..start + 2 * half],
    );
    trace_steps(&words[..low], place, now, bytes[start] as u64, bytes)
}

/// Writes the bits of the words of a ring and after it, eight in a byte.
fn trace_back(words: &HeapCircularBuffer<u64>, more: &[u64], state: u64, bytes: &mut [u8; 257])
    requires state { state < 64 }
    requires room { length words.now.items + length more.now ≤ 2056 }
    ensures bits { take (length (words.now.items ++ more.now)) (bits_of_bytes bytes.new)
        ≡ trace (words.now.items ++ more.now) state }
{
    let (older, newer) = words.as_slices();
    let count = words.len();
    let (after, last) = trace_part(more, count, state, 0, bytes);
    let (between, byte) = trace_part(newer, older.len(), after, last, bytes);
    trace_part(older, 0, between, byte, bytes);
}

/// Whether a set has exactly one state.
fn is_single(set: u64) -> bool
    ensures { IsTrue result → IsSingle set }
{
    set != 0 && set == 1 << set.trailing_zeros()
}

/// The number of bits shared by the states of a set, by the words of a ring and after it. The traceback starts at the
/// newest word and ends where all states come from the same one: all older bits are shared.
fn shared_words(words: &HeapCircularBuffer<u64>, more: &[u64], states: u64) -> usize
    requires states { states ≢ 0 }
    requires few { length words.now.items + length more.now ≤ 2056 }
    ensures { IsAlike states (trace (words.now.items ++ more.now)) (length (words.now.items ++ more.now)) result }
{
    let count = number_of(words, more);
    let mut set = states;
    let mut answer = count;
    for k in 0..count {
        if is_single(set) {
            return answer;
        }
        let index = count - 1 - k;
        answer = lowered(set, index, answer);
        set = ancestors(set, word_at(words, more, index));
    }
    answer
}

fn push_word(words: &mut HeapCircularBuffer<u64>, word: u64)
    requires { length words.old.items < words.old.capacity }
    ensures items { words.new.items ≡ words.old.items ++ word ∷ [] }
    ensures capacity { words.new.capacity ≡ words.old.capacity }
{
    words.push_back(word);
}

fn push_words(words: &mut HeapCircularBuffer<u64>, more: &[u64])
    requires { length words.old.items + length more.now ≤ words.old.capacity }
    ensures items { words.new.items ≡ words.old.items ++ more.now }
    ensures capacity { words.new.capacity ≡ words.old.capacity }
{
    words.extend_from_slice(more);
}

fn drop_words(words: &mut HeapCircularBuffer<u64>, number: usize)
    requires { number ≤ length words.old.items }
    ensures items { words.new.items ≡ drop number words.old.items }
    ensures capacity { words.new.capacity ≡ words.old.capacity }
{
    words.truncate_front(words.len() - number);
}

/// Puts words after those of a ring, and removes the first ones of all.
fn replace_words(words: &mut HeapCircularBuffer<u64>, more: &[u64], number: usize)
    requires within { number ≤ length (words.old.items ++ more.now) }
    requires room { length words.old.items + length more.now ≤ words.old.capacity }
    ensures items { words.new.items ≡ drop number (words.old.items ++ more.now) }
    ensures capacity { words.new.capacity ≡ words.old.capacity }
{
    let count = words.len();
    if number < count {
        drop_words(words, number);
        push_words(words, more);
    } else {
        drop_words(words, count);
        push_words(words, &more[number - count..]);
    }
}

/// With one more decision word, the bits of a state are those of its predecessor, then the newest bit of the state.
pub fn trace_follows()
    ensures law { TraceFollows }
{}

/// Survivors as the decision words of the pending steps, in a ring, and the set of alive states. No list of bits is
/// stored.
#[derive(Drop)]
pub struct RingSurvivors<const L: usize> {
    words: HeapCircularBuffer<u64>,
    states: u64,
    ghost capacity: { words.capacity ≡ L + 1 },
    ghost few: { length words.items ≤ L + 1 },
    ghost room: { L ≤ 2048 },
    ghost some: { states ≢ 0 },
    ghost fits: { states < 2 ^ 64 },
}

impl<const L: usize> RingSurvivors<L> {
    /// The decision words, oldest first, one for each pending step. They determine the pending bits of every alive
    /// state.
    pub fn words(&self) -> &HeapCircularBuffer<u64>
        ensures number { length result.now.items ≡ ⟦<RingSurvivors<L> as Survivors<L>>⟧.count self.now }
        ensures trace { (n : ℕ) → n < 64 → IsTrue (is_set (⟦<RingSurvivors<L> as Survivors<L>>⟧.states self.now) n)
            → ⟦<RingSurvivors<L> as Survivors<L>>⟧.list self.now n ≡ trace result.now.items n }
    {
        &self.words
    }
}

impl<const L: usize> Survivors<L> for RingSurvivors<L> {
    ghost states = { λ v. v.states };

    ghost count = { λ v. length v.words.items };

    ghost list = { λ v. trace v.words.items };

    fn new(alloc: Global, alive: u64) -> Result<Self, AllocError> {
        let words = HeapCircularBuffer::with_capacity(alloc, L + 1)?;
        Ok(RingSurvivors {
            words,
            states: alive,
        })
    }

    fn waiting(&self) -> u32 {
        self.words.len() as u32
    }

    fn push(&mut self, decisions: u64, alive: u64) {
        push_word(&mut self.words, decisions);
        self.states = alive;
    }

    fn push_all(&mut self, decisions: &[u64]) {
        push_words(&mut self.words, decisions);
    }

    fn shared(&self) -> u32 {
        shared_words(&self.words, &[], self.states) as u32
    }

    fn give(&mut self, number: u32, to: &mut WaitBuf) {
        let mut bytes = [0; 257];
        trace_back(&self.words, &[], lowest(self.states) as u64, &mut bytes);
        append_traced(&bytes, number as usize, to);
        drop_words(&mut self.words, number as usize);
    }

    fn push_and_give(&mut self, decisions: &[u64], to: &mut WaitBuf) -> u32 {
        let number = shared_words(&self.words, decisions, self.states);
        let mut bytes = [0; 257];
        let state = lowest(self.states) as u64;
        trace_back(&self.words, decisions, state, &mut bytes);
        append_traced(&bytes, number, to);
        replace_words(&mut self.words, decisions, number);
        number as u32
    }

    fn force(&mut self, end: u8, to: &mut WaitBuf) {
        let mut bytes = [0; 257];
        trace_back(&self.words, &[], end as u64, &mut bytes);
        append_traced(&bytes, self.words.len(), to);
        self.words.clear();
        self.states = 1 << end;
    }
}
