// From the bits that a decoder gives to known bits and words.
ghost use Rattle.std.specs.Prelude.{◌≡◌, ◌+◌, ◌*◌, ◌<◌, ◌≤◌, ◌++◌, [], ◌∷◌, ℕ, List, Bool, length};
ghost use Rattle.spec_words.specs.Bits.{spelled};
ghost use Rattle.measure_words.specs.Counted.{Measures};
ghost use Rattle.measure_stream.specs.Passing.{HasBits, HasRoom, Takes};

use bit_pack::BitWord;
use inner_receiver::StreamBranch;
use measure_known_bits::KnownBits;
use measure_words::MeasuredWords;

/// Puts a byte to the words.
fn put_byte(words: &mut MeasuredWords, byte: u8)
    requires room { length words.old.slots < 24 }
    ensures small { byte < 256 }
    ensures all { words.new.all ≡ words.old.all }
    ensures measures { (bytes : List ℕ) (done from limit : ℕ) → Measures words.old bytes done from limit
        → Measures words.new (bytes ++ byte ∷ []) done from limit }
{
    words.put_byte(byte);
}

/// Puts the byte that is whole, if one is, to the words.
fn give_byte(part: &mut BitWord, words: &mut MeasuredWords)
    requires few { length part.old < 16 }
    requires room { length words.old.slots < 24 }
    ensures few { length part.new < 8 }
    ensures all { words.new.all ≡ words.old.all }
    ensures bits { (bits : List Bool) (done from limit : ℕ) → HasBits part.old words.old bits done from limit
        → HasBits part.new words.new bits done from limit }
{
    match part.take_byte() {
        Some(byte) => put_byte(words, byte),
        None => {}
    }
}

/// Appends the lowest bits of a word, eight at most, to those of the unfinished byte.
fn put_bits(part: &mut BitWord, words: &mut MeasuredWords, word: u16, count: u8)
    requires count { count ≤ 8 }
    requires few { length part.old < 8 }
    requires room { length words.old.slots < 24 }
    ensures few { length part.new < 8 }
    ensures all { words.new.all ≡ words.old.all }
    ensures bits { (bits : List Bool) (done from limit : ℕ) → HasBits part.old words.old bits done from limit
        → HasBits part.new words.new (bits ++ spelled count word) done from limit }
{
    part.push_bits(word, count);
    give_byte(part, words);
}

/// Hands on the first eight bits that wait in a decoder.
fn pass_byte(
    branch: &mut StreamBranch,
    known: &mut KnownBits,
    part: &mut BitWord,
    words: &mut MeasuredWords,
)
    requires wait { 8 ≤ length branch.old.wait }
    requires known { length known.old.waiting ≤ 127000 }
    requires few { length part.old < 8 }
    requires room { length words.old.slots < 24 }
    ensures takes { Takes 8 branch.old known.old part.old words.old branch.new known.new part.new words.new }
{
    let byte = branch.take_byte().unwrap();
    known.push_byte(byte);
    put_bits(part, words, byte as u16, 8);
}

/// A bit as a number.
fn digit(bit: bool) -> u16
    ensures is { spelled 1 result ≡ bit ∷ [] }
{
    if bit { 1 } else { 0 }
}

/// Hands on the first bit that waits in a decoder.
fn pass_bit(
    branch: &mut StreamBranch,
    known: &mut KnownBits,
    part: &mut BitWord,
    words: &mut MeasuredWords,
)
    requires wait { 1 ≤ length branch.old.wait }
    requires known { length known.old.waiting < 127008 }
    requires few { length part.old < 8 }
    requires room { length words.old.slots < 24 }
    ensures takes { Takes 1 branch.old known.old part.old words.old branch.new known.new part.new words.new }
{
    let bit = branch.take_bit().unwrap();
    known.push_bit(bit);
    put_bits(part, words, digit(bit), 1);
}

/// Passes on `count` bytes of the bits that wait in a decoder.
fn pass_bytes(
    branch: &mut StreamBranch,
    known: &mut KnownBits,
    part: &mut BitWord,
    words: &mut MeasuredWords,
    count: u32,
)
    requires wait { 8 * count ≤ length branch.old.wait }
    requires known { length known.old.waiting + 8 * count ≤ 127008 }
    requires few { length part.old < 8 }
    requires room { HasRoom part.old words.old (8 * count) }
    ensures takes { Takes (8 * count) branch.old known.old part.old words.old branch.new known.new part.new words.new }
{
    for _k in 0..count {
        pass_byte(branch, known, part, words);
    }
}

/// Passes on `count` of the bits that wait in a decoder.
fn pass_single_bits(
    branch: &mut StreamBranch,
    known: &mut KnownBits,
    part: &mut BitWord,
    words: &mut MeasuredWords,
    count: u32,
)
    requires wait { count ≤ length branch.old.wait }
    requires known { length known.old.waiting + count ≤ 127008 }
    requires few { length part.old < 8 }
    requires room { HasRoom part.old words.old count }
    ensures takes { Takes count branch.old known.old part.old words.old branch.new known.new part.new words.new }
{
    for _k in 0..count {
        pass_bit(branch, known, part, words);
    }
}

/// Hands on all bits that wait in a decoder, whole bytes of them at once.
pub(crate) fn pass_bits(
    branch: &mut StreamBranch,
    known: &mut KnownBits,
    part: &mut BitWord,
    words: &mut MeasuredWords,
)
    requires known { length known.old.waiting + length branch.old.wait ≤ 127008 }
    requires few { length part.old < 8 }
    requires room { HasRoom part.old words.old (length branch.old.wait) }
    ensures slots { length words.new.slots < 24 }
    ensures takes { Takes (length branch.old.wait) branch.old known.old part.old words.old branch.new known.new part.new
        words.new }
{
    let count = branch.waiting();
    pass_bytes(branch, known, part, words, count / 8);
    pass_single_bits(branch, known, part, words, count % 8);
}
