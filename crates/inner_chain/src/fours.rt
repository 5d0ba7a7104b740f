// Labels of six bits at rate 2/3, 32 words at a time: the coded bits of a word are six of the eight parities of four
// steps.
ghost use Rattle.std.specs.Prelude.{◌≡◌, ◌+◌, ◌*◌, ◌<◌, ◌≤◌, ◌%◌, ◌==◌, ℕ, IsTrue, length, slice_index, vec_capacity};
ghost use Rattle.std.specs.Prelude.{vec_len};
ghost use mir.Val.{bool_byte};
ghost use Rattle.spec_words.specs.Bits.{bit, is_set};
ghost use Rattle.mode_set.specs.StreamTable.{payload};
ghost use Rattle.mode_set.specs.declared.modes.Shape.TheVariants.{Qam64};
ghost use Rattle.mode_set.specs.declared.modes.Hierarchy.TheVariants.{Flat};
ghost use Rattle.mode_set.specs.declared.modes.Rate.TheVariants.{R2of3};
ghost use Rattle.bit_interleave.specs.Place.{offset};
ghost use Rattle.inner_chain.specs.Labels.{AppendsLabels, Paths, coded_bits};
ghost use Rattle.inner_chain.specs.Tables.{AreAllParities, most_steps};
ghost use Rattle.inner_chain.specs.Fours.{AppendsCarried, ArePacked, AreTurned, parity_place};

use bit_interleave::laws::each_bit_is_found;
use mode_set::{Carriers, Hierarchy, Rate, Settings, Shape};
use std::mem;
use std::simd::cmp::SimdPartialEq;
use std::simd::u8x32;
use symbol_interleave::Permutation;

// Whether the coded bits of each word are parities of four steps of its own.
pub(crate) fn has_fours(settings: &Settings) -> bool
    ensures shape { IsTrue result → settings.now.shape ≡ Qam64 }
    ensures hierarchy { IsTrue result → settings.now.hierarchy ≡ Flat }
    ensures rate { IsTrue result → settings.now.rate_hp ≡ R2of3 }
{
    if settings.shape != Shape::Qam64 || settings.hierarchy != Hierarchy::Flat {
        return false;
    }
    settings.rate_hp == Rate::R2of3
}

// 32 bits as bytes of one each.
fn ones(bits: &[bool], first: usize) -> [u8; 32]
    requires { first + 32 ≤ length bits.now }
    ensures { (k : ℕ) → k < 32 → slice_index result k ≡ bool_byte (bit bits.now (first + k)) }
{
    let mut ones = [0; 32];
    for k in 0..32 {
        ones[k] = bits[first + k] as u8;
    }
    ones
}

// 32 bits as a number, the first one the lowest.
fn gathered(ones: [u8; 32]) -> u64
    ensures { (k : ℕ) → k < 32 → is_set result k ≡ (slice_index ones k == 1) }
{
    u8x32::from_array(ones)
        .simd_eq(u8x32::splat(1))
        .to_bitmask()
}

// Writes the lowest 32 bits of a number as four bytes, the lowest one first.
fn put_four(number: u64, to: &mut [u8; 6048], at: usize)
    requires room { at + 4 ≤ 6048 }
    ensures here { (j i : ℕ) → j < 4 → i < 8 → is_set (slice_index to.new (at + j)) i ≡ is_set number (8 * j + i) }
    ensures before { (k : ℕ) → k < at → slice_index to.new k ≡ slice_index to.old k }
{
    let second = number / 256;
    let third = second / 256;
    let fourth = third / 256;
    to[at] = (number % 256) as u8;
    to[at + 1] = (second % 256) as u8;
    to[at + 2] = (third % 256) as u8;
    to[at + 3] = (fourth % 256) as u8;
}

// The bits in bytes of eight.
pub(crate) fn packed(bits: &[bool], number: usize) -> [u8; 6048]
    requires number { number ≤ 6048 }
    requires fours { number % 4 ≡ 0 }
    requires room { 8 * number ≤ length bits.now }
    ensures { ArePacked bits.now number result }
{
    let mut bytes = [0; 6048];
    for group in 0..number / 4 {
        let four = gathered(ones(bits, 32 * group));
        put_four(four, &mut bytes, 4 * group);
    }
    bytes
}

// A label of bits of six bytes.
fn label(a: u8, b: u8, c: u8, d: u8, e: u8, f: u8) -> u8
    ensures small { result < 64 }
    ensures zero { is_set result 0 ≡ is_set a 0 }
    ensures one { is_set result 1 ≡ is_set b 4 }
    ensures two { is_set result 2 ≡ is_set c 1 }
    ensures three { is_set result 3 ≡ is_set d 5 }
    ensures four { is_set result 4 ≡ is_set e 3 }
    ensures five { is_set result 5 ≡ is_set f 7 }
{
    let low = a % 2 + 2 * (b / 16 % 2) + 4 * (c / 2 % 2);
    low + 8 * (d / 32 % 2) + 16 * (e / 8 % 2) + 32 * (f / 128)
}

// A block of 126 bytes, twice.
fn doubled(bytes: &[u8; 6048], first: usize) -> [u8; 252]
    requires { first + 126 ≤ 6048 }
    ensures { (k : ℕ) → k < 252 → slice_index result k ≡ slice_index bytes.now (first + k % 126) }
{
    let mut twice = [0; 252];
    for k in 0..126 {
        twice[k] = bytes[first + k];
        twice[126 + k] = bytes[first + k];
    }
    twice
}

// The label of word `j` of a block.
fn turned_label(twice: &[u8; 252], j: usize) -> u8
    requires { j < 126 }
    ensures small { result < 64 }
    ensures bits { (e : ℕ) → e < 6 → is_set result e ≡ is_set (slice_index twice.now (j + offset e)) (parity_place e) }
{
    label(
        twice[j],
        twice[j + 63],
        twice[j + 105],
        twice[j + 42],
        twice[j + 21],
        twice[j + 84],
    )
}

// Appends the words of a block of 126 to those of the blocks before it.
fn turn_block(bytes: &[u8; 6048], block: usize, words: &mut [u8; 6048])
    requires { block < 48 }
    ensures { AreTurned bytes.now (126 * block) words.old → AreTurned bytes.now (126 * (block + 1)) words.new }
{
    let twice = doubled(bytes, 126 * block);
    for j in 0..126 {
        words[126 * block + j] = turned_label(&twice, j);
    }
}

// The words of some blocks.
pub(crate) fn turned(bytes: &[u8; 6048], blocks: usize) -> [u8; 6048]
    requires { blocks ≤ 48 }
    ensures { AreTurned bytes.now (126 * blocks) result }
{
    let mut words = [0; 6048];
    for block in 0..blocks {
        turn_block(bytes, block, &mut words);
    }
    words
}

// Appends the words in carrier order. The list is a variable of its own meanwhile, so that its place and its length
// stay in registers.
pub(crate) fn push_carried<M: Carriers>(
    words: &[u8],
    odd: bool,
    permutation: &Permutation<M>,
    to: &mut Vec<u8>,
)
    requires few { payload M.MODE ≤ length words.now }
    requires spare { vec_len to.old + payload M.MODE ≤ vec_capacity to.old }
    ensures labels { AppendsCarried words.now M.MODE odd (payload M.MODE) to.old.items to.new.items }
    ensures capacity { vec_capacity to.new ≡ vec_capacity to.old }
{
    let alloc = *to.allocator();
    let mut labels = mem::replace(to, Vec::new(alloc));
    for q in 0..M::MODE.payload() {
        labels.push_reserved(words[permutation.source(odd, q) as usize]);
    }
    *to = labels;
}

// Appends the labels of a symbol whose coded bits are so.
pub(crate) fn push_fours<M: Carriers>(
    settings: &Settings,
    odd: bool,
    parities: &[bool],
    permutation: &Permutation<M>,
    to: &mut Vec<u8>,
)
    requires mode { settings.now.mode ≡ M.MODE }
    requires shape { settings.now.shape ≡ Qam64 }
    requires hierarchy { settings.now.hierarchy ≡ Flat }
    requires rate { settings.now.rate_hp ≡ R2of3 }
    requires room { 2 * most_steps settings.now.mode ≤ length parities.now }
    requires spare { vec_len to.old + payload settings.now.mode ≤ vec_capacity to.old }
    ensures labels { (paths : Paths) → AreAllParities settings.now paths parities.now
        → AppendsLabels settings.now odd (coded_bits settings.now paths) to.old.items to.new.items }
    ensures capacity { vec_capacity to.new ≡ vec_capacity to.old }
{
    each_bit_is_found();
    let number = settings.mode.payload() as usize;
    let words = turned(&packed(parities, number), number / 126);
    push_carried(&words, odd, permutation, to);
}
