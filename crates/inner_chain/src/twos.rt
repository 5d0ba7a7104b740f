// Labels of two bits at rate 1/2: the coded bits of a word are X and Y of a step of its own.
ghost use Rattle.std.specs.Prelude.{◌≡◌, ◌+◌, ◌*◌, ◌<◌, ◌≤◌, ℕ, IsTrue, length, vec_capacity, vec_len};
ghost use Rattle.spec_words.specs.Bits.{is_set};
ghost use Rattle.mode_set.specs.StreamTable.{payload};
ghost use Rattle.mode_set.specs.declared.modes.Shape.TheVariants.{Qpsk};
ghost use Rattle.mode_set.specs.declared.modes.Hierarchy.TheVariants.{Flat};
ghost use Rattle.mode_set.specs.declared.modes.Rate.TheVariants.{R1of2};
ghost use Rattle.inner_chain.specs.Labels.{AppendsLabels, Paths, coded_bits};
ghost use Rattle.inner_chain.specs.Tables.{AreAllParities, most_steps};
ghost use Rattle.inner_chain.specs.Fours.{ArePairs, turned};

use crate::fours::push_carried;
use bit_interleave::laws::each_bit_is_found;
use mode_set::{Carriers, Hierarchy, Mode, Rate, Settings, Shape};
use symbol_interleave::Permutation;

// Whether the coded bits of each word are X and Y of a step of its own.
pub(crate) fn has_twos(settings: &Settings) -> bool
    ensures shape { IsTrue result → settings.now.shape ≡ Qpsk }
    ensures hierarchy { IsTrue result → settings.now.hierarchy ≡ Flat }
    ensures rate { IsTrue result → settings.now.rate_hp ≡ R1of2 }
{
    if settings.shape != Shape::Qpsk || settings.hierarchy != Hierarchy::Flat {
        return false;
    }
    settings.rate_hp == Rate::R1of2
}

// A label of two bits.
fn label(first: bool, second: bool) -> u8
    ensures small { result < 4 }
    ensures zero { is_set result 0 ≡ first }
    ensures one { is_set result 1 ≡ second }
{
    first as u8 + 2 * (second as u8)
}

// Appends the words of half a block of 126, from word `first` on, to those before it: X of each word's own step, and
// Y of one of the block's other half, which begins with word `other`.
fn turn_half<const N: usize>(parities: &[bool], first: usize, other: usize, words: &mut [u8; N])
    requires within { first + 63 ≤ N }
    requires few { N ≤ 6048 }
    requires own { 2 * (first + 63) ≤ length parities.now }
    requires others { 2 * (other + 63) ≤ length parities.now }
    requires turned { (j : ℕ) → j < 63 → turned 1 (first + j) ≡ other + j }
    ensures { ArePairs parities.now first words.old → ArePairs parities.now (first + 63) words.new }
{
    for j in 0..63 {
        words[first + j] = label(parities[2 * (first + j)], parities[2 * (other + j) + 1]);
    }
}

// Appends the words of a block of 126 to those of the blocks before it.
fn turn_block<const N: usize>(parities: &[bool], block: usize, words: &mut [u8; N])
    requires within { 126 * (block + 1) ≤ N }
    requires few { N ≤ 6048 }
    requires room { 252 * (block + 1) ≤ length parities.now }
    ensures { ArePairs parities.now (126 * block) words.old → ArePairs parities.now (126 * (block + 1)) words.new }
{
    let first = 126 * block;
    turn_half(parities, first, first + 63, words);
    turn_half(parities, first + 63, first, words);
}

// The words of some blocks.
pub(crate) fn turned_words<const N: usize>(parities: &[bool], blocks: usize) -> [u8; N]
    requires within { 126 * blocks ≤ N }
    requires few { N ≤ 6048 }
    requires room { 252 * blocks ≤ length parities.now }
    ensures { ArePairs parities.now (126 * blocks) result }
{
    let mut words = [0; N];
    for block in 0..blocks {
        turn_block(parities, block, &mut words);
    }
    words
}

// Appends the labels of a symbol whose coded bits are so.
pub(crate) fn push_twos<M: Carriers>(
    settings: &Settings,
    odd: bool,
    parities: &[bool],
    permutation: &Permutation<M>,
    to: &mut Vec<u8>,
)
    requires mode { settings.now.mode ≡ M.MODE }
    requires shape { settings.now.shape ≡ Qpsk }
    requires hierarchy { settings.now.hierarchy ≡ Flat }
    requires rate { settings.now.rate_hp ≡ R1of2 }
    requires room { 2 * most_steps settings.now.mode ≤ length parities.now }
    requires spare { vec_len to.old + payload settings.now.mode ≤ vec_capacity to.old }
    ensures labels { (paths : Paths) → AreAllParities settings.now paths parities.now
        → AppendsLabels settings.now odd (coded_bits settings.now paths) to.old.items to.new.items }
    ensures capacity { vec_capacity to.new ≡ vec_capacity to.old }
{
    each_bit_is_found();
    match settings.mode {
        Mode::M2k => {
            let words: [u8; 1512] = turned_words(parities, 12);
            push_carried(&words, odd, permutation, to);
        }
        Mode::M8k => {
            let words: [u8; 6048] = turned_words(parities, 48);
            push_carried(&words, odd, permutation, to);
        }
    }
}
