// The list H, and its inverse.
ghost use Rattle.std.specs.Prelude.{◌≡◌, ◌+◌, ◌-◌, ◌*◌, ◌^◌, ◌<◌, ◌≤◌, ◌++◌, [], ◌∷◌, ℕ, filter, nat_lt, IfOk, length};
ghost use Rattle.std.specs.Prelude.{slice_index};
ghost use Rattle.std.specs.Int.{bit_at};
ghost use Rattle.symbol_interleave.specs.Carried.{IsInverse, IsPermutationBelow, address, bits, feedback, h as list_h};
ghost use Rattle.symbol_interleave.specs.Carried.{moved, next_word, wiring};

use mode_set::{Carriers, Mode};
use std::alloc::{AllocError, Global};

// The places to which the bits of a word go, from bit 0 on (EN 300 744, 4.3.4.2, tables of the bit
// permutations).
const WIRING_2K: [u32; 10] = [4, 3, 9, 6, 2, 8, 1, 5, 7, 0];

const WIRING_8K: [u32; 12] = [7, 1, 4, 2, 9, 6, 8, 10, 0, 3, 11, 5];

fn bit(word: u32, place: u32) -> u32
    requires { place < 32 }
    ensures is { result ≡ bit_at word place }
    ensures small { result < 2 }
{
    (word >> place) & 1
}

fn new_top_bit(mode: Mode, word: u32) -> u32
    ensures is { result ≡ feedback mode word }
    ensures small { result < 2 }
{
    match mode {
        Mode::M2k => (bit(word, 0) + bit(word, 3)) % 2,
        Mode::M8k => (bit(word, 0) + bit(word, 1) + bit(word, 4) + bit(word, 6)) % 2,
    }
}

// The top bit of an address of Nr bits.
fn top_bit<M: Carriers>() -> u32
    ensures { result ≡ 2 ^ (bits M.MODE - 1) }
{
    1 << (M::NR - 1)
}

// The next word of Nr - 1 bits.
fn next<M: Carriers>(word: u32) -> u32
    requires { word < 2 ^ (bits M.MODE - 1) }
    ensures is { result ≡ next_word M.MODE word }
    ensures small { result < 2 ^ (bits M.MODE - 1) }
{
    word / 2 + top_bit::<M>() / 2 * new_top_bit(M::MODE, word)
}

fn bit_to(word: u32, from: u32, to: u32) -> u32
    requires from { from < 32 }
    requires to { to < 12 }
    ensures is { result ≡ bit_at word from * 2 ^ to }
    ensures small { result < 4096 }
{
    bit(word, from) << to
}

// The bits of a word at their new places.
fn rewired(word: u32, places: &[u32]) -> u32
    requires few { length places.now ≤ 12 }
    requires low { (k : ℕ) → k < length places.now → slice_index places.now k < 12 }
    ensures is { result ≡ moved word places.now }
    ensures small { result < 65536 }
{
    let mut wired = 0;
    for (place, to) in places.iter().enumerate() {
        wired += bit_to(word, place as u32, *to);
    }
    wired
}

fn wired(mode: Mode, word: u32) -> u32
    ensures is { result ≡ moved word (wiring mode) }
    ensures small { result < 65536 }
{
    match mode {
        Mode::M2k => rewired(word, &WIRING_2K),
        Mode::M8k => rewired(word, &WIRING_8K),
    }
}

// The address of a word and its number.
fn address_of<M: Carriers>(index: u32, word: u32) -> u32
    ensures { result ≡ address M.MODE (index, word) }
{
    index % 2 * top_bit::<M>() + wired(M::MODE, word)
}

fn push_below(list: &mut Vec<u16>, address: u32, limit: u32) -> Result<(), AllocError>
    requires { limit < 65536 }
    ensures { IfOk result (λ _. list.new.items ≡ list.old.items ++ filter (λ a. nat_lt a limit) (address ∷ [])) }
{
    if address < limit {
        list.push(address as u16)?;
    }
    Ok(())
}

/// The list H.
pub fn places<M: Carriers>(alloc: Global) -> Result<Vec<u16>, AllocError>
    ensures { IfOk result (λ list. list.items ≡ list_h M.MODE) }
{
    let mut list = Vec::with_capacity(alloc, M::NMAX as usize)?;
    list.push(0)?;
    list.push(top_bit::<M>() as u16)?;
    let mut word = 1;
    for index in 2..2 * top_bit::<M>() {
        push_below(&mut list, address_of::<M>(index, word), M::NMAX)?;
        word = next::<M>(word);
    }
    Ok(list)
}

/// The inverse of a permutation of the numbers below the length of its list.
pub fn inverse(alloc: Global, list: &[u16]) -> Result<Vec<u16>, AllocError>
    requires permutation { IsPermutationBelow (length list.now) list.now }
    requires few { length list.now < 65536 }
    ensures { IfOk result (λ back. IsInverse list.now back.items) }
{
    let mut back = vec![in alloc; 0u16; list.len()]?;
    for (index, value) in list.iter().enumerate() {
        back[*value as usize] = index as u16;
    }
    Ok(back)
}
