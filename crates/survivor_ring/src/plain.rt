// Survivors as lists of bits: the program of the definition.
ghost use Rattle.std.specs.Prelude.{◌≡◌, ◌+◌, ◌-◌, ◌<◌, ◌≤◌, ℕ, [], ◌∷◌, ◌++◌, length, take, drop, IfOk, IsTrue, ◌↔◌};
ghost use Rattle.spec_words.specs.Bits.{is_set};
ghost use Rattle.survivor_ring.specs.Rows.{AreSized, EachPushed, EachShifted, Agree, bits_of_row};

use crate::Survivors;
use crate::bits::{append, is_alive, lowest};
use bit_pack::WaitBuf;
use std::alloc::{AllocError, Global};
use std::mem;

fn empty_row(alloc: Global, len: usize) -> Result<Vec<bool>, AllocError>
    ensures { IfOk result (λ v. length v.items ≡ len) }
{
    let mut bits = Vec::new(alloc);
    for _k in 0..len {
        bits.push(false)?;
    }
    Ok(bits)
}

fn empty_rows(alloc: Global, len: usize) -> Result<Vec<Vec<bool>>, AllocError>
    ensures { IfOk result (λ v. AreSized len v.items) }
{
    let mut rows = Vec::new(alloc);
    for _k in 0..64usize {
        rows.push(empty_row(alloc, len)?)?;
    }
    Ok(rows)
}

/// The first bits of another list, and one more.
fn follow(to: &mut [bool], from: &[bool], count: usize, bit: bool)
    requires to { count < length to.old }
    requires from { count < length from.now }
    ensures size { length to.new ≡ length to.old }
    ensures bits { take (count + 1) to.new ≡ take count from.now ++ bit ∷ [] }
{
    for k in 0..count {
        to[k] = from[k];
    }
    to[count] = bit;
}

fn push_rows(
    now: &Vec<Vec<bool>>,
    next: &mut Vec<Vec<bool>>,
    len: usize,
    count: usize,
    decisions: u64,
)
    requires now { AreSized len now.now.items }
    requires next { AreSized len next.old.items }
    requires count { count < len }
    ensures sized { AreSized len next.new.items }
    ensures each { EachPushed now.now.items next.new.items count decisions 64 }
{
    for n in 0..64usize {
        let odd = (decisions >> n) & 1 == 1;
        let from = 2 * (n % 32) + if odd { 1 } else { 0 };
        follow(&mut next[n], &now[from], count, n >= 32);
    }
}

/// Whether all alive rows have the same bit as row `first` at an index.
fn agree(rows: &Vec<Vec<bool>>, len: usize, states: u64, first: usize, place: usize) -> bool
    requires rows { AreSized len rows.now.items }
    requires first { first < 64 }
    requires place { place < len }
    ensures { IsTrue result ↔ Agree rows.now.items states first place 64 }
{
    let bit = rows[first][place];
    for n in 0..64usize {
        if is_alive(states, n) && rows[n][place] != bit {
            return false;
        }
    }
    true
}

fn shared_bits(rows: &Vec<Vec<bool>>, len: usize, states: u64, first: usize, count: usize) -> usize
    requires rows { AreSized len rows.now.items }
    requires first { first < 64 }
    requires count { count ≤ len }
    ensures within { result ≤ count }
    ensures agree { (k : ℕ) → k < result → Agree rows.now.items states first k 64 }
    ensures differ { result < count → Agree rows.now.items states first result 64 → ⊥ }
{
    for k in 0..count {
        if !agree(rows, len, states, first, k) {
            return k;
        }
    }
    count
}

/// Removes bits from the start of a row.
fn shift(row: &mut [bool], number: usize, count: usize)
    requires number { number ≤ count }
    requires count { count ≤ length row.old }
    ensures size { length row.new ≡ length row.old }
    ensures bits { take (count - number) row.new ≡ drop number (take count row.old) }
{
    for k in 0..count - number {
        row[k] = row[k + number];
    }
}

fn shift_rows(rows: &mut Vec<Vec<bool>>, len: usize, number: usize, count: usize)
    requires rows { AreSized len rows.old.items }
    requires number { number ≤ count }
    requires count { count ≤ len }
    ensures sized { AreSized len rows.new.items }
    ensures each { EachShifted rows.old.items rows.new.items number count 64 }
{
    for n in 0..64usize {
        shift(&mut rows[n], number, count);
    }
}

/// Survivors as lists of bits: the plain form, which copies 64 lists at each step.
#[derive(Drop)]
pub struct ListSurvivors<const L: usize> {
    now: Vec<Vec<bool>>,
    next: Vec<Vec<bool>>,
    waiting: usize,
    states: u64,
    first: usize,
    ghost now_sized: { AreSized (L + 1) now.items },
    ghost next_sized: { AreSized (L + 1) next.items },
    ghost few: { waiting ≤ L + 1 },
    ghost room: { L ≤ 2048 },
    ghost below: { first < 64 },
    ghost lives: { IsTrue (is_set states first) },
}

impl<const L: usize> Survivors<L> for ListSurvivors<L> {
    ghost states = { λ v. v.states };

    ghost count = { λ v. v.waiting };

    ghost list = { λ v n. take v.waiting (bits_of_row v.now.items n) };

    fn new(alloc: Global, alive: u64) -> Result<Self, AllocError> {
        let now = empty_rows(alloc, L + 1)?;
        let next = empty_rows(alloc, L + 1)?;
        Ok(ListSurvivors {
            now,
            next,
            waiting: 0,
            states: alive,
            first: lowest(alive),
        })
    }

    fn waiting(&self) -> u32 {
        self.waiting as u32
    }

    fn push(&mut self, decisions: u64, alive: u64) {
        push_rows(&self.now, &mut self.next, L + 1, self.waiting, decisions);
        mem::swap(&mut self.now, &mut self.next);
        self.waiting += 1;
        self.states = alive;
        self.first /= 2;
    }

    fn shared(&self) -> u32 {
        shared_bits(&self.now, L + 1, self.states, self.first, self.waiting) as u32
    }

    fn give(&mut self, number: u32, to: &mut WaitBuf) {
        append(&self.now[self.first], number as usize, to);
        shift_rows(&mut self.now, L + 1, number as usize, self.waiting);
        self.waiting -= number as usize;
    }

    fn force(&mut self, end: u8, to: &mut WaitBuf) {
        append(&self.now[end as usize], self.waiting, to);
        self.waiting = 0;
        self.states = 1 << end;
        self.first = end as usize;
    }
}
