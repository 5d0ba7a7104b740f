// The TPS words of frames, symbol by symbol.
ghost use Rattle.std.specs.Prelude.{◌≡◌, ◌+◌, ◌<◌, ◌≤◌, ◌^◌, ◌↔◌, ℕ, List, IsTrue, drop, length, map, slice_set};
ghost use Rattle.mode_set.specs.StreamTable.{carriers};
ghost use Rattle.pilots.specs.Carriers.{tps_carriers};
ghost use Rattle.mode_set.specs.declared.modes.Mode.{Mode as AnyMode};
ghost use Rattle.qam_map.specs.declared.cell.Cell.{Cell as AnyCell};
ghost use Rattle.qam_map.specs.Cells.{cell_of};
ghost use Rattle.reception.specs.Frames.{IsReadable};
ghost use Rattle.inner_receiver.specs.Framing.{FrameStands, IsVoted};

use mode_set::Mode;
use qam_map::Cell;
use tps_word::{TpsWord, take_tps_cells, vote};

/// The most TPS carriers of a symbol.
const MOST: usize = 68;

// Whether the bits are within two errors of a word of the code with valid fields.
fn is_readable(bits: &[bool; 67]) -> bool
    ensures { IsTrue result ↔ IsReadable bits.now }
{
    TpsWord::nearest(bits).is_some()
}

/// Reads the TPS word of each frame of 68 symbols, and counts the readable and the bad ones.
#[derive(Drop)]
pub struct FrameReader {
    /// The TPS cells of the last symbol.
    pub before: [Cell; 68],
    /// The bits of the frame so far: bit l of them is that of symbol l.
    pub bits: [bool; 68],
    /// The number of the next symbol in its frame.
    pub symbol: u8,
    /// The words that were read.
    pub read: u64,
    /// The words of the other whole frames.
    pub bad: u64,
}

// Bit l of a frame's bits.
fn put_bit(bits: &mut [bool; 68], l: u8, bit: bool)
    requires within { l < 68 }
    ensures set { bits.new ≡ slice_set bits.old l bit }
    ensures long { length bits.old ≡ 68 }
{
    bits[l as usize] = bit;
}

// The bits s1 to s67.
fn word_of(bits: &[bool; 68]) -> [bool; 67]
    ensures word { result ≡ drop 1 bits.now }
    ensures long { length bits.now ≡ 68 }
{
    let mut word = [false; 67];
    word.copy_from_slice(&bits[1..]);
    word
}

impl FrameReader {
    /// A reader before the first symbol.
    pub fn new() -> FrameReader
        ensures none { (mode : AnyMode) (cells : ℕ → List AnyCell) → FrameStands mode result cells 0 }
        ensures symbol { result.symbol ≡ 0 }
        ensures read { result.read ≡ 0 }
        ensures bad { result.bad ≡ 0 }
    {
        FrameReader {
            before: [Cell { re: 0, im: 0 }; MOST],
            bits: [false; 68],
            symbol: 0,
            read: 0,
            bad: 0,
        }
    }

    // Takes the vote of the symbol before and this one.
    fn note(&mut self, mode: Mode, cells: &[Cell])
        requires cells { length cells.now ≡ carriers mode }
        requires symbol { self.old.symbol < 68 }
        ensures symbol { self.new.symbol ≡ self.old.symbol }
        ensures read { self.new.read ≡ self.old.read }
        ensures bad { self.new.bad ≡ self.old.bad }
        ensures voted { (shown : ℕ → List AnyCell) (n : ℕ) → shown n ≡ map (cell_of cells.now) (tps_carriers mode)
            → FrameStands mode self.old shown n → IsVoted mode self.new shown n }
    {
        let mut now = [Cell { re: 0, im: 0 }; MOST];
        let count = take_tps_cells(mode, cells, &mut now);
        let bit = vote(&self.before[..count], &now[..count]);
        put_bit(&mut self.bits, self.symbol, bit);
        self.before = now;
    }

    // Advances to the next symbol, and counts the word after the last one of a frame.
    fn advance(&mut self)
        requires symbol { self.old.symbol < 68 }
        requires few { self.old.read + self.old.bad < 2 ^ 62 }
        ensures symbol { self.new.symbol < 68 }
        ensures few { self.new.read + self.new.bad ≤ self.old.read + self.old.bad + 1 }
        ensures stands { (mode : AnyMode) (shown : ℕ → List AnyCell) (n : ℕ) → IsVoted mode self.old shown n
            → FrameStands mode self.new shown (n + 1) }
    {
        if self.symbol < 67 {
            self.symbol += 1;
            return;
        }
        self.symbol = 0;
        let word = word_of(&self.bits);
        if is_readable(&word) {
            self.read += 1;
        } else {
            self.bad += 1;
        }
    }

    /// Takes the next symbol as the cells of all its carriers.
    pub fn take(&mut self, mode: Mode, cells: &[Cell])
        requires cells { length cells.now ≡ carriers mode }
        requires symbol { self.old.symbol < 68 }
        requires few { self.old.read + self.old.bad < 2 ^ 62 }
        ensures symbol { self.new.symbol < 68 }
        ensures few { self.new.read + self.new.bad ≤ self.old.read + self.old.bad + 1 }
        ensures taken { (shown : ℕ → List AnyCell) (n : ℕ) → shown n ≡ map (cell_of cells.now) (tps_carriers mode)
            → FrameStands mode self.old shown n → FrameStands mode self.new shown (n + 1) }
    {
        self.note(mode, cells);
        self.advance();
    }
}
