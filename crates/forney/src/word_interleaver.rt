// The outer interleaver over whole words.
ghost use Rattle.std.specs.Prelude.{◌≡◌, ◌<◌, ◌≤◌, ◌+◌, ◌-◌, ◌*◌, ◌%◌, ℕ, List, [], ◌++◌, length, slice_index, IfOk};
ghost use Rattle.forney.specs.Values.{stream_of, values};
ghost use Rattle.forney.specs.Interleaving.{interleaved};
ghost use Rattle.forney.specs.Delays.{Interleaves};

use std::alloc::{AllocError, Global};
use std::marker::Model;

// The bytes of a word.
const WORD: usize = 204;

// The bytes of a window: the longest delay is eleven words.
const WINDOW: usize = 12 * WORD;

/// Interleaves coded bytes a word of 204 at a time: as [`Interleaver`](crate::Interleaver), and faster. It stands
/// for the bytes that it has had.
// The window has the last twelve words of coded bytes, with zeros before the first.
#[derive(Drop)]
pub struct WordInterleaver {
    window: Vec<u8>,
}

impl Model for WordInterleaver {
    ghost use Rattle.std.specs.Prelude.{◌≡◌, length};
    ghost use Rattle.forney.specs.Delays.{Delays};
    ghost use Rattle.forney.specs.Window.{window_lines};

    ghost Value = { Delays };

    ghost view = { λ i. record { lines = window_lines i.window.items; next = 0 } };

    ghost invariant = { λ i. length i.window.items ≡ 2448 };
}

// Puts a word at the end of a window, whose first word goes.
fn push_word(window: &mut [u8], word: &[u8])
    requires window { length window.old ≡ 2448 }
    requires word { length word.now ≡ 204 }
    ensures size { length window.new ≡ 2448 }
    ensures kept { (i : ℕ) → i < 2244 → slice_index window.new i ≡ slice_index window.old (i + 204) }
    ensures taken { (j : ℕ) → j < 204 → slice_index window.new (2244 + j) ≡ slice_index word.now j }
{
    window.copy_within(WORD.., 0);
    window[WINDOW - WORD..].copy_from_slice(word);
}

// Writes the twelve interleaved bytes of a row of a word, one of each branch.
fn put_row(window: &[u8], word: &mut [u8], row: usize)
    requires window { length window.now ≡ 2448 }
    requires word { length word.old ≡ 204 }
    requires row { row < 17 }
    ensures size { length word.new ≡ 204 }
    ensures before { (j : ℕ) → j < 12 * row → slice_index word.new j ≡ slice_index word.old j }
    ensures here { (b : ℕ) → b < 12 → slice_index word.new (12 * row + b)
        ≡ slice_index window.now (2244 + 12 * row + b - 204 * b) }
{
    for branch in 0..12usize {
        word[12 * row + branch] = window[WINDOW - WORD + 12 * row + branch - WORD * branch];
    }
}

// Writes the interleaved bytes of the last word of a window.
fn put_word(window: &[u8], word: &mut [u8])
    requires window { length window.now ≡ 2448 }
    requires word { length word.old ≡ 204 }
    ensures size { length word.new ≡ 204 }
    ensures bytes { (j : ℕ) → j < 204 → slice_index word.new j ≡ slice_index window.now (2244 + j - 204 * (j % 12)) }
{
    for row in 0..17usize {
        put_row(window, word, row);
    }
}

impl WordInterleaver {
    /// An interleaver that has had no byte. The only error is want of memory.
    pub fn new(alloc: Global) -> Result<WordInterleaver, AllocError>
        ensures empty { IfOk result (λ i. Interleaves i []) }
    {
        Ok(WordInterleaver {
            window: vec![in alloc; 0; WINDOW]?,
        })
    }

    /// Takes the next coded word, of 204 bytes, and puts the next interleaved bytes in its place.
    pub fn take(&mut self, word: &mut [u8])
        requires { length word.old ≡ 204 }
        ensures given { (coded : List ℕ) → Interleaves self.old coded → word.new
            ≡ values (interleaved (stream_of (coded ++ word.old))) (length coded) (length word.old) }
        ensures stands { (coded : List ℕ) → Interleaves self.old coded → Interleaves self.new (coded ++ word.old) }
    {
        push_word(&mut self.window, word);
        put_word(&self.window, word);
    }
}
