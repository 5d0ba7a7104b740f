// From a coded bit to its place, and back.
ghost use Rattle.std.specs.Prelude.{◌≡◌, ◌+◌, ◌*◌, ◌<◌, IsTrue};
ghost use Rattle.mode_set.specs.Kept.{is_flat, is_qpsk};
ghost use Rattle.mode_set.specs.StreamTable.{has_stream, label_bits, payload, width};
ghost use Rattle.mode_set.specs.declared.modes.Mode.{Mode};
ghost use Rattle.bit_interleave.specs.Place.{first_place, offset, place_in_label, stream_at, word_of_bit};

use mode_set::{Carriers, Hierarchy, Mode8k, Shape, Stream, stream_width};

// The bits of a block of each bit interleaver (EN 300 744, 4.3.4.1).
const BLOCK: u32 = 126;

/// The words of a symbol of the larger mode: whole blocks of the bit interleavers.
pub const MOST_WORDS: u32 = BLOCK * Mode8k::BLOCKS;

// The offsets of the bit interleavers I0 to I5 (EN 300 744, 4.3.4.1).
fn offset_of(e: u32) -> u32
    requires { e < 6 }
    ensures is { result ≡ offset e }
    ensures small { result < 126 }
{
    match e {
        0 => 0,
        1 => 63,
        2 => 105,
        3 => 42,
        4 => 21,
        _ => 84,
    }
}

fn first_of(hierarchy: Hierarchy, stream: Stream) -> u32
    ensures { result ≡ first_place hierarchy stream }
{
    match stream {
        Stream::Hp => 0,
        Stream::Lp => if hierarchy.is_flat() { 0 } else { 2 },
    }
}

/// Where a coded bit of a symbol stands: the place of the label, from 0, and the number of the
/// word before symbol interleaving (EN 300 744, 4.3.4.1).
///
/// `bit` counts the coded bits of `stream` within the symbol from 0. The bit numbers of a 2K symbol
/// are the first quarter of those of an 8K symbol, below which it stands. QPSK has no hierarchy, and
/// the stream exists.
pub fn place(shape: Shape, hierarchy: Hierarchy, stream: Stream, bit: u32) -> (u8, u32)
    requires qpsk_is_flat { IsTrue (is_qpsk shape) → IsTrue (is_flat hierarchy) }
    requires exists { IsTrue (has_stream hierarchy stream) }
    requires within { bit < MOST_WORDS * width shape hierarchy stream }

    ensures place { result.0 ≡ place_in_label shape hierarchy stream bit }
    ensures word { result.1 ≡ word_of_bit shape hierarchy stream bit }

    // A bit of a symbol of the mode stands in a word of that symbol.
    ensures in_label { result.0 < label_bits shape }
    ensures in_symbol { (mode : Mode) → bit < payload mode * width shape hierarchy stream → result.1 < payload mode }
{
    let width = stream_width(shape, hierarchy, stream) as u32;
    let half = width / 2;
    let number = bit % width;
    let e = number / half + 2 * (number % half) + first_of(hierarchy, stream);
    let index = bit / width;
    let word = BLOCK * (index / BLOCK) + (index + BLOCK - offset_of(e)) % BLOCK;
    (e as u8, word)
}

/// The coded bit that stands at place `e` of the label of word `word`: its stream, and its number
/// within the symbol. It is the inverse of [`place`]. QPSK has no hierarchy, the label has a place `e`,
/// and `word` is below `MOST_WORDS`.
pub fn bit_at(shape: Shape, hierarchy: Hierarchy, e: u8, word: u32) -> (Stream, u32)
    requires qpsk_is_flat { IsTrue (is_qpsk shape) → IsTrue (is_flat hierarchy) }
    requires in_label { e < label_bits shape }
    requires in_symbol { word < MOST_WORDS }

    ensures stream { result.0 ≡ stream_at hierarchy e }
    ensures exists { IsTrue (has_stream hierarchy result.0) }
    ensures place { place_in_label shape hierarchy result.0 result.1 ≡ e }
    ensures word { word_of_bit shape hierarchy result.0 result.1 ≡ word }

    // A word of a symbol of the mode has bits of that symbol.
    ensures within { (mode : Mode) → word < payload mode → result.1 < payload mode * width shape hierarchy result.0 }
{
    let e = e as u32;
    let stream = if hierarchy.is_flat() || e < 2 {
        Stream::Hp
    } else {
        Stream::Lp
    };
    let half = stream_width(shape, hierarchy, stream) as u32 / 2;
    let index = BLOCK * (word / BLOCK) + (word + offset_of(e)) % BLOCK;
    let e = e - first_of(hierarchy, stream);
    (stream, 2 * half * index + half * (e % 2) + e / 2)
}
