// Recovering a word: its nearest codeword, or one found by erasures.
ghost use Rattle.std.specs.Prelude.{◌≡◌, ◌≤◌, ◌+◌, ◌<◌, ◌^◌, ◌++◌, ℕ, List, None, vec_len, vec_capacity, length};
ghost use Rattle.std.specs.Prelude.{IsTrue, IsFalse};
ghost use Rattle.std.specs.List.{All};
ghost use Rattle.std.specs.List.Sorted.{IsStrictlyIncreasing};
ghost use Rattle.bit_margin.specs.Places.{AreLeast};
ghost use Rattle.outer_chain.specs.Words.{IsNear};
ghost use Rattle.outer_chain.specs.Receiving.{Receives};
ghost use Rattle.outer_chain.specs.Running.{bytes_given};
ghost use Rattle.rescue_words.specs.Recovering.{HasRecovered, IsFinished, AreFit};

use crate::counts::{RescueCounts, WordKind, count};
use bit_margin::least_eight;
use outer_chain::{OuterRx, WordSlot};
use rs_erasure::{Erased, decode_erased};
use rs204::Outcome;
use ts_packet::Packet;

/// The positions of the eight bytes of least margin, as erasures.
fn least_places(margins: &[u32; 204]) -> [u8; 8]
    ensures least { AreLeast margins.now 204 result }
    ensures rising { IsStrictlyIncreasing result }
    ensures within { All (λ e. e < 204) result }
{
    least_eight(margins)
}

/// Erases the eight bytes of least margin of a word without a nearest codeword, and replaces it by the codeword found.
/// The slot is then that of a codeword, as decoding leaves it.
fn rescue(slot: &mut WordSlot, margins: &[u32; 204]) -> WordKind
    requires bad { slot.old.outcome ≡ Outcome.Bad }
    ensures { IsNear slot.old.word None → HasRecovered slot.old.word margins.now slot.new result }
{
    let places = least_places(margins);
    match decode_erased(&mut slot.word, &places) {
        Erased::Found(_) => {
            slot.outcome = Outcome::Clean;
            WordKind::Rescued
        }
        Erased::NoWord => WordKind::Bad,
    }
}

/// Replaces the word by its nearest codeword or, if there is none, by the codeword close to it outside its eight bytes
/// of least margin; of equal margins the lower positions are erased. If there is none either, all 204 bytes stay as
/// they are. The outcome is `Clean` for a codeword, `Corrected` with the number of wrong bytes, 1 to 8, for a word
/// close to one, `Clean` for a rescued word and `Bad` for a lost one (EN 300 744, 4.3.2).
pub fn recover(slot: &mut WordSlot, margins: &[u32; 204]) -> WordKind
    ensures recovered { HasRecovered slot.old.word margins.now slot.new result }
{
    slot.decode();
    match slot.outcome {
        Outcome::Clean => WordKind::Clean,
        Outcome::Corrected(_) => WordKind::Corrected,
        Outcome::Bad => rescue(slot, margins),
    }
}

/// Appends bytes, for which there is room.
fn append(bytes: &[u8], to: &mut Vec<u8>)
    requires room { vec_len to.old + length bytes.now ≤ vec_capacity to.old }
    ensures items { to.new.items ≡ to.old.items ++ bytes.now }
    ensures capacity { vec_capacity to.new ≡ vec_capacity to.old }
{
    for byte in bytes {
        to.push_reserved(*byte);
    }
}

/// Appends the packet of a word, if it has one.
fn append_packet(packet: &Option<Packet>, to: &mut Vec<u8>)
    requires room { vec_len to.old + 188 ≤ vec_capacity to.old }
    ensures items { to.new.items ≡ to.old.items ++ bytes_given packet.now }
    ensures len { vec_len to.new ≤ vec_len to.old + 188 }
    ensures capacity { vec_capacity to.new ≡ vec_capacity to.old }
{
    if let Some(packet) = packet {
        append(packet.bytes(), to);
    }
}

/// Finishes the word that a byte completed if the margins of its bytes are known: recovers it, counts it, and appends
/// its packet, if it has one.
pub(crate) fn finish_known(
    known: bool,
    outer: &mut OuterRx,
    slot: WordSlot,
    margins: &[u32; 204],
    counts: &mut RescueCounts,
    to: &mut Vec<u8>,
)
    requires room { vec_len to.old + 188 ≤ vec_capacity to.old }
    requires few { counts.old.words < 2 ^ 62 }
    requires fit { AreFit counts.old }
    ensures len { vec_len to.new ≤ vec_len to.old + 188 }
    ensures capacity { vec_capacity to.new ≡ vec_capacity to.old }
    ensures fit { AreFit counts.new }
    ensures none { IsFalse known → to.new ≡ to.old }
    ensures words { counts.new.words ≤ counts.old.words + 1 }
    ensures receives { (bytes : List ℕ) → Receives outer.old bytes → Receives outer.new bytes }
    ensures finished { IsTrue known → IsFinished slot.word margins.now outer.old.phase outer.new.phase to.old.items
        to.new.items counts.old counts.new }
{
    if known {
        let mut slot = slot;
        let kind = recover(&mut slot, margins);
        let packet = outer.finish_word(&slot);
        count(counts, kind, packet.is_some());
        append_packet(&packet, to);
    }
}
