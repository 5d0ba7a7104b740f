// The outer code of a stream, against outside values.
ghost use Rattle.std.specs.Prelude.{◌+◌, ◌%◌, ◌<◌, ◌≤◌};

use super::words::NEAR_NONE;
use dispersal::Dispersal;
use forney::Deinterleaver;
use outer_chain::{OuterRx, OuterTx, WordSlot};
use rs204::{Outcome, encode};
use std::alloc::{AllocError, Global};
use std::test::Fail;
use ts_packet::Packet;

// The first thirteen bytes of a stream of null packets.
fn first_bytes(alloc: Global) -> Result<[u8; 13], AllocError> {
    let mut tx = OuterTx::new(alloc)?;
    let word = tx.take(&Packet::null());
    let mut bytes = [0u8; 13];
    bytes.copy_from_slice(&word[..13]);
    Ok(bytes)
}

// Every twelfth byte of the first word is its own, the others are zeros of the start.
#[test]
fn first_word_of_a_null_packet(rt: HostRuntime) -> Result<(), Fail> {
    let bytes = first_bytes(rt.alloc())?;
    assert!(rt; bytes == [0xB8, 0, 0, 0, 0, 0, 0, 0, 0, 0, 0, 0, 0x8C]);
    Ok(())
}

// The bytes of the packet of a decoded word, if it has one.
fn packet_of(rx: &mut OuterRx, slot: &WordSlot) -> Option<[u8; 188]> {
    match rx.finish_word(slot) {
        Some(packet) => Some(*packet.bytes()),
        None => None,
    }
}

// The word of the next packet of a stream of null packets.
fn null_word(dispersal: &mut Dispersal) -> [u8; 204] {
    encode(&dispersal.apply(&Packet::null()))
}

// The slot of a codeword with nine errors and no codeword close to it.
fn with_nine_errors(codeword: [u8; 204]) -> WordSlot {
    let mut slot = WordSlot {
        word: codeword,
        outcome: Outcome::Clean,
    };
    for k in 0..9usize {
        slot.word[195 + k] ^= NEAR_NONE[k];
    }
    slot.decode();
    slot
}

// A null packet with the error indicator set.
fn marked() -> [u8; 188] {
    let mut bytes = [0xFFu8; 188];
    bytes[0] = 0x47;
    bytes[1] = 0x9F;
    bytes[3] = 0x10;
    bytes
}

// A word with nine errors and no codeword close to it follows a word of phase 0: its null packet is received with the
// error indicator, and the phase continues.
#[test]
fn bad_word_after_phase_zero(rt: HostRuntime) -> Result<(), Fail> {
    let mut rx = OuterRx::new(rt.alloc())?;
    let mut dispersal = Dispersal::start();
    let first = WordSlot {
        word: null_word(&mut dispersal),
        outcome: Outcome::Clean,
    };
    assert!(rt; packet_of(&mut rx, &first).is_some());
    let second = with_nine_errors(null_word(&mut dispersal));
    assert!(rt; second.outcome == Outcome::Bad);
    assert!(rt; packet_of(&mut rx, &second) == Some(marked()));
    Ok(())
}

// A packet whose bytes after the first are this number.
fn numbered(number: u8) -> Packet {
    let mut bytes = [number; 188];
    bytes[0] = 0x47;
    match Packet::read(&bytes) {
        Ok(packet) => packet,
        Err(_) => Packet::null(),
    }
}

// The bytes of the packet received with this byte, if there is one.
fn back(rx: &mut OuterRx, byte: u8) -> Option<[u8; 188]> {
    match rx.take_byte(byte) {
        Some(slot) => {
            let mut slot = slot;
            slot.decode();
            packet_of(rx, &slot)
        }
        None => None,
    }
}

// Whether this is received with the last byte of a word, and nothing before.
fn comes_back(rx: &mut OuterRx, word: &[u8; 204], expected: Option<[u8; 188]>) -> bool {
    for k in 0..203usize {
        if back(rx, word[k]).is_some() {
            return false;
        }
    }
    back(rx, word[203]) == expected
}

// The bytes of the packet eleven before this one, if it is not before the first received.
fn eleven_before(number: u8, first: u8) -> Option<[u8; 188]> {
    if number >= 11 && number - 11 >= first {
        Some(*numbered(number - 11).bytes())
    } else {
        None
    }
}

// Whether the receiver misses this word, or gives the expected packet with it.
fn is_received(tx: &mut OuterTx, rx: &mut OuterRx, number: u8, missed: u8, first: u8) -> bool {
    let word = tx.take(&numbered(number));
    number < missed || comes_back(rx, &word, eleven_before(number, first))
}

// The first word with an unexpected result, if the receiver misses the first `missed` words.
fn wrong_word(tx: &mut OuterTx, rx: &mut OuterRx, missed: u8, first: u8) -> Option<u8> {
    for number in 0..40u8 {
        if !is_received(tx, rx, number, missed, first) {
            return Some(number);
        }
    }
    None
}

// Each word after the eleven of the start-up gives the sender's packet at its last byte, from the first packet with
// phase 0 on. A receiver that misses the first three words has to wait for packet 8.
#[test]
fn own_bytes_after_eleven_words(rt: HostRuntime) -> Result<(), Fail> {
    for (missed, first) in [(0u8, 0u8), (3, 8)] {
        let mut tx = OuterTx::new(rt.alloc())?;
        let mut rx = OuterRx::new(rt.alloc())?;
        assert_eq!(rt; wrong_word(&mut tx, &mut rx, missed, first), None);
    }
    Ok(())
}

// The slots after putting a byte, with none before.
fn put(alloc: Global, rx: &mut OuterRx, byte: u8) -> Result<Vec<WordSlot>, AllocError> {
    let mut slots = Vec::with_capacity(alloc, 1)?;
    rx.put_byte(byte, &mut slots);
    Ok(slots)
}

// Whether the word put, if any, is the one taken.
fn is_taken(slots: &[WordSlot], taken: &Option<WordSlot>) -> bool {
    match taken {
        Some(slot) => {
            slots.len() == 1 && slots[0].word == slot.word && slots[0].outcome == slot.outcome
        }
        None => slots.is_empty(),
    }
}

// A received word by the delay lines: keeps the next deinterleaved byte, and returns whether the slots hold the word
// that ends with it.
fn is_deinterleaved(
    lines: &mut Deinterleaver,
    word: &mut [u8; 204],
    place: usize,
    byte: u8,
    slots: &[WordSlot],
) -> bool {
    word[place % 204] = lines.step(byte);
    slots.is_empty() || slots[0].word == *word
}

// Putting bytes gives the same words as taking them, five of these sixteen, and as the delay lines.
#[test]
fn bytes_put_as_taken(rt: HostRuntime) -> Result<(), Fail> {
    let mut putting = OuterRx::new(rt.alloc())?;
    let mut taking = OuterRx::new(rt.alloc())?;
    let mut lines = Deinterleaver::new(rt.alloc())?;
    let mut word = [0u8; 204];
    let mut words = 0u8;
    for place in 0..3300usize {
        let byte = (place % 251) as u8;
        let slots = put(rt.alloc(), &mut putting, byte)?;
        if slots.len() == 1 {
            words = words.saturating_add(1);
        }
        assert!(rt; is_taken(slots.as_slice(), &taking.take_byte(byte)));
        assert!(rt; is_deinterleaved(&mut lines, &mut word, place, byte, slots.as_slice()));
    }
    assert_eq!(rt; words, 5);
    Ok(())
}

// How many of the next bytes to put at once: at most `most`, and none after the end of their word.
fn run_of(rx: &OuterRx, left: usize, most: usize) -> usize
    requires left { 0 < left }
    requires most { 0 < most }
    ensures some { 0 < result }
    ensures few { result ≤ left }
    ensures within { rx.now.next % 204 + result ≤ 204 }
{
    rx.to_end().min(left).min(most)
}

// Puts bytes in runs of at most `most`, as long as there is room for a word.
fn put_in_runs(rx: &mut OuterRx, bytes: &[u8], most: usize, slots: &mut Vec<WordSlot>) {
    let mut taken = 0;
    while taken < bytes.len() {
        let number = run_of(rx, bytes.len() - taken, most.max(1));
        if slots.len() < slots.capacity() {
            rx.put_bytes(&bytes[taken..taken + number], slots);
        }
        taken += number;
    }
}

// Puts bytes one by one, as long as there is room for a word.
fn put_each(rx: &mut OuterRx, bytes: &[u8], slots: &mut Vec<WordSlot>) {
    for byte in bytes {
        if slots.len() < slots.capacity() {
            rx.put_byte(*byte, slots);
        }
    }
}

// Whether the slots hold the same words.
fn same_words(some: &[WordSlot], others: &[WordSlot]) -> bool {
    some.len() == others.len()
        && some
            .iter()
            .zip(others)
            .all(|(a, b)| a.word == b.word && a.outcome == b.outcome)
}

// Bytes put at once give the same words as bytes put one by one, five of these sixteen.
#[test]
fn bytes_put_at_once(rt: HostRuntime) -> Result<(), Fail> {
    let mut bytes = vec![in rt.alloc(); 0u8; 3300]?;
    for (place, byte) in bytes.iter_mut().enumerate() {
        *byte = (place % 251) as u8;
    }
    let mut one = OuterRx::new(rt.alloc())?;
    let mut expected = Vec::with_capacity(rt.alloc(), 6)?;
    put_each(&mut one, &bytes, &mut expected);
    assert_eq!(rt; expected.len(), 5);
    for most in [1usize, 7, 203, 204] {
        let mut rx = OuterRx::new(rt.alloc())?;
        let mut slots = Vec::with_capacity(rt.alloc(), 6)?;
        put_in_runs(&mut rx, &bytes, most, &mut slots);
        assert!(rt; same_words(&slots, &expected));
    }
    Ok(())
}
