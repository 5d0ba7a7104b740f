// Outer words with workers, against one thread.
use outer_chain::WordSlot;
use rs204::{Outcome, encode};
use std::alloc::{AllocError, Global};
use std::test::Fail;
use std::thread::Threads;
use word_workers::{OpenGate, decode_all};

/// The errors in the last nine bytes of a codeword, after which no codeword is close to it.
const FAR: [u8; 9] = [0x01, 0xFF, 0x0B, 0x51, 0x36, 0xEF, 0xAD, 0xC8, 0x18];

/// A received word: depending on its number clean, with one to eight wrong bytes, or far from all codewords.
fn received(number: u8) -> WordSlot {
    let mut word = encode(&[number; 188]);
    for k in 0..number % 10 {
        word[195 + k as usize] ^= FAR[k as usize];
    }
    WordSlot {
        word,
        outcome: Outcome::Bad,
    }
}

/// The outcome of the word of this number.
fn expected(number: u8) -> Outcome {
    match number % 10 {
        0 => Outcome::Clean,
        9 => Outcome::Bad,
        wrong => Outcome::Corrected(wrong),
    }
}

/// The words with numbers below this one.
fn all_received(alloc: Global, count: u8) -> Result<Vec<WordSlot>, AllocError> {
    let mut slots = Vec::with_capacity(alloc, 24)?;
    for number in 0..count {
        slots.push(received(number))?;
    }
    Ok(slots)
}

/// Whether each word is as when decoded by itself.
fn are_decoded(slots: &[WordSlot]) -> bool {
    let mut number = 0u8;
    for slot in slots {
        let mut alone = received(number);
        alone.decode();
        if slot.word != alone.word || slot.outcome != expected(number) {
            return false;
        }
        number = number.wrapping_add(1);
    }
    true
}

/// Whether the phase gives the result of one thread.
fn is_plain<R: Threads + Sync>(
    rt: &R,
    alloc: Global,
    count: u8,
    workers: u8,
) -> Result<bool, AllocError> {
    let mut slots = all_received(alloc, count)?;
    if slots.len() > 24 || workers == 0 || workers > 16 {
        return Ok(false);
    }
    decode_all(rt, workers, &OpenGate, slots.as_mut_slice());
    Ok(slots.len() == count as usize && are_decoded(&slots))
}

#[test]
fn words_by_workers(rt: HostRuntime) -> Result<(), Fail> {
    for count in [0u8, 1, 5, 24] {
        for workers in [1u8, 2, 7, 16] {
            assert!(rt; is_plain(&rt, rt.alloc(), count, workers)?);
        }
    }
    Ok(())
}
