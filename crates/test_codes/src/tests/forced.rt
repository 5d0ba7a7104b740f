// All bits of one state, from both kinds of survivors, and from a traceback through the decision words.
use bit_pack::WaitBuf;
use std::alloc::{AllocError, Global};
use std::rt::HostRuntime;
use std::test::Fail;
use survivor_ring::{ListSurvivors, RingSurvivors, Survivors};
use test_tools::next_number;

/// Twenty random decision words, from seed 1.
fn decisions() -> [u64; 20] {
    let mut words = [0u64; 20];
    let mut state = 1;
    for word in words.iter_mut() {
        let high = u64::from(next_number(&mut state));
        *word = high << 32 | u64::from(next_number(&mut state));
    }
    words
}

// The bits of the path to a state, oldest first as the highest: each is the newest bit of the state after its step. The
// states before n are 2n and 2n + 1 modulo 64, and bit n of the decision word is one for the odd one.
fn walked(words: &[u64; 20], end: u8) -> u32 {
    let mut state = end % 64;
    let mut bits = 0u32;
    for step in 0..20usize {
        bits |= u32::from(state >> 5) << step;
        let odd = (words[19 - step] >> (state % 64) & 1) as u8;
        state = (state << 1 & 63) | odd;
    }
    bits
}

// The bits in the queue, as a number, and how many there are.
fn all_of(bits: &mut WaitBuf) -> (u32, u32) {
    let mut number = 0u32;
    let mut count = 0u32;
    for _ in 0..64u8 {
        if let Some(bit) = bits.take_bit() {
            number = number.wrapping_mul(2).wrapping_add(bit as u32);
            count = count.wrapping_add(1);
        }
    }
    (number, count)
}

// The bits of state 37 after twenty steps, and how many bits are pending then.
fn forced<V: Survivors<20>>(
    alloc: Global,
    words: &[u64; 20],
) -> Result<(u32, u32, u32), AllocError> {
    let mut survivors = V::new(alloc, u64::MAX)?;
    survivors.push_all(words.as_slice());
    let mut to = WaitBuf::new();
    survivors.force(37, &mut to);
    let (bits, count) = all_of(&mut to);
    Ok((bits, count, survivors.waiting()))
}

#[test]
fn forced_at_one_state(rt: HostRuntime) -> Result<(), Fail> {
    let words = decisions();
    let want = (walked(&words, 37), 20, 0);
    let lists = forced::<ListSurvivors<20>>(rt.alloc(), &words)?;
    let ring = forced::<RingSurvivors<20>>(rt.alloc(), &words)?;
    assert!(rt; [lists, ring] == [want; 2]);
    Ok(())
}
