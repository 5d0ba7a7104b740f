// Four thousand bytes through both interleavers, against the index formulas.
use forney::{Deinterleaver, Interleaver, WordInterleaver};
use std::test::Fail;

// Byte `place - delay` of the coded stream, and 0 before it.
fn coded(place: usize, delay: usize) -> u8 {
    if place < delay {
        0
    } else {
        ((place - delay) % 251) as u8
    }
}

// A byte after the interleaver, and the byte after both.
fn steps(interleaver: &mut Interleaver, deinterleaver: &mut Deinterleaver, byte: u8) -> (u8, u8) {
    let sent = interleaver.step(byte);
    (sent, deinterleaver.step(sent))
}

#[test]
fn four_thousand_bytes(rt: HostRuntime) -> Result<(), Fail> {
    let mut interleaver = Interleaver::new(rt.alloc())?;
    let mut deinterleaver = Deinterleaver::new(rt.alloc())?;
    for place in 0..4000usize {
        let got = steps(&mut interleaver, &mut deinterleaver, coded(place, 0));
        assert_eq!(rt; got, (coded(place, 204 * (place % 12)), coded(place, 2244)));
    }
    Ok(())
}

// Word `number` of a stream, a byte at a time and whole.
fn words(
    bytes: &mut Interleaver,
    whole: &mut WordInterleaver,
    number: u16,
) -> ([u8; 204], [u8; 204]) {
    let mut one = [0; 204];
    for (place, byte) in one.iter_mut().enumerate() {
        *byte = coded(204 * number as usize + place, 0);
    }
    let mut other = one;
    for byte in one.iter_mut() {
        *byte = bytes.step(*byte);
    }
    whole.take(&mut other);
    (one, other)
}

#[test]
fn whole_words_are_as_their_bytes(rt: HostRuntime) -> Result<(), Fail> {
    let mut bytes = Interleaver::new(rt.alloc())?;
    let mut whole = WordInterleaver::new(rt.alloc())?;
    for number in 0..30u16 {
        let (one, other) = words(&mut bytes, &mut whole, number);
        assert_eq!(rt; one[203], coded(204 * number as usize + 203, 204 * 11));
        assert_eq!(rt; one.as_slice(), other.as_slice());
    }
    Ok(())
}
