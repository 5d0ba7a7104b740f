// The outer code for disturbed bytes with their margins.
use load_gen::Load;
use rescue_words::{MarginRx, RescueCounts, RescueWords};
use std::alloc::{AllocError, Global};
use std::test::Fail;
use test_tools::{checksum, interleaved};

/// More words than any test has.
const MANY: u64 = 1_000_000;

// Takes a byte with its margin, and appends the packet that ends with it.
fn take(
    alloc: Global,
    rx: &mut RescueWords,
    byte: u8,
    margin: u32,
    to: &mut Vec<u8>,
) -> Result<(), AllocError> {
    let mut packet = Vec::with_capacity(alloc, 188)?;
    if rx.counts().words < MANY {
        rx.take(byte, margin, &mut packet);
    }
    to.extend_from_slice(packet.as_slice())?;
    Ok(())
}

// The packets and counts of bytes with their margins.
fn rescued(
    alloc: Global,
    bytes: &[u8],
    margins: &[u32],
) -> Result<(Vec<u8>, RescueCounts), AllocError> {
    let mut rx = RescueWords::new(alloc)?;
    let mut packets = Vec::new(alloc);
    for (byte, margin) in bytes.iter().zip(margins) {
        take(alloc, &mut rx, *byte, *margin, &mut packets)?;
    }
    Ok((packets, rx.counts()))
}

// Whether a byte of the interleaved stream is inverted: 144 consecutive bytes are.
fn is_inverted(place: usize) -> bool {
    4000 <= place && place < 4144
}

// The number of inverted bytes in a word. The interleaver sends byte q of the words as byte q + 204 b of the stream,
// where b is its branch, q mod 12 (EN 300 744, 4.3.2).
fn inverted_in(word: usize) -> usize {
    let mut count = 0usize;
    for byte in 0..204usize {
        let from = 204 * word.min(100) + byte;
        if is_inverted(from + 204 * (from % 12)) && count < 204 {
            count += 1;
        }
    }
    count
}

// How a word with this number of inverted bytes is counted: up to eight are corrected; up to twelve are rescued if the
// least margins are theirs, as eight are erased and four more may differ.
fn kind_of(inverted: usize) -> [u64; 4] {
    match inverted {
        0 => [1, 0, 0, 0],
        1..=8 => [0, 1, 0, 0],
        9..=12 => [0, 0, 1, 0],
        _ => [0, 0, 0, 1],
    }
}

// The increase of the counts of clean, corrected, rescued and bad words.
fn grown(old: RescueCounts, new: RescueCounts) -> [u64; 4] {
    [
        new.clean.wrapping_sub(old.clean),
        new.corrected.wrapping_sub(old.corrected),
        new.rescued.wrapping_sub(old.rescued),
        new.bad.wrapping_sub(old.bad),
    ]
}

// Each word of the same stream in turn: how it is counted, and that its packet is the one sent.
#[test]
fn inverted_run_word_by_word(rt: HostRuntime) -> Result<(), Fail> {
    let alloc = rt.alloc();
    let (packets, bytes) = interleaved(alloc, 19, 40)?;
    let mut rx = RescueWords::new(alloc)?;
    let mut word = 0usize;
    for (place, byte) in bytes.iter().enumerate() {
        let before = rx.counts();
        let mut packet = Vec::new(alloc);
        let is_wrong = is_inverted(place);
        let (sent_byte, margin) = if is_wrong { (!*byte, 0) } else { (*byte, 1) };
        take(alloc, &mut rx, sent_byte, margin, &mut packet)?;
        if rx.counts().words != before.words {
            let at = 188 * word.min(100);
            assert!(rt;
                grown(before, rx.counts()) == kind_of(inverted_in(word)),
                "word {word}"
            );
            assert!(rt;
                packets[at.min(packets.len())..].starts_with(&packet),
                "word {word}"
            );
            assert!(rt; packet.len() == 188, "word {word}");
            word = word.saturating_add(1);
        }
    }
    assert_eq!(rt; word, 29);
    Ok(())
}

// The place in the stream of a byte of a word, eleven words of start-up not counted.
fn place_in_stream(word: usize, byte: usize) -> usize {
    let from = 204 * word.min(100) + byte.min(203);
    from + 204 * (from % 12)
}

// Each margin is the number of its byte in the stream: the plain program returns those of each word in the order of its
// bytes.
#[test]
fn margins_of_whole_words(rt: HostRuntime) -> Result<(), Fail> {
    let mut rx = MarginRx::new(rt.alloc())?;
    let mut words = 0usize;
    for place in 0..4080u32 {
        if let Some(margins) = rx.take(place) {
            for (byte, margin) in margins.iter().enumerate() {
                let is_there = words < 11 || *margin as usize == place_in_stream(words - 11, byte);
                assert!(rt; is_there, "word {words}, byte {byte}");
            }
            words = words.saturating_add(1);
        }
    }
    assert_eq!(rt; words, 20);
    Ok(())
}

// Of forty packets 144 consecutive interleaved bytes are inverted and have margin 0, all others 1: twelve bytes in each
// branch, so eleven words are wrong in twelve positions and one in six or seven at either end. All packets are
// received.
#[test]
fn inverted_run_of_144(rt: HostRuntime) -> Result<(), Fail> {
    let alloc = rt.alloc();
    let (packets, mut bytes) = interleaved(alloc, 19, 40)?;
    let mut margins = Vec::new(alloc);
    for (place, byte) in bytes.iter_mut().enumerate() {
        if is_inverted(place) {
            *byte ^= 0xFF;
        }
        margins.push(if is_inverted(place) { 0 } else { 1 })?;
    }
    let (found, counts) = rescued(alloc, &bytes, &margins)?;
    let expected = RescueCounts {
        words: 29,
        clean: 16,
        corrected: 2,
        rescued: 11,
        bad: 0,
        unphased: 0,
    };
    assert_eq!(rt; counts, expected);
    assert!(rt; packets.starts_with(found.as_slice()));
    assert_eq!(rt; found.len(), 5452);
    Ok(())
}

// Bytes with random errors, and their margins, mostly small for wrong bytes.
fn disturbed(
    alloc: Global,
    number: u32,
    limit: i16,
    bytes: &mut [u8],
) -> Result<Vec<u32>, AllocError> {
    let mut load = Load::start(number);
    let mut margins = Vec::new(alloc);
    for byte in bytes {
        let wrong = load.shift(1000) < limit;
        let mask = load.shift(127).unsigned_abs() as u8 | 1;
        let size = load.shift(5000).unsigned_abs() as u32;
        if wrong {
            *byte ^= mask;
        }
        margins.push(if !wrong {
            size.wrapping_mul(4000).wrapping_add(200)
        } else if size > 4500 {
            size.wrapping_mul(3000)
        } else {
            size / 8
        })?;
    }
    Ok(margins)
}

// Sixty packets with random errors: counts and packets are those of an independent program by the definitions, over
// index formulas and whole lists.
#[test]
fn drawn_errors(rt: HostRuntime) -> Result<(), Fail> {
    let alloc = rt.alloc();
    let cases = [
        (1u32, -930i16, [49u64, 0, 32, 17, 0, 0], 1_234_365_269u32),
        (2, -900, [49, 0, 10, 27, 12, 0], 1_226_404_189),
        (3, -890, [49, 0, 9, 24, 16, 8], 2_788_504_862),
        (4, -880, [49, 0, 8, 16, 25, 8], 804_139_997),
    ];
    for (number, limit, kinds, sum) in cases {
        let (_, mut bytes) = interleaved(alloc, number, 60)?;
        let margins = disturbed(alloc, number.wrapping_add(1000), limit, &mut bytes)?;
        let (found, counts) = rescued(alloc, &bytes, &margins)?;
        let have = [
            counts.words,
            counts.clean,
            counts.corrected,
            counts.rescued,
            counts.bad,
            counts.unphased,
        ];
        assert!(rt; have == kinds, "limit {limit}");
        assert!(rt; checksum(&found) == sum, "limit {limit}");
    }
    Ok(())
}
