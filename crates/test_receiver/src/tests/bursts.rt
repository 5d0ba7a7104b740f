// Bursts in the interleaved bytes of packets.
use load_gen::{Burst, Load};
use outer_chain::OuterRx;
use rs204::Outcome;
use std::alloc::{AllocError, Global};
use std::process::Abort;
use std::test::Fail;
use test_tools::interleaved;

/// The number of unchanged bytes between two bursts that the law requires.
const APART: usize = 2448;

// Applies the mask to `len` bytes from an index on.
fn lay(bytes: &mut [u8], first: usize, len: usize, mask: u8) {
    let end = first.saturating_add(len);
    for (place, byte) in bytes.iter_mut().enumerate() {
        if first <= place && place < end {
            *byte ^= mask;
        }
    }
}

/// The result for interleaved bytes: the packets, and the numbers of the words without a codeword close to them.
#[derive(Drop)]
struct Found {
    packets: Vec<u8>,
    bad: Vec<u64>,
}

// Takes a byte. `number` is that of the next word.
fn take(rx: &mut OuterRx, byte: u8, number: &mut u64, found: &mut Found) -> Result<(), AllocError> {
    if let Some(slot) = rx.take_byte(byte) {
        let mut slot = slot;
        slot.decode();
        if matches!(slot.outcome, Outcome::Bad) {
            found.bad.push(*number)?;
        }
        *number = number.saturating_add(1);
        if let Some(packet) = rx.finish_word(&slot) {
            found.packets.extend_from_slice(packet.bytes().as_slice())?;
        }
    }
    Ok(())
}

fn take_all(rx: &mut OuterRx, bytes: &[u8], found: &mut Found) -> Result<(), AllocError> {
    let mut number = 0u64;
    for byte in bytes {
        take(rx, *byte, &mut number, found)?;
    }
    Ok(())
}

// What comes back for interleaved bytes.
fn back(alloc: Global, bytes: &[u8]) -> Result<Found, AllocError> {
    let mut found = Found {
        packets: Vec::new(alloc),
        bad: Vec::new(alloc),
    };
    let mut rx = OuterRx::new(alloc)?;
    let result = take_all(&mut rx, bytes, &mut found);
    result.map(|()| found)
}

// The first packets.
fn front<'b>(rt: &impl Abort, packets: &'b [u8], count: usize) -> &'b [u8] {
    assert!(rt; count < 1000 && 188 * count <= packets.len());
    &packets[..188 * count]
}

// Replaces a packet by the result for a word received with its bytes 0, 12 and so on to 96 inverted: the sync byte is
// restored, and the packet has the error indicator.
fn lose(packets: &mut [u8], number: u64) {
    let first = (number as usize).wrapping_mul(188);
    for (place, byte) in packets.iter_mut().enumerate() {
        let within = place.wrapping_sub(first);
        if 12 <= within && within <= 96 && within % 12 == 0 {
            *byte ^= 0xFF;
        }
        if within == 1 {
            *byte |= 0x80;
        }
    }
}

// Whether this is received, with these words lost, if this number of bytes from an index on is inverted.
fn comes_back(
    rt: &impl Abort,
    alloc: Global,
    sent: &(Vec<u8>, Vec<u8>),
    (first, len): (usize, usize),
    lost: &[u64],
) -> Result<bool, AllocError> {
    let mut received = sent.1.clone()?;
    lay(&mut received, first, len, 0xFF);
    let found = back(alloc, &received)?;
    let mut expected = Vec::from_slice(alloc, front(rt, &sent.0, 19))?;
    for number in lost {
        lose(&mut expected, *number);
    }
    Ok(found.bad.as_slice() == lost && found.packets == expected)
}

// Thirty packets, with a run of inverted interleaved bytes. Byte p belongs to word p / 204 less p mod 12, so 97 bytes
// across two words of positions hit no word in more than eight bytes, and 97 within one hit a word in nine: only that
// word, the second, is lost. Nineteen packets are received.
#[test]
fn runs_of_96_and_97(rt: HostRuntime) -> Result<(), Fail> {
    let alloc = rt.alloc();
    let thirty = interleaved(alloc, 15, 30)?;
    let cases = [
        (2400, 96, [].as_slice()),
        (2448, 96, [].as_slice()),
        (2400, 97, [].as_slice()),
        (2448, 97, [12u64].as_slice()),
    ];
    for (first, len, lost) in cases {
        let as_expected = comes_back(&rt, alloc, &thirty, (first, len), lost)?;
        assert!(rt; as_expected, "{len} bytes from {first} on");
    }
    Ok(())
}

// The position after a burst and the unchanged bytes that follow it.
fn behind(place: usize, burst: Burst) -> usize {
    place
        .saturating_add(usize::from(burst.len))
        .saturating_add(APART)
}

// Applies eight random bursts from this number, from a random position on.
fn lay_drawn(bytes: &mut [u8], number: u32) {
    let mut load = Load::start(number);
    let mut place = load.piece(APART as u32) as usize;
    for _ in 0..8u32 {
        let burst = load.burst();
        lay(bytes, place, usize::from(burst.len), burst.mask);
        place = behind(place, burst);
    }
}

// Whether the bursts of this number change bytes, but no packet.
fn nothing_is_lost(rt: &impl Abort, alloc: Global, number: u32) -> Result<bool, AllocError> {
    let (packets, bytes) = interleaved(alloc, number, 80)?;
    let mut received = bytes.clone()?;
    lay_drawn(&mut received, number);
    let found = back(alloc, &received)?;
    let same = found.packets.as_slice() == front(rt, &packets, 69);
    Ok(received != bytes && found.bad.is_empty() && same)
}

// Random bursts, as close to each other as the law allows and from a random position on, change no packet.
#[test]
fn drawn_bursts(rt: HostRuntime) -> Result<(), Fail> {
    let alloc = rt.alloc();
    for number in 0..12u32 {
        let nothing = nothing_is_lost(&rt, alloc, number)?;
        assert!(rt; nothing, "number {number}");
    }
    Ok(())
}
