// Bits in a queue, and in a word compared with a queue.
use bit_pack::{BitBuf, BitWord};
use mode_set::Rate;
use puncture::PuncturedEncoder;

// Appends bits, if there is room for sixteen.
fn push(word: &mut BitWord, bits: u16, count: u8) {
    if count <= 16 && word.waiting() <= 16 {
        word.push_bits(bits, count);
    }
}

// The number of bits after these were appended, and the bytes taken then.
fn taken_behind(word: &mut BitWord, bits: u16, count: u8) -> (usize, [Option<u8>; 3]) {
    push(word, bits, count);
    let waiting = word.waiting();
    let taken = [word.take_byte(), word.take_byte(), word.take_byte()];
    (waiting as usize, taken)
}

// Only the lowest bits of each number.
#[test]
fn words_to_bytes(rt: HostRuntime) {
    let mut word = BitWord::new();
    for (bits, count, waiting, taken) in [
        (0u16, 0u8, 0usize, [None, None, None]),
        (0xFFF5, 3, 3, [None, None, None]),
        (0b1111_1000_1101, 12, 15, [Some(0b1011_1111u8), None, None]),
        (0x1234, 16, 23, [Some(0b0001_1010), Some(0b0010_0100), None]),
        (1, 1, 8, [Some(0b0110_1001), None, None]),
    ] {
        assert_eq!(rt; taken_behind(&mut word, bits, count), (waiting, taken));
    }
}

// Each byte at each rate, sixteen times: the word gives the same as the queue.
#[test]
fn words_are_queues(rt: HostRuntime) {
    for rate in [
        Rate::R1of2,
        Rate::R2of3,
        Rate::R3of4,
        Rate::R5of6,
        Rate::R7of8,
    ] {
        let mut queued = PuncturedEncoder::start(rate);
        let mut queue: BitBuf<3> = BitBuf::new();
        let mut worded = PuncturedEncoder::start(rate);
        let mut word = BitWord::new();
        let mut byte = 1u8;
        let mut taken = 0u32;
        for _step in 0..4096u32 {
            byte = byte.wrapping_mul(141).wrapping_add(43);
            if queue.waiting() <= 8 && word.waiting() <= 16 {
                queued.push_byte(byte, &mut queue);
                worded.push_byte_in_word(byte, &mut word);
            }
            for _byte in 0..2u8 {
                let wanted = queue.take_byte();
                assert_eq!(rt; word.take_byte(), wanted);
                taken = taken.wrapping_add(wanted.is_some() as u32);
            }
            assert_eq!(rt; word.waiting(), queue.waiting());
        }
        // none was left out
        assert!(rt; taken >= 4096);
    }
}

// The first byte after one was appended to the queue, and then the number of bits and the byte left.
fn through(queue: &mut BitBuf<3>, byte: u8) -> (Option<u8>, usize, Option<u8>) {
    if queue.waiting() <= 16 {
        queue.push_byte(byte);
    }
    let taken = queue.take_byte();
    (taken, queue.waiting(), queue.take_byte())
}

// The next four bits.
fn four_bits(queue: &mut BitBuf<3>) -> [Option<bool>; 4] {
    let mut bits = [None; 4];
    for bit in &mut bits {
        *bit = queue.take_bit();
    }
    bits
}

// Three bits, and bytes after them: they wrap around the end of the ring.
#[test]
fn bits_to_bytes(rt: HostRuntime) {
    let mut queue: BitBuf<3> = BitBuf::new();
    assert_eq!(rt; queue.take_bit(), None);
    for bit in [true, false, true] {
        if queue.waiting() < 24 {
            queue.push_bit(bit);
        }
    }
    for (byte, taken) in [
        (0b1100_0110u8, 0b1011_1000u8),
        (0x12, 0b1100_0010),
        (0x34, 0b0100_0110),
        (0x56, 0b1000_1010),
        (0x78, 0b1100_1111),
    ] {
        assert_eq!(rt; through(&mut queue, byte), (Some(taken), 3, None));
    }
    assert_eq!(rt;
        four_bits(&mut queue),
        [Some(false), Some(false), Some(false), None]
    );
}
