// Packets and bytes.
use load_gen::Load;
use outer_chain::OuterTx;
use std::alloc::{AllocError, Global};

/// Random packets of this generator number, and their interleaved bytes. The only error is lack of memory.
pub fn interleaved(
    alloc: Global,
    number: u32,
    count: usize,
) -> Result<(Vec<u8>, Vec<u8>), AllocError> {
    let mut load = Load::start(number);
    let mut tx = OuterTx::new(alloc)?;
    let mut packets = Vec::new(alloc);
    let mut bytes = Vec::new(alloc);
    for _ in 0..count {
        let packet = load.packet();
        packets.extend_from_slice(packet.bytes().as_slice())?;
        bytes.extend_from_slice(tx.take(&packet).as_slice())?;
    }
    Ok((packets, bytes))
}

/// The bytes as the digits of a number in base 31, modulo 2^32.
pub fn checksum(bytes: &[u8]) -> u32 {
    let mut sum = 0u32;
    for byte in bytes {
        sum = sum.wrapping_mul(31).wrapping_add(u32::from(*byte));
    }
    sum
}
