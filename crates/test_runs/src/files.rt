// The input files of the runs.
use std::alloc::{AllocError, Global};
use ts_packet::Packet;

/// QPSK at 1/2 in the 2K mode.
pub const BASE: &str =
    "mode = \"2k\"\nconstellation = \"qpsk\"\nrate_hp = \"1/2\"\nguard = \"1/32\"\n";

/// QPSK at 1/2 in the 8K mode.
pub const WIDE: &str =
    "mode = \"8k\"\nconstellation = \"qpsk\"\nrate_hp = \"1/2\"\nguard = \"1/32\"\n";

/// Two streams, of 1/2 and 3/4, in 16-QAM in the 2K mode.
pub const LAYERED: &str =
    "mode = \"2k\"\nconstellation = \"16qam\"\nhierarchy = \"4\"\nrate_hp = \"1/2\"\nrate_lp = \"3/4\"\nguard = \"1/32\"\n";

/// The report of a reception of the super-frame of null packets in `BASE`.
pub const WHOLE_NULLS: &str =
    "symbols 272 tail 0\ntps read 4 bad 0\nhp words 241 clean 241 corrected 0 bad 0 unphased 0 unmerged 0\n";

/// A transport file.
#[derive(Clone, Copy)]
pub enum File {
    /// A number of null packets, and a number of bytes of one more.
    Nulls(usize, usize),
    /// A number of null packets, a packet that begins with 00, and a number of null packets.
    Unsynced(usize, usize),
    /// A number of packets with counting payloads, and a number of null packets.
    Counted(u32, usize),
}

impl File {
    /// The file's bytes. The only error is lack of memory.
    pub fn bytes(self, alloc: Global) -> Result<Vec<u8>, AllocError> {
        let mut bytes = Vec::new(alloc);
        match self {
            File::Nulls(count, tail) => {
                add_nulls(count, &mut bytes)?;
                for byte in Packet::null().bytes().iter().take(tail) {
                    bytes.push(*byte)?;
                }
            }
            File::Unsynced(before, behind) => {
                add_nulls(before, &mut bytes)?;
                bytes.extend_from_slice([0u8; 188].as_slice())?;
                add_nulls(behind, &mut bytes)?;
            }
            File::Counted(count, nulls) => {
                for number in 0..count {
                    add_counted(number, &mut bytes)?;
                }
                add_nulls(nulls, &mut bytes)?;
            }
        }
        Ok(bytes)
    }
}

fn add_nulls(count: usize, to: &mut Vec<u8>) -> Result<(), AllocError> {
    for _ in 0..count {
        to.extend_from_slice(Packet::null().bytes().as_slice())?;
    }
    Ok(())
}

// A packet with a counting payload, like those of `examples/sample.ts`.
fn add_counted(number: u32, to: &mut Vec<u8>) -> Result<(), AllocError> {
    let unit_start = if number == 0 { 0x41 } else { 0x01 };
    let counter = 0x10 | (number % 16) as u8;
    to.extend_from_slice([0x47, unit_start, 0x00, counter].as_slice())?;
    for place in 0..184u32 {
        to.push((number.wrapping_mul(7).wrapping_add(place) % 256) as u8)?;
    }
    Ok(())
}

/// The bytes of a text, followed by another. The only error is lack of memory.
pub fn text_bytes(alloc: Global, text: &str, more: &str) -> Result<Vec<u8>, AllocError> {
    let mut bytes = Vec::new(alloc);
    bytes.extend_from_slice(text.as_bytes())?;
    bytes.extend_from_slice(more.as_bytes())?;
    Ok(bytes)
}
